// The search for patches, one after the other. See specs/Search.antt.
ghost use Rattle.patches.specs.Search.{Worklist};

use crate::LinkedLattice;
use view::{MAX_POINTS, Marks, Places};

// Which ranks have been put on the worklist, their labels, and the worklist with its length.
#[derive(Drop)]
pub struct Search {
    pub visited: Marks,
    pub label: Places,
    pub queue: Places,
    pub tail: usize,
    ghost list: { Worklist visited label queue tail },
}

impl Search {
    ghost use Rattle.std.specs.Prelude.{◌≡◌, ◌≤◌, ◌<◌, ◌+◌, replicate};
    ghost use Rattle.view.specs.View.{max_points};
    ghost use Rattle.patches.specs.Search.{start_marks, unlabelled};
    ghost use Rattle.patches.specs.Steps.{VisitOf, AdvancedOf};

    // Before the first patch: each number that is not the rank of a survivor counts as visited, and each rank has the label n, none.
    pub fn new(n: usize, dropped: &Marks) -> Search
        requires { n ≤ max_points }
        ensures marks { result.visited ≡ start_marks n dropped.now }
        ensures labels { result.label ≡ unlabelled n }
        ensures work { result.queue ≡ replicate max_points 0 }
        ensures none { result.tail ≡ 0 }
    {
        Search {
            visited: view::filled(1, n, |k| u8::from(dropped[k] != 0)),
            label: view::filled(0, n, |_| n as u16),
            queue: [0; MAX_POINTS],
            tail: 0,
        }
    }

    // Marks rank j, labels it s and puts it on the worklist, if it has no mark yet.
    fn visit(&mut self, s: usize, j: usize)
        requires { (s < max_points) × (j < max_points) }
        ensures { VisitOf s j self.old self.new }
    {
        if self.visited[j] == 0 {
            self.visited[j] = 1;
            self.label[j] = s as u16;
            self.queue[self.tail] = j as u16;
            self.tail += 1;
        }
    }

    // Visits each neighbour of the rank at `head` of the worklist.
    fn expand(&mut self, linked: &LinkedLattice, s: usize, head: usize)
        requires { (s < max_points) × (head < self.old.tail) }
        ensures { AdvancedOf linked.now s head self.old s (head + 1) self.new }
    {
        let x = usize::from(self.queue[head]);
        for o in linked.sides {
            if let Some(j) = linked.lattice.neighbour(x, *o) {
                self.visit(s, j);
            }
        }
    }

    // Marks and labels the whole patch of rank s, if it has no mark yet.
    pub fn fill(&mut self, linked: &LinkedLattice, s: usize)
        requires { (s < max_points) }
        ensures { AdvancedOf linked.now s self.old.tail self.old (s + 1) self.new.tail self.new }
    {
        let start = self.tail;
        self.visit(s, s);
        let mut head = start;
        while head < self.tail {
            self.expand(linked, s, head);
            head += 1;
        }
    }
}
