// The search of each round for what goes in it. See specs/Work.antt.
ghost use Rattle.peel.specs.Work.{Queued};

use crate::round::Round;
use crate::state::{State, States};
use view::{MAX_POINTS, Marks, Places};

// The marks of the ranks that go, and the queue of these ranks with its length.
#[derive(Drop)]
pub struct Removals {
    pub marks: Marks,
    pub queue: Places,
    pub tail: usize,
    ghost queued: { Queued marks queue tail },
}

impl Removals {
    ghost use Rattle.std.specs.Prelude.{◌≡◌, ℕ, ◌+◌, ◌≤◌, ◌<◌, get_or, set, length, replicate};
    ghost use Rattle.view.specs.View.{max_points};
    ghost use Rattle.peel.specs.Work.{Whole, Removed};
    ghost use Rattle.peel.specs.Steps.{whole_in, SearchedBy, beside_in, beside_queued_in};

    // Nothing has gone.
    pub fn new() -> Removals
        ensures marks { result.marks ≡ replicate max_points 0 }
        ensures queue { result.queue ≡ replicate max_points 0 }
        ensures none { result.tail ≡ 0 }
    {
        Removals {
            marks: [0; MAX_POINTS],
            queue: [0; MAX_POINTS],
            tail: 0,
        }
    }

    // Marks rank x, which has no mark, and puts it on the queue.
    fn put(&mut self, x: usize)
        requires { (x < max_points) × (get_or self.old.marks x 0 ≡ 1 → ⊥) }
        ensures marks { self.new.marks ≡ set self.old.marks x 1 }
        ensures queue { self.new.queue ≡ set self.old.queue self.old.tail x }
        ensures one_more { self.new.tail ≡ self.old.tail + 1 }
    {
        self.marks[x] = 1;
        self.queue[self.tail] = x as u16;
        self.tail += 1;
    }

    // If rank k is an end and has no mark, each rank of its index goes.
    fn consider(&mut self, round: &Round, k: usize)
        requires { (k < round.now.links.now.sheet.lattice.count) × whole_in round.now self.old }
        ensures { SearchedBy round.now (λ (j : ℕ). j ≡ k) self.old self.new }
    {
        if self.marks[k] == 1 || !round.is_leaf(k) {
            return;
        }
        let mut next = round.links.last(k);
        while let Some(x) = next {
            self.put(x);
            next = round.links.before(x);
        }
    }

    // Considers each rank at a side of rank x. These are the ranks that have x at a side of theirs.
    fn around(&mut self, round: &Round, x: usize)
        requires { (x < max_points) × whole_in round.now self.old }
        ensures { SearchedBy round.now (beside_in round.now x) self.old self.new }
    {
        for o in round.links.sides {
            if let Some(k) = round.links.sheet.lattice.neighbour(x, *o) {
                self.consider(round, k);
            }
        }
    }

    // Finds the ends of a round: only beside the ranks that went in the round before, which stand on the queue from `from` on, can there be a new one.
    pub fn look(&mut self, round: &Round, from: usize)
        requires { whole_in round.now self.old }
        ensures { SearchedBy round.now (beside_queued_in round.now self.old.queue from self.old.tail) self.old self.new }
    {
        for p in from..self.tail {
            self.around(round, usize::from(self.queue[p]));
        }
    }

    // Finds the ends of the first round.
    pub fn scan(&mut self, round: &Round)
        requires { whole_in round.now self.old }
        ensures { SearchedBy round.now (λ (k : ℕ). k < round.now.links.now.sheet.lattice.count) self.old self.new }
    {
        for k in 0..round.links.sheet.lattice.count {
            self.consider(round, k);
        }
    }

    // The ranks on the queue, from `from` on, are not live any more.
    pub fn remove(&self, from: usize, state: &mut States)
        requires { from ≤ self.now.tail }
        ensures { Removed self.now.queue from self.now.tail state.old state.new }
    {
        for x in &self.queue[from..self.tail] {
            state[usize::from(*x)] = State::Dead;
        }
    }
}
