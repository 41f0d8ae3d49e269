// A round of the peel.
use crate::links::Links;
use crate::state::States;

// The links of the points, and their states at the start of a round.
#[derive(Clone, Copy)]
pub struct Round<'a> {
    pub links: &'a Links<'a>,
    pub state: &'a States,
}

impl Round<'_> {
    ghost use Rattle.std.specs.Prelude.{◌≡◌, ◌<◌};
    ghost use Rattle.peel.specs.Steps.{leaf_in};

    // Rank k is live and weak, and has at most one live neighbour.
    pub fn is_leaf(&self, k: usize) -> bool
        requires { k < self.now.links.now.sheet.lattice.count }
        ensures { result ≡ leaf_in self.now k }
    {
        if !self.state[k].is_weak() {
            return false;
        }
        let mut count = 0;
        for o in self.links.sides {
            if let Some(j) = self.links.sheet.lattice.neighbour(k, *o) {
                count += usize::from(self.state[j].is_live());
            }
        }
        count < 2
    }
}
