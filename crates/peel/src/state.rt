// The states of points.
ghost use Rattle.std.specs.Prelude.{◌≡◌, ℕ, ◌≤◌, eqb, get_or};
ghost use Rattle.view.specs.View.{max_points};
ghost use Rattle.marks.specs.Marks.{is_set};
ghost use Rattle.peel.specs.Work.{state_of, states_of, is_live, is_weak};

use view::{MAX_POINTS, Marks};

// A point that is not live, a live one, and a live one that is weak.
#[derive(Clone, Copy)]
pub enum State {
    Dead,
    Live,
    Weak,
}

pub type States = [State; MAX_POINTS];

impl State {
    fn new(dropped: u8, weak: u8) -> State
        ensures { result ≡ state_of (eqb dropped 0) (eqb weak 1) }
    {
        if dropped != 0 {
            State::Dead
        } else if weak == 1 {
            State::Weak
        } else {
            State::Live
        }
    }

    pub fn is_live(self) -> bool
        ensures { result ≡ is_live self }
    {
        matches!(self, State::Live | State::Weak)
    }

    pub fn is_weak(self) -> bool
        ensures { result ≡ is_weak self }
    {
        matches!(self, State::Weak)
    }
}

// The states before the first round. There is no point beyond the first n ranks.
pub fn states(dropped: &Marks, weak: &Marks, n: usize) -> States
    requires { n ≤ max_points }
    ensures { result ≡ states_of n (λ (k : ℕ). eqb (get_or dropped.now k 0) 0) (is_set weak.now) }
{
    view::filled(State::Dead, n, |k| State::new(dropped[k], weak[k]))
}
