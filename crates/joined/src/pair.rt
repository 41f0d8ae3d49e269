// Two halves that are joined, and the order of their points.
ghost use Rattle.std.specs.Prelude.{◌≡◌, false, ℕ, ◌<◌, ◌^◌, get_or};
ghost use Rattle.joined.specs.Joined.{bad_move};
ghost use Rattle.joined.specs.Halved.{Halved, Ordered};

use crate::moves::Move;
use merged::{Halves, Sources};
use ruling::Sheet;

// Two accepted halves and the move of the right one, which none of the numbers 15 to 17 concerns.
#[derive(Clone, Copy)]
pub struct Pair<'a> {
    pub left: &'a Sheet,
    pub right: &'a Sheet,
    pub by: Move,
    ghost halved: { ∥ Halved left.now right.now by ∥₁ },
    ghost allowed: { bad_move by ≡ false },
    ghost low: { (k : ℕ) → k < right.now.count → get_or right.now.table.idx k 0 < 2 ^ 31 },
}

// And the numbers of their joined points in cell order.
#[derive(Clone, Copy)]
pub struct Joint<'a> {
    pub pair: Pair<'a>,
    pub halves: Halves<'a>,
    pub sources: &'a Sources,
    ghost ordered: { Ordered pair.left.now pair.right.now pair.by halves sources.now },
}
