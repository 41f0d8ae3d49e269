// Two tables of points, and the order of their points.
ghost use Rattle.std.specs.Prelude.{◌≤◌};

use cells::Points;
use view::Places;

// Two tables in cell order, and the offset of the right one's cells: du and dv, each plus 16,000.
#[derive(Clone, Copy)]
pub struct Halves<'a> {
    pub left: Points<'a>,
    pub right: Points<'a>,
    pub up_u: u32,
    pub up_v: u32,
    ghost reached: { (up_u ≤ 32000) × (up_v ≤ 32000) },
}

// The points of both in cell order, by number: below the count of the left ones the left point of that rank, else the right point whose rank is
// the number less that count.
#[derive(Clone, Copy)]
pub struct Sources {
    pub count: usize,
    pub order: Places,
}
