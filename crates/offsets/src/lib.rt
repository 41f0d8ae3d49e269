// Offsets: what is added to a cell's u and v. The named ones, the place that each has among the 25 of a corner, and the two ways along the
// lattice. See specs/Offsets.antt.
#![tactic(auto)]

ghost use Rattle.std.specs.Prelude.{◌≡◌, true, ◌≤◌, ◌<◌};
ghost use Rattle.offsets.specs.Offsets.{is_within2, up_by2, place_of};

mod axis;

pub use axis::Axis;
use std::marker::Model;

// A pair (du, dv), each from -2 to 2.
#[derive(Clone, Copy)]
pub struct Offset {
    pub du: i8,
    pub dv: i8,
}

impl Model for Offset {
    ghost use Rattle.std.specs.Prelude.{◌≡◌, true};
    ghost use Rattle.offsets.specs.Pair.{Offset};
    ghost use Rattle.offsets.specs.Offsets.{is_near};

    ghost Value = { Offset };

    ghost view = { λ o. record { du = o.du; dv = o.dv } };

    ghost invariant = { λ o. is_near (record { du = o.du; dv = o.dv }) ≡ true };

    ghost inverse = { λ o. record { du = o.du; dv = o.dv } };
}

// To the cell itself, and to those that share an edge with it.
pub const OWN: Offset = Offset { du: 0, dv: 0 };

pub const NEXT_U: Offset = Offset { du: 1, dv: 0 };

pub const PREV_U: Offset = Offset { du: -1, dv: 0 };

pub const NEXT_V: Offset = Offset { du: 0, dv: 1 };

pub const PREV_V: Offset = Offset { du: 0, dv: -1 };

// To the cell at u - 1 and v - 1.
pub const PREV_UV: Offset = Offset { du: -1, dv: -1 };

// A part of an offset, plus 2.
fn up_by_2(z: i8) -> usize
    requires { is_within2 z ≡ true }
    ensures { (result ≡ up_by2 z) × (result ≤ 4) }
{
    (z + 2) as usize
}

// The place of an offset among the 25.
pub fn place(o: Offset) -> usize
    ensures { (result ≡ place_of o) × (result < 25) }
{
    5 * up_by_2(o.du) + up_by_2(o.dv)
}
