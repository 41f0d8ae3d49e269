// The two ways along the lattice: rows lie along u, columns along v.
ghost use Rattle.std.specs.Prelude.{◌≡◌};
ghost use Rattle.offsets.specs.Axes.{forward, back};

use crate::{NEXT_U, NEXT_V, Offset, PREV_U, PREV_V};

#[derive(Clone, Copy, PartialEq, Eq)]
pub enum Axis {
    AlongU,
    AlongV,
}

impl Axis {
    // The offset that leads on along it.
    pub fn forward(self) -> Offset
        ensures { result ≡ forward self }
    {
        match self {
            Axis::AlongU => NEXT_U,
            Axis::AlongV => NEXT_V,
        }
    }

    // The offset that leads back along it.
    pub fn back(self) -> Offset
        ensures { result ≡ back self }
    {
        match self {
            Axis::AlongU => PREV_U,
            Axis::AlongV => PREV_V,
        }
    }
}
