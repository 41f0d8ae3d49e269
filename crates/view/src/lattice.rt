// The table of ranks of a sheet, and with it the positions of its points.
ghost use Rattle.std.specs.Prelude.{◌≤◌};
ghost use Rattle.view.specs.View.{max_points, Ranked};

use crate::{Floats, Ranks};

// Where each point is seen.
#[derive(Clone, Copy)]
pub struct Positions<'a> {
    pub x: &'a Floats,
    pub y: &'a Floats,
}

// The table of ranks of so many points.
#[derive(Clone, Copy)]
pub struct Lattice<'a> {
    pub ranks: &'a Ranks,
    pub count: usize,
    ghost few: { count ≤ max_points },
}

// Such a table, and where each point is seen.
#[derive(Clone, Copy)]
pub struct SeenLattice<'a> {
    pub lattice: Lattice<'a>,
    pub seen: Positions<'a>,
}

// A table of ranks whose rows, columns and places of indices are ranks.
#[derive(Clone, Copy)]
pub struct SheetLattice<'a> {
    pub lattice: Lattice<'a>,
    ghost ranked: { Ranked lattice.count lattice.ranks.now },
}

// Such a table, and where each point is seen.
#[derive(Clone, Copy)]
pub struct View<'a> {
    pub sheet: SheetLattice<'a>,
    pub seen: Positions<'a>,
}
