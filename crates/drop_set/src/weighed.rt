// The table of ranks of a sheet with its strengths.
ghost use Rattle.view.specs.Seen.{lattice_in};
ghost use Rattle.drop_set.specs.Given.{Weighed};

use view::{Floats, SheetLattice};

// A table of ranks whose neighbours are neighbours both ways, and the strengths of its points, which are finite.
#[derive(Clone, Copy)]
pub struct WeighedSheet<'a> {
    pub sheet: SheetLattice<'a>,
    pub strength: &'a Floats,
    ghost weighed: { Weighed (lattice_in sheet.lattice) strength.now },
}
