// Points with their cells and the labels of their patches.
ghost use Rattle.patches.specs.Boxes.{CellKeys};

use view::{Places, SheetLattice, Words};

// The points of a sheet, the key of each one's cell, and the label of each one's patch.
#[derive(Drop)]
pub struct LabelledCells<'a> {
    pub sheet: SheetLattice<'a>,
    pub keys: &'a Words,
    pub label: Places,
    ghost celled: { CellKeys sheet.lattice.count keys.now },
}
