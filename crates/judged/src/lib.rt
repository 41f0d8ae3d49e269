// A judged sheet: what the filters find of the points of a sheet, by rank. What it is stands in specs/Judged.antt, what is shown of each rank
// in specs/Shown.antt.
#![tactic(auto)]

pub mod figures;

use local_h::ResidualColumn;
use marks::Tally;
use view::Marks;

// What the filters find that go by the points themselves, but for the residuals and the edge figures, which go into columns that the caller
// lends: the byte of marks of each rank's index, and the box boundary that is held under its index.
#[derive(Drop)]
pub struct Measured {
    pub marks: Marks,
    pub boundary: Marks,
}

// A judged sheet but for its edge figures: the same with the marks of all filters, how many patches the survivors have, how many rounds of the
// peel removed something, the tally, and the residual of each rank's index.
#[derive(Drop)]
pub struct Findings {
    pub marks: Marks,
    pub components: usize,
    pub rounds: usize,
    pub tally: Tally,
    pub residuals: ResidualColumn,
    pub boundary: Marks,
}
