// The links of points: over shared edges, and to the points with the same index.
ghost use Rattle.peel.specs.Work.{Chained};

use offsets::Offset;
use view::{MAX_POINTS, SheetLattice};

// The points, the offsets that lead over a shared edge, and the chains of the ranks of each index: at the place of the index the last of them, and at
// each rank the one before it.
#[derive(Drop)]
pub struct Links<'a> {
    pub sheet: SheetLattice<'a>,
    pub sides: &'a [Offset],
    last: [Option<u16>; MAX_POINTS],
    before: [Option<u16>; MAX_POINTS],
    ghost chained: { Chained sheet.lattice.ranks.now sheet.lattice.count last before },
}

impl<'a> Links<'a> {
    ghost use Rattle.std.specs.Prelude.{◌≡◌, ◌<◌};
    ghost use Rattle.peel.specs.Work.{with_index, last_below, index_at};

    pub fn new(sheet: &SheetLattice<'a>, sides: &'a [Offset]) -> Links<'a>
        ensures sheet { result.sheet ≡ sheet.now }
        ensures sides { result.sides.now ≡ sides.now }
    {
        let mut last = [None; MAX_POINTS];
        let mut before = [None; MAX_POINTS];
        for k in 0..sheet.lattice.count {
            let b = sheet.lattice.index(k);
            before[k] = last[b];
            last[b] = Some(k as u16);
        }
        Links {
            sheet: *sheet,
            sides,
            last,
            before,
        }
    }

    // The last rank with rank k's index.
    pub fn last(&self, k: usize) -> Option<usize>
        requires { k < self.now.sheet.lattice.count }
        ensures { result ≡ last_below (with_index self.now.sheet.lattice.ranks.now (index_at self.now.sheet.lattice.ranks.now k)) self.now.sheet.lattice.count }
    {
        self.last[self.sheet.lattice.index(k)].map(usize::from)
    }

    // The rank before rank k with the same index.
    pub fn before(&self, k: usize) -> Option<usize>
        requires { k < self.now.sheet.lattice.count }
        ensures { result ≡ last_below (with_index self.now.sheet.lattice.ranks.now (index_at self.now.sheet.lattice.ranks.now k)) k }
    {
        self.before[k].map(usize::from)
    }
}
