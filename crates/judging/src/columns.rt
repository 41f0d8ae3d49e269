// The points of a sheet as columns that are lent.
ghost use Rattle.std.specs.Prelude.{◌≡◌};
ghost use Rattle.view.specs.View.{view_at};
ghost use Rattle.view.specs.Seen.{seen_in};
ghost use Rattle.ruling.specs.Arrays.{Arrays};

use cells::Points;
use ruling::Sheet;
use sheet_file::Settings;
use view::{Floats, Lattice, Positions, Ranks, SeenLattice};

// The settings of a sheet, and its points in cell order, one array a field.
#[derive(Clone, Copy)]
pub struct Columns<'a> {
    pub settings: Settings,
    pub points: Points<'a>,
    pub seen: Positions<'a>,
    pub strength: &'a Floats,
    ghost arrays: { Arrays points.count points.keys.now seen.x.now seen.y.now strength.now },
}

impl<'a> Columns<'a> {
    // The columns of a sheet.
    pub fn of(sheet: &'a Sheet) -> Columns<'a>
        ensures settings { result.settings ≡ sheet.now.settings }
        ensures count { result.points.count ≡ sheet.now.count }
        ensures keys { result.points.keys.now ≡ sheet.now.table.keys }
        ensures idx { result.points.idx.now ≡ sheet.now.table.idx }
        ensures x { result.seen.x.now ≡ sheet.now.table.x }
        ensures y { result.seen.y.now ≡ sheet.now.table.y }
        ensures strength { result.strength.now ≡ sheet.now.table.strength }
    {
        let table = &sheet.table;
        Columns {
            settings: sheet.settings,
            points: Points {
                keys: &table.keys,
                idx: &table.idx,
                count: sheet.count,
            },
            seen: Positions {
                x: &table.x,
                y: &table.y,
            },
            strength: &table.strength,
        }
    }

    // Its points with their table of ranks.
    pub fn with_ranks(&self, ranks: &'a Ranks) -> SeenLattice<'a>
        ensures { seen_in result ≡ view_at self.now.points.count ranks.now self.now.seen.x.now self.now.seen.y.now }
    {
        SeenLattice {
            lattice: Lattice {
                ranks,
                count: self.points.count,
            },
            seen: self.seen,
        }
    }
}
