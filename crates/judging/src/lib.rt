// From the points of a sheet in cell order to the judged sheet. What it is stands in specs/Judging.antt.
#![tactic(auto)]

ghost use Rattle.std.specs.Prelude.{◌≡◌, replicate};
ghost use Rattle.view.specs.View.{ranks_size};
ghost use Rattle.view.specs.Seen.{seen_in, view_in};
ghost use Rattle.grid.specs.Tables.{ranks_of};
ghost use Rattle.cells.specs.Cell.{cells_at};
ghost use Rattle.judged.specs.Judged.{judged_from, blank_figures};
ghost use Rattle.predict.specs.Fills.{fills_of};
ghost use Rattle.drop_set.specs.Filters.{sides_of, judged_of};
ghost use Rattle.drop_set.specs.Given.{Celled, Weighed};
ghost use Rattle.judging.specs.Columns.{judged_in};

mod columns;

use cells::CelledView;
pub use columns::Columns;
use drop_set::WeighedSheet;
use grid::KeyedPoints;
use judged::Findings;
use judged::figures::FigureColumn;
use predict::Fills;
use sheet_file::Settings;
use view::{
    Floats, Lattice, MAX_POINTS, Marks, RANKS_SIZE, Ranks, SeenLattice, SheetLattice, View,
};

// The judged sheet of a view with the keys of its cells and its strengths, its edge figures into an empty array.
#[inline(never)]
pub fn judge_view(
    s: Settings,
    celled: &CelledView,
    strength: &Floats,
    figures: &mut FigureColumn,
) -> Findings
    requires { Celled celled.now.view.sheet.lattice.count celled.now.keys.now celled.now.view.seen.x.now celled.now.view.seen.y.now × Weighed (view_in celled.now.view) strength.now × (figures.old ≡ blank_figures) }
    ensures { judged_from result figures.new ≡ judged_of s (view_in celled.now.view) (cells_at celled.now.keys.now) strength.now }
{
    let mut residuals = [None; MAX_POINTS];
    let m = drop_set::measure(s, celled, figures, &mut residuals);
    let measured = m.marks;
    let weighed = WeighedSheet {
        sheet: celled.view.sheet,
        strength,
    };
    let d = drop_set::drop_patches(s, &weighed, &measured);
    let marks = d.marks;
    let tally = d.tally;
    let boundary = m.boundary;
    Findings {
        marks,
        components: d.components,
        rounds: d.rounds,
        tally,
        residuals,
        boundary,
    }
}

// The judged sheet of points that were read of an accepted file with their table of ranks, its edge figures into an empty array.
#[inline(never)]
fn judge_ranked<'a>(
    columns: &'a Columns<'a>,
    ranks: &'a Ranks,
    figures: &mut FigureColumn,
) -> Findings
    requires ranks { ranks.now ≡ ranks_of columns.now.points.count columns.now.points.keys.now columns.now.points.idx.now }
    requires blank { figures.old ≡ blank_figures }
    ensures { judged_from result figures.new ≡ judged_in columns.now }
{
    let lattice = Lattice {
        ranks,
        count: columns.points.count,
    };
    let view = View {
        sheet: SheetLattice { lattice },
        seen: columns.seen,
    };
    let celled = CelledView {
        view,
        keys: columns.points.keys,
    };
    judge_view(columns.settings, &celled, columns.strength, figures)
}

// The judged sheet of points that were read of an accepted file, its table of ranks and its edge figures into empty arrays.
pub fn judge_sheet(columns: &Columns, ranks: &mut Ranks, figures: &mut FigureColumn) -> Findings
    requires { (ranks.old ≡ replicate ranks_size 0) × (figures.old ≡ blank_figures) }
    ensures ranks { ranks.new ≡ ranks_of columns.now.points.count columns.now.points.keys.now columns.now.points.idx.now }
    ensures judged { judged_from result figures.new ≡ judged_in columns.now }
{
    let points = columns.points;
    grid::fill(&KeyedPoints { points }, ranks);
    judge_ranked(columns, ranks, figures)
}

// The same, with a table of ranks of its own.
pub fn judge(columns: &Columns, figures: &mut FigureColumn) -> Findings
    requires { figures.old ≡ blank_figures }
    ensures { judged_from result figures.new ≡ judged_in columns.now }
{
    let mut ranks = [0u16; RANKS_SIZE];
    judge_sheet(columns, &mut ranks, figures)
}

// The fills of a judged sheet: what is predicted for each point with a mark. The offsets are those of any sheet.
#[inline(never)]
pub fn fills(points: &SeenLattice, marks: &Marks) -> Fills
    ensures { (s : Settings) → result ≡ fills_of (seen_in points.now) (sides_of s) marks.now }
{
    predict::fills(points, marks, &patches::square_sides())
}
