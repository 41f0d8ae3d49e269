// The filters of a sheet, in two steps: those that go by the points themselves, and those that go by what these leave. See specs/Filters.antt.
#![tactic(auto)]

ghost use Rattle.std.specs.Prelude.{◌≡◌, [], ◌∷◌, ℕ, ◌≤◌};
ghost use Rattle.folds.specs.Column.{column};
ghost use Rattle.folds.specs.Marked.{bit};
ghost use Rattle.view.specs.View.{max_points, Finite};
ghost use Rattle.view.specs.Seen.{view_in, WhereverSeen};
ghost use Rattle.cells.specs.Cell.{cells_at};
ghost use Rattle.marks.specs.Filters.{validate as Validate, orientation as Orientation, wrong as Wrong};
ghost use Rattle.marks.specs.Marks.{is_set};
ghost use Rattle.marks.specs.Byte.{marked_by_all};
ghost use Rattle.residuals.specs.ByIndex.{residuals_of};
ghost use Rattle.judged.specs.Judged.{blank_figures};
ghost use Rattle.validate.specs.Validate.{figures_of};
ghost use Rattle.drop_set.specs.Given.{Celled, Joined};
ghost use Rattle.drop_set.specs.Filters.{by_points, wrong_mark, no_leaves, peel_of, patched_of, measured_of};

mod weighed;

use cells::CelledView;
use components::ComponentFilter;
use edges::{EdgeTable, Edges};
use judged::Measured;
use judged::figures::FigureColumn;
use local_h::ResidualColumn;
use marks::Tally;
use marks::filters::Filter;
use median::Numbers;
use peel::Peeled;
use sheet_file::{Fraction, Settings};
use view::{MAX_POINTS, Marks, SheetLattice};
pub use weighed::WeighedSheet;

// The bytes of marks, how many patches the survivors have, how many rounds removed a weak end, and the tally.
#[derive(Drop)]
pub struct DropSet {
    pub marks: Marks,
    pub components: usize,
    pub rounds: usize,
    pub tally: Tally,
}

// The wrong-label marks; none with the switch off.
fn wrong_marks(s: Settings, table: &EdgeTable) -> Marks
    requires x { Finite table.now.view.sheet.lattice.count table.now.view.seen.x.now }
    requires y { Finite table.now.view.sheet.lattice.count table.now.view.seen.y.now }
    ensures { result ≡ column max_points 0 table.now.view.sheet.lattice.count (λ (k : ℕ). bit (wrong_mark s (view_in table.now.view) k)) }
{
    if s.apply_wrong_label_drops {
        return wrong_label_filters::topological_wrong_label_drops(table, s.cell_size);
    }
    [0; MAX_POINTS]
}

// The bytes of the three marks of each point.
fn point_marks(validate: &Marks, orientation: &Marks, wrong: &Marks, n: usize) -> Marks
    requires { n ≤ max_points }
    ensures { result ≡ marked_by_all n (by_points Validate (is_set validate.now) ∷ by_points Orientation (is_set orientation.now) ∷ by_points Wrong (is_set wrong.now) ∷ []) [] }
{
    let none = [0u8; MAX_POINTS];
    let first = marks::marked_by(&none, validate, Filter::Validate, n);
    let second = marks::marked_by(&first, orientation, Filter::Orientation, n);
    marks::marked_by(&second, wrong, Filter::WrongLabel, n)
}

// What the filters find that go by the points themselves, the edge figures into an empty array and the residuals in the place of what stood in
// the column.
#[inline(never)]
pub fn measure(
    s: Settings,
    celled: &CelledView,
    figures: &mut FigureColumn,
    residuals: &mut ResidualColumn,
) -> Measured
    requires { Celled celled.now.view.sheet.lattice.count celled.now.keys.now celled.now.view.seen.x.now celled.now.view.seen.y.now × (figures.old ≡ blank_figures) }
    ensures findings { result ≡ measured_of s (view_in celled.now.view) (cells_at celled.now.keys.now) }
    ensures residuals { residuals.new ≡ residuals_of (view_in celled.now.view) (cells_at celled.now.keys.now) }
    ensures figures { figures.new ≡ figures_of s (view_in celled.now.view) }
{
    let view = &celled.view;
    let mut along_u = [edges::no_edge(); MAX_POINTS];
    let mut along_v = [edges::no_edge(); MAX_POINTS];
    edges::fill(&view.points(), &mut along_u, &mut along_v);
    let table = EdgeTable {
        view: *view,
        edges: Edges {
            along_u: &along_u,
            along_v: &along_v,
        },
    };
    validate::edge_figures(s.edge_shape, &table, figures);
    let mut j = validate::validate(s, celled, figures, residuals);
    let orientation = orientation::lattice_orientation_drops(view);
    let wrong = wrong_marks(s, &table);
    let validated = j.marks;
    let marks = point_marks(&validated, &orientation, &wrong, view.sheet.lattice.count);
    j.marks = marks;
    j
}

// The component marks and count among the points whose byte is 0; none with the switch off.
fn component_marks(s: Settings, sheet: &SheetLattice, marks: &Marks) -> ComponentFilter
    ensures { WhereverSeen sheet.now.lattice (λ w. Joined s w marks.now result) }
{
    if s.apply_largest_component {
        return components::largest_component_filter(sheet, marks, &patches::square_sides());
    }
    ComponentFilter {
        marks: [0; MAX_POINTS],
        components_seen: 0,
    }
}

// No weak ends, and no rounds.
fn no_leaves() -> Peeled
    ensures { result ≡ no_leaves }
{
    Peeled {
        marks: [0; MAX_POINTS],
        rounds: 0,
    }
}

// The weak ends of what the marks leave, and the rounds; none without tag 4.
fn leaf_marks(s: Settings, weighed: &WeighedSheet, marks: &Marks) -> Peeled
    ensures { WhereverSeen weighed.now.sheet.lattice (λ w. result ≡ peel_of s w weighed.now.strength.now marks.now) }
{
    let fraction = s.score_frac;
    match fraction {
        Fraction::Missing => no_leaves(),
        Fraction::Outside => no_leaves(),
        Fraction::Given(x) => {
            let strengths = Numbers {
                values: weighed.strength,
                count: weighed.sheet.lattice.count,
            };
            let weak = strengths::weak_marks(&strengths, x);
            peel::weak_leaf_peel(&weighed.sheet, marks, &weak, &patches::square_sides())
        }
    }
}

// The filters that go by the marks before them: the bytes with their marks too, the count of patches, the rounds, and the tally.
#[inline(never)]
pub fn drop_patches(s: Settings, weighed: &WeighedSheet, marks: &Marks) -> DropSet
    ensures { WhereverSeen weighed.now.sheet.lattice (λ w. result ≡ patched_of s w weighed.now.strength.now marks.now) }
{
    let sheet = &weighed.sheet;
    let n = sheet.lattice.count;
    let peeled = leaf_marks(s, weighed, marks);
    let leaf = peeled.marks;
    let left = marks::marked_by(marks, &leaf, Filter::Leaf, n);
    let filter = component_marks(s, sheet, &left);
    let mark = filter.marks;
    let all = marks::marked_by(&left, &mark, Filter::Component, n);
    DropSet {
        marks: all,
        components: filter.components_seen,
        rounds: peeled.rounds,
        tally: marks::tally(&sheet.lattice, &all),
    }
}
