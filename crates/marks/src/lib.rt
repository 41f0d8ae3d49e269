// Marks of points, the marks of their indices, the byte of marks of each point, and the tally.
#![tactic(auto)]

pub mod filters;

ghost use Rattle.std.specs.Prelude.{◌≡◌, cond, ℕ, ◌≤◌, ◌<◌, eqb, IfSome};
ghost use Rattle.folds.specs.Column.{column};
ghost use Rattle.folds.specs.Marked.{bit, Marked};
ghost use Rattle.view.specs.View.{max_points};
ghost use Rattle.view.specs.Seen.{lattice_in, WhereverSeen};
ghost use Rattle.marks.specs.Marks.{is_set, is_at, place_has, index_marks};
ghost use Rattle.marks.specs.Filters.{filter_count};
ghost use Rattle.marks.specs.Places.{place};
ghost use Rattle.marks.specs.Byte.{with_mark, marked_by, first_mark};
ghost use Rattle.marks.specs.Tally.{counts_of};

use filters::{FILTERS, Filter};
use view::{Lattice, MAX_POINTS, Marks, SheetLattice};

// Sets the mark at a place, if there is one.
pub fn set(mark: &mut Marks, at: Option<usize>)
    requires { IfSome at (λ m. m < max_points) }
    ensures { Marked (is_at at) mark.old mark.new }
{
    if let Some(m) = at {
        mark[m] = 1;
    }
}

// The marks, each at the place of its index.
fn at_index(sheet: &SheetLattice, mark: &Marks) -> Marks
    ensures { result ≡ column max_points 0 sheet.now.lattice.count (λ (m : ℕ). bit (place_has (lattice_in sheet.now.lattice) mark.now m)) }
{
    let mut out = [0u8; MAX_POINTS];
    for k in 0..sheet.lattice.count {
        if mark[k] == 1 {
            out[sheet.lattice.index(k)] = 1;
        }
    }
    out
}

// At each rank the mark of its index: whether some point with that index is marked.
pub fn by_index(sheet: &SheetLattice, mark: &Marks) -> Marks
    ensures { WhereverSeen sheet.now.lattice (λ w. result ≡ index_marks w mark.now) }
{
    sheet.by_index(&at_index(sheet, mark), 0)
}

fn marked_byte(marks: u8, mark: u8, f: Filter) -> u8
    ensures { result ≡ cond (eqb mark 1) (with_mark (place f) marks) marks }
{
    if mark == 1 {
        return f.marked(marks);
    }
    marks
}

// The bytes of marks after filter f has marked the points whose mark is set.
pub fn marked_by(marks: &Marks, mark: &Marks, f: Filter, n: usize) -> Marks
    requires { n ≤ max_points }
    ensures { result ≡ marked_by n (place f) (is_set mark.now) marks.now }
{
    view::filled(0, n, |k| marked_byte(marks[k], mark[k], f))
}

// One count for each filter, and one for the indices kept.
pub const COUNTS: usize = FILTERS + 1;

pub type Tally = [usize; COUNTS];

// The place where a point with these marks is counted: that of the first filter that has marked it, or the last.
fn counted_at(marks: u8) -> usize
    ensures { (result ≡ first_mark marks) × (result ≤ filter_count) }
{
    match filters::first_mark(marks) {
        Some(f) => f.place(),
        None => FILTERS,
    }
}

// How many indices each filter is the first to mark, and how many are kept. An index is counted at its place, the last of its ranks.
pub fn tally(lattice: &Lattice, marks: &Marks) -> Tally
    ensures { WhereverSeen lattice.now (λ w. result ≡ counts_of w marks.now) }
{
    let mut counts = [0usize; COUNTS];
    for k in 0..lattice.count {
        if lattice.index(k) == k {
            counts[counted_at(marks[k])] += 1;
        }
    }
    counts
}
