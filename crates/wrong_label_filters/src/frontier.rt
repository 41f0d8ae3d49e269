// Ends of rows and columns whose spacing has a kink.
ghost use Rattle.std.specs.Prelude.{◌≡◌, not, ◌&&◌, ◌||◌, ℕ, ◌<◌, eqb, ltb};
ghost use Rattle.folds.specs.Marked.{Marked};
ghost use Rattle.view.specs.Seen.{view_in};
ghost use Rattle.wrong_label_filters.specs.Frontier.{kink, kink_at, frontier_mark};
ghost use Rattle.wrong_label_filters.specs.Lasts.{line_in, line_mark, Lasts};

use float::Distance;
use float::constants::FRONTIER_TOLERANCE;
use offsets::{Axis, Offset};
use view::{MAX_POINTS, Marks, Places, View};

// The lines of a sheet along an axis: its rows, or its columns.
#[derive(Clone, Copy)]
struct LinesAlong<'a> {
    view: View<'a>,
    axis: Axis,
}

#[tactic(auto, unfolding(crate::specs::Frontier::kink))]
fn has_kink(e0: Distance, e1: Distance, e2: Distance) -> bool
    ensures { result ≡ kink e0.value e1.value e2.value }
{
    if 0.0 < e1.value {
        return FRONTIER_TOLERANCE < (e0.value - (2.0 * e1.value - e2.value)) / e1.value;
    }
    false
}

// Whether four cells follow each other inward from rank k, with a kink there.
#[tactic(auto, using(crate::proofs::LineEnds::kink_steps), unfolding(step::specs::Step::spacing))]
fn kink_at(view: &View, inward: Offset, k: usize) -> bool
    requires { k < view.now.sheet.lattice.count }
    ensures { result ≡ kink_at (view_in view.now) inward k }
{
    let lattice = view.sheet.lattice;
    let Some(a) = lattice.neighbour(k, inward) else {
        return false;
    };
    let Some(b) = lattice.neighbour(a, inward) else {
        return false;
    };
    let Some(c) = lattice.neighbour(b, inward) else {
        return false;
    };
    if 2 < lattice.degree(k) {
        return false;
    }
    has_kink(
        step::spacing(&view.seen, k, a),
        step::spacing(&view.seen, a, b),
        step::spacing(&view.seen, b, c),
    )
}

// Whether rank k is the end of its line, with a kink there.
fn end_at(view: &View, end: usize, inward: Offset, k: usize) -> bool
    requires { k < view.now.sheet.lattice.count }
    ensures { result ≡ eqb end k && kink_at (view_in view.now) inward k }
{
    end == k && kink_at(view, inward, k)
}

// Whether rank k is no end of a line with these ends.
fn is_inner(first: usize, last: usize, k: usize) -> bool
    ensures { result ≡ not (eqb first k || eqb last k) }
{
    first != k && last != k
}

impl LinesAlong<'_> {
    // The first rank of rank k's row, or of its column.
    fn first(&self, k: usize) -> usize
        requires { k < self.now.view.sheet.lattice.count }
        ensures { (result ≡ line_in self.now k) × (result < self.now.view.sheet.lattice.count) }
    {
        match self.axis {
            Axis::AlongU => self.view.sheet.lattice.row(k),
            Axis::AlongV => self.view.sheet.lattice.column(k),
        }
    }

    // The last rank of each line, at the place of the line.
    fn lasts(&self) -> Places
        ensures { Lasts (line_in self.now) self.now.view.sheet.lattice.count result }
    {
        let mut lasts = [0u16; MAX_POINTS];
        for k in 0..self.view.sheet.lattice.count {
            lasts[self.first(k)] = k as u16;
        }
        lasts
    }

    // Whether rank k is the first or the last of its line, with a kink there.
    fn is_end(&self, lasts: &Places, k: usize) -> bool
        requires { Lasts (line_in self.now) self.now.view.sheet.lattice.count lasts.now × (k < self.now.view.sheet.lattice.count) }
        ensures { result ≡ line_mark (view_in self.now.view) self.now.axis k }
    {
        let first = self.first(k);
        let last = usize::from(lasts[first]);
        if is_inner(first, last, k) {
            return false;
        }
        if end_at(&self.view, first, self.axis.forward(), k) {
            return true;
        }
        end_at(&self.view, last, self.axis.back(), k)
    }

    // Marks both ends of each line that have a kink there.
    fn mark_ends(&self, mark: &mut Marks)
        ensures { Marked (λ (m : ℕ). ltb m self.now.view.sheet.lattice.count && line_mark (view_in self.now.view) self.now.axis m) mark.old mark.new }
    {
        let lasts = self.lasts();
        for k in 0..self.view.sheet.lattice.count {
            if self.is_end(&lasts, k) {
                mark[k] = 1;
            }
        }
    }
}

// Marks both ends of each row and column that have a kink there.
pub(crate) fn mark_frontier(view: &View, mark: &mut Marks)
    ensures { Marked (λ (m : ℕ). ltb m view.now.sheet.lattice.count && frontier_mark (view_in view.now) m) mark.old mark.new }
{
    let rows = LinesAlong {
        view: *view,
        axis: Axis::AlongU,
    };
    let columns = LinesAlong {
        view: *view,
        axis: Axis::AlongV,
    };
    rows.mark_ends(mark);
    columns.mark_ends(mark);
}
