// Edges that are too long, or off the axis of their neighbours.
ghost use Rattle.std.specs.Prelude.{◌≡◌, true, ◌&&◌, ◌||◌, ltb, ℕ, ◌+◌, ◌/◌, ◌≤◌, ◌<◌};
ghost use Rattle.std.specs.Float.{nan};
ghost use Rattle.std.specs.Float.Ieee.{lt};
ghost use Rattle.folds.specs.Arith.{zero_f};
ghost use Rattle.folds.specs.Below.{tally};
ghost use Rattle.folds.specs.Column.{column};
ghost use Rattle.folds.specs.Marked.{Marked};
ghost use Rattle.offsets.specs.Axes.{forward};
ghost use Rattle.view.specs.View.{max_points};
ghost use Rattle.view.specs.Seen.{view_in};
ghost use Rattle.wrong_label_filters.specs.Judged.{off_axis, fails, edge_mark};
ghost use Rattle.wrong_label_filters.specs.Windows.{sheet_in, edges_in, with_edge, with_edge_at, window_to, sheet_limit_of, Knows, failing_ends};

use edges::{EdgeTable, StoredEdge};
use float::constants::{GLOBAL_OVERLONG_RATIO, OVERLONG_RATIO};
use median::Numbers;
use offsets::{Axis, OWN};
use view::{Floats, Marks};

// The edges of a sheet along an axis.
#[derive(Clone, Copy)]
struct EdgesAlong<'a> {
    table: EdgeTable<'a>,
    axis: Axis,
}

#[derive(Clone, Copy)]
struct Window {
    count: usize,
    under: usize,
    sx: f32,
    sy: f32,
}

// How many of the edges have a positive length; and 1.6 times the median of these lengths, if it is known by then: only an edge with few
// others in its window asks for it.
#[derive(Clone, Copy)]
struct Known {
    total: usize,
    limit: Option<f32>,
}

// The window v with one edge more; under says whether 1.5 times its length is under the length of the edge that is judged.
fn with_edge(v: Window, under: bool, e: StoredEdge) -> Window
    requires { (v.count < max_points) × (v.under < max_points) }
    ensures { result ≡ with_edge true under e.ux e.uy v }
{
    Window {
        count: v.count + 1,
        under: v.under + usize::from(under),
        sx: v.sx + e.ux,
        sy: v.sy + e.uy,
    }
}

#[tactic(auto, unfolding(crate::specs::Judged::off_axis))]
fn off_axis(sx: f32, sy: f32, e: StoredEdge) -> bool
    ensures { result ≡ off_axis sx sy e.ux e.uy }
{
    let s = float::norm(sx, sy);
    if 0.0 < s.value {
        return float::over_30_degrees(e.ux * (sx / s.value) + e.uy * (sy / s.value));
    }
    false
}

// Whether an edge fails by its window, which has counted the edges under it.
fn fails_in(v: Window, e: StoredEdge) -> bool
    ensures { result ≡ ltb (v.count / 2) v.under || off_axis v.sx v.sy e.ux e.uy }
{
    v.count / 2 < v.under || off_axis(v.sx, v.sy, e)
}

impl EdgesAlong<'_> {
    // The edge that starts at rank k.
    fn at(&self, k: usize) -> StoredEdge
        requires { k < (sheet_in self.now).count }
        ensures { result ≡ edges_in self.now k }
    {
        self.table.at(self.axis, k)
    }

    // The window v with the edge that starts at place j round rank k, if that is one of the window of rank k's edge, which has the length own.
    fn with_edge_at(&self, v: Window, k: usize, j: usize, own: f32) -> Window
        requires { (k < (sheet_in self.now).count) × (j < 25) × (v.count ≤ j) × (v.under ≤ j) }
        ensures { result ≡ with_edge_at (sheet_in self.now) (edges_in self.now) k own j v }
    {
        if j == offsets::place(OWN) {
            return v;
        }
        let Some(e) = self.table.view.sheet.lattice.at_place(k, j) else {
            return v;
        };
        let edge = self.at(e);
        if 0.0 < edge.len {
            return with_edge(v, OVERLONG_RATIO * edge.len < own, edge);
        }
        v
    }

    // The window of rank k's edge, which has the length own.
    fn window_at(&self, k: usize, own: f32) -> Window
        requires { k < (sheet_in self.now).count }
        ensures { result ≡ window_to (sheet_in self.now) (edges_in self.now) k own 25 }
    {
        let mut v = Window {
            count: 0,
            under: 0,
            sx: 0.0,
            sy: 0.0,
        };
        for j in 0..25 {
            v = self.with_edge_at(v, k, j, own);
        }
        v
    }

    // How many of the edges have a positive length.
    fn sheet_count(&self) -> usize
        ensures { result ≡ tally (λ (k : ℕ). lt zero_f (edges_in self.now k).len) (sheet_in self.now).count }
    {
        view::counted(
            self.table.view.sheet.lattice.count,
            |k| 0.0 < self.at(k).len,
        )
    }

    // The lengths of the edges.
    fn lengths(&self) -> Floats
        ensures { result ≡ column max_points nan (sheet_in self.now).count (λ (k : ℕ). (edges_in self.now k).len) }
    {
        view::filled(
            f32::NAN,
            self.table.view.sheet.lattice.count,
            |k| self.at(k).len,
        )
    }

    // The sheet's limit, taken where it is not known yet.
    fn sheet_limit(&self, known: &mut Known) -> f32
        requires { Knows self.now known.old }
        ensures limit { result ≡ sheet_limit_of (edges_in self.now) (sheet_in self.now).count }
        ensures known { Knows self.now known.new }
    {
        if let Some(limit) = known.limit {
            return limit;
        }
        let lengths = Numbers {
            values: &self.lengths(),
            count: self.table.view.sheet.lattice.count,
        };
        let limit = GLOBAL_OVERLONG_RATIO * median::middle(&lengths);
        known.limit = Some(limit);
        limit
    }

    // Whether the edge that starts at rank k fails.
    fn fails_at(&self, k: usize, known: &mut Known) -> bool
        requires { (k < (sheet_in self.now).count) × Knows self.now known.old }
        ensures fails { result ≡ fails (sheet_in self.now) (edges_in self.now) k }
        ensures known { Knows self.now known.new }
    {
        let own = self.at(k);
        if 0.0 < own.len {
            let v = self.window_at(k, own.len);
            if 5 <= v.count {
                return fails_in(v, own);
            }
            if 8 <= known.total {
                return self.sheet_limit(known) < own.len;
            }
        }
        false
    }

    // Marks the ends of the edge that starts at rank k, if it fails.
    fn mark_edge(&self, k: usize, known: &mut Known, mark: &mut Marks)
        requires { (k < (sheet_in self.now).count) × Knows self.now known.old }
        ensures mark { Marked (failing_ends (sheet_in self.now) (forward self.now.axis) (fails (sheet_in self.now) (edges_in self.now)) k) mark.old mark.new }
        ensures known { Knows self.now known.new }
    {
        let lattice = self.table.view.sheet.lattice;
        let Some(e) = lattice.neighbour(k, self.axis.forward()) else {
            return;
        };
        if self.fails_at(k, known) {
            mark[k] = 1;
            mark[e] = 1;
        }
    }
}

// Marks the ends of each of the edges along an axis that fails.
pub(crate) fn mark_failing(table: &EdgeTable, axis: Axis, mark: &mut Marks)
    ensures { Marked (λ (m : ℕ). ltb m table.now.view.sheet.lattice.count && edge_mark (view_in table.now.view) (forward axis) m) mark.old mark.new }
{
    let edges = EdgesAlong {
        table: *table,
        axis,
    };
    let mut known = Known {
        total: edges.sheet_count(),
        limit: None,
    };
    for k in 0..table.view.sheet.lattice.count {
        edges.mark_edge(k, &mut known, mark);
    }
}
