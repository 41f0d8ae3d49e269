// The edges of the lattice: the length and the unit vector of each, computed once for all filters.
#![tactic(auto)]

ghost use Rattle.std.specs.Prelude.{◌≡◌, ◌<◌, get_or};
ghost use Rattle.view.specs.View.{max_points};
ghost use Rattle.view.specs.Seen.{seen_in};
ghost use Rattle.offsets.specs.Axes.{forward};
ghost use Rattle.offsets.specs.declared.axis.Axis.TheVariants.{AlongU, AlongV};
ghost use Rattle.edges.specs.Edges.{edge_at, no_stored, stored, blank_column, along, edges_along};

mod table;

use float::Distance;
use offsets::Axis;
pub use table::EdgeTable;
use view::{MAX_POINTS, SeenLattice};

// An edge: its length and its unit vector, which means something only where the length is above 0.
#[derive(Clone, Copy)]
pub struct Edge {
    pub len: Distance,
    pub ux: f32,
    pub uy: f32,
}

// What the tables keep of an edge: no filter asks for the remainder of a length.
#[derive(Clone, Copy)]
pub struct StoredEdge {
    pub len: f32,
    pub ux: f32,
    pub uy: f32,
}

// The edges along one axis, each at the rank where it starts.
pub type EdgeColumn = [StoredEdge; MAX_POINTS];

// Those along both axes.
#[derive(Clone, Copy)]
pub struct Edges<'a> {
    pub along_u: &'a EdgeColumn,
    pub along_v: &'a EdgeColumn,
}

// No edge: what stands past the last rank.
#[tactic(auto, unfolding(crate::specs::Edges::edges_along))]
pub fn no_edge() -> StoredEdge
    ensures { result ≡ no_stored }
{
    StoredEdge {
        len: f32::NAN,
        ux: f32::NAN,
        uy: f32::NAN,
    }
}

// The edge that starts at rank k along an axis: zeros where it leads to no point.
fn edge_at(points: &SeenLattice, axis: Axis, k: usize) -> Edge
    requires { k < points.now.lattice.count }
    ensures { result ≡ edge_at (seen_in points.now) (forward axis) k }
{
    let Some(j) = points.lattice.neighbour(k, axis.forward()) else {
        return Edge {
            len: Distance {
                value: 0.0,
                remainder: Some(0),
            },
            ux: 0.0,
            uy: 0.0,
        };
    };
    let dx = points.seen.x[j] - points.seen.x[k];
    let dy = points.seen.y[j] - points.seen.y[k];
    let len = float::norm(dx, dy);
    Edge {
        len,
        ux: dx / len.value,
        uy: dy / len.value,
    }
}

impl Edge {
    fn stored(self) -> StoredEdge
        ensures { result ≡ stored self }
    {
        StoredEdge {
            len: self.len.value,
            ux: self.ux,
            uy: self.uy,
        }
    }
}

// Fills an empty column with the edges along an axis.
#[inline(never)]
fn fill_along(points: &SeenLattice, axis: Axis, column: &mut EdgeColumn)
    requires { column.old ≡ blank_column }
    ensures { column.new ≡ edges_along (seen_in points.now) axis }
{
    for k in 0..points.lattice.count {
        column[k] = edge_at(points, axis, k).stored();
    }
}

// Fills empty columns with the edges along both axes.
pub fn fill(points: &SeenLattice, along_u: &mut EdgeColumn, along_v: &mut EdgeColumn)
    requires { (along_u.old ≡ blank_column) × (along_v.old ≡ blank_column) }
    ensures u { along_u.new ≡ edges_along (seen_in points.now) AlongU }
    ensures v { along_v.new ≡ edges_along (seen_in points.now) AlongV }
{
    fill_along(points, Axis::AlongU, along_u);
    fill_along(points, Axis::AlongV, along_v);
}

impl Edges<'_> {
    // The edge that starts at rank k along an axis.
    pub fn at(&self, axis: Axis, k: usize) -> StoredEdge
        requires { k < max_points }
        ensures { result ≡ get_or (along axis self.now) k no_stored }
    {
        match axis {
            Axis::AlongU => self.along_u[k],
            Axis::AlongV => self.along_v[k],
        }
    }
}
