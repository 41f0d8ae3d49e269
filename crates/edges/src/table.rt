// The edges of a sheet, with the view that they are those of.
ghost use Rattle.std.specs.Prelude.{◌≡◌, ◌<◌};
ghost use Rattle.view.specs.Seen.{view_in};
ghost use Rattle.offsets.specs.declared.axis.Axis.{Axis};
ghost use Rattle.offsets.specs.Axes.{forward};
ghost use Rattle.edges.specs.Edges.{along, edges_along, stored_at};

use crate::{Edges, StoredEdge};
use offsets::Axis;
use view::View;

#[derive(Clone, Copy)]
pub struct EdgeTable<'a> {
    pub view: View<'a>,
    pub edges: Edges<'a>,
    ghost held: { (axis : Axis) → along axis edges ≡ edges_along (view_in view) axis },
}

impl EdgeTable<'_> {
    // The edge that starts at rank k along an axis.
    pub fn at(&self, axis: Axis, k: usize) -> StoredEdge
        requires { k < self.now.view.sheet.lattice.count }
        ensures { result ≡ stored_at (view_in self.now.view) (forward axis) k }
    {
        self.edges.at(axis, k)
    }
}
