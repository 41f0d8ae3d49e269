// The edge figures of all points, in an array that the caller lends.
ghost use Rattle.std.specs.Prelude.{◌≡◌};
ghost use Rattle.view.specs.Seen.{view_in};
ghost use Rattle.edge_shape.specs.Figures.{index_figures};
ghost use Rattle.judged.specs.Judged.{blank_figures};

use edge_shape::Figures;
use edges::EdgeTable;
use sheet_file::EdgeShapeParams;
use view::MAX_POINTS;

// Figures for each point.
pub type FigureColumn = [Figures; MAX_POINTS];

// The figures of each rank's index, into an empty array: those of the cell that has the index's place.
#[inline(never)]
pub fn evaluate_edge_shape(g: EdgeShapeParams, edges: &EdgeTable, figures: &mut FigureColumn)
    requires { figures.old ≡ blank_figures }
    ensures { figures.new ≡ index_figures g (view_in edges.now.view) }
{
    let lattice = &edges.view.sheet.lattice;
    for k in 0..lattice.count {
        figures[k] = edge_shape::figures_at(g, edges, lattice.index(k));
    }
}
