// The wrong-label filter: the marks of edges that fail, of points on one pixel and of line ends with a kink, by index.
#![tactic(auto)]

mod frontier;
mod judged_edges;

ghost use Rattle.std.specs.Prelude.{◌≡◌};
ghost use Rattle.view.specs.View.{Finite};
ghost use Rattle.view.specs.Seen.{view_in};
ghost use Rattle.wrong_label_filters.specs.WrongLabel.{wrong_label_of};

use edges::EdgeTable;
use offsets::Axis;
use view::{MAX_POINTS, Marks};

// The wrong-label mark of each rank's index.
#[inline(never)]
pub fn topological_wrong_label_drops(table: &EdgeTable, cell: f32) -> Marks
    requires x { Finite table.now.view.sheet.lattice.count table.now.view.seen.x.now }
    requires y { Finite table.now.view.sheet.lattice.count table.now.view.seen.y.now }
    ensures { result ≡ wrong_label_of (view_in table.now.view) cell }
{
    let view = &table.view;
    let mut mark = [0u8; MAX_POINTS];
    judged_edges::mark_failing(table, Axis::AlongU, &mut mark);
    judged_edges::mark_failing(table, Axis::AlongV, &mut mark);
    close_pairs::mark_close(&view.seen, cell, view.sheet.lattice.count, &mut mark);
    frontier::mark_frontier(view, &mut mark);
    marks::by_index(&view.sheet, &mark)
}
