// The points of a file that is accepted.
ghost use Rattle.points.specs.Held.{InCellOrder};

use crate::records::Order;

// The points of a file that no refusal concerns, in cell order.
#[derive(Drop)]
pub struct Accepted<'a> {
    pub order: Order<'a>,
    ghost in_cell_order: { InCellOrder order },
}
