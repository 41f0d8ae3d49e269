// An order of the ranks, along which pairs are compared.
ghost use Rattle.close_pairs.specs.Sweep.{OverSide, Sweepable};

use view::{Places, Positions};

// The ranks of so many points in an order along which a sweep may stop, with the positions of the points; the side below which two points
// are close, and its square.
#[derive(Clone, Copy)]
pub(crate) struct Sweep<'a> {
    pub(crate) order: &'a Places,
    pub(crate) seen: &'a Positions<'a>,
    pub(crate) count: usize,
    pub(crate) side: f32,
    pub(crate) limit: f32,
    ghost sweepable: { Sweepable order.now seen.now.x.now seen.now.y.now limit count },
    ghost over: { OverSide side limit },
}
