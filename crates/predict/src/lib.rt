// Positions for dropped points, from the kept ones, over any list of offsets. See specs/Predict.antt and specs/Fills.antt.
#![tactic(auto)]

mod kept;
mod sums;

ghost use Rattle.std.specs.Prelude.{◌≡◌, ◌<◌, length};
ghost use Rattle.view.specs.View.{max_points};
ghost use Rattle.view.specs.Seen.{seen_in};
ghost use Rattle.predict.specs.Fills.{prediction_at, fills_of};

use kept::Kept;
use offsets::Offset;
use view::{MAX_POINTS, Marks, SeenLattice};

// The average of the midpoints of the opposite pairs, and how many there are.
#[derive(Clone, Copy)]
pub struct PredictedPosition {
    pub x: f32,
    pub y: f32,
    pub n_axis_pairs: u8,
}

// For each point what is predicted for its cell, if there is a pair.
pub type Fills = [Option<PredictedPosition>; MAX_POINTS];

// What is predicted for the cell of rank k from the points without a mark, if there is a pair.
pub fn predict_grid_position(
    points: &SeenLattice,
    marks: &Marks,
    sides: &[Offset],
    k: usize,
) -> Option<PredictedPosition>
    requires { (k < max_points) × (length sides.now < 256) }
    ensures { result ≡ prediction_at (seen_in points.now) sides.now marks.now k }
{
    let kept = Kept {
        points: *points,
        marks,
        sides,
    };
    kept.prediction(k)
}

// The fills of all points.
#[inline(never)]
pub fn fills(points: &SeenLattice, marks: &Marks, sides: &[Offset]) -> Fills
    requires { length sides.now < 256 }
    ensures { result ≡ fills_of (seen_in points.now) sides.now marks.now }
{
    let kept = Kept {
        points: *points,
        marks,
        sides,
    };
    view::filled(None, points.lattice.count, |k| kept.fill(k))
}
