// The sums that a prediction is made of.
ghost use Rattle.std.specs.Prelude.{◌≡◌};
ghost use Rattle.predict.specs.Sums.{mean_by};

use crate::PredictedPosition;

// The sums of the midpoints met so far, and how many there were.
#[derive(Clone, Copy)]
pub struct Sums {
    pub x: f32,
    pub y: f32,
    pub pairs: u8,
}

impl Sums {
    // The sums divided by the number of pairs.
    pub fn mean(self) -> Option<PredictedPosition>
        ensures { result ≡ mean_by self }
    {
        if self.pairs == 0 {
            return None;
        }
        let n = f32::from(self.pairs);
        Some(PredictedPosition {
            x: self.x / n,
            y: self.y / n,
            n_axis_pairs: self.pairs,
        })
    }
}
