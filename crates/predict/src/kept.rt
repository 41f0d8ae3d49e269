// The points that are kept, and what they predict.
ghost use Rattle.std.specs.Prelude.{◌≡◌, ◌<◌, length, get_or, IfSome};
ghost use Rattle.std.specs.Float.{nan};
ghost use Rattle.folds.specs.Arith.{◌⊕◌, ◌⊗◌};
ghost use Rattle.float.specs.Constants.{half};
ghost use Rattle.view.specs.View.{max_points};
ghost use Rattle.predict.specs.Predict.{opposite, is_forward};

use crate::sums::Sums;
use crate::{PredictedPosition, predict_grid_position};
use offsets::Offset;
use view::{Floats, Marks, SeenLattice};

// The offset the other way.
fn opposite(o: Offset) -> Offset
    ensures { result ≡ opposite o }
{
    Offset {
        du: -o.du,
        dv: -o.dv,
    }
}

// Whether an offset is lexicographically positive, or (0, 0).
fn is_forward(o: Offset) -> bool
    ensures { result ≡ is_forward o }
{
    (0, 0) <= (o.du, o.dv)
}

// Half way between the values of two ranks.
fn midpoint(values: &Floats, f: usize, b: usize) -> f32
    requires { (f < max_points) × (b < max_points) }
    ensures { result ≡ half ⊗ (get_or values.now f nan ⊕ get_or values.now b nan) }
{
    0.5 * (values[f] + values[b])
}

// Points, of which those without a mark are kept, and a list of offsets, few enough to count in a byte.
#[derive(Clone, Copy)]
pub struct Kept<'a> {
    pub points: SeenLattice<'a>,
    pub marks: &'a Marks,
    pub sides: &'a [Offset],
    ghost few: { length sides.now < 256 },
}

impl Kept<'_> {
    ghost use Rattle.predict.specs.Steps.{kept_rank, prediction_in, fill_in, sums_in};

    // The rank of the kept point at offset o from rank k, if there is one.
    fn at(&self, k: usize, o: Offset) -> Option<usize>
        requires { k < max_points }
        ensures value { result ≡ kept_rank self.now k o }
        ensures inside { IfSome result (λ j. j < max_points) }
    {
        let j = self.points.lattice.neighbour(k, o)?;
        (self.marks[j] == 0).then_some(j)
    }

    // The sums with the midpoint of the pair at offset o and its opposite from rank k, if it is one.
    fn with_pair(&self, k: usize, o: Offset, a: Sums) -> Sums
        requires { (k < max_points) × (a.pairs < 255) }
        ensures { result ≡ sums_in self.now k o a }
    {
        if !is_forward(o) {
            return a;
        }
        let Some(f) = self.at(k, o) else {
            return a;
        };
        let Some(b) = self.at(k, opposite(o)) else {
            return a;
        };
        Sums {
            x: a.x + midpoint(self.points.seen.x, f, b),
            y: a.y + midpoint(self.points.seen.y, f, b),
            pairs: a.pairs + 1,
        }
    }

    // What is predicted for the cell of rank k, if there is a pair.
    pub fn prediction(&self, k: usize) -> Option<PredictedPosition>
        requires { k < max_points }
        ensures { result ≡ prediction_in self.now k }
    {
        let mut sums = Sums {
            x: 0.0,
            y: 0.0,
            pairs: 0,
        };
        for o in self.sides {
            sums = self.with_pair(k, *o, sums);
        }
        sums.mean()
    }

    // The fill of rank k, if it has a mark and there is a pair.
    pub fn fill(&self, k: usize) -> Option<PredictedPosition>
        requires { k < max_points }
        ensures { result ≡ fill_in self.now k }
    {
        if self.marks[k] == 0 {
            return None;
        }
        predict_grid_position(&self.points, self.marks, self.sides, k)
    }
}
