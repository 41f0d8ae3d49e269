// Points that lie on almost one pixel: a sweep in the order of x, which compares each point only with those that follow it closely.
#![tactic(auto)]

ghost use Rattle.std.specs.Prelude.{◌≡◌, ◌%◌, ◌&&◌, ◌||◌, List, ℕ, ◌≤◌, ◌<◌, eqb, ltb, get_or};
ghost use Rattle.std.specs.Float.{nan};
ghost use Rattle.std.specs.Float.Ieee.{lt};
ghost use Rattle.folds.specs.Arith.{◌⊖◌};
ghost use Rattle.folds.specs.Marked.{Marked};
ghost use Rattle.view.specs.View.{max_points, view_at, Finite};
ghost use Rattle.sort.specs.Packed.{packed_places};
ghost use Rattle.close_pairs.specs.Close.{square_of, close_mark};
ghost use Rattle.close_pairs.specs.Ranks.{OrderedByX};
ghost use Rattle.close_pairs.specs.Hits.{hits_from, hits_in};

mod sweep;

use float::constants::DUPLICATE_FRACTION;
use median::Numbers;
use sweep::Sweep;
use view::{Floats, Marks, Places, Positions};

// The ranks in the order of x.
fn order_of(x: &Floats, n: usize) -> Places
    requires { (n ≤ max_points) × Finite n x.now }
    ensures { OrderedByX x.now n result }
{
    let a = median::keys_in_order(&Numbers {
        values: x,
        count: n,
    });
    view::filled(
        0,
        n,
        |i| -> u16
            requires { i < max_points }
            ensures { result ≡ get_or a i 0 % packed_places }
        { a[i].place() as u16 },
    )
}

// Whether a and b are both marked already.
fn both_marked(mark: &Marks, a: usize, b: usize) -> bool
    requires { (a < max_points) × (b < max_points) }
    ensures { result ≡ eqb (get_or mark.now a 0) 1 && eqb (get_or mark.now b 0) 1 }
{
    mark[a] == 1 && mark[b] == 1
}

impl Sweep<'_> {
    // Marks a and b, which differ by dx in x, if they are close. Where both are marked already, or too far apart in y, it multiplies nothing.
    fn mark_pair(&self, dx: f32, a: usize, b: usize, mark: &mut Marks)
        requires { (a < max_points) × (b < max_points) }
        ensures { Marked (λ (m : ℕ). lt (square_of dx (get_or self.now.seen.now.y.now b nan ⊖ get_or self.now.seen.now.y.now a nan)) self.now.limit && (eqb a m || eqb b m)) mark.old mark.new }
    {
        let dy = self.seen.y[b] - self.seen.y[a];
        if both_marked(mark, a, b) {
            return;
        }
        if self.side < float::abs(dy) {
            return;
        }
        if dx * dx + dy * dy < self.limit {
            mark[a] = 1;
            mark[b] = 1;
        }
    }

    // Marks the pairs of the point at place i with those that follow it.
    fn mark_from(&self, i: usize, mark: &mut Marks)
        requires { i < self.now.count }
        ensures { Marked (hits_from self.now i) mark.old mark.new }
    {
        let a = usize::from(self.order[i]);
        for j in i + 1..self.count {
            let b = usize::from(self.order[j]);
            let dx = self.seen.x[b] - self.seen.x[a];
            if self.side < dx {
                return;
            }
            self.mark_pair(dx, a, b, mark);
        }
    }

    // Marks the points of each pair that is closer than the side.
    fn mark_all(&self, mark: &mut Marks)
        ensures { Marked (hits_in self.now) mark.old mark.new }
    {
        for i in 0..self.count {
            self.mark_from(i, mark);
        }
    }
}

// Marks the points that lie closer than 0.2 cell sizes to another. Where the square of that underflows to 0, none does.
pub fn mark_close(seen: &Positions, cell: f32, n: usize, mark: &mut Marks)
    requires { (n ≤ max_points) × Finite n seen.now.x.now × Finite n seen.now.y.now }
    ensures { (ranks : List ℕ) → Marked (λ (m : ℕ). ltb m n && close_mark (view_at n ranks seen.now.x.now seen.now.y.now) cell m) mark.old mark.new }
{
    if 0.0 < cell {
        let side = DUPLICATE_FRACTION * cell;
        let limit = side * side;
        if 0.0 < limit {
            let order = order_of(seen.x, n);
            let sweep = Sweep {
                order: &order,
                seen,
                count: n,
                side,
                limit,
            };
            sweep.mark_all(mark);
        }
    }
}
