// The residuals of indices, from those of their ranks.
ghost use Rattle.std.specs.Prelude.{◌≡◌, ℕ, get_or, None, is_some};
ghost use Rattle.folds.specs.Column.{overlaid};
ghost use Rattle.folds.specs.Scattered.{Scattered};
ghost use Rattle.view.specs.Seen.{view_in};
ghost use Rattle.residuals.specs.ByIndex.{index_residual};

use local_h::ResidualColumn;
use view::{MAX_POINTS, View};

// Puts at the place of each index the residual of its last rank that has one.
fn put_last(view: &View, values: &ResidualColumn, held: &mut ResidualColumn)
    ensures { Scattered None (view_in view.now).by_idx (λ k. is_some (get_or values.now k None)) (λ k x. get_or values.now k None) held.old view.now.sheet.lattice.count held.new }
{
    for k in 0..view.sheet.lattice.count {
        if values[k].is_some() {
            held[view.sheet.lattice.index(k)] = values[k];
        }
    }
}

// Gives each rank the residual of the last rank with its index that has one.
pub fn gather(view: &View, values: &mut ResidualColumn)
    ensures { values.new ≡ overlaid view.now.sheet.lattice.count (index_residual (view_in view.now) (λ (k : ℕ). get_or values.old k None)) values.old }
{
    let mut held = [None; MAX_POINTS];
    put_last(view, values, &mut held);
    view.sheet.spread(&held, values);
}
