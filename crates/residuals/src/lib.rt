// The residuals of indices: "a residual comes from the last cell, in the order of the rows, having one", and a flag from any cell stays.
#![tactic(auto)]

ghost use Rattle.std.specs.Prelude.{◌≡◌, ℕ, get_or, None};
ghost use Rattle.std.specs.Float.{nan};
ghost use Rattle.folds.specs.Column.{column};
ghost use Rattle.view.specs.View.{max_points};
ghost use Rattle.view.specs.Seen.{view_in};
ghost use Rattle.cells.specs.Cell.{cells_at};
ghost use Rattle.local_h.specs.Residual.{residual_at};
ghost use Rattle.residuals.specs.ByIndex.{exceeds, is_high, residuals_of, rank_flags, index_flags};

use cells::CelledView;
use local_h::{Residual, ResidualColumn, Seen};
use view::{Floats, Lattice, MAX_POINTS, Marks};

mod by_index;

// For each rank: whether a residual is over the tolerance, and over twice the tolerance.
#[derive(Drop)]
pub struct Flags {
    pub over: Marks,
    pub high: Marks,
}

fn exceeds_limit(limit: f32, r: Residual) -> bool
    ensures { result ≡ exceeds limit r }
{
    matches!(r, Some(d) if limit < d.value)
}

fn is_high(limit: f32, r: Residual) -> bool
    ensures { result ≡ is_high limit r }
{
    exceeds_limit(limit, r) && exceeds_limit(2.0 * limit, r)
}

// The residual of each rank, which takes the place of what stood in the column.
fn cell_residuals(celled: &CelledView, values: &mut ResidualColumn)
    ensures { values.new ≡ column max_points None celled.now.view.sheet.lattice.count (residual_at (view_in celled.now.view) (cells_at celled.now.keys.now)) }
{
    let seen = Seen {
        keys: celled.keys,
        points: celled.view.points(),
    };
    *values = [None; MAX_POINTS];
    for k in 0..celled.view.sheet.lattice.count {
        values[k] = local_h::local_h_residual(&seen, k);
    }
}

// The flags of each rank: the tolerance times the scale of the rank's index is the limit.
fn flags_of(lattice: &Lattice, values: &ResidualColumn, scale: &Floats, tolerance: f32) -> Flags
    ensures { result ≡ rank_flags (λ (k : ℕ). get_or values.now k None) (λ (k : ℕ). get_or scale.now k nan) tolerance lattice.now.count }
{
    let over = view::filled(0, lattice.count, |k| {
        u8::from(exceeds_limit(tolerance * scale[k], values[k]))
    });
    let high = view::filled(0, lattice.count, |k| {
        u8::from(is_high(tolerance * scale[k], values[k]))
    });
    Flags { over, high }
}

// For each rank what its index has: the residual of the index's last cell that has one, in the place of what stood in the column, and the
// flags of any of its cells.
#[inline(never)]
pub fn index_residuals(
    celled: &CelledView,
    scale: &Floats,
    tolerance: f32,
    values: &mut ResidualColumn,
) -> Flags
    ensures residuals { values.new ≡ residuals_of (view_in celled.now.view) (cells_at celled.now.keys.now) }
    ensures flags { result ≡ index_flags (residual_at (view_in celled.now.view) (cells_at celled.now.keys.now)) (λ (j : ℕ). get_or scale.now j nan) tolerance (view_in celled.now.view) }
{
    let view = &celled.view;
    cell_residuals(celled, values);
    let Flags { over, high } = flags_of(&view.sheet.lattice, values, scale, tolerance);
    by_index::gather(view, values);
    Flags {
        over: marks::by_index(&view.sheet, &over),
        high: marks::by_index(&view.sheet, &high),
    }
}
