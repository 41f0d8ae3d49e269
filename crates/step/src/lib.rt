// The local step of each index, its scale, and the steps that lie too far from their median.
#![tactic(auto)]

ghost use Rattle.std.specs.Prelude.{◌≡◌, ◌&&◌, ℕ, ◌<◌};
ghost use Rattle.std.specs.Float.{nan};
ghost use Rattle.std.specs.Float.Ieee.{lt};
ghost use Rattle.std.specs.Float.Ieee.Scale.{finite};
ghost use Rattle.float.specs.Constants.{zero};
ghost use Rattle.folds.specs.Below.{tally};
ghost use Rattle.folds.specs.Column.{column};
ghost use Rattle.folds.specs.Marked.{bit};
ghost use Rattle.offsets.specs.Axes.{forward, back};
ghost use Rattle.view.specs.View.{max_points, value_at};
ghost use Rattle.view.specs.Seen.{seen_in, WhereverSeen};
ghost use Rattle.step.specs.Step.{spacing, axis_step, mean_step, kept_step, local_step, step_at, scale_at};
ghost use Rattle.step.specs.Deviation.{is_step_outside, deviates};

use float::Distance;
use median::Numbers;
use offsets::Axis;
use view::{Floats, MAX_POINTS, Marks, Positions, SeenLattice, SheetLattice};

// The distance from rank p to rank q.
#[tactic(auto, unfolding(crate::specs::Step::spacing))]
pub fn spacing(seen: &Positions, p: usize, q: usize) -> Distance
    requires { (p < max_points) × (q < max_points) }
    ensures { result ≡ spacing (value_at seen.now.x.now) (value_at seen.now.y.now) p q }
{
    float::norm(seen.x[q] - seen.x[p], seen.y[q] - seen.y[p])
}

// The step of rank m along an axis, or none. Half a distance and a mean of two are no roots, so that a step has no remainder.
fn axis_step(points: &SeenLattice, m: usize, axis: Axis) -> Option<f32>
    requires { m < max_points }
    ensures { result ≡ axis_step (seen_in points.now) (back axis) (forward axis) m }
{
    match (
        points.lattice.neighbour(m, axis.back()),
        points.lattice.neighbour(m, axis.forward()),
    ) {
        (Some(l), Some(r)) => Some(spacing(&points.seen, l, r).value * 0.5),
        (Some(l), None) => Some(spacing(&points.seen, l, m).value),
        (None, Some(r)) => Some(spacing(&points.seen, m, r).value),
        (None, None) => None,
    }
}

#[tactic(auto, unfolding(crate::specs::Step::mean_step))]
fn mean_step(a: Option<f32>, b: Option<f32>) -> Option<f32>
    ensures { result ≡ mean_step a b }
{
    match (a, b) {
        (Some(s), Some(t)) => Some((s + t) * 0.5),
        (Some(s), None) => Some(s),
        (None, t) => t,
    }
}

// Whether a step counts.
fn is_positive(s: f32) -> bool
    ensures { result ≡ lt zero s && finite s }
{
    0.0 < s && s.is_finite()
}

#[tactic(auto, unfolding(crate::specs::Step::kept_step))]
fn kept_step(a: Option<f32>) -> f32
    ensures { result ≡ kept_step a }
{
    let Some(s) = a else {
        return 0.0;
    };
    if is_positive(s) { s } else { 0.0 }
}

#[tactic(auto, unfolding(crate::specs::Step::local_step))]
fn local_step(points: &SeenLattice, m: usize) -> f32
    requires { m < max_points }
    ensures { result ≡ local_step (seen_in points.now) m }
{
    let u = axis_step(points, m, Axis::AlongU);
    let v = axis_step(points, m, Axis::AlongV);
    kept_step(mean_step(u, v))
}

// The step at place m, or 0.
#[tactic(auto, unfolding(crate::specs::Step::step_at))]
fn step_at(points: &SeenLattice, aware: bool, m: usize) -> f32
    requires { m < max_points }
    ensures { result ≡ step_at (seen_in points.now) aware m }
{
    if aware && points.lattice.index(m) == m {
        local_step(points, m)
    } else {
        0.0
    }
}

// The step of each index, at the last of its ranks; 0 where there is none, and everywhere without the step flag.
#[inline(never)]
pub fn steps(points: &SeenLattice, aware: bool) -> Floats
    ensures { result ≡ column max_points nan points.now.lattice.count (step_at (seen_in points.now) aware) }
{
    view::filled(f32::NAN, points.lattice.count, |m| {
        step_at(points, aware, m)
    })
}

// The scale of rank k's index, from the steps of the indices.
#[tactic(auto, unfolding(crate::specs::Step::scale_at))]
fn scale_at(sheet: &SheetLattice, steps: &Floats, size: f32, k: usize) -> f32
    requires { k < sheet.now.lattice.count }
    ensures { WhereverSeen sheet.now.lattice (λ w. result ≡ scale_at w (value_at steps.now) size k) }
{
    let s = steps[sheet.lattice.index(k)];
    if 0.0 < s { s } else { size }
}

// The scale of each rank's index; `size` is the cell size.
#[inline(never)]
pub fn scales(sheet: &SheetLattice, steps: &Floats, size: f32) -> Floats
    ensures { WhereverSeen sheet.now.lattice (λ w. result ≡ column max_points nan sheet.now.lattice.count (scale_at w (value_at steps.now) size)) }
{
    view::filled(f32::NAN, sheet.lattice.count, |k| {
        scale_at(sheet, steps, size, k)
    })
}

// How many steps there are.
fn how_many(steps: &Numbers) -> usize
    ensures { result ≡ tally (λ (k : ℕ). lt zero (value_at steps.now.values.now k)) steps.now.count }
{
    view::counted(steps.count, |k| 0.0 < steps.values[k])
}

#[tactic(auto, unfolding(crate::specs::Deviation::is_step_outside))]
fn is_outside(median: f32, t: f32, s: f32) -> bool
    ensures { result ≡ is_step_outside median t s }
{
    s < median / (1.0 + t) || s > median * (1.0 + t)
}

// 1 for each step outside the limits, else 0.
fn mark_outside(steps: &Numbers, median: f32, t: f32) -> Marks
    ensures { result ≡ column max_points 0 steps.now.count (λ (m : ℕ). bit (lt zero (value_at steps.now.values.now m) && is_step_outside median t (value_at steps.now.values.now m))) }
{
    view::filled(0, steps.count, |m| {
        let s = steps.values[m];
        u8::from(0.0 < s && is_outside(median, t, s))
    })
}

// 1 for each index whose step lies too far from the median of all steps, at its place, else 0. A threshold of 0 or less marks none.
pub fn deviations(steps: &Numbers, t: f32) -> Marks
    ensures { result ≡ column max_points 0 steps.now.count (λ (m : ℕ). bit (deviates (value_at steps.now.values.now) steps.now.count t m)) }
{
    if 0.0 < t && how_many(steps) >= 3 {
        return mark_outside(steps, median::middle(steps), t);
    }
    [0; MAX_POINTS]
}
