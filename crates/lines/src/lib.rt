// Rows and columns of points: the line fitted to each, and the points that lie off it.
#![tactic(auto)]

ghost use Rattle.std.specs.List.{fold};
ghost use Rattle.std.specs.Prelude.{◌≡◌, ℕ, ◌≤◌, ◌<◌, length, get_or};
ghost use Rattle.folds.specs.Lists.{gather};
ghost use Rattle.folds.specs.Marked.{bit};
ghost use Rattle.folds.specs.Column.{column as column_of};
ghost use Rattle.folds.specs.Scattered.{Scattered, one_more};
ghost use Rattle.view.specs.View.{max_points, value_at};
ghost use Rattle.view.specs.Seen.{view_in};
ghost use Rattle.marks.specs.Marks.{is_set};
ghost use Rattle.lines.specs.Fit.{larger_eigenvalue, direction_of, line_through, centre_of, line_around, fit_of, distance_of};
ghost use Rattle.lines.specs.Flags.{is_far, flagged_by, is_on, is_flagged, flags_at};
ghost use Rattle.lines.specs.Lines.{rule_in, Members, Numbered, Chained, mark_if};

use view::{Floats, Lattice, MAX_POINTS, Marks, Places, Positions, View};

// A line: its centre and its unit direction.
#[derive(Clone, Copy)]
struct Line {
    cx: f32,
    cy: f32,
    ux: f32,
    uy: f32,
}

#[derive(Clone, Copy)]
struct Vector {
    x: f32,
    y: f32,
}

// What points are held against: where they are seen, the scale of each rank's index, the line tolerance and the line minimum.
#[derive(Clone, Copy)]
struct Rule<'a> {
    seen: Positions<'a>,
    scale: &'a Floats,
    tolerance: f32,
    minimum: u16,
}

// The ranks of each line, chained: the first on each line, and for each rank the next on its line.
#[derive(Drop)]
struct Chain {
    heads: [Option<u16>; MAX_POINTS],
    nexts: [Option<u16>; MAX_POINTS],
}

#[tactic(auto, unfolding(crate::specs::Fit::larger_eigenvalue))]
fn larger_eigenvalue(sxx: f32, sxy: f32, syy: f32) -> f32
    ensures { result ≡ larger_eigenvalue sxx sxy syy }
{
    let trace = sxx + syy;
    let det = sxx * syy - sxy * sxy;
    let disc = float::sqrt(float::max(trace * trace * 0.25 - det, 0.0));
    trace * 0.5 + disc
}

// The direction of the largest spread.
#[tactic(auto, unfolding(crate::specs::Fit::direction_of))]
fn direction(sxx: f32, sxy: f32, syy: f32) -> Vector
    ensures { result ≡ direction_of sxx sxy syy }
{
    if float::abs(sxy) > f32::EPSILON {
        let y = larger_eigenvalue(sxx, sxy, syy) - sxx;
        return Vector { x: sxy, y: y };
    }
    if sxx >= syy {
        return Vector { x: 1.0, y: 0.0 };
    }
    Vector { x: 0.0, y: 1.0 }
}

// The line through c in the direction of v.
#[tactic(auto, unfolding(crate::specs::Fit::line_through))]
fn line_through(c: Vector, v: Vector) -> Line
    ensures { result ≡ line_through c v }
{
    let length = float::max(float::norm(v.x, v.y).value, f32::EPSILON);
    Line {
        cx: c.x,
        cy: c.y,
        ux: v.x / length,
        uy: v.y / length,
    }
}

// The distance of (x, y) from a line takes no root, so that it has no remainder.
#[tactic(auto, unfolding(crate::specs::Fit::distance_of))]
fn distance(line: Line, x: f32, y: f32) -> f32
    ensures { result ≡ distance_of line x y }
{
    let dx = x - line.cx;
    let dy = y - line.cy;
    float::abs(dx * (-line.uy) + dy * line.ux)
}

impl Rule<'_> {
    // The centre of the points with these ranks.
    #[tactic(auto, using(crate::proofs::Sums::sums), unfolding(crate::specs::Fit::mean_over))]
    fn centre(&self, members: &[u16]) -> Vector
        requires { Members members.now }
        ensures { result ≡ centre_of (value_at self.now.seen.x.now) (value_at self.now.seen.y.now) members.now }
    {
        let mut cx = 0.0;
        let mut cy = 0.0;
        for j in members {
            let j = usize::from(*j);
            cx += self.seen.x[j];
            cy += self.seen.y[j];
        }
        let n = members.len() as f32;
        Vector {
            x: cx / n,
            y: cy / n,
        }
    }

    // The line through v fitted to the points with these ranks.
    #[tactic(auto, using(crate::proofs::Sums::sums), unfolding(crate::specs::Fit::line_around, crate::specs::Fit::moment_of))]
    fn line_around(&self, v: Vector, members: &[u16]) -> Line
        requires { Members members.now }
        ensures { result ≡ line_around (value_at self.now.seen.x.now) (value_at self.now.seen.y.now) v members.now }
    {
        let mut sxx = 0.0;
        let mut sxy = 0.0;
        let mut syy = 0.0;
        for j in members {
            let j = usize::from(*j);
            let dx = self.seen.x[j] - v.x;
            let dy = self.seen.y[j] - v.y;
            sxx += dx * dx;
            sxy += dx * dy;
            syy += dy * dy;
        }
        line_through(v, direction(sxx, sxy, syy))
    }

    // The line fitted to the points with these ranks.
    #[tactic(auto, unfolding(crate::specs::Fit::fit_of))]
    fn fit(&self, members: &[u16]) -> Line
        requires { Members members.now }
        ensures { result ≡ fit_of (value_at self.now.seen.x.now) (value_at self.now.seen.y.now) members.now }
    {
        self.line_around(self.centre(members), members)
    }

    // Whether rank j is too far from a line.
    #[tactic(auto, unfolding(crate::specs::Flags::is_far))]
    fn is_far(&self, line: Line, j: usize) -> bool
        requires { j < max_points }
        ensures { result ≡ is_far (rule_in self.now) line j }
    {
        distance(line, self.seen.x[j], self.seen.y[j]) > self.tolerance * self.scale[j]
    }

    // Sets the marks of those members of a line that it flags.
    fn mark_flagged(&self, members: &[u16], out: &mut Marks)
        requires { Members members.now }
        ensures { out.new ≡ fold (mark_if (flagged_by (rule_in self.now) self.now.minimum members.now)) out.old members.now }
    {
        if members.is_empty() || members.len() < usize::from(self.minimum) {
            return;
        }
        let line = self.fit(members);
        for j in members {
            let j = usize::from(*j);
            if self.is_far(line, j) {
                out[j] = 1;
            }
        }
    }
}

// The chain of all ranks, whose lines are given by numbers that are ranks.
fn chained<F: Fn(usize) -> usize>(lattice: &Lattice, line: F) -> Chain
    requires callable { (k : ℕ) → k < lattice.now.count → F.pre line k }
    requires numbered { (g : ℕ → ℕ) × Numbered lattice.now.count (F.post line) g }
    ensures { (g : ℕ → ℕ) → Numbered lattice.now.count (F.post line) g → Chained lattice.now.count g 0 result.heads result.nexts }
{
    let mut heads = [None; MAX_POINTS];
    let mut nexts = [None; MAX_POINTS];
    for i in (0..lattice.count).rev() {
        let number = line(i);
        nexts[i] = heads[number];
        heads[number] = Some(i as u16);
    }
    Chain { heads, nexts }
}

impl Chain {
    // The ranks of the line with this number, rising, which it writes at the start of `room`.
    fn members<'a>(&self, number: usize, room: &'a mut Places) -> &'a [u16]
        requires small { number < max_points }
        requires chained { (n : ℕ) × (line : ℕ → ℕ) × Chained n line 0 self.now.heads self.now.nexts }
        ensures ranks { Members result.now }
        ensures line { (n : ℕ) (line : ℕ → ℕ) → Chained n line 0 self.now.heads self.now.nexts → result.now ≡ gather (is_on line number) n }
    {
        let mut c: usize = 0;
        let mut next = self.heads[number];
        while let Some(k) = next {
            room[c] = k;
            c += 1;
            next = self.nexts[usize::from(k)];
        }
        &room[..c]
    }
}

// 1 for each rank that its line flags, else 0; the lines are given by numbers that are ranks.
fn flagged<F: Fn(usize) -> usize>(rule: &Rule, lattice: &Lattice, line: F) -> Marks
    requires callable { (k : ℕ) → k < lattice.now.count → F.pre line k }
    requires numbered { (g : ℕ → ℕ) × Numbered lattice.now.count (F.post line) g }
    ensures { (g : ℕ → ℕ) → Numbered lattice.now.count (F.post line) g → result ≡ column_of max_points 0 lattice.now.count (λ (k : ℕ). bit (is_flagged (rule_in rule.now) rule.now.minimum g lattice.now.count k)) }
{
    let chain = chained(lattice, line);
    let mut room = [0u16; MAX_POINTS];
    let mut out = [0u8; MAX_POINTS];
    for number in 0..lattice.count {
        rule.mark_flagged(chain.members(number, &mut room), &mut out);
    }
    out
}

// Adds to the count of each index its ranks with a mark.
fn count(view: &View, mark: &Marks, flags: &mut Places)
    requires { (m : ℕ) → m < max_points → get_or flags.old m 0 ≤ max_points }
    ensures { Scattered 0 (view_in view.now).by_idx (is_set mark.now) one_more flags.old view.now.sheet.lattice.count flags.new }
{
    for k in 0..view.sheet.lattice.count {
        if mark[k] == 1 {
            flags[view.sheet.lattice.index(k)] += 1;
        }
    }
}

// How many flags each index has from the rows and columns of its cells, at the last of its ranks.
#[inline(never)]
pub fn line_flags(view: &View, scale: &Floats, tolerance: f32, minimum: u16) -> Places
    ensures { result ≡ column_of max_points 0 view.now.sheet.lattice.count (flags_at (view_in view.now) (value_at scale.now) tolerance minimum) }
{
    let rule = Rule {
        seen: view.seen,
        scale,
        tolerance,
        minimum,
    };
    let lattice = &view.sheet.lattice;
    let rows = flagged(&rule, lattice, |k| lattice.row(k));
    let columns = flagged(&rule, lattice, |k| lattice.column(k));
    let mut flags = [0u16; MAX_POINTS];
    count(view, &rows, &mut flags);
    count(view, &columns, &mut flags);
    flags
}
