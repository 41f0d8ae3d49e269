// Edge figures and edge reasons: how edges continue through a corner, and the shape of the cells around it.
#![tactic(auto)]

ghost use Rattle.std.specs.Prelude.{◌≡◌, cond, ◌<◌};
ghost use Rattle.std.specs.Float.Ieee.{lt};
ghost use Rattle.offsets.specs.Axes.{forward, back};
ghost use Rattle.view.specs.View.{rank_at};
ghost use Rattle.view.specs.Seen.{view_in};
ghost use Rattle.edge_shape.specs.Figures.{side_at, compared, noted, continuation_at, shape_at, within_gate, is_valid, continuation_fails, noted_cell, reason_of, reason_number, figures_by, figures_at};

use edges::EdgeTable;
use offsets::{Axis, NEXT_U, NEXT_V, OWN, Offset, PREV_U, PREV_UV, PREV_V};
use sheet_file::EdgeShapeParams;

#[derive(Clone, Copy)]
struct Side {
    dx: f32,
    dy: f32,
    len: f32,
}

// A cosine and a ratio of lengths.
#[derive(Clone, Copy)]
pub struct Measure {
    pub cosine: f32,
    pub ratio: f32,
}

// A cell whose four corners are on the sheet: the measures of its two pairs of opposite sides.
#[derive(Clone, Copy)]
struct CellShape {
    along_u: Option<Measure>,
    along_v: Option<Measure>,
}

#[derive(Clone, Copy)]
pub enum Reason {
    LowCardinalDegree = 1,
    BadContinuation = 2,
    NoValidAdjacentCell = 3,
}

#[derive(Clone, Copy)]
pub struct Figures {
    pub degree: u8,
    pub adjacent: u8,
    pub valid: u8,
    pub continuation: Option<Measure>,
    pub cells: Option<Measure>,
    pub reason: Option<Reason>,
}

// No figures: what stands past the last rank.
pub const NO_FIGURES: Figures = Figures {
    degree: 0,
    adjacent: 0,
    valid: 0,
    continuation: None,
    cells: None,
    reason: None,
};

#[tactic(auto, unfolding(crate::specs::Figures::compared))]
fn compare(a: Side, b: Side) -> Option<Measure>
    ensures { result ≡ compared a b }
{
    if a.len <= f32::EPSILON || b.len <= f32::EPSILON {
        return None;
    }
    Some(Measure {
        cosine: float::clamp((a.dx * b.dx + a.dy * b.dy) / (a.len * b.len)),
        ratio: float::max(a.len, b.len) / float::min(a.len, b.len),
    })
}

// The smaller cosine, the first of equals.
fn least(a: f32, b: f32) -> f32
    ensures { result ≡ cond (lt b a) b a }
{
    if b < a { b } else { a }
}

#[tactic(auto, unfolding(crate::specs::Figures::noted))]
fn note(m: Option<Measure>, p: Option<Measure>) -> Option<Measure>
    ensures { result ≡ noted m p }
{
    match (m, p) {
        (Some(m), Some(p)) => Some(Measure {
            cosine: least(m.cosine, p.cosine),
            ratio: float::max(m.ratio, p.ratio),
        }),
        _ => m.or(p),
    }
}

// The edge from rank a along an axis to rank b.
#[tactic(auto, unfolding(crate::specs::Figures::side_at))]
fn side_at(edges: &EdgeTable, axis: Axis, a: usize, b: usize) -> Side
    requires { (a < edges.now.view.sheet.lattice.count) × (b < edges.now.view.sheet.lattice.count) × (b ≡ rank_at (view_in edges.now.view) a (forward axis)) }
    ensures { result ≡ side_at (view_in edges.now.view) (forward axis) a }
{
    let x = edges.view.seen.x;
    let y = edges.view.seen.y;
    Side {
        dx: x[b] - x[a],
        dy: y[b] - y[a],
        len: edges.at(axis, a).len,
    }
}

// The edge along an axis that leads to rank k, against the one that goes on from it.
#[inline(always)]
#[tactic(auto, using(crate::proofs::Laws::continuation_steps))]
fn continuation_at(edges: &EdgeTable, axis: Axis, k: usize) -> Option<Measure>
    requires { k < edges.now.view.sheet.lattice.count }
    ensures { result ≡ continuation_at (view_in edges.now.view) (back axis) (forward axis) k }
{
    let lattice = &edges.view.sheet.lattice;
    let forward = axis.forward();
    let before = lattice.neighbour(k, axis.back())?;
    let after = lattice.neighbour(k, forward)?;
    let own = lattice.neighbour(before, forward)?;
    compare(
        side_at(edges, axis, before, own),
        side_at(edges, axis, k, after),
    )
}

// The cell whose least corner is at offset o from rank k, if its corners are on the sheet.
#[inline(always)]
#[tactic(auto, using(crate::proofs::Laws::cell_steps))]
fn cell_at(edges: &EdgeTable, k: usize, o: Offset) -> Option<CellShape>
    requires { k < edges.now.view.sheet.lattice.count }
    ensures { result ≡ shape_at (view_in edges.now.view) (rank_at (view_in edges.now.view) k o) }
{
    let lattice = &edges.view.sheet.lattice;
    let t = lattice.neighbour(k, o)?;
    let right = lattice.neighbour(t, NEXT_U)?;
    let below = lattice.neighbour(t, NEXT_V)?;
    let across = lattice.neighbour(below, NEXT_U)?;
    let down = lattice.neighbour(right, NEXT_V)?;
    Some(CellShape {
        along_u: compare(
            side_at(edges, Axis::AlongU, t, right),
            side_at(edges, Axis::AlongU, below, across),
        ),
        along_v: compare(
            side_at(edges, Axis::AlongV, t, below),
            side_at(edges, Axis::AlongV, right, down),
        ),
    })
}

// Whether a pair of opposite sides is within the gate.
#[tactic(auto, unfolding(crate::specs::Figures::within_gate))]
fn is_within(g: EdgeShapeParams, m: Option<Measure>) -> bool
    ensures { result ≡ within_gate g m }
{
    m.is_some_and(|m| {
        !(m.cosine < g.cell_opposite_cos_min) && !(g.cell_opposite_length_ratio_max < m.ratio)
    })
}

// Whether both pairs of a cell's opposite sides are.
fn is_valid(g: EdgeShapeParams, c: Option<CellShape>) -> bool
    ensures { result ≡ is_valid g c }
{
    c.is_some_and(|c| is_within(g, c.along_u) && is_within(g, c.along_v))
}

#[tactic(auto, unfolding(crate::specs::Figures::noted_cell))]
fn note_cell(m: Option<Measure>, c: Option<CellShape>) -> Option<Measure>
    ensures { result ≡ noted_cell m c }
{
    match c {
        None => m,
        Some(c) => note(note(m, c.along_u), c.along_v),
    }
}

// Whether a continuation fails the gate.
fn continuation_fails(g: EdgeShapeParams, degree: u8, valid: u8, m: Option<Measure>) -> bool
    ensures { result ≡ continuation_fails g degree valid m }
{
    m.is_some_and(|m| {
        m.cosine < g.continuation_cos_min
            || (degree <= 3 || valid <= 2) && g.continuation_length_ratio_max < m.ratio
    })
}

#[tactic(auto, unfolding(crate::specs::Figures::reason_of))]
fn first_reason(
    g: EdgeShapeParams,
    degree: u8,
    adjacent: u8,
    valid: u8,
    m: Option<Measure>,
) -> Option<Reason>
    ensures { result ≡ reason_of g degree adjacent valid m }
{
    if degree < g.min_cardinal_degree {
        return Some(Reason::LowCardinalDegree);
    }
    if continuation_fails(g, degree, valid, m) {
        return Some(Reason::BadContinuation);
    }
    if 0 < adjacent && valid == 0 {
        return Some(Reason::NoValidAdjacentCell);
    }
    None
}

// "0 none, 1 low-cardinal-degree, 2 bad-continuation, 3 no-valid-adjacent-cell."
pub fn reason_number(r: Option<Reason>) -> u8
    ensures { result ≡ reason_number r }
{
    match r {
        None => 0,
        Some(r) => r as u8,
    }
}

// All figures, from the continuations and the cells around a corner.
fn figures_by(
    g: EdgeShapeParams,
    degree: u8,
    continuation: Option<Measure>,
    cells: [Option<CellShape>; 4],
) -> Figures
    ensures { result ≡ figures_by g degree continuation cells }
{
    let adjacent = cells.iter().filter(|c| c.is_some()).count() as u8;
    let valid = cells.iter().filter(|c| is_valid(g, **c)).count() as u8;
    Figures {
        degree,
        adjacent,
        valid,
        continuation,
        cells: cells.iter().copied().fold(None, note_cell),
        reason: first_reason(g, degree, adjacent, valid, continuation),
    }
}

// All figures of rank k's cell.
#[tactic(auto, unfolding(view::specs::View::degree_at, crate::specs::Figures::continuations_at, crate::specs::Figures::figures_at))]
pub fn figures_at(g: EdgeShapeParams, edges: &EdgeTable, k: usize) -> Figures
    requires { k < edges.now.view.sheet.lattice.count }
    ensures { result ≡ figures_at g (view_in edges.now.view) k }
{
    let along_u = continuation_at(edges, Axis::AlongU, k);
    let along_v = continuation_at(edges, Axis::AlongV, k);
    let cells = [
        cell_at(edges, k, OWN),
        cell_at(edges, k, PREV_U),
        cell_at(edges, k, PREV_UV),
        cell_at(edges, k, PREV_V),
    ];
    figures_by(
        g,
        edges.view.sheet.lattice.degree(k),
        note(along_u, along_v),
        cells,
    )
}
