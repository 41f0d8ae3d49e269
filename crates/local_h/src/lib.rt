// The residual of each corner: how far the map fitted to its nearest neighbours takes its cell from where it is seen.
#![tactic(auto)]

ghost use Rattle.std.specs.Prelude.{◌≡◌, Bool, true, ℕ, [], ◌+◌, ◌*◌, ◌≤◌, ◌<◌, get_or, pos, nat_abs, ◌-ℤ◌, IfSome};
ghost use Rattle.offsets.specs.declared.Offset.{Offset};
ghost use Rattle.offsets.specs.Offsets.{is_within2, place_of};
ghost use Rattle.view.specs.View.{max_points};
ghost use Rattle.view.specs.Seen.{lattice_in, seen_in, below, WhereverSeen};
ghost use Rattle.cells.specs.Points.{bias};
ghost use Rattle.cells.specs.Cell.{cell_of_key, cells_at};
ghost use Rattle.local_h.specs.Order.{offset_at};
ghost use Rattle.local_h.specs.Base.{step_product, on_line, member_at, base_of};
ghost use Rattle.local_h.specs.Finding.{other_at, found_from, found_base, place_in};
ghost use Rattle.local_h.specs.Residual.{coordinate, cell_point, seen_at, residual_by, residual_from, residual_at};

use float::Distance;
use homography::{Homography, PlanePoint};
use offsets::Offset;
use view::{Lattice, MAX_POINTS, Ranks, SeenLattice, Words};

// The base of a corner: its members' places in the order of the 24 cells round it. Where one is missing, so are those after it.
pub type Base = [Option<usize>; 4];

// A place of the order with its offset and the rank there.
#[derive(Clone, Copy)]
struct Found {
    place: usize,
    offset: Offset,
    rank: usize,
}

// A residual, or none: the finding that no fit exists.
pub type Residual = Option<Distance>;

// An entry for each point.
pub type ResidualColumn = [Residual; MAX_POINTS];

// The keys of the cells, and the points that are seen there.
#[derive(Clone, Copy)]
pub struct Seen<'a> {
    pub keys: &'a Words,
    pub points: SeenLattice<'a>,
}

// The 24 offsets within 2, nearest first, then by smaller dv, then by smaller du.
const NEAREST_FIRST: [Offset; 24] = [
    Offset { du: 0, dv: -1 },
    Offset { du: -1, dv: 0 },
    Offset { du: 1, dv: 0 },
    Offset { du: 0, dv: 1 },
    Offset { du: -1, dv: -1 },
    Offset { du: 1, dv: -1 },
    Offset { du: -1, dv: 1 },
    Offset { du: 1, dv: 1 },
    Offset { du: 0, dv: -2 },
    Offset { du: -2, dv: 0 },
    Offset { du: 2, dv: 0 },
    Offset { du: 0, dv: 2 },
    Offset { du: -1, dv: -2 },
    Offset { du: 1, dv: -2 },
    Offset { du: -2, dv: -1 },
    Offset { du: 2, dv: -1 },
    Offset { du: -2, dv: 1 },
    Offset { du: 2, dv: 1 },
    Offset { du: -1, dv: 2 },
    Offset { du: 1, dv: 2 },
    Offset { du: -2, dv: -2 },
    Offset { du: 2, dv: -2 },
    Offset { du: -2, dv: 2 },
    Offset { du: 2, dv: 2 },
];

// The offset at place p of the order.
fn offset_at(p: usize) -> Offset
    requires { p < 24 }
    ensures { result ≡ offset_at p }
{
    NEAREST_FIRST[p]
}

// What the table has at place p of the order round rank k: the rank there, or a number that is no rank.
pub fn member(ranks: &Ranks, k: usize, p: usize) -> usize
    requires { (k < max_points) × (p < 24) }
    ensures { result ≡ get_or ranks.now (25 * k + place_of (offset_at p)) 0 }
{
    view::rank_at(ranks, k, offset_at(p))
}

// The rank at place p of the order round rank k, if there is a point.
pub fn present_member(lattice: &Lattice, k: usize, p: usize) -> Option<usize>
    requires { (k < max_points) × (p < 24) }
    ensures value { result ≡ below lattice.now.count (member_at (lattice_in lattice.now) k p) }
    ensures inside { IfSome result (λ j. j < lattice.now.count) }
{
    lattice.neighbour(k, offset_at(p))
}

// Place p with the rank there, if there is a point and its index is not rank k's.
#[inline(always)]
fn other(lattice: &Lattice, k: usize, p: usize) -> Option<Found>
    requires { (k < lattice.now.count) × (p < 24) }
    ensures { result ≡ other_at (lattice_in lattice.now) k p }
{
    let offset = offset_at(p);
    let rank = lattice.neighbour(k, offset)?;
    if lattice.index(rank) == lattice.index(k) {
        return None;
    }
    Some(Found {
        place: p,
        offset,
        rank,
    })
}

// What is added to y for x, of two parts of offsets.
fn difference(x: i8, y: i8) -> i8
    requires { (is_within2 x ≡ true) × (is_within2 y ≡ true) }
    ensures { (result ≡ x -ℤ y) × (nat_abs result ≤ 4) }
{
    x - y
}

// The step from a to b along u times that from a to c along v.
fn product(a: Offset, b: Offset, c: Offset) -> i8
    ensures { result ≡ step_product a b c }
{
    difference(b.du, a.du) * difference(c.dv, a.dv)
}

// Whether three offsets are on one lattice line.
#[tactic(auto, using(crate::proofs::Steps::agree_bits), unfolding(crate::specs::Base::on_line))]
fn on_line(a: Offset, b: Offset, c: Offset) -> bool
    ensures { result ≡ on_line a b c }
{
    product(a, b, c) == product(a, c, b)
}

// The first place from `start` on that has a point of another index and whose offset serves.
fn next_place<F: Fn(Offset) -> bool>(
    lattice: &Lattice,
    k: usize,
    start: usize,
    serves: F,
) -> Option<Found>
    requires inside { k < lattice.now.count }
    requires callable { (o : Offset) → F.pre serves o }
    ensures value { (g : Offset → Bool) → ((o : Offset) (r : Bool) → F.post serves o r → r ≡ g o) → result ≡ found_from (lattice_in lattice.now) k g start }
    ensures within { IfSome result (λ f. f.place < 24) }
{
    for p in start..24 {
        if let Some(f) = other(lattice, k, p) {
            if serves(f.offset) {
                return Some(f);
            }
        }
    }
    None
}

// The base of rank k, with the ranks of its members. "Three are taken; the fourth is the next that leaves the four not all on one lattice
// line."
fn search_base(lattice: &Lattice, k: usize) -> [Option<Found>; 4]
    requires { k < lattice.now.count }
    ensures { WhereverSeen lattice.now (λ w. result ≡ found_base w k) }
{
    let Some(a) = next_place(lattice, k, 0, |_| true) else {
        return [None; 4];
    };
    let Some(b) = next_place(lattice, k, a.place + 1, |_| true) else {
        return [Some(a), None, None, None];
    };
    let Some(c) = next_place(lattice, k, b.place + 1, |_| true) else {
        return [Some(a), Some(b), None, None];
    };
    let leave = on_line(a.offset, b.offset, c.offset);
    let d = next_place(lattice, k, c.place + 1, |o| {
        !(leave && on_line(a.offset, b.offset, o))
    });
    [Some(a), Some(b), Some(c), d]
}

// The same, without a search where the nearest four cells have points of other indices: they are the base.
#[inline(always)]
fn find_base(lattice: &Lattice, k: usize) -> [Option<Found>; 4]
    requires { k < lattice.now.count }
    ensures { WhereverSeen lattice.now (λ w. result ≡ found_base w k) }
{
    let a = other(lattice, k, 0);
    let b = other(lattice, k, 1);
    let c = other(lattice, k, 2);
    let d = other(lattice, k, 3);
    if a.is_some() && b.is_some() && c.is_some() && d.is_some() {
        return [a, b, c, d];
    }
    search_base(lattice, k)
}

fn place(f: Option<Found>) -> Option<usize>
    ensures { result ≡ place_in f }
{
    f.map(|f| f.place)
}

// The base of rank k.
pub fn pick_local_h_base(lattice: &Lattice, k: usize) -> Base
    requires { k < lattice.now.count }
    ensures { WhereverSeen lattice.now (λ w. result ≡ base_of w k) }
{
    let [a, b, c, d] = find_base(lattice, k);
    [place(a), place(b), place(c), place(d)]
}

// A key's part without its bias, as f32.
fn coordinate_of(b: u32) -> f32
    requires { b < 262144 }
    ensures { result ≡ coordinate (pos b -ℤ pos bias) }
{
    (b as i32 - cells::BIAS as i32) as f32
}

// The cell with this key as a point.
fn key_point(key: u32) -> PlanePoint
    ensures { result ≡ cell_point (cell_of_key key) }
{
    PlanePoint {
        x: coordinate_of(cells::u_part(key)),
        y: coordinate_of(cells::v_part(key)),
    }
}

impl Seen<'_> {
    // The cell of rank k as a point.
    fn cell(&self, k: usize) -> PlanePoint
        requires { k < max_points }
        ensures { result ≡ cell_point (cells_at self.now.keys.now k) }
    {
        key_point(self.keys[k])
    }

    // Where rank k is seen.
    fn point(&self, k: usize) -> PlanePoint
        requires { k < max_points }
        ensures { result ≡ seen_at (seen_in self.now.points) k }
    {
        PlanePoint {
            x: self.points.seen.x[k],
            y: self.points.seen.y[k],
        }
    }
}

// How far the map takes p from q.
#[tactic(auto, unfolding(crate::specs::Residual::residual_by))]
fn residual_by(fit: Option<Homography>, p: PlanePoint, q: PlanePoint) -> Residual
    ensures { result ≡ residual_by fit p q }
{
    fit.map(|h| {
        let s = homography::apply(h, p);
        float::norm(s.x - q.x, s.y - q.y)
    })
}

// The residual of rank k by the ranks of its base.
fn residual_from(seen: &Seen, k: usize, base: [usize; 4]) -> Residual
    requires { (k < max_points) × ((i : ℕ) → i < 4 → get_or base i 0 < max_points) }
    ensures { result ≡ residual_from (seen_in seen.now.points) (cells_at seen.now.keys.now) k (get_or base 0 0) (get_or base 1 0) (get_or base 2 0) (get_or base 3 0) }
{
    let [i, j, l, m] = base;
    let cells = [seen.cell(i), seen.cell(j), seen.cell(l), seen.cell(m)];
    let points = [seen.point(i), seen.point(j), seen.point(l), seen.point(m)];
    let fit = homography::homography_from_4pt(cells, points);
    residual_by(fit, seen.cell(k), seen.point(k))
}

// The residual of rank k.
pub fn local_h_residual(seen: &Seen, k: usize) -> Residual
    requires { k < seen.now.points.lattice.count }
    ensures { result ≡ residual_at (seen_in seen.now.points) (cells_at seen.now.keys.now) k }
{
    let [a, b, c, d] = find_base(&seen.points.lattice, k);
    let (Some(a), Some(b), Some(c), Some(d)) = (a, b, c, d) else {
        return None;
    };
    residual_from(seen, k, [a.rank, b.rank, c.rank, d.rank])
}
