// The points of a sheet file: the refusals 6, 7, 13, 8, 9 and 14, and the points in cell order.
#![tactic(auto)]

ghost use Rattle.std.specs.List.{list_any};
ghost use Rattle.std.specs.Prelude.{◌≡◌, false, not, ◌||◌, ℕ, Bool, ◌+◌, ◌*◌, ◌/◌, ◌%◌, ◌≤◌, ◌<◌, length, get_or};
ghost use Rattle.folds.specs.Among.{pair_in};
ghost use Rattle.folds.specs.Arith.{f32};
ghost use Rattle.cells.specs.Points.{Point, key_of};
ghost use Rattle.sort.specs.Packed.{packed_places};
ghost use Rattle.sheet_file.specs.Bytes.{Bytes};
ghost use Rattle.points.specs.Records.{points_in, PointsFit};
ghost use Rattle.points.specs.Refusals.{same_cell, off_range, off_limit, off_strength, off_fraction, same_position, two_positions, two_strengths, cell_order};
ghost use Rattle.points.specs.Entries.{Likeness, clash};
ghost use Rattle.points.specs.Held.{nth, listed, at_rank, Ordered};
ghost use Rattle.points.specs.Table.{Tabled, TableFor};

mod accepted;
mod records;

use accepted::Accepted;
use records::{Order, Points};
use refusals::Refusal;
use sheet_file::{Fraction, Layout};
use view::{Floats, Words};

impl Points<'_> {
    // Where the record of point i begins.
    fn at(&self, i: usize) -> usize
        requires { i < self.now.layout.count }
        ensures { (result ≡ self.now.layout.points + 20 * i) × (result + 20 ≤ length self.now.file.now) }
    {
        self.layout.points + 20 * i
    }

    // Whether point i has the fault of number 6.
    fn is_off_range(&self, i: usize) -> bool
        requires { i < self.now.layout.count }
        ensures { result ≡ off_range (nth self.now i) }
    {
        let at = self.at(i);
        !cells::in_range(sheet_file::u32_at(self.file, at))
            || !cells::in_range(sheet_file::u32_at(self.file, at + 4))
    }

    // Whether point i has that of number 7.
    fn is_off_limit(&self, i: usize) -> bool
        requires { i < self.now.layout.count }
        ensures { result ≡ off_limit (nth self.now i) }
    {
        let at = self.at(i);
        sheet_file::is_outside(self.file, at + 12) || sheet_file::is_outside(self.file, at + 16)
    }

    // The bits of point i's strength; 0 without tag 4.
    fn strength(&self, i: usize) -> u32
        requires { i < self.now.layout.count }
        ensures { result ≡ (nth self.now i).strength }
    {
        match self.layout.weights {
            Some(w) => sheet_file::u32_at(self.file, w.at + 4 + 4 * i),
            None => 0,
        }
    }

    // The key of point i's cell.
    fn cell(&self, i: usize) -> u64
        requires { i < self.now.layout.count }
        ensures { (result ≡ key_of (nth self.now i)) × (result < 0x1_0000_0000_0000) }
    {
        let at = self.at(i);
        cells::key(
            sheet_file::u32_at(self.file, at),
            sheet_file::u32_at(self.file, at + 4),
        )
    }

    // Its index.
    fn index(&self, i: usize) -> u32
        requires { i < self.now.layout.count }
        ensures { result ≡ (nth self.now i).index }
    {
        sheet_file::u32_at(self.file, self.at(i) + 8)
    }

    // Whether the points p and q have positions with the same bits.
    fn same_position(&self, p: usize, q: usize) -> bool
        requires { (p < self.now.layout.count) × (q < self.now.layout.count) }
        ensures { result ≡ same_position (nth self.now p) (nth self.now q) }
    {
        let a = self.at(p);
        let b = self.at(q);
        sheet_file::u32_at(self.file, a + 12) == sheet_file::u32_at(self.file, b + 12)
            && sheet_file::u32_at(self.file, a + 16) == sheet_file::u32_at(self.file, b + 16)
    }

    // Whether a point has a fault.
    fn any<F: Fn(usize) -> bool>(&self, fault: F) -> bool
        requires { (i : ℕ) → i < self.now.layout.count → F.pre fault i }
        ensures { (t : Point → Bool) → ((i : ℕ) (r : Bool) → i < self.now.layout.count → F.post fault i r → r ≡ t (nth self.now i)) → result ≡ list_any t (listed self.now) }
    {
        for i in 0..self.layout.count {
            if fault(i) {
                return true;
            }
        }
        false
    }

    // Numbers 6, 7 and 13.
    fn any_off_range(&self) -> bool
        ensures { result ≡ list_any off_range (listed self.now) }
    {
        self.any(|i| self.is_off_range(i))
    }

    fn any_off_limit(&self) -> bool
        ensures { result ≡ list_any off_limit (listed self.now) }
    {
        self.any(|i| self.is_off_limit(i))
    }

    fn any_off_strength(&self, fraction: Fraction) -> bool
        ensures { result ≡ off_fraction fraction || list_any off_strength (listed self.now) }
    {
        matches!(fraction, Fraction::Outside)
            || self.any(|i| sheet_file::is_outside_bits(self.strength(i)))
    }

    // The points in the order of their cells, and of their indices.
    fn by_cell(&self) -> Order<'_>
        ensures same { result.points ≡ self.now }
        ensures ordered { Ordered result key_of }
    {
        Order {
            points: *self,
            entries: sort::in_order(self.layout.count, |i| self.cell(i)),
        }
    }

    fn by_index(&self) -> Order<'_>
        ensures same { result.points ≡ self.now }
        ensures ordered { Ordered result (λ (p : Point). p.index) }
    {
        Order {
            points: *self,
            entries: sort::in_order(self.layout.count, |i| u64::from(self.index(i))),
        }
    }
}

impl Order<'_> {
    // The key of the point at rank r.
    fn key(&self, r: usize) -> u64
        requires { r < self.now.points.layout.count }
        ensures { result ≡ get_or self.now.entries r 0 / packed_places }
    {
        let entries = &self.entries;
        entries[r].key()
    }

    // Its place in the file.
    fn place(&self, r: usize) -> usize
        requires { r < self.now.points.layout.count }
        ensures { (result ≡ get_or self.now.entries r 0 % packed_places) × (result < self.now.points.layout.count) }
    {
        let entries = &self.entries;
        entries[r].place()
    }

    // Whether two points with one key are apart.
    fn any_apart<F: Fn(usize, usize) -> bool>(&self, apart: F) -> bool
        requires { (p q : ℕ) → p < self.now.points.layout.count → q < self.now.points.layout.count → F.pre apart p q }
        ensures { (key : Point → ℕ) (same : Point → Point → Bool) → Likeness same → Ordered self.now key → ((p q : ℕ) (r : Bool) → p < self.now.points.layout.count → q < self.now.points.layout.count → F.post apart p q r → r ≡ not (same (nth self.now.points p) (nth self.now.points q))) → result ≡ pair_in (clash key same) (listed self.now.points) }
    {
        for r in 0..self.points.layout.count.saturating_sub(1) {
            if self.key(r) == self.key(r + 1) && apart(self.place(r), self.place(r + 1)) {
                return true;
            }
        }
        false
    }

    // Numbers 8, 9 and 14.
    fn any_same_cell(&self) -> bool
        requires { Ordered self.now key_of }
        ensures { Bytes self.now.points.file.now → list_any off_range (listed self.now.points) ≡ false → result ≡ pair_in same_cell (listed self.now.points) }
    {
        self.any_apart(|_, _| true)
    }

    fn any_two_positions(&self) -> bool
        requires { Ordered self.now (λ (p : Point). p.index) }
        ensures { result ≡ pair_in two_positions (listed self.now.points) }
    {
        self.any_apart(|p, q| !self.points.same_position(p, q))
    }

    fn any_two_strengths(&self) -> bool
        requires { Ordered self.now (λ (p : Point). p.index) }
        ensures { result ≡ pair_in two_strengths (listed self.now.points) }
    {
        self.any_apart(|p, q| self.points.strength(p) != self.points.strength(q))
    }
}

impl Accepted<'_> {
    // The fields of the point at rank r: its cell's key, its index, its position and its strength.
    #[tactic(auto, using(crate::proofs::Columns::cell_fits))]
    fn cell(&self, r: usize) -> u32
        requires { r < self.now.order.points.layout.count }
        ensures { result ≡ get_or self.now.order.entries r 0 / packed_places }
    {
        self.order.key(r) as u32
    }

    fn index(&self, r: usize) -> u32
        requires { r < self.now.order.points.layout.count }
        ensures { result ≡ (at_rank self.now.order r).index }
    {
        self.order.points.index(self.order.place(r))
    }

    #[tactic(auto, using(crate::proofs::Columns::x_inside))]
    fn x(&self, r: usize) -> f32
        requires { r < self.now.order.points.layout.count }
        ensures { result ≡ f32 (at_rank self.now.order r).x }
    {
        sheet_file::float_at(
            self.order.points.file,
            self.order.points.at(self.order.place(r)) + 12,
        )
    }

    #[tactic(auto, using(crate::proofs::Columns::y_inside))]
    fn y(&self, r: usize) -> f32
        requires { r < self.now.order.points.layout.count }
        ensures { result ≡ f32 (at_rank self.now.order r).y }
    {
        sheet_file::float_at(
            self.order.points.file,
            self.order.points.at(self.order.place(r)) + 16,
        )
    }

    #[tactic(auto, using(crate::proofs::Columns::strength_inside))]
    fn strength(&self, r: usize) -> f32
        requires { r < self.now.order.points.layout.count }
        ensures { result ≡ f32 (at_rank self.now.order r).strength }
    {
        sheet_file::float_of(self.order.points.strength(self.order.place(r)))
    }

    // The points as they are handed on.
    fn table(&self) -> Table
        ensures { Tabled (cell_order (listed self.now.order.points)) result }
    {
        let n = self.order.points.layout.count;
        Table {
            keys: view::filled(0, n, |r| self.cell(r)),
            idx: view::filled(0, n, |r| self.index(r)),
            x: view::filled(f32::NAN, n, |r| self.x(r)),
            y: view::filled(f32::NAN, n, |r| self.y(r)),
            strength: view::filled(f32::NAN, n, |r| self.strength(r)),
        }
    }
}

// The points in cell order, one array a field.
#[derive(Drop)]
pub struct Table {
    pub keys: Words,
    pub idx: Words,
    pub x: Floats,
    pub y: Floats,
    pub strength: Floats,
}

// The points of a file whose fields stand so, with its fraction; or one of the refusals 6, 7, 13, 8, 9 and 14.
#[tactic(auto, unfolding(crate::specs::Refusals::number_for, crate::specs::Refusals::point_refusals))]
pub fn read(file: &[u8], f: Layout, fraction: Fraction) -> Result<Table, Refusal>
    requires { PointsFit file.now f }
    ensures { TableFor fraction (points_in file.now f) result }
{
    let points = Points { file, layout: f };
    if points.any_off_range() {
        return Err(Refusal::BadCell);
    }
    if points.any_off_limit() {
        return Err(Refusal::BadPosition);
    }
    if points.any_off_strength(fraction) {
        return Err(Refusal::BadStrength);
    }
    let by_cell = points.by_cell();
    if by_cell.any_same_cell() {
        return Err(Refusal::RepeatedCell);
    }
    let by_index = points.by_index();
    if by_index.any_two_positions() {
        return Err(Refusal::TwoPositions);
    }
    if by_index.any_two_strengths() {
        return Err(Refusal::TwoStrengths);
    }
    Ok(Accepted { order: by_cell }.table())
}
