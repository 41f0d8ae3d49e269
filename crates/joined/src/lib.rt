// Two halves of a sheet, each a file of its own, joined into one.
#![tactic(auto)]

ghost use Rattle.std.specs.List.{list_any};
ghost use Rattle.std.specs.Prelude.{◌≡◌, false, Bool, ◌||◌, ℕ, ◌+◌, ◌^◌, ◌<◌, ◌≤◌, leb, get_or};
ghost use Rattle.std.specs.Float.{nan};
ghost use Rattle.folds.specs.Below.{some};
ghost use Rattle.sheet_file.specs.Limit.{outside};
ghost use Rattle.points.specs.Table.{Tabled};
ghost use Rattle.points.specs.Refusals.{cell_order};
ghost use Rattle.ruling.specs.Ruling.{ruling_in};
ghost use Rattle.ruling.specs.Sheet.{Ruled};
ghost use Rattle.joined.specs.Joined.{joined_list, far, bad_move, is_weighed, joined_ruling};
ghost use Rattle.joined.specs.Halved.{Halved, HalvesOf, raised};
ghost use Rattle.joined.specs.Numbered.{number_at, key_at, index_of, coordinate_of, x_of, y_of, strength_of, out_wide, narrowed, TableOf};

mod moves;
mod pair;

use merged::Halves;
pub use moves::Move;
use pair::{Joint, Pair};
use points::Table;
use refusals::Refusal;
use ruling::Sheet;
use sheet_file::Fraction;
use view::Floats;

// Whether some k below n passes the test f.
fn any<F: Fn(usize) -> bool>(n: usize, f: F) -> bool
    requires { (k : ℕ) → k < n → F.pre f k }
    ensures { (t : ℕ → Bool) → ((k : ℕ) (r : Bool) → k < n → F.post f k r → r ≡ t k) → result ≡ some t n }
{
    for k in 0..n {
        if f(k) {
            return true;
        }
    }
    false
}

// ---- the numbers 15 to 17

// Whether a sheet has an index of 2^31 or more.
fn has_high_index(sheet: &Sheet) -> bool
    ensures { result ≡ some (λ (k : ℕ). leb (2 ^ 31) (get_or sheet.now.table.idx k 0)) sheet.now.count }
{
    let idx = &sheet.table.idx;
    any(sheet.count, |k| 0x8000_0000 <= idx[k])
}

// Whether an offset is outside −16,000 to 16,000.
fn is_far(z: i32) -> bool
    ensures { result ≡ far z }
{
    !(-16_000..=16_000).contains(&z)
}

// Whether a float is not finite or exceeds 16,384 in magnitude.
fn is_outside(x: f32) -> bool
    ensures { result ≡ outside x }
{
    sheet_file::is_outside_bits(float::to_bits(x))
}

impl Move {
    // Whether number 16 concerns it.
    fn is_bad(self) -> bool
        ensures { result ≡ bad_move self }
    {
        (is_far(self.du) || is_far(self.dv)) || (is_outside(self.dx) || is_outside(self.dy))
    }
}

// Whether a sheet has a tag 4, by its fraction.
fn is_weighed(fraction: Fraction) -> bool
    ensures { result ≡ is_weighed fraction }
{
    !matches!(fraction, Fraction::Missing)
}

// An offset plus 16,000.
fn raised(z: i32) -> u32
    requires { far z ≡ false }
    ensures { (result ≡ raised z) × (result ≤ 32000) }
{
    (z + 16_000) as u32
}

// The cells and indices of a sheet.
fn points_of(sheet: &Sheet) -> cells::Points<'_>
    ensures keys { result.keys.now ≡ sheet.now.table.keys }
    ensures count { result.count ≡ sheet.now.count }
{
    cells::Points {
        keys: &sheet.table.keys,
        idx: &sheet.table.idx,
        count: sheet.count,
    }
}

impl<'a> Pair<'a> {
    // Both tables, to be merged.
    fn halves(&self) -> Halves<'a>
        ensures { HalvesOf self.now.left.now self.now.right.now self.now.by result }
    {
        Halves {
            left: points_of(self.left),
            right: points_of(self.right),
            up_u: raised(self.by.du),
            up_v: raised(self.by.dv),
        }
    }

    // The joined list as a sheet, for a result buffer of `room` bytes; or one of the refusals 2, 3, 6 and 7.
    fn join(&self, room: usize) -> Result<Sheet, Refusal>
        ensures { (h : Halved self.now.left.now self.now.right.now self.now.by) → Ruled (ruling_in room self.now.left.now.settings (joined_list self.now.by h.lefts h.rights)) result }
    {
        let halves = self.halves();
        match halves.merge() {
            Some(sources) => Joint {
                pair: *self,
                halves,
                sources: &sources,
            }
            .sheet(room),
            None => Err(Refusal::TooManyPoints),
        }
    }
}

// Whether a wide key is that of a cell out of range.
fn is_out(key: u64) -> bool
    ensures { result ≡ out_wide key }
{
    let range = 16_003..=32_003;
    !range.contains(&(key / 65_536)) || !range.contains(&(key % 65_536))
}

// The key of a cell in range.
fn narrowed(key: u64) -> u32
    requires { out_wide key ≡ false }
    ensures { result ≡ narrowed key }
{
    ((key / 65_536 - 16_000) * u64::from(cells::STRIDE) + (key % 65_536 - 16_000)) as u32
}

impl Joint<'_> {
    // The number of the point at rank r.
    #[tactic(auto, using(crate::proofs::Found::number_known, crate::proofs::Found::few_numbers))]
    fn number(&self, r: usize) -> usize
        requires { r < self.now.sources.now.count }
        ensures { (result ≡ number_at self.now r) × (result < self.now.pair.left.now.count + self.now.pair.right.now.count) }
    {
        usize::from(self.sources.order[r])
    }

    // Its fields: the wide key of its cell, its index, its position and its strength.
    fn key(&self, r: usize) -> u64
        requires { r < self.now.sources.now.count }
        ensures { result ≡ key_at self.now r }
    {
        self.halves.key(self.number(r))
    }

    #[tactic(auto, unfolding(crate::specs::Numbered::index_of))]
    fn index(&self, r: usize) -> u32
        requires { r < self.now.sources.now.count }
        ensures { result ≡ index_of self.now.pair (number_at self.now r) }
    {
        let s = self.number(r);
        let n = self.pair.left.count;
        if s < n {
            return self.pair.left.table.idx[s];
        }
        self.pair.right.table.idx[s - n] + 0x8000_0000
    }

    // A coordinate of it, from those of both halves: of a right point the shift is added.
    #[tactic(auto, unfolding(crate::specs::Numbered::coordinate_of))]
    fn coordinate(&self, r: usize, left: &Floats, right: &Floats, shift: f32) -> f32
        requires { r < self.now.sources.now.count }
        ensures { result ≡ coordinate_of self.now.pair left.now right.now shift (number_at self.now r) }
    {
        let s = self.number(r);
        let n = self.pair.left.count;
        if s < n {
            return left[s];
        }
        right[s - n] + shift
    }

    fn x(&self, r: usize) -> f32
        requires { r < self.now.sources.now.count }
        ensures { result ≡ x_of self.now.pair (number_at self.now r) }
    {
        let pair = &self.pair;
        self.coordinate(r, &pair.left.table.x, &pair.right.table.x, pair.by.dx)
    }

    fn y(&self, r: usize) -> f32
        requires { r < self.now.sources.now.count }
        ensures { result ≡ y_of self.now.pair (number_at self.now r) }
    {
        let pair = &self.pair;
        self.coordinate(r, &pair.left.table.y, &pair.right.table.y, pair.by.dy)
    }

    #[tactic(auto, unfolding(crate::specs::Numbered::strength_of))]
    fn strength(&self, r: usize) -> f32
        requires { r < self.now.sources.now.count }
        ensures { result ≡ strength_of self.now.pair (number_at self.now r) }
    {
        let s = self.number(r);
        let n = self.pair.left.count;
        if s < n {
            return self.pair.left.table.strength[s];
        }
        self.pair.right.table.strength[s - n]
    }

    // The key of its cell, if that is in range.
    fn cell(&self, r: usize) -> u32
        requires { (r < self.now.sources.now.count) × (out_wide (key_at self.now r) ≡ false) }
        ensures { result ≡ narrowed (key_at self.now r) }
    {
        narrowed(self.key(r))
    }

    // Numbers 6 and 7.
    fn any_off_range(&self) -> bool
        ensures { result ≡ some (λ (r : ℕ). out_wide (key_at self.now r)) self.now.sources.now.count }
    {
        any(self.sources.count, |r| is_out(self.key(r)))
    }

    fn any_off_limit(&self) -> bool
        ensures { result ≡ some (λ (r : ℕ). outside (x_of self.now.pair (number_at self.now r)) || outside (y_of self.now.pair (number_at self.now r))) self.now.sources.now.count }
    {
        any(self.sources.count, |r| {
            is_outside(self.x(r)) || is_outside(self.y(r))
        })
    }

    // The points as they are handed on.
    fn table(&self) -> Table
        requires { some (λ (r : ℕ). out_wide (key_at self.now r)) self.now.sources.now.count ≡ false }
        ensures { TableOf self.now result }
    {
        let n = self.sources.count;
        Table {
            keys: view::filled(0, n, |r| self.cell(r)),
            idx: view::filled(0, n, |r| self.index(r)),
            x: view::filled(f32::NAN, n, |r| self.x(r)),
            y: view::filled(f32::NAN, n, |r| self.y(r)),
            strength: view::filled(f32::NAN, n, |r| self.strength(r)),
        }
    }

    // The joined points as a sheet, for a result buffer of `room` bytes; or one of the refusals 3, 6 and 7.
    fn sheet(&self, room: usize) -> Result<Sheet, Refusal>
        ensures { (h : Halved self.now.pair.left.now self.now.pair.right.now self.now.pair.by) → Ruled (ruling_in room self.now.pair.left.now.settings (joined_list self.now.pair.by h.lefts h.rights)) result }
    {
        let count = self.sources.count;
        if room < 28 * count {
            return Err(Refusal::ShortBuffer);
        }
        if self.any_off_range() {
            return Err(Refusal::BadCell);
        }
        if self.any_off_limit() {
            return Err(Refusal::BadPosition);
        }
        Ok(Sheet {
            settings: self.pair.left.settings,
            count,
            table: self.table(),
        })
    }
}

// The sheet that two files make, the right one moved; or a refusal. `room` is the length of the result buffer. Both halves are read and joined
// here, so that their arrays are gone when the sheet is judged.
#[inline(never)]
pub fn read(left: &[u8], right: &[u8], by: Move, room: usize) -> Result<Sheet, Refusal>
    ensures { Ruled (joined_ruling left.now right.now by room) result }
{
    let left = ruling::read(left, room)?;
    let right = ruling::read(right, room)?;
    if has_high_index(&left) || has_high_index(&right) {
        return Err(Refusal::HighIndex);
    }
    if by.is_bad() {
        return Err(Refusal::BadMove);
    }
    if is_weighed(left.settings.score_frac) != is_weighed(right.settings.score_frac) {
        return Err(Refusal::UnlikeHalves);
    }
    Pair {
        left: &left,
        right: &right,
        by,
    }
    .join(room)
}
