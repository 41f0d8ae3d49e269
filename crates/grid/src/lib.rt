// The table of ranks of a sheet (see the crate `view`), from the keys and indices of its points in cell order.
#![tactic(auto)]

ghost use Rattle.std.specs.Prelude.{◌≡◌, cond, ◌&&◌, ◌+◌, ◌*◌, ◌/◌, ◌%◌, ◌≤◌, ◌<◌, eqb, ltb, replicate};
ghost use Rattle.view.specs.View.{max_points, ranks_size, rows_at, columns_at, indices_at};
ghost use Rattle.cells.specs.Points.{stride};
ghost use Rattle.cells.specs.Cell.{cells_at};
ghost use Rattle.sort.specs.Packed.{packed_places};
ghost use Rattle.grid.specs.Tables.{entry_in, neighbour_entry, first_in_row, first_in_column, last_with_index, spliced, ranks_of, Keys};
ghost use Rattle.grid.specs.Sweep.{key_centre, Behind, Reached, FiveFit, standing_from};

use cells::Points;
use sort::Entry;
use view::Ranks;

// A rank stands at a target if its key plus this is the target, so that the targets of two cells down are no negative numbers.
const CENTRE: u32 = 2 * cells::STRIDE + 2;

// How many values the v part of a key has.
const V_PARTS: usize = cells::STRIDE as usize;

// No rank.
const NONE: u16 = view::MAX_POINTS as u16;

// Points whose keys rise and are those of cells in range.
#[derive(Clone, Copy)]
pub struct KeyedPoints<'a> {
    pub points: Points<'a>,
    ghost keyed: { Keys points.keys.now points.count },
}

// What e steps in u add to a key.
fn steps(e: usize) -> u32
    requires { e < 5 }
    ensures { result ≡ stride * e }
{
    cells::STRIDE * (e as u32)
}

// The rank r, or k if r is no rank before it.
fn earlier(r: u16, k: usize) -> u16
    requires { k ≤ max_points }
    ensures { result ≡ cond (ltb r k) r k }
{
    if usize::from(r) < k { r } else { k as u16 }
}

impl KeyedPoints<'_> {
    // The first rank from `from` on that does not stand before the target.
    fn advance(&self, from: usize, target: u32) -> usize
        requires { Behind self.now.points.count (entry_in self.now.points.keys.now) from target }
        ensures { Reached self.now.points.count (entry_in self.now.points.keys.now) result target }
    {
        for p in from..self.points.count {
            if target <= self.points.keys[p] + CENTRE {
                return p;
            }
        }
        from.max(self.points.count)
    }

    // Whether rank p stands at the target.
    fn stands(&self, p: usize, target: u32) -> bool
        ensures { result ≡ ltb p self.now.points.count && eqb (entry_in self.now.points.keys.now p + key_centre) target }
    {
        p < self.points.count && self.points.keys[p] + CENTRE == target
    }

    // Writes the ranks that stand at five targets, from `target` on, into the table from `at` on, the count where none stands; `from` is
    // the first rank that does not stand before them.
    fn five(&self, from: usize, target: u32, ranks: &mut Ranks, at: usize)
        requires { Reached self.now.points.count (entry_in self.now.points.keys.now) from target × FiveFit target at }
        ensures { ranks.new ≡ spliced at 5 (standing_from self.now.points.count (entry_in self.now.points.keys.now) target) ranks.old }
    {
        let mut p = from;
        for e in 0..5 {
            if self.stands(p, target + e as u32) {
                ranks[at + e] = p as u16;
                p += 1;
            } else {
                ranks[at + e] = self.points.count as u16;
            }
        }
    }

    // Fills the block of neighbours: 25 entries for each rank, the count where no point stands. The ranks that stand two cells to one side
    // and two to the other follow each other, so that one reached rank for each difference of u will do.
    fn fill_near(&self, ranks: &mut Ranks)
        ensures { ranks.new ≡ spliced 0 (25 * self.now.points.count) (neighbour_entry self.now.points.count (cells_at self.now.points.keys.now)) ranks.old }
    {
        let mut reached = [0usize; 5];
        for i in 0..5 * self.points.count {
            let e = i % 5;
            let target = self.points.keys[i / 5] + steps(e);
            let p = self.advance(reached[e], target);
            reached[e] = p;
            self.five(p, target, ranks, 5 * i);
        }
    }

    // Fills the block of rows: the first rank of each rank's row, by a table over all v.
    fn fill_rows(&self, ranks: &mut Ranks)
        ensures { ranks.new ≡ spliced rows_at self.now.points.count (first_in_row self.now.points.count (cells_at self.now.points.keys.now)) ranks.old }
    {
        let mut seen = [NONE; V_PARTS];
        for k in 0..self.points.count {
            let v = cells::v_part(self.points.keys[k]) as usize;
            let r = earlier(seen[v], k);
            seen[v] = r;
            ranks[view::ROWS_AT + k] = r;
        }
    }

    // The rank `start` if it has rank k's u, else k.
    fn start_of(&self, start: usize, k: usize) -> usize
        requires { (start < max_points) × (k < max_points) }
        ensures { result ≡ cond (eqb (entry_in self.now.points.keys.now start / stride) (entry_in self.now.points.keys.now k / stride)) start k }
    {
        if cells::u_part(self.points.keys[start]) == cells::u_part(self.points.keys[k]) {
            return start;
        }
        k
    }

    // Fills the block of columns: the first rank of each rank's column. The ranks of a column follow each other.
    fn fill_columns(&self, ranks: &mut Ranks)
        ensures { ranks.new ≡ spliced columns_at self.now.points.count (first_in_column self.now.points.count (cells_at self.now.points.keys.now)) ranks.old }
    {
        let mut start: usize = 0;
        for k in 0..self.points.count {
            start = self.start_of(start, k);
            ranks[view::COLUMNS_AT + k] = start as u16;
        }
    }

    // The last rank with the index at place i of the order by index and rank; `after` is that of the next place.
    fn last_rank(&self, order: &[Entry; view::MAX_POINTS], i: usize, after: u16) -> u16
        requires { i < self.now.points.count }
        ensures { result ≡ cond (ltb (i + 1) self.now.points.count && eqb (entry_in order.now i / packed_places) (entry_in order.now (i + 1) / packed_places)) after (entry_in order.now i % packed_places) }
    {
        let rank = order[i].place() as u16;
        if self.points.count <= i + 1 {
            return rank;
        }
        if order[i].key() == order[i + 1].key() {
            return after;
        }
        rank
    }

    // Fills the block of indices: the last rank with each rank's index, which stands for the index.
    fn fill_indices(&self, ranks: &mut Ranks)
        ensures { ranks.new ≡ spliced indices_at self.now.points.count (last_with_index self.now.points.count (entry_in self.now.points.idx.now)) ranks.old }
    {
        let order = sort::in_order(self.points.count, |k| u64::from(self.points.idx[k]));
        let mut last: u16 = 0;
        for i in (0..self.points.count).rev() {
            last = self.last_rank(&order, i, last);
            let k = order[i].place();
            ranks[view::INDICES_AT + k] = last;
        }
    }
}

// Fills the table of ranks, which is all zeros.
#[inline(never)]
pub fn fill(points: &KeyedPoints, ranks: &mut Ranks)
    requires { ranks.old ≡ replicate ranks_size 0 }
    ensures { ranks.new ≡ ranks_of points.now.points.count points.now.points.keys.now points.now.points.idx.now }
{
    points.fill_near(ranks);
    points.fill_rows(ranks);
    points.fill_columns(ranks);
    points.fill_indices(ranks);
}
