// What the filters see of a sheet, as arrays: the most points, the table of ranks and what is read of it. See specs/View.antt.
#![tactic(auto)]

ghost use Rattle.std.specs.Prelude.{◌≡◌, Bool, [], replicate, ℕ, ◌+◌, ◌*◌, ◌≤◌, ◌<◌, get_or, ltb, IfSome};
ghost use Rattle.folds.specs.Below.{tally};
ghost use Rattle.folds.specs.Column.{column, overlaid};
ghost use Rattle.folds.specs.Marked.{bit};
ghost use Rattle.offsets.specs.Offsets.{place_of};
ghost use Rattle.view.specs.View.{max_points, ranks_size, rows_at, columns_at, indices_at, view_at, rank_at, degree_at};
ghost use Rattle.view.specs.Seen.{lattice_in, seen_in, view_in, below};

mod lattice;

pub use lattice::{Lattice, Positions, SeenLattice, SheetLattice, View};
use offsets::Offset;

// Every array with an entry for each point has this length.
pub const MAX_POINTS: usize = 2304;

// The table of ranks: 25 neighbours for each point, then its row, its column and the place of its index, each in a block of its own.
pub const RANKS_SIZE: usize = 28 * MAX_POINTS;

pub type Ranks = [u16; RANKS_SIZE];

// An entry for each point: a coordinate or another number, a mark or a small count, a rank, a key or an index.
pub type Floats = [f32; MAX_POINTS];

pub type Marks = [u8; MAX_POINTS];

pub type Places = [u16; MAX_POINTS];

pub type Words = [u32; MAX_POINTS];

pub const ROWS_AT: usize = 25 * MAX_POINTS;

pub const COLUMNS_AT: usize = 26 * MAX_POINTS;

pub const INDICES_AT: usize = 27 * MAX_POINTS;

// The number that the specifications use is the code's.
pub fn max_points() -> usize
    ensures { result ≡ max_points }
{
    MAX_POINTS
}

pub fn ranks_size() -> usize
    ensures { result ≡ ranks_size }
{
    RANKS_SIZE
}

// An array with an entry for each point: of the first n what f gives for it, and of those beyond them `rest`.
pub fn filled<T: Copy, F: Fn(usize) -> T>(rest: T, n: usize, f: F) -> [T; MAX_POINTS]
    requires few { n ≤ max_points }
    requires callable { (k : ℕ) → k < n → F.pre f k }
    ensures { (g : ℕ → T) → ((k : ℕ) (r : T) → k < n → F.post f k r → r ≡ g k) → result ≡ column max_points rest n g }
{
    let mut out = [rest; MAX_POINTS];
    for k in 0..n {
        out[k] = f(k);
    }
    out
}

// How many of the first n pass the test f.
pub fn counted<F: Fn(usize) -> bool>(n: usize, f: F) -> usize
    requires callable { (k : ℕ) → k < n → F.pre f k }
    ensures { (g : ℕ → Bool) → ((k : ℕ) (r : Bool) → k < n → F.post f k r → r ≡ g k) → result ≡ tally g n }
{
    let mut c = 0;
    for i in 0..n {
        c += usize::from(f(i));
    }
    c
}

// What the table has at place d of the 25 round rank k: the rank there, or a number that is no rank.
pub fn rank_at_place(ranks: &Ranks, k: usize, d: usize) -> usize
    requires { (k < max_points) × (d < 25) }
    ensures { result ≡ get_or ranks.now (25 * k + d) 0 }
{
    usize::from(ranks[25 * k + d])
}

// What it has at offset o from rank k.
pub fn rank_at(ranks: &Ranks, k: usize, o: Offset) -> usize
    requires { k < max_points }
    ensures { result ≡ get_or ranks.now (25 * k + place_of o) 0 }
{
    rank_at_place(ranks, k, offsets::place(o))
}

// 1 if there is one of n points at offset o from rank k, else 0.
fn there(ranks: &Ranks, n: usize, k: usize, o: Offset) -> u8
    requires { k < max_points }
    ensures { (result ≡ bit (ltb (get_or ranks.now (25 * k + place_of o) 0) n)) × (result ≤ 1) }
{
    u8::from(rank_at(ranks, k, o) < n)
}

// How many of the four cells that share an edge with rank k's hold one of n points.
pub fn degree_at(ranks: &Ranks, n: usize, k: usize) -> u8
    requires { k < max_points }
    ensures { result ≡ degree_at (view_at n ranks.now [] []) k }
{
    there(ranks, n, k, offsets::NEXT_U)
        + there(ranks, n, k, offsets::NEXT_V)
        + there(ranks, n, k, offsets::PREV_U)
        + there(ranks, n, k, offsets::PREV_V)
}

impl Lattice<'_> {
    // The rank at place d of the 25 round rank k, if there is a point.
    pub fn at_place(&self, k: usize, d: usize) -> Option<usize>
        requires { (k < max_points) × (d < 25) }
        ensures value { result ≡ below self.now.count (get_or self.now.ranks.now (25 * k + d) 0) }
        ensures inside { IfSome result (λ j. j < self.now.count) }
    {
        let j = rank_at_place(self.ranks, k, d);
        (j < self.count).then_some(j)
    }

    // The rank at offset o from rank k, if there is a point.
    pub fn neighbour(&self, k: usize, o: Offset) -> Option<usize>
        requires { k < max_points }
        ensures value { result ≡ below self.now.count (rank_at (lattice_in self.now) k o) }
        ensures inside { IfSome result (λ j. j < self.now.count) }
    {
        self.at_place(k, offsets::place(o))
    }

    // The first rank of rank k's row.
    pub fn row(&self, k: usize) -> usize
        requires { k < max_points }
        ensures { result ≡ (lattice_in self.now).row k }
    {
        usize::from(self.ranks[ROWS_AT + k])
    }

    // The first rank of rank k's column.
    pub fn column(&self, k: usize) -> usize
        requires { k < max_points }
        ensures { result ≡ (lattice_in self.now).column k }
    {
        usize::from(self.ranks[COLUMNS_AT + k])
    }

    // The last rank with rank k's index, which is the place of the index.
    pub fn index(&self, k: usize) -> usize
        requires { k < max_points }
        ensures { result ≡ (lattice_in self.now).by_idx k }
    {
        usize::from(self.ranks[INDICES_AT + k])
    }

    // How many of the four cells that share an edge with rank k's hold a point.
    pub fn degree(&self, k: usize) -> u8
        requires { k < max_points }
        ensures { result ≡ degree_at (lattice_in self.now) k }
    {
        degree_at(self.ranks, self.count, k)
    }
}

impl SheetLattice<'_> {
    // Writes at each rank what is held at the place of its index.
    pub fn spread<T: Copy>(&self, held: &[T; MAX_POINTS], out: &mut [T; MAX_POINTS])
        ensures { (d : T) → out.new ≡ overlaid self.now.lattice.count (λ k. get_or held.now ((lattice_in self.now.lattice).by_idx k) d) out.old }
    {
        for k in 0..self.lattice.count {
            out[k] = held[self.lattice.index(k)];
        }
    }

    // The same into an array that has `rest` at each entry.
    pub fn by_index<T: Copy>(&self, held: &[T; MAX_POINTS], rest: T) -> [T; MAX_POINTS]
        ensures { (d : T) → result ≡ overlaid self.now.lattice.count (λ k. get_or held.now ((lattice_in self.now.lattice).by_idx k) d) (replicate max_points rest) }
    {
        let mut out = [rest; MAX_POINTS];
        self.spread(held, &mut out);
        out
    }
}

impl<'a> View<'a> {
    // Its points, by themselves.
    pub fn points(&self) -> SeenLattice<'a>
        ensures { seen_in result ≡ view_in self.now }
    {
        SeenLattice {
            lattice: self.sheet.lattice,
            seen: self.seen,
        }
    }
}
