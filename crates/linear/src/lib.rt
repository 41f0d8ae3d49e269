// A system of eight linear equations, solved by elimination with row exchange. The system is a local of `solve` and lent to the steps of the
// elimination: a call that takes and returns it would copy it.
#![tactic(auto)]

ghost use Rattle.std.specs.Prelude.{◌≡◌, ◌<◌, ◌≤◌, IfSome};
ghost use Rattle.folds.specs.Run.{run};
ghost use Rattle.linear.specs.Linear.{next_larger, pivot_row, reduce_entry, reduce_row, reduce_rows, eliminate_column, less_entry, forward_by, backward_by, zero_diagonal, substituted, solution_of};

// The rows of the matrix, and the right side.
#[derive(Drop)]
struct System {
    rows: [[f32; 8]; 8],
    right: [f32; 8],
}

// The first row below row `best` whose entry of column i is larger than that of row `best`.
#[tactic(auto, using(crate::proofs::Pivot::passing), unfolding(crate::specs::Linear::next_larger))]
fn next_larger(m: &[[f32; 8]; 8], i: usize, best: usize) -> Option<usize>
    requires { (i < 8) × (best < 8) }
    ensures value { result ≡ next_larger m.now i best }
    ensures inside { IfSome result (λ k. k < 8) }
{
    let largest = float::magnitude(m[best][i]);
    for k in best + 1..8 {
        if largest < float::magnitude(m[k][i]) {
            return Some(k);
        }
    }
    None
}

// The row of column i's pivot. The search starts anew after each larger entry: so it is compiled to jumps, which the processor foresees, and the
// pivot's row is read without waiting for the comparisons.
#[tactic(auto, using(crate::proofs::Pivot::searching), unfolding(crate::specs::Linear::pivot_row))]
fn pivot_row(m: &[[f32; 8]; 8], i: usize) -> usize
    requires { i < 8 }
    ensures { (result < 8) × (result ≡ pivot_row m.now i) }
{
    let mut best = i;
    while let Some(k) = next_larger(m, i, best) {
        best = k;
    }
    best
}

// The entries of row k from `from` on and below `end`, each less t times that of the pivot's row p.
#[tactic(auto, using(crate::proofs::Turns::turns), unfolding(crate::specs::Linear::reduce_entry))]
fn reduce_entries(m: &mut [[f32; 8]; 8], p: &[f32; 8], k: usize, t: f32, from: usize, end: usize)
    requires { (k < 8) × (end ≤ 8) }
    ensures { m.new ≡ run (reduce_entry p.now k t) from end m.old }
{
    for j in from..end {
        m[k][j] = m[k][j] + (-p[j]) * t;
    }
}

// Row k, where p is the pivot's row of column i: the multiplier takes the place of the zero. For the first four columns
// the last four entries of a row are reduced by themselves, which is compiled to operations on four numbers at once.
#[tactic(auto, using(crate::proofs::Turns::turns), unfolding(crate::specs::Linear::reduce_row))]
fn reduce_row(m: &mut [[f32; 8]; 8], p: &[f32; 8], i: usize, inverse: f32, k: usize)
    requires { (i < 8) × (k < 8) }
    ensures { m.new ≡ reduce_row p.now i inverse k m.old }
{
    let t = m[k][i] * inverse;
    m[k][i] = t;
    if i < 4 {
        reduce_entries(m, p, k, t, i + 1, 4);
        reduce_entries(m, p, k, t, 4, 8);
    } else {
        reduce_entries(m, p, k, t, i + 1, 8);
    }
}

// The rows below row i.
#[tactic(auto, using(crate::proofs::Turns::turns), unfolding(crate::specs::Linear::reduce_rows))]
fn reduce_rows(m: &mut [[f32; 8]; 8], p: &[f32; 8], i: usize, inverse: f32)
    requires { i < 8 }
    ensures { m.new ≡ reduce_rows p.now i inverse m.old }
{
    for k in i + 1..8 {
        reduce_row(m, p, i, inverse, k);
    }
}

#[tactic(auto, using(crate::proofs::Turns::searched), unfolding(crate::specs::Linear::zero_diagonal))]
fn zero_diagonal(m: &[[f32; 8]; 8]) -> bool
    ensures { result ≡ zero_diagonal m.now }
{
    for i in 0..8 {
        if m[i][i] == 0.0 {
            return true;
        }
    }
    false
}

// The entries of x from `from` on and below `end`, each less t times that of column i.
#[tactic(auto, using(crate::proofs::Turns::turns), unfolding(crate::specs::Linear::less_entry))]
fn less_column(m: &[[f32; 8]; 8], i: usize, t: f32, x: &mut [f32; 8], from: usize, end: usize)
    requires { (i < 8) × (end ≤ 8) }
    ensures { x.new ≡ run (less_entry m.now i t) from end x.old }
{
    for k in from..end {
        x[k] = x[k] + (-t) * m[k][i];
    }
}

#[tactic(auto, using(crate::proofs::Turns::turns), unfolding(crate::specs::Linear::forward_column, crate::specs::Linear::forward_by))]
fn forward(m: &[[f32; 8]; 8], b: [f32; 8]) -> [f32; 8]
    ensures { result ≡ forward_by m.now b }
{
    let mut x = b;
    for i in 0..8 {
        let t = x[i];
        less_column(m, i, t, &mut x, i + 1, 8);
    }
    x
}

#[tactic(auto, using(crate::proofs::Turns::turns), unfolding(crate::specs::Linear::backward_column, crate::specs::Linear::backward_by))]
fn backward(m: &[[f32; 8]; 8], b: [f32; 8]) -> [f32; 8]
    ensures { result ≡ backward_by m.now b }
{
    let mut x = b;
    for i in (0..8).rev() {
        let t = x[i] / m[i][i];
        x[i] = t;
        less_column(m, i, t, &mut x, 0, i);
    }
    x
}

impl System {
    // Column i: the pivot is searched, its row exchanged, and the rows below reduced. An all-zero column is passed over.
    #[tactic(auto, unfolding(crate::specs::Linear::eliminate_column, crate::specs::Linear::eliminate_by))]
    fn eliminate(&mut self, i: usize)
        requires { i < 8 }
        ensures { self.new ≡ eliminate_column i self.old }
    {
        let best = pivot_row(&self.rows, i);
        let pivot = self.rows[best][i];
        if pivot == 0.0 {
            return;
        }
        self.rows.swap(best, i);
        self.right.swap(best, i);
        let p = self.rows[i];
        reduce_rows(&mut self.rows, &p, i, 1.0 / pivot);
    }

    #[tactic(auto, unfolding(crate::specs::Linear::substituted))]
    fn substitute(&self) -> Option<[f32; 8]>
        ensures { result ≡ substituted self.now }
    {
        if zero_diagonal(&self.rows) {
            return None;
        }
        let y = forward(&self.rows, self.right);
        Some(backward(&self.rows, y))
    }
}

// The solution x, where there is one.
#[tactic(auto, using(crate::proofs::Turns::turns), unfolding(crate::specs::Linear::eliminated, crate::specs::Linear::solution_of))]
pub fn solve(a: [[f32; 8]; 8], b: [f32; 8]) -> Option<[f32; 8]>
    ensures { result ≡ solution_of a b }
{
    let mut s = System { rows: a, right: b };
    for i in 0..8 {
        s.eliminate(i);
    }
    s.substitute()
}
