// The marks of indices, from their line flags, residuals and steps.
#![tactic(auto)]

ghost use Rattle.std.specs.Prelude.{◌≡◌, ℕ, ◌<◌, IfSome};
ghost use Rattle.folds.specs.Column.{column};
ghost use Rattle.folds.specs.Below.{some};
ghost use Rattle.folds.specs.Marked.{bit, Marked};
ghost use Rattle.view.specs.View.{max_points};
ghost use Rattle.view.specs.Seen.{lattice_in, WhereverSeen};
ghost use Rattle.local_h.specs.Base.{member_at};
ghost use Rattle.blame.specs.Marks.{evidence_in, is_outlier, worse_of, blamed, is_visited, blames, blame_marks};

use view::{Lattice, MAX_POINTS, Marks, Places, SheetLattice};

// What the rules go by, at the place of each index: its line flags, whether its residual is over the tolerance, and over twice the
// tolerance, and whether its step is outside the limits.
#[derive(Clone, Copy)]
pub struct Evidence<'a> {
    pub flags: &'a Places,
    pub over: &'a Marks,
    pub high: &'a Marks,
    pub deviates: &'a Marks,
}

// The place of an index, and its line flags.
#[derive(Clone, Copy)]
struct Worst {
    at: usize,
    flags: u16,
}

// The table of ranks of a sheet, and what the rules go by there.
#[derive(Clone, Copy)]
struct SheetEvidence<'a> {
    sheet: SheetLattice<'a>,
    evidence: Evidence<'a>,
}

impl SheetEvidence<'_> {
    // The worse of the worst so far and the base member at place p of the order round rank k.
    fn worse(&self, k: usize, worst: Option<Worst>, p: Option<usize>) -> Option<Worst>
        requires corner { k < self.now.sheet.lattice.count }
        requires member { IfSome p (λ q. (q < 24) × (member_at (lattice_in self.now.sheet.lattice) k q < self.now.sheet.lattice.count)) }
        requires inside { IfSome worst (λ w. w.at < self.now.sheet.lattice.count) }
        ensures value { result ≡ worse_of (lattice_in self.now.sheet.lattice) (evidence_in self.now.evidence).flags k worst p }
        ensures inside { IfSome result (λ w. w.at < self.now.sheet.lattice.count) }
    {
        let Some(p) = p else {
            return worst;
        };
        let Some(j) = local_h::present_member(&self.sheet.lattice, k, p) else {
            return worst;
        };
        let at = self.sheet.lattice.index(j);
        let f = self.evidence.flags[at];
        if worst.map_or(0, |w| w.flags) < f {
            Some(Worst { at, flags: f })
        } else {
            worst
        }
    }

    // The place of the index that corner k blames, if it blames one.
    fn blame(&self, k: usize) -> Option<usize>
        requires { k < self.now.sheet.lattice.count }
        ensures value { result ≡ blamed (lattice_in self.now.sheet.lattice) (evidence_in self.now.evidence).flags k }
        ensures inside { IfSome result (λ m. m < self.now.sheet.lattice.count) }
    {
        let base = local_h::pick_local_h_base(&self.sheet.lattice, k);
        let mut worst = None;
        for p in base {
            worst = self.worse(k, worst, p);
        }
        worst.map(|w| w.at)
    }

    // Whether rule 3 looks at rank k.
    fn is_visited(&self, k: usize) -> bool
        requires { k < max_points }
        ensures { result ≡ is_visited (lattice_in self.now.sheet.lattice) (evidence_in self.now.evidence) k }
    {
        self.sheet.lattice.index(k) == k
            && self.evidence.over[k] == 1
            && self.evidence.flags[k] == 0
    }

    // Whether rule 1, 2 or 4 marks an index.
    fn is_outlier(&self, m: usize) -> bool
        requires { m < max_points }
        ensures { result ≡ is_outlier (evidence_in self.now.evidence) m }
    {
        let f = self.evidence.flags[m];
        f > 1 || (f > 0 && (self.evidence.high[m] == 1 || self.evidence.deviates[m] == 1))
    }

    // 1 for each index that rule 1, 2 or 4 marks, else 0.
    fn outliers(&self) -> Marks
        ensures { result ≡ column max_points 0 self.now.sheet.lattice.count (λ (m : ℕ). bit (is_outlier (evidence_in self.now.evidence) m)) }
    {
        view::filled(
            0,
            self.sheet.lattice.count,
            |m| u8::from(self.is_outlier(m)),
        )
    }

    // Sets the mark of the index that corner k blames, if rule 3 looks at it.
    fn mark_blamed(&self, k: usize, out: &mut Marks)
        requires { k < self.now.sheet.lattice.count }
        ensures { Marked (blames (lattice_in self.now.sheet.lattice) (evidence_in self.now.evidence) k) out.old out.new }
    {
        if self.is_visited(k) {
            marks::set(out, self.blame(k));
        }
    }

    // Sets the marks of rule 3.
    fn mark_all_blamed(&self, out: &mut Marks)
        ensures { Marked (λ (m : ℕ). some (λ (k : ℕ). blames (lattice_in self.now.sheet.lattice) (evidence_in self.now.evidence) k m) self.now.sheet.lattice.count) out.old out.new }
    {
        for k in 0..self.sheet.lattice.count {
            self.mark_blamed(k, out);
        }
    }
}

// At each rank 1 if its index is marked by rule 1, 2, 3 or 4, else 0.
#[inline(never)]
pub fn marks(sheet: &SheetLattice, evidence: &Evidence) -> Marks
    ensures { WhereverSeen sheet.now.lattice (λ w. result ≡ blame_marks w (evidence_in evidence.now)) }
{
    let both = SheetEvidence {
        sheet: *sheet,
        evidence: *evidence,
    };
    let mut held = both.outliers();
    both.mark_all_blamed(&mut held);
    sheet.by_index(&held, 0)
}
