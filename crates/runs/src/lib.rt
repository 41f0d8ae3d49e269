// The record of a run: how it starts, when it is full, and the record with one sheet more. What it is stands in specs/Run.antt.
#![tactic(auto)]

ghost use Rattle.std.specs.Prelude.{◌≡◌, ℕ, ◌+◌, ◌<◌, length, get_or};
ghost use Rattle.folds.specs.Lists.{list_of};
ghost use Rattle.runs.specs.Run.{summed, run_from, new_run, full, with_sheet, Takes};

use marks::COUNTS;
use marks::filters::{FILTERS, Filter};

// Kept and the four filters that there were under the old count; never more.
pub const OLD_SUMS: usize = 5;

// Kept, and each filter whose numbers a run adds up.
pub const NEW_SUMS: usize = 6;

// A record that counts so many accepted sheets takes no more.
pub const MOST_SHEETS: u32 = 65535;

// Nor does one with a new sum of so much.
pub const SUM_LIMIT: u32 = 0x8000_0000;

// The places in a tally of the numbers that a run adds up, in the order of its sums.
const SUMMED: [usize; NEW_SUMS] = [
    FILTERS,
    Filter::Validate as usize,
    Filter::Orientation as usize,
    Filter::WrongLabel as usize,
    Filter::Leaf as usize,
    Filter::Component as usize,
];

// The sums of the tallies under the old count, which counted cells; how many sheets were accepted; and the sums of their tallies, which
// count indices.
#[derive(Clone, Copy, PartialEq, Eq)]
pub struct Run {
    pub old_sums: [u32; OLD_SUMS],
    pub sheets: u32,
    pub new_sums: [u32; NEW_SUMS],
}

impl Run {
    // A run that starts now.
    pub fn new() -> Self
        ensures { result ≡ new_run }
    {
        Self::from_old_sums([0; OLD_SUMS])
    }

    // A run that started under the old count.
    pub fn from_old_sums(old_sums: [u32; OLD_SUMS]) -> Self
        ensures { result ≡ run_from old_sums }
    {
        Self {
            old_sums,
            sheets: 0,
            new_sums: [0u32; NEW_SUMS],
        }
    }
}

// Whether the run takes no more sheets.
pub fn is_full(run: Run) -> bool
    ensures { result ≡ full run }
{
    if MOST_SHEETS <= run.sheets {
        return true;
    }
    for sum in run.new_sums {
        if SUM_LIMIT <= sum {
            return true;
        }
    }
    false
}

// The new sums of the record with one sheet more, which has this tally.
fn sums_with(run: Run, tally: [usize; COUNTS]) -> [u32; NEW_SUMS]
    requires { Takes run tally }
    ensures { result ≡ list_of (length summed) (λ (i : ℕ). get_or run.new_sums i 0 + get_or tally (get_or summed i 0) 0) }
{
    let mut sums = run.new_sums;
    for (i, place) in SUMMED.iter().enumerate() {
        sums[i] += tally[*place] as u32;
    }
    sums
}

// The record with one sheet more, which has this tally.
pub fn with_sheet(run: Run, tally: [usize; COUNTS]) -> Run
    requires { Takes run tally }
    ensures { result ≡ with_sheet run tally }
{
    Run {
        sheets: run.sheets + 1,
        new_sums: sums_with(run, tally),
        ..run
    }
}
