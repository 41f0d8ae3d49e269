// The calls for C and Rust programs: over `kept::keep`, over `kept_joined::keep_joined`, over `kept_in_run::keep_in_run` with the two ways in
// which a run starts, over `sheet_map::draw_sheet`, over `sheet_fills::fill_sheet`, and over `float::store_whole_root`.
#![tactic(auto)]

ghost use Rattle.std.specs.Prelude.{◌≡◌, ◌+◌, ◌*◌, ◌^◌, ◌++◌, length, take, drop};
ghost use Rattle.std.specs.Float.{binary32};
ghost use Rattle.std.specs.Float.Ieee.{of_bits};
ghost use Rattle.float.specs.Remainder.{whole_root_of};
ghost use Rattle.float.specs.Words.{found_number, root_words};
ghost use Rattle.refusals.specs.Number.{numbered};
ghost use Rattle.runs.specs.Run.{new_run, run_from};
ghost use Rattle.kept.specs.Answer.{answer_of, rows_after};
ghost use Rattle.kept_joined.specs.Answer.{joined_answer_of, joined_rows_after};
ghost use Rattle.kept_in_run.specs.InRun.{answer_in_run, rows_in_run};
ghost use Rattle.sheet_map.specs.Text.{map_text_of};
ghost use Rattle.sheet_fills.specs.Answer.{fill_answer_of, fills_after};
ghost use Rattle.higlaupth.specs.Number.{number_of, SheetCounts, Countable, text_number, fill_number_of, FewFills};
ghost use Rattle.higlaupth.specs.Words.{words_of, run_in, words_after};

use joined::Move;
use kept::Counts;
use refusals::Refusal;
use runs::{NEW_SUMS, OLD_SUMS, Run};
use sheet_fills::FillCounts;
use text::NoRoom;

// 2^48 * rounds + 2^32 + 2^16 * points + last.
fn packed(rounds: usize, points: usize, last: usize) -> u64
    requires { SheetCounts points last rounds }
    ensures { result ≡ 2 ^ 48 * rounds + 2 ^ 32 + 2 ^ 16 * points + last }
{
    0x1_0000_0000_0000 * (rounds as u64) + 0x1_0000_0000 + 0x1_0000 * (points as u64) + last as u64
}

// The number of an answer: that of a refusal; else 2^48 * rounds + 2^32 + 2^16 * points + components.
fn number_of(answer: Result<Counts, Refusal>) -> u64
    requires { Countable (numbered answer) }
    ensures { result ≡ number_of (numbered answer) }
{
    match answer {
        Err(refusal) => u64::from(refusal.number()),
        Ok(counts) => packed(counts.rounds, counts.points, counts.components),
    }
}

// 1 to 9, 12, 13 or 14 for a refusal; else 2^48 * rounds + 2^32 + 2^16 * points + components.
#[unsafe(no_mangle)]
pub extern "C" fn higlaupth_keep(file: &[u8], rows: &mut [u8]) -> u64
    ensures number { result ≡ number_of (answer_of file.now (length rows.old)) }
    ensures rows { rows.new ≡ rows_after file.now rows.old }
{
    number_of(kept::keep(file, rows))
}

// ---- two halves

// 1 to 9 or 12 to 17 for a refusal; else as higlaupth_keep, of the joined sheet.
#[unsafe(no_mangle)]
pub extern "C" fn higlaupth_join(
    left: &[u8],
    right: &[u8],
    du: i32,
    dv: i32,
    dx: f32,
    dy: f32,
    rows: &mut [u8],
) -> u64
    ensures number { result ≡ number_of (joined_answer_of left.now right.now (record { du = du; dv = dv; dx = dx; dy = dy }) (length rows.old)) }
    ensures rows { rows.new ≡ joined_rows_after left.now right.now (record { du = du; dv = dv; dx = dx; dy = dy }) rows.old }
{
    let m = Move { du, dv, dx, dy };
    number_of(kept_joined::keep_joined(left, right, m, rows))
}

// ---- a run

// The record of a run as C holds it: the old sums, the count of sheets, the new sums.
const RUN_SIZE: usize = OLD_SUMS + 1 + NEW_SUMS;

type RunWords = [u32; RUN_SIZE];

fn run_in(words: &RunWords) -> Run
    ensures { result ≡ run_in words.now }
{
    let mut run = Run::new();
    run.old_sums.copy_from_slice(&words[..OLD_SUMS]);
    run.sheets = words[OLD_SUMS];
    run.new_sums.copy_from_slice(&words[OLD_SUMS + 1..]);
    run
}

fn words_of(run: Run) -> RunWords
    ensures { result ≡ words_of run }
{
    let mut words = [0u32; RUN_SIZE];
    words[..OLD_SUMS].copy_from_slice(&run.old_sums);
    words[OLD_SUMS] = run.sheets;
    words[OLD_SUMS + 1..].copy_from_slice(&run.new_sums);
    words
}

// The record of a run that starts now.
#[unsafe(no_mangle)]
pub extern "C" fn higlaupth_run_new(run: &mut RunWords)
    ensures { run.new ≡ words_of new_run }
{
    let words = words_of(Run::new());
    *run = words;
}

// The record of a run that started under the old count.
#[unsafe(no_mangle)]
pub extern "C" fn higlaupth_run_from_old_sums(old_sums: &[u32; OLD_SUMS], run: &mut RunWords)
    ensures { run.new ≡ words_of (run_from old_sums.now) }
{
    let old = *old_sums;
    let words = words_of(Run::from_old_sums(old));
    *run = words;
}

// 11 for a full record, before the file is read; else as higlaupth_keep, and the record with an accepted sheet added.
#[unsafe(no_mangle)]
pub extern "C" fn higlaupth_keep_in_run(file: &[u8], rows: &mut [u8], run: &mut RunWords) -> u64
    ensures number { result ≡ number_of (answer_in_run (run_in run.old) file.now (length rows.old)) }
    ensures rows { rows.new ≡ rows_in_run (run_in run.old) file.now rows.old }
    ensures run { run.new ≡ words_after run.old file.now (length rows.old) }
{
    let mut after = run_in(run);
    let answer = kept_in_run::keep_in_run(file, rows, &mut after);
    let number = number_of(answer);
    if answer.is_ok() {
        let words = words_of(after);
        *run = words;
    }
    number
}

// ---- the map

// The number of bytes of the map's text, or of `refused` and its number; 2^64 - 1 where the buffer is too short, which then holds the first
// bytes.
#[unsafe(no_mangle)]
pub extern "C" fn higlaupth_map(file: &[u8], text: &mut [u8]) -> u64
    ensures number { result ≡ text_number (length (map_text_of file.now)) (length text.old) }
    ensures text { text.new ≡ take (length text.old) (map_text_of file.now) ++ drop (length (map_text_of file.now)) text.old }
{
    match sheet_map::draw_sheet(file, text) {
        Ok(n) => n as u64,
        Err(NoRoom) => u64::MAX,
    }
}

// ---- the fills

// The number of an answer: that of a refusal; else 2^32 + 2^16 * points + fills.
fn fill_number_of(answer: Result<FillCounts, Refusal>) -> u64
    requires { FewFills (numbered answer) }
    ensures { result ≡ fill_number_of (numbered answer) }
{
    match answer {
        Err(refusal) => u64::from(refusal.number()),
        Ok(counts) => packed(0, counts.points, counts.fills),
    }
}

// 1 to 9, 12, 13 or 14 for a refusal; else 2^32 + 2^16 * points + fills.
#[unsafe(no_mangle)]
pub extern "C" fn higlaupth_fills(file: &[u8], fills: &mut [u8]) -> u64
    ensures number { result ≡ fill_number_of (fill_answer_of file.now (length fills.old)) }
    ensures fills { fills.new ≡ fills_after file.now fills.old }
{
    fill_number_of(sheet_fills::fill_sheet(file, fills))
}

// ---- a root by whole numbers

// For the f32 with these bits: 1, and S, the power and the remainder; or 0, for negatives, infinities and NaN, and nothing is written.
#[unsafe(no_mangle)]
pub extern "C" fn higlaupth_root(bits: u32, root: &mut [i32; 3]) -> i32
    ensures found { result ≡ found_number (whole_root_of (of_bits binary32 bits)) }
    ensures root { root.new ≡ root_words (whole_root_of (of_bits binary32 bits)) root.old }
{
    float::store_whole_root(float::from_bits(bits), root)
}
