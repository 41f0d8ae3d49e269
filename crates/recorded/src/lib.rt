// What the programs that replay recorded files share (harness/README.md, "Vectors"): reading a case, what stands in a buffer before the call,
// what came against what is recorded, and the lines that are printed. No contract speaks of what standard input holds or of what is printed: a
// function that reads or prints is proved safe and ending, and promises what else it returns. What the others return stands in
// specs/Recorded.antt.
#![tactic(auto)]

ghost use Rattle.std.specs.Prelude.{◌≡◌, length};
ghost use Rattle.std.specs.Fn.{FnOnceReturnsAtMut};
ghost use Rattle.folds.specs.Same.{same_list};
ghost use Rattle.recorded.specs.Recorded.{Fits, filler, Leaves, is_recorded, is_filled, same_run, is_text, differing};

use kept::Counts;
use runs::{NEW_SUMS, OLD_SUMS, Run};
use sheet_fills::FillCounts;
use std::io::Read;
use text::NoRoom;
use view::MAX_POINTS;

// Longer than every recorded file.
pub const LONGEST: usize = 131200;

// Longer than every recorded buffer, so that bytes beyond the buffer are looked at too.
pub const ROOM: usize = 100000;

// ---- a case

// The number of the refusal, or 0, and the counts.
#[derive(Clone, Copy)]
pub struct RecordedAnswer {
    pub number: usize,
    pub counts: Counts,
}

// Of the call for the fills: the number of the refusal, or 0, and the count.
#[derive(Clone, Copy)]
pub struct RecordedFills {
    pub number: usize,
    pub fills: usize,
}

// Bytes that are missing are 0.
pub fn read_word<R: Read>(input: &mut R) -> u32 {
    let mut bytes = [0u8; 4];
    let _ = input.read_exact(&mut bytes);
    u32::from_le_bytes(bytes)
}

fn read_words<R: Read>(input: &mut R, words: &mut [u32]) {
    for word in words.iter_mut() {
        *word = read_word(input);
    }
}

pub fn read_number<R: Read>(input: &mut R) -> usize {
    read_word(input) as usize
}

pub fn read_answer<R: Read>(input: &mut R) -> RecordedAnswer {
    RecordedAnswer {
        number: read_number(input),
        counts: Counts {
            points: read_number(input),
            components: read_number(input),
            rounds: read_number(input),
        },
    }
}

pub fn read_filled<R: Read>(input: &mut R) -> RecordedFills {
    RecordedFills {
        number: read_number(input),
        fills: read_number(input),
    }
}

// The record of a run.
pub fn read_run<R: Read>(input: &mut R) -> Run {
    let mut old_sums = [0u32; OLD_SUMS];
    let mut new_sums = [0u32; NEW_SUMS];
    read_words(input, &mut old_sums);
    let sheets = read_word(input);
    read_words(input, &mut new_sums);
    Run {
        old_sums,
        sheets,
        new_sums,
    }
}

// Reads `size` bytes to the start of the buffer; false where there is no room or there are fewer.
pub fn read_part<R: Read>(input: &mut R, buffer: &mut [u8], size: usize) -> bool
    ensures { Fits result size (length buffer.old) }
{
    if buffer.len() < size {
        return false;
    }
    input.read_exact(&mut buffer[..size]).is_ok()
}

// What stands in a buffer before the call.
pub fn fill(buffer: &mut [u8])
    ensures { buffer.new ≡ filler (length buffer.old) }
{
    for (i, b) in buffer.iter_mut().enumerate() {
        *b = (i % 251) as u8;
    }
}

// What must stand in it after the call: so many rows or fills of `size` bytes each, which are read, and beyond them what stood there; false as
// above.
pub fn read_entries<R: Read>(input: &mut R, buffer: &mut [u8], size: usize, count: usize) -> bool {
    fill(buffer);
    if MAX_POINTS < count {
        return false;
    }
    read_part(input, buffer, size.saturating_mul(count))
}

// ---- what came against what is recorded

pub fn is_recorded(answer: Result<Counts, u8>, recorded: RecordedAnswer) -> bool
    ensures { result ≡ is_recorded answer recorded }
{
    match answer {
        Err(number) => usize::from(number) == recorded.number,
        Ok(counts) => recorded.number == 0 && counts == recorded.counts,
    }
}

pub fn is_filled(answer: Result<FillCounts, u8>, recorded: RecordedFills) -> bool
    ensures { result ≡ is_filled answer recorded }
{
    match answer {
        Err(number) => usize::from(number) == recorded.number,
        Ok(counts) => recorded.number == 0 && counts.fills == recorded.fills,
    }
}

// Whether the call, which is lent the first `room` bytes of the filled buffer, came as recorded, and left the expected bytes in the buffer and
// beyond what it was lent.
pub fn leaves<F: FnOnce(&mut [u8]) -> bool>(
    buffer: &mut [u8],
    room: usize,
    expected: &[u8],
    call: F,
) -> bool
    requires { F.IsAlwaysCallable call }
    ensures { Leaves (FnOnceReturnsAtMut F.FnOnce call) (length buffer.old) room expected.now result }
{
    fill(buffer);
    if buffer.len() < room {
        return false;
    }
    let came = call(&mut buffer[..room]);
    came & check::same(buffer, expected)
}

// Whether two records of a run are the same.
pub fn same_run(a: Run, b: Run) -> bool
    ensures { result ≡ same_run a b }
{
    a == b
}

// Whether a text was written whole to the start of the buffer, and is the recorded one, the first `size` bytes of `recorded`.
pub fn is_text(written: Result<usize, NoRoom>, out: &[u8], recorded: &[u8], size: usize) -> bool
    ensures { result ≡ is_text written out.now recorded.now size }
{
    if recorded.len() < size {
        return false;
    }
    match written {
        Ok(n) => n <= out.len() && check::same(&out[..n], &recorded[..size]),
        Err(NoRoom) => false,
    }
}

// ---- the lines

// The line of a case that differs; how many differ, 0 or 1.
pub fn print_case<R: Print>(rt: &R, case: usize, agrees: bool) -> usize
    ensures { result ≡ differing agrees }
{
    if agrees {
        return 0;
    }
    let _ = println!(rt; "differs: {case}");
    1
}

// The closing line.
pub fn print_counts<R: Print>(rt: &R, count: usize, differ: usize) {
    let _ = println!(rt; "{count} files, {differ} differ");
}

// Reads how many cases there are, replays each by `agrees`, and prints the lines.
pub fn replay_all<P: Print, R: Read, F: Fn(&mut R) -> bool>(rt: &P, input: &mut R, agrees: F)
    requires { F.IsAlwaysCallable agrees }
{
    let count = read_number(input);
    let mut differ = 0;
    for i in 0..count {
        differ += print_case(rt, i + 1, agrees(input));
    }
    print_counts(rt, count, differ);
}
