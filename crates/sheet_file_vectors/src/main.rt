// Replays recorded sheet files. Each case is the file's length and the result buffer's, both u32, and then the file's bytes. For each it
// writes a line: the number of the refusal or 0, the number of points, and a digest of the points in cell order and of the fraction. What it
// must write was made by `harness vectors sheet_file`.
#![tactic(auto)]

use recorded::LONGEST;
use ruling::Sheet;
use sheet_file::Fraction;
use std::io::Read;
use view::MAX_POINTS;

fn mixed(h: u64, v: u32) -> u64 {
    h.rotate_left(5).wrapping_add(u64::from(v))
}

// The points in cell order, each with its strength, which is 0 without tag 4.
fn digest(sheet: &Sheet) -> u64 {
    let table = &sheet.table;
    let mut h: u64 = 0;
    for k in 0..sheet.count.min(MAX_POINTS) {
        h = mixed(mixed(h, table.keys[k]), table.idx[k]);
        h = mixed(
            mixed(h, float::to_bits(table.x[k])),
            float::to_bits(table.y[k]),
        );
        h = mixed(h, float::to_bits(table.strength[k]));
    }
    h
}

// And with the fraction, if there is one.
fn with_fraction(h: u64, fraction: Fraction) -> u64 {
    match fraction {
        Fraction::Missing | Fraction::Outside => h,
        Fraction::Given(x) => mixed(h, float::to_bits(x)),
    }
}

fn write_line<R: Print>(rt: &R, file: &[u8], room: usize) {
    match &ruling::read(file, room) {
        Ok(sheet) => {
            let n = sheet.count;
            let all = with_fraction(digest(sheet), sheet.settings.score_frac);
            let _ = println!(rt; "0 {n} {all:016x}");
        }
        Err(refusal) => {
            let number = refusal.number();
            let _ = println!(rt; "{number} 0 {:016x}", 0);
        }
    }
}

// Reads one case and writes its line; false where there is none.
fn replay<R: Read, W: Print>(input: &mut R, rt: &W, file: &mut [u8]) -> bool {
    if !recorded::read_part(input, file, 8) {
        return false;
    }
    let length = sheet_file::u32_at(file, 0) as usize;
    let room = sheet_file::u32_at(file, 4) as usize;
    if !recorded::read_part(input, file, length) {
        return false;
    }
    write_line(rt, &file[..length], room);
    true
}

fn main(rt: HostRuntime) {
    let mut input = rt.stdin();
    let mut file = [0u8; LONGEST];
    for _ in 0..10000 {
        if !replay(&mut input, &rt, &mut file) {
            return;
        }
    }
}
