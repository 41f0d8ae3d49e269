// Joins two halves of a sheet: reads two sheet files and a move from its arguments, and prints the listing of the joined sheet, or `refused`
// and the number. What is wrong with an argument or a file is said on standard error, and then nothing is printed.
#![tactic(auto)]

mod arguments;

use joined::Move;
use listing::LISTING_SIZE;
use sheet_file::FILE_SIZE;

fn print_joined<R: Print + Eprint>(rt: &R, left: &[u8], right: &[u8], m: Move) {
    let mut out = [0u8; LISTING_SIZE];
    let written = joined_listing::list_joined(left, right, m, &mut out);
    standard_output::print(rt, written, &out, b"join: writing standard output");
}

fn main(rt: HostRuntime) {
    let Some(m) = arguments::read_move(&rt) else {
        return;
    };
    let mut left = [0u8; FILE_SIZE];
    let mut right = [0u8; FILE_SIZE];
    if let Some(left_size) = arguments::read_file(&rt, 1, "LEFT", &mut left)
        && let Some(right_size) = arguments::read_file(&rt, 2, "RIGHT", &mut right)
    {
        print_joined(&rt, &left[..left_size], &right[..right_size], m);
    }
}
