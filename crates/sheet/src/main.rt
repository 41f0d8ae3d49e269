// Reads a sheet file from standard input and prints its listing, or `refused` and the number. What failed is said on standard error.
#![tactic(auto)]

use listing::LISTING_SIZE;
use sheet_file::FILE_SIZE;

fn main(rt: HostRuntime) {
    let mut file = [0u8; FILE_SIZE];
    let mut listing = [0u8; LISTING_SIZE];
    let list = sheet_listing::list_sheet;
    text_program::run(&rt, &mut rt.stdin(), "sheet", &mut file, &mut listing, list);
}
