// Reads a sheet file from standard input and prints its map, or `refused` and the number. What failed is said on standard error.
#![tactic(auto)]

use map_lines::MAP_SIZE;
use sheet_file::FILE_SIZE;

fn main(rt: HostRuntime) {
    let mut file = [0u8; FILE_SIZE];
    let mut map = [0u8; MAP_SIZE];
    let draw = sheet_map::draw_sheet;
    text_program::run(&rt, &mut rt.stdin(), "map", &mut file, &mut map, draw);
}
