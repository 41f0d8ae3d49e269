// Replays recorded sheet files (harness/README.md, "Vectors"): each through `kept::keep` and `sheet_fills::fill_sheet` with a buffer of the
// recorded length, through `sheet_listing::list_sheet` and through `sheet_map::draw_sheet`. It writes a line for each file whose number, counts,
// rows, fills, bytes after either, listing or map differ from the record, and at the end how many files there were and how many differ.
#![tactic(auto)]

ghost use Rattle.std.specs.Prelude.{◌^◌, ◌<◌};

use listing::LISTING_SIZE;
use map_lines::MAP_SIZE;
use recorded::{LONGEST, ROOM, RecordedAnswer, RecordedFills};
use rows::ROW_SIZE;
use sheet_fills::FILL_SIZE;
use std::io::Read;
use text::NoRoom;

// The text that `write` writes of the file is the recorded one, which is read.
fn is_written<const SIZE: usize, R: Read, W: Fn(&[u8], &mut [u8]) -> Result<usize, NoRoom>>(
    input: &mut R,
    file: &[u8],
    size: usize,
    write: W,
) -> bool
    requires small { SIZE < 2 ^ 63 }
    requires callable { W.IsAlwaysCallable write }
{
    let mut expected = [0u8; SIZE];
    let mut out = [0u8; SIZE];
    let read = recorded::read_part(input, &mut expected, size);
    let written = write(file, &mut out);
    read & recorded::is_text(written, &out, &expected, size)
}

// Reads what is recorded of the file, after the numbers, and replays it.
fn agrees<R: Read>(
    input: &mut R,
    file: &[u8],
    room: usize,
    answer: RecordedAnswer,
    listing_size: usize,
    map_size: usize,
    fills: RecordedFills,
) -> bool {
    let mut came = [0u8; ROOM];
    let mut expected = [0u8; ROOM];
    let rows_read = recorded::read_entries(input, &mut expected, ROW_SIZE, answer.counts.points);
    let kept = recorded::leaves(&mut came, room, &expected, |rows| {
        let came = kept::keep(file, rows).map_err(|refusal| refusal.number());
        recorded::is_recorded(came, answer)
    });
    let list = sheet_listing::list_sheet;
    let listed = is_written::<LISTING_SIZE, R, _>(input, file, listing_size, list);
    let draw = sheet_map::draw_sheet;
    let drawn = is_written::<MAP_SIZE, R, _>(input, file, map_size, draw);
    let fills_read = recorded::read_entries(input, &mut expected, FILL_SIZE, fills.fills);
    let filled = recorded::leaves(&mut came, room, &expected, |out| {
        let came = sheet_fills::fill_sheet(file, out).map_err(|refusal| refusal.number());
        recorded::is_filled(came, fills)
    });
    rows_read & kept & listed & drawn & fills_read & filled
}

// Reads one case and replays it.
fn replay<R: Read>(input: &mut R) -> bool {
    let size = recorded::read_number(input);
    let room = recorded::read_number(input);
    let answer = recorded::read_answer(input);
    let listing_size = recorded::read_number(input);
    let map_size = recorded::read_number(input);
    let fills = recorded::read_filled(input);
    let mut file = [0u8; LONGEST];
    if !recorded::read_part(input, &mut file, size) {
        return false;
    }
    agrees(
        input,
        &file[..size],
        room,
        answer,
        listing_size,
        map_size,
        fills,
    )
}

fn main(rt: HostRuntime) {
    recorded::replay_all(&rt, &mut rt.stdin(), |input| replay(input));
}
