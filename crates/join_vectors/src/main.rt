// Replays recorded pairs of files (harness/README.md, "Vectors"): each through `kept_joined::keep_joined` with a buffer of the recorded length,
// and through `joined_listing::list_joined`. It writes a line for each pair whose number, counts, rows, bytes after them or listing differ from
// the record, and at the end how many pairs there were and how many differ.
#![tactic(auto)]

use joined::Move;
use listing::LISTING_SIZE;
use recorded::{LONGEST, ROOM, RecordedAnswer};
use rows::ROW_SIZE;
use std::io::Read;

// The two files, and the move of the right one.
#[derive(Clone, Copy)]
struct Pair<'a> {
    left: &'a [u8],
    right: &'a [u8],
    by: Move,
}

// The rows of the pair and its listing are the recorded ones, which are read.
fn agrees<R: Read>(
    input: &mut R,
    pair: &Pair,
    room: usize,
    answer: RecordedAnswer,
    listing_size: usize,
) -> bool {
    let mut came = [0u8; ROOM];
    let mut expected = [0u8; ROOM];
    let rows_read = recorded::read_entries(input, &mut expected, ROW_SIZE, answer.counts.points);
    let kept = recorded::leaves(&mut came, room, &expected, |rows| {
        let came = kept_joined::keep_joined(pair.left, pair.right, pair.by, rows);
        recorded::is_recorded(came.map_err(|refusal| refusal.number()), answer)
    });
    let mut listing = [0u8; LISTING_SIZE];
    let mut out = [0u8; LISTING_SIZE];
    let listing_read = recorded::read_part(input, &mut listing, listing_size);
    let written = joined_listing::list_joined(pair.left, pair.right, pair.by, &mut out);
    rows_read & kept & listing_read & recorded::is_text(written, &out, &listing, listing_size)
}

// What the right file is moved by: the bits of an i32, twice, and of an f32, twice.
fn read_move<R: Read>(input: &mut R) -> Move {
    Move {
        du: recorded::read_word(input).cast_signed(),
        dv: recorded::read_word(input).cast_signed(),
        dx: float::from_bits(recorded::read_word(input)),
        dy: float::from_bits(recorded::read_word(input)),
    }
}

// Reads one case and replays it.
fn replay<R: Read>(input: &mut R) -> bool {
    let left_size = recorded::read_number(input);
    let right_size = recorded::read_number(input);
    let by = read_move(input);
    let room = recorded::read_number(input);
    let answer = recorded::read_answer(input);
    let listing_size = recorded::read_number(input);
    let mut left = [0u8; LONGEST];
    let mut right = [0u8; LONGEST];
    if !recorded::read_part(input, &mut left, left_size) {
        return false;
    }
    if !recorded::read_part(input, &mut right, right_size) {
        return false;
    }
    let pair = Pair {
        left: &left[..left_size],
        right: &right[..right_size],
        by,
    };
    agrees(input, &pair, room, answer, listing_size)
}

fn main(rt: HostRuntime) {
    recorded::replay_all(&rt, &mut rt.stdin(), |input| replay(input));
}
