// Replays recorded calls in a run (harness/README.md, "Vectors"): each through `kept_in_run::keep_in_run` with a buffer of the recorded length
// and the recorded record of the run. It writes a line for each file whose number, counts, rows, bytes after the rows or record afterwards
// differ from what is recorded, and at the end how many files there were and how many differ.
#![tactic(auto)]

use recorded::{LONGEST, ROOM};
use rows::ROW_SIZE;
use std::io::Read;

// Reads one case and replays it.
fn replay<R: Read>(input: &mut R) -> bool {
    let size = recorded::read_number(input);
    let room = recorded::read_number(input);
    let before = recorded::read_run(input);
    let answer = recorded::read_answer(input);
    let after = recorded::read_run(input);
    let mut file = [0u8; LONGEST];
    if !recorded::read_part(input, &mut file, size) {
        return false;
    }
    let mut rows = [0u8; ROOM];
    let mut expected = [0u8; ROOM];
    let read = recorded::read_entries(input, &mut expected, ROW_SIZE, answer.counts.points);
    let kept = recorded::leaves(&mut rows, room, &expected, |rows| {
        let mut run = before;
        let came = kept_in_run::keep_in_run(&file[..size], rows, &mut run).map_err(
            |refusal| refusal.number(),
        );
        recorded::is_recorded(came, answer) & recorded::same_run(run, after)
    });
    read & kept
}

fn main(rt: HostRuntime) {
    recorded::replay_all(&rt, &mut rt.stdin(), |input| replay(input));
}
