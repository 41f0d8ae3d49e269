// A program that reads a file from standard input and prints a text of it. What failed is said on standard error.
#![tactic(auto)]

ghost use Rattle.std.specs.Prelude.{length};
ghost use Rattle.text_program.specs.Prints.{WritesWhole};

use std::io::{Error, Read};
use text::NoRoom;

// Says what the program was at when it failed, and why. Where standard error takes nothing, there is no place to say so.
fn tell<R: Eprint>(rt: &R, program: &str, at: &str, e: Error) {
    let _ = eprintln!(rt; "{program}: {at}: {e}");
}

// Reads a file into the buffer `file`, has `write` write its text into the buffer `out`, and prints the text.
pub fn run<R: Print + Eprint, I: Read, W: Fn(&[u8], &mut [u8]) -> Result<usize, NoRoom>>(
    rt: &R,
    input: &mut I,
    program: &str,
    file: &mut [u8],
    out: &mut [u8],
    write: W,
)
    requires callable { W.IsAlwaysCallable write }
    requires whole { WritesWhole (W.post write) (length out.old) }
{
    match standard_input::read_file(input, file) {
        Ok(n) => {
            let written = write(&file[..n], out);
            if let Err(e) = standard_output::write(rt, written, out) {
                tell(rt, program, "writing standard output", e);
            }
        }
        Err(e) => tell(rt, program, "reading standard input", e),
    }
}
