// Printing a text to standard output, for the programs.
#![tactic(auto)]

ghost use Rattle.std.specs.Prelude.{length};
ghost use Rattle.standard_output.specs.Within.{Within};

use std::io;
use std::io::{Error, ErrorKind};
use text::NoRoom;

// Says what failed, which is a text, and why. Where standard error takes nothing, there is no place to say so.
fn tell<R: Eprint>(rt: &R, what: &[u8], e: Error) {
    let _ = match std::str::from_utf8(what) {
        Ok(text) => eprintln!(rt; "{text}: {e}"),
        Err(_) => eprintln!(rt; "{e}"),
    };
}

// Writes a text that stands whole at the start of a buffer. That nobody reads standard output any more is no failure.
pub fn write<R: Print>(rt: &R, written: Result<usize, NoRoom>, out: &[u8]) -> io::Result<()>
    requires { Within (length out.now) written }
{
    let Ok(n) = written else { unreachable!() };
    match rt.write_all(&out[..n]) {
        Err(e) if e.kind() == ErrorKind::BrokenPipe => Ok(()),
        outcome => outcome,
    }
}

// Writes it, and where that fails, says `what` and the reason on standard error.
pub fn print<R: Print + Eprint>(rt: &R, written: Result<usize, NoRoom>, out: &[u8], what: &[u8])
    requires { Within (length out.now) written }
{
    if let Err(e) = write(rt, written, out) {
        tell(rt, what, e);
    }
}
