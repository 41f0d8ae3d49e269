// Reading a file from standard input, for the programs.
#![tactic(auto)]

ghost use Rattle.std.specs.Prelude.{length};
ghost use Rattle.std.specs.Io.{ReadsAtMost};
ghost use Rattle.std.specs.Io.KnownBytes.{ReadConsumes};
ghost use Rattle.standard_input.specs.Input.{Within, Holds};

use std::io;
use std::io::{ErrorKind, Read};

// One read, tried again where a signal interrupted it: how many bytes came, 0 at the end of the input.
// A proved loop has to end, so this one counts its turns, up to a number that no run uses up.
fn read_some<R: Read>(reader: &mut R, part: &mut [u8]) -> io::Result<usize>
    ensures bound { ReadsAtMost result part.new }
    ensures bytes { ReadConsumes (R.remaining reader.old) (R.remaining reader.new) result part.new }
{
    for _ in 0..u64::MAX {
        match reader.read(part) {
            Err(e) if e.kind() == ErrorKind::Interrupted => {}
            outcome => return outcome,
        }
    }
    Err(io::Error::from(ErrorKind::Interrupted))
}

// Fills the buffer from standard input, to its end or the input's: how many bytes came. Where reading fails, it says why.
pub fn read_file<R: Read>(reader: &mut R, file: &mut [u8]) -> io::Result<usize>
    ensures within { Within (length file.old) result }
    ensures bytes { Holds (R.remaining reader.old) (R.remaining reader.new) file.new result }
{
    let mut at: usize = 0;
    while at < file.len() {
        let n = read_some(reader, &mut file[at..])?;
        if n == 0 {
            break;
        }
        at += n;
    }
    Ok(at)
}
