// The arguments of `join`: LEFT RIGHT DU DV DX DY. What is wrong with one is said on standard error, in a line.
ghost use Rattle.std.specs.Prelude.{◌≤◌, length, IfSome};
ghost use Rattle.standard_input.specs.Input.{Within};

use joined::Move;
use std::env::{Env, FillError};
use std::fs::Files;
use std::io;

// The most bytes of the name of a file.
const NAME_SIZE: usize = 4096;

// Whether there is no argument i.
fn is_missing<R: Env>(rt: &R, i: usize) -> bool {
    matches!(rt.arg(i, &mut [0u8; 1]), Err(FillError::NotPresent))
}

// A whole number of 32 bits, of which none has more than 11 characters.
fn read_whole<R: Env + Eprint>(rt: &R, i: usize, name: &str) -> Option<i32> {
    let mut argument = [0u8; 11];
    let number = match rt.arg(i, &mut argument) {
        Ok(size) => join_arguments::whole(&argument[..size]),
        Err(_) => None,
    };
    if number.is_none() {
        let _ = eprintln!(rt;
            "join: {name} is not a whole number from -2147483648 to 2147483647 without leading zeros"
        );
    }
    number
}

// A float by its pattern.
fn read_float<R: Env + Eprint>(rt: &R, i: usize, name: &str) -> Option<f32> {
    let mut argument = [0u8; 8];
    let bits = match rt.arg(i, &mut argument) {
        Ok(size) => join_arguments::pattern(&argument[..size]),
        Err(_) => None,
    };
    if bits.is_none() {
        let _ = eprintln!(rt; "join: {name} is not a float in eight hexadecimal digits");
    }
    bits.map(float::from_bits)
}

// What the right half is moved by, if there are six arguments and the last four are right.
pub fn read_move<R: Env + Eprint>(rt: &R) -> Option<Move> {
    if is_missing(rt, 6) || !is_missing(rt, 7) {
        let _ = eprintln!(rt; "join: six arguments are asked for: LEFT RIGHT DU DV DX DY");
        return None;
    }
    let du = read_whole(rt, 3, "DU")?;
    let dv = read_whole(rt, 4, "DV")?;
    let dx = read_float(rt, 5, "DX")?;
    let dy = read_float(rt, 6, "DY")?;
    Some(Move { du, dv, dx, dy })
}

// Reads a file from its start into the buffer: how many bytes came.
fn read_named<R: Files>(rt: &R, path: &str, file: &mut [u8]) -> io::Result<usize>
    ensures { Within (length file.old) result }
{
    let mut opened = std::fs::open(rt, path)?;
    standard_input::read_file(&mut opened, file)
}

// Reads the file that argument i names, which is called `name` where something is wrong: how many bytes came.
pub fn read_file<R: Env + Files + Eprint>(
    rt: &R,
    i: usize,
    name: &str,
    file: &mut [u8],
) -> Option<usize>
    ensures { IfSome result (λ n. n ≤ length file.new) }
{
    let mut argument = [0u8; NAME_SIZE];
    let Ok(size) = rt.arg(i, &mut argument) else {
        let _ = eprintln!(rt; "join: {name} has more than {NAME_SIZE} bytes");
        return None;
    };
    let Ok(path) = std::str::from_utf8(&argument[..size]) else {
        let _ = eprintln!(rt; "join: {name} is not UTF-8");
        return None;
    };
    match read_named(rt, path, file) {
        Ok(n) => Some(n),
        Err(e) => {
            let _ = eprintln!(rt; "join: {name}, {path:?}: {e}");
            None
        }
    }
}
