// Writes the sheet of n points that takes longest, where n is its one argument, and nothing for anything else. What failed is said on
// standard error.
#![tactic(auto)]

use std::env::{Env, FillError};
use worst_sheet::WORST_SIZE;

fn print_sheet<R: Print + Eprint>(rt: &R, argument: &[u8]) {
    let mut out = [0u8; WORST_SIZE];
    let written = worst_sheet::write_worst(argument, &mut out);
    standard_output::print(rt, written, &out, b"worst: writing standard output");
}

// Whether there is no argument i.
fn is_missing<R: Env>(rt: &R, i: usize) -> bool {
    matches!(rt.arg(i, &mut [0u8; 1]), Err(FillError::NotPresent))
}

// An argument that is longer than the array is no n.
fn main(rt: HostRuntime) {
    if !is_missing(&rt, 2) {
        return;
    }
    let mut argument = [0u8; 20];
    if let Ok(size) = rt.arg(1, &mut argument) {
        print_sheet(&rt, &argument[..size]);
    }
}
