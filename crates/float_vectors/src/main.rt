// Reads bit patterns of f32, four bytes each, lowest first. For each it writes a line: the pattern, that of its root, `over` where a cosine
// with that pattern is over 30 degrees, else a dash, and S, the power and the remainder of the root, or `neither`. What it must write was made
// by `harness vectors float`.
#![tactic(auto)]

fn write_line<R: Print>(rt: &R, pattern: u32) {
    let x = float::from_bits(pattern);
    let root = float::to_bits(float::sqrt(x));
    let over = if float::over_30_degrees(x) {
        "over"
    } else {
        "-"
    };
    match float::whole_root(x) {
        None => {
            let _ = println!(rt; "{pattern:08x} {root:08x} {over} neither");
        }
        Some(r) => {
            let s = r.root;
            let power = r.power;
            let remainder = r.remainder;
            let _ = println!(rt; "{pattern:08x} {root:08x} {over} {s} {power} {remainder}");
        }
    }
}

fn write_lines<R: Print>(rt: &R, bytes: &[u8]) {
    for pattern in bytes.as_chunks::<4>().0 {
        write_line(rt, u32::from_le_bytes(*pattern));
    }
}

fn main(rt: HostRuntime) {
    let mut buffer = [0u8; 65536];
    match standard_input::read_file(&mut rt.stdin(), &mut buffer) {
        Ok(count) => write_lines(&rt, &buffer[..count]),
        Err(e) => {
            let _ = eprintln!(rt; "float_vectors: reading standard input: {e}");
        }
    }
}
