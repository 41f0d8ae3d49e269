// The sheet of n points that takes longest, as the bytes of its file, into a buffer that the caller lends. What it is stands in specs/Worst.antt.
#![tactic(auto)]

ghost use Rattle.std.specs.Prelude.{◌≡◌, Some, ℕ, ◌/◌, ◌%◌, ◌<◌, ◌≤◌, [], ◌∷◌, IfSome};
ghost use Rattle.folds.specs.Same.{same_list};
ghost use Rattle.view.specs.View.{max_points};
ghost use Rattle.text.specs.Answer.{Shows};
ghost use Rattle.text.specs.Stored.{Stored};
ghost use Rattle.text.specs.Text.{each, decimal};
ghost use Rattle.sheet_file.specs.Bytes.{little_endian};
ghost use Rattle.sheet_file.specs.Grammar.{most_data};
ghost use Rattle.written_file.specs.File.{point_bytes};
ghost use Rattle.worst_sheet.specs.Worst.{float_bits, strength_at, point_at, worst_file, asked, worst_of, worst_size};
ghost use Rattle.worst_sheet.specs.Value.{asked_in};

use little_endian::put_u32;
use text::{NoRoom, Writer};
use view::MAX_POINTS;

const SETTINGS_SIZE: usize = 21;

// The data of tag 1: the f32s 7 and 0.15, the line minimum 3, the f32 0.20, the step flag 0, the f32 0, and both switches 1.
const SETTINGS: [u8; SETTINGS_SIZE] = [
    0, 0, 0xE0, 0x40, 0x9A, 0x99, 0x19, 0x3E, 3, 0, 0xCD, 0xCC, 0x4C, 0x3E, 0, 0, 0, 0, 0, 1, 1,
];

// A buffer of this size has room for every sheet: three fields, of the settings, of the points, and of a fraction and the strengths.
pub const WORST_SIZE: usize = (3 + SETTINGS_SIZE)
    + (3 + 20 * MAX_POINTS)
    + (3 + 4 + 4 * MAX_POINTS);

// The number that the specifications use is the code's.
pub fn worst_size() -> usize
    ensures { result ≡ worst_size }
{
    WORST_SIZE
}

// ---- the number that is asked for

// The number that a decimal text spells, if it is below 65,536.
fn number_of(argument: &[u8]) -> Option<u16>
    ensures { (n : ℕ) → n < 65536 → decimal n ≡ argument.now → result ≡ Some n }
{
    let Ok(text) = std::str::from_utf8(argument) else {
        return None;
    };
    text.parse::<u16>().ok()
}

// Whether the argument is n in decimal. No usize has more than 20 digits.
fn is_decimal(n: usize, argument: &[u8]) -> bool
    ensures { result ≡ same_list (decimal n) argument.now }
{
    let mut printed = [0u8; 20];
    let mut w = Writer::new(&mut printed);
    w.decimal(n);
    let Ok(size) = w.answer() else { unreachable!() };
    check::same(&printed[..size], argument)
}

// The number of points that the argument asks for, if it asks for a sheet. The one number that it can be is printed and compared.
fn asked_points(argument: &[u8]) -> Option<usize>
    ensures points { asked_in result ≡ asked argument.now }
    ensures few { IfSome result (λ n. n ≤ max_points) }
{
    let n = usize::from(number_of(argument)?);
    if n < 2 || MAX_POINTS < n {
        return None;
    }
    is_decimal(n, argument).then_some(n)
}

// ---- the bytes of the sheet

// The pattern of the f32 nearest to n.
fn float_bits(n: u32) -> u32
    ensures { result ≡ float_bits n }
{
    float::to_bits(std::num::nearest_u32_to_f32(n))
}

// The tag and the length of a field.
fn put_head(w: &mut Writer, tag: u8, size: usize)
    requires { size ≤ most_data }
    ensures { Stored w.old (tag ∷ size % 256 ∷ size / 256 ∷ []) w.new }
{
    w.byte(tag);
    w.text(&(size as u16).to_le_bytes());
}

fn put_point(w: &mut Writer, u: usize)
    requires { u < max_points }
    ensures { (n : ℕ) → Stored w.old (point_bytes (point_at n u)) w.new }
{
    let index = u as u32;
    put_u32(w, index);
    put_u32(w, 0);
    put_u32(w, index);
    put_u32(w, float_bits(7 * index));
    put_u32(w, float_bits(0));
}

fn put_points(w: &mut Writer, n: usize)
    requires { n ≤ max_points }
    ensures { Stored w.old (each (λ u. point_bytes (point_at n u)) n) w.new }
{
    for u in 0..n {
        put_point(w, u);
    }
}

// The strength of point u of n: 2 for the last, else 1.
fn strength(n: usize, u: usize) -> u32
    requires { u < n }
    ensures { result ≡ strength_at n u }
{
    if u + 1 == n {
        return float_bits(2);
    }
    float_bits(1)
}

fn put_strengths(w: &mut Writer, n: usize)
    ensures { Stored w.old (each (λ u. little_endian (strength_at n u)) n) w.new }
{
    for u in 0..n {
        put_u32(w, strength(n, u));
    }
}

fn put_sheet(w: &mut Writer, n: usize)
    requires { n ≤ max_points }
    ensures { Stored w.old (worst_file n) w.new }
{
    put_head(w, 1, SETTINGS_SIZE);
    w.text(&SETTINGS);
    put_head(w, 3, 20 * n);
    put_points(w, n);
    put_head(w, 4, 4 + 4 * n);
    put_u32(w, float_bits(2));
    put_strengths(w, n);
}

// Writes the sheet that `argument` asks for to the start of `out`, or nothing.
pub fn write_worst(argument: &[u8], out: &mut [u8]) -> Result<usize, NoRoom>
    ensures { Shows (worst_of argument.now) out.old out.new result }
{
    let mut w = Writer::new(out);
    if let Some(n) = asked_points(argument) {
        put_sheet(&mut w, n);
    }
    w.answer()
}
