// The numbers among the arguments of the program `join`: a whole number, and an f32 by its bit pattern.
#![tactic(auto)]

ghost use Rattle.std.specs.Prelude.{◌≡◌, Some, ℤ, IfSome};
ghost use Rattle.std.specs.Int.{w32};
ghost use Rattle.std.specs.Int.RustNames.{FitsSigned};
ghost use Rattle.folds.specs.Same.{same_list};
ghost use Rattle.text.specs.Text.{whole};
ghost use Rattle.text.specs.Stored.{Stored};
ghost use Rattle.join_arguments.specs.Pattern.{digit_of, pattern_of};

use text::Writer;

// ---- whole numbers

// The number that the argument spells for std, which also takes leading zeros and a plus sign.
fn number_of(argument: &[u8]) -> Option<i32>
    ensures { (z : ℤ) → FitsSigned w32 z → whole z ≡ argument.now → result ≡ Some z }
{
    let Ok(text) = std::str::from_utf8(argument) else {
        return None;
    };
    text.parse::<i32>().ok()
}

// Writes the whole number z.
fn put_whole(w: &mut Writer, z: i32)
    ensures { Stored w.old (whole z) w.new }
{
    let size = z.unsigned_abs() as usize;
    if z < 0 {
        w.difference(0, size);
    } else {
        w.difference(size, 0);
    }
}

// Whether the argument is z as a cell number is printed. No i32 has more than 11 characters.
fn is_whole(z: i32, argument: &[u8]) -> bool
    ensures { result ≡ same_list (whole z) argument.now }
{
    let mut printed = [0u8; 11];
    let mut w = Writer::new(&mut printed);
    put_whole(&mut w, z);
    let Ok(size) = w.answer() else { unreachable!() };
    check::same(&printed[..size], argument)
}

// The whole number of 32 bits that the argument is printed as, if it is one. The one number that it can be is printed and compared.
pub fn whole(argument: &[u8]) -> Option<i32>
    ensures every { (z : ℤ) → FitsSigned w32 z → whole z ≡ argument.now → result ≡ Some z }
    ensures alone { IfSome result (λ z. whole z ≡ argument.now) }
{
    let z = number_of(argument)?;
    is_whole(z, argument).then_some(z)
}

// ---- bit patterns

// The value of a hexadecimal digit.
fn digit(c: u8) -> Option<u8>
    ensures { result ≡ digit_of c }
{
    match c {
        b'0'..=b'9' => Some(c - b'0'),
        b'A'..=b'F' => Some(c - b'A' + 10),
        b'a'..=b'f' => Some(c - b'a' + 10),
        _ => None,
    }
}

// The pattern of 32 bits that eight hexadecimal digits spell, capitals or small.
pub fn pattern(argument: &[u8]) -> Option<u32>
    ensures { result ≡ pattern_of argument.now }
{
    if argument.len() != 8 {
        return None;
    }
    let mut bits = 0u32;
    for c in argument {
        bits = 16 * bits + u32::from(digit(*c)?);
    }
    Some(bits)
}
