// Texts into a buffer that the caller lends, piece by piece.
#![tactic(auto)]

ghost use Rattle.std.specs.Prelude.{◌≡◌, [], ◌∷◌, ◌<◌, pos, ◌-ℤ◌, length};
ghost use Rattle.text.specs.Text.{decimal, whole, hex_digit, hex, spaces, right_aligned, refusal_of};
ghost use Rattle.text.specs.Stored.{Stored};
ghost use Rattle.text.specs.Answer.{written_of, Shows};

// The text is longer than the buffer, which holds its first bytes.
#[derive(Clone, Copy, PartialEq, Eq, Debug)]
pub struct NoRoom;

// A buffer that the caller lends, and the place after what is written so far. What does not fit is left out, and the place, which is then
// past the buffer's end, tells.
#[derive(Drop)]
pub struct Writer<'a> {
    pub out: &'a mut [u8],
    pub at: usize,
}

impl<'a> Writer<'a> {
    // At the buffer's start.
    pub fn new(out: &'a mut [u8]) -> Writer<'a>
        ensures { result ≡ record { out = out.entry; at = 0 } }
    {
        Writer { out, at: 0 }
    }

    pub fn byte(&mut self, b: u8)
        ensures { Stored self.old (b ∷ []) self.new }
    {
        if self.at < self.out.len() {
            self.out[self.at] = b;
            self.at += 1;
        } else {
            self.at = self.out.len() + 1;
        }
    }

    pub fn text(&mut self, s: &[u8])
        ensures { Stored self.old s.now self.new }
    {
        for b in s {
            self.byte(*b);
        }
    }

    // The digits of n / 10 first, then the last digit.
    pub fn decimal(&mut self, n: usize)
        ensures { Stored self.old (decimal n) self.new }
    {
        if n < 10 {
            self.byte(48 + n as u8);
        } else {
            self.decimal(n / 10);
            self.byte(48 + (n % 10) as u8);
        }
    }

    // The whole number a - b.
    pub fn difference(&mut self, a: usize, b: usize)
        ensures { Stored self.old (whole (pos a -ℤ pos b)) self.new }
    {
        if a < b {
            self.byte(b'-');
            self.decimal(b - a);
        } else {
            self.decimal(a - b);
        }
    }

    fn spaces(&mut self, count: usize)
        ensures { Stored self.old (spaces count) self.new }
    {
        for _k in 0..count {
            self.byte(b' ');
        }
    }

    // The whole number a - b at the right end of `width` characters, or of as many as it needs.
    pub fn right(&mut self, width: usize, a: usize, b: usize)
        ensures { Stored self.old (right_aligned width (whole (pos a -ℤ pos b))) self.new }
    {
        self.spaces(width.saturating_sub(difference_length(a, b)));
        self.difference(a, b);
    }

    // The last `count` hexadecimal digits of b.
    pub fn hex(&mut self, count: usize, b: u32)
        ensures { Stored self.old (hex count b) self.new }
    {
        if count != 0 {
            self.hex(count - 1, b / 16);
            self.byte(hex_digit((b % 16) as u8));
        }
    }

    // What became of the whole text: it stands in the buffer's first bytes, so many, or there is no room for it.
    pub fn answer(&self) -> Result<usize, NoRoom>
        ensures { result ≡ written_of self.now.at (length self.now.out.now) }
    {
        if self.at <= self.out.len() {
            Ok(self.at)
        } else {
            Err(NoRoom)
        }
    }
}

fn decimal_length(n: usize) -> usize
    ensures { result ≡ length (decimal n) }
{
    if n == 0 {
        return 1;
    }
    n.ilog10() as usize + 1
}

fn difference_length(a: usize, b: usize) -> usize
    ensures { result ≡ length (whole (pos a -ℤ pos b)) }
{
    if b <= a {
        return decimal_length(a - b);
    }
    1 + decimal_length(b - a)
}

fn hex_digit(d: u8) -> u8
    requires { d < 16 }
    ensures { result ≡ hex_digit d }
{
    b"0123456789ABCDEF"[usize::from(d)]
}

// `refused` and the number.
pub fn write_refusal(number: u8, out: &mut [u8]) -> Result<usize, NoRoom>
    ensures { Shows (refusal_of number) out.old out.new result }
{
    let mut w = Writer::new(out);
    w.text(b"refused ");
    w.decimal(usize::from(number));
    w.byte(b'\n');
    w.answer()
}
