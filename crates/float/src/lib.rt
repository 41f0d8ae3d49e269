// f32 functions: the nearest root by whole numbers, with its remainder, and the small ones of Rust.
#![tactic(auto)]

ghost use Rattle.std.specs.Prelude.{◌≡◌, ◌+◌, ◌*◌, ◌/◌, ◌%◌, ◌^◌, ◌≤◌, ◌<◌, pos};
ghost use Rattle.std.specs.Float.{binary32};
ghost use Rattle.std.specs.Float.Ieee.{of_bits, to_bits};
ghost use Rattle.float.specs.Constants.{infinity_bits};
ghost use Rattle.float.specs.Root.{near_root, root_of};
ghost use Rattle.float.specs.Scalar.{norm_of, abs_of, magnitude_of, max_of, min_of, clamp_of, over30_degrees};
ghost use Rattle.float.specs.Remainder.{whole_root_of, distance_of, length_of, is_exact};
ghost use Rattle.float.specs.Found.{remainder_from, distance_at, scaled_root_at};
ghost use Rattle.float.specs.Words.{found_number, root_words};

pub mod constants;
mod roots;

// A root by whole numbers: S, R - S * S, and the power. R is the number times 2^power, and S the whole number nearest to R's root.
#[derive(Clone, Copy)]
pub struct ScaledRoot {
    pub root: u32,
    pub remainder: i32,
    pub power: i32,
}

// A distance: the f32 nearest to a root, and the root's remainder R - S * S, if there is one.
#[derive(Clone, Copy)]
pub struct Distance {
    pub value: f32,
    pub remainder: Option<i32>,
}

impl Distance {
    fn new(value: f32, remainder: Option<i32>) -> Distance
        ensures { result ≡ record { value = value; remainder = remainder } }
    {
        Distance { value, remainder }
    }
}

// Near the root of n: off by at most 1 from the nearest whole number, by a run over all scaled numbers. A line between two roots of the table,
// and what its square leaves of n times the line's slope.
fn guess(n: u64) -> u64
    requires { (2 ^ 46 ≤ n) × (n < 2 ^ 48) }
    ensures { result < 2 ^ 27 }
{
    let t = n / 0x100_0000_0000;
    let low = roots::root_at(t);
    let step = roots::root_at(t + 1).saturating_sub(low) % 0x1_0000;
    let g = low + n / 0x1_0000 % 0x100_0000 * step / 0x100_0000;
    let d = n.saturating_sub(g * g);
    g + (d / 0x1_0000 * step + 0x80_0000) / 0x100_0000
}

// Down from r to the nearest whole number to the root of n, where r lies above that.
fn lowered(n: u64, r: u64) -> u64
    requires { (0 < n) × (n < 2 ^ 48) × (r < 2 ^ 27) }
    ensures { (result * result + 1 ≤ n + result) × (result < 2 ^ 27) }
{
    let mut s = r;
    while n + s < s * s + 1 {
        s -= 1;
    }
    s
}

// Up from r to the nearest whole number to the root of n, where r does not lie above that.
fn raised(n: u64, r: u64) -> u64
    requires { (0 < n) × (n < 2 ^ 48) × (r * r + 1 ≤ n + r) × (r < 2 ^ 27) }
    ensures { result ≡ near_root n }
{
    let mut s = r;
    while s * s + s < n {
        s += 1;
    }
    s
}

// The whole number nearest to the root of a number, and that number less its square.
#[derive(Clone, Copy)]
struct NearestRoot {
    root: u32,
    remainder: i32,
}

// With the square q of r.
fn with_square(n: u64, r: u64, q: u64) -> NearestRoot
    requires { (0 < n) × (n < 2 ^ 48) × (r ≡ near_root n) × (q ≡ r * r) }
    ensures { result ≡ record { root = near_root n; remainder = remainder_from n } }
{
    NearestRoot {
        root: r as u32,
        remainder: ((n as i64) - (q as i64)) as i32,
    }
}

// Of n. The guess is nearly always the answer.
fn near_root(n: u64) -> NearestRoot
    requires { (2 ^ 46 ≤ n) × (n < 2 ^ 48) }
    ensures { result ≡ record { root = near_root n; remainder = remainder_from n } }
{
    let g = guess(n);
    let q = g * g;
    if q < n + g {
        if n <= q + g {
            return with_square(n, g, q);
        }
    }
    let r = raised(n, lowered(n, g));
    with_square(n, r, r * r)
}

// The root of m * 2^(w - 175), for a significand m of 24 bits, with its remainder.
fn significand_root(m: u32, w: u32) -> Distance
    requires { (2 ^ 23 ≤ m) × (m < 2 ^ 24) × (w < 280) }
    ensures { result ≡ distance_at (w / 2) (m * 2 ^ (23 + w % 2)) }
{
    let n = u64::from(m) << (23 + w % 2);
    let s = near_root(n);
    Distance {
        value: f32::from_bits((w / 2 + 50) * 0x80_0000 + s.root),
        remainder: Some(s.remainder),
    }
}

// The root of a float that is finite and above 0, with its remainder, from that float's pattern.
fn positive_root(b: u32) -> Distance
    requires { (0 < b) × (b < infinity_bits) }
    ensures { result ≡ distance_of (of_bits binary32 b) }
{
    if b < 0x80_0000 {
        let shift = b.leading_zeros() - 8;
        return significand_root(b << shift, 26 - shift);
    }
    significand_root(0x80_0000 + b % 0x80_0000, b / 0x80_0000 + 25)
}

// The nearest f32 to the root of x, with its remainder. The roots of -0 and of +infinity are themselves, and that of a negative number is NaN.
// That of 1 is given at once: four of the nine roots of a fit to the four nearest cells are of 1.
pub fn root_distance(x: f32) -> Distance
    ensures { result ≡ distance_of x }
{
    if x.is_nan() {
        return Distance::new(x, None);
    }
    let b = x.to_bits();
    if b == 0 {
        return Distance::new(x, Some(0));
    }
    if b == 0x3f80_0000 {
        return Distance::new(x, Some(0));
    }
    if b < 0x7f80_0000 {
        return positive_root(b);
    }
    if b == 0x7f80_0000 {
        return Distance::new(x, None);
    }
    if b == 0x8000_0000 {
        return Distance::new(x, Some(0));
    }
    Distance::new(f32::NAN, None)
}

// The nearest f32 to the root of x.
pub fn sqrt(x: f32) -> f32
    ensures { result ≡ root_of x }
{
    root_distance(x).value
}

// S and the power from the pattern b of a root without its sign, with the remainder.
fn scaled_root(b: u32, remainder: i32) -> ScaledRoot
    requires { b < infinity_bits }
    ensures { result ≡ scaled_root_at b remainder }
{
    if b == 0 {
        return ScaledRoot {
            root: 0,
            remainder,
            power: 0,
        };
    }
    ScaledRoot {
        root: 0x80_0000 + b % 0x80_0000,
        remainder,
        power: 300 - (b / 0x80_0000 * 2) as i32,
    }
}

// The root of x by whole numbers: none for negatives, infinity and NaN.
pub fn whole_root(x: f32) -> Option<ScaledRoot>
    ensures { result ≡ whole_root_of x }
{
    let d = root_distance(x);
    let z = d.remainder?;
    Some(scaled_root(to_bits(d.value) % 0x8000_0000, z))
}

// S, the power and the remainder of x into three words, and 1; or 0 where there is neither, and the words stay.
pub fn store_whole_root(x: f32, words: &mut [i32; 3]) -> i32
    ensures found { result ≡ found_number (whole_root_of x) }
    ensures words { words.new ≡ root_words (whole_root_of x) words.old }
{
    match whole_root(x) {
        None => 0,
        Some(r) => {
            *words = [r.root as i32, r.power, r.remainder];
            1
        }
    }
}

// The length of (x, y) with its remainder.
#[tactic(auto, unfolding(crate::specs::Scalar::norm_of))]
pub fn norm(x: f32, y: f32) -> Distance
    ensures { result ≡ length_of x y }
{
    root_distance(x * x + y * y)
}

// Whether a distance is the root itself: its remainder is 0.
pub fn is_exact(d: Distance) -> bool
    ensures { result ≡ is_exact d }
{
    matches!(d.remainder, Some(0))
}

// The f32 with the bit pattern b; every NaN's pattern gives the NaN.
pub fn from_bits(b: u32) -> f32
    ensures { result ≡ of_bits binary32 b }
{
    if b % 0x8000_0000 > 0x7f80_0000 {
        return f32::NAN;
    }
    f32::from_bits(b)
}

// The bit pattern of x, 0x7FC00000 for a NaN.
pub fn to_bits(x: f32) -> u32
    ensures { result ≡ to_bits binary32 x }
{
    if x.is_nan() {
        return 0x7fc0_0000;
    }
    x.to_bits()
}

// x with its sign cleared. The language's `abs` gives the same; this takes fewer operations, which the sweep of close pairs shows.
pub fn abs(x: f32) -> f32
    ensures { result ≡ abs_of x }
{
    if x.is_nan() {
        return x;
    }
    f32::from_bits(x.to_bits() % 0x8000_0000)
}

// The larger of x and -x, for comparisons: x with its sign cleared, but for the sign of a zero (`compares-as`). It takes fewer operations than
// `abs`.
#[tactic(auto, unfolding(crate::specs::Scalar::magnitude_of))]
pub fn magnitude(x: f32) -> f32
    ensures { result ≡ magnitude_of x }
{
    let y = -x;
    if y < x { x } else { y }
}

// The larger: the other where one is a NaN, a where they are equal; the language leaves open which of equals, so the sign of a zero.
#[tactic(auto, unfolding(crate::specs::Scalar::max_of))]
pub fn max(a: f32, b: f32) -> f32
    ensures { result ≡ max_of a b }
{
    if a.is_nan() {
        return b;
    }
    if a < b { b } else { a }
}

// The smaller: the other where one is a NaN, a where they are equal; likewise.
#[tactic(auto, unfolding(crate::specs::Scalar::min_of))]
pub fn min(a: f32, b: f32) -> f32
    ensures { result ≡ min_of a b }
{
    if a.is_nan() {
        return b;
    }
    if b < a { b } else { a }
}

// x, or the end of -1 to 1 that it lies beyond; a NaN stays.
pub fn clamp(x: f32) -> f32
    ensures { result ≡ clamp_of x }
{
    x.clamp(constants::MINUS_ONE, 1.0)
}

// Whether an angle with the cosine c is over 30 degrees. The largest f32 below √3 / 2 is 14,529,495 / 2^24.
pub fn over_30_degrees(c: f32) -> bool
    ensures { result ≡ over30_degrees c }
{
    c <= 0.8660253882408142
}
