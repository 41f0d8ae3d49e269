// The median of numbers: of the positive ones, by a sort of their bit patterns; of all, by a sort of keys that rise with them.
#![tactic(auto)]

ghost use Rattle.std.specs.Prelude.{◌≡◌, ℕ, ◌≤◌, ◌<◌, T, get_or};
ghost use Rattle.std.specs.Float.{nan, binary32};
ghost use Rattle.std.specs.Float.Ieee.{fits};
ghost use Rattle.std.specs.Float.Ieee.Scale.{finite};
ghost use Rattle.view.specs.View.{max_points, Finite};
ghost use Rattle.median.specs.Median.{median_of, first_of};
ghost use Rattle.median.specs.Packed.{positives, patterns, Put};
ghost use Rattle.median.specs.Keys.{RisingKey, KeyedInOrder};

use sort::Entry;
use view::{Floats, MAX_POINTS, Words};

// One number of each of so many points.
#[derive(Clone, Copy)]
pub struct Numbers<'a> {
    pub values: &'a Floats,
    pub count: usize,
    ghost few: { count ≤ max_points },
}

// Puts the pattern of x at c, if x is positive.
fn put(x: f32, c: usize, a: &mut Words) -> usize
    requires { c < max_points }
    ensures { Put x c result a.old a.new }
{
    if 0.0 < x {
        a[c] = x.to_bits();
        return c + 1;
    }
    c
}

// The patterns of the positive ones, put at the front of a.
fn pack<'a>(v: &Numbers, a: &'a mut Words) -> &'a mut [u32]
    ensures packed { result.now ≡ patterns (positives v.now.values.now v.now.count) }
    ensures floats { (j : ℕ) → j < v.now.count → T (fits binary32 (get_or v.now.values.now j nan)) }
{
    let values = v.values;
    let mut c = 0;
    for x in &values[..v.count] {
        c = put(*x, c, a);
    }
    &mut a[..c]
}

// The median of the positive ones; NaN where there is none.
pub fn middle(v: &Numbers) -> f32
    ensures { result ≡ median_of (positives v.now.values.now v.now.count) }
{
    let mut room = [0; MAX_POINTS];
    let a = pack(v, &mut room);
    if a.is_empty() {
        return f32::NAN;
    }
    a.sort_unstable();
    f32::from_bits(a[a.len() / 2])
}

// A number that rises with x, which is finite.
fn rising(x: f32) -> u64
    requires { T (finite x) }
    ensures { RisingKey x result }
{
    let b = u64::from(x.to_bits());
    if b < 0x8000_0000 {
        return 0x8000_0000 + b;
    }
    0x1_0000_0000 - b
}

// The key of each number with its place, in rising order: entry i has the place of the number that is i-th in the order of numbers.
pub fn keys_in_order(v: &Numbers) -> [Entry; MAX_POINTS]
    requires { Finite v.now.count v.now.values.now }
    ensures { KeyedInOrder v.now.values.now v.now.count result }
{
    sort::in_order(v.count, |k| rising(v.values[k]))
}

// The median of the numbers, which are finite; NaN where there is none.
pub fn middle_of_all(v: &Numbers) -> f32
    requires { Finite v.now.count v.now.values.now }
    ensures { result ≡ median_of (first_of v.now.count v.now.values.now) }
{
    if v.count == 0 {
        return f32::NAN;
    }
    let a = keys_in_order(v);
    v.values[a[v.count / 2].place()]
}
