// The cell of a point: whether it is in range, and its key. Points and cells are defined in specs/.
#![tactic(auto)]

ghost use Rattle.std.specs.Prelude.{◌≡◌, ◌/◌, ◌%◌, ◌≤◌};
ghost use Rattle.view.specs.View.{max_points};
ghost use Rattle.cells.specs.Points.{stride, biased, key_at};
ghost use Rattle.cells.specs.Cell.{signed, within};

use view::{View, Words};

// The key of a cell is (u + BIAS) * STRIDE + (v + BIAS).
pub const BIAS: u32 = 8003;

pub const STRIDE: u32 = 16384;

// The ends of the range of u and v, plus BIAS.
const LOWEST: u32 = BIAS - 8000;

const HIGHEST: u32 = BIAS + 8000;

// The points of a sheet in cell order: the keys of their cells, and their indices.
#[derive(Clone, Copy)]
pub struct Points<'a> {
    pub keys: &'a Words,
    pub idx: &'a Words,
    pub count: usize,
    ghost few: { count ≤ max_points },
}

// A view with the key of each point's cell.
#[derive(Clone, Copy)]
pub struct CelledView<'a> {
    pub view: View<'a>,
    pub keys: &'a Words,
}

// The key's parts: u and v, each plus BIAS.
pub fn u_part(key: u32) -> u32
    ensures { result ≡ key / stride }
{
    key / STRIDE
}

pub fn v_part(key: u32) -> u32
    ensures { result ≡ key % stride }
{
    key % STRIDE
}

// A pattern's u or v plus BIAS, modulo 2^32.
fn bias(b: u32) -> u32
    ensures { result ≡ biased b }
{
    b.wrapping_add(BIAS)
}

// Whether the u or v in a pattern lies in −8,000 to 8,000.
pub fn in_range(b: u32) -> bool
    ensures { result ≡ within (signed b) }
{
    (LOWEST..=HIGHEST).contains(&bias(b))
}

// The key of the cell with these patterns of u and v.
pub fn key(u: u32, v: u32) -> u64
    ensures { result ≡ key_at u v }
{
    u64::from(bias(u)) * u64::from(STRIDE) + u64::from(bias(v))
}
