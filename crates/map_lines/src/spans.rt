// What the cells of a sheet span in u and in v.
ghost use Rattle.std.specs.Prelude.{◌≡◌, ◌^◌, ◌<◌, length};
ghost use Rattle.map_lines.specs.Page.{part, Spans};
ghost use Rattle.offsets.specs.declared.axis.Axis.TheVariants.{AlongU, AlongV};

use offsets::Axis;

// The smallest u or v, plus BIAS, and how many values there are from it to the largest.
#[derive(Clone, Copy)]
pub struct Span {
    pub least: usize,
    pub count: usize,
}

// The keys of cells, and what the cells span in u and in v.
#[derive(Clone, Copy)]
pub struct SpannedKeys<'a> {
    pub keys: &'a [u32],
    pub u: Span,
    pub v: Span,
    ghost along_u: { Spans AlongU keys.now (length keys.now) u },
    ghost along_v: { Spans AlongV keys.now (length keys.now) v },
}

// u or v of the cell with this key, plus BIAS.
fn coordinate(key: u32, axis: Axis) -> usize
    ensures { (result ≡ part axis key) × (result < 2 ^ 32) }
{
    match axis {
        Axis::AlongU => cells::u_part(key) as usize,
        Axis::AlongV => cells::v_part(key) as usize,
    }
}

// What the cells with these keys span.
pub fn span_along(keys: &[u32], axis: Axis) -> Span
    ensures { Spans axis keys.now (length keys.now) result }
{
    let Some(first) = keys.first() else {
        return Span { least: 0, count: 0 };
    };
    let mut least = coordinate(*first, axis);
    let mut most = least;
    for key in keys {
        let c = coordinate(*key, axis);
        least = least.min(c);
        most = most.max(c);
    }
    let count = most - least + 1;
    Span { least, count }
}

impl<'a> SpannedKeys<'a> {
    pub fn of(keys: &'a [u32]) -> SpannedKeys<'a>
        ensures { result.keys.now ≡ keys.now }
    {
        SpannedKeys {
            keys,
            u: span_along(keys, Axis::AlongU),
            v: span_along(keys, Axis::AlongV),
        }
    }
}
