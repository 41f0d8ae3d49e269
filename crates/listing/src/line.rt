// The line of a point: its cell, its index and what is shown of it.
ghost use Rattle.std.specs.Prelude.{◌≡◌, cond, [], ◌∷◌, ◌<◌, pos, ◌-ℤ◌};
ghost use Rattle.cells.specs.Points.{bias};
ghost use Rattle.cells.specs.Cell.{cell_of_key};
ghost use Rattle.edge_shape.specs.Figures.{reason_number};
ghost use Rattle.float.specs.Remainder.{is_exact};
ghost use Rattle.marks.specs.Places.{place};
ghost use Rattle.text.specs.Stored.{Stored};
ghost use Rattle.text.specs.Text.{bytes, whole};
ghost use Rattle.listing.specs.Listing.{cell_text, mark_text, marks_text, reason_text, distance_text, residual_text, shown_text, line_text};

use edge_shape::Reason;
use float::Distance;
use local_h::Residual;
use marks::filters::Filter;
use text::Writer;

fn mark_byte(marks: u8, f: Filter) -> u8
    ensures { (result ∷ []) ≡ mark_text marks (place f) }
{
    if f.has_marked(marks) {
        f.letter()
    } else {
        b'-'
    }
}

fn put_marks(w: &mut Writer, marks: u8)
    ensures { Stored w.old (marks_text marks) w.new }
{
    for f in Filter::ALL {
        w.byte(mark_byte(marks, f));
    }
}

fn reason_byte(reason: Option<Reason>) -> u8
    ensures { (result ∷ []) ≡ reason_text (reason_number reason) }
{
    match reason {
        None => b'-',
        Some(Reason::LowCardinalDegree) => b'1',
        Some(Reason::BadContinuation) => b'2',
        Some(Reason::NoValidAdjacentCell) => b'3',
    }
}

// `=` if the remainder is 0.
fn put_exact(w: &mut Writer, d: Distance)
    ensures { Stored w.old (cond (is_exact d) (bytes "=") []) w.new }
{
    if float::is_exact(d) {
        w.byte(b'=');
    }
}

fn put_distance(w: &mut Writer, d: Distance)
    ensures { Stored w.old (distance_text d) w.new }
{
    w.hex(8, float::to_bits(d.value));
    put_exact(w, d);
}

fn put_residual(w: &mut Writer, r: Residual)
    ensures { Stored w.old (residual_text r) w.new }
{
    match r {
        Some(d) => put_distance(w, d),
        None => w.byte(b'-'),
    }
}

// The cell number b - BIAS.
fn put_cell_number(w: &mut Writer, b: u32)
    ensures { Stored w.old (whole (pos b -ℤ pos bias)) w.new }
{
    w.difference(b as usize, cells::BIAS as usize);
}

pub(crate) fn put_cell(w: &mut Writer, key: u32)
    ensures { Stored w.old (cell_text (cell_of_key key)) w.new }
{
    put_cell_number(w, cells::u_part(key));
    w.byte(b' ');
    put_cell_number(w, cells::v_part(key));
}

fn put_shown(w: &mut Writer, marks: u8, reason: Option<Reason>, r: Residual)
    ensures { Stored w.old (shown_text marks (reason_number reason) r) w.new }
{
    put_marks(w, marks);
    w.byte(b' ');
    w.byte(reason_byte(reason));
    w.byte(b' ');
    put_residual(w, r);
}

// The line of the point whose cell has this key.
pub(crate) fn put_line(
    w: &mut Writer,
    key: u32,
    index: u32,
    marks: u8,
    reason: Option<Reason>,
    r: Residual,
)
    ensures { Stored w.old (line_text (cell_of_key key) index marks (reason_number reason) r) w.new }
{
    put_cell(w, key);
    w.byte(b' ');
    w.decimal(index as usize);
    w.byte(b' ');
    put_shown(w, marks, reason, r);
    w.byte(b'\n');
}
