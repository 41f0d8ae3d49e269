// The line of a dropped point: its cell, and what is predicted for it.
ghost use Rattle.cells.specs.Cell.{cell_of_key};
ghost use Rattle.text.specs.Stored.{Stored};
ghost use Rattle.listing.specs.Listing.{position_text, prediction_text, fill_line};

use crate::line;
use predict::PredictedPosition;
use text::Writer;

fn put_position(w: &mut Writer, p: PredictedPosition)
    ensures { Stored w.old (position_text p) w.new }
{
    w.decimal(usize::from(p.n_axis_pairs));
    w.byte(b' ');
    w.hex(8, float::to_bits(p.x));
    w.byte(b' ');
    w.hex(8, float::to_bits(p.y));
}

fn put_prediction(w: &mut Writer, p: Option<PredictedPosition>)
    ensures { Stored w.old (prediction_text p) w.new }
{
    match p {
        None => w.byte(b'0'),
        Some(position) => put_position(w, position),
    }
}

// The line of the point whose cell has this key, if it has a mark.
pub(crate) fn put_fill(w: &mut Writer, key: u32, marks: u8, fill: Option<PredictedPosition>)
    ensures { Stored w.old (fill_line (cell_of_key key) marks fill) w.new }
{
    if marks == 0 {
        return;
    }
    line::put_cell(w, key);
    w.byte(b' ');
    put_prediction(w, fill);
    w.byte(b'\n');
}
