// From the bytes of a sheet file to the positions for its dropped points, as bytes into a buffer that the caller lends. What they are stands in
// specs/Bytes.antt and specs/Answer.antt.
#![tactic(auto)]

ghost use Rattle.std.specs.Prelude.{◌≡◌, ◌++◌, length, pos, ◌-ℤ◌, Ok};
ghost use Rattle.refusals.specs.Number.{numbered};
ghost use Rattle.view.specs.View.{view_at};
ghost use Rattle.cells.specs.Points.{bias};
ghost use Rattle.cells.specs.Cell.{cell_of_key, cells_at};
ghost use Rattle.sheet_file.specs.Bytes.{little_endian};
ghost use Rattle.predict.specs.Fills.{fills_of};
ghost use Rattle.drop_set.specs.Filters.{sides_of};
ghost use Rattle.ruling.specs.Sheet.{Ruled};
ghost use Rattle.text.specs.Stored.{Stored};
ghost use Rattle.text.specs.Answer.{Shows};
ghost use Rattle.sheet_fills.specs.Bytes.{signed_bytes, prediction_bytes, bytes_for, fills_bytes};
ghost use Rattle.sheet_fills.specs.Answer.{as_rows, fill_ruling, fill_answer_of, fills_after};

use edge_shape::NO_FIGURES;
use judging::Columns;
use predict::{Fills, PredictedPosition};
use refusals::Refusal;
use rows::ROW_SIZE;
use ruling::{ROWS_SIZE, Sheet};
use text::{NoRoom, Writer};
use view::{MAX_POINTS, Marks, RANKS_SIZE, Ranks};

// The bytes of a fill.
pub const FILL_SIZE: usize = 20;

#[derive(Clone, Copy)]
pub struct FillCounts {
    pub points: usize,
    pub fills: usize,
}

// ---- the bytes of a fill

// The cell number b - BIAS.
fn put_cell_number(w: &mut Writer, b: u32)
    ensures { Stored w.old (signed_bytes (pos b -ℤ pos bias)) w.new }
{
    little_endian::put_u32(w, b.wrapping_sub(cells::BIAS));
}

fn put_numbers(w: &mut Writer, a: u32, b: u32, c: u32)
    ensures { Stored w.old (little_endian a ++ little_endian b ++ little_endian c) w.new }
{
    little_endian::put_u32(w, a);
    little_endian::put_u32(w, b);
    little_endian::put_u32(w, c);
}

fn put_prediction(w: &mut Writer, p: Option<PredictedPosition>)
    ensures { Stored w.old (prediction_bytes p) w.new }
{
    match p {
        None => put_numbers(w, 0, 0, 0),
        Some(p) => put_numbers(
            w,
            u32::from(p.n_axis_pairs),
            float::to_bits(p.x),
            float::to_bits(p.y),
        ),
    }
}

// The fill of the point whose cell has this key, if it has a mark.
fn put_fill(w: &mut Writer, key: u32, marks: u8, fill: Option<PredictedPosition>)
    ensures { Stored w.old (bytes_for (cell_of_key key) marks fill) w.new }
{
    if marks == 0 {
        return;
    }
    put_cell_number(w, cells::u_part(key));
    put_cell_number(w, cells::v_part(key));
    put_prediction(w, fill);
}

// The fills of a sheet's points in cell order, from the start of the buffer: how many bytes they are.
#[inline(never)]
fn put_fills(
    columns: &Columns,
    marks: &Marks,
    fills: &Fills,
    out: &mut [u8],
) -> Result<usize, NoRoom>
    ensures { Shows (fills_bytes (cells_at columns.now.points.keys.now) marks.now fills.now columns.now.points.count) out.old out.new result }
{
    let mut w = Writer::new(out);
    for k in 0..columns.points.count {
        put_fill(&mut w, columns.points.keys[k], marks[k], fills[k]);
    }
    w.answer()
}

// The fills of a judged sheet, from the start of the buffer: how many bytes they are.
#[inline(never)]
fn write_fills(
    columns: &Columns,
    ranks: &Ranks,
    marks: &Marks,
    out: &mut [u8],
) -> Result<usize, NoRoom>
    ensures { Shows (fills_bytes (cells_at columns.now.points.keys.now) marks.now (fills_of (view_at columns.now.points.count ranks.now columns.now.seen.x.now columns.now.seen.y.now) (sides_of columns.now.settings) marks.now) columns.now.points.count) out.old out.new result }
{
    let fills = judging::fills(&columns.with_ranks(ranks), marks);
    put_fills(columns, marks, &fills, out)
}

// ---- the call

// The room for rows that goes with a buffer for fills.
fn as_rows(room: usize) -> usize
    ensures { result ≡ as_rows room }
{
    let most = room / FILL_SIZE;
    if most < MAX_POINTS {
        return ROW_SIZE * most;
    }
    ROWS_SIZE
}

// Writes the fills of a sheet that was read of a file, and gives the counts.
#[inline(never)]
fn fill_read(file: &[u8], sheet: &Sheet, out: &mut [u8]) -> FillCounts
    requires { Ruled (fill_ruling file.now (length out.old)) (Ok sheet.now) }
    ensures counts { Ok result ≡ fill_answer_of file.now (length out.old) }
    ensures fills { out.new ≡ fills_after file.now out.old }
{
    let mut figures = [NO_FIGURES; MAX_POINTS];
    let mut ranks = [0u16; RANKS_SIZE];
    let columns = Columns::of(sheet);
    let j = judging::judge_sheet(&columns, &mut ranks, &mut figures);
    let marks = j.marks;
    let Ok(size) = write_fills(&columns, &ranks, &marks, out) else {
        unreachable!()
    };
    FillCounts {
        points: sheet.count,
        fills: size / FILL_SIZE,
    }
}

// The call: writes the positions for the dropped points of a sheet file, 20 bytes each, in cell order, and gives the counts; or a refusal, and
// writes nothing.
pub fn fill_sheet(file: &[u8], out: &mut [u8]) -> Result<FillCounts, Refusal>
    ensures answer { numbered result ≡ fill_answer_of file.now (length out.old) }
    ensures fills { out.new ≡ fills_after file.now out.old }
{
    let sheet = ruling::read(file, as_rows(out.len()))?;
    Ok(fill_read(file, &sheet, out))
}
