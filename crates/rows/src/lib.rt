// Rows: what is shown of each point, 28 bytes in cell order.
#![tactic(auto)]

ghost use Rattle.std.specs.Prelude.{◌≡◌, ◌+◌, ◌*◌, ◌≤◌, length, is_some};
ghost use Rattle.view.specs.View.{max_points};
ghost use Rattle.folds.specs.Marked.{bit};
ghost use Rattle.judged.specs.Judged.{judged_from};
ghost use Rattle.judged.specs.Shown.{shown_at};
ghost use Rattle.sheet_file.specs.Bytes.{little_endian};
ghost use Rattle.rows.specs.Rows.{bits_of, residual_float, floats_of, presence, row_of, row_size, rows_over};

use edge_shape::{Figures, Measure};
use judged::Findings;
use judged::figures::FigureColumn;
use local_h::Residual;

// The bytes of a row.
pub const ROW_SIZE: usize = 28;

// The number of a residual.
fn residual_float(r: Residual) -> Option<f32>
    ensures { result ≡ residual_float r }
{
    r.map(|d| d.value)
}

// The pattern of a float, or 0, the lowest byte first.
fn float_bytes(x: Option<f32>) -> [u8; 4]
    ensures { result ≡ little_endian (bits_of x) }
{
    match x {
        None => [0; 4],
        Some(x) => float::to_bits(x).to_le_bytes(),
    }
}

// 1 if there is something, else 0.
fn count<T: Copy>(x: Option<T>) -> u8
    ensures { (result ≡ bit (is_some x)) × (result ≤ 1) }
{
    u8::from(x.is_some())
}

// Which floats are present: the cosine and the ratio of a measure are so together.
fn present(residual: Option<f32>, continuation: Option<Measure>, cells: Option<Measure>) -> u8
    ensures { result ≡ presence (floats_of residual continuation cells) }
{
    count(residual) + 6 * count(continuation) + 24 * count(cells)
}

// The row that shows these.
#[tactic(auto, unfolding(crate::specs::Rows::row_of))]
fn row(marks: u8, residual: Residual, f: Figures, boundary: u8) -> [u8; ROW_SIZE]
    ensures { result ≡ row_of (record { marks = marks; residual = residual; figures = f; boundary = boundary }) }
{
    let residual = residual_float(residual);
    let continuation = f.continuation;
    let cells = f.cells;
    let mut row = [0u8; ROW_SIZE];
    row[0] = marks;
    row[1] = edge_shape::reason_number(f.reason);
    row[2] = present(residual, continuation, cells);
    row[3] = f.degree;
    row[4] = boundary;
    row[5] = f.adjacent;
    row[6] = f.valid;
    row[8..12].copy_from_slice(&float_bytes(residual));
    row[12..16].copy_from_slice(&float_bytes(continuation.map(|m| m.cosine)));
    row[16..20].copy_from_slice(&float_bytes(continuation.map(|m| m.ratio)));
    row[20..24].copy_from_slice(&float_bytes(cells.map(|m| m.cosine)));
    row[24..28].copy_from_slice(&float_bytes(cells.map(|m| m.ratio)));
    row
}

// Writes the rows of ranks 0 to n - 1 of a judged sheet. The buffer, which the caller of the library lends, may go on after them.
#[inline(never)]
pub fn write_rows(j: &Findings, figures: &FigureColumn, n: usize, rows: &mut [u8])
    requires { (n ≤ max_points) × (row_size * n ≤ length rows.old) }
    ensures { rows.new ≡ rows_over n (shown_at (judged_from j.now figures.now)) rows.old }
{
    for k in 0..n {
        let shown = row(j.marks[k], j.residuals[k], figures[k], j.boundary[k]);
        rows[ROW_SIZE * k..ROW_SIZE * (k + 1)].copy_from_slice(&shown);
    }
}
