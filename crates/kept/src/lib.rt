// The call on a sheet file: its rows and counts, or a refusal.
#![tactic(auto)]

ghost use Rattle.std.specs.Prelude.{◌≡◌, List, ◌*◌, ◌≤◌, length, Ok};
ghost use Rattle.refusals.specs.Number.{numbered};
ghost use Rattle.cells.specs.Points.{Point};
ghost use Rattle.sheet_file.specs.declared.Settings.{Settings};
ghost use Rattle.ruling.specs.Ruling.{accepted};
ghost use Rattle.ruling.specs.Accepted.{AcceptedSheet};
ghost use Rattle.ruling.specs.Sheet.{SheetOf};
ghost use Rattle.rows.specs.Rows.{row_size};
ghost use Rattle.kept.specs.Answer.{answer_of, rows_by, kept_by, kept_of, rows_after};

use edge_shape::NO_FIGURES;
use judging::Columns;
use marks::Tally;
use refusals::Refusal;
use ruling::Sheet;
use view::MAX_POINTS;

#[derive(Clone, Copy, PartialEq, Eq)]
pub struct Counts {
    pub points: usize,
    pub components: usize,
    pub rounds: usize,
}

// The counts of an accepted sheet, and its tally.
#[derive(Clone, Copy)]
pub struct Kept {
    pub counts: Counts,
    pub tally: Tally,
}

// Writes the rows of an accepted sheet's points, 28 bytes each, in cell order, and gives the counts and the tally.
#[inline(never)]
pub fn keep_sheet(sheet: &Sheet, rows: &mut [u8]) -> Kept
    requires { row_size * sheet.now.count ≤ length rows.old }
    ensures kept { (s : Settings) (ps : List Point) → SheetOf s ps sheet.now → AcceptedSheet s ps → Ok result ≡ kept_by (accepted s ps) }
    ensures rows { (s : Settings) (ps : List Point) → SheetOf s ps sheet.now → AcceptedSheet s ps → rows.new ≡ rows_by rows.old (accepted s ps) }
{
    let mut figures = [NO_FIGURES; MAX_POINTS];
    let j = judging::judge(&Columns::of(sheet), &mut figures);
    let counts = Counts {
        points: sheet.count,
        components: j.components,
        rounds: j.rounds,
    };
    let tally = j.tally;
    rows::write_rows(&j, &figures, sheet.count, rows);
    Kept { counts, tally }
}

// The call, with the tally: writes the rows of a sheet file's points, 28 bytes each, in cell order, and gives the counts; or a refusal, and
// writes nothing.
pub fn keep_counted(file: &[u8], rows: &mut [u8]) -> Result<Kept, Refusal>
    ensures kept { numbered result ≡ kept_of file.now (length rows.old) }
    ensures rows { rows.new ≡ rows_after file.now rows.old }
{
    let sheet = ruling::read(file, rows.len())?;
    Ok(keep_sheet(&sheet, rows))
}

// The call.
pub fn keep(file: &[u8], rows: &mut [u8]) -> Result<Counts, Refusal>
    ensures answer { numbered result ≡ answer_of file.now (length rows.old) }
    ensures rows { rows.new ≡ rows_after file.now rows.old }
{
    Ok(keep_counted(file, rows)?.counts)
}
