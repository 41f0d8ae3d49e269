// From the bytes of a sheet file to the text that the program `sheet` prints. What it is stands in specs/Text.antt.
#![tactic(auto)]

ghost use Rattle.std.specs.Prelude.{List};
ghost use Rattle.cells.specs.Points.{Point};
ghost use Rattle.sheet_file.specs.declared.Settings.{Settings};
ghost use Rattle.ruling.specs.Ruling.{accepted};
ghost use Rattle.ruling.specs.Accepted.{AcceptedSheet};
ghost use Rattle.ruling.specs.Sheet.{SheetOf};
ghost use Rattle.text.specs.Answer.{Shows};
ghost use Rattle.sheet_listing.specs.Text.{text_by, text_of};

use edge_shape::NO_FIGURES;
use judging::Columns;
use ruling::{ROWS_SIZE, Sheet};
use text::NoRoom;
use view::{MAX_POINTS, RANKS_SIZE};

// Writes the listing of an accepted sheet.
#[inline(never)]
pub fn write_sheet(sheet: &Sheet, out: &mut [u8]) -> Result<usize, NoRoom>
    ensures { (s : Settings) (ps : List Point) → SheetOf s ps sheet.now → AcceptedSheet s ps → Shows (text_by (accepted s ps)) out.old out.new result }
{
    let mut figures = [NO_FIGURES; MAX_POINTS];
    let mut ranks = [0u16; RANKS_SIZE];
    let columns = Columns::of(sheet);
    let j = judging::judge_sheet(&columns, &mut ranks, &mut figures);
    let fills = judging::fills(&columns.with_ranks(&ranks), &j.marks);
    listing::write_listing(&columns.points, &j, &fills, |k| figures[k].reason, out)
}

// Writes the listing of a sheet file, or `refused` and the number.
pub fn list_sheet(file: &[u8], out: &mut [u8]) -> Result<usize, NoRoom>
    ensures { Shows (text_of file.now) out.old out.new result }
{
    match &ruling::read(file, ROWS_SIZE) {
        Ok(sheet) => write_sheet(sheet, out),
        Err(refusal) => text::write_refusal(refusal.number(), out),
    }
}
