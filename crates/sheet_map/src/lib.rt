// From the bytes of a sheet file to the text that the program `map` prints. What it is stands in specs/Text.antt.
#![tactic(auto)]

ghost use Rattle.text.specs.Answer.{Shows};
ghost use Rattle.sheet_map.specs.Text.{map_text_of};
ghost use Rattle.sheet_map.specs.Table.{drawn_in};

use edge_shape::NO_FIGURES;
use judging::Columns;
use map_lines::SpannedKeys;
use refusals::Refusal;
use ruling::ROWS_SIZE;
use text::NoRoom;
use view::MAX_POINTS;

// Writes the map of points in cell order, or `refused 10`.
#[inline(never)]
fn draw(columns: &Columns, out: &mut [u8]) -> Result<usize, NoRoom>
    ensures { Shows (drawn_in columns.now) out.old out.new result }
{
    let column = columns.points.keys;
    let keys = SpannedKeys::of(&column[..columns.points.count]);
    if keys.too_wide() {
        return text::write_refusal(Refusal::MapTooWide.number(), out);
    }
    let mut figures = [NO_FIGURES; MAX_POINTS];
    let j = judging::judge(columns, &mut figures);
    keys.write_map(&j.marks, out)
}

// Writes the map of a sheet file, or `refused` and the number.
pub fn draw_sheet(file: &[u8], out: &mut [u8]) -> Result<usize, NoRoom>
    ensures { Shows (map_text_of file.now) out.old out.new result }
{
    match &ruling::read(file, ROWS_SIZE) {
        Ok(sheet) => draw(&Columns::of(sheet), out),
        Err(refusal) => text::write_refusal(refusal.number(), out),
    }
}
