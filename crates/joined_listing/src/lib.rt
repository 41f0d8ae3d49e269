// From the bytes of two halves to the text that the program `join` prints. What it is stands in specs/Text.antt.
#![tactic(auto)]

ghost use Rattle.text.specs.Answer.{Shows};
ghost use Rattle.joined_listing.specs.Text.{joined_text_of};

use joined::Move;
use ruling::ROWS_SIZE;
use text::NoRoom;

// Writes the listing of the joined sheet, or `refused` and the number.
pub fn list_joined(left: &[u8], right: &[u8], m: Move, out: &mut [u8]) -> Result<usize, NoRoom>
    ensures { Shows (joined_text_of left.now right.now m) out.old out.new result }
{
    match &joined::read(left, right, m, ROWS_SIZE) {
        Ok(sheet) => sheet_listing::write_sheet(sheet, out),
        Err(refusal) => text::write_refusal(refusal.number(), out),
    }
}
