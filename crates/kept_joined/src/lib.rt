// The call on two halves of a sheet: the rows and counts of the joined sheet, or a refusal.
#![tactic(auto)]

ghost use Rattle.std.specs.Prelude.{◌≡◌, length};
ghost use Rattle.refusals.specs.Number.{numbered};
ghost use Rattle.kept_joined.specs.Answer.{joined_answer_of, joined_rows_after};

use joined::Move;
use kept::Counts;
use refusals::Refusal;

// The call: writes the rows of the joined sheet's points, 28 bytes each, in cell order, and gives the counts; or a refusal, and writes nothing.
pub fn keep_joined(left: &[u8], right: &[u8], m: Move, rows: &mut [u8]) -> Result<Counts, Refusal>
    ensures answer { numbered result ≡ joined_answer_of left.now right.now m (length rows.old) }
    ensures rows { rows.new ≡ joined_rows_after left.now right.now m rows.old }
{
    let sheet = joined::read(left, right, m, rows.len())?;
    Ok(kept::keep_sheet(&sheet, rows).counts)
}
