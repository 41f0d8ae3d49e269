// The call on a sheet file in a run: the call's answer and rows, and the record with the sheet added. What it is stands in specs/InRun.antt.
#![tactic(auto)]

ghost use Rattle.std.specs.Prelude.{◌≡◌, length};
ghost use Rattle.refusals.specs.Number.{numbered};
ghost use Rattle.kept_in_run.specs.InRun.{answer_in_run, run_after, rows_in_run};

use kept::Counts;
use refusals::Refusal;
use runs::Run;

// The second form of the call: a full record is refused before the file is read; else the call, and an accepted sheet is added to the record.
pub fn keep_in_run(file: &[u8], rows: &mut [u8], run: &mut Run) -> Result<Counts, Refusal>
    ensures answer { numbered result ≡ answer_in_run run.old file.now (length rows.old) }
    ensures run { run.new ≡ run_after run.old file.now (length rows.old) }
    ensures rows { rows.new ≡ rows_in_run run.old file.now rows.old }
{
    if runs::is_full(*run) {
        return Err(Refusal::RunFull);
    }
    let kept = kept::keep_counted(file, rows)?;
    *run = runs::with_sheet(*run, kept.tally);
    Ok(kept.counts)
}
