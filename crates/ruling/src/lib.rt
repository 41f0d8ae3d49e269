// The ruling on a sheet file: a refusal, or the settings and the points in cell order.
#![tactic(auto)]

ghost use Rattle.std.specs.Prelude.{◌≡◌};
ghost use Rattle.ruling.specs.Ruling.{ruling_of, rows_size};
ghost use Rattle.ruling.specs.Sheet.{Ruled};

mod sheet;

use refusals::Refusal;
pub use sheet::Sheet;
use view::MAX_POINTS;

// A result buffer of this size has room for the rows of every sheet.
pub const ROWS_SIZE: usize = 28 * MAX_POINTS;

// The number that the specifications use is the code's.
pub fn rows_size() -> usize
    ensures { result ≡ rows_size }
{
    ROWS_SIZE
}

// The ruling on any bytes; `room` is the length of the result buffer.
pub fn read(file: &[u8], room: usize) -> Result<Sheet, Refusal>
    ensures { Ruled (ruling_of file.now room) result }
{
    let header = sheet_file::read(file, room)?;
    let settings = header.settings;
    let layout = header.layout;
    Ok(Sheet {
        settings,
        count: layout.count,
        table: points::read(file, layout, settings.score_frac)?,
    })
}
