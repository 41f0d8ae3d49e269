// What a file that is accepted says.
ghost use Rattle.ruling.specs.Arrays.{Arrays};

use points::Table;
use sheet_file::Settings;

// The settings, how many points there are, and the points in cell order.
#[derive(Drop)]
pub struct Sheet {
    pub settings: Settings,
    pub count: usize,
    pub table: Table,
    ghost arrays: { Arrays count table.keys table.x table.y table.strength },
}
