// The points of a file as the code holds them, and their order by a key.
ghost use Rattle.points.specs.Records.{PointsFit};
ghost use Rattle.points.specs.Entries.{Placed};

use sheet_file::Layout;
use sort::Entry;
use view::MAX_POINTS;

// The points of a file whose fields stand so.
#[derive(Clone, Copy)]
pub struct Points<'a> {
    pub file: &'a [u8],
    pub layout: Layout,
    ghost fit: { PointsFit file.now layout },
}

// And in the order of a key: an entry of each, with its place in the file.
#[derive(Drop)]
pub struct Order<'a> {
    pub points: Points<'a>,
    pub entries: [Entry; MAX_POINTS],
    ghost placed: { Placed entries points.layout.count },
}
