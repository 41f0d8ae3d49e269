// Numbers as bytes, the lowest first, into a buffer that the caller lends. See sheet_file/specs/Bytes.antt.
#![tactic(auto)]

ghost use Rattle.sheet_file.specs.Bytes.{little_endian};
ghost use Rattle.text.specs.Stored.{Stored};

use text::Writer;

pub fn put_u32(w: &mut Writer, b: u32)
    ensures { Stored w.old (little_endian b) w.new }
{
    w.text(&b.to_le_bytes());
}
