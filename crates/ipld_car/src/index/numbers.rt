//! Numbers, written the lowest byte first.

ghost use Rattle.std.specs.Prelude.{OnOk};
ghost use Rattle.std.specs.Io.KnownBytes.{Appends};
ghost use Rattle.ipld_car.specs.IndexNumbers.{le32, le64};

use std::io::{self, Write};

// Writes a number of 32 bits.
#[tactic(auto, unfolding(crate::specs::IndexNumbers::le32))]
pub(crate) fn write_u32<W: Write>(number: u32, writer: &mut W) -> io::Result<()>
    ensures { OnOk result (Appends (W.contents writer.old) (W.contents writer.new) (le32 number)) }
{
    writer.write_all(&number.to_le_bytes())?;
    Ok(())
}

// Writes a number of 64 bits.
#[tactic(auto, unfolding(crate::specs::IndexNumbers::le64))]
pub(crate) fn write_u64<W: Write>(number: u64, writer: &mut W) -> io::Result<()>
    ensures { OnOk result (Appends (W.contents writer.old) (W.contents writer.new) (le64 number)) }
{
    writer.write_all(&number.to_le_bytes())?;
    Ok(())
}
