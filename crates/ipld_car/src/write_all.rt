//! The writing of bytes: all of them, or a prefix if it fails.

ghost use Rattle.std.specs.Prelude.{◌≡◌, ◌≤◌, length, take, IfOk, IfErr, OnOk, OnErr};
ghost use Rattle.std.specs.Io.KnownBytes.{Appends, Keeps};
ghost use Rattle.ipld_codec.specs.WriteOut.{WritesPart};
ghost use Rattle.ipld_car.specs.WriteErrors.{IsWriteError};

use std::io::{self, ErrorKind, Write};

// Writes some of the bytes, and returns how many. It is 0 if the write was interrupted.
#[tactic(auto, using(crate::proofs::Pieces::appended_none, crate::proofs::Pieces::kept_for_none))]
fn write_piece<W: Write>(writer: &mut W, rest: &[u8]) -> io::Result<usize>
    ensures ok { IfOk result (λ count. (count ≤ length rest.now)
        × Appends (W.contents writer.old) (W.contents writer.new) (take count rest.now)) }
    ensures err { IfErr result IsWriteError }
    ensures kept { OnErr result (Keeps (W.contents writer.old) (W.contents writer.new)) }
{
    match writer.write(rest) {
        Ok(0) => Err(io::Error::from(ErrorKind::WriteZero)),
        Ok(count) => Ok(count),
        Err(error) if error.kind() == ErrorKind::Interrupted => Ok(0),
        Err(error) => Err(error),
    }
}

// Writes all of the bytes. A write that was interrupted is tried again. A writer that is
// interrupted without end has failed.
#[tactic(auto, using(crate::proofs::Pieces::nothing_written, crate::proofs::Pieces::piece_written, crate::proofs::Pieces::none_written, crate::proofs::Pieces::all_written))]
pub(crate) fn write_all<W: Write>(writer: &mut W, bytes: &[u8]) -> io::Result<()>
    ensures ok { OnOk result (Appends (W.contents writer.old) (W.contents writer.new) bytes.now) }
    ensures err { IfErr result IsWriteError }
    ensures part { OnErr result
        (WritesPart (W.contents writer.old) (W.contents writer.new) bytes.now) }
{
    let mut rest = bytes;
    if rest.is_empty() {
        return Ok(());
    }
    for _ in 0..u64::MAX {
        let count = write_piece(writer, rest)?;
        rest = &rest[count..];
        if rest.is_empty() {
            return Ok(());
        }
    }
    Err(io::Error::from(ErrorKind::Other))
}
