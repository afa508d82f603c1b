//! Bytes, written whole.

ghost use Rattle.std.specs.Prelude.{◌≡◌, ◌⊎◌, ◌≤◌, length, take, IfOk, IfErr, OnOk, OnErr};
ghost use Rattle.std.specs.Io.KnownBytes.{Appends, Keeps};
ghost use Rattle.ipld_codec.specs.WriteOut.{WritesPart, write_error};

use crate::raw::RawError;
use std::io::{ErrorKind, Write};

// Writes all of the bytes. An interrupted write is tried again.
#[tactic(auto, using(crate::proofs::Pieces::nothing_written, crate::proofs::Pieces::piece_written, crate::proofs::Pieces::none_written, crate::proofs::Pieces::all_written))]
pub(crate) fn write_block<W: Write>(writer: &mut W, block: &[u8]) -> Result<(), RawError>
    ensures ok { OnOk result (Appends (W.contents writer.old) (W.contents writer.new) block.now) }
    ensures err { IfErr result (λ error. (error ≡ RawError.Memory) ⊎ (error ≡ RawError.Write)) }
    ensures part { OnErr result (WritesPart (W.contents writer.old)
        (W.contents writer.new) block.now) }
{
    let mut rest = block;
    if rest.is_empty() {
        return Ok(());
    }
    for _ in 0..u64::MAX {
        let count = write_piece(writer, rest)?;
        rest = &rest[count..];
        if rest.is_empty() {
            return Ok(());
        }
    }
    Err(RawError::Write)
}

// Writes some of the bytes, and returns how many. An interrupted write writes zero bytes.
#[tactic(auto, using(crate::proofs::Pieces::appended_none, crate::proofs::Pieces::kept_for_none))]
fn write_piece<W: Write>(writer: &mut W, rest: &[u8]) -> Result<usize, RawError>
    ensures ok { IfOk result (λ count. (count ≤ length rest.now) × Appends (W.contents writer.old)
        (W.contents writer.new) (take count rest.now)) }
    ensures err { IfErr result (λ error. (error ≡ RawError.Memory) ⊎ (error ≡ RawError.Write)) }
    ensures kept { OnErr result (Keeps (W.contents writer.old) (W.contents writer.new)) }
{
    match writer.write(rest) {
        Ok(0) => Err(RawError::Write),
        Ok(count) => Ok(count),
        Err(error) => match error_of_write(error.kind()) {
            Some(error) => Err(error),
            None => Ok(0),
        },
    }
}

// Returns the meaning of a writer's error, or nothing if the write was only interrupted.
fn error_of_write(kind: ErrorKind) -> Option<RawError>
    ensures { result ≡ write_error kind }
{
    match kind {
        ErrorKind::Interrupted => None,
        ErrorKind::OutOfMemory => Some(RawError::Memory),
        _ => Some(RawError::Write),
    }
}
