//! Readers, read to their end.

ghost use Rattle.std.specs.Prelude.{◌≡◌, ◌⊎◌, IfOk, IfErr, OnErr};
ghost use Rattle.std.specs.Io.KnownBytes.{Keeps};
ghost use Rattle.ipld_codec.specs.ReadOut.{IsRead, LosesFront, TakesBuffer, read_error};

use crate::raw::RawError;
use std::alloc::Global;
use std::io::{BufRead, ErrorKind};

// Returns the bytes that the reader still has. A reader that never ends counts as failed.
#[tactic(auto, using(crate::proofs::Buffers::none_taken, crate::proofs::Buffers::buffer_taken, crate::proofs::Buffers::all_taken))]
pub(crate) fn read_to_end<R: BufRead>(alloc: Global, reader: &mut R) -> Result<Vec<u8>, RawError>
    ensures ok { IfOk result (λ bytes. IsRead (R.remaining reader.old)
        (R.remaining reader.new) bytes.items) }
    ensures err { IfErr result (λ error. (error ≡ RawError.Memory) ⊎ (error ≡ RawError.Read)) }
    ensures left { OnErr result (LosesFront (R.remaining reader.old) (R.remaining reader.new)) }
{
    let mut bytes = Vec::new(alloc);
    for _ in 0..u64::MAX {
        if take_buffer(reader, &mut bytes)? {
            return Ok(bytes);
        }
    }
    Err(RawError::Read)
}

// Takes the bytes that the reader has buffered, and returns whether this was its end. An
// interrupted read takes no bytes, and neither does a failed one.
fn take_buffer<R: BufRead>(reader: &mut R, bytes: &mut Vec<u8>) -> Result<bool, RawError>
    ensures ok { IfOk result (λ at_end. TakesBuffer at_end (R.remaining reader.old)
        (R.remaining reader.new) bytes.old.items bytes.new.items) }
    ensures err { IfErr result (λ error. (error ≡ RawError.Memory) ⊎ (error ≡ RawError.Read)) }
    ensures kept { OnErr result (Keeps (R.remaining reader.old) (R.remaining reader.new)
        × (bytes.new.items ≡ bytes.old.items)) }
{
    let count = match reader.fill_buf() {
        Ok(buffer) => {
            bytes.extend_from_slice(buffer)?;
            buffer.len()
        }
        Err(error) => {
            return match error_of_read(error.kind()) {
                Some(error) => Err(error),
                None => Ok(false),
            };
        }
    };
    reader.consume(count);
    Ok(count == 0)
}

// Returns the meaning of a reader's error, or nothing if the read was only interrupted.
fn error_of_read(kind: ErrorKind) -> Option<RawError>
    ensures { result ≡ read_error kind }
{
    match kind {
        ErrorKind::Interrupted => None,
        ErrorKind::OutOfMemory => Some(RawError::Memory),
        _ => Some(RawError::Read),
    }
}
