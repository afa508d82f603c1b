//! Bytes of a reader, appended to those that were taken before.

ghost use Rattle.std.specs.Prelude.{◌≡◌, MatchOption};
ghost use Rattle.std.specs.IoError.{error_kind};
ghost use Rattle.std.specs.declared.io.ErrorKind.TheVariants.{Interrupted};
ghost use Rattle.ipld_car.specs.Taking.{TakesSome, Fills, IsReaderError};

use crate::error::CarErrorKind;
use std::io::{BufRead, Error, ErrorKind};

// Returns the error of a reader, or `None` if it was interrupted, so that the read is tried again.
pub(crate) fn reader_error(error: Error) -> Option<CarErrorKind>
    ensures { MatchOption result (error_kind error ≡ Interrupted) IsReaderError }
{
    match error.kind() {
        ErrorKind::Interrupted => None,
        ErrorKind::OutOfMemory => Some(CarErrorKind::Memory),
        _ => Some(CarErrorKind::Read(error)),
    }
}

// Takes at most `most` bytes of those that the reader has buffered. Returns how many, or `None` at
// the reader's end. An interrupted read takes 0 bytes.
#[tactic(auto, using(crate::proofs::Takings::takes_none))]
#[inline(always)]
fn take_buffered<R: BufRead>(
    reader: &mut R,
    taken: &mut Vec<u8>,
    most: usize,
) -> Result<Option<usize>, CarErrorKind>
    ensures { TakesSome (R.remaining reader.old) (R.remaining reader.new)
        taken.old.items taken.new.items most result }
{
    let count = match reader.fill_buf() {
        Ok(buffer) => {
            if buffer.is_empty() {
                return Ok(None);
            }
            let count = buffer.len().min(most);
            if taken.extend_from_slice(&buffer[..count]).is_err() {
                return Err(CarErrorKind::Memory);
            }
            count
        }
        Err(error) => {
            return match reader_error(error) {
                Some(kind) => Err(kind),
                None => Ok(Some(0)),
            };
        }
    };
    reader.consume(count);
    Ok(Some(count))
}

// Takes `count` bytes, or all up to the reader's end if it has fewer. Returns whether it had that
// many. A reader that is interrupted without end has failed.
#[tactic(auto, using(crate::proofs::Takings::fills_none, crate::proofs::Takings::fills_zero, crate::proofs::Takings::fills_more, crate::proofs::Takings::fills_all, crate::proofs::Takings::fills_part, crate::proofs::Takings::fills_until, crate::proofs::Takings::fills_never))]
#[inline(always)]
pub(crate) fn fill<R: BufRead>(
    reader: &mut R,
    taken: &mut Vec<u8>,
    count: usize,
) -> Result<bool, CarErrorKind>
    ensures { Fills (R.remaining reader.old) (R.remaining reader.new)
        taken.old.items taken.new.items count result }
{
    let mut left = count;
    if left == 0 {
        return Ok(true);
    }
    for _ in 0..u64::MAX {
        match take_buffered(reader, taken, left)? {
            Some(count) => left -= count,
            None => return Ok(false),
        }
        if left == 0 {
            return Ok(true);
        }
    }
    Err(CarErrorKind::Read(Error::from(ErrorKind::Other)))
}
