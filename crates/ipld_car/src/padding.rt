//! Zeros after the last section.

ghost use Rattle.std.specs.Prelude.{IfOk, IfErr};
ghost use Rattle.std.specs.Io.KnownBytes.{Keeps};
ghost use Rattle.ipld_car.specs.Padding.{IsNextZero};
ghost use Rattle.ipld_car.specs.Taking.{IsReaderError};

use crate::error::CarErrorKind;
use crate::fill::reader_error;
use std::io::{BufRead, Error, ErrorKind};

// Returns whether the next byte of the reader is 0. Takes nothing. A reader that is interrupted
// without end has failed.
pub(crate) fn is_next_zero<R: BufRead>(reader: &mut R) -> Result<bool, CarErrorKind>
    ensures kept { Keeps (R.remaining reader.old) (R.remaining reader.new) }
    ensures zero { IfOk result (IsNextZero (R.remaining reader.old)) }
    ensures fault { IfErr result IsReaderError }
{
    for _ in 0..u64::MAX {
        match reader.fill_buf() {
            Ok(buffer) => return Ok(buffer.first() == Some(&0)),
            Err(error) => {
                if let Some(kind) = reader_error(error) {
                    return Err(kind);
                }
            }
        }
    }
    Err(CarErrorKind::Read(Error::from(ErrorKind::Other)))
}
