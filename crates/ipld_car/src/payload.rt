//! The end of the payload of version 2, which its header states.

ghost use Rattle.std.specs.Prelude.{◌≡◌, ◌≤◌};
ghost use Rattle.ipld_car.specs.Payload as payload;

use crate::error::{CarError, CarErrorKind};

// Turns an end within the payload into `ShortPayload` if fewer than its `size` bytes were read
// (`found`).
pub(crate) fn short_payload(error: CarError, size: u64, found: u64) -> CarError
    ensures { result ≡ payload.short_payload size found error }
{
    match error.kind {
        CarErrorKind::UnexpectedEnd if found < size => CarError {
            kind: CarErrorKind::ShortPayload {
                expected: size,
                found,
            },
            section: error.section,
            offset: error.offset,
        },
        _ => error,
    }
}

// Turns the result of reading a section up to the end of the file into that of reading it up to the
// end of the payload. `offset` is the number of bytes of the file that were read.
pub(crate) fn within_payload(
    read: Result<bool, CarError>,
    size: u64,
    found: u64,
    offset: u64,
) -> Result<bool, CarError>
    ensures { result ≡ payload.within_payload size found offset read }
{
    match read {
        Ok(false) if found < size => Err(CarError {
            kind: CarErrorKind::ShortPayload {
                expected: size,
                found,
            },
            section: offset,
            offset,
        }),
        Ok(has) => Ok(has),
        Err(error) => Err(short_payload(error, size, found)),
    }
}
