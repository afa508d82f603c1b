//! The varint before a header and before a section.

ghost use Rattle.std.specs.Prelude.{◌≡◌, ◌≤◌, length, [], MatchOption, None, Some};
ghost use Rattle.std.specs.Io.KnownBytes.{Consumes};
ghost use Rattle.ipld_cid.specs.Varint as varint;
ghost use Rattle.ipld_car.specs.Taking.{TakesByte};
ghost use Rattle.ipld_car.specs.Lengths.{ReadsLength, kind_of};

use crate::error::CarErrorKind;
use crate::fill::fill;
use std::io::BufRead;

// The error of a byte that comes after `place` bytes of a varint.
#[inline(always)]
pub(crate) fn error_at(place: usize, byte: u8) -> Option<CarErrorKind>
    ensures { result ≡ kind_of (varint.error_at place byte) }
{
    if place == 9 && byte > 1 {
        Some(CarErrorKind::LengthTooLarge)
    } else if place > 0 && byte == 0 {
        Some(CarErrorKind::LengthNotShortest)
    } else {
        None
    }
}

// Takes the next byte, and returns it. Returns `None` if the reader is at its end or `room` bytes
// were taken.
#[inline(always)]
fn take_byte<R: BufRead>(
    reader: &mut R,
    taken: &mut Vec<u8>,
    room: u64,
) -> Result<Option<u8>, CarErrorKind>
    ensures { TakesByte room (R.remaining reader.old) (R.remaining reader.new)
        taken.old.items taken.new.items result }
{
    if taken.len() as u64 == room {
        return Ok(None);
    }
    if !fill(reader, taken, 1)? {
        return Ok(None);
    }
    Ok(Some(taken[taken.len() - 1]))
}

// Reads the number that the next bytes encode, at most `room` of them. Returns `None` if there is
// no byte.
#[tactic(auto, using(crate::proofs::LengthReading::length_none, crate::proofs::LengthReading::length_cut, crate::proofs::LengthReading::length_ends, crate::proofs::LengthReading::length_fails, crate::proofs::LengthReading::length_more, crate::proofs::LengthReading::length_within))]
pub(crate) fn read_length<R: BufRead>(
    reader: &mut R,
    taken: &mut Vec<u8>,
    room: u64,
) -> Result<Option<u64>, CarErrorKind>
    requires { taken.old.items ≡ [] }
    ensures consumed { Consumes (R.remaining reader.old) (R.remaining reader.new) taken.new.items }
    ensures within { length taken.new.items ≤ room }
    ensures read { ReadsLength room
        (R.remaining reader.old) (R.remaining reader.new) taken.new.items result }
{
    let mut value = 0;
    for place in 0..10 {
        let Some(byte) = take_byte(reader, taken, room)? else {
            return if place == 0 {
                Ok(None)
            } else {
                Err(CarErrorKind::UnexpectedEnd)
            };
        };
        if let Some(error) = error_at(place, byte) {
            return Err(error);
        }
        value |= u64::from(byte & 0x7f) << (7 * place);
        if byte < 0x80 {
            return Ok(Some(value));
        }
    }
    unreachable!()
}
