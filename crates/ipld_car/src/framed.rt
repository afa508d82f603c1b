//! A length and the bytes that it counts.

ghost use Rattle.std.specs.Prelude.{◌≡◌, ◌≤◌, ◌<◌, ◌^◌, ◌≢◌, length};
ghost use Rattle.std.specs.Io.KnownBytes.{Consumes};
ghost use Rattle.ipld_car.specs.Framing as framing;
ghost use Rattle.ipld_car.specs.Framing.{ReadsFramed};

use crate::error::CarErrorKind;
use crate::fill::fill;
use crate::length::read_length;
use std::io::BufRead;

// Takes a varint and the bytes that it counts, which replace the contents of `taken`. Returns how
// many bytes the varint has, or `None` if there is no byte. Takes at most `room` bytes. If the
// length is over the limit, only the length is taken.
#[tactic(auto, using(crate::proofs::FramedReading::framed_consumed, crate::proofs::FramedReading::framed_none, crate::proofs::FramedReading::framed_no_length, crate::proofs::FramedReading::framed_empty, crate::proofs::FramedReading::framed_long, crate::proofs::FramedReading::framed_done, crate::proofs::FramedReading::framed_cut, crate::proofs::FramedReading::framed_over, crate::proofs::FramedReading::framed_fails, crate::proofs::FramedReading::framed_within))]
pub(crate) fn read_framed<R: BufRead>(
    reader: &mut R,
    taken: &mut Vec<u8>,
    limit: u64,
    room: u64,
) -> Result<Option<usize>, CarErrorKind>
    ensures consumed { Consumes (R.remaining reader.old) (R.remaining reader.new) taken.new.items }
    ensures within { length taken.new.items ≤ room }
    ensures read { ReadsFramed limit room
        (R.remaining reader.old) (R.remaining reader.new) taken.new.items result }
{
    taken.clear();
    let Some(length) = read_length(reader, taken, room)? else {
        return Ok(None);
    };
    if length == 0 {
        return Err(CarErrorKind::Empty);
    }
    if length > limit {
        return Err(CarErrorKind::TooLong(length));
    }
    let start = taken.len();
    let count = length.min(room - start as u64);
    if !fill(reader, taken, count as usize)? {
        return Err(CarErrorKind::UnexpectedEnd);
    }
    if count < length {
        return Err(CarErrorKind::UnexpectedEnd);
    }
    Ok(Some(start))
}

// The place of an error, of a length or of the bytes after it, in the bytes that were taken.
pub(crate) fn fault_place(kind: &CarErrorKind, taken: usize) -> u64
    ensures place { result ≡ framing.fault_place kind.now taken }
    ensures within { result ≤ taken }
{
    match kind {
        CarErrorKind::LengthNotShortest | CarErrorKind::LengthTooLarge => {
            (taken as u64).saturating_sub(1)
        }
        CarErrorKind::Empty | CarErrorKind::TooLong(_) => 0,
        _ => taken as u64,
    }
}
