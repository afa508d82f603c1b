//! A length and the bytes that it counts, at the front of bytes in memory.

ghost use Rattle.std.specs.Prelude.{◌≡◌, ◌≤◌, length, take, drop, Some, IfErr, IfOk, IfSome};
ghost use Rattle.ipld_car.specs.Lengths.{ReadsLength};
ghost use Rattle.ipld_car.specs.Framing.{ReadsFramed};
ghost use Rattle.ipld_car.specs.Taking.{IsOfReader};

use crate::error::CarErrorKind;
use crate::length::error_at;

// Returns how many bytes were looked at, and the number that they encode, or `None` if there is no
// byte.
#[tactic(auto, using(crate::proofs::LengthsInMemory::length_none_in, crate::proofs::LengthsInMemory::length_cut_in, crate::proofs::LengthsInMemory::own_length))]
fn length_in(bytes: &[u8]) -> (usize, Result<Option<u64>, CarErrorKind>)
    ensures within { result.0 ≤ length bytes.now }
    ensures read { ReadsLength (length bytes.now) (Some bytes.now) (Some (drop result.0 bytes.now))
        (take result.0 bytes.now) result.1 }
    ensures own { IfErr result.1 (λ kind. IsOfReader kind → ⊥) }
{
    let mut value = 0;
    for (place, byte) in bytes.iter().enumerate() {
        if let Some(error) = error_at(place, *byte) {
            return (place + 1, Err(error));
        }
        value |= u64::from(*byte & 0x7f) << (7 * place);
        if *byte < 0x80 {
            return (place + 1, Ok(Some(value)));
        }
    }
    if bytes.is_empty() {
        (0, Ok(None))
    } else {
        (bytes.len(), Err(CarErrorKind::UnexpectedEnd))
    }
}

// Returns how many bytes were looked at, and where among them the counted bytes begin, or `None` if
// there is no byte.
#[tactic(auto, using(crate::proofs::FramesInMemory::frame_done, crate::proofs::FramesInMemory::frame_short, crate::proofs::FramedReading::framed_none, crate::proofs::FramedReading::framed_no_length, crate::proofs::FramedReading::framed_empty, crate::proofs::FramedReading::framed_long))]
pub(crate) fn frame_in(bytes: &[u8], limit: u64) -> (usize, Result<Option<usize>, CarErrorKind>)
    ensures within { result.0 ≤ length bytes.now }
    ensures starts { IfOk result.1 (λ some. IfSome some (λ start. start ≤ result.0)) }
    ensures read { ReadsFramed limit (length bytes.now) (Some bytes.now)
        (Some (drop result.0 bytes.now)) (take result.0 bytes.now) result.1 }
    ensures own { IfErr result.1 (λ kind. IsOfReader kind → ⊥) }
{
    let (start, length) = length_in(bytes);
    let length = match length {
        Ok(Some(length)) => length,
        Ok(None) => return (start, Ok(None)),
        Err(kind) => return (start, Err(kind)),
    };
    if length == 0 {
        return (start, Err(CarErrorKind::Empty));
    }
    if length > limit {
        return (start, Err(CarErrorKind::TooLong(length)));
    }
    if length > (bytes.len() - start) as u64 {
        return (bytes.len(), Err(CarErrorKind::UnexpectedEnd));
    }
    (start + length as usize, Ok(Some(start)))
}
