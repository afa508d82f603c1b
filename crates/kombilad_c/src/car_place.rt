//! A place in a CAR, and a length at the front of bytes.

ghost use Rattle.std.specs.Prelude.{◌≡◌, ◌≤◌, ◌<◌, ℕ, length, MatchOption};
ghost use Rattle.ipld_cid.specs.Varint as varint;
ghost use Rattle.ipld_car.specs.Framing.{IsCut};
ghost use Rattle.kombilad_c.specs.CarLength.{HasLength, HasNoLength, IsWithin, IsOver};
ghost use Rattle.kombilad_c.specs.CarPart.{NeedsMore};

use ipld_cid::CidError;

/// The place of the next section of a CAR.
#[repr(C)]
#[derive(Clone, Copy)]
pub struct CarPlace {
    /// The version, 1 or 2.
    pub version: u64,
    /// The byte of the CAR at which the next section begins.
    pub at: u64,
    /// The byte at which the last section ends, by the header of version 2. For version 1, whose
    /// sections end with the CAR, it is 2^64 - 1.
    pub end: u64,
}

// Returns the error of a byte that comes after `place` bytes of a varint.
fn error_at(place: usize, byte: u8) -> Option<CidError>
    ensures { result ≡ varint.error_at place byte }
{
    if place == 9 && byte > 1 {
        Some(CidError::VarintTooLarge)
    } else if place > 0 && byte == 0 {
        Some(CidError::NotShortest)
    } else {
        None
    }
}

// Returns the number that the varint at the front encodes, and the number of its bytes. Returns
// `None` if the bytes end within it, or are not a varint.
fn length_in(bytes: &[u8]) -> Option<(u64, usize)>
    ensures { MatchOption result (HasNoLength bytes.now)
        (λ found. HasLength bytes.now found.0 found.1) }
{
    let mut value = 0;
    for (place, byte) in bytes.iter().enumerate() {
        if let Some(_error) = error_at(place, *byte) {
            return None;
        }
        value |= u64::from(*byte & 0x7f) << (7 * place);
        if *byte < 0x80 {
            return Some((value, place + 1));
        }
    }
    None
}

// Returns the length at the front if it is above the limit.
#[tactic(auto, using(crate::proofs::CarLengths::within_found, crate::proofs::CarLengths::within_none, crate::proofs::CarLengths::over_found))]
pub(crate) fn length_over(bytes: &[u8], limit: u64) -> Option<u64>
    ensures { MatchOption result (IsWithin limit bytes.now)
        (IsOver limit bytes.now) }
{
    match length_in(bytes) {
        Some((number, _)) => { if number > limit { Some(number) } else { None } }
        None => None,
    }
}

// Returns how many more bytes a header or a section needs at least, of which these are too few.
// There should be `room` bytes.
#[tactic(auto, using(crate::proofs::CarLengths::missing_found, crate::proofs::CarLengths::missing_none))]
pub(crate) fn missing(bytes: &[u8], room: u64) -> u64
    ensures { (limit : ℕ) → IsCut limit bytes.now → length bytes.now < room
        → NeedsMore limit room bytes.now result }
{
    match length_in(bytes) {
        Some((number, count)) => {
            let end = number.saturating_add(count as u64).min(room);
            end.saturating_sub(bytes.len() as u64)
        }
        None => 1,
    }
}
