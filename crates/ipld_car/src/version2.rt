//! The part of version 2 before the payload.

ghost use Rattle.std.specs.Prelude.{◌≡◌, ◌↔◌, IsTrue, ◌≤◌, ◌<◌, ◌+◌, ◌^◌, length, drop, slice_range, MatchOption, MatchResult};
ghost use Rattle.std.specs.Int.{w64, from_le_bytes};
ghost use Rattle.ipld_car.specs.Version2.{pragma_block, HasNoPayload, PlacesPayload, SkipsPadding, TakesToPayload, FailsBeforePayload};

use crate::error::{CarError, CarErrorKind};
use crate::fill::fill;
use crate::read_section::section_error;
use std::io::BufRead;

// The block of the pragma: `{"version": 2}` in DAG-CBOR.
const PRAGMA: [u8; 10] = [0xa1, 0x67, 0x76, 0x65, 0x72, 0x73, 0x69, 0x6f, 0x6e, 0x02];

// The offset of the header.
const HEADER: u64 = 11;

// The number of bytes that are skipped at a time.
const PIECE: u64 = 4096;

// The offsets at which the payload begins and ends.
#[derive(Clone, Copy)]
pub(crate) struct Payload {
    pub(crate) start: u64,
    pub(crate) end: u64,
}

// Checks whether the block that begins at `start` is that of the pragma.
pub(crate) fn is_pragma(taken: &[u8], start: usize) -> bool
    requires { start ≤ length taken.now }
    ensures { IsTrue result ↔ (drop start taken.now ≡ pragma_block) }
{
    let block = &taken[start..];
    block == PRAGMA.as_slice()
}

// The number that eight bytes encode, the lowest byte first.
pub(crate) fn number_at(bytes: &[u8], place: usize) -> u64
    requires { place + 8 ≤ length bytes.now }
    ensures { result ≡ from_le_bytes w64 (slice_range bytes.now place (place + 8)) }
{
    let mut number = [0; 8];
    number.copy_from_slice(&bytes[place..place + 8]);
    u64::from_le_bytes(number)
}

// The position of the payload, by the 40 bytes of the header.
fn payload_of(header: &[u8]) -> Option<Payload>
    requires { length header.now ≡ 40 }
    ensures { MatchOption result (HasNoPayload header.now) (λ payload.
        PlacesPayload header.now payload.start payload.end) }
{
    let start = number_at(header, 16);
    let size = number_at(header, 24);
    if start < 51 {
        return None;
    }
    match start.checked_add(size) {
        Some(end) => Some(Payload { start, end }),
        None => None,
    }
}

// Skips `count` bytes, from offset 51 of the file on. It keeps a piece of them at a time.
#[tactic(auto, using(crate::proofs::Skipping::skips_none, crate::proofs::Skipping::skips_more, crate::proofs::Skipping::skips_all, crate::proofs::Skipping::fills_bounded))]
fn skip_padding<R: BufRead>(
    reader: &mut R,
    scratch: &mut Vec<u8>,
    count: u64,
) -> Result<(), CarError>
    requires fits { 51 + count < 2 ^ 64 }
    requires short { length scratch.old.items ≤ 4096 }
    ensures skips { SkipsPadding (R.remaining reader.old) (R.remaining reader.new) count result }
    ensures bounded { length scratch.new.items ≤ 4096 }
{
    let mut left = count;
    while left > 0 {
        scratch.clear();
        let piece = left.min(PIECE);
        match fill(reader, scratch, piece as usize) {
            Ok(true) => left -= piece,
            Ok(false) => {
                let place = 40 + (count - left) + scratch.len() as u64;
                return Err(section_error(CarErrorKind::UnexpectedEnd, HEADER, place));
            }
            Err(kind) => {
                let place = 40 + (count - left) + scratch.len() as u64;
                return Err(section_error(kind, HEADER, place));
            }
        }
    }
    Ok(())
}

// Reads the header after the pragma, and skips the bytes up to the payload.
#[tactic(auto, using(crate::proofs::Skipping::payload_reached, crate::proofs::Skipping::payload_cut, crate::proofs::Skipping::payload_fails, crate::proofs::Skipping::payload_nowhere))]
pub(crate) fn read_payload<R: BufRead>(
    reader: &mut R,
    taken: &mut Vec<u8>,
) -> Result<Payload, CarError>
    ensures { MatchResult result
        (λ payload. TakesToPayload (R.remaining reader.old) (R.remaining reader.new)
        payload.start payload.end)
        (FailsBeforePayload (R.remaining reader.old) (R.remaining reader.new)) }
{
    taken.clear();
    match fill(reader, taken, 40) {
        Ok(true) => {}
        Ok(false) => {
            let place = taken.len() as u64;
            return Err(section_error(CarErrorKind::UnexpectedEnd, HEADER, place));
        }
        Err(kind) => {
            let place = taken.len() as u64;
            return Err(section_error(kind, HEADER, place));
        }
    }
    let Some(payload) = payload_of(taken) else {
        return Err(section_error(CarErrorKind::Payload, HEADER, 16));
    };
    match skip_padding(reader, taken, payload.start - 51) {
        Ok(()) => Ok(payload),
        Err(error) => Err(error),
    }
}
