//! The part before the sections, of a CAR of which a part is at hand.

ghost use Rattle.std.specs.Prelude.{◌≡◌, ◌≤◌, ◌<◌, ◌^◌, ◌++◌, List, ℕ, Some, length, map, MatchOption, IfSome};
ghost use Rattle.ipld_cid.specs.Cid.{Link};
ghost use Rattle.ipld_cid.specs.LinkOf.{link_of};
ghost use Rattle.ipld_car.specs.Opening.{IsFront};
ghost use Rattle.ipld_car.specs.Position.{FaultOf};
ghost use Rattle.ipld_car.specs.Taking.{IsReaderError};
ghost use Rattle.ipld_car.specs.Version2.{pragma, EndsBeforePayload};
ghost use Rattle.ipld_car.specs.declared.version.CarVersion as versions;
ghost use Rattle.kombilad_c.specs.Car.{version_number};
ghost use Rattle.kombilad_c.specs.CidRecord.{record_of};
ghost use Rattle.kombilad_c.specs.Fill.{Fills};
ghost use Rattle.kombilad_c.specs.CarPart.{Continues, NeedsFront, NeedsPayload, OpensPart, OpensAtAs};

use crate::car_place::{CarPlace, missing};
use crate::cid_record::CidBytes;
use crate::status::{CAR_MORE, OK, TOO_SHORT, car_status};
use ipld_car::{CarError, CarErrorKind, CarReader, CarVersion, HEADER_END};
use ipld_cid::Cid;
use std::alloc::Global;

// Returns the number of a version.
fn number_of(version: CarVersion) -> u64
    ensures { result ≡ version_number version }
{
    match version {
        CarVersion::V1 => 1,
        CarVersion::V2 => 2,
    }
}

// Writes the CIDs to the beginning of the buffer if they fit. Sets `needed` to their number in
// either case.
fn fill_roots(cids: &[Cid], buffer: &mut [CidBytes], needed: &mut usize) -> u32
    ensures { Fills (map (λ cid. record_of (link_of cid)) cids.now) result buffer.old buffer.new
        needed.new }
{
    *needed = cids.len();
    if buffer.len() < cids.len() {
        return TOO_SHORT;
    }
    for (at, cid) in cids.iter().enumerate() {
        buffer[at] = CidBytes::of(cid);
    }
    OK
}

// Returns how many more bytes the header of version 2 or its padding needs.
fn missing_before_payload(car: &[u8]) -> u64
    ensures { (got : List ℕ) → car.now ≡ pragma ++ got
        → EndsBeforePayload got → NeedsPayload got result }
{
    if car.len() < HEADER_END {
        return (HEADER_END - car.len()) as u64;
    }
    let mut start = [0; 8];
    start.copy_from_slice(&car[27..35]);
    u64::from_le_bytes(start).saturating_sub(car.len() as u64)
}

// Returns how many more bytes the part before the sections needs, by the error of reading it from
// these. Returns `None` if the error is that of any CAR that begins with these bytes.
fn missing_in_front(car: &[u8], is_all: u32, error: &CarError) -> Option<u64>
    ensures needs { (limit : ℕ) → FaultOf limit (Some car.now) error.now → MatchOption result
        ((whole : List ℕ) → Continues 0 car.now is_all whole
        → FaultOf limit (Some whole) error.now)
        (λ number. (is_all ≡ 0) × NeedsFront limit car.now number) }
    ensures cut { IfSome result (λ number. IsReaderError error.now.kind → ⊥) }
{
    if is_all != 0 {
        return None;
    }
    match error.kind {
        CarErrorKind::UnexpectedEnd => {
            if error.section == 0 {
                return Some(missing(car, u64::MAX));
            }
            if error.section < 51 {
                return Some(missing_before_payload(car));
            }
            // The payload ends, by the header of version 2.
            None
        }
        CarErrorKind::ShortPayload { expected, .. } => {
            let start = car.len().min(error.section as usize);
            Some(missing(&car[start..], expected))
        }
        _ => None,
    }
}

/// Reads the part of a CAR before its sections, and lists the roots. The CAR begins with `bytes`,
/// and ends with them unless `is_all` is 0. A header or its pragma has at most `limit` bytes.
#[unsafe(no_mangle)]
pub extern "C" fn kombilad_car_open_part(
    alloc: Global,
    bytes: &[u8],
    is_all: u32,
    limit: usize,
    place: &mut CarPlace,
    roots: &mut [CidBytes],
    needed: &mut usize,
    more: &mut u64,
    offset: &mut u64,
) -> u32
    ensures exact { OpensPart limit is_all bytes.now result
        (record { before = place.old; after = place.new })
        (record { before = roots.old; after = roots.new })
        (record { before = needed.old; after = needed.new })
        (record { before = more.old; after = more.new })
        (record { before = offset.old; after = offset.new }) }
    ensures only { (version : versions.CarVersion) (front rest : List ℕ) (links : List Link)
        (start end : ℕ) → bytes.now ≡ front ++ rest
        → IsFront limit version front links start end → length front ≤ end → end < 2 ^ 64
        → OpensAtAs links
        (record { version = version_number version; at = length front; end = end })
        result place.new (record { before = roots.old; after = roots.new }) needed.new }
{
    match CarReader::new(alloc, bytes, limit as u64) {
        Ok(reader) => {
            *place = CarPlace {
                version: number_of(reader.version()),
                at: reader.offset(),
                end: reader.end().unwrap_or(u64::MAX),
            };
            fill_roots(reader.roots(), roots, needed)
        }
        Err(error) => match missing_in_front(bytes, is_all, &error) {
            Some(number) => {
                *more = number;
                CAR_MORE
            }
            None => {
                *offset = error.offset;
                car_status(error.kind)
            }
        },
    }
}
