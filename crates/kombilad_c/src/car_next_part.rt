//! The next section of a CAR of which a part is at hand.

ghost use Rattle.std.specs.Prelude.{◌≡◌, ◌≤◌, ◌<◌, length, IfErr, IfOk};
ghost use Rattle.ipld_car.specs.InMemory.{SpansSection};
ghost use Rattle.ipld_car.specs.Section.{Block, content_of};
ghost use Rattle.kombilad_c.specs.CarPart as part;
ghost use Rattle.kombilad_c.specs.CarPart.{LimitFault, FindsPart, found};

use crate::car_place::{CarPlace, length_over, missing};
use crate::positions::Span;
use crate::status::{CAR_DONE, CAR_MORE, OK, car_status};
use ipld_car::{CarError, CarErrorKind, SectionSpan, section_at};

// Returns the byte at which the sections end by the header, or the last byte that one can have.
fn open_end(place: &CarPlace) -> u64
    ensures { result ≡ part.open_end place.now.version place.now.end }
{
    if place.version == 1 {
        u64::MAX
    } else {
        place.end
    }
}

// Finds the section at the front of the bytes. Its CID and its block have at most `limit` bytes.
// There should be `room` bytes.
#[tactic(auto, using(crate::proofs::CarParts::fault_within, crate::proofs::CarParts::place_at_front, crate::proofs::CarParts::content_within))]
fn section_within(bytes: &[u8], limit: u64, room: u64) -> Result<SectionSpan, CarError>
    requires some { 0 < room }
    requires within { length bytes.now ≤ room }
    ensures found { IfOk result (λ span. (block : Block)
        × SpansSection bytes.now 0 block span × (length (content_of block) ≤ limit)) }
    ensures inside { IfOk result (λ span. (span.cid < span.block) × (span.block ≤ span.end)
        × (span.end ≤ length bytes.now)) }
    ensures fault { IfErr result (λ error. LimitFault limit bytes.now room error.kind error.offset) }
    ensures place { IfErr result (λ error. error.offset ≤ length bytes.now) }
{
    if let Some(number) = length_over(bytes, limit) {
        return Err(CarError {
            kind: CarErrorKind::TooLong(number),
            section: 0,
            offset: 0,
        });
    }
    match section_at(bytes, 0, 0, room as usize) {
        Ok(Some(span)) => Ok(span),
        Ok(None) => unreachable!(),
        Err(error) => Err(error),
    }
}

/// Finds the section that begins at the byte `place.at` of a CAR. `bytes` are those of the CAR from
/// there on, and all of them unless `is_all` is 0.
#[unsafe(no_mangle)]
pub extern "C" fn kombilad_car_next_part(
    bytes: &[u8],
    is_all: u32,
    limit: usize,
    place: &mut CarPlace,
    cid: &mut Span,
    block: &mut Span,
    more: &mut u64,
    offset: &mut u64,
) -> u32
    ensures kept { (place.new.version ≡ place.old.version) × (place.new.end ≡ place.old.end) }
    ensures exact { FindsPart limit is_all bytes.now result
        (record {
          before = found place.old.at place.old cid.old block.old more.old offset.old;
          after = found place.old.at place.new cid.new block.new more.new offset.new;
        }) }
{
    let end = open_end(place);
    if place.at >= end {
        return CAR_DONE;
    }
    let room = end - place.at;
    let window = &bytes[..bytes.len().min(room as usize)];
    match section_within(window, limit as u64, room) {
        Ok(span) => {
            *cid = Span {
                offset: span.cid,
                len: span.block - span.cid,
            };
            *block = Span {
                offset: span.block,
                len: span.end - span.block,
            };
            place.at += span.end as u64;
            OK
        }
        Err(error) => match error.kind {
            CarErrorKind::ShortPayload { expected, found } => {
                if is_all == 0 {
                    *more = missing(window, room);
                    return CAR_MORE;
                }
                if place.version != 1 {
                    *offset = place.at + error.offset;
                    return car_status(CarErrorKind::ShortPayload { expected, found });
                }
                // The sections of version 1 end where the CAR does.
                if bytes.is_empty() {
                    return CAR_DONE;
                }
                *offset = place.at + error.offset;
                car_status(CarErrorKind::UnexpectedEnd)
            }
            kind => {
                *offset = place.at + error.offset;
                car_status(kind)
            }
        },
    }
}
