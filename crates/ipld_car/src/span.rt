//! A section of a CAR in memory.

ghost use Rattle.std.specs.Prelude.{min, ◌≡◌, ◌≤◌, ◌<◌, ◌+◌, ◌-◌, ◌++◌, ◌^◌, List, ℕ, length, IfOk, IfErr, IfSome, IfNone, IsOkAnd, IsSomeAnd};
ghost use Rattle.ipld_car.specs.Fails.{Fails};
ghost use Rattle.ipld_car.specs.InMemory.{between, SpansSection, SpanFault};
ghost use Rattle.ipld_car.specs.InMemoryTaking.{SplitsSection};
ghost use Rattle.ipld_car.specs.Section.{Block, IsSection};

use crate::error::{CarError, CarErrorKind};
use crate::frame_in::frame_in;
use crate::framed::fault_place;
use crate::payload::short_payload;
use crate::read_section::section_error;
use ipld_cid::Cid;

/// The positions of a section's parts in the bytes of a CAR.
#[derive(Clone, Copy, Debug, PartialEq, Eq)]
pub struct SectionSpan {
    /// The byte at which the CID begins.
    pub cid: usize,
    /// The byte at which the CID ends, and the block begins.
    pub block: usize,
    /// The byte at which the block ends, and the next section begins.
    pub end: usize,
}

// The bytes from `at` up to `end`, as far as there are any.
fn window(car: &[u8], at: usize, end: usize) -> &[u8]
    requires { at ≤ end }
    ensures bytes { result.now ≡ between at end car.now }
    ensures fits { at + length result.now < 2 ^ 64 }
{
    let rest = &car[at.min(car.len())..];
    &rest[..rest.len().min(end - at)]
}

// Splits a section off the front of the bytes, the first of which has the offset `at`.
#[tactic(auto, using(crate::proofs::SectionsInMemory::split_none))]
fn split_section(bytes: &[u8], at: usize) -> Result<Option<SectionSpan>, CarError>
    requires { at + length bytes.now < 2 ^ 64 }
    ensures { SplitsSection bytes.now at result }
{
    let (taken, framed) = frame_in(bytes, u64::MAX);
    match framed {
        Ok(Some(start)) => match Cid::split_front(&bytes[start..taken]) {
            Ok((_, block)) => Ok(Some(SectionSpan {
                cid: at + start,
                block: at + (taken - block.len()),
                end: at + taken,
            })),
            Err(error) => Err(section_error(CarErrorKind::Cid(error), at as u64, start as u64)),
        },
        Ok(None) => Ok(None),
        Err(kind) => {
            let place = fault_place(&kind, taken);
            Err(section_error(kind, at as u64, place))
        }
    }
}

/// Returns the positions of the parts of the section that begins at the byte `at` of a CAR, which
/// is read up to the byte `end`. Returns `None` if `at` is `end` or comes after it. It copies
/// nothing, and does not allocate.
///
/// A [`CarReader`](crate::CarReader) of the same bytes has the numbers:
///
/// - Its [`start`](crate::CarReader::start) is the `start`.
/// - Its [`offset`](crate::CarReader::offset) is where the first section begins.
/// - Its [`end`](crate::CarReader::end) is the `end`. If that is `None`, as it is for version 1,
///   `end` is the number of bytes.
///
/// The next section begins at [`SectionSpan::end`]:
///
/// ```rust
/// let reader = CarReader::new(alloc, car, DEFAULT_LIMIT)?;
/// let start = reader.start() as usize;
/// let end = reader.end().unwrap_or(car.len() as u64) as usize;
/// let mut at = reader.offset() as usize;
/// while let Some(section) = section_at(car, start, at, end)? {
///     println!(rt; "{} bytes", section.end - section.block)?;
///     at = section.end;
/// }
/// ```
///
/// The lengths in an error count from `start`, or from `at` if that comes before it. You may pass
/// any numbers. The length of a section is limited only by the number of bytes.
///
/// # Errors
///
/// Those of a section in [`CarErrorKind`], except `Memory`, `Read` and `TooLong`. They have the
/// offset `at` of the section, and the offset of the error itself.
///
/// - `ShortPayload` if the bytes end before `end` and before the section does.
/// - `UnexpectedEnd` if `end` comes before the end of the section.
pub fn section_at(
    car: &[u8],
    start: usize,
    at: usize,
    end: usize,
) -> Result<Option<SectionSpan>, CarError>
    ensures found { IfOk result (λ some. IfSome some (λ span.
        (at < end) × ((block : Block) × SpansSection (between at end car.now) at block span))) }
    ensures inside { IfOk result (λ some. IfSome some (λ span.
        (at < span.cid) × (span.cid < span.block) × (span.block ≤ span.end)
        × (span.end ≤ end) × (span.end ≤ length car.now))) }
    ensures none { IfOk result (λ some. IfNone some (end ≤ at)) }
    ensures fault { IfErr result (λ error.
        (at < end)
        × Fails at
        (SpanFault (between at end car.now) (end - at) (end - min start at)
        (length car.now - min start at))
        error) }
    ensures only { (block : Block) (section rest : List ℕ)
        → at < end
        → between at end car.now ≡ section ++ rest
        → IsSection section block
        → IsOkAnd result (λ some. IsSomeAnd some (SpansSection (between at end car.now) at block)) }
{
    if at >= end {
        return Ok(None);
    }
    let start = start.min(at);
    let size = (end - start) as u64;
    let found = car.len().saturating_sub(start) as u64;
    match split_section(window(car, at, end), at) {
        Ok(Some(span)) => Ok(Some(span)),
        Ok(None) => {
            let kind = CarErrorKind::ShortPayload {
                expected: size,
                found,
            };
            Err(section_error(kind, at as u64, 0))
        }
        Err(error) => Err(short_payload(error, size, found)),
    }
}
