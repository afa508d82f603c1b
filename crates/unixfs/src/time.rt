//! Reading the message `UnixTime`.

ghost use Rattle.std.specs.Prelude.{◌≡◌, ◌≤◌, ◌<◌, ◌+◌, ◌^◌, length, option_map, IfSome, IfOk, IfErr, Ok, Err, MatchResult};
ghost use Rattle.unixfs.specs.Reading as reading;
ghost use Rattle.unixfs.specs.Views.{parts_of_time};

use crate::data::UnixTime;
use crate::error::{Fault, UnixFsErrorKind};
use crate::reader::{MTIME, read_bytes, read_number};
use pb_wire::{fixed32_field, read_varint};

// The keys of the fields of a time.
pub(crate) const SECONDS: u64 = 8;

pub(crate) const NANOSECONDS: u64 = 21;

// The nanoseconds of a second, less one.
pub(crate) const MAX_NANOSECONDS: u32 = 999_999_999;

// Returns the seconds of a field.
#[tactic(auto, unfolding(crate::specs::Reading::seconds_in))]
fn seconds_in(found: Option<u64>) -> Result<i64, UnixFsErrorKind>
    ensures { result ≡ reading.seconds_in found }
{
    match found {
        None => Err(UnixFsErrorKind::NoSeconds),
        Some(number) => Ok(number.cast_signed()),
    }
}

// Reads the seconds with which a time begins, and returns them with the bytes after them.
#[tactic(auto, unfolding(crate::specs::Reading::read_seconds))]
fn read_seconds(bytes: &[u8]) -> Result<(i64, &[u8]), Fault>
    ensures exact { MatchResult result
        (λ found. reading.read_seconds bytes.now ≡ Ok (found.0, found.1.now))
        (λ fault. reading.read_seconds bytes.now ≡ Err fault) }
    ensures shorter { IfOk result (λ found. length found.1.now ≤ length bytes.now) }
    ensures within { IfErr result (λ fault. fault.left ≤ length bytes.now) }
{
    let (found, rest) = read_number(SECONDS, bytes)?;
    match seconds_in(found) {
        Ok(seconds) => Ok((seconds, rest)),
        Err(kind) => Err(Fault {
            kind,
            left: bytes.len(),
        }),
    }
}

// Returns the nanoseconds of a field, or 0 without a field.
#[tactic(auto, unfolding(crate::specs::Reading::fraction_in))]
fn fraction_in(found: Option<u32>) -> Result<u32, UnixFsErrorKind>
    ensures { result ≡ reading.fraction_in found }
{
    match found {
        None => Ok(0),
        Some(count) => {
            if count == 0 || count > MAX_NANOSECONDS {
                return Err(UnixFsErrorKind::Nanoseconds(count));
            }
            Ok(count)
        }
    }
}

// Reads the nanoseconds, and returns them with the bytes after them.
#[tactic(auto, unfolding(crate::specs::Reading::read_fraction))]
fn read_fraction(bytes: &[u8]) -> Result<(u32, &[u8]), Fault>
    ensures exact { MatchResult result
        (λ found. reading.read_fraction bytes.now ≡ Ok (found.0, found.1.now))
        (λ fault. reading.read_fraction bytes.now ≡ Err fault) }
    ensures shorter { IfOk result (λ found. length found.1.now ≤ length bytes.now) }
    ensures within { IfErr result (λ fault. fault.left ≤ length bytes.now) }
{
    let (found, rest) = match fixed32_field(NANOSECONDS, bytes) {
        Ok(found) => found,
        Err(error) => return Err(Fault::of_wire(error, bytes.len())),
    };
    match fraction_in(found) {
        Ok(count) => Ok((count, rest)),
        Err(kind) => Err(Fault {
            kind,
            left: bytes.len(),
        }),
    }
}

// Checks that a time ends here. Otherwise returns the fault of the field that comes.
#[tactic(auto, unfolding(crate::specs::Reading::read_end))]
fn read_time_end(bytes: &[u8]) -> Result<(), Fault>
    ensures exact { result ≡ reading.read_end reading.is_time_key bytes.now }
    ensures within { IfErr result (λ fault. fault.left ≤ length bytes.now) }
{
    if bytes.is_empty() {
        return Ok(());
    }
    let kind = match read_varint(bytes) {
        Ok((SECONDS | NANOSECONDS, _)) => UnixFsErrorKind::FieldOrder,
        Ok((key, _)) => UnixFsErrorKind::UnknownField(key),
        Err(error) => UnixFsErrorKind::from(error),
    };
    Err(Fault {
        kind,
        left: bytes.len(),
    })
}

// Reads a time, whose message is all of the bytes.
#[tactic(auto, unfolding(crate::specs::Reading::read_time))]
fn read_time(bytes: &[u8]) -> Result<UnixTime, Fault>
    ensures exact { MatchResult result
        (λ time. reading.read_time bytes.now ≡ Ok (parts_of_time time))
        (λ fault. reading.read_time bytes.now ≡ Err fault) }
    ensures within { IfErr result (λ fault. fault.left ≤ length bytes.now) }
{
    let (seconds, rest) = read_seconds(bytes)?;
    let (nanoseconds, rest) = read_fraction(rest)?;
    read_time_end(rest)?;
    Ok(UnixTime {
        seconds,
        nanoseconds,
    })
}

// Reads the time of a field, with `after` bytes after it.
#[tactic(auto, unfolding(crate::specs::Reading::time_in))]
fn time_in(after: usize, found: Option<&[u8]>) -> Result<Option<UnixTime>, Fault>
    requires { IfSome found (λ c. length c.now + after < 2 ^ 64) }
    ensures { MatchResult result
        (λ time. reading.time_in after (option_map (λ c. c.now) found.entry)
        ≡ Ok (option_map parts_of_time time))
        (λ fault. reading.time_in after (option_map (λ c. c.now) found.entry) ≡ Err fault) }
{
    match found {
        None => Ok(None),
        Some(message) => match read_time(message) {
            Ok(time) => Ok(Some(time)),
            Err(fault) => Err(Fault {
                kind: fault.kind,
                left: fault.left + after,
            }),
        },
    }
}

// Reads the time, if one comes, and returns it with the bytes after it.
#[tactic(auto, unfolding(crate::specs::Reading::read_mtime))]
pub(crate) fn read_mtime(bytes: &[u8]) -> Result<(Option<UnixTime>, &[u8]), Fault>
    ensures { MatchResult result
        (λ found. reading.read_mtime bytes.now ≡ Ok (option_map parts_of_time found.0, found.1.now))
        (λ fault. reading.read_mtime bytes.now ≡ Err fault) }
{
    let (found, rest) = read_bytes(MTIME, bytes)?;
    let time = time_in(rest.len(), found)?;
    Ok((time, rest))
}
