//! The reading of an item's head: its major type and its argument (RFC 8949, section 3).

ghost use Rattle.std.specs.Prelude.{◌≡◌, ◌^◌, ◌/◌};
ghost use Rattle.std.specs.Int.{w16, w32, w64};
ghost use Rattle.dag_cbor_format.specs.HeadReading as reading;
ghost use Rattle.dag_cbor_format.specs.Errors as wrong;
ghost use Rattle.dag_cbor_format.specs.Parts.{Returns};

use crate::error::CborError;
use crate::major::Major;

// Returns the major type in the upper three bits of an item's first byte.
#[inline(always)]
fn major_of(first: u8) -> Major
    ensures { result ≡ reading.major_at (first / 32) }
{
    match first / 32 {
        0 => Major::Unsigned,
        1 => Major::Negative,
        2 => Major::Bytes,
        3 => Major::Text,
        4 => Major::List,
        5 => Major::Map,
        6 => Major::Tag,
        _ => Major::Simple,
    }
}

// Rejects an argument below `least`, which has a shorter form.
#[inline(always)]
fn argument_at_least(least: u64, argument: u64, rest: &[u8]) -> Result<(u64, &[u8]), CborError>
    ensures { Returns (λ x. (x.0, x.1.now)) CborError.NotShortest result
        (reading.at_least least argument rest.now) }
{
    if argument < least {
        return Err(CborError::NotShortest);
    }
    Ok((argument, rest))
}

#[inline(always)]
fn read_byte(bytes: &[u8]) -> Result<(u64, &[u8]), CborError>
    ensures { Returns (λ x. (x.0, x.1.now)) (wrong.byte_error bytes.now) result
        (reading.read_byte bytes.now) }
{
    match bytes {
        [] => Err(CborError::End),
        [argument, rest @ ..] => argument_at_least(24, u64::from(*argument), rest),
    }
}

#[inline(always)]
fn read_two_bytes(bytes: &[u8]) -> Result<(u64, &[u8]), CborError>
    ensures { Returns (λ x. (x.0, x.1.now)) (wrong.wide_error w16 bytes.now) result
        (reading.read_wide w16 (2 ^ 8) bytes.now) }
{
    let Some((argument, rest)) = bytes.split_first_chunk::<2>() else {
        return Err(CborError::End);
    };
    argument_at_least(1 << 8, u64::from(u16::from_be_bytes(*argument)), rest)
}

#[inline(always)]
fn read_four_bytes(bytes: &[u8]) -> Result<(u64, &[u8]), CborError>
    ensures { Returns (λ x. (x.0, x.1.now)) (wrong.wide_error w32 bytes.now) result
        (reading.read_wide w32 (2 ^ 16) bytes.now) }
{
    let Some((argument, rest)) = bytes.split_first_chunk::<4>() else {
        return Err(CborError::End);
    };
    argument_at_least(1 << 16, u64::from(u32::from_be_bytes(*argument)), rest)
}

#[inline(always)]
fn read_eight_bytes(bytes: &[u8]) -> Result<(u64, &[u8]), CborError>
    ensures { Returns (λ x. (x.0, x.1.now)) (wrong.wide_error w64 bytes.now) result
        (reading.read_wide w64 (2 ^ 32) bytes.now) }
{
    let Some((argument, rest)) = bytes.split_first_chunk::<8>() else {
        return Err(CborError::End);
    };
    argument_at_least(1 << 32, u64::from_be_bytes(*argument), rest)
}

// Reads the argument by the lower five bits (the additional information) of an item's first byte.
#[tactic(auto, unfolding(crate::specs::HeadReading::read_argument, crate::specs::Errors::argument_error))]
#[inline(always)]
fn read_argument(additional: u8, bytes: &[u8]) -> Result<(u64, &[u8]), CborError>
    ensures { Returns (λ x. (x.0, x.1.now)) (wrong.argument_error additional bytes.now) result
        (reading.read_argument additional bytes.now) }
{
    if additional < 24 {
        return Ok((u64::from(additional), bytes));
    }
    match additional {
        24 => read_byte(bytes),
        25 => read_two_bytes(bytes),
        26 => read_four_bytes(bytes),
        27 => read_eight_bytes(bytes),
        _ => Err(CborError::Unsupported),
    }
}

// Reads the argument of a simple value, which is in the first byte. Floats have major type 7 too.
#[inline(always)]
fn read_simple(additional: u8, bytes: &[u8]) -> Result<(u64, &[u8]), CborError>
    ensures { Returns (λ x. (x.0, x.1.now)) (wrong.simple_error additional) result
        (reading.argument_of Major.Simple additional bytes.now) }
{
    match additional {
        0..24 => Ok((u64::from(additional), bytes)),
        25..=27 => Err(CborError::Float),
        _ => Err(CborError::Unsupported),
    }
}

#[inline(always)]
fn argument_of(major: Major, additional: u8, bytes: &[u8]) -> Result<(u64, &[u8]), CborError>
    ensures { Returns (λ x. (x.0, x.1.now)) (wrong.error_of_argument major additional bytes.now)
        result (reading.argument_of major additional bytes.now) }
{
    match major {
        Major::Simple => read_simple(additional, bytes),
        _ => read_argument(additional, bytes),
    }
}

// Reads a head by its bits, without a comparison with its encoding.
#[tactic(auto, unfolding(crate::specs::HeadReading::read_head, crate::specs::Errors::head_error))]
#[inline(always)]
fn read_any_head(bytes: &[u8]) -> Result<(Major, u64, &[u8]), CborError>
    ensures { Returns (λ x. (x.0, x.1, x.2.now)) (wrong.head_error bytes.now) result
        (reading.read_head bytes.now) }
{
    let [first, rest @ ..] = bytes else {
        return Err(CborError::End);
    };
    let major = major_of(*first);
    let (argument, rest) = argument_of(major, *first % 32, rest)?;
    Ok((major, argument, rest))
}

/// Reads the major type and the argument at the front of the bytes, and returns them with the bytes
/// after them. Does not allocate.
///
/// # Errors
///
/// - `End` if the bytes end within the head.
/// - `NotShortest` if the argument is not in its shortest form.
/// - `Float` for the head of a float.
/// - `Unsupported` for an indefinite length, for a simple value in a second byte, and for a head
///   that RFC 8949 reserves.
#[inline(always)]
pub fn read_head(bytes: &[u8]) -> Result<(Major, u64, &[u8]), CborError>
    ensures { Returns (λ x. (x.0, x.1, x.2.now)) (wrong.head_error bytes.now) result
        (reading.head_at bytes.now) }
{
    read_any_head(bytes)
}
