//! Reading values and fields.

ghost use Rattle.std.specs.Prelude.{◌≡◌, ◌<◌, ◌≤◌, ◌+◌, length, option_map, IfOk, IfSome, Ok, Err, MatchResult};
ghost use Rattle.pb_wire.specs.Reading as reading;

use crate::error::WireError;

// Returns whether a byte is too great after `place` bytes of a varint: ten bytes hold 64 bits.
#[inline(always)]
fn overflows(place: usize, byte: u8) -> bool
    ensures { result ≡ reading.exceeds place byte }
{
    place == 9 && byte > 1
}

/// Reads the varint at the front, and returns it with the bytes after it. Unlike a varint of
/// `ipld_cid`, a varint of Protocol Buffers may have more bytes than its number needs.
///
/// # Errors
///
/// `End` if the bytes end before the varint does. `VarintTooLarge` if it has more than ten bytes,
/// or encodes a number of 2^64 or more.
#[inline(always)]
pub fn read_varint(bytes: &[u8]) -> Result<(u64, &[u8]), WireError>
    ensures exact { MatchResult result
        (λ found. reading.read_varint bytes.now ≡ Ok (found.0, found.1.now))
        (λ error. reading.read_varint bytes.now ≡ Err error) }
    ensures shorter { IfOk result (λ found. length found.1.now < length bytes.now) }
{
    let mut value = 0;
    for (place, byte) in bytes.iter().enumerate() {
        if overflows(place, *byte) {
            return Err(WireError::VarintTooLarge);
        }
        value |= u64::from(*byte & 0x7f) << (7 * place);
        if *byte < 0x80 {
            return Ok((value, &bytes[place + 1..]));
        }
    }
    Err(WireError::End)
}

/// Reads the content after its length, and returns it with the bytes after it.
///
/// # Errors
///
/// Those of [`read_varint`] for the length. `End` if the bytes end before the content does.
#[tactic(auto, unfolding(crate::specs::Reading::read_content))]
#[inline(always)]
pub fn read_content(bytes: &[u8]) -> Result<(&[u8], &[u8]), WireError>
    ensures exact { MatchResult result
        (λ found. reading.read_content bytes.now ≡ Ok (found.0.now, found.1.now))
        (λ error. reading.read_content bytes.now ≡ Err error) }
    ensures shorter { IfOk result (λ found. length found.0.now + length found.1.now
        < length bytes.now) }
{
    let (size, rest) = read_varint(bytes)?;
    match rest.split_at_checked(size as usize) {
        Some((content, after)) => Ok((content, after)),
        None => Err(WireError::End),
    }
}

/// Reads the number of the first four bytes, the low one first, and returns it with the bytes after
/// them.
///
/// # Errors
///
/// `End` if there are fewer than four bytes.
#[tactic(auto, unfolding(crate::specs::Reading::read_fixed32))]
#[inline(always)]
pub fn read_fixed32(bytes: &[u8]) -> Result<(u32, &[u8]), WireError>
    ensures exact { MatchResult result
        (λ found. reading.read_fixed32 bytes.now ≡ Ok (found.0, found.1.now))
        (λ error. reading.read_fixed32 bytes.now ≡ Err error) }
    ensures shorter { IfOk result (λ found. length found.1.now < length bytes.now) }
{
    match bytes.split_first_chunk::<4>() {
        Some((number, rest)) => Ok((u32::from_le_bytes(*number), rest)),
        None => Err(WireError::End),
    }
}

/// Returns the bytes after this key, if the bytes begin with the key. Otherwise returns `None`, also
/// if the bytes are empty.
///
/// # Errors
///
/// Those of [`read_varint`] for the key that comes.
#[tactic(auto, unfolding(crate::specs::Reading::after_key))]
#[inline(always)]
pub fn strip_key(key: u64, bytes: &[u8]) -> Result<Option<&[u8]>, WireError>
    ensures exact { MatchResult result
        (λ found. reading.after_key key bytes.now ≡ Ok (option_map (λ rest. rest.now) found))
        (λ error. reading.after_key key bytes.now ≡ Err error) }
    ensures shorter { IfOk result (λ found. IfSome found (λ rest.
        length rest.now < length bytes.now)) }
{
    if bytes.is_empty() {
        return Ok(None);
    }
    let (found, rest) = read_varint(bytes)?;
    if found == key {
        Ok(Some(rest))
    } else {
        Ok(None)
    }
}

/// Reads the number of the field with this key, if the bytes begin with the key, and returns it with
/// the bytes after it. Otherwise returns `None` and all of the bytes.
///
/// # Errors
///
/// Those of [`read_varint`], for the key that comes or for the number.
#[tactic(auto, unfolding(crate::specs::Reading::number_field))]
#[inline(always)]
pub fn number_field(key: u64, bytes: &[u8]) -> Result<(Option<u64>, &[u8]), WireError>
    ensures exact { MatchResult result
        (λ found. reading.number_field key bytes.now ≡ Ok (found.0, found.1.now))
        (λ error. reading.number_field key bytes.now ≡ Err error) }
    ensures shorter { IfOk result (λ found. length found.1.now ≤ length bytes.now) }
{
    match strip_key(key, bytes)? {
        None => Ok((None, bytes)),
        Some(after) => {
            let (number, rest) = read_varint(after)?;
            Ok((Some(number), rest))
        }
    }
}

/// Reads the content of the field with this key, if the bytes begin with the key, and returns it
/// with the bytes after it. Otherwise returns `None` and all of the bytes.
///
/// # Errors
///
/// Those of [`read_varint`] for the key that comes, and those of [`read_content`].
#[tactic(auto, unfolding(crate::specs::Reading::content_field))]
#[inline(always)]
pub fn content_field(key: u64, bytes: &[u8]) -> Result<(Option<&[u8]>, &[u8]), WireError>
    ensures exact { MatchResult result
        (λ found. reading.content_field key bytes.now ≡ Ok
        (option_map (λ content. content.now) found.0, found.1.now))
        (λ error. reading.content_field key bytes.now ≡ Err error) }
    ensures shorter { IfOk result (λ found. length found.1.now ≤ length bytes.now) }
{
    match strip_key(key, bytes)? {
        None => Ok((None, bytes)),
        Some(after) => {
            let (content, rest) = read_content(after)?;
            Ok((Some(content), rest))
        }
    }
}

/// Reads the number of four bytes of the field with this key, if the bytes begin with the key, and
/// returns it with the bytes after it. Otherwise returns `None` and all of the bytes.
///
/// # Errors
///
/// Those of [`read_varint`] for the key that comes, and those of [`read_fixed32`].
#[tactic(auto, unfolding(crate::specs::Reading::fixed32_field))]
#[inline(always)]
pub fn fixed32_field(key: u64, bytes: &[u8]) -> Result<(Option<u32>, &[u8]), WireError>
    ensures exact { MatchResult result
        (λ found. reading.fixed32_field key bytes.now ≡ Ok (found.0, found.1.now))
        (λ error. reading.fixed32_field key bytes.now ≡ Err error) }
    ensures shorter { IfOk result (λ found. length found.1.now ≤ length bytes.now) }
{
    match strip_key(key, bytes)? {
        None => Ok((None, bytes)),
        Some(after) => {
            let (number, rest) = read_fixed32(after)?;
            Ok((Some(number), rest))
        }
    }
}
