//! The beginning of an item, and the content after its head.
//!
//! Every function reads from the front of bytes, borrows the part that it read, and returns the
//! bytes after it. It does not allocate.

ghost use Rattle.std.specs.Prelude.{◌≡◌, Some, nat_lt};
ghost use Rattle.std.specs.List.{list_all};
ghost use Rattle.dag_cbor_format.specs.ItemHeader as reading;
ghost use Rattle.dag_cbor_format.specs.Errors as wrong;
ghost use Rattle.dag_cbor_format.specs.Floats as floats;
ghost use Rattle.dag_cbor_format.specs.LinkBytes.{behind_zero, link_bytes_after, link_bytes_at};
ghost use Rattle.dag_cbor_format.specs.Parts.{Returns, beginning_of};

use crate::error::CborError;
use crate::head::read_head;
use crate::major::Major;
use ipld_tokens::{Token, TokenBytes};
use simdutf8::basic::from_utf8;
use std::str;

/// The tag of a link.
pub const LINK_TAG: u64 = 42;

/// The byte that is the head of a 64-bit float.
pub const FLOAT: u8 = 251;

// A shorter text string is first searched for a byte that is not ASCII, and only then checked.
const SHORT: usize = 16;

// A text string of at least this many bytes is checked 64 bytes at a time.
const LONG: usize = 64;

/// The beginning of an item, in the terms of tokens.
#[derive(Drop)]
pub enum ItemHeader<'a> {
    /// A scalar, a string or bytes, complete.
    Scalar(Token<'a>),
    /// A list with this number of items.
    List(u64),
    /// A map with this number of entries.
    Map(u64),
    /// A link, whose tag was read.
    Link,
}

/// Reads `length` bytes, and returns them with the bytes after them.
///
/// # Errors
///
/// `End` if there are fewer bytes.
#[tactic(auto, unfolding(crate::specs::ItemHeader::front))]
#[inline(always)]
pub fn read_bytes(length: u64, bytes: &[u8]) -> Result<(&[u8], &[u8]), CborError>
    ensures { Returns (λ x. (x.0.now, x.1.now)) CborError.End result
        (reading.front length bytes.now) }
{
    bytes
        .split_at_checked(length as usize)
        .ok_or(CborError::End)
}

#[inline(always)]
fn is_ascii(bytes: &[u8]) -> bool
    ensures { result ≡ list_all (λ b. nat_lt b 128) bytes.now }
{
    bytes.iter().all(|byte| *byte < 128)
}

/// Returns whether eight bytes are those of a float that is finite and not NaN: the eleven bits of
/// the exponent are not all ones.
#[inline(always)]
pub fn is_finite(content: &[u8]) -> bool
    ensures { result ≡ floats.is_finite content.now }
{
    match content {
        [first, second, ..] => u16::from(*first % 128) * 16 + u16::from(*second / 16) != 2047,
        _ => true,
    }
}

/// Reads the content of a text string of `length` bytes, and returns it with the bytes after it.
///
/// # Errors
///
/// `End` if there are fewer bytes. `Utf8` if they are not UTF-8.
#[inline(always)]
pub fn read_text(length: u64, bytes: &[u8]) -> Result<(&str, &[u8]), CborError>
    ensures { Returns (λ x. (x.0.now, x.1.now)) (wrong.text_error (reading.front length bytes.now))
        result (reading.if_text (reading.front length bytes.now)) }
{
    let (text, rest) = read_bytes(length, bytes)?;
    if text.len() < SHORT && is_ascii(text) {
        return Ok((unsafe { str::from_utf8_unchecked(text) }, rest));
    }
    if text.len() >= LONG {
        return match from_utf8(text) {
            Ok(text) => Ok((text, rest)),
            Err(_) => Err(CborError::Utf8),
        };
    }
    match str::from_utf8(text) {
        Ok(text) => Ok((text, rest)),
        Err(_) => Err(CborError::Utf8),
    }
}

#[inline(always)]
fn bytes_header(length: u64, bytes: &[u8]) -> Result<(ItemHeader<'_>, &[u8]), CborError>
    ensures { Returns (λ x. (beginning_of x.0, x.1.now)) CborError.End result (reading.bytes_scalar
        (reading.front length bytes.now)) }
{
    let (bytes, rest) = read_bytes(length, bytes)?;
    Ok((
        ItemHeader::Scalar(Token::Bytes(TokenBytes::Lent(bytes))),
        rest,
    ))
}

#[inline(always)]
fn text_header(length: u64, bytes: &[u8]) -> Result<(ItemHeader<'_>, &[u8]), CborError>
    ensures { Returns (λ x. (beginning_of x.0, x.1.now))
        (wrong.text_error (reading.front length bytes.now)) result
        (reading.text_scalar (reading.if_text (reading.front length bytes.now))) }
{
    let (text, rest) = read_text(length, bytes)?;
    Ok((ItemHeader::Scalar(Token::Str(text)), rest))
}

#[inline(always)]
fn simple_header(value: u64, rest: &[u8]) -> Result<(ItemHeader<'_>, &[u8]), CborError>
    ensures { Returns (λ x. (beginning_of x.0, x.1.now)) CborError.Unsupported result
        (reading.simple_at value rest.now) }
{
    match value {
        20 => Ok((ItemHeader::Scalar(Token::Bool(false)), rest)),
        21 => Ok((ItemHeader::Scalar(Token::Bool(true)), rest)),
        22 => Ok((ItemHeader::Scalar(Token::None), rest)),
        _ => Err(CborError::Unsupported),
    }
}

#[inline(always)]
fn tag_header(tag: u64, rest: &[u8]) -> Result<(ItemHeader<'_>, &[u8]), CborError>
    ensures { Returns (λ x. (beginning_of x.0, x.1.now)) CborError.Unsupported result
        (reading.item_header_after Major.Tag tag rest.now) }
{
    if tag == LINK_TAG {
        Ok((ItemHeader::Link, rest))
    } else {
        Err(CborError::Unsupported)
    }
}

#[inline(always)]
fn header_of(major: Major, argument: u64, rest: &[u8]) -> Result<(ItemHeader<'_>, &[u8]), CborError>
    ensures { Returns (λ x. (beginning_of x.0, x.1.now)) (wrong.item_error major argument rest.now)
        result (reading.item_header_after major argument rest.now) }
{
    match major {
        Major::Unsigned => Ok((ItemHeader::Scalar(Token::Int(i128::from(argument))), rest)),
        Major::Negative => Ok((
            ItemHeader::Scalar(Token::Int(-1 - i128::from(argument))),
            rest,
        )),
        Major::Bytes => bytes_header(argument, rest),
        Major::Text => text_header(argument, rest),
        Major::List => Ok((ItemHeader::List(argument), rest)),
        Major::Map => Ok((ItemHeader::Map(argument), rest)),
        Major::Tag => tag_header(argument, rest),
        Major::Simple => simple_header(argument, rest),
    }
}

/// Reads the beginning of an item that is not a float, and returns it with the bytes after it.
///
/// # Errors
///
/// - Those of [`read_head`].
/// - `End` and `Utf8` for the content of the item.
/// - `Unsupported` for a tag that is not the tag of a link, and for a simple value other than
///   false, true and null.
#[tactic(auto, unfolding(crate::specs::ItemHeader::item_header_at, crate::specs::Errors::item_header_error))]
#[inline(always)]
pub fn read_header(bytes: &[u8]) -> Result<(ItemHeader<'_>, &[u8]), CborError>
    ensures { Returns (λ x. (beginning_of x.0, x.1.now)) (wrong.item_header_error bytes.now) result
        (reading.item_header_at bytes.now) }
{
    let (major, argument, rest) = read_head(bytes)?;
    header_of(major, argument, rest)
}

#[inline(always)]
fn key_text(major: Major, argument: u64, rest: &[u8]) -> Result<(&str, &[u8]), CborError>
    ensures { Returns (λ x. (x.0.now, x.1.now)) (wrong.text_key_error major argument rest.now)
        result (reading.text_after major argument rest.now) }
{
    match major {
        Major::Text => read_text(argument, rest),
        _ => Err(CborError::KeyNotText),
    }
}

/// Reads the text string of a key, and returns it with the bytes after it.
///
/// # Errors
///
/// Those of [`read_head`], `KeyNotText` for another item, and `End` and `Utf8` for the content of
/// the string.
#[tactic(auto, unfolding(crate::specs::ItemHeader::key_at, crate::specs::Errors::key_error))]
#[inline(always)]
pub fn read_key_text(bytes: &[u8]) -> Result<(&str, &[u8]), CborError>
    ensures { Returns (λ x. (x.0.now, x.1.now)) (wrong.key_error bytes.now) result
        (reading.key_at bytes.now) }
{
    let (major, argument, rest) = read_head(bytes)?;
    key_text(major, argument, rest)
}

// Returns the bytes of a CID, which follow a zero byte.
#[inline(always)]
fn strip_zero<'a>(content: &'a [u8], rest: &'a [u8]) -> Result<(&'a [u8], &'a [u8]), CborError>
    ensures { Returns (λ x. (x.0.now, x.1.now)) CborError.LinkBytes result
        (behind_zero (Some (content.entry.now, rest.entry.now))) }
{
    match content {
        [0, encoded @ ..] => Ok((encoded, rest)),
        _ => Err(CborError::LinkBytes),
    }
}

#[inline(always)]
fn link_content(major: Major, argument: u64, rest: &[u8]) -> Result<(&[u8], &[u8]), CborError>
    ensures { Returns (λ x. (x.0.now, x.1.now)) (wrong.bytes_error major argument rest.now) result
        (link_bytes_after major argument rest.now) }
{
    match major {
        Major::Bytes => {
            let (content, rest) = read_bytes(argument, rest)?;
            strip_zero(content, rest)
        }
        _ => Err(CborError::LinkBytes),
    }
}

/// Reads the byte string after the tag of a link, and returns the bytes of the CID with the bytes
/// after them. It does not decode the CID.
///
/// # Errors
///
/// - Those of [`read_head`].
/// - `LinkBytes` if the next item is not a byte string, or the byte string does not begin with a
///   zero byte.
/// - `End` if the byte string is cut short.
#[tactic(auto, unfolding(crate::specs::LinkBytes::link_bytes_at, crate::specs::Errors::link_error))]
#[inline(always)]
pub fn read_link_bytes(bytes: &[u8]) -> Result<(&[u8], &[u8]), CborError>
    ensures { Returns (λ x. (x.0.now, x.1.now)) (wrong.link_error bytes.now) result
        (link_bytes_at bytes.now) }
{
    let (major, argument, rest) = read_head(bytes)?;
    link_content(major, argument, rest)
}
