//! The item at the front of bytes, for code that walks a block by itself.
//!
//! A block is walked item by item. After the head of a list come its items, and after the head of a
//! map come its entries. An entry is a key and then a value.

ghost use Rattle.std.specs.Prelude.{◌≡◌, ◌<◌, false, length, IfOk, IfErr};
ghost use Rattle.dag_cbor_format.specs.Floats.{has_float_head};
ghost use Rattle.dag_cbor_format.specs.ItemHeads.{BeginsWith, BeginsWithFloat, BeginsWithKey, Continues, RejectsItem, RejectsFloat, RejectsKey};

use crate::error::CborError;
use crate::head::read_head;
use crate::item_header::{
    self, FLOAT, LINK_TAG, is_finite, read_bytes, read_link_bytes, read_text,
};
use crate::major::Major;

/// The beginning of an item. It is the whole item, unless that is a list or a map. Strings and
/// bytes are borrowed.
#[derive(Clone, Copy, Debug)]
pub enum ItemHead<'a> {
    /// Null.
    Null,
    /// False or true.
    Bool(bool),
    /// An integer, from -2^64 to 2^64 - 1.
    Integer(i128),
    /// A float of 64 bits, as its bits. It is neither NaN nor an infinity.
    Float(u64),
    /// A text string.
    Str(&'a str),
    /// A byte string.
    Bytes(&'a [u8]),
    /// A link, with the bytes that have to be a CID. They are not decoded.
    Link(&'a [u8]),
    /// A list with this number of items.
    List(u64),
    /// A map with this number of entries.
    Map(u64),
}

// Reads the bits of a float, after the byte that is its head, and returns them with the bytes after
// them.
fn read_float(bytes: &[u8]) -> Result<(u64, &[u8]), CborError>
    ensures found { IfOk result (λ read. BeginsWithFloat read.0 bytes.now read.1.now) }
    ensures shorter { IfOk result (λ read. length read.1.now < length bytes.now) }
    ensures rejected { IfErr result (λ error. RejectsFloat error bytes.now) }
{
    let Some((content, rest)) = bytes.split_first_chunk::<8>() else {
        return Err(CborError::End);
    };
    if !is_finite(content) {
        return Err(CborError::Float);
    }
    Ok((u64::from_be_bytes(*content), rest))
}

// Reads the content after the head of an item that is not a float.
#[inline(always)]
fn read_content(
    major: Major,
    argument: u64,
    rest: &[u8],
) -> Result<(ItemHead<'_>, &[u8]), CborError>
    ensures { Continues major argument rest.now result }
{
    match major {
        Major::Unsigned => Ok((ItemHead::Integer(i128::from(argument)), rest)),
        Major::Negative => Ok((ItemHead::Integer(-1 - i128::from(argument)), rest)),
        Major::Bytes => {
            let (content, rest) = read_bytes(argument, rest)?;
            Ok((ItemHead::Bytes(content), rest))
        }
        Major::Text => {
            let (string, rest) = read_text(argument, rest)?;
            Ok((ItemHead::Str(string), rest))
        }
        Major::List => Ok((ItemHead::List(argument), rest)),
        Major::Map => Ok((ItemHead::Map(argument), rest)),
        Major::Tag => {
            if argument != LINK_TAG {
                return Err(CborError::Unsupported);
            }
            let (encoded, rest) = read_link_bytes(rest)?;
            Ok((ItemHead::Link(encoded), rest))
        }
        Major::Simple => match argument {
            20 => Ok((ItemHead::Bool(false), rest)),
            21 => Ok((ItemHead::Bool(true), rest)),
            22 => Ok((ItemHead::Null, rest)),
            _ => Err(CborError::Unsupported),
        },
    }
}

// Reads an item that is not a float.
#[inline(always)]
fn read_item_without_floats(bytes: &[u8]) -> Result<(ItemHead<'_>, &[u8]), CborError>
    requires { has_float_head bytes.now ≡ false }
    ensures found { IfOk result (λ read. BeginsWith read.0 bytes.now read.1.now) }
    ensures shorter { IfOk result (λ read. length read.1.now < length bytes.now) }
    ensures rejected { IfErr result (λ error. RejectsItem error bytes.now) }
{
    let (major, argument, rest) = read_head(bytes)?;
    read_content(major, argument, rest)
}

/// Reads the item at the front of the bytes, or the head of a list or a map, and returns it with
/// the bytes after it. Does not allocate.
///
/// # Errors
///
/// The first error in the bytes that it reads, the same one that `decode_slice` of `dag_cbor`
/// returns, except for floats: `Float` is returned only for floats of 16 or 32 bits, NaN and
/// infinities. The bytes of a link's CID are not decoded.
pub fn read_item(bytes: &[u8]) -> Result<(ItemHead<'_>, &[u8]), CborError>
    ensures found { IfOk result (λ read. BeginsWith read.0 bytes.now read.1.now) }
    ensures shorter { IfOk result (λ read. length read.1.now < length bytes.now) }
    ensures rejected { IfErr result (λ error. RejectsItem error bytes.now) }
{
    match bytes {
        [FLOAT, rest @ ..] => match read_float(rest) {
            Ok((bits, rest)) => Ok((ItemHead::Float(bits), rest)),
            Err(error) => Err(error),
        },
        _ => read_item_without_floats(bytes),
    }
}

/// Reads the key at the front of the bytes, a text string, and returns it with the bytes after it.
/// Does not allocate.
///
/// # Errors
///
/// The first error in the bytes that it reads. It is `KeyNotText` for an item that is not a text
/// string.
pub fn read_key(bytes: &[u8]) -> Result<(&str, &[u8]), CborError>
    ensures found { IfOk result (λ read. BeginsWithKey read.0.now bytes.now read.1.now) }
    ensures shorter { IfOk result (λ read. length read.1.now < length bytes.now) }
    ensures rejected { IfErr result (λ error. RejectsKey error bytes.now) }
{
    item_header::read_key_text(bytes)
}
