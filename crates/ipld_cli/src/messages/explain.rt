//! A sentence about the byte at which a block is invalid.

use crate::messages::json_error::JsonExplanation;
use crate::messages::start::{ItemStart, item_start};
use dag_cbor::item::read_key;
use dag_cbor::{BlockErrorKind, CborError};
use ipld_block::{BlockCodec, CheckError, InvalidBlock, check};
use std::alloc::Global;
use std::fmt;

// The tag of a link, before its byte string.
const LINK_TAG: [u8; 2] = [0xd8, 42];

// The most bytes of a key that is part of a sentence.
const SHORT_KEY: usize = 64;

/// The error of bytes that are not a block, by a second look at the byte at fault.
///
/// Its `Display` is a sentence like that of [`InvalidBlock`]. For DAG-CBOR it names the item there:
/// the tag, the simple value, the number of bits of a float, or the length of a string that is cut.
/// For DAG-JSON it has the line and the column.
#[derive(Clone, Copy, Debug)]
pub struct Explanation<'a> {
    block: &'a [u8],
    why: InvalidBlock,
    // Whether the tag of a link is right before the error.
    is_after_tag: bool,
}

impl<'a> Explanation<'a> {
    /// Explains why `check`, `links_of` or `check_canonical` rejected these bytes.
    ///
    /// It allocates if the error is in DAG-CBOR and follows bytes that may be the tag of a link.
    /// The bytes before the tag are then read once more.
    pub fn new(alloc: Global, block: &'a [u8], why: InvalidBlock) -> Self {
        let is_after_tag = match why {
            InvalidBlock::Cbor(error) => is_after_tag(alloc, block, error.offset),
            InvalidBlock::Pb(_) | InvalidBlock::Json(_) | InvalidBlock::NotCanonical => false,
        };
        Explanation {
            block,
            why,
            is_after_tag,
        }
    }
}

// Returns whether the tag of a link is right before this byte. It is if the bytes before the tag
// end where an item has to begin.
fn is_after_tag(alloc: Global, block: &[u8], offset: usize) -> bool {
    let Some(before) = block.get(..offset) else {
        return false;
    };
    let Some(cut) = before.strip_suffix(LINK_TAG.as_slice()) else {
        return false;
    };
    match check(alloc, BlockCodec::DagCbor, cut) {
        Err(CheckError::Invalid(InvalidBlock::Cbor(error))) => {
            error.kind == BlockErrorKind::Cbor(CborError::End) && error.offset == cut.len()
        }
        _ => false,
    }
}

impl<'a> fmt::Display for Explanation<'a> {
    fn fmt<W: fmt::Write>(&self, f: &mut fmt::Formatter<W>) -> fmt::Result {
        let error = match self.why {
            InvalidBlock::Cbor(error) => error,
            InvalidBlock::Json(error) => {
                f.write_str("not valid DAG-JSON: ")?;
                return JsonExplanation::new(self.block, error).fmt(f);
            }
            why => return why.fmt(f),
        };
        let Some(item) = self.block.get(error.offset..) else {
            return self.why.fmt(f);
        };
        let offset = error.offset;
        f.write_str("not valid DAG-CBOR: ")?;
        match error.kind {
            BlockErrorKind::Cbor(CborError::TrailingBytes) => {
                return write_trailing(f, item.len(), offset);
            }
            BlockErrorKind::Cbor(kind) => self.write_cbor(f, kind, item)?,
            kind => kind.fmt(f)?,
        }
        write!(f, " at byte {offset}")
    }
}

impl<'a> Explanation<'a> {
    // Writes the error of the item.
    fn write_cbor<W: fmt::Write>(
        &self,
        f: &mut fmt::Formatter<W>,
        kind: CborError,
        item: &[u8],
    ) -> fmt::Result {
        match kind {
            CborError::Unsupported => write_unsupported(f, item_start(item)),
            CborError::Float => self.write_float(f, item),
            CborError::KeyNotText => {
                write!(
                    f,
                    "{} as a map key (only strings are allowed)",
                    item_start(item)
                )
            }
            CborError::LinkBytes => write_link_bytes(f, item),
            CborError::End => write_end(f, item),
            CborError::NotShortest => write_not_shortest(f, item_start(item)),
            CborError::DuplicateKey => write_duplicate_key(f, item),
            _ => write!(f, "{}", kind.sentence()),
        }
    }

    // Writes a float that DAG-CBOR doesn't allow, or not there.
    fn write_float<W: fmt::Write>(&self, f: &mut fmt::Formatter<W>, item: &[u8]) -> fmt::Result {
        match item_start(item) {
            ItemStart::Float(64) => {}
            ItemStart::Float(bits) => {
                return write!(f, "a {bits}-bit float (DAG-CBOR has only 64-bit floats)");
            }
            start => return write!(f, "{start}"),
        }
        f.write_str(match special_float(item) {
            Some(name) => name,
            None if self.is_after_tag => "invalid link: a float after tag 42",
            None => "a float as a map key (only strings are allowed)",
        })
    }
}

// Describes a float of 64 bits that is infinite or not a number.
fn special_float(item: &[u8]) -> Option<&'static str> {
    let content = item.get(1..)?.first_chunk::<8>()?;
    let bits = u64::from_be_bytes(*content);
    let exponent = bits >> 52 & 0x7ff;
    let fraction = bits & ((1 << 52) - 1);
    match (exponent, fraction) {
        (0x7ff, 0) => Some("an infinity"),
        (0x7ff, _) => Some("NaN"),
        _ => None,
    }
}

// Writes an item that DAG-CBOR doesn't allow.
fn write_unsupported<W: fmt::Write>(f: &mut fmt::Formatter<W>, start: ItemStart) -> fmt::Result {
    match start {
        ItemStart::Tag(2 | 3) => write!(f, "a bignum, {start} (DAG-CBOR has only tag 42)"),
        ItemStart::Tag(_) => write!(f, "{start} (DAG-CBOR has only tag 42)"),
        ItemStart::Undefined | ItemStart::Simple(_) => {
            write!(f, "{start} (DAG-CBOR has only false, true and null)")
        }
        ItemStart::IndefiniteBytes
        | ItemStart::IndefiniteText
        | ItemStart::IndefiniteList
        | ItemStart::IndefiniteMap => write!(f, "{start} (not allowed in DAG-CBOR)"),
        // The number of a simple value is missing.
        ItemStart::Cut => f.write_str("a simple value (DAG-CBOR has only false, true and null)"),
        _ => write!(f, "{start}"),
    }
}

// Writes the item after the tag of a link that is not a byte string of a CID.
fn write_link_bytes<W: fmt::Write>(f: &mut fmt::Formatter<W>, item: &[u8]) -> fmt::Result {
    match item_start(item) {
        ItemStart::Bytes(0) => f.write_str("invalid link: an empty byte string after tag 42"),
        ItemStart::Bytes(_) => f.write_str(
            "invalid link: the byte string after tag 42 does not begin with 0x00",
        ),
        start => write!(f, "invalid link: {start} after tag 42"),
    }
}

// Writes which item is incomplete.
fn write_end<W: fmt::Write>(f: &mut fmt::Formatter<W>, item: &[u8]) -> fmt::Result {
    if item.is_empty() {
        return f.write_str("the bytes end where an item has to begin");
    }
    match item_start(item) {
        ItemStart::Bytes(length) => write!(
            f,
            "the bytes end within a byte string of {length} bytes"
        ),
        ItemStart::Text(length) => write!(
            f,
            "the bytes end within a text string of {length} bytes"
        ),
        ItemStart::Float(_) => f.write_str("the bytes end within a float"),
        _ => f.write_str("the bytes end within the head of an item"),
    }
}

// Writes how many bytes follow the value.
fn write_trailing<W: fmt::Write>(
    f: &mut fmt::Formatter<W>,
    len: usize,
    offset: usize,
) -> fmt::Result {
    let unit = if len == 1 { "byte" } else { "bytes" };
    write!(
        f,
        "{len} {unit} left over after the value, from byte {offset}"
    )
}

// Writes an argument that is not in its shortest form.
fn write_not_shortest<W: fmt::Write>(f: &mut fmt::Formatter<W>, start: ItemStart) -> fmt::Result {
    match start.argument() {
        Some(argument) => write!(f, "the argument {argument} is not in its shortest form"),
        None => f.write_str("an argument is not in its shortest form"),
    }
}

// Writes a key that the map has already.
fn write_duplicate_key<W: fmt::Write>(f: &mut fmt::Formatter<W>, item: &[u8]) -> fmt::Result {
    match read_key(item) {
        Ok((key, _)) if key.len() <= SHORT_KEY => { write!(f, "duplicate map key {key:?}") }
        _ => f.write_str("duplicate map key"),
    }
}
