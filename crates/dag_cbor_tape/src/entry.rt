//! A single entry of a tape: its kind, its content, and its encoding.

ghost use Rattle.std.specs.Prelude.{◌≡◌, option_map};
ghost use Rattle.std.specs.Str.{is_utf8};
ghost use Rattle.dag_cbor_format.specs.Floats as floats;
ghost use Rattle.dag_cbor_tape.specs.Entry as of_entry;
ghost use Rattle.dag_cbor_tape.specs.Encoding.{Adds};
ghost use Rattle.dag_cbor_tape.specs.Memory.{IsMemory};

use crate::error::EncodeErrorKind;
use dag_cbor_blocks::tape::{self, TapeEntry};
use dag_cbor_format::Major;
use dag_cbor_format::item_header::read_text;
use dag_cbor_format::write::write_head;
use ipld_cid::Cid;

// The tag of a link.
const LINK_TAG: u64 = 42;

// The head of a float of 64 bits.
const FLOAT: u8 = 251;

// The kind of an entry.
#[derive(Clone, Copy)]
pub(crate) enum EntryKind {
    Null,
    False,
    True,
    Unsigned,
    Negative,
    Float,
    Text,
    Bytes,
    Link,
    List,
    Map,
    Key,
}

// Returns the kind that a number represents, if there is one.
#[tactic(auto, unfolding(crate::specs::Entry::kind_of))]
#[inline(always)]
pub(crate) fn kind_of(number: u32) -> Option<EntryKind>
    ensures { result ≡ of_entry.kind_of number }
{
    match number {
        tape::NULL => Some(EntryKind::Null),
        tape::FALSE => Some(EntryKind::False),
        tape::TRUE => Some(EntryKind::True),
        tape::UNSIGNED => Some(EntryKind::Unsigned),
        tape::NEGATIVE => Some(EntryKind::Negative),
        tape::FLOAT => Some(EntryKind::Float),
        tape::STRING => Some(EntryKind::Text),
        tape::BYTES => Some(EntryKind::Bytes),
        tape::LINK => Some(EntryKind::Link),
        tape::LIST => Some(EntryKind::List),
        tape::MAP => Some(EntryKind::Map),
        tape::KEY => Some(EntryKind::Key),
        _ => None,
    }
}

// Returns the bytes of the data to which an entry refers, if they are within the data.
#[tactic(auto, unfolding(crate::specs::Entry::content_of))]
#[inline(always)]
pub(crate) fn content_of<'a>(contents: &'a [u8], entry: TapeEntry) -> Option<&'a [u8]>
    ensures { option_map (λ content. content.now) result ≡ of_entry.content_of contents.entry.now
        entry }
{
    let len = entry.len as usize;
    let offset = entry.value as usize;
    if contents.len() < len || contents.len() - len < offset {
        return None;
    }
    Some(&contents[offset..offset + len])
}

// Returns whether eight bytes are those of a finite float, not of NaN or an infinity: the eleven
// bits of the exponent aren't all ones.
#[inline(always)]
fn is_finite(content: &[u8]) -> bool
    ensures { result ≡ floats.is_finite content.now }
{
    match content {
        [first, second, ..] => u16::from(*first % 128) * 16 + u16::from(*second / 16) != 2047,
        _ => true,
    }
}

// Writes a value that has only a kind.
#[inline(always)]
fn write_simple(out: &mut Vec<u8>, value: u64, entry: TapeEntry) -> Result<(), EncodeErrorKind>
    ensures { Adds IsMemory (of_entry.simple_of value entry) out.old.items result out.new.items }
{
    if entry.len != 0 || entry.value != 0 {
        return Err(EncodeErrorKind::Fields);
    }
    write_head(out, Major::Simple, value)?;
    Ok(())
}

// Writes an integer.
#[inline(always)]
fn write_number(out: &mut Vec<u8>, major: Major, entry: TapeEntry) -> Result<(), EncodeErrorKind>
    ensures { Adds IsMemory (of_entry.number_of major entry) out.old.items result out.new.items }
{
    if entry.len != 0 {
        return Err(EncodeErrorKind::Fields);
    }
    write_head(out, major, entry.value)?;
    Ok(())
}

// Writes a float.
#[inline(always)]
fn write_float(out: &mut Vec<u8>, content: Option<&[u8]>) -> Result<(), EncodeErrorKind>
    ensures { Adds IsMemory (of_entry.float_of (option_map (λ c. c.now) content.entry))
        out.old.items result out.new.items }
{
    let Some(content) = content else {
        return Err(EncodeErrorKind::Content);
    };
    if !is_finite(content) {
        return Err(EncodeErrorKind::Float);
    }
    out.extend_from_slice(&[FLOAT])?;
    out.extend_from_slice(content)?;
    Ok(())
}

// Writes a string or a key.
#[inline(always)]
fn write_text(out: &mut Vec<u8>, content: Option<&[u8]>) -> Result<(), EncodeErrorKind>
    ensures { Adds IsMemory (of_entry.text_of (option_map (λ c. c.now) content.entry)) out.old.items
        result out.new.items }
{
    let Some(content) = content else {
        return Err(EncodeErrorKind::Content);
    };
    if !is_text(content) {
        return Err(EncodeErrorKind::Utf8);
    }
    write_head(out, Major::Text, content.len() as u64)?;
    out.extend_from_slice(content)?;
    Ok(())
}

// Returns whether bytes are UTF-8.
#[inline(always)]
fn is_text(content: &[u8]) -> bool
    ensures { result ≡ is_utf8 content.now }
{
    match read_text(content.len() as u64, content) {
        Ok(_) => true,
        Err(_) => false,
    }
}

// Writes bytes.
#[inline(always)]
fn write_bytes(out: &mut Vec<u8>, content: Option<&[u8]>) -> Result<(), EncodeErrorKind>
    ensures { Adds IsMemory (of_entry.bytes_of (option_map (λ c. c.now) content.entry))
        out.old.items result out.new.items }
{
    let Some(content) = content else {
        return Err(EncodeErrorKind::Content);
    };
    write_head(out, Major::Bytes, content.len() as u64)?;
    out.extend_from_slice(content)?;
    Ok(())
}

// Writes a link.
#[inline(always)]
fn write_link(out: &mut Vec<u8>, content: Option<&[u8]>) -> Result<(), EncodeErrorKind>
    ensures { Adds IsMemory (of_entry.link_of (option_map (λ c. c.now) content.entry)) out.old.items
        result out.new.items }
{
    let Some(content) = content else {
        return Err(EncodeErrorKind::Content);
    };
    if let Err(error) = Cid::try_from(content) {
        return Err(EncodeErrorKind::Cid(error));
    }
    write_head(out, Major::Tag, LINK_TAG)?;
    write_head(out, Major::Bytes, content.len() as u64 + 1)?;
    out.extend_from_slice(&[0])?;
    out.extend_from_slice(content)?;
    Ok(())
}

// Writes the encoding of an entry of this kind. Entries in the order of the tape and entries that
// are sorted have a copy of this function each, which is inlined at its call.
#[tactic(auto, unfolding(crate::specs::Entry::written_of))]
#[inline(always)]
pub(crate) fn write_entry<const SORTED: bool>(
    out: &mut Vec<u8>,
    contents: &[u8],
    kind: EntryKind,
    entry: TapeEntry,
) -> Result<(), EncodeErrorKind>
    ensures { Adds IsMemory (of_entry.written_of contents.now kind entry) out.old.items result
        out.new.items }
{
    match kind {
        EntryKind::Null => write_simple(out, 22, entry),
        EntryKind::False => write_simple(out, 20, entry),
        EntryKind::True => write_simple(out, 21, entry),
        EntryKind::Unsigned => write_number(out, Major::Unsigned, entry),
        EntryKind::Negative => write_number(out, Major::Negative, entry),
        EntryKind::Float => {
            if entry.len != 8 {
                return Err(EncodeErrorKind::Fields);
            }
            write_float(out, content_of(contents, entry))
        }
        EntryKind::Text | EntryKind::Key => write_text(out, content_of(contents, entry)),
        EntryKind::Bytes => write_bytes(out, content_of(contents, entry)),
        EntryKind::Link => write_link(out, content_of(contents, entry)),
        EntryKind::List => {
            write_head(out, Major::List, entry.value)?;
            Ok(())
        }
        EntryKind::Map => {
            write_head(out, Major::Map, entry.value)?;
            Ok(())
        }
    }
}
