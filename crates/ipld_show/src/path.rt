//! The value at a path in a block.

ghost use Rattle.std.specs.Prelude.{◌≡◌, ℕ, ◌+◌, ◌^◌, ◌<◌, ◌≤◌, List, [], ◌∷◌, ◌++◌, length, Option, option_map, Ok, IfOk, MatchResult};
ghost use Rattle.ipld_cid.specs.LinkOf.{link_of};
ghost use Rattle.ipld_tree.specs.Index.{number_of};
ghost use Rattle.ipld_tree.specs.Path.{segments};
ghost use Rattle.ipld_show.specs.AfterPath.{after_numbered, after_value, after_segment, after_segments};
ghost use Rattle.ipld_show.specs.AtPath.{item_numbered, value_under, if_found, at_segment, at_segments, LeadsTo};
ghost use Rattle.ipld_show.specs.DataItem.{DataItem, DataItems, DataEntries, item_count, entry_count, encoding, items_encoding, entries_encoding, AreDataItems, AreDataEntries, BeginsWithItem};
ghost use Rattle.ipld_show.specs.OnPath.{link_in, IsLinkOr, IsLinkOnPath};
ghost use Rattle.ipld_show.specs.Skipping.{items_within, parts_in, Finds, LeadsBefore, LeadsBehind};

use crate::error::{ShowError, unchecked_error};
use dag_cbor_format::item::{ItemHead, read_item, read_key};
use ipld_cid::Cid;

// Returns the number of items in a list or a map, including keys.
#[inline(always)]
pub(crate) fn items_in(head: &ItemHead<'_>) -> u64
    ensures { result ≡ items_within head.now }
{
    match head {
        ItemHead::List(items) => *items,
        ItemHead::Map(entries) => entries.saturating_mul(2),
        _ => 0,
    }
}

// Returns the number of bytes of the item at the front.
pub(crate) fn item_size(bytes: &[u8]) -> Result<usize, ShowError>
    ensures within { IfOk result (λ size. size ≤ length bytes.now) }
    ensures exact { (d : DataItem) (behind : List ℕ) → BeginsWithItem d bytes.now behind
        → MatchResult result (λ size. size ≡ length (encoding d)) (λ _. ⊥) }
{
    let size = bytes.len();
    let mut rest = bytes;
    let mut left = 1u64;
    while left > 0 {
        let Ok((head, after)) = read_item(rest) else {
            return Err(unchecked_error());
        };
        left = (left - 1).saturating_add(items_in(&head));
        rest = after;
    }
    Ok(size - rest.len())
}

// Finds the value with this key in the next `entries` entries.
fn entry_at<'a>(entries: u64, bytes: &'a [u8], name: &str) -> Result<Option<&'a [u8]>, ShowError>
    ensures { (es : DataEntries) (behind : List ℕ) → AreDataEntries es → entries ≡ entry_count es
        → bytes.now ≡ entries_encoding es ++ behind
        → Finds (value_under name.now es) (after_value name.now es ++ behind) result }
{
    let mut rest = bytes;
    let mut left = entries;
    while left > 0 {
        let Ok((key, value)) = read_key(rest) else {
            return Err(unchecked_error());
        };
        if name == key {
            return Ok(Some(value));
        }
        let size = item_size(value)?;
        rest = &value[size..];
        left -= 1;
    }
    Ok(None)
}

fn parse_index(segment: &str) -> Option<u64>
    ensures { result ≡ number_of segment.now }
{
    segment.parse::<u64>().ok()
}

// Finds the item with the index in a segment, in the next `items` items.
fn item_at<'a>(items: u64, bytes: &'a [u8], segment: &str) -> Result<Option<&'a [u8]>, ShowError>
    ensures { (ds : DataItems) (behind : List ℕ) → AreDataItems ds → items ≡ item_count ds
        → bytes.now ≡ items_encoding ds ++ behind
        → Finds (item_numbered (number_of segment.now) ds)
        (after_numbered (number_of segment.now) ds ++ behind) result }
{
    let Some(index) = parse_index(segment) else {
        return Ok(None);
    };
    if index >= items {
        return Ok(None);
    }
    let mut rest = bytes;
    let mut left = index;
    while left > 0 {
        let size = item_size(rest)?;
        rest = &rest[size..];
        left -= 1;
    }
    Ok(Some(rest))
}

// Returns the value that was found at the segment with this number, or `NoSegment`.
fn found_or_error(
    found: Result<Option<&[u8]>, ShowError>,
    number: usize,
) -> Result<&[u8], ShowError>
    ensures { (o : Option DataItem) (after : List ℕ) → Finds o after found.entry
        → LeadsBefore (if_found number o) after result }
{
    match found {
        Ok(Some(value)) => Ok(value),
        Ok(None) => Err(ShowError::NoSegment(number)),
        Err(error) => Err(error),
    }
}

// Returns the value to which the segment with this number leads from the item at the front.
fn value_of_segment<'a>(
    value: &'a [u8],
    segment: &str,
    number: usize,
) -> Result<&'a [u8], ShowError>
    ensures { (d : DataItem) (behind : List ℕ) → BeginsWithItem d value.now behind
        → LeadsBefore (at_segment number segment.now d) (after_segment segment.now d ++ behind) result }
{
    let Ok((head, rest)) = read_item(value) else {
        return Err(unchecked_error());
    };
    match head {
        ItemHead::Map(entries) => found_or_error(entry_at(entries, rest, segment), number),
        ItemHead::List(items) => found_or_error(item_at(items, rest, segment), number),
        _ => Err(ShowError::NotAContainer(number)),
    }
}

// Returns the value to which a part of a path leads, and the number of segments up to it. `before`
// segments come before the part. An empty part isn't a segment.
pub(crate) fn enter_segment<'a>(
    value: &'a [u8],
    part: &str,
    before: usize,
) -> Result<(&'a [u8], usize), ShowError>
    requires { before + length part.now < 2 ^ 64 }
    ensures passed { IfOk result (λ inner. inner.1 ≤ before + length part.now) }
    ensures exact { (d : DataItem) (behind : List ℕ) → BeginsWithItem d value.now behind
        → LeadsBehind (at_segments before (parts_in (part.now ∷ [])) d)
        (before + length (parts_in (part.now ∷ [])))
        (after_segments before (parts_in (part.now ∷ [])) d ++ behind) result }
{
    if part.is_empty() {
        return Ok((value, before));
    }
    match value_of_segment(value, part, before + 1) {
        Ok(value) => Ok((value, before + 1)),
        Err(error) => Err(error),
    }
}

/// Returns the value at a path in a block that is known to be valid: the bytes from the beginning
/// of the value to the end of the block.
///
/// Segments are separated by `/`. Empty segments are skipped, as by
/// [`Ipld::at_path`](ipld_tree::Ipld::at_path): `/a//b/` is `a/b`, and the empty path leads to the
/// block itself. In a map a segment is a key, and in a list an index, counted from 0. A path can't
/// lead through an empty key or one that has a slash. Links are not followed.
///
/// It reads the block once, in loops, and doesn't allocate.
///
/// # Errors
///
/// - `NoSegment` or `NotAContainer` if the path leads to nothing, with the number of the first
///   segment that does.
/// - Possibly `Invalid` if the bytes are not a valid block.
pub fn value_at<'a>(block: &'a [u8], path: &str) -> Result<&'a [u8], ShowError>
    ensures { (d : DataItem) (behind : List ℕ) → BeginsWithItem d block.now behind
        → LeadsTo (at_segments 0 (segments path.now) d) result }
{
    let mut value = block;
    let mut before = 0usize;
    let mut rest = path;
    while let Some((part, more)) = rest.split_once('/') {
        match enter_segment(value, part, before) {
            Ok((inner, passed)) => {
                value = inner;
                before = passed;
            }
            Err(error) => return Err(error),
        }
        rest = more;
    }
    match enter_segment(value, rest, before) {
        Ok((value, _)) => Ok(value),
        Err(error) => Err(error),
    }
}

/// A link on a path that continues after it.
#[derive(Clone, Copy, Debug, PartialEq, Eq)]
pub struct LinkOnPath {
    /// The link.
    pub cid: Cid,
    /// The number of segments of the path that lead to it.
    pub segments: usize,
}

// Returns the link at the front, if the value there is one.
pub(crate) fn link_of_value(value: &[u8]) -> Result<Option<Cid>, ShowError>
    ensures { (d : DataItem) (behind : List ℕ) → BeginsWithItem d value.now behind
        → MatchResult result (λ cid. option_map link_of cid ≡ link_in d) (λ _. ⊥) }
{
    let Ok((head, _)) = read_item(value) else {
        return Err(unchecked_error());
    };
    match head {
        ItemHead::Link(bytes) => match Cid::try_from(bytes) {
            Ok(cid) => Ok(Some(cid)),
            Err(error) => Err(ShowError::Cid(error)),
        },
        _ => Ok(None),
    }
}

// Returns the link `value`, to which `segments` segments of a path lead. If it isn't a link,
// returns the error of the next segment.
fn link_or(value: &[u8], segments: usize, error: ShowError) -> Result<Option<LinkOnPath>, ShowError>
    ensures { (d : DataItem) (behind : List ℕ) → BeginsWithItem d value.now behind
        → IsLinkOr (link_in d) segments error result }
{
    match link_of_value(value) {
        Ok(Some(cid)) => Ok(Some(LinkOnPath { cid, segments })),
        Ok(None) => Err(error),
        Err(error) => Err(error),
    }
}

// Returns the first link that a path leads through in a block that is known to be valid.
pub(crate) fn link_before_end(block: &[u8], path: &str) -> Result<Option<LinkOnPath>, ShowError>
    ensures { (d : DataItem) (behind : List ℕ) → BeginsWithItem d block.now behind
        → IsLinkOnPath d path.now result }
{
    let mut value = block;
    let mut before = 0usize;
    let mut rest = path;
    while let Some((part, more)) = rest.split_once('/') {
        match enter_segment(value, part, before) {
            Ok((inner, passed)) => {
                value = inner;
                before = passed;
            }
            Err(error) => return link_or(value, before, error),
        }
        rest = more;
    }
    match enter_segment(value, rest, before) {
        Ok(_) => Ok(None),
        Err(error) => link_or(value, before, error),
    }
}
