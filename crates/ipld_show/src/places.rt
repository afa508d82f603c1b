//! The places of the values in a block, for any order of access.

ghost use Rattle.std.specs.Prelude.{◌≡◌, ℕ, List, ◌∷◌, ◌++◌, length, map, MatchResult};
ghost use Rattle.ipld_show.specs.DataItem.{DataItem, DataEntries, entry_count, BeginsWithItem};
ghost use Rattle.ipld_show.specs.JsonText.{is_text, begin_with_bytes, ReadsAsContent, AreReserved};
ghost use Rattle.ipld_show.specs.Places.{IsContainer, HoldsItem, IsBehind, HoldsPart, HoldsEntries, KnownEntry, AreEntriesOf};
ghost use Rattle.ipld_show.specs.Scalars.{IsMemory};

use crate::containers::Extent;
use crate::error::{ShowError, unchecked_error};
use dag_cbor_format::item::{ItemHead, read_item, read_key};
use std::alloc::Global;

// The place of a value: the bytes from its beginning on, and the lists and maps that begin there or
// later.
#[derive(Clone, Copy)]
pub(crate) struct Place<'a> {
    pub(crate) rest: &'a [u8],
    pub(crate) containers: &'a [Extent],
}

// An entry of a map.
#[derive(Clone, Copy)]
pub(crate) struct Entry<'a> {
    pub(crate) key: &'a str,
    pub(crate) value: Place<'a>,
}

// Returns the place of the first value in the list or the map at a place, after its head.
#[inline(always)]
pub(crate) fn first_place<'a>(place: Place<'a>, rest: &'a [u8]) -> Place<'a>
    ensures rest { result.rest.now ≡ rest.now }
    ensures containers { (x : Extent) (inner : List Extent) → place.entry.containers.now ≡ x ∷ inner
        → result.containers.now ≡ inner }
{
    let containers = match place.containers {
        [_, inner @ ..] => inner,
        [] => place.containers,
    };
    Place { rest, containers }
}

// Returns the place after the list or the map at a place.
pub(crate) fn after_container(place: Place<'_>) -> Option<Place<'_>>
    ensures { (d : DataItem) (mid : List ℕ) (post : List Extent) → HoldsItem d place.entry mid post
        → IsContainer d → IsBehind result mid post }
{
    let [extent, ..] = place.containers else {
        return None;
    };
    if extent.size > place.rest.len() || extent.count > place.containers.len() {
        return None;
    }
    Some(Place {
        rest: &place.rest[extent.size..],
        containers: &place.containers[extent.count..],
    })
}

// Returns the place after the value at a place.
fn after_item(place: Place<'_>) -> Option<Place<'_>>
    ensures { (d : DataItem) (mid : List ℕ) (post : List Extent) → HoldsItem d place.entry mid post
        → IsBehind result mid post }
{
    let Ok((head, rest)) = read_item(place.rest) else {
        return None;
    };
    match head {
        ItemHead::List(_) => after_container(place),
        ItemHead::Map(_) => after_container(place),
        _ => Some(Place {
            rest,
            containers: place.containers,
        }),
    }
}

// Returns `count` entries of a map, the first of them at a place, in the order of the bytes of
// their keys.
pub(crate) fn entries_at<'a>(
    alloc: Global,
    count: u64,
    first: Place<'a>,
) -> Result<Vec<Entry<'a>>, ShowError>
    ensures { (whole : DataItem) (total : ℕ) (es : DataEntries)
        → HoldsEntries whole total es first.entry → count ≡ entry_count es
        → MatchResult result (λ entries. AreEntriesOf whole total es entries.items) IsMemory }
{
    let mut entries = Vec::new(alloc);
    let mut place = first;
    for _ in 0..count {
        let Ok((key, rest)) = read_key(place.rest) else {
            return Err(unchecked_error());
        };
        let value = Place {
            rest,
            containers: place.containers,
        };
        entries.push(Entry { key, value })?;
        let Some(next) = after_item(value) else {
            return Err(unchecked_error());
        };
        place = next;
    }
    entries.sort_unstable_by_key(|entry| entry.key);
    Ok(entries)
}

fn is_text(value: &[u8]) -> bool
    ensures { (d : DataItem) (behind : List ℕ) → BeginsWithItem d value.now behind
        → result ≡ is_text d }
{
    let Ok((head, _)) = read_item(value) else {
        return false;
    };
    match head {
        ItemHead::Str(_) => true,
        _ => false,
    }
}

// Returns whether the first of these entries, in the order of their keys, has the key `bytes` and a
// string as its value.
fn begin_with_bytes(entries: &[Entry<'_>]) -> bool
    ensures { (whole : DataItem) (total : ℕ) (known : List (KnownEntry whole total))
        → entries.now ≡ map (λ k. k.entry) known
        → result ≡ begin_with_bytes (map (λ k. k.member) known) }
{
    match entries {
        [first, ..] => first.key == "bytes" && is_text(first.value.rest),
        [] => false,
    }
}

// Returns whether the value at a place, after the key `/`, would be read as the content of a link
// or of bytes.
fn reads_as_content(alloc: Global, place: Place<'_>) -> Result<bool, ShowError>
    ensures { (whole : DataItem) (total : ℕ) (d : DataItem) → HoldsPart whole total d place.entry
        → MatchResult result (ReadsAsContent d) IsMemory }
{
    let Ok((head, rest)) = read_item(place.rest) else {
        return Err(unchecked_error());
    };
    match head {
        ItemHead::Str(_) => Ok(true),
        ItemHead::Map(count) => match entries_at(alloc, count, first_place(place, rest)) {
            Ok(entries) => Ok(begin_with_bytes(&entries)),
            Err(error) => Err(error),
        },
        _ => Ok(false),
    }
}

// Returns whether a map of these entries, in the order of their keys, would be read as a link or as
// bytes.
pub(crate) fn are_reserved(alloc: Global, entries: &[Entry<'_>]) -> Result<bool, ShowError>
    ensures { (whole : DataItem) (total : ℕ) (known : List (KnownEntry whole total))
        → entries.now ≡ map (λ k. k.entry) known
        → MatchResult result (AreReserved (map (λ k. k.member) known)) IsMemory }
{
    match entries {
        [first, ..] if first.key == "/" => reads_as_content(alloc, first.value),
        _ => Ok(false),
    }
}
