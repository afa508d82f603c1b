//! Values of blocks as DAG-JSON.

ghost use Rattle.std.specs.Prelude.{◌≡◌, ℕ, List, [], ◌∷◌, reverse, vec_len, OnOk, IfOk, MatchResult};
ghost use Rattle.ipld_cid.specs.Bytes.{IsCid};
ghost use Rattle.ipld_cid.specs.Cid.{Link};
ghost use Rattle.ipld_tree.specs.Tree as tree;
ghost use Rattle.json.specs.Json.{Json};
ghost use Rattle.json.specs.Token.{Token};
ghost use Rattle.json.specs.Tree.{json_tokens};
ghost use Rattle.dag_cbor_format.specs.declared.item.ItemHead.TheVariants as begin;
ghost use Rattle.dag_json.specs.Form.{json_of, Wrote};
ghost use Rattle.ipld_show.specs.DataItem.{DataItem, BeginsWithItem};
ghost use Rattle.ipld_show.specs.Heads.{IsHeadOf};
ghost use Rattle.ipld_show.specs.declared.containers.Extent.{Extent};
ghost use Rattle.ipld_show.specs.JsonFrames.{IsHeadJson, Behind, Coming, Begun, Steps, LeavesIt, Leads};
ghost use Rattle.ipld_show.specs.JsonText.{IsFloatJson, IsItemJson, IsJson, IsJsonError};
ghost use Rattle.ipld_show.specs.Scalars.{IsMemory};
ghost use Rattle.ipld_show.specs.TreeLevels.{HasCid};

use crate::containers::containers_of;
use crate::error::{ShowError, unchecked_error};
use crate::places::{Entry, Place, after_container, are_reserved, entries_at, first_place};
use crate::scalars::float_of;
use dag_cbor_format::item::{ItemHead, read_item};
use dag_json::parts::{write_bytes, write_integer, write_link};
use ipld_cid::Cid;
use json::Writer;
use std::alloc::{AllocError, Global};

// The rest of an open list or map.
#[derive(Drop)]
enum Frame<'a> {
    // The number of items.
    List(u64),
    // The entries, the next one last, and the place after the map.
    Map(Vec<Entry<'a>>, Place<'a>),
}

// The next step in an open list or map.
#[derive(Clone, Copy)]
enum Step<'a> {
    // A value.
    Value(Place<'a>),
    // The end, and the place after it.
    End(Place<'a>),
}

// Writes a float, or null if the bits are not a finite float.
fn write_float(writer: &mut Writer, bits: u64) -> Result<(), AllocError>
    ensures { OnOk result ((j : Json) × IsFloatJson bits j × Wrote writer.old writer.new
        (json_tokens j)) }
{
    let Some(float) = float_of(bits) else {
        writer.null()?;
        return Ok(());
    };
    if !float.is_finite() {
        writer.null()?;
        return Ok(());
    }
    writer.float(float)?;
    Ok(())
}

// Writes a link by the bytes of its CID.
fn write_link_of(alloc: Global, writer: &mut Writer, bytes: &[u8]) -> Result<(), ShowError>
    ensures { (cid : Link) → IsCid 64 bytes.now cid
        → MatchResult result (λ _. Wrote writer.old writer.new
        (json_tokens (json_of (tree.link cid)))) IsMemory }
{
    match Cid::try_from(bytes) {
        Ok(cid) => {
            write_link(alloc, writer, &cid)?;
            Ok(())
        }
        Err(error) => Err(ShowError::Cid(error)),
    }
}

// Writes a value that is neither a list nor a map.
fn write_scalar(alloc: Global, writer: &mut Writer, head: &ItemHead<'_>) -> Result<(), ShowError>
    ensures { HasCid head.now → MatchResult result (λ _. (j : Json) × IsHeadJson head.now j
        × Wrote writer.old writer.new (json_tokens j)) IsMemory }
{
    match head {
        ItemHead::Null | ItemHead::List(_) | ItemHead::Map(_) => writer.null()?,
        ItemHead::Bool(value) => writer.boolean(*value)?,
        ItemHead::Integer(number) => write_integer(writer, *number)?,
        ItemHead::Float(bits) => write_float(writer, *bits)?,
        ItemHead::Str(text) => writer.string(text)?,
        ItemHead::Bytes(bytes) => write_bytes(alloc, writer, bytes)?,
        ItemHead::Link(cid) => write_link_of(alloc, writer, cid)?,
    }
    Ok(())
}

// Begins a list of `items` items, and returns the place of the first one.
fn enter_list<'a>(
    items: u64,
    place: Place<'a>,
    rest: &'a [u8],
    frames: &mut Vec<Frame<'a>>,
    writer: &mut Writer,
) -> Result<Place<'a>, AllocError>
    ensures { (whole : DataItem) (total : ℕ) (w : List Token) (n : ℕ) (c : Coming whole total
        (reverse frames.old.items) place.entry w n)
        → IsHeadOf (begin.List items) c.value rest.now c.part.mid
        → IfOk result (λ inner. Begun whole total (reverse frames.new.items) inner w n
        writer.old writer.new) }
{
    writer.begin_array()?;
    frames.push(Frame::List(items))?;
    Ok(first_place(place, rest))
}

// Begins a map of `count` entries, unless it is reserved. The whole value has `total` bytes.
fn enter_map<'a>(
    alloc: Global,
    count: u64,
    place: Place<'a>,
    rest: &'a [u8],
    total: usize,
    frames: &mut Vec<Frame<'a>>,
    writer: &mut Writer,
) -> Result<(), ShowError>
    ensures { (whole : DataItem) (w : List Token) (n : ℕ) (c : Coming whole total
        (reverse frames.old.items) place.entry w n)
        → IsHeadOf (begin.Map count) c.value rest.now c.part.mid
        → MatchResult result (λ _. Begun whole total (reverse frames.new.items) place.entry w
        n writer.old writer.new) (IsJsonError whole) }
{
    let mut entries = match entries_at(alloc, count, first_place(place, rest)) {
        Ok(entries) => entries,
        Err(error) => return Err(error),
    };
    match are_reserved(alloc, &entries) {
        Ok(true) => return Err(ShowError::Reserved(total.saturating_sub(place.rest.len()))),
        Ok(false) => {}
        Err(error) => return Err(error),
    }
    let Some(after) = after_container(place) else {
        return Err(unchecked_error());
    };
    entries.reverse();
    writer.begin_object()?;
    frames.push(Frame::Map(entries, after))?;
    Ok(())
}

// Writes the value at a place, or only its beginning if it is a list or a map. Returns the place
// after that.
fn write_value<'a>(
    alloc: Global,
    place: Place<'a>,
    total: usize,
    frames: &mut Vec<Frame<'a>>,
    writer: &mut Writer,
) -> Result<Place<'a>, ShowError>
    ensures { (whole : DataItem) (w : List Token) (n : ℕ)
        → Coming whole total (reverse frames.old.items) place.entry w n
        → MatchResult result (λ behind. Begun whole total (reverse frames.new.items) behind
        w n writer.old writer.new) (IsJsonError whole) }
{
    let Ok((head, rest)) = read_item(place.rest) else {
        return Err(unchecked_error());
    };
    match head {
        ItemHead::List(items) => {
            let inner = enter_list(items, place, rest, frames, writer)?;
            Ok(inner)
        }
        ItemHead::Map(entries) => {
            match enter_map(alloc, entries, place, rest, total, frames, writer) {
                Ok(()) => Ok(place),
                Err(error) => Err(error),
            }
        }
        _ => match write_scalar(alloc, writer, &head) {
            Ok(()) => Ok(Place {
                rest,
                containers: place.containers,
            }),
            Err(error) => Err(error),
        },
    }
}

// Continues a list with `items` items to come, the first of them at a place, or ends it.
fn write_next_item<'a>(
    items: u64,
    place: Place<'a>,
    frames: &mut Vec<Frame<'a>>,
    writer: &mut Writer,
) -> Result<Step<'a>, AllocError>
    ensures kept { IfOk result (λ step. LeavesIt step (vec_len frames.old) (vec_len frames.new)) }
    ensures goes_on { (whole : DataItem) (total : ℕ) (w : List Token) (n : ℕ)
        → Behind whole total (Frame.List items ∷ reverse frames.old.items) place.entry.rest.now
        place.entry.containers.now w n
        → IfOk result (λ step. Steps whole total (reverse frames.new.items) step w n
        writer.old writer.new) }
{
    if items > 0 {
        frames.push(Frame::List(items - 1))?;
        return Ok(Step::Value(place));
    }
    writer.end_array()?;
    Ok(Step::End(place))
}

// Continues a map with these entries to come, the next one last, or ends it.
fn write_next_member<'a>(
    mut entries: Vec<Entry<'a>>,
    after: Place<'a>,
    frames: &mut Vec<Frame<'a>>,
    writer: &mut Writer,
) -> Result<Step<'a>, AllocError>
    ensures kept { IfOk result (λ step. LeavesIt step (vec_len frames.old) (vec_len frames.new)) }
    ensures goes_on { (whole : DataItem) (total : ℕ) (w : List Token) (n : ℕ) (rest : List ℕ)
        (listed : List Extent)
        → Behind whole total (Frame.Map entries.entry after.entry ∷ reverse frames.old.items) rest
        listed w n
        → IfOk result (λ step. Steps whole total (reverse frames.new.items) step w n
        writer.old writer.new) }
{
    match entries.pop() {
        Some(entry) => {
            writer.key(entry.key)?;
            frames.push(Frame::Map(entries, after))?;
            Ok(Step::Value(entry.value))
        }
        None => {
            writer.end_object()?;
            Ok(Step::End(after))
        }
    }
}

// Continues a list or a map, or ends it, after a value ended at a place or before its first value.
fn write_next<'a>(
    frame: Frame<'a>,
    place: Place<'a>,
    frames: &mut Vec<Frame<'a>>,
    writer: &mut Writer,
) -> Result<Step<'a>, AllocError>
    ensures kept { IfOk result (λ step. LeavesIt step (vec_len frames.old) (vec_len frames.new)) }
    ensures goes_on { (whole : DataItem) (total : ℕ) (w : List Token) (n : ℕ)
        → Behind whole total (frame.entry ∷ reverse frames.old.items) place.entry.rest.now
        place.entry.containers.now w n
        → IfOk result (λ step. Steps whole total (reverse frames.new.items) step w n
        writer.old writer.new) }
{
    match frame {
        Frame::List(items) => write_next_item(items, place, frames, writer),
        Frame::Map(entries, after) => write_next_member(entries, after, frames, writer),
    }
}

// Ends the lists and maps that end with a value, and writes the key of the next value if it has
// one. Returns the place of that value.
fn next_value_place<'a>(
    frames: &mut Vec<Frame<'a>>,
    ended: Place<'a>,
    writer: &mut Writer,
) -> Result<Option<Place<'a>>, AllocError>
    ensures { (whole : DataItem) (total : ℕ) (w : List Token) (n : ℕ)
        → Behind whole total (reverse frames.old.items) ended.entry.rest.now
        ended.entry.containers.now w n
        → IfOk result (λ next. Leads whole total (reverse frames.new.items) next w n
        writer.old writer.new) }
{
    let mut place = ended;
    while let Some(frame) = frames.pop() {
        match write_next(frame, place, frames, writer)? {
            Step::Value(next) => return Ok(Some(next)),
            Step::End(after) => place = after,
        }
    }
    Ok(None)
}

// Writes a value to a writer.
fn write_json(alloc: Global, value: &[u8], writer: &mut Writer) -> Result<(), ShowError>
    ensures { (d : DataItem) (behind : List ℕ) → BeginsWithItem d value.now behind
        → MatchResult result (λ _. (j : Json) × IsItemJson d j × Wrote writer.old writer.new
        (json_tokens j)) (IsJsonError d) }
{
    let containers = match containers_of(alloc, value) {
        Ok(containers) => containers,
        Err(error) => return Err(error),
    };
    let mut frames = Vec::new(alloc);
    let mut place = Place {
        rest: value,
        containers: &containers,
    };
    // Every value has at least one byte.
    for _ in 0..value.len() {
        let behind = match write_value(alloc, place, value.len(), &mut frames, writer) {
            Ok(behind) => behind,
            Err(error) => return Err(error),
        };
        match next_value_place(&mut frames, behind, writer)? {
            Some(next) => place = next,
            None => return Ok(()),
        }
    }
    Err(unchecked_error())
}

/// Returns the DAG-JSON (IPLD's DAG-JSON specification) of a value in a block that is known to be
/// valid, without a line feed after it. `value` begins with the value, and the bytes after it are
/// not read.
///
/// A link is `{"/":"TEXT"}` with the text of the CID, and bytes are `{"/":{"bytes":"TEXT"}}` in
/// base64 without padding. The keys of a map come in the order of their bytes. The text has no
/// blanks. A float has a point or an exponent, and an integer doesn't.
///
/// It doesn't recurse. It allocates the text. It also allocates in proportion to the lists and maps
/// of the value, and to the entries of the maps that are open.
///
/// # Errors
///
/// - `Reserved` if a map begins with the key `/` and would be read as a link or as bytes, for
///   example because a string comes after that key. The number is the byte of `value` at which the
///   map begins.
/// - `Memory` if an allocation fails.
/// - Possibly `Invalid` or `Cid` if the bytes are not a valid block.
pub fn to_json(alloc: Global, value: &[u8]) -> Result<Vec<u8>, ShowError>
    ensures { (d : DataItem) (behind : List ℕ) → BeginsWithItem d value.now behind
        → MatchResult result (λ text. IsJson d text.items) (IsJsonError d) }
{
    let mut writer = Writer::new(Vec::new(alloc));
    match write_json(alloc, value, &mut writer) {
        Ok(()) => Ok(writer.into_inner()),
        Err(error) => Err(error),
    }
}
