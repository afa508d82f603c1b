//! A tree written as a block.

ghost use Rattle.std.specs.Prelude.{◌≡◌, ◌⊎◌, ◌++◌, [], ◌∷◌, true, false, map, None, OnOk, IfOk, IfErr};
ghost use Rattle.ipld_tree.specs.Tree.{list, entries};
ghost use Rattle.ipld_tree.specs.TreeOf.{tree_of, items_of, members_of};
ghost use Rattle.dag_cbor_format.specs.Canonical.{canonical};
ghost use Rattle.dag_cbor_format.specs.Range as range;
ghost use Rattle.dag_cbor_format.specs.Writing.{Adds};
ghost use Rattle.dag_cbor.specs.Writing.{after_key, in_order};
ghost use Rattle.dag_cbor.specs.Cursors.{of_entry, left_of, all_left, within, Opens, Advances, StepOf};

use crate::key_order::{lengths_ascend, sorted_entries};
use dag_cbor_format::write::{write_bytes, write_head, write_integer, write_link, write_text};
use dag_cbor_format::{CborError, Major};
use ipld_tree::Ipld;
use std::alloc::{AllocError, Global};
use std::collections::{BTreeMap, btree_map};
use std::{mem, slice, vec};

// The part of an open list or map that is left to write. Entries are sorted only if the lengths of
// their keys do not ascend.
#[derive(Drop)]
enum EncodeCursor<'a> {
    Items(slice::Iter<'a, Ipld>),
    Entries(btree_map::Iter<'a, String, Ipld>),
    Sorted(vec::IntoIter<(&'a String, &'a Ipld), Global>),
}

// Returns the next value of a cursor, and writes its key.
#[inline(always)]
fn advance<'a>(
    cursor: &mut EncodeCursor<'a>,
    out: &mut Vec<u8>,
) -> Result<Option<&'a Ipld>, AllocError>
    ensures { IfOk result (λ next. Advances (left_of cursor.old) out.old.items next
        (left_of cursor.new) out.new.items) }
{
    match cursor {
        EncodeCursor::Items(items) => Ok(items.next()),
        EncodeCursor::Entries(entries) => {
            let Some((key, value)) = entries.next() else {
                return Ok(None);
            };
            write_text(out, key)?;
            Ok(Some(value))
        }
        EncodeCursor::Sorted(entries) => {
            let Some((key, value)) = entries.next() else {
                return Ok(None);
            };
            write_text(out, key)?;
            Ok(Some(value))
        }
    }
}

// Returns a cursor over the entries of a map, with the shorter keys first.
fn cursor_of<'a>(
    alloc: Global,
    members: &'a BTreeMap<String, Ipld>,
) -> Result<EncodeCursor<'a>, AllocError>
    ensures { IfOk result (λ cursor. left_of cursor ≡ map of_entry
        (in_order (after_key members.now.entries))) }
{
    if lengths_ascend(members) {
        return Ok(EncodeCursor::Entries(members.iter()));
    }
    Ok(EncodeCursor::Sorted(sorted_entries(alloc, members)?.into_iter()))
}

// Enters a list or a map, whose cursor is then the innermost.
#[inline(always)]
fn enter<'a>(
    inner: EncodeCursor<'a>,
    innermost: &mut EncodeCursor<'a>,
    outer: &mut Vec<EncodeCursor<'a>>,
) -> Result<(), AllocError>
    ensures { OnOk result ((innermost.new ≡ inner.entry)
        × (outer.new.items ≡ outer.old.items ++ innermost.old ∷ [])) }
{
    outer.push(mem::replace(innermost, inner))?;
    Ok(())
}

// Writes the head of a list, and enters the list.
#[inline(never)]
fn enter_list<'a>(
    out: &mut Vec<u8>,
    items: &'a [Ipld],
    innermost: &mut EncodeCursor<'a>,
    outer: &mut Vec<EncodeCursor<'a>>,
) -> Result<(), AllocError>
    ensures { OnOk result (Opens (list (items_of items.now)) innermost.old outer.old.items
        out.old.items innermost.new outer.new.items out.new.items) }
{
    write_head(out, Major::List, items.len() as u64)?;
    enter(EncodeCursor::Items(items.iter()), innermost, outer)?;
    Ok(())
}

// Writes the head of a map, and enters the map.
#[inline(never)]
fn enter_map<'a>(
    alloc: Global,
    out: &mut Vec<u8>,
    members: &'a BTreeMap<String, Ipld>,
    innermost: &mut EncodeCursor<'a>,
    outer: &mut Vec<EncodeCursor<'a>>,
) -> Result<(), AllocError>
    ensures { OnOk result (Opens (entries (members_of members.now.entries)) innermost.old
        outer.old.items out.old.items innermost.new outer.new.items out.new.items) }
{
    write_head(out, Major::Map, members.len() as u64)?;
    let cursor = cursor_of(alloc, members)?;
    enter(cursor, innermost, outer)?;
    Ok(())
}

// Writes a value. For a list or a map, writes the head and enters it.
#[inline(always)]
fn write_value<'a>(
    alloc: Global,
    out: &mut Vec<u8>,
    value: &'a Ipld,
    innermost: &mut EncodeCursor<'a>,
    outer: &mut Vec<EncodeCursor<'a>>,
) -> Result<(), CborError>
    ensures ok { OnOk result (Opens (tree_of value.now) innermost.old outer.old.items out.old.items
        innermost.new outer.new.items out.new.items) }
    ensures err { IfErr result (λ error. (error ≡ CborError.Memory)
        ⊎ ((error ≡ CborError.IntegerRange) × (range.in_range (tree_of value.now) ≡ false))) }
{
    match value {
        Ipld::Null => write_head(out, Major::Simple, 22)?,
        Ipld::Bool(false) => write_head(out, Major::Simple, 20)?,
        Ipld::Bool(true) => write_head(out, Major::Simple, 21)?,
        Ipld::Integer(number) => write_integer(out, *number)?,
        Ipld::String(text) => write_text(out, text)?,
        Ipld::Bytes(bytes) => write_bytes(out, bytes)?,
        Ipld::Link(cid) => write_link(out, cid)?,
        Ipld::List(items) => enter_list(out, items, innermost, outer)?,
        Ipld::Map(members) => enter_map(alloc, out, members, innermost, outer)?,
    }
    Ok(())
}

// Writes the next value, or leaves a list or a map at its end. Returns false if nothing is left.
#[inline(always)]
fn write_next<'a>(
    alloc: Global,
    out: &mut Vec<u8>,
    innermost: &mut EncodeCursor<'a>,
    outer: &mut Vec<EncodeCursor<'a>>,
) -> Result<bool, CborError>
    ensures ok { IfOk result (λ more. StepOf more innermost.old outer.old.items out.old.items
        innermost.new outer.new.items out.new.items) }
    ensures err { IfErr result (λ error. (error ≡ CborError.Memory)
        ⊎ ((error ≡ CborError.IntegerRange) × (within (all_left innermost.old outer.old.items)
        ≡ false))) }
{
    let Some(value) = advance(innermost, out)? else {
        let Some(cursor) = outer.pop() else {
            return Ok(false);
        };
        *innermost = cursor;
        return Ok(true);
    };
    write_value(alloc, out, value, innermost, outer)?;
    Ok(true)
}

// Appends the block of a tree. If the tree has no block, or an allocation fails, a beginning of one
// may be appended.
pub(crate) fn encode_to(alloc: Global, out: &mut Vec<u8>, value: &Ipld) -> Result<(), CborError>
    ensures ok { OnOk result (Adds (canonical (tree_of value.now)) out.old.items out.new.items) }
    ensures within { OnOk result (range.in_range (tree_of value.now) ≡ true) }
    ensures err { IfErr result (λ error. (error ≡ CborError.Memory)
        ⊎ ((error ≡ CborError.IntegerRange) × (canonical (tree_of value.now) ≡ None)
        × (range.in_range (tree_of value.now) ≡ false))) }
{
    let mut innermost = EncodeCursor::Items(slice::from_ref(value).iter());
    let mut outer = Vec::new(alloc);
    while write_next(alloc, out, &mut innermost, &mut outer)? {}
    Ok(())
}
