//! The tree of a block that nests little, read by recursion.
//!
//! This is the fast way of reading a tree, but it does not report the error of a block. If it does
//! not return a tree, another function has to read the block.

ghost use Rattle.std.specs.Prelude.{◌≡◌, ◌≤◌, ◌++◌, ◌∷◌, [], ℕ, false, Some, map, string_bytes, IfOk, OnOk};
ghost use Rattle.std.specs.BTreeMap.{IsFromIterResult};
ghost use Rattle.std.specs.String.{string_cmp};
ghost use Rattle.ipld_tree.specs.Put.{put};
ghost use Rattle.ipld_tree.specs.TreeOf.{tree_of, members_of};
ghost use Rattle.ipld_tree.specs.Walk.{nest};
ghost use Rattle.ipld_tokens.specs.ItemTree.{has_key};
ghost use Rattle.dag_cbor_format.specs.Encoding.{EncodesTree};
ghost use Rattle.dag_cbor_format.specs.Head.{head, IsArgument};
ghost use Rattle.dag_cbor.specs.Shallow.{Begins, Continues, Adds, Enters, AddsEntry, all_new, entry_of};

use dag_cbor_blocks::shallow::{SHALLOW, Stop};
use dag_cbor_format::Major;
use dag_cbor_format::head::read_head;
use dag_cbor_format::item_header::{
    LINK_TAG, read_bytes, read_key_text, read_link_bytes, read_text,
};
use ipld_cid::Cid;
use ipld_tree::{Ipld, list_capacity};
use std::alloc::{AllocError, Global};
use std::collections::BTreeMap;

// A map with at least this many entries is made of all of them at once, which is cheaper than
// inserting them one by one.
const MANY: u64 = 12;

// The functions below read a value after its head into `value`, and return the bytes after it. The
// values of the first four contain no others.

#[inline(never)]
fn read_byte_string<'a>(
    alloc: Global,
    value: &mut Ipld,
    length: u64,
    bytes: &'a [u8],
) -> Result<&'a [u8], Stop>
    ensures { (levels : ℕ) → IfOk result (λ rest.
        Continues levels Major.Bytes length bytes.entry.now (tree_of value.new) rest.now) }
{
    let (content, rest) = read_bytes(length, bytes)?;
    let copy = Vec::from_slice(alloc, content)?;
    *value = Ipld::Bytes(copy);
    Ok(rest)
}

#[inline(never)]
fn read_text_string<'a>(
    alloc: Global,
    value: &mut Ipld,
    length: u64,
    bytes: &'a [u8],
) -> Result<&'a [u8], Stop>
    ensures { (levels : ℕ) → IfOk result (λ rest. Continues levels Major.Text length bytes.entry.now
        (tree_of value.new) rest.now) }
{
    let (content, rest) = read_text(length, bytes)?;
    let copy = String::from_str(alloc, content)?;
    *value = Ipld::String(copy);
    Ok(rest)
}

#[inline(always)]
fn read_link<'a>(value: &mut Ipld, tag: u64, bytes: &'a [u8]) -> Result<&'a [u8], Stop>
    ensures { (levels : ℕ) → IfOk result (λ rest. Continues levels Major.Tag tag bytes.entry.now
        (tree_of value.new) rest.now) }
{
    if tag != LINK_TAG {
        return Err(Stop::Unread);
    }
    let (encoded, rest) = read_link_bytes(bytes)?;
    match Cid::try_from(encoded) {
        Ok(cid) => {
            *value = Ipld::Link(cid);
            Ok(rest)
        }
        Err(_) => Err(Stop::Unread),
    }
}

#[inline(always)]
fn read_simple<'a>(value: &mut Ipld, number: u64, bytes: &'a [u8]) -> Result<&'a [u8], Stop>
    ensures { (levels : ℕ) → IfOk result (λ rest.
        Continues levels Major.Simple number bytes.entry.now (tree_of value.new) rest.now) }
{
    match number {
        20 => {
            *value = Ipld::Bool(false);
            Ok(bytes)
        }
        21 => {
            *value = Ipld::Bool(true);
            Ok(bytes)
        }
        22 => {
            *value = Ipld::Null;
            Ok(bytes)
        }
        _ => Err(Stop::Unread),
    }
}

// `left` is the minimum number of bytes that the items or entries after the value need. `owed` is
// the same for everything around their list or map. So no list reserves capacity that the bytes
// cannot fill.
#[cycle(shallow)]
#[inline(always)]
fn read_content<'a>(
    alloc: Global,
    value: &mut Ipld,
    major: Major,
    argument: u64,
    bytes: &'a [u8],
    levels: usize,
    owed: usize,
    left: usize,
) -> Result<&'a [u8], Stop>
    requires { levels ≤ 32 }
    ensures { IfOk result (λ rest. Continues levels major argument bytes.entry.now
        (tree_of value.new) rest.now) }
{
    match major {
        Major::Unsigned => {
            *value = Ipld::Integer(i128::from(argument));
            Ok(bytes)
        }
        Major::Negative => {
            *value = Ipld::Integer(-1 - i128::from(argument));
            Ok(bytes)
        }
        Major::Bytes => read_byte_string(alloc, value, argument, bytes),
        Major::Text => read_text_string(alloc, value, argument, bytes),
        Major::List => read_list(
            alloc,
            value,
            argument,
            bytes,
            levels,
            owed.saturating_add(left),
        ),
        Major::Map => {
            if argument < MANY {
                read_map(
                    alloc,
                    value,
                    argument,
                    bytes,
                    levels,
                    owed.saturating_add(left),
                )
            } else {
                read_large_map(
                    alloc,
                    value,
                    argument,
                    bytes,
                    levels,
                    owed.saturating_add(left),
                )
            }
        }
        Major::Tag => read_link(value, argument, bytes),
        Major::Simple => read_simple(value, argument, bytes),
    }
}

// Creates an empty list with memory for `count` values, the first of those that a head announces.
// The bound keeps a head without values from reserving memory.
#[inline(always)]
fn with_announced<T>(alloc: Global, count: usize) -> Result<Vec<T>, AllocError>
    requires { count ≤ 4096 }
    ensures { IfOk result (λ values. values.items ≡ []) }
{
    Vec::with_capacity(alloc, count)
}

#[cycle(shallow)]
#[inline(never)]
fn read_list<'a>(
    alloc: Global,
    value: &mut Ipld,
    count: u64,
    bytes: &'a [u8],
    levels: usize,
    owed: usize,
) -> Result<&'a [u8], Stop>
    requires { levels ≤ 32 }
    ensures { IfOk result (λ rest. Continues levels Major.List count bytes.entry.now
        (tree_of value.new) rest.now) }
{
    let Some(inner) = levels.checked_sub(1) else {
        return Err(Stop::Unread);
    };
    if count as usize > bytes.len().saturating_sub(owed) {
        return Err(Stop::Unread);
    }
    let mut items = with_announced(alloc, list_capacity(Some(count as usize)))?;
    let mut rest = bytes;
    let mut left = count;
    while left > 0 {
        left -= 1;
        let after = add_item(alloc, &mut items, rest, inner, owed, left as usize)?;
        rest = after;
    }
    *value = Ipld::List(items);
    Ok(rest)
}

// Appends the value at the front of the bytes to a list, and returns the bytes after it.
#[cycle(shallow)]
#[inline(always)]
fn add_item<'a>(
    alloc: Global,
    items: &mut Vec<Ipld>,
    bytes: &'a [u8],
    levels: usize,
    owed: usize,
    left: usize,
) -> Result<&'a [u8], Stop>
    requires { levels ≤ 32 }
    ensures { IfOk result (λ rest. Adds levels items.old.items items.new.items bytes.entry.now
        rest.now) }
{
    let (major, argument, rest) = read_head(bytes)?;
    match major {
        Major::Unsigned => {
            push_item(items, Ipld::Integer(i128::from(argument)))?;
            Ok(rest)
        }
        Major::Negative => {
            push_item(items, Ipld::Integer(-1 - i128::from(argument)))?;
            Ok(rest)
        }
        _ => add_content(alloc, items, major, argument, rest, levels, owed, left),
    }
}

// Does the same after the value's head.
#[cycle(shallow)]
#[inline(always)]
fn add_content<'a>(
    alloc: Global,
    items: &mut Vec<Ipld>,
    major: Major,
    argument: u64,
    bytes: &'a [u8],
    levels: usize,
    owed: usize,
    left: usize,
) -> Result<&'a [u8], Stop>
    requires { levels ≤ 32 }
    ensures { IfOk result (λ rest. IsArgument major argument
        → Adds levels items.old.items items.new.items (head major argument ++ bytes.entry.now)
        rest.now) }
{
    let mut value = Ipld::Null;
    let rest = read_content(
        alloc, &mut value, major, argument, bytes, levels, owed, left,
    )?;
    push_item(items, value)?;
    Ok(rest)
}

#[inline(always)]
fn push_item<T: Drop>(items: &mut Vec<T>, value: T) -> Result<(), Stop>
    ensures { OnOk result (items.new.items ≡ items.old.items ++ value ∷ []) }
{
    if items.len() < items.capacity() {
        items.push_reserved(value);
        return Ok(());
    }
    items.push(value)?;
    Ok(())
}

#[cycle(shallow)]
#[inline(never)]
fn read_map<'a>(
    alloc: Global,
    value: &mut Ipld,
    count: u64,
    bytes: &'a [u8],
    levels: usize,
    owed: usize,
) -> Result<&'a [u8], Stop>
    requires { levels ≤ 32 }
    ensures { IfOk result (λ rest. Continues levels Major.Map count bytes.entry.now
        (tree_of value.new) rest.now) }
{
    let Some(inner) = levels.checked_sub(1) else {
        return Err(Stop::Unread);
    };
    let mut members = BTreeMap::new(alloc);
    let mut rest = bytes;
    let mut left = count;
    while left > 0 {
        left -= 1;
        let after = add_entry(alloc, &mut members, rest, inner, owed, left as usize)?;
        rest = after;
    }
    *value = Ipld::Map(members);
    Ok(rest)
}

// Inserts the pair at the front of the bytes into a map, which must not have its key yet, and
// returns the bytes after it.
#[cycle(shallow)]
#[inline(always)]
fn add_entry<'a>(
    alloc: Global,
    members: &mut BTreeMap<String, Ipld>,
    bytes: &'a [u8],
    levels: usize,
    owed: usize,
    left: usize,
) -> Result<&'a [u8], Stop>
    requires { levels ≤ 32 }
    ensures { IfOk result (λ rest. Enters levels members.old.entries members.new.entries
        bytes.entry.now rest.now) }
{
    let (key, behind) = read_key_text(bytes)?;
    let name = String::from_str(alloc, key)?;
    let (major, argument, more) = read_head(behind)?;
    let mut value = Ipld::Null;
    let rest = read_content(alloc, &mut value, major, argument, more, levels, owed, left)?;
    insert_member(members, name, value)?;
    Ok(rest)
}

// Inserts a value under a key that the map must not have yet.
#[inline(always)]
fn insert_member(members: &mut BTreeMap<String, Ipld>, key: String, value: Ipld) -> Result<(), Stop>
    ensures absent { OnOk result (has_key (string_bytes key) (members_of members.old.entries)
        ≡ false) }
    ensures put { OnOk result (members_of members.new.entries ≡ put (string_bytes key)
        (tree_of value) (members_of members.old.entries)) }
{
    match members.insert(key, value) {
        Ok(None) => Ok(()),
        Ok(Some(_)) => Err(Stop::Unread),
        Err(_) => Err(Stop::Memory),
    }
}

#[cycle(shallow)]
#[inline(never)]
fn read_large_map<'a>(
    alloc: Global,
    value: &mut Ipld,
    count: u64,
    bytes: &'a [u8],
    levels: usize,
    owed: usize,
) -> Result<&'a [u8], Stop>
    requires { levels ≤ 32 }
    ensures { IfOk result (λ rest. Continues levels Major.Map count bytes.entry.now
        (tree_of value.new) rest.now) }
{
    let Some(inner) = levels.checked_sub(1) else {
        return Err(Stop::Unread);
    };
    if count as usize > bytes.len().saturating_sub(owed) {
        return Err(Stop::Unread);
    }
    let mut entries = with_announced(alloc, list_capacity(Some(count as usize)))?;
    let mut rest = bytes;
    let mut left = count;
    while left > 0 {
        left -= 1;
        let after = push_entry(alloc, &mut entries, rest, inner, owed, left as usize)?;
        rest = after;
    }
    let members = map_of_distinct(alloc, entries)?;
    *value = Ipld::Map(members);
    Ok(rest)
}

// Appends the entry at the front of the bytes to the others, and returns the bytes after it.
#[cycle(shallow)]
#[inline(always)]
fn push_entry<'a>(
    alloc: Global,
    entries: &mut Vec<(String, Ipld)>,
    bytes: &'a [u8],
    levels: usize,
    owed: usize,
    left: usize,
) -> Result<&'a [u8], Stop>
    requires { levels ≤ 32 }
    ensures { IfOk result (λ rest. AddsEntry levels entries.old.items entries.new.items
        bytes.entry.now rest.now) }
{
    let (key, behind) = read_key_text(bytes)?;
    let name = String::from_str(alloc, key)?;
    let (major, argument, more) = read_head(behind)?;
    let mut value = Ipld::Null;
    let rest = read_content(alloc, &mut value, major, argument, more, levels, owed, left)?;
    push_item(entries, (name, value))?;
    Ok(rest)
}

// Returns the map of the entries. A later entry replaces an earlier one with the same key.
fn map_of(alloc: Global, entries: Vec<(String, Ipld)>) -> Result<BTreeMap<String, Ipld>, AllocError>
    ensures { IfOk result (λ members. IsFromIterResult string_cmp entries.items members) }
{
    entries.into_iter().collect(alloc)
}

// Returns the map of entries whose keys differ. If keys are equal, the map has fewer entries.
fn map_of_distinct(
    alloc: Global,
    entries: Vec<(String, Ipld)>,
) -> Result<BTreeMap<String, Ipld>, Stop>
    ensures { IfOk result (λ members. all_new (map entry_of entries.items) ≡ Some
        (members_of members.entries)) }
{
    let count = entries.len();
    let members = map_of(alloc, entries)?;
    if members.len() != count {
        return Err(Stop::Unread);
    }
    Ok(members)
}

/// Decodes the tree at the front of the bytes, and returns it with the bytes after it. The tree may
/// nest at most `levels` levels, and at most [`SHALLOW`](dag_cbor_blocks::shallow::SHALLOW) levels,
/// down to which the function recurses.
///
/// # Errors
///
/// [`Stop::Memory`] if an allocation fails. [`Stop::Unread`] if the bytes do not begin with a tree
/// that nests at most that deep.
pub fn read_front<'a>(
    alloc: Global,
    bytes: &'a [u8],
    levels: usize,
) -> Result<(Ipld, &'a [u8]), Stop>
    ensures { IfOk result (λ read. Begins levels (tree_of read.0) bytes.entry.now read.1.now) }
{
    let (major, argument, more) = read_head(bytes)?;
    let mut tree = Ipld::Null;
    let within = levels.min(SHALLOW);
    let rest = read_content(alloc, &mut tree, major, argument, more, within, 0, 0)?;
    Ok((tree, rest))
}

// Decodes a block from all of the bytes, if its tree nests at most `levels` levels.
pub(crate) fn read_shallow(alloc: Global, bytes: &[u8], levels: usize) -> Result<Ipld, Stop>
    requires { levels ≤ 32 }
    ensures found { IfOk result (λ tree. EncodesTree (tree_of tree) bytes.now) }
    ensures nested { IfOk result (λ tree. nest (tree_of tree) ≤ levels) }
{
    let (major, argument, more) = read_head(bytes)?;
    let mut tree = Ipld::Null;
    let rest = read_content(alloc, &mut tree, major, argument, more, levels, 0, 0)?;
    if rest.is_empty() {
        Ok(tree)
    } else {
        Err(Stop::Unread)
    }
}
