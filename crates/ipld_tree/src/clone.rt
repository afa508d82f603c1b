//! Copies of a tree.

ghost use Rattle.std.specs.Prelude.{◌≡◌, ◌<◌, ◌+◌, [], ◌∷◌, ◌++◌, map, vec_len, vec_capacity, IfOk, OnOk, OnErr};
ghost use Rattle.ipld_tree.specs.Kind.{HoldsMemory};
ghost use Rattle.ipld_tree.specs.Tree.{text, bytes, list, entries};
ghost use Rattle.ipld_tree.specs.TreeOf.{tree_of, items_of, members_of};

mod by_loop;

use crate::growing::SHALLOW;
use crate::ipld::Ipld;
use crate::macros::{ListBuilder, MapBuilder};
use by_loop::copy_by_loop;
use std::alloc::{AllocError, Global};
use std::collections::BTreeMap;
use std::default::Emptied;

impl Clone for Ipld {
    ghost is_clone = { λ v w. tree_of w ≡ tree_of v };

    /// Returns a copy of the tree, equal to it, by a loop however deep the tree nests.
    /// [`Ipld::try_clone`] makes the same copy, and is faster if the tree has maps.
    ///
    /// It allocates for every String, Bytes, List and Map, by their own allocator. It also
    /// allocates for a stack that grows with the nesting of lists and maps.
    ///
    /// # Errors
    ///
    /// `AllocError` if an allocation fails. The copied part is then dropped by a loop.
    fn clone(&self) -> Result<Ipld, AllocError> {
        match self {
            Ipld::Null => Ok(Ipld::Null),
            Ipld::Bool(truth) => Ok(Ipld::Bool(*truth)),
            Ipld::Integer(number) => Ok(Ipld::Integer(*number)),
            Ipld::String(text) => copy_text(*text.allocator(), text),
            Ipld::Bytes(bytes) => copy_bytes(*bytes.allocator(), bytes),
            Ipld::List(items) if holds_scalars(items) => copy_scalars(*items.allocator(), items),
            Ipld::List(items) => copy_by_loop(*items.allocator(), self),
            Ipld::Map(members) => match members.first_key_value() {
                Some((key, _)) => copy_by_loop(*key.allocator(), self),
                None => Ok(Ipld::Map(BTreeMap::emptied(members)?)),
            },
            Ipld::Link(cid) => Ok(Ipld::Link(*cid)),
        }
    }
}

impl Ipld {
    /// Returns a copy of the tree, equal to it. It recurses for 32 levels of nesting and continues
    /// by a loop, so it copies trees of any depth.
    ///
    /// It allocates for every String, Bytes, List and Map. If lists or maps nest more than 32
    /// levels deep, it also allocates for a stack that grows with their nesting.
    ///
    /// # Errors
    ///
    /// `AllocError` if an allocation fails, which never happens for a Null, a Bool, an Integer or a
    /// Link. The copied part is then dropped, without recursion as deep as the tree nests.
    pub fn try_clone(&self, alloc: Global) -> Result<Ipld, AllocError>
        ensures copy { IfOk result (λ v. tree_of v ≡ tree_of self.now) }
        ensures scalar { OnErr result (HoldsMemory (tree_of self.now)) }
    {
        copy_within(alloc, self, SHALLOW)
    }
}

// A copy of a value, by recursion for at most `levels` levels, and by a loop below them.
#[cycle(copied)]
fn copy_within(alloc: Global, value: &Ipld, levels: usize) -> Result<Ipld, AllocError>
    ensures copy { IfOk result (λ v. tree_of v ≡ tree_of value.now) }
    ensures scalar { OnErr result (HoldsMemory (tree_of value.now)) }
{
    match value {
        Ipld::Null => Ok(Ipld::Null),
        Ipld::Bool(truth) => Ok(Ipld::Bool(*truth)),
        Ipld::Integer(number) => Ok(Ipld::Integer(*number)),
        Ipld::String(text) => copy_text(alloc, text),
        Ipld::Bytes(bytes) => copy_bytes(alloc, bytes),
        Ipld::List(items) => match levels.checked_sub(1) {
            Some(inner) => copy_list(alloc, items, inner),
            None => copy_by_loop(alloc, value),
        },
        Ipld::Map(members) => match levels.checked_sub(1) {
            Some(inner) => copy_map(alloc, members, inner),
            None => copy_by_loop(alloc, value),
        },
        Ipld::Link(cid) => Ok(Ipld::Link(*cid)),
    }
}

// This function and those below are separate, so that a copy of a value that does not allocate uses
// little of the stack.
#[inline(never)]
fn copy_text(alloc: Global, content: &str) -> Result<Ipld, AllocError>
    ensures { IfOk result (λ v. tree_of v ≡ text content.now) }
{
    Ipld::from_text(alloc, content)
}

#[inline(never)]
fn copy_bytes(alloc: Global, content: &[u8]) -> Result<Ipld, AllocError>
    ensures { IfOk result (λ v. tree_of v ≡ bytes content.now) }
{
    Ipld::from_byte_slice(alloc, content)
}

// A list of copies of the items.
#[cycle(copied)]
#[inline(never)]
fn copy_list(alloc: Global, items: &Vec<Ipld>, levels: usize) -> Result<Ipld, AllocError>
    ensures { IfOk result (λ v. tree_of v ≡ list (items_of items.now.items)) }
{
    let mut copies = ListBuilder::with_capacity(alloc, items.len())?;
    for item in items {
        add_copy(alloc, &mut copies.items, item, levels)?;
    }
    Ok(Ipld::List(copies.finish()))
}

// Adds a copy of a value to a list that has capacity for it.
#[cycle(copied)]
#[inline(always)]
fn add_copy(
    alloc: Global,
    copies: &mut Vec<Ipld>,
    value: &Ipld,
    levels: usize,
) -> Result<(), AllocError>
    requires { vec_len copies.old < vec_capacity copies.old }
    ensures copy { OnOk result (map tree_of copies.new.items ≡ map tree_of copies.old.items
        ++ tree_of value.now ∷ []) }
    ensures len { OnOk result (vec_len copies.new ≡ vec_len copies.old + 1) }
    ensures capacity { vec_capacity copies.new ≡ vec_capacity copies.old }
{
    match value {
        Ipld::Null => {
            copies.push_reserved(Ipld::Null);
            Ok(())
        }
        Ipld::Bool(truth) => {
            copies.push_reserved(Ipld::Bool(*truth));
            Ok(())
        }
        Ipld::Integer(number) => {
            copies.push_reserved(Ipld::Integer(*number));
            Ok(())
        }
        Ipld::Link(cid) => {
            copies.push_reserved(Ipld::Link(*cid));
            Ok(())
        }
        Ipld::Map(members) if is_flat(members) => add_flat_copy(copies, members),
        _ => add_new_copy(alloc, copies, value, levels),
    }
}

// Adds a copy of a value whose copy may allocate.
#[cycle(copied)]
#[inline(never)]
fn add_new_copy(
    alloc: Global,
    copies: &mut Vec<Ipld>,
    value: &Ipld,
    levels: usize,
) -> Result<(), AllocError>
    requires { vec_len copies.old < vec_capacity copies.old }
    ensures copy { OnOk result (map tree_of copies.new.items ≡ map tree_of copies.old.items
        ++ tree_of value.now ∷ []) }
    ensures len { OnOk result (vec_len copies.new ≡ vec_len copies.old + 1) }
    ensures capacity { vec_capacity copies.new ≡ vec_capacity copies.old }
{
    match copy_within(alloc, value, levels) {
        Ok(copy) => {
            copies.push_reserved(copy);
            Ok(())
        }
        Err(error) => Err(error),
    }
}

// A map of copies of the entries.
#[cycle(copied)]
#[inline(never)]
fn copy_map(
    alloc: Global,
    members: &BTreeMap<String, Ipld>,
    levels: usize,
) -> Result<Ipld, AllocError>
    ensures { IfOk result (λ v. tree_of v ≡ entries (members_of members.now.entries)) }
{
    if is_flat(members) {
        return copy_flat_map(members);
    }
    let mut copies = MapBuilder::new(alloc);
    for (key, member) in members.iter() {
        let name = String::from_str(alloc, key)?;
        match copy_within(alloc, member, levels) {
            Ok(copy) => copies.put(name, copy)?,
            Err(error) => return Err(error),
        }
    }
    Ok(Ipld::Map(copies.finish()))
}

// Whether the map contains no maps, and only lists that contain no lists or maps. Such a map is
// copied node by node. If an allocation fails, the copy is dropped by recursion, which is as
// shallow as the map.
fn is_flat(members: &BTreeMap<String, Ipld>) -> bool {
    for member in members.values() {
        match member {
            Ipld::List(items) => {
                if !holds_scalars(items) {
                    return false;
                }
            }
            Ipld::Map(_) => return false,
            _ => {}
        }
    }
    true
}

fn holds_scalars(items: &[Ipld]) -> bool {
    for item in items {
        match item {
            Ipld::List(_) => return false,
            Ipld::Map(_) => return false,
            _ => {}
        }
    }
    true
}

// A list of copies of the items. Lists and maps among them would be copied by separate loops.
#[inline(never)]
fn copy_scalars(alloc: Global, items: &Vec<Ipld>) -> Result<Ipld, AllocError>
    ensures { IfOk result (λ v. tree_of v ≡ list (items_of items.now.items)) }
{
    let mut copies = ListBuilder::with_capacity(alloc, items.len())?;
    for item in items {
        let copy = copy_scalar(alloc, item)?;
        copies.items.push_reserved(copy);
    }
    Ok(Ipld::List(copies.finish()))
}

// A copy of a value: directly if it contains no other values, and by a loop otherwise.
#[inline(always)]
fn copy_scalar(alloc: Global, value: &Ipld) -> Result<Ipld, AllocError>
    ensures { IfOk result (λ v. tree_of v ≡ tree_of value.now) }
{
    match value {
        Ipld::Null => Ok(Ipld::Null),
        Ipld::Bool(truth) => Ok(Ipld::Bool(*truth)),
        Ipld::Integer(number) => Ok(Ipld::Integer(*number)),
        Ipld::String(text) => copy_text(alloc, text),
        Ipld::Bytes(bytes) => copy_bytes(alloc, bytes),
        Ipld::Link(cid) => Ok(Ipld::Link(*cid)),
        _ => copy_by_loop(alloc, value),
    }
}

// Adds a copy of a map, in nodes like those of the map, to a list that has capacity for it.
#[inline(never)]
fn add_flat_copy(copies: &mut Vec<Ipld>, members: &BTreeMap<String, Ipld>) -> Result<(), AllocError>
    requires { vec_len copies.old < vec_capacity copies.old }
    ensures copy { OnOk result (map tree_of copies.new.items ≡ map tree_of copies.old.items
        ++ entries (members_of members.now.entries) ∷ []) }
    ensures len { OnOk result (vec_len copies.new ≡ vec_len copies.old + 1) }
    ensures capacity { vec_capacity copies.new ≡ vec_capacity copies.old }
{
    let copy = members.clone()?;
    copies.push_reserved(Ipld::Map(copy));
    Ok(())
}

// A map of copies of the entries, in nodes like those of the map. It does not search for keys.
#[inline(never)]
fn copy_flat_map(members: &BTreeMap<String, Ipld>) -> Result<Ipld, AllocError>
    ensures { IfOk result (λ v. tree_of v ≡ entries (members_of members.now.entries)) }
{
    let copies = members.clone()?;
    Ok(Ipld::Map(copies))
}
