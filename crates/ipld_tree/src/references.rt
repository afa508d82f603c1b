//! The links of a tree.

ghost use Rattle.std.specs.Prelude.{◌≡◌, [], is_ok};
ghost use Rattle.std.specs.Map.{values_of};
ghost use Rattle.std.specs.Slice.Iter.{iter_rest};
ghost use Rattle.ipld_tree.specs.Appended.{Appends, Inserts};
ghost use Rattle.ipld_tree.specs.Levels.{walks};
ghost use Rattle.ipld_tree.specs.TreeOf.{tree_of};
ghost use Rattle.ipld_tree.specs.Walk.{own_link, links_among, links_of};

use crate::growing::{GrowingWalk, SHALLOW};
use crate::ipld::Ipld;
use ipld_cid::Cid;
use std::alloc::{AllocError, Global};
use std::collections::{BTreeMap, BTreeSet};
use std::slice;

impl Ipld {
    /// Appends the links of the tree, in the order of its walk, including repeats. Keys of maps are
    /// not links.
    ///
    /// It recurses for 32 levels, and continues by a loop. It allocates for the appended links. If
    /// lists or maps nest more than 32 levels deep, it also allocates for a stack that grows with
    /// their nesting.
    ///
    /// # Errors
    ///
    /// `AllocError` if an allocation fails. A prefix of the links, perhaps an empty one, has then
    /// been appended.
    pub fn references(&self, alloc: Global, set: &mut Vec<Cid>) -> Result<(), AllocError>
        ensures { Appends set.old.items set.new.items (links_of (tree_of self.now)) (is_ok result) }
    {
        add_links(alloc, set, self, SHALLOW)
    }

    /// Inserts the links of the tree into a set, every link once. Keys of maps are not links. The
    /// earlier elements of the set stay.
    ///
    /// It is a loop, so it walks trees of any depth. It allocates for the links that are new in the
    /// set, and for a stack that grows with the nesting of lists and maps.
    ///
    /// # Errors
    ///
    /// `AllocError` if an allocation fails. The links of a prefix of the walk, perhaps an empty
    /// one, are then in the set.
    pub fn references_into_set(
        &self,
        alloc: Global,
        set: &mut BTreeSet<Cid>,
    ) -> Result<(), AllocError>
        ensures { Inserts set.old set.new (links_of (tree_of self.now)) (is_ok result) }
    {
        let mut walk = GrowingWalk::new(alloc, self);
        while let Some(value) = walk.next()? {
            insert_link(set, value)?;
        }
        Ok(())
    }
}

// Inserts a value into a set if it is a link.
#[inline(always)]
fn insert_link(set: &mut BTreeSet<Cid>, value: &Ipld) -> Result<(), AllocError>
    ensures { Inserts set.old set.new (own_link (tree_of value.now)) (is_ok result) }
{
    if let Ipld::Link(cid) = value {
        match set.insert(*cid) {
            Ok(_) => {}
            Err(_) => return Err(AllocError),
        }
    }
    Ok(())
}

// Appends the links of a value, by recursion for at most `levels` levels, and by a loop below them.
#[cycle(add_links)]
#[inline(always)]
fn add_links(
    alloc: Global,
    set: &mut Vec<Cid>,
    value: &Ipld,
    levels: usize,
) -> Result<(), AllocError>
    ensures { Appends set.old.items set.new.items (links_of (tree_of value.now)) (is_ok result) }
{
    match value {
        Ipld::Link(_) => add_link(set, value),
        Ipld::List(items) => match levels.checked_sub(1) {
            Some(inner) => add_links_of_items(alloc, set, items.iter(), inner),
            None => add_links_by_loop(alloc, set, value),
        },
        Ipld::Map(members) => match levels.checked_sub(1) {
            Some(inner) => add_links_of_members(alloc, set, members, inner),
            None => add_links_by_loop(alloc, set, value),
        },
        _ => Ok(()),
    }
}

// Appends the links of the items of a list.
#[cycle(add_links)]
fn add_links_of_items(
    alloc: Global,
    set: &mut Vec<Cid>,
    items: slice::Iter<'_, Ipld>,
    levels: usize,
) -> Result<(), AllocError>
    ensures { Appends set.old.items set.new.items (links_among (walks (iter_rest items.entry)))
        (is_ok result) }
{
    for item in items {
        add_links(alloc, set, item, levels)?;
    }
    Ok(())
}

// Appends the links of the values of a map.
#[cycle(add_links)]
fn add_links_of_members(
    alloc: Global,
    set: &mut Vec<Cid>,
    members: &BTreeMap<String, Ipld>,
    levels: usize,
) -> Result<(), AllocError>
    ensures { Appends set.old.items set.new.items
        (links_among (walks (values_of members.now.entries))) (is_ok result) }
{
    for member in members.values() {
        add_links(alloc, set, member, levels)?;
    }
    Ok(())
}

// Appends the links of a value of any depth.
fn add_links_by_loop(alloc: Global, set: &mut Vec<Cid>, value: &Ipld) -> Result<(), AllocError>
    ensures { Appends set.old.items set.new.items (links_of (tree_of value.now)) (is_ok result) }
{
    let mut walk = GrowingWalk::new(alloc, value);
    while let Some(value) = walk.next()? {
        add_link(set, value)?;
    }
    Ok(())
}

// Appends a value if it is a link.
#[inline(always)]
fn add_link(set: &mut Vec<Cid>, value: &Ipld) -> Result<(), AllocError>
    ensures { Appends set.old.items set.new.items (own_link (tree_of value.now)) (is_ok result) }
{
    if let Ipld::Link(cid) = value {
        set.reserve(1)?;
        set.push_reserved(*cid);
    }
    Ok(())
}
