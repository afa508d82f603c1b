//! Dropping trees of any depth.

ghost use Rattle.std.specs.Prelude.{◌≡◌, ◌+◌, ◌<◌, ◌≤◌, [], IfSome, MatchResult};
ghost use Rattle.std.specs.Map.{values_of};
ghost use Rattle.ipld_tree.specs.Size.{size, total};

use crate::growing::SHALLOW;
use crate::ipld::Ipld;
use crate::nesting::nesting_within;
use std::collections::BTreeMap;
use std::mem;

impl Ipld {
    /// Drops the tree, however deep it nests.
    ///
    /// It uses a bounded part of the call stack, and does not allocate. Its time is linear in the
    /// number of values, plus the search for the last key of every map. A tree of at most 32 levels
    /// is dropped as usual, and a deeper one by a loop.
    ///
    /// The ordinary drop recurses once for every level of nesting, so it ends the process if a tree
    /// nests too deep for the call stack. Call this for a tree from untrusted input instead. To
    /// drop a vector of values, call it on `Ipld::List(values)`, and for a map of them on
    /// `Ipld::Map(members)`.
    pub fn discard(self) {
        if nesting_within(&self, SHALLOW).is_none() {
            discard_by_loop(self);
        }
    }
}

// Drops the tree by a loop.
#[inline(never)]
fn discard_by_loop(value: Ipld) {
    let mut left = descend(Ipld::Null, value);
    while let Some((outer, value)) = ascend(left) {
        left = descend(outer, value);
    }
}

// Descends into the first value in `value`, into the first value in that one, and so on. Drops the
// last of these, which contains no values. The first value of every container is replaced by the
// container around it, and that of `value` itself by `outer`. Returns the innermost container,
// which contains all that is left.
#[tactic(auto, using(crate::proofs::Sizes::size_list, crate::proofs::Sizes::size_map, crate::proofs::Sizes::size_positive))]
fn descend(mut outer: Ipld, mut value: Ipld) -> Ipld
    ensures { size result < size outer + size value }
{
    loop {
        match value {
            Ipld::List(mut items) => match exchange_first_item(&mut items, outer) {
                Ok(first) => {
                    outer = Ipld::List(items);
                    value = first;
                }
                Err(outer) => {
                    items.destroy_empty();
                    return outer;
                }
            },
            Ipld::Map(mut members) => match exchange_first_member(&mut members, outer) {
                Ok(first) => {
                    outer = Ipld::Map(members);
                    value = first;
                }
                Err(outer) => {
                    members.destroy_empty();
                    return outer;
                }
            },
            Ipld::Null => return outer,
            Ipld::Bool(_) => return outer,
            Ipld::Integer(_) => return outer,
            Ipld::String(_) => return outer,
            Ipld::Bytes(_) => return outer,
            Ipld::Link(_) => return outer,
        }
    }
}

// Takes the last value out of a container. If the container is then empty, that value is the outer
// container, and the loop continues with it.
#[tactic(auto, using(crate::proofs::Sizes::size_list, crate::proofs::Sizes::size_map, crate::proofs::Sizes::total_append, crate::proofs::Sizes::total_cons, crate::proofs::Sizes::total_entries))]
fn ascend(mut container: Ipld) -> Option<(Ipld, Ipld)>
    ensures { IfSome result (λ p. size p.0 + size p.1 ≤ size container) }
{
    loop {
        match container {
            Ipld::List(mut items) => {
                let Some(value) = items.pop() else {
                    items.destroy_empty();
                    return None;
                };
                if !items.is_empty() {
                    return Some((Ipld::List(items), value));
                }
                items.destroy_empty();
                container = value;
            }
            Ipld::Map(mut members) => {
                let Some((_, value)) = members.pop_last() else {
                    members.destroy_empty();
                    return None;
                };
                if !members.is_empty() {
                    return Some((Ipld::Map(members), value));
                }
                members.destroy_empty();
                container = value;
            }
            Ipld::Null => return None,
            Ipld::Bool(_) => return None,
            Ipld::Integer(_) => return None,
            Ipld::String(_) => return None,
            Ipld::Bytes(_) => return None,
            Ipld::Link(_) => return None,
        }
    }
}

// Replaces the first item by a value, and returns that item. Returns the value itself if the list
// is empty.
fn exchange_first_item(items: &mut Vec<Ipld>, value: Ipld) -> Result<Ipld, Ipld>
    ensures kept { MatchResult result (λ x. total items.new.items + size x ≡ total items.old.items
        + size value) (λ x. x ≡ value) }
    ensures found { MatchResult result (λ x. size x ≤ total items.old.items) (λ _.
        items.new.items ≡ []) }
{
    match items.first_mut() {
        Some(first) => Ok(mem::replace(first, value)),
        None => Err(value),
    }
}

// Replaces the value at the first key, and returns the earlier one. Returns the value itself if the
// map is empty.
fn exchange_first_member(members: &mut BTreeMap<String, Ipld>, value: Ipld) -> Result<Ipld, Ipld>
    ensures kept { MatchResult result (λ x. total (values_of members.new.entries) + size x ≡ total
        (values_of members.old.entries) + size value) (λ x. x ≡ value) }
    ensures found { MatchResult result (λ x. size x ≤ total (values_of members.old.entries)) (λ _.
        members.new.entries ≡ []) }
{
    match members.first_entry() {
        Some(mut first) => Ok(first.insert(value)),
        None => Err(value),
    }
}
