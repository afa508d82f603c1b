//! The nesting of shallow trees.

ghost use Rattle.std.specs.Prelude.{◌≡◌, ◌<◌, ◌≤◌, suc, IfSome, OnSome, MatchOption, string_cmp};
ghost use Rattle.std.specs.List.Sorted.{IsStrictlySortedBy};
ghost use Rattle.std.specs.Map.{keys_of, values_of};
ghost use Rattle.std.specs.Slice.Iter.{iter_rest};
ghost use Rattle.ipld_tree.specs.Cursors.{AllWhole};
ghost use Rattle.ipld_tree.specs.IsWhole.{IsWhole};
ghost use Rattle.ipld_tree.specs.Levels.{deepest};
ghost use Rattle.ipld_tree.specs.TreeOf.{tree_of};
ghost use Rattle.ipld_tree.specs.Walk.{nest};

use crate::ipld::Ipld;
use crate::iter::know_bytes;
use std::collections::BTreeMap;
use std::slice;

// The nesting of lists and maps in a value, or `None` if it is more than `levels`. It recurses once
// for every level, at most `levels` deep, and does not allocate.
#[cycle(nesting_within)]
#[inline(always)]
pub(crate) fn nesting_within(value: &Ipld, levels: usize) -> Option<usize>
    ensures nested { MatchOption result (levels < nest (tree_of value.now)) (λ n.
        n ≡ nest (tree_of value.now)) }
    ensures within { IfSome result (λ n. n ≤ levels) }
    ensures whole { OnSome result (IsWhole (tree_of value.now)) }
{
    match value {
        Ipld::List(items) => list_nesting_within(items.iter(), levels),
        Ipld::Map(members) => map_nesting_within(members, levels),
        // The number is read so that the proof has the bounds of its type.
        Ipld::Integer(number) => {
            let _number = *number;
            Some(0)
        }
        Ipld::Bytes(bytes) => {
            know_bytes(bytes);
            Some(0)
        }
        _ => Some(0),
    }
}

// The nesting of a list of the items.
#[cycle(nesting_within)]
fn list_nesting_within(items: slice::Iter<'_, Ipld>, levels: usize) -> Option<usize>
    ensures nested { MatchOption result (levels < suc (deepest (iter_rest items.entry))) (λ n.
        n ≡ suc (deepest (iter_rest items.entry))) }
    ensures within { IfSome result (λ n. n ≤ levels) }
    ensures whole { OnSome result (AllWhole (iter_rest items.entry)) }
{
    let inner = levels.checked_sub(1)?;
    let mut greatest = 0;
    for item in items {
        greatest = greatest.max(nesting_within(item, inner)?);
    }
    Some(greatest + 1)
}

// The nesting of a map of the members.
#[cycle(nesting_within)]
fn map_nesting_within(members: &BTreeMap<String, Ipld>, levels: usize) -> Option<usize>
    ensures nested { MatchOption result (levels < suc (deepest (values_of members.now.entries)))
        (λ n. n ≡ suc (deepest (values_of members.now.entries))) }
    ensures within { IfSome result (λ n. n ≤ levels) }
    ensures ordered { OnSome result (IsStrictlySortedBy string_cmp (keys_of members.now.entries)) }
    ensures whole { OnSome result (AllWhole (values_of members.now.entries)) }
{
    let inner = levels.checked_sub(1)?;
    let mut greatest = 0;
    for member in members.values() {
        greatest = greatest.max(nesting_within(member, inner)?);
    }
    Some(greatest + 1)
}
