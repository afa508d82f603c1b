//! Maps that DAG-JSON reserves.

ghost use Rattle.std.specs.Prelude.{◌≡◌, [], ◌∷◌, Some, IfOk, MatchOption, option_map};
ghost use Rattle.ipld_tree.specs.Tree.{entries};
ghost use Rattle.ipld_tree.specs.TreeOf.{tree_of, members_of};
ghost use Rattle.ipld_tree.specs.Levels.{rest};
ghost use Rattle.ipld_tree.specs.Walk.{preorder};
ghost use Rattle.dag_json.specs.Reserved.{first_under, reads_as_content, is_reserved, first_reserved, Counts};

use ipld_tree::{Ipld, IpldIter};
use std::alloc::{AllocError, Global};
use std::collections::BTreeMap;

// Returns the first value of a map, if its key is `name`.
fn first_value<'a>(members: &'a BTreeMap<String, Ipld>, name: &str) -> Option<&'a Ipld>
    ensures { option_map (λ value. tree_of value.now) result ≡ first_under name.now
        (members_of members.now.entries) }
{
    let (key, value) = members.iter().next()?;
    if key.as_str() == name {
        Some(value)
    } else {
        None
    }
}

// Returns whether a value of the key `/` is read as the content of a link or of bytes.
fn reads_as_content(value: &Ipld) -> bool
    ensures { result ≡ reads_as_content (Some (tree_of value.now)) }
{
    match value {
        Ipld::String(_) => true,
        Ipld::Map(members) => matches!(first_value(members, "bytes"), Some(Ipld::String(_))),
        _ => false,
    }
}

/// Returns whether a map is reserved for links and bytes.
pub(crate) fn is_reserved(members: &BTreeMap<String, Ipld>) -> bool
    ensures { result ≡ is_reserved (entries (members_of members.now.entries)) }
{
    match first_value(members, "/") {
        Some(value) => reads_as_content(value),
        None => false,
    }
}

// Returns whether a value is a reserved map.
fn is_reserved_map(value: &Ipld) -> bool
    ensures { result ≡ is_reserved (tree_of value.now) }
{
    match value {
        Ipld::Map(members) => is_reserved(members),
        _ => false,
    }
}

// Returns the next value of a walk.
#[inline(always)]
fn next_value<'a>(walk: &mut IpldIter<'a>) -> Option<&'a Ipld>
    ensures { MatchOption result (rest walk.old ≡ []) (λ value.
        rest walk.old ≡ tree_of value.now ∷ rest walk.new) }
{
    walk.next()
}

// Returns the index of the first reserved map of a tree, in the order of its walk.
pub(crate) fn find_reserved(alloc: Global, tree: &Ipld) -> Result<Option<usize>, AllocError>
    ensures { IfOk result (λ place. Counts (first_reserved (preorder (tree_of tree.now))) place) }
{
    let mut walk = tree.iter(alloc)?;
    let mut place = 0usize;
    while let Some(value) = next_value(&mut walk) {
        if is_reserved_map(value) {
            return Ok(Some(place));
        }
        place = place.saturating_add(1);
    }
    Ok(None)
}
