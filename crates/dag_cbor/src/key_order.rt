//! The entries of a map in the order in which they are written.

ghost use Rattle.std.specs.Prelude.{◌≡◌, IsTrue, IfOk};
ghost use Rattle.dag_cbor.specs.Writing.{after_key, lent, in_order};

use ipld_tree::Ipld;
use std::alloc::{AllocError, Global};
use std::collections::BTreeMap;

// Returns whether no key is shorter than a key before it in byte order. The keys are then in
// length-first order already.
pub(crate) fn lengths_ascend(members: &BTreeMap<String, Ipld>) -> bool
    ensures { IsTrue result → in_order (after_key members.now.entries)
        ≡ after_key members.now.entries }
{
    let mut longest = 0;
    for (key, _) in members.iter() {
        if key.len() < longest {
            return false;
        }
        longest = key.len();
    }
    true
}

// Returns the entries, with the shorter keys first. The entries come in byte order, and those with
// keys of one length stay in it.
pub(crate) fn sorted_entries(
    alloc: Global,
    members: &BTreeMap<String, Ipld>,
) -> Result<Vec<(&String, &Ipld)>, AllocError>
    ensures { IfOk result (λ v. lent v.items ≡ in_order (after_key members.now.entries)) }
{
    let mut entries = Vec::with_capacity(alloc, members.len())?;
    for entry in members.iter() {
        entries.push(entry)?;
    }
    entries.sort_by_key(|entry| entry.0.len())?;
    Ok(entries)
}
