//! Equality of trees of any depth.

ghost use Rattle.std.specs.Prelude.{◌≡◌, ◌<◌, ◌==◌, IfOk, OnErr};
ghost use Rattle.ipld_tree.specs.Equal.{tree_eq};
ghost use Rattle.ipld_tree.specs.Heads.{head_eq, keys_eq};
ghost use Rattle.ipld_tree.specs.TreeOf.{tree_of, members_of};
ghost use Rattle.ipld_tree.specs.Walk.{nest};

use crate::growing::GrowingWalk;
use crate::ipld::Ipld;
use std::alloc::{AllocError, Global};
use std::collections::BTreeMap;

impl Ipld {
    /// Returns whether two values are equal. The result is that of `==`. It is a loop over both
    /// walks and doesn't recurse, so it compares trees of any depth.
    ///
    /// If both are lists or maps, it allocates for stacks that grow with the nesting of both. It
    /// stops at the first value that differs.
    ///
    /// # Errors
    ///
    /// `AllocError` if an allocation fails.
    pub fn same_tree(&self, alloc: Global, other: &Ipld) -> Result<bool, AllocError>
        ensures same { IfOk result (λ same. same ≡ tree_eq (tree_of self.now) (tree_of other.now)) }
        ensures nested { OnErr result ((0 < nest (tree_of self.now))
            × (0 < nest (tree_of other.now))) }
    {
        if holds_none(self) || holds_none(other) {
            return Ok(same_head(self, other));
        }
        let mut ours = GrowingWalk::new(alloc, self);
        let mut theirs = GrowingWalk::new(alloc, other);
        while let Some(value) = ours.next()? {
            match theirs.next()? {
                Some(other) => {
                    if !same_head(value, other) {
                        return Ok(false);
                    }
                }
                None => return Ok(false),
            }
        }
        Ok(theirs.next()?.is_none())
    }
}

// Whether a value is neither a list nor a map.
fn holds_none(value: &Ipld) -> bool
    ensures { result ≡ (nest (tree_of value.now) == 0) }
{
    !matches!(value, Ipld::List(_) | Ipld::Map(_))
}

// Whether two values are of the same kind, with equal contents apart from the values in them. Lists
// are compared only by length, and maps by their keys.
fn same_head(a: &Ipld, b: &Ipld) -> bool
    ensures { result ≡ head_eq (tree_of a.now) (tree_of b.now) }
{
    match (a, b) {
        (Ipld::Null, Ipld::Null) => true,
        (Ipld::Bool(a), Ipld::Bool(b)) => *a == *b,
        (Ipld::Integer(a), Ipld::Integer(b)) => *a == *b,
        (Ipld::String(a), Ipld::String(b)) => a == b,
        (Ipld::Bytes(a), Ipld::Bytes(b)) => a == b,
        (Ipld::List(a), Ipld::List(b)) => a.len() == b.len(),
        (Ipld::Map(a), Ipld::Map(b)) => same_keys(a, b),
        (Ipld::Link(a), Ipld::Link(b)) => *a == *b,
        _ => false,
    }
}

fn same_keys(a: &BTreeMap<String, Ipld>, b: &BTreeMap<String, Ipld>) -> bool
    ensures { result ≡ keys_eq (members_of a.now.entries) (members_of b.now.entries) }
{
    let mut others = b.iter();
    for (key, _) in a.iter() {
        match others.next() {
            Some((other_key, _)) => {
                if key != other_key {
                    return false;
                }
            }
            None => return false,
        }
    }
    others.next().is_none()
}
