//! Equality of trees.

ghost use Rattle.std.specs.Prelude.{◌≡◌, IsTrue};
ghost use Rattle.std.specs.Ordering.{on};
ghost use Rattle.ipld_tree.specs.Equal.{tree_eq, items_eq, members_eq};
ghost use Rattle.ipld_tree.specs.TreeOf.{tree_of, items_of, members_of};

use crate::ipld::Ipld;
use std::collections::BTreeMap;

/// Two values are equal if they are the same tree: of the same kind, with equal contents. The
/// comparison does not allocate.
///
/// It recurses once for every level of nesting that both have, so trees that nest too deep for the
/// call stack end the process. [`Ipld::same_tree`] compares trees of any depth by a loop.
impl PartialEq for Ipld {
    ghost use Rattle.std.specs.Cmp.{partial_equiv_from_equiv, on_equiv};
    ghost use Rattle.std.specs.Ordering.{on};
    ghost use Rattle.ipld_tree.specs.Equal.{tree_eq};
    ghost use Rattle.ipld_tree.specs.Lemmas.EqualLaws.{tree_equiv};
    ghost use Rattle.ipld_tree.specs.TreeOf.{tree_of};

    ghost eq = { on tree_of tree_eq };

    ghost laws = { partial_equiv_from_equiv (on_equiv tree_of tree_equiv) };

    fn eq(&self, other: &Ipld) -> bool {
        equal_trees(self, other)
    }
}

impl Eq for Ipld {
    ghost use Rattle.std.specs.Cmp.{on_equiv};
    ghost use Rattle.ipld_tree.specs.Lemmas.EqualLaws.{tree_equiv};
    ghost use Rattle.ipld_tree.specs.TreeOf.{tree_of};

    ghost laws = { on_equiv tree_of tree_equiv };
}

#[cycle(same)]
fn equal_trees(a: &Ipld, b: &Ipld) -> bool
    ensures { result ≡ tree_eq (tree_of a.now) (tree_of b.now) }
{
    match (a, b) {
        (Ipld::Null, Ipld::Null) => true,
        (Ipld::Bool(a), Ipld::Bool(b)) => *a == *b,
        (Ipld::Integer(a), Ipld::Integer(b)) => *a == *b,
        (Ipld::String(a), Ipld::String(b)) => a == b,
        (Ipld::Bytes(a), Ipld::Bytes(b)) => a == b,
        (Ipld::List(a), Ipld::List(b)) => equal_items(a, b),
        (Ipld::Map(a), Ipld::Map(b)) => equal_members(a, b),
        (Ipld::Link(a), Ipld::Link(b)) => *a == *b,
        _ => false,
    }
}

#[cycle(same)]
fn equal_items(a: &[Ipld], b: &[Ipld]) -> bool
    ensures { result ≡ items_eq (items_of a.now) (items_of b.now) }
{
    let mut others = b.iter();
    for item in a {
        match others.next() {
            Some(other) => {
                if !equal_trees(item, other) {
                    return false;
                }
            }
            None => return false,
        }
    }
    others.next().is_none()
}

#[cycle(same)]
fn equal_members(a: &BTreeMap<String, Ipld>, b: &BTreeMap<String, Ipld>) -> bool
    ensures { result ≡ members_eq (members_of a.now.entries) (members_of b.now.entries) }
{
    let mut others = b.iter();
    for (key, member) in a.iter() {
        match others.next() {
            Some((other_key, other)) => {
                if key != other_key || !equal_trees(member, other) {
                    return false;
                }
            }
            None => return false,
        }
    }
    others.next().is_none()
}
