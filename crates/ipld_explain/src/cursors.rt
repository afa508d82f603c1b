//! Trees taken one by one from lists and maps.

ghost use Rattle.std.specs.Prelude.{◌≡◌, IfOk, MatchOption, string_bytes};
ghost use Rattle.ipld_tree.specs.Tree.{no_items, item, no_members, member};
ghost use Rattle.ipld_tree.specs.TreeOf.{tree_of};
ghost use Rattle.ipld_de.specs.Cursors.{left, entries_left};

use ipld_de::{MapDeserializer, SeqDeserializer};
use ipld_tree::Ipld;
use std::alloc::{AllocError, Global};

// Returns the next item of a list.
pub(crate) fn next_item(
    alloc: Global,
    items: &mut SeqDeserializer,
) -> Result<Option<Ipld>, AllocError>
    ensures { IfOk result (λ found. MatchOption found
        (left items.old ≡ no_items)
        (λ v. left items.old ≡ item (tree_of v) (left items.new))) }
{
    match items.next_element::<Ipld>(alloc) {
        Ok(found) => Ok(found),
        Err(_) => Err(AllocError),
    }
}

// Returns the next entry of a map.
pub(crate) fn next_entry(
    alloc: Global,
    map: &mut MapDeserializer,
) -> Result<Option<(String, Ipld)>, AllocError>
    ensures { IfOk result (λ found. MatchOption found
        (entries_left map.old ≡ no_members)
        (λ e. entries_left map.old ≡ member (string_bytes e.0) (tree_of e.1)
        (entries_left map.new))) }
{
    match map.next_key::<String>(alloc) {
        Ok(None) => Ok(None),
        Ok(Some(key)) => match map.next_value::<Ipld>(alloc) {
            Ok(value) => Ok(Some((key, value))),
            Err(_) => Err(AllocError),
        },
        Err(_) => Err(AllocError),
    }
}
