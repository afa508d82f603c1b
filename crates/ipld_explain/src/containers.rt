//! Options, lists and maps, explained.

ghost use Rattle.std.specs.Prelude.{◌≡◌, option_map, IfOk, IfSome};
ghost use Rattle.ipld_tree.specs.Tree.{Tree, list, entries};
ghost use Rattle.ipld_tree.specs.IsWhole.{Ascends};
ghost use Rattle.ipld_tree.specs.TreeOf.{tree_of};
ghost use Rattle.ipld_de.specs.Composites.{list_reading, map_reading, ItemsError, EntriesError};
ghost use Rattle.ipld_de.specs.Cursors.{left, entries_left};
ghost use Rattle.ipld_ser.specs.Image.{NoError};
ghost use Rattle.ipld_ser.specs.Keys.{any_text};
ghost use Rattle.ipld_explain.specs.Composites.{OptionFails, ListFails, MapFails};
ghost use Rattle.ipld_explain.specs.Failures.{failure_of, Explains};

use crate::cursors::{next_entry, next_item};
use crate::explain::Explain;
use crate::explanation::{Expected, Explanation, Segment};
use ipld_de::{Deserializer, MapDeserializer, SeqDeserializer};
use ipld_tree::Ipld;
use std::alloc::{AllocError, Global};
use std::collections::BTreeMap;

/// Null is read. Otherwise the content is explained.
impl<T: Explain> Explain for Option<T> {
    ghost fails = { OptionFails T.fails };

    fn explain(alloc: Global, value: Ipld) -> Result<Option<Explanation>, AllocError> {
        match value {
            Ipld::Null => Ok(None),
            content => T::explain(alloc, content),
        }
    }
}

/// The first item that isn't read.
impl<T: Explain> Explain for Vec<T> {
    ghost fails = { ListFails T.reads T.fails };

    fn explain(alloc: Global, value: Ipld) -> Result<Option<Explanation>, AllocError> {
        let found = value.kind();
        match value.deserialize_seq() {
            Ok(items) => explain_items::<T>(alloc, items),
            Err(error) => Ok(Some(Explanation::at_value(alloc, found, Expected::List, error))),
        }
    }
}

// Explains the first item that isn't read.
fn explain_items<T: Explain>(
    alloc: Global,
    mut items: SeqDeserializer,
) -> Result<Option<Explanation>, AllocError>
    ensures why { IfOk result (λ found. Explains (list_reading T.reads) (ListFails T.reads T.fails)
        (list (left items)) (option_map failure_of found)) }
    ensures error { IfOk result (λ found. IfSome found (λ explanation.
        ItemsError T.reads T.read_error (left items) explanation.error)) }
{
    let count = items.remaining();
    let mut index = 0usize;
    while index < count {
        let Some(item) = next_item(alloc, &mut items)? else {
            return Ok(None);
        };
        if let Some(explanation) = T::explain(alloc, item)? {
            return Ok(Some(explanation.within_segment(Segment::Index(index))?));
        }
        index += 1;
    }
    Ok(None)
}

/// The first value that isn't read, in byte order of the keys.
impl<T: Explain> Explain for BTreeMap<String, T> {
    ghost fails = { MapFails T.reads T.fails };

    fn explain(alloc: Global, value: Ipld) -> Result<Option<Explanation>, AllocError> {
        let found = value.kind();
        match value.deserialize_map() {
            Ok(map) => explain_values::<T>(alloc, map),
            Err(error) => Ok(Some(Explanation::at_value(alloc, found, Expected::Map, error))),
        }
    }
}

// Explains the first value that isn't read.
fn explain_values<T: Explain>(
    alloc: Global,
    mut map: MapDeserializer,
) -> Result<Option<Explanation>, AllocError>
    requires { Ascends (entries_left map) }
    ensures why { IfOk result (λ found. Explains (map_reading T.reads) (MapFails T.reads T.fails)
        (entries (entries_left map)) (option_map failure_of found)) }
    ensures error { IfOk result (λ found. IfSome found (λ explanation.
        EntriesError any_text NoError T.reads T.read_error (entries_left map) explanation.error)) }
{
    while let Some((key, value)) = next_entry(alloc, &mut map)? {
        if let Some(explanation) = T::explain(alloc, value)? {
            return Ok(Some(explanation.within_segment(Segment::Key(key))?));
        }
    }
    Ok(None)
}
