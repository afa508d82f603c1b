//! The reading of options, lists and maps.

ghost use Rattle.std.specs.Prelude.{◌≡◌, ◌≢◌, ℕ, List, Option, Some, None, Ok, option_map, map, IfOk, IfErr};
ghost use Rattle.ipld_de.specs.Composites.{option_reading, read_all, list_reading, read_entries, keyed_reading, keyed_contents, OptionReadError, ItemsError, ListReadError, EntriesError, KeyedReadError};
ghost use Rattle.ipld_de.specs.Cursors.{left, entries_left};
ghost use Rattle.ipld_de.specs.ImageReader.{BeginAllRead};
ghost use Rattle.ipld_ser.specs.Image.{RejectsAs};
ghost use Rattle.ipld_tree.specs.IsWhole.{Ascends};
ghost use Rattle.ipld_tree.specs.Tree.{null};
ghost use Rattle.ipld_tree.specs.TreeOf.{tree_of};

use crate::deserialize::Deserialize;
use crate::deserializer::Deserializer;
use crate::image_reader::{ImageReader, Unread};
use crate::key::DeserializeKey;
use crate::map::MapDeserializer;
use crate::part::{Items, Members, read_part};
use crate::sequence::SeqDeserializer;
use ipld_ser::SerdeError;
use ipld_tree::Ipld;
use std::alloc::Global;
use std::collections::BTreeMap;

/// `None` for a Null. Any other tree is read as the content.
impl<T: Deserialize> Deserialize for Option<T> {
    ghost Contents = { Option T.Contents };

    ghost contents = { option_map T.contents };

    ghost reads = { option_reading T.reads };

    ghost read_error = { OptionReadError T.read_error };

    #[inline(always)]
    fn deserialize(alloc: Global, value: Ipld) -> Result<Option<T>, SerdeError>
        ensures ok { IfOk result (λ v. option_reading T.reads (tree_of value) ≡ Some
            (option_map T.contents v)) }
        ensures err { IfErr result (λ e. RejectsAs (option_reading T.reads (tree_of value))
            (OptionReadError T.read_error (tree_of value)) e) }
        ensures none { tree_of value ≡ null → result ≡ Ok None }
    {
        match value.deserialize_option()? {
            None => Ok(None),
            Some(content) => Ok(Some(T::deserialize(alloc, content)?)),
        }
    }

    #[inline(always)]
    fn read_image<R: ImageReader>(
        alloc: Global,
        reader: &mut R,
        levels: usize,
    ) -> Result<Option<T>, Unread> {
        if reader.read_null() {
            return Ok(None);
        }
        Ok(Some(T::read_image(alloc, reader, levels)?))
    }

    #[inline(always)]
    fn discard(self) {
        if let Some(content) = self {
            content.discard();
        }
    }
}

/// A List whose items are all read. Bytes are not a list of numbers: they are read as a
/// [`ByteBuf`](ipld_ser::ByteBuf).
impl<T: Deserialize> Deserialize for Vec<T> {
    ghost Contents = { List T.Contents };

    ghost contents = { λ v. map T.contents v.items };

    ghost reads = { list_reading T.reads };

    ghost read_error = { ListReadError T.reads T.read_error };

    #[inline(always)]
    fn deserialize(alloc: Global, value: Ipld) -> Result<Vec<T>, SerdeError> {
        read_items(alloc, value.deserialize_seq()?)
    }

    fn read_image<R: ImageReader>(
        alloc: Global,
        reader: &mut R,
        levels: usize,
    ) -> Result<Vec<T>, Unread> {
        let Some(inner) = levels.checked_sub(1) else {
            return Err(Unread::Rejected);
        };
        let count = reader.begin_list()?;
        read_image_items(alloc, reader, inner, count)
    }

    fn discard(self) {
        for item in self {
            item.discard();
        }
    }
}

// Reads all the items in order.
fn read_items<T: Deserialize>(
    alloc: Global,
    mut items: SeqDeserializer,
) -> Result<Vec<T>, SerdeError>
    ensures ok { IfOk result (λ v. read_all T.reads (left items) ≡ Some (map T.contents v.items)) }
    ensures err { IfErr result (λ e. RejectsAs (read_all T.reads (left items))
        (ItemsError T.reads T.read_error (left items)) e) }
{
    let mut all = Items::with_capacity(alloc, items.remaining())?;
    while let Some(item) = items.next_element(alloc)? {
        all.push(item)?;
    }
    Ok(all.into_vec())
}

// The maximum capacity that is reserved by the head of a list, since more items may not follow.
const RESERVED: usize = 32;

// Reads `count` items part by part.
#[inline(always)]
fn read_image_items<T: Deserialize, R: ImageReader>(
    alloc: Global,
    reader: &mut R,
    levels: usize,
    count: usize,
) -> Result<Vec<T>, Unread>
    ensures ok { IfOk result (λ v. BeginAllRead (R.Begins levels) T.reads T.contents count v.items
        (R.contents reader.old) (R.contents reader.new)) }
    ensures never_missing { IfErr result (λ e. e ≢ Unread.MissingField) }
{
    let mut all = Items::with_announced(alloc, count.min(RESERVED))?;
    let mut left = count;
    while left > 0 {
        left -= 1;
        let item = read_part(alloc, reader, levels)?;
        all.push(item)?;
    }
    Ok(all.into_vec())
}

/// A Map whose keys and values are all read. Strings are moved.
impl<K: DeserializeKey, T: Deserialize> Deserialize for BTreeMap<K, T> {
    ghost Contents = { List (List ℕ × T.Contents) };

    ghost contents = { λ m. keyed_contents K.text_of T.contents m.entries };

    ghost reads = { keyed_reading K.is_key T.reads };

    ghost read_error = { KeyedReadError K.is_key K.key_error T.reads T.read_error };

    #[inline(always)]
    fn deserialize(alloc: Global, value: Ipld) -> Result<BTreeMap<K, T>, SerdeError> {
        read_members(alloc, value.deserialize_map()?)
    }

    fn discard(self) {
        for (_, value) in self {
            value.discard();
        }
    }
}

// Reads all the entries in the order of the keys.
fn read_members<K: DeserializeKey, T: Deserialize>(
    alloc: Global,
    mut members: MapDeserializer,
) -> Result<BTreeMap<K, T>, SerdeError>
    requires { Ascends (entries_left members) }
    ensures ok { IfOk result (λ m. read_entries K.is_key T.reads (entries_left members) ≡ Some
        (keyed_contents K.text_of T.contents m.entries)) }
    ensures err { IfErr result (λ e. RejectsAs (read_entries K.is_key T.reads
        (entries_left members)) (EntriesError K.is_key K.key_error T.reads T.read_error
        (entries_left members)) e) }
{
    let mut all = Members::new(alloc);
    while let Some((text, value)) = members.next_entry() {
        let key = match K::from_text(alloc, text) {
            Ok(key) => key,
            Err(error) => {
                value.discard();
                return Err(error);
            }
        };
        let member = T::deserialize(alloc, value)?;
        all.insert(key, member)?;
    }
    Ok(all.into_map())
}
