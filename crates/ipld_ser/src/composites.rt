//! The images of options, lists and maps.

ghost use Rattle.std.specs.Prelude.{◌≡◌, Some, None, IsOk, OnOk, IfOk, IfErr};
ghost use Rattle.ipld_ser.specs.Composites.{option_image, list_image, array_image, keyed_image, OptionError, ListError, MapError};
ghost use Rattle.ipld_ser.specs.Image.{RejectsAs};
ghost use Rattle.ipld_ser.specs.ImageWriter.{Appends, written_image};
ghost use Rattle.ipld_tree.specs.TreeOf.{tree_of};

use crate::error::SerdeError;
use crate::image_writer::{ImageWriter, Unwritten};
use crate::key::SerializeKey;
use crate::serialize::Serialize;
use crate::serializer::Serializer;
use ipld_tree::Ipld;
use std::alloc::Global;
use std::collections::BTreeMap;

/// The image of `None` is Null. The image of `Some` is the image of the content.
impl<T: Serialize> Serialize for Option<T> {
    ghost image = { option_image T.image };

    ghost write_error = { OptionError T.write_error };

    #[inline(always)]
    fn serialize(&self, alloc: Global, serializer: Serializer) -> Result<Ipld, SerdeError>
        ensures ok { IfOk result (λ t. option_image T.image self.now ≡ Some (tree_of t)) }
        ensures err { IfErr result (λ e. RejectsAs (option_image T.image self.now)
            (OptionError T.write_error self.now) e) }
        ensures none { self.now ≡ None → IsOk result }
    {
        match self {
            None => serializer.serialize_none(),
            Some(value) => serializer.serialize_some(alloc, value),
        }
    }

    #[inline(always)]
    fn write_image<W: ImageWriter>(&self, alloc: Global, writer: &mut W) -> Result<(), Unwritten> {
        match self {
            None => writer.write_null(),
            Some(value) => value.write_image(alloc, writer),
        }
    }
}

/// The image is a List of the images of the elements, even if they are numbers. For Bytes, use a
/// [`ByteBuf`](crate::ByteBuf).
impl<T: Serialize> Serialize for Vec<T> {
    ghost image = { λ v. list_image T.image v.items };

    ghost write_error = { λ v. ListError T.image T.write_error v.items };

    #[inline(always)]
    fn serialize(&self, alloc: Global, serializer: Serializer) -> Result<Ipld, SerdeError> {
        list_of(alloc, serializer, self.as_slice())
    }

    #[inline(always)]
    fn write_image<W: ImageWriter>(&self, alloc: Global, writer: &mut W) -> Result<(), Unwritten> {
        write_list(alloc, writer, self.as_slice())
    }
}

/// The image is a List of the images of the elements.
impl<'a, T: Serialize> Serialize for &'a [T] {
    ghost image = { λ s. list_image T.image s.now };

    ghost write_error = { λ s. ListError T.image T.write_error s.now };

    #[inline(always)]
    fn serialize(&self, alloc: Global, serializer: Serializer) -> Result<Ipld, SerdeError> {
        list_of(alloc, serializer, self)
    }

    #[inline(always)]
    fn write_image<W: ImageWriter>(&self, alloc: Global, writer: &mut W) -> Result<(), Unwritten> {
        write_list(alloc, writer, self)
    }
}

/// The image is a List of the images of the elements.
impl<T: Serialize, const N: usize> Serialize for [T; N] {
    ghost image = { array_image N T.image };

    ghost write_error = { ListError T.image T.write_error };

    #[inline(always)]
    fn serialize(&self, alloc: Global, serializer: Serializer) -> Result<Ipld, SerdeError> {
        let items: &[T] = self;
        list_of(alloc, serializer, items)
    }

    #[inline(always)]
    fn write_image<W: ImageWriter>(&self, alloc: Global, writer: &mut W) -> Result<(), Unwritten> {
        let items: &[T] = self;
        write_list(alloc, writer, items)
    }
}

// Returns the List of the images of the elements.
fn list_of<T: Serialize>(
    alloc: Global,
    serializer: Serializer,
    items: &[T],
) -> Result<Ipld, SerdeError>
    ensures ok { IfOk result (λ t. list_image T.image items.now ≡ Some (tree_of t)) }
    ensures err { IfErr result (λ e. RejectsAs (list_image T.image items.now)
        (ListError T.image T.write_error items.now) e) }
{
    let mut list = serializer.serialize_seq(alloc, Some(items.len()))?;
    for item in items {
        list.serialize_element(item)?;
    }
    list.end()
}

// Writes the List of the images of the elements.
fn write_list<T: Serialize, W: ImageWriter>(
    alloc: Global,
    writer: &mut W,
    items: &[T],
) -> Result<(), Unwritten>
    ensures { OnOk result (Appends (written_image W.written (list_image T.image items.now))
        (W.contents writer.old) (W.contents writer.new)) }
{
    writer.begin_list(items.len())?;
    for item in items {
        item.write_image(alloc, writer)?;
    }
    Ok(())
}

/// The image is a Map of the images of the values under their keys.
impl<K: SerializeKey, T: Serialize> Serialize for BTreeMap<K, T> {
    ghost image = { λ m. keyed_image K.text_of K.is_key T.image m.entries };

    ghost write_error = { λ m. MapError T.image T.write_error m.entries };

    #[inline(always)]
    fn serialize(&self, alloc: Global, serializer: Serializer) -> Result<Ipld, SerdeError> {
        map_of(alloc, serializer, self)
    }
}

// Returns the Map of the images of the values under their keys.
fn map_of<K: SerializeKey, T: Serialize>(
    alloc: Global,
    serializer: Serializer,
    members: &BTreeMap<K, T>,
) -> Result<Ipld, SerdeError>
    ensures ok { IfOk result (λ t. keyed_image K.text_of K.is_key T.image members.now.entries ≡ Some
        (tree_of t)) }
    ensures err { IfErr result (λ e. RejectsAs
        (keyed_image K.text_of K.is_key T.image members.now.entries)
        (MapError T.image T.write_error members.now.entries) e) }
{
    let mut map = serializer.serialize_map(alloc, Some(members.len()))?;
    for (key, member) in members.iter() {
        let text = key.to_text(alloc)?;
        map.put_image(text, member)?;
    }
    map.end()
}
