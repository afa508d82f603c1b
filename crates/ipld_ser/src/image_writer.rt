//! Values that are written part by part, without a tree.

ghost use Rattle.std.specs.Prelude.{◌≡◌, ◌++◌, ◌+◌, ◌≤◌, ◌∷◌, [], ℕ, List, Option, length, map, insert, OnOk, IfOk};
ghost use Rattle.ipld_cid.specs.LinkOf.{link_of};
ghost use Rattle.ipld_ser.specs.Composites.{struct_image};
ghost use Rattle.ipld_ser.specs.ImageWriter.{Appends, written_image, comes_first, filed, filed_from, indexed, names_of, entry_at, one_after_another, ListsInTurn, FieldsInTurn};
ghost use Rattle.ipld_ser.specs.Names.{AreDistinct};
ghost use Rattle.ipld_tree.specs.Tree.{Tree, null, boolean, integer, text, bytes, link};
ghost use Rattle.ipld_tree.specs.TreeOf.{tree_of};

use crate::fields::SerializeFields;
use ipld_cid::Cid;
use ipld_tree::Ipld;
use std::alloc::{AllocError, AllocFailed, Global};
use std::cmp::Ordering;

/// The reason why an [`ImageWriter`] did not write a value. The contents of the writer are then of
/// no use.
#[derive(Clone, Copy, Debug, PartialEq, Eq, Drop)]
pub enum Unwritten {
    /// An allocation failed.
    Memory,
    /// The value cannot be written in this way: it has no image, or the writer does not accept a
    /// part of the image. To find the reason, the caller creates the image by
    /// [`Serialize::serialize`](crate::Serialize::serialize).
    Rejected,
}

impl From<AllocError> for Unwritten {
    ghost use Rattle.ipld_ser.specs.declared.image_writer.Unwritten.TheVariants.{Memory};

    ghost from_gives = { λ _ error. error ≡ Memory };

    /// Returns [`Unwritten::Memory`] for a failed allocation.
    #[inline(always)]
    fn from(_error: AllocError) -> Unwritten {
        Unwritten::Memory
    }
}

impl<T: Drop> From<AllocFailed<T>> for Unwritten {
    ghost use Rattle.ipld_ser.specs.declared.image_writer.Unwritten.TheVariants.{Memory};

    ghost from_gives = { λ _ error. error ≡ Memory };

    /// Returns [`Unwritten::Memory`] for a failed allocation. The value that could not be stored is
    /// dropped.
    #[inline(always)]
    fn from(_error: AllocFailed<T>) -> Unwritten {
        Unwritten::Memory
    }
}

/// A writer that takes a value's image part by part, and appends it as bytes to its contents. The
/// contents are a block that is being made.
///
/// A list is written as its head, with the number of its items, and then the items. A map is
/// written as its head, with the number of its entries, and then the entries. An entry is the key,
/// as a string, and the value. Shorter keys come first, and keys of the same length are in the
/// order of their bytes.
///
/// The contract of a call defines the bytes that it appends if it returns `Ok`. After an error, the
/// appended bytes are unspecified.
pub trait ImageWriter: Sized {
    // the bytes so far
    ghost contents: { Self → List ℕ };

    // the bytes that a tree is written as
    ghost written: { Tree → Option (List ℕ) };

    // the bytes before the items of a list of this many items
    ghost list_head: { ℕ → List ℕ };

    // the bytes before the entries of a map of this many entries
    ghost map_head: { ℕ → List ℕ };

    /// Writes Null.
    fn write_null(&mut self) -> Result<(), Unwritten>
        ensures { OnOk result (Appends (written null) (contents self.old) (contents self.new)) };

    /// Writes a Bool.
    fn write_bool(&mut self, value: bool) -> Result<(), Unwritten>
        ensures { OnOk result (Appends (written (boolean value)) (contents self.old)
            (contents self.new)) };

    /// Writes an Integer.
    fn write_integer(&mut self, value: i128) -> Result<(), Unwritten>
        ensures { OnOk result (Appends (written (integer value)) (contents self.old)
            (contents self.new)) };

    /// Writes a String.
    fn write_str(&mut self, value: &str) -> Result<(), Unwritten>
        ensures { OnOk result (Appends (written (text value.now)) (contents self.old)
            (contents self.new)) };

    /// Writes Bytes.
    fn write_bytes(&mut self, value: &[u8]) -> Result<(), Unwritten>
        ensures { OnOk result (Appends (written (bytes value.now)) (contents self.old)
            (contents self.new)) };

    /// Writes a Link.
    fn write_link(&mut self, value: &Cid) -> Result<(), Unwritten>
        ensures { OnOk result (Appends (written (link (link_of value.now))) (contents self.old)
            (contents self.new)) };

    /// Writes a tree.
    fn write_tree(&mut self, alloc: Global, value: &Ipld) -> Result<(), Unwritten>
        ensures { OnOk result (Appends (written (tree_of value.now)) (contents self.old)
            (contents self.new)) };

    /// Writes the head of a List of `count` items, which follow.
    fn begin_list(&mut self, count: usize) -> Result<(), Unwritten>
        ensures { OnOk result (contents self.new ≡ contents self.old ++ list_head count) };

    /// Writes the head of a Map of `count` entries, which follow.
    fn begin_map(&mut self, count: usize) -> Result<(), Unwritten>
        ensures { OnOk result (contents self.new ≡ contents self.old ++ map_head count) };

    // the law of lists
    ghost lists: { ListsInTurn written list_head };

    // the law of structs
    ghost structs: { FieldsInTurn written map_head };
}

/// Writes a struct as the Map of its fields, in the order of their names. It allocates a slot for
/// every field. For example,
/// `write_fields(alloc, writer, &(("width", &width), (("height", &height), ())))` writes a struct
/// with two fields.
///
/// # Errors
///
/// - [`Unwritten::Memory`] if an allocation fails.
/// - [`Unwritten::Rejected`] if a field is not written.
pub fn write_fields<F: SerializeFields, W: ImageWriter>(
    alloc: Global,
    writer: &mut W,
    fields: &F,
) -> Result<(), Unwritten>
    requires { AreDistinct (names_of (F.fields fields.now)) }
    ensures { OnOk result (Appends (written_image W.written (struct_image (F.fields fields.now)))
        (W.contents writer.old) (W.contents writer.new)) }
{
    let order = order_of(alloc, fields)?;
    writer.begin_map(order.len())?;
    write_in_order(alloc, writer, fields, &order)?;
    Ok(())
}

// Writes the name and the value of every field at these indexes.
fn write_in_order<F: SerializeFields, W: ImageWriter>(
    alloc: Global,
    writer: &mut W,
    fields: &F,
    order: &[(&str, usize)],
) -> Result<(), Unwritten>
    ensures { OnOk result (Appends (one_after_another
        (map (entry_at W.written (F.fields fields.now)) order.now)) (W.contents writer.old)
        (W.contents writer.new)) }
{
    for entry in order {
        write_entry(alloc, writer, fields, entry)?;
    }
    Ok(())
}

// Writes the name of a field, and the value of the field at its index.
#[inline(always)]
fn write_entry<F: SerializeFields, W: ImageWriter>(
    alloc: Global,
    writer: &mut W,
    fields: &F,
    entry: &(&str, usize),
) -> Result<(), Unwritten>
    ensures { OnOk result (Appends (entry_at W.written (F.fields fields.now) entry.now)
        (W.contents writer.old) (W.contents writer.new)) }
{
    writer.write_str(entry.0)?;
    fields.write_value(alloc, entry.1, writer)?;
    Ok(())
}

// Returns the names of the fields in order, with the indexes of their fields.
fn order_of<'a, F: SerializeFields>(
    alloc: Global,
    fields: &'a F,
) -> Result<Vec<(&'a str, usize)>, AllocError>
    ensures { IfOk result (λ order. indexed order.items ≡ filed_from 0
        (names_of (F.fields fields.now)) []) }
{
    let mut order = Vec::with_capacity(alloc, RESERVED)?;
    while let Some(name) = fields.name_at(order.len()) {
        insert_name(&mut order, name)?;
    }
    Ok(order)
}

// The number of fields of a struct for which capacity is reserved at first.
const RESERVED: usize = 8;

// Inserts a name at its place among names in order, with their number as its index.
fn insert_name<'a>(order: &mut Vec<(&'a str, usize)>, name: &'a str) -> Result<(), AllocError>
    ensures filed { OnOk result (indexed order.new.items ≡ filed name.entry.now
        (length order.old.items) (indexed order.old.items)) }
    ensures len { OnOk result (length order.new.items ≡ length order.old.items + 1) }
{
    let index = order.len();
    let place = place_of(order, name);
    order.insert(place, (name, index))?;
    Ok(())
}

// Returns the place of a name among names in order.
fn place_of(order: &[(&str, usize)], name: &str) -> usize
    ensures within { result ≤ length order.now }
    ensures filed { (index : ℕ) → filed name.now index (indexed order.now) ≡ insert
        (indexed order.now) result (name.now, index) }
{
    let mut place = 0;
    for entry in order {
        if !key_precedes(entry.0, name) {
            return place;
        }
        place += 1;
    }
    place
}

/// Returns whether a key comes before another in length-first key order (RFC 8949, section 4.2.3):
/// by length, and by bytes if the lengths are the same.
#[inline(always)]
pub fn key_precedes(first: &str, second: &str) -> bool
    ensures { result ≡ comes_first first.now second.now }
{
    match first.len().cmp(&second.len()) {
        Ordering::Less => true,
        Ordering::Equal => first.cmp(second) == Ordering::Less,
        Ordering::Greater => false,
    }
}
