//! Structs read part by part, without a tree of the map.

ghost use Rattle.std.specs.Prelude.{◌≡◌, ◌≢◌, ◌∷◌, ℕ, false, length, Some, option_map, IfOk, IfErr, OnOk};
ghost use Rattle.ipld_de.specs.Fields.{strings, struct_reading, accepts_named, StructReadError};
ghost use Rattle.ipld_de.specs.ImageFields.{ValueRead, EntryRead, EntriesRead};
ghost use Rattle.ipld_de.specs.ImageReader.{BeginsRead, BeginsMissing};
ghost use Rattle.ipld_ser.specs.Names.{AreDistinct};

use crate::fields::{Fields, position_of};
use crate::image_reader::{ImageReader, Unread};
use ipld_ser::key_precedes;
use std::alloc::Global;

/// Reads the fields of a struct with these names from a Map, part by part. The Map nests at most
/// `levels` levels deep. Skips other entries.
///
/// Allocates for the fields, and for the tree of a list or a map that no field reads.
///
/// ```
/// use ipld_de::{Field, read_struct_image};
///
/// let (title, likes) =
///     read_struct_image::<(Field<String>, Field<u32>), R>(alloc, reader, levels, &["title", "likes"])?;
/// ```
///
/// # Errors
///
/// - [`Unread::Memory`] if an allocation fails.
/// - [`Unread::Rejected`] if the next value is not a Map, it nests deeper, its keys are not in
///   order, or a field does not read its value.
/// - Otherwise [`Unread::MissingField`] if a required name is missing.
pub fn read_struct_image<F: Fields, R: ImageReader>(
    alloc: Global,
    reader: &mut R,
    levels: usize,
    names: &[&str],
) -> Result<F::Values, Unread>
    requires count { length names.now ≡ F.count }
    requires distinct { AreDistinct (strings names.now) }
    ensures ok { IfOk result (λ v. BeginsRead (R.Begins levels)
        (struct_reading (F.named_reads (strings names.now))) (F.contents v) (R.contents reader.old)
        (R.contents reader.new)) }
    ensures missing { IfErr result (λ e. e ≡ Unread.MissingField
        → BeginsMissing (R.Begins levels) (struct_reading (F.named_reads (strings names.now)))
        (StructReadError false F.parts (strings names.now)) (R.contents reader.old)
        (R.contents reader.new)) }
{
    let Some(inner) = levels.checked_sub(1) else {
        return Err(Unread::Rejected);
    };
    let count = reader.begin_map()?;
    let mut fields = F::new();
    read_entries(alloc, reader, inner, names, count, &mut fields)?;
    match fields.finish() {
        Ok(values) => Ok(values),
        Err(_) => Err(Unread::MissingField),
    }
}

// Reads `count` entries into the fields of their names.
#[inline(always)]
fn read_entries<F: Fields, R: ImageReader>(
    alloc: Global,
    reader: &mut R,
    levels: usize,
    names: &[&str],
    count: usize,
    fields: &mut F,
) -> Result<(), Unread>
    requires count { length names.now ≡ F.count }
    requires distinct { AreDistinct (strings names.now) }
    ensures ok { OnOk result (EntriesRead R.BeginsKey (R.Begins levels) (accepts_named F.parts
        (strings names.now)) (λ ms. F.reads fields.old (strings names.now) ms) (λ ms.
        F.reads fields.new (strings names.now) ms)
        count (R.contents reader.old) (R.contents reader.new)) }
    ensures never_missing { IfErr result (λ e. e ≢ Unread.MissingField) }
{
    let mut last = None;
    let mut left = count;
    while left > 0 {
        left -= 1;
        let key = read_entry(alloc, reader, levels, names, last, fields)?;
        last = Some(key);
    }
    Ok(())
}

// Reads an entry into the field of its key, and returns the key, which has to come after the last.
#[inline(always)]
fn read_entry<F: Fields, R: ImageReader>(
    alloc: Global,
    reader: &mut R,
    levels: usize,
    names: &[&str],
    last: Option<R::Key>,
    fields: &mut F,
) -> Result<R::Key, Unread>
    requires count { length names.now ≡ F.count }
    requires distinct { AreDistinct (strings names.now) }
    ensures ok { IfOk result (λ key. EntryRead R.BeginsKey (R.Begins levels) (accepts_named F.parts
        (strings names.now)) (λ ms. F.reads fields.old (strings names.now) ms) (λ ms.
        F.reads fields.new (strings names.now) ms)
        (option_map R.key_bytes last) (R.key_bytes key) (R.contents reader.old)
        (R.contents reader.new)) }
    ensures never_missing { IfErr result (λ e. e ≢ Unread.MissingField) }
{
    let key = reader.read_key()?;
    let name = R::key_text(&key);
    if let Some(last) = last {
        if !key_precedes(R::key_text(&last), name) {
            return Err(Unread::Rejected);
        }
    }
    read_field(alloc, reader, levels, names, name, fields)?;
    Ok(key)
}

// Reads the next value into the field of this name, or skips it if no field has the name.
#[inline(always)]
fn read_field<F: Fields, R: ImageReader>(
    alloc: Global,
    reader: &mut R,
    levels: usize,
    names: &[&str],
    name: &str,
    fields: &mut F,
) -> Result<(), Unread>
    requires count { length names.now ≡ F.count }
    requires distinct { AreDistinct (strings names.now) }
    ensures ok { OnOk result (ValueRead (R.Begins levels) (accepts_named F.parts
        (strings names.now) name.now) (F.reads fields.old (strings names.now))
        (F.reads fields.new (strings names.now))
        name.now (R.contents reader.old) (R.contents reader.new)) }
    ensures never_missing { IfErr result (λ e. e ≢ Unread.MissingField) }
{
    match position_of(names, name) {
        Some(index) => fields.read_value(alloc, index, reader, levels),
        None => reader.skip_tree(alloc, levels),
    }
}
