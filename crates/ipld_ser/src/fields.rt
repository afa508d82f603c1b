//! The fields of a variant, which are written by one call.

ghost use Rattle.std.specs.Prelude.{◌≡◌, ◌∷◌, [], ℕ, List, Option, Some, option_map, OnOk, IfOk, IfErr, IfSome, IfNone, None, slice_get};
ghost use Rattle.ipld_ser.specs.Builders.{variant_tree};
ghost use Rattle.ipld_ser.specs.Composites.{put_fields, struct_image, StructError};
ghost use Rattle.ipld_ser.specs.Image.{RejectsAs};
ghost use Rattle.ipld_ser.specs.ImageWriter.{Appends, written_at, names_of};
ghost use Rattle.ipld_ser.specs.Variants.{variant_filed, struct_name};
ghost use Rattle.ipld_ser.specs.declared.error.SerdeError as error;
ghost use Rattle.ipld_tree.specs.Tree.{Tree};
ghost use Rattle.ipld_tree.specs.TreeOf.{tree_of};

use crate::error::{SerdeError, SerializeError};
use crate::image_writer::{ImageWriter, Unwritten};
use crate::serialize::Serialize;
use crate::serializer::Serializer;
use crate::variants::SerializeStructVariant;
use ipld_tree::Ipld;
use std::alloc::Global;

/// The borrowed fields of a variant with their names, in nested pairs:
/// `(("width", &width), (("height", &height), ()))`.
///
/// The trait is sealed: no other type can implement it.
pub trait SerializeFields: sealed::Sealed + Sized + Drop {
    // the name and the image of every field
    ghost fields: { Self → List (List ℕ × Option Tree) };

    // the image of every field, and the error that it is rejected with
    ghost errors: { Self → List {1} (Option Tree × (error.SerdeError → Type 0)) };

    /// Writes the fields in this order, under their names. A field replaces the value of an equal
    /// name.
    ///
    /// # Errors
    ///
    /// The error of the first field without an image, or [`SerdeError::Memory`] if an allocation
    /// fails.
    fn write(self, map: SerializeStructVariant) -> Result<SerializeStructVariant, SerdeError>
        ensures ok { IfOk result (λ b. put_fields (fields self) (variant_filed map) ≡ Some
            (variant_filed b)) }
        ensures name { IfOk result (λ b. struct_name b ≡ struct_name map) }
        ensures err { IfErr result (λ e. RejectsAs (put_fields (fields self) (variant_filed map))
            (StructError (errors self)) e) };

    /// Returns the name of the field at an index, or `None` if the index is out of range.
    fn name_at(&self, index: usize) -> Option<&str>
        ensures some { IfSome result (λ name. slice_get (names_of (fields self.now)) index
            ≡ Some name.now) }
        ensures none { IfNone result (slice_get (names_of (fields self.now)) index ≡ None) };

    /// Writes the value of the field at an index.
    ///
    /// # Errors
    ///
    /// - [`Unwritten::Memory`] if an allocation fails.
    /// - [`Unwritten::Rejected`] if the value is not written or the index is out of range.
    fn write_value<W: ImageWriter>(
        &self,
        alloc: Global,
        index: usize,
        writer: &mut W,
    ) -> Result<(), Unwritten>
        ensures { OnOk result (Appends (written_at W.written (fields self.now) index)
            (W.contents writer.old) (W.contents writer.new)) };
}

mod sealed {
    pub trait Sealed {}
}

impl sealed::Sealed for () {}

/// No fields.
impl SerializeFields for () {
    ghost fields = { λ _. [] };

    ghost errors = { λ _. [] };

    #[inline(always)]
    fn write(self, map: SerializeStructVariant) -> Result<SerializeStructVariant, SerdeError> {
        Ok(map)
    }

    #[inline(always)]
    fn name_at(&self, _index: usize) -> Option<&str> {
        None
    }

    #[inline(always)]
    fn write_value<W: ImageWriter>(
        &self,
        _alloc: Global,
        _index: usize,
        _writer: &mut W,
    ) -> Result<(), Unwritten> {
        Err(Unwritten::Rejected)
    }
}

impl<'a, T: Serialize, F> sealed::Sealed for ((&'a str, &'a T), F) {}

/// A field, followed by others.
impl<'a, T: Serialize, F: SerializeFields> SerializeFields for ((&'a str, &'a T), F) {
    ghost fields = { λ v. (v.0.0.now, T.image v.0.1.now) ∷ F.fields v.1 };

    ghost errors = { λ v. (T.image v.0.1.now, T.write_error v.0.1.now) ∷ F.errors v.1 };

    #[inline(always)]
    fn write(self, mut map: SerializeStructVariant) -> Result<SerializeStructVariant, SerdeError> {
        let ((name, value), others) = self;
        map.serialize_field(name, value)?;
        others.write(map)
    }

    #[inline(always)]
    fn name_at(&self, index: usize) -> Option<&str> {
        if index == 0 {
            Some(self.0.0)
        } else {
            self.1.name_at(index - 1)
        }
    }

    #[inline(always)]
    fn write_value<W: ImageWriter>(
        &self,
        alloc: Global,
        index: usize,
        writer: &mut W,
    ) -> Result<(), Unwritten> {
        if index == 0 {
            self.0.1.write_image(alloc, writer)
        } else {
            self.1.write_value(alloc, index - 1, writer)
        }
    }
}

impl Serializer {
    /// Writes a variant with named fields as a Map of the variant's name to the Map of the fields.
    /// [`serialize_struct_variant`](Serializer::serialize_struct_variant) and its builder write the
    /// same. The error is a [`SerdeError`].
    ///
    /// # Errors
    ///
    /// The error of the first field without an image, or [`SerdeError::Memory`] if an allocation
    /// fails.
    ///
    /// # Examples
    ///
    /// ```
    /// // the Map of `Rectangle` to the Map of `height` 3 and `width` 2
    /// let fields = (("width", &2u8), (("height", &3u8), ()));
    /// let tree = Serializer.serialize_variant_fields(alloc, "Rectangle", fields)?;
    /// ```
    pub fn serialize_variant_fields<F: SerializeFields, E: SerializeError>(
        self,
        alloc: Global,
        variant: &str,
        fields: F,
    ) -> Result<Ipld, E>
        ensures ok { IfOk result (λ t. option_map (variant_tree variant.now)
            (struct_image (F.fields fields)) ≡ Some (tree_of t)) }
        ensures err { IfErr result (λ e. RejectsAs (struct_image (F.fields fields))
            (StructError (F.errors fields)) (E.reported e)) }
    {
        match variant_of(self, alloc, variant, fields) {
            Ok(tree) => Ok(tree),
            Err(error) => Err(E::report(error)),
        }
    }
}

// Returns the Map of the variant's name to the Map of the fields.
#[inline(always)]
fn variant_of<F: SerializeFields>(
    serializer: Serializer,
    alloc: Global,
    variant: &str,
    fields: F,
) -> Result<Ipld, SerdeError>
    ensures ok { IfOk result (λ t. option_map (variant_tree variant.now)
        (struct_image (F.fields fields)) ≡ Some (tree_of t)) }
    ensures err { IfErr result (λ e. RejectsAs (struct_image (F.fields fields))
        (StructError (F.errors fields)) e) }
{
    let map = serializer.serialize_struct_variant(alloc, "", 0, variant, 0)?;
    fields.write(map)?.end()
}
