//! The trait of the types whose values can be written.

ghost use Rattle.std.specs.Prelude.{◌≡◌, ⊤, Option, Some, OnOk, IfOk, IfErr};
ghost use Rattle.ipld_ser.specs.Image.{RejectsAs};
ghost use Rattle.ipld_ser.specs.ImageWriter.{Appends, written_image};
ghost use Rattle.ipld_ser.specs.declared.error.SerdeError as error;
ghost use Rattle.ipld_tree.specs.Tree.{Tree};
ghost use Rattle.ipld_tree.specs.TreeOf.{tree_of};

use crate::error::SerdeError;
use crate::image_writer::{ImageWriter, Unwritten};
use crate::serializer::Serializer;
use ipld_tree::Ipld;
use std::alloc::Global;

/// A type whose values can be written as trees of the IPLD data model.
///
/// Its meaning is `image`: the tree that a value is written as, or `None` if the value has no such
/// tree. Your type states its image, and writes it by one call of the [`Serializer`] or by one of
/// its builders. For examples, see `ipld_core::serde::samples`. By `write_error`, your type can
/// also state the error with which a value without an image is rejected.
pub trait Serialize {
    // The tree that a value is written as, or `None`. A composite value has an image if and only if
    // all its parts have one.
    ghost image: { Self → Option Tree };

    // The error with which a value without an image is rejected. By default it can be any error.
    ghost write_error: { Self → error.SerdeError → Type 0 } = { λ _ _. ⊤ };

    /// Returns the value's image.
    ///
    /// # Errors
    ///
    /// [`SerdeError::Memory`] if an allocation fails. Any other error is the type's `write_error`,
    /// and occurs only if the value has no image.
    fn serialize(&self, alloc: Global, serializer: Serializer) -> Result<Ipld, SerdeError>
        ensures ok { IfOk result (λ t. image self.now ≡ Some (tree_of t)) }
        ensures err { IfErr result (λ e. RejectsAs (image self.now) (write_error self.now) e) };

    /// Writes the value's image part by part. If the type overrides this method, no tree of the
    /// value is created. By default, it writes the tree that [`serialize`](Serialize::serialize)
    /// returns.
    ///
    /// For your own struct, write the fields by [`write_fields`](crate::write_fields).
    ///
    /// # Errors
    ///
    /// - [`Unwritten::Memory`] if an allocation fails.
    /// - [`Unwritten::Rejected`] if the value has no image or the writer does not accept it. A call
    ///   of [`serialize`](Serialize::serialize) shows the reason.
    fn write_image<W: ImageWriter>(&self, alloc: Global, writer: &mut W) -> Result<(), Unwritten>
        ensures { OnOk result (Appends (written_image W.written (image self.now))
            (W.contents writer.old) (W.contents writer.new)) }
    {
        match self.serialize(alloc, Serializer) {
            Ok(tree) => {
                let written = writer.write_tree(alloc, &tree);
                tree.discard();
                written
            }
            Err(SerdeError::Memory) => Err(Unwritten::Memory),
            Err(_) => Err(Unwritten::Rejected),
        }
    }
}

/// The image of the value that the reference refers to.
impl<'a, T: Serialize> Serialize for &'a T {
    ghost image = { λ r. T.image r.now };

    ghost write_error = { λ r. T.write_error r.now };

    #[inline(always)]
    fn serialize(&self, alloc: Global, serializer: Serializer) -> Result<Ipld, SerdeError> {
        T::serialize(self, alloc, serializer)
    }

    #[inline(always)]
    fn write_image<W: ImageWriter>(&self, alloc: Global, writer: &mut W) -> Result<(), Unwritten> {
        T::write_image(self, alloc, writer)
    }
}

/// Returns the tree that a value is written as, its image. The value can be passed by value or by
/// reference.
///
/// # Errors
///
/// [`SerdeError::Memory`] if an allocation fails. Any other error occurs only if the value has no
/// image. It is the error of the first part, from the left, that has no image.
#[inline(always)]
pub fn to_ipld<T: Serialize + Drop>(alloc: Global, value: T) -> Result<Ipld, SerdeError>
    ensures ok { IfOk result (λ t. T.image value ≡ Some (tree_of t)) }
    ensures err { IfErr result (λ e. RejectsAs (T.image value) (T.write_error value) e) }
{
    value.serialize(alloc, Serializer)
}
