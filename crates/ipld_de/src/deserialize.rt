//! The trait of the types that are read from trees.

ghost use Rattle.std.specs.Prelude.{◌≡◌, ⊤, Option, Some, IfOk, IfErr};
ghost use Rattle.ipld_de.specs.ImageReader.{BeginsRead, BeginsMissing};
ghost use Rattle.ipld_ser.specs.Image.{RejectsAs};
ghost use Rattle.ipld_ser.specs.declared.error.SerdeError as error;
ghost use Rattle.ipld_tree.specs.Tree.{Tree};
ghost use Rattle.ipld_tree.specs.TreeOf.{tree_of};

use crate::image_reader::{ImageReader, Unread};
use ipld_ser::SerdeError;
use ipld_tree::Ipld;
use std::alloc::Global;

/// A type that is read from trees of the IPLD data model.
///
/// Its meaning is `reads`: the type's reading of a tree, or nothing if the type does not read that
/// tree. A reading is the `contents` of a value, so two values of the same contents differ at most
/// in capacities.
///
/// A custom type states both. It reads by one call of the [`Deserializer`](crate::Deserializer), or
/// by one of its cursors. It can also state by `read_error` the error for a tree that it does not
/// read.
pub trait Deserialize: Sized + Drop {
    // The type of the contents of values, without capacities.
    ghost Contents: { Type 0 };

    // The contents of a value, without capacities.
    ghost contents: { Self → Contents };

    // The content that the type reads from a tree, or nothing. A composite type reads exactly if
    // each part does.
    ghost reads: { Tree → Option Contents };

    // the error for a tree that the type does not read; by default any
    ghost read_error: { Tree → error.SerdeError → Type 0 } = { λ _ _. ⊤ };

    /// Reads a value of this type from the tree, which is consumed.
    ///
    /// # Errors
    ///
    /// [`SerdeError::Memory`] if an allocation fails. Returns any other error, the type's
    /// `read_error`, only if the type does not read the tree.
    fn deserialize(alloc: Global, value: Ipld) -> Result<Self, SerdeError>
        ensures ok { IfOk result (λ v. reads (tree_of value) ≡ Some (contents v)) }
        ensures err { IfErr result (λ e. RejectsAs (reads (tree_of value))
            (read_error (tree_of value)) e) };

    /// Reads the next tree part by part. The tree nests at most `levels` levels deep.
    ///
    /// A type with its own `read_image` does not make the tree. By default the tree is made, and
    /// read by [`deserialize`](Deserialize::deserialize).
    ///
    /// A custom struct reads its fields by [`read_struct_image`](crate::read_struct_image). A type
    /// that contains values of itself calls `read_image` for them with fewer levels, as lists,
    /// tuples and structs do for their parts.
    ///
    /// # Errors
    ///
    /// - [`Unread::Memory`] if an allocation fails.
    /// - [`Unread::MissingField`] only if the value was read to its end, and
    ///   [`deserialize`](Deserialize::deserialize) rejects its tree with `Custom("missing field")`.
    ///   A type that contains other values returns [`Unread::of_part`] of their errors.
    /// - Otherwise [`Unread::Rejected`], if the type does not read the tree or the bytes do not
    ///   begin with a tree of at most `levels` levels. [`deserialize`](Deserialize::deserialize)
    ///   shows the reason.
    fn read_image<R: ImageReader>(
        alloc: Global,
        reader: &mut R,
        levels: usize,
    ) -> Result<Self, Unread>
        ensures ok { IfOk result (λ v. BeginsRead (R.Begins levels) reads (contents v)
            (R.contents reader.old) (R.contents reader.new)) }
        ensures missing { IfErr result (λ e. e ≡ Unread.MissingField
            → BeginsMissing (R.Begins levels) reads read_error (R.contents reader.old)
            (R.contents reader.new)) }
    {
        let tree = reader.read_tree(alloc, levels)?;
        Ok(Self::deserialize(alloc, tree)?)
    }

    /// Drops the value. Does not allocate.
    ///
    /// If a later part of a vector, a map, a tuple or a struct is rejected, this crate calls
    /// `discard` for the parts that it has read. The default is the ordinary drop.
    ///
    /// A type that contains an [`Ipld`], or a value of a type parameter, calls their `discard`, so
    /// that they are not dropped by recursion. The `discard` of an `Ipld` is [`Ipld::discard`].
    fn discard(self) {
        drop(self);
    }
}

/// Reads a value of a type from a tree, which is consumed.
///
/// # Errors
///
/// [`SerdeError::Memory`] if an allocation fails. Returns any other error only if the type does not
/// read the tree: that of the first part that is not read. The elements of a list are read in
/// order, and the entries of a map in the byte order of their keys.
#[inline(always)]
pub fn from_ipld<T: Deserialize>(alloc: Global, value: Ipld) -> Result<T, SerdeError>
    ensures ok { IfOk result (λ v. T.reads (tree_of value) ≡ Some (T.contents v)) }
    ensures err { IfErr result (λ e. RejectsAs (T.reads (tree_of value))
        (T.read_error (tree_of value)) e) }
{
    T::deserialize(alloc, value)
}
