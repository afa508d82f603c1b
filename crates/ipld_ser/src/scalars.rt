//! The images of numbers, bools, strings, CIDs and trees.

ghost use Rattle.std.specs.Prelude.{◌≡◌, [], Some, None, Err, IsOk, IfOk, IfErr, string_bytes};
ghost use Rattle.ipld_cid.specs.LinkOf.{link_of};
ghost use Rattle.ipld_ser.specs.Image.{RejectsAs, NoError};
ghost use Rattle.ipld_ser.specs.Scalars.{unsigned_image, signed_image, char_image};
ghost use Rattle.ipld_ser.specs.declared.error.SerdeError.TheVariants as error;
ghost use Rattle.ipld_tree.specs.Tree.{boolean, text, link};
ghost use Rattle.ipld_tree.specs.TreeOf.{tree_of};

use crate::error::SerdeError;
use crate::image_writer::{ImageWriter, Unwritten};
use crate::serialize::Serialize;
use crate::serializer::Serializer;
use ipld_cid::Cid;
use ipld_tree::Ipld;
use std::alloc::Global;

/// The image is a Bool.
impl Serialize for bool {
    ghost image = { λ b. Some (boolean b) };

    ghost write_error = { NoError };

    #[inline(always)]
    fn serialize(&self, _alloc: Global, serializer: Serializer) -> Result<Ipld, SerdeError>
        ensures ok { IfOk result (λ t. Some (boolean self.now) ≡ Some (tree_of t)) }
        ensures err { IfErr result (λ e. RejectsAs (Some (boolean self.now)) (NoError self.now) e) }
        ensures succeeds { IsOk result }
    {
        serializer.serialize_bool(*self)
    }

    #[inline(always)]
    fn write_image<W: ImageWriter>(&self, _alloc: Global, writer: &mut W) -> Result<(), Unwritten> {
        writer.write_bool(*self)
    }
}

/// The image is an Integer.
impl Serialize for i8 {
    ghost image = { signed_image 8 };

    ghost write_error = { NoError };

    #[inline(always)]
    fn serialize(&self, _alloc: Global, serializer: Serializer) -> Result<Ipld, SerdeError>
        ensures ok { IfOk result (λ t. signed_image 8 self.now ≡ Some (tree_of t)) }
        ensures err { IfErr result (λ e. RejectsAs (signed_image 8 self.now) (NoError self.now) e) }
        ensures succeeds { IsOk result }
    {
        serializer.serialize_i8(*self)
    }

    #[inline(always)]
    fn write_image<W: ImageWriter>(&self, _alloc: Global, writer: &mut W) -> Result<(), Unwritten> {
        writer.write_integer(i128::from(*self))
    }
}

/// The image is an Integer.
impl Serialize for i16 {
    ghost image = { signed_image 16 };

    ghost write_error = { NoError };

    #[inline(always)]
    fn serialize(&self, _alloc: Global, serializer: Serializer) -> Result<Ipld, SerdeError>
        ensures ok { IfOk result (λ t. signed_image 16 self.now ≡ Some (tree_of t)) }
        ensures err { IfErr result (λ e. RejectsAs (signed_image 16 self.now)
            (NoError self.now) e) }
        ensures succeeds { IsOk result }
    {
        serializer.serialize_i16(*self)
    }

    #[inline(always)]
    fn write_image<W: ImageWriter>(&self, _alloc: Global, writer: &mut W) -> Result<(), Unwritten> {
        writer.write_integer(i128::from(*self))
    }
}

/// The image is an Integer.
impl Serialize for i32 {
    ghost image = { signed_image 32 };

    ghost write_error = { NoError };

    #[inline(always)]
    fn serialize(&self, _alloc: Global, serializer: Serializer) -> Result<Ipld, SerdeError>
        ensures ok { IfOk result (λ t. signed_image 32 self.now ≡ Some (tree_of t)) }
        ensures err { IfErr result (λ e. RejectsAs (signed_image 32 self.now)
            (NoError self.now) e) }
        ensures succeeds { IsOk result }
    {
        serializer.serialize_i32(*self)
    }

    #[inline(always)]
    fn write_image<W: ImageWriter>(&self, _alloc: Global, writer: &mut W) -> Result<(), Unwritten> {
        writer.write_integer(i128::from(*self))
    }
}

/// The image is an Integer.
impl Serialize for i64 {
    ghost image = { signed_image 64 };

    ghost write_error = { NoError };

    #[inline(always)]
    fn serialize(&self, _alloc: Global, serializer: Serializer) -> Result<Ipld, SerdeError>
        ensures ok { IfOk result (λ t. signed_image 64 self.now ≡ Some (tree_of t)) }
        ensures err { IfErr result (λ e. RejectsAs (signed_image 64 self.now)
            (NoError self.now) e) }
        ensures succeeds { IsOk result }
    {
        serializer.serialize_i64(*self)
    }

    #[inline(always)]
    fn write_image<W: ImageWriter>(&self, _alloc: Global, writer: &mut W) -> Result<(), Unwritten> {
        writer.write_integer(i128::from(*self))
    }
}

/// The image is an Integer.
impl Serialize for i128 {
    ghost image = { signed_image 128 };

    ghost write_error = { NoError };

    #[inline(always)]
    fn serialize(&self, _alloc: Global, serializer: Serializer) -> Result<Ipld, SerdeError>
        ensures ok { IfOk result (λ t. signed_image 128 self.now ≡ Some (tree_of t)) }
        ensures err { IfErr result (λ e. RejectsAs (signed_image 128 self.now)
            (NoError self.now) e) }
        ensures succeeds { IsOk result }
    {
        serializer.serialize_i128(*self)
    }

    #[inline(always)]
    fn write_image<W: ImageWriter>(&self, _alloc: Global, writer: &mut W) -> Result<(), Unwritten> {
        writer.write_integer(*self)
    }
}

/// The image is an Integer.
impl Serialize for isize {
    ghost image = { signed_image 64 };

    ghost write_error = { NoError };

    #[inline(always)]
    fn serialize(&self, _alloc: Global, serializer: Serializer) -> Result<Ipld, SerdeError>
        ensures ok { IfOk result (λ t. signed_image 64 self.now ≡ Some (tree_of t)) }
        ensures err { IfErr result (λ e. RejectsAs (signed_image 64 self.now)
            (NoError self.now) e) }
        ensures succeeds { IsOk result }
    {
        serializer.serialize_i64(*self as i64)
    }

    #[inline(always)]
    fn write_image<W: ImageWriter>(&self, _alloc: Global, writer: &mut W) -> Result<(), Unwritten> {
        writer.write_integer(*self as i128)
    }
}

/// The image is an Integer.
impl Serialize for u8 {
    ghost image = { unsigned_image 8 };

    ghost write_error = { NoError };

    #[inline(always)]
    fn serialize(&self, _alloc: Global, serializer: Serializer) -> Result<Ipld, SerdeError>
        ensures ok { IfOk result (λ t. unsigned_image 8 self.now ≡ Some (tree_of t)) }
        ensures err { IfErr result (λ e. RejectsAs (unsigned_image 8 self.now)
            (NoError self.now) e) }
        ensures succeeds { IsOk result }
    {
        serializer.serialize_u8(*self)
    }

    #[inline(always)]
    fn write_image<W: ImageWriter>(&self, _alloc: Global, writer: &mut W) -> Result<(), Unwritten> {
        writer.write_integer(i128::from(*self))
    }
}

/// The image is an Integer.
impl Serialize for u16 {
    ghost image = { unsigned_image 16 };

    ghost write_error = { NoError };

    #[inline(always)]
    fn serialize(&self, _alloc: Global, serializer: Serializer) -> Result<Ipld, SerdeError>
        ensures ok { IfOk result (λ t. unsigned_image 16 self.now ≡ Some (tree_of t)) }
        ensures err { IfErr result (λ e. RejectsAs (unsigned_image 16 self.now)
            (NoError self.now) e) }
        ensures succeeds { IsOk result }
    {
        serializer.serialize_u16(*self)
    }

    #[inline(always)]
    fn write_image<W: ImageWriter>(&self, _alloc: Global, writer: &mut W) -> Result<(), Unwritten> {
        writer.write_integer(i128::from(*self))
    }
}

/// The image is an Integer.
impl Serialize for u32 {
    ghost image = { unsigned_image 32 };

    ghost write_error = { NoError };

    #[inline(always)]
    fn serialize(&self, _alloc: Global, serializer: Serializer) -> Result<Ipld, SerdeError>
        ensures ok { IfOk result (λ t. unsigned_image 32 self.now ≡ Some (tree_of t)) }
        ensures err { IfErr result (λ e. RejectsAs (unsigned_image 32 self.now)
            (NoError self.now) e) }
        ensures succeeds { IsOk result }
    {
        serializer.serialize_u32(*self)
    }

    #[inline(always)]
    fn write_image<W: ImageWriter>(&self, _alloc: Global, writer: &mut W) -> Result<(), Unwritten> {
        writer.write_integer(i128::from(*self))
    }
}

/// The image is an Integer.
impl Serialize for u64 {
    ghost image = { unsigned_image 64 };

    ghost write_error = { NoError };

    #[inline(always)]
    fn serialize(&self, _alloc: Global, serializer: Serializer) -> Result<Ipld, SerdeError>
        ensures ok { IfOk result (λ t. unsigned_image 64 self.now ≡ Some (tree_of t)) }
        ensures err { IfErr result (λ e. RejectsAs (unsigned_image 64 self.now)
            (NoError self.now) e) }
        ensures succeeds { IsOk result }
    {
        serializer.serialize_u64(*self)
    }

    #[inline(always)]
    fn write_image<W: ImageWriter>(&self, _alloc: Global, writer: &mut W) -> Result<(), Unwritten> {
        writer.write_integer(i128::from(*self))
    }
}

/// The image is an Integer.
impl Serialize for usize {
    ghost image = { unsigned_image 64 };

    ghost write_error = { NoError };

    #[inline(always)]
    fn serialize(&self, _alloc: Global, serializer: Serializer) -> Result<Ipld, SerdeError>
        ensures ok { IfOk result (λ t. unsigned_image 64 self.now ≡ Some (tree_of t)) }
        ensures err { IfErr result (λ e. RejectsAs (unsigned_image 64 self.now)
            (NoError self.now) e) }
        ensures succeeds { IsOk result }
    {
        serializer.serialize_u64(*self as u64)
    }

    #[inline(always)]
    fn write_image<W: ImageWriter>(&self, _alloc: Global, writer: &mut W) -> Result<(), Unwritten> {
        writer.write_integer(*self as i128)
    }
}

/// The image is an Integer if the number is at most [`i128::MAX`]. A greater number has no image
/// ([`SerdeError::U128`]).
impl Serialize for u128 {
    ghost image = { unsigned_image 127 };

    ghost write_error = { λ _ e. e ≡ error.U128 };

    #[inline(always)]
    fn serialize(&self, _alloc: Global, serializer: Serializer) -> Result<Ipld, SerdeError>
        ensures ok { IfOk result (λ t. unsigned_image 127 self.now ≡ Some (tree_of t)) }
        ensures err { IfErr result (λ e. RejectsAs (unsigned_image 127 self.now) (λ e.
            e ≡ error.U128) e) }
        ensures no_memory { IfErr result (λ e. e ≡ error.U128) }
    {
        serializer.serialize_u128(*self)
    }
}

/// The image is a String of the one character.
impl Serialize for char {
    ghost image = { char_image };

    ghost write_error = { NoError };

    #[inline(always)]
    fn serialize(&self, alloc: Global, serializer: Serializer) -> Result<Ipld, SerdeError> {
        serializer.serialize_char(alloc, *self)
    }
}

/// The image is a String, with a copy of the string.
impl Serialize for String {
    ghost image = { λ s. Some (text (string_bytes s)) };

    ghost write_error = { NoError };

    #[inline(always)]
    fn serialize(&self, alloc: Global, serializer: Serializer) -> Result<Ipld, SerdeError>
        ensures ok { IfOk result (λ t. Some (text (string_bytes self.now)) ≡ Some (tree_of t)) }
        ensures err { IfErr result (λ e. RejectsAs (Some (text (string_bytes self.now)))
            (NoError self.now) e) }
        ensures empty { string_bytes self.now ≡ [] → IsOk result }
    {
        serializer.serialize_str(alloc, self)
    }

    #[inline(always)]
    fn write_image<W: ImageWriter>(&self, _alloc: Global, writer: &mut W) -> Result<(), Unwritten> {
        writer.write_str(self)
    }
}

/// The image is a String, with a copy of the string.
impl<'a> Serialize for &'a str {
    ghost image = { λ s. Some (text s.now) };

    ghost write_error = { NoError };

    #[inline(always)]
    fn serialize(&self, alloc: Global, serializer: Serializer) -> Result<Ipld, SerdeError>
        ensures ok { IfOk result (λ t. Some (text (self.now.now)) ≡ Some (tree_of t)) }
        ensures err { IfErr result (λ e. RejectsAs (Some (text (self.now.now)))
            (NoError self.now) e) }
        ensures empty { self.now.now ≡ [] → IsOk result }
    {
        serializer.serialize_str(alloc, self)
    }

    #[inline(always)]
    fn write_image<W: ImageWriter>(&self, _alloc: Global, writer: &mut W) -> Result<(), Unwritten> {
        writer.write_str(self)
    }
}

/// The image is a Link.
impl Serialize for Cid {
    ghost image = { λ c. Some (link (link_of c)) };

    ghost write_error = { NoError };

    #[inline(always)]
    fn serialize(&self, _alloc: Global, _serializer: Serializer) -> Result<Ipld, SerdeError>
        ensures ok { IfOk result (λ t. Some (link (link_of self.now)) ≡ Some (tree_of t)) }
        ensures err { IfErr result (λ e. RejectsAs (Some (link (link_of self.now)))
            (NoError self.now) e) }
        ensures succeeds { IsOk result }
    {
        Ok(Ipld::Link(*self))
    }

    #[inline(always)]
    fn write_image<W: ImageWriter>(&self, _alloc: Global, writer: &mut W) -> Result<(), Unwritten> {
        writer.write_link(self)
    }
}

/// The image is a copy of the tree itself.
impl Serialize for Ipld {
    ghost image = { λ t. Some (tree_of t) };

    ghost write_error = { NoError };

    #[inline(always)]
    fn serialize(&self, alloc: Global, _serializer: Serializer) -> Result<Ipld, SerdeError> {
        Ok(self.try_clone(alloc)?)
    }

    #[inline(always)]
    fn write_image<W: ImageWriter>(&self, alloc: Global, writer: &mut W) -> Result<(), Unwritten> {
        writer.write_tree(alloc, self)
    }
}

/// The unit type has no image ([`SerdeError::Unit`]).
impl Serialize for () {
    ghost image = { λ _. None };

    ghost write_error = { λ _ e. e ≡ error.Unit };

    #[inline(always)]
    fn serialize(&self, _alloc: Global, serializer: Serializer) -> Result<Ipld, SerdeError>
        ensures { result ≡ Err error.Unit }
    {
        serializer.serialize_unit()
    }
}
