//! Bytes as a type of their own.

ghost use Rattle.std.specs.Prelude.{◌≡◌, Some};
ghost use Rattle.ipld_ser.specs.Image.{NoError};
ghost use Rattle.ipld_tree.specs.Tree.{bytes};

use crate::error::SerdeError;
use crate::image_writer::{ImageWriter, Unwritten};
use crate::serialize::Serialize;
use crate::serializer::Serializer;
use ipld_tree::Ipld;
use std::alloc::Global;
use std::marker::Model;

/// Bytes that are written as Bytes. A `Vec<u8>` is written as a List of Integers.
#[derive(Debug, Drop)]
pub struct ByteBuf {
    bytes: Vec<u8>,
}

impl Model for ByteBuf {
    ghost use Rattle.std.specs.Prelude.{List, ℕ};

    ghost Value = { List ℕ };

    ghost view = { λ b. b.bytes.items };
}

impl PartialEq for ByteBuf {
    ghost use Rattle.std.specs.Str.{bytes_eq};
    ghost use Rattle.std.specs.Cmp.{partial_equiv_from_equiv};
    ghost use Rattle.std.specs.Cmp.Lexicographic.{nat_list_eq_equiv};

    ghost eq = { bytes_eq };

    ghost laws = { partial_equiv_from_equiv nat_list_eq_equiv };

    #[inline(always)]
    fn eq(&self, other: &ByteBuf) -> bool {
        self.as_slice() == other.as_slice()
    }
}

impl Eq for ByteBuf {
    ghost use Rattle.std.specs.Cmp.Lexicographic.{nat_list_eq_equiv};

    ghost laws = { nat_list_eq_equiv };
}

impl ByteBuf {
    /// Borrows the bytes.
    #[inline(always)]
    pub fn as_slice(&self) -> &[u8]
        ensures { result.now ≡ self.now }
    {
        self.bytes.as_slice()
    }

    /// Returns the bytes themselves.
    #[inline(always)]
    pub fn into_vec(self) -> Vec<u8>
        ensures { result.items ≡ self }
    {
        let ByteBuf { bytes } = self;
        bytes
    }
}

impl From<Vec<u8>> for ByteBuf {
    ghost from_gives = { λ v r. r ≡ v.items };

    /// Creates a `ByteBuf` of these bytes.
    #[inline(always)]
    fn from(bytes: Vec<u8>) -> ByteBuf {
        ByteBuf { bytes }
    }
}

/// The image is Bytes, with a copy of the bytes.
impl Serialize for ByteBuf {
    ghost image = { λ b. Some (bytes b) };

    ghost write_error = { NoError };

    #[inline(always)]
    fn serialize(&self, alloc: Global, serializer: Serializer) -> Result<Ipld, SerdeError> {
        serializer.serialize_bytes(alloc, &self.bytes)
    }

    #[inline(always)]
    fn write_image<W: ImageWriter>(&self, _alloc: Global, writer: &mut W) -> Result<(), Unwritten> {
        writer.write_bytes(&self.bytes)
    }
}
