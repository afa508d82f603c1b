//! The reading of bools, numbers, strings, bytes, CIDs and trees.

ghost use Rattle.std.specs.Prelude.{◌≡◌, ℕ, ℤ, List, Bool, Some, Ok, ok_or, string_bytes};
ghost use Rattle.ipld_cid.specs.Cid.{Link};
ghost use Rattle.ipld_cid.specs.LinkOf.{link_of};
ghost use Rattle.ipld_de.specs.Reading.{OtherKind, Returns, taken};
ghost use Rattle.ipld_de.specs.Scalars.{unsigned_reading, signed_reading, not_negative_reading, char_reading, NumberError, CharError, number_error, char_error};
ghost use Rattle.ipld_ser.specs.Image.{NoError};
ghost use Rattle.ipld_tree.specs.Convert.{nothing_in, boolean_in, integer_in, text_in, bytes_in, link_in};
ghost use Rattle.ipld_tree.specs.Tree.{Tree};
ghost use Rattle.ipld_tree.specs.TreeOf.{tree_of};

use crate::deserialize::Deserialize;
use crate::deserializer::Deserializer;
use crate::image_reader::{ImageReader, Unread};
use ipld_cid::{CID_SERDE_PRIVATE_IDENTIFIER, Cid};
use ipld_ser::{ByteBuf, SerdeError};
use ipld_tree::Ipld;
use std::alloc::Global;

/// A Bool.
impl Deserialize for bool {
    ghost Contents = { Bool };

    ghost contents = { λ b. b };

    ghost reads = { boolean_in };

    ghost read_error = { OtherKind };

    #[inline(always)]
    fn deserialize(_alloc: Global, value: Ipld) -> Result<bool, SerdeError>
        ensures exact { result ≡ taken boolean_in (tree_of value) }
    {
        value.deserialize_bool()
    }

    #[inline(always)]
    fn read_image<R: ImageReader>(
        alloc: Global,
        reader: &mut R,
        _levels: usize,
    ) -> Result<bool, Unread> {
        let content = reader.read_bool()?;
        Ok(bool::deserialize(alloc, Ipld::Bool(content))?)
    }
}

/// An Integer in range.
impl Deserialize for i8 {
    ghost Contents = { ℤ };

    ghost contents = { λ n. n };

    ghost reads = { signed_reading 8 };

    ghost read_error = { NumberError };

    #[inline(always)]
    fn deserialize(_alloc: Global, value: Ipld) -> Result<i8, SerdeError>
        ensures exact { result ≡ ok_or (signed_reading 8 (tree_of value))
            (number_error (tree_of value)) }
    {
        value.deserialize_i8()
    }

    #[inline(always)]
    fn read_image<R: ImageReader>(
        alloc: Global,
        reader: &mut R,
        _levels: usize,
    ) -> Result<i8, Unread> {
        let content = reader.read_integer()?;
        Ok(i8::deserialize(alloc, Ipld::Integer(content))?)
    }
}

/// An Integer in range.
impl Deserialize for i16 {
    ghost Contents = { ℤ };

    ghost contents = { λ n. n };

    ghost reads = { signed_reading 16 };

    ghost read_error = { NumberError };

    #[inline(always)]
    fn deserialize(_alloc: Global, value: Ipld) -> Result<i16, SerdeError>
        ensures exact { result ≡ ok_or (signed_reading 16 (tree_of value))
            (number_error (tree_of value)) }
    {
        value.deserialize_i16()
    }

    #[inline(always)]
    fn read_image<R: ImageReader>(
        alloc: Global,
        reader: &mut R,
        _levels: usize,
    ) -> Result<i16, Unread> {
        let content = reader.read_integer()?;
        Ok(i16::deserialize(alloc, Ipld::Integer(content))?)
    }
}

/// An Integer in range.
impl Deserialize for i32 {
    ghost Contents = { ℤ };

    ghost contents = { λ n. n };

    ghost reads = { signed_reading 32 };

    ghost read_error = { NumberError };

    #[inline(always)]
    fn deserialize(_alloc: Global, value: Ipld) -> Result<i32, SerdeError>
        ensures exact { result ≡ ok_or (signed_reading 32 (tree_of value))
            (number_error (tree_of value)) }
    {
        value.deserialize_i32()
    }

    #[inline(always)]
    fn read_image<R: ImageReader>(
        alloc: Global,
        reader: &mut R,
        _levels: usize,
    ) -> Result<i32, Unread> {
        let content = reader.read_integer()?;
        Ok(i32::deserialize(alloc, Ipld::Integer(content))?)
    }
}

/// An Integer in range.
impl Deserialize for i64 {
    ghost Contents = { ℤ };

    ghost contents = { λ n. n };

    ghost reads = { signed_reading 64 };

    ghost read_error = { NumberError };

    #[inline(always)]
    fn deserialize(_alloc: Global, value: Ipld) -> Result<i64, SerdeError>
        ensures exact { result ≡ ok_or (signed_reading 64 (tree_of value))
            (number_error (tree_of value)) }
    {
        value.deserialize_i64()
    }

    #[inline(always)]
    fn read_image<R: ImageReader>(
        alloc: Global,
        reader: &mut R,
        _levels: usize,
    ) -> Result<i64, Unread> {
        let content = reader.read_integer()?;
        Ok(i64::deserialize(alloc, Ipld::Integer(content))?)
    }
}

/// An Integer.
impl Deserialize for i128 {
    ghost Contents = { ℤ };

    ghost contents = { λ n. n };

    ghost reads = { integer_in };

    ghost read_error = { OtherKind };

    #[inline(always)]
    fn deserialize(_alloc: Global, value: Ipld) -> Result<i128, SerdeError>
        ensures exact { result ≡ taken integer_in (tree_of value) }
    {
        value.deserialize_i128()
    }

    #[inline(always)]
    fn read_image<R: ImageReader>(
        alloc: Global,
        reader: &mut R,
        _levels: usize,
    ) -> Result<i128, Unread> {
        let content = reader.read_integer()?;
        Ok(i128::deserialize(alloc, Ipld::Integer(content))?)
    }
}

/// An Integer in range.
impl Deserialize for isize {
    ghost Contents = { ℤ };

    ghost contents = { λ n. n };

    ghost reads = { signed_reading 64 };

    ghost read_error = { NumberError };

    #[inline(always)]
    fn deserialize(_alloc: Global, value: Ipld) -> Result<isize, SerdeError>
        ensures exact { result ≡ ok_or (signed_reading 64 (tree_of value))
            (number_error (tree_of value)) }
    {
        Ok(value.deserialize_i64()? as isize)
    }

    #[inline(always)]
    fn read_image<R: ImageReader>(
        alloc: Global,
        reader: &mut R,
        _levels: usize,
    ) -> Result<isize, Unread> {
        let content = reader.read_integer()?;
        Ok(isize::deserialize(alloc, Ipld::Integer(content))?)
    }
}

/// An Integer in range.
impl Deserialize for u8 {
    ghost Contents = { ℕ };

    ghost contents = { λ n. n };

    ghost reads = { unsigned_reading 8 };

    ghost read_error = { NumberError };

    #[inline(always)]
    fn deserialize(_alloc: Global, value: Ipld) -> Result<u8, SerdeError>
        ensures exact { result ≡ ok_or (unsigned_reading 8 (tree_of value))
            (number_error (tree_of value)) }
    {
        value.deserialize_u8()
    }

    #[inline(always)]
    fn read_image<R: ImageReader>(
        alloc: Global,
        reader: &mut R,
        _levels: usize,
    ) -> Result<u8, Unread> {
        let content = reader.read_integer()?;
        Ok(u8::deserialize(alloc, Ipld::Integer(content))?)
    }
}

/// An Integer in range.
impl Deserialize for u16 {
    ghost Contents = { ℕ };

    ghost contents = { λ n. n };

    ghost reads = { unsigned_reading 16 };

    ghost read_error = { NumberError };

    #[inline(always)]
    fn deserialize(_alloc: Global, value: Ipld) -> Result<u16, SerdeError>
        ensures exact { result ≡ ok_or (unsigned_reading 16 (tree_of value))
            (number_error (tree_of value)) }
    {
        value.deserialize_u16()
    }

    #[inline(always)]
    fn read_image<R: ImageReader>(
        alloc: Global,
        reader: &mut R,
        _levels: usize,
    ) -> Result<u16, Unread> {
        let content = reader.read_integer()?;
        Ok(u16::deserialize(alloc, Ipld::Integer(content))?)
    }
}

/// An Integer in range.
impl Deserialize for u32 {
    ghost Contents = { ℕ };

    ghost contents = { λ n. n };

    ghost reads = { unsigned_reading 32 };

    ghost read_error = { NumberError };

    #[inline(always)]
    fn deserialize(_alloc: Global, value: Ipld) -> Result<u32, SerdeError>
        ensures exact { result ≡ ok_or (unsigned_reading 32 (tree_of value))
            (number_error (tree_of value)) }
    {
        value.deserialize_u32()
    }

    #[inline(always)]
    fn read_image<R: ImageReader>(
        alloc: Global,
        reader: &mut R,
        _levels: usize,
    ) -> Result<u32, Unread> {
        let content = reader.read_integer()?;
        Ok(u32::deserialize(alloc, Ipld::Integer(content))?)
    }
}

/// An Integer in range.
impl Deserialize for u64 {
    ghost Contents = { ℕ };

    ghost contents = { λ n. n };

    ghost reads = { unsigned_reading 64 };

    ghost read_error = { NumberError };

    #[inline(always)]
    fn deserialize(_alloc: Global, value: Ipld) -> Result<u64, SerdeError>
        ensures exact { result ≡ ok_or (unsigned_reading 64 (tree_of value))
            (number_error (tree_of value)) }
    {
        value.deserialize_u64()
    }

    #[inline(always)]
    fn read_image<R: ImageReader>(
        alloc: Global,
        reader: &mut R,
        _levels: usize,
    ) -> Result<u64, Unread> {
        let content = reader.read_integer()?;
        Ok(u64::deserialize(alloc, Ipld::Integer(content))?)
    }
}

/// An Integer in range.
impl Deserialize for usize {
    ghost Contents = { ℕ };

    ghost contents = { λ n. n };

    ghost reads = { unsigned_reading 64 };

    ghost read_error = { NumberError };

    #[inline(always)]
    fn deserialize(_alloc: Global, value: Ipld) -> Result<usize, SerdeError>
        ensures exact { result ≡ ok_or (unsigned_reading 64 (tree_of value))
            (number_error (tree_of value)) }
    {
        Ok(value.deserialize_u64()? as usize)
    }

    #[inline(always)]
    fn read_image<R: ImageReader>(
        alloc: Global,
        reader: &mut R,
        _levels: usize,
    ) -> Result<usize, Unread> {
        let content = reader.read_integer()?;
        Ok(usize::deserialize(alloc, Ipld::Integer(content))?)
    }
}

/// An Integer that isn't negative.
impl Deserialize for u128 {
    ghost Contents = { ℕ };

    ghost contents = { λ n. n };

    ghost reads = { not_negative_reading };

    ghost read_error = { NumberError };

    #[inline(always)]
    fn deserialize(_alloc: Global, value: Ipld) -> Result<u128, SerdeError>
        ensures exact { result ≡ ok_or (not_negative_reading (tree_of value))
            (number_error (tree_of value)) }
    {
        value.deserialize_u128()
    }

    #[inline(always)]
    fn read_image<R: ImageReader>(
        alloc: Global,
        reader: &mut R,
        _levels: usize,
    ) -> Result<u128, Unread> {
        let content = reader.read_integer()?;
        Ok(u128::deserialize(alloc, Ipld::Integer(content))?)
    }
}

/// A String of exactly one character.
impl Deserialize for char {
    ghost Contents = { ℕ };

    ghost contents = { λ c. c };

    ghost reads = { char_reading };

    ghost read_error = { CharError };

    #[inline(always)]
    fn deserialize(_alloc: Global, value: Ipld) -> Result<char, SerdeError>
        ensures exact { result ≡ ok_or (char_reading (tree_of value)) (char_error (tree_of value)) }
    {
        value.deserialize_char()
    }

    #[inline(always)]
    fn read_image<R: ImageReader>(
        alloc: Global,
        reader: &mut R,
        _levels: usize,
    ) -> Result<char, Unread> {
        let content = reader.read_string(alloc)?;
        Ok(char::deserialize(alloc, Ipld::String(content))?)
    }
}

/// A String, moved.
impl Deserialize for String {
    ghost Contents = { List ℕ };

    ghost contents = { string_bytes };

    ghost reads = { text_in };

    ghost read_error = { OtherKind };

    #[inline(always)]
    fn deserialize(_alloc: Global, value: Ipld) -> Result<String, SerdeError>
        ensures exact { Returns string_bytes result (taken text_in (tree_of value)) }
    {
        value.deserialize_string()
    }

    #[inline(always)]
    fn read_image<R: ImageReader>(
        alloc: Global,
        reader: &mut R,
        _levels: usize,
    ) -> Result<String, Unread> {
        let content = reader.read_string(alloc)?;
        Ok(String::deserialize(alloc, Ipld::String(content))?)
    }
}

/// Bytes, moved. A Link is not Bytes.
impl Deserialize for ByteBuf {
    ghost Contents = { List ℕ };

    ghost contents = { λ b. b };

    ghost reads = { bytes_in };

    ghost read_error = { OtherKind };

    #[inline(always)]
    fn deserialize(_alloc: Global, value: Ipld) -> Result<ByteBuf, SerdeError>
        ensures exact { Returns (λ b. b) result (taken bytes_in (tree_of value)) }
    {
        value.deserialize_byte_buf()
    }

    #[inline(always)]
    fn read_image<R: ImageReader>(
        alloc: Global,
        reader: &mut R,
        _levels: usize,
    ) -> Result<ByteBuf, Unread> {
        let content = reader.read_bytes(alloc)?;
        Ok(ByteBuf::deserialize(alloc, Ipld::Bytes(content))?)
    }
}

/// A Link. Bytes are not a Link, even if they encode a CID.
impl Deserialize for Cid {
    ghost Contents = { Link };

    ghost contents = { link_of };

    ghost reads = { link_in };

    ghost read_error = { OtherKind };

    #[inline(always)]
    fn deserialize(_alloc: Global, value: Ipld) -> Result<Cid, SerdeError>
        ensures exact { Returns link_of result (taken link_in (tree_of value)) }
    {
        match value.deserialize_newtype_struct(CID_SERDE_PRIVATE_IDENTIFIER)? {
            Ipld::Link(cid) => Ok(cid),
            _ => unreachable!(),
        }
    }

    #[inline(always)]
    fn read_image<R: ImageReader>(
        _alloc: Global,
        reader: &mut R,
        _levels: usize,
    ) -> Result<Cid, Unread> {
        reader.read_link()
    }
}

/// Any tree, unchanged.
impl Deserialize for Ipld {
    ghost Contents = { Tree };

    ghost contents = { tree_of };

    ghost reads = { Some };

    ghost read_error = { NoError };

    #[inline(always)]
    fn deserialize(_alloc: Global, value: Ipld) -> Result<Ipld, SerdeError>
        ensures exact { Returns tree_of result (Ok (tree_of value)) }
    {
        value.deserialize_any()
    }

    #[inline(always)]
    fn read_image<R: ImageReader>(
        alloc: Global,
        reader: &mut R,
        levels: usize,
    ) -> Result<Ipld, Unread> {
        reader.read_tree(alloc, levels)
    }

    #[inline(always)]
    fn discard(self) {
        Ipld::discard(self);
    }
}

/// A Null.
impl Deserialize for () {
    ghost Contents = { Unit {0} };

    ghost contents = { λ u. u };

    ghost reads = { nothing_in };

    ghost read_error = { OtherKind };

    #[inline(always)]
    fn deserialize(_alloc: Global, value: Ipld) -> Result<(), SerdeError>
        ensures exact { result ≡ taken nothing_in (tree_of value) }
    {
        value.deserialize_unit()
    }

    #[inline(always)]
    fn read_image<R: ImageReader>(
        _alloc: Global,
        reader: &mut R,
        _levels: usize,
    ) -> Result<(), Unread> {
        if reader.read_null() {
            Ok(())
        } else {
            Err(Unread::Rejected)
        }
    }
}
