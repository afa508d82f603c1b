//! The calls by which a type writes itself.

ghost use Rattle.std.specs.Prelude.{◌≡◌, [], pos, false, Some, None, Err, IsOk, IfOk, IfErr, IsOkAnd, MatchResult, encode_utf8, string_bytes};
ghost use Rattle.ipld_ser.specs.Scalars.{unsigned_image};
ghost use Rattle.ipld_tree.specs.Tree.{null, boolean, integer, text, bytes};
ghost use Rattle.ipld_tree.specs.TreeOf.{tree_of};

use crate::error::SerdeError;
use ipld_tree::Ipld;
use std::alloc::Global;

/// Writes values as trees, with one call for every form of value.
///
/// The calls that take an allocator return [`SerdeError::Memory`] if an allocation fails. The
/// others do not allocate.
#[derive(Clone, Copy)]
pub struct Serializer;

impl Serializer {
    /// Writes a bool as a Bool.
    #[inline(always)]
    pub fn serialize_bool(self, value: bool) -> Result<Ipld, SerdeError>
        ensures { IsOkAnd result (λ t. tree_of t ≡ boolean value) }
    {
        Ok(Ipld::Bool(value))
    }

    /// Writes a number as an Integer.
    #[inline(always)]
    pub fn serialize_i8(self, value: i8) -> Result<Ipld, SerdeError>
        ensures { IsOkAnd result (λ t. tree_of t ≡ integer value) }
    {
        self.serialize_i16(i16::from(value))
    }

    /// Writes a number as an Integer.
    #[inline(always)]
    pub fn serialize_i16(self, value: i16) -> Result<Ipld, SerdeError>
        ensures { IsOkAnd result (λ t. tree_of t ≡ integer value) }
    {
        self.serialize_i32(i32::from(value))
    }

    /// Writes a number as an Integer.
    #[inline(always)]
    pub fn serialize_i32(self, value: i32) -> Result<Ipld, SerdeError>
        ensures { IsOkAnd result (λ t. tree_of t ≡ integer value) }
    {
        self.serialize_i64(i64::from(value))
    }

    /// Writes a number as an Integer.
    #[inline(always)]
    pub fn serialize_i64(self, value: i64) -> Result<Ipld, SerdeError>
        ensures { IsOkAnd result (λ t. tree_of t ≡ integer value) }
    {
        self.serialize_i128(i128::from(value))
    }

    /// Writes a number as an Integer.
    #[inline(always)]
    pub fn serialize_i128(self, value: i128) -> Result<Ipld, SerdeError>
        ensures { IsOkAnd result (λ t. tree_of t ≡ integer value) }
    {
        Ok(Ipld::Integer(value))
    }

    /// Writes a number as an Integer.
    #[inline(always)]
    pub fn serialize_u8(self, value: u8) -> Result<Ipld, SerdeError>
        ensures { IsOkAnd result (λ t. tree_of t ≡ integer (pos value)) }
    {
        self.serialize_u16(u16::from(value))
    }

    /// Writes a number as an Integer.
    #[inline(always)]
    pub fn serialize_u16(self, value: u16) -> Result<Ipld, SerdeError>
        ensures { IsOkAnd result (λ t. tree_of t ≡ integer (pos value)) }
    {
        self.serialize_u32(u32::from(value))
    }

    /// Writes a number as an Integer.
    #[inline(always)]
    pub fn serialize_u32(self, value: u32) -> Result<Ipld, SerdeError>
        ensures { IsOkAnd result (λ t. tree_of t ≡ integer (pos value)) }
    {
        self.serialize_u64(u64::from(value))
    }

    /// Writes a number as an Integer.
    #[inline(always)]
    pub fn serialize_u64(self, value: u64) -> Result<Ipld, SerdeError>
        ensures { IsOkAnd result (λ t. tree_of t ≡ integer (pos value)) }
    {
        Ok(Ipld::Integer(i128::from(value)))
    }

    /// Writes a number of at most [`i128::MAX`] as an Integer.
    ///
    /// # Errors
    ///
    /// [`SerdeError::U128`] if and only if the number is greater.
    #[inline(always)]
    pub fn serialize_u128(self, value: u128) -> Result<Ipld, SerdeError>
        ensures { MatchResult result
            (λ t. unsigned_image 127 value ≡ Some (tree_of t))
            (λ e. (e ≡ SerdeError.U128) × (unsigned_image 127 value ≡ None)) }
    {
        match i128::try_from(value) {
            Ok(number) => self.serialize_i128(number),
            Err(_) => Err(SerdeError::U128),
        }
    }

    /// Writes a character as a String.
    #[inline(always)]
    pub fn serialize_char(self, alloc: Global, value: char) -> Result<Ipld, SerdeError>
        ensures ok { IfOk result (λ t. tree_of t ≡ text (encode_utf8 value)) }
        ensures err { IfErr result (λ e. e ≡ SerdeError.Memory) }
    {
        let mut string = String::new(alloc);
        string.push(value)?;
        Ok(Ipld::String(string))
    }

    /// Writes a string as a String. An empty string does not allocate.
    #[inline(always)]
    pub fn serialize_str(self, alloc: Global, value: &str) -> Result<Ipld, SerdeError>
        ensures ok { IfOk result (λ t. tree_of t ≡ text value.now) }
        ensures err { IfErr result (λ e. e ≡ SerdeError.Memory) }
        ensures empty { value.now ≡ [] → IsOk result }
    {
        Ok(Ipld::String(string_of(alloc, value)?))
    }

    /// Writes bytes as Bytes. Empty bytes do not allocate.
    #[inline(always)]
    pub fn serialize_bytes(self, alloc: Global, value: &[u8]) -> Result<Ipld, SerdeError>
        ensures ok { IfOk result (λ t. tree_of t ≡ bytes value.now) }
        ensures err { IfErr result (λ e. e ≡ SerdeError.Memory) }
        ensures empty { value.now ≡ [] → IsOk result }
    {
        let mut copy = Vec::with_capacity(alloc, value.len())?;
        copy.extend_from_slice(value)?;
        Ok(Ipld::Bytes(copy))
    }

    /// Writes the absence of a value as Null.
    #[inline(always)]
    pub fn serialize_none(self) -> Result<Ipld, SerdeError>
        ensures { IsOkAnd result (λ t. tree_of t ≡ null) }
    {
        Ok(Ipld::Null)
    }

    /// Rejects `()`, which has no image.
    ///
    /// # Errors
    ///
    /// Always [`SerdeError::Unit`].
    #[inline(always)]
    pub fn serialize_unit(self) -> Result<Ipld, SerdeError>
        ensures { result ≡ Err SerdeError.Unit }
    {
        Err(SerdeError::Unit)
    }

    /// Rejects a unit struct, which has no image.
    ///
    /// # Errors
    ///
    /// Always [`SerdeError::UnitStruct`].
    #[inline(always)]
    pub fn serialize_unit_struct(self, _name: &str) -> Result<Ipld, SerdeError>
        ensures { result ≡ Err SerdeError.UnitStruct }
    {
        Err(SerdeError::UnitStruct)
    }

    /// Writes a variant without content as the String of its name. An empty name does not allocate.
    #[inline(always)]
    pub fn serialize_unit_variant(
        self,
        alloc: Global,
        _name: &str,
        _index: u32,
        variant: &str,
    ) -> Result<Ipld, SerdeError>
        ensures ok { IfOk result (λ t. tree_of t ≡ text variant.now) }
        ensures err { IfErr result (λ e. e ≡ SerdeError.Memory) }
        ensures unnamed { variant.now ≡ [] → IsOk result }
    {
        self.serialize_str(alloc, variant)
    }

    /// Returns whether the form is human-readable, which is always `false`.
    #[inline(always)]
    pub fn is_human_readable(&self) -> bool
        ensures { result ≡ false }
    {
        false
    }
}

// Copies a string. An empty string does not allocate.
pub(crate) fn string_of(alloc: Global, value: &str) -> Result<String, SerdeError>
    ensures ok { IfOk result (λ s. string_bytes s ≡ value.now) }
    ensures err { IfErr result (λ e. e ≡ SerdeError.Memory) }
    ensures empty { value.now ≡ [] → IsOk result }
{
    let mut copy = String::with_capacity(alloc, value.len())?;
    copy.push_str(value)?;
    Ok(copy)
}
