//! The calls by which a type reads a tree.

ghost use Rattle.std.specs.Prelude.{◌≡◌, false, None, Ok, Err, option_map, ok_or, IfOk, IsOk, string_bytes, chars};
ghost use Rattle.std.specs.Result.{result_map_both};
ghost use Rattle.ipld_de.specs.Cursors.{left, entries_left, waiting, variant_of};
ghost use Rattle.ipld_de.specs.Forms.{something_in, newtype_in, only_link, variant_in, only_entry};
ghost use Rattle.ipld_de.specs.Reading.{Returns, taken, wrong_kind as kind_found};
ghost use Rattle.ipld_de.specs.ConversionErrors.{serde_error_of};
ghost use Rattle.ipld_de.specs.Scalars.{unsigned_reading, signed_reading, not_negative_reading, number_error, only_char, char_reading, char_error};
ghost use Rattle.ipld_tree.specs.Convert.{nothing_in, boolean_in, integer_in, text_in, bytes_in, list_in, entries_in};
ghost use Rattle.ipld_tree.specs.IsWhole.{Ascends};
ghost use Rattle.ipld_tree.specs.Tree.{Tree};
ghost use Rattle.ipld_tree.specs.TreeOf.{tree_of, members_of};
ghost use Rattle.ipld_ser.specs.declared.error.SerdeError.TheVariants as error;

use crate::ignored::IgnoredAny;
use crate::map::MapDeserializer;
use crate::sequence::SeqDeserializer;
use crate::variants::EnumDeserializer;
use ipld_cid::CID_SERDE_PRIVATE_IDENTIFIER;
use ipld_ser::{ByteBuf, SerdeError};
use ipld_tree::Ipld;
use ipld_tree::convert::ConversionError;
use std::collections::BTreeMap;

/// Reads a tree as one form of value. The calls do not allocate, and move the contents of the tree.
///
/// The `deserialize_` calls consume the tree. A call returns [`SerdeError::WrongKind`] with the
/// kind of the tree if and only if it does not take trees of that kind. The exception is
/// `deserialize_unit_struct`, which always returns [`SerdeError::UnitStruct`].
pub trait Deserializer: Sized {
    // the tree that is read
    ghost held: { Self → Tree };

    /// Returns the `bool` of a Bool.
    fn deserialize_bool(self) -> Result<bool, SerdeError>
        ensures { result ≡ taken boolean_in (held self) };

    /// Returns the number of an Integer, or [`SerdeError::OutOfRange`] if an `i8` can't hold it.
    fn deserialize_i8(self) -> Result<i8, SerdeError>
        ensures { result ≡ ok_or (signed_reading 8 (held self)) (number_error (held self)) };

    /// Returns the number of an Integer, or [`SerdeError::OutOfRange`] if an `i16` can't hold it.
    fn deserialize_i16(self) -> Result<i16, SerdeError>
        ensures { result ≡ ok_or (signed_reading 16 (held self)) (number_error (held self)) };

    /// Returns the number of an Integer, or [`SerdeError::OutOfRange`] if an `i32` can't hold it.
    fn deserialize_i32(self) -> Result<i32, SerdeError>
        ensures { result ≡ ok_or (signed_reading 32 (held self)) (number_error (held self)) };

    /// Returns the number of an Integer, or [`SerdeError::OutOfRange`] if an `i64` can't hold it.
    fn deserialize_i64(self) -> Result<i64, SerdeError>
        ensures { result ≡ ok_or (signed_reading 64 (held self)) (number_error (held self)) };

    /// Returns the number of an Integer. An `i128` can hold every Integer.
    fn deserialize_i128(self) -> Result<i128, SerdeError>
        ensures { result ≡ taken integer_in (held self) };

    /// Returns the number of an Integer, or [`SerdeError::OutOfRange`] if a `u8` can't hold it.
    fn deserialize_u8(self) -> Result<u8, SerdeError>
        ensures { result ≡ ok_or (unsigned_reading 8 (held self)) (number_error (held self)) };

    /// Returns the number of an Integer, or [`SerdeError::OutOfRange`] if a `u16` can't hold it.
    fn deserialize_u16(self) -> Result<u16, SerdeError>
        ensures { result ≡ ok_or (unsigned_reading 16 (held self)) (number_error (held self)) };

    /// Returns the number of an Integer, or [`SerdeError::OutOfRange`] if a `u32` can't hold it.
    fn deserialize_u32(self) -> Result<u32, SerdeError>
        ensures { result ≡ ok_or (unsigned_reading 32 (held self)) (number_error (held self)) };

    /// Returns the number of an Integer, or [`SerdeError::OutOfRange`] if a `u64` can't hold it.
    fn deserialize_u64(self) -> Result<u64, SerdeError>
        ensures { result ≡ ok_or (unsigned_reading 64 (held self)) (number_error (held self)) };

    /// Returns the number of an Integer, or [`SerdeError::OutOfRange`] if it is negative.
    fn deserialize_u128(self) -> Result<u128, SerdeError>
        ensures { result ≡ ok_or (not_negative_reading (held self)) (number_error (held self)) };

    /// Returns the only character of a String, or [`SerdeError::NotOneChar`] if it does not have
    /// exactly one.
    fn deserialize_char(self) -> Result<char, SerdeError>
        ensures { result ≡ ok_or (char_reading (held self)) (char_error (held self)) };

    /// Returns the content of a String.
    fn deserialize_str(self) -> Result<String, SerdeError>
        ensures { Returns string_bytes result (taken text_in (held self)) };

    /// Returns the content of a String.
    fn deserialize_string(self) -> Result<String, SerdeError>
        ensures { Returns string_bytes result (taken text_in (held self)) };

    /// Returns the content of a String: the name of a field or of a variant.
    fn deserialize_identifier(self) -> Result<String, SerdeError>
        ensures { Returns string_bytes result (taken text_in (held self)) };

    /// Returns the content of Bytes. A Link is not Bytes.
    fn deserialize_bytes(self) -> Result<ByteBuf, SerdeError>
        ensures { Returns (λ b. b) result (taken bytes_in (held self)) };

    /// Returns the content of Bytes. A Link is not Bytes.
    fn deserialize_byte_buf(self) -> Result<ByteBuf, SerdeError>
        ensures { Returns (λ b. b) result (taken bytes_in (held self)) };

    /// Returns `None` for a Null, and otherwise `Some` of the tree. Never fails.
    fn deserialize_option(self) -> Result<Option<Ipld>, SerdeError>
        ensures { Returns (option_map tree_of) result (Ok (something_in (held self))) };

    /// Returns `()` for a Null.
    fn deserialize_unit(self) -> Result<(), SerdeError>
        ensures { result ≡ taken nothing_in (held self) };

    /// Returns an error, since a unit struct is not read from any tree.
    ///
    /// # Errors
    ///
    /// [`SerdeError::UnitStruct`] always.
    fn deserialize_unit_struct(self, name: &str) -> Result<(), SerdeError>
        ensures { result ≡ Err error.UnitStruct };

    /// Returns the tree, to be read as the content of a newtype struct. Under the name
    /// [`CID_SERDE_PRIVATE_IDENTIFIER`](ipld_cid::CID_SERDE_PRIVATE_IDENTIFIER) it takes only a
    /// Link.
    fn deserialize_newtype_struct(self, name: &str) -> Result<Ipld, SerdeError>
        ensures { Returns tree_of result (newtype_in name.now (held self)) };

    /// Returns the items of a List, to be read one by one.
    fn deserialize_seq(self) -> Result<SeqDeserializer, SerdeError>
        ensures { Returns left result (taken list_in (held self)) };

    /// Returns the items of a List, to be read one by one. Ignores the length:
    /// [`SeqDeserializer::end`] reports leftover items.
    fn deserialize_tuple(self, len: usize) -> Result<SeqDeserializer, SerdeError>
        ensures { Returns left result (taken list_in (held self)) };

    /// Returns the items of a List, to be read one by one. Ignores the name and the length.
    fn deserialize_tuple_struct(self, name: &str, len: usize) -> Result<SeqDeserializer, SerdeError>
        ensures { Returns left result (taken list_in (held self)) };

    /// Returns the entries of a Map, to be read one by one in the byte order of their keys.
    fn deserialize_map(self) -> Result<MapDeserializer, SerdeError>
        ensures content { Returns entries_left result (taken entries_in (held self)) }
        ensures none { IfOk result (λ c. waiting c ≡ None) }
        ensures ascends { IfOk result (λ c. Ascends (entries_left c)) };

    /// Returns the entries of a Map, to be read one by one in the byte order of their keys. Ignores
    /// the name and the fields.
    fn deserialize_struct(self, name: &str, fields: &[&str]) -> Result<MapDeserializer, SerdeError>
        ensures content { Returns entries_left result (taken entries_in (held self)) }
        ensures none { IfOk result (λ c. waiting c ≡ None) }
        ensures ascends { IfOk result (λ c. Ascends (entries_left c)) };

    /// Returns the variant of an enum. A String is its name. A Map of exactly one key is its name
    /// with its content. Ignores the name of the enum and the variants.
    ///
    /// # Errors
    ///
    /// [`SerdeError::NoKey`] for an empty Map, [`SerdeError::MoreKeys`] for a Map of several keys,
    /// and [`SerdeError::WrongKind`] for any other kind.
    fn deserialize_enum(self, name: &str, variants: &[&str]) -> Result<EnumDeserializer, SerdeError>
        ensures { Returns variant_of result (variant_in (held self)) };

    /// Drops the tree, whatever its kind. Never fails.
    fn deserialize_ignored_any(self) -> Result<IgnoredAny, SerdeError>
        ensures { IsOk result };

    /// Returns the tree itself. Never fails.
    fn deserialize_any(self) -> Result<Ipld, SerdeError>
        ensures { Returns tree_of result (Ok (held self)) };

    /// Returns whether the form is for people to read, which is always `false`.
    fn is_human_readable(&self) -> bool
        ensures { result ≡ false };
}

impl Deserializer for Ipld {
    ghost held = { tree_of };

    #[inline(always)]
    fn deserialize_bool(self) -> Result<bool, SerdeError> {
        or_serde_error(bool::try_from(self))
    }

    #[inline(always)]
    fn deserialize_i8(self) -> Result<i8, SerdeError> {
        or_serde_error(i8::try_from(self))
    }

    #[inline(always)]
    fn deserialize_i16(self) -> Result<i16, SerdeError> {
        or_serde_error(i16::try_from(self))
    }

    #[inline(always)]
    fn deserialize_i32(self) -> Result<i32, SerdeError> {
        or_serde_error(i32::try_from(self))
    }

    #[inline(always)]
    fn deserialize_i64(self) -> Result<i64, SerdeError> {
        or_serde_error(i64::try_from(self))
    }

    #[inline(always)]
    fn deserialize_i128(self) -> Result<i128, SerdeError> {
        or_serde_error(i128::try_from(self))
    }

    #[inline(always)]
    fn deserialize_u8(self) -> Result<u8, SerdeError> {
        or_serde_error(u8::try_from(self))
    }

    #[inline(always)]
    fn deserialize_u16(self) -> Result<u16, SerdeError> {
        or_serde_error(u16::try_from(self))
    }

    #[inline(always)]
    fn deserialize_u32(self) -> Result<u32, SerdeError> {
        or_serde_error(u32::try_from(self))
    }

    #[inline(always)]
    fn deserialize_u64(self) -> Result<u64, SerdeError> {
        or_serde_error(u64::try_from(self))
    }

    #[inline(always)]
    fn deserialize_u128(self) -> Result<u128, SerdeError> {
        or_serde_error(u128::try_from(self))
    }

    #[inline(always)]
    fn deserialize_char(self) -> Result<char, SerdeError> {
        single_char(self.deserialize_str()?.as_str())
    }

    #[inline(always)]
    fn deserialize_str(self) -> Result<String, SerdeError> {
        or_serde_error(String::try_from(self))
    }

    #[inline(always)]
    fn deserialize_string(self) -> Result<String, SerdeError> {
        self.deserialize_str()
    }

    #[inline(always)]
    fn deserialize_identifier(self) -> Result<String, SerdeError> {
        self.deserialize_string()
    }

    #[inline(always)]
    fn deserialize_bytes(self) -> Result<ByteBuf, SerdeError> {
        Ok(ByteBuf::from(or_serde_error(Vec::<u8>::try_from(self))?))
    }

    #[inline(always)]
    fn deserialize_byte_buf(self) -> Result<ByteBuf, SerdeError> {
        self.deserialize_bytes()
    }

    #[inline(always)]
    fn deserialize_option(self) -> Result<Option<Ipld>, SerdeError> {
        match self {
            Ipld::Null => Ok(None),
            content => Ok(Some(content)),
        }
    }

    #[inline(always)]
    fn deserialize_unit(self) -> Result<(), SerdeError> {
        or_serde_error(<()>::try_from(self))
    }

    #[inline(always)]
    fn deserialize_unit_struct(self, _name: &str) -> Result<(), SerdeError> {
        Err(discard_for_error(self, SerdeError::UnitStruct))
    }

    #[inline(always)]
    fn deserialize_newtype_struct(self, name: &str) -> Result<Ipld, SerdeError> {
        if name == CID_SERDE_PRIVATE_IDENTIFIER {
            only_link(self)
        } else {
            self.deserialize_any()
        }
    }

    #[inline(always)]
    fn deserialize_seq(self) -> Result<SeqDeserializer, SerdeError> {
        Ok(SeqDeserializer::new(or_serde_error(Vec::<Ipld>::try_from(self))?))
    }

    #[inline(always)]
    fn deserialize_tuple(self, _len: usize) -> Result<SeqDeserializer, SerdeError> {
        self.deserialize_seq()
    }

    #[inline(always)]
    fn deserialize_tuple_struct(
        self,
        _name: &str,
        len: usize,
    ) -> Result<SeqDeserializer, SerdeError> {
        self.deserialize_tuple(len)
    }

    #[inline(always)]
    fn deserialize_map(self) -> Result<MapDeserializer, SerdeError> {
        Ok(MapDeserializer::new(or_serde_error(BTreeMap::<String, Ipld>::try_from(self))?))
    }

    #[inline(always)]
    fn deserialize_struct(
        self,
        _name: &str,
        _fields: &[&str],
    ) -> Result<MapDeserializer, SerdeError> {
        self.deserialize_map()
    }

    #[inline(always)]
    fn deserialize_enum(
        self,
        _name: &str,
        _variants: &[&str],
    ) -> Result<EnumDeserializer, SerdeError> {
        match self {
            Ipld::String(variant) => Ok(EnumDeserializer::new(variant, None)),
            Ipld::Map(entries) => enum_of_single_entry(entries),
            other => Err(wrong_kind(other)),
        }
    }

    #[inline(always)]
    fn deserialize_ignored_any(self) -> Result<IgnoredAny, SerdeError> {
        self.discard();
        Ok(IgnoredAny)
    }

    #[inline(always)]
    fn deserialize_any(self) -> Result<Ipld, SerdeError> {
        Ok(self)
    }

    #[inline(always)]
    fn is_human_readable(&self) -> bool {
        false
    }
}

// Converts the error of a conversion to an error of reading.
#[inline(always)]
fn or_serde_error<T>(converted: Result<T, ConversionError>) -> Result<T, SerdeError>
    ensures { result ≡ result_map_both (λ v. v) serde_error_of converted }
{
    match converted {
        Ok(value) => Ok(value),
        Err(ConversionError::WrongIpldKind { found, .. }) => Err(SerdeError::WrongKind(found)),
        Err(ConversionError::FromIpld { .. }) => Err(SerdeError::OutOfRange),
    }
}

// Returns the character of a string of exactly one.
pub(crate) fn single_char(text: &str) -> Result<char, SerdeError>
    ensures { result ≡ ok_or (only_char (chars text.now)) error.NotOneChar }
{
    let mut chars = text.chars();
    match chars.next() {
        None => Err(SerdeError::NotOneChar),
        Some(only) => match chars.next() {
            None => Ok(only),
            Some(_) => Err(SerdeError::NotOneChar),
        },
    }
}

// Takes only a Link.
#[inline(always)]
fn only_link(value: Ipld) -> Result<Ipld, SerdeError>
    ensures { Returns tree_of result (taken only_link (tree_of value)) }
{
    match value {
        Ipld::Link(cid) => Ok(Ipld::Link(cid)),
        other => Err(wrong_kind(other)),
    }
}

// Drops a tree of a kind that is not taken, and returns the error.
fn wrong_kind(found: Ipld) -> SerdeError
    ensures { result ≡ kind_found (tree_of found) }
{
    let kind = found.kind();
    discard_for_error(found, SerdeError::WrongKind(kind))
}

// Drops the rejected value by a loop, and returns the error.
fn discard_for_error(value: Ipld, error: SerdeError) -> SerdeError
    ensures { result ≡ error }
{
    value.discard();
    error
}

// Returns the only entry of a map: a variant and its content.
fn enum_of_single_entry(entries: BTreeMap<String, Ipld>) -> Result<EnumDeserializer, SerdeError>
    ensures { Returns variant_of result (only_entry (members_of entries.entries)) }
{
    let mut entries = MapDeserializer::new(entries);
    let Some((variant, content)) = entries.next_entry() else {
        return Err(SerdeError::NoKey);
    };
    if entries.remaining() > 0 {
        content.discard();
        return Err(SerdeError::MoreKeys);
    }
    Ok(EnumDeserializer::new(variant, Some(content)))
}
