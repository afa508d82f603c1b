//! Reading an enum: its variant's name, and then its content.

ghost use Rattle.std.specs.Prelude.{◌≡◌, ◌<◌, false, length, slice_get, codes, Some, None, option_map, option_and_then, Err, IfOk, IfErr, string_bytes};
ghost use Rattle.ipld_de.specs.Fields.{AreOthers, strings, struct_reading, StructReadError};
ghost use Rattle.ipld_ser.specs.Names.{AreDistinct};
ghost use Rattle.ipld_de.specs.Cursors.{left, entries_left, waiting, variant_of, content_of};
ghost use Rattle.ipld_de.specs.Forms.{unit_in, content_in, tuple_in};
ghost use Rattle.ipld_de.specs.Reading.{Returns, ContentError, IsCustom};
ghost use Rattle.ipld_ser.specs.Image.{RejectsAs};
ghost use Rattle.ipld_tree.specs.Convert.{entries_in};
ghost use Rattle.ipld_tree.specs.IsWhole.{Ascends};
ghost use Rattle.ipld_tree.specs.TreeOf.{tree_of};
ghost use Rattle.ipld_ser.specs.declared.error.SerdeError.TheVariants as error;

use crate::deserialize::Deserialize;
use crate::deserializer::Deserializer;
use crate::fields::{Fields, position_of, read_struct};
use crate::map::MapDeserializer;
use crate::sequence::SeqDeserializer;
use ipld_ser::SerdeError;
use ipld_tree::Ipld;
use std::alloc::Global;

/// A reader of an enum, from
/// [`Deserializer::deserialize_enum`](crate::Deserializer::deserialize_enum). Its drop is a loop,
/// however deeply the content nests.
pub struct EnumDeserializer {
    variant: String,
    content: Option<Ipld>,
}

/// A reader of the content of an enum's variant, from [`EnumDeserializer::variant`]. Its drop is a
/// loop, however deeply the content nests.
pub struct VariantDeserializer {
    content: Option<Ipld>,
}

impl EnumDeserializer {
    #[inline(always)]
    pub(crate) fn new(variant: String, content: Option<Ipld>) -> EnumDeserializer
        ensures { variant_of result ≡ (string_bytes variant, option_map tree_of content) }
    {
        EnumDeserializer { variant, content }
    }

    /// Returns the variant's name, and its content to be read. Does not allocate.
    #[inline(always)]
    pub fn variant(self) -> (String, VariantDeserializer)
        ensures { (string_bytes result.0, content_of result.1) ≡ variant_of self }
    {
        let EnumDeserializer { variant, content } = self;
        (variant, VariantDeserializer { content })
    }
}

impl EnumDeserializer {
    /// Returns the index of the variant's name among `names`, and the variant's content to be read.
    /// Does not allocate.
    ///
    /// # Errors
    ///
    /// `Custom("unknown variant")` if the name is not one of them.
    pub fn variant_among(self, names: &[&str]) -> Result<(usize, VariantDeserializer), SerdeError>
        ensures found { IfOk result (λ v. (slice_get (strings names.now) v.0 ≡ Some
            (variant_of self).0) × (content_of v.1 ≡ (variant_of self).1)) }
        ensures within { IfOk result (λ v. v.0 < length names.now) }
        ensures unknown { IfErr result (λ e. IsCustom (codes "unknown variant") e
            × AreOthers (variant_of self).0 (strings names.now)) }
    {
        let (name, content) = self.variant();
        match position_of(names, name.as_str()) {
            Some(index) => Ok((index, content)),
            None => Err(SerdeError::Custom("unknown variant")),
        }
    }
}

impl VariantDeserializer {
    /// Reads a variant without content: the content is missing or Null. Does not allocate.
    ///
    /// # Errors
    ///
    /// [`SerdeError::WrongKind`] with the kind of the content if and only if there is other
    /// content.
    #[inline(always)]
    pub fn unit_variant(self) -> Result<(), SerdeError>
        ensures { result ≡ unit_in (content_of self) }
    {
        let VariantDeserializer { content } = self;
        match content {
            None => Ok(()),
            Some(content) => content.deserialize_unit(),
        }
    }

    /// Reads a variant of one value: reads the content as a `T`.
    ///
    /// # Errors
    ///
    /// [`SerdeError::VariantContent`] if the content is missing. Otherwise the error of `T`, or
    /// [`SerdeError::Memory`] if an allocation fails.
    #[inline(always)]
    pub fn newtype_variant<T: Deserialize>(self, alloc: Global) -> Result<T, SerdeError>
        ensures ok { IfOk result (λ v. option_and_then T.reads (content_of self) ≡ Some
            (T.contents v)) }
        ensures err { IfErr result (λ e. RejectsAs (option_and_then T.reads (content_of self))
            (ContentError error.VariantContent T.read_error (content_of self)) e) }
        ensures none { content_of self ≡ None → result ≡ Err error.VariantContent }
    {
        let VariantDeserializer { content } = self;
        match content {
            None => Err(SerdeError::VariantContent),
            Some(content) => T::deserialize(alloc, content),
        }
    }

    /// Reads a variant of named fields: reads the fields from a Map like
    /// [`read_struct`](crate::read_struct). Ignores other entries.
    ///
    /// # Errors
    ///
    /// [`SerdeError::VariantContent`] if the content is missing. Otherwise the errors of
    /// [`read_struct`](crate::read_struct).
    pub fn struct_fields<F: Fields>(
        self,
        alloc: Global,
        names: &[&str],
    ) -> Result<F::Values, SerdeError>
        requires count { length names.now ≡ F.count }
        requires distinct { AreDistinct (strings names.now) }
        ensures ok { IfOk result (λ v. option_and_then
            (struct_reading (F.named_reads (strings names.now))) (content_of self) ≡ Some
            (F.contents v)) }
        ensures err { IfErr result (λ e. RejectsAs
            (option_and_then (struct_reading (F.named_reads (strings names.now))) (content_of self))
            (ContentError error.VariantContent (StructReadError false F.parts (strings names.now))
            (content_of self)) e) }
    {
        let VariantDeserializer { content } = self;
        match content {
            None => Err(SerdeError::VariantContent),
            Some(content) => read_struct::<F>(alloc, content, "", names),
        }
    }

    /// Reads a variant of `len` values: returns the items of a List, to be read one by one. Does
    /// not allocate.
    ///
    /// # Errors
    ///
    /// - [`SerdeError::VariantContent`] if the content is missing.
    /// - [`SerdeError::WrongKind`] with the kind of the content if it is not a List.
    /// - [`SerdeError::WrongLength`] if it is a List of another length.
    #[inline(always)]
    pub fn tuple_variant(self, len: usize) -> Result<SeqDeserializer, SerdeError>
        ensures { Returns left result (tuple_in len (content_of self)) }
    {
        let VariantDeserializer { content } = self;
        let Some(content) = content else {
            return Err(SerdeError::VariantContent);
        };
        let items = content.deserialize_seq()?;
        if items.remaining() == len {
            Ok(items)
        } else {
            Err(SerdeError::WrongLength)
        }
    }

    /// Reads a variant of named fields: returns the entries of a Map, to be read one by one.
    /// Ignores the names. Does not allocate.
    ///
    /// # Errors
    ///
    /// [`SerdeError::VariantContent`] if the content is missing. [`SerdeError::WrongKind`] with the
    /// kind of the content if it is not a Map.
    #[inline(always)]
    pub fn struct_variant(self, _fields: &[&str]) -> Result<MapDeserializer, SerdeError>
        ensures content { Returns entries_left result (content_in entries_in (content_of self)) }
        ensures none { IfOk result (λ c. waiting c ≡ None) }
        ensures ascends { IfOk result (λ c. Ascends (entries_left c)) }
    {
        let VariantDeserializer { content } = self;
        match content {
            None => Err(SerdeError::VariantContent),
            Some(content) => content.deserialize_map(),
        }
    }
}

impl Drop for EnumDeserializer {
    #[inline(always)]
    fn drop(self) {
        let EnumDeserializer {
            variant: _,
            content,
        } = self;
        if let Some(content) = content {
            content.discard();
        }
    }
}

impl Drop for VariantDeserializer {
    #[inline(always)]
    fn drop(self) {
        let VariantDeserializer { content } = self;
        if let Some(content) = content {
            content.discard();
        }
    }
}
