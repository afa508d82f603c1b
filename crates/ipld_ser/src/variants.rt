//! Builders and calls for variants with content.

ghost use Rattle.std.specs.Prelude.{◌≡◌, ◌++◌, [], ◌∷◌, Some, option_map, IsOk, IfOk, IfErr, OnOk, OnErr, string_bytes};
ghost use Rattle.ipld_ser.specs.Builders.{reserved, PutsImage, variant_tree};
ghost use Rattle.ipld_ser.specs.Image.{RejectsAs};
ghost use Rattle.ipld_ser.specs.Variants.{variant_fed, tuple_name, variant_filed, struct_name};
ghost use Rattle.ipld_tree.specs.Capacity.{capacity_for};
ghost use Rattle.ipld_tree.specs.Tree.{list, entries, no_members};
ghost use Rattle.ipld_tree.specs.TreeOf.{tree_of, as_items};

use crate::error::SerdeError;
use crate::map::SerializeMap;
use crate::sequence::SerializeVec;
use crate::serialize::Serialize;
use crate::serializer::{Serializer, string_of};
use ipld_tree::Ipld;
use ipld_tree::macros::put;
use std::alloc::Global;
use std::collections::BTreeMap;

/// A builder that writes a tuple variant field by field. [`Serializer::serialize_tuple_variant`]
/// creates it.
#[derive(Drop)]
pub struct SerializeTupleVariant {
    alloc: Global,
    variant: String,
    list: SerializeVec,
}

/// A builder that writes a struct variant field by field. [`Serializer::serialize_struct_variant`]
/// creates it.
#[derive(Drop)]
pub struct SerializeStructVariant {
    alloc: Global,
    variant: String,
    map: SerializeMap,
}

impl Serializer {
    /// Writes a variant of one value as a Map of the variant's name to the image of the value.
    ///
    /// # Errors
    ///
    /// The error of the value, or [`SerdeError::Memory`] if an allocation fails.
    #[inline(always)]
    pub fn serialize_newtype_variant<T: Serialize>(
        self,
        alloc: Global,
        _name: &str,
        _index: u32,
        variant: &str,
        value: &T,
    ) -> Result<Ipld, SerdeError>
        ensures ok { IfOk result (λ t. option_map (variant_tree variant.now) (T.image value.now)
            ≡ Some (tree_of t)) }
        ensures err { IfErr result (λ e. RejectsAs (T.image value.now)
            (T.write_error value.now) e) }
    {
        let name = string_of(alloc, variant)?;
        let content = value.serialize(alloc, self)?;
        map_of_one(alloc, name, content)
    }

    /// Begins a Map of the variant's name to the List of its fields. The fields follow. `len` is a
    /// hint of their number. It reserves capacity for this number, at most 4,096, and changes
    /// nothing else.
    ///
    /// # Errors
    ///
    /// [`SerdeError::Memory`] if the name or the capacity cannot be allocated. An empty name and a
    /// hint of 0 do not allocate.
    #[inline(always)]
    pub fn serialize_tuple_variant(
        self,
        alloc: Global,
        _name: &str,
        _index: u32,
        variant: &str,
        len: usize,
    ) -> Result<SerializeTupleVariant, SerdeError>
        ensures empty { IfOk result (λ b. variant_fed b ≡ []) }
        ensures name { IfOk result (λ b. tuple_name b ≡ variant.now) }
        ensures capacity { IfOk result (λ b. reserved b.list ≡ capacity_for (Some len)) }
        ensures err { IfErr result (λ e. e ≡ SerdeError.Memory) }
        ensures unnamed { variant.now ≡ [] → capacity_for (Some len) ≡ 0 → IsOk result }
    {
        let variant = string_of(alloc, variant)?;
        let list = self.serialize_seq(alloc, Some(len))?;
        Ok(SerializeTupleVariant {
            alloc,
            variant,
            list,
        })
    }

    /// Begins a Map of the variant's name to the Map of its fields. The fields follow. `len` is a
    /// hint, which changes nothing: only the name is allocated.
    ///
    /// # Errors
    ///
    /// [`SerdeError::Memory`] if the name cannot be allocated. An empty name does not allocate.
    #[inline(always)]
    pub fn serialize_struct_variant(
        self,
        alloc: Global,
        _name: &str,
        _index: u32,
        variant: &str,
        len: usize,
    ) -> Result<SerializeStructVariant, SerdeError>
        ensures empty { IfOk result (λ b. variant_filed b ≡ no_members) }
        ensures name { IfOk result (λ b. struct_name b ≡ variant.now) }
        ensures err { IfErr result (λ e. e ≡ SerdeError.Memory) }
        ensures unnamed { variant.now ≡ [] → IsOk result }
    {
        let variant = string_of(alloc, variant)?;
        let map = self.serialize_map(alloc, Some(len))?;
        Ok(SerializeStructVariant {
            alloc,
            variant,
            map,
        })
    }
}

impl SerializeTupleVariant {
    /// Writes the next field. After an error, the fields are as before.
    ///
    /// # Errors
    ///
    /// The error of the field, or [`SerdeError::Memory`] if an allocation fails.
    #[inline(always)]
    pub fn serialize_field<T: Serialize>(&mut self, value: &T) -> Result<(), SerdeError>
        ensures ok { OnOk result (option_map (λ t. variant_fed self.old ++ t ∷ [])
            (T.image value.now) ≡ Some (variant_fed self.new)) }
        ensures err { IfErr result (λ e. RejectsAs (T.image value.now)
            (T.write_error value.now) e) }
        ensures unchanged { OnErr result (variant_fed self.new ≡ variant_fed self.old) }
        ensures name { tuple_name self.new ≡ tuple_name self.old }
    {
        self.list.serialize_element(value)
    }

    /// Returns the Map of the variant's name to the List of its fields.
    ///
    /// # Errors
    ///
    /// Only [`SerdeError::Memory`], if an allocation fails.
    #[inline(always)]
    pub fn end(self) -> Result<Ipld, SerdeError>
        ensures ok { IfOk result (λ t. tree_of t ≡ variant_tree (tuple_name self)
            (list (as_items (variant_fed self)))) }
        ensures err { IfErr result (λ e. e ≡ SerdeError.Memory) }
    {
        let content = self.list.end()?;
        map_of_one(self.alloc, self.variant, content)
    }
}

impl SerializeStructVariant {
    /// Writes the next field under its name. It replaces the value of an equal name. After an
    /// error, the fields are as before.
    ///
    /// # Errors
    ///
    /// The error of the value, or [`SerdeError::Memory`] if an allocation fails.
    #[inline(always)]
    pub fn serialize_field<T: Serialize>(&mut self, key: &str, value: &T) -> Result<(), SerdeError>
        ensures ok { OnOk result (PutsImage key.now (T.image value.now) (variant_filed self.old)
            (variant_filed self.new)) }
        ensures err { IfErr result (λ e. RejectsAs (T.image value.now)
            (T.write_error value.now) e) }
        ensures unchanged { OnErr result (variant_filed self.new ≡ variant_filed self.old) }
        ensures name { struct_name self.new ≡ struct_name self.old }
    {
        self.map.serialize_field(key, value)
    }

    /// Returns the Map of the variant's name to the Map of its fields.
    ///
    /// # Errors
    ///
    /// Only [`SerdeError::Memory`], if an allocation fails.
    #[inline(always)]
    pub fn end(self) -> Result<Ipld, SerdeError>
        ensures ok { IfOk result (λ t. tree_of t ≡ variant_tree (struct_name self)
            (entries (variant_filed self))) }
        ensures err { IfErr result (λ e. e ≡ SerdeError.Memory) }
    {
        let content = self.map.end()?;
        map_of_one(self.alloc, self.variant, content)
    }
}

// Returns the Map of one name to its content.
fn map_of_one(alloc: Global, name: String, content: Ipld) -> Result<Ipld, SerdeError>
    ensures ok { IfOk result (λ t. tree_of t ≡ variant_tree (string_bytes name) (tree_of content)) }
    ensures err { IfErr result (λ e. e ≡ SerdeError.Memory) }
{
    let mut entries = BTreeMap::new(alloc);
    put(&mut entries, name, content)?;
    Ok(Ipld::Map(entries))
}
