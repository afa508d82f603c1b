//! Writing a list element by element.

ghost use Rattle.std.specs.Prelude.{◌≡◌, ◌++◌, [], ◌∷◌, Some, option_map, IsOk, IfOk, IfErr, OnOk, OnErr, IsOkAnd};
ghost use Rattle.ipld_ser.specs.Builders.{fed, reserved};
ghost use Rattle.ipld_ser.specs.Image.{RejectsAs};
ghost use Rattle.ipld_tree.specs.Capacity.{capacity_for};
ghost use Rattle.ipld_tree.specs.Tree.{list};
ghost use Rattle.ipld_tree.specs.TreeOf.{tree_of, as_items};

use crate::error::SerdeError;
use crate::serialize::Serialize;
use crate::serializer::Serializer;
use ipld_tree::macros::push;
use ipld_tree::{Ipld, list_capacity};
use std::alloc::Global;

/// A builder that writes a List element by element. [`Serializer::serialize_seq`] creates it. Its
/// drop is a loop, however deep the elements nest.
pub struct SerializeVec {
    alloc: Global,
    items: Vec<Ipld>,
}

impl Serializer {
    /// Begins a List. Its elements follow. `len` is a hint of their number. It reserves capacity
    /// for this number, at most 4,096, and changes nothing else.
    ///
    /// # Errors
    ///
    /// [`SerdeError::Memory`] if the capacity cannot be allocated. No hint and a hint of 0 do not
    /// allocate.
    #[inline(always)]
    pub fn serialize_seq(
        self,
        alloc: Global,
        len: Option<usize>,
    ) -> Result<SerializeVec, SerdeError>
        ensures empty { IfOk result (λ b. fed b ≡ []) }
        ensures capacity { IfOk result (λ b. reserved b ≡ capacity_for len) }
        ensures err { IfErr result (λ e. e ≡ SerdeError.Memory) }
        ensures unhinted { capacity_for len ≡ 0 → IsOk result }
    {
        let items = Vec::with_capacity(alloc, list_capacity(len))?;
        Ok(SerializeVec { alloc, items })
    }

    /// Begins a List of the parts of a tuple. The parts follow. `len` is a hint, like that of
    /// [`serialize_seq`](Serializer::serialize_seq).
    #[inline(always)]
    pub fn serialize_tuple(self, alloc: Global, len: usize) -> Result<SerializeVec, SerdeError>
        ensures empty { IfOk result (λ b. fed b ≡ []) }
        ensures capacity { IfOk result (λ b. reserved b ≡ capacity_for (Some len)) }
        ensures err { IfErr result (λ e. e ≡ SerdeError.Memory) }
        ensures unhinted { capacity_for (Some len) ≡ 0 → IsOk result }
    {
        self.serialize_seq(alloc, Some(len))
    }

    /// Begins a List of the fields of a tuple struct. The fields follow. `len` is a hint, like that
    /// of [`serialize_seq`](Serializer::serialize_seq). The name is not written.
    #[inline(always)]
    pub fn serialize_tuple_struct(
        self,
        alloc: Global,
        _name: &str,
        len: usize,
    ) -> Result<SerializeVec, SerdeError>
        ensures empty { IfOk result (λ b. fed b ≡ []) }
        ensures capacity { IfOk result (λ b. reserved b ≡ capacity_for (Some len)) }
        ensures err { IfErr result (λ e. e ≡ SerdeError.Memory) }
        ensures unhinted { capacity_for (Some len) ≡ 0 → IsOk result }
    {
        self.serialize_tuple(alloc, len)
    }
}

impl SerializeVec {
    /// Writes the next element. After an error, the list is as before.
    ///
    /// # Errors
    ///
    /// The error of the element, or [`SerdeError::Memory`] if an allocation fails.
    #[inline(always)]
    pub fn serialize_element<T: Serialize>(&mut self, value: &T) -> Result<(), SerdeError>
        ensures ok { OnOk result (option_map (λ t. fed self.old ++ t ∷ []) (T.image value.now)
            ≡ Some (fed self.new)) }
        ensures err { IfErr result (λ e. RejectsAs (T.image value.now)
            (T.write_error value.now) e) }
        ensures unchanged { OnErr result (fed self.new ≡ fed self.old) }
    {
        let item = value.serialize(self.alloc, Serializer)?;
        push(&mut self.items, item)?;
        Ok(())
    }

    /// Writes the next field of a tuple struct, like
    /// [`serialize_element`](SerializeVec::serialize_element).
    ///
    /// # Errors
    ///
    /// The error of the field, or [`SerdeError::Memory`] if an allocation fails.
    #[inline(always)]
    pub fn serialize_field<T: Serialize>(&mut self, value: &T) -> Result<(), SerdeError>
        ensures ok { OnOk result (option_map (λ t. fed self.old ++ t ∷ []) (T.image value.now)
            ≡ Some (fed self.new)) }
        ensures err { IfErr result (λ e. RejectsAs (T.image value.now)
            (T.write_error value.now) e) }
        ensures unchanged { OnErr result (fed self.new ≡ fed self.old) }
    {
        self.serialize_element(value)
    }

    /// Returns the List of the written elements. It does not allocate and never fails.
    #[inline(always)]
    pub fn end(self) -> Result<Ipld, SerdeError>
        ensures { IsOkAnd result (λ t. tree_of t ≡ list (as_items (fed self))) }
    {
        let SerializeVec { alloc: _, items } = self;
        Ok(Ipld::List(items))
    }
}

impl Drop for SerializeVec {
    #[inline(always)]
    fn drop(self) {
        let SerializeVec { alloc: _, items } = self;
        for item in items {
            item.discard();
        }
    }
}
