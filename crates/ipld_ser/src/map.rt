//! Writing a map entry by entry.

ghost use Rattle.std.specs.Prelude.{◌≡◌, Some, None, IsSome, is_some, IfOk, IfErr, OnOk, OnErr, IsOkAnd, MatchResult, string_bytes};
ghost use Rattle.ipld_ser.specs.Builders.{state_of, without_key, PutsImage, WritesKey, WritesValue, WritesEntry, key_text, RejectsKey, RejectsEntry};
ghost use Rattle.ipld_ser.specs.Image.{RejectsAs, NoError};
ghost use Rattle.ipld_tree.specs.Tree.{entries, text, no_members};
ghost use Rattle.ipld_tree.specs.TreeOf.{tree_of};

use crate::error::SerdeError;
use crate::serialize::Serialize;
use crate::serializer::Serializer;
use ipld_tree::Ipld;
use ipld_tree::macros::put;
use std::alloc::Global;
use std::collections::BTreeMap;

/// A builder that writes a Map entry by entry. [`Serializer::serialize_map`] and
/// [`Serializer::serialize_struct`] create it. Its drop is a loop, however deep the values nest.
pub struct SerializeMap {
    alloc: Global,
    entries: BTreeMap<String, Ipld>,
    key: Option<String>,
}

impl Serializer {
    /// Begins a Map. Its entries follow. `len` is a hint of their number, which changes nothing.
    /// The call does not allocate and never fails.
    #[inline(always)]
    pub fn serialize_map(
        self,
        alloc: Global,
        _len: Option<usize>,
    ) -> Result<SerializeMap, SerdeError>
        ensures empty { IsOkAnd result (λ b. (state_of b).filed ≡ no_members) }
        ensures no_key { IsOkAnd result (λ b. (state_of b).pending ≡ None) }
    {
        Ok(SerializeMap {
            alloc,
            entries: BTreeMap::new(alloc),
            key: None,
        })
    }

    /// Begins a Map of the fields of a struct. The fields follow. The struct's name is not written.
    /// `len` is a hint, like that of [`serialize_map`](Serializer::serialize_map).
    #[inline(always)]
    pub fn serialize_struct(
        self,
        alloc: Global,
        _name: &str,
        len: usize,
    ) -> Result<SerializeMap, SerdeError>
        ensures empty { IsOkAnd result (λ b. (state_of b).filed ≡ no_members) }
        ensures no_key { IsOkAnd result (λ b. (state_of b).pending ≡ None) }
    {
        self.serialize_map(alloc, Some(len))
    }
}

impl SerializeMap {
    /// Writes a key, which is then pending until its value is written. It replaces a key that was
    /// pending. After an error, that key stays pending.
    ///
    /// # Errors
    ///
    /// - [`SerdeError::KeyNotText`] if the key is written as something other than a String.
    /// - The error of the key if it has no image.
    /// - [`SerdeError::Memory`] if an allocation fails.
    #[inline(always)]
    pub fn serialize_key<K: Serialize>(&mut self, key: &K) -> Result<(), SerdeError>
        ensures ok { OnOk result (WritesKey (K.image key.now) (state_of self.old)
            (state_of self.new)) }
        ensures err { IfErr result (λ e. RejectsKey (K.image key.now) (K.write_error key.now) e) }
        ensures unchanged { OnErr result (state_of self.new ≡ state_of self.old) }
    {
        let text = string_key(key.serialize(self.alloc, Serializer)?)?;
        self.key = Some(text);
        Ok(())
    }

    /// Returns whether a key is pending.
    #[inline(always)]
    pub fn has_key(&self) -> bool
        ensures { result ≡ is_some (state_of self.now).pending }
    {
        self.key.is_some()
    }

    /// Writes the value of the pending key. It replaces the value of an equal key. No key is
    /// pending afterwards. After an error, the entries are as before.
    ///
    /// A key has to be pending, which [`has_key`](SerializeMap::has_key) reports.
    ///
    /// # Errors
    ///
    /// The error of the value, or [`SerdeError::Memory`] if an allocation fails.
    #[inline(always)]
    pub fn serialize_value<T: Serialize>(&mut self, value: &T) -> Result<(), SerdeError>
        requires { IsSome (state_of self.old).pending }
        ensures ok { OnOk result (WritesValue (T.image value.now) (state_of self.old)
            (state_of self.new)) }
        ensures err { IfErr result (λ e. RejectsAs (T.image value.now)
            (T.write_error value.now) e) }
        ensures unchanged { OnErr result (state_of self.new ≡ without_key (state_of self.old)) }
    {
        let key = self.key.take().unwrap();
        self.put_image(key, value)
    }

    /// Writes a key and its value. After an error, the entries are as before. Which key is then
    /// pending depends on the part that failed:
    ///
    /// - If the key is rejected or an allocation for it fails, a key that was pending stays
    ///   pending.
    /// - If the value is rejected or an allocation for it fails, no key is pending.
    ///
    /// The entry's own key is never pending. [`SerdeError::Memory`] does not show for which of the
    /// two an allocation failed. If a key was pending, [`has_key`](SerializeMap::has_key) shows it.
    ///
    /// # Errors
    ///
    /// The error of the key, like that of [`serialize_key`](SerializeMap::serialize_key). Otherwise
    /// the error of the value, or [`SerdeError::Memory`] if an allocation fails.
    #[inline(always)]
    pub fn serialize_entry<K: Serialize, T: Serialize>(
        &mut self,
        key: &K,
        value: &T,
    ) -> Result<(), SerdeError>
        ensures ok { OnOk result (WritesEntry (K.image key.now) (T.image value.now)
            (state_of self.old) (state_of self.new)) }
        ensures err { IfErr result (λ e. RejectsEntry (K.image key.now) (K.write_error key.now)
            (T.image value.now) (T.write_error value.now) e (state_of self.old)
            (state_of self.new)) }
    {
        let name = string_key(key.serialize(self.alloc, Serializer)?)?;
        self.put_image(name, value)
    }

    /// Writes a struct's field under its name. It replaces the value of an equal name. After an
    /// error, the entries are as before. Which key is then pending depends on the part that failed:
    ///
    /// - If an allocation for the name fails, a key that was pending stays pending.
    /// - If the value is rejected or an allocation for it fails, no key is pending.
    ///
    /// # Errors
    ///
    /// The error of the value, or [`SerdeError::Memory`] if an allocation fails.
    #[inline(always)]
    pub fn serialize_field<T: Serialize>(&mut self, key: &str, value: &T) -> Result<(), SerdeError>
        ensures ok { OnOk result (WritesEntry (Some (text key.now)) (T.image value.now)
            (state_of self.old) (state_of self.new)) }
        ensures err { IfErr result (λ e. RejectsEntry (Some (text key.now)) (NoError key.now)
            (T.image value.now) (T.write_error value.now) e (state_of self.old)
            (state_of self.new)) }
    {
        let name = String::from_str(self.alloc, key)?;
        self.put_image(name, value)
    }

    // Puts the image of the value at the key. It replaces the value of an equal key. No key is
    // pending afterwards. After an error, the entries are as before.
    #[inline(always)]
    pub(crate) fn put_image<T: Serialize>(
        &mut self,
        key: String,
        value: &T,
    ) -> Result<(), SerdeError>
        ensures ok { OnOk result (PutsImage (string_bytes key) (T.image value.now)
            (state_of self.old).filed (state_of self.new).filed) }
        ensures no_key { (state_of self.new).pending ≡ None }
        ensures err { IfErr result (λ e. RejectsAs (T.image value.now)
            (T.write_error value.now) e) }
        ensures unchanged { OnErr result (state_of self.new ≡ without_key (state_of self.old)) }
    {
        self.key = None;
        let item = value.serialize(self.alloc, Serializer)?;
        put(&mut self.entries, key, item)?;
        Ok(())
    }

    /// Returns the Map of the written entries. A key that is still pending is dropped. It does not
    /// allocate and never fails.
    #[inline(always)]
    pub fn end(self) -> Result<Ipld, SerdeError>
        ensures { IsOkAnd result (λ t. tree_of t ≡ entries (state_of self).filed) }
    {
        let SerializeMap {
            alloc: _,
            entries,
            key: _,
        } = self;
        Ok(Ipld::Map(entries))
    }
}

impl Drop for SerializeMap {
    #[inline(always)]
    fn drop(self) {
        let SerializeMap {
            alloc: _,
            entries,
            key: _,
        } = self;
        for (_, value) in entries {
            value.discard();
        }
    }
}

// Returns the string that a key was written as.
#[inline(always)]
fn string_key(key: Ipld) -> Result<String, SerdeError>
    ensures { MatchResult result
        (λ s. tree_of key ≡ text (string_bytes s))
        (λ e. (e ≡ SerdeError.KeyNotText) × (key_text (Some (tree_of key)) ≡ None)) }
{
    match key {
        Ipld::String(text) => Ok(text),
        other => {
            other.discard();
            Err(SerdeError::KeyNotText)
        }
    }
}
