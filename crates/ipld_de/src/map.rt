//! Reading a map entry by entry.

ghost use Rattle.std.specs.Prelude.{◌≡◌, Some, None, option_map, option_and_then, IfOk, IfErr, MatchOption, string_bytes};
ghost use Rattle.ipld_de.specs.Cursors.{ended, entries_left, waiting, read_key, KeyError, after_member, waiting_after};
ghost use Rattle.ipld_de.specs.Forms.{count_members};
ghost use Rattle.ipld_de.specs.Reading.{ContentError};
ghost use Rattle.ipld_ser.specs.Image.{RejectsAs};
ghost use Rattle.ipld_tree.specs.IsWhole.{Ascends};
ghost use Rattle.ipld_tree.specs.Tree.{no_members, member};
ghost use Rattle.ipld_tree.specs.TreeOf.{tree_of, members_of};
ghost use Rattle.ipld_ser.specs.declared.error.SerdeError.TheVariants as error;

use crate::deserialize::Deserialize;
use crate::sequence::check_end;
use ipld_ser::SerdeError;
use ipld_tree::Ipld;
use std::alloc::Global;
use std::collections::{BTreeMap, btree_map};

/// A reader of the entries of a Map in the byte order of their keys, from
/// [`Deserializer::deserialize_map`](crate::Deserializer::deserialize_map). It reads a key by
/// [`next_key`](MapDeserializer::next_key), and then its value by
/// [`next_value`](MapDeserializer::next_value). Its drop is a loop, however deeply the values nest.
pub struct MapDeserializer {
    entries: btree_map::IntoIter<String, Ipld, Global>,
    value: Option<Ipld>,
}

impl MapDeserializer {
    #[inline(always)]
    pub(crate) fn new(entries: BTreeMap<String, Ipld>) -> MapDeserializer
        ensures entries { entries_left result ≡ members_of entries.entries }
        ensures none { waiting result ≡ None }
        ensures ascends { Ascends (entries_left result) }
    {
        MapDeserializer {
            entries: entries.into_iter(),
            value: None,
        }
    }

    // Returns the next entry, which is moved. A value that waits still waits.
    #[inline(always)]
    pub(crate) fn next_entry(&mut self) -> Option<(String, Ipld)>
        ensures { MatchOption result
            ((entries_left self.old ≡ no_members) × (entries_left self.new ≡ no_members))
            (λ e. entries_left self.old ≡ member (string_bytes e.0) (tree_of e.1)
            (entries_left self.new)) }
    {
        self.entries.next()
    }

    /// Reads the next key as a `K`, from a String. Returns `None` at the end.
    ///
    /// The value of the key then waits for [`next_value`](MapDeserializer::next_value). It replaces
    /// a value that waited before. At the end a value that waited still waits. A rejected key is
    /// consumed too, and its value waits.
    ///
    /// # Errors
    ///
    /// The error of `K`, or [`SerdeError::Memory`] if an allocation fails.
    #[inline(always)]
    pub fn next_key<K: Deserialize>(&mut self, alloc: Global) -> Result<Option<K>, SerdeError>
        ensures ok { IfOk result (λ o. read_key K.reads (entries_left self.old) ≡ Some
            (option_map K.contents o)) }
        ensures err { IfErr result (λ e. RejectsAs (read_key K.reads (entries_left self.old))
            (KeyError K.read_error (entries_left self.old)) e) }
        ensures gone { entries_left self.new ≡ after_member (entries_left self.old) }
        ensures waits { waiting self.new ≡ waiting_after (entries_left self.old)
            (waiting self.old) }
    {
        match self.entries.next() {
            None => Ok(None),
            Some((key, value)) => {
                if let Some(earlier) = self.value.take() {
                    earlier.discard();
                }
                self.value = Some(value);
                Ok(Some(K::deserialize(alloc, Ipld::String(key))?))
            }
        }
    }

    /// Reads the value that waits as a `T`. No value waits afterwards, even if it is rejected.
    ///
    /// # Errors
    ///
    /// [`SerdeError::MissingValue`] if no value waits. Otherwise the error of `T`, or
    /// [`SerdeError::Memory`] if an allocation fails.
    #[inline(always)]
    pub fn next_value<T: Deserialize>(&mut self, alloc: Global) -> Result<T, SerdeError>
        ensures ok { IfOk result (λ v. option_and_then T.reads (waiting self.old) ≡ Some
            (T.contents v)) }
        ensures err { IfErr result (λ e. RejectsAs (option_and_then T.reads (waiting self.old))
            (ContentError error.MissingValue T.read_error (waiting self.old)) e) }
        ensures missing { waiting self.old ≡ None → result ≡ Err error.MissingValue }
        ensures consumed { waiting self.new ≡ None }
        ensures same { entries_left self.new ≡ entries_left self.old }
    {
        match self.value.take() {
            None => Err(SerdeError::MissingValue),
            Some(value) => T::deserialize(alloc, value),
        }
    }

    /// Returns the number of keys that were not taken yet. A value that waits is not counted.
    #[inline(always)]
    pub fn remaining(&self) -> usize
        ensures { result ≡ count_members (entries_left self.now) }
    {
        self.entries.len()
    }

    /// Returns the number of keys that were not taken yet, which is always known. A value that
    /// waits is not counted.
    #[inline(always)]
    pub fn size_hint(&self) -> Option<usize>
        ensures { result ≡ Some (count_members (entries_left self.now)) }
    {
        Some(self.remaining())
    }

    /// Ends the reading. Drops a value that waits. Does not allocate.
    ///
    /// # Errors
    ///
    /// [`SerdeError::Leftover`] with the number of entries whose key was not taken, if and only if
    /// there are any.
    #[inline(always)]
    pub fn end(self) -> Result<(), SerdeError>
        ensures { result ≡ ended (count_members (entries_left self)) }
    {
        check_end(self.remaining())
    }
}

impl Drop for MapDeserializer {
    #[inline(always)]
    fn drop(self) {
        let MapDeserializer { entries, value } = self;
        if let Some(value) = value {
            value.discard();
        }
        if entries.len() > 0 {
            discard_values(entries);
        }
    }
}

// Drops the values that were left over. Out of line, so that a map that is read to its end costs
// only a test.
#[inline(never)]
fn discard_values(entries: btree_map::IntoIter<String, Ipld, Global>) {
    for (_, value) in entries.rev() {
        value.discard();
    }
}
