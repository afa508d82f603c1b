//! The parts of a value that were read before a later part was rejected. They are dropped by a
//! loop, however deeply they nest.

ghost use Rattle.std.specs.Prelude.{◌≡◌, ◌≢◌, ◌≤◌, ◌∷◌, ◌++◌, [], IfOk, IfErr, OnOk};
ghost use Rattle.std.specs.BTreeMap.{insert_entry};
ghost use Rattle.ipld_de.specs.ImageReader.{BeginsRead};

use crate::deserialize::Deserialize;
use crate::image_reader::{ImageReader, Unread};
use crate::key::DeserializeKey;
use std::alloc::{AllocError, AllocFailed, Global};
use std::collections::BTreeMap;

// Reads a part of a value, part by part.
#[inline(always)]
pub(crate) fn read_part<T: Deserialize, R: ImageReader>(
    alloc: Global,
    reader: &mut R,
    levels: usize,
) -> Result<T, Unread>
    ensures ok { IfOk result (λ v. BeginsRead (R.Begins levels) T.reads (T.contents v)
        (R.contents reader.old) (R.contents reader.new)) }
    ensures never_missing { IfErr result (λ e. e ≢ Unread.MissingField) }
{
    match T::read_image(alloc, reader, levels) {
        Ok(value) => Ok(value),
        Err(error) => Err(error.of_part()),
    }
}

// A part of a value, until the other parts are read. Its drop is the `discard` of its type.
pub(crate) struct Part<T: Deserialize> {
    value: T,
}

impl<T: Deserialize> Part<T> {
    #[inline(always)]
    pub(crate) fn new(value: T) -> Part<T>
        ensures { result.value ≡ value }
    {
        Part { value }
    }

    #[inline(always)]
    pub(crate) fn into_value(self) -> T
        ensures { result ≡ self.value }
    {
        let Part { value } = self;
        value
    }
}

impl<T: Deserialize> Drop for Part<T> {
    #[inline(always)]
    fn drop(self) {
        let Part { value } = self;
        value.discard();
    }
}

// The items of a vector, until all are read. Its drop is the `discard` of every item.
pub(crate) struct Items<T: Deserialize> {
    items: Vec<T>,
}

impl<T: Deserialize> Items<T> {
    #[inline(always)]
    pub(crate) fn with_capacity(alloc: Global, capacity: usize) -> Result<Items<T>, AllocError>
        ensures { IfOk result (λ r. r.items.items ≡ []) }
    {
        Ok(Items {
            items: Vec::with_capacity(alloc, capacity)?,
        })
    }

    // Creates an empty list with memory for `count` items, the first of those that the head of a list
    // announces. The bound keeps a head without items from reserving memory.
    #[inline(always)]
    pub(crate) fn with_announced(alloc: Global, count: usize) -> Result<Items<T>, AllocError>
        requires { count ≤ 32 }
        ensures { IfOk result (λ r. r.items.items ≡ []) }
    {
        Items::with_capacity(alloc, count)
    }

    // Adds an item, which is discarded if an allocation fails.
    #[inline(always)]
    pub(crate) fn push(&mut self, item: T) -> Result<(), AllocError>
        ensures { OnOk result (self.new.items.items ≡ self.old.items.items ++ item ∷ []) }
    {
        match self.items.push(item) {
            Ok(()) => Ok(()),
            Err(AllocFailed { value }) => {
                value.discard();
                Err(AllocError)
            }
        }
    }

    #[inline(always)]
    pub(crate) fn into_vec(self) -> Vec<T>
        ensures { result ≡ self.items }
    {
        let Items { items } = self;
        items
    }
}

impl<T: Deserialize> Drop for Items<T> {
    #[inline(always)]
    fn drop(self) {
        let Items { items } = self;
        items.discard();
    }
}

// The entries of a map, until all are read. Its drop is the `discard` of every value.
pub(crate) struct Members<K: DeserializeKey, T: Deserialize> {
    members: BTreeMap<K, T>,
}

impl<K: DeserializeKey, T: Deserialize> Members<K, T> {
    #[inline(always)]
    pub(crate) fn new(alloc: Global) -> Members<K, T>
        ensures { result.members.entries ≡ [] }
    {
        Members {
            members: BTreeMap::new(alloc),
        }
    }

    // Inserts a value at a key. Discards the earlier value of the key, and the new value if an
    // allocation fails.
    #[inline(always)]
    pub(crate) fn insert(&mut self, key: K, value: T) -> Result<(), AllocError>
        ensures { OnOk result (self.new.members.entries
            ≡ insert_entry K.cmp self.old.members.entries key value) }
    {
        match self.members.insert(key, value) {
            Ok(None) => Ok(()),
            Ok(Some(earlier)) => {
                earlier.discard();
                Ok(())
            }
            Err(AllocFailed { value: (_, value) }) => {
                value.discard();
                Err(AllocError)
            }
        }
    }

    #[inline(always)]
    pub(crate) fn into_map(self) -> BTreeMap<K, T>
        ensures { result ≡ self.members }
    {
        let Members { members } = self;
        members
    }
}

impl<K: DeserializeKey, T: Deserialize> Drop for Members<K, T> {
    #[inline(always)]
    fn drop(self) {
        let Members { members } = self;
        members.discard();
    }
}
