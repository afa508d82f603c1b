//! The index of a CAR of version 2, and the header that has its position. This module has the index
//! to be written: its entries by the hash function and by the length of the digest.

ghost use Rattle.std.specs.Prelude.{◌≡◌, ◌<◌, ◌∷◌, ◌++◌, [], length, IfOk, OnOk};
ghost use Rattle.std.specs.List.{All};
ghost use Rattle.std.specs.List.Sorted.{IsPermutation};
ghost use Rattle.ipld_car.specs.IndexLayout.{IsOf};
ghost use Rattle.ipld_car.specs.IndexGrouping.{entries_in, entries_of_hash, AreGrouped, AreGroupedHash, IsSplit, IsSplitHash, indexed};
ghost use Rattle.ipld_car.specs.IndexOrder.{AreSorted};

mod entry;
mod error;
mod format;
mod header;
mod lookup;
mod numbers;
mod read;
mod write;

pub use entry::IndexEntry;
pub use error::IndexError;
pub use format::IndexFormat;
pub use header::{CarHeader, HEADER_END, write_header};
pub use lookup::entries_of;
pub use read::{StoredIndex, read_index};
use std::alloc::{AllocError, Global};

// The entries of digests of one length.
#[derive(Debug, Drop)]
pub(crate) struct Bucket {
    pub(crate) digest_len: u8,
    pub(crate) entries: Vec<IndexEntry>,
}

// The entries of a hash function, by the lengths of the digests.
#[derive(Debug, Drop)]
pub(crate) struct HashBuckets {
    pub(crate) code: u64,
    pub(crate) buckets: Vec<Bucket>,
}

/// The index of a CAR, as it is written: sorted by the code of the hash function, the length of the
/// digest, the digest and the offset.
#[derive(Debug, Drop)]
pub struct CarIndex {
    pub(crate) hashes: Vec<HashBuckets>,
}

impl CarIndex {
    /// Creates the index that has these entries, except those with an empty digest. A row without a
    /// digest does not identify a block, and readers of indexes reject it. An empty digest is that
    /// of an empty block under the identity hash.
    ///
    /// It sorts the entries where they are, and allocates for another copy of them only if they have
    /// several hash functions or lengths of digests. Returns `AllocError` if an allocation fails.
    pub fn new(alloc: Global, entries: Vec<IndexEntry>) -> Result<CarIndex, AllocError>
        ensures same { IfOk result (λ index.
            IsPermutation (indexed entries.items) (entries_in index)) }
        ensures sorted { IfOk result (λ index. AreSorted (entries_in index)) }
        ensures grouped { IfOk result AreGrouped }
        ensures split { IfOk result IsSplit }
    {
        let mut entries = entries;
        entries.retain(|entry| entry.hash.size() > 0);
        entries.sort_unstable();
        if let Some(first) = entries.first() {
            let code = first.hash.code();
            let digest_len = first.hash.digest().len() as u8;
            let is_one_bucket = entries.iter().all(|entry| {
                entry.hash.code() == code && entry.hash.digest().len() == usize::from(digest_len)
            });
            if is_one_bucket {
                return CarIndex::of_bucket(alloc, code, digest_len, entries);
            }
        }
        CarIndex::of_entries(alloc, &entries)
    }

    // Creates the index of entries with one hash function and one length of digests. The entries
    // stay where they are.
    fn of_bucket(
        alloc: Global,
        code: u64,
        digest_len: u8,
        entries: Vec<IndexEntry>,
    ) -> Result<CarIndex, AllocError>
        requires own { All (IsOf code digest_len) entries.items }
        requires some { 0 < length entries.items }
        ensures same { IfOk result (λ index. entries_in index ≡ entries.items) }
        ensures grouped { IfOk result AreGrouped }
        ensures split { IfOk result IsSplit }
    {
        let mut buckets = Vec::new(alloc);
        buckets.push(Bucket {
            digest_len,
            entries,
        })?;
        let mut hashes = Vec::new(alloc);
        hashes.push(HashBuckets { code, buckets })?;
        Ok(CarIndex { hashes })
    }

    // Creates the index that has a copy of these entries, in their order.
    fn of_entries(alloc: Global, entries: &[IndexEntry]) -> Result<CarIndex, AllocError>
        ensures same { IfOk result (λ index. entries_in index ≡ entries.now) }
        ensures grouped { IfOk result AreGrouped }
        ensures split { IfOk result IsSplit }
    {
        let mut index = CarIndex {
            hashes: Vec::new(alloc),
        };
        for entry in entries {
            index.push(alloc, entry)?;
        }
        Ok(index)
    }

    // Appends an entry.
    fn push(&mut self, alloc: Global, entry: &IndexEntry) -> Result<(), AllocError>
        ensures behind { OnOk result (entries_in self.new ≡ entries_in self.old ++ entry.now ∷ []) }
        ensures grouped { OnOk result (AreGrouped self.old → AreGrouped self.new) }
        ensures split { OnOk result (IsSplit self.old → IsSplit self.new) }
    {
        let code = entry.hash.code();
        match self.hashes.last_mut() {
            Some(last) if last.code == code => last.push(alloc, entry),
            _ => {
                let mut buckets = HashBuckets {
                    code,
                    buckets: Vec::new(alloc),
                };
                buckets.push(alloc, entry)?;
                self.hashes.push(buckets)?;
                Ok(())
            }
        }
    }
}

impl HashBuckets {
    // Appends an entry of this hash function.
    fn push(&mut self, alloc: Global, entry: &IndexEntry) -> Result<(), AllocError>
        requires { entry.now.hash.code ≡ self.old.code }
        ensures code { self.new.code ≡ self.old.code }
        ensures behind { OnOk result
            (entries_of_hash self.new ≡ entries_of_hash self.old ++ entry.now ∷ []) }
        ensures grouped { OnOk result (AreGroupedHash self.old → AreGroupedHash self.new) }
        ensures split { OnOk result (IsSplitHash self.old → IsSplitHash self.new) }
        ensures some { OnOk result (0 < length self.new.buckets.items) }
    {
        let digest = entry.hash.digest();
        let digest_len = digest.len() as u8;
        match self.buckets.last_mut() {
            Some(last) if last.digest_len == digest_len => {
                last.entries.push(*entry)?;
                Ok(())
            }
            _ => {
                let mut bucket = Bucket {
                    digest_len,
                    entries: Vec::new(alloc),
                };
                bucket.entries.push(*entry)?;
                self.buckets.push(bucket)?;
                Ok(())
            }
        }
    }
}
