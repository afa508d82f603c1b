//! The entries of a digest.

ghost use Rattle.ipld_car.specs.IndexLookup.{FindsAll};
ghost use Rattle.ipld_car.specs.IndexOrder.{AreSorted};

use crate::index::entry::IndexEntry;
use ipld_cid::Multihash;

/// Returns the entries of this hash, by their offsets, if `entries` is sorted. If it is not, the
/// result is any part of it. The number of steps grows with the logarithm of the number of entries.
/// It does not allocate.
pub fn entries_of<'a>(entries: &'a [IndexEntry], hash: &Multihash<64>) -> &'a [IndexEntry]
    ensures { AreSorted entries.entry.now → FindsAll hash.now entries.entry.now result.now }
{
    let start = entries.partition_point(|entry| entry.hash < *hash);
    let end = entries.partition_point(|entry| entry.hash <= *hash);
    &entries[start..end.max(start)]
}
