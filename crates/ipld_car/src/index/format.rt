//! The formats of an index.

ghost use Rattle.std.specs.Prelude.{◌≡◌};
ghost use Rattle.ipld_car.specs.Index.{stored_hash};

use ipld_cid::Multihash;

/// The code that hashes have in an index without hash functions.
pub(crate) const NO_HASH_FUNCTION: u64 = 0;

/// A format of an index (CARv2, "Index format").
#[derive(Clone, Copy, Debug, PartialEq, Eq)]
pub enum IndexFormat {
    /// The rows have digests, but not their hash functions. The code is 0x0400.
    IndexSorted,
    /// The rows have digests, by their hash functions. The code is 0x0401.
    MultihashIndexSorted,
}

impl IndexFormat {
    /// Returns the hash that an index of this format has for a block whose CID has `hash`. In
    /// `IndexSorted` its code is 0. Does not allocate.
    pub fn stored_hash(self, hash: &Multihash<64>) -> Multihash<64>
        ensures { result ≡ stored_hash self hash.now }
    {
        match self {
            IndexFormat::IndexSorted => match Multihash::wrap(NO_HASH_FUNCTION, hash.digest()) {
                Ok(hash) => hash,
                Err(_) => unreachable!(),
            },
            IndexFormat::MultihashIndexSorted => *hash,
        }
    }
}
