//! The position of a block.

use ipld_cid::Multihash;

/// The position of a block in the payload of a CAR: the hash of its CID, and the offset of its
/// section.
///
/// Entries are ordered by the code of the hash function, then by the digest's length, by its bytes,
/// and by the offset. A sorted index has this order.
#[derive(Clone, Copy, Debug, PartialEq, Eq, PartialOrd, Ord)]
pub struct IndexEntry {
    /// The hash of the CID.
    pub hash: Multihash<64>,
    /// The number of bytes of the payload before the section of the block.
    pub offset: u64,
}
