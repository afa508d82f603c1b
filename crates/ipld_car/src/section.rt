//! A section of a CAR.

ghost use Rattle.std.specs.Prelude.{◌≤◌, vec_len};

use ipld_cid::{Cid, IDENTITY, Multihash, RAW};
use std::alloc::Global;

/// A block with its CID, read from a section of a CAR. It is a buffer that is used again for every
/// section.
#[derive(Drop)]
pub struct Section {
    // The bytes of the section, from its length on.
    pub(crate) bytes: Vec<u8>,
    pub(crate) data_start: usize,
    pub(crate) cid: Cid,
    pub(crate) ghost in_range: { data_start ≤ vec_len bytes },
}

impl Section {
    ghost use Rattle.std.specs.Prelude.{◌≡◌, [], ◌∷◌, length};
    ghost use Rattle.ipld_cid.specs.LinkOf.{link_of};
    ghost use Rattle.ipld_car.specs.Section.{no_block};
    ghost use Rattle.ipld_car.specs.SectionOf.{block_of, taken_of};
    ghost use Rattle.ipld_car.specs.Reading.{emptied};

    /// Creates an empty block with its CID: version 1, the codec [`RAW`], and the [`IDENTITY`] hash
    /// of no bytes. Does not allocate.
    pub fn new(alloc: Global) -> Section
        ensures { block_of result ≡ no_block }
    {
        let hash = match Multihash::wrap(IDENTITY, &[]) {
            Ok(hash) => hash,
            Err(_) => unreachable!(),
        };
        Section {
            bytes: Vec::new(alloc),
            data_start: 0,
            cid: Cid::new_v1(RAW, hash),
        }
    }

    /// Returns the CID of the block.
    #[inline(always)]
    pub fn cid(&self) -> &Cid
        ensures { link_of result.now ≡ (block_of self.now).cid }
    {
        &self.cid
    }

    /// Returns the bytes of the block.
    #[inline(always)]
    pub fn data(&self) -> &[u8]
        ensures { result.now ≡ (block_of self.now).bytes }
    {
        &self.bytes[self.data_start..]
    }

    // Removes the bytes of the block. The CID stays.
    #[inline(always)]
    pub(crate) fn clear(&mut self)
        ensures taken { taken_of self.new ≡ [] }
        ensures left { block_of self.new ≡ emptied (block_of self.old) }
    {
        self.data_start = 0;
        self.bytes.clear();
    }

    // The number of bytes that the last read took.
    #[inline(always)]
    pub(crate) fn taken(&self) -> usize
        ensures { result ≡ length (taken_of self.now) }
    {
        self.bytes.len()
    }
}
