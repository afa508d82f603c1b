//! The blocks that were added, and the links without a block.

use indexmap::{IndexMap, IndexSet};
use ipld_cid::{Cid, Multihash};
use std::alloc::{AllocError, Global};
use std::hash::RandomState;
use std::marker::Model;

/// The blocks that were added so far, and the links whose block was not.
///
/// It holds a CID for every block, and one for every distinct link whose block was not added. They
/// are found by a hash with the keys of `hasher`. Without these keys nobody can choose CIDs that
/// make it slow.
#[derive(Drop)]
pub struct MissingBlocks {
    // Whether the block was added.
    came: IndexMap<Cid, bool, RandomState>,
}

impl Model for MissingBlocks {
    ghost use Rattle.car_files.specs.Index.{Search, came_in, missing_in};

    ghost Value = { Search };

    ghost view = { λ index. record {
      came = came_in index.came.entries;
      missing = missing_in index.came.entries;
    } };
}

impl MissingBlocks {
    ghost use Rattle.std.specs.Prelude.{◌≡◌, [], ◌∷◌, map, OnOk, OnErr, IfOk};
    ghost use Rattle.std.specs.List.{IsDistinct};
    ghost use Rattle.std.specs.List.{list_any};
    ghost use Rattle.ipld_cid.specs.Cid.{Link, hash_of};
    ghost use Rattle.ipld_cid.specs.LinkOf.{link_of};
    ghost use Rattle.ipld_cid.specs.Order.{hash_eq, link_eq};
    ghost use Rattle.car_files.specs.Index.{Comes, AddsEach, has_hash, unlike_those};

    /// Creates a search without blocks and links. The keys of `hasher` should be random bytes of
    /// the system, as [`RandomState::new`] makes them. Does not allocate.
    pub fn new(alloc: Global, hasher: RandomState) -> MissingBlocks
        ensures { result ≡ record { came = []; missing = [] } }
    {
        MissingBlocks {
            came: IndexMap::with_hasher(alloc, hasher),
        }
    }

    /// Adds a block with this CID. It allocates if the CID is new. Returns `AllocError` if that
    /// fails, and nothing then changed.
    #[tactic(auto, using(crate::proofs::Indexing::comes))]
    pub fn add_block(&mut self, cid: &Cid) -> Result<(), AllocError>
        ensures added { OnOk result (Comes (link_of cid.now) self.old self.new) }
        ensures kept { OnErr result (self.new ≡ self.old) }
    {
        match self.came.insert(*cid, true) {
            Ok(_) => Ok(()),
            Err(_) => Err(AllocError),
        }
    }

    // Adds a link of a block, or a root.
    #[tactic(auto, using(crate::proofs::Indexing::adds_new, crate::proofs::Indexing::adds_known))]
    pub(crate) fn add_link(&mut self, cid: &Cid) -> Result<(), AllocError>
        ensures added { OnOk result (AddsEach (link_of cid.now ∷ []) self.old self.new) }
        ensures kept { OnErr result (self.new ≡ self.old) }
    {
        if self.came.contains_key(cid) {
            return Ok(());
        }
        match self.came.insert(*cid, false) {
            Ok(_) => Ok(()),
            Err(_) => Err(AllocError),
        }
    }

    /// Returns the links whose block was not added, without repeats. Links that were added by
    /// earlier calls come first.
    ///
    /// It allocates for the result. Returns `AllocError` if that fails.
    #[tactic(auto, using(crate::proofs::Indexing::puts_none, crate::proofs::Indexing::puts_link))]
    pub fn missing(&self, alloc: Global) -> Result<Vec<Cid>, AllocError>
        ensures once { IfOk result (λ cids. IsDistinct link_eq (map link_of cids.items)) }
        ensures exactly { IfOk result (λ cids. map link_of cids.items ≡ self.now.missing) }
    {
        let mut cids = Vec::new(alloc);
        for (cid, came) in self.came.iter() {
            if !*came {
                cids.push(*cid)?;
            }
        }
        Ok(cids)
    }

    // Returns the hashes of the blocks that were added.
    #[tactic(auto, using(crate::proofs::Hashing::hashes_none, crate::proofs::Hashing::hashes_more, crate::proofs::Hashing::hashes_same, crate::proofs::Hashing::hashes_all))]
    fn hashes(
        &self,
        alloc: Global,
        hasher: RandomState,
    ) -> Result<IndexSet<Multihash<64>, RandomState>, AllocError>
        ensures { IfOk result (λ hashes. (l : Link)
            → list_any (hash_eq (hash_of l)) hashes.keys ≡ has_hash l self.now.came) }
    {
        let mut hashes = IndexSet::with_hasher(alloc, hasher);
        for (cid, came) in self.came.iter() {
            if *came {
                match hashes.insert(*cid.hash()) {
                    Ok(_) => {}
                    Err(_) => return Err(AllocError),
                }
            }
        }
        Ok(hashes)
    }

    /// Returns the links whose block was not added under any CID with the same hash, without
    /// repeats, in the order of [`missing`](Self::missing). So a block counts for links of each
    /// codec and version.
    ///
    /// It allocates for the result and, if there are missing links, for the hash of every block.
    /// The keys of `hasher` should be random bytes of the system. Returns `AllocError` if an
    /// allocation fails.
    #[tactic(auto, using(crate::proofs::Hashing::unlike_all, crate::proofs::Hashing::unlike_once))]
    pub fn missing_by_hash(
        &self,
        alloc: Global,
        hasher: RandomState,
    ) -> Result<Vec<Cid>, AllocError>
        ensures once { IfOk result (λ cids. IsDistinct link_eq (map link_of cids.items)) }
        ensures exactly { IfOk result (λ cids.
            map link_of cids.items ≡ unlike_those self.now.came self.now.missing) }
    {
        let mut cids = self.missing(alloc)?;
        if cids.is_empty() {
            return Ok(cids);
        }
        let hashes = self.hashes(alloc, hasher)?;
        cids.retain(|cid| !hashes.contains(cid.hash()));
        Ok(cids)
    }
}
