//! A walk over the entries of a folder.

use crate::error::FolderErrorKind;
use crate::folder::FolderEntry;
use crate::path::SlotPath;
use crate::visit::{Place, Visit};
use ipld_cid::Cid;
use std::alloc::Global;

/// A walk over the entries of a folder, plain or sharded. It does no input and output: it says
/// which block it wants, and takes that block.
///
/// Each block is verified before anything is read from it. A plain folder is one block. A sharded
/// folder is listed shard by shard: first the entries that a shard itself has, and then those of
/// the shards below it, in the order of the slots.
#[derive(Drop)]
pub struct FolderWalk {
    next: Option<Place>,
    // The others that wait, the first of them at the end.
    others: Vec<Place>,
}

impl FolderWalk {
    ghost use Rattle.std.specs.Prelude.{◌≡◌, ◌⊎◌, List, [], ◌∷◌, map, option_map, IfOk, IfErr, OnErr};
    ghost use Rattle.ipld_block.specs.Digest.{digest_by};
    ghost use Rattle.ipld_cid.specs.LinkOf.{link_of};
    ghost use Rattle.unixfs_folders.specs.Folders.{EntryParts};
    ghost use Rattle.unixfs_folders.specs.Listing.{Waiting, from_root, first_link, Visits, Takes, IsListingFault};
    ghost use Rattle.unixfs_folders.specs.Views.{entry_parts, IsMemory};
    ghost use Rattle.unixfs_folders.specs.Walks.{remain_of};

    /// Begins the walk over the folder of this CID. Allocates nothing.
    pub fn new(alloc: Global, folder: &Cid) -> FolderWalk
        ensures { remain_of result ≡ from_root (link_of folder.now) ∷ [] }
    {
        FolderWalk {
            next: Some(Place {
                cid: *folder,
                path: SlotPath::root(),
            }),
            others: Vec::new(alloc),
        }
    }

    /// Returns the CID of the block that is wanted, or `None` if the walk is over.
    pub fn wanted(&self) -> Option<Cid>
        ensures { option_map link_of result ≡ first_link (remain_of self.now) }
    {
        match self.next {
            Some(next) => Some(next.cid),
            None => None,
        }
    }

    /// Takes the block that is wanted, and returns the entries that it has itself, in its order.
    /// Their names are borrowed from the block.
    ///
    /// It allocates for the links of the block, for its entries, and for the shards that wait.
    /// There are at most 256 of these for each of the eight levels.
    ///
    /// # Errors
    ///
    /// The walk stays as it was, and still wants the block.
    ///
    /// - `Codec` if the CID is not one of DAG-PB.
    /// - `Verify` if the block is not known to be that of the CID.
    /// - Those of [`read_folder`](crate::read_folder) if the block is not a folder.
    /// - `WrongSlot` if the hash of a name leads elsewhere, so that a look-up would not find it.
    /// - `NotShard` if a shard leads to a plain folder as if it were a shard, and `TooDeep` if a
    ///   shard at the eighth level leads to another one.
    /// - `Finished` if no block is wanted.
    pub fn take<'a>(
        &mut self,
        alloc: Global,
        block: &'a [u8],
    ) -> Result<Vec<FolderEntry<'a>>, FolderErrorKind>
        ensures takes { IfOk result (λ entries. Takes digest_by (remain_of self.old)
            (remain_of self.new) block.entry.now (map entry_parts entries.items)) }
        ensures only { (next : Waiting) (others : List Waiting) (entries : List EntryParts)
            (below : List Waiting) → remain_of self.old ≡ next ∷ others
            → Visits digest_by next block.entry.now entries below → IfErr result IsMemory }
        ensures why { IfErr result (λ error. IsMemory error
            ⊎ IsListingFault (remain_of self.old) block.entry.now error) }
        ensures unchanged { OnErr result (remain_of self.new ≡ remain_of self.old) }
    {
        let next = match self.next {
            Some(next) => next,
            None => return Err(FolderErrorKind::Finished),
        };
        let mut visit = match Visit::of_block(alloc, &next, block) {
            Ok(visit) => visit,
            Err(error) => return Err(error),
        };
        visit.below.reverse();
        self.others.append(&mut visit.below)?;
        self.next = self.others.pop();
        Ok(visit.entries)
    }
}
