//! The search for an entry of a folder by its name.

ghost use Rattle.std.specs.Prelude.{◌<◌};

use crate::error::FolderErrorKind;
use crate::saying::{Saying, look};
use ipld_cid::Cid;
use std::alloc::Global;

/// What a block says of the name that a [`Lookup`] looks for.
#[derive(Clone, Copy)]
pub enum LookupStep {
    /// The folder has an entry with the name, and this is its CID.
    Found(Cid),
    /// The folder has no entry with the name.
    Missing,
    /// If the folder has the entry, then it is in a shard below, which is wanted now.
    Below,
}

/// A search for an entry of a folder by its name. It does no input and output: it says which block
/// it wants, and takes that block.
///
/// Each block is verified before anything is read from it. A sharded folder takes at most eight
/// blocks, and a plain one takes one.
#[derive(Drop)]
pub struct Lookup<'a> {
    name: &'a str,
    // The depth of the folder that is wanted: 0 at the root, and one more with each shard.
    depth: usize,
    wanted: Option<Cid>,
    ghost in_range: { depth < 8 },
}

impl<'a> Lookup<'a> {
    ghost use Rattle.std.specs.Prelude.{◌≡◌, ◌⊎◌, option_map, IfOk, IfErr, OnErr, Some};
    ghost use Rattle.ipld_block.specs.Digest.{digest_by};
    ghost use Rattle.ipld_cid.specs.Cid.{Link};
    ghost use Rattle.ipld_cid.specs.LinkOf.{link_of};
    ghost use Rattle.unixfs.specs.Files.{Hashing};
    ghost use Rattle.unixfs_folders.specs.Lookups.{lookup_parts, LooksIn, Answers, IsLookupFault};
    ghost use Rattle.unixfs_folders.specs.Sayings as sayings;
    ghost use Rattle.unixfs_folders.specs.Sayings.{Says};
    ghost use Rattle.unixfs_folders.specs.Views.{IsMemory};

    /// Begins the search for an entry with this name in the folder of this CID.
    ///
    /// No folder has an entry with an invalid name, such as `..`.
    pub fn new(folder: &Cid, name: &'a str) -> Lookup<'a>
        ensures begins { (hashing : Hashing)
            → LooksIn hashing (link_of folder.now) (lookup_parts result) }
        ensures name { (lookup_parts result).name ≡ name.entry.now }
    {
        Lookup {
            name,
            depth: 0,
            wanted: Some(*folder),
        }
    }

    /// Returns the CID of the block that is wanted, or `None` if the search is over.
    pub fn wanted(&self) -> Option<Cid>
        ensures { option_map link_of result ≡ (lookup_parts self.now).wanted }
    {
        self.wanted
    }

    /// Takes the block that is wanted, and returns what it says of the name. The block is read, and
    /// not kept.
    ///
    /// It allocates for the links of the block.
    ///
    /// # Errors
    ///
    /// The search stays as it was, and still wants the block.
    ///
    /// - `Codec` if the CID is not one of DAG-PB.
    /// - `Verify` if the block is not known to be that of the CID.
    /// - Those of [`read_folder`](crate::read_folder) if the block is not a folder.
    /// - `NotShard` if a shard leads to a plain folder as if it were a shard, and `TooDeep` if a
    ///   shard at the eighth level leads to another one.
    /// - `Finished` if no block is wanted.
    pub fn take(&mut self, alloc: Global, block: &[u8]) -> Result<LookupStep, FolderErrorKind>
        ensures answers { IfOk result (λ step.
            Answers digest_by (lookup_parts self.old) (lookup_parts self.new) step) }
        ensures name { (lookup_parts self.new).name ≡ (lookup_parts self.old).name }
        ensures only { (at : Link) (s : sayings.Saying) → (lookup_parts self.old).wanted ≡ Some at
            → Says digest_by at (lookup_parts self.old).name (lookup_parts self.old).depth block.now s
            → IfErr result IsMemory }
        ensures why { IfErr result (λ error. IsMemory error
            ⊎ IsLookupFault (lookup_parts self.old) block.now error) }
        ensures unchanged { OnErr result (lookup_parts self.new ≡ lookup_parts self.old) }
    {
        let at = match self.wanted {
            Some(at) => at,
            None => return Err(FolderErrorKind::Finished),
        };
        match look(alloc, &at, self.name, self.depth, block) {
            Ok(Saying::Entry(cid)) => {
                self.wanted = None;
                Ok(LookupStep::Found(cid))
            }
            Ok(Saying::Nothing) => {
                self.wanted = None;
                Ok(LookupStep::Missing)
            }
            Ok(Saying::Deeper(next)) => {
                self.depth += 1;
                self.wanted = Some(next);
                Ok(LookupStep::Below)
            }
            Err(error) => Err(error),
        }
    }
}
