//! The entries that a block itself has, and the shards below it.

ghost use Rattle.std.specs.Prelude.{◌<◌, length};
ghost use Rattle.unixfs_folders.specs.Paths.{path_of};

use crate::error::FolderErrorKind;
use crate::folder::{Folder, FolderEntry, ShardLink, verified_folder};
use crate::path::SlotPath;
use ipld_cid::Cid;
use std::alloc::Global;

// The number of slots in a hash.
const SLOTS: usize = 8;

// A folder or a shard, and where it stands.
#[derive(Clone, Copy)]
pub(crate) struct Place {
    pub(crate) cid: Cid,
    pub(crate) path: SlotPath,
    pub(crate) ghost fits: { length (path_of path) < 8 },
}

// What a block adds to a listing.
#[derive(Drop)]
pub(crate) struct Visit<'a> {
    pub(crate) entries: Vec<FolderEntry<'a>>,
    pub(crate) below: Vec<Place>,
}

impl<'a> Visit<'a> {
    ghost use Rattle.std.specs.Prelude.{◌≡◌, ◌⊎◌, [], map, Ok, Err, MatchResult, IfOk, IfErr, List};
    ghost use Rattle.ipld_block.specs.Digest.{digest_by};
    ghost use Rattle.unixfs_folders.specs.Folders.{EntryParts};
    ghost use Rattle.unixfs_folders.specs.Listing.{Waiting, then_joined, visited_by, visited_one, visited_from, visited, Visits, IsPlaceFault};
    ghost use Rattle.unixfs_folders.specs.Faults.{IsFolderFault};
    ghost use Rattle.unixfs_folders.specs.Views.{slot_parts, folder_parts, IsMemory};
    ghost use Rattle.unixfs_folders.specs.Walks.{waiting_of, visit_parts};

    // Returns a visit that adds nothing.
    fn new(alloc: Global) -> Visit<'a>
        ensures { visit_parts result ≡ record { entries = []; below = [] } }
    {
        Visit {
            entries: Vec::new(alloc),
            below: Vec::new(alloc),
        }
    }

    // Adds the entry or the shard of a link.
    #[tactic(auto, using(crate::proofs::Visiting::entry_adds, crate::proofs::Visiting::shard_adds), unfolding(crate::specs::Listing::visited_one, crate::specs::Listing::visited_by))]
    fn add(
        &mut self,
        index: usize,
        at: &SlotPath,
        link: &ShardLink<'a>,
    ) -> Result<(), FolderErrorKind>
        requires { length (path_of at.now) < 8 }
        ensures { MatchResult result
            (λ _. then_joined (visit_parts self.old)
            (visited_one index (path_of at.now) (slot_parts link.now))
            ≡ Ok (visit_parts self.new))
            (λ error. IsMemory error
            ⊎ (visited_one index (path_of at.now) (slot_parts link.now) ≡ Err error)) }
    {
        let path = at.child(link.slot);
        match link.name {
            Some(name) => {
                if !path.leads_to(name) {
                    return Err(FolderErrorKind::WrongSlot(index));
                }
                let entry = FolderEntry {
                    name,
                    cid: link.cid,
                    tsize: link.tsize,
                };
                match self.entries.push(entry) {
                    Ok(()) => Ok(()),
                    Err(_) => Err(FolderErrorKind::Memory),
                }
            }
            None => {
                if path.len() >= SLOTS {
                    return Err(FolderErrorKind::TooDeep);
                }
                let place = Place {
                    cid: link.cid,
                    path,
                };
                match self.below.push(place) {
                    Ok(()) => Ok(()),
                    Err(_) => Err(FolderErrorKind::Memory),
                }
            }
        }
    }

    // Visits the links of the shard at this path.
    fn of_links(
        alloc: Global,
        at: &SlotPath,
        links: &[ShardLink<'a>],
    ) -> Result<Visit<'a>, FolderErrorKind>
        requires { length (path_of at.now) < 8 }
        ensures { MatchResult result
            (λ visit. visited_from 0 (path_of at.now) (map slot_parts links.now)
            ≡ Ok (visit_parts visit))
            (λ error. IsMemory error
            ⊎ (visited_from 0 (path_of at.now) (map slot_parts links.now) ≡ Err error)) }
    {
        let mut visit = Visit::new(alloc);
        for (index, link) in links.iter().enumerate() {
            match visit.add(index, at, link) {
                Ok(()) => {}
                Err(error) => return Err(error),
            }
        }
        Ok(visit)
    }

    // Visits the folder at this path.
    #[tactic(auto, unfolding(crate::specs::Listing::visited))]
    fn of_folder(
        alloc: Global,
        at: &SlotPath,
        folder: Folder<'a>,
    ) -> Result<Visit<'a>, FolderErrorKind>
        requires { length (path_of at.now) < 8 }
        ensures { MatchResult result
            (λ visit. visited (path_of at.now) (folder_parts folder.entry)
            ≡ Ok (visit_parts visit))
            (λ error. IsMemory error
            ⊎ (visited (path_of at.now) (folder_parts folder.entry) ≡ Err error)) }
    {
        match folder {
            Folder::Plain(entries) => {
                if at.len() != 0 {
                    return Err(FolderErrorKind::NotShard);
                }
                Ok(Visit {
                    entries,
                    below: Vec::new(alloc),
                })
            }
            Folder::Shard(links) => Visit::of_links(alloc, at, &links),
        }
    }

    // Visits the block of a folder or a shard.
    pub(crate) fn of_block(
        alloc: Global,
        next: &Place,
        block: &'a [u8],
    ) -> Result<Visit<'a>, FolderErrorKind>
        ensures found { IfOk result (λ visit. Visits digest_by (waiting_of next.now) block.entry.now
            (visit_parts visit).entries (visit_parts visit).below) }
        ensures only { (entries : List EntryParts) (below : List Waiting)
            → Visits digest_by (waiting_of next.now) block.entry.now entries below
            → IfErr result IsMemory }
        ensures why { IfErr result (λ error. IsMemory error
            ⊎ (IsFolderFault (waiting_of next.now).link block.entry.now error
            ⊎ IsPlaceFault (waiting_of next.now) block.entry.now error)) }
    {
        match verified_folder(alloc, &next.cid, block) {
            Ok(folder) => Visit::of_folder(alloc, &next.path, folder),
            Err(error) => Err(error),
        }
    }
}
