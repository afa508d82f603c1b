//! What the block of a folder, or of a part of one, says of a name.

ghost use Rattle.std.specs.Prelude.{◌≡◌, ◌⊎◌, ◌<◌, map, IfOk, IfErr, Ok, Err, MatchResult};
ghost use Rattle.ipld_block.specs.Digest.{digest_by};
ghost use Rattle.ipld_cid.specs.LinkOf.{link_of};
ghost use Rattle.unixfs_folders.specs.Sayings as sayings;
ghost use Rattle.unixfs_folders.specs.Sayings.{named, said_by, said_in, said, Says, IsFault};
ghost use Rattle.unixfs_folders.specs.SayingOf.{saying_of};
ghost use Rattle.unixfs_folders.specs.Views.{entry_parts, slot_parts, folder_parts, IsMemory};

use crate::error::FolderErrorKind;
use crate::folder::{Folder, FolderEntry, ShardLink, verified_folder};
use ipld_cid::Cid;
use murmur3::murmur3_x64_64;
use std::alloc::Global;

// The last depth of a shard. A hash has a byte for each depth.
pub(crate) const LAST_DEPTH: usize = 7;

// What a folder, or a part of one, says of a name.
#[derive(Clone, Copy)]
pub(crate) enum Saying {
    Entry(Cid),
    Nothing,
    Deeper(Cid),
}

// Looks for the entry with this name in a plain folder.
fn named(name: &str, entries: &[FolderEntry<'_>]) -> Saying
    ensures { saying_of result ≡ named name.now (map entry_parts entries.now) }
{
    for entry in entries {
        if entry.name == name {
            return Saying::Entry(entry.cid);
        }
    }
    Saying::Nothing
}

// Returns what a link says of the name.
#[tactic(auto, unfolding(crate::specs::Sayings::said_by))]
fn said_by(name: &str, depth: usize, link: &ShardLink<'_>) -> Result<Saying, FolderErrorKind>
    ensures { MatchResult result
        (λ saying. said_by name.now depth (slot_parts link.now).name (slot_parts link.now).link
        ≡ Ok (saying_of saying))
        (λ error. said_by name.now depth (slot_parts link.now).name (slot_parts link.now).link
        ≡ Err error) }
{
    match link.name {
        Some(other) => {
            if other == name {
                Ok(Saying::Entry(link.cid))
            } else {
                Ok(Saying::Nothing)
            }
        }
        None => {
            if depth < LAST_DEPTH {
                Ok(Saying::Deeper(link.cid))
            } else {
                Err(FolderErrorKind::TooDeep)
            }
        }
    }
}

// Returns what this slot of a shard says of the name.
fn said_in(
    name: &str,
    depth: usize,
    slot: u8,
    links: &[ShardLink<'_>],
) -> Result<Saying, FolderErrorKind>
    ensures { MatchResult result
        (λ saying. said_in name.now depth slot (map slot_parts links.now) ≡ Ok (saying_of saying))
        (λ error. said_in name.now depth slot (map slot_parts links.now) ≡ Err error) }
{
    for link in links {
        if link.slot == slot {
            return said_by(name, depth, link);
        }
    }
    Ok(Saying::Nothing)
}

// Returns what the folder at this depth says of the name.
#[tactic(auto, unfolding(crate::specs::Sayings::said))]
fn said(name: &str, depth: usize, folder: &Folder<'_>) -> Result<Saying, FolderErrorKind>
    requires { depth < 8 }
    ensures { MatchResult result
        (λ saying. said name.now depth (folder_parts folder.now) ≡ Ok (saying_of saying))
        (λ error. said name.now depth (folder_parts folder.now) ≡ Err error) }
{
    match folder {
        Folder::Plain(entries) => {
            if depth == 0 {
                Ok(named(name, entries))
            } else {
                Err(FolderErrorKind::NotShard)
            }
        }
        Folder::Shard(links) => {
            let hash = murmur3_x64_64(name.as_bytes());
            said_in(name, depth, hash[depth], links)
        }
    }
}

// Returns what the block of a CID says of the name, if it is a folder at this depth.
pub(crate) fn look(
    alloc: Global,
    at: &Cid,
    name: &str,
    depth: usize,
    block: &[u8],
) -> Result<Saying, FolderErrorKind>
    requires { depth < 8 }
    ensures found { IfOk result (λ saying.
        Says digest_by (link_of at.now) name.now depth block.now (saying_of saying)) }
    ensures only { (s : sayings.Saying) → Says digest_by (link_of at.now) name.now depth block.now s
        → MatchResult result (λ saying. saying_of saying ≡ s) IsMemory }
    ensures why { IfErr result (λ error. IsMemory error
        ⊎ IsFault (link_of at.now) name.now depth block.now error) }
{
    match verified_folder(alloc, at, block) {
        Ok(folder) => said(name, depth, &folder),
        Err(error) => Err(error),
    }
}
