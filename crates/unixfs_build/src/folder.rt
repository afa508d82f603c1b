//! Folders, plain and sharded.

ghost use Rattle.std.specs.Prelude.{◌≡◌, ℕ, List, map, None, IfOk, IfErr, OnOk};
ghost use Rattle.ipld_block.specs.Digest.{digest_by};
ghost use Rattle.ipld_cid.specs.Cid.{Link};
ghost use Rattle.unixfs_folders.specs.Folders.{AreEntries, Has, Lacks, HasEntry, HasNoEntry};
ghost use Rattle.unixfs_build.specs.Packing.{folder_root, folder_nodes, IsFolderFault};
ghost use Rattle.unixfs_build.specs.Views.{entry_of, made};

use crate::entry::{NewEntry, are_longer, check_names};
use crate::error::BuildError;
use crate::folder_node::{NodeBlock, make_plain};
use crate::layout::Attributes;
use crate::shard::{LEVELS, build_shard, with_root};
use ipld_cid::Version;
use std::alloc::Global;

/// The size above which `ipfs add` makes a sharded folder: the lengths of the names and of the CIDs
/// of its entries altogether, in bytes.
pub const SHARDED_ABOVE: u64 = 262_144;

/// Makes the blocks of a folder. The entries are in ascending order of the bytes of their names.
///
/// The folder is sharded if the names and the CIDs of its entries have more than `sharded_above`
/// bytes altogether. Otherwise it is plain.
///
/// Returns the blocks in the order in which a `FolderWalk` of `unixfs_folders` wants them: the root
/// first, and each shard before the shards below it, these in the order of their slots. The
/// attributes are in the root. The links of the folder have the totals of the entries.
///
/// It recurses for at most eight levels.
///
/// # Errors
///
/// - `InvalidName` if a name is empty, `.` or `..`, or has a `/` or a NUL, and `NameOrder` if it
///   doesn't come after the one before it. It is the first of these from the left.
/// - `SameHash` if two names have the same hash.
/// - `TooLarge` if the folder with all blocks below it has 2^64 bytes or more.
/// - `Nanoseconds` if the time has more than 999,999,999 nanoseconds.
/// - `Memory` if an allocation fails.
pub fn build_folder(
    alloc: Global,
    version: Version,
    attributes: &Attributes,
    sharded_above: u64,
    entries: &[NewEntry<'_>],
) -> Result<Vec<NodeBlock>, BuildError>
    ensures exact { IfOk result (λ blocks. map made blocks.items
        ≡ folder_nodes version attributes.now sharded_above (map entry_of entries.now)) }
    ensures names { OnOk result (AreEntries None (map entry_of entries.now)) }
    ensures entries { (name : List ℕ) (target : Link) → Has (map entry_of entries.now) name target
        → OnOk result (HasEntry digest_by (folder_root version attributes.now sharded_above
        (map entry_of entries.now)).link name target) }
    ensures no_others { (name : List ℕ) → Lacks (map entry_of entries.now) name
        → OnOk result (HasNoEntry digest_by (folder_root version attributes.now sharded_above
        (map entry_of entries.now)).link name) }
    ensures fault { IfErr result
        (IsFolderFault version attributes.now sharded_above (map entry_of entries.now)) }
{
    if let Err(error) = check_names(entries) {
        return Err(error);
    }
    if are_longer(sharded_above, entries) {
        return build_shard(alloc, version, attributes, LEVELS, entries);
    }
    match make_plain(alloc, version, attributes, entries) {
        Ok(root) => match with_root(alloc, root, Vec::new(alloc)) {
            Ok(blocks) => Ok(blocks),
            Err(_) => Err(BuildError::Memory),
        },
        Err(error) => Err(error),
    }
}
