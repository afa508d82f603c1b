//! Sharded folders: entries that are spread over slots by the hashes of their names.

ghost use Rattle.std.specs.Prelude.{◌≡◌, ◌⊎◌, ◌<◌, ◌≤◌, ◌++◌, ◌∷◌, [], ℕ, List, length, map, replicate, Some, None, IfOk, IfErr, OnOk};
ghost use Rattle.ipld_cid.specs.LinkOf.{link_of};
ghost use Rattle.unixfs_folders.specs.Folders.{EntryParts};
ghost use Rattle.unixfs_folders.specs.Views.{slot_parts};
ghost use Rattle.unixfs_build.specs.Blocks.{no_attributes};
ghost use Rattle.unixfs_build.specs.Nodes.{MadeNode};
ghost use Rattle.unixfs_build.specs.Packing.{IsShardFault, IsSlotFault};
ghost use Rattle.unixfs_build.specs.Shards.{slot_at, by_slot, slot_with, shard_root, nodes_with, shard_nodes, AreNamed, HoldsIn, AreShards, AreLed};
ghost use Rattle.unixfs_build.specs.Views.{entry_of, made};

use crate::entry::NewEntry;
use crate::error::BuildError;
use crate::folder_node::{NodeBlock, make_shard};
use crate::layout::Attributes;
use ipld_cid::Version;
use murmur3::murmur3_x64_64;
use std::alloc::{AllocError, Global};
use std::marker::Model;
use unixfs_folders::ShardLink;

// The number of slots of a shard.
const SLOTS: usize = 256;

// The number of bytes of a hash: how many levels of shards there are at most.
pub(crate) const LEVELS: usize = 8;

// The entries in a slot of a shard.
#[derive(Drop)]
struct Slot<'a> {
    entries: Vec<NewEntry<'a>>,
}

impl<'a> Model for Slot<'a> {
    ghost use Rattle.std.specs.Prelude.{List, map};
    ghost use Rattle.unixfs_folders.specs.Folders.{EntryParts};
    ghost use Rattle.unixfs_build.specs.Views.{entry_of};

    ghost Value = { List EntryParts };

    ghost view = { λ slot. map entry_of slot.entries.items };
}

impl<'a> Slot<'a> {
    // Returns a slot without entries.
    fn new(alloc: Global) -> Slot<'a>
        ensures { result ≡ [] }
    {
        Slot {
            entries: Vec::new(alloc),
        }
    }

    // Returns the entries.
    fn entries(&self) -> &[NewEntry<'a>]
        ensures { map entry_of result.now ≡ self.now }
    {
        &self.entries
    }

    // Appends an entry.
    fn push(&mut self, entry: &NewEntry<'a>) -> Result<(), AllocError>
        ensures { OnOk result (self.new ≡ self.old ++ entry_of entry.now ∷ []) }
    {
        let entry = NewEntry {
            name: entry.name,
            cid: entry.cid,
            total: entry.total,
        };
        match self.entries.push(entry) {
            Ok(()) => Ok(()),
            Err(_) => Err(AllocError),
        }
    }
}

// Returns the slots of a shard without entries.
fn empty_slots<'a>(alloc: Global) -> Result<Vec<Slot<'a>>, AllocError>
    ensures { IfOk result (λ slots. slots.items ≡ replicate 256 []) }
{
    let mut slots = Vec::with_capacity(alloc, SLOTS)?;
    for _ in 0..SLOTS {
        match slots.push(Slot::new(alloc)) {
            Ok(()) => {}
            Err(_) => return Err(AllocError),
        }
    }
    Ok(slots)
}

// Returns the slot of a name in a shard at this depth.
#[tactic(auto, unfolding(crate::specs::Shards::slot_at))]
fn slot_of(name: &str, depth: usize) -> u8
    requires { depth < 8 }
    ensures { result ≡ slot_at depth name.now }
{
    murmur3_x64_64(name.as_bytes())[depth]
}

// Returns the slots of a shard at this depth, with these entries.
fn spread<'a>(
    alloc: Global,
    depth: usize,
    entries: &[NewEntry<'a>],
) -> Result<Vec<Slot<'a>>, AllocError>
    requires { depth < 8 }
    ensures { IfOk result (λ slots. slots.items ≡ by_slot depth (map entry_of entries.now)) }
{
    let mut slots = match empty_slots(alloc) {
        Ok(slots) => slots,
        Err(_) => return Err(AllocError),
    };
    for entry in entries {
        let slot = usize::from(slot_of(entry.name, depth));
        match slots[slot].push(entry) {
            Ok(()) => {}
            Err(_) => return Err(AllocError),
        }
    }
    Ok(slots)
}

// The links of a shard, and the blocks of the shards below it.
#[derive(Drop)]
struct Shard<'a> {
    links: Vec<ShardLink<'a>>,
    below: Vec<NodeBlock>,
}

impl<'a> Shard<'a> {
    // Adds the link to an entry.
    fn add_entry(&mut self, slot: u8, entry: &NewEntry<'a>) -> Result<(), BuildError>
        ensures links { OnOk result (map slot_parts self.new.links.items
            ≡ map slot_parts self.old.links.items ++ record {
              slot = slot;
              name = Some entry.now.name.now;
              link = link_of entry.now.cid;
              tsize = Some entry.now.total;
            } ∷ []) }
        ensures below { OnOk result (map made self.new.below.items
            ≡ map made self.old.below.items) }
        ensures fault { IfErr result (λ error. error ≡ BuildError.Memory) }
    {
        let link = ShardLink {
            slot,
            name: Some(entry.name),
            cid: entry.cid,
            tsize: Some(entry.total),
        };
        match self.links.push(link) {
            Ok(()) => Ok(()),
            Err(_) => Err(BuildError::Memory),
        }
    }

    // Adds the link to a shard, whose blocks these are, the root first.
    fn add_shard(&mut self, slot: u8, mut blocks: Vec<NodeBlock>) -> Result<(), BuildError>
        requires { 0 < length blocks.items }
        ensures links { (root : MadeNode) (others : List MadeNode)
            → map made blocks.items ≡ root ∷ others
            → OnOk result (map slot_parts self.new.links.items
            ≡ map slot_parts self.old.links.items ++ record {
              slot = slot;
              name = None;
              link = root.link;
              tsize = Some root.total;
            } ∷ []) }
        ensures below { OnOk result (map made self.new.below.items
            ≡ map made self.old.below.items ++ map made blocks.items) }
        ensures fault { IfErr result (λ error. error ≡ BuildError.Memory) }
    {
        let root = &blocks[0];
        let link = ShardLink {
            slot,
            name: None,
            cid: root.cid,
            tsize: Some(root.total),
        };
        match self.links.push(link) {
            Ok(()) => {}
            Err(_) => return Err(BuildError::Memory),
        }
        self.below.append(&mut blocks)?;
        Ok(())
    }
}

// Adds what a slot with these entries has: the link, and the blocks of the shard below it. So many
// bytes of the hashes are left after the slot.
#[cycle(build_shard)]
fn add_slot<'a>(
    alloc: Global,
    version: Version,
    levels: usize,
    slot: u8,
    entries: &[NewEntry<'a>],
    shard: &mut Shard<'a>,
) -> Result<(), BuildError>
    requires named { AreNamed (map entry_of entries.now) }
    requires led { AreLed levels (map entry_of entries.now) }
    ensures links { OnOk result (map slot_parts shard.new.links.items
        ≡ map slot_parts shard.old.links.items ++ slot_with
        (shard_root levels version no_attributes) slot (map entry_of entries.now)) }
    ensures below { OnOk result (map made shard.new.below.items
        ≡ map made shard.old.below.items ++ nodes_with
        (shard_nodes levels version no_attributes) (map entry_of entries.now)) }
    ensures holds { OnOk result (HoldsIn (AreShards levels version no_attributes)
        (map entry_of entries.now)) }
    ensures fault { IfErr result (IsSlotFault levels version (map entry_of entries.now)) }
{
    match entries {
        [] => Ok(()),
        [entry] => shard.add_entry(slot, entry),
        [_, _, ..] => {
            let blocks = match build_shard(alloc, version, &Attributes::NONE, levels, entries) {
                Ok(blocks) => blocks,
                Err(error) => return Err(error),
            };
            shard.add_shard(slot, blocks)
        }
    }
}

// Returns the blocks of a shard, of which this is its own.
pub(crate) fn with_root(
    alloc: Global,
    root: NodeBlock,
    mut below: Vec<NodeBlock>,
) -> Result<Vec<NodeBlock>, AllocError>
    ensures { IfOk result (λ blocks. map made blocks.items
        ≡ made root ∷ map made below.items) }
{
    let mut blocks = Vec::with_capacity(alloc, below.len() + 1)?;
    blocks.push(root)?;
    blocks.append(&mut below)?;
    Ok(blocks)
}

// Makes the blocks of a shard with these entries: its own, and those of the shards below it. So many
// bytes of the hashes are left.
#[cycle(build_shard)]
pub(crate) fn build_shard(
    alloc: Global,
    version: Version,
    attributes: &Attributes,
    levels: usize,
    entries: &[NewEntry<'_>],
) -> Result<Vec<NodeBlock>, BuildError>
    requires named { AreNamed (map entry_of entries.now) }
    requires led { AreLed levels (map entry_of entries.now) }
    requires several { levels ≡ 0 → 1 < length entries.now }
    ensures exact { IfOk result (λ blocks. map made blocks.items
        ≡ shard_nodes levels version attributes.now (map entry_of entries.now)) }
    ensures holds { OnOk result (AreShards levels version attributes.now
        (map entry_of entries.now)) }
    ensures fault { IfErr result
        (IsShardFault levels version attributes.now (map entry_of entries.now)) }
{
    if levels == 0 {
        return Err(BuildError::SameHash);
    }
    let slots = match spread(alloc, LEVELS - levels, entries) {
        Ok(slots) => slots,
        Err(_) => return Err(BuildError::Memory),
    };
    let mut shard = Shard {
        links: Vec::new(alloc),
        below: Vec::new(alloc),
    };
    for (slot, inside) in slots.iter().enumerate() {
        let entries = inside.entries();
        match add_slot(alloc, version, levels - 1, slot as u8, entries, &mut shard) {
            Ok(()) => {}
            Err(error) => return Err(error),
        }
    }
    let root = match make_shard(alloc, version, attributes, &shard.links) {
        Ok(root) => root,
        Err(error) => return Err(error),
    };
    match with_root(alloc, root, shard.below) {
        Ok(blocks) => Ok(blocks),
        Err(_) => Err(BuildError::Memory),
    }
}
