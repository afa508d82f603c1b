//! Folders, as their blocks have them.

ghost use Rattle.std.specs.Prelude.{◌≡◌, ◌⊎◌, map, option_map, replicate, bytes_eq, IfOk, IfErr, Ok, Err, Some, None, MatchResult};
ghost use Rattle.ipld_cid.specs.LinkOf.{link_of};
ghost use Rattle.ipld_block.specs.Digest.{digest_by};
ghost use Rattle.dag_pb.specs.Views.{parts_of_link};
ghost use Rattle.unixfs.specs.Nodes.{node_parts};
ghost use Rattle.unixfs.specs.Views.{parts_of};
ghost use Rattle.unixfs_folders.specs.Faults.{IsFolderFault};
ghost use Rattle.unixfs_folders.specs.Folders.{FolderParts, IsFolder, IsFolderOf, IsFolderIn, set_bit, set_bits, without_zeros, bit_field};
ghost use Rattle.unixfs_folders.specs.Reading as reading;
ghost use Rattle.unixfs_folders.specs.Views.{entry_parts, slot_parts, folder_parts, place_parts, IsMemory};

use crate::error::FolderErrorKind;
use crate::names::{comes_before, is_entry_name, split_slot};
use dag_pb::PbLink;
use ipld_block::verify;
use ipld_cid::{Cid, DAG_PB};
use std::alloc::{AllocError, Global};
use unixfs::{Data, DataType, UnixFsNode, read_unixfs};

// The hash function murmur3-x64-64 in the table of multicodecs.
const MURMUR3_X64_64: u64 = 0x22;

// The number of slots of a shard.
const FANOUT: u64 = 256;

/// An entry of a folder. Its name is borrowed from the block.
#[derive(Clone, Copy)]
pub struct FolderEntry<'a> {
    /// The name, which is not empty, `.` or `..`, and has no `/` and no NUL.
    pub name: &'a str,
    /// The CID of the file, the folder or the symbolic link.
    pub cid: Cid,
    /// The size of its block, with all blocks below it, if the link has a size. It is the claim of
    /// the block's author. Nothing checks it.
    pub tsize: Option<u64>,
}

/// A link of a shard. Its name is borrowed from the block.
#[derive(Clone, Copy)]
pub struct ShardLink<'a> {
    /// The slot, which is the byte of the name's hash that leads there.
    pub slot: u8,
    /// The name of the entry, or `None` if the link leads to a shard below.
    pub name: Option<&'a str>,
    /// The CID of the entry or of the shard.
    pub cid: Cid,
    /// The size of its block, with all blocks below it, if the link has a size. It is the claim of
    /// the block's author. Nothing checks it.
    pub tsize: Option<u64>,
}

/// A folder, or a part of one, as its block has it.
#[derive(Drop)]
pub enum Folder<'a> {
    /// A plain folder: its entries, whose names ascend by their bytes.
    Plain(Vec<FolderEntry<'a>>),
    /// A part of a sharded folder: its links, whose slots ascend.
    Shard(Vec<ShardLink<'a>>),
}

// The slot that the name of a link says, and the name of its entry.
#[derive(Clone, Copy)]
pub(crate) struct SlotName<'a> {
    pub(crate) slot: u8,
    pub(crate) name: Option<&'a str>,
}

/// Returns whether the name is greater, by its bytes, than the one before it, if there is one. Does
/// not allocate.
#[tactic(auto, unfolding(crate::specs::Reading::comes_after))]
pub fn comes_after(before: Option<&str>, name: &str) -> bool
    ensures { result ≡ reading.comes_after (option_map (λ b. b.now) before.entry) name.now }
{
    match before {
        Some(before) => comes_before(before, name),
        None => true,
    }
}

// Returns the name, if it is valid and in order.
#[tactic(auto, unfolding(crate::specs::Reading::checked_name))]
fn checked_name<'a>(
    index: usize,
    before: Option<&str>,
    name: &'a str,
) -> Result<&'a str, FolderErrorKind>
    ensures { MatchResult result
        (λ found. reading.checked_name index (option_map (λ b. b.now) before.entry) name.entry.now
        ≡ Ok found.now)
        (λ error. reading.checked_name index (option_map (λ b. b.now) before.entry) name.entry.now
        ≡ Err error) }
{
    if !is_entry_name(name) {
        return Err(FolderErrorKind::InvalidName(index));
    }
    if !comes_after(before, name) {
        return Err(FolderErrorKind::NameOrder(index));
    }
    Ok(name)
}

// Returns the name of a link in a plain folder, if it is valid and in order.
#[tactic(auto, unfolding(crate::specs::Reading::entry_name))]
fn entry_name<'a>(
    index: usize,
    before: Option<&str>,
    name: Option<&'a str>,
) -> Result<&'a str, FolderErrorKind>
    ensures { MatchResult result
        (λ found. reading.entry_name index (option_map (λ b. b.now) before.entry)
        (option_map (λ n. n.now) name.entry) ≡ Ok found.now)
        (λ error. reading.entry_name index (option_map (λ b. b.now) before.entry)
        (option_map (λ n. n.now) name.entry) ≡ Err error) }
{
    match name {
        Some(name) => checked_name(index, before, name),
        None => Err(FolderErrorKind::InvalidName(index)),
    }
}

// Reads the entries of a plain folder.
fn read_entries<'a>(
    alloc: Global,
    links: &[PbLink<'a>],
) -> Result<Vec<FolderEntry<'a>>, FolderErrorKind>
    ensures { MatchResult result
        (λ entries. reading.entries_from 0 None (map parts_of_link links.now)
        ≡ Ok (map entry_parts entries.items))
        (λ error. IsMemory error
        ⊎ (reading.entries_from 0 None (map parts_of_link links.now) ≡ Err error)) }
{
    let mut entries = Vec::with_capacity(alloc, links.len())?;
    let mut before = None;
    for (index, link) in links.iter().enumerate() {
        let name = match entry_name(index, before, link.name) {
            Ok(name) => name,
            Err(error) => return Err(error),
        };
        let entry = FolderEntry {
            name,
            cid: link.hash,
            tsize: link.tsize,
        };
        match entries.push(entry) {
            Ok(()) => {}
            Err(_) => return Err(FolderErrorKind::Memory),
        }
        before = Some(name);
    }
    Ok(entries)
}

// Returns the name of an entry in a shard, or nothing for a shard below.
#[tactic(auto, unfolding(crate::specs::Reading::slot_name))]
fn slot_name<'a>(index: usize, name: &'a str) -> Result<Option<&'a str>, FolderErrorKind>
    ensures { MatchResult result
        (λ found. reading.slot_name index name.entry.now ≡ Ok (option_map (λ n. n.now) found))
        (λ error. reading.slot_name index name.entry.now ≡ Err error) }
{
    if name.is_empty() {
        return Ok(None);
    }
    if is_entry_name(name) {
        Ok(Some(name))
    } else {
        Err(FolderErrorKind::InvalidName(index))
    }
}

// Reads the name of a link in a shard.
#[tactic(auto, unfolding(crate::specs::Reading::place_of, crate::specs::Reading::slot_number))]
fn read_place<'a>(
    index: usize,
    least: usize,
    name: Option<&'a str>,
) -> Result<SlotName<'a>, FolderErrorKind>
    ensures { MatchResult result
        (λ found. reading.place_of index least (option_map (λ n. n.now) name.entry)
        ≡ Ok (place_parts found))
        (λ error. reading.place_of index least (option_map (λ n. n.now) name.entry) ≡ Err error) }
{
    let Some(name) = name else {
        return Err(FolderErrorKind::InvalidSlot(index));
    };
    let (slot, rest) = match split_slot(name) {
        Some(parts) => parts,
        None => return Err(FolderErrorKind::InvalidSlot(index)),
    };
    if usize::from(slot) < least {
        return Err(FolderErrorKind::SlotOrder(index));
    }
    match slot_name(index, rest) {
        Ok(name) => Ok(SlotName { slot, name }),
        Err(error) => Err(error),
    }
}

// Reads the links of a shard.
fn read_links<'a>(
    alloc: Global,
    links: &[PbLink<'a>],
) -> Result<Vec<ShardLink<'a>>, FolderErrorKind>
    ensures { MatchResult result
        (λ slots. reading.slots_from 0 0 (map parts_of_link links.now)
        ≡ Ok (map slot_parts slots.items))
        (λ error. IsMemory error
        ⊎ (reading.slots_from 0 0 (map parts_of_link links.now) ≡ Err error)) }
{
    let mut slots = Vec::with_capacity(alloc, links.len())?;
    let mut least = 0;
    for (index, link) in links.iter().enumerate() {
        let place = match read_place(index, least, link.name) {
            Ok(place) => place,
            Err(error) => return Err(error),
        };
        let slot = ShardLink {
            slot: place.slot,
            name: place.name,
            cid: link.hash,
            tsize: link.tsize,
        };
        match slots.push(slot) {
            Ok(()) => {}
            Err(_) => return Err(FolderErrorKind::Memory),
        }
        least = usize::from(place.slot) + 1;
    }
    Ok(slots)
}

// Returns the number of 256 bits, high byte first, in which the bit of each slot is set.
fn set_bits(links: &[ShardLink<'_>]) -> [u8; 32]
    ensures { result ≡ set_bits (replicate 32 0) (map slot_parts links.now) }
{
    let mut bits = [0; 32];
    for link in links {
        set_bit(&mut bits, link.slot);
    }
    bits
}

// Sets the bit of a slot.
#[tactic(auto, unfolding(crate::specs::Folders::set_bit))]
fn set_bit(bits: &mut [u8; 32], slot: u8)
    ensures { bits.new ≡ set_bit bits.old slot }
{
    bits[31 - usize::from(slot / 8)] |= 1 << (slot % 8);
}

// Returns the bytes without the zeros at their front.
fn without_zeros(bytes: &[u8]) -> &[u8]
    ensures { result.now ≡ without_zeros bytes.now }
{
    let mut rest = bytes;
    while let [0, after @ ..] = rest {
        rest = after;
    }
    rest
}

// Returns whether the bytes are the bit field of these links.
#[tactic(auto, unfolding(crate::specs::Folders::bit_field))]
fn is_bit_field(bytes: &[u8], links: &[ShardLink<'_>]) -> bool
    ensures { result ≡ bytes_eq bytes.now (bit_field (map slot_parts links.now)) }
{
    let bits = set_bits(links);
    bytes == without_zeros(&bits)
}

/// Returns the bit field of a shard with these links: the number with the bits of their slots, high
/// byte first, without zero bytes at its front. It allocates once, for at most 32 bytes.
///
/// # Errors
///
/// `AllocError` if the allocation fails.
#[tactic(auto, unfolding(crate::specs::Folders::bit_field))]
pub fn bit_field(alloc: Global, links: &[ShardLink<'_>]) -> Result<Vec<u8>, AllocError>
    ensures { IfOk result (λ bytes. bytes.items ≡ bit_field (map slot_parts links.now)) }
{
    let bits = set_bits(links);
    Vec::from_slice(alloc, without_zeros(&bits))
}

// Reads the plain folder of these links.
#[tactic(auto, unfolding(crate::specs::Reading::plain_of))]
fn read_plain<'a>(alloc: Global, links: &[PbLink<'a>]) -> Result<Folder<'a>, FolderErrorKind>
    ensures { MatchResult result
        (λ folder. reading.plain_of (map parts_of_link links.now) ≡ Ok (folder_parts folder))
        (λ error. IsMemory error
        ⊎ (reading.plain_of (map parts_of_link links.now) ≡ Err error)) }
{
    match read_entries(alloc, links) {
        Ok(entries) => Ok(Folder::Plain(entries)),
        Err(error) => Err(error),
    }
}

// Reads the slots of these links, whose bit field is in the message.
#[tactic(auto, unfolding(crate::specs::Reading::with_bits))]
fn read_slots<'a>(
    alloc: Global,
    links: &[PbLink<'a>],
    bits: &[u8],
) -> Result<Folder<'a>, FolderErrorKind>
    ensures { MatchResult result
        (λ folder. reading.slots_of (map parts_of_link links.now) bits.now
        ≡ Ok (folder_parts folder))
        (λ error. IsMemory error
        ⊎ (reading.slots_of (map parts_of_link links.now) bits.now ≡ Err error)) }
{
    let slots = match read_links(alloc, links) {
        Ok(slots) => slots,
        Err(error) => return Err(error),
    };
    if is_bit_field(bits, &slots) {
        Ok(Folder::Shard(slots))
    } else {
        Err(FolderErrorKind::BitField)
    }
}

// Reads the shard of these links and this message.
#[tactic(auto, unfolding(crate::specs::Reading::shard_of))]
fn read_shard<'a>(
    alloc: Global,
    links: &[PbLink<'a>],
    message: &Data<'_>,
) -> Result<Folder<'a>, FolderErrorKind>
    ensures { MatchResult result
        (λ folder. reading.shard_of (map parts_of_link links.now) (parts_of message.now)
        ≡ Ok (folder_parts folder))
        (λ error. IsMemory error
        ⊎ (reading.shard_of (map parts_of_link links.now) (parts_of message.now) ≡ Err error)) }
{
    if message.hash_type != Some(MURMUR3_X64_64) {
        return Err(FolderErrorKind::HashFunction);
    }
    if message.fanout != Some(FANOUT) {
        return Err(FolderErrorKind::Fanout);
    }
    match message.data {
        Some(bits) => read_slots(alloc, links, bits),
        None => read_slots(alloc, links, &[]),
    }
}

// Reads the folder of a node. `folder_of` has more clauses.
#[tactic(auto, unfolding(crate::specs::Reading::folder_of))]
fn folder_by_type<'a>(alloc: Global, node: &UnixFsNode<'a>) -> Result<Folder<'a>, FolderErrorKind>
    ensures { MatchResult result
        (λ folder. reading.folder_of (node_parts node.now) ≡ Ok (folder_parts folder))
        (λ error. IsMemory error ⊎ (reading.folder_of (node_parts node.now) ≡ Err error)) }
{
    match node.data.data_type {
        DataType::Directory => read_plain(alloc, &node.links),
        DataType::HamtShard => read_shard(alloc, &node.links, &node.data),
        DataType::Raw => Err(FolderErrorKind::NotFolder(DataType::Raw)),
        DataType::File => Err(FolderErrorKind::NotFolder(DataType::File)),
        DataType::Metadata => Err(FolderErrorKind::NotFolder(DataType::Metadata)),
        DataType::Symlink => Err(FolderErrorKind::NotFolder(DataType::Symlink)),
    }
}

// Reads the folder of a node.
fn folder_of<'a>(alloc: Global, node: &UnixFsNode<'a>) -> Result<Folder<'a>, FolderErrorKind>
    ensures found { IfOk result (λ folder. IsFolderOf (node_parts node.now).links
        (node_parts node.now).message (folder_parts folder)) }
    ensures only { (f : FolderParts)
        → IsFolderOf (node_parts node.now).links (node_parts node.now).message f
        → MatchResult result (λ folder. folder_parts folder ≡ f) IsMemory }
    ensures exact { MatchResult result
        (λ folder. reading.folder_of (node_parts node.now) ≡ Ok (folder_parts folder))
        (λ error. IsMemory error ⊎ (reading.folder_of (node_parts node.now) ≡ Err error)) }
{
    folder_by_type(alloc, node)
}

/// Decodes the folder in a block: a plain folder, or a part of a sharded one.
///
/// It reads the block twice, in loops. It allocates the vector of the links and that of the
/// entries. It doesn't check that the hashes of the names in a shard lead to their slots, because
/// that depends on where the shard is.
///
/// # Errors
///
/// - `Node` if the block is not a node of UnixFS, with the error of [`read_unixfs`].
/// - `NotFolder` if the node is of another type.
/// - `InvalidName` if the name of an entry is missing, empty, `.` or `..`, or has a `/` or a NUL.
/// - `NameOrder` if the names in a plain folder don't ascend strictly by their bytes.
/// - `HashFunction` or `Fanout` if a shard is not of murmur3-x64-64 and 256 slots.
/// - `InvalidSlot` if the name of a link in a shard doesn't begin with a slot, and `SlotOrder` if
///   the slots don't ascend strictly.
/// - `BitField` if the bit field of a shard is not that of its slots.
///
/// It is the first of these from the left in the links, and that of the bit field after them. It is
/// `Memory`, or `Node` with such a kind, if an allocation fails.
#[tactic(auto, unfolding(crate::specs::Reading::read_folder))]
pub fn read_folder<'a>(alloc: Global, block: &'a [u8]) -> Result<Folder<'a>, FolderErrorKind>
    ensures found { IfOk result (λ folder. IsFolder block.entry.now (folder_parts folder)) }
    ensures only { (f : FolderParts) → IsFolder block.entry.now f
        → MatchResult result (λ folder. folder_parts folder ≡ f) IsMemory }
    ensures exact { MatchResult result
        (λ folder. reading.read_folder block.entry.now ≡ Ok (folder_parts folder))
        (λ error. IsMemory error ⊎ (reading.read_folder block.entry.now ≡ Err error)) }
{
    match read_unixfs(alloc, block) {
        Ok(node) => folder_of(alloc, &node),
        Err(error) => Err(FolderErrorKind::Node(error)),
    }
}

// Reads the folder in the block of a CID.
pub(crate) fn verified_folder<'a>(
    alloc: Global,
    cid: &Cid,
    block: &'a [u8],
) -> Result<Folder<'a>, FolderErrorKind>
    ensures found { IfOk result (λ folder. IsFolderIn digest_by (link_of cid.now) block.entry.now
        (folder_parts folder)) }
    ensures only { (f : FolderParts) → IsFolderIn digest_by (link_of cid.now) block.entry.now f
        → MatchResult result (λ folder. folder_parts folder ≡ f) IsMemory }
    ensures why { IfErr result (λ error. IsMemory error
        ⊎ IsFolderFault (link_of cid.now) block.entry.now error) }
{
    if cid.codec() != DAG_PB {
        return Err(FolderErrorKind::Codec(cid.codec()));
    }
    match verify(cid, block) {
        Ok(()) => read_folder(alloc, block),
        Err(error) => Err(FolderErrorKind::Verify(error)),
    }
}
