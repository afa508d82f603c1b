//! The nodes of folders, shards and symbolic links.

ghost use Rattle.std.specs.Prelude.{◌≡◌, ◌+◌, ◌<◌, ◌≤◌, ◌^◌, ◌++◌, [], map, option_map, unwrap_or, string_bytes, Some, None, IfOk, IfErr, MatchOption};
ghost use Rattle.ipld_block.specs.Digest.{digest_by};
ghost use Rattle.ipld_cid.specs.LinkOf.{link_of};
ghost use Rattle.dag_pb.specs.Views.{parts_of_link, parts_of_link_buf};
ghost use Rattle.dag_pb.specs.Writing.{misplaced_link};
ghost use Rattle.unixfs.specs.Nodes.{IsParsed};
ghost use Rattle.unixfs.specs.Views.{parts_of};
ghost use Rattle.unixfs_folders.specs.FileTrees.{IsSymlink};
ghost use Rattle.unixfs_folders.specs.Folders.{link_of_entry, link_of_slot, AreEntries, AreSlots, plain, NamesFolder, IsShard};
ghost use Rattle.unixfs_folders.specs.Names.{digit, digits};
ghost use Rattle.unixfs_folders.specs.Views.{slot_parts};
ghost use Rattle.unixfs_build.specs.Nodes.{tsize_of, tsizes_of, node_with, message_with, plain_node, symlink_node, shard_node};
ghost use Rattle.unixfs_build.specs.Packing.{IsNodeFault};
ghost use Rattle.unixfs_build.specs.Views.{entry_of, made};

use crate::encode::{encode_block, encode_message};
use crate::entry::NewEntry;
use crate::error::BuildError;
use crate::layout::Attributes;
use crate::node::node_cid;
use dag_pb::{PbLink, PbLinkBuf, PbNode, PbNodeBuf};
use ipld_cid::{Cid, Version};
use std::alloc::{AllocError, Global};
use unixfs::{Data, DataType};
use unixfs_folders::{ShardLink, bit_field};

// The hash function murmur3-x64-64 in the table of multicodecs.
const MURMUR3_X64_64: u64 = 0x22;

// The number of slots of a shard.
const FANOUT: u64 = 256;

/// A block of a folder or of a symbolic link.
#[derive(Drop)]
pub struct NodeBlock {
    /// The CID of the block.
    pub cid: Cid,
    /// The bytes of the block.
    pub data: Vec<u8>,
    /// How many bytes the block has, with all blocks below it. A block that is linked twice counts
    /// twice. It is what a link to the block has as its `Tsize`.
    pub total: u64,
}

// Returns the size that a link claims, or 0 without one.
fn tsize_of(link: &PbLink<'_>) -> u64
    ensures { result ≡ tsize_of (parts_of_link link.now) }
{
    link.tsize.unwrap_or(0)
}

// Returns this many bytes and those of the blocks to which the links lead, or `None` if it is 2^64
// or more.
fn with_tsizes(len: u64, links: &[PbLink<'_>]) -> Option<u64>
    ensures { MatchOption result (2 ^ 64 ≤ len + tsizes_of (map parts_of_link links.now))
        (λ total. total ≡ len + tsizes_of (map parts_of_link links.now)) }
{
    let mut total = len;
    for link in links {
        match total.checked_add(tsize_of(link)) {
            Some(sum) => total = sum,
            None => return None,
        }
    }
    Some(total)
}

// Makes the node of a message, with links that are in order.
fn make_node(
    alloc: Global,
    version: Version,
    message: &Data<'_>,
    links: Vec<PbLink<'_>>,
) -> Result<NodeBlock, BuildError>
    requires { misplaced_link (map parts_of_link links.items) ≡ None }
    ensures exact { IfOk result (λ block. made block
        ≡ node_with version (parts_of message.now) (map parts_of_link links.entry.items)) }
    ensures parsed { IfOk result (λ block. IsParsed block.data.items
        (map parts_of_link links.entry.items) (parts_of message.now)) }
    ensures fault { (attributes : Attributes) → attributes.mtime ≡ message.now.mtime
        → IfErr result (IsNodeFault attributes
        (node_with version (parts_of message.now) (map parts_of_link links.entry.items))) }
{
    let message = match encode_message(alloc, message) {
        Ok(message) => message,
        Err(error) => return Err(error),
    };
    let node = PbNode {
        links,
        data: Some(&message),
    };
    let data = match encode_block(alloc, &node) {
        Ok(data) => data,
        Err(error) => return Err(error),
    };
    match with_tsizes(data.len() as u64, &node.links) {
        Some(total) => Ok(NodeBlock {
            cid: node_cid(version, &data),
            data,
            total,
        }),
        None => Err(BuildError::TooLarge),
    }
}

// Returns a message of this type.
fn message_with<'a>(
    alloc: Global,
    attributes: &Attributes,
    data_type: DataType,
    content: Option<&'a [u8]>,
    hash_type: Option<u64>,
    fanout: Option<u64>,
) -> Data<'a>
    ensures parts { parts_of result ≡ message_with attributes.now data_type
        (option_map (λ c. c.now) content.entry) hash_type fanout }
    ensures mtime { attributes.now.mtime ≡ result.mtime }
{
    Data {
        data_type,
        data: content,
        filesize: None,
        blocksizes: Vec::new(alloc),
        hash_type,
        fanout,
        mode: attributes.mode,
        mtime: attributes.mtime,
    }
}

// Returns the link of an entry.
fn entry_link<'a>(entry: &NewEntry<'a>) -> PbLink<'a>
    ensures { parts_of_link result ≡ link_of_entry (entry_of entry.now) }
{
    PbLink {
        hash: entry.cid,
        name: Some(entry.name),
        tsize: Some(entry.total),
    }
}

// Returns the links of these entries.
fn entry_links<'a>(alloc: Global, entries: &[NewEntry<'a>]) -> Result<Vec<PbLink<'a>>, AllocError>
    ensures { IfOk result (λ links. map parts_of_link links.items
        ≡ map link_of_entry (map entry_of entries.now)) }
{
    let mut links = Vec::with_capacity(alloc, entries.len())?;
    for entry in entries {
        if links.push(entry_link(entry)).is_err() {
            return Err(AllocError);
        }
    }
    Ok(links)
}

// Makes the node of a plain folder.
pub(crate) fn make_plain(
    alloc: Global,
    version: Version,
    attributes: &Attributes,
    entries: &[NewEntry<'_>],
) -> Result<NodeBlock, BuildError>
    requires { AreEntries None (map entry_of entries.now) }
    ensures exact { IfOk result (λ block. made block
        ≡ plain_node version attributes.now (map entry_of entries.now)) }
    ensures folder { IfOk result (λ block. NamesFolder digest_by (link_of block.cid)
        (plain (map entry_of entries.now))) }
    ensures fault { IfErr result (IsNodeFault attributes.now
        (plain_node version attributes.now (map entry_of entries.now))) }
{
    let message = message_with(alloc, attributes, DataType::Directory, None, None, None);
    let links = match entry_links(alloc, entries) {
        Ok(links) => links,
        Err(_) => return Err(BuildError::Memory),
    };
    make_node(alloc, version, &message, links)
}

/// Makes the block of a symbolic link.
///
/// It allocates the message and the block.
///
/// # Errors
///
/// - `Nanoseconds` if the time has more than 999,999,999 nanoseconds.
/// - `TooLarge` if the block has 2^64 bytes or more.
/// - `Memory` if an allocation fails.
pub fn build_symlink(
    alloc: Global,
    version: Version,
    attributes: &Attributes,
    target: &str,
) -> Result<NodeBlock, BuildError>
    ensures exact { IfOk result (λ block. made block
        ≡ symlink_node version attributes.now target.now) }
    ensures target { IfOk result (λ block. IsSymlink digest_by (link_of block.cid) target.now) }
    ensures fault { IfErr result (IsNodeFault attributes.now
        (symlink_node version attributes.now target.now)) }
{
    let message = message_with(
        alloc,
        attributes,
        DataType::Symlink,
        Some(target.as_bytes()),
        None,
        None,
    );
    make_node(alloc, version, &message, Vec::new(alloc))
}

// Returns the upper-case hexadecimal digit of a number.
fn digit(number: u8) -> char
    requires { number < 16 }
    ensures value { result ≡ digit number }
    ensures ascii { result < 128 }
{
    if number < 10 {
        char::from(b'0' + number)
    } else {
        char::from(b'A' + (number - 10))
    }
}

// Returns the name of the link of a slot: its digits, and the name of the entry if it has one.
#[tactic(auto, unfolding(unixfs_folders::specs::Names::digits))]
fn slot_name(alloc: Global, slot: u8, name: Option<&str>) -> Result<String, AllocError>
    ensures { IfOk result (λ text. string_bytes text
        ≡ digits slot ++ unwrap_or (option_map (λ name. name.now) name.entry) []) }
{
    let name = name.unwrap_or("");
    let mut text = String::with_capacity(alloc, name.len() + 2)?;
    text.push(digit(slot / 16))?;
    text.push(digit(slot % 16))?;
    text.push_str(name)?;
    Ok(text)
}

// Returns the link of a slot.
fn slot_link(alloc: Global, slot: &ShardLink<'_>) -> Result<PbLinkBuf, AllocError>
    ensures { IfOk result (λ link. parts_of_link_buf link ≡ link_of_slot (slot_parts slot.now)) }
{
    let name = slot_name(alloc, slot.slot, slot.name)?;
    Ok(PbLinkBuf {
        hash: slot.cid,
        name: Some(name),
        tsize: slot.tsize,
    })
}

// Returns the links of these slots.
fn slot_links(alloc: Global, slots: &[ShardLink<'_>]) -> Result<Vec<PbLinkBuf>, AllocError>
    ensures { IfOk result (λ links. map parts_of_link_buf links.items
        ≡ map link_of_slot (map slot_parts slots.now)) }
{
    let mut links = Vec::with_capacity(alloc, slots.len())?;
    for slot in slots {
        links.push(slot_link(alloc, slot)?)?;
    }
    Ok(links)
}

// Makes the node of a shard with these slots.
pub(crate) fn make_shard(
    alloc: Global,
    version: Version,
    attributes: &Attributes,
    slots: &[ShardLink<'_>],
) -> Result<NodeBlock, BuildError>
    requires { AreSlots 0 (map slot_parts slots.now) }
    ensures exact { IfOk result (λ block. made block
        ≡ shard_node version attributes.now (map slot_parts slots.now)) }
    ensures shard { IfOk result (λ block. IsShard digest_by (link_of block.cid)
        (map slot_parts slots.now)) }
    ensures fault { IfErr result (IsNodeFault attributes.now
        (shard_node version attributes.now (map slot_parts slots.now))) }
{
    let bits = match bit_field(alloc, slots) {
        Ok(bits) => bits,
        Err(_) => return Err(BuildError::Memory),
    };
    let message = message_with(
        alloc,
        attributes,
        DataType::HamtShard,
        Some(&bits),
        Some(MURMUR3_X64_64),
        Some(FANOUT),
    );
    let named = PbNodeBuf {
        links: match slot_links(alloc, slots) {
            Ok(links) => links,
            Err(_) => return Err(BuildError::Memory),
        },
        data: None,
    };
    let node = match named.as_node(alloc) {
        Ok(node) => node,
        Err(_) => return Err(BuildError::Memory),
    };
    make_node(alloc, version, &message, node.links)
}
