//! What a block says of a file, a folder or a symbolic link.

ghost use Rattle.std.specs.Prelude.{◌≡◌, ◌⊎◌, ◌≤◌, ◌+◌, sum, option_map, MatchResult};
ghost use Rattle.std.specs.Str.{IsUtf8};
ghost use Rattle.ipld_cid.specs.Bytes.{read_cid};
ghost use Rattle.ipld_cid.specs.LinkOf.{link_of};
ghost use Rattle.unixfs.specs.Data.{code_of};
ghost use Rattle.unixfs.specs.Views.{parts_of, parts_of_time};
ghost use Rattle.unixfs_files.specs.Parts.{within};
ghost use Rattle.unixfs_folders.specs.SymlinkTargets as targets;
ghost use Rattle.kombilad_c.specs.Fill.{IsUntouched};
ghost use Rattle.kombilad_c.specs.Node.{raw_row, row_of, size_of, seconds_of, nanoseconds_of, target_of, number_if, ReadsNode, ReadsBlock};
ghost use Rattle.kombilad_c.specs.Status as numbers;

use crate::fill::fill;
use crate::status::{FILE_CODEC, OK, cid_status, node_place, node_status, verify_status};
use ipld_block::verify;
use ipld_cid::{Cid, DAG_PB, RAW};
use std::alloc::Global;
use std::str;
use unixfs::{Data, DataType, UnixTime, read_unixfs};
use unixfs_folders::stays_inside;

// The fields that a node has.
const HAS_SIZE: u32 = 1;

pub(crate) const HAS_MODE: u32 = 2;

pub(crate) const HAS_TIME: u32 = 4;

/// What a block says of a file, a folder or a symbolic link, for C. A field that it doesn't have is
/// 0.
#[repr(C)]
#[derive(Clone, Copy)]
pub struct NodeRow {
    /// The number of the type in the message. A raw block has that of `Raw`.
    pub kind: u32,
    /// The sum of 1 if there is a size, 2 if there are permissions, and 4 if there is a time.
    pub fields: u32,
    /// The number of bytes of the file.
    pub size: u64,
    /// When the content was last changed: the seconds since the beginning of 1970.
    pub seconds: i64,
    /// The nanoseconds after these seconds.
    pub nanoseconds: u32,
    /// The permissions.
    pub mode: u32,
}

impl NodeRow {
    // Returns the row of a raw block with this number of bytes.
    fn of_raw(len: usize) -> Self
        ensures { result ≡ raw_row len }
    {
        NodeRow {
            kind: 0,
            fields: HAS_SIZE,
            size: len as u64,
            seconds: 0,
            nanoseconds: 0,
            mode: 0,
        }
    }

    // Returns the row of a message.
    fn of(message: &Data<'_>) -> Self
        ensures { result ≡ row_of (parts_of message.now) }
    {
        NodeRow {
            kind: number_of(message.data_type),
            fields: number_if(HAS_SIZE, size(message).is_some())
                + number_if(HAS_MODE, message.mode.is_some())
                + number_if(HAS_TIME, message.mtime.is_some()),
            size: size(message).unwrap_or(0),
            seconds: seconds(message.mtime),
            nanoseconds: nanoseconds(message.mtime),
            mode: message.mode.unwrap_or(0),
        }
    }
}

// Returns the sum of these numbers, or `None` if it is 2^64 or more.
fn total(first: u64, others: &[u64]) -> Option<u64>
    ensures { result ≡ within (first + sum others.now) }
{
    let mut total = first;
    for number in others {
        match total.checked_add(*number) {
            Some(more) => total = more,
            None => return None,
        }
    }
    Some(total)
}

// Returns the number of bytes of a file: the one that the node states, or otherwise that of its own
// bytes and those below its links, if it is less than 2^64.
fn size(message: &Data<'_>) -> Option<u64>
    ensures { result ≡ size_of (parts_of message.now) }
{
    match message.filesize {
        Some(size) => Some(size),
        None => match message.data_type {
            DataType::Raw | DataType::File => {
                let own = message.data.unwrap_or(&[]);
                total(own.len() as u64, &message.blocksizes)
            }
            _ => None,
        },
    }
}

// Returns the number of a type.
fn number_of(data_type: DataType) -> u32
    ensures { result ≡ code_of data_type }
{
    match data_type {
        DataType::Raw => 0,
        DataType::Directory => 1,
        DataType::File => 2,
        DataType::Metadata => 3,
        DataType::Symlink => 4,
        DataType::HamtShard => 5,
    }
}

// Returns the number if something is so, and otherwise 0.
fn number_if(number: u32, is_so: bool) -> u32
    ensures exact { result ≡ number_if number is_so }
    ensures at_most { result ≤ number }
{
    if is_so { number } else { 0 }
}

// Returns the seconds of a time, or 0 without one.
fn seconds(time: Option<UnixTime>) -> i64
    ensures { result ≡ seconds_of (option_map parts_of_time time) }
{
    match time {
        Some(time) => time.seconds,
        None => 0,
    }
}

// Returns the nanoseconds of a time, or 0 without one.
fn nanoseconds(time: Option<UnixTime>) -> u32
    ensures { result ≡ nanoseconds_of (option_map parts_of_time time) }
{
    match time {
        Some(time) => time.nanoseconds,
        None => 0,
    }
}

// Returns the target of a symbolic link, and of others nothing.
fn target<'a>(message: &Data<'a>) -> &'a [u8]
    ensures { result.now ≡ target_of (parts_of message.now) }
{
    match message.data_type {
        DataType::Symlink => message.data.unwrap_or(&[]),
        _ => &[],
    }
}

// Reads the node of a verified block.
fn read_node(
    alloc: Global,
    codec: u64,
    block: &[u8],
    node: &mut NodeRow,
    content: &mut [u8],
    needed: &mut usize,
    place: &mut usize,
) -> u32
    ensures { ReadsNode codec block.now result
        (record { before = node.old; after = node.new })
        (record { before = content.old; after = content.new })
        (record { before = needed.old; after = needed.new })
        (record { before = place.old; after = place.new }) }
{
    match codec {
        RAW => {
            *node = NodeRow::of_raw(block.len());
            *needed = 0;
            OK
        }
        DAG_PB => match read_unixfs(alloc, block) {
            Ok(found) => {
                *node = NodeRow::of(&found.data);
                fill(target(&found.data), content, needed)
            }
            Err(error) => {
                *place = node_place(error);
                node_status(error)
            }
        },
        _ => FILE_CODEC,
    }
}

// Reads the node of the block, if it is that of the CID.
fn read_block(
    alloc: Global,
    cid: &Cid,
    block: &[u8],
    node: &mut NodeRow,
    target: &mut [u8],
    needed: &mut usize,
    place: &mut usize,
) -> u32
    ensures { ReadsBlock (link_of cid.now) block.now result
        (record { before = node.old; after = node.new })
        (record { before = target.old; after = target.new })
        (record { before = needed.old; after = needed.new })
        (record { before = place.old; after = place.new }) }
{
    match verify(cid, block) {
        Ok(()) => read_node(alloc, cid.codec(), block, node, target, needed, place),
        Err(error) => verify_status(error),
    }
}

/// Reads what the block of the CID that the bytes encode says of a file, a folder or a symbolic
/// link. Copies the target of a symbolic link to the buffer.
#[unsafe(no_mangle)]
pub extern "C" fn kombilad_unixfs_node(
    alloc: Global,
    cid: &[u8],
    block: &[u8],
    node: &mut NodeRow,
    target: &mut [u8],
    needed: &mut usize,
    place: &mut usize,
) -> u32
    ensures { MatchResult (read_cid 64 cid.now)
        (λ link. ReadsBlock link block.now result
        (record { before = node.old; after = node.new })
        (record { before = target.old; after = target.new })
        (record { before = needed.old; after = needed.new })
        (record { before = place.old; after = place.new }))
        (λ error. (result ≡ numbers.cid_status error) × (node.new ≡ node.old)
        × IsUntouched target.old target.new needed.old needed.new × (place.new ≡ place.old)) }
{
    match Cid::try_from(cid) {
        Ok(cid) => read_block(alloc, &cid, block, node, target, needed, place),
        Err(error) => cid_status(error),
    }
}

/// Returns 1 if a symbolic link with this target leads to nothing outside of a folder, from a folder
/// this many levels below it, and otherwise 0.
#[unsafe(no_mangle)]
pub extern "C" fn kombilad_symlink_stays_inside(target: &[u8], depth: usize) -> u32
    ensures { (IsUtf8 target.now × (result ≡ number_if 1 (targets.stays_inside depth target.now)))
        ⊎ ((IsUtf8 target.now → ⊥) × (result ≡ 0)) }
{
    match str::from_utf8(target) {
        Ok(target) => number_if(1, stays_inside(target, depth)),
        Err(_) => 0,
    }
}
