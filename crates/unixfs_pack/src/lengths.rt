//! The lengths of blocks whose links aren't known yet. A link's length follows from the form of its
//! CID, its name and its number of bytes, and a message's from its numbers.

use ipld_cid::{ByteBuffer, Version};
use unixfs_build::{Attributes, Layout};

// The lengths of the CIDs of nodes, and of raw leaves. A SHA2-256 digest has 32 bytes.
const V0_LEN: u64 = 34;

const V1_LEN: u64 = 36;

// The length of a field of type varint before its number: the key.
const KEY_LEN: u64 = 1;

// The length of the field that says which type a message has.
const TYPE_LEN: u64 = 2;

// The length of the fixed number of nanoseconds, with its key.
const NANOSECONDS_LEN: u64 = 5;

// A part of a file whose block isn't made yet.
#[derive(Clone, Copy)]
pub(crate) struct PlannedPart {
    // The number of bytes of its CID.
    pub(crate) cid_len: u64,
    // How many bytes of the file it has.
    pub(crate) size: u64,
    // The number of bytes of its block.
    pub(crate) block_len: u64,
    // The number of bytes of its block, with all blocks below it.
    pub(crate) total: u64,
}

// Returns the length of a varint.
fn varint_len(number: u64) -> u64 {
    let mut varint = ByteBuffer::<10>::new();
    varint.push_varint(number);
    varint.len() as u64
}

// Returns the length of a field that has a number.
fn number_len(number: u64) -> u64 {
    varint_len(number).saturating_add(KEY_LEN)
}

// Returns the length of a field that has this many bytes.
fn bytes_len(len: u64) -> u64 {
    number_len(len).saturating_add(len)
}

// Returns the length of the fields of the permissions and the time.
fn attributes_len(attributes: &Attributes) -> u64 {
    let mode = match attributes.mode {
        Some(mode) => number_len(u64::from(mode)),
        None => 0,
    };
    let mtime = match attributes.mtime {
        Some(mtime) => {
            let fraction = if mtime.nanoseconds == 0 {
                0
            } else {
                NANOSECONDS_LEN
            };
            bytes_len(number_len(mtime.seconds.cast_unsigned()).saturating_add(fraction))
        }
        None => 0,
    };
    mode.saturating_add(mtime)
}

// Returns the length of the CID of a node.
fn node_cid_len(version: Version) -> u64 {
    match version {
        Version::V0 => V0_LEN,
        Version::V1 => V1_LEN,
    }
}

// Returns the length of the link to a part.
fn link_len(part: &PlannedPart) -> u64 {
    // The name is empty.
    let name = bytes_len(0);
    let content = bytes_len(part.cid_len)
        .saturating_add(name)
        .saturating_add(number_len(part.total));
    bytes_len(content)
}

// Returns the leaf of a chunk of this length.
pub(crate) fn planned_leaf(layout: &Layout, attributes: &Attributes, len: u64) -> PlannedPart {
    if layout.raw_leaves && *attributes == Attributes::default() {
        return PlannedPart {
            cid_len: V1_LEN,
            size: len,
            block_len: len,
            total: len,
        };
    }
    let content = if len == 0 { 0 } else { bytes_len(len) };
    let message = content
        .saturating_add(number_len(len))
        .saturating_add(TYPE_LEN)
        .saturating_add(attributes_len(attributes));
    let block_len = bytes_len(message);
    PlannedPart {
        cid_len: node_cid_len(layout.version),
        size: len,
        block_len,
        total: block_len,
    }
}

// Returns the node over so many equal parts, and one more after them.
pub(crate) fn planned_node(
    version: Version,
    attributes: &Attributes,
    count: u64,
    part: &PlannedPart,
    last: &PlannedPart,
) -> PlannedPart {
    let size = count.saturating_mul(part.size).saturating_add(last.size);
    let total = count.saturating_mul(part.total).saturating_add(last.total);
    let sizes = count
        .saturating_mul(number_len(part.size))
        .saturating_add(number_len(last.size));
    let links = count
        .saturating_mul(link_len(part))
        .saturating_add(link_len(last));
    let message = sizes
        .saturating_add(number_len(size))
        .saturating_add(TYPE_LEN)
        .saturating_add(attributes_len(attributes));
    let block_len = links.saturating_add(bytes_len(message));
    PlannedPart {
        cid_len: node_cid_len(version),
        size,
        block_len,
        total: total.saturating_add(block_len),
    }
}
