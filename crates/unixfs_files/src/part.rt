//! The part of a file that is in one block.

ghost use Rattle.std.specs.Prelude.{◌≡◌, ◌⊎◌, ◌+◌, ◌<◌, ◌≤◌, ◌^◌, Ok, Err, IfOk, IsOkAnd, MatchResult, length, sum};
ghost use Rattle.ipld_cid.specs.LinkOf.{link_of};
ghost use Rattle.ipld_block.specs.Digest.{digest_by};
ghost use Rattle.unixfs.specs.Files.{IsBlockOf, IsFileOf, IsPart};
ghost use Rattle.unixfs.specs.Nodes.{node_parts};
ghost use Rattle.unixfs_files.specs.Parts as parts;
ghost use Rattle.unixfs_files.specs.Parts.{Part, part_of, within, IsPartIn, PartFault};

use crate::error::PartError;
use dag_pb::PbLink;
use ipld_block::verify;
use ipld_cid::{Cid, DAG_PB, RAW};
use std::alloc::Global;
use unixfs::{DataType, UnixFsNode, read_unixfs};

// A part of a file: its own bytes, and its children.
#[derive(Drop)]
pub(crate) struct FilePart<'a> {
    pub(crate) head: &'a [u8],
    pub(crate) links: Vec<PbLink<'a>>,
    // The size of each child.
    pub(crate) sizes: Vec<u64>,
    // The size of the part, with its children.
    pub(crate) size: u64,
}

// Returns the sum of these numbers, or `None` if it is 2^64 or more.
fn total(head: u64, sizes: &[u64]) -> Option<u64>
    ensures { result ≡ within (head + sum sizes.now) }
{
    let mut total = head;
    let mut rest = sizes;
    while let Some((size, others)) = rest.split_first() {
        total = total.checked_add(*size)?;
        rest = others;
    }
    Some(total)
}

// Returns the part of a file that a node is.
#[tactic(auto, unfolding(crate::specs::Parts::part_in))]
fn part_in<'a>(node: UnixFsNode<'a>) -> Result<FilePart<'a>, PartError>
    ensures found { IfOk result (λ part. IsFileOf (node_parts node.entry).links
        (node_parts node.entry).message (part_of part).head (part_of part).children part.size) }
    ensures only { (part : Part) → IsFileOf (node_parts node.entry).links
        (node_parts node.entry).message part.head part.children part.size → part.size < 2 ^ 64
        → IsOkAnd result (λ found. part_of found ≡ part) }
    ensures counted { IfOk result (λ part. length part.links.items ≡ length part.sizes.items) }
    ensures exact { MatchResult result
        (λ part. parts.part_in (node_parts node.entry) ≡ Ok (part_of part))
        (λ error. parts.part_in (node_parts node.entry) ≡ Err error) }
{
    match node.data.data_type {
        DataType::Raw | DataType::File => {}
        other => return Err(PartError::NotFile(other)),
    }
    if node.links.len() != node.data.blocksizes.len() {
        return Err(PartError::SizeCount);
    }
    let head = node.data.data.unwrap_or(&[]);
    let Some(size) = total(head.len() as u64, &node.data.blocksizes) else {
        return Err(PartError::TooLarge);
    };
    match node.data.filesize {
        Some(filesize) if filesize != size => return Err(PartError::FileSize),
        _ => {}
    }
    Ok(FilePart {
        head,
        links: node.links,
        sizes: node.data.blocksizes,
        size,
    })
}

// Reads the part of a file in a block of this codec.
#[tactic(auto, unfolding(crate::specs::Parts::read_part))]
fn read_part<'a>(alloc: Global, codec: u64, block: &'a [u8]) -> Result<FilePart<'a>, PartError>
    ensures found { IfOk result (λ part. IsPartIn codec block.entry.now (part_of part)) }
    ensures only { (part : Part) → IsPartIn codec block.entry.now part → part.size < 2 ^ 64
        → MatchResult result (λ found. part_of found ≡ part) (λ error. error ≡ PartError.Memory) }
    ensures counted { IfOk result (λ part. length part.links.items ≡ length part.sizes.items) }
    ensures within { IfOk result (λ part. length part.head.now ≤ length block.entry.now) }
    ensures exact { MatchResult result
        (λ part. parts.read_part codec block.entry.now ≡ Ok (part_of part))
        (λ error. (error ≡ PartError.Memory) ⊎ (parts.read_part codec block.entry.now ≡ Err error)) }
{
    match codec {
        RAW => Ok(FilePart {
            head: block,
            links: Vec::new(alloc),
            sizes: Vec::new(alloc),
            size: block.len() as u64,
        }),
        DAG_PB => match read_unixfs(alloc, block) {
            Ok(node) => part_in(node),
            Err(error) => Err(PartError::from(error)),
        },
        other => Err(PartError::Codec(other)),
    }
}

// Reads the part of a file in the block of a CID, after the block is verified.
pub(crate) fn verified_part<'a>(
    alloc: Global,
    cid: &Cid,
    block: &'a [u8],
) -> Result<FilePart<'a>, PartError>
    ensures found { IfOk result (λ part. IsPart digest_by (link_of cid.now) part.head.now
        (part_of part).children part.size) }
    ensures only { (part : Part) → IsBlockOf digest_by (link_of cid.now) block.entry.now
        → IsPartIn (link_of cid.now).codec block.entry.now part → part.size < 2 ^ 64
        → MatchResult result (λ found. part_of found ≡ part) (λ error. error ≡ PartError.Memory) }
    ensures counted { IfOk result (λ part. length part.links.items ≡ length part.sizes.items) }
    ensures within { IfOk result (λ part. length part.head.now ≤ length block.entry.now) }
    ensures exact { MatchResult result
        (λ part. IsBlockOf digest_by (link_of cid.now) block.entry.now
        × (parts.read_part (link_of cid.now).codec block.entry.now ≡ Ok (part_of part)))
        (PartFault (link_of cid.now) block.entry.now) }
{
    match verify(cid, block) {
        Ok(()) => read_part(alloc, cid.codec(), block),
        Err(error) => Err(PartError::Verify(error)),
    }
}
