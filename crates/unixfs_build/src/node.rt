//! The nodes and the leaves of a file.

ghost use Rattle.std.specs.Prelude.{◌≡◌, ◌++◌, ◌∷◌, [], ℕ, List, length, map, sum, option_map, Some, IfOk, IfErr, MatchOption};
ghost use Rattle.ipld_cid.specs.LinkOf.{link_of};
ghost use Rattle.dag_pb.specs.Views.{parts_of_link};
ghost use Rattle.unixfs.specs.Nodes.{IsParsed};
ghost use Rattle.unixfs_build.specs.Blocks as blocks;
ghost use Rattle.unixfs_build.specs.Blocks.{Built, sha_link, link_to, sizes_of, totals_of, file_message, file_block, node_of, leaf_of, Holds};
ghost use Rattle.unixfs_build.specs.Faults.{AreTooLarge, IsLinkFault, IsEncodeFault, IsBlockFault};
ghost use Rattle.unixfs_build.specs.Views.{built, block_of, LeadTo};

use crate::block::{BuiltPart, FileBlock};
use crate::encode::{encode_block, encode_message};
use crate::error::BuildError;
use crate::layout::{Attributes, Layout};
use dag_pb::{PbLink, PbNode};
use ipld_block::cid_of;
use ipld_cid::{Cid, DAG_PB, RAW, Version};
use std::alloc::{AllocError, Global};
use unixfs::{Data, DataType};

// The links of a node, and the size of each part to which they lead. How many bytes of the file are
// in the node and below it, and how many bytes the blocks below it have.
#[derive(Drop)]
pub(crate) struct Children<'a> {
    pub(crate) links: Vec<PbLink<'a>>,
    pub(crate) sizes: Vec<u64>,
    pub(crate) size: u64,
    pub(crate) total: u64,
}

// Returns the link of this name to a part.
fn link_named<'a>(name: &'a str, part: &BuiltPart) -> PbLink<'a>
    ensures { parts_of_link result ≡ record {
      hash = link_of part.now.cid;
      name = Some name.now;
      tsize = Some part.now.total;
    } }
{
    PbLink {
        hash: part.cid,
        name: Some(name),
        tsize: Some(part.total),
    }
}

// Returns the links of this name to these parts and to the last one.
fn links_to<'a>(
    alloc: Global,
    name: &'a str,
    parts: &[BuiltPart],
    last: &BuiltPart,
) -> Result<Vec<PbLink<'a>>, AllocError>
    requires { name.now ≡ [] }
    ensures { IfOk result (λ links. map parts_of_link links.items
        ≡ map link_to (map built parts.now ++ built last.now ∷ [])) }
{
    let mut links = Vec::with_capacity(alloc, parts.len() + 1)?;
    for part in parts {
        if links.push(link_named(name, part)).is_err() {
            return Err(AllocError);
        }
    }
    if links.push(link_named(name, last)).is_err() {
        return Err(AllocError);
    }
    Ok(links)
}

// Returns the sizes of these parts and of the last one.
fn sizes_with(alloc: Global, parts: &[BuiltPart], last: &BuiltPart) -> Result<Vec<u64>, AllocError>
    ensures { IfOk result (λ sizes. sizes.items
        ≡ sizes_of (map built parts.now ++ built last.now ∷ [])) }
{
    let mut sizes = Vec::with_capacity(alloc, parts.len() + 1)?;
    for part in parts {
        sizes.push(part.size)?;
    }
    sizes.push(last.size)?;
    Ok(sizes)
}

// Returns how many bytes these parts and the last one have, and how many their blocks have. Returns
// `None` if either is 2^64 or more.
fn sums(parts: &[BuiltPart], last: &BuiltPart) -> Option<(u64, u64)>
    ensures { MatchOption result (AreTooLarge 0 (map built parts.now ++ built last.now ∷ []))
        (λ sums. (sums.0 ≡ sum (sizes_of (map built parts.now ++ built last.now ∷ [])))
        × (sums.1 ≡ sum (totals_of (map built parts.now ++ built last.now ∷ [])))) }
{
    let (mut size, mut total) = (last.size, last.total);
    for part in parts {
        let Some(more) = size.checked_add(part.size) else {
            return None;
        };
        let Some(longer) = total.checked_add(part.total) else {
            return None;
        };
        size = more;
        total = longer;
    }
    Some((size, total))
}

impl<'a> Children<'a> {
    // Returns no links, of a node with this many bytes of the file.
    fn none(alloc: Global, size: u64) -> Children<'a>
        ensures { LeadTo size [] result }
    {
        Children {
            links: Vec::new(alloc),
            sizes: Vec::new(alloc),
            size,
            total: 0,
        }
    }

    // Returns the links to these parts and to the last one.
    fn over(
        alloc: Global,
        name: &'a str,
        parts: &[BuiltPart],
        last: &BuiltPart,
    ) -> Result<Children<'a>, BuildError>
        requires { name.now ≡ [] }
        ensures leads { IfOk result (LeadTo 0 (map built parts.now ++ built last.now ∷ [])) }
        ensures fault { IfErr result
            (IsLinkFault 0 (map built parts.now ++ built last.now ∷ [])) }
    {
        let Some((size, total)) = sums(parts, last) else {
            return Err(BuildError::TooLarge);
        };
        Ok(Children {
            links: links_to(alloc, name, parts, last)?,
            sizes: sizes_with(alloc, parts, last)?,
            size,
            total,
        })
    }
}

// Returns the CID of a node.
pub(crate) fn node_cid(version: Version, block: &[u8]) -> Cid
    ensures { link_of result ≡ sha_link version 112 block.now }
{
    let cid = cid_of(DAG_PB, block);
    match version {
        Version::V0 => match Cid::new_v0(*cid.hash()) {
            Ok(cid) => cid,
            Err(_) => unreachable!(),
        },
        Version::V1 => cid,
    }
}

// Returns bytes, or `None` if there are none.
fn if_any(bytes: &[u8]) -> Option<&[u8]>
    ensures { option_map (λ bytes. bytes.now) result ≡ blocks.if_any bytes.now }
{
    if bytes.is_empty() { None } else { Some(bytes) }
}

// Encodes the block of a node.
fn encode(
    alloc: Global,
    attributes: &Attributes,
    head: &[u8],
    children: Children<'_>,
) -> Result<Vec<u8>, BuildError>
    requires { (parts : List Built) × LeadTo (length head.now) parts children }
    ensures exact { (parts : List Built) → LeadTo (length head.now) parts children.entry
        → IfOk result (λ block. block.items ≡ file_block attributes.now head.now parts) }
    ensures parsed { (parts : List Built) → LeadTo (length head.now) parts children.entry
        → IfOk result (λ block. IsParsed block.items (map link_to parts) (file_message attributes.now head.now parts)) }
    ensures fault { IfErr result (IsEncodeFault attributes.now) }
{
    let message = Data {
        data_type: DataType::File,
        data: if_any(head),
        filesize: Some(children.size),
        blocksizes: children.sizes,
        hash_type: None,
        fanout: None,
        mode: attributes.mode,
        mtime: attributes.mtime,
    };
    let message = match encode_message(alloc, &message) {
        Ok(message) => message,
        Err(error) => return Err(error),
    };
    let node = PbNode {
        links: children.links,
        data: Some(&message),
    };
    match encode_block(alloc, &node) {
        Ok(block) => Ok(block),
        Err(error) => Err(error),
    }
}

// Makes the node that has these bytes of the file and these links.
fn make_node(
    alloc: Global,
    version: Version,
    attributes: &Attributes,
    head: &[u8],
    children: Children<'_>,
) -> Result<FileBlock, BuildError>
    requires { (parts : List Built) × LeadTo (length head.now) parts children }
    ensures exact { (parts : List Built) → LeadTo (length head.now) parts children.entry
        → IfOk result (λ block. block_of block ≡ node_of version attributes.now head.now parts) }
    ensures holds { (parts : List Built) → LeadTo (length head.now) parts children.entry
        → IfOk result (λ block. Holds (node_of version attributes.now head.now parts).part head.now parts) }
    ensures fault { (parts : List Built) → LeadTo (length head.now) parts children.entry
        → IfErr result (IsBlockFault attributes.now (node_of version attributes.now head.now parts)) }
{
    let (size, total) = (children.size, children.total);
    let data = match encode(alloc, attributes, head, children) {
        Ok(data) => data,
        Err(error) => return Err(error),
    };
    let Some(total) = total.checked_add(data.len() as u64) else {
        return Err(BuildError::TooLarge);
    };
    Ok(FileBlock {
        cid: node_cid(version, &data),
        data,
        size,
        total,
    })
}

// Makes the node over these parts and the last one.
pub(crate) fn make_parent(
    alloc: Global,
    version: Version,
    attributes: &Attributes,
    parts: &[BuiltPart],
    last: &BuiltPart,
) -> Result<FileBlock, BuildError>
    ensures exact { IfOk result (λ block. block_of block
        ≡ node_of version attributes.now [] (map built parts.now ++ built last.now ∷ [])) }
    ensures holds { IfOk result (λ block. Holds (block_of block).part [] (map built parts.now ++ built last.now ∷ [])) }
    ensures fault { IfErr result (IsBlockFault attributes.now
        (node_of version attributes.now [] (map built parts.now ++ built last.now ∷ []))) }
{
    let children = match Children::over(alloc, "", parts, last) {
        Ok(children) => children,
        Err(error) => return Err(error),
    };
    make_node(alloc, version, attributes, &[], children)
}

// Makes the leaf of a chunk.
pub(crate) fn make_leaf(
    alloc: Global,
    layout: &Layout,
    attributes: &Attributes,
    chunk: &[u8],
) -> Result<FileBlock, BuildError>
    ensures exact { IfOk result (λ block. block_of block ≡ leaf_of layout.now attributes.now chunk.now) }
    ensures holds { IfOk result (λ block. Holds (block_of block).part chunk.now []) }
    ensures fault { IfErr result (IsBlockFault attributes.now (leaf_of layout.now attributes.now chunk.now)) }
{
    let len = chunk.len() as u64;
    if layout.is_raw_leaf(attributes) {
        return Ok(FileBlock {
            cid: cid_of(RAW, chunk),
            data: Vec::from_slice(alloc, chunk)?,
            size: len,
            total: len,
        });
    }
    let children = Children::none(alloc, len);
    make_node(alloc, layout.version, attributes, chunk, children)
}
