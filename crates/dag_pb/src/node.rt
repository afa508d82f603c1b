//! Nodes: the message `PBNode`.

ghost use Rattle.std.specs.Prelude.{◌≡◌, ◌⊎◌, ◌++◌, ◌≤◌, [], length, map, IfOk, IfErr, IsOk, OnOk, OnErr, Ok, Err, MatchResult};
ghost use Rattle.ipld_cid.specs.LinkOf.{link_of};
ghost use Rattle.dag_pb.specs.Node.{NodeParts, IsNode};
ghost use Rattle.dag_pb.specs.NodeReading.{read_node, links_found, hashes, joined, with_field};
ghost use Rattle.dag_pb.specs.Views.{part_of, parts_of_node, IsLinkField, IsOutOfMemory};

use crate::error::PbError;
use crate::link::PbLink;
use crate::reader::{NodeField, Stage, read_part};
use ipld_cid::Cid;
use std::alloc::{AllocError, Global};

/// A node of DAG-PB: the links of a block, and its data. Names and data are borrowed from the
/// block.
#[derive(Drop)]
pub struct PbNode<'a> {
    /// The links, in the order of the block.
    pub links: Vec<PbLink<'a>>,
    /// The data, if the block has data. Data of no bytes are not the same as no data. The codec
    /// does not define their meaning.
    pub data: Option<&'a [u8]>,
}

impl<'a> PbNode<'a> {
    // Adds a field.
    #[inline(always)]
    fn add(&mut self, part: &NodeField<'a>) -> Result<(), AllocError>
        ensures added { OnOk result ((rest : NodeParts)
            → joined (parts_of_node self.old) (with_field (part_of part.now) rest) ≡ joined
            (parts_of_node self.new) rest) }
        ensures full { OnErr result (IsLinkField part.now) }
    {
        match part {
            NodeField::Link(found) => {
                let link = PbLink {
                    hash: found.link.hash,
                    name: found.link.name,
                    tsize: found.link.tsize,
                };
                match self.links.push(link) {
                    Ok(()) => Ok(()),
                    Err(_) => Err(AllocError),
                }
            }
            NodeField::Data(content) => {
                self.data = Some(*content);
                Ok(())
            }
        }
    }
}

// Reads the node of a block. The public function has more clauses.
fn collect_node<'a>(alloc: Global, bytes: &'a [u8]) -> Result<PbNode<'a>, PbError>
    ensures exact { MatchResult result
        (λ node. read_node bytes.entry.now ≡ Ok (parts_of_node node))
        (λ error. IsOutOfMemory error ⊎ (read_node bytes.entry.now ≡ Err error)) }
    ensures unlinked { (n : NodeParts) → read_node bytes.entry.now ≡ Ok n → n.links ≡ []
        → IsOk result }
{
    let mut stage = Stage::Nothing;
    let mut rest = bytes;
    let mut node = PbNode {
        links: Vec::new(alloc),
        data: None,
    };
    while !rest.is_empty() {
        match read_part(stage, rest) {
            Ok((part, next, after)) => {
                node.add(&part)?;
                stage = next;
                rest = after;
            }
            Err(fault) => return Err(fault.in_block(bytes.len())),
        }
    }
    Ok(node)
}

/// Decodes the node of a block, which is all of the bytes.
///
/// It reads the bytes once, in a loop. It allocates only the vector of the links.
///
/// # Errors
///
/// `Memory` if an allocation fails. It is never returned for a node without links. Otherwise the
/// first error from the left, with the offset of its field.
pub fn read_node<'a>(alloc: Global, bytes: &'a [u8]) -> Result<PbNode<'a>, PbError>
    ensures found { IfOk result (λ node. IsNode (parts_of_node node) bytes.entry.now) }
    ensures only { (n : NodeParts) → IsNode n bytes.entry.now
        → MatchResult result (λ node. parts_of_node node ≡ n) IsOutOfMemory }
    ensures exact { MatchResult result
        (λ node. read_node bytes.entry.now ≡ Ok (parts_of_node node))
        (λ error. IsOutOfMemory error ⊎ (read_node bytes.entry.now ≡ Err error)) }
    ensures unlinked { (n : NodeParts) → IsNode n bytes.entry.now → n.links ≡ [] → IsOk result }
    ensures offset { IfErr result (λ error. error.offset ≤ length bytes.entry.now) }
{
    collect_node(alloc, bytes)
}

// Adds the hash of a field, if it is a link.
#[inline(always)]
fn push_hash(links: &mut Vec<Cid>, part: &NodeField<'_>) -> Result<(), AllocError>
    ensures added { OnOk result ((rest : NodeParts) → map link_of links.old.items ++ hashes
        (with_field (part_of part.now) rest)
        ≡ map link_of links.new.items ++ hashes rest) }
    ensures full { OnErr result (IsLinkField part.now) }
{
    match part {
        NodeField::Link(found) => {
            links.push(found.link.hash)?;
            Ok(())
        }
        NodeField::Data(_) => Ok(()),
    }
}

// Reads the links of a block. The public function has more clauses.
fn collect_links(alloc: Global, bytes: &[u8]) -> Result<Vec<Cid>, PbError>
    ensures exact { MatchResult result
        (λ links. links_found bytes.now ≡ Ok (map link_of links.items))
        (λ error. IsOutOfMemory error ⊎ (links_found bytes.now ≡ Err error)) }
    ensures unlinked { (n : NodeParts) → read_node bytes.now ≡ Ok n → n.links ≡ [] → IsOk result }
{
    let mut stage = Stage::Nothing;
    let mut rest = bytes;
    let mut links = Vec::new(alloc);
    while !rest.is_empty() {
        match read_part(stage, rest) {
            Ok((part, next, after)) => {
                push_hash(&mut links, &part)?;
                stage = next;
                rest = after;
            }
            Err(fault) => return Err(fault.in_block(bytes.len())),
        }
    }
    Ok(links)
}

/// Returns the links of a block, in its order and with repeats. Names and data are read, and not
/// kept.
///
/// It reads the bytes once, in a loop, and allocates only the vector of the links.
///
/// # Errors
///
/// Those of [`read_node`]: the same error for the same bytes, unless an allocation fails.
pub fn links_of_block(alloc: Global, bytes: &[u8]) -> Result<Vec<Cid>, PbError>
    ensures found { IfOk result (λ links. (n : NodeParts) × IsNode n bytes.now
        × (map link_of links.items ≡ hashes n)) }
    ensures only { (n : NodeParts) → IsNode n bytes.now
        → MatchResult result (λ links. map link_of links.items ≡ hashes n) IsOutOfMemory }
    ensures exact { MatchResult result
        (λ links. links_found bytes.now ≡ Ok (map link_of links.items))
        (λ error. IsOutOfMemory error ⊎ (links_found bytes.now ≡ Err error)) }
    ensures unlinked { (n : NodeParts) → IsNode n bytes.now → n.links ≡ [] → IsOk result }
    ensures offset { IfErr result (λ error. error.offset ≤ length bytes.now) }
{
    collect_links(alloc, bytes)
}
