//! Writing a node as a block.

ghost use Rattle.std.specs.Prelude.{◌≡◌, ◌⊎◌, ◌<◌, ◌≤◌, ◌+◌, ◌^◌, ◌++◌, length, map, option_map, Some, ℕ, IfOk, OnOk, MatchResult, Ok, Err};
ghost use Rattle.pb_wire.specs.Wire.{IsContentOf, IsNumberOf};
ghost use Rattle.dag_pb.specs.Node.{IsName, IsLink, IsLinks, IsNode};
ghost use Rattle.dag_pb.specs.NodeReading as reading;
ghost use Rattle.dag_pb.specs.Views.{parts_of_link, parts_of_node};
ghost use Rattle.dag_pb.specs.Writing as writing;

use crate::encode_error::PbEncodeError;
use crate::link::{HASH, NAME, PbLink, TSIZE};
use crate::node::PbNode;
use crate::reader::{DATA, LINKS};
use pb_wire::{
    content_head_len, content_len, number_len, push_content, push_content_head, push_number,
};
use std::alloc::{AllocError, Global};
use std::cmp::Ordering;

// Returns whether the name of a link is less than that of another, byte by byte.
#[tactic(auto, unfolding(crate::specs::Writing::precedes))]
fn precedes(link: &PbLink<'_>, other: &PbLink<'_>) -> bool
    ensures { result ≡ writing.precedes (parts_of_link link.now) (parts_of_link other.now) }
{
    let name = link.name.unwrap_or("").as_bytes();
    name.cmp(other.name.unwrap_or("").as_bytes()) == Ordering::Less
}

// Returns the index of the first link that precedes the one before it.
fn misplaced_link(links: &[PbLink<'_>]) -> Option<usize>
    ensures { result ≡ writing.misplaced_link (map parts_of_link links.now) }
{
    let (first, rest) = match links.split_first() {
        Some(parts) => parts,
        None => return None,
    };
    let mut before = first;
    for (index, link) in rest.iter().enumerate() {
        if precedes(link, before) {
            return Some(index + 1);
        }
        before = link;
    }
    None
}

// Returns the number of bytes of the field of a name, or 0 without a name.
fn name_len(name: Option<&str>) -> usize
    ensures len { result ≡ length (writing.content_of 18 (option_map (λ name. name.now) name.entry)) }
    ensures short { result ≤ 20 + 2 ^ 63 }
    ensures encoded { IsName (option_map (λ name. name.now) name.entry)
        (writing.content_of 18 (option_map (λ name. name.now) name.entry)) }
{
    match name {
        Some(name) => content_len(NAME, name.as_bytes()),
        None => 0,
    }
}

// Returns the number of bytes of the field of a size, or 0 without a size.
fn tsize_len(tsize: Option<u64>) -> usize
    ensures len { result ≡ length (writing.number_of 24 tsize) }
    ensures short { result ≤ 20 }
    ensures encoded { IsNumberOf 3 tsize (writing.number_of 24 tsize) }
{
    match tsize {
        Some(tsize) => number_len(TSIZE, tsize),
        None => 0,
    }
}

// Returns the number of bytes of a link's message.
fn link_len(link: &PbLink<'_>) -> usize
    ensures len { result ≡ length (writing.link_bytes (parts_of_link link.now)) }
    ensures encoded { IsLink (parts_of_link link.now)
        (writing.link_bytes (parts_of_link link.now)) }
{
    let hash = link.hash.encoded_len();
    let hash_field = content_head_len(HASH, hash) + hash;
    hash_field + name_len(link.name) + tsize_len(link.tsize)
}

// Returns the number of bytes of the fields of these links. A number that doesn't fit is the
// greatest one.
fn links_len(links: &[PbLink<'_>]) -> usize
    ensures short { result ≤ length (writing.links_bytes (map parts_of_link links.now)) }
    ensures encoded { IsLinks (map parts_of_link links.now)
        (writing.links_bytes (map parts_of_link links.now)) }
{
    let mut total: usize = 0;
    for link in links {
        let len = link_len(link);
        let field_len = content_head_len(LINKS, len).saturating_add(len);
        total = total.saturating_add(field_len);
    }
    total
}

// Returns the number of bytes of the field of the data, or 0 without data.
fn data_len(content: Option<&[u8]>) -> usize
    ensures len { result ≡ length (writing.content_of 10 (option_map (λ c. c.now) content.entry)) }
    ensures encoded { IsContentOf 1 (option_map (λ c. c.now) content.entry)
        (writing.content_of 10 (option_map (λ c. c.now) content.entry)) }
{
    match content {
        Some(content) => content_len(DATA, content),
        None => 0,
    }
}

// Appends the field of a name, if there is one.
fn push_name(bytes: &mut Vec<u8>, name: Option<&str>) -> Result<(), AllocError>
    ensures { OnOk result (bytes.new.items ≡ bytes.old.items
        ++ writing.content_of 18 (option_map (λ name. name.now) name.entry)) }
{
    match name {
        Some(name) => push_content(bytes, NAME, name.as_bytes()),
        None => Ok(()),
    }
}

// Appends the field of a size, if there is one.
fn push_tsize(bytes: &mut Vec<u8>, tsize: Option<u64>) -> Result<(), AllocError>
    ensures { OnOk result (bytes.new.items ≡ bytes.old.items ++ writing.number_of 24 tsize) }
{
    match tsize {
        Some(tsize) => push_number(bytes, TSIZE, tsize),
        None => Ok(()),
    }
}

// Appends the field of a link.
fn push_link(bytes: &mut Vec<u8>, link: &PbLink<'_>) -> Result<(), AllocError>
    ensures { OnOk result (bytes.new.items
        ≡ bytes.old.items ++ writing.link_field_bytes (parts_of_link link.now)) }
{
    push_content_head(bytes, LINKS, link_len(link))?;
    push_content_head(bytes, HASH, link.hash.encoded_len())?;
    link.hash.write_bytes(bytes)?;
    push_name(bytes, link.name)?;
    push_tsize(bytes, link.tsize)
}

// Appends the fields of these links.
fn push_links(bytes: &mut Vec<u8>, links: &[PbLink<'_>]) -> Result<(), AllocError>
    ensures { OnOk result (bytes.new.items
        ≡ bytes.old.items ++ writing.links_bytes (map parts_of_link links.now)) }
{
    for link in links {
        push_link(bytes, link)?;
    }
    Ok(())
}

// Appends the field of the data, if there are data.
fn push_data(bytes: &mut Vec<u8>, content: Option<&[u8]>) -> Result<(), AllocError>
    ensures { OnOk result (bytes.new.items ≡ bytes.old.items
        ++ writing.content_of 10 (option_map (λ c. c.now) content.entry)) }
{
    match content {
        Some(content) => push_content(bytes, DATA, content),
        None => Ok(()),
    }
}

/// Encodes a node as its canonical block (DAG-PB specification): the links first, each with its
/// hash, its name and its size if it has them, and the data after them. Varints are the shortest.
///
/// Reading the block returns the same links and data.
///
/// # Errors
///
/// - `LinkOrder` if the links are not sorted by the bytes of their names. Links with the same name
///   may be in any order. Nothing is then allocated.
/// - `Memory` if an allocation fails. The block is allocated once.
pub fn encode_node(alloc: Global, node: &PbNode<'_>) -> Result<Vec<u8>, PbEncodeError>
    ensures exact { MatchResult result
        (λ block. writing.written (parts_of_node node.now) ≡ Ok block.items)
        (λ error. (error ≡ PbEncodeError.Memory)
        ⊎ (writing.written (parts_of_node node.now) ≡ Err error)) }
    ensures encoded { IfOk result (λ block. IsNode (parts_of_node node.now) block.items) }
    ensures sorted { OnOk result (writing.AreSorted (parts_of_node node.now).links) }
    ensures order { (index : ℕ)
        → writing.misplaced_link (parts_of_node node.now).links ≡ Some index
        → MatchResult result (λ _. ⊥) (λ error. error ≡ PbEncodeError.LinkOrder index) }
    ensures read_back { IfOk result (λ block.
        reading.read_node block.items ≡ Ok (parts_of_node node.now)) }
{
    if let Some(index) = misplaced_link(&node.links) {
        return Err(PbEncodeError::LinkOrder(index));
    }
    let len = links_len(&node.links).saturating_add(data_len(node.data));
    let mut block = Vec::with_capacity(alloc, len)?;
    push_links(&mut block, &node.links)?;
    push_data(&mut block, node.data)?;
    Ok(block)
}
