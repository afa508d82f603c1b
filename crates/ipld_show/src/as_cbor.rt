//! Blocks of other codecs, converted to blocks of DAG-CBOR with the same trees.

ghost use Rattle.std.specs.Prelude.{◌≡◌, ◌+◌, Some, codes, map, pos, option_map, IfOk, IfErr, OnOk};
ghost use Rattle.dag_cbor_format.specs.Canonical.{canonical, canonical_items};
ghost use Rattle.dag_cbor_format.specs.Writing.{Adds};
ghost use Rattle.dag_pb.specs.Views.{parts_of_link, parts_of_node};
ghost use Rattle.ipld_tree.specs.Tree as tree;
ghost use Rattle.ipld_show.specs.Blocks.{StandsForNode, StandsForJson, IsNoBlock, IsNoNode};
ghost use Rattle.ipld_show.specs.Entries.{written_entry};
ghost use Rattle.ipld_show.specs.Node.{link_tree, link_trees, node_tree};

use crate::error::ShowError;
use dag_cbor_format::Major;
use dag_cbor_format::write::{write_bytes, write_head, write_link, write_text};
use dag_cbor_tape::encode_tape;
use dag_json::{JsonTapeError, block_limits, tape_from_slice};
use dag_pb::{PbLink, PbNode, read_node};
use ipld_block::{BlockCodec, CheckError, check};
use std::alloc::{AllocError, Global};

// Adds the entry of a link's name, if it has one.
fn write_name(block: &mut Vec<u8>, link: &PbLink<'_>) -> Result<(), AllocError>
    ensures { OnOk result (Adds (written_entry (codes "Name") (option_map tree.text
        (parts_of_link link.now).name)) block.old.items block.new.items) }
{
    match link.name {
        Some(name) => {
            write_text(block, "Name")?;
            write_text(block, name)?;
            Ok(())
        }
        None => Ok(()),
    }
}

// Adds the entry of a link's size, if it has one.
fn write_tsize(block: &mut Vec<u8>, link: &PbLink<'_>) -> Result<(), AllocError>
    ensures { OnOk result (Adds (written_entry (codes "Tsize")
        (option_map (λ n. tree.integer (pos n)) link.now.tsize)) block.old.items block.new.items) }
{
    match link.tsize {
        Some(tsize) => {
            write_text(block, "Tsize")?;
            write_head(block, Major::Unsigned, tsize)?;
            Ok(())
        }
        None => Ok(()),
    }
}

// Adds the map of a link of DAG-PB.
fn write_pb_link(block: &mut Vec<u8>, link: &PbLink<'_>) -> Result<(), AllocError>
    ensures { OnOk result (Adds (canonical (link_tree (parts_of_link link.now))) block.old.items
        block.new.items) }
{
    let entries = 1 + u64::from(link.name.is_some()) + u64::from(link.tsize.is_some());
    write_head(block, Major::Map, entries)?;
    write_text(block, "Hash")?;
    write_link(block, &link.hash)?;
    write_name(block, link)?;
    write_tsize(block, link)?;
    Ok(())
}

// Adds the maps of links of DAG-PB.
fn write_pb_links(block: &mut Vec<u8>, links: &[PbLink<'_>]) -> Result<(), AllocError>
    ensures { OnOk result (Adds (canonical_items (link_trees (map parts_of_link links.now)))
        block.old.items block.new.items) }
{
    for link in links {
        write_pb_link(block, link)?;
    }
    Ok(())
}

// Adds the entry of a node's data, if it has any.
fn write_data(block: &mut Vec<u8>, node: &PbNode<'_>) -> Result<(), AllocError>
    ensures { OnOk result (Adds (written_entry (codes "Data") (option_map tree.bytes
        (parts_of_node node.now).content)) block.old.items block.new.items) }
{
    match node.data {
        Some(data) => {
            write_text(block, "Data")?;
            write_bytes(block, data)?;
            Ok(())
        }
        None => Ok(()),
    }
}

// Adds the map of a node of DAG-PB.
fn write_pb_node(block: &mut Vec<u8>, node: &PbNode<'_>) -> Result<(), AllocError>
    ensures { OnOk result (Adds (canonical (node_tree (parts_of_node node.now))) block.old.items
        block.new.items) }
{
    write_head(block, Major::Map, 1 + u64::from(node.data.is_some()))?;
    write_data(block, node)?;
    write_text(block, "Links")?;
    write_head(block, Major::List, node.links.len() as u64)?;
    write_pb_links(block, &node.links)?;
    Ok(())
}

// Converts a block of DAG-PB to the tree in its specification: `Data` if there are any, and
// `Links`. Every link has `Hash`, and has `Name` and `Tsize` if they are present.
pub(crate) fn node_as_cbor(alloc: Global, bytes: &[u8]) -> Result<Vec<u8>, ShowError>
    ensures made { IfOk result (λ block. StandsForNode bytes.now block.items) }
    ensures rejected { IfErr result (IsNoNode bytes.now) }
{
    let node = match read_node(alloc, bytes) {
        Ok(node) => node,
        Err(error) => return Err(ShowError::from(CheckError::from(error))),
    };
    let mut block = match Vec::with_capacity(alloc, bytes.len()) {
        Ok(block) => block,
        Err(_) => return Err(ShowError::Memory),
    };
    match write_pb_node(&mut block, &node) {
        Ok(()) => Ok(block),
        Err(_) => Err(ShowError::Memory),
    }
}

// Converts a block of DAG-JSON, which may have floats, to a canonical block.
#[tactic(auto, using(crate::proofs::JsonBlocks::stands))]
pub(crate) fn json_as_cbor(alloc: Global, bytes: &[u8]) -> Result<Vec<u8>, ShowError>
    ensures made { IfOk result (λ block. StandsForJson bytes.now block.items) }
    ensures rejected { IfErr result (IsNoBlock BlockCodec.DagJson bytes.now) }
{
    let tape = match tape_from_slice(alloc, bytes, &block_limits(bytes)) {
        Ok(tape) => tape,
        Err(JsonTapeError::Text(error)) => return Err(ShowError::from(CheckError::from(error))),
        Err(JsonTapeError::TooLong) => return Err(ShowError::TooLong),
    };
    let block = match encode_tape(alloc, &tape.entries, &tape.contents) {
        Ok(block) => block,
        // The tape of a JSON text has no invalid entries, so an allocation failed.
        Err(_) => return Err(ShowError::Memory),
    };
    // Only for the proof: the bytes that are written from a tape are a block.
    match check(alloc, BlockCodec::DagCbor, &block) {
        Ok(()) => Ok(block),
        Err(_) => Err(ShowError::Memory),
    }
}

// Converts plain bytes, which are their own tree.
pub(crate) fn bytes_as_cbor(alloc: Global, bytes: &[u8]) -> Result<Vec<u8>, ShowError>
    ensures made { IfOk result (λ block. canonical (tree.bytes bytes.now) ≡ Some block.items) }
    ensures rejected { IfErr result (λ error. error ≡ ShowError.Memory) }
{
    let mut block = Vec::new(alloc);
    match write_bytes(&mut block, bytes) {
        Ok(()) => Ok(block),
        Err(_) => Err(ShowError::Memory),
    }
}
