//! The nodes of UnixFS: blocks of DAG-PB whose data are a message.

ghost use Rattle.std.specs.Prelude.{◌≡◌, ◌⊎◌, ◌++◌, ℕ, List, map, option_map, IfOk, Ok, Err, MatchResult};
ghost use Rattle.dag_pb.specs.Views.{parts_of_link};
ghost use Rattle.unixfs.specs.Data.{DataParts};
ghost use Rattle.unixfs.specs.Views.{parts_of};
ghost use Rattle.unixfs.specs.Nodes.{UnixFsParts, IsParsed, HasMessage, message_of, read_unixfs, node_parts, IsNodeMemory, node_sentence};

use crate::data::Data;
use crate::error::UnixFsError;
use crate::reader::read_data;
use dag_pb::{PbError, PbLink, read_node};
use std::alloc::Global;
use std::{error, fmt};

/// A node of UnixFS: the links of a block of DAG-PB, and the message in its data. Names and bytes
/// are borrowed from the block.
#[derive(Drop)]
pub struct UnixFsNode<'a> {
    /// The links, in the order of the block.
    pub links: Vec<PbLink<'a>>,
    /// The message.
    pub data: Data<'a>,
}

/// The reason why a block isn't a node of UnixFS.
///
/// Its `Display` is a sentence that describes the error.
#[derive(Clone, Copy, Debug, PartialEq, Eq)]
pub enum NodeError {
    /// The block isn't a node of DAG-PB, or an allocation failed.
    Block(PbError),
    /// The node has no data.
    NoData,
    /// The data are not a message of UnixFS, or an allocation failed. The offset is that in the
    /// data.
    Message(UnixFsError),
}

impl fmt::Display for NodeError {
    ghost use Rattle.std.specs.Prelude.{Some};

    ghost output = { λ error. Some (node_sentence error) };

    ghost styled_output = { λ error _. Some (node_sentence error) };

    fn fmt<W: fmt::Write>(&self, f: &mut fmt::Formatter<W>) -> fmt::Result {
        match self {
            NodeError::Block(error) => error.fmt(f),
            NodeError::NoData => f.write_str("the node has no data"),
            NodeError::Message(error) => {
                f.write_str("the data of the node: ")?;
                return error.fmt(f);
            }
        }
    }
}

impl error::Error for NodeError {}

// Returns the node of these links and data.
#[tactic(auto, unfolding(crate::specs::Nodes::message_of))]
fn with_message<'a>(
    alloc: Global,
    links: Vec<PbLink<'a>>,
    data: Option<&'a [u8]>,
) -> Result<UnixFsNode<'a>, NodeError>
    ensures found { IfOk result (λ node. HasMessage (option_map (λ d. d.now) data.entry)
        (parts_of node.data)) }
    ensures links { IfOk result (λ node. node.links.items ≡ links.entry.items) }
    ensures only { (d : DataParts) → HasMessage (option_map (λ d. d.now) data.entry) d
        → MatchResult result (λ node. parts_of node.data ≡ d) IsNodeMemory }
    ensures exact { MatchResult result
        (λ node. message_of (map parts_of_link links.entry.items)
        (option_map (λ d. d.now) data.entry) ≡ Ok (node_parts node))
        (λ error. IsNodeMemory error ⊎ (message_of (map parts_of_link links.entry.items)
        (option_map (λ d. d.now) data.entry) ≡ Err error)) }
{
    let Some(message) = data else {
        return Err(NodeError::NoData);
    };
    match read_data(alloc, message) {
        Ok(data) => Ok(UnixFsNode { links, data }),
        Err(error) => Err(NodeError::Message(error)),
    }
}

/// Decodes the node of a block, which is all of the bytes: its links, and the message in its data.
///
/// It reads the bytes once, in a loop. It allocates the vector of the links and that of the sizes.
///
/// # Errors
///
/// - `Block` if the bytes are not a node of DAG-PB, with the error of [`read_node`].
/// - `NoData` if the node has no data.
/// - `Message` if its data are not a message, with the error of [`read_data`].
///
/// `Block` and `Message` have the kind `Memory` if an allocation fails.
#[tactic(auto, unfolding(crate::specs::Nodes::read_unixfs))]
pub fn read_unixfs<'a>(alloc: Global, block: &'a [u8]) -> Result<UnixFsNode<'a>, NodeError>
    ensures found { IfOk result (λ node. IsParsed block.entry.now (map parts_of_link node.links.items) (parts_of node.data)) }
    ensures only { (u : UnixFsParts) → IsParsed block.entry.now u.links u.message
        → MatchResult result (λ node. node_parts node ≡ u) IsNodeMemory }
    ensures exact { MatchResult result
        (λ node. read_unixfs block.entry.now ≡ Ok (node_parts node))
        (λ error. IsNodeMemory error ⊎ (read_unixfs block.entry.now ≡ Err error)) }
{
    match read_node(alloc, block) {
        Ok(node) => with_message(alloc, node.links, node.data),
        Err(error) => Err(NodeError::Block(error)),
    }
}
