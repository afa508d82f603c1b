//! Blocks of DAG-PB (IPLD's DAG-PB specification): Protocol Buffers whose nodes have links. Files
//! and folders in IPFS are kept in such blocks.
//!
//! ```rust
//! use dag_pb::{encode_node, links_of_block, node_spans, read_node};
//!
//! // The links alone, in the order of the block.
//! let links = links_of_block(alloc, &block)?;
//! // The links with their names and sizes, and the data. Names and data are lent from the block.
//! let node = read_node(alloc, &block)?;
//! // Where all of these stand in the block.
//! let spans = node_spans(alloc, &block)?;
//! // The block of a node whose links are sorted by name.
//! let block = encode_node(alloc, &node)?;
//! ```
//!
//! Reading is as strict as the specification. It rejects fields other than those of a node and of a
//! link, a field that appears twice or out of order, and another wire type. A [`PbError`] has the
//! kind of the error, and the byte of the block at which its field begins. No call recurses.
//!
//! [`DagPbCodec`] has the traits `Links` and `Codec` of `ipld_codec`. Its values are [`PbNodeBuf`]s,
//! which own their names and data.
#![tactic(auto)]

mod codec;
mod codec_error;
mod encode_error;
mod error;
pub mod laws;
mod link;
mod node;
mod owned;
mod reader;
mod spans;
mod writer;

pub use codec::DagPbCodec;
pub use codec_error::PbCodecError;
pub use encode_error::PbEncodeError;
pub use error::{PbError, PbErrorKind};
pub use link::PbLink;
pub use node::{PbNode, links_of_block, read_node};
pub use owned::{PbLinkBuf, PbNodeBuf};
pub use spans::{PbLinkSpans, PbNodeSpans, PbSpan, node_spans};
pub use writer::encode_node;
