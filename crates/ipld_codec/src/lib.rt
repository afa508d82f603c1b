//! Codecs: formats that turn values into blocks of bytes and back, and find the links of a block.
//!
//! A type defines its format with [`Links`] and [`Codec`], and code that is generic over the codec
//! relies on them. [`RawCodec`] is the codec of plain bytes. [`TreeCodec`] is for codecs of trees,
//! with laws about the trees.
//!
//! ```
//! use ipld_codec::{Codec, RawCodec};
//! use ipld_tree::Ipld;
//!
//! let block = RawCodec::encode_to_vec(alloc, &Ipld::from_byte_slice(alloc, b"\x01\x02")?)?; // the bytes 01 02
//! let value: Ipld = RawCodec::decode_from_slice(alloc, &block)?; // the Bytes 01 02
//! ```
//!
//! [`FaultReader`] and [`FaultWriter`] are a reader and a writer that fail, for tests of codecs.
//!
//! `ipld_core::codec` also exports these names.
#![tactic(auto)]

mod fault_reader;
mod fault_writer;
pub mod laws;
mod link_iter;
mod raw;
mod read_out;
mod traits;
mod tree_codec;
mod write_out;

pub use fault_reader::FaultReader;
pub use fault_writer::FaultWriter;
pub use link_iter::LinkIter;
pub use raw::{RawCodec, RawError, RawSentence};
pub use traits::{Codec, Links};
pub use tree_codec::TreeCodec;
