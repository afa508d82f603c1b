//! DAG-CBOR blocks (RFC 8949 and the DAG-CBOR specification): their trees, without floats, and
//! their links, also with floats.
//!
//! A block encodes a tree of the IPLD data model. [`decode_slice_within`] returns the tree of an
//! untrusted block within limits, and [`decode_slice`] returns the tree of any block:
//!
//! ```rust
//! use dag_cbor::{BlockError, decode_slice_within};
//! use ipld_tree::{Ipld, Limits};
//! use std::alloc::Global;
//!
//! fn tree_of(alloc: Global, block: &[u8]) -> Result<Ipld, BlockError> {
//!     let limits = Limits { levels: 64, values: 100_000 };
//!     decode_slice_within(alloc, block, &limits)
//! }
//! ```
//!
//! [`links_of_block`] returns the links in a block, without building the tree. [`ReadOptions`]
//! contains the limits, and whether floats are read. A tree cannot contain floats:
//!
//! ```rust
//! use dag_cbor::{BlockError, ReadOptions, links_of_block};
//! use ipld_cid::Cid;
//! use std::alloc::Global;
//!
//! fn links_with_floats(alloc: Global, block: &[u8]) -> Result<Vec<Cid>, BlockError> {
//!     let options = ReadOptions { floats: true, ..ReadOptions::default() };
//!     links_of_block(alloc, block, &options)
//! }
//! ```
//!
//! More functions read a block without building the tree:
//!
//! - [`check_block`] checks that bytes are a block.
//! - [`count_links`] returns the number of links, and [`link_positions`] their positions.
//! - [`measure_block`] returns how large the tree is.
//! - [`is_canonical`] returns whether the block is the one that is written for its tree.
//! - [`CborTokens`] yields the tokens of a block, one after another.
//! - [`tape`] lists the values and keys of a block as entries that refer to its bytes.
//!
//! [`DagCborCodec`] is the format as a codec, which writes trees too:
//!
//! ```rust
//! use dag_cbor::{CborError, DagCborCodec};
//! use ipld_codec::Codec;
//! use ipld_tree::Ipld;
//! use std::alloc::Global;
//!
//! fn block_of(alloc: Global, tree: &Ipld) -> Result<Vec<u8>, CborError> {
//!     DagCborCodec::encode_to_vec(alloc, tree)
//! }
//! ```
//!
//! [`TokenCodec`] returns the same, with the functions that read any source of tokens. It is
//! slower, and is an example of how to write a codec.
//!
//! [`item`] reads the beginning of an item, for code that walks a block by itself. [`write`] has
//! the functions that write one item after another, to make blocks without a tree.
//!
//! A block is one item with nothing after it:
//!
//! - Every argument is in its shortest form.
//! - A list has its length in its head, and so has a map.
//! - The keys of a map are strings that differ. They are read in any order, and written in
//!   length-first order (RFC 8949, section 4.2.3): by length, then by bytes.
//! - A link is tag 42 before a byte string of a zero byte and the CID's bytes.
//! - Integers are from -2^64 to 2^64 - 1.
//!
//! Simple values other than false, true and null, other tags and indefinite lengths are rejected
//! with `Unsupported`. Floats are rejected with `Float`, unless [`ReadOptions`] allows them.
#![tactic(auto)]

mod codec;
mod decode;
mod encode;
mod key_order;
pub mod laws;
pub mod shallow;
mod token_codec;
mod tree;

pub use codec::DagCborCodec;
pub use dag_cbor_blocks::{
    BlockError, BlockErrorKind, BlockSize, CborTokens, LinkPosition, ReadOptions, check_block,
    count_links, is_canonical, link_positions, links_of_block, measure_block, tape,
};
pub use dag_cbor_format::{CborError, CborSentence, item, write};
pub use decode::{decode_slice, decode_slice_within};
pub use token_codec::TokenCodec;
