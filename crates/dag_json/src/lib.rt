//! DAG-JSON (IPLD's DAG-JSON specification, over JSON, RFC 8259): trees of the IPLD data model as
//! text.
//!
//! [`to_vec`] writes a tree in the strict form, in which a tree has one text. [`to_string`] writes
//! the same text as a string:
//!
//! ```rust
//! use dag_json::{DagJsonError, to_vec};
//! use ipld_tree::Ipld;
//! use std::alloc::Global;
//!
//! fn text_of(alloc: Global, tree: &Ipld) -> Result<Vec<u8>, DagJsonError> {
//!     to_vec(alloc, tree)
//! }
//! ```
//!
//! A link is an object with one member, `{"/":"bafy.."}`, which has the text of the CID. Bytes are
//! `{"/":{"bytes":"aGk"}}`, in base64 without padding. So a map must not look like either: see
//! [`DagJsonError::Reserved`]. Everything else is as in JSON. The keys of a map are in the order of
//! their bytes, and the text has no blanks. An integer is written as its decimal digits. In a
//! string, only the characters that must be escaped are escaped.
//!
//! [`from_slice`] and [`from_str`] read a text as a tree, with blanks, escapes and the keys of an
//! object in any order. [`from_canonical`] reads only the text that is written of its tree. No key
//! of an object may come twice. Reading has [`Limits`](ipld_tree::Limits). Trees have no floats.
//! The module [`floats`] reads texts that may have floats. For example, without floats:
//!
//! ```rust
//! use dag_json::{ReadError, from_slice};
//! use ipld_tree::{Ipld, Limits};
//! use std::alloc::Global;
//!
//! fn tree_of(alloc: Global, text: &[u8]) -> Result<Ipld, ReadError> {
//!     from_slice(alloc, text, &Limits::default())
//! }
//! ```
//!
//! [`tape_from_slice`] reads a text that may have floats, and returns a [`Tape`]: an array with an
//! entry for every value and every key, over a buffer of their content.
//! `dag_cbor_tape::encode_tape` makes the DAG-CBOR block of a tape:
//!
//! ```rust
//! use dag_cbor_tape::encode_tape;
//! use dag_json::{JsonTapeError, tape_from_slice};
//! use ipld_tree::Limits;
//! use std::alloc::Global;
//!
//! // The block of a text, or `None` if it has none.
//! fn block_of(alloc: Global, text: &[u8]) -> Result<Option<Vec<u8>>, JsonTapeError> {
//!     let tape = tape_from_slice(alloc, text, &Limits::default())?;
//!     match encode_tape(alloc, &tape.entries, &tape.contents) {
//!         Ok(block) => Ok(Some(block)),
//!         Err(_) => Ok(None),
//!     }
//! }
//! ```
//!
//! [`DagJsonCodec`] is DAG-JSON as a `Codec` of `ipld_codec`.
#![tactic(auto)]

mod block;
mod codec;
mod decode;
mod encode;
mod error;
pub mod floats;
pub mod laws;
mod offset;
pub mod parts;
mod read_error;
mod reserved;
mod scalar;
mod tape;
mod tree;

pub use block::block_limits;
pub use codec::DagJsonCodec;
pub use decode::{from_canonical, from_slice, from_str};
pub use encode::{to_string, to_vec};
pub use error::DagJsonError;
pub use read_error::{ReadError, ReadErrorKind};
pub use tape::{JsonTapeError, Tape, tape_from_slice};
