//! Blocks of DAG-CBOR, written from a tape: an array of entries, and the bytes to which they refer.
//!
//! A tape has an entry for every value and for every key of a map, in the same way as
//! [`dag_cbor_blocks::tape`] lists those of a block. Here the content of a string, bytes, a link, a
//! float or a key is in a buffer of data, at the offset that the entry has. [`encode_tape`] writes
//! the canonical block of the one value that the entries describe:
//!
//! ```rust
//! use dag_cbor_tape::{EncodeError, encode_tape};
//! use dag_cbor_blocks::tape::{self, TapeEntry};
//! use std::alloc::Global;
//!
//! // The block of a string.
//! fn block_of(alloc: Global, text: &str) -> Result<Vec<u8>, EncodeError> {
//!     let entry = TapeEntry { kind: tape::STRING, len: text.len() as u32, value: 0 };
//!     encode_tape(alloc, &[entry], text.as_bytes())
//! }
//! ```
//!
//! The pairs of a map may come in any order. They are written in length-first order of their keys
//! (RFC 8949, section 4.2.3). An [`EncodeError`] has the kind of the error, and the index of its
//! entry. [`canonicalize`] rewrites a block whose pairs are in another order. [`encode_tape`]
//! doesn't recurse, and [`canonicalize`] recurses for at most 32 levels.
#![tactic(auto)]

mod canonical;
mod encode;
mod entry;
mod error;
pub mod laws;
mod structure;

pub use canonical::canonicalize;
pub use encode::encode_tape;
pub use error::{EncodeError, EncodeErrorKind};
