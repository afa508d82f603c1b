//! Typed values as blocks of DAG-CBOR: their encoding and decoding, with the names of Rust's
//! `serde_ipld_dagcbor`.
//!
//! [`to_vec`] writes a value of a type that is [`Serialize`](ipld_ser::Serialize) as the block of
//! its image. [`from_slice`] reads a value of a type that is [`Deserialize`](ipld_de::Deserialize)
//! from a block:
//!
//! ```
//! use dag_cbor_serde::{from_slice, to_vec};
//!
//! let block = to_vec(alloc, &person)?;
//! let copy: Person = from_slice(alloc, &block)?;
//! ```
//!
//! Reading the block of a value returns a value with the same image. If the value is plain, it
//! returns the value itself: see [`laws::round_trip_law`].
//!
//! [`from_slice`] and [`from_reader`] are for untrusted input: they read at most
//! [`Limits::default`](ipld_tree::Limits) levels of lists and maps. [`from_slice_within`] and
//! [`from_reader_within`] take limits.
#![tactic(auto)]

mod block_reader;
mod block_writer;
mod de;
mod error;
mod explain;
pub mod laws;
mod ser;

pub use de::{from_reader, from_reader_within, from_slice, from_slice_within};
pub use error::{DecodeError, EncodeError};
pub use explain::explain_slice;
pub use ser::{to_vec, to_writer};
