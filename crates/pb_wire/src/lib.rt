//! The wire format of Protocol Buffers, as far as DAG-PB and UnixFS need it: varints, keys,
//! contents after their length, and numbers of four bytes. They are read from bytes in memory and
//! written to a vector.
//!
//! A message is a run of fields. A field is a key and a value, and its key is 8 times the number of
//! the field, plus the wire type: 0 for a varint, 2 for a content, 5 for four bytes.
//!
//! ```rust
//! use pb_wire::{content_field, number_field};
//!
//! // Field 1, a number, and field 2, a content: each at most once, and in this order.
//! let (number, rest) = number_field(8, message)?;
//! let (content, rest) = content_field(18, rest)?;
//! ```
//!
//! Reading never allocates, and contents are borrowed from the bytes.
#![tactic(auto)]

mod error;
pub mod laws;
mod read;
mod write;

pub use error::WireError;
pub use read::{
    content_field, fixed32_field, number_field, read_content, read_fixed32, read_varint, strip_key,
};
pub use write::{
    content_head_len, content_len, number_len, push_content, push_content_head, push_fixed32,
    push_number, push_varint, varint_len,
};
