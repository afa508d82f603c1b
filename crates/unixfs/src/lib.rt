//! The messages of UnixFS, the format of files and folders in IPFS: what the data of a DAG-PB node
//! mean.
//!
//! ```rust
//! use unixfs::{encode_data, read_data};
//!
//! // The message in the data of a node. Its bytes are lent from the block.
//! let message = read_data(alloc, &data)?;
//! // The bytes of a message.
//! let data = encode_data(alloc, &message)?;
//! ```
//!
//! Reading is strict: the fields are in the order of their numbers, and each comes at most once,
//! except the sizes of blocks. A [`UnixFsError`] has the kind of the error, and the byte of the
//! message at which its field begins. No call recurses.
#![tactic(auto)]

mod data;
mod encode_error;
mod error;
pub mod laws;
mod node;
mod reader;
mod time;
mod writer;

pub use data::{Data, DataType, UnixTime};
pub use encode_error::UnixFsEncodeError;
pub use error::{UnixFsError, UnixFsErrorKind};
pub use node::{NodeError, UnixFsNode, read_unixfs};
pub use reader::read_data;
pub use writer::encode_data;
