//! Content identifiers (CIDs) of the multiformats project, which identify content by its hash.
//!
//! ```rust
//! use ipld_cid::{Cid, Multihash, RAW, SHA2_256};
//!
//! // From bytes, which have to be a CID's, to the last one.
//! let cid = Cid::try_from(block_name)?;
//! // From its parts.
//! let other = Cid::new_v1(RAW, Multihash::wrap(SHA2_256, &digest)?);
//! println!(rt; "{cid} or {other}")?;
//! let bytes = cid.to_bytes(alloc)?;
//! ```
//!
//! A [`Cid`] is a `Copy` value of 96 bytes. Calls that allocate take the allocator. Reading bytes
//! does not allocate. This crate does not compute or check digests.
#![tactic(auto)]

mod base32;
mod byte_buffer;
mod bytes;
mod cid;
mod compare;
mod error;
mod fmt;
mod from_text;
pub mod laws;
mod multicodec;
mod multihash;
mod multihash_bytes;
mod text;
mod varint;

pub use base32::BASE32_VALUES;
pub use byte_buffer::ByteBuffer;
pub use cid::{CID_SERDE_PRIVATE_IDENTIFIER, Cid, CidGeneric, MAX_CID_LEN, Version};
pub use error::{CidError, CidSentence, write_number};
pub use multicodec::{DAG_CBOR, DAG_PB, IDENTITY, RAW, SHA2_256};
pub use multihash::Multihash;
