//! Blocks of any codec: their codec by its code and its name, their links, the check that bytes are
//! a block, and the check that they are the block that a CID names.
//!
//! ```rust
//! use ipld_block::{BlockCodec, links_of, verify};
//!
//! verify(&cid, &block)?;
//! if let Some(codec) = BlockCodec::from_code(cid.codec()) {
//!     for link in links_of(alloc, codec, &block)? {
//!         println!(rt; "{link}")?;
//!     }
//! }
//! ```
//!
//! [`cid_of`] returns the CID of a block, by the SHA2-256 of the toolchain's `sha2`.
//!
//! The codecs are DAG-CBOR and DAG-JSON, both also with 64-bit floats, DAG-PB and plain bytes.
//! Every crate that reads blocks returns an [`InvalidBlock`] for bytes that are not a block.
#![tactic(auto)]

mod block_cid;
mod blocks;
mod codec;
mod error;
mod text;

pub use block_cid::{BLAKE2B_256, SHA2_512, VerifyError, cid_of, verify};
pub use blocks::{check, check_canonical, links_of};
pub use codec::{BlockCodec, codec_name, hash_name};
pub use error::{CheckError, InvalidBlock};
pub use text::{write_cid, write_links};
