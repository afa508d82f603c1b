//! The IPLD data model: content identifiers, values, conversions, tokens, links and codecs.
//!
//! - [`cid`]: content identifiers (CIDs), their bytes and texts.
//! - [`ipld`]: the value [`ipld::Ipld`], its indexes, its walk and its links. The macro [`ipld!`]
//!   creates a value.
//! - [`convert`]: conversions between such values and Rust types.
//! - [`serde`]: typed values written as trees and read back, values as tokens, and the links in
//!   them.
//! - [`codec`]: formats that turn values into blocks of bytes and back.
//!
//! # Examples
//!
//! A value, and its links:
//!
//! ```
//! use ipld_core::cid::Cid;
//! use ipld_core::ipld;
//!
//! let cid = Cid::from_text(alloc, "bafkreibme22gw2h7y2h7tg2fhqotaqjucnbc24deqo72b6mkl2egezxhvy")?;
//! let tree = ipld!(alloc, {"some": {"nested": cid}, "or": [cid, cid], "more": true})?;
//! let mut links = Vec::new(alloc);
//! tree.references(alloc, &mut links)?; // three times that CID
//! ```
//!
//! An encoder for any codec of any type. Its contract is the contract of the codec:
//!
//! ```
//! use ipld_core::codec::{Codec, RawCodec};
//! use ipld_core::ipld::Ipld;
//! use std::alloc::Global;
//!
//! fn encode_generic<C, T>(alloc: Global, value: &T) -> Result<Vec<u8>, C::Error>
//! where
//!     C: Codec<T>,
//! {
//!     C::encode_to_vec(alloc, value)
//! }
//!
//! let block = encode_generic::<RawCodec, Ipld>(alloc, &value)?;
//! ```
//!
//! The links of a value in tokens, without building the value:
//!
//! ```
//! use ipld_core::cid::CidGeneric;
//! use ipld_core::serde::{ExtractLinks, SliceSource, Stopped, Token, TokenError};
//! use std::alloc::Global;
//!
//! fn links<'a>(alloc: Global, tokens: &'a [Token<'a>]) -> Result<Vec<CidGeneric<64>>, TokenError<Stopped>> {
//!     let mut source = SliceSource::new(tokens);
//!     Ok(ExtractLinks::<64>::deserialize(alloc, &mut source)?.into_vec())
//! }
//! ```
//!
//! Calls that allocate take the allocator and return a `Result`.
#![tactic(auto)]

pub mod cid;
pub mod codec;
pub mod convert;
pub mod ipld;
pub mod serde;

pub use ipld_tree::ipld;
