//! The tokens of values of the IPLD data model, and the values that are read from tokens.
//!
//! A [`TokenSource`] yields a value token by token. [`IpldTokens`] yields the tokens of a tree,
//! [`SliceSource`] the tokens of a slice, and a decoder the tokens of a block.
//!
//! - [`read_ipld`] reads a tree from a source.
//! - [`read_ipld_within`] reads a tree within [`Limits`], for untrusted tokens.
//! - [`ExtractLinks`] finds the links of a value in its tokens without building the value.
//! - [`FaultSource`] is a source that fails, for tests.
//!
//! ```
//! use ipld_tokens::{IpldTokens, read_ipld};
//!
//! let mut tokens = IpldTokens::new(alloc, &tree)?;
//! let same = read_ipld(alloc, &mut tokens)?;
//! ```
//!
//! `ipld_core::serde` also exports these names.
#![tactic(auto)]

mod consumer;
mod error;
mod extract_links;
mod extractor;
mod fault_source;
pub mod laws;
mod limited_reader;
pub mod open_tree;
mod read;
mod slice_source;
mod source;
mod token;
mod tree_reader;
mod tree_tokens;

pub use error::{ReadError, TokenError};
pub use extract_links::ExtractLinks;
pub use fault_source::FaultSource;
pub use read::{read_ipld, read_ipld_within};
pub use slice_source::SliceSource;
pub use source::{Stopped, TokenSource};
pub use token::{Token, TokenBytes};
pub use tree_tokens::IpldTokens;
