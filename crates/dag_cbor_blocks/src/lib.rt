//! Blocks of DAG-CBOR, with and without floats, read without building their trees.
//!
//! The functions at the root take [`ReadOptions`], which contain the limits and whether floats are
//! read. Their errors have the byte at which reading stopped. They read the bytes from the left, by
//! a recursion of at most 32 levels. If a block nests deeper or has an error, they read it in a
//! loop, from its start. They also do so if it has an empty key, has keys that are not in
//! length-first order, or has more bytes than it may have values. [`is_canonical`] reads every
//! block only in the loop.
//!
//! ```rust
//! use dag_cbor_blocks::{BlockError, ReadOptions, links_of_block};
//! use ipld_cid::Cid;
//! use std::alloc::Global;
//!
//! fn links_with_floats(alloc: Global, block: &[u8]) -> Result<Vec<Cid>, BlockError> {
//!     let options = ReadOptions { floats: true, ..ReadOptions::default() };
//!     links_of_block(alloc, block, &options)
//! }
//! ```
//!
//! - [`check_block`] checks that bytes are a block.
//! - [`links_of_block`] returns the links of a block, [`count_links`] their number, and
//!   [`link_positions`] their positions.
//! - [`measure_block`] returns how large the tree is.
//! - [`is_canonical`] returns whether the block is the one that is written for its tree.
//! - [`CborTokens`] yields the tokens of a block, one after another.
//! - [`tape`] lists the values and keys of a block as entries that refer to its bytes.
//!
//! To find anything else in a block, write a [`Visitor`](visit::Visitor). [`block`] passes it the
//! parts of a block one after another. `dag_cbor` builds trees in this way, and re-exports the
//! items at the root of this library and [`tape`].
#![tactic(auto)]

pub mod block;
mod block_error;
mod canonical;
mod counter;
mod drive;
mod keys;
mod link;
mod link_position;
pub mod links;
mod measure;
mod options;
mod position;
mod read;
mod reader;
pub mod shallow;
pub mod tape;
mod tokens;
pub mod visit;

pub use block_error::{BlockError, BlockErrorKind};
pub use link_position::LinkPosition;
pub use measure::{BlockSize, measure_block};
pub use options::ReadOptions;
pub use read::{check_block, count_links, is_canonical, link_positions, links_of_block};
pub use tokens::CborTokens;
