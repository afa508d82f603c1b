//! Files of UnixFS, read out of blocks that nobody trusts, in whole or a range of their bytes. The
//! bytes that a walk returns are those that the root names.
//!
//! ```rust
//! use unixfs_files::{FileLimits, FileRange, FileWalk};
//!
//! // A walk says which block it wants next, and returns the bytes of the file in that block.
//! let mut walk = FileWalk::new(alloc, root, FileRange::WHOLE, &FileLimits::DEFAULT);
//! while let Some(cid) = walk.wanted() {
//!     let block = fetch(cid)?;
//!     let bytes = walk.take(alloc, &block)?;
//!     file.write_all(bytes)?;
//! }
//! ```
//!
//! Each block is verified before it is parsed. Each size in a block is compared with the
//! number of bytes. [`write_file`] is this loop over a [`BlockStore`]. No call recurses.
#![tactic(auto)]

mod error;
mod part;
mod range;
mod state;
mod store;
mod walk;

pub use error::PartError;
pub use state::{FileLimits, FileRange, FileWalk};
pub use store::{BlockStore, FileError, FileErrorKind, write_file};
