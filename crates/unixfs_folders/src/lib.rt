//! The entries of UnixFS folders, plain and sharded: looked up by name, and listed.
//!
//! ```rust
//! use unixfs_folders::{FolderWalk, Lookup, LookupStep};
//!
//! // The CID of one entry. `block_of` gets the block of a CID from anywhere.
//! let mut lookup = Lookup::new(&folder, "photo.jpg");
//! while let Some(cid) = lookup.wanted() {
//!     let block = block_of(&cid)?;
//!     if let LookupStep::Found(entry) = lookup.take(alloc, &block)? {
//!         println!(rt; "{entry}")?;
//!     }
//! }
//! // All entries.
//! let mut walk = FolderWalk::new(alloc, &folder);
//! while let Some(cid) = walk.wanted() {
//!     let block = block_of(&cid)?;
//!     for entry in walk.take(alloc, &block)? {
//!         println!(rt; "{} {}", entry.name, entry.cid)?;
//!     }
//! }
//! ```
//!
//! A [`Lookup`] and a [`FolderWalk`] do no input and output. Each block is verified against the CID
//! that it was wanted for, so its source is not trusted. A listing has exactly the entries that
//! look-ups find ([`laws`]). No call recurses.
#![tactic(auto)]

mod error;
mod folder;
pub mod laws;
mod lookup;
mod names;
mod path;
mod saying;
mod symlink_target;
mod visit;
mod walk;

pub use error::FolderErrorKind;
pub use folder::{Folder, FolderEntry, ShardLink, bit_field, comes_after, read_folder};
pub use lookup::{Lookup, LookupStep};
pub use names::is_entry_name;
pub use symlink_target::stays_inside;
pub use walk::FolderWalk;
