//! Files, folders and symbolic links packed as UnixFS: their blocks, and the root that names them.
//!
//! ```rust
//! use unixfs_build::{
//!     Attributes, FileBuilder, Layout, NewEntry, SHARDED_ABOVE, build_folder,
//! };
//!
//! // The CID that `ipfs add` gives a file of two chunks.
//! let mut builder = FileBuilder::new(alloc, &Layout::default())?;
//! for block in builder.push(alloc, &first)? {
//!     store.put(&block.cid, &block.data)?;
//! }
//! let blocks = builder.finish(alloc, &last, &Attributes::default())?;
//! for block in &blocks {
//!     store.put(&block.cid, &block.data)?;
//! }
//! let root = blocks.last();
//! // The folder of this file, and its CID.
//! if let Some(file) = root {
//!     let entry = NewEntry { name: "photo.jpg", cid: file.cid, total: file.total };
//!     let none = Attributes::default();
//!     let blocks = build_folder(alloc, Version::V0, &none, SHARDED_ABOVE, &[entry])?;
//!     println!(rt; "{}", blocks[0].cid)?;
//! }
//! ```
//!
//! A [`FileBuilder`] does no input and output. It holds no bytes of the file, and of each level of
//! the tree fewer links than a node has. [`build_folder`] recurses for at most eight levels.
#![tactic(auto)]

mod block;
mod builder;
mod encode;
mod entry;
mod error;
mod folder;
mod folder_node;
mod layout;
mod level;
mod node;
mod shard;

pub use block::FileBlock;
pub use builder::FileBuilder;
pub use entry::NewEntry;
pub use error::BuildError;
pub use folder::{SHARDED_ABOVE, build_folder};
pub use folder_node::{NodeBlock, build_symlink};
pub use layout::{Attributes, Layout};
