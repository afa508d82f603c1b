//! Files and folders of a file system packed as UnixFS, block by block.
//!
//! ```rust
//! use unixfs_pack::{CarInPlace, PackOptions, Top, Tree};
//!
//! // Packs a folder into a CAR under the root that `ipfs add` gives it.
//! let tops = [Top { name: "photos", path: "photos", file: None }];
//! let mut tree = Tree::scan(rt, &tops, &PackOptions::default(), false)?;
//! let mut car = CarInPlace::new(rt, &file, &tree.planned_root())?;
//! let root = tree.pack(rt, &mut car)?;
//! let (_, len) = car.finish(&root)?;
//! file.set_len(len)?;
//! ```
//!
//! [`Tree::scan`] looks at names, types and sizes, and reads no file. The sizes decide how long
//! each block is. So a node can come before the blocks below it, although its bytes are known only
//! afterwards: [`Tree::pack`] reads each file once, leaves room for nodes, and fills it later. If a
//! file then has another length, that is an error.
//!
//! `unixfs_build` makes the blocks, and is proved to make those that are defined. Their order in a
//! CAR is tested.
#![tactic(auto)]

mod car_in_place;
mod error;
mod files;
mod lengths;
mod options;
mod pattern;
mod plan;
mod sink;
mod tree;
mod writing;

pub use car_in_place::CarInPlace;
pub use error::{PackError, PackErrorKind};
pub use options::{PackOptions, Symlinks, Top};
pub use pattern::Pattern;
pub use sink::{BlockSink, Discard, Room};
pub use tree::Tree;
