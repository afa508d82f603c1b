//! The contents of CAR files: their blocks, the links of these, the blocks that are missing, and
//! whether the digests are right. A file is read once, section by section, from any reader.
//!
//! The missing blocks of a graph can be found among blocks from any source, too:
//!
//! ```rust
//! use car_files::{MissingBlocks, add_links};
//! use ipld_block::{BlockCodec, links_of};
//!
//! let mut index = MissingBlocks::new(alloc, RandomState::new(&rt)?);
//! index.add_block(&cid)?;
//! if let Some(codec) = BlockCodec::from_code(cid.codec()) {
//!     let faults = add_links(alloc, &mut index, links_of(alloc, codec, data)?)?;
//! }
//! for cid in index.missing(alloc)? {
//!     println!(rt; "{cid}")?;
//! }
//! ```
//!
//! A link is missing if its block was not added. A CID with the identity hash carries its own
//! block: it is never missing, and the links of its block count. `faults` are the CIDs that carry
//! bytes which are invalid for their codec.
#![tactic(auto)]

mod adding;
mod complaint;
mod error;
mod find;
mod index;
mod list;
mod missing;
mod places;
mod reading;
mod verify;

pub use adding::{CarriedFault, add_links};
pub use error::CarFileError;
pub use find::find_block;
pub use index::MissingBlocks;
pub use list::{Form, Listed, write_list};
pub use missing::{Missing, Seen, add_car, find_missing};
pub use places::{SectionPlace, SectionPlaces};
pub use verify::{VerdictForm, Verified, is_truncated, write_verified};
