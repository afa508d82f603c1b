//! CAR files (content-addressed archives): the blocks of a graph one after another, with the CID of
//! each before it.
//!
//! [`CarReader`] reads a file section by section. The memory that it uses is bounded by the longest
//! section and by a limit. [`CarWriter`] writes a file.
//!
//! ```rust
//! use ipld_car::{CarReader, DEFAULT_LIMIT, Section};
//!
//! let mut car = CarReader::new(alloc, reader, DEFAULT_LIMIT)?;
//! let mut section = Section::new(alloc);
//! while car.read_section(&mut section)? {
//!     println!(rt; "{} {}", section.cid(), section.data().len())?;
//! }
//! ```
//!
//! Versions 1 and 2 are read. In version 2 only the payload is read, and its index is skipped.
//! Version 1 is written. [`section_at`] finds the sections of a CAR that is entirely in memory,
//! without a copy.
//!
//! The index of a file of version 2 maps the hash of a CID to the position of its block, so that
//! the blocks before it need not be read:
//!
//! - [`CarIndex`] is made of the positions of blocks, and is written in the format
//!   MultihashIndexSorted.
//! - [`read_index`] reads an index in that format, or in IndexSorted.
//! - [`entries_of`] finds the entries of a hash in it.
//! - [`CarHeader`] is the header of version 2, which has the positions of the payload and the
//!   index.
//!
//! ```rust
//! use ipld_car::{entries_of, read_index};
//!
//! let index = read_index(alloc, &mut reader)?;
//! let hash = index.format.stored_hash(cid.hash());
//! for entry in entries_of(&index.entries, &hash) {
//!     println!(rt; "a block at byte {} of the payload", entry.offset)?;
//! }
//! ```
//!
//! Do not trust an index: compare the CID at an offset with the one that you look for.
#![tactic(auto)]

mod error;
mod fill;
mod frame_in;
mod framed;
mod header;
mod index;
mod length;
mod opening;
mod padding;
mod payload;
mod read_section;
mod reader;
mod section;
mod span;
mod version;
mod version2;
mod write_all;
mod writer;

pub use error::{CarError, CarErrorKind};
pub use index::{
    CarHeader, CarIndex, HEADER_END, IndexEntry, IndexError, IndexFormat, StoredIndex, entries_of,
    read_index, write_header,
};
pub use reader::{CarReader, DEFAULT_LIMIT};
pub use section::Section;
pub use span::{SectionSpan, section_at};
pub use version::CarVersion;
pub use writer::CarWriter;
