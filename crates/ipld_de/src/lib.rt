//! Trees of the IPLD data model read as typed values.
//!
//! A type states by the trait [`Deserialize`] how it reads a tree, and [`from_ipld`] reads it. The
//! trait is implemented for numbers, strings, CIDs, options, lists, arrays, tuples of up to ten
//! parts and maps. The contents of a tree are moved into the value and not copied.
//!
//! ```
//! use ipld_de::from_ipld;
//!
//! let (name, age): (String, Option<u8>) = from_ipld(alloc, tree)?; // the List of String `age` and Integer 52
//! ```
#![tactic(auto)]

mod arrays;
mod composites;
mod described;
mod deserialize;
mod deserializer;
mod faithful;
mod fields;
mod ignored;
mod image_fields;
mod image_reader;
mod key;
mod lawful;
pub mod laws;
mod map;
mod missing;
mod part;
pub mod samples;
mod scalars;
mod sequence;
mod tuples;
mod variants;

pub use described::Described;
pub use deserialize::{Deserialize, from_ipld};
pub use deserializer::Deserializer;
pub use faithful::Faithful;
pub use fields::{
    Field, Fields, OptionalField, position_of, read_fields, read_only_fields, read_strict_struct,
    read_struct,
};
pub use ignored::IgnoredAny;
pub use image_fields::read_struct_image;
pub use image_reader::{ImageReader, Unread};
pub use key::DeserializeKey;
pub use lawful::{Lawful, read_written, write_and_read};
pub use map::MapDeserializer;
pub use missing::{IfMissing, Optional, Required};
pub use sequence::SeqDeserializer;
pub use variants::{EnumDeserializer, VariantDeserializer};
