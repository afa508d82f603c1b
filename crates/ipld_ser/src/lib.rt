//! Typed values written as trees of the IPLD data model.
//!
//! A type implements the trait [`Serialize`] to define the tree that its values are written as,
//! their image. [`to_ipld`] returns that tree. The trait is implemented for numbers, strings, CIDs,
//! options, lists, arrays, tuples of up to ten elements, and maps. `ipld_core::serde::samples`
//! shows how to implement it for your types.
//!
//! ```
//! use ipld_ser::{SerdeError, to_ipld};
//!
//! let tree = to_ipld(alloc, &("age", Some(52u8)))?; // the List of String `age` and Integer 52
//! ```
#![tactic(auto)]

mod bytes;
mod composites;
mod error;
mod fields;
mod image_writer;
mod key;
mod map;
mod newtype;
mod scalars;
mod sequence;
mod serialize;
mod serializer;
mod tuples;
mod variants;

pub use bytes::ByteBuf;
pub use error::{SerdeError, SerdeSentence, SerializeError};
pub use fields::SerializeFields;
pub use image_writer::{ImageWriter, Unwritten, key_precedes, write_fields};
pub use key::SerializeKey;
pub use map::SerializeMap;
pub use sequence::SerializeVec;
pub use serialize::{Serialize, to_ipld};
pub use serializer::Serializer;
pub use variants::{SerializeStructVariant, SerializeTupleVariant};
