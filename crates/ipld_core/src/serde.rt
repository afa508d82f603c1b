//! Typed values written as trees and read back, values as tokens, and the reading of tokens.
//!
//! [`to_ipld`] writes a value of a [`Serialize`] type as the tree that the type specifies.
//! [`from_ipld`] reads a tree as a value of a [`Deserialize`] type. Values of a [`Lawful`] type
//! round-trip. [`read_ipld`] reads a tree from a [`TokenSource`]. [`ExtractLinks`] finds the links
//! of a value in tokens without building the value.
//!
//! ```
//! use ipld_core::serde::{IpldTokens, read_ipld, to_ipld};
//!
//! let tree = to_ipld(alloc, &("age", Some(52u8)))?; // the List of String `age` and Integer 52
//! let mut tokens = IpldTokens::new(alloc, &tree)?;
//! let same = read_ipld(alloc, &mut tokens)?;
//! ```

pub use ipld_de::{
    Deserialize, Deserializer, EnumDeserializer, Faithful, Field, Fields, IgnoredAny, Lawful,
    MapDeserializer, SeqDeserializer, VariantDeserializer, from_ipld, read_fields,
    read_only_fields, read_strict_struct, read_struct, read_written, samples, write_and_read,
};
pub use ipld_ser::{
    ByteBuf, SerdeError, Serialize, SerializeMap, SerializeStructVariant, SerializeTupleVariant,
    SerializeVec, Serializer, to_ipld,
};
pub use ipld_tokens::{
    ExtractLinks, FaultSource, IpldTokens, ReadError, SliceSource, Stopped, Token, TokenBytes,
    TokenError, TokenSource, laws, read_ipld, read_ipld_within,
};
pub use ipld_tree::list_capacity;
