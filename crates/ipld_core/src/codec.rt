//! Codecs: formats that turn values into blocks of bytes and back, and find the links of a block.
//!
//! A type specifies its format by [`Links`] and [`Codec`], and code that is generic over the codec
//! relies on that. [`RawCodec`] is the codec of plain bytes.
//!
//! ```
//! use ipld_core::codec::{Codec, RawCodec};
//! use ipld_core::ipld::Ipld;
//!
//! let block = RawCodec::encode_to_vec(alloc, &Ipld::from_byte_slice(alloc, b"\x01\x02")?)?; // the bytes 01 02
//! let value: Ipld = RawCodec::decode_from_slice(alloc, &block)?; // the Bytes 01 02
//! ```
//!
//! [`FaultReader`] and [`FaultWriter`] are a reader and a writer that fail, for tests of codecs.

pub use ipld_codec::{
    Codec, FaultReader, FaultWriter, LinkIter, Links, RawCodec, RawError, TreeCodec, laws,
};
