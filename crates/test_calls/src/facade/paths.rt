//! Each public path of `ipld_core`. This crate doesn't build if one is missing.

pub mod cid {
    pub use ipld_core::cid::laws::{cid_bytes_law, cid_order_law, cid_text_law};
    pub use ipld_core::cid::serde::CID_SERDE_PRIVATE_IDENTIFIER;
    pub use ipld_core::cid::{
        Cid, CidError, CidGeneric, DAG_CBOR, DAG_PB, IDENTITY, Multihash, RAW, SHA2_256, Version,
    };
}

pub mod codec {
    pub use ipld_core::codec::laws::{codec_law, tree_codec_law};
    pub use ipld_core::codec::{
        Codec, FaultReader, FaultWriter, LinkIter, Links, RawCodec, RawError, TreeCodec,
    };
}

pub mod convert {
    pub use ipld_core::convert::{ConversionError, IntoIpld, IntoKey, TargetType};
}

pub mod values {
    pub use ipld_core::ipld::{IndexError, IntoIndex, Ipld, IpldIndex, IpldIter, IpldKind, Limits};
}

pub mod serde {
    pub use ipld_core::serde::laws::{
        item_links_law, item_tokens_law, item_tree_law, tokens_round_trip, tree_tokens_law,
    };
    pub use ipld_core::serde::samples::{
        MyEnum, MyPair, MyStrict, MyStruct, Person, Tagged, TupleStruct, UnitStruct, Wrapped,
    };
    pub use ipld_core::serde::{
        ByteBuf, Deserialize, Deserializer, EnumDeserializer, ExtractLinks, Faithful, FaultSource,
        Field, Fields, IgnoredAny, IpldTokens, Lawful, MapDeserializer, ReadError, SeqDeserializer,
        SerdeError, Serialize, SerializeMap, SerializeStructVariant, SerializeTupleVariant,
        SerializeVec, Serializer, SliceSource, Stopped, Token, TokenBytes, TokenError, TokenSource,
        VariantDeserializer, from_ipld, list_capacity, read_fields, read_ipld, read_ipld_within,
        read_only_fields, read_strict_struct, read_struct, read_written, to_ipld, write_and_read,
    };
}
