//! The codes of the multicodec table that are most common in content identifiers.

/// The codec of plain bytes, `raw` in the multicodec table.
pub const RAW: u64 = 0x55;

/// The codec of DAG-PB blocks, `dag-pb`, which every version 0 CID has.
pub const DAG_PB: u64 = 0x70;

/// The codec of DAG-CBOR blocks, `dag-cbor`.
pub const DAG_CBOR: u64 = 0x71;

/// The hash code `identity`: the digest is the content itself.
pub const IDENTITY: u64 = 0x00;

/// The hash code of SHA2-256, `sha2-256`, which every version 0 CID has.
pub const SHA2_256: u64 = 0x12;
