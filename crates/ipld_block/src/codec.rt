//! Codecs and hash functions by their codes and names.

ghost use Rattle.std.specs.Prelude.{◌≡◌, Some, None, MatchOption};
ghost use Rattle.ipld_block.specs.Codes.{codec_name_of, hash_name_of};

use ipld_cid::{DAG_CBOR, DAG_PB, RAW};

// The code of DAG-JSON in the multicodec table.
const DAG_JSON: u64 = 0x0129;

/// A codec whose blocks are read.
#[derive(Clone, Copy, Debug, PartialEq, Eq)]
pub enum BlockCodec {
    /// DAG-CBOR, 0x71.
    DagCbor,
    /// DAG-PB, 0x70.
    DagPb,
    /// DAG-JSON, 0x0129.
    DagJson,
    /// Plain bytes, 0x55.
    Raw,
}

impl BlockCodec {
    ghost use Rattle.ipld_block.specs.Codes.{codec_of_code, NamesCodec};

    /// Returns the code in the multicodec table.
    pub fn code(self) -> u64
        ensures { codec_of_code result ≡ Some self }
    {
        match self {
            BlockCodec::DagCbor => DAG_CBOR,
            BlockCodec::DagPb => DAG_PB,
            BlockCodec::DagJson => DAG_JSON,
            BlockCodec::Raw => RAW,
        }
    }

    /// Returns the codec with this code, if its blocks are read.
    pub fn from_code(code: u64) -> Option<Self>
        ensures { result ≡ codec_of_code code }
    {
        match code {
            DAG_CBOR => Some(BlockCodec::DagCbor),
            DAG_PB => Some(BlockCodec::DagPb),
            DAG_JSON => Some(BlockCodec::DagJson),
            RAW => Some(BlockCodec::Raw),
            _ => None,
        }
    }

    /// Returns the codec with this name in the multicodec table, if its blocks are read:
    /// `dag-cbor`, `dag-pb`, `dag-json` or `raw`.
    pub fn from_name(name: &str) -> Option<Self>
        ensures { NamesCodec name.now result }
    {
        match name {
            "dag-cbor" => Some(BlockCodec::DagCbor),
            "dag-pb" => Some(BlockCodec::DagPb),
            "dag-json" => Some(BlockCodec::DagJson),
            "raw" => Some(BlockCodec::Raw),
            _ => None,
        }
    }
}

/// Returns the name of a codec in the multicodec table, if content is often in that codec.
#[tactic(auto, unfolding(crate::specs::Codes::codec_name_of))]
pub fn codec_name(code: u64) -> Option<&'static str>
    ensures { MatchOption result (codec_name_of code ≡ None) (λ name.
        codec_name_of code ≡ Some name.now) }
{
    match code {
        0x51 => Some("cbor"),
        0x55 => Some("raw"),
        0x70 => Some("dag-pb"),
        0x71 => Some("dag-cbor"),
        0x72 => Some("libp2p-key"),
        0x78 => Some("git-raw"),
        0x85 => Some("dag-jose"),
        0x90 => Some("eth-block"),
        0xb0 => Some("bitcoin-block"),
        0x0129 => Some("dag-json"),
        0x0200 => Some("json"),
        _ => None,
    }
}

/// Returns the name of a hash function in the multicodec table, if it is often used.
#[tactic(auto, unfolding(crate::specs::Codes::hash_name_of))]
pub fn hash_name(code: u64) -> Option<&'static str>
    ensures { MatchOption result (hash_name_of code ≡ None) (λ name.
        hash_name_of code ≡ Some name.now) }
{
    match code {
        0x00 => Some("identity"),
        0x11 => Some("sha1"),
        0x12 => Some("sha2-256"),
        0x13 => Some("sha2-512"),
        0x14 => Some("sha3-512"),
        0x16 => Some("sha3-256"),
        0x1b => Some("keccak-256"),
        0x1e => Some("blake3"),
        0x56 => Some("dbl-sha2-256"),
        0xb220 => Some("blake2b-256"),
        0xb260 => Some("blake2s-256"),
        _ => None,
    }
}
