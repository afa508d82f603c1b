//! Content identifiers.

ghost use Rattle.std.specs.Prelude.{◌≡◌, IsOkAnd};
ghost use Rattle.ipld_cid.specs.Cid.{link_from_parts, hash_of, IsValid, IsValid-prop};
ghost use Rattle.ipld_cid.specs.Multihash.{IsSha256};

use crate::error::CidError;
use crate::multicodec::{DAG_PB, SHA2_256};
use crate::multihash::Multihash;

/// The version of a content identifier (multiformats CID).
#[derive(Clone, Copy, Debug, PartialEq, Eq, PartialOrd, Ord, Hash)]
pub enum Version {
    /// Only a SHA2-256 hash of a DAG-PB block.
    V0,
    /// Any codec with any hash.
    V1,
}

/// A content identifier (multiformats CID) with a digest of at most `S` bytes: a version, the codec
/// of the content, and the hash of the content.
///
/// Every value is a valid CID: a version 0 CID has the codec [`DAG_PB`] and a [`SHA2_256`] hash of
/// 32 bytes. Two CIDs are equal if their versions, codecs and hashes are equal. CIDs are ordered by
/// version, then codec, then hash code, then the digest's length, then its bytes. `Display` prints
/// the text that [`to_text`](Self::to_text) returns. It ignores the width and does not allocate.
#[derive(Clone, Copy)]
pub struct CidGeneric<const S: usize> {
    version: Version,
    codec: u64,
    hash: Multihash<S>,
    pub ghost valid: { IsValid S (link_from_parts version codec hash) } by { IsValid-prop S (link_from_parts version codec hash) },
}

/// A content identifier with a digest of at most 64 bytes.
pub type Cid = CidGeneric<64>;

/// The maximum length of a [`Cid`] in bytes: the version, a codec and a hash code of ten bytes
/// each, the digest's length, and a digest of 64 bytes.
pub const MAX_CID_LEN: usize = 86;

/// The name of the newtype that marks a CID when typed values are written and read. The content of
/// the newtype is the CID's bytes.
pub const CID_SERDE_PRIVATE_IDENTIFIER: &str = "$__private__serde__identifier__for__cid";

impl<const S: usize> CidGeneric<S> {
    ghost use Rattle.ipld_cid.specs.LinkOf.{link_of};

    /// Creates the version 0 CID of this hash, with the codec [`DAG_PB`]. Does not allocate.
    ///
    /// # Errors
    ///
    /// `InvalidV0Multihash` if the hash is not [`SHA2_256`] with 32 bytes. No other error is
    /// returned.
    #[inline(always)]
    pub fn new_v0(hash: Multihash<S>) -> Result<Self, CidError>
        ensures made { IsSha256 hash.entry → IsOkAnd result (λ c.
            link_of c ≡ link_from_parts Version.V0 DAG_PB hash.entry) }
        ensures rejected { (IsSha256 hash.entry → ⊥) → result ≡ Err CidError.InvalidV0Multihash }
    {
        if hash.code() != SHA2_256 || hash.digest().len() != 32 {
            return Err(CidError::InvalidV0Multihash);
        }
        Ok(CidGeneric {
            version: Version::V0,
            codec: DAG_PB,
            hash,
        })
    }

    /// Creates the version 1 CID of this codec and this hash. Does not allocate.
    #[inline(always)]
    pub fn new_v1(codec: u64, hash: Multihash<S>) -> Self
        ensures { link_of result ≡ link_from_parts Version.V1 codec hash.entry }
    {
        // The contract of `digest` makes the CID valid.
        let _digest = hash.digest();
        CidGeneric {
            version: Version::V1,
            codec,
            hash,
        }
    }

    /// Returns the version.
    #[inline(always)]
    pub fn version(&self) -> Version
        ensures { result ≡ (link_of self.now).version }
    {
        self.version
    }

    /// Returns the codec of the content, a code of the multicodec table.
    #[inline(always)]
    pub fn codec(&self) -> u64
        ensures { result ≡ (link_of self.now).codec }
    {
        self.codec
    }

    /// Returns the hash of the content, with its code.
    #[inline(always)]
    pub fn hash(&self) -> &Multihash<S>
        ensures { result.now ≡ hash_of (link_of self.now) }
    {
        &self.hash
    }
}
