//! The content identifier (CID) of a block, and the check that a block is the one that a CID names.

ghost use Rattle.std.specs.Prelude.{◌≡◌, ◌≢◌, Some, MatchResult};
ghost use Rattle.sha2.specs.Sha256.{sha256};
ghost use Rattle.ipld_cid.specs.LinkOf.{link_of};
ghost use Rattle.ipld_block.specs.Digest.{digest_by, IsVerifyError};

mod error;

use blake2b::Blake2b256;
pub use error::VerifyError;
use ipld_cid::{Cid, IDENTITY, Multihash, SHA2_256, Version};
use sha2::{Digest, Sha256, Sha512};

/// The code of SHA2-512 in the multicodec table.
pub const SHA2_512: u64 = 0x13;

/// The code of BLAKE2b-256 in the multicodec table.
pub const BLAKE2B_256: u64 = 0xb220;

/// Returns the CID of a block in this codec. It has version 1 and the block's SHA2-256 digest. Does
/// not allocate.
///
/// The codec is a code of the multicodec table, such as [`DAG_CBOR`](ipld_cid::DAG_CBOR) or
/// [`RAW`](ipld_cid::RAW). It is not checked that the block is valid for that codec. In Rust this
/// is `Cid::new_v1(codec, Code::Sha2_256.digest(block))`, with `multihash-codetable`.
pub fn cid_of(codec: u64, block: &[u8]) -> Cid
    ensures { link_of result ≡ record {
      version = Version.V1;
      codec = codec;
      code = SHA2_256;
      digest = sha256 block.now;
    } }
{
    let digest = Sha256::digest(block);
    let Ok(hash) = Multihash::wrap(SHA2_256, &digest) else {
        unreachable!()
    };
    Cid::new_v1(codec, hash)
}

// [begin: verify]
/// Checks that a block is the one that a CID names: its digest, by the hash function of the CID,
/// equals that of the CID. Does not allocate.
///
/// The known hash functions are SHA2-256, SHA2-512, BLAKE2b-256, and identity, whose digest is the
/// block itself. The digest has to be complete: a truncated digest differs.
///
/// # Errors
///
/// - [`VerifyError::UnknownHash`] if the CID has another hash function, with its code. The block
///   may be the CID's or not.
/// - [`VerifyError::WrongDigest`] if the block has another digest. The block is not the CID's then.
pub fn verify(cid: &Cid, block: &[u8]) -> Result<(), VerifyError>
    ensures { MatchResult result
        (λ _. digest_by (link_of cid.now).code block.now ≡ Some (link_of cid.now).digest)
        (λ error. IsVerifyError (link_of cid.now) block.now error) }
{
    let hash = cid.hash();
    match hash.code() {
        SHA2_256 => compare_digests(&Sha256::digest(block), hash.digest()),
        SHA2_512 => compare_digests(&Sha512::digest(block), hash.digest()),
        BLAKE2B_256 => compare_digests(&Blake2b256::digest(block), hash.digest()),
        IDENTITY => compare_digests(block, hash.digest()),
        code => Err(VerifyError::UnknownHash(code)),
    }
}
// [end: verify]

// Checks that the digests are equal.
fn compare_digests(digest: &[u8], expected: &[u8]) -> Result<(), VerifyError>
    ensures { MatchResult result (λ _. digest.now ≡ expected.now)
        (λ error. (error ≡ VerifyError.WrongDigest) × (digest.now ≢ expected.now)) }
{
    if digest == expected {
        Ok(())
    } else {
        Err(VerifyError::WrongDigest)
    }
}
