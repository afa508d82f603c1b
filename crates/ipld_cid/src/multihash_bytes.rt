//! Multihashes as bytes.

ghost use Rattle.std.specs.Prelude.{◌≡◌, ◌≤◌, ◌+◌, length, Ok, IfOk};
ghost use Rattle.ipld_cid.specs.Multihash.{HashParts};
ghost use Rattle.ipld_cid.specs.MultihashBytes as encoded;

use crate::bytes::{HeaderBytes, read_digest};
use crate::error::CidError;
use crate::multihash::Multihash;
use crate::varint::read_varint;
use std::alloc::{AllocError, Global};

// Reads the multihash that the bytes encode.
#[tactic(auto, unfolding(crate::specs::MultihashBytes::read_hash))]
#[inline(always)]
fn read_hash<const S: usize>(bytes: &[u8]) -> Result<Multihash<S>, CidError>
    ensures { result ≡ encoded.read_hash S bytes.now }
{
    let (code, rest) = read_varint(bytes)?;
    let (size, rest) = read_varint(rest)?;
    let digest = read_digest(S, size, rest)?;
    Multihash::wrap(code, digest)
}

impl<const S: usize> Multihash<S> {
    /// Reads the multihash that the bytes encode (multiformats Multihash). All of the bytes have to
    /// belong to it. Does not allocate.
    ///
    /// # Errors
    ///
    /// Returns the first error from the left:
    ///
    /// - `DigestTooLong` if the length of the digest exceeds `S`, as soon as that length is read.
    /// - `End` if the bytes are a proper prefix of a multihash's bytes.
    /// - `TrailingBytes` if the bytes are a multihash's bytes with more after them.
    /// - `NotShortest` and `VarintTooLarge` as [`CidError`] describes them.
    pub fn from_bytes(bytes: &[u8]) -> Result<Self, CidError>
        ensures found { IfOk result (λ hash. encoded.IsEncodedHash S bytes.now hash) }
        ensures only { (hash : HashParts) → encoded.IsEncodedHash S bytes.now hash
            → result ≡ Ok hash }
        ensures exact { result ≡ encoded.read_hash S bytes.now }
    {
        read_hash(bytes)
    }

    // Returns the bytes before the digest.
    #[inline(always)]
    fn header(&self) -> HeaderBytes
        ensures written { result ≡ encoded.hash_head_of self.now }
        ensures short { length result ≤ 20 }
    {
        let mut head = HeaderBytes::new();
        head.push_varint(self.code());
        head.push_varint(self.size() as u64);
        head
    }

    /// Returns the number of bytes that [`to_bytes`](Self::to_bytes) returns, at most `20 + S`.
    /// Does not allocate. `S` has to be at most 1,048,576.
    #[tactic(auto, unfolding(crate::specs::MultihashBytes::hash_bytes_of))]
    pub fn encoded_len(&self) -> usize
        requires { S ≤ 1048576 }
        ensures len { result ≡ length (encoded.hash_bytes_of self.now) }
        ensures short { result ≤ 20 + S }
    {
        self.header().len() + self.digest().len()
    }

    /// Returns the multihash's bytes (multiformats Multihash), which are the only bytes that encode
    /// it. `S` has to be at most 1,048,576.
    ///
    /// [`from_bytes`](Self::from_bytes) reads them as the same multihash. Allocates once, exactly
    /// the length of the bytes.
    ///
    /// # Errors
    ///
    /// `AllocError` if the allocation fails.
    #[tactic(auto, unfolding(crate::specs::MultihashBytes::hash_bytes_of))]
    pub fn to_bytes(&self, alloc: Global) -> Result<Vec<u8>, AllocError>
        requires { S ≤ 1048576 }
        ensures { IfOk result (λ bytes. bytes.items ≡ encoded.hash_bytes_of self.now) }
    {
        let head = self.header();
        let digest = self.digest();
        let mut bytes = Vec::with_capacity(alloc, head.len() + digest.len())?;
        bytes.extend_from_slice(head.as_slice())?;
        bytes.extend_from_slice(digest)?;
        Ok(bytes)
    }
}
