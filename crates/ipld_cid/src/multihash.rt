//! Hash codes with their digests.

ghost use Rattle.std.specs.Prelude.{◌≡◌, ◌<◌, ◌≤◌, length};
ghost use Rattle.ipld_cid.specs.Multihash.{IsMultihash};

use crate::error::CidError;
use std::marker::Model;

/// A multihash (multiformats Multihash): the code of a hash function in the multicodec table, and
/// the digest that the function returned, of at most `S` bytes.
///
/// Nothing is computed and nothing is checked against content: any code can have any digest. Two
/// multihashes are equal if their codes and their digests are equal. They are ordered by code, then
/// by the digest's length, then by its bytes.
#[derive(Clone, Copy)]
pub struct Multihash<const S: usize> {
    code: u64,
    size: usize,
    digest: [u8; S],
}

impl<const S: usize> Model for Multihash<S> {
    ghost use Rattle.std.specs.Prelude.{◌≡◌, ◌-◌, ◌≤◌, ◌++◌, length, take, replicate};
    ghost use Rattle.ipld_cid.specs.Multihash.{HashParts, IsMultihash};

    ghost Value = { HashParts };

    ghost view = { λ h. record { code = h.code; digest = take h.size h.digest } };

    ghost invariant = { λ h. (h.size ≤ length h.digest) × (h.digest ≡ take h.size h.digest ++ replicate (S - h.size) 0)
        × IsMultihash S (record { code = h.code; digest = take h.size h.digest }) };

    ghost inverse = { λ d. record { code = d.code; size = length d.digest; digest = d.digest ++ replicate (S - length d.digest) 0 } };
}

impl<const S: usize> Multihash<S> {
    /// Creates the multihash of this code and this digest, which is copied. Does not allocate.
    ///
    /// # Errors
    ///
    /// `DigestTooLong` if the digest has more than `S` bytes. No other error is returned.
    #[inline(always)]
    pub fn wrap(code: u64, digest: &[u8]) -> Result<Self, CidError>
        ensures made { length digest.now ≤ S → result ≡ Ok
            (record { code = code; digest = digest.now }) }
        ensures rejected { S < length digest.now → result ≡ Err CidError.DigestTooLong }
    {
        if digest.len() > S {
            return Err(CidError::DigestTooLong);
        }
        let mut padded = [0; S];
        padded[..digest.len()].copy_from_slice(digest);
        Ok(Multihash {
            code,
            size: digest.len(),
            digest: padded,
        })
    }

    /// Returns the code of the hash function.
    #[inline(always)]
    pub fn code(&self) -> u64
        ensures { result ≡ self.now.code }
    {
        self.code
    }

    /// Returns the digest, which has [`size`](Self::size) bytes.
    #[inline(always)]
    pub fn digest(&self) -> &[u8]
        ensures value { result.now ≡ self.now.digest }
        ensures known { IsMultihash S self.now }
    {
        &self.digest[..self.size]
    }

    /// Returns the length of the digest in bytes, at most `S`.
    #[inline(always)]
    pub fn size(&self) -> usize
        ensures { result ≡ length self.now.digest }
    {
        self.size
    }
}
