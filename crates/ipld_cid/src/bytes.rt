//! Content identifiers as bytes.

ghost use Rattle.std.specs.Prelude.{◌≡◌, ◌≤◌, ◌<◌, ◌+◌, ◌++◌, List, ℕ, length, drop, Ok, Err, MatchResult, MatchOption, IfOk, IfErr, IsOkAnd, IsSome, OnErr, is_ok, if◌then◌else◌, vec_len, vec_capacity};
ghost use Rattle.ipld_cid.specs.Bytes as encoded;
ghost use Rattle.ipld_cid.specs.Cid.{Link};
ghost use Rattle.ipld_cid.specs.Front as front;
ghost use Rattle.ipld_cid.specs.LinkOf.{link_of};

use crate::byte_buffer::ByteBuffer;
use crate::cid::{CidGeneric, Version};
use crate::error::CidError;
use crate::multicodec::SHA2_256;
use crate::multihash::Multihash;
use crate::varint::read_varint;
use std::alloc::{AllocError, Global};

// The bytes before a digest, at most 31, and the first bytes of the digest, which complete the last
// block of five.
pub(crate) type HeaderBytes = ByteBuffer<35>;

// Returns the bytes after the version, which has to be 1.
#[tactic(auto, unfolding(crate::specs::Bytes::after_version))]
#[inline(always)]
fn skip_version(bytes: &[u8]) -> Result<&[u8], CidError>
    ensures { MatchResult result
        (λ rest. encoded.after_version bytes.now ≡ Ok rest.now)
        (λ error. encoded.after_version bytes.now ≡ Err error) }
{
    let (version, rest) = read_varint(bytes)?;
    match version {
        0 => Err(CidError::ExplicitVersion0),
        1 => Ok(rest),
        _ => Err(CidError::UnknownVersion(version)),
    }
}

// Returns the digest, if `bytes` are exactly the bytes of one with this size.
#[inline(always)]
pub(crate) fn read_digest(capacity: usize, size: u64, bytes: &[u8]) -> Result<&[u8], CidError>
    ensures { MatchResult result
        (λ digest. encoded.read_digest capacity size bytes.now ≡ Ok digest.now)
        (λ error. encoded.read_digest capacity size bytes.now ≡ Err error) }
{
    let size = size as usize;
    if capacity < size {
        Err(CidError::DigestTooLong)
    } else if bytes.len() < size {
        Err(CidError::End)
    } else if size < bytes.len() {
        Err(CidError::TrailingBytes)
    } else {
        Ok(bytes)
    }
}

// Reads the version 0 CID whose digest is these bytes.
#[tactic(auto, unfolding(crate::specs::Bytes::read_v0))]
#[inline(always)]
fn read_v0<const S: usize>(bytes: &[u8]) -> Result<CidGeneric<S>, CidError>
    ensures { MatchResult result
        (λ c. encoded.read_v0 S bytes.now ≡ Ok (link_of c))
        (λ error. encoded.read_v0 S bytes.now ≡ Err error) }
{
    let digest = read_digest(S, 32, bytes)?;
    let hash = Multihash::wrap(SHA2_256, digest)?;
    CidGeneric::new_v0(hash)
}

// Reads the version 1 CID that the bytes encode.
#[tactic(auto, unfolding(crate::specs::Bytes::read_v1))]
#[inline(always)]
fn read_v1<const S: usize>(bytes: &[u8]) -> Result<CidGeneric<S>, CidError>
    ensures { MatchResult result
        (λ c. encoded.read_v1 S bytes.now ≡ Ok (link_of c))
        (λ error. encoded.read_v1 S bytes.now ≡ Err error) }
{
    let parts = skip_version(bytes)?;
    let (codec, rest) = read_varint(parts)?;
    let (code, rest) = read_varint(rest)?;
    let (size, rest) = read_varint(rest)?;
    let digest = read_digest(S, size, rest)?;
    let hash = Multihash::wrap(code, digest)?;
    Ok(CidGeneric::new_v1(codec, hash))
}

// Reads the CID that the bytes encode.
#[tactic(auto, unfolding(crate::specs::Bytes::read_cid))]
#[inline(always)]
fn read_cid<const S: usize>(bytes: &[u8]) -> Result<CidGeneric<S>, CidError>
    ensures { MatchResult result
        (λ c. encoded.read_cid S bytes.now ≡ Ok (link_of c))
        (λ error. encoded.read_cid S bytes.now ≡ Err error) }
{
    match bytes {
        [0x12, 0x20, digest @ ..] => read_v0(digest),
        [] | [0x12] => Err(CidError::End),
        _ => read_v1(bytes),
    }
}

// Splits the bytes into a digest of this size and the bytes after it.
#[inline(always)]
fn split_digest(capacity: usize, size: u64, bytes: &[u8]) -> Result<(&[u8], &[u8]), CidError>
    ensures { MatchResult result
        (λ digest. front.split_digest capacity size bytes.now ≡ Ok (digest.0.now, digest.1.now))
        (λ error. front.split_digest capacity size bytes.now ≡ Err error) }
{
    let len = size as usize;
    if capacity < len {
        Err(CidError::DigestTooLong)
    } else if bytes.len() < len {
        Err(CidError::End)
    } else {
        Ok(bytes.split_at(len))
    }
}

// Splits the bytes into the version 0 CID whose digest is at their front, and the bytes after it.
#[tactic(auto, unfolding(crate::specs::Front::split_v0))]
#[inline(always)]
fn split_v0<const S: usize>(bytes: &[u8]) -> Result<(CidGeneric<S>, &[u8]), CidError>
    ensures { MatchResult result
        (λ split. front.split_v0 S bytes.now ≡ Ok (link_of split.0, split.1.now))
        (λ error. front.split_v0 S bytes.now ≡ Err error) }
{
    let (digest, rest) = split_digest(S, 32, bytes)?;
    let hash = Multihash::wrap(SHA2_256, digest)?;
    let cid = CidGeneric::new_v0(hash)?;
    Ok((cid, rest))
}

// Splits the bytes into the version 1 CID at their front and the bytes after it.
#[tactic(auto, unfolding(crate::specs::Front::split_v1))]
#[inline(always)]
fn split_v1<const S: usize>(bytes: &[u8]) -> Result<(CidGeneric<S>, &[u8]), CidError>
    ensures { MatchResult result
        (λ split. front.split_v1 S bytes.now ≡ Ok (link_of split.0, split.1.now))
        (λ error. front.split_v1 S bytes.now ≡ Err error) }
{
    let parts = skip_version(bytes)?;
    let (codec, rest) = read_varint(parts)?;
    let (code, rest) = read_varint(rest)?;
    let (size, rest) = read_varint(rest)?;
    let (digest, rest) = split_digest(S, size, rest)?;
    let hash = Multihash::wrap(code, digest)?;
    Ok((CidGeneric::new_v1(codec, hash), rest))
}

// Splits the bytes into the CID at their front and the bytes after it.
#[tactic(auto, unfolding(crate::specs::Front::split_cid))]
#[inline(always)]
fn split_cid<const S: usize>(bytes: &[u8]) -> Result<(CidGeneric<S>, &[u8]), CidError>
    ensures { MatchResult result
        (λ split. front.split_cid S bytes.now ≡ Ok (link_of split.0, split.1.now))
        (λ error. front.split_cid S bytes.now ≡ Err error) }
{
    match bytes {
        [0x12, 0x20, digest @ ..] => split_v0(digest),
        [] | [0x12] => Err(CidError::End),
        _ => split_v1(bytes),
    }
}

impl<const S: usize> TryFrom<&[u8]> for CidGeneric<S> {
    type Error = CidError;

    ghost use Rattle.ipld_cid.specs.Reads.{Reads};

    ghost try_from_gives = { λ bytes result. Reads S bytes.now result };

    /// Reads the CID that the bytes encode (multiformats CID). All of the bytes have to belong to
    /// it. Does not allocate.
    ///
    /// # Errors
    ///
    /// Returns the first error from the left:
    ///
    /// - `DigestTooLong` if the length of the digest exceeds `S`, as soon as that length is read.
    /// - `End` if the bytes are a proper prefix of a CID's bytes.
    /// - `TrailingBytes` if the bytes are a CID's bytes with more after them.
    /// - `NotShortest`, `VarintTooLarge`, `ExplicitVersion0` and `UnknownVersion` as [`CidError`]
    ///   describes them.
    #[inline(always)]
    fn try_from(bytes: &[u8]) -> Result<Self, CidError> {
        read_cid(bytes)
    }
}

impl<const S: usize> CidGeneric<S> {
    /// Splits the bytes into the CID at their front and the bytes after it. Does not allocate.
    ///
    /// Use a `match` on the result: the checker has no rule for `?` with a pair of a CID and a
    /// slice.
    ///
    /// At most one CID is at the front of the bytes, since a CID's bytes never begin with those of
    /// another CID.
    ///
    /// # Errors
    ///
    /// Returns the error that `try_from` returns for the same bytes, the first from the left:
    ///
    /// - `End` if the bytes are a proper prefix of a CID's bytes.
    /// - `DigestTooLong` if the length of the digest exceeds `S`, as soon as that length is read.
    ///
    /// It is never `TrailingBytes`.
    ///
    /// # Examples
    ///
    /// ```rust
    /// // A section of a CAR file is a CID and the block that it names.
    /// let (cid, block) = match Cid::split_front(section) {
    ///     Ok(split) => split,
    ///     Err(error) => return Err(error),
    /// };
    /// ```
    pub fn split_front(bytes: &[u8]) -> Result<(Self, &[u8]), CidError>
        ensures found { IfOk result (λ split. front.BeginsWith S bytes.now
            (link_of split.0) split.1.now) }
        ensures only { (link : Link) (rest : List ℕ) → front.BeginsWith S bytes.now link rest
            → IsOkAnd result (λ split. (link_of split.0 ≡ link) × (split.1.now ≡ rest)) }
        ensures error { IfErr result (λ error. encoded.read_cid S bytes.now ≡ Err error) }
    {
        split_cid(bytes)
    }

    // Returns the bytes before the digest.
    #[inline(always)]
    pub(crate) fn header(&self) -> HeaderBytes
        ensures written { result ≡ encoded.head_of (link_of self.now) }
        ensures short { length result ≤ 31 }
        ensures shorter { S ≤ 127 → length result ≤ 22 }
    {
        let mut head = HeaderBytes::new();
        match self.version() {
            Version::V0 => {
                head.push(0x12);
                head.push(0x20);
            }
            Version::V1 => {
                head.push(1);
                head.push_varint(self.codec());
                head.push_varint(self.hash().code());
                head.push_varint(self.hash().size() as u64);
            }
        }
        head
    }

    /// Returns the number of bytes that [`to_bytes`](Self::to_bytes) returns. Does not allocate.
    /// `S` has to be at most 1,048,576.
    ///
    /// The number is at most `31 + S`, and at most `22 + S` if `S` is at most 127. So a
    /// [`Cid`](crate::Cid) has at most [`MAX_CID_LEN`](crate::MAX_CID_LEN) bytes.
    #[inline(always)]
    #[tactic(auto, unfolding(crate::specs::Bytes::bytes_of))]
    pub fn encoded_len(&self) -> usize
        requires { S ≤ 1048576 }
        ensures len { result ≡ length (encoded.bytes_of (link_of self.now)) }
        ensures short { result ≤ 31 + S }
        ensures shorter { S ≤ 127 → result ≤ 22 + S }
    {
        self.header().len() + self.hash().digest().len()
    }

    /// Writes the CID's bytes, those of [`to_bytes`](Self::to_bytes), at the front of the buffer,
    /// and returns their number. The bytes of the buffer after them stay. Does not allocate. `S`
    /// has to be at most 1,048,576.
    ///
    /// Returns `None` if the buffer has fewer bytes than [`encoded_len`](Self::encoded_len). The
    /// buffer is then unchanged. A buffer of [`MAX_CID_LEN`](crate::MAX_CID_LEN) bytes is long
    /// enough for every [`Cid`](crate::Cid).
    ///
    /// # Examples
    ///
    /// ```rust
    /// let mut buffer = [0; MAX_CID_LEN];
    /// if let Some(len) = cid.write_to(&mut buffer) {
    ///     output.write_all(&buffer[..len])?;
    /// }
    /// ```
    #[tactic(auto, unfolding(crate::specs::Bytes::bytes_of))]
    pub fn write_to(&self, buffer: &mut [u8]) -> Option<usize>
        requires { S ≤ 1048576 }
        ensures written { MatchOption result
            ((length buffer.old < length (encoded.bytes_of (link_of self.now)))
            × (buffer.new ≡ buffer.old))
            (λ len. (len ≡ length (encoded.bytes_of (link_of self.now)))
            × (buffer.new ≡ encoded.bytes_of (link_of self.now) ++ drop len buffer.old)) }
        ensures fits { S ≤ 127 → 22 + S ≤ length buffer.old → IsSome result }
    {
        let head = self.header();
        let digest = self.hash().digest();
        let len = head.len() + digest.len();
        if buffer.len() < len {
            return None;
        }
        buffer[..head.len()].copy_from_slice(head.as_slice());
        buffer[head.len()..len].copy_from_slice(digest);
        Some(len)
    }

    /// Returns the CID's bytes (multiformats CID), which are the only bytes that encode it. `S` has
    /// to be at most 1,048,576.
    ///
    /// Allocates once, exactly the length of the bytes.
    ///
    /// # Errors
    ///
    /// `AllocError` if the allocation fails.
    #[tactic(auto, unfolding(crate::specs::Bytes::bytes_of))]
    pub fn to_bytes(&self, alloc: Global) -> Result<Vec<u8>, AllocError>
        requires { S ≤ 1048576 }
        ensures { IfOk result (λ bytes. bytes.items ≡ encoded.bytes_of (link_of self.now)) }
    {
        let mut bytes = Vec::with_capacity(alloc, self.encoded_len())?;
        self.write_bytes(&mut bytes)?;
        Ok(bytes)
    }

    /// Appends the CID's bytes, those of [`to_bytes`](Self::to_bytes). `S` has to be at most
    /// 1,048,576.
    ///
    /// Allocates only if the vector has no capacity for them.
    ///
    /// # Errors
    ///
    /// `AllocError` if the allocation fails. Nothing is then appended.
    #[inline(always)]
    #[tactic(auto, unfolding(crate::specs::Bytes::bytes_of))]
    pub fn write_bytes(&self, bytes: &mut Vec<u8>) -> Result<(), AllocError>
        requires { S ≤ 1048576 }
        ensures appended { bytes.new.items ≡ (if is_ok result
            then bytes.old.items ++ encoded.bytes_of (link_of self.now) else bytes.old.items) }
        ensures full { OnErr result (vec_capacity bytes.old < vec_len bytes.old + length
            (encoded.bytes_of (link_of self.now))) }
    {
        let head = self.header();
        let digest = self.hash().digest();
        bytes.reserve(head.len() + digest.len())?;
        bytes.extend_from_slice(head.as_slice())?;
        bytes.extend_from_slice(digest)
    }
}
