//! Content identifiers from text.

ghost use Rattle.std.specs.Prelude.{◌≡◌, ◌==◌, ◌≤◌, ◌<◌, ◌*◌, ◌/◌, ◌⊎◌, ℕ, List, take, length, Ok, Err, Some, None, MatchResult, MatchOption, IfOk, IfErr, is_some};
ghost use Rattle.std.specs.List.{flat_map, list_all};
ghost use Rattle.ipld_cid.specs.Base32.{bits};
ghost use Rattle.ipld_cid.specs.Cid.{Link};
ghost use Rattle.ipld_cid.specs.LinkOf.{link_of};
ghost use Rattle.ipld_cid.specs.ReadsText.{ReadsText};
ghost use Rattle.ipld_cid.specs.TextReading as reading;

use crate::base32::BASE32_VALUES;
use crate::cid::{Cid, CidGeneric};
use crate::error::CidError;
use std::alloc::Global;
use std::str::FromStr;

// The number of decoded bytes that fit on the stack: enough for every CID with a digest of at most
// 65 bytes.
const SHORT: usize = 96;

// The largest number of letters that encode at most `SHORT` bytes.
const SHORT_LETTERS: usize = 154;

// Returns the number whose forty bits are those of eight letters.
#[inline(always)]
fn block_number(letters: &[u8; 8]) -> Option<u64>
    ensures { MatchOption result (reading.values letters.now ≡ None)
        (λ n. (groups : List ℕ) × (reading.values letters.now ≡ Some groups)
        × (flat_map (bits 5) groups ≡ bits 40 n)) }
{
    let mut bits = 0;
    // The bitwise OR of the values, which is below 32 if all of them are.
    let mut seen = 0;
    for letter in letters {
        let value = BASE32_VALUES[*letter as usize];
        bits = 32 * bits + u64::from(value);
        seen |= value;
    }
    if seen < 32 { Some(bits) } else { None }
}

// Returns the bytes that eight letters encode.
#[inline(always)]
fn block_bytes(letters: &[u8; 8]) -> Option<[u8; 5]>
    ensures { result ≡ reading.decoded letters.now }
{
    let [_, _, _, a, b, c, d, e] = block_number(letters)?.to_be_bytes();
    Some([a, b, c, d, e])
}

// Checks whether all bytes are zero.
#[inline(always)]
fn are_zero(bytes: &[u8]) -> bool
    ensures { result ≡ list_all (λ b. b == 0) bytes.now }
{
    bytes.iter().all(|byte| *byte == 0)
}

// Returns the bytes that fewer than eight letters encode, and their number.
#[inline(always)]
fn last_bytes(letters: &[u8]) -> Option<([u8; 5], usize)>
    requires { length letters.now < 8 }
    ensures { MatchOption result (reading.decoded letters.now ≡ None)
        (λ last. (last.1 ≡ 5 * length letters.now / 8)
        × (reading.decoded letters.now ≡ Some (take last.1 last.0))) }
{
    // One, three or six letters leave at least five bits over, which is enough for a letter.
    if 5 * letters.len() % 8 > 4 {
        return None;
    }
    let mut block = [b'a'; 8];
    block[..letters.len()].copy_from_slice(letters);
    let bytes = block_bytes(&block)?;
    let count = 5 * letters.len() / 8;
    if are_zero(&bytes[count..]) {
        Some((bytes, count))
    } else {
        None
    }
}

// Returns the number of bytes that the letters encode.
#[inline(always)]
fn decoded_len(letters: &[u8]) -> usize
    ensures { result ≡ 5 * length letters.now / 8 }
{
    5 * (letters.len() / 8) + 5 * (letters.len() % 8) / 8
}

// Writes the bytes that the letters encode. Returns `None` if they do not encode bytes.
#[inline(always)]
fn decode_letters(letters: &[u8], bytes: &mut [u8]) -> Option<()>
    requires { length bytes.old ≡ 5 * length letters.now / 8 }
    ensures { MatchOption result (reading.decoded letters.now ≡ None) (λ _.
        reading.decoded letters.now ≡ Some bytes.new) }
{
    let (blocks, rest) = letters.as_chunks::<8>();
    for (i, block) in blocks.iter().enumerate() {
        let five = block_bytes(block)?;
        bytes[5 * i..5 * i + 5].copy_from_slice(&five);
    }
    let (last, count) = last_bytes(rest)?;
    bytes[5 * blocks.len()..].copy_from_slice(&last[..count]);
    Some(())
}

// Checks whether the bytes begin like those of a version 0 CID.
#[inline(always)]
fn begins_v0(bytes: &[u8]) -> bool
    ensures { result ≡ reading.begins_v0 bytes.now }
{
    match bytes {
        [0x12, 0x20, ..] => true,
        _ => false,
    }
}

// Reads the CID whose bytes the letters encode. The bytes are written into `bytes`.
#[inline(always)]
fn read_letters<const S: usize>(letters: &[u8], bytes: &mut [u8]) -> Result<CidGeneric<S>, CidError>
    requires { length bytes.old ≡ 5 * length letters.now / 8 }
    ensures { MatchResult result
        (λ c. reading.read_decoded S (reading.decoded letters.now) ≡ Ok (link_of c))
        (λ error. reading.read_decoded S (reading.decoded letters.now) ≡ Err error) }
{
    if decode_letters(letters, bytes).is_none() || begins_v0(bytes) {
        return Err(CidError::InvalidText);
    }
    CidGeneric::try_from(&*bytes)
}

// Reads the CID whose bytes the letters encode, for any number of letters. The bytes are written
// into a vector.
fn read_long_text<const S: usize>(alloc: Global, letters: &[u8]) -> Result<CidGeneric<S>, CidError>
    ensures { MatchResult result
        (λ c. reading.read_decoded S (reading.decoded letters.now) ≡ Ok (link_of c))
        (λ error. (error ≡ CidError.Memory) ⊎ (reading.read_decoded S (reading.decoded letters.now)
        ≡ Err error)) }
{
    let mut bytes = Vec::new(alloc);
    let Ok(()) = bytes.resize(decoded_len(letters), 0) else {
        return Err(CidError::Memory);
    };
    read_letters(letters, &mut bytes)
}

// Reads the CID whose bytes at most 154 letters encode. The bytes are written onto the stack.
#[inline(always)]
fn read_short_text<const S: usize>(letters: &[u8]) -> Result<CidGeneric<S>, CidError>
    requires { length letters.now ≤ 154 }
    ensures { MatchResult result
        (λ c. reading.read_decoded S (reading.decoded letters.now) ≡ Ok (link_of c))
        (λ error. reading.read_decoded S (reading.decoded letters.now) ≡ Err error) }
{
    let mut bytes = [0; SHORT];
    read_letters(letters, &mut bytes[..decoded_len(letters)])
}

// Reads the CID that the text encodes.
#[tactic(auto, unfolding(crate::specs::TextReading::read_text))]
#[inline(always)]
fn read_text<const S: usize>(alloc: Global, text: &[u8]) -> Result<CidGeneric<S>, CidError>
    ensures exact { MatchResult result
        (λ c. reading.read_text S text.now ≡ Ok (link_of c))
        (λ error. (error ≡ CidError.Memory) ⊎ (reading.read_text S text.now ≡ Err error)) }
    ensures short { length text.now ≤ 155 → IfErr result (λ error. reading.read_text S text.now
        ≡ Err error) }
{
    let [b'b', letters @ ..] = text else {
        return Err(CidError::InvalidText);
    };
    if letters.len() > SHORT_LETTERS {
        return read_long_text(alloc, letters);
    }
    read_short_text(letters)
}

// Checks whether the letters encode bytes.
fn are_decodable(letters: &[u8]) -> bool
    ensures { result ≡ is_some (reading.decoded letters.now) }
{
    let (blocks, rest) = letters.as_chunks::<8>();
    for block in blocks {
        if block_bytes(block).is_none() {
            return false;
        }
    }
    last_bytes(rest).is_some()
}

// Returns the reason why letters do not encode a CID. They encode more bytes than any CID has with
// a digest of at most 64 bytes.
fn long_text_error(letters: &[u8]) -> CidError
    requires { 155 ≤ length letters.now }
    ensures { reading.read_decoded 64 (reading.decoded letters.now) ≡ Err result }
{
    // The longest CID has fewer bytes than `front` encodes, so an error in it shows in `front`.
    let (front, rest) = letters.split_at(152);
    let mut bytes = [0; 95];
    if decode_letters(front, &mut bytes).is_none() {
        return CidError::InvalidText;
    }
    if begins_v0(&bytes) || !are_decodable(rest) {
        return CidError::InvalidText;
    }
    match Cid::try_from(bytes.as_slice()) {
        Ok(_) => CidError::TrailingBytes,
        Err(error) => error,
    }
}

// Reads the CID that the text encodes, with a digest of at most 64 bytes.
#[tactic(auto, unfolding(crate::specs::TextReading::read_text))]
#[inline(always)]
fn read_cid_text(text: &[u8]) -> Result<Cid, CidError>
    ensures { MatchResult result
        (λ c. reading.read_text 64 text.now ≡ Ok (link_of c))
        (λ error. reading.read_text 64 text.now ≡ Err error) }
{
    let [b'b', letters @ ..] = text else {
        return Err(CidError::InvalidText);
    };
    if letters.len() <= SHORT_LETTERS {
        read_short_text(letters)
    } else {
        Err(long_text_error(letters))
    }
}

impl<const S: usize> CidGeneric<S> {
    /// Reads a text as the version 1 CID that it encodes. [`to_text`](CidGeneric::to_text) returns
    /// this text. It is the multibase prefix `b`, followed by the base32 of the CID's bytes (RFC
    /// 4648, section 6) in lower case and without padding. Every version 1 CID has one such text.
    ///
    /// Does not allocate for a text of at most 155 bytes. The text of every [`Cid`](crate::Cid) is
    /// within that limit. For a longer text, it allocates once, for the bytes that the letters
    /// encode. For a [`Cid`](crate::Cid), `text.parse()` does not need an allocator.
    ///
    /// # Errors
    ///
    /// - [`CidError::InvalidText`] in any of these cases:
    ///   - The text is empty, or its first character is not `b`.
    ///   - A character after the `b` is not one of `a` to `z` and `2` to `7`.
    ///   - The number of characters after the `b` is 1, 3 or 6 modulo 8.
    ///   - A bit is set after the last byte.
    ///   - The bytes begin with `12 20`, like those of a version 0 CID, which has no such text.
    /// - The error that `try_from` returns for the bytes, if the text is valid and its bytes are
    ///   not a CID.
    /// - [`CidError::Memory`] if the allocation for the bytes of a longer text fails.
    pub fn from_text(alloc: Global, text: &str) -> Result<Self, CidError>
        ensures found { IfOk result (λ c. reading.IsText S (link_of c) text.now) }
        ensures only { (link : Link) → reading.IsText S link text.now
            → MatchResult result (λ c. link_of c ≡ link) (λ error. error ≡ CidError.Memory) }
        ensures exact { MatchResult result
            (λ c. reading.read_text S text.now ≡ Ok (link_of c))
            (λ error. (error ≡ CidError.Memory) ⊎ (reading.read_text S text.now ≡ Err error)) }
        ensures short { length text.now ≤ 155
            → IfErr result (λ error. reading.read_text S text.now ≡ Err error) }
    {
        read_text(alloc, text.as_bytes())
    }
}

impl FromStr for CidGeneric<64> {
    type Err = CidError;

    ghost from_str_gives = { ReadsText };

    /// Reads a text as the version 1 CID that it encodes, like
    /// [`from_text`](CidGeneric::from_text), but does not allocate.
    ///
    /// # Errors
    ///
    /// The errors of `from_text`, except [`CidError::Memory`], which is never returned.
    ///
    /// # Examples
    ///
    /// ```rust
    /// let cid: Cid = "bafkreibme22gw2h7y2h7tg2fhqotaqjucnbc24deqo72b6mkl2egezxhvy".parse()?;
    /// ```
    fn from_str(text: &str) -> Result<Self, CidError> {
        read_cid_text(text.as_bytes())
    }
}

impl TryFrom<&str> for CidGeneric<64> {
    type Error = CidError;

    ghost try_from_gives = { λ text result. ReadsText text.now result };

    /// Reads a text as the version 1 CID that it encodes, like `text.parse()`. Does not allocate.
    fn try_from(text: &str) -> Result<Self, CidError> {
        read_cid_text(text.as_bytes())
    }
}
