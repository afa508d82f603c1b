//! Content identifiers from any of their texts.

ghost use Rattle.std.specs.Prelude.{◌≡◌, ◌≤◌, ◌<◌, ◌+◌, ℕ, List, Some, None, Err, length, drop, MatchResult, MatchOption, IfOk, IfErr, IsOkAnd};
ghost use Rattle.ipld_cid.specs.Cid.{Link};
ghost use Rattle.ipld_cid.specs.Bytes.{IsCid};
ghost use Rattle.ipld_cid.specs.LinkOf.{link_of};
ghost use Rattle.ipld_cid_text.specs.Encodes.{Encodes};
ghost use Rattle.ipld_cid_text.specs.Text as texts;

use crate::base::Base;
use crate::encode::{decode_digits, digits_of_letters};
use crate::error::TextError;
use ipld_cid::{Cid, Version};

// More letters than this encode more bytes than any CID has.
const MOST: usize = 190;

// The number of characters before the CID.
#[inline(always)]
fn path_len(text: &[u8]) -> usize
    ensures len { result ≡ texts.path_len text.now }
    ensures within { result ≤ length text.now }
    ensures short { result ≤ 6 }
{
    match text {
        [b'/', b'i', b'p', b'f', b's', b'/', ..] => 6,
        _ => 0,
    }
}

// Whether the text begins with `Qm`.
#[inline(always)]
fn begins_qm(text: &[u8]) -> bool
    ensures { result ≡ texts.begins_qm text.now }
{
    match text {
        [b'Q', b'm', ..] => true,
        _ => false,
    }
}

// The form of a text, by its first characters: the base, the version, and the number of characters
// before the letters.
#[inline(always)]
fn form_of(text: &[u8]) -> Option<(Base, Version, usize)>
    ensures { MatchOption result (texts.form_of text.now ≡ None)
        (λ form. (texts.form_of text.now ≡ Some
        (record { base = form.0; version = form.1; skip = form.2 })) × (form.2 ≤ length text.now)
        × (form.2 ≤ 1)) }
{
    if text.len() == 46 && begins_qm(text) {
        return Some((Base::Base58Btc, Version::V0, 0));
    }
    let [first, ..] = text else {
        return None;
    };
    let base = Base::from_code(char::from(*first))?;
    Some((base, Version::V1, 1))
}

// The CID whose bytes the letters encode. The letters begin at `place` in the text.
fn read_letters(
    base: Base,
    version: Version,
    place: usize,
    letters: &[u8],
) -> Result<Cid, TextError>
    requires { place ≤ 7 }
    ensures why { MatchResult result
        (λ cid. ((link_of cid).version ≡ version) × (bytes : List ℕ)
        × Encodes base bytes letters.now × IsCid 64 bytes (link_of cid))
        (λ error. texts.IsLettersError base version place letters.now error) }
    ensures long { 190 < length letters.now → result ≡ Err TextError.InvalidLength }
{
    if letters.len() > MOST {
        return Err(TextError::InvalidLength);
    }
    let digits = match digits_of_letters(base, letters) {
        Ok(digits) => digits,
        Err(at) => return Err(TextError::InvalidLetter(place + at)),
    };
    let bytes = match decode_digits(base, digits.as_slice()) {
        Ok(bytes) => bytes,
        Err(error) => return Err(error),
    };
    match Cid::try_from(bytes.as_slice()) {
        Ok(cid) => {
            if cid.version() == version {
                Ok(cid)
            } else {
                Err(TextError::WrongVersion)
            }
        }
        Err(error) => Err(TextError::Cid(error)),
    }
}

// The CID of a text, in any base.
fn read_text(text: &[u8]) -> Result<Cid, TextError>
    ensures why { MatchResult result (λ cid. texts.IsText (link_of cid) text.now) (λ error.
        texts.IsTextError text.now error) }
    ensures long { texts.IsTooLong text.now → result ≡ Err TextError.InvalidLength }
{
    let path = path_len(text);
    let Some((base, version, skip)) = form_of(&text[path..]) else {
        return Err(TextError::UnknownBase);
    };
    read_letters(base, version, path + skip, &text[path + skip..])
}

/// Reads the CID of a text in any [`Base`]. For version 0 that is `Qm..`, and for version 1 a
/// multibase text. The text may follow `/ipfs/`.
///
/// Every CID of version 1 with a digest of at most 64 bytes has such a text in every base, and
/// every CID of version 0 has one in base58btc. [`to_string_of_base`](crate::to_string_of_base)
/// returns it. No text belongs to two CIDs. Does not allocate.
///
/// # Errors
///
/// - [`TextError::UnknownBase`] if the text, without `/ipfs/`, is empty or begins with a character
///   that is not the prefix of a [`Base`].
/// - [`TextError::InvalidLength`] if more than 190 bytes follow the prefix, letters or not, or if
///   the letters leave over at least as many bits as a letter has.
/// - [`TextError::InvalidLetter`] if a character is not a letter of the base. It contains the
///   position of the first one in the text, in bytes.
/// - [`TextError::UnusedBits`] if the bits that the last letter leaves over are not zero.
/// - [`TextError::WrongVersion`] if a multibase text contains the bytes of a version 0 CID. That
///   version does not have multibase texts.
/// - [`TextError::Cid`] if the letters encode bytes that are not a CID. It contains the error of
///   reading those bytes.
pub fn parse_any(text: &str) -> Result<Cid, TextError>
    ensures found { IfOk result (λ cid. texts.IsText (link_of cid) text.now) }
    ensures only { (link : Link) → texts.IsText link text.now
        → IsOkAnd result (λ cid. link_of cid ≡ link) }
    ensures error { IfErr result (λ error. texts.IsTextError text.now error) }
    ensures long { texts.IsTooLong text.now → result ≡ Err TextError.InvalidLength }
{
    // Most texts are in base32, which `ipld_cid` reads eight letters at a time.
    match Cid::try_from(text) {
        Ok(cid) => Ok(cid),
        Err(_) => read_text(text.as_bytes()),
    }
}
