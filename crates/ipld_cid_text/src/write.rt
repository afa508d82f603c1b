//! The text of a content identifier in a base.

ghost use Rattle.std.specs.Prelude.{◌≡◌, ◌≤◌, ◌++◌, ◌∷◌, ◌⊎◌, ℕ, List, length, map, if◌then◌else◌, IfOk, OnOk, IsAscii, MatchResult};
ghost use Rattle.std.specs.String.{string_bytes};
ghost use Rattle.ipld_cid.specs.Bytes.{bytes_of};
ghost use Rattle.ipld_cid.specs.LinkOf.{link_of};
ghost use Rattle.ipld_cid_text.specs.Base.{letter, prefix, size};
ghost use Rattle.ipld_cid_text.specs.Digits.{IsBelow};
ghost use Rattle.ipld_cid_text.specs.Encodes.{Encodes};
ghost use Rattle.ipld_cid_text.specs.Text.{IsTextIn, IsText, IsPrefixed};
ghost use Rattle.ipld_cid_text.specs.UsualText.{usual_text};

use crate::base::Base;
use crate::encode::encode_digits;
use crate::error::ToStringError;
use ipld_cid::{Cid, Version};
use std::alloc::{AllocError, Global};

// Appends the letters of digits.
#[inline(always)]
fn push_letters(text: &mut Vec<u8>, base: Base, digits: &[u8]) -> Result<(), AllocError>
    requires { IsBelow (size base) digits.now }
    ensures { OnOk result (text.new.items ≡ text.old.items ++ map (letter base) digits.now) }
{
    let letters = base.letters();
    for digit in digits {
        text.push(letters[*digit as usize])?;
    }
    Ok(())
}

// The letters that encode the bytes of the CID, after the prefix if `prefixed`.
fn letters_of(alloc: Global, cid: &Cid, base: Base, prefixed: bool) -> Result<Vec<u8>, AllocError>
    ensures { IfOk result (λ text. IsPrefixed base prefixed
        (bytes_of (link_of cid.now)) text.items) }
{
    let mut text = Vec::with_capacity(alloc, 1 + base.most_letters(cid.encoded_len()))?;
    cid.write_bytes(&mut text)?;
    let digits = encode_digits(base, &text);
    text.clear();
    if prefixed {
        text.push(base.prefix())?;
    }
    push_letters(&mut text, base, digits.as_slice())?;
    Ok(text)
}

// The letters as a string. They are ASCII.
fn text_of(alloc: Global, cid: &Cid, base: Base, prefixed: bool) -> Result<String, AllocError>
    ensures { IfOk result (λ text. IsPrefixed base prefixed (bytes_of (link_of cid.now))
        (string_bytes text)) }
{
    let letters = letters_of(alloc, cid, base, prefixed)?;
    let Ok(text) = String::from_utf8(letters) else {
        unreachable!()
    };
    Ok(text)
}

// The text of the CID in the base, if it has one.
fn write_text(alloc: Global, cid: &Cid, base: Base) -> Result<String, ToStringError>
    ensures { MatchResult result
        (λ text. IsTextIn base (link_of cid.now) (string_bytes text))
        (λ error. (error ≡ ToStringError.Memory)
        ⊎ ((error ≡ ToStringError.InvalidCidV0Base) × ((link_of cid.now).version ≡ Version.V0)
        × (base ≡ Base.Base58Btc → ⊥))) }
{
    let prefixed = match cid.version() {
        Version::V0 => {
            if base != Base::Base58Btc {
                return Err(ToStringError::InvalidCidV0Base);
            }
            false
        }
        Version::V1 => true,
    };
    match text_of(alloc, cid, base, prefixed) {
        Ok(text) => Ok(text),
        Err(_) => Err(ToStringError::Memory),
    }
}

/// Returns the text of a CID in a [`Base`].
///
/// For version 1, this is the multibase prefix and the letters that encode the bytes of the CID.
/// For version 0, it is the letters without a prefix, and exists only in [`Base::Base58Btc`].
///
/// [`parse_any`](crate::parse_any) reads the text as that CID. Allocates once, at most a few bytes
/// more than the text has.
///
/// # Errors
///
/// - [`ToStringError::InvalidCidV0Base`] if the CID is of version 0 and the base is not base58btc.
/// - [`ToStringError::Memory`] if the allocation fails.
pub fn to_string_of_base(alloc: Global, cid: &Cid, base: Base) -> Result<String, ToStringError>
    ensures exact { MatchResult result
        (λ text. IsTextIn base (link_of cid.now) (string_bytes text))
        (λ error. (error ≡ ToStringError.Memory)
        ⊎ ((error ≡ ToStringError.InvalidCidV0Base) × ((link_of cid.now).version ≡ Version.V0)
        × (base ≡ Base.Base58Btc → ⊥))) }
    ensures round_trip { IfOk result (λ text. IsText (link_of cid.now) (string_bytes text)) }
{
    write_text(alloc, cid, base)
}

/// Returns the usual text of a CID: the multibase prefix `b` and base32 for version 1, or base58btc
/// for version 0.
///
/// [`parse_any`](crate::parse_any) reads it as that CID. Allocates once, at most a few characters
/// more than the text has.
///
/// # Errors
///
/// `AllocError` if the allocation fails.
pub fn usual_text(alloc: Global, cid: &Cid) -> Result<String, AllocError>
    ensures exact { IfOk result (λ text. string_bytes text ≡ usual_text (link_of cid.now)) }
    ensures round_trip { IfOk result (λ text. IsText (link_of cid.now) (string_bytes text)) }
{
    match cid.version() {
        Version::V0 => text_of(alloc, cid, Base::Base58Btc, false),
        Version::V1 => cid.to_text(alloc),
    }
}
