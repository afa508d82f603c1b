//! Bytes as digits of a base, digits as letters, and back.

ghost use Rattle.std.specs.Prelude.{◌≤◌, length, MatchResult};
ghost use Rattle.ipld_cid_text.specs.Base.{size};
ghost use Rattle.ipld_cid_text.specs.Digits.{IsBelow};
ghost use Rattle.ipld_cid_text.specs.Encodes.{IsEncoded, IsUnencoded, AreDigits, IsFirstOther};

use crate::base::Base;
use crate::convert::convert_base;
use crate::digits::Digits;
use crate::error::TextError;
use crate::regroup::{bytes_of_groups, groups_of};

// The digits that encode bytes.
pub(crate) fn encode_digits(base: Base, bytes: &[u8]) -> Digits
    requires { length bytes.now ≤ 95 }
    ensures { IsEncoded base bytes.now result }
{
    match base {
        Base::Base16Lower => groups_of::<4>(bytes),
        Base::Base32Lower => groups_of::<5>(bytes),
        Base::Base32Upper => groups_of::<5>(bytes),
        Base::Base36Lower => convert_base::<256, 3, 2176782336, 36, 6>(bytes),
        Base::Base58Btc => convert_base::<256, 3, 656356768, 58, 5>(bytes),
        Base::Base64Url => groups_of::<6>(bytes),
    }
}

// The bytes that digits encode.
pub(crate) fn decode_digits(base: Base, digits: &[u8]) -> Result<Digits, TextError>
    requires few { length digits.now ≤ 190 }
    requires below { IsBelow (size base) digits.now }
    ensures { MatchResult result (λ bytes. IsEncoded base bytes digits.now) (λ error.
        IsUnencoded base digits.now error) }
{
    match base {
        Base::Base16Lower => bytes_of_groups::<4>(digits),
        Base::Base32Lower => bytes_of_groups::<5>(digits),
        Base::Base32Upper => bytes_of_groups::<5>(digits),
        Base::Base36Lower => Ok(convert_base::<36, 6, 4294967296, 256, 4>(digits)),
        Base::Base58Btc => Ok(convert_base::<58, 5, 4294967296, 256, 4>(digits)),
        Base::Base64Url => bytes_of_groups::<6>(digits),
    }
}

// The digits of the letters, or the index of the first character that is not a letter.
#[inline(always)]
pub(crate) fn digits_of_letters(base: Base, letters: &[u8]) -> Result<Digits, usize>
    requires { length letters.now ≤ 190 }
    ensures { MatchResult result (λ digits. AreDigits base letters.now digits) (λ place.
        IsFirstOther base letters.now place) }
{
    let values = base.values();
    let mut digits = Digits::new();
    for (place, letter) in letters.iter().enumerate() {
        let digit = values[*letter as usize];
        if digit == 255 {
            return Err(place);
        }
        digits.push(digit);
    }
    Ok(digits)
}
