//! Bytes in groups of bits, and back.

ghost use Rattle.std.specs.Prelude.{◌≡◌, ◌≤◌, ◌<◌, ◌+◌, ◌*◌, ◌^◌, ◌++◌, [], ◌∷◌, ℕ, length, MatchResult};
ghost use Rattle.std.specs.List.{flat_map};
ghost use Rattle.ipld_cid.specs.Base32.{bits};
ghost use Rattle.ipld_cid_text.specs.Digits.{IsBelow, IsGrouped};
ghost use Rattle.ipld_cid_text.specs.Encodes.{IsUngrouped};

use crate::digits::Digits;
use crate::error::TextError;

// `rest` with the bits of `item` after it.
#[inline(always)]
fn append_group<const FROM: u32>(rest: u32, item: u8) -> u32
    requires from { FROM ≤ 8 }
    requires rest { rest < 256 }
    requires item { item < 2 ^ FROM }
    ensures { result ≡ rest * 2 ^ FROM + item }
{
    (rest << FROM) + u32::from(item)
}

// The bits before the last `count` bits, and the last `count` bits.
#[inline(always)]
fn split_group(rest: u32, count: u32) -> (u32, u32)
    requires { count < 32 }
    ensures whole { result.0 * 2 ^ count + result.1 ≡ rest }
    ensures below { result.1 < 2 ^ count }
{
    (rest >> count, rest & ((1 << count) - 1))
}

// Puts the bits of items into groups of `TO` bits. Returns the groups, the bits that are left over,
// and the number of these bits.
#[inline(always)]
fn regroup<const FROM: u32, const TO: u32>(items: &[u8]) -> (Digits, u32, u32)
    requires from { FROM ≤ 8 }
    requires to { TO ≤ 8 }
    requires to_wide { 4 ≤ TO }
    requires few { length items.now ≤ 190 }
    requires below { IsBelow (2 ^ FROM) items.now }
    ensures count { result.2 < TO }
    ensures rest { result.1 < 2 ^ result.2 }
    ensures below { IsBelow (2 ^ TO) result.0 }
    ensures few { length result.0 ≤ 380 }
    ensures bits { flat_map (bits FROM) items.now ≡ flat_map (bits TO) result.0
        ++ bits result.2 result.1 }
{
    let mut groups = Digits::new();
    let mut rest = 0;
    let mut count = 0;
    for item in items {
        rest = append_group::<FROM>(rest, *item);
        count += FROM;
        while count >= TO {
            let (group, low) = split_group(rest, count - TO);
            groups.push(group as u8);
            rest = low;
            count -= TO;
        }
    }
    (groups, rest, count)
}

// Splits bytes into groups of `W` bits.
#[inline(always)]
pub(crate) fn groups_of<const W: u32>(bytes: &[u8]) -> Digits
    requires narrow { W ≤ 8 }
    requires wide { 4 ≤ W }
    requires few { length bytes.now ≤ 190 }
    ensures { IsGrouped W bytes.now result }
{
    let (mut groups, rest, count) = regroup::<8, W>(bytes);
    if count > 0 {
        groups.push((rest << (W - count)) as u8);
    }
    groups
}

// Joins groups of `W` bits into bytes.
#[inline(always)]
pub(crate) fn bytes_of_groups<const W: u32>(groups: &[u8]) -> Result<Digits, TextError>
    requires narrow { W ≤ 8 }
    requires wide { 4 ≤ W }
    requires few { length groups.now ≤ 190 }
    requires below { IsBelow (2 ^ W) groups.now }
    ensures { MatchResult result (λ bytes. IsGrouped W bytes groups.now) (λ error.
        IsUngrouped W groups.now error) }
{
    let (bytes, rest, count) = regroup::<W, 8>(groups);
    if count >= W {
        return Err(TextError::InvalidLength);
    }
    if rest != 0 {
        return Err(TextError::UnusedBits);
    }
    Ok(bytes)
}
