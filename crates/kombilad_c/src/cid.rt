//! CIDs checked, taken apart, written as text and read from text.

ghost use Rattle.std.specs.Prelude.{◌≡◌, ◌⊎◌, MatchResult, MatchOption, Ok, Err};
ghost use Rattle.ipld_cid.specs.Cid.{Link};
ghost use Rattle.ipld_cid.specs.LinkOf.{link_of};
ghost use Rattle.ipld_cid.specs.Bytes.{read_cid};
ghost use Rattle.ipld_cid_text.specs.Text.{IsText};
ghost use Rattle.kombilad_c.specs.Status as numbers;
ghost use Rattle.kombilad_c.specs.Fill.{IsUntouched};
ghost use Rattle.kombilad_c.specs.CidRecord.{parts_of, record_of};
ghost use Rattle.kombilad_c.specs.Cid.{read_status, asked_base, WritesText, IsParsed, IsRejected, IsNoText};

use crate::base32::fill_base32;
use crate::cid_record::{CidBytes, CidParts};
use crate::fill::fill;
use crate::status::{MEMORY, OK, TEXT_UTF8, UNKNOWN_BASE, V0_BASE, cid_status, text_status};
use ipld_cid::{Cid, Version};
use ipld_cid_text::{Base, TextError, ToStringError, parse_any, to_string_of_base};
use std::alloc::Global;
use std::str;

/// Checks that the bytes are a CID, with nothing after it.
#[unsafe(no_mangle)]
pub extern "C" fn kombilad_cid_check(bytes: &[u8]) -> u32
    ensures { result ≡ read_status (read_cid 64 bytes.now) }
{
    match Cid::try_from(bytes) {
        Ok(_) => OK,
        Err(error) => cid_status(error),
    }
}

/// Reads the parts of the CID that the bytes encode.
#[unsafe(no_mangle)]
pub extern "C" fn kombilad_cid_parts_of(bytes: &[u8], parts: &mut CidParts) -> u32
    ensures { MatchResult (read_cid 64 bytes.now)
        (λ link. (result ≡ 0) × (parts.new ≡ parts_of link))
        (λ error. (result ≡ numbers.cid_status error) × (parts.new ≡ parts.old)) }
{
    match Cid::try_from(bytes) {
        Ok(cid) => {
            *parts = CidParts::of(&cid);
            OK
        }
        Err(error) => cid_status(error),
    }
}

// Returns the base of a CID's text that has this number.
#[inline(always)]
fn base_of(version: Version, number: u32) -> Option<Base>
    ensures { result ≡ asked_base version number }
{
    if number == 0 {
        return Some(match version {
            Version::V0 => Base::Base58Btc,
            Version::V1 => Base::Base32Lower,
        });
    }
    match char::from_u32(number) {
        Some(code) => Base::from_code(code),
        None => None,
    }
}

// Writes the text of a version 1 CID in base32, from the CID's bytes.
#[inline(always)]
fn write_base32(cid: &Cid, bytes: &[u8], text: &mut [u8], needed: &mut usize) -> Option<u32>
    requires read { read_cid 64 bytes.now ≡ Ok (link_of cid.now) }
    requires kind { (link_of cid.now).version ≡ Version.V1 }
    ensures { MatchOption result
        (IsUntouched text.old text.new needed.old needed.new)
        (λ status. WritesText Base.Base32Lower (link_of cid.now) status
        (record { before = text.old; after = text.new })
        (record { before = needed.old; after = needed.new })) }
{
    fill_base32(bytes, text, needed)
}

// Writes the text of the CID in the base.
fn write_in_base(alloc: Global, cid: &Cid, base: Base, text: &mut [u8], needed: &mut usize) -> u32
    ensures { WritesText base (link_of cid.now) result
        (record { before = text.old; after = text.new })
        (record { before = needed.old; after = needed.new }) }
{
    match to_string_of_base(alloc, cid, base) {
        Ok(content) => fill(content.as_bytes(), text, needed),
        Err(ToStringError::Memory) => MEMORY,
        Err(ToStringError::InvalidCidV0Base) => V0_BASE,
    }
}

// Writes the text of the CID in the base, without an allocation for base32.
#[inline(always)]
fn write_quickly(
    alloc: Global,
    cid: &Cid,
    bytes: &[u8],
    base: Base,
    text: &mut [u8],
    needed: &mut usize,
) -> u32
    requires { read_cid 64 bytes.now ≡ Ok (link_of cid.now) }
    ensures { WritesText base (link_of cid.now) result
        (record { before = text.old; after = text.new })
        (record { before = needed.old; after = needed.new }) }
{
    let written = match (base, cid.version()) {
        (Base::Base32Lower, Version::V1) => write_base32(cid, bytes, text, needed),
        _ => None,
    };
    match written {
        Some(status) => status,
        None => write_in_base(alloc, cid, base, text, needed),
    }
}

/// Writes the text of the CID that the bytes encode to the buffer, in the base that has this
/// number.
#[unsafe(no_mangle)]
pub extern "C" fn kombilad_cid_to_text(
    alloc: Global,
    bytes: &[u8],
    base: u32,
    text: &mut [u8],
    needed: &mut usize,
) -> u32
    ensures { MatchResult (read_cid 64 bytes.now)
        (λ link. MatchOption (asked_base link.version base)
        ((result ≡ 4) × IsUntouched text.old text.new needed.old needed.new)
        (λ chosen. WritesText chosen link result
        (record { before = text.old; after = text.new })
        (record { before = needed.old; after = needed.new })))
        (λ error. (result ≡ numbers.cid_status error)
        × IsUntouched text.old text.new needed.old needed.new) }
{
    match Cid::try_from(bytes) {
        Ok(cid) => match base_of(cid.version(), base) {
            Some(chosen) => write_quickly(alloc, &cid, bytes, chosen, text, needed),
            None => UNKNOWN_BASE,
        },
        Err(error) => cid_status(error),
    }
}

// Reads the CID of a text, or returns the place of the invalid letter.
fn parse_text(text: &str, cid: &mut CidBytes, place: &mut usize) -> u32
    ensures read { IsParsed text.now result cid.new place.old place.new
        ⊎ IsRejected text.now result cid.old cid.new place.old place.new }
    ensures only { (link : Link) → IsText link text.now → (result ≡ 0)
        × (cid.new ≡ record_of link) }
{
    match parse_any(text) {
        Ok(parsed) => {
            *cid = CidBytes::of(&parsed);
            OK
        }
        Err(error) => {
            if let TextError::InvalidLetter(at) = error {
                *place = at;
            }
            text_status(error)
        }
    }
}

/// Reads a CID from its text in any of the bases, or from one after `/ipfs/`.
#[unsafe(no_mangle)]
pub extern "C" fn kombilad_cid_from_text(text: &[u8], cid: &mut CidBytes, place: &mut usize) -> u32
    ensures read { IsParsed text.now result cid.new place.old place.new
        ⊎ IsRejected text.now result cid.old cid.new place.old place.new
        ⊎ IsNoText text.now result cid.old cid.new place.old place.new }
    ensures only { (link : Link) → IsText link text.now → (result ≡ 0)
        × (cid.new ≡ record_of link) }
{
    match str::from_utf8(text) {
        Ok(text) => parse_text(text, cid, place),
        Err(_) => TEXT_UTF8,
    }
}
