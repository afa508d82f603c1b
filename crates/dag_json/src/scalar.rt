//! The decoding of numbers, links and bytes from their texts.

ghost use Rattle.std.specs.Prelude.{◌≡◌, ◌⊎◌, ◌==◌, Some, None, Ok, Err, MatchResult, IfOk, option_map};
ghost use Rattle.base64.specs.GeneralPurpose.{decoded_of};
ghost use Rattle.base64.specs.Engines.{standard_no_pad};
ghost use Rattle.ipld_cid.specs.LinkOf.{link_of};
ghost use Rattle.ipld_tree.specs.TreeOf.{tree_of, members_of};
ghost use Rattle.dag_json.specs.LinkRead.{v0_of, begins_b, cid_of};
ghost use Rattle.dag_json.specs.Numbers.{is_integral, number_read};
ghost use Rattle.dag_json.specs.Objects.{only_tree, reserved_bytes, reserved_value, object_tree, bytes_or_error, link_or_error};
ghost use Rattle.dag_json.specs.ReadContract.{Makes};

use crate::read_error::ReadErrorKind;
use crate::reserved::is_reserved;
use base64::DecodeAllocError;
use base64::engine::general_purpose::STANDARD_NO_PAD;
use ipld_cid::{Cid, Version};
use ipld_cid_text::{parse_any, usual_text};
use ipld_tree::Ipld;
use std::alloc::{AllocError, Global};
use std::collections::BTreeMap;

// Returns whether a number has only digits and minus signs.
fn is_integral(text: &str) -> bool
    ensures { result ≡ is_integral text.now }
{
    text.as_bytes()
        .iter()
        .all(|c| *c == b'-' || c.is_ascii_digit())
}

// Decodes a number as an integer.
#[inline(always)]
pub(crate) fn read_number(text: &str) -> Result<i128, ReadErrorKind>
    ensures { result ≡ number_read text.now }
{
    match text.parse::<i128>() {
        Ok(number) => Ok(number),
        Err(_) if is_integral(text) => Err(ReadErrorKind::IntegerRange),
        Err(_) => Err(ReadErrorKind::Float),
    }
}

// Decodes the text of a CID of version 0.
fn read_v0(alloc: Global, text: &str) -> Result<Option<Cid>, AllocError>
    ensures { IfOk result (λ found. option_map link_of found ≡ v0_of text.now) }
{
    let Ok(cid) = parse_any(text) else {
        return Ok(None);
    };
    match cid.version() {
        Version::V0 => {
            let written = usual_text(alloc, &cid)?;
            if written.as_str() == text {
                Ok(Some(cid))
            } else {
                Ok(None)
            }
        }
        Version::V1 => Ok(None),
    }
}

// Returns whether a text begins with the prefix of base32.
#[inline(always)]
fn begins_with_b(text: &[u8]) -> bool
    ensures { result ≡ begins_b text.now }
{
    match text {
        [b'b', ..] => true,
        _ => false,
    }
}

// Decodes the text of a CID.
fn read_cid(alloc: Global, text: &str) -> Result<Option<Cid>, AllocError>
    ensures { IfOk result (λ found. option_map link_of found ≡ cid_of text.now) }
{
    if begins_with_b(text.as_bytes()) {
        match text.parse::<Cid>() {
            Ok(cid) => Ok(Some(cid)),
            Err(_) => Ok(None),
        }
    } else {
        read_v0(alloc, text)
    }
}

// Decodes the text of a link.
fn read_link(alloc: Global, text: &str) -> Result<Ipld, ReadErrorKind>
    ensures { Makes (link_or_error (cid_of text.now)) result }
{
    match read_cid(alloc, text) {
        Ok(Some(cid)) => Ok(Ipld::Link(cid)),
        Ok(None) => Err(ReadErrorKind::Link),
        Err(AllocError) => Err(ReadErrorKind::Memory),
    }
}

// Decodes the text of bytes.
fn read_bytes(alloc: Global, text: &str) -> Result<Ipld, ReadErrorKind>
    ensures { Makes (bytes_or_error (decoded_of standard_no_pad text.now)) result }
{
    match STANDARD_NO_PAD.decode(alloc, text.as_bytes()) {
        Ok(bytes) => Ok(Ipld::Bytes(bytes)),
        Err(DecodeAllocError::OutOfMemory) => Err(ReadErrorKind::Memory),
        Err(DecodeAllocError::DecodeError(_)) => Err(ReadErrorKind::Bytes),
    }
}

// Returns the value of a map that has one entry.
fn only_value(members: &BTreeMap<String, Ipld>) -> Option<&Ipld>
    ensures { option_map (λ value. tree_of value.now) result ≡ only_tree
        (members_of members.now.entries) }
{
    let mut entries = members.iter();
    let (_, value) = entries.next()?;
    match entries.next() {
        Some(_) => None,
        None => Some(value),
    }
}

// Decodes bytes from the map that a reserved map has as the value of `/`.
fn read_bytes_object(alloc: Global, members: &BTreeMap<String, Ipld>) -> Result<Ipld, ReadErrorKind>
    ensures { Makes (reserved_bytes (only_tree (members_of members.now.entries))) result }
{
    match only_value(members) {
        Some(Ipld::String(text)) => read_bytes(alloc, text),
        _ => Err(ReadErrorKind::Reserved),
    }
}

// Decodes a reserved map, which is a link or bytes.
fn read_reserved(alloc: Global, members: &BTreeMap<String, Ipld>) -> Result<Ipld, ReadErrorKind>
    ensures { Makes (reserved_value (only_tree (members_of members.now.entries))) result }
{
    match only_value(members) {
        Some(Ipld::String(text)) => read_link(alloc, text),
        Some(Ipld::Map(inner)) => read_bytes_object(alloc, inner),
        _ => Err(ReadErrorKind::Reserved),
    }
}

// Decodes an object, which is a link, bytes or a map.
#[inline(always)]
pub(crate) fn read_object(
    alloc: Global,
    members: BTreeMap<String, Ipld>,
) -> Result<Ipld, ReadErrorKind>
    ensures { Makes (object_tree (members_of members.entries)) result }
{
    if !is_reserved(&members) {
        return Ok(Ipld::Map(members));
    }
    let read = read_reserved(alloc, &members);
    Ipld::Map(members).discard();
    read
}
