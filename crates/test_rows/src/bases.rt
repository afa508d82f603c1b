//! Texts of CIDs in each base.

use crate::identifiers;
use ipld_cid::Cid;
use ipld_cid_text::{Base, parse_any, to_string_of_base};
use std::alloc::{AllocError, Global};

const BASES: [Base; 6] = [
    Base::Base16Lower,
    Base::Base32Lower,
    Base::Base32Upper,
    Base::Base36Lower,
    Base::Base58Btc,
    Base::Base64Url,
];

/// Returns the text of a CID in each base, or the error. Each text is also read as the CID, with
/// and without `/ipfs/` before it.
pub fn texts(alloc: Global, digits: &str) -> Result<String, AllocError> {
    let Some(cid) = identifiers::cid(alloc, digits) else {
        return String::from_str(alloc, "no CID");
    };
    let mut texts = String::new(alloc);
    for base in &BASES {
        texts.push_str(text(alloc, &cid, *base)?.as_str())?;
        texts.push(' ')?;
    }
    Ok(texts)
}

fn text(alloc: Global, cid: &Cid, base: Base) -> Result<String, AllocError> {
    let text = match to_string_of_base(alloc, cid, base) {
        Ok(text) => text,
        Err(error) => return format!(in alloc; "{error:?}"),
    };
    let path = format!(in alloc; "/ipfs/{text}")?;
    if parse_any(text.as_str()) != Ok(*cid) || parse_any(path.as_str()) != Ok(*cid) {
        return format!(in alloc; "{text} is read as something else");
    }
    Ok(text)
}

/// Returns the bytes of the CID that a text in any base encodes, or the error.
pub fn read(alloc: Global, text: &str) -> Result<String, AllocError> {
    match parse_any(text) {
        Ok(cid) => hex::encode(alloc, cid.to_bytes(alloc)?.as_slice()),
        Err(error) => format!(in alloc; "{error:?}"),
    }
}

/// Returns the base of a prefix, and its prefix.
pub fn base(alloc: Global, prefix: &str) -> Result<String, AllocError> {
    match prefix.chars().next().and_then(Base::from_code) {
        Some(base) => format!(in alloc; "{base:?} {}", base.code()),
        None => String::from_str(alloc, "no base"),
    }
}
