//! The text of a CID, from its bytes.

// [begin: bytes_to_text]
ghost use Rattle.std.specs.Prelude.{◌≡◌, IfOk, string_bytes};
ghost use Rattle.ipld_cid.specs.Bytes.{IsCid};
ghost use Rattle.ipld_cid.specs.Cid.{Link};
ghost use Rattle.ipld_cid.specs.Text.{text_of};

use ipld_cid::{Cid, CidError};
use std::alloc::Global;

/// Returns the text of the CID that the bytes encode, with nothing after it.
pub fn text_of_bytes(alloc: Global, bytes: &[u8]) -> Result<String, CidError>
    ensures { IfOk result (λ text. (cid : Link) × IsCid 64 bytes.now cid
        × (string_bytes text ≡ text_of cid)) }
{
    let cid = Cid::try_from(bytes)?;
    match cid.to_text(alloc) {
        Ok(text) => Ok(text),
        Err(_) => Err(CidError::Memory),
    }
}
// [end: bytes_to_text]

// Version 1, codec dag-cbor (71), hash sha2-256 (12) and the 32 (20) bytes of a digest.
const BYTES: &[u8] =
    b"\x01\x71\x12\x20\x35\x4d\x45\x5f\xf3\xa6\x41\xb8\xca\xc2\x5c\x38\xa7\x7e\x64\xaa\x73\x5d\xc8\xa4\x89\x66\xa6\x0f\x1a\x78\xca\xa1\x72\xa4\x88\x5e";

/// Prints the text of a CID, and the error of bytes that are cut.
pub fn show(rt: &impl Print, alloc: Global) -> anyhow::Result<()> {
    println!(rt; "{}", text_of_bytes(alloc, BYTES)?)?;
    match text_of_bytes(alloc, &BYTES[..35]) {
        Ok(text) => println!(rt; "{text}")?,
        Err(error) => println!(rt; "{}", error.sentence())?,
    }
    Ok(())
}
