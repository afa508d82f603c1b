//! CIDs and multihashes as bytes and as texts.

use crate::ended::{Ended, reported};
use crate::samples::cid;
use ipld_cid::{CidGeneric, IDENTITY, Multihash, RAW};
use ipld_cid_text::{Base, to_string_of_base, usual_text};
use std::alloc::Global;
use std::process::Abort;

/// A CID of version 1.
const V1: [u8; 36] = [
    0x01, 0x71, 0x12, 0x20, 0x35, 0x4d, 0x45, 0x5f, 0xf3, 0xa6, 0x41, 0xb8, 0xca, 0xc2, 0x5c, 0x38,
    0xa7, 0x7e, 0x64, 0xaa, 0x73, 0x5d, 0xc8, 0xa4, 0x89, 0x66, 0xa6, 0x0f, 0x1a, 0x78, 0xca, 0xa1,
    0x72, 0xa4, 0x88, 0x5e,
];

const V1_TEXT: &str = "bafyreibvjvcv745gig4mvqs4hctx4zfkono4rjejm2ta6gtyzkqxfjeily";

/// A CID of version 0.
const V0: [u8; 34] = [
    0x12, 0x20, 0, 0, 0, 0, 0, 0, 0, 0, 0, 0, 0, 0, 0, 0, 0, 0, 0, 0, 0, 0, 0, 0, 0, 0, 0, 0, 0, 0,
    0, 0, 0, 0,
];

const V0_TEXT: &str = "12200000000000000000000000000000000000000000000000000000000000000000";

/// The text of a version 1 CID of 124 bytes, with a digest of 120 bytes that are 7.
const LONG_TEXT: &str =
    "bafkqa6aha4dqobyha4dqobyha4dqobyha4dqobyha4dqobyha4dqobyha4dqobyha4dqobyha4dqobyha4dqobyha4dqobyha4dqobyha4dqobyha4dqobyha4dqobyha4dqobyha4dqobyha4dqobyha4dqobyha4dqobyha4dqobyha4dqobyha4dqobyha4dqoby";

// Checks that the CID of the bytes is written as the bytes and as the text.
fn writes(rt: &impl Abort, alloc: Global, bytes: &[u8], text: &str) -> Result<(), Ended> {
    let cid = cid(bytes)?;
    let written = reported("to_bytes", cid.to_bytes(alloc))?;
    assert_eq!(rt; written.as_slice(), bytes);
    assert_eq!(rt; written.capacity(), bytes.len());
    assert_eq!(rt; reported("to_text", cid.to_text(alloc))?.as_str(), text);
    let mut vector = Vec::new(alloc);
    let appended = cid.write_bytes(&mut vector);
    assert!(rt; appended.is_ok() || vector.is_empty());
    reported("write_bytes", appended)?;
    assert_eq!(rt; vector.as_slice(), bytes);
    Ok(())
}

#[test]
fn written(rt: HostRuntime) -> Result<(), Ended> {
    writes(&rt, rt.alloc(), &V1, V1_TEXT)?;
    writes(&rt, rt.alloc(), &V0, V0_TEXT)
}

const BASES: [Base; 6] = [
    Base::Base16Lower,
    Base::Base32Lower,
    Base::Base32Upper,
    Base::Base36Lower,
    Base::Base58Btc,
    Base::Base64Url,
];

// The texts themselves are checked by rows.
#[test]
fn written_in_bases(rt: HostRuntime) -> Result<(), Ended> {
    let cid = cid(&V1)?;
    for base in &BASES {
        let text = to_string_of_base(rt.alloc(), &cid, *base);
        assert!(rt;
            reported("to_string_of_base", text)?
                .as_str()
                .starts_with(base.code())
        );
    }
    Ok(())
}

// The texts themselves are checked by rows.
#[test]
fn written_as_usual(rt: HostRuntime) -> Result<(), Ended> {
    let old = cid(&V0)?;
    let text = usual_text(rt.alloc(), &old);
    assert!(rt; reported("usual_text", text)?.as_str().starts_with("Qm"));
    let new = cid(&V1)?;
    let text = usual_text(rt.alloc(), &new);
    assert!(rt; reported("usual_text", text)?.as_str().starts_with("b"));
    Ok(())
}

#[test]
fn multihashes(rt: HostRuntime) -> Result<(), Ended> {
    let written = Multihash::<64>::from_bytes(&V0)?.to_bytes(rt.alloc());
    let written = reported("to_bytes of a multihash", written)?;
    assert_eq!(rt; written.as_slice(), V0.as_slice());
    assert_eq!(rt; written.capacity(), V0.len());
    Ok(())
}

#[test]
fn read(rt: HostRuntime) -> Result<(), Ended> {
    let read = CidGeneric::<128>::from_text(rt.alloc(), LONG_TEXT);
    let hash = Multihash::wrap(IDENTITY, &[7; 120])?;
    assert!(rt; read.is_err() || read == Ok(CidGeneric::new_v1(RAW, hash)));
    reported("from_text", read.map(|_| ()))
}
