//! CIDs read, created, taken apart, compared and printed, and CIDs of blocks.

use crate::ended::Ended;
use crate::samples::{A, B, cid};
use ipld_block::{cid_of, verify};
use ipld_cid::{Cid, CidError, CidGeneric, DAG_PB, IDENTITY, Multihash, RAW, SHA2_256, Version};
use ipld_cid_text::parse_any;
use std::hash::{DefaultHasher, Hash, Hasher};
use std::io::Write;
use std::process::Abort;

#[test]
fn made_and_read(rt: HostRuntime) -> Result<(), Ended> {
    let digest = [7u8; 32];
    let hash = Multihash::<64>::wrap(SHA2_256, &digest)?;
    assert!(rt; hash.code() == SHA2_256 && hash.size() == 32);
    assert!(rt; hash.digest() == digest.as_slice());
    let first = Cid::new_v0(hash)?;
    assert!(rt; first.version() == Version::V0 && first.codec() == DAG_PB);
    let second = Cid::new_v1(RAW, hash);
    assert!(rt; second.version() == Version::V1 && second.codec() == RAW);
    assert!(rt; *second.hash() == hash && first < second && first != second);
    assert!(rt; first.encoded_len() == 34 && second.encoded_len() == 36);
    let read = cid(&B)?;
    assert!(rt; read == Cid::new_v1(RAW, Multihash::wrap(IDENTITY, &[7])?));
    assert!(rt; Cid::from_text(rt.alloc(), "bafkqaaih") == Ok(read));
    assert!(rt; Cid::try_from(&B[..4]) == Err(CidError::End));
    assert!(rt; Cid::try_from([].as_slice()) == Err(CidError::End));
    Ok(())
}

// The first bytes of a version 1 CID with 128 bytes of digest, and letters after them.
const LONG: &str =
    "bafkqbaabaaaaaaaaaaaaaaaaaaaaaaaaaaaaaaaaaaaaaaaaaaaaaaaaaaaaaaaaaaaaaaaaaaaaaaaaaaaaaaaaaaaaaaaaaaaaaaaaaaaaaaaaaaaaaaaaaaaaaaaaaaaaaaaaaaaaaaaaaaaaaaaaaaaaaaaaaaaaaaaaaaaaaaaaaaaaaaaaaaaaaaaaaaaa";

#[test]
fn from_texts(rt: HostRuntime) -> Result<(), Ended> {
    let read = cid(&B)?;
    assert!(rt; "bafkqaaih".parse::<Cid>() == Ok(read) && Cid::try_from("bafkqaaih") == Ok(read));
    assert!(rt; LONG.parse::<Cid>() == Err(CidError::DigestTooLong));
    let text = "bafyreibvjvcv745gig4mvqs4hctx4zfkono4rjejm2ta6gtyzkqxfjeily";
    let first = Cid::from_text(rt.alloc(), text);
    assert!(rt; first.is_ok_and(|cid| cid.encoded_len() == 36));
    let empty = CidGeneric::<0>::from_text(rt.alloc(), "bafkqaaa");
    assert!(rt; empty.is_ok_and(|cid| cid.encoded_len() == 4));
    let outcome = CidGeneric::<0>::from_text(rt.alloc(), "bafkqaaih");
    assert!(rt; outcome == Err(CidError::DigestTooLong));
    for text in ["bafkqaaih", "BAFKQAAIH", "f0155000107", "uAVUAAQc"] {
        assert!(rt; parse_any(text) == Ok(read), "{text}");
    }
    assert!(rt; parse_any("uAVUAAQd").is_err() && parse_any("z0").is_err());
    assert!(rt; verify(&cid_of(RAW, b"abc"), b"abc").is_ok());
    assert!(rt; verify(&cid_of(RAW, b"abc"), b"abd").is_err());
    Ok(())
}

fn hash_of(cid: &Cid) -> u64 {
    let mut state = DefaultHasher::new();
    Hash::hash(cid, &mut state);
    state.finish()
}

#[test]
fn to_buffers_and_hashes(rt: HostRuntime) -> Result<(), Ended> {
    let read = cid(&B)?;
    let mut buffer = [0u8; 5];
    assert!(rt; matches!(Cid::split_front(&B), Ok((split, [])) if split == read));
    assert!(rt; read.write_to(&mut buffer) == Some(5) && buffer == B);
    assert!(rt; read.write_to(&mut buffer[..4]).is_none());
    let hash = Multihash::<64>::from_bytes(&B[2..]);
    assert!(rt; hash == Ok(*read.hash()) && read.hash().encoded_len() == 3);
    assert!(rt; hash_of(&cid(&A)?) == hash_of(&cid(&A)?));
    let cid = cid(&A)?;
    let mut page = [0u8; 8];
    let mut writer = page.as_mut_slice();
    assert!(rt; write!(writer, "{cid}").is_ok());
    assert!(rt; page.as_slice() == b"bafkqaaa".as_slice());
    Ok(())
}

// Checks that the bytes are not a CID, and that this is the first error.
fn is_rejected(rt: &impl Abort, bytes: &[u8], expected: CidError) {
    assert!(rt; Cid::try_from(bytes) == Err(expected));
}

#[test]
fn rejected_by_each_fault(rt: HostRuntime) -> Result<(), Ended> {
    is_rejected(&rt, b"", CidError::End);
    is_rejected(&rt, b"\x12", CidError::End);
    is_rejected(&rt, b"\x01\x55\0", CidError::End);
    is_rejected(&rt, b"\x01\x55\0\x40", CidError::End);
    is_rejected(&rt, b"\x81\0\x55\0\0", CidError::NotShortest);
    is_rejected(&rt, b"\0\x55", CidError::ExplicitVersion0);
    is_rejected(&rt, b"\x12\x21", CidError::UnknownVersion(0x12));
    is_rejected(&rt, b"\x01\x55\0\x41", CidError::DigestTooLong);
    is_rejected(&rt, b"\x01\x55\0\0\0", CidError::TrailingBytes);
    let codec = b"\x01\xff\xff\xff\xff\xff\xff\xff\xff\xff\x02\0\0";
    is_rejected(&rt, codec, CidError::VarintTooLarge);
    let codec = b"\x01\xff\xff\xff\xff\xff\xff\xff\xff\xff\x01\0\0";
    let read = Cid::try_from(codec.as_slice())?;
    assert!(rt; read.codec() == u64::MAX && read.encoded_len() == 13);
    Ok(())
}

#[test]
fn of_version_0_and_of_long_digests(rt: HostRuntime) -> Result<(), Ended> {
    let mut bytes = [0u8; 34];
    bytes[0] = 0x12;
    bytes[1] = 0x20;
    let read = Cid::try_from(bytes.as_slice())?;
    assert!(rt;
        read.version() == Version::V0 && read.codec() == DAG_PB && read.encoded_len() == 34
    );
    is_rejected(&rt, &bytes[..33], CidError::End);
    assert!(rt; CidGeneric::<16>::try_from(bytes.as_slice()) == Err(CidError::DigestTooLong));
    assert!(rt; Cid::new_v0(*read.hash()) == Ok(read));
    let hash = Multihash::wrap(IDENTITY, &bytes[..32])?;
    assert!(rt; Cid::new_v0(hash) == Err(CidError::InvalidV0Multihash));
    let hash = Multihash::wrap(SHA2_256, &bytes[..31])?;
    assert!(rt; Cid::new_v0(hash) == Err(CidError::InvalidV0Multihash));
    let digest = [0u8; 65];
    assert!(rt; Multihash::<64>::wrap(IDENTITY, &digest) == Err(CidError::DigestTooLong));
    let longest = Multihash::<64>::wrap(IDENTITY, &digest[..64])?;
    assert!(rt; longest.size() == 64 && Cid::new_v1(RAW, longest).encoded_len() == 68);
    Ok(())
}
