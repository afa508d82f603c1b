//! Blocks of plain bytes: written, read and rejected.

use crate::codec::generic::{encode_generic, sent_and_received};
use dag_cbor::DagCborCodec;
use ipld_core::cid::RAW;
use ipld_core::codec::laws::{codec_law, tree_codec_law};
use ipld_core::codec::{Codec, RawCodec, RawError};
use ipld_core::ipld::{Ipld, IpldKind};
use std::test::Fail;

/// A CID of version 1 of plain bytes, whose hash is the identity of no bytes.
const A: [u8; 4] = [0x01, 0x55, 0x00, 0x00];

#[test]
fn writes_bytes_as_they_are(rt: HostRuntime) -> Result<(), Fail> {
    let alloc = rt.alloc();
    for bytes in [b"\x01\x02".as_slice(), b"", &A, b"\xff\x00\xff"] {
        let value = Ipld::from_byte_slice(alloc, bytes)?;
        let block = encode_generic::<RawCodec, Ipld>(alloc, &value)?;
        assert_eq!(rt; block.as_slice(), bytes, "{bytes:?}");
        let mut written = b"before".to_vec(alloc)?;
        RawCodec::encode(alloc, &mut written, &value)?;
        assert_eq!(rt; &written[..6], b"before".as_slice(), "{bytes:?}");
        assert_eq!(rt; &written[6..], bytes, "{bytes:?}");
        let back = sent_and_received::<RawCodec, Ipld>(alloc, &value)?;
        assert!(rt; back == value, "{bytes:?}");
        let decoded: Ipld = RawCodec::decode_from_slice(alloc, bytes)?;
        assert!(rt; decoded == value, "{bytes:?}");
    }
    codec_law::<Ipld, RawCodec>();
    tree_codec_law::<DagCborCodec>();
    assert_eq!(rt; <RawCodec as Codec<Ipld>>::CODE, RAW);
    assert_eq!(rt; <RawCodec as Codec<Ipld>>::CODE, 0x55);
    Ok(())
}

#[test]
fn rejects_what_is_no_bytes(rt: HostRuntime) -> Result<(), Fail> {
    let alloc = rt.alloc();
    let outcome = encode_generic::<RawCodec, Ipld>(alloc, &Ipld::Null);
    assert!(rt; outcome == Err(RawError::NotBytes(IpldKind::Null)));
    let mut written = b"before".to_vec(alloc)?;
    assert!(rt; RawCodec::encode(alloc, &mut written, &Ipld::Null).is_err());
    assert_eq!(rt; written.as_slice(), b"before".as_slice());
    Ok(())
}
