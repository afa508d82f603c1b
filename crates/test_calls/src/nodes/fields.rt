//! Bytes that the documentation of Protocol Buffers states ("Encoding"), and where reading stops.

use pb_wire::{
    WireError, content_field, fixed32_field, number_field, push_content, push_content_head,
    push_fixed32, push_number, push_varint, read_varint, varint_len,
};
use std::test::Fail;

// A number and its varint. 150 and 300 are examples of the documentation, and 2^64 - 2 is its
// varint of -2.
const VARINTS: [(u64, &[u8]); 5] = [
    (0, b"\x00"),
    (1, b"\x01"),
    (150, b"\x96\x01"),
    (300, b"\xac\x02"),
    (
        0xffff_ffff_ffff_fffe,
        b"\xfe\xff\xff\xff\xff\xff\xff\xff\xff\x01",
    ),
];

#[test]
fn varints(rt: HostRuntime) -> Result<(), Fail> {
    for (number, encoded) in VARINTS {
        let mut bytes = Vec::new(rt.alloc());
        push_varint(&mut bytes, number)?;
        assert_eq!(rt; bytes.as_slice(), encoded);
        assert_eq!(rt; varint_len(number), encoded.len());
        match read_varint(encoded) {
            Ok((read, rest)) => assert!(rt; read == number && rest.is_empty()),
            Err(_) => assert!(rt; false),
        }
    }
    match read_varint(b"\x96\x81\x00") {
        Ok((read, _)) => assert_eq!(rt; read, 150),
        Err(_) => assert!(rt; false),
    }
    assert!(rt; matches!(read_varint(b"\x96"), Err(WireError::End)));
    assert!(rt;
        matches!(
            read_varint(b"\xff\xff\xff\xff\xff\xff\xff\xff\xff\x02"),
            Err(WireError::VarintTooLarge)
        )
    );
    Ok(())
}

// The fields 1 with 150, 2 with `testing` and 3 with one in four bytes.
const MESSAGE: &[u8] = b"\x08\x96\x01\x12\x07testing\x1d\x01\x00\x00\x00";

#[test]
fn fields(rt: HostRuntime) -> Result<(), Fail> {
    let mut bytes = Vec::new(rt.alloc());
    push_number(&mut bytes, 8, 150)?;
    push_content(&mut bytes, 18, b"testing")?;
    push_fixed32(&mut bytes, 29, 1)?;
    assert_eq!(rt; bytes.as_slice(), MESSAGE);
    let mut head = Vec::new(rt.alloc());
    push_content_head(&mut head, 18, 7)?;
    assert_eq!(rt; head.as_slice(), b"\x12\x07".as_slice());
    let (number, rest) = number_field(8, MESSAGE)?;
    assert!(rt; number == Some(150));
    let (missing, rest) = number_field(8, rest)?;
    assert!(rt; missing.is_none());
    let (content, rest) = content_field(18, rest)?;
    assert!(rt; matches!(content, Some(b"testing")));
    let (fixed, rest) = fixed32_field(29, rest)?;
    assert!(rt; fixed == Some(1) && rest.is_empty());
    assert!(rt; matches!(fixed32_field(29, b"\x1d\x01\x00\x00"), Err(WireError::End)));
    assert!(rt; matches!(content_field(18, b"\x12\x02a"), Err(WireError::End)));
    Ok(())
}
