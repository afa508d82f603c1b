//! Messages in blocks that `ipfs` made. Each is compared with the CID of its block, which was
//! computed apart from this crate.

use std::alloc::Global;
use std::test::Fail;
use unixfs::{Data, DataType, UnixFsErrorKind, UnixTime, encode_data, read_data};

// Returns a message of this type, without fields.
fn empty(alloc: Global, data_type: DataType) -> Data<'static> {
    Data {
        data_type,
        data: None,
        filesize: None,
        blocksizes: Vec::new(alloc),
        hash_type: None,
        fanout: None,
        mode: None,
        mtime: None,
    }
}

// The block `0a 02 08 01` of an empty folder has the CID
// QmUNLLsPACCz1vLxQVkXqqLX5R1X345qqfHbsf67hvA3Nn.
#[test]
fn empty_folder(rt: HostRuntime) -> Result<(), Fail> {
    let message = empty(rt.alloc(), DataType::Directory);
    assert_eq!(rt;
        encode_data(rt.alloc(), &message)?.as_slice(),
        b"\x08\x01".as_slice()
    );
    let read = read_data(rt.alloc(), b"\x08\x01")?;
    assert!(rt; read.data_type == DataType::Directory && read.data.is_none());
    Ok(())
}

// The block `0a 04 08 02 18 00` of an empty file has the CID
// QmbFMke1KXqnYyBBWxB74N4c5SBnJMVAiMNRcGu6x1AwQH. That of a file `hello world` has
// Qmf412jQZiuVUtdgnB36FXFX7xg5V6KEbSJ4dpQuhkLyfD, and a symbolic link to `foobar` has
// QmNgQEdXVdLw79nH2bnxLMxnyWMaXrijfqMTiDVat3iyuz.
#[test]
fn files(rt: HostRuntime) -> Result<(), Fail> {
    let mut message = empty(rt.alloc(), DataType::File);
    message.filesize = Some(0);
    let bytes: &[u8] = b"\x08\x02\x18\x00";
    assert_eq!(rt; encode_data(rt.alloc(), &message)?.as_slice(), bytes);
    message.data = Some(b"hello world");
    message.filesize = Some(11);
    let bytes: &[u8] = b"\x08\x02\x12\x0bhello world\x18\x0b";
    assert_eq!(rt; encode_data(rt.alloc(), &message)?.as_slice(), bytes);
    let read = read_data(rt.alloc(), b"\x08\x04\x12\x06foobar")?;
    assert!(rt; read.data_type == DataType::Symlink && read.filesize.is_none());
    assert!(rt; matches!(read.data, Some(b"foobar")));
    Ok(())
}

// The root of `foobar` and a line feed in chunks of two bytes has this message. Its block has the
// CID QmRJHYTNvC3hmd9gJQARxLR1QMEincccBV53bBw524yyq6.
#[test]
fn sizes(rt: HostRuntime) -> Result<(), Fail> {
    let bytes: &[u8] = b"\x08\x02\x18\x07\x20\x02\x20\x02\x20\x02\x20\x01";
    let message = read_data(rt.alloc(), bytes)?;
    assert!(rt; message.data.is_none() && message.filesize == Some(7));
    assert_eq!(rt; message.blocksizes.as_slice(), [2, 2, 2, 1].as_slice());
    assert_eq!(rt; encode_data(rt.alloc(), &message)?.as_slice(), bytes);
    Ok(())
}

#[test]
fn details(rt: HostRuntime) -> Result<(), Fail> {
    let mut message = empty(rt.alloc(), DataType::HamtShard);
    message.data = Some(b"\x80");
    message.hash_type = Some(0x22);
    message.fanout = Some(256);
    message.mode = Some(0o755);
    message.mtime = Some(UnixTime {
        seconds: -1,
        nanoseconds: 1,
    });
    let bytes: &[u8] =
        b"\x08\x05\x12\x01\x80\x28\x22\x30\x80\x02\x38\xed\x03\x42\x10\x08\xff\xff\xff\xff\xff\xff\xff\xff\xff\x01\x15\x01\x00\x00\x00";
    assert_eq!(rt; encode_data(rt.alloc(), &message)?.as_slice(), bytes);
    let read = read_data(rt.alloc(), bytes)?;
    assert!(rt; read.mtime == message.mtime && read.mode == Some(0o755));
    Ok(())
}

// Returns the error of reading the bytes, with its offset.
fn error_of(alloc: Global, bytes: &[u8]) -> Option<(UnixFsErrorKind, usize)> {
    match read_data(alloc, bytes) {
        Ok(_) => None,
        Err(error) => Some((error.kind, error.offset)),
    }
}

#[test]
fn errors(rt: HostRuntime) {
    let rows: [(&[u8], UnixFsErrorKind, usize); 11] = [
        (b"", UnixFsErrorKind::NoType, 0),
        (b"\x12\x00", UnixFsErrorKind::NoType, 0),
        (b"\x08\x06", UnixFsErrorKind::UnknownType(6), 0),
        (b"\x08\x02\x18\x00\x12\x00", UnixFsErrorKind::FieldOrder, 4),
        (b"\x08\x02\x18\x00\x18\x00", UnixFsErrorKind::FieldOrder, 4),
        (b"\x08\x02\x4a\x00", UnixFsErrorKind::UnknownField(74), 2),
        (b"\x08\x02\x12\x05ab", UnixFsErrorKind::End, 2),
        (b"\x08\x02\x20\x01\x20", UnixFsErrorKind::End, 4),
        (
            b"\x08\x02\x38\x80\x80\x80\x80\x10",
            UnixFsErrorKind::ModeTooLarge(1 << 32),
            2,
        ),
        (b"\x08\x02\x42\x00", UnixFsErrorKind::NoSeconds, 4),
        (
            b"\x08\x02\x42\x07\x08\x01\x15\x00\x00\x00\x00",
            UnixFsErrorKind::Nanoseconds(0),
            6,
        ),
    ];
    for (bytes, kind, offset) in rows {
        assert!(rt; error_of(rt.alloc(), bytes) == Some((kind, offset)));
    }
}
