//! Readers in pieces, readers and writers that are interrupted or fail.

use crate::codec::generic::encode_generic;
use crate::pieces::{Full, Pieces};
use dag_cbor::{BlockErrorKind, CborError, DagCborCodec};
use dag_cbor_serde::{
    DecodeError, EncodeError, from_reader, from_reader_within, to_vec, to_writer,
};
use ipld_core::codec::{Codec, FaultReader, FaultWriter, RawCodec, RawError};
use ipld_core::ipld::{Ipld, Limits};
use std::alloc::Global;
use std::io::{self, BufRead, Error, ErrorKind, Read, Write};
use std::process::Abort;
use std::test::Fail;

/// A writer that fails on each write.
#[derive(Drop)]
struct Fails {
    kind: ErrorKind,
}

impl Write for Fails {
    fn write(&mut self, _buf: &[u8]) -> io::Result<usize> {
        Err(Error::from(self.kind))
    }

    fn flush(&mut self) -> io::Result<()> {
        Ok(())
    }
}

const BYTES: &[u8] = b"0123456789";

#[test]
fn reads_pieces_to_their_end(rt: HostRuntime) -> Result<(), Fail> {
    let alloc = rt.alloc();
    let value = Ipld::from_byte_slice(alloc, BYTES)?;
    for size in 1..12 {
        let mut reader = Pieces::new(BYTES, size, None);
        let decoded: Ipld = RawCodec::decode(alloc, &mut reader)?;
        assert!(rt; decoded == value, "{size}");
        assert!(rt; reader.bytes.is_empty(), "{size}");
    }
    Ok(())
}

#[test]
fn reports_an_error_of_the_reader(rt: HostRuntime) -> Result<(), Fail> {
    let alloc = rt.alloc();
    for (kind, error) in [
        (ErrorKind::Other, RawError::Read),
        (ErrorKind::OutOfMemory, RawError::Memory),
    ] {
        let mut reader = Pieces::new(BYTES, 3, Some(kind));
        let decoded: Result<Ipld, RawError> = RawCodec::decode(alloc, &mut reader);
        assert!(rt; decoded == Err(error));
    }
    for count in 0..4 {
        let mut reader = FaultReader::new(b"\x01\x02", count);
        let decoded: Result<Ipld, RawError> = RawCodec::decode(alloc, &mut reader);
        assert!(rt; decoded == Err(RawError::Read), "{count}");
    }
    Ok(())
}

#[test]
fn reports_an_error_of_the_writer(rt: HostRuntime) -> Result<(), Fail> {
    let alloc = rt.alloc();
    let value = Ipld::from_byte_slice(alloc, b"\x01\x02")?;
    let rejected = RawCodec::encode(alloc, &mut FaultWriter::new(0), &value);
    assert_eq!(rt; rejected, Err(RawError::Write));
    let done = RawCodec::encode(alloc, &mut FaultWriter::new(1), &value);
    assert_eq!(rt; done, Ok(()));
    for (kind, error) in [
        (ErrorKind::Other, RawError::Write),
        (ErrorKind::OutOfMemory, RawError::Memory),
    ] {
        let rejected = RawCodec::encode(alloc, &mut Fails { kind }, &value);
        assert_eq!(rt; rejected, Err(error));
    }
    // No write is needed for no bytes.
    let empty = Ipld::from_byte_slice(alloc, b"")?;
    let done = RawCodec::encode(alloc, &mut FaultWriter::new(0), &empty);
    assert_eq!(rt; done, Ok(()));
    assert_eq!(rt; encode_generic::<RawCodec, Ipld>(alloc, &empty)?.len(), 0);
    Ok(())
}

#[test]
fn a_reader_that_fails_after_some_bytes(rt: HostRuntime) -> Result<(), Fail> {
    for (count, given) in [
        (0, b"".as_slice()),
        (1, b"0"),
        (4, b"0123"),
        (10, BYTES),
        (11, BYTES),
        (usize::MAX, BYTES),
    ] {
        let mut reader = FaultReader::new(BYTES, count);
        let mut read = Vec::new(rt.alloc());
        let mut buffer = [0u8; 3];
        for _ in 0..6 {
            if let Ok(length) = reader.read(&mut buffer) {
                read.extend_from_slice(&buffer[..length])?;
            }
        }
        assert_eq!(rt; read.as_slice(), given, "{count}");
        assert!(rt; reader.fill_buf().is_err(), "{count}");
        assert!(rt; reader.read(&mut buffer).is_err(), "{count}");
    }
    Ok(())
}

#[test]
fn a_writer_that_fails_after_some_writes(rt: HostRuntime) -> Result<(), Fail> {
    for count in 0..4 {
        let mut writer = FaultWriter::new(count);
        for index in 0..count {
            writer.flush()?;
            assert_eq!(rt; writer.write(&BYTES[..index])?, index, "{count}");
        }
        for _ in 0..3 {
            assert!(rt; writer.flush().is_err(), "{count}");
            assert!(rt; writer.write(BYTES).is_err(), "{count}");
        }
    }
    Ok(())
}

fn is_read<R: BufRead + Drop>(
    rt: &impl Abort,
    alloc: Global,
    mut reader: R,
    expected: Result<Ipld, CborError>,
) {
    assert!(rt; DagCborCodec::decode(alloc, &mut reader) == expected);
}

#[test]
fn ends_of_blocks_of_dag_cbor(rt: HostRuntime) {
    let alloc = rt.alloc();
    is_read(
        &rt,
        alloc,
        FaultReader::new(&[0xf6], 1),
        Err(CborError::Read),
    );
    is_read(&rt, alloc, Pieces::new(&[0xf6], 1, None), Ok(Ipld::Null));
    is_read(
        &rt,
        alloc,
        Pieces::new(&[0xf6, 0xf6], 1, None),
        Err(CborError::TrailingBytes),
    );
    let limits = Limits::default();
    let outcome = DagCborCodec::decode_within(alloc, &mut FaultReader::new(b"\x01", 0), &limits);
    assert!(rt;
        outcome.err().map(|error| error.kind) == Some(BlockErrorKind::Cbor(CborError::Read))
    );
    let outcome = DagCborCodec::encode(alloc, &mut FaultWriter::new(0), &Ipld::Null);
    assert!(rt; outcome == Err(CborError::Write));
}

// Checks that a writer that takes no byte counts as failed, and isn't retried endlessly.
#[test]
fn reports_a_writer_that_takes_no_byte(rt: HostRuntime) -> Result<(), Fail> {
    let alloc = rt.alloc();
    let value = Ipld::from_byte_slice(alloc, BYTES)?;
    assert_eq!(rt;
        RawCodec::encode(alloc, &mut Full, &value),
        Err(RawError::Write)
    );
    assert!(rt; DagCborCodec::encode(alloc, &mut Full, &value) == Err(CborError::Write));
    assert!(rt; to_writer(alloc, &mut Full, &true) == Err(EncodeError::Write));
    Ok(())
}

// Checks that a number out of a block's range is rejected before anything is written.
#[test]
fn reports_a_number_out_of_range(rt: HostRuntime) {
    let alloc = rt.alloc();
    for number in [0x1_0000_0000_0000_0000, -0x1_0000_0000_0000_0001] {
        let outcome = to_vec(alloc, &number);
        assert!(rt; outcome == Err(EncodeError::IntegerRange));
        let outcome = to_writer(alloc, &mut FaultWriter::new(0), &number);
        assert!(rt; outcome == Err(EncodeError::IntegerRange));
        let mut writer = FaultWriter::new(0);
        let outcome = DagCborCodec::encode(alloc, &mut writer, &Ipld::Integer(number));
        assert!(rt; outcome == Err(CborError::IntegerRange));
    }
}

#[test]
fn ends_of_typed_values(rt: HostRuntime) {
    let outcome = to_writer(rt.alloc(), &mut FaultWriter::new(0), &true);
    assert!(rt; outcome == Err(EncodeError::Write));
    let outcome = from_reader::<u8, _>(rt.alloc(), &mut FaultReader::new(b"\x01", 1));
    assert!(rt; outcome == Err(DecodeError::Read));
    let mut reader = FaultReader::new(b"\x01", 1);
    let outcome = from_reader_within::<u8, _>(rt.alloc(), &mut reader, &Limits::default());
    assert!(rt; outcome == Err(DecodeError::Read));
}
