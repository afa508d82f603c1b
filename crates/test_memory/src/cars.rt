//! CAR files, read a byte at a time, and written a byte at a time.

use crate::ended::{Ended, reported};
use crate::samples::cid;
use car_files::{
    CarFileError, Form, Listed, SectionPlaces, Seen, VerdictForm, Verified, find_block,
    find_missing, write_list, write_verified,
};
use ipld_car::{CarErrorKind, CarReader, CarWriter, DEFAULT_LIMIT, Section};
use std::alloc::Global;
use std::hash::RandomState;
use std::io::{self, BufRead, Error, ErrorKind, Read, Write};
use std::process::Abort;

/// A CAR with one root. Its block links to a block in the file, and to a CID that contains a block
/// with a link to a missing block. The block in the file has another digest than its CID.
const CAR: [u8; 231] = [
    0x3a, 0xa2, 0x65, 0x72, 0x6f, 0x6f, 0x74, 0x73, 0x81, 0xd8, 0x2a, 0x58, 0x25, 0x00, 0x01, 0x71,
    0x12, 0x20, 0x01, 0xbf, 0xf1, 0xc9, 0x14, 0x40, 0xa6, 0xca, 0x62, 0x3d, 0x7d, 0x3a, 0xfb, 0xdf,
    0xe7, 0xa2, 0xb6, 0x3e, 0x45, 0x56, 0xb5, 0x81, 0xfa, 0x16, 0xb3, 0x6e, 0x5d, 0xfd, 0xe6, 0x94,
    0x6e, 0x5f, 0x67, 0x76, 0x65, 0x72, 0x73, 0x69, 0x6f, 0x6e, 0x01, 0x81, 0x01, 0x01, 0x71, 0x12,
    0x20, 0x01, 0xbf, 0xf1, 0xc9, 0x14, 0x40, 0xa6, 0xca, 0x62, 0x3d, 0x7d, 0x3a, 0xfb, 0xdf, 0xe7,
    0xa2, 0xb6, 0x3e, 0x45, 0x56, 0xb5, 0x81, 0xfa, 0x16, 0xb3, 0x6e, 0x5d, 0xfd, 0xe6, 0x94, 0x6e,
    0x5f, 0x82, 0xd8, 0x2a, 0x58, 0x25, 0x00, 0x01, 0x55, 0x12, 0x20, 0x9f, 0x91, 0x16, 0x1f, 0x43,
    0x43, 0x3e, 0x49, 0xa6, 0xde, 0x6d, 0xb6, 0x80, 0xd7, 0x9f, 0x60, 0x15, 0x9f, 0x2e, 0x4a, 0xc9,
    0x17, 0x26, 0x21, 0xa1, 0x28, 0x46, 0x42, 0x81, 0x58, 0x44, 0x0b, 0xd8, 0x2a, 0x58, 0x2f, 0x00,
    0x01, 0x71, 0x00, 0x2a, 0x81, 0xd8, 0x2a, 0x58, 0x25, 0x00, 0x01, 0x55, 0x12, 0x20, 0x76, 0xf7,
    0x5e, 0x61, 0x29, 0xfe, 0x30, 0x13, 0x5b, 0xd4, 0x4d, 0x80, 0xab, 0x7c, 0xc4, 0x6f, 0xdb, 0xa8,
    0x19, 0x07, 0x75, 0x8d, 0xc8, 0x08, 0xf3, 0xe2, 0x51, 0x7b, 0xee, 0xf2, 0xb1, 0xe9, 0x28, 0x01,
    0x55, 0x12, 0x20, 0x9f, 0x91, 0x16, 0x1f, 0x43, 0x43, 0x3e, 0x49, 0xa6, 0xde, 0x6d, 0xb6, 0x80,
    0xd7, 0x9f, 0x60, 0x15, 0x9f, 0x2e, 0x4a, 0xc9, 0x17, 0x26, 0x21, 0xa1, 0x28, 0x46, 0x42, 0x81,
    0x58, 0x44, 0x0b, 0x66, 0x6f, 0x75, 0x6c,
];

/// The CID of the first block.
const TOP: [u8; 36] = [
    0x01, 0x71, 0x12, 0x20, 0x01, 0xbf, 0xf1, 0xc9, 0x14, 0x40, 0xa6, 0xca, 0x62, 0x3d, 0x7d, 0x3a,
    0xfb, 0xdf, 0xe7, 0xa2, 0xb6, 0x3e, 0x45, 0x56, 0xb5, 0x81, 0xfa, 0x16, 0xb3, 0x6e, 0x5d, 0xfd,
    0xe6, 0x94, 0x6e, 0x5f,
];

/// The CID of the second block.
const LEAF: [u8; 36] = [
    0x01, 0x55, 0x12, 0x20, 0x9f, 0x91, 0x16, 0x1f, 0x43, 0x43, 0x3e, 0x49, 0xa6, 0xde, 0x6d, 0xb6,
    0x80, 0xd7, 0x9f, 0x60, 0x15, 0x9f, 0x2e, 0x4a, 0xc9, 0x17, 0x26, 0x21, 0xa1, 0x28, 0x46, 0x42,
    0x81, 0x58, 0x44, 0x0b,
];

/// The CID of the missing block.
const LOST: [u8; 36] = [
    0x01, 0x55, 0x12, 0x20, 0x76, 0xf7, 0x5e, 0x61, 0x29, 0xfe, 0x30, 0x13, 0x5b, 0xd4, 0x4d, 0x80,
    0xab, 0x7c, 0xc4, 0x6f, 0xdb, 0xa8, 0x19, 0x07, 0x75, 0x8d, 0xc8, 0x08, 0xf3, 0xe2, 0x51, 0x7b,
    0xee, 0xf2, 0xb1, 0xe9,
];

/// The offset of the first section.
const SECTIONS: usize = 59;

/// A reader that yields its bytes one at a time, and then ends, or fails.
#[derive(Drop)]
struct Slow<'a> {
    bytes: &'a [u8],
    fails: bool,
}

impl<'a> Read for Slow<'a> {
    fn read(&mut self, _buf: &mut [u8]) -> io::Result<usize> {
        Err(Error::from(ErrorKind::Unsupported))
    }
}

impl<'a> BufRead for Slow<'a> {
    fn fill_buf(&mut self) -> io::Result<&[u8]> {
        if self.fails && self.bytes.is_empty() {
            return Err(Error::from(ErrorKind::ConnectionReset));
        }
        Ok(&self.bytes[..self.bytes.len().min(1)])
    }

    fn consume(&mut self, amount: usize) {
        self.bytes = &self.bytes[amount.min(self.bytes.len())..];
    }
}

/// A writer that takes one byte at a time, `room` bytes in all, and then fails.
#[derive(Drop)]
struct Narrow {
    room: usize,
}

impl Write for Narrow {
    fn write(&mut self, buf: &[u8]) -> io::Result<usize> {
        if self.room == 0 {
            return Err(Error::from(ErrorKind::ConnectionReset));
        }
        if buf.is_empty() {
            return Ok(0);
        }
        self.room -= 1;
        Ok(1)
    }

    fn flush(&mut self) -> io::Result<()> {
        Ok(())
    }
}

/// A writer that takes no byte of any write, and reports no error.
#[derive(Drop)]
struct Full;

impl Write for Full {
    fn write(&mut self, _buf: &[u8]) -> io::Result<usize> {
        Ok(0)
    }

    fn flush(&mut self) -> io::Result<()> {
        Ok(())
    }
}

type SlowCar<'a> = CarReader<Slow<'a>>;

// Opens the CAR of these bytes. After them the reader ends, or fails.
fn opened<'a>(alloc: Global, bytes: &'a [u8], fails: bool) -> Result<SlowCar<'a>, Ended> {
    let reader = Slow { bytes, fails };
    reported(
        "CarReader::new",
        CarReader::new(alloc, reader, DEFAULT_LIMIT),
    )
}

#[test]
fn read(rt: HostRuntime) -> Result<(), Ended> {
    let mut car = opened(rt.alloc(), &CAR, false)?;
    assert!(rt; car.roots() == [cid(&TOP)?].as_slice());
    let mut section = Section::new(rt.alloc());
    for expected in [cid(&TOP)?, cid(&LEAF)?] {
        assert!(rt; reported("read_section", car.read_section(&mut section))?);
        assert!(rt; *section.cid() == expected);
    }
    assert!(rt; section.data() == b"foul".as_slice());
    assert!(rt; !reported("read_section at the end", car.read_section(&mut section))?);
    assert_eq!(rt; car.offset(), CAR.len() as u64);
    Ok(())
}

fn fails_to_read(rt: &impl Abort, alloc: Global, count: usize) -> Result<(), Ended> {
    let mut car = opened(alloc, &CAR[..count.min(CAR.len())], true)?;
    let mut section = Section::new(alloc);
    for _ in 0..3 {
        match car.read_section(&mut section) {
            Ok(found) => assert!(rt; found),
            Err(error) => {
                if let CarErrorKind::Read(failure) = &error.kind {
                    assert!(rt; failure.kind() == ErrorKind::ConnectionReset);
                    assert_eq!(rt; error.offset, count as u64);
                    assert!(rt; section.data().is_empty());
                    return Ok(());
                }
                return reported("read_section", Err(error));
            }
        }
    }
    Err(Ended::Refused("a reader that fails"))
}

// Checks that the error of a reader is reported within a section, and at the end.
#[test]
fn read_of_a_reader_that_fails(rt: HostRuntime) -> Result<(), Ended> {
    for count in [SECTIONS + 40, CAR.len()] {
        fails_to_read(&rt, rt.alloc(), count)?;
    }
    Ok(())
}

#[test]
fn written(rt: HostRuntime) -> Result<(), Ended> {
    let roots = [cid(&TOP)?];
    let outcome = CarWriter::new(rt.alloc(), Vec::new(rt.alloc()), &roots);
    let mut car = reported("CarWriter::new", outcome)?;
    let long = [0u8; 200];
    reported("write_section", car.write_section(&roots[0], &long))?;
    let bytes = reported("finish", car.finish())?;
    assert!(rt; bytes.as_slice().starts_with(&CAR[..SECTIONS]));
    assert_eq!(rt; bytes.len(), SECTIONS + 2 + 36 + 200);
    Ok(())
}

fn fails_to_write(rt: &impl Abort, alloc: Global, room: usize) -> Result<(), Ended> {
    let roots = [cid(&TOP)?];
    let outcome = CarWriter::new(alloc, Narrow { room }, &roots);
    let mut car = reported("CarWriter::new", outcome)?;
    let written = car.write_section(&roots[0], b"block");
    assert_eq!(rt; written.is_ok(), room >= SECTIONS + 42);
    Ok(())
}

// Checks that a writer that takes a byte at a time gets all of them, or its failure is reported.
#[test]
fn written_to_a_writer_that_fails(rt: HostRuntime) -> Result<(), Ended> {
    for room in [SECTIONS, SECTIONS + 41, SECTIONS + 42] {
        fails_to_write(&rt, rt.alloc(), room)?;
    }
    Ok(())
}

// Checks that a writer that takes no byte counts as failed, and isn't retried endlessly.
#[test]
fn written_to_a_full_writer(rt: HostRuntime) -> Result<(), Ended> {
    let roots = [cid(&TOP)?];
    match CarWriter::new(rt.alloc(), Full, &roots) {
        Err(error) if error.kind() != ErrorKind::OutOfMemory => {
            assert!(rt; error.kind() == ErrorKind::WriteZero);
            Ok(())
        }
        outcome => {
            drop(reported("CarWriter::new", outcome)?);
            Err(Ended::Refused("a writer that takes no byte"))
        }
    }
}

#[test]
fn missing(rt: HostRuntime) -> Result<(), Ended> {
    let mut car = opened(rt.alloc(), &CAR, false)?;
    let mut errors = Vec::new(rt.alloc());
    let Ok(hasher) = RandomState::new(&rt) else {
        return Err(Ended::Refused("RandomState::new"));
    };
    let outcome = find_missing(rt.alloc(), hasher, &mut car, "", &mut errors);
    let found = reported("find_missing", outcome)?;
    let seen = Seen {
        blocks: 2,
        unknown: 0,
        invalid: 0,
    };
    assert_eq!(rt; found.seen, seen);
    assert!(rt; errors.is_empty());
    assert!(rt; found.missing.as_slice() == [cid(&LOST)?].as_slice());
    Ok(())
}

#[test]
fn found(rt: HostRuntime) -> Result<(), Ended> {
    let mut car = opened(rt.alloc(), &CAR, false)?;
    let mut section = Section::new(rt.alloc());
    let leaf = cid(&LEAF)?;
    let outcome = find_block(&mut car, &leaf, &mut section);
    assert!(rt; reported("find_block", outcome)?);
    assert!(rt; *section.cid() == leaf && section.data() == b"foul".as_slice());
    assert!(rt;
        !reported(
            "find_block at the end",
            find_block(&mut car, &leaf, &mut section)
        )?
    );
    Ok(())
}

/// The number of zeros after the CAR that is padded.
const ZEROS: usize = 9;

#[test]
fn padded(rt: HostRuntime) -> Result<(), Ended> {
    let mut bytes = Vec::from_slice(rt.alloc(), &CAR)?;
    bytes.extend_from_slice(&[0; ZEROS])?;
    for allows in [false, true] {
        let mut car = opened(rt.alloc(), &bytes, false)?;
        if allows {
            car.allow_zero_padding();
        }
        let mut section = Section::new(rt.alloc());
        for _ in 0..2 {
            assert!(rt; reported("read_section", car.read_section(&mut section))?);
        }
        match car.read_section(&mut section) {
            Ok(has_section) => assert!(rt; allows && !has_section),
            Err(error) => assert!(rt; !allows && matches!(&error.kind, CarErrorKind::Empty)),
        }
        if allows {
            assert_eq!(rt; car.offset(), CAR.len() as u64);
            assert_eq!(rt; car.into_inner().bytes, [0; ZEROS].as_slice());
        }
    }
    Ok(())
}

#[test]
fn verified(rt: HostRuntime) -> Result<(), Ended> {
    let mut car = opened(rt.alloc(), &CAR, false)?;
    let mut writer = Vec::new(rt.alloc());
    let mut places = SectionPlaces::new(rt.alloc(), true);
    let outcome = write_verified(
        rt.alloc(),
        &mut car,
        VerdictForm::Line,
        &mut places,
        &mut writer,
    );
    let expected = Verified {
        right: 1,
        wrong: 1,
        unknown: 0,
    };
    assert_eq!(rt; reported("write_verified", outcome)?, expected);
    assert_eq!(rt; places.places.len(), 2);
    assert_eq!(rt; places.places[0].offset, SECTIONS as u64);
    assert_eq!(rt; places.places[1].cid, cid(&LEAF)?);
    assert!(rt;
        writer
            .as_slice()
            .ends_with(b": the block has another digest\n")
    );
    Ok(())
}

#[test]
fn listed(rt: HostRuntime) -> Result<(), Ended> {
    let mut car = opened(rt.alloc(), &CAR, false)?;
    let mut writer = Vec::new(rt.alloc());
    let mut errors = Vec::new(rt.alloc());
    let outcome = write_list(
        rt.alloc(),
        &mut car,
        Form::Links,
        "",
        &mut writer,
        &mut errors,
    );
    assert!(rt;
        reported("write_list", outcome)?
            == Listed {
                blocks: 2,
                invalid: 0
            }
    );
    assert!(rt; errors.is_empty());
    assert_eq!(rt;
        writer
            .as_slice()
            .iter()
            .filter(|byte| **byte == b'\n')
            .count(),
        2
    );
    Ok(())
}

// Checks that the error of a writer of a byte at a time is reported, wherever it fails.
#[test]
fn listed_to_a_writer_that_fails(rt: HostRuntime) -> Result<(), Ended> {
    for room in [0usize, 9, 60] {
        let mut car = opened(rt.alloc(), &CAR, false)?;
        let mut errors = Vec::new(rt.alloc());
        let writer = &mut Narrow { room };
        let outcome = write_list(rt.alloc(), &mut car, Form::Blocks, "", writer, &mut errors);
        if let Err(CarFileError::Write(kind)) = &outcome {
            assert!(rt; *kind == ErrorKind::ConnectionReset);
        } else {
            reported("write_list", outcome)?;
            return Err(Ended::Refused("a writer that fails"));
        }
    }
    Ok(())
}
