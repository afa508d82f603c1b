//! CARs, read and written again.

use ipld_car::{CarError, CarErrorKind, CarReader, CarVersion, CarWriter, Section};
use std::alloc::{AllocError, Global};

/// Returns the content of a CAR: a limit, a blank, and its bytes.
///
/// The result is the version, the number of roots and, for each section, its CID, a colon and the
/// number of bytes of its block. Then comes `end` with its offset, or the error with the offsets of
/// its section and of the error itself. If all was read, the roots and the blocks are written
/// again, and the result ends with whether that gives the same bytes.
pub fn car(alloc: Global, row: &str) -> Result<String, AllocError> {
    let (limit, digits) = row.split_once(' ').unwrap_or((row, ""));
    let (Ok(limit), Ok(bytes)) = (limit.parse::<u64>(), hex::decode(alloc, digits)) else {
        return String::from_str(alloc, "no limit and bytes");
    };
    match CarReader::new(alloc, bytes.as_slice(), limit) {
        Ok(car) => sections(alloc, car, bytes.as_slice()),
        Err(error) => text_of_error(alloc, &error),
    }
}

/// Returns the name of an error.
fn name(kind: &CarErrorKind) -> &'static str {
    match kind {
        CarErrorKind::Memory => "Memory",
        CarErrorKind::Read(_) => "Read",
        CarErrorKind::UnexpectedEnd => "UnexpectedEnd",
        CarErrorKind::ShortPayload { .. } => "ShortPayload",
        CarErrorKind::LengthNotShortest => "LengthNotShortest",
        CarErrorKind::LengthTooLarge => "LengthTooLarge",
        CarErrorKind::Empty => "Empty",
        CarErrorKind::TooLong(_) => "TooLong",
        CarErrorKind::Cid(_) => "Cid",
        CarErrorKind::HeaderBlock(_) => "HeaderBlock",
        CarErrorKind::NotAHeader => "NotAHeader",
        CarErrorKind::Payload => "Payload",
    }
}

fn text_of_error(alloc: Global, error: &CarError) -> Result<String, AllocError> {
    let name = name(&error.kind);
    format!(in alloc; "{name} {} {}", error.section, error.offset)
}

type Car<'a> = CarReader<&'a [u8]>;

fn sections<'a>(alloc: Global, mut car: Car<'a>, bytes: &[u8]) -> Result<String, AllocError> {
    let version = match car.version() {
        CarVersion::V1 => "v1",
        CarVersion::V2 => "v2",
    };
    let mut said = format!(in alloc; "{version} {}", car.roots().len())?;
    let Ok(mut again) = CarWriter::new(alloc, Vec::new(alloc), car.roots()) else {
        return String::from_str(alloc, "not written");
    };
    let mut section = Section::new(alloc);
    for _ in 0..u64::MAX {
        match car.read_section(&mut section) {
            Ok(true) => {
                if again.write_section(section.cid(), section.data()).is_err() {
                    return String::from_str(alloc, "not written");
                }
                let part = format!(in alloc; " {}:{}", section.cid(), section.data().len())?;
                said.push_str(&part)?;
            }
            Ok(false) => {
                let is_same = matches!(again.finish(), Ok(written) if written.as_slice() == bytes);
                let written = if is_same { "same" } else { "other" };
                return format!(in alloc; "{said} end {} {written}", car.offset());
            }
            Err(error) => {
                let error = text_of_error(alloc, &error)?;
                return format!(in alloc; "{said} {error}");
            }
        }
    }
    Ok(said)
}
