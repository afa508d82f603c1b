//! The errors of a CAR: the beginning of a section that is cut, the size that is over the limit,
//! and, by a second look, the part of the header at fault.

use crate::messages::explain::Explanation;
use crate::messages::hint::Hint;
use crate::messages::start::{ItemStart, item_start};
use car_files::is_truncated;
use ipld_block::{BlockCodec, CheckError, VerifyError, check};
use ipld_car::{CarError, CarErrorKind};
use ipld_cid::Cid;
use ipld_show::value_at;
use std::alloc::Global;
use std::fmt;
use std::io::BufRead;

/// Returns the first bytes of a file that a reader has in its buffer. They are not consumed.
pub fn beginning_of<R: BufRead>(alloc: Global, reader: &mut R) -> Vec<u8> {
    let mut beginning = Vec::new(alloc);
    if let Ok(bytes) = reader.fill_buf() {
        // If this fails, the message has less detail.
        let _ = beginning.extend_from_slice(bytes);
    }
    beginning
}

/// The reason why a block is not known to match its CID. Its `Display` is a sentence.
#[derive(Clone, Copy)]
pub struct DigestExplanation<'a> {
    /// The CID.
    pub cid: &'a Cid,
    /// The error.
    pub error: VerifyError,
}

impl<'a> fmt::Display for DigestExplanation<'a> {
    fn fmt<W: fmt::Write>(&self, f: &mut fmt::Formatter<W>) -> fmt::Result {
        match self.error {
            VerifyError::WrongDigest if is_truncated(self.cid) => {
                let len = self.cid.hash().size();
                write!(
                    f,
                    "the digest is truncated to {len} bytes, which is not supported (--unchecked takes the block as it is)"
                )
            }
            VerifyError::WrongDigest => f.write_str(
                "the digest of the block is wrong (--unchecked takes the block as it is)",
            ),
            VerifyError::UnknownHash(code) => {
                write!(
                    f,
                    "the hash function 0x{code:x} is not supported (--unchecked takes the block as it is)"
                )
            }
        }
    }
}

/// The reason why a section of a CAR can't be read. Its `Display` is a sentence with the offset in
/// the file.
#[derive(Clone, Copy)]
pub struct SectionExplanation<'a>(pub &'a CarError);

impl<'a> fmt::Display for SectionExplanation<'a> {
    fn fmt<W: fmt::Write>(&self, f: &mut fmt::Formatter<W>) -> fmt::Result {
        let CarError {
            kind,
            section,
            offset,
        } = self.0;
        match kind {
            CarErrorKind::Memory => f.write_str("out of memory")?,
            CarErrorKind::Read(error) => write!(f, "cannot read the file: {error}")?,
            CarErrorKind::UnexpectedEnd => write!(
                f,
                "truncated: the section that begins at byte {section} is cut off"
            )?,
            CarErrorKind::ShortPayload { expected, found } => write_short_payload(
                f, *expected, *found,
            )?,
            CarErrorKind::LengthNotShortest => {
                f.write_str("the section length is not a minimal varint")?;
            }
            CarErrorKind::LengthTooLarge => f.write_str("the section length is 2^64 or more")?,
            CarErrorKind::Empty => f.write_str("the section length is zero")?,
            CarErrorKind::TooLong(length) => write!(
                f,
                "the section is {length} bytes, over the limit (raise it with --limit),"
            )?,
            CarErrorKind::Cid(error) => {
                write!(
                    f,
                    "the section does not begin with a CID: {}",
                    error.sentence()
                )?;
            }
            kind => write!(f, "{kind}")?,
        }
        write!(f, " at byte {offset}")
    }
}

/// The reason why a file doesn't begin as a CAR, and the format that it seems to have. Its
/// `Display` is a sentence with the offset in the file.
#[derive(Clone, Copy)]
pub struct OpeningExplanation<'a> {
    alloc: Global,
    beginning: &'a [u8],
    error: &'a CarError,
}

impl<'a> OpeningExplanation<'a> {
    /// Explains an error of `CarReader::new` by the first bytes of the file. The message has less
    /// detail if they don't contain the whole header.
    pub fn new(alloc: Global, beginning: &'a [u8], error: &'a CarError) -> Self {
        OpeningExplanation {
            alloc,
            beginning,
            error,
        }
    }

    // Writes the error, without its place.
    fn write_kind<W: fmt::Write>(&self, f: &mut fmt::Formatter<W>) -> fmt::Result {
        match &self.error.kind {
            CarErrorKind::UnexpectedEnd => {
                f.write_str("not a CAR, or truncated: the header is cut off")
            }
            CarErrorKind::ShortPayload { expected, found } => write_short_payload(
                f, *expected, *found,
            ),
            CarErrorKind::LengthNotShortest => {
                f.write_str("not a CAR: the header length is not a minimal varint")
            }
            CarErrorKind::LengthTooLarge => {
                f.write_str("not a CAR: the header length is 2^64 or more")
            }
            CarErrorKind::Empty => f.write_str("not a CAR: the header length is zero"),
            CarErrorKind::TooLong(length) => write!(
                f,
                "the CAR header is {length} bytes, over the limit (raise it with --limit),"
            ),
            CarErrorKind::HeaderBlock(_) | CarErrorKind::NotAHeader => {
                f.write_str("not a CAR: ")?;
                self.write_header(f)
            }
            CarErrorKind::Payload => f.write_str(
                "invalid CAR header of version 2: the payload offset or size is out of range",
            ),
            CarErrorKind::Read(error) => write!(f, "cannot read the file: {error}"),
            kind => write!(f, "{kind}"),
        }
    }

    // Writes the error of the header's block.
    fn write_header<W: fmt::Write>(&self, f: &mut fmt::Formatter<W>) -> fmt::Result {
        let Some(block) = header_block(self.beginning, self.error) else {
            return write!(f, "{}", self.error.kind);
        };
        match check(self.alloc, BlockCodec::DagCbor, block) {
            Ok(()) if matches!(&self.error.kind, CarErrorKind::NotAHeader) => {
                write_fields(f, block)
            }
            Err(CheckError::Invalid(why)) => {
                let why = Explanation::new(self.alloc, block, why);
                write!(f, "the header is {why} of the block")
            }
            _ => f.write_str("the header has a float or too many levels"),
        }
    }
}

impl<'a> fmt::Display for OpeningExplanation<'a> {
    fn fmt<W: fmt::Write>(&self, f: &mut fmt::Formatter<W>) -> fmt::Result {
        self.write_kind(f)?;
        let hint = match &self.error.kind {
            // There are more bytes than those in the buffer.
            CarErrorKind::Memory | CarErrorKind::Read(_) => Hint::Unknown,
            _ => Hint::of_no_car(self.alloc, self.beginning),
        };
        write!(f, " at byte {}{hint}", self.error.offset)
    }
}

// Writes that a file of version 2 is too short for its payload.
fn write_short_payload<W: fmt::Write>(
    f: &mut fmt::Formatter<W>,
    expected: u64,
    found: u64,
) -> fmt::Result {
    write!(
        f,
        "truncated: the payload should be {expected} bytes, and the file has {found} of them"
    )
}

// Returns the block of a header, if the buffer contains all of it.
fn header_block<'a>(beginning: &'a [u8], error: &CarError) -> Option<&'a [u8]> {
    let begin = error.offset as usize;
    let before = beginning.get(error.section as usize..begin)?;
    let mut length = 0usize;
    for byte in before.iter().rev() {
        length = length.checked_mul(128)?.checked_add(*byte as usize % 128)?;
    }
    beginning.get(begin..begin.checked_add(length)?)
}

// Writes why a block is not a header.
fn write_fields<W: fmt::Write>(f: &mut fmt::Formatter<W>, block: &[u8]) -> fmt::Result {
    let ItemStart::Map(fields) = item_start(block) else {
        return write!(f, "the header is {} instead of a map", item_start(block));
    };
    match value_at(block, "version") {
        Ok(version) => match item_start(version) {
            ItemStart::Unsigned(1) => write_roots(f, block, fields),
            ItemStart::Unsigned(number) => {
                write!(f, "the version in the header is {number} instead of 1")
            }
            start => write!(f, "the version in the header is {start} instead of 1"),
        },
        Err(_) => f.write_str("the header has no field \"version\""),
    }
}

// Writes why a map of `fields` fields is not a header, apart from its version.
fn write_roots<W: fmt::Write>(f: &mut fmt::Formatter<W>, block: &[u8], fields: u64) -> fmt::Result {
    let Ok(roots) = value_at(block, "roots") else {
        return f.write_str("the header has no field \"roots\"");
    };
    match item_start(roots) {
        ItemStart::List(_) if fields > 2 => {
            f.write_str("the header has a field other than \"roots\" and \"version\"")
        }
        ItemStart::List(_) => f.write_str("a root in the header is not a link"),
        start => write!(
            f,
            "the roots in the header are {start} instead of a list of links"
        ),
    }
}
