//! The errors of reading a CAR, with their offsets.

use dag_cbor::BlockErrorKind;
use ipld_cid::{CidError, write_number};
use std::{error, fmt, io};

/// The reason why a CAR cannot be read.
///
/// Its `Display` is a sentence that describes the error.
#[derive(Debug, Drop)]
pub enum CarErrorKind {
    /// An allocation failed.
    Memory,
    /// The reader failed.
    Read(io::Error),
    /// The input ends too early:
    ///
    /// - A file of version 1 ends before its header or a section does.
    /// - A file of version 2 ends before its payload begins.
    /// - The payload ends, by the header of version 2, before the payload's header or a section
    ///   does.
    UnexpectedEnd,
    /// The file ends before the payload of version 2 does: within the payload's header or a
    /// section, or before the next section.
    ShortPayload {
        /// The number of bytes that the payload has by the header of version 2.
        expected: u64,
        /// The number of them that the file has.
        found: u64,
    },
    /// The varint before a header or a section isn't in its shortest form.
    LengthNotShortest,
    /// The varint before a header or a section encodes a number of 2^64 or more.
    LengthTooLarge,
    /// A header or a section has the length zero.
    Empty,
    /// A header or a section has this length, which is over the limit.
    TooLong(u64),
    /// A section doesn't begin with a CID.
    Cid(CidError),
    /// The header is not a block of DAG-CBOR, or nests too deep to be a header.
    HeaderBlock(BlockErrorKind),
    /// The header is a block, but not a map of `roots`, which is a list of links, and `version`,
    /// which is 1.
    NotAHeader,
    /// The header of version 2 places the payload before the header's own end, or the payload's end
    /// at 2^64 or more.
    Payload,
}

/// An error of reading a CAR, with its offset.
///
/// Its `Display` is the sentence of the kind, then ` at byte ` and the offset.
#[derive(Debug, Drop)]
pub struct CarError {
    /// The kind of the error.
    pub kind: CarErrorKind,
    /// The offset in the file of the header or the section that is not read. For a `ShortPayload`
    /// after the header or a section, it is the offset of the file's end.
    pub section: u64,
    /// The offset in the file of the error itself:
    ///
    /// - `LengthNotShortest`, `LengthTooLarge`: the byte at which the length stops being a varint.
    /// - `Empty`, `TooLong`: the length.
    /// - `Cid`: the CID.
    /// - `HeaderBlock`, `NotAHeader`: the block of the header.
    /// - `Payload`: the number that places the payload, which is at byte 27.
    /// - `UnexpectedEnd`, `ShortPayload`: the end of the file or of the payload.
    /// - `Read`, `Memory`: the byte at which reading stopped. If decoding the header's block runs
    ///   out of memory, it is that block.
    pub offset: u64,
}

impl fmt::Display for CarErrorKind {
    ghost use Rattle.ipld_car.specs.ErrorTexts.{kind_sentence};

    ghost output = { kind_sentence };

    ghost styled_output = { λ kind _. kind_sentence kind };

    fn fmt<W: fmt::Write>(&self, f: &mut fmt::Formatter<W>) -> fmt::Result {
        f.write_str(match self {
            CarErrorKind::Memory => "out of memory",
            CarErrorKind::Read(error) => return write!(f, "cannot read: {error}"),
            CarErrorKind::UnexpectedEnd => {
                "the file or its payload ends within a header or a section"
            }
            CarErrorKind::ShortPayload { expected, found } => {
                write_number(f, "the payload is cut off after ", *found)?;
                return write_number(f, " bytes of ", *expected);
            }
            CarErrorKind::LengthNotShortest => {
                "the length of a header or a section is not in its shortest form"
            }
            CarErrorKind::LengthTooLarge => "the length of a header or a section is 2^64 or more",
            CarErrorKind::Empty => "a header or a section has the length zero",
            CarErrorKind::TooLong(length) => {
                return write_number(
                    f,
                    "a header or a section is over the limit: its length is ",
                    *length,
                );
            }
            CarErrorKind::Cid(error) => {
                f.write_str("a section does not begin with a CID: ")?;
                return error.sentence().fmt(f);
            }
            CarErrorKind::HeaderBlock(error) => {
                f.write_str("the header is not valid DAG-CBOR: ")?;
                return error.fmt(f);
            }
            CarErrorKind::NotAHeader => {
                "not the header of a CAR: expected a map of roots, a list of links, and version, 1"
            }
            CarErrorKind::Payload => {
                "the payload's offset or size in the header of version 2 is out of range"
            }
        })
    }
}

impl fmt::Display for CarError {
    ghost use Rattle.ipld_car.specs.ErrorTexts.{sentence_of};

    ghost output = { sentence_of };

    ghost styled_output = { λ error _. sentence_of error };

    fn fmt<W: fmt::Write>(&self, f: &mut fmt::Formatter<W>) -> fmt::Result {
        self.kind.fmt(f)?;
        write_number(f, " at byte ", self.offset)
    }
}

impl error::Error for CarError {}
