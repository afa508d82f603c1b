//! The errors of printing a block or a CID.

use dag_cbor_blocks::{BlockError, BlockErrorKind};
use dag_cbor_format::CborError;
use ipld_block::{CheckError, InvalidBlock};
use ipld_cid::{CidError, write_number};
use std::alloc::{AllocError, AllocFailed};
use std::io::ErrorKind;
use std::{error, fmt, io};

/// An error of printing a block or a CID: in the block, in the request, or in the output.
///
/// Its `Display` is a sentence, with the offset in the block if there is one.
#[derive(Clone, Copy, Debug, PartialEq, Eq)]
pub enum ShowError {
    /// An allocation failed.
    Memory,
    /// The writer failed with this kind of error.
    Write(ErrorKind),
    /// The bytes are not a block of their codec.
    Invalid(InvalidBlock),
    /// In a block of DAG-JSON a string, bytes or a key have 2^32 bytes or more, or a list or a map
    /// spans 2^32 entries or more of a tape.
    TooLong,
    /// The path leads to nothing at the segment with this number, counted from 1. The segments
    /// before it lead to a map that doesn't have it as a key, or to a list that doesn't have it as
    /// an index.
    NoSegment(usize),
    /// The path leads to nothing at the segment with this number, counted from 1. The segments
    /// before it lead to a value that is neither a list nor a map.
    NotAContainer(usize),
    /// A map has no form in DAG-JSON: its first key is `/`, and its value would be read as a link
    /// or as bytes. The number is the byte at which the map begins, counted from the beginning of
    /// the value that is written.
    Reserved(usize),
    /// A link is not a CID with a digest of at most 64 bytes.
    Cid(CidError),
}

impl fmt::Display for ShowError {
    ghost use Rattle.ipld_show.specs.ErrorTexts.{sentence_of};

    ghost output = { sentence_of };

    ghost styled_output = { λ error _. sentence_of error };

    fn fmt<W: fmt::Write>(&self, f: &mut fmt::Formatter<W>) -> fmt::Result {
        match self {
            ShowError::Memory => f.write_str("out of memory"),
            ShowError::Write(kind) => write!(f, "cannot write: {kind}"),
            ShowError::Invalid(why) => why.fmt(f),
            ShowError::TooLong => f.write_str(
                "too long for a tape: a string of 2^32 bytes, or a list or a map of 2^32 entries",
            ),
            ShowError::NoSegment(segment) => write_number(
                f,
                "the path leads to no key or index at segment ",
                *segment as u64,
            ),
            ShowError::NotAContainer(segment) => write_number(
                f,
                "the path goes on after a value that is not a list or a map, at segment ",
                *segment as u64,
            ),
            ShowError::Reserved(offset) => write_number(
                f,
                "DAG-JSON would read a link or bytes in place of the map at byte ",
                *offset as u64,
            ),
            ShowError::Cid(error) => {
                f.write_str("not a CID: ")?;
                error.sentence().fmt(f)
            }
        }
    }
}

impl error::Error for ShowError {}

impl From<AllocError> for ShowError {
    ghost use Rattle.std.specs.Prelude.{◌≡◌};
    ghost use Rattle.ipld_show.specs.Scalars.{IsMemory, IsOutputError};
    ghost use Rattle.ipld_show.specs.declared.error.ShowError.TheVariants.{Memory};

    ghost from_gives = { λ _ error. (error ≡ Memory) × IsOutputError error × IsMemory error };

    fn from(_error: AllocError) -> Self {
        ShowError::Memory
    }
}

impl<T: Drop> From<AllocFailed<T>> for ShowError {
    ghost use Rattle.std.specs.Prelude.{◌≡◌};
    ghost use Rattle.ipld_show.specs.Scalars.{IsMemory, IsOutputError};
    ghost use Rattle.ipld_show.specs.declared.error.ShowError.TheVariants.{Memory};

    ghost from_gives = { λ _ error. (error ≡ Memory) × IsOutputError error × IsMemory error };

    fn from(_error: AllocFailed<T>) -> Self {
        ShowError::Memory
    }
}

impl From<io::Error> for ShowError {
    ghost use Rattle.std.specs.IoError.{error_kind};
    ghost use Rattle.ipld_show.specs.Scalars.{IsErrorOfWriter, IsOutputError};

    ghost from_gives = { λ error made. IsErrorOfWriter (error_kind error) made × IsOutputError made };

    fn from(error: io::Error) -> Self {
        match error.kind() {
            ErrorKind::OutOfMemory => ShowError::Memory,
            kind => ShowError::Write(kind),
        }
    }
}

impl From<CheckError> for ShowError {
    ghost use Rattle.ipld_show.specs.Blocks.{IsShown};

    ghost from_gives = { λ error made. IsShown error made };

    fn from(error: CheckError) -> Self {
        match error {
            CheckError::Memory => ShowError::Memory,
            CheckError::Invalid(why) => ShowError::Invalid(why),
        }
    }
}

// The error of bytes that should be a valid block and are not.
pub(crate) fn unchecked_error() -> ShowError {
    ShowError::Invalid(InvalidBlock::Cbor(BlockError {
        kind: BlockErrorKind::Cbor(CborError::End),
        offset: 0,
    }))
}
