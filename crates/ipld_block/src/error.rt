//! The errors of bytes that are not a block.

ghost use Rattle.std.specs.Prelude.{◌≡◌, Some};
ghost use Rattle.ipld_block.specs.ErrorTexts.{name_of, offset_of};

use dag_cbor_blocks::BlockError;
use dag_json::{ReadError, ReadErrorKind, floats};
use dag_pb::{PbError, PbErrorKind};
use ipld_cid::write_number;
use std::alloc::AllocError;
use std::{error, fmt};

/// The error of bytes that are not a block of their codec, with its offset.
///
/// Its `Display` is a sentence, with the offset in the block if there is one.
#[derive(Clone, Copy, Debug, PartialEq, Eq)]
pub enum InvalidBlock {
    /// The bytes are not a block of DAG-CBOR.
    Cbor(BlockError),
    /// The bytes are not a block of DAG-PB.
    Pb(PbError),
    /// The bytes are not a block of DAG-JSON, which may have floats.
    Json(ReadError),
    /// The bytes are a block of DAG-CBOR, but not in canonical form: the keys of a map aren't
    /// sorted length first.
    NotCanonical,
}

impl InvalidBlock {
    /// Returns the name of the error's kind, or `NotCanonical`.
    pub fn name(&self) -> &'static str
        ensures { result.now ≡ name_of self.now }
    {
        match self {
            InvalidBlock::Cbor(error) => error.kind.name(),
            InvalidBlock::Pb(error) => error.kind.name(),
            InvalidBlock::Json(error) => error.kind.name(),
            InvalidBlock::NotCanonical => "NotCanonical",
        }
    }

    /// Returns the byte of the block at which reading stopped, or `None` for `NotCanonical`.
    pub fn offset(&self) -> Option<usize>
        ensures { result ≡ offset_of self.now }
    {
        match self {
            InvalidBlock::Cbor(error) => Some(error.offset),
            InvalidBlock::Pb(error) => Some(error.offset),
            InvalidBlock::Json(error) => Some(error.offset),
            InvalidBlock::NotCanonical => None,
        }
    }
}

impl fmt::Display for InvalidBlock {
    ghost use Rattle.ipld_block.specs.ErrorTexts.{sentence_of};

    ghost output = { λ why. Some (sentence_of why) };

    ghost styled_output = { λ why _. Some (sentence_of why) };

    fn fmt<W: fmt::Write>(&self, f: &mut fmt::Formatter<W>) -> fmt::Result {
        match self {
            InvalidBlock::Cbor(error) => {
                f.write_str("not valid DAG-CBOR: ")?;
                error.fmt(f)
            }
            InvalidBlock::Pb(error) => {
                f.write_str("not valid DAG-PB: ")?;
                error.fmt(f)
            }
            InvalidBlock::Json(error) => {
                f.write_str("not valid DAG-JSON: ")?;
                f.write_str(floats::sentence(error.kind))?;
                write_number(f, " at byte ", error.offset as u64)
            }
            InvalidBlock::NotCanonical => f.write_str(
                "valid, but not canonical DAG-CBOR: the keys of a map are not sorted length first",
            ),
        }
    }
}

impl error::Error for InvalidBlock {}

/// The reason why a check of a block failed. Its `Display` is a sentence.
#[derive(Clone, Copy, Debug, PartialEq, Eq)]
pub enum CheckError {
    /// An allocation failed.
    Memory,
    /// The bytes are not a block of their codec.
    Invalid(InvalidBlock),
}

impl fmt::Display for CheckError {
    ghost use Rattle.ipld_block.specs.ErrorTexts.{check_sentence};

    ghost output = { λ error. Some (check_sentence error) };

    ghost styled_output = { λ error _. Some (check_sentence error) };

    fn fmt<W: fmt::Write>(&self, f: &mut fmt::Formatter<W>) -> fmt::Result {
        match self {
            CheckError::Memory => f.write_str("out of memory"),
            CheckError::Invalid(why) => why.fmt(f),
        }
    }
}

impl error::Error for CheckError {}

impl From<AllocError> for CheckError {
    ghost use Rattle.ipld_block.specs.declared.error.CheckError.TheVariants.{Memory};

    ghost from_gives = { λ _ error. error ≡ Memory };

    fn from(_error: AllocError) -> Self {
        CheckError::Memory
    }
}

impl From<PbError> for CheckError {
    ghost use Rattle.ipld_block.specs.Blocks.{MadeOfPb};

    ghost from_gives = { λ error made. MadeOfPb error made };

    fn from(error: PbError) -> Self {
        match error.kind {
            PbErrorKind::Memory => CheckError::Memory,
            _ => CheckError::Invalid(InvalidBlock::Pb(error)),
        }
    }
}

impl From<ReadError> for CheckError {
    ghost use Rattle.ipld_block.specs.Blocks.{MadeOfJson};

    ghost from_gives = { λ error made. MadeOfJson error made };

    fn from(error: ReadError) -> Self {
        match error.kind {
            ReadErrorKind::Memory => CheckError::Memory,
            _ => CheckError::Invalid(InvalidBlock::Json(error)),
        }
    }
}
