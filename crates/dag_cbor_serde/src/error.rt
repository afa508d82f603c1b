//! The errors of writing a value as a block, and of reading one.

ghost use Rattle.std.specs.Prelude.{◌≡◌};
ghost use Rattle.dag_cbor_serde.specs.Errors.{error_of_image, error_of_block, error_of_read, encode_name, decode_name, encode_sentence, decode_sentence};

use dag_cbor::{BlockError, BlockErrorKind, CborError};
use ipld_ser::SerdeError;
use std::{error, fmt};

/// An error of writing a value as a block of DAG-CBOR.
///
/// Its `Display` is a sentence that describes the error.
#[derive(Clone, Copy, Debug, PartialEq, Eq)]
pub enum EncodeError {
    /// An allocation failed.
    Memory,
    /// The value has no image. The error is never [`SerdeError::Memory`].
    Value(SerdeError),
    /// An integer in the value's image is below -2^64 or above 2^64 - 1.
    IntegerRange,
    /// The writer failed.
    Write,
}

/// An error of reading a value from a block of DAG-CBOR.
///
/// Its `Display` is a sentence that describes the error.
#[derive(Clone, Copy, Debug, PartialEq, Eq)]
pub enum DecodeError {
    /// An allocation failed.
    Memory,
    /// The reader failed or did not end.
    Read,
    /// The bytes are not a block, or exceed a limit. The kind is never that of a failed allocation
    /// or of a reader.
    Block(BlockError),
    /// The type rejects the block's tree. The error is never [`SerdeError::Memory`].
    Value(SerdeError),
}

impl From<SerdeError> for EncodeError {
    ghost from_gives = { λ error written. written ≡ error_of_image error };

    fn from(error: SerdeError) -> EncodeError {
        match error {
            SerdeError::Memory => EncodeError::Memory,
            other => EncodeError::Value(other),
        }
    }
}

impl From<SerdeError> for DecodeError {
    ghost from_gives = { λ error read. read ≡ error_of_read error };

    fn from(error: SerdeError) -> DecodeError {
        match error {
            SerdeError::Memory => DecodeError::Memory,
            other => DecodeError::Value(other),
        }
    }
}

impl From<BlockError> for DecodeError {
    ghost from_gives = { λ error read. read ≡ error_of_block error };

    fn from(error: BlockError) -> DecodeError {
        match error.kind {
            BlockErrorKind::Cbor(CborError::Memory) => DecodeError::Memory,
            BlockErrorKind::Cbor(CborError::Read) => DecodeError::Read,
            _ => DecodeError::Block(error),
        }
    }
}

impl EncodeError {
    /// Returns the name of the variant, or for `Value` that of the [`SerdeError`].
    pub fn name(&self) -> &'static str
        ensures { result.now ≡ encode_name self.now }
    {
        match self {
            EncodeError::Memory => "Memory",
            EncodeError::Value(error) => error.name(),
            EncodeError::IntegerRange => "IntegerRange",
            EncodeError::Write => "Write",
        }
    }
}

impl DecodeError {
    /// Returns the name of the variant, or that of the [`BlockError`]'s kind or of the
    /// [`SerdeError`] if there is one.
    pub fn name(&self) -> &'static str
        ensures { result.now ≡ decode_name self.now }
    {
        match self {
            DecodeError::Memory => "Memory",
            DecodeError::Read => "Read",
            DecodeError::Block(error) => error.kind.name(),
            DecodeError::Value(error) => error.name(),
        }
    }
}

impl fmt::Display for EncodeError {
    ghost output = { encode_sentence };

    ghost styled_output = { λ error _. encode_sentence error };

    fn fmt<W: fmt::Write>(&self, f: &mut fmt::Formatter<W>) -> fmt::Result {
        match self {
            EncodeError::Memory => f.write_str("out of memory"),
            EncodeError::Value(error) => error.sentence().fmt(f),
            EncodeError::IntegerRange => {
                f.write_str("an integer is below -2^64 or above 2^64 - 1")
            }
            EncodeError::Write => f.write_str("the writer failed"),
        }
    }
}

impl fmt::Display for DecodeError {
    ghost output = { decode_sentence };

    ghost styled_output = { λ error _. decode_sentence error };

    fn fmt<W: fmt::Write>(&self, f: &mut fmt::Formatter<W>) -> fmt::Result {
        match self {
            DecodeError::Memory => f.write_str("out of memory"),
            DecodeError::Read => f.write_str("the reader failed"),
            DecodeError::Block(error) => error.fmt(f),
            DecodeError::Value(error) => error.sentence().fmt(f),
        }
    }
}

impl error::Error for EncodeError {}

impl error::Error for DecodeError {}
