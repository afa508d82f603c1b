//! The error of writing a tree, and of the calls of the codec.

ghost use Rattle.std.specs.Prelude.{◌≡◌};
ghost use Rattle.dag_json.specs.declared.error.DagJsonError.TheVariants.{Memory};
ghost use Rattle.dag_json.specs.Errors.{write_name};

use crate::read_error::{ReadError, ReadErrorKind};
use ipld_cid::write_number;
use std::alloc::{AllocError, AllocFailed};
use std::{error, fmt};

/// An error of writing a tree as DAG-JSON, or of a call of [`DagJsonCodec`](crate::DagJsonCodec).
///
/// Its `Display` is a sentence that describes the error.
#[derive(Clone, Copy, Debug, PartialEq, Eq)]
pub enum DagJsonError {
    /// An allocation failed, here or in the writer, if the writer reports so.
    Memory,
    /// The reader failed, or did not end.
    Read,
    /// The writer failed.
    Write,
    /// The block isn't DAG-JSON, with the error and its offset. Its kind is never `Memory`,
    /// `TooDeep`, `TooMany` or `NotCanonical`.
    Text(ReadError),
    /// A map has the first key `/`. Its value is a string, or a map with the first key `bytes` and
    /// a string as its value. DAG-JSON reserves these maps for links and bytes.
    ///
    /// The number is the index of the first such map in the order of
    /// [`Ipld::iter`](ipld_tree::Ipld::iter), from 0 for the tree itself. If that exceeds
    /// `usize::MAX`, it is `usize::MAX`.
    Reserved(usize),
}

impl From<AllocError> for DagJsonError {
    ghost from_gives = { λ _ error. error ≡ Memory };

    fn from(_error: AllocError) -> Self {
        DagJsonError::Memory
    }
}

impl<T: Drop> From<AllocFailed<T>> for DagJsonError {
    ghost from_gives = { λ _ error. error ≡ Memory };

    fn from(_error: AllocFailed<T>) -> Self {
        DagJsonError::Memory
    }
}

impl From<ReadError> for DagJsonError {
    ghost use Rattle.dag_json.specs.Codec.{IsErrorOfText};

    ghost from_gives = { λ error made. IsErrorOfText error made };

    fn from(error: ReadError) -> Self {
        match error.kind {
            ReadErrorKind::Memory => DagJsonError::Memory,
            _ => DagJsonError::Text(error),
        }
    }
}

impl DagJsonError {
    /// Returns the name of the variant, or for `Text` that of the [`ReadError`]'s kind.
    pub fn name(&self) -> &'static str
        ensures { result.now ≡ write_name self.now }
    {
        match self {
            DagJsonError::Memory => "Memory",
            DagJsonError::Read => "Read",
            DagJsonError::Write => "Write",
            DagJsonError::Text(error) => error.kind.name(),
            DagJsonError::Reserved(_) => "Reserved",
        }
    }
}

impl fmt::Display for DagJsonError {
    ghost use Rattle.std.specs.Prelude.{Some};
    ghost use Rattle.dag_json.specs.Errors.{write_sentence};

    ghost output = { λ error. Some (write_sentence error) };

    ghost styled_output = { λ error _. Some (write_sentence error) };

    fn fmt<W: fmt::Write>(&self, f: &mut fmt::Formatter<W>) -> fmt::Result {
        match self {
            DagJsonError::Memory => f.write_str("out of memory"),
            DagJsonError::Read => f.write_str("the reader failed"),
            DagJsonError::Write => f.write_str("the writer failed"),
            DagJsonError::Text(error) => error.fmt(f),
            DagJsonError::Reserved(place) => write_number(
                f,
                "DAG-JSON would read a link or bytes in place of the map that is value ",
                *place as u64,
            ),
        }
    }
}

impl error::Error for DagJsonError {}
