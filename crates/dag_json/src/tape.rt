//! A tape with the content of its entries.

mod open;
mod read;
mod write;

ghost use Rattle.std.specs.Prelude.{◌≡◌};
ghost use Rattle.dag_json.specs.Errors.{tape_name};

use crate::floats;
use crate::read_error::ReadError;
use dag_cbor_blocks::tape::TapeEntry;
use ipld_cid::write_number;
pub use read::tape_from_slice;
use std::{error, fmt};

/// The values and keys of a text, with their content.
///
/// There is an entry for every value and for every key of a map, in the order of the text. Only the
/// pairs of a map are in the order of the bytes of their keys. The module [`dag_cbor_blocks::tape`]
/// describes the fields of an entry. Content is in `contents`, at the offset that the entry has.
#[derive(Drop)]
pub struct Tape {
    /// The entries.
    pub entries: Vec<TapeEntry>,
    /// The bytes to which the entries refer.
    pub contents: Vec<u8>,
}

/// The reason why a text has no tape.
///
/// Its `Display` is a sentence that describes the error.
#[derive(Clone, Copy, Debug, PartialEq, Eq)]
pub enum JsonTapeError {
    /// The text isn't DAG-JSON within the limits, or an allocation failed. The sentence of its kind
    /// is that of [`floats::sentence`].
    Text(ReadError),
    /// A string, bytes or a key have 2^32 bytes or more, or a list or a map spans 2^32 entries or
    /// more.
    TooLong,
}

impl JsonTapeError {
    /// Returns the name of the variant, or for `Text` that of the [`ReadError`]'s kind.
    pub fn name(&self) -> &'static str
        ensures { result.now ≡ tape_name self.now }
    {
        match self {
            JsonTapeError::Text(error) => error.kind.name(),
            JsonTapeError::TooLong => "TooLong",
        }
    }
}

impl fmt::Display for JsonTapeError {
    ghost use Rattle.std.specs.Prelude.{Some};
    ghost use Rattle.dag_json.specs.Errors.{tape_sentence};

    ghost output = { λ error. Some (tape_sentence error) };

    ghost styled_output = { λ error _. Some (tape_sentence error) };

    fn fmt<W: fmt::Write>(&self, f: &mut fmt::Formatter<W>) -> fmt::Result {
        match self {
            JsonTapeError::Text(error) => {
                f.write_str(floats::sentence(error.kind))?;
                write_number(f, " at byte ", error.offset as u64)
            }
            JsonTapeError::TooLong => f.write_str(
                "too long for a tape: a string of 2^32 bytes, or a list or a map of 2^32 entries",
            ),
        }
    }
}

impl error::Error for JsonTapeError {}
