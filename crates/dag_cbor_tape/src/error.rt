//! The errors of writing a block from a tape.

ghost use Rattle.std.specs.Prelude.{◌≡◌};
ghost use Rattle.dag_cbor_tape.specs.Errors.{error_of};
ghost use Rattle.dag_cbor_tape.specs.ErrorTexts.{kind_name};

use ipld_cid::{CidError, write_number};
use std::alloc::AllocError;
use std::{error, fmt};

/// The kind of an [`EncodeError`]: the error in an entry of a tape.
///
/// Its `Display` is a sentence that describes the error.
#[derive(Clone, Copy, Debug, PartialEq, Eq)]
pub enum EncodeErrorKind {
    /// An allocation failed.
    Memory,
    /// The entry of a value or of a key is missing.
    Missing,
    /// More entries follow than the list, the map or the tape has values or pairs.
    LeftOver,
    /// The kind is unknown, is that of a key if a value has to come, or is not that of a key if a
    /// key has to come.
    Kind,
    /// A list or a map spans zero entries, or more entries than the list, map or tape around it
    /// has.
    Span,
    /// The length or the value is invalid for the kind of the entry.
    Fields,
    /// The content isn't within the data.
    Content,
    /// A string or a key isn't UTF-8.
    Utf8,
    /// The bytes of a link are not a CID.
    Cid(CidError),
    /// A float is NaN or an infinity.
    Float,
    /// A key repeats an earlier key of its map.
    DuplicateKey,
}

impl EncodeErrorKind {
    /// Returns the name of the variant.
    pub fn name(&self) -> &'static str
        ensures { result.now ≡ kind_name self.now }
    {
        match self {
            EncodeErrorKind::Memory => "Memory",
            EncodeErrorKind::Missing => "Missing",
            EncodeErrorKind::LeftOver => "LeftOver",
            EncodeErrorKind::Kind => "Kind",
            EncodeErrorKind::Span => "Span",
            EncodeErrorKind::Fields => "Fields",
            EncodeErrorKind::Content => "Content",
            EncodeErrorKind::Utf8 => "Utf8",
            EncodeErrorKind::Cid(_) => "Cid",
            EncodeErrorKind::Float => "Float",
            EncodeErrorKind::DuplicateKey => "DuplicateKey",
        }
    }
}

impl fmt::Display for EncodeErrorKind {
    ghost use Rattle.std.specs.Prelude.{Some};
    ghost use Rattle.dag_cbor_tape.specs.ErrorTexts.{kind_sentence};

    ghost output = { λ kind. Some (kind_sentence kind) };

    ghost styled_output = { λ kind _. Some (kind_sentence kind) };

    fn fmt<W: fmt::Write>(&self, f: &mut fmt::Formatter<W>) -> fmt::Result {
        f.write_str(match self {
            EncodeErrorKind::Memory => "out of memory",
            EncodeErrorKind::Missing => "an entry is missing",
            EncodeErrorKind::LeftOver => "an entry is left over",
            EncodeErrorKind::Kind => "unexpected kind of entry",
            EncodeErrorKind::Span => "the span of a list or a map is zero, or exceeds the tape",
            EncodeErrorKind::Fields => "the entry's length or value is invalid for its kind",
            EncodeErrorKind::Content => "the entry's content is not within the data",
            EncodeErrorKind::Utf8 => "a string or a key is not UTF-8",
            EncodeErrorKind::Cid(error) => {
                f.write_str("invalid link: not a CID: ")?;
                return error.sentence().fmt(f);
            }
            EncodeErrorKind::Float => "a float is NaN or an infinity",
            EncodeErrorKind::DuplicateKey => "duplicate map key",
        })
    }
}

impl From<AllocError> for EncodeErrorKind {
    ghost use Rattle.std.specs.Prelude.{◌≡◌};
    ghost use Rattle.dag_cbor_tape.specs.declared.error.EncodeErrorKind.TheVariants.{Memory};

    ghost from_gives = { λ _ kind. kind ≡ Memory };

    fn from(_error: AllocError) -> Self {
        EncodeErrorKind::Memory
    }
}

/// An error of writing a block from a tape, with the index of its entry.
///
/// Its `Display` is the sentence of the kind, then ` at entry ` and the index.
#[derive(Clone, Copy, Debug, PartialEq, Eq)]
pub struct EncodeError {
    /// The kind of the error.
    pub kind: EncodeErrorKind,
    /// The index of the entry, or the index at which one is missing. If an allocation failed, it is
    /// any index, at most the number of entries.
    pub entry: usize,
}

impl fmt::Display for EncodeError {
    ghost use Rattle.std.specs.Prelude.{Some};
    ghost use Rattle.dag_cbor_tape.specs.ErrorTexts.{sentence_of};

    ghost output = { λ error. Some (sentence_of error) };

    ghost styled_output = { λ error _. Some (sentence_of error) };

    fn fmt<W: fmt::Write>(&self, f: &mut fmt::Formatter<W>) -> fmt::Result {
        self.kind.fmt(f)?;
        write_number(f, " at entry ", self.entry as u64)
    }
}

impl error::Error for EncodeError {}

// The kind of an error, and the number of entries from the invalid one to the end.
#[derive(Clone, Copy)]
pub(crate) struct Fault {
    pub(crate) kind: EncodeErrorKind,
    pub(crate) left: usize,
}

impl Fault {
    // Returns the error of a tape of `len` entries.
    pub(crate) fn in_tape(self, len: usize) -> EncodeError
        ensures { result ≡ error_of len self }
    {
        EncodeError {
            kind: self.kind,
            entry: len.saturating_sub(self.left),
        }
    }
}
