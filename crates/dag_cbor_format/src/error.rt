//! The error of reading or writing a block.

ghost use Rattle.std.specs.Prelude.{◌≡◌};
ghost use Rattle.dag_cbor_format.specs.declared.error.CborError.TheVariants.{Memory};
ghost use Rattle.dag_cbor_format.specs.ErrorKinds.{name_of, sentence_of};

use ipld_cid::CidError;
use std::alloc::{AllocError, AllocFailed};
use std::{error, fmt};

/// The reason why bytes are not a DAG-CBOR block, or why a tree is not written as one.
///
/// For bytes that do not encode a tree, it is the first error from the left. The head of an item
/// comes before its content. In a pair of a map, errors of the key come first, then a duplicate
/// key, then errors of the value.
///
/// `Display` prints the variant's [`name`](CborError::name). With `#` (`{error:#}`), it prints the
/// [`sentence`](CborError::sentence).
#[derive(Clone, Copy, Debug, PartialEq, Eq)]
pub enum CborError {
    /// An allocation failed.
    Memory,
    /// The reader failed in this call.
    Read,
    /// The writer failed in this call.
    Write,
    /// The bytes end before the item does.
    End,
    /// An argument isn't in its shortest form.
    NotShortest,
    /// A float, if floats are not read. If they are read, a float of 16 or 32 bits, NaN or an
    /// infinity.
    Float,
    /// A simple value other than false, true and null, a tag other than 42, an indefinite length,
    /// or a head that RFC 8949 reserves.
    Unsupported,
    /// A text string isn't UTF-8.
    Utf8,
    /// The key of a map isn't a text string.
    KeyNotText,
    /// A map has the same key twice.
    DuplicateKey,
    /// The tag of a link is not followed by a byte string that begins with a zero byte.
    LinkBytes,
    /// The bytes of a link are not a CID.
    Cid(CidError),
    /// More bytes follow the item.
    TrailingBytes,
    /// An integer is below -2^64 or above 2^64 - 1. Nothing was written.
    IntegerRange,
}

impl From<AllocError> for CborError {
    ghost use Rattle.std.specs.Prelude.{◌≡◌};

    ghost from_gives = { λ _ error. error ≡ Memory };

    fn from(_error: AllocError) -> Self {
        CborError::Memory
    }
}

impl<T: Drop> From<AllocFailed<T>> for CborError {
    ghost use Rattle.std.specs.Prelude.{◌≡◌};

    ghost from_gives = { λ _ error. error ≡ Memory };

    fn from(_error: AllocFailed<T>) -> Self {
        CborError::Memory
    }
}

impl CborError {
    /// Returns the name of the variant, for example `TrailingBytes`. `{error}` prints the same.
    pub fn name(&self) -> &'static str
        ensures { result.now ≡ name_of self.now }
    {
        match self {
            CborError::Memory => "Memory",
            CborError::Read => "Read",
            CborError::Write => "Write",
            CborError::End => "End",
            CborError::NotShortest => "NotShortest",
            CborError::Float => "Float",
            CborError::Unsupported => "Unsupported",
            CborError::Utf8 => "Utf8",
            CborError::KeyNotText => "KeyNotText",
            CborError::DuplicateKey => "DuplicateKey",
            CborError::LinkBytes => "LinkBytes",
            CborError::Cid(_) => "Cid",
            CborError::TrailingBytes => "TrailingBytes",
            CborError::IntegerRange => "IntegerRange",
        }
    }

    /// Returns the sentence that describes the error, to be printed. `{error:#}` prints the same.
    pub fn sentence(&self) -> CborSentence
        ensures { result.error ≡ self.now }
    {
        CborSentence { error: *self }
    }
}

impl fmt::Display for CborError {
    ghost use Rattle.std.specs.Prelude.{Some};
    ghost use Rattle.std.specs.Fmt.{spec_alternate};
    ghost use Rattle.dag_cbor_format.specs.ErrorKinds.{printed};

    ghost output = { λ e. Some (name_of e) };

    ghost styled_output = { λ e spec. Some (printed (spec_alternate spec) e) };

    fn fmt<W: fmt::Write>(&self, f: &mut fmt::Formatter<W>) -> fmt::Result {
        if f.alternate() {
            return self.sentence().fmt(f);
        }
        f.write_str(self.name())
    }
}

impl error::Error for CborError {}

/// The sentence that describes a [`CborError`]. Its `Display` prints it, with any options.
#[derive(Clone, Copy, Debug)]
pub struct CborSentence {
    error: CborError,
}

impl fmt::Display for CborSentence {
    ghost use Rattle.std.specs.Prelude.{Some};

    ghost output = { λ s. Some (sentence_of s.error) };

    ghost styled_output = { λ s _. Some (sentence_of s.error) };

    fn fmt<W: fmt::Write>(&self, f: &mut fmt::Formatter<W>) -> fmt::Result {
        f.write_str(match self.error {
            CborError::Memory => "out of memory",
            CborError::Read => "the reader failed",
            CborError::Write => "the writer failed",
            CborError::End => "the bytes end before the item does",
            CborError::NotShortest => "an argument is not in its shortest form",
            CborError::Float => {
                "a float that cannot be read: trees hold none, and tapes hold finite 64-bit floats"
            }
            CborError::Unsupported => {
                "a simple value, a tag or an indefinite length that DAG-CBOR does not allow"
            }
            CborError::Utf8 => "a text string is not UTF-8",
            CborError::KeyNotText => "a map key is not a text string",
            CborError::DuplicateKey => "duplicate map key",
            CborError::LinkBytes => {
                "invalid link: a byte string that starts with 0x00 must follow tag 42"
            }
            CborError::Cid(error) => {
                f.write_str("invalid link: not a CID: ")?;
                return error.sentence().fmt(f);
            }
            CborError::TrailingBytes => "trailing bytes",
            CborError::IntegerRange => "an integer is below -2^64 or above 2^64 - 1",
        })
    }
}
