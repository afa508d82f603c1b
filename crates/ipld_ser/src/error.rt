//! The reasons why a typed value cannot be written or read.

ghost use Rattle.std.specs.Prelude.{◌≡◌};
ghost use Rattle.ipld_ser.specs.declared.error.SerdeError as errors;
ghost use Rattle.ipld_ser.specs.Error.{name_of, sentence_of};

use ipld_cid::{CidError, write_number};
use ipld_tree::IpldKind;
use std::alloc::{AllocError, AllocFailed};
use std::{error, fmt};

/// The reason why a typed value cannot be written as a tree, or a tree cannot be read as a typed
/// value.
#[derive(Clone, Copy, Debug, PartialEq, Eq)]
pub enum SerdeError {
    /// An allocation failed.
    Memory,
    /// `()` has no image.
    Unit,
    /// A unit struct has no image.
    UnitStruct,
    /// A `u128` is greater than the greatest `i128`.
    U128,
    /// A key of a map is written as something other than a String.
    KeyNotText,
    /// The Bytes in a newtype struct with the name of CIDs are not a CID. The content is the
    /// reason.
    InvalidCid(CidError),
    /// The tree is of a kind that the type does not accept. The content is the kind found.
    WrongKind(IpldKind),
    /// The Integer is out of the type's range.
    OutOfRange,
    /// The String is not exactly one character.
    NotOneChar,
    /// The List is shorter than the type, or its length differs from that of the tuple variant or
    /// array.
    WrongLength,
    /// Elements or pairs were left over. The content is their number.
    Leftover(usize),
    /// A value was requested when no key had been read.
    MissingValue,
    /// An enum was to be read from a Map without a key.
    NoKey,
    /// An enum was to be read from a Map with several keys.
    MoreKeys,
    /// The content of a variant without content was requested.
    VariantContent,
    /// An error of a custom type, with its own message.
    Custom(&'static str),
}

/// The error of a call that borrows several values: [`SerdeError`]. It is a type parameter of such
/// a call, since the borrow checker rejects a call that borrows several values if its signature has
/// a `&'static`.
///
/// The trait is sealed: no other type can implement it.
pub trait SerializeError: sealed::Sealed + Sized {
    // the error that it is
    ghost reported: { Self → errors.SerdeError };

    /// Returns the error itself.
    fn report(error: SerdeError) -> Self
        ensures { reported result ≡ error };
}

mod sealed {
    pub trait Sealed {}
}

impl sealed::Sealed for SerdeError {}

impl SerializeError for SerdeError {
    ghost reported = { λ e. e };

    #[inline(always)]
    fn report(error: SerdeError) -> SerdeError {
        error
    }
}

impl SerdeError {
    /// Creates an error with the caller's message.
    pub fn custom(message: &'static str) -> SerdeError
        ensures { result ≡ SerdeError.Custom message.entry }
    {
        Self::Custom(message)
    }

    /// Returns the name of the variant, for example `OutOfRange`.
    pub fn name(&self) -> &'static str
        ensures { result.now ≡ name_of self.now }
    {
        match self {
            SerdeError::Memory => "Memory",
            SerdeError::Unit => "Unit",
            SerdeError::UnitStruct => "UnitStruct",
            SerdeError::U128 => "U128",
            SerdeError::KeyNotText => "KeyNotText",
            SerdeError::InvalidCid(_) => "InvalidCid",
            SerdeError::WrongKind(_) => "WrongKind",
            SerdeError::OutOfRange => "OutOfRange",
            SerdeError::NotOneChar => "NotOneChar",
            SerdeError::WrongLength => "WrongLength",
            SerdeError::Leftover(_) => "Leftover",
            SerdeError::MissingValue => "MissingValue",
            SerdeError::NoKey => "NoKey",
            SerdeError::MoreKeys => "MoreKeys",
            SerdeError::VariantContent => "VariantContent",
            SerdeError::Custom(_) => "Custom",
        }
    }

    /// Returns the sentence that describes the error, to be printed: the message of a
    /// [`Custom`](SerdeError::Custom) error. `{error:#}` prints the same.
    pub fn sentence(&self) -> SerdeSentence
        ensures { result.error ≡ self.now }
    {
        SerdeSentence { error: *self }
    }
}

/// `Display` prints `serde error: ` and the message for a [`Custom`](SerdeError::Custom) error, and
/// the [`name`](SerdeError::name) for any other error. With `#` (`{error:#}`), it prints the
/// [`sentence`](SerdeError::sentence).
impl fmt::Display for SerdeError {
    ghost use Rattle.std.specs.Prelude.{Some};
    ghost use Rattle.std.specs.Fmt.{spec_alternate};
    ghost use Rattle.ipld_ser.specs.Error.{message_of, printed};

    ghost output = { λ e. Some (message_of e) };

    ghost styled_output = { λ e spec. printed (spec_alternate spec) e };

    fn fmt<W: fmt::Write>(&self, f: &mut fmt::Formatter<W>) -> fmt::Result {
        if f.alternate() {
            return self.sentence().fmt(f);
        }
        match self {
            SerdeError::Custom(message) => {
                f.write_str("serde error: ")?;
                f.write_str(message)
            }
            _ => f.write_str(self.name()),
        }
    }
}

/// The sentence that describes a [`SerdeError`]. Its `Display` prints it, with any options.
#[derive(Clone, Copy, Debug)]
pub struct SerdeSentence {
    error: SerdeError,
}

impl fmt::Display for SerdeSentence {
    ghost output = { λ s. sentence_of s.error };

    ghost styled_output = { λ s _. sentence_of s.error };

    fn fmt<W: fmt::Write>(&self, f: &mut fmt::Formatter<W>) -> fmt::Result {
        f.write_str(match self.error {
            SerdeError::Memory => "out of memory",
            SerdeError::Unit => "() cannot be written: it has no image",
            SerdeError::UnitStruct => "a unit struct cannot be written: it has no image",
            SerdeError::U128 => "a u128 is above 2^127 - 1",
            SerdeError::KeyNotText => "a map key is not a string",
            SerdeError::InvalidCid(error) => {
                f.write_str("invalid link: not a CID: ")?;
                return error.sentence().fmt(f);
            }
            SerdeError::WrongKind(kind) => {
                return write!(f, "the type does not accept a value of the kind {kind:?}");
            }
            SerdeError::OutOfRange => "the integer is out of the type's range",
            SerdeError::NotOneChar => "the string is not exactly one character",
            SerdeError::WrongLength => "the list has another length than the type",
            SerdeError::Leftover(count) => {
                return write_number(f, "elements or entries left unread: ", count as u64);
            }
            SerdeError::MissingValue => "next_value was called before next_key",
            SerdeError::NoKey => "the map of an enum has no key",
            SerdeError::MoreKeys => "the map of an enum has more than one key",
            SerdeError::VariantContent => "the variant has no content",
            SerdeError::Custom(message) => return f.write_str(message),
        })
    }
}

impl error::Error for SerdeError {}

impl From<AllocError> for SerdeError {
    ghost use Rattle.ipld_ser.specs.declared.error.SerdeError.TheVariants.{Memory};

    ghost from_gives = { λ _ error. error ≡ Memory };

    /// Returns [`SerdeError::Memory`] for a failed allocation.
    #[inline(always)]
    fn from(_error: AllocError) -> SerdeError {
        SerdeError::Memory
    }
}

impl<T: Drop> From<AllocFailed<T>> for SerdeError {
    ghost use Rattle.ipld_ser.specs.declared.error.SerdeError.TheVariants.{Memory};

    ghost from_gives = { λ _ error. error ≡ Memory };

    /// Returns [`SerdeError::Memory`] for a failed allocation. The value that could not be stored
    /// is dropped.
    #[inline(always)]
    fn from(_error: AllocFailed<T>) -> SerdeError {
        SerdeError::Memory
    }
}
