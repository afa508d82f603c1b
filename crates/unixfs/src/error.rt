//! The errors of reading a message of UnixFS.

ghost use Rattle.std.specs.Prelude.{◌≡◌};
ghost use Rattle.unixfs.specs.ErrorNames.{name_of};
ghost use Rattle.unixfs.specs.Errors.{error_in, kind_of};

use ipld_cid::write_number;
use pb_wire::WireError;
use std::alloc::AllocError;
use std::{error, fmt};

/// The kind of a [`UnixFsError`]: the error in a field of a message.
///
/// Its `Display` is a sentence that describes the error.
#[derive(Clone, Copy, Debug, PartialEq, Eq)]
pub enum UnixFsErrorKind {
    /// An allocation failed.
    Memory,
    /// The bytes of the message end before the field does.
    End,
    /// A varint encodes a number of 2^64 or more, or has more than ten bytes.
    VarintTooLarge,
    /// The key of a field that the message doesn't have: 8 times the number of the field, plus its
    /// wire type.
    UnknownField(u64),
    /// A field appears twice or out of order.
    FieldOrder,
    /// The message doesn't begin with its type.
    NoType,
    /// The type has this number, which no type has.
    UnknownType(u64),
    /// The permissions are this number, which has more than 32 bits.
    ModeTooLarge(u64),
    /// A time doesn't begin with its seconds.
    NoSeconds,
    /// A time has this number of nanoseconds, which is 0 or more than 999,999,999.
    Nanoseconds(u32),
}

impl UnixFsErrorKind {
    /// Returns the name of the variant.
    pub fn name(&self) -> &'static str
        ensures { result.now ≡ name_of self.now }
    {
        match self {
            UnixFsErrorKind::Memory => "Memory",
            UnixFsErrorKind::End => "End",
            UnixFsErrorKind::VarintTooLarge => "VarintTooLarge",
            UnixFsErrorKind::UnknownField(_) => "UnknownField",
            UnixFsErrorKind::FieldOrder => "FieldOrder",
            UnixFsErrorKind::NoType => "NoType",
            UnixFsErrorKind::UnknownType(_) => "UnknownType",
            UnixFsErrorKind::ModeTooLarge(_) => "ModeTooLarge",
            UnixFsErrorKind::NoSeconds => "NoSeconds",
            UnixFsErrorKind::Nanoseconds(_) => "Nanoseconds",
        }
    }
}

impl fmt::Display for UnixFsErrorKind {
    ghost use Rattle.std.specs.Prelude.{Some};
    ghost use Rattle.unixfs.specs.ErrorNames.{kind_sentence};

    ghost output = { λ kind. Some (kind_sentence kind) };

    ghost styled_output = { λ kind _. Some (kind_sentence kind) };

    fn fmt<W: fmt::Write>(&self, f: &mut fmt::Formatter<W>) -> fmt::Result {
        f.write_str(match self {
            UnixFsErrorKind::Memory => "out of memory",
            UnixFsErrorKind::End => "the bytes end within a field",
            UnixFsErrorKind::VarintTooLarge => {
                "a varint has more than ten bytes, or encodes a number of 2^64 or more"
            }
            UnixFsErrorKind::UnknownField(key) => {
                write_number(f, "unknown field ", key / 8)?;
                return write_number(f, " of wire type ", key % 8);
            }
            UnixFsErrorKind::FieldOrder => "a field is repeated or out of order",
            UnixFsErrorKind::NoType => "the message does not begin with its type",
            UnixFsErrorKind::UnknownType(code) => {
                return write_number(f, "unknown type ", *code);
            }
            UnixFsErrorKind::ModeTooLarge(mode) => {
                return write_number(f, "the mode has more than 32 bits: ", *mode);
            }
            UnixFsErrorKind::NoSeconds => "a time does not begin with its seconds",
            UnixFsErrorKind::Nanoseconds(count) => {
                return write_number(
                    f,
                    "the nanoseconds of a time are not from 1 to 999999999: ",
                    u64::from(*count),
                );
            }
        })
    }
}

impl From<WireError> for UnixFsErrorKind {
    ghost use Rattle.std.specs.Prelude.{◌≡◌};
    ghost use Rattle.unixfs.specs.Errors.{kind_of};

    ghost from_gives = { λ error kind. kind ≡ kind_of error };

    fn from(error: WireError) -> Self {
        match error {
            WireError::End => UnixFsErrorKind::End,
            WireError::VarintTooLarge => UnixFsErrorKind::VarintTooLarge,
        }
    }
}

/// An error of reading a message, with its offset. It is the first error from the left.
///
/// Its `Display` is the sentence of the kind, then ` at byte ` and the offset.
#[derive(Clone, Copy, Debug, PartialEq, Eq)]
pub struct UnixFsError {
    /// The kind of the error.
    pub kind: UnixFsErrorKind,
    /// The byte of the message at which the invalid field begins. It is a field of the time if the
    /// time is invalid.
    ///
    /// For a missing field, it is the byte at which the field would begin, which may be the length
    /// of the message. If an allocation failed, it is 0.
    pub offset: usize,
}

impl fmt::Display for UnixFsError {
    ghost use Rattle.std.specs.Prelude.{Some};
    ghost use Rattle.unixfs.specs.ErrorNames.{sentence_of};

    ghost output = { λ error. Some (sentence_of error) };

    ghost styled_output = { λ error _. Some (sentence_of error) };

    fn fmt<W: fmt::Write>(&self, f: &mut fmt::Formatter<W>) -> fmt::Result {
        self.kind.fmt(f)?;
        write_number(f, " at byte ", self.offset as u64)
    }
}

impl error::Error for UnixFsError {}

// The kind of an error, and the number of bytes that are left where its field begins. It is
// `usize::MAX` if an allocation failed.
#[derive(Clone, Copy)]
pub(crate) struct Fault {
    pub(crate) kind: UnixFsErrorKind,
    pub(crate) left: usize,
}

impl Fault {
    // Returns the fault of a field that isn't in the wire format.
    #[inline(always)]
    pub(crate) fn of_wire(error: WireError, left: usize) -> Fault
        ensures { result ≡ record { kind = kind_of error; left = left } }
    {
        Fault {
            kind: UnixFsErrorKind::from(error),
            left,
        }
    }

    // Returns the error of a message of `len` bytes.
    #[inline(always)]
    pub(crate) fn in_message(self, len: usize) -> UnixFsError
        ensures { result ≡ error_in len self }
    {
        UnixFsError {
            kind: self.kind,
            offset: len.saturating_sub(self.left),
        }
    }
}

impl From<AllocError> for Fault {
    ghost use Rattle.std.specs.Prelude.{◌≡◌};
    ghost use Rattle.unixfs.specs.Errors.{no_memory};

    ghost from_gives = { λ _ fault. fault ≡ no_memory };

    fn from(_error: AllocError) -> Self {
        Fault {
            kind: UnixFsErrorKind::Memory,
            left: usize::MAX,
        }
    }
}
