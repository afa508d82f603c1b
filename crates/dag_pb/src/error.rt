//! The errors of reading a block of DAG-PB.

ghost use Rattle.std.specs.Prelude.{◌≡◌};
ghost use Rattle.dag_pb.specs.declared.error.PbErrorKind.TheVariants.{Memory};
ghost use Rattle.dag_pb.specs.ErrorNames.{name_of};
ghost use Rattle.dag_pb.specs.Errors.{error_in, kind_of};

use ipld_cid::{CidError, write_number};
use pb_wire::WireError;
use std::alloc::AllocError;
use std::{error, fmt};

/// The kind of a [`PbError`]: the error in a field of a block of DAG-PB.
///
/// Its `Display` is a sentence that describes the error.
#[derive(Clone, Copy, Debug, PartialEq, Eq)]
pub enum PbErrorKind {
    /// An allocation failed.
    Memory,
    /// The bytes of the block or of a link end before the field does.
    End,
    /// A varint encodes a number of 2^64 or more, or has more than ten bytes.
    VarintTooLarge,
    /// The key of a field that DAG-PB does not have there: 8 times the number of the field, plus
    /// its wire type.
    UnknownField(u64),
    /// A field appears twice or out of order, or there are links before the data and after it.
    FieldOrder,
    /// A link doesn't begin with its hash.
    NoHash,
    /// The hash of a link is not a CID.
    Cid(CidError),
    /// The name of a link isn't UTF-8.
    Utf8,
}

impl PbErrorKind {
    /// Returns the name of the variant.
    pub fn name(&self) -> &'static str
        ensures { result.now ≡ name_of self.now }
    {
        match self {
            PbErrorKind::Memory => "Memory",
            PbErrorKind::End => "End",
            PbErrorKind::VarintTooLarge => "VarintTooLarge",
            PbErrorKind::UnknownField(_) => "UnknownField",
            PbErrorKind::FieldOrder => "FieldOrder",
            PbErrorKind::NoHash => "NoHash",
            PbErrorKind::Cid(_) => "Cid",
            PbErrorKind::Utf8 => "Utf8",
        }
    }
}

impl fmt::Display for PbErrorKind {
    ghost use Rattle.std.specs.Prelude.{Some};
    ghost use Rattle.dag_pb.specs.ErrorNames.{kind_sentence};

    ghost output = { λ kind. Some (kind_sentence kind) };

    ghost styled_output = { λ kind _. Some (kind_sentence kind) };

    fn fmt<W: fmt::Write>(&self, f: &mut fmt::Formatter<W>) -> fmt::Result {
        f.write_str(match self {
            PbErrorKind::Memory => "out of memory",
            PbErrorKind::End => "the bytes end within a field",
            PbErrorKind::VarintTooLarge => {
                "a varint has more than ten bytes, or encodes a number of 2^64 or more"
            }
            PbErrorKind::UnknownField(key) => {
                write_number(f, "unknown field ", key / 8)?;
                return write_number(f, " of wire type ", key % 8);
            }
            PbErrorKind::FieldOrder => "a field is repeated or out of order",
            PbErrorKind::NoHash => "a link does not begin with its hash",
            PbErrorKind::Cid(error) => {
                f.write_str("the hash of a link is not a CID: ")?;
                return error.sentence().fmt(f);
            }
            PbErrorKind::Utf8 => "the name of a link is not UTF-8",
        })
    }
}

impl From<WireError> for PbErrorKind {
    ghost use Rattle.std.specs.Prelude.{◌≡◌};
    ghost use Rattle.dag_pb.specs.Errors.{kind_of};

    ghost from_gives = { λ error kind. kind ≡ kind_of error };

    fn from(error: WireError) -> Self {
        match error {
            WireError::End => PbErrorKind::End,
            WireError::VarintTooLarge => PbErrorKind::VarintTooLarge,
        }
    }
}

/// An error of reading a block of DAG-PB, with its offset. It is the first error from the left.
///
/// Its `Display` is the sentence of the kind, then ` at byte ` and the offset.
#[derive(Clone, Copy, Debug, PartialEq, Eq)]
pub struct PbError {
    /// The kind of the error.
    pub kind: PbErrorKind,
    /// The byte of the block at which the invalid field begins. It is a field of a link if the
    /// link's content is invalid, and otherwise a field of the node.
    ///
    /// For a link without a hash, it is the byte at which the link's content begins. If that
    /// content is empty, it is the byte after the link, which may be the block's length. If an
    /// allocation failed, it is 0.
    pub offset: usize,
}

impl fmt::Display for PbError {
    ghost use Rattle.std.specs.Prelude.{Some};
    ghost use Rattle.dag_pb.specs.ErrorNames.{sentence_of};

    ghost output = { λ error. Some (sentence_of error) };

    ghost styled_output = { λ error _. Some (sentence_of error) };

    fn fmt<W: fmt::Write>(&self, f: &mut fmt::Formatter<W>) -> fmt::Result {
        self.kind.fmt(f)?;
        write_number(f, " at byte ", self.offset as u64)
    }
}

impl error::Error for PbError {}

impl From<AllocError> for PbError {
    ghost use Rattle.std.specs.Prelude.{◌≡◌};

    ghost from_gives = { λ _ error. error ≡ record { kind = Memory; offset = 0 } };

    fn from(_error: AllocError) -> Self {
        PbError {
            kind: PbErrorKind::Memory,
            offset: 0,
        }
    }
}

// The kind of an error, and the number of bytes that are left where its field begins.
#[derive(Clone, Copy)]
pub(crate) struct Fault {
    pub(crate) kind: PbErrorKind,
    pub(crate) left: usize,
}

impl Fault {
    // Returns the fault of a field that isn't in the wire format.
    #[inline(always)]
    pub(crate) fn of_wire(error: WireError, left: usize) -> Fault
        ensures { result ≡ record { kind = kind_of error; left = left } }
    {
        Fault {
            kind: PbErrorKind::from(error),
            left,
        }
    }

    // Returns the error of a block of `len` bytes.
    #[inline(always)]
    pub(crate) fn in_block(self, len: usize) -> PbError
        ensures { result ≡ error_in len self }
    {
        PbError {
            kind: self.kind,
            offset: len.saturating_sub(self.left),
        }
    }
}
