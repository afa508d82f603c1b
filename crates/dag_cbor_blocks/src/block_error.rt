//! The error of reading a block within limits, with its offset.

ghost use Rattle.std.specs.Prelude.{◌≡◌};
ghost use Rattle.dag_cbor_blocks.specs.declared.block_error.BlockErrorKind.TheVariants.{Cbor};
ghost use Rattle.dag_cbor_blocks.specs.BlockErrors.{kind_name};

use dag_cbor_format::CborError;
use ipld_cid::write_number;
use std::{error, fmt};

/// The reason why a block was not read within limits.
///
/// `Display` prints a sentence that describes the error.
#[derive(Clone, Copy, Debug, PartialEq, Eq)]
pub enum BlockErrorKind {
    /// The bytes are not a block, an allocation failed, or the reader failed.
    Cbor(CborError),
    /// A list or a map is nested deeper than the limit allows.
    TooDeep,
    /// The block has more values than the limit allows.
    TooMany,
}

impl From<CborError> for BlockErrorKind {
    ghost use Rattle.std.specs.Prelude.{◌≡◌};

    ghost from_gives = { λ error kind. kind ≡ Cbor error };

    fn from(error: CborError) -> Self {
        BlockErrorKind::Cbor(error)
    }
}

impl BlockErrorKind {
    /// Returns the name of the variant, or for `Cbor` that of the [`CborError`].
    pub fn name(&self) -> &'static str
        ensures { result.now ≡ kind_name self.now }
    {
        match self {
            BlockErrorKind::Cbor(error) => error.name(),
            BlockErrorKind::TooDeep => "TooDeep",
            BlockErrorKind::TooMany => "TooMany",
        }
    }
}

impl fmt::Display for BlockErrorKind {
    ghost use Rattle.std.specs.Prelude.{Some};
    ghost use Rattle.dag_cbor_blocks.specs.BlockErrors.{kind_sentence};

    ghost output = { λ kind. Some (kind_sentence kind) };

    ghost styled_output = { λ kind _. Some (kind_sentence kind) };

    fn fmt<W: fmt::Write>(&self, f: &mut fmt::Formatter<W>) -> fmt::Result {
        match self {
            BlockErrorKind::Cbor(error) => error.sentence().fmt(f),
            BlockErrorKind::TooDeep => f.write_str("lists and maps nest deeper than the limit"),
            BlockErrorKind::TooMany => f.write_str("more values than the limit"),
        }
    }
}

/// The reason why a block was not read within limits, and the byte at which reading stopped.
///
/// `Display` prints the sentence of the kind, then ` at byte ` and the offset.
#[derive(Clone, Copy, Debug, PartialEq, Eq)]
pub struct BlockError {
    /// The reason.
    pub kind: BlockErrorKind,
    /// The byte of the block at which reading stopped. It is the first byte of the part that has
    /// the error: an item, a key, the byte string after the tag of a link, or the bytes left over.
    /// If a limit is passed, it is the first byte of the item that passes it, or of the byte string
    /// of a link. If an allocation fails, it is any offset in the block.
    pub offset: usize,
}

impl fmt::Display for BlockError {
    ghost use Rattle.std.specs.Prelude.{Some};
    ghost use Rattle.dag_cbor_blocks.specs.BlockErrors.{sentence_of};

    ghost output = { λ error. Some (sentence_of error) };

    ghost styled_output = { λ error _. Some (sentence_of error) };

    fn fmt<W: fmt::Write>(&self, f: &mut fmt::Formatter<W>) -> fmt::Result {
        self.kind.fmt(f)?;
        write_number(f, " at byte ", self.offset as u64)
    }
}

impl error::Error for BlockError {}
