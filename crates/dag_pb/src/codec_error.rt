//! The errors of DAG-PB as a codec.

ghost use Rattle.std.specs.Prelude.{◌≡◌};
ghost use Rattle.dag_pb.specs.ErrorNames.{codec_name_of};

use crate::encode_error::PbEncodeError;
use crate::error::{PbError, PbErrorKind};
use std::alloc::AllocError;
use std::{error, fmt};

/// The reason why a call of [`DagPbCodec`](crate::DagPbCodec) failed.
///
/// Its `Display` is a sentence that describes the error.
#[derive(Clone, Copy, Debug, PartialEq, Eq)]
pub enum PbCodecError {
    /// An allocation failed here, or the reader or the writer reported that one failed in it.
    Memory,
    /// The reader failed for another reason, or did not end.
    Read,
    /// The writer failed for another reason. Not all bytes were written.
    Write,
    /// The block isn't a node, with the error and its offset. Its kind is never `Memory`.
    Block(PbError),
    /// The link with this index, from 1 on, is the first whose name is less than the name of the
    /// link before it, as in [`PbEncodeError`].
    LinkOrder(usize),
}

impl PbCodecError {
    /// Returns the name of the variant, or for `Block` that of the [`PbError`]'s kind.
    pub fn name(&self) -> &'static str
        ensures { result.now ≡ codec_name_of self.now }
    {
        match self {
            PbCodecError::Memory => "Memory",
            PbCodecError::Read => "Read",
            PbCodecError::Write => "Write",
            PbCodecError::Block(error) => error.kind.name(),
            PbCodecError::LinkOrder(_) => "LinkOrder",
        }
    }
}

impl fmt::Display for PbCodecError {
    ghost use Rattle.std.specs.Prelude.{Some};
    ghost use Rattle.dag_pb.specs.ErrorNames.{codec_sentence};

    ghost output = { λ error. Some (codec_sentence error) };

    ghost styled_output = { λ error _. Some (codec_sentence error) };

    fn fmt<W: fmt::Write>(&self, f: &mut fmt::Formatter<W>) -> fmt::Result {
        match self {
            PbCodecError::Memory => f.write_str("out of memory"),
            PbCodecError::Read => f.write_str("the reader failed"),
            PbCodecError::Write => f.write_str("the writer failed"),
            PbCodecError::Block(error) => error.fmt(f),
            PbCodecError::LinkOrder(index) => PbEncodeError::LinkOrder(*index).fmt(f),
        }
    }
}

impl error::Error for PbCodecError {}

impl From<AllocError> for PbCodecError {
    ghost use Rattle.std.specs.Prelude.{◌≡◌};
    ghost use Rattle.dag_pb.specs.declared.codec_error.PbCodecError.TheVariants.{Memory};

    ghost from_gives = { λ _ error. error ≡ Memory };

    fn from(_error: AllocError) -> Self {
        PbCodecError::Memory
    }
}

impl From<PbError> for PbCodecError {
    ghost use Rattle.std.specs.Prelude.{◌≡◌};
    ghost use Rattle.dag_pb.specs.Codec.{reading_error};

    ghost from_gives = { λ error made. made ≡ reading_error error.kind error };

    fn from(error: PbError) -> Self {
        match error.kind {
            PbErrorKind::Memory => PbCodecError::Memory,
            _ => PbCodecError::Block(error),
        }
    }
}

impl From<PbEncodeError> for PbCodecError {
    ghost use Rattle.std.specs.Prelude.{◌≡◌};
    ghost use Rattle.dag_pb.specs.Codec.{writing_error};

    ghost from_gives = { λ error made. made ≡ writing_error error };

    fn from(error: PbEncodeError) -> Self {
        match error {
            PbEncodeError::Memory => PbCodecError::Memory,
            PbEncodeError::LinkOrder(index) => PbCodecError::LinkOrder(index),
        }
    }
}
