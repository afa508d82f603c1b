//! The reasons why a block isn't the part of a file that is wanted.

ghost use Rattle.std.specs.Prelude.{◌≡◌};
ghost use Rattle.unixfs_files.specs.ErrorNames.{kind_of_node, type_sentence};

use dag_pb::PbErrorKind;
use ipld_block::VerifyError;
use ipld_cid::write_number;
use std::alloc::AllocError;
use std::{error, fmt};
use unixfs::{DataType, NodeError, UnixFsErrorKind};

/// The reason why a block isn't the part of a file that a walk wants.
///
/// Its `Display` is a sentence that describes the error.
#[derive(Clone, Copy, Debug, PartialEq, Eq)]
pub enum PartError {
    /// An allocation failed.
    Memory,
    /// The block isn't known to be that of the CID.
    Verify(VerifyError),
    /// The codec of the CID has this code, which is neither `raw` nor `dag-pb`.
    Codec(u64),
    /// The block isn't a node of UnixFS.
    Node(NodeError),
    /// The node has this type, which is neither a file nor a part of one.
    NotFile(DataType),
    /// The number of sizes in the node isn't that of its links.
    SizeCount,
    /// The size of the file in the node isn't that of its bytes and its links.
    FileSize,
    /// The node has another number of bytes than the node above it states.
    PartSize,
    /// The range of the file has more bytes than the limit.
    TooLarge,
    /// The file has more blocks than the limit. A block that is linked twice counts twice.
    TooManyBlocks,
    /// The blocks of the file nest deeper than the limit.
    TooDeep,
    /// More blocks of the file wait to be read than the limit.
    TooManyParts,
    /// The walk has taken all blocks of the file.
    Finished,
}

impl fmt::Display for PartError {
    ghost use Rattle.std.specs.Prelude.{Some};
    ghost use Rattle.unixfs_files.specs.ErrorNames.{sentence_of};

    ghost output = { λ error. Some (sentence_of error) };

    ghost styled_output = { λ error _. Some (sentence_of error) };

    fn fmt<W: fmt::Write>(&self, f: &mut fmt::Formatter<W>) -> fmt::Result {
        f.write_str(match self {
            PartError::Memory => "out of memory",
            PartError::Verify(error) => return error.fmt(f),
            PartError::Codec(code) => {
                return write_number(
                    f,
                    "neither raw nor dag-pb, but of the codec with the code ",
                    *code,
                );
            }
            PartError::Node(error) => return error.fmt(f),
            PartError::NotFile(data_type) => return f.write_str(sentence_of_type(*data_type)),
            PartError::SizeCount => "the number of sizes in the node is not that of its links",
            PartError::FileSize => "the size in the node is not that of its bytes and its links",
            PartError::PartSize => "the block has another size than the block above it states",
            PartError::TooLarge => "the file has more bytes than the limit",
            PartError::TooManyBlocks => "the file has more blocks than the limit",
            PartError::TooDeep => "the blocks of the file nest deeper than the limit",
            PartError::TooManyParts => "more blocks of the file wait to be read than the limit",
            PartError::Finished => "all blocks of the file have been read",
        })
    }
}

// Returns the sentence of a type that isn't a file.
fn sentence_of_type(data_type: DataType) -> &'static str
    ensures { result.now ≡ type_sentence data_type }
{
    match data_type {
        DataType::Raw | DataType::File => "a file",
        DataType::Directory | DataType::HamtShard => "a folder, not a file",
        DataType::Metadata => "metadata, not a file",
        DataType::Symlink => "a symbolic link, not a file",
    }
}

impl error::Error for PartError {}

impl From<AllocError> for PartError {
    ghost use Rattle.std.specs.Prelude.{◌≡◌};
    ghost use Rattle.unixfs_files.specs.declared.error.PartError.TheVariants.{Memory};

    ghost from_gives = { λ _ error. error ≡ Memory };

    fn from(_error: AllocError) -> Self {
        PartError::Memory
    }
}

impl From<NodeError> for PartError {
    ghost use Rattle.std.specs.Prelude.{◌≡◌};
    ghost use Rattle.unixfs_files.specs.ErrorNames.{kind_of_node};

    ghost from_gives = { λ error kind. kind ≡ kind_of_node error };

    fn from(error: NodeError) -> Self {
        match error {
            NodeError::Block(inner) if inner.kind == PbErrorKind::Memory => PartError::Memory,
            NodeError::Message(inner) if inner.kind == UnixFsErrorKind::Memory => PartError::Memory,
            _ => PartError::Node(error),
        }
    }
}
