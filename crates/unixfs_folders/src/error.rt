//! The errors of reading folders.

ghost use Rattle.std.specs.Prelude.{◌≡◌};

use ipld_block::VerifyError;
use ipld_cid::write_number;
use std::alloc::AllocError;
use std::{error, fmt};
use unixfs::{DataType, NodeError};

/// The reason why a block isn't taken for a folder or a part of one. Links are counted from 0, in
/// the order of the block.
///
/// Its `Display` is a sentence that describes the error.
#[derive(Clone, Copy, Debug, PartialEq, Eq)]
pub enum FolderErrorKind {
    /// An allocation failed.
    Memory,
    /// The CID has the codec with this code. Folders are blocks of DAG-PB (0x70).
    Codec(u64),
    /// The block is not known to be that of the CID.
    Verify(VerifyError),
    /// The block isn't a node of UnixFS, or an allocation failed.
    Node(NodeError),
    /// The node has this type, which is not that of a folder.
    NotFolder(DataType),
    /// The hash function of a shard is not murmur3-x64-64 (0x22).
    HashFunction,
    /// A shard doesn't have 256 slots.
    Fanout,
    /// The name of the entry in this link is missing, empty, `.` or `..`, or has a `/` or a NUL.
    InvalidName(usize),
    /// The name in this link of a plain folder is not greater than the one before it.
    NameOrder(usize),
    /// The name of this link in a shard doesn't begin with two upper-case hexadecimal digits.
    InvalidSlot(usize),
    /// The slot of this link in a shard is not greater than the one before it.
    SlotOrder(usize),
    /// The bit field of a shard is not that of its slots.
    BitField,
    /// A shard leads to a plain folder as if it were a shard.
    NotShard,
    /// The hash of the name in this link of a shard doesn't lead there.
    WrongSlot(usize),
    /// A shard at the eighth level leads to another one. A hash has no slot for it.
    TooDeep,
    /// No block is wanted.
    Finished,
}

impl fmt::Display for FolderErrorKind {
    ghost use Rattle.std.specs.Prelude.{Some};
    ghost use Rattle.unixfs_folders.specs.ErrorNames.{sentence_of};

    ghost output = { λ kind. Some (sentence_of kind) };

    ghost styled_output = { λ kind _. Some (sentence_of kind) };

    fn fmt<W: fmt::Write>(&self, f: &mut fmt::Formatter<W>) -> fmt::Result {
        f.write_str(match self {
            FolderErrorKind::Memory => "out of memory",
            FolderErrorKind::Codec(code) => {
                return write_number(
                    f,
                    "a folder is a DAG-PB block, but the CID has the codec ",
                    *code,
                );
            }
            FolderErrorKind::Verify(error) => return error.fmt(f),
            FolderErrorKind::Node(error) => return error.fmt(f),
            FolderErrorKind::NotFolder(_) => "the node is not a folder",
            FolderErrorKind::HashFunction => "the hash function of the shard is not murmur3-x64-64",
            FolderErrorKind::Fanout => "the shard does not have 256 slots",
            FolderErrorKind::InvalidName(index) => {
                return write_number(f, "invalid name of an entry in link ", *index as u64);
            }
            FolderErrorKind::NameOrder(index) => {
                return write_number(
                    f,
                    "the name of an entry is repeated or out of order in link ",
                    *index as u64,
                );
            }
            FolderErrorKind::InvalidSlot(index) => {
                return write_number(
                    f,
                    "the name does not begin with two upper-case hexadecimal digits in link ",
                    *index as u64,
                );
            }
            FolderErrorKind::SlotOrder(index) => {
                return write_number(
                    f,
                    "the slot is repeated or out of order in link ",
                    *index as u64,
                );
            }
            FolderErrorKind::BitField => "the bit field of the shard is not that of its slots",
            FolderErrorKind::NotShard => "a plain folder is below a shard",
            FolderErrorKind::WrongSlot(index) => {
                return write_number(
                    f,
                    "the hash of the name leads to another slot than that of link ",
                    *index as u64,
                );
            }
            FolderErrorKind::TooDeep => "the folder has more than eight levels of shards",
            FolderErrorKind::Finished => "no block is wanted",
        })
    }
}

impl error::Error for FolderErrorKind {}

impl From<AllocError> for FolderErrorKind {
    ghost use Rattle.std.specs.Prelude.{◌≡◌};
    ghost use Rattle.unixfs_folders.specs.declared.error.FolderErrorKind.TheVariants.{Memory};

    ghost from_gives = { λ _ error. error ≡ Memory };

    fn from(_error: AllocError) -> Self {
        FolderErrorKind::Memory
    }
}
