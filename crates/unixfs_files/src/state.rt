//! The state of a walk over the blocks of a file, and its limits.

ghost use Rattle.std.specs.Prelude.{◌≡◌, []};
ghost use Rattle.std.specs.Option.{ForNone};

use ipld_cid::Cid;

/// A range of the bytes of a file.
#[derive(Clone, Copy, Debug, PartialEq, Eq)]
pub struct FileRange {
    /// The number of bytes before the range. If the file has no more bytes, the range is empty.
    pub start: u64,
    /// The number of bytes in the range at most, or `None` if it goes to the end of the file.
    pub length: Option<u64>,
}

impl FileRange {
    /// All bytes of the file.
    pub const WHOLE: FileRange = FileRange {
        start: 0,
        length: None,
    };
}

/// What a walk over a file may take at most.
#[derive(Clone, Copy, Debug, PartialEq, Eq)]
pub struct FileLimits {
    /// The number of bytes in the range.
    pub bytes: u64,
    /// The number of blocks. A block that is linked twice counts twice.
    pub blocks: u64,
    /// The number of blocks that wait to be read while another is read. A walk takes about 100
    /// bytes of memory for each.
    pub waiting: usize,
    /// The number of levels of blocks below the root.
    pub levels: usize,
}

impl FileLimits {
    /// Any number of bytes, 16,777,216 blocks, 262,144 blocks that wait, and 64 levels.
    ///
    /// A file of 1 TiB in chunks of 256 KiB, with 174 links in a block, has some 4,200,000 blocks in
    /// four levels, and fewer than 1,000 of them wait.
    pub const DEFAULT: FileLimits = FileLimits {
        bytes: u64::MAX,
        blocks: 1 << 24,
        waiting: 1 << 18,
        levels: 64,
    };
}

// A block that waits to be read.
#[derive(Clone, Copy)]
pub(crate) struct WaitingPart {
    pub(crate) cid: Cid,
    // The number of bytes of the file that it stands for, if a block above it states it.
    pub(crate) size: Option<u64>,
    // The number of levels above it.
    pub(crate) level: usize,
}

/// A walk over the blocks of a file that hold a range of its bytes, in the order of the bytes. It
/// does no input and no output: it says which block it wants, and returns the bytes in that block.
///
/// It keeps the CIDs of the blocks that it has yet to read, and nothing of those that it has read.
#[derive(Drop)]
pub struct FileWalk {
    pub(crate) next: Option<WaitingPart>,
    // The others, in reverse order.
    pub(crate) waiting: Vec<WaitingPart>,
    // The range that is left, in the parts that wait.
    pub(crate) range: FileRange,
    pub(crate) limits: FileLimits,
    pub(crate) bytes_left: u64,
    pub(crate) blocks_left: u64,
    ghost ended: { ForNone next (waiting.items ≡ []) },
}
