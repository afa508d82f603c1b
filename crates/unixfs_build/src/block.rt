//! Blocks that were made, and the parts of a file in them.

ghost use Rattle.std.specs.Prelude.{◌≡◌};
ghost use Rattle.unixfs_build.specs.Views.{built, block_of};

use ipld_cid::Cid;

/// A block of a file.
#[derive(Drop)]
pub struct FileBlock {
    /// The CID of the block.
    pub cid: Cid,
    /// The bytes of the block.
    pub data: Vec<u8>,
    /// How many bytes of the file are in the block and in all blocks below it.
    pub size: u64,
    /// How many bytes the block has, with all blocks below it. A block that is linked twice counts
    /// twice. It is what a link to the block has as its `Tsize`.
    pub total: u64,
}

impl FileBlock {
    // Returns the part of the file that the block is.
    pub(crate) fn part(&self) -> BuiltPart
        ensures { built result ≡ (block_of self.now).part }
    {
        BuiltPart {
            cid: self.cid,
            size: self.size,
            total: self.total,
        }
    }
}

// A part of a file whose block was made.
#[derive(Clone, Copy)]
pub(crate) struct BuiltPart {
    pub(crate) cid: Cid,
    // How many bytes of the file it has.
    pub(crate) size: u64,
    // How many bytes its blocks have.
    pub(crate) total: u64,
}
