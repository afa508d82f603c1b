//! What is packed, and the blocks of it that wait to be taken.

ghost use Rattle.std.specs.Prelude.{◌≡◌, map, IfOk, IfErr};
ghost use Rattle.unixfs_build.specs.Views.{made};
ghost use Rattle.unixfs_build.specs.Views as models;
ghost use Rattle.kombilad_c.specs.Pack.{HandsOut, HasNodes, has_waiting, block_row, block_of_node};

use crate::cid_record::CidBytes;
use crate::fill::fill;
use crate::status::{OK, TOO_SHORT, WALK_DONE};
use std::alloc::{AllocError, Global};
use unixfs_build::{BuildError, FileBlock, FileBuilder, NodeBlock};

/// A file, a folder or a symbolic link that is packed.
#[derive(Drop)]
pub struct Packing {
    // The builder of a file that has not had its last chunk.
    pub(crate) file: Option<FileBuilder>,
    // The blocks that were made last.
    pub(crate) blocks: Vec<FileBlock>,
    // How many of them were taken.
    pub(crate) taken: usize,
}

/// A block that was packed, for C.
#[repr(C)]
#[derive(Clone, Copy)]
pub struct BlockRow {
    /// The CID of the block.
    pub cid: CidBytes,
    /// How many bytes of the file are in the block and in all blocks below it. Blocks of folders and
    /// symbolic links have 0.
    pub size: u64,
    /// How many bytes the block has, with all blocks below it.
    pub total: u64,
}

impl BlockRow {
    // Returns the row of a block.
    fn of(block: &FileBlock) -> Self
        ensures { result ≡ block_row (models.block_of block.now) }
    {
        BlockRow {
            cid: CidBytes::of(&block.cid),
            size: block.size,
            total: block.total,
        }
    }
}

impl Packing {
    // Returns the blocks of these nodes as what is packed.
    pub(crate) fn of_nodes(alloc: Global, nodes: Vec<NodeBlock>) -> Result<Self, BuildError>
        ensures packed { IfOk result (HasNodes (map made nodes.items)) }
        ensures fault { IfErr result (λ error. error ≡ BuildError.Memory) }
    {
        match blocks_of(alloc, nodes) {
            Ok(blocks) => Ok(Packing {
                file: None,
                blocks,
                taken: 0,
            }),
            Err(_) => Err(BuildError::Memory),
        }
    }

    // Returns whether blocks wait to be taken.
    pub(crate) fn has_waiting(&self) -> bool
        ensures { result ≡ has_waiting self.now }
    {
        self.taken < self.blocks.len()
    }

    // Takes the next block, and copies it to the beginning of the buffer.
    pub(crate) fn take(&mut self, row: &mut BlockRow, bytes: &mut [u8], needed: &mut usize) -> u32
        ensures { HandsOut self.old self.new result
            (record { before = row.old; after = row.new })
            (record { before = bytes.old; after = bytes.new })
            (record { before = needed.old; after = needed.new }) }
    {
        match self.blocks.get(self.taken) {
            Some(block) => {
                if fill(&block.data, bytes, needed) == OK {
                    *row = BlockRow::of(block);
                    self.taken += 1;
                    return OK;
                }
                TOO_SHORT
            }
            None => WALK_DONE,
        }
    }
}

// Returns the blocks of nodes.
fn blocks_of(alloc: Global, nodes: Vec<NodeBlock>) -> Result<Vec<FileBlock>, AllocError>
    ensures { IfOk result (λ blocks. map models.block_of blocks.items
        ≡ map block_of_node (map made nodes.items)) }
{
    let mut blocks = Vec::with_capacity(alloc, nodes.len())?;
    for node in nodes {
        blocks.push(FileBlock {
            cid: node.cid,
            data: node.data,
            size: 0,
            total: node.total,
        })?;
    }
    Ok(blocks)
}
