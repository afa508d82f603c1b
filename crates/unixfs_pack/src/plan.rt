//! The blocks of a file of known length, before its bytes are read.

ghost use Rattle.std.specs.Prelude.{◌≤◌};

use crate::lengths::{PlannedPart, planned_leaf, planned_node};
use std::alloc::{AllocError, Global};
use unixfs_build::{Attributes, Layout};

// The most levels of a file: each has at most half as many blocks as the one below it.
const MOST_LEVELS: usize = 65;

// The blocks of a level.
#[derive(Clone, Copy)]
struct Level {
    // Their number.
    count: u64,
    // How many chunks are in each but the last.
    chunks: u64,
    part: PlannedPart,
    last: PlannedPart,
}

// The blocks of a file of known length. The balanced layout of a file follows from its length.
#[derive(Drop)]
pub(crate) struct FilePlan {
    chunk: u64,
    len: u64,
    // From the leaves up. The last has one block.
    levels: Vec<Level>,
}

// Returns the level above one, whose nodes have at most `width` links.
fn level_above(layout: &Layout, attributes: &Attributes, width: u64, low: &Level) -> Level
    requires { 2 ≤ width }
{
    let count = low.count.div_ceil(width);
    let others = low.count.saturating_sub(1) % width;
    let none = Attributes::default();
    let attributes = if count == 1 { attributes } else { &none };
    Level {
        count,
        chunks: low.chunks.saturating_mul(width),
        part: planned_node(layout.version, &none, width - 1, &low.part, &low.part),
        last: planned_node(layout.version, attributes, others, &low.part, &low.last),
    }
}

impl FilePlan {
    // Plans a file of this length.
    pub(crate) fn new(
        alloc: Global,
        layout: &Layout,
        attributes: &Attributes,
        chunk: usize,
        len: u64,
    ) -> Result<FilePlan, AllocError> {
        let chunk = if chunk == 0 { 1 } else { chunk as u64 };
        let width = if layout.width < 2 {
            2
        } else {
            layout.width as u64
        };
        let count = len.div_ceil(chunk).max(1);
        let none = Attributes::default();
        let mut low = Level {
            count,
            chunks: 1,
            part: planned_leaf(layout, &none, chunk),
            last: planned_leaf(
                layout,
                if count == 1 { attributes } else { &none },
                len.saturating_sub((count - 1).saturating_mul(chunk)),
            ),
        };
        let mut levels = Vec::new(alloc);
        for _ in 0..MOST_LEVELS {
            levels.push(low)?;
            if low.count <= 1 {
                break;
            }
            low = level_above(layout, attributes, width, &low);
        }
        Ok(FilePlan { chunk, len, levels })
    }

    // Returns the root.
    pub(crate) fn root(&self) -> PlannedPart {
        match self.levels.last() {
            Some(top) => top.last,
            None => PlannedPart {
                cid_len: 0,
                size: 0,
                block_len: 0,
                total: 0,
            },
        }
    }

    // Returns the number of levels, of which the lowest is that of the leaves.
    pub(crate) fn levels(&self) -> usize {
        self.levels.len()
    }

    // Returns the number of chunks.
    pub(crate) fn chunks(&self) -> u64 {
        match self.levels.first() {
            Some(leaves) => leaves.count,
            None => 0,
        }
    }

    // Returns the offset of the chunk with this index.
    pub(crate) fn offset_of(&self, index: u64) -> u64 {
        index.saturating_mul(self.chunk)
    }

    // Returns the length of the chunk with this index.
    pub(crate) fn chunk_len(&self, index: u64) -> u64 {
        self.len
            .saturating_sub(self.offset_of(index))
            .min(self.chunk)
    }

    // Returns the node of a level that begins with this chunk, if there is one.
    pub(crate) fn node_at(&self, level: usize, chunk: u64) -> Option<PlannedPart> {
        let level = self.levels.get(level)?;
        if level.chunks == 0 || chunk % level.chunks != 0 {
            return None;
        }
        if chunk / level.chunks == level.count.saturating_sub(1) {
            Some(level.last)
        } else {
            Some(level.part)
        }
    }
}
