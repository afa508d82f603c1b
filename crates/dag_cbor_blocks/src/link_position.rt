//! The positions of links in a block.

ghost use Rattle.std.specs.Prelude.{◌≡◌, true, false, [], List};
ghost use Rattle.dag_cbor_format.specs.Trace.{Position};

use crate::visit::{Event, Visitor};
use std::alloc::{AllocError, Global};

/// The position of the bytes of a link's CID in its block.
///
/// The bytes begin after the zero byte of the byte string that follows tag 42. There are `length`
/// of them.
#[derive(Clone, Copy, Debug, PartialEq, Eq)]
pub struct LinkPosition {
    /// The byte of the block at which they begin.
    pub offset: usize,
    /// The number of the bytes.
    pub length: usize,
}

// The number of links in a block so far. If positions are kept, also these, in the order of the
// block's bytes.
#[derive(Drop)]
pub(crate) struct PositionFinder {
    // How many bytes the block has.
    size: usize,
    is_keeping: bool,
    pub(crate) count: usize,
    pub(crate) positions: Vec<LinkPosition>,
}

impl PositionFinder {
    // Creates a finder that keeps the positions, in a block of `size` bytes.
    #[inline(always)]
    pub(crate) fn new(alloc: Global, size: usize) -> Self
        ensures count { result.count ≡ 0 }
        ensures positions { result.positions.items ≡ [] }
        ensures size { result.size ≡ size }
        ensures is_keeping { result.is_keeping ≡ true }
    {
        PositionFinder {
            size,
            is_keeping: true,
            count: 0,
            positions: Vec::new(alloc),
        }
    }

    // Creates a finder that only counts the links.
    #[inline(always)]
    pub(crate) fn counter(alloc: Global) -> Self
        ensures count { result.count ≡ 0 }
        ensures positions { result.positions.items ≡ [] }
        ensures size { result.size ≡ 0 }
        ensures is_keeping { result.is_keeping ≡ false }
    {
        PositionFinder {
            size: 0,
            is_keeping: false,
            count: 0,
            positions: Vec::new(alloc),
        }
    }
}

impl Visitor for PositionFinder {
    ghost use Rattle.std.specs.Prelude.{ℕ};
    ghost use Rattle.dag_cbor_blocks.specs.LinkPositions.{found_with};

    ghost Answer = { ℕ × List Position };

    ghost answer = { found_with };

    #[inline(always)]
    fn visit(&mut self, event: &Event<'_>, _left: usize) -> Result<(), AllocError> {
        match event {
            Event::Link { encoded, left, .. } => {
                self.count = self.count.checked_add(1).ok_or(AllocError)?;
                if self.is_keeping {
                    let length = encoded.len();
                    let offset = self.size.saturating_sub(*left).saturating_sub(length);
                    self.positions.push(LinkPosition { offset, length })?;
                }
                Ok(())
            }
            _ => Ok(()),
        }
    }
}
