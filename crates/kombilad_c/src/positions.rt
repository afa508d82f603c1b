//! The places of a block's links, listed.

ghost use Rattle.std.specs.Prelude.{◌≡◌, map};
ghost use Rattle.dag_cbor_blocks.specs.LinkPositions.{position_of};
ghost use Rattle.kombilad_c.specs.Fill.{Fills};
ghost use Rattle.kombilad_c.specs.Block.{ListsPositions, span_of};

use crate::status::{OK, TOO_SHORT, stop_status};
use dag_cbor_blocks::{LinkPosition, ReadOptions, link_positions};
use ipld_tree::Limits;
use std::alloc::Global;

/// The place of a CID's bytes in a block.
#[repr(C)]
#[derive(Clone, Copy)]
pub struct Span {
    /// The byte of the block at which they begin.
    pub offset: usize,
    /// The number of bytes.
    pub len: usize,
}

impl Span {
    #[inline(always)]
    fn of(position: &LinkPosition) -> Self
        ensures { result ≡ span_of (position_of position.now) }
    {
        Span {
            offset: position.offset,
            len: position.length,
        }
    }
}

// Writes the places to the beginning of the buffer if they fit. Sets `needed` to their number in
// either case.
fn fill_positions(positions: &[LinkPosition], buffer: &mut [Span], needed: &mut usize) -> u32
    ensures { Fills (map (λ position. span_of (position_of position)) positions.now) result
        buffer.old buffer.new needed.new }
{
    *needed = positions.len();
    if buffer.len() < positions.len() {
        return TOO_SHORT;
    }
    for (at, position) in positions.iter().enumerate() {
        buffer[at] = Span::of(position);
    }
    OK
}

/// Lists the places of the CIDs of the block's links, in the order of its bytes.
#[unsafe(no_mangle)]
pub extern "C" fn kombilad_link_positions(
    alloc: Global,
    block: &[u8],
    levels: usize,
    values: usize,
    positions: &mut [Span],
    needed: &mut usize,
    offset: &mut usize,
) -> u32
    ensures { ListsPositions (record { levels = levels; values = values }) block.now result
        (record { before = positions.old; after = positions.new })
        (record { before = needed.old; after = needed.new })
        (record { before = offset.old; after = offset.new }) }
{
    let options = ReadOptions {
        limits: Limits { levels, values },
        floats: true,
    };
    match link_positions(alloc, block, &options) {
        Ok(found) => fill_positions(&found, positions, needed),
        Err(error) => stop_status(error, offset),
    }
}
