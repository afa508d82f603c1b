//! Blocks rewritten in canonical form.

ghost use Rattle.kombilad_c.specs.Rewrite.{Rewrites};

use crate::fill::fill;
use crate::status::{TOO_LONG, stop_status};
use dag_cbor_blocks::tape::TapeError;
use dag_cbor_tape::canonicalize;
use ipld_tree::Limits;
use std::alloc::Global;

/// Writes the canonical block of the value that the block encodes, if that is within the limits.
#[unsafe(no_mangle)]
pub extern "C" fn kombilad_block_canonicalize(
    alloc: Global,
    block: &[u8],
    levels: usize,
    values: usize,
    buffer: &mut [u8],
    needed: &mut usize,
    offset: &mut usize,
) -> u32
    ensures { Rewrites (record { levels = levels; values = values }) block.now result
        (record { before = buffer.old; after = buffer.new })
        (record { before = needed.old; after = needed.new })
        (record { before = offset.old; after = offset.new }) }
{
    match canonicalize(alloc, block, &Limits { levels, values }) {
        Ok(written) => fill(&written, buffer, needed),
        Err(TapeError::TooLong) => TOO_LONG,
        Err(TapeError::Block(error)) => stop_status(error, offset),
    }
}
