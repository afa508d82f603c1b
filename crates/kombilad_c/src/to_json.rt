//! Blocks as text in DAG-JSON.

ghost use Rattle.kombilad_c.specs.ToJson.{WritesJson};

use crate::fill::fill;
use crate::status::{JSON_RESERVED_MAP, MEMORY, stop_status};
use dag_cbor_blocks::{ReadOptions, check_block};
use ipld_show::{ShowError, to_json};
use ipld_tree::Limits;
use std::alloc::Global;

/// Writes the DAG-JSON of the value that the block encodes, if the block is within the limits.
#[unsafe(no_mangle)]
pub extern "C" fn kombilad_block_to_json(
    alloc: Global,
    block: &[u8],
    levels: usize,
    values: usize,
    buffer: &mut [u8],
    needed: &mut usize,
    offset: &mut usize,
) -> u32
    ensures { WritesJson (record { levels = levels; values = values }) block.now result
        (record { before = buffer.old; after = buffer.new })
        (record { before = needed.old; after = needed.new })
        (record { before = offset.old; after = offset.new }) }
{
    let options = ReadOptions {
        limits: Limits { levels, values },
        floats: true,
    };
    if let Err(error) = check_block(alloc, block, &options) {
        return stop_status(error, offset);
    }
    match to_json(alloc, block) {
        Ok(text) => fill(&text, buffer, needed),
        Err(ShowError::Reserved(place)) => {
            *offset = place;
            JSON_RESERVED_MAP
        }
        // The block is valid, so an allocation failed.
        Err(_) => {
            *offset = 0;
            MEMORY
        }
    }
}
