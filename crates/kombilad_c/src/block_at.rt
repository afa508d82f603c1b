//! The value at a path in a block, found.

ghost use Rattle.kombilad_c.specs.BlockAt.{FindsAt, FindsInBlock};

use crate::positions::Span;
use crate::status::{OK, OTHER, PATH_MISSING, PATH_NOT_A_CONTAINER, TEXT_UTF8, stop_status};
use dag_cbor_blocks::{ReadOptions, check_block};
use ipld_show::{ShowError, reach};
use ipld_tree::Limits;
use std::alloc::Global;
use std::str;

// Writes the place of the value at a path in a block that is known to be valid, and the byte of the
// path at which its rest begins. If the path leads to nothing, writes the number of the segment.
fn find_in_block(
    block: &[u8],
    path: &str,
    value: &mut Span,
    rest: &mut usize,
    place: &mut usize,
) -> u32
    ensures { FindsInBlock block.now path.now result
        (record { before = value.old; after = value.new })
        (record { before = rest.old; after = rest.new })
        (record { before = place.old; after = place.new }) }
{
    match reach(block, path) {
        Ok(reached) => {
            *value = Span {
                offset: reached.offset,
                len: reached.len,
            };
            *rest = reached.rest;
            OK
        }
        Err(ShowError::NoSegment(segment)) => {
            *place = segment;
            PATH_MISSING
        }
        Err(ShowError::NotAContainer(segment)) => {
            *place = segment;
            PATH_NOT_A_CONTAINER
        }
        // The block is valid, so a path has no other error.
        Err(_) => OTHER,
    }
}

/// Finds the value at a path in the block, if the block is within the limits.
#[unsafe(no_mangle)]
pub extern "C" fn kombilad_block_at(
    alloc: Global,
    block: &[u8],
    levels: usize,
    values: usize,
    path: &[u8],
    value: &mut Span,
    rest: &mut usize,
    place: &mut usize,
) -> u32
    ensures { FindsAt (record { levels = levels; values = values }) block.now path.now result
        (record { before = value.old; after = value.new })
        (record { before = rest.old; after = rest.new })
        (record { before = place.old; after = place.new }) }
{
    let options = ReadOptions {
        limits: Limits { levels, values },
        floats: true,
    };
    if let Err(error) = check_block(alloc, block, &options) {
        return stop_status(error, place);
    }
    match str::from_utf8(path) {
        Ok(path) => find_in_block(block, path, value, rest, place),
        Err(_) => TEXT_UTF8,
    }
}
