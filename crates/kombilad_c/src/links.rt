//! The links of a block, listed.

ghost use Rattle.std.specs.Prelude.{◌≡◌, ◌≤◌, length, map};
ghost use Rattle.std.specs.List.{All};
ghost use Rattle.dag_cbor_format.specs.Trace.{cut};
ghost use Rattle.dag_cbor_blocks.specs.LinkPositions.{position_of};
ghost use Rattle.kombilad_c.specs.Fill.{Fills};
ghost use Rattle.kombilad_c.specs.CidRecord.{record_with};
ghost use Rattle.kombilad_c.specs.Block.{ListsLinks};

use crate::cid_record::CidBytes;
use crate::status::{OK, TOO_SHORT, stop_status};
use dag_cbor_blocks::{LinkPosition, ReadOptions, link_positions};
use ipld_tree::Limits;
use std::alloc::Global;

// Returns the bytes of the block at the position, up to the end of the block.
#[inline(always)]
fn bytes_at<'a>(block: &'a [u8], position: &LinkPosition) -> &'a [u8]
    ensures { result.now ≡ cut (position_of position.now) block.now }
{
    let bytes = &block[position.offset.min(block.len())..];
    &bytes[..position.length.min(bytes.len())]
}

// Writes the bytes at the positions to the beginning of the buffer if they fit. Sets `needed` to
// the number of positions in either case.
fn fill_links(
    block: &[u8],
    positions: &[LinkPosition],
    buffer: &mut [CidBytes],
    needed: &mut usize,
) -> u32
    requires { All (λ position. length (cut (position_of position) block.now) ≤ 87) positions.now }
    ensures { Fills (map (λ position. record_with (cut (position_of position) block.now))
        positions.now) result buffer.old buffer.new needed.new }
{
    *needed = positions.len();
    if buffer.len() < positions.len() {
        return TOO_SHORT;
    }
    for (at, position) in positions.iter().enumerate() {
        buffer[at] = CidBytes::with(bytes_at(block, position));
    }
    OK
}

/// Lists the CIDs of the block's links, in the order of its bytes. A CID is listed as often as it
/// appears in the block.
#[unsafe(no_mangle)]
pub extern "C" fn kombilad_links(
    alloc: Global,
    block: &[u8],
    levels: usize,
    values: usize,
    links: &mut [CidBytes],
    needed: &mut usize,
    offset: &mut usize,
) -> u32
    ensures { ListsLinks (record { levels = levels; values = values }) block.now result
        (record { before = links.old; after = links.new })
        (record { before = needed.old; after = needed.new })
        (record { before = offset.old; after = offset.new }) }
{
    let options = ReadOptions {
        limits: Limits { levels, values },
        floats: true,
    };
    match link_positions(alloc, block, &options) {
        Ok(found) => fill_links(block, &found, links, needed),
        Err(error) => stop_status(error, offset),
    }
}
