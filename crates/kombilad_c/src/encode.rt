//! Tapes encoded as blocks.

ghost use Rattle.std.specs.Prelude.{ℕ, List};
ghost use Rattle.ipld_tokens.specs.Item.{Item};
ghost use Rattle.dag_cbor_tape.specs.Describes.{Describes};
ghost use Rattle.kombilad_c.specs.Encode.{WritesTape, WritesItem};

use crate::fill::fill;
use crate::status::encode_status;
use dag_cbor_blocks::tape::TapeEntry;
use dag_cbor_tape::encode_tape;
use std::alloc::Global;

/// Writes the canonical block of the value that the entries describe, over the data that they refer
/// to. The pairs of a map may be in any order.
#[unsafe(no_mangle)]
pub extern "C" fn kombilad_encode(
    alloc: Global,
    entries: &[TapeEntry],
    contents: &[u8],
    buffer: &mut [u8],
    needed: &mut usize,
    at: &mut usize,
) -> u32
    ensures exact { WritesTape contents.now entries.now result
        (record { before = buffer.old; after = buffer.new })
        (record { before = needed.old; after = needed.new })
        (record { before = at.old; after = at.new }) }
    ensures only { (item : Item 64) (written : List ℕ)
        → Describes contents.now item entries.now written
        → WritesItem item written result buffer.old buffer.new needed.new }
{
    match encode_tape(alloc, entries, contents) {
        Ok(block) => fill(&block, buffer, needed),
        Err(error) => {
            *at = error.entry;
            encode_status(error.kind)
        }
    }
}
