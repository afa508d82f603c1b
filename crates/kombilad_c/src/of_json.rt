//! Texts in DAG-JSON as blocks.

ghost use Rattle.ipld_tree.specs.Tree.{Tree};
ghost use Rattle.std.specs.Prelude.{◌≡◌, ◌⊎◌, true};
ghost use Rattle.dag_json.specs.Encodes.{EncodesWithinIn};
ghost use Rattle.kombilad_c.specs.OfJson.{ReadsJson, WritesTree};

use crate::fill::fill;
use crate::status::{MEMORY, TOO_LONG, json_status};
use dag_cbor_tape::encode_tape;
use dag_json::{JsonTapeError, tape_from_slice};
use ipld_tree::Limits;
use std::alloc::Global;

/// Writes the canonical block of the value that the text encodes, if that is within the limits.
#[unsafe(no_mangle)]
pub extern "C" fn kombilad_block_of_json(
    alloc: Global,
    text: &[u8],
    levels: usize,
    values: usize,
    buffer: &mut [u8],
    needed: &mut usize,
    offset: &mut usize,
) -> u32
    ensures exact { ReadsJson (record { levels = levels; values = values }) text.now result
        (record { before = buffer.old; after = buffer.new })
        (record { before = needed.old; after = needed.new })
        (record { before = offset.old; after = offset.new }) }
    ensures only { (t : Tree) → EncodesWithinIn true (record { levels = levels; values = values }) t
        text.now → WritesTree t result buffer.old buffer.new needed.new }
{
    match tape_from_slice(alloc, text, &Limits { levels, values }) {
        Ok(tape) => match encode_tape(alloc, &tape.entries, &tape.contents) {
            Ok(block) => fill(&block, buffer, needed),
            // The tape of a text has no invalid entries, so an allocation failed.
            Err(_) => {
                *offset = 0;
                MEMORY
            }
        },
        Err(JsonTapeError::Text(error)) => {
            *offset = error.offset;
            json_status(error.kind)
        }
        Err(JsonTapeError::TooLong) => TOO_LONG,
    }
}
