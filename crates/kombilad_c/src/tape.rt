//! The values of a block, listed.

ghost use Rattle.std.specs.Prelude.{◌≡◌, ◌⊎◌, true, List};
ghost use Rattle.ipld_tree.specs.Tree.{Tree};
ghost use Rattle.ipld_tree.specs.Limits.{Within};
ghost use Rattle.dag_cbor_format.specs.WithFloats.{EncodesTreeIn};
ghost use Rattle.dag_cbor_blocks.specs.Tape.{IsTapeOf};
ghost use Rattle.kombilad_c.specs.Fill.{Fills};
ghost use Rattle.kombilad_c.specs.Tape.{ListsTape, IsListed};

use crate::status::{OK, TOO_LONG, TOO_SHORT, stop_status};
use dag_cbor_blocks::tape::{TapeEntry, TapeError, read_tape};
use ipld_tree::Limits;
use std::alloc::Global;

// Writes the entries to the beginning of the buffer if they fit. Sets `needed` to their number in
// either case.
pub(crate) fn fill_entries(
    entries: &[TapeEntry],
    buffer: &mut [TapeEntry],
    needed: &mut usize,
) -> u32
    ensures { Fills entries.now result buffer.old buffer.new needed.new }
{
    *needed = entries.len();
    if buffer.len() < entries.len() {
        return TOO_SHORT;
    }
    buffer[..entries.len()].copy_from_slice(entries);
    OK
}

/// Lists the values and keys of the block, in the order of its bytes.
#[unsafe(no_mangle)]
pub extern "C" fn kombilad_tape(
    alloc: Global,
    block: &[u8],
    levels: usize,
    values: usize,
    entries: &mut [TapeEntry],
    needed: &mut usize,
    offset: &mut usize,
) -> u32
    ensures exact { ListsTape (record { levels = levels; values = values }) block.now result
        (record { before = entries.old; after = entries.new })
        (record { before = needed.old; after = needed.new })
        (record { before = offset.old; after = offset.new }) }
    ensures once { (es : List TapeEntry) → IsTapeOf es block.now → IsListed result
        → Fills es result entries.old entries.new needed.new }
    ensures only { (t : Tree) → EncodesTreeIn true t block.now
        → Within (record { levels = levels; values = values }) t → IsListed result
        ⊎ ((result ≡ 1) ⊎ (result ≡ 8)) }
{
    match read_tape(alloc, block, &Limits { levels, values }) {
        Ok(found) => fill_entries(&found, entries, needed),
        Err(TapeError::TooLong) => TOO_LONG,
        Err(TapeError::Block(error)) => stop_status(error, offset),
    }
}
