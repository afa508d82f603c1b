//! Blocks checked, and their links counted.

ghost use Rattle.std.specs.Prelude.{◌≡◌, ◌⊎◌, true};
ghost use Rattle.ipld_tree.specs.Tree.{Tree};
ghost use Rattle.ipld_tree.specs.Limits.{Within};
ghost use Rattle.dag_cbor_format.specs.WithFloats.{EncodesTreeIn};
ghost use Rattle.kombilad_c.specs.Block.{Checks, ChecksOrder, CountsLinks};

use crate::status::{NOT_CANONICAL, OK, stop_status};
use dag_cbor_blocks::{ReadOptions, check_block, count_links, is_canonical};
use ipld_tree::Limits;
use std::alloc::Global;

/// Checks that the bytes are one block, within the limits.
#[unsafe(no_mangle)]
pub extern "C" fn kombilad_block_check(
    alloc: Global,
    block: &[u8],
    levels: usize,
    values: usize,
    offset: &mut usize,
) -> u32
    ensures exact { Checks (record { levels = levels; values = values }) block.now result offset.old
        offset.new }
    ensures found { result ≡ 0 → (t : Tree) × EncodesTreeIn true t block.now }
    ensures only { (t : Tree) → EncodesTreeIn true t block.now
        → Within (record { levels = levels; values = values }) t → (result ≡ 0) ⊎ (result ≡ 1) }
{
    let options = ReadOptions {
        limits: Limits { levels, values },
        floats: true,
    };
    match check_block(alloc, block, &options) {
        Ok(()) => OK,
        Err(error) => stop_status(error, offset),
    }
}

/// Checks that the bytes are one block in canonical form, within the limits.
#[unsafe(no_mangle)]
pub extern "C" fn kombilad_block_check_canonical(
    alloc: Global,
    block: &[u8],
    levels: usize,
    values: usize,
    offset: &mut usize,
) -> u32
    ensures { ChecksOrder (record { levels = levels; values = values }) block.now result offset.old
        offset.new }
{
    let options = ReadOptions {
        limits: Limits { levels, values },
        floats: true,
    };
    match is_canonical(alloc, block, &options) {
        Ok(true) => OK,
        Ok(false) => NOT_CANONICAL,
        Err(error) => stop_status(error, offset),
    }
}

/// Counts the links of the block, within the limits.
#[unsafe(no_mangle)]
pub extern "C" fn kombilad_links_count(
    alloc: Global,
    block: &[u8],
    levels: usize,
    values: usize,
    count: &mut usize,
    offset: &mut usize,
) -> u32
    ensures { CountsLinks (record { levels = levels; values = values }) block.now result
        (record { before = count.old; after = count.new })
        (record { before = offset.old; after = offset.new }) }
{
    let options = ReadOptions {
        limits: Limits { levels, values },
        floats: true,
    };
    match count_links(alloc, block, &options) {
        Ok(found) => {
            *count = found;
            OK
        }
        Err(error) => stop_status(error, offset),
    }
}
