//! The reading of a block without its tree: whether it is valid and canonical, its links and their
//! positions.

ghost use Rattle.std.specs.Prelude.{◌≡◌, ◌↔◌, true, false, None, Some, length, map, IfOk, MatchResult, option_map};
ghost use Rattle.ipld_cid.specs.LinkOf.{link_of};
ghost use Rattle.ipld_tree.specs.Limits.{Within};
ghost use Rattle.ipld_tree.specs.Tree.{Tree};
ghost use Rattle.ipld_tokens.specs.Item.{Item, links_in};
ghost use Rattle.ipld_tokens.specs.ItemTree.{tree_of_item};
ghost use Rattle.dag_cbor_format.specs.Canonical.{canonical};
ghost use Rattle.dag_cbor_format.specs.KeysAscend.{is_sorted};
ghost use Rattle.dag_cbor_format.specs.Trace.{error_in, links_read, positions_read};
ghost use Rattle.dag_cbor_format.specs.WithFloats.{EncodesIn};
ghost use Rattle.dag_cbor_blocks.specs.Counting.{limit_passed};
ghost use Rattle.dag_cbor_blocks.specs.Decoded.{LinksOf};
ghost use Rattle.dag_cbor_blocks.specs.LinkPositions.{position_of};
ghost use Rattle.dag_cbor_blocks.specs.Within.{StopsAt, ReadsAs, UnlessOutOfMemory};

use crate::block::read_events_as;
use crate::block_error::BlockError;
use crate::canonical::OrderChecker;
use crate::drive::visit_block;
use crate::link_position::{LinkPosition, PositionFinder};
use crate::links::LinkFinder;
use crate::options::ReadOptions;
use ipld_cid::Cid;
use std::alloc::Global;

/// Checks that the bytes are a block, within the limits of the options.
///
/// It does not allocate if the block meets all of these conditions:
///
/// - It nests at most 32 levels deep.
/// - The keys of every map come in length-first order (RFC 8949, section 4.2.3), and no key is
///   empty.
/// - The block has no more bytes than it may have values.
///
/// It reads any other input in a loop, from its start. It then allocates for open lists and maps
/// and for the keys of open maps.
///
/// # Errors
///
/// The error has the byte at which reading stopped, like the error of `decode_slice_within` of
/// `dag_cbor`. Its kind is:
///
/// - `TooDeep` or `TooMany` if the bytes pass a limit.
/// - Otherwise `Cbor`, with `Memory` if an allocation fails, and otherwise with the first error
///   from the left.
///
/// If floats are read, a float of 16 or 32 bits, NaN or an infinity is the error `Float`, and a
/// float of 64 bits that is cut short is `End`. If they are not read, the first float is the error
/// `Float`.
#[inline(always)]
pub fn check_block(alloc: Global, bytes: &[u8], options: &ReadOptions) -> Result<(), BlockError>
    ensures exact { MatchResult result
        (λ _. (error_in options.now.floats bytes.now ≡ None)
        × (limit_passed options.now.floats options.now.limits bytes.now ≡ None))
        (λ error. StopsAt options.now.floats options.now.limits bytes.now error.kind error.offset) }
{
    visit_block(
        alloc,
        bytes,
        options,
        PositionFinder::counter(alloc),
        PositionFinder::counter(alloc),
    )?;
    Ok(())
}

/// Returns the links of a block, in the order of its bytes, with repeats. It does not build a tree.
///
/// It allocates the vector, and otherwise as [`check_block`] does for the same block.
///
/// # Errors
///
/// Those of [`check_block`]: the same error for the same bytes, unless an allocation fails.
#[inline(always)]
pub fn links_of_block(
    alloc: Global,
    bytes: &[u8],
    options: &ReadOptions,
) -> Result<Vec<Cid>, BlockError>
    ensures exact { ReadsAs options.now.floats options.now.limits bytes.now
        (links_read options.now.floats bytes.now) (λ links. map link_of links.items) result }
    ensures found { IfOk result (λ links. LinksOf options.now.floats bytes.now
        (map link_of links.items)) }
    ensures only { (i : Item 64) (t : Tree) → EncodesIn options.now.floats i bytes.now
        → tree_of_item i ≡ Some t → Within options.now.limits t
        → UnlessOutOfMemory result (λ links. map link_of links.items ≡ links_in i) }
{
    let finder = visit_block(
        alloc,
        bytes,
        options,
        LinkFinder::new(alloc),
        LinkFinder::new(alloc),
    )?;
    Ok(finder.links)
}

/// Returns the number of links in a block, including repeats. It does not keep the links, and it
/// allocates as [`check_block`] does.
///
/// # Errors
///
/// Those of [`check_block`]: the same error for the same bytes, unless an allocation fails.
#[inline(always)]
pub fn count_links(alloc: Global, bytes: &[u8], options: &ReadOptions) -> Result<usize, BlockError>
    ensures exact { ReadsAs options.now.floats options.now.limits bytes.now
        (option_map length (links_read options.now.floats bytes.now)) (λ count. count) result }
{
    let counter = visit_block(
        alloc,
        bytes,
        options,
        PositionFinder::counter(alloc),
        PositionFinder::counter(alloc),
    )?;
    Ok(counter.count)
}

/// Returns the positions of the bytes of the links' CIDs in a block, in their order, with repeats.
/// It does not copy anything of the block.
///
/// It allocates the vector, and otherwise as [`check_block`] does for the same block.
///
/// # Errors
///
/// Those of [`check_block`]: the same error for the same bytes, unless an allocation fails.
#[inline(always)]
pub fn link_positions(
    alloc: Global,
    bytes: &[u8],
    options: &ReadOptions,
) -> Result<Vec<LinkPosition>, BlockError>
    ensures exact { ReadsAs options.now.floats options.now.limits bytes.now
        (positions_read options.now.floats bytes.now) (λ positions. map position_of positions.items)
        result }
{
    let finder = visit_block(
        alloc,
        bytes,
        options,
        PositionFinder::new(alloc, bytes.len()),
        PositionFinder::new(alloc, bytes.len()),
    )?;
    Ok(finder.positions)
}

/// Returns whether a block is in canonical form: the keys of every map come in length-first order
/// (RFC 8949, section 4.2.3). Every block meets the other requirements of that form. If floats are
/// not read, a canonical block is the one that `DagCborCodec` of `dag_cbor` writes for its tree.
///
/// It reads the bytes once, in a loop. It allocates for open lists and maps and for the keys of
/// open maps.
///
/// # Errors
///
/// Those of [`check_block`]: the same error for the same bytes, unless an allocation fails.
#[inline(always)]
pub fn is_canonical(alloc: Global, bytes: &[u8], options: &ReadOptions) -> Result<bool, BlockError>
    ensures exact { ReadsAs options.now.floats options.now.limits bytes.now
        (is_sorted options.now.floats bytes.now) (λ sorted. sorted) result }
    ensures canonical { options.now.floats ≡ false
        → IfOk result (λ sorted. (sorted ≡ true) ↔ ((t : Tree) × (canonical t ≡ Some bytes.now))) }
{
    let mut checker = OrderChecker::new(alloc);
    read_events_as(alloc, bytes, options, &mut checker)?;
    Ok(checker.is_sorted)
}
