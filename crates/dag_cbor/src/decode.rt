//! The decoding of blocks to trees.

ghost use Rattle.std.specs.Prelude.{◌≡◌, ◌⊎◌, ◌≤◌, true, false, Some, None, IfOk, IfErr, IsErrAnd, MatchResult, length};
ghost use Rattle.ipld_tree.specs.Limits.{Within};
ghost use Rattle.ipld_tree.specs.Tree.{Tree};
ghost use Rattle.ipld_tree.specs.TreeOf.{tree_of};
ghost use Rattle.dag_cbor_format.specs.Encoding.{EncodesTree};
ghost use Rattle.dag_cbor_format.specs.ErrorKinds.{lies_in_bytes};
ghost use Rattle.dag_cbor_format.specs.FirstError.{first_error};
ghost use Rattle.dag_cbor_blocks.specs.Counting.{excess_of_block};
ghost use Rattle.dag_cbor_blocks.specs.Decoded.{UnlessMemory};
ghost use Rattle.dag_cbor_blocks.specs.Within.{Stops, StopsAt, UnlessOutOfMemory, IsLimit};

use crate::shallow::read_shallow;
use crate::tree::TreeBuilder;
use dag_cbor_blocks::block::{read_events, read_events_within};
use dag_cbor_blocks::shallow::{SHALLOW, Stop};
use dag_cbor_blocks::{BlockError, BlockErrorKind};
use dag_cbor_format::CborError;
use ipld_tree::{Ipld, Limits};
use std::alloc::Global;

// [begin: decode_slice]
/// Returns the tree that a block encodes. The block is all of the bytes. For untrusted input use
/// [`decode_slice_within`], which limits how deep the tree nests and how many values it has.
///
/// # Errors
///
/// `Memory` if an allocation fails. Otherwise the first error from the left. The head of an item
/// comes before its content. In a pair of a map, errors of the key come first, then a duplicate
/// key, then errors of the value. Bytes after the item come last.
pub fn decode_slice(alloc: Global, bytes: &[u8]) -> Result<Ipld, CborError>
    ensures found { IfOk result (λ v. EncodesTree (tree_of v) bytes.now) }
    ensures only { (t : Tree) → EncodesTree t bytes.now → UnlessMemory result (λ v. tree_of v ≡ t) }
    ensures errors { IfErr result (λ error. (error ≡ CborError.Memory)
        ⊎ (lies_in_bytes error ≡ true)) }
    ensures first { IfErr result (λ error. lies_in_bytes error ≡ true
        → first_error bytes.now ≡ Some error) }
{
    match read_shallow(alloc, bytes, SHALLOW) {
        Ok(tree) => Ok(tree),
        Err(Stop::Memory) => Err(CborError::Memory),
        Err(Stop::Unread) => decode_by_loop(alloc, bytes),
    }
}
// [end: decode_slice]

// Decodes as `decode_slice` does, in a loop. The block may nest to any depth or have an error.
fn decode_by_loop(alloc: Global, bytes: &[u8]) -> Result<Ipld, CborError>
    ensures found { IfOk result (λ v. EncodesTree (tree_of v) bytes.now) }
    ensures only { (t : Tree) → EncodesTree t bytes.now → UnlessMemory result (λ v. tree_of v ≡ t) }
    ensures errors { IfErr result (λ error. (error ≡ CborError.Memory)
        ⊎ (lies_in_bytes error ≡ true)) }
    ensures first { IfErr result (λ error. lies_in_bytes error ≡ true
        → first_error bytes.now ≡ Some error) }
{
    let mut builder = TreeBuilder::new(alloc);
    read_events::<false, TreeBuilder>(alloc, bytes, &mut builder)?;
    match builder.finish() {
        Some(tree) => Ok(tree),
        None => unreachable!(),
    }
}

/// Returns the tree that a block encodes, as [`decode_slice`] does, if it is within the limits. For
/// untrusted input.
///
/// The limits apply while the bytes are read. A list or a map that is nested deeper than the limit
/// is not entered, and reading stops with the first value after the last allowed one.
///
/// # Errors
///
/// The error has the byte at which reading stopped. It is the first byte of the part that has the
/// error: an item, a key, the byte string after the tag of a link, or the bytes left over. If a
/// limit is passed, it is the first byte of the item that passes it, or of the byte string of a
/// link. If an allocation fails, it is any offset in the block. The kind of the error is:
///
/// - `TooDeep` if a list or a map is nested deeper than `limits.levels`.
/// - `TooMany` if there are more values than `limits.values`. A value counts once it was read
///   whole, and a list or a map once its head was read. The keys of maps do not count. If a list or
///   a map passes both limits, the kind is `TooDeep`.
/// - Otherwise `Cbor`, with the error of [`decode_slice`].
///
/// If the bytes have an error and pass a limit, the one that comes first in the bytes is returned.
pub fn decode_slice_within(alloc: Global, bytes: &[u8], limits: &Limits) -> Result<Ipld, BlockError>
    ensures found { IfOk result (λ v. EncodesTree (tree_of v) bytes.now) }
    ensures within { IfOk result (λ v. Within limits.now (tree_of v)) }
    ensures only { (t : Tree) → EncodesTree t bytes.now → Within limits.now t
        → UnlessOutOfMemory result (λ v. tree_of v ≡ t) }
    ensures beyond { (t : Tree) → EncodesTree t bytes.now → (Within limits.now t → ⊥)
        → IsErrAnd result (λ error. IsLimit error.kind) }
    ensures exact { MatchResult result
        (λ v. excess_of_block limits.now bytes.now ≡ None)
        (λ error. Stops limits.now bytes.now error.kind) }
    ensures offset { IfErr result (λ error. error.offset ≤ length bytes.now) }
    ensures stopped { IfErr result (λ error. StopsAt false limits.now bytes.now error.kind
        error.offset) }
{
    match read_shallow_within(alloc, bytes, limits) {
        Ok(tree) => Ok(tree),
        Err(Stop::Memory) => Err(BlockError {
            kind: BlockErrorKind::Cbor(CborError::Memory),
            offset: 0,
        }),
        Err(Stop::Unread) => decode_by_loop_within(alloc, bytes, limits),
    }
}

// Decodes a block by recursion, if it has no more bytes than values are allowed. It then cannot
// have too many values.
fn read_shallow_within(alloc: Global, bytes: &[u8], limits: &Limits) -> Result<Ipld, Stop>
    ensures found { IfOk result (λ tree. EncodesTree (tree_of tree) bytes.now) }
    ensures within { IfOk result (λ tree. Within limits.now (tree_of tree)) }
{
    if bytes.len() > limits.values {
        return Err(Stop::Unread);
    }
    read_shallow(alloc, bytes, limits.levels.min(SHALLOW))
}

// Decodes as `decode_slice_within` does, in a loop. The block may nest to any depth, pass a limit
// or have an error.
fn decode_by_loop_within(alloc: Global, bytes: &[u8], limits: &Limits) -> Result<Ipld, BlockError>
    ensures found { IfOk result (λ v. EncodesTree (tree_of v) bytes.now) }
    ensures within { IfOk result (λ v. Within limits.now (tree_of v)) }
    ensures only { (t : Tree) → EncodesTree t bytes.now → Within limits.now t
        → UnlessOutOfMemory result (λ v. tree_of v ≡ t) }
    ensures beyond { (t : Tree) → EncodesTree t bytes.now → (Within limits.now t → ⊥)
        → IsErrAnd result (λ error. IsLimit error.kind) }
    ensures exact { MatchResult result
        (λ v. excess_of_block limits.now bytes.now ≡ None)
        (λ error. Stops limits.now bytes.now error.kind) }
    ensures offset { IfErr result (λ error. error.offset ≤ length bytes.now) }
    ensures stopped { IfErr result (λ error. StopsAt false limits.now bytes.now error.kind
        error.offset) }
{
    let mut builder = TreeBuilder::new(alloc);
    read_events_within::<false, TreeBuilder>(alloc, bytes, *limits, &mut builder)?;
    match builder.finish() {
        Some(tree) => Ok(tree),
        None => unreachable!(),
    }
}
