//! The explanation why a type rejects a block, with the path in its tree.

ghost use Rattle.std.specs.Prelude.{◌≡◌, ◌≢◌, option_map, IsSomeAnd, IfOk, IfErr, IfSome};
ghost use Rattle.dag_cbor_format.specs.Block.{tree_of_block};
ghost use Rattle.ipld_explain.specs.Failures.{failure_of, Explains};
ghost use Rattle.dag_cbor_serde.specs.Read.{BlockWithin};
ghost use Rattle.dag_cbor_serde.specs.Explained.{NotABlock};

use crate::error::DecodeError;
use dag_cbor::decode_slice_within;
use ipld_explain::{Explain, Explanation};
use ipld_tree::Limits;
use std::alloc::{AllocError, Global};

/// Explains why a type rejects the tree of a block, which is all of the bytes and is within the
/// limits. The explanation has the path to the invalid value, the value that was expected there,
/// the kind that was found, and the name that is missing. Its error is the one of
/// [`DecodeError::Value`].
///
/// Returns `None` if and only if the type reads the block.
///
/// Call it for a block that [`from_slice_within`](crate::from_slice_within) has rejected with
/// [`DecodeError::Value`]. It allocates the block's tree once more, the memory for reading it, and
/// the path.
///
/// ```
/// use dag_cbor_serde::{DecodeError, explain_slice, from_slice};
///
/// match from_slice::<Post>(alloc, block) {
///     Err(DecodeError::Value(error)) => match explain_slice::<Post>(alloc, block, &Limits::default())? {
///         Some(explanation) => println!(rt; "{explanation}")?, // posts/3/author: expected a String, found Integer
///         None => println!(rt; "{}", error.sentence())?,
///     },
///     ..
/// }
/// ```
///
/// # Errors
///
/// - `Memory` if an allocation fails.
/// - `Block` if the bytes are not a block or exceed a limit, with the error of
///   [`decode_slice_within`].
///
/// `Read` and `Value` are never returned.
pub fn explain_slice<T: Explain>(
    alloc: Global,
    bytes: &[u8],
    limits: &Limits,
) -> Result<Option<Explanation>, DecodeError>
    ensures ok { IfOk result (λ found. IsSomeAnd (tree_of_block bytes.now) (λ t.
        Explains T.reads T.fails t (option_map failure_of found))) }
    ensures error { IfOk result (λ found. IfSome found (λ explanation.
        IsSomeAnd (tree_of_block bytes.now) (λ t. T.read_error t explanation.error))) }
    ensures within { IfOk result (λ _. BlockWithin limits.now bytes.now) }
    ensures err { IfErr result (λ error. NotABlock limits.now bytes.now error) }
    ensures no_reader { IfErr result (λ error. error ≢ DecodeError.Read) }
{
    let tree = decode_slice_within(alloc, bytes, limits)?;
    match T::explain(alloc, tree) {
        Ok(found) => Ok(found),
        Err(AllocError) => Err(DecodeError::Memory),
    }
}
