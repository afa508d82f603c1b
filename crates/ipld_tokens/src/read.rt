//! Trees read from tokens.

ghost use Rattle.std.specs.Prelude.{◌≡◌, ◌++◌, [], List, Some, false, IfOk};
ghost use Rattle.ipld_cid.specs.declared.error.CidError.{CidError};
ghost use Rattle.ipld_tree.specs.Tree.{Tree};
ghost use Rattle.ipld_tree.specs.TreeOf.{tree_of};
ghost use Rattle.ipld_tree.specs.IsTree.{IsTree};
ghost use Rattle.ipld_tree.specs.IsWhole.{IsWhole};
ghost use Rattle.ipld_tree.specs.Limits.{Within};
ghost use Rattle.ipld_tokens.specs.Token.{TokenModel};
ghost use Rattle.ipld_tokens.specs.Item.{Item, tokens_of};
ghost use Rattle.ipld_tokens.specs.ItemTree.{tree_of_item};
ghost use Rattle.ipld_tokens.specs.TreeTokens.{tokens_of_tree};
ghost use Rattle.ipld_tokens.specs.Outcome.{IfMemory, IfToken, IfCid, IfEnd, IfSource, IfDuplicateKey, EndsUnless, Leaves, Taken, FindsUnless, TokenUnless, CidUnless, KeyUnless, is_source};
ghost use Rattle.ipld_tokens.specs.CutTrees.{EndsWrong, EndsInBadCid, EndsWithRepeatedKey, IsUnfinished, EndsAllocating};
ghost use Rattle.ipld_tokens.specs.ReadContract.{ReadsItem};
ghost use Rattle.ipld_tokens.specs.Excess as limit;
ghost use Rattle.ipld_tokens.specs.Excess.{too_deep, too_many};
ghost use Rattle.ipld_tokens.specs.LimitOutcome.{KeepsWithin, EndsBeyond, IfTooDeep, IfTooMany, UnlessBeyond, IsWithinAnd, BeyondUnless, ExceedsUnless, is_source_error};
ghost use Rattle.ipld_tokens.specs.LimitContract.{flatten};

use crate::consumer::consume;
use crate::error::{ReadError, TokenError};
use crate::limited_reader::{Excess, LimitedReader};
use crate::source::TokenSource;
use crate::tree_reader::TreeReader;
use ipld_cid::laws::cid_bytes_law;
use ipld_tree::{Ipld, Limits};
use std::alloc::Global;

/// Reads a tree from the first tokens of the source. These have to be an item. The item is taken,
/// and no token after it.
///
/// - `None`, `Unit` and `UnitStruct` are [`Ipld::Null`]. A `Char` is a string of one character. A
///   `U128` is an integer if it is at most [`i128::MAX`]. A scalar of any other kind is its own
///   value, except that `UnitVariant` is rejected, like `Variant`.
/// - `Some` is the value that follows it.
/// - Lists, maps and links are lists, maps and links of the tree. The keys of a map are `Str` or
///   `Char`, and no two of them have the same string.
///
/// The source must not have failed before.
///
/// It allocates the tree, and a slot for each list and map that is open within another. At the
/// beginning of a list it reserves the capacity that [`list_capacity`](ipld_tree::list_capacity)
/// returns for the length hint. This is at most 4,096 values for a list, and at most 8,192 for all
/// open lists together. At the end of a list that uses less than half (rounded down) of its
/// reserved capacity, the rest is released. A wrong hint does not change any result except
/// `Memory`.
///
/// Deeply nested tokens are read by a loop. If an error is returned, the partial tree is dropped by
/// a loop. A returned tree may nest so deep that its ordinary drop, which is recursive, overflows
/// the call stack. [`Ipld::discard`] drops it by a loop.
///
/// # Errors
///
/// - [`TokenError::Token`] if the token is not possible at its place. If a value has to come, no
///   tree begins with the token. After a link mark, the token is not bytes. If a key has to come,
///   the token is neither a string nor a character nor the end of the map. It was taken, and no
///   token after it.
/// - [`TokenError::Cid`] if the bytes after a link mark are not a CID with a digest of at most 64
///   bytes. They were taken, and no token after them.
/// - [`TokenError::DuplicateKey`] if a map has the key already. The second value was taken, and no
///   token after it.
/// - [`TokenError::End`] if no token remains, and no tree is complete.
/// - [`TokenError::Source`] if the source failed in this call.
/// - [`TokenError::Memory`] if an allocation fails. It allocates for a string, a character, bytes
///   and a key, and at the beginning of a list or a map. It also allocates to add a value to a
///   list, or to a map that lacks its key. It does not allocate otherwise.
///
/// After `Source`, the tokens that were taken are the beginning of a tree. After `Memory`, they end
/// with the token that needed memory.
pub fn read_ipld<'a, T: TokenSource<'a>>(
    alloc: Global,
    source: &mut T,
) -> Result<Ipld, TokenError<T::Fault>>
    requires { T.failed source.old ≡ false }
    ensures found { IfOk result (λ v. ReadsItem (T.remaining source.old) (T.remaining source.new)
        (tree_of v)) }
    ensures only { (i : Item 64) (t : Tree) (rest : List TokenModel)
        → T.remaining source.old ≡ tokens_of i ++ rest → tree_of_item i ≡ Some t
        → FindsUnless result (λ v. (tree_of v ≡ t) × (T.remaining source.new ≡ rest)) }
    ensures tree { (t : Tree) (rest : List TokenModel) → IsTree t → IsWhole t
        → T.remaining source.old ≡ tokens_of_tree t ++ rest
        → FindsUnless result (λ v. (tree_of v ≡ t) × (T.remaining source.new ≡ rest)) }
    ensures token { IfToken result (Taken EndsWrong (T.remaining source.old)
        (T.remaining source.new)) }
    ensures cid { IfCid result (λ cid_error. Taken (EndsInBadCid cid_error) (T.remaining source.old)
        (T.remaining source.new)) }
    ensures duplicate_key { IfDuplicateKey result (Taken EndsWithRepeatedKey
        (T.remaining source.old) (T.remaining source.new)) }
    ensures end { IfEnd result (IsUnfinished (T.remaining source.old)
        × (T.remaining source.new ≡ [])) }
    ensures wrong { (taken rest : List TokenModel) → EndsWrong taken
        → T.remaining source.old ≡ taken ++ rest
        → TokenUnless result (T.remaining source.new ≡ rest) }
    ensures bad_cid { (cid_error : CidError) (taken rest : List TokenModel)
        → EndsInBadCid cid_error taken → T.remaining source.old ≡ taken ++ rest
        → CidUnless cid_error result (T.remaining source.new ≡ rest) }
    ensures repeated_key { (taken rest : List TokenModel) → EndsWithRepeatedKey taken
        → T.remaining source.old ≡ taken ++ rest
        → KeyUnless result (T.remaining source.new ≡ rest) }
    ensures unfinished { IsUnfinished (T.remaining source.old) → EndsUnless result }
    ensures memory { IfMemory result (Taken EndsAllocating (T.remaining source.old)
        (T.remaining source.new)) }
    ensures source { IfSource result (λ fault. Taken IsUnfinished (T.remaining source.old)
        (T.remaining source.new)) }
    ensures left { Leaves (T.remaining source.old) (T.remaining source.new) }
    ensures failed { T.failed source.new ≡ is_source result }
    ensures origin { T.origin source.new ≡ T.origin source.old }
    ensures allowed { IfSource result (T.allows_fault (T.origin source.old)) }
    ensures ended { IfEnd result (T.allows_end (T.origin source.old)) }
{
    // A law, a no-op at run time: bytes are read as a CID if and only if they encode one.
    cid_bytes_law::<64>();
    consume(source, TreeReader::new(alloc))
}

/// Reads a tree within limits, as [`read_ipld`] does. It stops at the first token that opens a list
/// or a map deeper than [`Limits::levels`], or that begins one value more than [`Limits::values`].
///
/// A value begins with its token: a scalar, bytes, a link mark, `Seq` or `Map`. `Some` does not
/// begin a value, and a key is not a value. So the tokens of a tree stay within the limits if and
/// only if the tree does.
///
/// The limits are checked before the token is read. If a token exceeds a limit, the error is
/// `TooDeep` or `TooMany`, even if the token is not possible at its place or an allocation for it
/// fails. If it exceeds both, the error is `TooDeep`.
///
/// The source must not have failed before. It allocates as [`read_ipld`] does: the tree, and a slot
/// for each list and map that is open within another, so at most `levels` slots. It reads and drops
/// by loops, whatever the limits are.
///
/// # Errors
///
/// - [`ReadError::TooDeep`] if a token opens a list or a map when `levels` are open. It was taken,
///   and no token after it.
/// - [`ReadError::TooMany`] if a token begins a value when `values` have begun. It was taken, and
///   no token after it.
/// - [`ReadError::Token`] with an error of [`read_ipld`], if no token that was taken exceeds a
///   limit.
pub fn read_ipld_within<'a, T: TokenSource<'a>>(
    alloc: Global,
    source: &mut T,
    limits: &Limits,
) -> Result<Ipld, ReadError<T::Fault>>
    requires { T.failed source.old ≡ false }
    ensures found { IfOk result (λ v. ReadsItem (T.remaining source.old) (T.remaining source.new)
        (tree_of v) × Within limits.now (tree_of v)) }
    ensures only { (i : Item 64) (t : Tree) (rest : List TokenModel)
        → T.remaining source.old ≡ tokens_of i ++ rest → tree_of_item i ≡ Some t
        → Within limits.now t
        → IsWithinAnd result (λ r. FindsUnless r (λ v. (tree_of v ≡ t)
        × (T.remaining source.new ≡ rest))) }
    ensures tree { (t : Tree) (rest : List TokenModel) → IsTree t → IsWhole t
        → T.remaining source.old ≡ tokens_of_tree t ++ rest → Within limits.now t
        → IsWithinAnd result (λ r. FindsUnless r (λ v. (tree_of v ≡ t)
        × (T.remaining source.new ≡ rest))) }
    ensures larger { (i : Item 64) (t : Tree) (rest : List TokenModel)
        → T.remaining source.old ≡ tokens_of i ++ rest → tree_of_item i ≡ Some t
        → (Within limits.now t → ⊥)
        → ExceedsUnless result }
    ensures too_deep { IfTooDeep result (Taken (EndsBeyond limits.now too_deep)
        (T.remaining source.old) (T.remaining source.new)) }
    ensures too_many { IfTooMany result (Taken (EndsBeyond limits.now too_many)
        (T.remaining source.old) (T.remaining source.new)) }
    ensures beyond { (excess : limit.Excess) (taken rest : List TokenModel)
        → EndsBeyond limits.now excess taken → T.remaining source.old ≡ taken ++ rest
        → BeyondUnless excess result (T.remaining source.new ≡ rest) }
    ensures kept { UnlessBeyond result (λ _. Taken (KeepsWithin limits.now) (T.remaining source.old)
        (T.remaining source.new)) }
    ensures token { UnlessBeyond result (λ r. IfToken r (Taken EndsWrong (T.remaining source.old)
        (T.remaining source.new))) }
    ensures cid { UnlessBeyond result (λ r. IfCid r (λ cid_error. Taken (EndsInBadCid cid_error)
        (T.remaining source.old) (T.remaining source.new))) }
    ensures duplicate_key { UnlessBeyond result (λ r. IfDuplicateKey r (Taken EndsWithRepeatedKey
        (T.remaining source.old) (T.remaining source.new))) }
    ensures end { UnlessBeyond result (λ r. IfEnd r (IsUnfinished (T.remaining source.old)
        × (T.remaining source.new ≡ []))) }
    ensures wrong { (taken rest : List TokenModel) → EndsWrong taken → KeepsWithin limits.now taken
        → T.remaining source.old ≡ taken ++ rest
        → IsWithinAnd result (λ r. TokenUnless r (T.remaining source.new ≡ rest)) }
    ensures bad_cid { (cid_error : CidError) (taken rest : List TokenModel)
        → EndsInBadCid cid_error taken → KeepsWithin limits.now taken
        → T.remaining source.old ≡ taken ++ rest
        → IsWithinAnd result (λ r. CidUnless cid_error r (T.remaining source.new ≡ rest)) }
    ensures repeated_key { (taken rest : List TokenModel) → EndsWithRepeatedKey taken
        → KeepsWithin limits.now taken → T.remaining source.old ≡ taken ++ rest
        → IsWithinAnd result (λ r. KeyUnless r (T.remaining source.new ≡ rest)) }
    ensures unfinished { IsUnfinished (T.remaining source.old)
        → KeepsWithin limits.now (T.remaining source.old) → IsWithinAnd result (λ r. EndsUnless r) }
    ensures memory { UnlessBeyond result (λ r.
        IfMemory r (Taken EndsAllocating (T.remaining source.old) (T.remaining source.new))) }
    ensures source { UnlessBeyond result (λ r. IfSource r (λ fault. Taken IsUnfinished
        (T.remaining source.old) (T.remaining source.new))) }
    ensures left { Leaves (T.remaining source.old) (T.remaining source.new) }
    ensures failed { T.failed source.new ≡ is_source_error result }
    ensures origin { T.origin source.new ≡ T.origin source.old }
    ensures allowed { UnlessBeyond result (λ r. IfSource r (T.allows_fault (T.origin source.old))) }
    ensures ended { UnlessBeyond result (λ r. IfEnd r (T.allows_end (T.origin source.old))) }
{
    // A law, a no-op at run time: bytes are read as a CID if and only if they encode one.
    cid_bytes_law::<64>();
    read_error_of(consume(source, LimitedReader::new(alloc, *limits)))
}

// Returns the errors of both kinds as one.
fn read_error_of<F>(read: Result<Result<Ipld, Excess>, TokenError<F>>) -> Result<Ipld, ReadError<F>>
    ensures { result ≡ flatten read }
{
    match read {
        Ok(Ok(tree)) => Ok(tree),
        Ok(Err(Excess::TooDeep)) => Err(ReadError::TooDeep),
        Ok(Err(Excess::TooMany)) => Err(ReadError::TooMany),
        Err(token_error) => Err(ReadError::Token(token_error)),
    }
}
