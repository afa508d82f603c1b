//! Laws about items, their trees, and the tokens of trees.

ghost use Rattle.std.specs.Prelude.{◌≡◌, List, ◌∷◌, ◌++◌, Some};
ghost use Rattle.ipld_cid.specs.declared.error.CidError.{CidError};
ghost use Rattle.ipld_tree.specs.Tree.{Tree};
ghost use Rattle.ipld_tree.specs.TreeOf.{tree_of};
ghost use Rattle.ipld_tree.specs.Walk.{links_of};
ghost use Rattle.ipld_tree.specs.IsTree.{IsTree};
ghost use Rattle.ipld_tree.specs.IsWhole.{IsWhole};
ghost use Rattle.ipld_tokens.specs.Token.{TokenModel};
ghost use Rattle.ipld_tokens.specs.Item.{Item, tokens_of, links_in};
ghost use Rattle.ipld_tokens.specs.ItemTree.{tree_of_item};
ghost use Rattle.ipld_tokens.specs.ItemOrder.{KeysAscend};
ghost use Rattle.ipld_tokens.specs.TreeTokens.{tokens_of_tree};
ghost use Rattle.ipld_tokens.specs.LinkTimes.{SameLinks};
ghost use Rattle.ipld_tokens.specs.CutTrees.{BeginsTree, EndsWrong, EndsInBadCid, EndsWithRepeatedKey};
ghost use Rattle.ipld_tokens.specs.Outcome.{FindsUnless};

use crate::error::TokenError;
use crate::read::read_ipld;
use crate::tree_tokens::IpldTokens;
use ipld_cid::laws::cid_bytes_law;
use ipld_tree::Ipld;
use ipld_tree::laws::ipld_law;
use std::alloc::{AllocError, Global};

/// States laws about the tokens of items, for any size `S` of a digest. A call does nothing.
///
/// - The tokens of an item are never a proper prefix of the tokens of another item.
/// - So tokens that begin with an item begin with only one item, which ends at one place.
/// - Items with equal tokens have equal links.
pub fn item_tokens_law<const S: usize>()
    ensures no_front { (i j : Item S) (next : TokenModel) (rest : List TokenModel)
        → tokens_of i ≡ tokens_of j ++ next ∷ rest → ⊥ }
    ensures one_end { (i j : Item S) (rest other : List TokenModel)
        → tokens_of i ++ rest ≡ tokens_of j ++ other
        → (tokens_of i ≡ tokens_of j) × (rest ≡ other) }
    ensures same_links { (i j : Item S) → tokens_of i ≡ tokens_of j → links_in i ≡ links_in j }
{
    cid_bytes_law::<S>();
}

/// States laws about the trees of items. A call does nothing.
///
/// - Items with equal tokens read as the same tree, or none of them reads as a tree.
/// - Trees with equal tokens are equal.
pub fn item_tree_law()
    ensures same_tree { (i j : Item 64) → tokens_of i ≡ tokens_of j
        → tree_of_item i ≡ tree_of_item j }
    ensures one_tree { (t u : Tree) → IsTree t → IsWhole t → IsTree u → IsWhole u
        → tokens_of_tree t ≡ tokens_of_tree u → t ≡ u }
{
    cid_bytes_law::<64>();
}

/// States laws about the links of an item that has a tree. A call does nothing.
///
/// - A link appears in the item as often as in its tree.
/// - If the keys of every map ascend in byte order, the links of the item are those of its tree, in
///   the same order.
pub fn item_links_law()
    ensures times { (i : Item 64) (t : Tree) → tree_of_item i ≡ Some t → SameLinks i t }
    ensures order { (i : Item 64) (t : Tree) → tree_of_item i ≡ Some t → KeysAscend i
        → links_in i ≡ links_of t }
{}

/// States a law about the tokens of a tree. A call does nothing.
///
/// - They are one item. The item has this tree, and its links are those of the tree, in the same
///   order.
pub fn tree_tokens_law()
    ensures { (t : Tree) → IsTree t → IsWhole t
        → (i : Item 64) × (tokens_of i ≡ tokens_of_tree t) × (tree_of_item i ≡ Some t)
        × (links_in i ≡ links_of t) }
{
    cid_bytes_law::<64>();
}

/// States laws about tokens that are the beginning of a tree, or a complete tree. A call does
/// nothing.
///
/// They do not end in an error of [`read_ipld`], which means that they do not end with:
///
/// - a token that is not possible at its place
/// - bytes of a link that are not a CID
/// - the value of a key that its map has already
///
/// So a source that yields the beginning of a tree, and no more, is never rejected.
pub fn tree_beginnings_law()
    ensures not_wrong { (taken : List TokenModel) → BeginsTree taken → EndsWrong taken → ⊥ }
    ensures no_bad_cid { (taken : List TokenModel) (cid_error : CidError) → BeginsTree taken
        → EndsInBadCid cid_error taken → ⊥ }
    ensures no_repeated_key { (taken : List TokenModel) → BeginsTree taken
        → EndsWithRepeatedKey taken → ⊥ }
{
    cid_bytes_law::<64>();
}

/// Reads a tree with [`read_ipld`] from the tokens that [`IpldTokens`] yields. For every [`Ipld`],
/// the result is the same tree.
///
/// # Errors
///
/// `Memory` if an allocation fails, or `Source` if [`IpldTokens`] is out of memory while it yields
/// tokens. No other error is possible.
pub fn tokens_round_trip(alloc: Global, tree: &Ipld) -> Result<Ipld, TokenError<AllocError>>
    ensures { FindsUnless result (λ read. tree_of read ≡ tree_of tree.now) }
{
    ipld_law();
    let mut tokens = IpldTokens::new(alloc, tree)?;
    read_ipld(alloc, &mut tokens)
}
