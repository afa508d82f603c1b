//! Laws of blocks.

ghost use Rattle.std.specs.Prelude.{◌≡◌, ◌↔◌, Some, None, Bool, true, false, List, ℕ, map};
ghost use Rattle.ipld_cid.specs.Cid.{Link};
ghost use Rattle.ipld_tree.specs.Tree.{Tree};
ghost use Rattle.ipld_tree.specs.TreeOf.{tree_of};
ghost use Rattle.ipld_codec.specs.CodecLaws.{EncodedOnce, DecodesEncoded};
ghost use Rattle.ipld_codec.specs.LinkIter.{links_left};
ghost use Rattle.dag_cbor.specs.CodecErrors.{AnswersAlike};
ghost use Rattle.ipld_tokens.specs.Item.{Item, links_in};
ghost use Rattle.ipld_tokens.specs.ItemTree.{tree_of_item};
ghost use Rattle.dag_cbor_format.specs.Encoding.{EncodesItem, EncodesTree};
ghost use Rattle.dag_cbor_format.specs.Block.{tree_of_block};
ghost use Rattle.dag_cbor_format.specs.declared.error.CborError.{CborError};
ghost use Rattle.dag_cbor_format.specs.ErrorKinds.{lies_in_bytes};
ghost use Rattle.dag_cbor_format.specs.FirstError.{first_error};
ghost use Rattle.dag_cbor_format.specs.Found.{links_found};
ghost use Rattle.dag_cbor_format.specs.Canonical.{canonical};
ghost use Rattle.dag_cbor_format.specs.Range.{in_range};
ghost use Rattle.dag_cbor_format.specs.KeysAscend.{is_sorted};
ghost use Rattle.dag_cbor_format.specs.SortedKeys.{HasSortedKeys};
ghost use Rattle.dag_cbor_format.specs.Trace.{Position, cut, error_in, links_read, positions_read};
ghost use Rattle.dag_cbor_format.specs.WithFloats.{EncodesIn, EncodesTreeIn};
ghost use Rattle.dag_cbor_blocks.specs.Counting.{limit_passed};
ghost use Rattle.ipld_tokens.specs.LinkBytes.{read_link};
ghost use Rattle.ipld_tree.specs.Limits.{Within};
ghost use Rattle.ipld_tree.specs.declared.limits.Limits.{Limits};

use crate::codec::DagCborCodec;
use crate::token_codec::TokenCodec;
use dag_cbor_format::CborError;
use ipld_codec::{Codec, LinkIter, Links};
use ipld_tree::Ipld;
use std::alloc::Global;

/// States the laws of DAG-CBOR blocks. A call does nothing.
///
/// - Bytes have an error if and only if they do not encode a tree. The error is one of those that
///   lie in bytes.
/// - No block encodes two trees.
/// - The tree of a block is the one that it encodes. If a block does not encode a tree, it does not
///   have one.
/// - The links of a block are those of the item that it encodes, in the order of the bytes. Bytes
///   that do not encode a tree have no links.
/// - A tree with an integer below -2^64 or above 2^64 - 1 has no block.
/// - The block that is written for a tree encodes it, with the keys of every map in length-first
///   order. No other block does both.
pub fn block_law()
    ensures errors { (block : List ℕ) → (first_error block ≡ None) ↔ ((t : Tree)
        × EncodesTree t block) }
    ensures errors_of_bytes { (block : List ℕ) (error : CborError) → first_error block ≡ Some error
        → lies_in_bytes error ≡ true }
    ensures encoded_once { EncodedOnce EncodesTree }
    ensures decodes_encoded { DecodesEncoded EncodesTree tree_of_block }
    ensures links { (i : Item 64) (t : Tree) (block : List ℕ) → EncodesItem i block
        → tree_of_item i ≡ Some t
        → links_found block ≡ Some (links_in i) }
    ensures links_only { (block : List ℕ) (links : List Link) → links_found block ≡ Some links
        → (i : Item 64) × (t : Tree) × EncodesItem i block × (tree_of_item i ≡ Some t)
        × (links ≡ links_in i) }
    ensures written_sorted { (t : Tree) (block : List ℕ) → canonical t ≡ Some block
        → (i : Item 64) × EncodesItem i block × HasSortedKeys i × (tree_of_item i ≡ Some t) }
    ensures out_of_range { (t : Tree) → in_range t ≡ false → canonical t ≡ None }
    ensures only_sorted { (i : Item 64) (t : Tree) (block : List ℕ) → EncodesItem i block
        → tree_of_item i ≡ Some t → HasSortedKeys i
        → canonical t ≡ Some block }
{}

/// States the laws of blocks with and without floats. A call does nothing.
///
/// A float does not have an item of its own: the item of a block has null instead.
///
/// - Bytes have an error if and only if they do not encode an item with a tree. The error is one of
///   those that lie in bytes.
/// - No block encodes two trees.
/// - The links of a block are those of the item that it encodes, in the order of the bytes. Bytes
///   that do not encode an item have no links.
/// - The bytes at the positions of the links are those of their CIDs, in the same order.
/// - The keys of a block are sorted if and only if those of the item are. They are sorted in every
///   map by length-first order.
/// - A block does not pass a limit if and only if its tree does not.
/// - Without floats, the encoded items, the first error and the links are those of [`block_law`].
pub fn float_law()
    ensures errors { (floats : Bool) (block : List ℕ) → (error_in floats block ≡ None) ↔ ((t : Tree)
        × EncodesTreeIn floats t block) }
    ensures errors_of_bytes { (floats : Bool) (block : List ℕ) (error : CborError)
        → error_in floats block ≡ Some error → lies_in_bytes error ≡ true }
    ensures encoded_once { (floats : Bool) (t u : Tree) (block : List ℕ)
        → EncodesTreeIn floats t block → EncodesTreeIn floats u block → t ≡ u }
    ensures links { (floats : Bool) (i : Item 64) (t : Tree) (block : List ℕ)
        → EncodesIn floats i block → tree_of_item i ≡ Some t
        → links_read floats block ≡ Some (links_in i) }
    ensures links_only { (floats : Bool) (block : List ℕ) (links : List Link)
        → links_read floats block ≡ Some links
        → (i : Item 64) × (t : Tree) × EncodesIn floats i block × (tree_of_item i ≡ Some t)
        × (links ≡ links_in i) }
    ensures positions { (floats : Bool) (block : List ℕ) (links : List Link)
        (positions : List Position) → links_read floats block ≡ Some links
        → positions_read floats block ≡ Some positions
        → map (λ p. read_link 64 (cut p block)) positions ≡ map Some links }
    ensures sorted { (floats : Bool) (i : Item 64) (t : Tree) (block : List ℕ)
        → EncodesIn floats i block → tree_of_item i ≡ Some t
        → (sorted : Bool) → is_sorted floats block ≡ Some sorted
        → (sorted ≡ true) ↔ HasSortedKeys i }
    ensures limits { (floats : Bool) (limits : Limits) (i : Item 64) (t : Tree) (block : List ℕ)
        → EncodesIn floats i block → tree_of_item i ≡ Some t
        → (limit_passed floats limits block ≡ None) ↔ Within limits t }
    ensures without_floats { (i : Item 64) (block : List ℕ)
        → EncodesIn false i block ↔ EncodesItem i block }
    ensures first_error { (block : List ℕ) → first_error block ≡ error_in false block }
    ensures links_found { (block : List ℕ) → links_read false block ≡ links_found block }
{}

/// Decodes a block by both DAG-CBOR codecs, first by [`DagCborCodec`] and then by [`TokenCodec`].
/// It shows that they return the same.
///
/// Both return the same tree or the same error, unless an allocation fails in one of them.
pub fn both_decode(
    alloc: Global,
    block: &[u8],
) -> (Result<Ipld, CborError>, Result<Ipld, CborError>)
    ensures { AnswersAlike tree_of result.0 result.1 }
{
    (
        DagCborCodec::decode_from_slice(alloc, block),
        TokenCodec::decode_from_slice(alloc, block),
    )
}

/// Finds the links of a block by both DAG-CBOR codecs, first by [`DagCborCodec`] and then by
/// [`TokenCodec`]. It shows that they return the same.
///
/// Both return the same links or the same error, unless an allocation fails in one of them.
pub fn both_find_links(
    alloc: Global,
    block: &[u8],
) -> (Result<LinkIter, CborError>, Result<LinkIter, CborError>)
    ensures { AnswersAlike links_left result.0 result.1 }
{
    (
        DagCborCodec::links(alloc, block),
        TokenCodec::links(alloc, block),
    )
}
