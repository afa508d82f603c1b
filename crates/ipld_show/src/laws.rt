//! The laws of blocks that are printed.

ghost use Rattle.std.specs.Prelude.{◌≡◌, ℕ, true, List, [], Some, None};
ghost use Rattle.ipld_tree.specs.Tree.{Tree};
ghost use Rattle.dag_cbor_format.specs.Trace.{error_in};
ghost use Rattle.dag_cbor_format.specs.WithFloats.{EncodesTreeIn};
ghost use Rattle.ipld_show.specs.DataItem.{DataItem, BeginsWithItem, tree_of};

/// States two laws of blocks of DAG-CBOR. A call does nothing.
///
/// - A valid block, with floats allowed, encodes a data item. The tree of the item is that of the
///   block, with null for every float. So no key of a map occurs twice.
/// - Bytes begin with at most one data item.
pub fn item_law()
    ensures of_block { (block : List ℕ) → error_in true block ≡ None
        → (d : DataItem) × (t : Tree) × BeginsWithItem d block [] × (tree_of d ≡ Some t)
        × EncodesTreeIn true t block }
    ensures once { (d e : DataItem) (bytes rest behind : List ℕ) → BeginsWithItem d bytes rest
        → BeginsWithItem e bytes behind → d ≡ e }
{}
