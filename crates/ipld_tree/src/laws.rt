//! A law of every value of the data model.

ghost use Rattle.ipld_tree.specs.IsTree.{IsTree};
ghost use Rattle.ipld_tree.specs.TreeOf.{tree_of};

use crate::ipld::Ipld;

/// States a law of every [`Ipld`], however it was made. A call does nothing.
///
/// - Every string in it is UTF-8, including keys of maps, and every link is a valid CID.
pub fn ipld_law()
    ensures { (value : Ipld) → IsTree (tree_of value) }
{}
