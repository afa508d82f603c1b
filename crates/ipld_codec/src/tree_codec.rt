//! The trait that relates a codec of trees to the trees.

ghost use Rattle.ipld_codec.specs.TreeCodec.{SameTrees, LinksWhereDecoded, LinksOfTree};

use crate::traits::Codec;
use ipld_tree::Ipld;

/// A codec of trees, whose promises are about the trees themselves.
///
/// [`Codec`] only promises something about a value's contents, which a codec chooses.
/// [`Links`](crate::Links) promises nothing about values. A codec does not have the following laws
/// if its contents leave out a part of the tree, or if its links differ from the tree's:
///
/// - Values have the same contents if and only if they are the same tree.
/// - A block has links if and only if it decodes. It then has every link as often as the tree does.
///
/// The trait does not have functions to implement.
pub trait TreeCodec: Codec<Ipld> {
    // the law that the contents of a value are its tree
    ghost same_trees: { SameTrees Self.contents };

    // the law that a block has links if and only if it decodes
    ghost links_where_decoded: { LinksWhereDecoded Self.decoded Self.found };

    // the law that the links of a block are those of its tree
    ghost links_of_tree: { LinksOfTree Self.contents Self.decoded Self.found };
}
