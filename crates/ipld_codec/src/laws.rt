//! Laws about every codec.

ghost use Rattle.ipld_codec.specs.CodecLaws.{EncodedOnce, DecodesEncoded, WritesEncoded, RoundTrip};
ghost use Rattle.ipld_codec.specs.TreeCodec.{SameTrees, LinksWhereDecoded, LinksOfTree, TreeRoundTrip};

use crate::traits::Codec;
use crate::tree_codec::TreeCodec;

/// States laws about every codec. A call does nothing.
///
/// - No block encodes two values.
/// - A block decodes to the value that it encodes. A block that doesn't encode a value does not
///   decode.
/// - The block that is written for a value encodes that value, so it decodes to the same value.
pub fn codec_law<T, C: Codec<T>>()
    ensures encoded_once { EncodedOnce C.Encodes }
    ensures decodes_encoded { DecodesEncoded C.Encodes C.decoded }
    ensures writes_encoded { WritesEncoded C.Encodes C.writes }
    ensures round_trip { RoundTrip C.writes C.decoded }
{}

/// States laws about every codec of trees. A call does nothing.
///
/// - Values have the same contents if and only if they are the same tree.
/// - The block that is written for a value decodes to its tree and to no other tree.
/// - A block has links if and only if it decodes. It then has every link as often as the tree does.
pub fn tree_codec_law<C: TreeCodec>()
    ensures same_trees { SameTrees C.contents }
    ensures round_trip { TreeRoundTrip C.contents C.writes C.decoded }
    ensures links_where_decoded { LinksWhereDecoded C.decoded C.found }
    ensures links_of_tree { LinksOfTree C.contents C.decoded C.found }
{}
