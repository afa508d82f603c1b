//! The laws of every message.

ghost use Rattle.std.specs.Prelude.{◌≡◌, ◌⊎◌, ◌++◌, ℕ, List, Ok};
ghost use Rattle.dag_pb.specs.Node.{LinkParts};
ghost use Rattle.ipld_cid.specs.Cid.{Link};
ghost use Rattle.ipld_cid.specs.Multihash.{IsBytes};
ghost use Rattle.unixfs.specs.Data.{DataParts, IsData};
ghost use Rattle.unixfs.specs.Files.{Hashing, Collision, Child, Names, NamesAll, Range, everything, Walks, Untaken};
ghost use Rattle.unixfs.specs.Nodes.{IsParsed};
ghost use Rattle.unixfs.specs.Reading.{read_data};

use dag_pb::laws::node_law;

/// States the laws of every message `Data`. A call does nothing.
///
/// - Reading returns a message if and only if the bytes are one.
/// - Bytes are at most one message. A message may have more than one encoding, since its varints
///   may be longer than necessary.
pub fn data_law()
    ensures read_is_encoded { (bytes : List ℕ) (d : DataParts) → IsBytes bytes
        → read_data bytes ≡ Ok d → IsData d bytes }
    ensures encoded_is_read { (bytes : List ℕ) (d : DataParts) → IsData d bytes
        → read_data bytes ≡ Ok d }
    ensures one_message { (bytes : List ℕ) (d other : DataParts) → IsData d bytes
        → IsData other bytes → d ≡ other }
{}

/// States the law of nodes. A call does nothing.
///
/// A block is a node of UnixFS in at most one way.
pub fn parsed_law()
    ensures { (block : List ℕ) (links others : List LinkParts) (message other : DataParts)
        → IsParsed block links message → IsParsed block others other
        → (links ≡ others) × (message ≡ other) }
{
    node_law();
    data_law();
}

/// States the law of walks over whole files. A call does nothing.
///
/// A walk takes the bytes of a file from the front. What it took and what the remaining parts name
/// are together the bytes that the root names, with any hash functions.
pub fn walk_law()
    ensures { (hashing : Hashing) (root : Link) (taken rest : List ℕ) (remain : List Child)
        (left : Range) → Walks hashing root everything taken remain left
        → NamesAll hashing remain rest → Names hashing root (taken ++ rest) }
{}

/// States the law of walks over a range of a file. A call does nothing.
///
/// What a walk took and the range in what the remaining parts name are together the range in the
/// content that the root names, unless two blocks that differ have one digest.
pub fn range_law()
    ensures { (hashing : Hashing) (root : Link) (range : Range) (content taken : List ℕ)
        (remain : List Child) (left : Range) → Names hashing root content
        → Walks hashing root range taken remain left
        → Untaken hashing range content taken remain left ⊎ Collision hashing }
{
    parsed_law();
}

/// States the law of contents. A call does nothing.
///
/// A CID names at most one content, unless two blocks that differ have one digest.
pub fn content_law()
    ensures { (hashing : Hashing) (link : Link) (content other : List ℕ)
        → Names hashing link content → Names hashing link other
        → (content ≡ other) ⊎ Collision hashing }
{
    parsed_law();
}
