//! The laws of every block of DAG-PB.

ghost use Rattle.std.specs.Prelude.{◌≡◌, ℕ, List, Ok};
ghost use Rattle.ipld_cid.specs.Multihash.{IsBytes};
ghost use Rattle.dag_pb.specs.Node.{NodeParts, IsNode};
ghost use Rattle.dag_pb.specs.NodeReading.{read_node};

/// States the laws of every block of DAG-PB. A call does nothing.
///
/// - Reading returns a node if and only if the bytes are one.
/// - Bytes are at most one node. A node may have more than one block: its data may come before its
///   links or after them, and its varints may be longer than necessary.
pub fn node_law()
    ensures read_is_encoded { (bytes : List ℕ) (node : NodeParts) → IsBytes bytes
        → read_node bytes ≡ Ok node → IsNode node bytes }
    ensures encoded_is_read { (bytes : List ℕ) (node : NodeParts) → IsNode node bytes
        → read_node bytes ≡ Ok node }
    ensures one_node { (bytes : List ℕ) (node other : NodeParts) → IsNode node bytes
        → IsNode other bytes → node ≡ other }
{}
