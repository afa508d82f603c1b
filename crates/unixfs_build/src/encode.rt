//! Encoding of messages and nodes.

ghost use Rattle.std.specs.Prelude.{◌≡◌, None, IfOk, IfErr};
ghost use Rattle.dag_pb.specs.Node.{IsNode};
ghost use Rattle.dag_pb.specs.Views.{parts_of_node};
ghost use Rattle.dag_pb.specs.Writing.{node_bytes, misplaced_link};
ghost use Rattle.unixfs.specs.Data.{IsData};
ghost use Rattle.unixfs.specs.Views.{parts_of};
ghost use Rattle.unixfs.specs.Writing.{data_bytes};
ghost use Rattle.unixfs_build.specs.Faults.{IsEncodeFault};
ghost use Rattle.unixfs_build.specs.declared.layout.Attributes.{Attributes};

use crate::error::BuildError;
use dag_pb::{PbEncodeError, PbNode, encode_node};
use std::alloc::Global;
use unixfs::{Data, UnixFsEncodeError, encode_data};

// Encodes the message of a node.
pub(crate) fn encode_message(alloc: Global, message: &Data<'_>) -> Result<Vec<u8>, BuildError>
    ensures exact { IfOk result (λ bytes. bytes.items ≡ data_bytes (parts_of message.now)) }
    ensures encoded { IfOk result (λ bytes. IsData (parts_of message.now) bytes.items) }
    ensures fault { (attributes : Attributes) → attributes.mtime ≡ message.now.mtime
        → IfErr result (IsEncodeFault attributes) }
{
    match encode_data(alloc, message) {
        Ok(bytes) => Ok(bytes),
        Err(UnixFsEncodeError::Memory) => Err(BuildError::Memory),
        Err(UnixFsEncodeError::Nanoseconds(count)) => Err(BuildError::Nanoseconds(count)),
    }
}

// Encodes a node whose links are in order.
pub(crate) fn encode_block(alloc: Global, node: &PbNode<'_>) -> Result<Vec<u8>, BuildError>
    requires { misplaced_link (parts_of_node node.now).links ≡ None }
    ensures exact { IfOk result (λ block. block.items ≡ node_bytes (parts_of_node node.now)) }
    ensures encoded { IfOk result (λ block. IsNode (parts_of_node node.now) block.items) }
    ensures fault { IfErr result (λ error. error ≡ BuildError.Memory) }
{
    match encode_node(alloc, node) {
        Ok(block) => Ok(block),
        Err(PbEncodeError::Memory) => Err(BuildError::Memory),
        Err(PbEncodeError::LinkOrder(_)) => unreachable!(),
    }
}
