//! The encoding of values as blocks.

ghost use Rattle.std.specs.Prelude.{◌≡◌, ◌≢◌, ◌⊎◌, Some, None, false, OnOk, OnErr, IfOk, IfErr, IfSome};
ghost use Rattle.ipld_codec.specs.Codec.{Writes};
ghost use Rattle.ipld_codec.specs.WriteOut.{WritesPart};
ghost use Rattle.ipld_tree.specs.Tree.{Tree};
ghost use Rattle.ipld_tree.specs.TreeOf.{tree_of};
ghost use Rattle.dag_cbor_format.specs.Range.{in_range};
ghost use Rattle.dag_cbor_serde.specs.Errors.{error_of_write};
ghost use Rattle.dag_cbor_serde.specs.Written.{block_of_image, NotWritten};

use crate::block_writer::BlockWriter;
use crate::error::EncodeError;
use dag_cbor::{CborError, DagCborCodec};
use ipld_codec::{Codec, RawCodec, RawError};
use ipld_ser::{Serialize, Unwritten, to_ipld};
use ipld_tree::Ipld;
use std::alloc::Global;
use std::io::Write;

/// Encodes a value as the canonical encoding of its image, with the keys of every map in
/// length-first order (RFC 8949, section 4.2.3).
///
/// It allocates the block and the memory that [`Serialize::write_image`] of the type allocates. If
/// a part of the value is not written, it also makes the image, to find the error.
///
/// # Errors
///
/// - `Memory` if an allocation fails.
/// - `Value` if the value has no image, with its error.
/// - `IntegerRange` if an integer in the image is below -2^64 or above 2^64 - 1.
///
/// `Write` is never returned.
pub fn to_vec<T: Serialize>(alloc: Global, value: &T) -> Result<Vec<u8>, EncodeError>
    ensures ok { IfOk result (λ block. block_of_image (T.image value.now) ≡ Some block.items) }
    ensures err { IfErr result (λ error. NotWritten (T.image value.now)
        (T.write_error value.now) error) }
    ensures no_writer { IfErr result (λ error. error ≢ EncodeError.Write) }
{
    match written_block(alloc, value) {
        Ok(block) => return Ok(block),
        Err(Unwritten::Memory) => return Err(EncodeError::Memory),
        Err(Unwritten::Rejected) => {}
    }
    let tree = to_ipld(alloc, value)?;
    let block = DagCborCodec::encode_to_vec(alloc, &tree);
    tree.discard();
    match block {
        Ok(block) => Ok(block),
        Err(error) => Err(encode_error(error)),
    }
}

// Encodes a value part by part.
fn written_block<T: Serialize>(alloc: Global, value: &T) -> Result<Vec<u8>, Unwritten>
    ensures { IfOk result (λ block. block_of_image (T.image value.now) ≡ Some block.items) }
{
    let block = Vec::with_capacity(alloc, RESERVED)?;
    let mut writer = BlockWriter { block };
    value.write_image(alloc, &mut writer)?;
    let BlockWriter { block } = writer;
    Ok(block)
}

// The initial capacity of a block's vector, in bytes, so that a small block isn't moved while it
// grows.
const RESERVED: usize = 128;

/// Writes the block of a value, the one that [`to_vec`] returns, and nothing more. The block is
/// held in memory before any of it is written, and it is written at once. The writer isn't flushed.
///
/// # Errors
///
/// - `Value` if the value has no image, with its error, and `IntegerRange` if an integer in the
///   image is below -2^64 or above 2^64 - 1. The writer is then unchanged.
/// - `Memory` if an allocation fails, also if the writer reports so, and `Write` if the writer
///   fails. Some bytes from the front of the block may then have been written, but never all.
pub fn to_writer<T: Serialize, W: Write>(
    alloc: Global,
    writer: &mut W,
    value: &T,
) -> Result<(), EncodeError>
    ensures ok { OnOk result (Writes (block_of_image (T.image value.now)) (W.contents writer.old)
        (W.contents writer.new)) }
    ensures err { IfErr result (λ error. NotWritten (T.image value.now)
        (T.write_error value.now) error) }
    ensures no_image { T.image value.now ≡ None → writer.new ≡ writer.old }
    ensures out_of_range { (t : Tree) → T.image value.now ≡ Some t → in_range t ≡ false
        → writer.new ≡ writer.old }
    ensures part { OnErr result (IfSome (block_of_image (T.image value.now))
        (WritesPart (W.contents writer.old) (W.contents writer.new))) }
{
    let block = to_vec(alloc, value)?;
    write_block(alloc, writer, block)?;
    Ok(())
}

// Writes a block.
fn write_block<W: Write>(alloc: Global, writer: &mut W, block: Vec<u8>) -> Result<(), EncodeError>
    ensures ok { OnOk result (Writes (Some block.items) (W.contents writer.old)
        (W.contents writer.new)) }
    ensures err { IfErr result (λ error. (error ≡ EncodeError.Memory)
        ⊎ (error ≡ EncodeError.Write)) }
    ensures part { OnErr result (WritesPart (W.contents writer.old)
        (W.contents writer.new) block.items) }
{
    match RawCodec::encode(alloc, writer, &Ipld::Bytes(block)) {
        Ok(()) => Ok(()),
        Err(RawError::Memory) => Err(EncodeError::Memory),
        Err(_) => Err(EncodeError::Write),
    }
}

// Converts the error of writing a tree as a block, which is one of three.
fn encode_error(error: CborError) -> EncodeError
    ensures { result ≡ error_of_write error }
{
    match error {
        CborError::Memory => EncodeError::Memory,
        CborError::Write => EncodeError::Write,
        _ => EncodeError::IntegerRange,
    }
}
