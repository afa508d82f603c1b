//! DAG-PB as a codec.

ghost use Rattle.std.specs.Prelude.{◌≡◌, ◌⊎◌, None, Some, Err, IfOk, IfErr, IsErrAnd, OnOk, OnErr, IfSome, MatchOption};
ghost use Rattle.ipld_cid.specs.Multihash.{IsBytes};
ghost use Rattle.ipld_codec.specs.Codec.{memory, reading, writing, MemoryOr, Writes, IsReadOut};
ghost use Rattle.ipld_codec.specs.LinkIter.{links_left};
ghost use Rattle.ipld_codec.specs.WriteOut.{WritesPart};
ghost use Rattle.dag_pb.specs.Codec.{pb_found, pb_failure, pb_decoded, pb_written, codec_failure, IsBlockError, IsBlockErrorOf, IsOrderError};
ghost use Rattle.dag_pb.specs.Node.{NodeParts};
ghost use Rattle.dag_pb.specs.NodeReading.{links_found};
ghost use Rattle.dag_pb.specs.Views.{IsOutOfMemory, parts_of_node, parts_of_node_buf};
ghost use Rattle.dag_pb.specs.Writing.{node_bytes};

use crate::codec_error::PbCodecError;
use crate::error::PbError;
use crate::node::{PbNode, links_of_block, read_node};
use crate::owned::PbNodeBuf;
use crate::writer::encode_node;
use ipld_cid::DAG_PB;
use ipld_codec::{Codec, LinkIter, Links, RawCodec, RawError};
use ipld_tree::Ipld;
use std::alloc::Global;
use std::io::{BufRead, Write};

/// DAG-PB as a codec, which writes and reads nodes and finds the links of blocks.
///
/// A block is read with its data before its links or after them, and with the links in any order.
/// It is written in the canonical form, only if its links are sorted by name.
///
/// Its number, 0x70, is that of `dag-pb` in the table of multicodecs.
#[derive(Clone, Copy, Debug, PartialEq, Eq)]
pub struct DagPbCodec;

// Decodes a block as a node.
fn decode_block(alloc: Global, bytes: &[u8]) -> Result<PbNodeBuf, PbCodecError>
    ensures ok { IfOk result (λ node. pb_decoded bytes.now ≡ Some (parts_of_node_buf node)) }
    ensures err { IfErr result (λ error. (error ≡ PbCodecError.Memory)
        ⊎ ((codec_failure error ≡ None) × (pb_decoded bytes.now ≡ None))) }
    ensures errors { IfErr result (λ error. (error ≡ PbCodecError.Memory)
        ⊎ IsBlockError bytes.now error) }
{
    let node = match read_node(alloc, bytes) {
        Ok(node) => node,
        Err(error) => return Err(PbCodecError::from(error)),
    };
    Ok(node.to_owned(alloc)?)
}

// Borrows bytes, so that the proof has the bounds of their type.
#[inline(always)]
fn know_bytes(bytes: &[u8])
    ensures { IsBytes bytes.now }
{
    let _bytes = bytes;
}

// Encodes a node as a block.
fn encode_lent(alloc: Global, node: &PbNode<'_>) -> Result<Vec<u8>, PbCodecError>
    ensures ok { IfOk result (λ block. pb_written (parts_of_node node.now) ≡ Some block.items) }
    ensures exact { IfOk result (λ block. node_bytes (parts_of_node node.now) ≡ block.items) }
    ensures err { IfErr result (λ error. (error ≡ PbCodecError.Memory)
        ⊎ ((codec_failure error ≡ None) × (pb_written (parts_of_node node.now) ≡ None))) }
    ensures errors { IfErr result (λ error. (error ≡ PbCodecError.Memory)
        ⊎ IsOrderError (parts_of_node node.now) error) }
{
    match encode_node(alloc, node) {
        Ok(block) => {
            know_bytes(&block);
            Ok(block)
        }
        Err(error) => Err(PbCodecError::from(error)),
    }
}

// Encodes a node that owns its names and data as a block.
fn encode_block(alloc: Global, value: &PbNodeBuf) -> Result<Vec<u8>, PbCodecError>
    ensures ok { IfOk result (λ block. pb_written (parts_of_node_buf value.now)
        ≡ Some block.items) }
    ensures exact { IfOk result (λ block. node_bytes (parts_of_node_buf value.now)
        ≡ block.items) }
    ensures err { IfErr result (λ error. (error ≡ PbCodecError.Memory)
        ⊎ ((codec_failure error ≡ None) × (pb_written (parts_of_node_buf value.now) ≡ None))) }
    ensures errors { IfErr result (λ error. (error ≡ PbCodecError.Memory)
        ⊎ IsOrderError (parts_of_node_buf value.now) error) }
{
    let node = value.as_node(alloc)?;
    encode_lent(alloc, &node)
}

// Reads the reader to its end.
fn read_block<R: BufRead>(alloc: Global, reader: &mut R) -> Result<Vec<u8>, PbCodecError>
    ensures ok { IfOk result (λ bytes. IfSome (R.remaining reader.old) (λ block.
        block ≡ bytes.items)) }
    ensures read_out { OnOk result (IsReadOut (R.remaining reader.old) (R.remaining reader.new)) }
    ensures err { IfErr result (λ error. (error ≡ PbCodecError.Memory)
        ⊎ (error ≡ PbCodecError.Read)) }
{
    match RawCodec::decode(alloc, reader) {
        Ok(Ipld::Bytes(bytes)) => Ok(bytes),
        Err(RawError::Memory) => Err(PbCodecError::Memory),
        _ => Err(PbCodecError::Read),
    }
}

impl Links for DagPbCodec {
    type LinksError = PbError;

    ghost found = { pb_found };

    ghost links_failure_of = { pb_failure };

    /// Returns the links of a block, in its order: see [`links_of_block`].
    ///
    /// # Errors
    ///
    /// `Memory` if an allocation fails. Otherwise the first error of the block, with its offset.
    fn links(alloc: Global, bytes: &[u8]) -> Result<LinkIter, PbError>
        ensures ok { IfOk result (λ links. pb_found bytes.now ≡ Some (links_left links)) }
        ensures err { IfErr result (λ error. MatchOption (pb_failure error)
            (pb_found bytes.now ≡ None) (λ failure. failure ≡ memory)) }
        ensures exact { IfErr result (λ error. IsOutOfMemory error
            ⊎ (links_found bytes.now ≡ Err error)) }
    {
        match links_of_block(alloc, bytes) {
            Ok(links) => Ok(LinkIter::new(links)),
            Err(error) => Err(error),
        }
    }
}

impl Codec<PbNodeBuf> for DagPbCodec {
    const CODE: u64 = DAG_PB;

    type Error = PbCodecError;

    ghost use Rattle.dag_pb.specs.Codec.{EncodesNode};
    ghost use Rattle.dag_pb.specs.Lemmas.CodecLaws.{pb_encoded_once, pb_decodes_encoded, pb_writes_encoded};

    ghost CODE = { 0x70 };

    ghost Contents = { NodeParts };

    ghost contents = { parts_of_node_buf };

    ghost Encodes = { EncodesNode };

    ghost decoded = { pb_decoded };

    ghost writes = { pb_written };

    ghost failure_of = { codec_failure };

    /// Reads the reader to its end, and decodes its bytes as a block. It holds the block in memory,
    /// and allocates what [`read_node`](crate::read_node) and
    /// [`PbNode::to_owned`](crate::PbNode::to_owned) do.
    ///
    /// # Errors
    ///
    /// - `Read` if the reader fails or does not end.
    /// - `Memory` if an allocation fails.
    /// - Otherwise `Block`, the first error of the block, with its offset.
    ///
    /// `Write` and `LinkOrder` are never returned. After an error, it is unspecified how far the
    /// reader was read.
    fn decode<R: BufRead>(alloc: Global, reader: &mut R) -> Result<PbNodeBuf, PbCodecError>
        ensures ok { IfOk result (λ value. IfSome (R.remaining reader.old) (λ block.
            pb_decoded block ≡ Some (parts_of_node_buf value))) }
        ensures read_out { OnOk result (IsReadOut (R.remaining reader.old)
            (R.remaining reader.new)) }
        ensures err { IfErr result (λ error. MatchOption (codec_failure error)
            (IfSome (R.remaining reader.old) (λ block. pb_decoded block ≡ None))
            (MemoryOr reading)) }
        ensures errors { IfErr result (λ error. (error ≡ PbCodecError.Memory)
            ⊎ ((error ≡ PbCodecError.Read) ⊎ IsBlockErrorOf (R.remaining reader.old) error)) }
    {
        match read_block(alloc, reader) {
            Ok(block) => decode_block(alloc, &block),
            Err(error) => Err(error),
        }
    }

    /// Writes the block of a node, as [`encode_node`](crate::encode_node) does. The block is held in
    /// memory before any of it is written. The vector of the links is allocated once more.
    ///
    /// # Errors
    ///
    /// - If the links are not sorted by name, `LinkOrder`, or `Memory` if an allocation fails. The
    ///   writer is then unchanged.
    /// - For any other node, `Memory` if an allocation fails, also if the writer reports so, or
    ///   `Write` if the writer fails. A beginning of the block may then have been written, but never
    ///   all of it.
    fn encode<W: Write>(
        alloc: Global,
        writer: &mut W,
        value: &PbNodeBuf,
    ) -> Result<(), PbCodecError>
        ensures ok { OnOk result (Writes (pb_written (parts_of_node_buf value.now))
            (W.contents writer.old) (W.contents writer.new)) }
        ensures exact { OnOk result (Writes (Some (node_bytes (parts_of_node_buf value.now)))
            (W.contents writer.old) (W.contents writer.new)) }
        ensures err { IfErr result (λ error. MatchOption (codec_failure error)
            (pb_written (parts_of_node_buf value.now) ≡ None) (MemoryOr writing)) }
        ensures errors { IfErr result (λ error. (error ≡ PbCodecError.Memory)
            ⊎ ((error ≡ PbCodecError.Write) ⊎ IsOrderError (parts_of_node_buf value.now) error)) }
        ensures rejected { pb_written (parts_of_node_buf value.now) ≡ None
            → (writer.new ≡ writer.old) × IsErrAnd result (λ error. (error ≡ PbCodecError.Memory)
            ⊎ IsOrderError (parts_of_node_buf value.now) error) }
        ensures part { OnErr result ((writer.new ≡ writer.old)
            ⊎ WritesPart (W.contents writer.old) (W.contents writer.new)
            (node_bytes (parts_of_node_buf value.now))) }
    {
        let block = match encode_block(alloc, value) {
            Ok(block) => block,
            Err(error) => return Err(error),
        };
        match RawCodec::encode(alloc, writer, &Ipld::Bytes(block)) {
            Ok(()) => Ok(()),
            Err(RawError::Memory) => Err(PbCodecError::Memory),
            Err(_) => Err(PbCodecError::Write),
        }
    }

    /// Decodes a block, which is all of the bytes.
    ///
    /// # Errors
    ///
    /// `Memory` if an allocation fails. Otherwise `Block`, the first error, with its offset.
    fn decode_from_slice(alloc: Global, bytes: &[u8]) -> Result<PbNodeBuf, PbCodecError>
        ensures ok { IfOk result (λ value. pb_decoded bytes.now
            ≡ Some (parts_of_node_buf value)) }
        ensures err { IfErr result (λ error. MatchOption (codec_failure error)
            (pb_decoded bytes.now ≡ None) (MemoryOr reading)) }
        ensures errors { IfErr result (λ error. (error ≡ PbCodecError.Memory)
            ⊎ IsBlockError bytes.now error) }
    {
        decode_block(alloc, bytes)
    }

    /// Returns the block of a node, the same one that [`Codec::encode`] writes.
    ///
    /// # Errors
    ///
    /// `Memory` if an allocation fails. Otherwise `LinkOrder`.
    fn encode_to_vec(alloc: Global, value: &PbNodeBuf) -> Result<Vec<u8>, PbCodecError>
        ensures ok { IfOk result (λ block. pb_written (parts_of_node_buf value.now)
            ≡ Some block.items) }
        ensures exact { IfOk result (λ block. node_bytes (parts_of_node_buf value.now)
            ≡ block.items) }
        ensures err { IfErr result (λ error. MatchOption (codec_failure error)
            (pb_written (parts_of_node_buf value.now) ≡ None) (MemoryOr writing)) }
        ensures errors { IfErr result (λ error. (error ≡ PbCodecError.Memory)
            ⊎ IsOrderError (parts_of_node_buf value.now) error) }
    {
        encode_block(alloc, value)
    }

    ghost encoded_once = { pb_encoded_once };

    ghost decodes_encoded = { pb_decodes_encoded };

    ghost writes_encoded = { pb_writes_encoded };
}
