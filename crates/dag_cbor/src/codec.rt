//! DAG-CBOR as a codec.

ghost use Rattle.std.specs.Prelude.{◌≡◌, ◌⊎◌, true, false, None, Some, IfOk, IfErr, IsErrAnd, OnOk, OnErr, IfSome, MatchOption};
ghost use Rattle.ipld_codec.specs.Codec.{memory, reading, writing, MemoryOr, Writes, IsReadOut};
ghost use Rattle.ipld_codec.specs.LinkIter.{links_left};
ghost use Rattle.ipld_codec.specs.WriteOut.{WritesPart};
ghost use Rattle.ipld_tree.specs.Tree.{Tree};
ghost use Rattle.ipld_tree.specs.TreeOf.{tree_of};
ghost use Rattle.dag_cbor_format.specs.Block.{tree_of_block};
ghost use Rattle.dag_cbor_format.specs.Canonical.{canonical};
ghost use Rattle.dag_cbor.specs.Encoded.{IfOutOfRange};
ghost use Rattle.dag_cbor_format.specs.ErrorKinds.{lies_in_bytes};
ghost use Rattle.dag_cbor_format.specs.FirstError.{first_error};
ghost use Rattle.dag_cbor_format.specs.Found.{links_found};
ghost use Rattle.dag_cbor.specs.CodecErrors.{cbor_failure, StopsAtOrFails};
ghost use Rattle.dag_cbor_blocks.specs.Within.{StopsOrFails};
ghost use Rattle.ipld_tree.specs.Limits.{Within};
ghost use Rattle.dag_cbor_format.specs.Range.{in_range};

use crate::decode::{decode_slice, decode_slice_within};
use crate::encode::encode_to;
use dag_cbor_blocks::block::read_events;
use dag_cbor_blocks::links::LinkFinder;
use dag_cbor_blocks::{BlockError, BlockErrorKind};
use dag_cbor_format::CborError;
use ipld_cid::DAG_CBOR;
use ipld_codec::{Codec, LinkIter, Links, RawCodec, RawError, TreeCodec};
use ipld_tree::{Ipld, Limits};
use std::alloc::Global;
use std::io::{BufRead, Write};

/// The DAG-CBOR codec, without floats. It writes and reads trees, and finds the links of blocks.
///
/// A block is one item and nothing after it. Arguments are in their shortest form (preferred
/// serialization, RFC 8949, section 4.1). The keys of a map are strings that differ, read in any
/// order and written in length-first order (section 4.2.3). A link is tag 42 before a byte string
/// of a zero byte and the CID's bytes. Integers are from -2^64 to 2^64 - 1.
///
/// Its number, 0x71, is the number of `dag-cbor` in the table of multicodecs.
#[derive(Clone, Copy, Debug, PartialEq, Eq)]
pub struct DagCborCodec;

impl Links for DagCborCodec {
    type LinksError = CborError;

    ghost found = { links_found };

    ghost links_failure_of = { cbor_failure };

    /// Returns the links of a block, in the order of its bytes. Only bytes that encode a tree have
    /// links. For untrusted input use [`links_of_block`](crate::links_of_block), which has limits.
    ///
    /// # Errors
    ///
    /// `Memory` if an allocation fails. Otherwise the first error of the bytes, the same one that
    /// [`decode_slice`] returns. `Read`, `Write` and `IntegerRange` are never returned.
    fn links(alloc: Global, bytes: &[u8]) -> Result<LinkIter, CborError>
        ensures ok { IfOk result (λ links. links_found bytes.now ≡ Some (links_left links)) }
        ensures err { IfErr result (λ error. MatchOption (cbor_failure error)
            (links_found bytes.now ≡ None) (λ failure. failure ≡ memory)) }
        ensures errors { IfErr result (λ error. (error ≡ CborError.Memory)
            ⊎ (lies_in_bytes error ≡ true)) }
        ensures first { IfErr result (λ error. lies_in_bytes error ≡ true
            → first_error bytes.now ≡ Some error) }
    {
        let mut finder = LinkFinder::new(alloc);
        read_events::<false, LinkFinder>(alloc, bytes, &mut finder)?;
        Ok(LinkIter::new(finder.links))
    }
}

// Reads all bytes that the reader still has.
pub(crate) fn read_block<R: BufRead>(alloc: Global, reader: &mut R) -> Result<Vec<u8>, CborError>
    ensures ok { IfOk result (λ bytes. IfSome (R.remaining reader.old) (λ block.
        block ≡ bytes.items)) }
    ensures read_out { OnOk result (IsReadOut (R.remaining reader.old) (R.remaining reader.new)) }
    ensures err { IfErr result (λ error. (error ≡ CborError.Memory) ⊎ (error ≡ CborError.Read)) }
{
    match RawCodec::decode(alloc, reader) {
        Ok(Ipld::Bytes(bytes)) => Ok(bytes),
        Err(RawError::Memory) => Err(CborError::Memory),
        _ => Err(CborError::Read),
    }
}

// The initial capacity of a block's vector, so that a small block is not moved while it grows.
const RESERVED: usize = 128;

impl DagCborCodec {
    /// Reads the reader to its end, and decodes the block as [`Codec::decode`] does, if its tree is
    /// within the limits. For untrusted input: see [`decode_slice_within`]. The reader's bytes are
    /// held in memory, so limit these too, for example with `take`.
    ///
    /// # Errors
    ///
    /// - `Cbor(Read)` if the reader fails or does not end, and `Cbor(Memory)` if an allocation
    ///   fails. The offset is 0 if no block was read.
    /// - Otherwise the error of [`decode_slice_within`].
    ///
    /// After an error, it is unspecified how far the reader was read.
    pub fn decode_within<R: BufRead>(
        alloc: Global,
        reader: &mut R,
        limits: &Limits,
    ) -> Result<Ipld, BlockError>
        ensures found { IfOk result (λ value. IfSome (R.remaining reader.old) (λ block.
            tree_of_block block ≡ Some (tree_of value))) }
        ensures within { IfOk result (λ value. Within limits.now (tree_of value)) }
        ensures read_out { OnOk result (IsReadOut (R.remaining reader.old)
            (R.remaining reader.new)) }
        ensures errors { IfErr result (λ error. StopsOrFails limits.now
            (R.remaining reader.old) error.kind) }
        ensures stopped { IfErr result (StopsAtOrFails limits.now (R.remaining reader.old)) }
    {
        match read_block(alloc, reader) {
            Ok(block) => decode_slice_within(alloc, &block, limits),
            Err(error) => Err(BlockError {
                kind: BlockErrorKind::Cbor(error),
                offset: 0,
            }),
        }
    }
}

impl Codec<Ipld> for DagCborCodec {
    const CODE: u64 = DAG_CBOR;

    type Error = CborError;

    ghost use Rattle.dag_cbor_format.specs.Encoding.{EncodesTree};
    ghost use Rattle.dag_cbor.specs.Lemmas.BlockLaws.{block_encoded_once, block_decodes_encoded, block_writes_encoded};

    ghost CODE = { 0x71 };

    ghost Contents = { Tree };

    ghost contents = { tree_of };

    ghost Encodes = { EncodesTree };

    ghost decoded = { tree_of_block };

    ghost writes = { canonical };

    ghost failure_of = { cbor_failure };

    /// Reads the reader to its end, and decodes the block. Its keys may be in any order. For
    /// untrusted input use [`DagCborCodec::decode_within`].
    ///
    /// # Errors
    ///
    /// - `Read` if the reader fails or does not end.
    /// - `Memory` if an allocation fails.
    /// - Otherwise the first error of the bytes, the same one that [`decode_slice`] returns.
    ///   `Write` and `IntegerRange` are never returned.
    fn decode<R: BufRead>(alloc: Global, reader: &mut R) -> Result<Ipld, CborError>
        ensures ok { IfOk result (λ value. IfSome (R.remaining reader.old) (λ block.
            tree_of_block block ≡ Some (tree_of value))) }
        ensures read_out { OnOk result (IsReadOut (R.remaining reader.old)
            (R.remaining reader.new)) }
        ensures err { IfErr result (λ error. MatchOption (cbor_failure error)
            (IfSome (R.remaining reader.old) (λ block. tree_of_block block ≡ None))
            (MemoryOr reading)) }
        ensures errors { IfErr result (λ error. (error ≡ CborError.Memory)
            ⊎ ((error ≡ CborError.Read) ⊎ (lies_in_bytes error ≡ true))) }
        ensures first { IfErr result (λ error. lies_in_bytes error ≡ true
            → IfSome (R.remaining reader.old) (λ block. first_error block ≡ Some error)) }
    {
        let block = read_block(alloc, reader)?;
        decode_slice(alloc, &block)
    }

    /// Writes the block of a tree, with the keys of every map in length-first order. The whole
    /// block is held in memory before any of it is written, and it is written at once.
    ///
    /// The block is made in a loop. In addition to the block, the call allocates a slot for every
    /// open list or map. If an open map has a key that is shorter than a key before it in byte
    /// order, the call also allocates a vector of the map's entries.
    ///
    /// # Errors
    ///
    /// - If an integer is below -2^64 or above 2^64 - 1: `IntegerRange`, or `Memory` if an
    ///   allocation fails. The writer is then unchanged.
    /// - For any other tree: `Memory` if an allocation fails or the writer reports that it is out
    ///   of memory, or `Write` if the writer fails. A beginning of the block may then have been
    ///   written, but never all of it.
    #[tactic(auto, using(crate::proofs::EncodedParts::none_of_block, crate::proofs::EncodedParts::part_of_block))]
    fn encode<W: Write>(alloc: Global, writer: &mut W, value: &Ipld) -> Result<(), CborError>
        ensures ok { OnOk result (Writes (canonical (tree_of value.now)) (W.contents writer.old)
            (W.contents writer.new)) }
        ensures err { IfErr result (λ error. MatchOption (cbor_failure error)
            (canonical (tree_of value.now) ≡ None) (MemoryOr writing)) }
        ensures out_of_range { IfOutOfRange result ((writer.new ≡ writer.old)
            × (in_range (tree_of value.now) ≡ false)) }
        ensures rejected { in_range (tree_of value.now) ≡ false → (writer.new ≡ writer.old)
            × IsErrAnd result (λ error. (error ≡ CborError.Memory)
            ⊎ (error ≡ CborError.IntegerRange)) }
        ensures failed { in_range (tree_of value.now) ≡ true
            → IfErr result (λ error. (error ≡ CborError.Memory) ⊎ (error ≡ CborError.Write)) }
        ensures part { OnErr result (IfSome (canonical (tree_of value.now))
            (WritesPart (W.contents writer.old) (W.contents writer.new))) }
    {
        let mut block = Vec::with_capacity(alloc, RESERVED)?;
        encode_to(alloc, &mut block, value)?;
        match RawCodec::encode(alloc, writer, &Ipld::Bytes(block)) {
            Ok(()) => Ok(()),
            Err(RawError::Memory) => Err(CborError::Memory),
            Err(_) => Err(CborError::Write),
        }
    }

    /// Decodes a block from all of the bytes, as [`decode_slice`] does.
    ///
    /// # Errors
    ///
    /// `Memory` if an allocation fails. Otherwise the first error of the bytes. `Read`, `Write` and
    /// `IntegerRange` are never returned.
    fn decode_from_slice(alloc: Global, bytes: &[u8]) -> Result<Ipld, CborError>
        ensures ok { IfOk result (λ value. tree_of_block bytes.now ≡ Some (tree_of value)) }
        ensures err { IfErr result (λ error. MatchOption (cbor_failure error)
            (tree_of_block bytes.now ≡ None) (MemoryOr reading)) }
        ensures errors { IfErr result (λ error. (error ≡ CborError.Memory)
            ⊎ (lies_in_bytes error ≡ true)) }
        ensures first { IfErr result (λ error. lies_in_bytes error ≡ true
            → first_error bytes.now ≡ Some error) }
    {
        decode_slice(alloc, bytes)
    }

    /// Returns the block of a tree, the same one that [`Codec::encode`] writes. It allocates as
    /// that does, and is not recursive.
    ///
    /// # Errors
    ///
    /// `IntegerRange` if an integer is below -2^64 or above 2^64 - 1. `Memory` if an allocation
    /// fails. `Write` is never returned.
    fn encode_to_vec(alloc: Global, value: &Ipld) -> Result<Vec<u8>, CborError>
        ensures ok { IfOk result (λ block. canonical (tree_of value.now) ≡ Some block.items) }
        ensures err { IfErr result (λ error. MatchOption (cbor_failure error)
            (canonical (tree_of value.now) ≡ None) (MemoryOr writing)) }
        ensures errors { IfErr result (λ error. (error ≡ CborError.Memory)
            ⊎ ((error ≡ CborError.IntegerRange) × (in_range (tree_of value.now) ≡ false))) }
    {
        let mut bytes = Vec::with_capacity(alloc, RESERVED)?;
        encode_to(alloc, &mut bytes, value)?;
        Ok(bytes)
    }

    ghost encoded_once = { block_encoded_once };

    ghost decodes_encoded = { block_decodes_encoded };

    ghost writes_encoded = { block_writes_encoded };
}

impl TreeCodec for DagCborCodec {
    ghost use Rattle.dag_cbor.specs.Lemmas.BlockLaws.{block_same_trees, block_links_where_decoded, block_links_of_tree};

    ghost same_trees = { block_same_trees };

    ghost links_where_decoded = { block_links_where_decoded };

    ghost links_of_tree = { block_links_of_tree };
}
