//! DAG-JSON as a codec.

ghost use Rattle.std.specs.Prelude.{◌≡◌, ◌⊎◌, None, Some, IfOk, IfErr, IsErrAnd, OnOk, IfSome, MatchOption};
ghost use Rattle.ipld_codec.specs.Codec.{memory, reading, writing, MemoryOr, Writes, IsReadOut};
ghost use Rattle.ipld_codec.specs.LinkIter.{links_left};
ghost use Rattle.ipld_tree.specs.Tree.{Tree};
ghost use Rattle.ipld_tree.specs.TreeOf.{tree_of};
ghost use Rattle.dag_json.specs.Codec.{decoded, links_found, codec_text, codec_failure, IsTextError, IsTextErrorOf};
ghost use Rattle.dag_json.specs.Written.{IsReserved};

use crate::block::{decode_block, find_links};
use crate::{DagJsonError, to_vec};
use ipld_codec::{Codec, LinkIter, Links, RawCodec, RawError, TreeCodec};
use ipld_tree::Ipld;
use std::alloc::Global;
use std::io::{BufRead, ErrorKind, Write};

/// DAG-JSON as a codec, which writes and reads trees and finds the links of blocks.
///
/// A block is read with blanks, escapes and the keys of an object in any order. It is written in
/// the one form that a tree has. Both are as in the calls of `dag_json`. Reading has no limits. For
/// untrusted input, use `from_slice` of `dag_json`, which has limits.
///
/// Its number, 0x0129, is that of `dag-json` in the table of multicodecs.
#[derive(Clone, Copy, Debug, PartialEq, Eq)]
pub struct DagJsonCodec;

// Decodes a block as a tree.
fn decode_tree(alloc: Global, bytes: &[u8]) -> Result<Ipld, DagJsonError>
    ensures ok { IfOk result (λ tree. decoded bytes.now ≡ Some (tree_of tree)) }
    ensures err { IfErr result (λ error. (error ≡ DagJsonError.Memory)
        ⊎ ((codec_failure error ≡ None) × (decoded bytes.now ≡ None))) }
    ensures errors { IfErr result (λ error. (error ≡ DagJsonError.Memory)
        ⊎ IsTextError bytes.now error) }
{
    Ok(decode_block(alloc, bytes, false)?)
}

// Encodes a tree as a block.
fn encode_block(alloc: Global, value: &Ipld) -> Result<Vec<u8>, DagJsonError>
    ensures ok { IfOk result (λ text. codec_text (tree_of value.now) ≡ Some text.items) }
    ensures err { IfErr result (λ error. (error ≡ DagJsonError.Memory)
        ⊎ ((codec_failure error ≡ None) × (codec_text (tree_of value.now) ≡ None))) }
    ensures errors { IfErr result (λ error. (error ≡ DagJsonError.Memory)
        ⊎ IsReserved (tree_of value.now) error) }
{
    // Only for the proof: the keys of every map ascend.
    value.try_nesting(alloc)?;
    to_vec(alloc, value)
}

// Reads the reader to its end.
fn read_block<R: BufRead>(alloc: Global, reader: &mut R) -> Result<Vec<u8>, DagJsonError>
    ensures ok { IfOk result (λ bytes. IfSome (R.remaining reader.old) (λ block.
        block ≡ bytes.items)) }
    ensures read_out { OnOk result (IsReadOut (R.remaining reader.old) (R.remaining reader.new)) }
    ensures err { IfErr result (λ error. (error ≡ DagJsonError.Memory)
        ⊎ (error ≡ DagJsonError.Read)) }
{
    match RawCodec::decode(alloc, reader) {
        Ok(Ipld::Bytes(bytes)) => Ok(bytes),
        Err(RawError::Memory) => Err(DagJsonError::Memory),
        _ => Err(DagJsonError::Read),
    }
}

impl Links for DagJsonCodec {
    type LinksError = DagJsonError;

    ghost found = { links_found };

    ghost links_failure_of = { codec_failure };

    /// Returns the links of a block, in the order of a walk of its tree. It decodes the tree to
    /// find them.
    ///
    /// # Errors
    ///
    /// `Memory` if an allocation fails. Otherwise `Text`, the same error as in
    /// [`Codec::decode_from_slice`].
    fn links(alloc: Global, bytes: &[u8]) -> Result<LinkIter, DagJsonError>
        ensures ok { IfOk result (λ links. links_found bytes.now ≡ Some (links_left links)) }
        ensures err { IfErr result (λ error. MatchOption (codec_failure error)
            (links_found bytes.now ≡ None) (λ failure. failure ≡ memory)) }
        ensures errors { IfErr result (λ error. (error ≡ DagJsonError.Memory)
            ⊎ IsTextError bytes.now error) }
    {
        let cids = find_links(alloc, bytes, false)?;
        Ok(LinkIter::new(cids))
    }
}

impl Codec<Ipld> for DagJsonCodec {
    const CODE: u64 = 0x0129;

    type Error = DagJsonError;

    ghost use Rattle.dag_json.specs.Encodes.{EncodesTree};
    ghost use Rattle.dag_json.specs.Lemmas.CodecLaws.{json_encoded_once, json_decodes_encoded, json_writes_encoded};

    ghost CODE = { 0x0129 };

    ghost Contents = { Tree };

    ghost contents = { tree_of };

    ghost Encodes = { EncodesTree };

    ghost decoded = { decoded };

    ghost writes = { codec_text };

    ghost failure_of = { codec_failure };

    /// Reads the reader to its end, and decodes its bytes as a block.
    ///
    /// # Errors
    ///
    /// - `Read` if the reader fails or does not end.
    /// - `Memory` if an allocation fails.
    /// - Otherwise `Text`, the first error of the block.
    ///
    /// `Write` and `Reserved` are never returned.
    fn decode<R: BufRead>(alloc: Global, reader: &mut R) -> Result<Ipld, DagJsonError>
        ensures ok { IfOk result (λ value. IfSome (R.remaining reader.old) (λ block.
            decoded block ≡ Some (tree_of value))) }
        ensures read_out { OnOk result (IsReadOut (R.remaining reader.old)
            (R.remaining reader.new)) }
        ensures err { IfErr result (λ error. MatchOption (codec_failure error)
            (IfSome (R.remaining reader.old) (λ block. decoded block ≡ None)) (MemoryOr reading)) }
        ensures errors { IfErr result (λ error. (error ≡ DagJsonError.Memory)
            ⊎ ((error ≡ DagJsonError.Read) ⊎ IsTextErrorOf (R.remaining reader.old) error)) }
    {
        match read_block(alloc, reader) {
            Ok(block) => decode_tree(alloc, &block),
            Err(error) => Err(error),
        }
    }

    /// Writes the text of a tree. The text is held in memory before any of it is written, and it is
    /// written at once.
    ///
    /// # Errors
    ///
    /// - If a map would be read as a link or as bytes, `Reserved`, or `Memory` if an allocation
    ///   fails. The writer is then unchanged.
    /// - For any other tree, `Memory` if an allocation fails, also if the writer reports so, or
    ///   `Write` if the writer fails. How much was written is then unspecified.
    fn encode<W: Write>(alloc: Global, writer: &mut W, value: &Ipld) -> Result<(), DagJsonError>
        ensures ok { OnOk result (Writes (codec_text (tree_of value.now)) (W.contents writer.old)
            (W.contents writer.new)) }
        ensures err { IfErr result (λ error. MatchOption (codec_failure error)
            (codec_text (tree_of value.now) ≡ None) (MemoryOr writing)) }
        ensures errors { IfErr result (λ error. (error ≡ DagJsonError.Memory)
            ⊎ ((error ≡ DagJsonError.Write) ⊎ IsReserved (tree_of value.now) error)) }
        ensures rejected { codec_text (tree_of value.now) ≡ None → (writer.new ≡ writer.old)
            × IsErrAnd result (λ error. (error ≡ DagJsonError.Memory)
            ⊎ IsReserved (tree_of value.now) error) }
    {
        let text = match encode_block(alloc, value) {
            Ok(text) => text,
            Err(error) => return Err(error),
        };
        match writer.write_all(&text) {
            Ok(()) => Ok(()),
            Err(error) if error.kind() == ErrorKind::OutOfMemory => Err(DagJsonError::Memory),
            Err(_) => Err(DagJsonError::Write),
        }
    }

    /// Decodes a block, which is all of the bytes.
    ///
    /// # Errors
    ///
    /// `Memory` if an allocation fails. Otherwise `Text`.
    fn decode_from_slice(alloc: Global, bytes: &[u8]) -> Result<Ipld, DagJsonError>
        ensures ok { IfOk result (λ value. decoded bytes.now ≡ Some (tree_of value)) }
        ensures err { IfErr result (λ error. MatchOption (codec_failure error)
            (decoded bytes.now ≡ None) (MemoryOr reading)) }
        ensures errors { IfErr result (λ error. (error ≡ DagJsonError.Memory)
            ⊎ IsTextError bytes.now error) }
    {
        decode_tree(alloc, bytes)
    }

    /// Returns the text of a tree.
    ///
    /// # Errors
    ///
    /// `Memory` if an allocation fails. Otherwise `Reserved`.
    fn encode_to_vec(alloc: Global, value: &Ipld) -> Result<Vec<u8>, DagJsonError>
        ensures ok { IfOk result (λ text. codec_text (tree_of value.now) ≡ Some text.items) }
        ensures err { IfErr result (λ error. MatchOption (codec_failure error)
            (codec_text (tree_of value.now) ≡ None) (MemoryOr writing)) }
        ensures errors { IfErr result (λ error. (error ≡ DagJsonError.Memory)
            ⊎ IsReserved (tree_of value.now) error) }
    {
        encode_block(alloc, value)
    }

    ghost encoded_once = { json_encoded_once };

    ghost decodes_encoded = { json_decodes_encoded };

    ghost writes_encoded = { json_writes_encoded };
}

impl TreeCodec for DagJsonCodec {
    ghost use Rattle.dag_json.specs.Lemmas.CodecLaws.{json_same_trees, json_links_where_decoded, json_links_of_tree};

    ghost same_trees = { json_same_trees };

    ghost links_where_decoded = { json_links_where_decoded };

    ghost links_of_tree = { json_links_of_tree };
}
