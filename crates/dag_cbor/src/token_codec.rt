//! DAG-CBOR as a codec over tokens. A codec of any format can be written in this way.

ghost use Rattle.std.specs.Prelude.{◌≡◌, ◌⊎◌, true, None, Some, IfOk, IfErr, OnOk, IfSome, MatchOption};
ghost use Rattle.ipld_codec.specs.Codec.{memory, reading, writing, MemoryOr, Writes, IsReadOut};
ghost use Rattle.ipld_codec.specs.LinkIter.{links_left};
ghost use Rattle.ipld_tree.specs.Tree.{Tree};
ghost use Rattle.ipld_tree.specs.TreeOf.{tree_of};
ghost use Rattle.dag_cbor_format.specs.Block.{tree_of_block};
ghost use Rattle.dag_cbor_format.specs.Canonical.{canonical};
ghost use Rattle.dag_cbor_format.specs.ErrorKinds.{lies_in_bytes};
ghost use Rattle.dag_cbor_format.specs.FirstError.{first_error};
ghost use Rattle.dag_cbor_format.specs.Found.{links_found};
ghost use Rattle.dag_cbor.specs.CodecErrors.{cbor_failure, error_of};

use crate::codec::{DagCborCodec, read_block};
use crate::laws::block_law;
use dag_cbor_blocks::CborTokens;
use dag_cbor_format::CborError;
use ipld_cid::DAG_CBOR;
use ipld_codec::{Codec, LinkIter, Links, TreeCodec};
use ipld_tokens::laws::{item_tokens_law, tree_beginnings_law};
use ipld_tokens::{ExtractLinks, TokenError, TokenSource, read_ipld};
use ipld_tree::Ipld;
use std::alloc::Global;
use std::io::{BufRead, Write};

/// DAG-CBOR, read by the functions that read any source of tokens: [`read_ipld`] and
/// [`ExtractLinks`] over [`CborTokens`].
///
/// It returns the same as [`DagCborCodec`], which reads the bytes itself and is several times as
/// fast: see [`both_decode`](crate::laws::both_decode) and
/// [`both_find_links`](crate::laws::both_find_links). It is an example for your own codec. Its
/// proofs use only the contracts of the functions that it calls.
#[derive(Clone, Copy, Debug, PartialEq, Eq)]
pub struct TokenCodec;

// Converts the error of a read to the error of a codec. A source over a block returns its own error
// before the tokens have one, so the last arm is never taken.
fn source_error(error: TokenError<CborError>) -> CborError
    ensures { result ≡ error_of error }
{
    match error {
        TokenError::Source(error) => error,
        TokenError::Memory => CborError::Memory,
        _ => CborError::End,
    }
}

impl Links for TokenCodec {
    type LinksError = CborError;

    ghost found = { links_found };

    ghost links_failure_of = { cbor_failure };

    /// Returns the links of a block, in the order of its bytes. Only bytes that encode a tree have
    /// links.
    ///
    /// # Errors
    ///
    /// `Memory` if an allocation fails. Otherwise the first error of the bytes, the same one that
    /// [`decode_slice`](crate::decode_slice) returns. `Read`, `Write` and `IntegerRange` are never
    /// returned.
    fn links(alloc: Global, bytes: &[u8]) -> Result<LinkIter, CborError>
        ensures ok { IfOk result (λ links. links_found bytes.now ≡ Some (links_left links)) }
        ensures err { IfErr result (λ error. MatchOption (cbor_failure error)
            (links_found bytes.now ≡ None) (λ failure. failure ≡ memory)) }
        ensures errors { IfErr result (λ error. (error ≡ CborError.Memory)
            ⊎ (lies_in_bytes error ≡ true)) }
        ensures first { IfErr result (λ error. lies_in_bytes error ≡ true
            → first_error bytes.now ≡ Some error) }
    {
        // Laws, which do nothing when they run.
        block_law();
        item_tokens_law::<64>();
        let mut source = CborTokens::new(alloc, bytes);
        let links = match ExtractLinks::<64>::deserialize(alloc, &mut source) {
            Ok(links) => links,
            Err(error) => return Err(source_error(error)),
        };
        match source.next_token()? {
            None => Ok(LinkIter::new(links.into_vec())),
            Some(_) => Err(CborError::End),
        }
    }
}

impl Codec<Ipld> for TokenCodec {
    const CODE: u64 = DAG_CBOR;

    type Error = CborError;

    ghost use Rattle.dag_cbor_format.specs.Encoding.{EncodesTree};
    ghost use Rattle.dag_cbor.specs.Lemmas.BlockLaws.{block_encoded_once, block_decodes_encoded, block_writes_encoded};

    ghost CODE = { 0x71 };

    ghost Contents = { Tree };

    ghost contents = { tree_of };

    ghost Encodes = { EncodesTree };

    ghost decoded = { tree_of_block };

    ghost writes = { canonical };

    ghost failure_of = { cbor_failure };

    /// Reads the reader to its end, and decodes the block. Its keys may be in any order.
    ///
    /// # Errors
    ///
    /// - `Read` if the reader fails or does not end.
    /// - `Memory` if an allocation fails.
    /// - Otherwise the first error of the bytes, the same one that
    ///   [`decode_slice`](crate::decode_slice) returns. `Write` and `IntegerRange` are never
    ///   returned.
    fn decode<R: BufRead>(alloc: Global, reader: &mut R) -> Result<Ipld, CborError>
        ensures ok { IfOk result (λ value. IfSome (R.remaining reader.old) (λ block.
            tree_of_block block ≡ Some (tree_of value))) }
        ensures read_out { OnOk result (IsReadOut (R.remaining reader.old)
            (R.remaining reader.new)) }
        ensures err { IfErr result (λ error. MatchOption (cbor_failure error)
            (IfSome (R.remaining reader.old) (λ block. tree_of_block block ≡ None))
            (MemoryOr reading)) }
        ensures errors { IfErr result (λ error. (error ≡ CborError.Memory)
            ⊎ ((error ≡ CborError.Read) ⊎ (lies_in_bytes error ≡ true))) }
        ensures first { IfErr result (λ error. lies_in_bytes error ≡ true
            → IfSome (R.remaining reader.old) (λ block. first_error block ≡ Some error)) }
    {
        let block = read_block(alloc, reader)?;
        Self::decode_from_slice(alloc, &block)
    }

    /// Writes the block of a tree, as [`DagCborCodec`] does.
    ///
    /// # Errors
    ///
    /// Those of [`DagCborCodec`].
    fn encode<W: Write>(alloc: Global, writer: &mut W, value: &Ipld) -> Result<(), CborError>
        ensures ok { OnOk result (Writes (canonical (tree_of value.now)) (W.contents writer.old)
            (W.contents writer.new)) }
        ensures err { IfErr result (λ error. MatchOption (cbor_failure error)
            (canonical (tree_of value.now) ≡ None) (MemoryOr writing)) }
    {
        DagCborCodec::encode(alloc, writer, value)
    }

    /// Decodes a block from all of the bytes. Its keys may be in any order.
    ///
    /// # Errors
    ///
    /// `Memory` if an allocation fails. Otherwise the first error of the bytes. `Read`, `Write` and
    /// `IntegerRange` are never returned.
    fn decode_from_slice(alloc: Global, bytes: &[u8]) -> Result<Ipld, CborError>
        ensures ok { IfOk result (λ value. tree_of_block bytes.now ≡ Some (tree_of value)) }
        ensures err { IfErr result (λ error. MatchOption (cbor_failure error)
            (tree_of_block bytes.now ≡ None) (MemoryOr reading)) }
        ensures errors { IfErr result (λ error. (error ≡ CborError.Memory)
            ⊎ (lies_in_bytes error ≡ true)) }
        ensures first { IfErr result (λ error. lies_in_bytes error ≡ true
            → first_error bytes.now ≡ Some error) }
    {
        // Laws, which do nothing when they run.
        block_law();
        item_tokens_law::<64>();
        tree_beginnings_law();
        let mut source = CborTokens::new(alloc, bytes);
        let tree = match read_ipld(alloc, &mut source) {
            Ok(tree) => tree,
            Err(error) => return Err(source_error(error)),
        };
        match source.next_token()? {
            None => Ok(tree),
            Some(_) => Err(CborError::End),
        }
    }

    ghost encoded_once = { block_encoded_once };

    ghost decodes_encoded = { block_decodes_encoded };

    ghost writes_encoded = { block_writes_encoded };
}

impl TreeCodec for TokenCodec {
    ghost use Rattle.dag_cbor.specs.Lemmas.BlockLaws.{block_same_trees, block_links_where_decoded, block_links_of_tree};

    ghost same_trees = { block_same_trees };

    ghost links_where_decoded = { block_links_where_decoded };

    ghost links_of_tree = { block_links_of_tree };
}
