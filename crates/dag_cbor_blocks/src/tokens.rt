//! The tokens of a block.

ghost use Rattle.std.specs.Prelude.{◌≡◌, ◌++◌, ◌∷◌, [], true, false, is_err, length, List, Some};
ghost use Rattle.std.specs.Option.{ForNone, ForSome};
ghost use Rattle.std.proofs.Props.{props};
ghost use Rattle.ipld_tree.specs.Tree.{Tree};
ghost use Rattle.ipld_tokens.specs.Token.{TokenModel};
ghost use Rattle.ipld_tokens.specs.CutTrees.{BeginsTree};
ghost use Rattle.ipld_tokens.specs.Hints.{Counted};
ghost use Rattle.ipld_tokens.specs.Source.{NextToken};
ghost use Rattle.ipld_tokens.specs.Item.{Item, tokens_of};
ghost use Rattle.ipld_tokens.specs.ItemTree.{tree_of_item};
ghost use Rattle.dag_cbor_format.specs.Encoding.{EncodesItem};
ghost use Rattle.dag_cbor_format.specs.declared.error.CborError.TheVariants.{Memory};
ghost use Rattle.dag_cbor_format.specs.ErrorKinds.{lies_in_bytes};
ghost use Rattle.dag_cbor_format.specs.Reading.{one, of_block, step};
ghost use Rattle.dag_cbor_blocks.specs.Hints.{announced, Covered, Covered-prop, Hinted};
ghost use Rattle.dag_cbor_blocks.specs.Reader.{next_of};
ghost use Rattle.dag_cbor_blocks.specs.Tokens.{MayEnd, MayFail, ran_of};

use crate::reader::Reader;
use dag_cbor_format::CborError;
use ipld_tokens::{Token, TokenSource};
use std::alloc::Global;

/// The tokens of a DAG-CBOR block, whose strings and bytes are borrowed from the block.
///
/// It reads the block once, from the left. If the bytes as a whole do not encode a tree, it returns
/// the first error of the bytes instead of the end of the tokens. Bytes that encode a tree are one
/// item. Its arguments are in their shortest form, the keys of every map are strings and differ,
/// and every link is a CID.
///
/// The hint of a list or a map is its length. The hint is absent only if the block is too short for
/// it, and so never if the block encodes a tree. All hints together count on at most as many items
/// and pairs as the block has bytes.
///
/// An open list or map takes some bytes of memory, and so does every key of an open map. After an
/// error, every further call returns that error.
#[derive(Drop)]
pub struct CborTokens<'a> {
    block: &'a [u8],
    reader: Reader<'a>,
    error: Option<CborError>,
    ghost stands: { (ran_of error reader).error ≡ (of_block block.now).error },
    ghost reported: { ForSome error (λ e. lies_in_bytes e ≡ false → e ≡ Memory) },
    ghost covered: { ForNone error (Covered reader.position.uncounted (next_of reader)) } by { Prim.hlevel (props, Covered-prop reader.position.uncounted (next_of reader)) },
}

impl<'a> CborTokens<'a> {
    ghost use Rattle.dag_cbor_blocks.specs.TokensSource.{tokens_left, has_stopped, block_of, uncounted_of, step_ahead};

    /// Creates a source of the block's tokens. Does not allocate.
    pub fn new(alloc: Global, bytes: &'a [u8]) -> Self
        ensures tokens { (i : Item 64) (t : Tree) → EncodesItem i bytes.entry.now
            → tree_of_item i ≡ Some t
            → tokens_left result ≡ tokens_of i }
        ensures begins { (taken rest : List TokenModel) → tokens_left result ≡ taken ++ rest
            → BeginsTree taken }
        ensures block { block_of result ≡ bytes.entry.now }
        ensures step { step_ahead result ≡ step (one ∷ []) bytes.entry.now }
        ensures uncounted { uncounted_of result ≡ length bytes.entry.now }
        ensures not_failed { has_stopped result ≡ false }
    {
        CborTokens {
            block: bytes,
            reader: Reader::new(alloc, bytes),
            error: None,
        }
    }
}

impl<'a> TokenSource<'a> for CborTokens<'a> {
    type Fault = CborError;

    ghost use Rattle.dag_cbor_blocks.specs.TokensSource.{tokens_left, has_stopped, block_of, uncounted_of, step_ahead, TakesStep};

    ghost remaining = { tokens_left };

    ghost failed = { has_stopped };

    ghost origin = { block_of };

    ghost allows_fault = { MayFail };

    ghost allows_end = { MayEnd };

    fn next_token(&mut self) -> Result<Option<Token<'a>>, CborError>
        ensures next { NextToken (MayFail (block_of self.old)) (MayEnd (block_of self.old))
            (tokens_left self.old) (tokens_left self.new) result }
        ensures origin { block_of self.new ≡ block_of self.old }
        ensures failed { has_stopped self.new ≡ is_err result }
        ensures stays { has_stopped self.old ≡ true → is_err result ≡ true }
        ensures step { has_stopped self.old ≡ false → TakesStep self.old self.new result }
        ensures hints { Hinted (announced (step_ahead self.old)) (uncounted_of self.old)
            (uncounted_of self.new) result }
        ensures counted { MayEnd (block_of self.old) → Counted (tokens_left self.old) result }
    {
        match self.error {
            Some(error) => Err(error),
            None => match self.reader.advance() {
                Ok(token) => Ok(token),
                Err(error) => {
                    self.error = Some(error);
                    Err(error)
                }
            },
        }
    }

    fn has_failed(&self) -> bool {
        self.error.is_some()
    }
}
