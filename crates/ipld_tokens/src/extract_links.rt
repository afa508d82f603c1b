//! The links of a value, from its tokens.

ghost use Rattle.std.specs.Prelude.{◌≡◌, ◌≤◌, ◌∷◌, ◌++◌, [], false, List, ℕ, IfOk, map};
ghost use Rattle.ipld_cid.specs.LinkOf.{link_of};
ghost use Rattle.ipld_tree.specs.Tree.{Tree};
ghost use Rattle.ipld_tree.specs.Walk.{links_of};
ghost use Rattle.ipld_tree.specs.IsTree.{IsTree};
ghost use Rattle.ipld_tokens.specs.Token.{TokenModel};
ghost use Rattle.ipld_tokens.specs.TreeTokens.{tokens_of_tree};
ghost use Rattle.ipld_tokens.specs.Item.{Item, tokens_of, links_in};
ghost use Rattle.ipld_tokens.specs.Fronts.{IsOpen};
ghost use Rattle.ipld_tokens.specs.LinkPositions.{RunsOut};
ghost use Rattle.ipld_tokens.specs.ExtractContract.{links_at, LeavesOpen, IsRejected, RejectsToken, RejectsCid};
ghost use Rattle.ipld_tokens.specs.Outcome.{Leaves, IfMemory, IfToken, IfCid, IfEnd, IfSource, IfDuplicateKey, IfStopped, is_source, FindsUnless, RejectsUnless, EndsUnless};

use crate::consumer::consume;
use crate::error::TokenError;
use crate::extractor::Extractor;
use crate::source::TokenSource;
use ipld_cid::CidGeneric;
use ipld_cid::laws::cid_bytes_law;
use std::alloc::Global;
use std::fmt;

/// The links of one value that a source yields in tokens, without the links in the keys of its
/// maps.
///
/// The CIDs have digests of at most `S` bytes.
#[derive(Drop)]
pub struct ExtractLinks<const S: usize> {
    pub(crate) links: Vec<CidGeneric<S>>,
}

// A CID with a digest of this many bytes does not fit in memory.
pub(crate) const TOO_LARGE: usize = 1 << 62;

impl<const S: usize> fmt::Debug for ExtractLinks<S> {
    fn fmt<W: fmt::Write>(&self, f: &mut fmt::Formatter<W>) -> fmt::Result {
        if S >= TOO_LARGE {
            return f.write_str("ExtractLinks");
        }
        f.debug_struct("ExtractLinks")
            .field("links", &self.links)
            .finish()
    }
}

impl<const S: usize> ExtractLinks<S> {
    /// Takes one value from a source and finds its links.
    ///
    /// It finds every link except those in keys of maps, in the order of the tokens and with
    /// repetitions. The tokens after the value remain. The source must not have failed.
    ///
    /// For the tokens of a tree, if `S` is at least 64, these are the links of the tree, as
    /// [`ipld_tree::Ipld::references`] returns them.
    ///
    /// An invalid value is rejected at the first token that makes a value impossible. The tokens
    /// after that token remain. The nesting of values is limited only by memory: an open list or
    /// map takes one byte, and a link that is found takes one CID.
    ///
    /// # Errors
    ///
    /// - `Token` if no value is possible with this token. It was taken, and no token after it.
    /// - `Cid` if the bytes after a link mark are not a CID with a digest of at most `S` bytes.
    ///   They were taken, and no token after them. This includes links in keys.
    /// - `End` if no token remains, and the tokens that were taken are the beginning of a value.
    /// - `Source` if the source failed in this call.
    /// - `Memory` if an allocation fails. It allocates only at a link that is not in a key, and at
    ///   the beginning of a list or a map. If `S` is 2^62 or more, a CID does not fit in memory.
    ///   The call then returns `Memory` at the bytes after any link mark, without an allocation.
    ///
    /// After `Source`, the tokens that were taken are the beginning of a value. After `Memory`,
    /// they end with the token that needed memory. `DuplicateKey` is never returned.
    pub fn deserialize<'a, T: TokenSource<'a>>(
        alloc: Global,
        source: &mut T,
    ) -> Result<Self, TokenError<T::Fault>>
        requires { T.failed source.old ≡ false }
        ensures found { IfOk result (λ x. (i : Item S)
            × (T.remaining source.old ≡ tokens_of i ++ T.remaining source.new)
            × (links_at x ≡ links_in i)) }
        ensures only { (i : Item S) (rest : List TokenModel)
            → T.remaining source.old ≡ tokens_of i ++ rest
            → FindsUnless result (λ x. (links_at x ≡ links_in i)
            × (T.remaining source.new ≡ rest)) }
        ensures tree { (t : Tree) (rest : List TokenModel) → 64 ≤ S → IsTree t
            → T.remaining source.old ≡ tokens_of_tree t ++ rest
            → FindsUnless result (λ x. (links_at x ≡ links_of t)
            × (T.remaining source.new ≡ rest)) }
        ensures token { IfToken result (RejectsToken S (T.remaining source.old)
            (T.remaining source.new)) }
        ensures cid { IfCid result (λ cid_error. RejectsCid S cid_error (T.remaining source.old)
            (T.remaining source.new)) }
        ensures rejected { (front rest : List TokenModel) (t : TokenModel)
            → T.remaining source.old ≡ front ++ t ∷ rest → IsRejected S front t
            → RejectsUnless result (T.remaining source.new ≡ rest) }
        ensures end { IfEnd result (IsOpen S (T.remaining source.old)
            × (T.remaining source.new ≡ [])) }
        ensures open { IsOpen S (T.remaining source.old) → EndsUnless result }
        ensures memory { IfMemory result (RunsOut S (T.remaining source.old)
            (T.remaining source.new)) }
        ensures source { IfSource result (λ fault. LeavesOpen S (T.remaining source.old)
            (T.remaining source.new)) }
        ensures stopped { IfStopped result (Leaves (T.remaining source.old)
            (T.remaining source.new)) }
        ensures no_key { IfDuplicateKey result ⊥ }
        ensures origin { T.origin source.new ≡ T.origin source.old }
        ensures failed { T.failed source.new ≡ is_source result }
        ensures allowed { IfSource result (λ fault. T.allows_fault (T.origin source.old) fault) }
        ensures ended { IfEnd result (T.allows_end (T.origin source.old)) }
    {
        // A law, a no-op at run time: bytes are read as a CID if and only if they encode one.
        cid_bytes_law::<S>();
        consume(source, Extractor::new(alloc))
    }

    /// Returns the links.
    pub fn into_vec(self) -> Vec<CidGeneric<S>>
        ensures { map link_of result.items ≡ links_at self.entry }
    {
        self.links
    }
}
