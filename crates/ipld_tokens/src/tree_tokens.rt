//! The tokens of a tree.

ghost use Rattle.std.specs.Prelude.{◌≡◌, ◌≤◌, ◌^◌, ◌+◌, suc, ◌∷◌, ◌++◌, None, true, false, is_err, length, vec_capacity, IfOk, IfErr, OnOk, OnErr, OnSome, MatchOption, MatchResult};
ghost use Rattle.ipld_tree.specs.TreeOf.{tree_of};
ghost use Rattle.ipld_tree.specs.Walk.{nest};
ghost use Rattle.ipld_tree.specs.IsWhole.{IsWhole};
ghost use Rattle.ipld_tokens.specs.Token.{erase};
ghost use Rattle.ipld_tokens.specs.TreeTokens.{tokens_of_tree};
ghost use Rattle.ipld_tokens.specs.Hints.{Counts, CountsFirst, Counted};
ghost use Rattle.ipld_tokens.specs.Source.{NextToken};
ghost use Rattle.ipld_tokens.specs.IpldTokens.{slots, cursors_in, left_of, all_left, StepOf, HasLinkBytes};
ghost use Rattle.ipld_tokens.specs.declared.tree_tokens.TokenCursor.TheVariants as TokenCursor;

use crate::source::TokenSource;
use crate::token::{Token, TokenBytes};
use ipld_cid::Cid;
use ipld_tree::Ipld;
use std::alloc::{AllocError, Global};
use std::collections::btree_map;
use std::slice;

// The remaining part of a value: all of it, the bytes of a link, the items of a list and its end,
// or a map's next value (if its key was yielded), its other pairs and its end.
#[derive(Drop)]
enum TokenCursor<'a> {
    Itself(&'a Ipld),
    Encoding(&'a Cid),
    Items(slice::Iter<'a, Ipld>),
    Members(Option<&'a Ipld>, btree_map::Iter<'a, String, Ipld>),
}

// A step of a cursor: a token, the rest of the cursor, and the cursor that opens in it.
#[derive(Drop)]
struct Step<'a> {
    token: Token<'a>,
    rest: Option<TokenCursor<'a>>,
    inner: Option<TokenCursor<'a>>,
}

/// The tokens of a tree, with the keys of every map in byte order. The hint of a list or a map is
/// its true length.
///
/// It borrows the tree. [`IpldTokens::new`] allocates the memory for the walk. After that, only the
/// bytes of a link are allocated. If that allocation fails, the source has failed for good, and the
/// bytes remain. It does not fail otherwise.
#[derive(Drop)]
pub struct IpldTokens<'a> {
    alloc: Global,
    stack: Vec<TokenCursor<'a>>,
    failed: bool,
    ghost capacity: { slots stack.items ≤ vec_capacity stack },
}

impl<'a> IpldTokens<'a> {
    ghost use Rattle.ipld_tokens.specs.IpldSource.{tokens_left, has_stopped};

    /// Returns a source of the tokens of the tree.
    ///
    /// It first measures the nesting, as [`Ipld::try_nesting`] does. Then it allocates at once a
    /// slot for the value itself and one for each level of nesting.
    ///
    /// The measurement recurses down to 1,024 levels. So `new` allocates only once if lists and
    /// maps nest at most 1,024 levels deep. In a deeper tree, the measurement also allocates, and
    /// releases that memory afterwards.
    ///
    /// # Errors
    ///
    /// `AllocError` if an allocation fails, or if the tree nests deeper than a `usize` can count.
    /// No tree that fits in memory nests that deep.
    pub fn new(alloc: Global, tree: &'a Ipld) -> Result<Self, AllocError>
        ensures tokens { IfOk result (λ source. tokens_left source ≡ tokens_of_tree
            (tree_of tree.now)) }
        ensures not_failed { IfOk result (λ source. has_stopped source ≡ false) }
        ensures whole { OnOk result (IsWhole (tree_of tree.now)) }
    {
        let Some(slots) = slots_needed(alloc, tree)? else {
            return Err(AllocError);
        };
        let mut stack = Vec::with_capacity(alloc, slots)?;
        stack.push_reserved(TokenCursor::Itself(tree));
        Ok(IpldTokens {
            alloc,
            stack,
            failed: false,
        })
    }
}

impl<'a> TokenSource<'a> for IpldTokens<'a> {
    type Fault = AllocError;

    ghost use Rattle.ipld_tokens.specs.IpldSource.{tokens_left, has_stopped, origin_of, IsAtLink};

    ghost remaining = { tokens_left };

    ghost failed = { has_stopped };

    ghost origin = { origin_of };

    ghost allows_fault = { λ _ _. Unit {0} };

    ghost allows_end = { λ _. Unit {0} };

    fn next_token(&mut self) -> Result<Option<Token<'a>>, AllocError>
        ensures next { NextToken (λ _. Unit {0}) (Unit {0}) (tokens_left self.old)
            (tokens_left self.new) result }
        ensures origin { origin_of self.new ≡ origin_of self.old }
        ensures failed { has_stopped self.new ≡ is_err result }
        ensures stays { has_stopped self.old ≡ true → is_err result ≡ true }
        ensures counted { Counted (tokens_left self.old) result }
        ensures at_link { has_stopped self.old ≡ false → OnErr result (IsAtLink self.old) }
    {
        if self.failed {
            return Err(AllocError);
        }
        let Some(cursor) = self.stack.pop() else {
            return Ok(None);
        };
        match cursor_step(self.alloc, cursor) {
            Ok(step) => {
                push_cursors(&mut self.stack, step.rest, step.inner);
                Ok(Some(step.token))
            }
            Err(cursor) => {
                push_cursors(&mut self.stack, Some(cursor), None);
                self.failed = true;
                Err(AllocError)
            }
        }
    }

    fn has_failed(&self) -> bool {
        self.failed
    }
}

fn slots_needed(alloc: Global, tree: &Ipld) -> Result<Option<usize>, AllocError>
    ensures needed { IfOk result (λ slots. MatchOption slots
        (2 ^ 64 ≤ suc (nest (tree_of tree.now))) (λ n. n ≡ suc (nest (tree_of tree.now)))) }
    ensures whole { OnOk result (IsWhole (tree_of tree.now)) }
{
    Ok(tree.try_nesting(alloc)?.checked_add(1))
}

// Puts the rest back, below the cursor that opened.
fn push_cursors<'a>(
    stack: &mut Vec<TokenCursor<'a>>,
    rest: Option<TokenCursor<'a>>,
    inner: Option<TokenCursor<'a>>,
)
    requires { length stack.old.items + length (cursors_in rest ++ cursors_in inner)
        ≤ vec_capacity stack.old }
    ensures items { stack.new.items ≡ stack.old.items ++ (cursors_in rest.entry
        ++ cursors_in inner.entry) }
    ensures capacity { vec_capacity stack.old ≤ vec_capacity stack.new }
{
    if let Some(rest) = rest {
        stack.push_reserved(rest);
    }
    if let Some(inner) = inner {
        stack.push_reserved(inner);
    }
}

// Returns the token that a value begins with, and the cursor that opens in it.
fn begin_value<'a>(value: &'a Ipld) -> (Token<'a>, Option<TokenCursor<'a>>)
    ensures tokens { tokens_of_tree (tree_of value.now) ≡ erase result.0 ∷ all_left
        (cursors_in result.1) }
    ensures slots { slots (cursors_in result.1) ≤ suc (nest (tree_of value.now)) }
    ensures counts { Counts result.0 (tree_of value.now) }
{
    match value {
        Ipld::Null => (Token::None, None),
        Ipld::Bool(value) => (Token::Bool(*value), None),
        Ipld::Integer(number) => (Token::Int(*number), None),
        Ipld::String(text) => (Token::Str(text.as_str()), None),
        Ipld::Bytes(bytes) => (Token::Bytes(TokenBytes::Lent(bytes.as_slice())), None),
        Ipld::List(items) => (
            Token::Seq(Some(items.len())),
            Some(TokenCursor::Items(items.iter())),
        ),
        Ipld::Map(members) => (
            Token::Map(Some(members.len())),
            Some(TokenCursor::Members(None, members.iter())),
        ),
        Ipld::Link(cid) => (Token::Link, Some(TokenCursor::Encoding(cid))),
    }
}

// Returns the step into a value, and the rest after it.
fn step_into<'a>(value: &'a Ipld, rest: Option<TokenCursor<'a>>) -> Step<'a>
    ensures rest { result.rest ≡ rest.entry }
    ensures tokens { tokens_of_tree (tree_of value.now) ≡ erase result.token ∷ all_left
        (cursors_in result.inner) }
    ensures slots { slots (cursors_in result.inner) ≤ suc (nest (tree_of value.now)) }
    ensures counts { Counts result.token (tree_of value.now) }
{
    let (token, inner) = begin_value(value);
    Step { token, rest, inner }
}

fn list_step<'a>(mut items: slice::Iter<'a, Ipld>) -> Step<'a>
    ensures steps { StepOf (TokenCursor.Items items.entry) result }
    ensures counts { CountsFirst result.token (left_of (TokenCursor.Items items.entry)) }
{
    match items.next() {
        Some(value) => step_into(value, Some(TokenCursor::Items(items))),
        None => Step {
            token: Token::SeqEnd,
            rest: None,
            inner: None,
        },
    }
}

fn map_step<'a>(mut members: btree_map::Iter<'a, String, Ipld>) -> Step<'a>
    ensures steps { StepOf (TokenCursor.Members None members.entry) result }
    ensures counts { CountsFirst result.token (left_of (TokenCursor.Members None members.entry)) }
{
    match members.next() {
        Some((key, value)) => Step {
            token: Token::Str(key.as_str()),
            rest: Some(TokenCursor::Members(Some(value), members)),
            inner: None,
        },
        None => Step {
            token: Token::MapEnd,
            rest: None,
            inner: None,
        },
    }
}

// Returns the next step. If the allocation of the bytes of a link fails, it returns the cursor.
fn cursor_step<'a>(alloc: Global, cursor: TokenCursor<'a>) -> Result<Step<'a>, TokenCursor<'a>>
    ensures steps { MatchResult result (λ s. StepOf cursor.entry s) (λ c. c ≡ cursor.entry) }
    ensures counts { IfOk result (λ s. CountsFirst s.token (left_of cursor.entry)) }
    ensures at_link { IfErr result HasLinkBytes }
{
    match cursor {
        TokenCursor::Itself(value) => Ok(step_into(value, None)),
        TokenCursor::Items(items) => Ok(list_step(items)),
        TokenCursor::Members(None, members) => Ok(map_step(members)),
        TokenCursor::Members(Some(value), members) => {
            Ok(step_into(value, Some(TokenCursor::Members(None, members))))
        }
        TokenCursor::Encoding(cid) => match cid.to_bytes(alloc) {
            Ok(bytes) => Ok(Step {
                token: Token::Bytes(TokenBytes::Owned(bytes)),
                rest: None,
                inner: None,
            }),
            Err(AllocError) => Err(TokenCursor::Encoding(cid)),
        },
    }
}
