//! Tokens from memory.

ghost use Rattle.std.specs.Prelude.{◌≡◌, true, map, is_err};
ghost use Rattle.ipld_tokens.specs.Token.{erase};
ghost use Rattle.ipld_tokens.specs.Hints.{hint_of, KeepsHints};
ghost use Rattle.ipld_tokens.specs.Source.{NextToken};
ghost use Rattle.ipld_tokens.specs.SliceSource.{tokens_left, hints_left, has_stopped, origin_of};

use crate::source::{Stopped, TokenSource};
use crate::token::Token;

/// The tokens of a slice, in order and with their hints. It never fails and does not allocate.
#[derive(Debug, Drop)]
pub struct SliceSource<'a> {
    tokens: &'a [Token<'a>],
}

impl<'a> SliceSource<'a> {
    /// Creates a source of all the tokens, with their hints.
    pub fn new(tokens: &'a [Token<'a>]) -> Self
        ensures tokens { tokens_left result ≡ map erase tokens.entry.now }
        ensures hints { hints_left result ≡ map hint_of tokens.entry.now }
    {
        SliceSource { tokens }
    }
}

impl<'a> TokenSource<'a> for SliceSource<'a> {
    type Fault = Stopped;

    ghost remaining = { tokens_left };

    ghost failed = { has_stopped };

    ghost origin = { origin_of };

    ghost allows_fault = { λ _ _. Unit {0} };

    ghost allows_end = { λ _. Unit {0} };

    fn next_token(&mut self) -> Result<Option<Token<'a>>, Stopped>
        ensures next { NextToken (λ _. Unit {0}) (Unit {0}) (tokens_left self.old)
            (tokens_left self.new) result }
        ensures origin { origin_of self.new ≡ origin_of self.old }
        ensures failed { has_stopped self.new ≡ is_err result }
        ensures stays { has_stopped self.old ≡ true → is_err result ≡ true }
        ensures hints { KeepsHints (hints_left self.old) (hints_left self.new) result }
    {
        match self.tokens {
            [] => Ok(None),
            [first, rest @ ..] => {
                self.tokens = rest;
                Ok(Some(first.lend()))
            }
        }
    }

    fn has_failed(&self) -> bool {
        false
    }
}
