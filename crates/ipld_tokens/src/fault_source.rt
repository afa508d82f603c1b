//! Tokens from memory, up to a failure.

ghost use Rattle.std.specs.Prelude.{◌≡◌, ◌-◌, ◌==◌, true, false, map, is_err};
ghost use Rattle.ipld_tokens.specs.Token.{erase};
ghost use Rattle.ipld_tokens.specs.Source.{NextToken};
ghost use Rattle.ipld_tokens.specs.Hints.{hint_of, KeepsHints};

use crate::slice_source::SliceSource;
use crate::source::{Stopped, TokenSource};
use crate::token::Token;

/// The tokens of a slice, in order and with their hints, from a source that fails after a given
/// number of calls.
///
/// It is for tests. It does not allocate.
#[derive(Debug, Drop)]
pub struct FaultSource<'a> {
    source: SliceSource<'a>,
    calls: usize,
    stopped: bool,
    ghost spent: { stopped ≡ true → calls ≡ 0 },
}

impl<'a> FaultSource<'a> {
    ghost use Rattle.ipld_tokens.specs.FaultSource.{tokens_left, hints_left, calls_left, has_stopped, origin_of};

    /// Creates a source of all the tokens. Its first `calls` calls succeed, and then it fails for
    /// good.
    pub fn new(tokens: &'a [Token<'a>], calls: usize) -> Self
        ensures tokens { tokens_left result ≡ map erase tokens.entry.now }
        ensures hints { hints_left result ≡ map hint_of tokens.entry.now }
        ensures calls { calls_left result ≡ calls }
        ensures not_stopped { has_stopped result ≡ false }
    {
        FaultSource {
            source: SliceSource::new(tokens),
            calls,
            stopped: false,
        }
    }
}

impl<'a> TokenSource<'a> for FaultSource<'a> {
    type Fault = Stopped;

    ghost use Rattle.ipld_tokens.specs.FaultSource.{tokens_left, hints_left, calls_left, has_stopped, origin_of};

    ghost remaining = { tokens_left };

    ghost failed = { has_stopped };

    ghost origin = { origin_of };

    ghost allows_fault = { λ _ _. Unit {0} };

    ghost allows_end = { λ _. Unit {0} };

    fn next_token(&mut self) -> Result<Option<Token<'a>>, Stopped>
        ensures next { NextToken (λ _. Unit {0}) (Unit {0}) (tokens_left self.old)
            (tokens_left self.new) result }
        ensures origin { origin_of self.new ≡ origin_of self.old }
        ensures failed { has_stopped self.new ≡ is_err result }
        ensures stays { has_stopped self.old ≡ true → is_err result ≡ true }
        ensures stops { is_err result ≡ (calls_left self.old == 0) }
        ensures counts { calls_left self.new ≡ calls_left self.old - 1 }
        ensures hints { KeepsHints (hints_left self.old) (hints_left self.new) result }
    {
        if self.calls == 0 {
            self.stopped = true;
            return Err(Stopped);
        }
        self.calls -= 1;
        self.source.next_token()
    }

    fn has_failed(&self) -> bool {
        self.stopped
    }
}
