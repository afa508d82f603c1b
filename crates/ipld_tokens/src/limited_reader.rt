//! A tree within limits, token by token.

ghost use Rattle.std.specs.Prelude.{◌≡◌, ◌<◌, ◌^◌, ◌-◌, true, Some, None, option_map, MatchOption};
ghost use Rattle.ipld_tokens.specs.Token.{erase};
ghost use Rattle.ipld_tokens.specs.ReadMachine.{IsGoing};
ghost use Rattle.ipld_tokens.specs.Excess as limit;
ghost use Rattle.ipld_tokens.specs.LimitMachine as machine;
ghost use Rattle.ipld_tokens.specs.LimitMachine.{LimitState, limit_start, limit_step, excess_of, kinds, position, Counts, GoesOn, RejectsWithin, HasOutput};
ghost use Rattle.ipld_tokens.specs.ReaderState.{levels_of, state_of};

use crate::consumer::{Rejection, TokenConsumer};
use crate::token::Token;
use crate::tree_reader::TreeReader;
use ipld_tree::{Ipld, Limits};
use std::alloc::Global;

// The limit that a token exceeds.
#[derive(Clone, Copy)]
pub(crate) enum Excess {
    TooDeep,
    TooMany,
}

// A tree that is being read within limits, the number of its values that have begun, and the limit
// that a token exceeded.
#[derive(Drop)]
pub(crate) struct LimitedReader {
    reader: TreeReader,
    limits: Limits,
    values: usize,
    excess: Option<Excess>,
}

// Returns whether the token begins a value, at a place where a value may come.
fn begins_value(token: &Token<'_>) -> bool
    ensures { result ≡ machine.begins_value (erase token.now) }
{
    !matches!(
        token,
        Token::Some | Token::Variant(_) | Token::SeqEnd | Token::MapEnd
    )
}

// Returns whether the token opens a list or a map, at a place where a value may come.
fn begins_container(token: &Token<'_>) -> bool
    ensures { result ≡ machine.opens (erase token.now) }
{
    matches!(token, Token::Seq(_) | Token::Map(_))
}

impl LimitedReader {
    ghost use Rattle.ipld_tokens.specs.LimitMachine.{limit_state};

    pub(crate) fn new(alloc: Global, limits: Limits) -> Self
        ensures { limit_state result ≡ limit_start limits }
    {
        LimitedReader {
            reader: TreeReader::new(alloc),
            limits,
            values: 0,
            excess: None,
        }
    }

    // Returns the limit that another value exceeds.
    fn excess_of_value(&self) -> Option<Excess>
        ensures excess { option_map excess_of result ≡ limit.excess_of_value self.now.limits
            self.now.values }
        ensures fits { MatchOption result (self.now.values < 2 ^ 64 - 1) (λ _. Unit {0}) }
    {
        if self.values < self.limits.values {
            None
        } else {
            Some(Excess::TooMany)
        }
    }

    // Returns the limit that another list or map exceeds.
    fn excess_of_container(&self) -> Option<Excess>
        ensures excess { option_map excess_of result ≡ limit.excess_of_container self.now.limits
            (kinds (levels_of self.now.reader)) self.now.values }
        ensures fits { MatchOption result (self.now.values < 2 ^ 64 - 1) (λ _. Unit {0}) }
    {
        if self.reader.depth() < self.limits.levels {
            self.excess_of_value()
        } else {
            Some(Excess::TooDeep)
        }
    }

    // Returns the limit that a token exceeds if it begins a value.
    fn excess_of(&self, token: &Token<'_>) -> Option<Excess>
        requires { machine.begins_value (erase token.now) ≡ true }
        ensures excess { option_map excess_of result ≡ limit.value_excess self.now.limits
            (kinds (levels_of self.now.reader)) self.now.values (erase token.now) }
        ensures fits { MatchOption result (self.now.values < 2 ^ 64 - 1) (λ _. Unit {0}) }
    {
        if begins_container(token) {
            self.excess_of_container()
        } else {
            self.excess_of_value()
        }
    }

    // Counts the value that the token begins, if it begins one.
    fn count(&mut self, token: &Token<'_>) -> Result<(), Excess>
        requires { IsGoing (state_of self.old.reader) }
        ensures counts { Counts self.old.limits
            (position (state_of self.old.reader) self.old.values)
            (erase token.now) self.new.values result }
        ensures reader { self.new.reader ≡ self.old.reader }
        ensures limits { self.new.limits ≡ self.old.limits }
        ensures excess { self.new.excess ≡ self.old.excess }
    {
        if self.reader.takes_value() && begins_value(token) {
            if let Some(excess) = self.excess_of(token) {
                return Err(excess);
            }
            self.values += 1;
        }
        Ok(())
    }
}

impl TokenConsumer for LimitedReader {
    type Output = Result<Ipld, Excess>;

    ghost use Rattle.ipld_tokens.specs.LimitMachine.{limit_state, has_ended};

    ghost State = { LimitState };

    ghost state = { limit_state };

    ghost next_state = { limit_step };

    ghost goes_on = { GoesOn };

    ghost is_complete = { has_ended };

    ghost rejects = { RejectsWithin };

    ghost reads = { HasOutput };

    fn take(&mut self, token: &Token<'_>) -> Result<(), Rejection> {
        match self.count(token) {
            Ok(()) => self.reader.take(token),
            Err(excess) => {
                self.excess = Some(excess);
                Ok(())
            }
        }
    }

    fn has_ended(&self) -> bool {
        self.excess.is_some() || self.reader.has_ended()
    }

    fn into_output(self) -> Result<Ipld, Excess> {
        match self.excess {
            Some(excess) => Err(excess),
            None => Ok(self.reader.into_output()),
        }
    }
}
