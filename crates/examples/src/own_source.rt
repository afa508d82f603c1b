//! A custom token source: numbers in memory as the tokens of a list.

// [begin: source]
ghost use Rattle.std.specs.Prelude.{◌≡◌, [], false};
ghost use Rattle.examples.specs.Readings.{tokens_left, tokens_of_readings};

use ipld_tokens::{Stopped, Token, TokenSource};

/// The tokens of a list of readings.
#[derive(Drop)]
pub struct Readings<'a> {
    next: NextToken,
    rest: &'a [i128],
}

/// The next token.
#[derive(Clone, Copy)]
enum NextToken {
    Begin,
    Item,
    Nothing,
}

impl<'a> Readings<'a> {
    /// Creates a source of the tokens of these readings, which it borrows.
    pub fn new(readings: &'a [i128]) -> Self
        ensures { tokens_left result ≡ tokens_of_readings readings.now }
    {
        Readings {
            next: NextToken::Begin,
            rest: readings,
        }
    }
}

impl<'a> TokenSource<'a> for Readings<'a> {
    type Fault = Stopped;

    ghost remaining = { tokens_left };

    ghost failed = { λ _. false };

    ghost origin = { λ _. [] };

    ghost allows_fault = { λ _ _. Unit {0} };

    ghost allows_end = { λ _. Unit {0} };

    fn next_token(&mut self) -> Result<Option<Token<'a>>, Stopped> {
        match self.next {
            NextToken::Begin => {
                self.next = NextToken::Item;
                Ok(Some(Token::Seq(Some(self.rest.len()))))
            }
            NextToken::Item => match self.rest {
                [] => {
                    self.next = NextToken::Nothing;
                    Ok(Some(Token::SeqEnd))
                }
                [first, rest @ ..] => {
                    self.rest = rest;
                    Ok(Some(Token::Int(*first)))
                }
            },
            NextToken::Nothing => Ok(None),
        }
    }

    fn has_failed(&self) -> bool {
        false
    }
}
// [end: source]

// [begin: read]
use ipld_tokens::{TokenError, read_ipld};
use ipld_tree::Ipld;
use std::alloc::Global;

/// Returns the tree of some readings: a List of Integers.
pub fn tree_of_readings(alloc: Global, readings: &[i128]) -> Result<Ipld, TokenError<Stopped>> {
    read_ipld(alloc, &mut Readings::new(readings))
}
// [end: read]

/// Prints the tree of three readings.
pub fn show(rt: &impl Print, alloc: Global) -> anyhow::Result<()> {
    match tree_of_readings(alloc, &[-1, 0, 25]) {
        Ok(tree) => println!(rt; "{tree:?}")?,
        Err(error) => println!(rt; "{error:?}")?,
    }
    Ok(())
}
