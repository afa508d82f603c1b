//! The tokens of an input, one per line.

ghost use Rattle.std.specs.Prelude.{◌≡◌, IfSome, IfOk, OnOk};
ghost use Rattle.ipld_codec.specs.Codec.{IsReadOut};
ghost use Rattle.ipld_links_run.specs.TokenLines.{tokens_in};
ghost use Rattle.ipld_links_run.specs.Said.{tokens_read};

use crate::lines::{read_line, skip_rest};
use crate::owned_token::OwnedToken;
use crate::status::RunFault;
use crate::token_line::{ParseError, parse_token};
use std::alloc::Global;
use std::io::BufRead;

/// The lines of an input, as tokens.
#[derive(Drop)]
pub(crate) enum TokenLines {
    /// Every line is a token.
    Tokens(Vec<OwnedToken>),
    /// The line of this number, counted from 1, is the first that is not a token.
    BadLine(u64),
}

/// Reads the token of each line. Reads the reader to its end, also after a line that is not a
/// token.
pub(crate) fn read_tokens<R: BufRead>(alloc: Global, reader: &mut R) -> Result<TokenLines, RunFault>
    ensures tokens { IfOk result (λ lines. IfSome (R.remaining reader.old)
        (λ input. tokens_in input ≡ tokens_read lines)) }
    ensures all_read { OnOk result (IsReadOut (R.remaining reader.old) (R.remaining reader.new)) }
{
    let mut line = Vec::new(alloc);
    let mut tokens = Vec::new(alloc);
    for number in 1..u64::MAX {
        if !read_line(reader, &mut line)? {
            return Ok(TokenLines::Tokens(tokens));
        }
        match parse_token(alloc, &line) {
            Ok(token) => tokens.push(token)?,
            Err(ParseError::Memory) => return Err(RunFault::Memory),
            Err(ParseError::NotUnderstood) => {
                skip_rest(reader)?;
                return Ok(TokenLines::BadLine(number));
            }
        }
    }
    Err(RunFault::Read)
}
