//! The words `links` and `refs`: the links of the item or the tree whose tokens are on lines.

ghost use Rattle.std.specs.Prelude.{◌≡◌, Some, IfSome, IfOk, OnOk, map};
ghost use Rattle.ipld_codec.specs.Codec.{IsReadOut};
ghost use Rattle.ipld_tokens.specs.Token.{erase};
ghost use Rattle.ipld_links_run.specs.Output.{Writes, WritesOutcome, WritesTokens};
ghost use Rattle.ipld_links_run.specs.Said.{OutcomeFor, outcome_of, error_name, IsOfTokens, name_of};
ghost use Rattle.ipld_links_run.specs.TokenLines.{tokens_in};

use crate::lines::write_texts;
use crate::owned_token::lend_all;
use crate::status::{RunFault, Status};
use crate::token_lines::{TokenLines, read_tokens};
use crate::verdict::{Rejection, Verdict, write_verdict};
use ipld_cid::Cid;
use ipld_tokens::{ExtractLinks, SliceSource, Stopped, Token, TokenError, read_ipld};
use std::alloc::Global;
use std::io::{BufRead, Write};

/// Links, or the reason why the input has no links.
type Outcome = Result<Vec<Cid>, Rejection>;

/// The expected form of the tokens.
#[derive(Clone, Copy)]
pub(crate) enum ReadAs {
    /// Any item.
    Item,
    /// An item that has a tree.
    Tree,
}

/// Writes the links of the first item or tree. Reads the reader to its end.
pub(crate) fn write_links_of_tokens<R: BufRead, W: Write>(
    alloc: Global,
    wanted: ReadAs,
    reader: &mut R,
    writer: &mut W,
) -> Result<Status, RunFault>
    ensures output { IfOk result (λ status. IfSome (R.remaining reader.old)
        (λ input. Writes (W.contents writer.old) (W.contents writer.new)
        (WritesTokens (OutcomeFor wanted) (tokens_in input) status))) }
    ensures all_read { OnOk result (IsReadOut (R.remaining reader.old) (R.remaining reader.new)) }
{
    match read_tokens(alloc, reader)? {
        TokenLines::Tokens(tokens) => {
            let outcome = find_links(alloc, wanted, &lend_all(alloc, &tokens)?)?;
            write_outcome(writer, &outcome)
        }
        TokenLines::BadLine(number) => write_verdict(writer, Verdict::BadLine(number)),
    }
}

/// Writes the text of each link and their number, or the rejection.
fn write_outcome<W: Write>(writer: &mut W, outcome: &Outcome) -> Result<Status, RunFault>
    ensures { IfOk result (λ status. Writes (W.contents writer.old) (W.contents writer.new)
        (WritesOutcome (outcome_of outcome.now) status)) }
{
    match outcome {
        Ok(links) => {
            write_texts(writer, links)?;
            write_verdict(writer, Verdict::Done(links.len() as u64))
        }
        Err(rejection) => write_verdict(writer, Verdict::Refused(*rejection)),
    }
}

/// Finds the links of the item or tree at the front of the tokens, or returns the rejection.
fn find_links<'a>(
    alloc: Global,
    wanted: ReadAs,
    tokens: &'a [Token<'a>],
) -> Result<Outcome, RunFault>
    ensures { IfOk result (λ outcome. OutcomeFor wanted (map erase tokens.entry.now)
        (outcome_of outcome)) }
{
    let mut source = SliceSource::new(tokens);
    match wanted {
        ReadAs::Item => match ExtractLinks::<64>::deserialize(alloc, &mut source) {
            Ok(links) => Ok(Ok(links.into_vec())),
            Err(error) => Ok(Err(rejection_of(error)?)),
        },
        ReadAs::Tree => match read_ipld(alloc, &mut source) {
            Ok(tree) => {
                let mut links = Vec::new(alloc);
                let found = tree.references(alloc, &mut links);
                tree.discard();
                found?;
                Ok(Ok(links))
            }
            Err(error) => Ok(Err(rejection_of(error)?)),
        },
    }
}

/// Converts an error of the tokens to a rejection. A failed allocation is not an error of the
/// tokens.
fn rejection_of(error: TokenError<Stopped>) -> Result<Rejection, RunFault>
    requires { IsOfTokens error }
    ensures { IfOk result (λ rejection. error_name error ≡ Some (name_of rejection)) }
{
    match error {
        TokenError::Token => Ok(Rejection::Token),
        TokenError::Cid(_) => Ok(Rejection::Cid),
        TokenError::End => Ok(Rejection::End),
        TokenError::DuplicateKey => Ok(Rejection::DuplicateKey),
        TokenError::Memory => Err(RunFault::Memory),
        TokenError::Source(_) => unreachable!(),
    }
}
