//! A run of the program.

ghost use Rattle.std.specs.Prelude.{◌≡◌, IfSome, IfOk, OnOk, MatchResult};
ghost use Rattle.ipld_codec.specs.Codec.{IsReadOut};
ghost use Rattle.ipld_links_run.specs.Output.{Output, UsageOutput, IsWord, Writes};

use crate::byte_lines::Content;
use crate::items::ReadAs;
use crate::lines::write_line;
use crate::status::{RunFault, Status};
use crate::{byte_lines, items};
use std::alloc::Global;
use std::io::{BufRead, Write};

/// The output if the word is unknown.
const USAGE: &str = "usage: ipld_links [cid|links|refs|cbor]";

/// Runs a word of the program: reads the input to its end, writes the output, and returns how the
/// run ended. A line of the input ends with a line feed, which is optional for the last.
///
/// `cid` reads lines of hexadecimal digits, an even number of either case and at least two. Each
/// line is the bytes of a CID, and the CID's text is written on a line.
///
/// - If every line is the bytes of a CID, the last line written is `ok N` for the number of texts,
///   and the run returns [`Status::Done`].
/// - The first line whose bytes are not a CID ends the output with `refused NAME` for the error,
///   and the run returns [`Status::Refused`].
/// - The first line that is not understood, such as an empty one, ends the output with
///   `bad line K`, counted from 1. The run returns [`Status::NotUnderstood`].
///
/// The lines after that are read too, but ignored.
///
/// `cbor` reads lines as `cid` does, each a block of DAG-CBOR. For each block, it writes the texts
/// of its [links](dag_cbor::DagCborCodec), each on a line, in the order of the block's bytes.
/// `ok N` reports the number of texts. `refused NAME` reports the
/// [`CborError`](dag_cbor::CborError) of the first line whose bytes are not a block.
///
/// `links` and `refs` read lines that are tokens, as below. The tokens have to begin with an item,
/// and those after it are ignored. `links` writes the texts of the links that
/// [`ExtractLinks`](ipld_tokens::ExtractLinks) finds in the item, in the order of the tokens.
/// `refs` writes those of the tree that [`read_ipld`](ipld_tokens::read_ipld) reads, in the order
/// of its walk. Nothing is written before all lines are read.
///
/// - If there is such an item, each text is on a line, then `ok N` follows, and the run returns
///   [`Status::Done`].
/// - If the tokens do not begin with such an item, the only output is `refused NAME`, for the
///   variant of [`TokenError`](ipld_tokens::TokenError), and the run returns [`Status::Refused`].
/// - If a line is not understood, the only output is `bad line K` for the first such line, and the
///   run returns [`Status::NotUnderstood`].
///
/// | line | token |
/// |---|---|
/// | `none`, `unit`, `unitstruct`, `some`, `link`, `seqend`, `mapend` | the one of that name |
/// | `bool true`, `bool false` | `Bool` |
/// | `int N`, `u128 N` | `Int`, `U128` |
/// | `char TEXT` | `Char`; the text is exactly one character |
/// | `str TEXT`, `unitvariant TEXT`, `variant TEXT` | `Str`, `UnitVariant`, `Variant` |
/// | `bytes HEX` | `Bytes` |
/// | `seq`, `seq N`, `map`, `map N` | `Seq`, `Map` without or with a hint |
///
/// HEX is an even number of hexadecimal digits of either case, at least two, or `-` for no bytes.
/// TEXT is HEX whose bytes are UTF-8. N is any number that Rust's `parse` reads at [`i128`],
/// [`u128`] or [`usize`]. Anything else is not understood: another letter case, two blanks, a blank
/// at the end, a carriage return.
///
/// With any other word, nothing is read, the usage line is written, and the run returns
/// [`Status::NotUnderstood`].
///
/// The output is not flushed. For `cid` and `cbor`, the memory is proportional to the longest line,
/// for any length of the input. For `links` and `refs`, it is proportional to the input: a few
/// hundred bytes and the content for each token. No word recurses over its input, so the input may
/// nest to any depth.
///
/// # Errors
///
/// - [`RunFault::Memory`] if an allocation fails, for a line, a text or a value that is read from
///   them.
/// - [`RunFault::Read`] if the reader fails, also after a line that ended the output, or if it
///   doesn't end. The run gives up after 2^64 - 1 lines, 2^64 - 1 buffers of one line or of the
///   input after the output's last line, or 2^64 texts. A read that was interrupted is tried again.
/// - [`RunFault::Write`] if the writer fails, even by a failed allocation.
///
/// Lines that were written before an error stay written.
///
/// # Examples
///
/// ```
/// let mut input: &[u8] = b"01550000\n";
/// let mut output = Vec::new(alloc);
/// let status = ipld_links_run::run(alloc, "cid", &mut input, &mut output)?;
/// // `status` is `Status::Done`, and `output` has the lines `bafkqaaa` and `ok 1`.
/// ```
pub fn run<R: BufRead, W: Write>(
    alloc: Global,
    word: &str,
    reader: &mut R,
    writer: &mut W,
) -> Result<Status, RunFault>
    ensures output { IfOk result (λ status. IfSome (R.remaining reader.old)
        (λ input. Writes (W.contents writer.old) (W.contents writer.new)
        (Output word.now input status))) }
    ensures all_read { IsWord word.now
        → OnOk result (IsReadOut (R.remaining reader.old) (R.remaining reader.new)) }

    // For any reader.
    ensures unknown { (IsWord word.now → ⊥) → MatchResult result
        (λ status. Writes (W.contents writer.old) (W.contents writer.new) (UsageOutput status))
        (λ fault. fault ≡ RunFault.Write) }
    ensures none_read { (IsWord word.now → ⊥) → reader.new ≡ reader.old }
{
    match word {
        "cid" => byte_lines::write_links_of_lines(alloc, Content::Cid, reader, writer),
        "links" => items::write_links_of_tokens(alloc, ReadAs::Item, reader, writer),
        "refs" => items::write_links_of_tokens(alloc, ReadAs::Tree, reader, writer),
        "cbor" => byte_lines::write_links_of_lines(alloc, Content::Block, reader, writer),
        _ => write_usage(writer),
    }
}

fn write_usage<W: Write>(writer: &mut W) -> Result<Status, RunFault>
    ensures { MatchResult result
        (λ status. Writes (W.contents writer.old) (W.contents writer.new) (UsageOutput status))
        (λ fault. fault ≡ RunFault.Write) }
{
    write_line(writer, USAGE.as_bytes())?;
    Ok(Status::NotUnderstood)
}
