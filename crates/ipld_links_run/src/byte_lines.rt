//! The words `cid` and `cbor`: the links in the bytes that lines encode.

ghost use Rattle.std.specs.Prelude.{◌≡◌, ◌+◌, ◌∷◌, ◌++◌, [], length, map, Some, None, IfSome, IfOk, OnOk, MatchBool, MatchResult};
ghost use Rattle.std.specs.Io.KnownBytes.{Appends};
ghost use Rattle.ipld_cid.specs.LinkOf.{link_of};
ghost use Rattle.ipld_cid.specs.Text.{text_of};
ghost use Rattle.ipld_codec.specs.Codec.{IsReadOut};
ghost use Rattle.ipld_codec.specs.LinkIter.{cids_left};
ghost use Rattle.ipld_links_run.specs.ByteLines.{links, rejected, bytes_of_line, cid_reading, block_reading};
ghost use Rattle.ipld_links_run.specs.Output.{LinesOutput, Writes, written};
ghost use Rattle.ipld_links_run.specs.Said.{name_of, reading_of, verdict_of};
ghost use Rattle.ipld_links_run.specs.Verdict.{last_line, status_of};

use crate::digits::decode_digits;
use crate::lines::{read_line, skip_rest, write_texts};
use crate::status::{RunFault, Status};
use crate::verdict::{Rejection, Verdict, write_verdict};
use dag_cbor::{CborError, DagCborCodec};
use ipld_cid::Cid;
use ipld_codec::{LinkIter, Links};
use std::alloc::Global;
use std::io::{BufRead, Write};

/// The expected content of a line's bytes.
#[derive(Clone, Copy)]
pub(crate) enum Content {
    /// A CID.
    Cid,
    /// A block of DAG-CBOR.
    Block,
}

/// Writes the texts of the links of each line, and then how the lines ended. Reads the reader to
/// its end.
pub(crate) fn write_links_of_lines<R: BufRead, W: Write>(
    alloc: Global,
    content: Content,
    reader: &mut R,
    writer: &mut W,
) -> Result<Status, RunFault>
    ensures output { IfOk result (λ status. IfSome (R.remaining reader.old)
        (λ input. Writes (W.contents writer.old) (W.contents writer.new)
        (LinesOutput (reading_of content) input status))) }
    ensures all_read { OnOk result (IsReadOut (R.remaining reader.old) (R.remaining reader.new)) }
{
    let mut line = Vec::new(alloc);
    let mut bytes = Vec::new(alloc);
    let mut found = Vec::new(alloc);
    let mut texts = 0;
    for count in 0..u64::MAX {
        if !read_line(reader, &mut line)? {
            return write_verdict(writer, Verdict::Done(texts));
        }
        if !decode_line(&line, &mut bytes)? {
            return end_output(reader, writer, Verdict::BadLine(count + 1));
        }
        match read_links(alloc, content, &bytes, &mut found)? {
            Ok(()) => texts = write_counted(writer, &found, texts)?,
            Err(rejection) => return end_output(reader, writer, Verdict::Refused(rejection)),
        }
    }
    Err(RunFault::Read)
}

/// Reads a line's hexadecimal digits into `bytes`, whose old content is dropped, and returns
/// whether the line is such digits.
fn decode_line(line: &[u8], bytes: &mut Vec<u8>) -> Result<bool, RunFault>
    ensures { IfOk result (λ understood. MatchBool understood
        (bytes_of_line line.now ≡ Some bytes.new.items) (bytes_of_line line.now ≡ None)) }
{
    if line.is_empty() {
        return Ok(false);
    }
    bytes.resize(line.len() / 2, 0)?;
    Ok(decode_digits(line, bytes))
}

/// Reads the links in the content of the bytes into `found`, whose old content is dropped.
fn read_links(
    alloc: Global,
    content: Content,
    bytes: &[u8],
    found: &mut Vec<Cid>,
) -> Result<Result<(), Rejection>, RunFault>
    ensures { IfOk result (λ outcome. MatchResult outcome
        (λ _. reading_of content bytes.now ≡ links (map link_of found.new.items))
        (λ rejection. reading_of content bytes.now ≡ rejected (name_of rejection))) }
{
    match content {
        Content::Cid => read_cid(bytes, found),
        Content::Block => read_block(alloc, bytes, found),
    }
}

/// Reads a CID, which is its own link.
fn read_cid(bytes: &[u8], found: &mut Vec<Cid>) -> Result<Result<(), Rejection>, RunFault>
    ensures { IfOk result (λ outcome. MatchResult outcome
        (λ _. cid_reading bytes.now ≡ links (map link_of found.new.items))
        (λ rejection. cid_reading bytes.now ≡ rejected (name_of rejection))) }
{
    match Cid::try_from(bytes) {
        Ok(cid) => {
            found.clear();
            found.push(cid)?;
            Ok(Ok(()))
        }
        Err(error) => Ok(Err(Rejection::NoCid(error))),
    }
}

/// Reads the links of a block, or returns its exact error. [`CborError::Memory`] ends the run
/// instead.
fn read_block(
    alloc: Global,
    bytes: &[u8],
    found: &mut Vec<Cid>,
) -> Result<Result<(), Rejection>, RunFault>
    ensures { IfOk result (λ outcome. MatchResult outcome
        (λ _. block_reading bytes.now ≡ links (map link_of found.new.items))
        (λ rejection. block_reading bytes.now ≡ rejected (name_of rejection))) }
{
    match DagCborCodec::links(alloc, bytes) {
        Ok(links) => {
            take_links(links, found)?;
            Ok(Ok(()))
        }
        Err(CborError::Memory) => Err(RunFault::Memory),
        Err(error) => Ok(Err(Rejection::NoBlock(error))),
    }
}

/// Moves the links into `found`, whose old content is dropped.
fn take_links(links: LinkIter, found: &mut Vec<Cid>) -> Result<(), RunFault>
    ensures { OnOk result (found.new.items ≡ cids_left links) }
{
    found.clear();
    for link in links {
        found.push(link)?;
    }
    Ok(())
}

/// Writes the text of each CID on a line of its own, and returns the number of texts, including
/// those written before.
fn write_counted<W: Write>(writer: &mut W, cids: &[Cid], before: u64) -> Result<u64, RunFault>
    ensures { IfOk result (λ count. (count ≡ before + length cids.now)
        × Appends (W.contents writer.old) (W.contents writer.new)
        (written (map text_of (map link_of cids.now)))) }
{
    let Some(count) = before.checked_add(cids.len() as u64) else {
        return Err(RunFault::Read);
    };
    write_texts(writer, cids)?;
    Ok(count)
}

/// Writes how the run ends before the end of the lines, and reads the rest of them.
fn end_output<R: BufRead, W: Write>(
    reader: &mut R,
    writer: &mut W,
    verdict: Verdict,
) -> Result<Status, RunFault>
    ensures written { IfOk result (λ status. (status ≡ status_of (verdict_of verdict))
        × Appends (W.contents writer.old) (W.contents writer.new)
        (last_line (verdict_of verdict) ++ 10 ∷ [])) }
    ensures all_read { OnOk result (IsReadOut (R.remaining reader.old) (R.remaining reader.new)) }
{
    let status = write_verdict(writer, verdict)?;
    skip_rest(reader)?;
    Ok(status)
}
