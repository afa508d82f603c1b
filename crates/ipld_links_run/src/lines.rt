//! The lines of a reader and of a writer.

ghost use Rattle.std.specs.Prelude.{◌≡◌, ◌∷◌, ◌++◌, [], map, IfSome, IfOk, IfErr, OnOk};
ghost use Rattle.std.specs.IoError.{error_kind};
ghost use Rattle.std.specs.Io.KnownBytes.{Appends};
ghost use Rattle.ipld_cid.specs.LinkOf.{link_of};
ghost use Rattle.ipld_cid.specs.Text.{text_of};
ghost use Rattle.ipld_codec.specs.Codec.{IsReadOut};
ghost use Rattle.ipld_links_run.specs.Lines.{TakesLine, TakesPart, TakesBuffer};
ghost use Rattle.ipld_links_run.specs.Output.{written};
ghost use Rattle.ipld_links_run.specs.Status.{fault_of};

use crate::status::RunFault;
use ipld_cid::Cid;
use memchr::memchr;
use std::io::{BufRead, Error, ErrorKind, Write};

/// The state of a line that is being read.
#[derive(Clone, Copy)]
pub(crate) enum Part {
    /// More of it may follow.
    Open,
    /// Its line feed was read.
    Ended,
    /// The input is at its end.
    Last,
}

/// Reads the next line into `line` without its line feed, and returns whether there was one. The
/// old content of `line` is dropped.
pub(crate) fn read_line<R: BufRead>(reader: &mut R, line: &mut Vec<u8>) -> Result<bool, RunFault>
    ensures { IfOk result (λ found. IfSome (R.remaining reader.old)
        (λ input. TakesLine input found line.new.items (R.remaining reader.new))) }
{
    line.clear();
    for _ in 0..u64::MAX {
        match read_part(reader, line)? {
            Part::Open => {}
            Part::Ended => return Ok(true),
            Part::Last => return Ok(!line.is_empty()),
        }
    }
    Err(RunFault::Read)
}

/// Appends the buffered part of the line to `line`.
fn read_part<R: BufRead>(reader: &mut R, line: &mut Vec<u8>) -> Result<Part, RunFault>
    ensures { IfOk result (λ part. IfSome (R.remaining reader.old)
        (λ input. TakesPart part line.old.items line.new.items input (R.remaining reader.new))) }
{
    let buffer = match reader.fill_buf() {
        Ok(buffer) => buffer,
        Err(error) if error.kind() == ErrorKind::Interrupted => return Ok(Part::Open),
        Err(error) => return Err(run_fault_of(&error)),
    };
    if buffer.is_empty() {
        return Ok(Part::Last);
    }
    match memchr(b'\n', buffer) {
        Some(end) => {
            line.extend_from_slice(&buffer[..end])?;
            reader.consume(end + 1);
            Ok(Part::Ended)
        }
        None => {
            let count = buffer.len();
            line.extend_from_slice(buffer)?;
            reader.consume(count);
            Ok(Part::Open)
        }
    }
}

/// Reads the reader to its end. Fails if it never ends.
pub(crate) fn skip_rest<R: BufRead>(reader: &mut R) -> Result<(), RunFault>
    ensures { OnOk result (IsReadOut (R.remaining reader.old) (R.remaining reader.new)) }
{
    for _ in 0..u64::MAX {
        if skip_buffer(reader)? {
            return Ok(());
        }
    }
    Err(RunFault::Read)
}

/// Consumes the buffered bytes of the reader, and returns whether it is at its end.
fn skip_buffer<R: BufRead>(reader: &mut R) -> Result<bool, RunFault>
    ensures { IfOk result (λ at_end. TakesBuffer at_end (R.remaining reader.old)
        (R.remaining reader.new)) }
{
    let count = match reader.fill_buf() {
        Ok(buffer) => buffer.len(),
        Err(error) if error.kind() == ErrorKind::Interrupted => return Ok(false),
        Err(error) => return Err(run_fault_of(&error)),
    };
    reader.consume(count);
    Ok(count == 0)
}

// Converts a reader's error: out of memory, or another failure.
fn run_fault_of(error: &Error) -> RunFault
    ensures { result ≡ fault_of (error_kind error.now) }
{
    if error.kind() == ErrorKind::OutOfMemory {
        RunFault::Memory
    } else {
        RunFault::Read
    }
}

/// Writes a line, and a line feed after it.
pub(crate) fn write_line<W: Write>(writer: &mut W, line: &[u8]) -> Result<(), RunFault>
    ensures appends { OnOk result (Appends (W.contents writer.old) (W.contents writer.new)
        (line.now ++ 10 ∷ [])) }
    ensures errors { IfErr result (λ fault. fault ≡ RunFault.Write) }
{
    match writer.write_all(line) {
        Ok(()) => {}
        Err(_) => return Err(RunFault::Write),
    }
    match writer.write_all(b"\n") {
        Ok(()) => Ok(()),
        Err(_) => Err(RunFault::Write),
    }
}

/// Writes the text of a CID on a line.
fn write_text<W: Write>(writer: &mut W, cid: &Cid) -> Result<(), RunFault>
    ensures appends { OnOk result (Appends (W.contents writer.old) (W.contents writer.new)
        (text_of (link_of cid.now) ++ 10 ∷ [])) }
    ensures errors { IfErr result (λ fault. fault ≡ RunFault.Write) }
{
    match writeln!(writer, "{cid}") {
        Ok(()) => Ok(()),
        Err(_) => Err(RunFault::Write),
    }
}

/// Writes the text of each CID on a line of its own.
pub(crate) fn write_texts<W: Write>(writer: &mut W, cids: &[Cid]) -> Result<(), RunFault>
    ensures appends { OnOk result (Appends (W.contents writer.old) (W.contents writer.new)
        (written (map text_of (map link_of cids.now)))) }
    ensures errors { IfErr result (λ fault. fault ≡ RunFault.Write) }
{
    for cid in cids {
        write_text(writer, cid)?;
    }
    Ok(())
}
