//! Messages on standard error. If one can't be written, the exit status still shows the failure.

use crate::messages::{
    Escaped, Explanation, Hint, NoCid, OpeningExplanation, Outcome, SectionExplanation,
    ShowExplanation, WriteFailure,
};
use car_files::CarFileError;
use ipld_block::{BlockCodec, InvalidBlock};
use ipld_car::{CarError, CarErrorKind};
use ipld_cid::Cid;
use ipld_cid_text::{TextError, parse_any};
use ipld_show::ShowError;
use std::io::{self, ErrorKind, Write};
use std::{fmt, str};

// Writes a text on standard error by one call of the system, so that lines of several processes
// don't mix.
fn write_text<D: fmt::Display>(rt: &HostRuntime, text: &D) {
    match format!(in rt.alloc(); "{text}") {
        Ok(text) => {
            let stderr = rt.stderr();
            let _ = io::writer(&stderr).write_all(text.as_bytes());
        }
        Err(_) => {
            let _ = eprint!(rt; "{text}");
        }
    }
}

/// Writes a line that begins with `ipld: ` on standard error. Control characters are escaped, as in
/// the names of files.
pub fn complain<D: fmt::Display>(rt: &HostRuntime, message: &D) {
    let message = Escaped(message);
    write_text(rt, &format_args!("ipld: {message}\n"));
}

/// Reports why `name`, a file or the text of a CID, was not processed, and returns `outcome`.
pub fn report<D: fmt::Display>(rt: &HostRuntime, name: &str, why: &D, outcome: Outcome) -> Outcome {
    let name = if name.is_empty() { "''" } else { name };
    complain(rt, &format_args!("{name}: {why}"));
    outcome
}

/// Reports that a file can't be read.
pub fn report_unreadable(rt: &HostRuntime, file: &str, error: &io::Error) -> Outcome {
    report(rt, file, error, Outcome::Failed)
}

/// Reports that an allocation for `name` failed.
pub fn report_out_of_memory(rt: &HostRuntime, name: &str) -> Outcome {
    report(rt, name, &"out of memory", Outcome::Failed)
}

/// Reports wrong arguments, in the form of other usage errors.
pub fn report_wrong_arguments<D: fmt::Display>(rt: &HostRuntime, why: &D) -> Outcome {
    let why = Escaped(why);
    write_text(
        rt,
        &format_args!("error: {why}\n\nFor more information, try '--help'.\n"),
    );
    Outcome::Failed
}

/// Parses a CID from text, with or without `/ipfs/` or `ipfs://` before it.
pub fn parse_cid(text: &str) -> Result<Cid, TextError> {
    parse_any(text.strip_prefix("ipfs://").unwrap_or(text))
}

/// Parses a CID from text. Reports the error and returns `None` if the text is not a CID.
pub fn parse_cid_argument(rt: &HostRuntime, text: &str) -> Option<Cid> {
    match parse_cid(text) {
        Ok(cid) => Some(cid),
        Err(error) => {
            report(rt, text, &NoCid::new(text, error), Outcome::NotSo);
            None
        }
    }
}

/// Reports why a block was not shown, or why the output `name` failed. Reports nothing if nobody
/// reads the output any more.
pub fn report_show_error(rt: &HostRuntime, name: &str, error: &ShowError) -> Outcome {
    match (Outcome::of(error), error) {
        (Outcome::NotRead, _) => Outcome::NotRead,
        (outcome, ShowError::Write(kind)) => report(rt, name, &WriteFailure(*kind), outcome),
        (outcome, error) => report(rt, name, &ShowExplanation::new("", error), outcome),
    }
}

/// Reports why the bytes of a file are not a block of this codec, and the format that they seem to
/// have.
pub fn report_invalid_block(
    rt: &HostRuntime,
    file: &str,
    codec: BlockCodec,
    bytes: &[u8],
    why: InvalidBlock,
) -> Outcome {
    let hint = Hint::of_no_block(rt.alloc(), codec, bytes);
    let why = Explanation::new(rt.alloc(), bytes, why);
    report(rt, file, &format_args!("{why}{hint}"), Outcome::NotSo)
}

/// Reports an error of a CAR or of standard output. Reports nothing if nobody reads the output any
/// more.
pub fn report_car_error(rt: &HostRuntime, file: &str, error: &CarFileError) -> Outcome {
    match error {
        CarFileError::Write(ErrorKind::BrokenPipe) => Outcome::NotRead,
        CarFileError::Write(kind) => {
            report(rt, "standard output", &WriteFailure(*kind), Outcome::Failed)
        }
        CarFileError::Memory => report_out_of_memory(rt, file),
        CarFileError::Car(error) => {
            report(
                rt,
                file,
                &SectionExplanation(error),
                outcome_of(&error.kind),
            )
        }
    }
}

/// Reports why a file that begins with these bytes is not a CAR.
pub fn report_opening_error(
    rt: &HostRuntime,
    file: &str,
    beginning: &[u8],
    error: &CarError,
) -> Outcome {
    let why = OpeningExplanation::new(rt.alloc(), beginning, error);
    report(rt, file, &why, outcome_of(&error.kind))
}

// Returns the outcome of a command that can't read a CAR. A failed read does not show an error of
// the file.
fn outcome_of(kind: &CarErrorKind) -> Outcome {
    match kind {
        CarErrorKind::Memory | CarErrorKind::Read(_) => Outcome::Failed,
        _ => Outcome::NotSo,
    }
}

/// Standard error as a writer of whole lines, each after `ipld: `, with control characters escaped.
/// It records whether there was one.
#[derive(Drop)]
pub struct Complaints<'a> {
    rt: &'a HostRuntime,
    // The line so far.
    line: Vec<u8>,
    any: bool,
}

impl<'a> Complaints<'a> {
    /// Creates a writer to which nothing was written.
    pub fn new(rt: &'a HostRuntime) -> Complaints<'a> {
        Complaints {
            rt,
            line: Vec::new(rt.alloc()),
            any: false,
        }
    }

    /// Returns whether a line was written.
    pub fn any(&self) -> bool {
        self.any
    }

    // Writes the line, which ends with a line feed.
    fn end_line(&mut self) {
        if let Ok(line) = str::from_utf8(&self.line) {
            complain(self.rt, &line.trim_end_matches('\n'));
        }
        self.line.clear();
        self.any = true;
    }
}

impl<'a> Write for Complaints<'a> {
    fn write(&mut self, buf: &[u8]) -> io::Result<usize> {
        for part in buf.split_inclusive(|byte| *byte == b'\n') {
            self.line.extend_from_slice(part)?;
            if part.ends_with(b"\n") {
                self.end_line();
            }
        }
        Ok(buf.len())
    }

    fn flush(&mut self) -> io::Result<()> {
        Ok(())
    }
}
