//! The command that writes a file of UnixFS.

use crate::arguments::{count_of, size_of};
use crate::file_commands::entry::{entry_at, open_store, report_file_error, store_options_of};
use clap::ArgMatches;
use ipld_cid::Cid;
use ipld_cli::{
    BUFFER, CarStore, Outcome, OutputError, end_writer, report_out_of_memory, report_unwritable,
    writes_to_input,
};
use std::io::{self, BufWriter};
use unixfs_files::{FileErrorKind, FileLimits, FileRange, write_file};

// Returns the range of the file that `--offset` and `--length` ask for.
fn range_of(rt: &HostRuntime, matches: &ArgMatches<'_>) -> Result<FileRange, Outcome> {
    Ok(FileRange {
        start: count_of(rt, matches, "offset")?.unwrap_or(0),
        length: count_of(rt, matches, "length")?,
    })
}

// Writes a range of the file of a CID to standard output.
fn write_content(
    rt: &HostRuntime,
    store: &mut CarStore<'_>,
    cid: &Cid,
    range: FileRange,
    limits: &FileLimits,
) -> Outcome {
    let Ok(mut writer) = BufWriter::with_capacity(rt.alloc(), BUFFER, io::writer(rt)) else {
        return report_out_of_memory(rt, "standard output");
    };
    let written = write_file(rt.alloc(), cid, range, limits, store, &mut writer);
    let has_failed = match &written {
        Ok(()) => false,
        Err(error) => matches!(&error.kind, FileErrorKind::Write(_)),
    };
    let flushed = end_writer(writer, has_failed);
    let outcome = match written {
        Ok(()) => Outcome::Done,
        Err(error) => report_file_error(rt, store, error),
    };
    match flushed {
        Ok(()) => outcome,
        Err(error) => outcome.worse(report_unwritable(rt, "-", &OutputError::from(error))),
    }
}

/// Runs `ipld cat`.
pub fn run_cat(rt: &HostRuntime, matches: &ArgMatches<'_>) -> Outcome {
    let bytes = match size_of(rt, matches, "max-size") {
        Ok(size) => size.unwrap_or(u64::MAX),
        Err(outcome) => return outcome,
    };
    let range = match range_of(rt, matches) {
        Ok(range) => range,
        Err(outcome) => return outcome,
    };
    let file = matches.get_str("file").unwrap_or("-");
    if writes_to_input(rt, &[file]) {
        return Outcome::Failed;
    }
    let opened = match store_options_of(rt, matches) {
        Ok(options) => open_store(rt, file, options),
        Err(outcome) => return outcome,
    };
    let mut store = match opened {
        Ok(store) => store,
        Err(outcome) => return outcome,
    };
    let path = matches.get_str("path").unwrap_or("");
    let cid = match entry_at(rt, &mut store, path) {
        Ok(cid) => cid,
        Err(outcome) => return outcome,
    };
    let limits = FileLimits {
        bytes,
        ..FileLimits::DEFAULT
    };
    write_content(rt, &mut store, &cid, range, &limits)
}
