//! The command that lists the blocks which CARs link to and don't have.

use crate::arguments::car_options_of;
use car_files::{CarFileError, MissingBlocks, Seen, add_car};
use clap::ArgMatches;
use ipld_block::write_links;
use ipld_cid::Cid;
use ipld_cli::{
    BUFFER, CarOptions, Complaints, Outcome, complain, end_writer, hasher_of, json_lines, open_car,
    reads_twice, report_car_error, report_out_of_memory, writes_to_input,
};
use std::io::{self, BufWriter, Write};

/// Runs `ipld car missing`.
pub fn run_missing(rt: &HostRuntime, matches: &ArgMatches<'_>) -> Outcome {
    let Some(files) = matches.get_strs("files") else {
        return Outcome::Failed;
    };
    if reads_twice(rt, files) || writes_to_input(rt, files) {
        return Outcome::Failed;
    }
    let options = match car_options_of(rt, matches) {
        Ok(options) => options,
        Err(outcome) => return outcome,
    };
    let hasher = match hasher_of(rt) {
        Ok(hasher) => hasher,
        Err(outcome) => return outcome,
    };
    let mut index = MissingBlocks::new(rt.alloc(), hasher);
    let added = add_files(rt, files, options, matches.get_flag("progress"), &mut index);
    if !added.is_whole {
        // If a file was not read to its end, the missing blocks are not known.
        return added.outcome;
    }
    let missing = if matches.get_flag("by-cid") {
        index.missing(rt.alloc())
    } else {
        index.missing_by_hash(rt.alloc(), hasher)
    };
    match missing {
        Ok(missing) => write_result(rt, matches.get_flag("json"), &missing, added),
        Err(_) => report_out_of_memory(rt, "the missing blocks"),
    }
}

// Findings in files, other than the blocks that they have and lack.
#[derive(Clone, Copy)]
struct Added {
    // The outcome.
    outcome: Outcome,
    // The number of blocks whose links are not known.
    unknown: u64,
    // Whether each file was read to its end.
    is_whole: bool,
}

// Adds the blocks of these CARs, and reports their errors.
fn add_files(
    rt: &HostRuntime,
    files: &[&str],
    options: CarOptions,
    is_shown: bool,
    index: &mut MissingBlocks,
) -> Added {
    let mut added = Added {
        outcome: Outcome::Done,
        unknown: 0,
        is_whole: true,
    };
    for file in files {
        match add_file(rt, file, options, is_shown, index) {
            Ok(seen) => {
                added.unknown = added.unknown.saturating_add(seen.unknown);
                if seen.invalid > 0 {
                    added.outcome = added.outcome.worse(Outcome::NotSo);
                }
            }
            Err(failed) => {
                added.is_whole = false;
                added.outcome = added.outcome.worse(failed);
            }
        }
    }
    added
}

// Writes the CIDs whose block is missing, and a warning if links are not known.
fn write_result(rt: &HostRuntime, json: bool, missing: &[Cid], added: Added) -> Outcome {
    let written = write_missing(rt, json, missing);
    if written != Outcome::Failed {
        warn_of_unknown(rt, added.unknown);
    }
    added.outcome.worse(written)
}

// Adds the blocks of a CAR, and reports its errors.
fn add_file(
    rt: &HostRuntime,
    file: &str,
    options: CarOptions,
    is_shown: bool,
    index: &mut MissingBlocks,
) -> Result<Seen, Outcome> {
    let mut opened = match open_car(rt, file, options, is_shown) {
        Ok(opened) => opened,
        Err(outcome) => return Err(outcome),
    };
    let Ok(label) = format!(in rt.alloc(); "{file}: ") else {
        return Err(report_out_of_memory(rt, file));
    };
    let mut complaints = Complaints::new(rt);
    let added = add_car(rt.alloc(), index, &mut opened.car, &label, &mut complaints);
    opened.show_end();
    let seen = match added {
        Ok(seen) => seen,
        Err(error) => return Err(report_car_error(rt, file, &error)),
    };
    match opened.check_padding(rt) {
        Outcome::Done => Ok(seen),
        outcome => Err(outcome),
    }
}

// Writes the CIDs whose block is missing.
fn write_missing(rt: &HostRuntime, json: bool, missing: &[Cid]) -> Outcome {
    let found = if missing.is_empty() {
        Outcome::Done
    } else {
        Outcome::NotSo
    };
    // If nobody reads them any more, blocks are missing all the same.
    match write_cids(rt, json, missing) {
        Ok(()) => found,
        Err(error) => found.worse(report_car_error(rt, "standard output", &error)),
    }
}

fn write_cids(rt: &HostRuntime, json: bool, cids: &[Cid]) -> Result<(), CarFileError> {
    let mut writer = BufWriter::with_capacity(rt.alloc(), BUFFER, io::writer(rt))?;
    let written = if json {
        json_lines::write_cids(rt.alloc(), "missing", cids, &mut writer)
    } else {
        write_links(rt.alloc(), cids, &mut writer)
    };
    let flushed = end_writer(writer, written.is_err());
    match written.and(flushed) {
        Ok(()) => Ok(()),
        Err(error) => Err(CarFileError::from(error)),
    }
}

fn warn_of_unknown(rt: &HostRuntime, unknown: u64) {
    if unknown == 1 {
        complain(
            rt,
            &"warning: the links of 1 block are unknown, because its codec is not supported",
        );
    } else if unknown > 1 {
        complain(
            rt,
            &format_args!(
                "warning: the links of {unknown} blocks are unknown, because their codecs are not supported"
            ),
        );
    }
}
