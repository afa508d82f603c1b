//! The command that extracts blocks from a CAR file.

use crate::arguments::{car_options_of, cid_texts};
use car_files::CarFileError;
use clap::ArgMatches;
use indexmap::{IndexMap, IndexSet};
use ipld_car::Section;
use ipld_cid::Cid;
use ipld_cli::{
    CarOptions, CheckedBlock, DigestExplanation, MOST_SECTIONS, NamedCid, OpenCar, Outcome,
    OutputError, OutputKind, Syncing, TemporaryName, hasher_of, open_car, open_indexed, output_of,
    parse_cid_argument, report, report_car_error, report_out_of_memory, report_unwritable,
    report_wrong_arguments, shows_progress, sync_folder, write, writes_to_input,
};
use std::fmt;
use std::hash::RandomState;
use std::io::{self, Write};
use std::path::{Path, PathBuf};

// A block that is requested.
#[derive(Clone, Copy)]
struct RequestedBlock<'a> {
    // The CID, and the text that it was given as.
    cid: Cid,
    text: &'a str,
    is_found: bool,
}

// The places of CIDs among the requested blocks.
type Places = IndexMap<Cid, usize, RandomState>;

// The destination of the blocks, and the choice of those that are written.
#[derive(Clone, Copy)]
struct Target<'a, 't> {
    // The CAR.
    file: &'a str,
    // The folder, and the name of its temporary files. Without one, blocks go to standard output.
    folder: Option<(&'a str, &'t TemporaryName)>,
    // Whether existing files are replaced.
    force: bool,
    // Whether a block with another digest is written too.
    is_unchecked: bool,
}

/// Runs `ipld car extract`.
pub fn run_extract(rt: &HostRuntime, matches: &ArgMatches<'_>) -> Outcome {
    let file = matches.get_str("file").unwrap_or("-");
    let texts = match cid_texts(rt, matches, file) {
        Ok(texts) => texts,
        Err(outcome) => return outcome,
    };
    match matches.get_str("directory") {
        Some(folder) => extract_to_folder(rt, matches, folder, &texts),
        None if texts.len() > 1 => {
            let why = "several CIDs require --directory <DIR>, the folder for their blocks";
            report_wrong_arguments(rt, &why)
        }
        None if writes_to_input(rt, &[file]) => Outcome::Failed,
        None => extract_to(rt, matches, target_of(matches, None), &texts),
    }
}

// Writes blocks to files in this folder, and has the system sync them.
fn extract_to_folder<'a>(
    rt: &HostRuntime,
    matches: &ArgMatches<'a>,
    folder: &'a str,
    texts: &[String],
) -> Outcome {
    let temporary = match TemporaryName::new(rt, Path::new(folder), "extract", OutputKind::File) {
        Ok(temporary) => temporary,
        Err(error) => return report_unwritable(rt, folder, &error),
    };
    let target = target_of(matches, Some((folder, &temporary)));
    let outcome = extract_to(rt, matches, target, texts);
    match sync_folder(rt, folder) {
        Ok(()) => outcome,
        // The failed block was reported.
        Err(_) if outcome == Outcome::Failed => outcome,
        Err(error) => outcome.worse(report_unwritable(rt, folder, &error)),
    }
}

// Writes the blocks of these CIDs, or all blocks with `--all`.
fn extract_to(
    rt: &HostRuntime,
    matches: &ArgMatches<'_>,
    target: Target<'_, '_>,
    texts: &[String],
) -> Outcome {
    let options = match car_options_of(rt, matches) {
        Ok(options) => options,
        Err(outcome) => return outcome,
    };
    if matches.get_flag("all") {
        return extract_all(rt, target, options);
    }
    match requested_blocks(rt, texts) {
        Ok((requested, places)) => extract(rt, target, options, requested, &places),
        Err(outcome) => outcome,
    }
}

// Writes each block of a CAR, the first of each CID.
fn extract_all(rt: &HostRuntime, target: Target<'_, '_>, options: CarOptions) -> Outcome {
    let hasher = match hasher_of(rt) {
        Ok(hasher) => hasher,
        Err(outcome) => return outcome,
    };
    let mut opened = match open_car(rt, target.file, options, shows_progress(rt)) {
        Ok(opened) => opened,
        Err(outcome) => return outcome,
    };
    let mut written = IndexSet::with_hasher(rt.alloc(), hasher);
    let mut section = Section::new(rt.alloc());
    let mut outcome = Outcome::Done;
    for _ in 0..MOST_SECTIONS {
        match opened.car.read_section(&mut section) {
            Ok(true) => {}
            Ok(false) => return outcome.worse(opened.check_padding(rt)),
            Err(error) => {
                let error = CarFileError::from(error);
                return outcome.worse(report_car_error(rt, target.file, &error));
            }
        }
        match written.insert(*section.cid()) {
            Ok(true) => {
                let cid = NamedCid::new(rt.alloc(), section.cid());
                outcome = outcome.worse(write_extracted(rt, target, &cid, &section));
            }
            Ok(false) => {}
            Err(_) => return outcome.worse(report_out_of_memory(rt, target.file)),
        }
    }
    Outcome::Failed
}

// Returns the destination in this folder, or standard output.
fn target_of<'a, 't>(
    matches: &ArgMatches<'a>,
    folder: Option<(&'a str, &'t TemporaryName)>,
) -> Target<'a, 't> {
    Target {
        file: matches.get_str("file").unwrap_or("-"),
        folder,
        force: matches.get_flag("force"),
        is_unchecked: matches.get_flag("unchecked"),
    }
}

// Returns the blocks of these CIDs, each once, and their places.
fn requested_blocks<'a>(
    rt: &HostRuntime,
    texts: &'a [String],
) -> Result<(Vec<RequestedBlock<'a>>, Places), Outcome> {
    let hasher = match hasher_of(rt) {
        Ok(hasher) => hasher,
        Err(outcome) => return Err(outcome),
    };
    let mut requested: Vec<RequestedBlock<'a>> = Vec::new(rt.alloc());
    let mut places = IndexMap::with_hasher(rt.alloc(), hasher);
    for text in texts {
        let text = text.as_str();
        let Some(cid) = parse_cid_argument(rt, text) else {
            return Err(Outcome::Failed);
        };
        if places.contains_key(&cid) {
            continue;
        }
        let block = RequestedBlock {
            cid,
            text,
            is_found: false,
        };
        if places.insert(cid, requested.len()).is_err() || requested.push(block).is_err() {
            return Err(report_out_of_memory(rt, text));
        }
    }
    Ok((requested, places))
}

// Writes the requested blocks of a CAR, reads no further than necessary, and reports the missing
// ones.
fn extract(
    rt: &HostRuntime,
    target: Target<'_, '_>,
    options: CarOptions,
    requested: Vec<RequestedBlock<'_>>,
    places: &Places,
) -> Outcome {
    let mut requested = requested;
    let indexed = extract_indexed(rt, target, options, &mut requested);
    let search = extract_found(rt, target, options, &mut requested, places);
    let outcome = indexed.worse(search.outcome);
    if search.is_complete {
        outcome.worse(report_lacking_blocks(rt, target.file, &requested))
    } else {
        outcome
    }
}

// Writes the blocks that the index of the CAR leads to, if it has one. Unchecked, the first block
// of each CID is the one to write, and the index may lead to another. So it is not used then.
fn extract_indexed(
    rt: &HostRuntime,
    target: Target<'_, '_>,
    options: CarOptions,
    requested: &mut Vec<RequestedBlock<'_>>,
) -> Outcome {
    let mut outcome = Outcome::Done;
    if target.is_unchecked {
        return outcome;
    }
    let Some(mut blocks) = open_indexed(rt, target.file, options) else {
        return outcome;
    };
    for block in requested.iter_mut() {
        if let Some(section) = blocks.find_indexed(&block.cid) {
            block.is_found = true;
            outcome = outcome.worse(write_extracted(rt, target, &block.text, &section));
        }
    }
    outcome
}

// The end of a search for blocks.
#[derive(Clone, Copy)]
struct Search {
    outcome: Outcome,
    // Whether the CAR was read up to its end, or up to the last of the blocks.
    is_complete: bool,
}

impl Search {
    // Returns the end of a search that found all blocks or read the whole CAR.
    fn complete(outcome: Outcome) -> Search {
        Search {
            outcome,
            is_complete: true,
        }
    }

    // Returns the end of a search that an error stopped, which was reported.
    fn stopped(outcome: Outcome) -> Search {
        Search {
            outcome,
            is_complete: false,
        }
    }
}

// Writes the blocks that are in the file, the first of each CID.
fn extract_found(
    rt: &HostRuntime,
    target: Target<'_, '_>,
    options: CarOptions,
    requested: &mut Vec<RequestedBlock<'_>>,
    places: &Places,
) -> Search {
    let left = requested.iter().filter(|block| !block.is_found).count();
    if left == 0 {
        return Search::complete(Outcome::Done);
    }
    match open_car(rt, target.file, options, shows_progress(rt)) {
        Ok(opened) => extract_from(rt, target, opened, requested, places, left),
        Err(outcome) => Search::stopped(outcome),
    }
}

// Writes the `count` requested blocks that were not found yet.
fn extract_from(
    rt: &HostRuntime,
    target: Target<'_, '_>,
    opened: OpenCar<'_>,
    requested: &mut Vec<RequestedBlock<'_>>,
    places: &Places,
    count: usize,
) -> Search {
    let (mut opened, mut left) = (opened, count);
    let mut section = Section::new(rt.alloc());
    let mut outcome = Outcome::Done;
    for _ in 0..MOST_SECTIONS {
        if left == 0 {
            return Search::complete(outcome);
        }
        match opened.car.read_section(&mut section) {
            Ok(true) => {}
            Ok(false) => return Search::complete(outcome.worse(opened.check_padding(rt))),
            Err(error) => {
                let error = CarFileError::from(error);
                return Search::stopped(outcome.worse(report_car_error(rt, target.file, &error)));
            }
        }
        if let Some(text) = take_requested(requested, places, section.cid()) {
            left = left.saturating_sub(1);
            outcome = outcome.worse(write_extracted(rt, target, &text, &section));
        }
    }
    Search::stopped(Outcome::Failed)
}

// Returns the text of a requested CID that was not found yet, and marks it as found.
fn take_requested<'a>(
    requested: &mut Vec<RequestedBlock<'a>>,
    places: &Places,
    cid: &Cid,
) -> Option<&'a str> {
    let Some(place) = places.get(cid) else {
        return None;
    };
    match requested.get_mut(*place) {
        Some(block) if !block.is_found => {
            block.is_found = true;
            Some(block.text)
        }
        _ => None,
    }
}

// Reports the missing blocks.
fn report_lacking_blocks(
    rt: &HostRuntime,
    file: &str,
    requested: &[RequestedBlock<'_>],
) -> Outcome {
    let mut outcome = Outcome::Done;
    for block in requested {
        if !block.is_found {
            let text = block.text;
            let why = format_args!("{text}: the CAR has no block with this CID");
            outcome = report(rt, file, &why, Outcome::NotSo);
        }
    }
    outcome
}

// Writes a block, if it matches its CID or is not to be checked. `name` is the CID in messages.
fn write_extracted<D: fmt::Display>(
    rt: &HostRuntime,
    target: Target<'_, '_>,
    name: &D,
    section: &Section,
) -> Outcome {
    let block = match CheckedBlock::new(section.cid(), section.data(), target.is_unchecked) {
        Ok(block) => block,
        Err(error) => {
            let cid = section.cid();
            let why = DigestExplanation { cid, error };
            return report(
                rt,
                target.file,
                &format_args!("{name}: {why}"),
                Outcome::NotSo,
            );
        }
    };
    match target.folder {
        Some((folder, temporary)) => write_in(rt, target, folder, temporary, &block),
        None => match io::writer(rt).write_all(block.bytes()) {
            Ok(()) => Outcome::Done,
            Err(error) => report_unwritable(rt, "-", &OutputError::from(error)),
        },
    }
}

// Returns the path of the file in this folder that has the CID as its name.
fn path_in(rt: &HostRuntime, folder: &str, cid: &Cid) -> Result<PathBuf, Outcome> {
    let cid = NamedCid::new(rt.alloc(), cid);
    let Ok(name) = format!(in rt.alloc(); "{cid}") else {
        return Err(report_out_of_memory(rt, folder));
    };
    match Path::new(folder).join(rt.alloc(), name.as_str()) {
        Ok(path) => Ok(path),
        Err(_) => Err(report_out_of_memory(rt, folder)),
    }
}

// Writes a block as a file in this folder, with its CID as the name.
fn write_in(
    rt: &HostRuntime,
    target: Target<'_, '_>,
    folder: &str,
    temporary: &TemporaryName,
    block: &CheckedBlock<'_>,
) -> Outcome {
    match path_in(rt, folder, block.cid()) {
        Ok(path) => match path.as_path().to_str() {
            Some(path) => write_as(rt, target, path, temporary, block),
            None => Outcome::Failed,
        },
        Err(outcome) => outcome,
    }
}

// Writes a block as a file of this name.
fn write_as(
    rt: &HostRuntime,
    target: Target<'_, '_>,
    name: &str,
    temporary: &TemporaryName,
    block: &CheckedBlock<'_>,
) -> Outcome {
    let output = match output_of(rt, name, target.force, &[target.file]) {
        Ok(output) => output,
        Err(error) => return report_unwritable(rt, name, &error),
    };
    match write(rt, name, output, temporary, Syncing::Together, block) {
        Ok(()) => Outcome::Done,
        Err(error) => report_unwritable(rt, name, &error),
    }
}
