//! The file or folder at a path.

use crate::arguments::{car_options_of, size_of};
use crate::paths::{split_cid, split_segment};
use clap::ArgMatches;
use ipld_cid::Cid;
use ipld_cli::{
    CarOptions, CarStore, NamedCid, Outcome, OutputError, report, report_out_of_memory,
    report_unwritable,
};
use std::alloc::{AllocError, Global};
use unixfs_files::{BlockStore, FileError, FileErrorKind, PartError};
use unixfs_folders::{FolderErrorKind, FolderWalk, Lookup, LookupStep};

// How many bytes of blocks that have passed are held by default, if the CAR is read once.
const HELD: u64 = 32 << 20;

// The most segments of a path. No argument of a program is longer.
const MOST_SEGMENTS: usize = 1 << 32;

// The most blocks of a look-up: a plain folder is one, and a sharded one has eight levels.
const MOST_LEVELS: usize = 8;

/// How the blocks of a CAR are read.
#[derive(Clone, Copy)]
pub struct StoreOptions {
    /// The options for reading the CAR.
    pub car: CarOptions,
    /// How many bytes of blocks that have passed are held, if the CAR is read once.
    pub held: u64,
}

/// An entry of a folder, with its path from the folder that is listed.
#[derive(Drop)]
pub struct ListedEntry {
    /// The path.
    pub path: String,
    /// The CID of the file, folder or link.
    pub cid: Cid,
}

// Returns the path of an entry in the folder at `folder`.
fn path_of(alloc: Global, folder: &str, name: &str) -> Result<String, AllocError> {
    if folder.is_empty() {
        String::from_str(alloc, name)
    } else {
        format!(in alloc; "{folder}/{name}")
    }
}

/// Appends the entries in the block that a walk over the folder at `folder` wants.
pub fn add_entries(
    alloc: Global,
    walk: &mut FolderWalk,
    block: &[u8],
    folder: &str,
    entries: &mut Vec<ListedEntry>,
) -> Result<(), FolderErrorKind> {
    let found = match walk.take(alloc, block) {
        Ok(found) => found,
        Err(error) => return Err(error),
    };
    for entry in found.iter() {
        let listed = ListedEntry {
            path: path_of(alloc, folder, entry.name)?,
            cid: entry.cid,
        };
        if entries.push(listed).is_err() {
            return Err(FolderErrorKind::Memory);
        }
    }
    Ok(())
}

/// Returns the options for reading the blocks of a CAR: those of CARs, and `--hold`.
pub fn store_options_of(
    rt: &HostRuntime,
    matches: &ArgMatches<'_>,
) -> Result<StoreOptions, Outcome> {
    Ok(StoreOptions {
        car: car_options_of(rt, matches)?,
        held: size_of(rt, matches, "hold")?.unwrap_or(HELD),
    })
}

/// Opens a CAR.
pub fn open_store<'a>(
    rt: &'a HostRuntime,
    file: &'a str,
    options: StoreOptions,
) -> Result<CarStore<'a>, Outcome> {
    CarStore::open(rt, file, options.car, options.held)
}

/// Reports why a file was not written to its end, to standard output if the writer failed.
pub fn report_file_error(
    rt: &HostRuntime,
    store: &CarStore<'_>,
    error: FileError<Outcome>,
) -> Outcome {
    let FileError { cid, kind } = error;
    match kind {
        FileErrorKind::Missing => store.report_missing(&cid),
        FileErrorKind::Store(outcome) => outcome,
        FileErrorKind::Write(error) => report_unwritable(rt, "-", &OutputError::from(error)),
        FileErrorKind::Part(PartError::Memory) => report_out_of_memory(rt, store.file()),
        FileErrorKind::Part(error) => {
            let cid = NamedCid::new(rt.alloc(), &cid);
            report(
                rt,
                store.file(),
                &format_args!("{cid}: {error}"),
                Outcome::NotSo,
            )
        }
    }
}

/// Reports that a block isn't the part of a folder that is wanted.
pub fn report_folder_error(
    rt: &HostRuntime,
    store: &CarStore<'_>,
    cid: &Cid,
    error: &FolderErrorKind,
) -> Outcome {
    if matches!(error, FolderErrorKind::Memory) {
        return report_out_of_memory(rt, store.file());
    }
    let cid = NamedCid::new(rt.alloc(), cid);
    report(
        rt,
        store.file(),
        &format_args!("{cid}: {error}"),
        Outcome::NotSo,
    )
}

// Returns the CID of the entry with this name in a folder. Reports the error if there is none.
fn look_up(
    rt: &HostRuntime,
    store: &mut CarStore<'_>,
    folder: &Cid,
    name: &str,
) -> Result<Cid, Outcome> {
    let mut lookup = Lookup::new(folder, name);
    for _ in 0..MOST_LEVELS {
        let Some(cid) = lookup.wanted() else {
            break;
        };
        let step = match store.block(&cid)? {
            Some(block) => lookup.take(rt.alloc(), block),
            None => return Err(store.report_missing(&cid)),
        };
        match step {
            Ok(LookupStep::Found(entry)) => return Ok(entry),
            Ok(LookupStep::Below) => {}
            Ok(LookupStep::Missing) => break,
            Err(error) => return Err(report_folder_error(rt, store, &cid, &error)),
        }
    }
    let cid = NamedCid::new(rt.alloc(), folder);
    let why = format_args!("{cid}: the folder has no entry '{name}'");
    Err(report(rt, store.file(), &why, Outcome::NotSo))
}

/// Returns the CID of the file or folder at a path. The path begins with a CID, or in the first root
/// of the CAR. Reports the error if it leads to nothing.
pub fn entry_at(rt: &HostRuntime, store: &mut CarStore<'_>, path: &str) -> Result<Cid, Outcome> {
    let (mut cid, mut rest) = match split_cid(path) {
        Some((cid, rest)) => (cid, rest),
        None => match store.first_root() {
            Some(root) => (root, path),
            None => {
                let why = "the CAR has no root; begin the path with the CID of a block";
                return Err(report(rt, store.file(), &why, Outcome::NotSo));
            }
        },
    };
    for _ in 0..MOST_SEGMENTS {
        let (name, others) = split_segment(rest);
        if name.is_empty() {
            break;
        }
        cid = look_up(rt, store, &cid, name)?;
        rest = others;
    }
    Ok(cid)
}
