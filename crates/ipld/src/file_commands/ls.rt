//! The command that lists a folder of UnixFS.

use crate::file_commands::entry::{
    ListedEntry, StoreOptions, add_entries, entry_at, open_store, report_folder_error,
    store_options_of,
};
use clap::ArgMatches;
use ipld_block::{VerifyError, verify};
use ipld_cid::{Cid, DAG_PB, RAW};
use ipld_cli::{
    CarStore, DigestExplanation, Escaped, MOST_SECTIONS, NamedCid, Outcome, PerWord, json_lines,
    report, run_over,
};
use ipld_show::ShowError;
use std::alloc::Global;
use std::io::Write;
use unixfs::{Data, DataType, read_unixfs};
use unixfs_files::BlockStore;
use unixfs_folders::FolderWalk;

// A folder has at most this many blocks more than entries.
const FREE_BLOCKS: u64 = 1 << 14;

// The kind of an entry.
#[derive(Clone, Copy, Debug, PartialEq, Eq)]
enum EntryKind {
    File,
    Folder,
    Link,
    // The block isn't in the CAR, or is none of these.
    Unknown,
}

impl EntryKind {
    fn name(self) -> &'static str {
        match self {
            EntryKind::File => "file",
            EntryKind::Folder => "folder",
            EntryKind::Link => "link",
            EntryKind::Unknown => "?",
        }
    }
}

// What the block of an entry says of it.
#[derive(Clone, Copy)]
struct EntryInfo {
    kind: EntryKind,
    // The number of bytes of a file.
    size: Option<u64>,
}

// What is listed, and how.
#[derive(Clone, Copy)]
struct ListRequest<'a> {
    path: &'a str,
    store: StoreOptions,
    is_long: bool,
    json: bool,
    // Whether the folders in the folder are listed too.
    is_recursive: bool,
}

// Returns the entries of a folder, whose paths begin with that of the folder.
fn entries_of(
    rt: &HostRuntime,
    store: &mut CarStore<'_>,
    folder: &ListedEntry,
) -> Result<Vec<ListedEntry>, Outcome> {
    let mut walk = FolderWalk::new(rt.alloc(), &folder.cid);
    let mut entries = Vec::new(rt.alloc());
    for blocks in 0..MOST_SECTIONS {
        let Some(cid) = walk.wanted() else {
            break;
        };
        // Shards without entries, linked over and over, would never end.
        if blocks > FREE_BLOCKS.saturating_add(entries.len() as u64) {
            let cid = NamedCid::new(rt.alloc(), &cid);
            let why = format_args!("{cid}: the folder has too many shards for its entries");
            return Err(report(rt, store.file(), &why, Outcome::NotSo));
        }
        let added = match store.block(&cid)? {
            Some(block) => add_entries(rt.alloc(), &mut walk, block, &folder.path, &mut entries),
            None => return Err(store.report_missing(&cid)),
        };
        match added {
            Ok(()) => {}
            Err(error) => return Err(report_folder_error(rt, store, &cid, &error)),
        }
    }
    Ok(entries)
}

// Returns the size of a file that its message states.
fn stated_size(data: &Data<'_>) -> u64 {
    if let Some(size) = data.filesize {
        return size;
    }
    let mut total = data.data.map_or(0, |content| content.len() as u64);
    for size in data.blocksizes.iter() {
        total = total.saturating_add(*size);
    }
    total
}

// Returns what a node of DAG-PB says of an entry.
fn info_of_node(alloc: Global, block: &[u8]) -> EntryInfo {
    let Ok(node) = read_unixfs(alloc, block) else {
        return EntryInfo {
            kind: EntryKind::Unknown,
            size: None,
        };
    };
    match node.data.data_type {
        DataType::Raw | DataType::File => EntryInfo {
            kind: EntryKind::File,
            size: Some(stated_size(&node.data)),
        },
        DataType::Directory | DataType::HamtShard => EntryInfo {
            kind: EntryKind::Folder,
            size: None,
        },
        DataType::Symlink => EntryInfo {
            kind: EntryKind::Link,
            size: None,
        },
        DataType::Metadata => EntryInfo {
            kind: EntryKind::Unknown,
            size: None,
        },
    }
}

// Returns what the block of a CID says of an entry.
fn info_in(alloc: Global, cid: &Cid, block: &[u8]) -> Result<EntryInfo, VerifyError> {
    verify(cid, block)?;
    Ok(match cid.codec() {
        RAW => EntryInfo {
            kind: EntryKind::File,
            size: Some(block.len() as u64),
        },
        DAG_PB => info_of_node(alloc, block),
        _ => EntryInfo {
            kind: EntryKind::Unknown,
            size: None,
        },
    })
}

// Returns what is known of an entry. Reports a block that isn't known to be that of its CID, and
// makes `worst` worse.
fn info_of(
    rt: &HostRuntime,
    store: &mut CarStore<'_>,
    cid: &Cid,
    worst: &mut Outcome,
) -> Result<EntryInfo, Outcome> {
    let unknown = EntryInfo {
        kind: EntryKind::Unknown,
        size: None,
    };
    let info = match store.block(cid)? {
        Some(block) => info_in(rt.alloc(), cid, block),
        None => return Ok(unknown),
    };
    match info {
        Ok(info) => Ok(info),
        Err(error) => {
            let named = NamedCid::new(rt.alloc(), cid);
            let why = DigestExplanation { cid, error };
            let outcome = report(
                rt,
                store.file(),
                &format_args!("{named}: {why}"),
                Outcome::NotSo,
            );
            *worst = worst.worse(outcome);
            Ok(unknown)
        }
    }
}

impl<'a> ListRequest<'a> {
    // Writes the line of an entry.
    fn write_entry<W: Write>(
        &self,
        alloc: Global,
        entry: &ListedEntry,
        info: EntryInfo,
        writer: &mut W,
    ) -> Result<(), ShowError> {
        let kind = info.kind.name();
        if self.json {
            json_lines::write_entry(alloc, &entry.path, &entry.cid, kind, info.size, writer)?;
            return Ok(());
        }
        let path = Escaped(&entry.path);
        if !self.is_long {
            writeln!(writer, "{path}")?;
            return Ok(());
        }
        let cid = NamedCid::new(alloc, &entry.cid);
        match info.size {
            Some(size) => writeln!(writer, "{kind}\t{size}\t{cid}\t{path}")?,
            None => writeln!(writer, "{kind}\t-\t{cid}\t{path}")?,
        }
        Ok(())
    }

    // Writes the lines of these entries, and returns the folders among them, the first of them last.
    fn write_entries<W: Write>(
        &self,
        rt: &HostRuntime,
        store: &mut CarStore<'_>,
        entries: Vec<ListedEntry>,
        worst: &mut Outcome,
        writer: &mut W,
    ) -> Result<Result<Vec<ListedEntry>, Outcome>, ShowError> {
        let mut folders = Vec::new(rt.alloc());
        let needs_info = self.is_long || self.json || self.is_recursive;
        for entry in entries {
            let info = if needs_info {
                match info_of(rt, store, &entry.cid, worst) {
                    Ok(info) => info,
                    Err(outcome) => return Ok(Err(outcome)),
                }
            } else {
                EntryInfo {
                    kind: EntryKind::Unknown,
                    size: None,
                }
            };
            self.write_entry(rt.alloc(), &entry, info, writer)?;
            if self.is_recursive && info.kind == EntryKind::Folder {
                folders.push(entry)?;
            }
        }
        folders.reverse();
        Ok(Ok(folders))
    }

    // Lists a folder, and the folders below it if they are requested.
    fn list<W: Write>(
        &self,
        rt: &HostRuntime,
        store: &mut CarStore<'_>,
        root: Cid,
        writer: &mut W,
    ) -> Result<Outcome, ShowError> {
        let mut worst = Outcome::Done;
        let mut waiting = Vec::new(rt.alloc());
        let top = ListedEntry {
            path: String::new(rt.alloc()),
            cid: root,
        };
        waiting.push(top)?;
        for _ in 0..MOST_SECTIONS {
            let Some(folder) = waiting.pop() else {
                break;
            };
            let entries = match entries_of(rt, store, &folder) {
                Ok(entries) => entries,
                Err(outcome) => {
                    worst = worst.worse(outcome);
                    continue;
                }
            };
            match self.write_entries(rt, store, entries, &mut worst, writer)? {
                Ok(mut folders) => waiting.append(&mut folders)?,
                Err(outcome) => return Ok(worst.worse(outcome)),
            }
        }
        Ok(worst)
    }
}

impl<'a> PerWord for ListRequest<'a> {
    fn run<W: Write>(
        &self,
        rt: &HostRuntime,
        file: &str,
        writer: &mut W,
    ) -> Result<Outcome, ShowError> {
        let mut store = match open_store(rt, file, self.store) {
            Ok(store) => store,
            Err(outcome) => return Ok(outcome),
        };
        match entry_at(rt, &mut store, self.path) {
            Ok(folder) => self.list(rt, &mut store, folder, writer),
            Err(outcome) => Ok(outcome),
        }
    }
}

/// Runs `ipld ls`.
pub fn run_ls(rt: &HostRuntime, matches: &ArgMatches<'_>) -> Outcome {
    let store = match store_options_of(rt, matches) {
        Ok(options) => options,
        Err(outcome) => return outcome,
    };
    let request = ListRequest {
        path: matches.get_str("path").unwrap_or(""),
        store,
        is_long: matches.get_flag("long"),
        json: matches.get_flag("json"),
        is_recursive: matches.get_flag("recursive"),
    };
    run_over(rt, &[matches.get_str("file").unwrap_or("-")], &request)
}
