//! The command that writes a folder of UnixFS as files and folders.

use crate::arguments::size_of;
use crate::file_commands::entry::{
    ListedEntry, add_entries, entry_at, open_store, report_file_error, report_folder_error,
    store_options_of,
};
use clap::ArgMatches;
use ipld_block::verify;
use ipld_cid::{Cid, DAG_PB};
use ipld_cli::{
    CarStore, Escaped, MOST_SECTIONS, NamedCid, NewFolder, Outcome, OutputError, complain, report,
    report_out_of_memory, report_unwritable,
};
use std::alloc::Global;
use std::cell::Cell;
use std::fs::{self, File, Permissions};
use std::io::{self, Write};
use std::os::unix::fs::{PermissionsExt, symlink};
use std::time::{Duration, SystemTime};
use std::{fmt, str};
use unixfs::{Data, DataType, UnixTime, read_unixfs};
use unixfs_files::{
    BlockStore, FileError, FileErrorKind, FileLimits, FileRange, PartError, write_file,
};
use unixfs_folders::{FolderWalk, stays_inside};

// How many bytes are written at most by default, and how many each entry counts for beside its
// bytes.
const MAX_SIZE: u64 = 64 << 30;

const ENTRY_SIZE: u64 = 4096;

// Each block that is read is paid for by bytes that were written, or by entries, except the first
// 16,384 of them. So blocks without content, linked over and over, end soon.
const BLOCK_COST: u64 = 256;

const FREE_BLOCKS: u64 = 1 << 14;

// The most bytes of the target of a symbolic link in Linux.
const MAX_TARGET: usize = 4095;

// The permissions that a folder's owner needs in it.
const OWN: u32 = 0o700;

// What becomes of symbolic links that lead out of the folder.
#[derive(Clone, Copy, Debug, PartialEq, Eq)]
enum OutsideLinks {
    // They are errors.
    Refused,
    // They are left out.
    Skipped,
    // They are made.
    Made,
}

// The permissions and the time of a file or a folder, as far as its block has them.
#[derive(Clone, Copy, Default)]
struct Attributes {
    mode: Option<u32>,
    mtime: Option<SystemTime>,
}

// A folder that isn't complete yet.
#[derive(Drop)]
struct OpenFolder {
    walk: FolderWalk,
    // The entries of the block that was read last, the next of them last.
    entries: Vec<ListedEntry>,
    path: String,
    attributes: Attributes,
}

// The blocks of a CAR, as far as they are paid for.
#[derive(Drop)]
struct PaidBlocks<'a> {
    rt: &'a HostRuntime,
    store: CarStore<'a>,
    // The number of bytes that no block has taken.
    paid: &'a Cell<u64>,
}

impl<'a> BlockStore for PaidBlocks<'a> {
    type Fault = Outcome;

    fn block(&mut self, cid: &Cid) -> Result<Option<&[u8]>, Outcome> {
        let Some(left) = self.paid.get().checked_sub(BLOCK_COST) else {
            let named = NamedCid::new(self.rt.alloc(), cid);
            let why = format_args!("{named}: too many blocks for what is in them");
            return Err(report(self.rt, self.store.file(), &why, Outcome::NotSo));
        };
        self.paid.set(left);
        self.store.block(cid)
    }
}

// A file that is created when its first bytes are written.
#[derive(Drop)]
struct NewFile<'a> {
    rt: &'a HostRuntime,
    path: &'a str,
    paid: &'a Cell<u64>,
    file: Option<File>,
    len: u64,
}

impl<'a> NewFile<'a> {
    // Returns the file, which is created if nothing was written.
    fn into_file(self) -> io::Result<File> {
        match self.file {
            Some(file) => Ok(file),
            None => File::create_new(self.rt, self.path),
        }
    }
}

impl<'a> Write for NewFile<'a> {
    fn write(&mut self, bytes: &[u8]) -> io::Result<usize> {
        if self.file.is_none() {
            self.file = Some(File::create_new(self.rt, self.path)?);
        }
        match &mut self.file {
            Some(file) => {
                let count = file.write(bytes)?;
                self.len = self.len.saturating_add(count as u64);
                self.paid.set(self.paid.get().saturating_add(count as u64));
                Ok(count)
            }
            None => Ok(0),
        }
    }

    fn flush(&mut self) -> io::Result<()> {
        Ok(())
    }
}

// A folder that is being unpacked.
#[derive(Drop)]
struct Unpacking<'a> {
    rt: &'a HostRuntime,
    blocks: PaidBlocks<'a>,
    // The name of the folder in messages.
    name: &'a str,
    outside_links: OutsideLinks,
    // Whether permissions and times are set.
    preserve: bool,
    // How many bytes may still be written.
    left: u64,
    // The path of the entry that is made. It begins with that of the whole folder, of this length.
    path: String,
    top_len: usize,
    // The folders that don't wait for others.
    folders: Vec<OpenFolder>,
    // Folders in which their owner may not do everything, and their permissions. They get them at
    // the end, those in a folder before the folder.
    closed: Vec<(String, u32)>,
    // The permissions of the whole folder, which it gets with its name.
    top_mode: Option<u32>,
}

// Returns a time of UnixFS as the system has it, if it isn't before 1970.
fn time_of(time: UnixTime) -> Option<SystemTime> {
    let seconds = u64::try_from(time.seconds).ok()?;
    SystemTime::UNIX_EPOCH.checked_add(Duration::new(seconds, time.nanoseconds))
}

// Returns the permissions and the time in a message. The bits that give a program the rights of its
// owner are left out.
fn attributes_in(data: &Data<'_>) -> Attributes {
    Attributes {
        mode: data.mode.map(|mode| mode & 0o777),
        mtime: data.mtime.and_then(time_of),
    }
}

// Returns the attributes in the block of a CID.
fn attributes_of(alloc: Global, cid: &Cid, block: &[u8]) -> Attributes {
    if cid.codec() != DAG_PB || verify(cid, block).is_err() {
        return Attributes::default();
    }
    match read_unixfs(alloc, block) {
        Ok(node) => attributes_in(&node.data),
        Err(_) => Attributes::default(),
    }
}

// Returns the target of the symbolic link in the block of a CID, if it is one that a link can have.
fn target_of(alloc: Global, cid: &Cid, block: &[u8]) -> Option<String> {
    if verify(cid, block).is_err() {
        return None;
    }
    let node = read_unixfs(alloc, block).ok()?;
    let target = str::from_utf8(node.data.data?).ok()?;
    if target.is_empty() || target.len() > MAX_TARGET || target.contains('\0') {
        return None;
    }
    String::from_str(alloc, target).ok()
}

// Sets the attributes of a file or a folder.
fn set_attributes(file: &File, attributes: Attributes) -> io::Result<()> {
    if let Some(mtime) = attributes.mtime {
        file.set_modified(mtime)?;
    }
    match attributes.mode {
        Some(mode) => file.set_permissions(Permissions::from_mode(mode)),
        None => Ok(()),
    }
}

// Writes the file of a CID to a new file of this name, and returns it with the number of its bytes.
fn write_new_file(
    rt: &HostRuntime,
    blocks: &mut PaidBlocks<'_>,
    cid: &Cid,
    limits: &FileLimits,
    path: &str,
) -> Result<(File, u64), FileError<Outcome>> {
    let mut file = NewFile {
        rt,
        path,
        paid: blocks.paid,
        file: None,
        len: 0,
    };
    write_file(rt.alloc(), cid, FileRange::WHOLE, limits, blocks, &mut file)?;
    let len = file.len;
    match file.into_file() {
        Ok(file) => Ok((file, len)),
        Err(error) => Err(FileError {
            cid: *cid,
            kind: FileErrorKind::Write(error),
        }),
    }
}

impl<'a> Unpacking<'a> {
    // Reports why the entry at the path can't be made.
    fn report_entry<D: fmt::Display>(&self, why: &D, outcome: Outcome) -> Outcome {
        let (name, entry) = (self.name, self.path.get(self.top_len..).unwrap_or(""));
        complain(self.rt, &format_args!("{name}{entry}: {why}"));
        outcome
    }

    // Reports that an entry makes the folder too large.
    fn report_size(&self, cid: &Cid) -> Outcome {
        let named = NamedCid::new(self.rt.alloc(), cid);
        let why = format_args!("{named}: the folder is larger than --max-size");
        report(self.rt, self.blocks.store.file(), &why, Outcome::NotSo)
    }

    fn report_system(&self, error: io::Error) -> Outcome {
        self.report_entry(&OutputError::from(error), Outcome::Failed)
    }

    // Returns the attributes of an entry, if they are to be set.
    fn attributes(&mut self, cid: &Cid) -> Result<Attributes, Outcome> {
        if !self.preserve {
            return Ok(Attributes::default());
        }
        match self.blocks.block(cid)? {
            Some(block) => Ok(attributes_of(self.rt.alloc(), cid, block)),
            None => Err(self.blocks.store.report_missing(cid)),
        }
    }

    // Makes an entry at the path. A folder is begun.
    fn make(&mut self, cid: &Cid) -> Result<(), Outcome> {
        let Some(left) = self.left.checked_sub(ENTRY_SIZE) else {
            return Err(self.report_size(cid));
        };
        self.left = left;
        let paid = self.blocks.paid;
        paid.set(paid.get().saturating_add(ENTRY_SIZE));
        let attributes = self.attributes(cid)?;
        let limits = FileLimits {
            bytes: left,
            ..FileLimits::DEFAULT
        };
        match write_new_file(self.rt, &mut self.blocks, cid, &limits, &self.path) {
            Ok((file, len)) => {
                self.left = left.saturating_sub(len);
                match set_attributes(&file, attributes) {
                    Ok(()) => Ok(()),
                    Err(error) => Err(self.report_system(error)),
                }
            }
            Err(
                FileError {
                    cid: at,
                    kind: FileErrorKind::Part(PartError::NotFile(data_type)),
                },
            ) if at == *cid => self.make_other(cid, data_type, attributes),
            Err(
                FileError {
                    kind: FileErrorKind::Write(error),
                    ..
                },
            ) => Err(self.report_system(error)),
            Err(error) => Err(report_file_error(self.rt, &self.blocks.store, error)),
        }
    }

    // Makes an entry that isn't a file.
    fn make_other(
        &mut self,
        cid: &Cid,
        data_type: DataType,
        attributes: Attributes,
    ) -> Result<(), Outcome> {
        match data_type {
            DataType::Directory | DataType::HamtShard => self.make_folder(cid, attributes),
            DataType::Symlink => self.make_link(cid),
            DataType::Raw | DataType::File | DataType::Metadata => {
                let named = NamedCid::new(self.rt.alloc(), cid);
                let why = format_args!("{named}: neither a file, a folder nor a symbolic link");
                Err(report(self.rt, self.blocks.store.file(), &why, Outcome::NotSo))
            }
        }
    }

    // Makes an empty folder at the path, whose entries are made next.
    fn make_folder(&mut self, cid: &Cid, attributes: Attributes) -> Result<(), Outcome> {
        match fs::create_dir(self.rt, &self.path) {
            Ok(()) => {}
            Err(error) => return Err(self.report_system(error)),
        }
        self.open_folder(cid, attributes)
    }

    // Begins with the entries of the folder at the path. It must be a folder, and not a link to one.
    fn open_folder(&mut self, cid: &Cid, attributes: Attributes) -> Result<(), Outcome> {
        match fs::symlink_metadata(self.rt, &self.path) {
            Ok(metadata) if metadata.is_dir() => {}
            Ok(_) => {
                let why = "another process replaced the folder";
                return Err(self.report_entry(&why, Outcome::Failed));
            }
            Err(error) => return Err(self.report_system(error)),
        }
        let Ok(path) = String::from_str(self.rt.alloc(), &self.path) else {
            return Err(report_out_of_memory(self.rt, self.name));
        };
        let folder = OpenFolder {
            walk: FolderWalk::new(self.rt.alloc(), cid),
            entries: Vec::new(self.rt.alloc()),
            path,
            attributes,
        };
        match self.folders.push(folder) {
            Ok(()) => Ok(()),
            Err(_) => Err(report_out_of_memory(self.rt, self.name)),
        }
    }

    // Makes a symbolic link at the path.
    fn make_link(&mut self, cid: &Cid) -> Result<(), Outcome> {
        let target = match self.blocks.block(cid)? {
            Some(block) => target_of(self.rt.alloc(), cid, block),
            None => return Err(self.blocks.store.report_missing(cid)),
        };
        let Some(target) = target else {
            let why = "a symbolic link has 1 to 4,095 bytes of UTF-8 without NUL as its target";
            return Err(self.report_entry(&why, Outcome::NotSo));
        };
        // The folder at the top is the first of them.
        let depth = self.folders.len().saturating_sub(1);
        if !stays_inside(&target, depth) {
            let quoted = Escaped(&target);
            match self.outside_links {
                OutsideLinks::Refused => {
                    let why = format_args!(
                        "the symbolic link to '{quoted}' may lead out of the folder: --symlinks skip leaves such links out, and any makes them"
                    );
                    return Err(self.report_entry(&why, Outcome::NotSo));
                }
                OutsideLinks::Skipped => {
                    let why = format_args!(
                        "left out: the symbolic link to '{quoted}' may lead out of the folder"
                    );
                    self.report_entry(&why, Outcome::Done);
                    return Ok(());
                }
                OutsideLinks::Made => {}
            }
        }
        match symlink(self.rt, &target, &self.path) {
            Ok(()) => Ok(()),
            Err(error) => Err(self.report_system(error)),
        }
    }

    // Ends with the innermost folder, which is complete.
    fn close_folder(&mut self) -> Result<(), Outcome> {
        let Some(folder) = self.folders.pop() else {
            return Ok(());
        };
        let Attributes { mut mode, mtime } = folder.attributes;
        self.path = folder.path;
        if self.folders.is_empty() {
            self.top_mode = mode.take();
        } else if let Some(late) = mode.take_if(|mode| *mode & OWN != OWN) {
            self.close_later(late)?;
        }
        if mode.is_none() && mtime.is_none() {
            return Ok(());
        }
        let set = match fs::open(self.rt, &self.path) {
            Ok(file) => set_attributes(&file, Attributes { mode, mtime }),
            Err(error) => Err(error),
        };
        match set {
            Ok(()) => Ok(()),
            Err(error) => Err(self.report_system(error)),
        }
    }

    // Has the folder at the path get these permissions at the end.
    fn close_later(&mut self, mode: u32) -> Result<(), Outcome> {
        let path = match String::from_str(self.rt.alloc(), &self.path) {
            Ok(path) => path,
            Err(_) => return Err(report_out_of_memory(self.rt, self.name)),
        };
        match self.closed.push((path, mode)) {
            Ok(()) => Ok(()),
            Err(_) => Err(report_out_of_memory(self.rt, self.name)),
        }
    }

    // Reads the entries of the block that the innermost folder wants.
    fn read_entries(&mut self, cid: &Cid) -> Result<(), Outcome> {
        let Some(folder) = self.folders.last_mut() else {
            return Ok(());
        };
        let taken = match self.blocks.block(cid)? {
            Some(block) => {
                let (walk, entries) = (&mut folder.walk, &mut folder.entries);
                add_entries(self.rt.alloc(), walk, block, "", entries)
            }
            None => return Err(self.blocks.store.report_missing(cid)),
        };
        match taken {
            Ok(()) => {
                folder.entries.reverse();
                Ok(())
            }
            Err(error) => Err(report_folder_error(self.rt, &self.blocks.store, cid, &error)),
        }
    }

    // Makes the next entry, or ends with a folder. Returns false if all is made.
    fn step(&mut self) -> Result<bool, Outcome> {
        let Some(folder) = self.folders.last_mut() else {
            return Ok(false);
        };
        if let Some(entry) = folder.entries.pop() {
            let (above, name) = (&folder.path, &entry.path);
            match format!(in self.rt.alloc(); "{above}/{name}") {
                Ok(path) => self.path = path,
                Err(_) => return Err(report_out_of_memory(self.rt, self.name)),
            }
            self.make(&entry.cid)?;
        } else if let Some(cid) = folder.walk.wanted() {
            self.read_entries(&cid)?;
        } else {
            self.close_folder()?;
        }
        Ok(true)
    }

    // Sets the permissions that close a folder to its owner.
    fn close_all(&mut self) -> Result<(), Outcome> {
        for (path, mode) in self.closed.iter() {
            let permissions = Permissions::from_mode(*mode);
            if let Err(error) = fs::set_permissions(self.rt, path, permissions) {
                return Err(report_unwritable(self.rt, self.name, &OutputError::from(error)));
            }
        }
        Ok(())
    }

    // Opens the folders to their owner again, so that they can be removed.
    fn open_all(&self) {
        for (path, _) in self.closed.iter().rev() {
            let _ = fs::set_permissions(self.rt, path, Permissions::from_mode(OWN));
        }
    }

    // Makes all that is in the folder of a CID.
    fn make_all(&mut self, root: &Cid) -> Result<(), Outcome> {
        let attributes = self.attributes(root)?;
        self.open_folder(root, attributes)?;
        for _ in 0..MOST_SECTIONS {
            if !self.step()? {
                return self.close_all();
            }
        }
        Err(Outcome::Failed)
    }
}

// Unpacks the folder at the path in the arguments into a new folder, and gives that its name.
fn unpack_into<'a>(
    rt: &'a HostRuntime,
    matches: &ArgMatches<'a>,
    store: CarStore<'a>,
    folder: &NewFolder,
) -> Result<(), Outcome> {
    let mut store = store;
    let name = matches.get_str("directory").unwrap_or("");
    let root = entry_at(rt, &mut store, matches.get_str("path").unwrap_or(""))?;
    let Ok(path) = String::from_str(rt.alloc(), folder.path()) else {
        return Err(report_out_of_memory(rt, name));
    };
    let paid = Cell::new(FREE_BLOCKS * BLOCK_COST);
    let mut unpacking = Unpacking {
        rt,
        blocks: PaidBlocks {
            rt,
            store,
            paid: &paid,
        },
        name,
        outside_links: match matches.get_str("symlinks") {
            Some("any") => OutsideLinks::Made,
            Some("skip") => OutsideLinks::Skipped,
            _ => OutsideLinks::Refused,
        },
        preserve: matches.get_flag("preserve"),
        left: size_of(rt, matches, "max-size")?.unwrap_or(MAX_SIZE),
        top_len: path.len(),
        path,
        folders: Vec::new(rt.alloc()),
        closed: Vec::new(rt.alloc()),
        top_mode: None,
    };
    let made = match unpacking.make_all(&root) {
        Ok(()) => match folder.finish(rt, unpacking.top_mode) {
            Ok(()) => Ok(()),
            Err(error) => Err(report_unwritable(rt, name, &error)),
        },
        Err(outcome) => Err(outcome),
    };
    if made.is_err() {
        unpacking.open_all();
    }
    made
}

/// Runs `ipld unpack`.
pub fn run_unpack<'a>(rt: &'a HostRuntime, matches: &ArgMatches<'a>) -> Outcome {
    let file = matches.get_str("file").unwrap_or("-");
    let name = matches.get_str("directory").unwrap_or("");
    let opened = match store_options_of(rt, matches) {
        Ok(options) => open_store(rt, file, options),
        Err(outcome) => return outcome,
    };
    let store = match opened {
        Ok(store) => store,
        Err(outcome) => return outcome,
    };
    let folder = match NewFolder::create(rt, name) {
        Ok(folder) => folder,
        Err(error) => return report_unwritable(rt, name, &error),
    };
    match unpack_into(rt, matches, store, &folder) {
        Ok(()) => Outcome::Done,
        Err(outcome) => {
            folder.remove(rt);
            outcome
        }
    }
}
