//! Looking at the files and folders of a file system.

use crate::error::{PackError, PackErrorKind};
use crate::options::{PackOptions, Symlinks, Top};
use crate::pattern::leave_out;
use crate::tree::{Entries, NodeKind};
use std::alloc::{AllocError, Global};
use std::fs::{self, DirEntry, File, Metadata};
use std::io;
use std::os::unix::fs::{FileExt, MetadataExt};
use unixfs::UnixTime;
use unixfs_build::Attributes;

// The permissions that are packed: those that `chmod` sets.
const PERMISSIONS: u32 = 0o7777;

// What was found at a path.
#[derive(Drop)]
pub(crate) struct Found {
    // The device that it is on, and its number there.
    pub(crate) identity: (u64, u64),
    pub(crate) kind: NodeKind,
    // Its permissions and time, if they are packed.
    pub(crate) attributes: Attributes,
}

// Returns the path of an entry in a folder.
pub(crate) fn joined(alloc: Global, folder: &str, name: &str) -> Result<String, AllocError> {
    if folder.is_empty() || folder.ends_with('/') {
        format!(in alloc; "{folder}{name}")
    } else {
        format!(in alloc; "{folder}/{name}")
    }
}

// Returns the permissions and the time in metadata. A symbolic link has no permissions of its own.
fn attributes_of(metadata: &Metadata) -> Attributes {
    let is_link = metadata.file_type().is_symlink();
    let mode = metadata.mode() & PERMISSIONS;
    Attributes {
        mode: if is_link { None } else { Some(mode) },
        mtime: Some(UnixTime {
            seconds: metadata.mtime(),
            nanoseconds: u32::try_from(metadata.mtime_nsec()).unwrap_or(0),
        }),
    }
}

// Returns the metadata of what the path leads to.
fn metadata_of(
    rt: &HostRuntime,
    path: &str,
    options: &PackOptions<'_>,
) -> Result<Metadata, PackErrorKind> {
    let metadata = match options.symlinks {
        Symlinks::Kept => fs::symlink_metadata(rt, path),
        Symlinks::Followed => fs::metadata(rt, path),
    };
    match metadata {
        Ok(metadata) => Ok(metadata),
        Err(error) => Err(PackErrorKind::of_reading(error)),
    }
}

// Returns what the path leads to.
fn kind_of(rt: &HostRuntime, path: &str, metadata: &Metadata) -> Result<NodeKind, PackErrorKind> {
    let file_type = metadata.file_type();
    if file_type.is_file() {
        Ok(NodeKind::File(metadata.len()))
    } else if file_type.is_dir() {
        Ok(NodeKind::Folder(Entries::NONE))
    } else if file_type.is_symlink() {
        match fs::read_link(rt, path) {
            Ok(target) => {
                let target = String::from_str(rt.alloc(), target.as_path().as_str())?;
                Ok(NodeKind::Link(target))
            }
            Err(error) => Err(PackErrorKind::of_reading(error)),
        }
    } else {
        Err(PackErrorKind::Special)
    }
}

// Returns what was found, with what is packed of its metadata.
fn found_with(metadata: &Metadata, kind: NodeKind, options: &PackOptions<'_>) -> Found {
    Found {
        identity: (metadata.dev(), metadata.ino()),
        kind,
        attributes: if options.preserve {
            attributes_of(metadata)
        } else {
            Attributes::default()
        },
    }
}

// Looks at a top of the tree.
pub(crate) fn look(
    rt: &HostRuntime,
    top: &Top<'_>,
    options: &PackOptions<'_>,
) -> Result<Found, PackErrorKind> {
    let Some(file) = top.file else {
        let metadata = metadata_of(rt, top.path, options)?;
        let kind = kind_of(rt, top.path, &metadata)?;
        return Ok(found_with(&metadata, kind, options));
    };
    match file.metadata() {
        Ok(metadata) => {
            let kind = NodeKind::File(metadata.len());
            Ok(found_with(&metadata, kind, options))
        }
        Err(error) => Err(PackErrorKind::of_reading(error)),
    }
}

// Looks at the entries of a folder, in the order of the system. `inside` is its path below the top
// that it is in.
pub(crate) fn entries_of(
    rt: &HostRuntime,
    folder: &str,
    inside: &str,
    options: &PackOptions<'_>,
) -> Result<Vec<(String, Found)>, PackError> {
    let alloc = rt.alloc();
    let mut entries = Vec::new(alloc);
    let listing = match fs::read_dir(rt, folder) {
        Ok(listing) => listing,
        Err(error) => {
            return Err(PackError::at(alloc, folder, PackErrorKind::of_reading(error)));
        }
    };
    for entry in listing {
        let entry = match entry {
            Ok(entry) => entry,
            Err(error) => {
                return Err(PackError::at(alloc, folder, PackErrorKind::of_reading(error)));
            }
        };
        match look_at_entry(rt, &entry, inside, options) {
            Ok(Some(found)) => {
                if entries.push(found).is_err() {
                    return Err(PackError::memory(alloc));
                }
            }
            Ok(None) => {}
            Err(kind) => return Err(PackError::at(alloc, entry.path().as_str(), kind)),
        }
    }
    Ok(entries)
}

// Looks at an entry of a folder. Returns `None` if it is left out.
fn look_at_entry(
    rt: &HostRuntime,
    entry: &DirEntry,
    inside: &str,
    options: &PackOptions<'_>,
) -> Result<Option<(String, Found)>, PackErrorKind> {
    let name = entry.file_name();
    if name.starts_with('.') && !options.hidden {
        return Ok(None);
    }
    let metadata = metadata_of(rt, entry.path().as_str(), options);
    let is_folder = match &metadata {
        Ok(metadata) => metadata.is_dir(),
        Err(_) => false,
    };
    let below = joined(rt.alloc(), inside, name)?;
    if leave_out(options.ignored, &below, name, is_folder) {
        return Ok(None);
    }
    let metadata = metadata?;
    let kind = kind_of(rt, entry.path().as_str(), &metadata)?;
    let name = String::from_str(rt.alloc(), name)?;
    Ok(Some((name, found_with(&metadata, kind, options))))
}

// Reads from an offset of a file, until the buffer is full or the file ends. Returns how many bytes
// were read.
pub(crate) fn read_full_at(file: &File, buffer: &mut [u8], offset: u64) -> io::Result<usize> {
    let mut len = 0;
    for _ in 0..=buffer.len() {
        let Some(rest) = buffer.get_mut(len..) else {
            break;
        };
        if rest.is_empty() {
            break;
        }
        match file.read_at(rest, offset.saturating_add(len as u64)) {
            Ok(0) => break,
            Ok(count) => len = len.saturating_add(count),
            Err(error) if error.kind() == io::ErrorKind::Interrupted => {}
            Err(error) => return Err(error),
        }
    }
    Ok(len)
}
