//! A folder that is made under another name, and gets its own name when it is complete.

use crate::output::{NAMES, OutputError, OutputKind, TemporaryName, folder_of, holds};
use std::fs::{self, DirBuilder, File, Permissions};
use std::io::{self, ErrorKind};
use std::os::unix::fs::{DirBuilderExt, MetadataExt, PermissionsExt};
use std::path::{Path, PathBuf};

// The permissions to write of a folder's group and of all others.
const OTHERS_WRITE: u32 = 0o022;

// In a folder with this bit, others can't rename or remove what isn't theirs.
const STICKY: u32 = 0o1000;

// The permissions of a folder while it is made: its owner's.
const OWN: u32 = 0o700;

/// A folder that is being made. It has a temporary name in the same folder, and only its owner can
/// open it. A run that is killed leaves it, and the next run for the same name removes it.
#[derive(Drop)]
pub struct NewFolder {
    // It stays open, and so locked, until it has its final name.
    handle: File,
    temporary: PathBuf,
    path: PathBuf,
    mode: u32,
}

impl NewFolder {
    /// Creates a folder for this name. There must be nothing of that name, or an empty folder. No
    /// other user may be able to write to the folders above it.
    ///
    /// # Errors
    ///
    /// Nothing is left of the folder.
    ///
    /// - `Unnamed` if the name ends in no name of its own, as `.` and `/` do.
    /// - `NotEmpty` if there is something in the folder of this name, and `NotAFolder` if the name is
    ///   that of a file, a link or the like.
    /// - `Shared` if others can write to a folder above it.
    /// - `NoName` if no temporary name is free.
    /// - `Memory` if an allocation fails, and `System` for any other error of the system.
    pub fn create(rt: &HostRuntime, name: &str) -> Result<NewFolder, OutputError> {
        let named = Path::new(name);
        let Some(last) = named.file_name() else {
            return Err(OutputError::Unnamed);
        };
        check_free(rt, name)?;
        let folder = fs::canonicalize(rt, folder_of(named))?;
        check_unshared(rt, folder.as_path())?;
        let temporary = TemporaryName::new(rt, folder.as_path(), last, OutputKind::Folder)?;
        for number in 0..NAMES {
            let temporary = temporary.numbered(rt.alloc(), number)?;
            let temporary = folder.as_path().join(rt.alloc(), temporary.as_str())?;
            match DirBuilder::new().mode(OWN).create(rt, &temporary) {
                Ok(()) => {}
                Err(error) if error.kind() == ErrorKind::AlreadyExists => continue,
                Err(error) => return Err(OutputError::System(error)),
            }
            match fs::open(rt, &temporary) {
                Ok(handle) if holds(rt, &handle, temporary.as_path()) => {
                    let path = folder.as_path().join(rt.alloc(), last)?;
                    return NewFolder::with_mode(rt, handle, temporary, path);
                }
                // Another run took it for one that was left.
                Ok(_) => {}
                Err(error) => {
                    // If this fails too, the next run removes it.
                    let _ = fs::remove_dir(rt, &temporary);
                    return Err(OutputError::System(error));
                }
            }
        }
        Err(OutputError::NoName)
    }

    // Returns the new folder, with the permissions that folders get by default.
    fn with_mode(
        rt: &HostRuntime,
        handle: File,
        temporary: PathBuf,
        path: PathBuf,
    ) -> Result<NewFolder, OutputError> {
        match default_mode(rt, temporary.as_path()) {
            Ok(mode) => Ok(NewFolder {
                handle,
                temporary,
                path,
                mode,
            }),
            Err(error) => {
                // If this fails too, the next run removes it.
                let _ = fs::remove_dir_all(rt, &temporary);
                Err(error)
            }
        }
    }

    /// Returns the path under which the folder is made.
    pub fn path(&self) -> &str {
        self.temporary.as_path().as_str()
    }

    /// Gives the folder its name, and these permissions or those of a new folder.
    ///
    /// # Errors
    ///
    /// `NotEmpty` if there is something in a folder of this name by now, and `System` for any other
    /// error of the system. The folder still has its temporary name, and is to be removed.
    pub fn finish(&self, rt: &HostRuntime, mode: Option<u32>) -> Result<(), OutputError> {
        match self.place(rt, mode.unwrap_or(self.mode)) {
            Ok(()) => Ok(()),
            Err(error) => match error.kind() {
                ErrorKind::DirectoryNotEmpty | ErrorKind::AlreadyExists => {
                    Err(OutputError::NotEmpty)
                }
                _ => Err(OutputError::System(error)),
            },
        }
    }

    // Renames the folder to its final name. If the system can't, it stays as it is.
    fn place(&self, rt: &HostRuntime, mode: u32) -> io::Result<()> {
        self.handle.set_permissions(Permissions::from_mode(mode))?;
        fs::rename(rt, &self.temporary, &self.path)
    }

    /// Removes the folder, with all that is in it. If that fails, the next run removes it.
    pub fn remove(self, rt: &HostRuntime) {
        let _ = self.handle.set_permissions(Permissions::from_mode(OWN));
        let _ = fs::remove_dir_all(rt, &self.temporary);
    }
}

// Fails if there is something of this name, other than an empty folder.
fn check_free(rt: &HostRuntime, name: &str) -> Result<(), OutputError> {
    match fs::symlink_metadata(rt, name) {
        Ok(metadata) if !metadata.is_dir() => Err(OutputError::NotAFolder),
        Ok(_) if fs::read_dir(rt, name)?.next().is_some() => Err(OutputError::NotEmpty),
        Ok(_) => Ok(()),
        Err(error) if error.kind() == ErrorKind::NotFound => Ok(()),
        Err(error) => Err(OutputError::System(error)),
    }
}

// Fails if other users can write to this folder or one above it, and so could put a folder of
// their own in its place.
fn check_unshared(rt: &HostRuntime, folder: Path<'_>) -> Result<(), OutputError> {
    for above in folder.ancestors() {
        let mode = fs::metadata(rt, above)?.mode();
        if mode & OTHERS_WRITE != 0 && mode & STICKY == 0 {
            return Err(OutputError::Shared(above.to_path_buf(rt.alloc())?));
        }
    }
    Ok(())
}

// Returns the permissions that a new folder gets, by making one in this folder and removing it.
fn default_mode(rt: &HostRuntime, folder: Path<'_>) -> Result<u32, OutputError> {
    let path = folder.join(rt.alloc(), "new")?;
    fs::create_dir(rt, &path)?;
    let metadata = fs::symlink_metadata(rt, &path)?;
    fs::remove_dir(rt, &path)?;
    Ok(metadata.mode() & 0o7777)
}
