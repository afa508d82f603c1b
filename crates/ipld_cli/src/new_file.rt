//! A file that is written under another name, and gets its own name when it is complete.

use crate::output::{NAMES, OutputError, Syncing, TemporaryName, holds};
use std::fs::{self, File, Permissions};
use std::io::ErrorKind;
use std::path::{Path, PathBuf};

/// A file that is being written. It has a temporary name in the same folder. A run that is killed
/// leaves it, and the next run for the same name removes it.
#[derive(Drop)]
pub struct NewFile {
    // It stays open, and so locked, until it has its final name.
    file: File,
    temporary: PathBuf,
    path: PathBuf,
    is_new: bool,
}

impl NewFile {
    /// Creates an empty file, which will be at this path. If it replaces a file, it has the
    /// permissions of that file from the start.
    ///
    /// # Errors
    ///
    /// Nothing is left of the file.
    ///
    /// `NoName` if no temporary name is free, `Memory` if an allocation fails, and `System` for any
    /// other error of the system.
    pub fn create(
        rt: &HostRuntime,
        temporary: &TemporaryName,
        path: Path<'_>,
        replaced: Option<Permissions>,
    ) -> Result<NewFile, OutputError> {
        let is_new = replaced.is_none();
        let path = path.to_path_buf(rt.alloc())?;
        let (temporary, file) = create_temporary(rt, temporary, path.as_path())?;
        let created = NewFile {
            file,
            temporary,
            path,
            is_new,
        };
        let Some(permissions) = replaced else {
            return Ok(created);
        };
        match created.file.set_permissions(permissions) {
            Ok(()) => Ok(created),
            Err(error) => {
                created.remove(rt);
                Err(OutputError::from(error))
            }
        }
    }

    /// Returns the open file.
    pub fn file(&self) -> &File {
        &self.file
    }

    /// Gives the file its name. If that fails, nothing is left of the file.
    ///
    /// # Errors
    ///
    /// `Exists` if a file of this name was created meanwhile, and none is to be replaced. `System`
    /// for any other error of the system.
    pub fn finish(self, rt: &HostRuntime, syncing: Syncing) -> Result<(), OutputError> {
        let finished = self.sync_and_place(rt, syncing);
        if finished.is_err() {
            self.remove(rt);
        }
        finished
    }

    // Syncs the file if that is asked for, and gives it its name.
    fn sync_and_place(&self, rt: &HostRuntime, syncing: Syncing) -> Result<(), OutputError> {
        if syncing == Syncing::Each {
            self.file.sync_all()?;
        }
        let (temporary, path) = (self.temporary.as_path(), self.path.as_path());
        if self.is_new {
            move_into_place(rt, temporary, path)
        } else {
            replace(rt, temporary, path)
        }
    }

    /// Removes the file. If that fails, the next run removes it.
    pub fn remove(self, rt: &HostRuntime) {
        let _ = fs::remove_file(rt, &self.temporary);
    }
}

// Creates an empty, locked file in the same folder.
fn create_temporary(
    rt: &HostRuntime,
    temporary: &TemporaryName,
    path: Path<'_>,
) -> Result<(PathBuf, File), OutputError> {
    for number in 0..NAMES {
        let name = temporary.numbered(rt.alloc(), number)?;
        let path = path.with_file_name(rt.alloc(), name.as_str())?;
        match File::create_new(rt, &path) {
            Ok(file) if holds(rt, &file, path.as_path()) => return Ok((path, file)),
            // Another run took it for one that was left.
            Ok(_) => {}
            Err(error) if error.kind() == ErrorKind::AlreadyExists => {}
            Err(error) => return Err(OutputError::System(error)),
        }
    }
    Err(OutputError::NoName)
}

// Creates an empty file of this name.
fn take_name(rt: &HostRuntime, path: Path<'_>) -> Result<(), OutputError> {
    match File::create_new(rt, path) {
        Ok(_) => Ok(()),
        Err(error) if error.kind() == ErrorKind::AlreadyExists => Err(OutputError::Exists),
        Err(error) => Err(OutputError::System(error)),
    }
}

// Renames a temporary file to its final name. If the system can't, it stays as it is.
fn replace(rt: &HostRuntime, temporary: Path<'_>, path: Path<'_>) -> Result<(), OutputError> {
    fs::rename(rt, temporary, path)?;
    Ok(())
}

// Gives a temporary file its final name, if that name is free. A file of this name that was created
// meanwhile stays. If this fails, the temporary file stays too.
fn move_into_place(
    rt: &HostRuntime,
    temporary: Path<'_>,
    path: Path<'_>,
) -> Result<(), OutputError> {
    match fs::hard_link(rt, temporary, path) {
        Ok(()) => {
            // If this fails, the next run removes the temporary name.
            let _ = fs::remove_file(rt, temporary);
            return Ok(());
        }
        Err(error) if error.kind() == ErrorKind::AlreadyExists => return Err(OutputError::Exists),
        // Some file systems have no links. There the name is taken by an empty file, which is left
        // if the program is killed before the next call.
        Err(_) => {}
    }
    take_name(rt, path)?;
    let placed = replace(rt, temporary, path);
    if placed.is_err() {
        // If this fails too, an empty file is left.
        let _ = fs::remove_file(rt, path);
    }
    placed
}
