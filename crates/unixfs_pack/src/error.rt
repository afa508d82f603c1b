//! The reasons why something isn't packed.

use std::alloc::{AllocError, AllocFailed, Global};
use std::io::{self, ErrorKind};
use std::{error, fmt};
use unixfs_build::BuildError;

/// The reason why something isn't packed. Its `Display` is a sentence.
#[derive(Debug, Drop)]
pub enum PackErrorKind {
    /// An allocation failed.
    Memory,
    /// The file or folder can't be read.
    Read(io::Error),
    /// The writer failed.
    Write(io::Error),
    /// It is neither a file, a folder nor a symbolic link.
    Special,
    /// The name of an entry isn't UTF-8.
    Name,
    /// Another path has the same last name.
    SameName,
    /// The file has another length than when it was looked at first, or the folder other entries.
    Changed,
    /// The symbolic link leads to a folder that it is in.
    Cycle,
    /// Its block isn't made, for this reason.
    Build(BuildError),
}

/// The reason why something isn't packed, and the path to it. Its `Display` is that of the reason.
#[derive(Debug, Drop)]
pub struct PackError {
    /// The path to the file or folder. It is empty if the error is that of the writer, or if there
    /// is no memory for it.
    pub path: String,
    /// The reason.
    pub kind: PackErrorKind,
}

impl fmt::Display for PackErrorKind {
    fn fmt<W: fmt::Write>(&self, f: &mut fmt::Formatter<W>) -> fmt::Result {
        match self {
            PackErrorKind::Memory => f.write_str("out of memory"),
            PackErrorKind::Read(error) => write!(f, "{error}"),
            PackErrorKind::Write(error) => write!(f, "{error}"),
            PackErrorKind::Special => {
                f.write_str("neither a file, a folder nor a symbolic link; leave it out")
            }
            PackErrorKind::Name => {
                f.write_str("the name of an entry is not valid UTF-8; rename it")
            }
            PackErrorKind::SameName => {
                f.write_str("two paths end in this name; pack the folder that they are in")
            }
            PackErrorKind::Changed => f.write_str("it changed while it was read; try again"),
            PackErrorKind::Cycle => {
                f.write_str(
                    "a symbolic link leads to a folder that it is in; leave links as they are",
                )
            }
            PackErrorKind::Build(error) => write!(f, "{error}"),
        }
    }
}

impl fmt::Display for PackError {
    fn fmt<W: fmt::Write>(&self, f: &mut fmt::Formatter<W>) -> fmt::Result {
        self.kind.fmt(f)
    }
}

impl error::Error for PackErrorKind {}

impl error::Error for PackError {}

impl From<AllocError> for PackErrorKind {
    fn from(_error: AllocError) -> Self {
        PackErrorKind::Memory
    }
}

impl<T: Drop> From<AllocFailed<T>> for PackErrorKind {
    fn from(_error: AllocFailed<T>) -> Self {
        PackErrorKind::Memory
    }
}

impl From<BuildError> for PackErrorKind {
    fn from(error: BuildError) -> Self {
        match error {
            BuildError::Memory => PackErrorKind::Memory,
            _ => PackErrorKind::Build(error),
        }
    }
}

impl PackErrorKind {
    // Returns the reason why a file or folder isn't read.
    pub(crate) fn of_reading(error: io::Error) -> PackErrorKind {
        match error.kind() {
            ErrorKind::OutOfMemory => PackErrorKind::Memory,
            ErrorKind::InvalidFilename => PackErrorKind::Name,
            _ => PackErrorKind::Read(error),
        }
    }

    // Returns the reason why a block isn't written.
    pub(crate) fn of_writing(error: io::Error) -> PackErrorKind {
        match error.kind() {
            ErrorKind::OutOfMemory => PackErrorKind::Memory,
            _ => PackErrorKind::Write(error),
        }
    }
}

impl PackError {
    // Returns the error of a failed allocation.
    pub(crate) fn memory(alloc: Global) -> PackError {
        PackError {
            path: String::new(alloc),
            kind: PackErrorKind::Memory,
        }
    }

    // Returns the error of what is at this path.
    pub(crate) fn at(alloc: Global, path: &str, kind: PackErrorKind) -> PackError {
        match String::from_str(alloc, path) {
            Ok(path) => PackError { path, kind },
            Err(_) => PackError::memory(alloc),
        }
    }
}
