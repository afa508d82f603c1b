//! The reasons why a file or a folder isn't packed.

use ipld_cid::write_number;
use std::alloc::{AllocError, AllocFailed};
use std::{error, fmt};

/// The reason why a file or a folder isn't packed. Its `Display` is a sentence.
#[derive(Clone, Copy, Debug, PartialEq, Eq)]
pub enum BuildError {
    /// An allocation failed.
    Memory,
    /// The greatest number of links of a node is less than 2.
    Width,
    /// The file, the folder, or all its blocks together, have 2^64 bytes or more.
    TooLarge,
    /// The time has this number of nanoseconds, which is more than 999,999,999.
    Nanoseconds(u32),
    /// The name of the entry with this index is empty, `.` or `..`, or has a `/` or a NUL.
    InvalidName(usize),
    /// The name of the entry with this index doesn't come after the one before it.
    NameOrder(usize),
    /// Two names of a sharded folder have the same hash.
    SameHash,
}

impl fmt::Display for BuildError {
    ghost use Rattle.std.specs.Prelude.{Some};
    ghost use Rattle.unixfs_build.specs.ErrorNames.{sentence_of};

    ghost output = { λ error. Some (sentence_of error) };

    ghost styled_output = { λ error _. Some (sentence_of error) };

    fn fmt<W: fmt::Write>(&self, f: &mut fmt::Formatter<W>) -> fmt::Result {
        f.write_str(match self {
            BuildError::Memory => "out of memory",
            BuildError::Width => "a node has to have room for at least 2 links",
            BuildError::TooLarge => "the file or folder and its blocks have 2^64 bytes or more",
            BuildError::SameHash =>
                "two names have the same hash, so no shard can part them: rename one",
            BuildError::Nanoseconds(count) => {
                return write_number(
                    f,
                    "the nanoseconds of a time are more than 999999999: ",
                    u64::from(*count),
                );
            }
            BuildError::InvalidName(index) => {
                return write_number(
                    f,
                    "names may not be empty, . or .., or have a / or a NUL: entry ",
                    *index as u64,
                );
            }
            BuildError::NameOrder(index) => {
                return write_number(
                    f,
                    "names have to ascend by their bytes, each once: entry ",
                    *index as u64,
                );
            }
        })
    }
}

impl error::Error for BuildError {}

impl From<AllocError> for BuildError {
    ghost use Rattle.std.specs.Prelude.{◌≡◌};
    ghost use Rattle.unixfs_build.specs.declared.error.BuildError.TheVariants.{Memory};

    ghost from_gives = { λ _ error. error ≡ Memory };

    fn from(_error: AllocError) -> Self {
        BuildError::Memory
    }
}

impl<T: Drop> From<AllocFailed<T>> for BuildError {
    ghost use Rattle.std.specs.Prelude.{◌≡◌};
    ghost use Rattle.unixfs_build.specs.declared.error.BuildError.TheVariants.{Memory};

    ghost from_gives = { λ _ error. error ≡ Memory };

    fn from(_error: AllocFailed<T>) -> Self {
        BuildError::Memory
    }
}
