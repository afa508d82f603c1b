//! The ends of a run.

ghost use Rattle.std.specs.Prelude.{◌≡◌};
ghost use Rattle.ipld_links_run.specs.Status.{name_of};

use std::alloc::{AllocError, AllocFailed};
use std::{error, fmt};

/// The end of a run that read all of its input and wrote all of its output.
#[derive(Clone, Copy, Debug, PartialEq, Eq)]
pub enum Status {
    /// The input is of the form that the word expects.
    Done,
    /// Every line that was looked at was understood, but the input is not of the form that the word
    /// expects.
    Refused,
    /// A line, or the word itself, was not understood.
    NotUnderstood,
}

/// The reason why a run could not continue.
///
/// Its `Display` is a sentence that describes the error.
#[derive(Clone, Copy, Debug, PartialEq, Eq)]
pub enum RunFault {
    /// An allocation failed.
    Memory,
    /// The reader failed, or did not end.
    Read,
    /// The writer failed.
    Write,
}

impl RunFault {
    /// Returns the name of the variant.
    pub fn name(&self) -> &'static str
        ensures { result.now ≡ name_of self.now }
    {
        match self {
            RunFault::Memory => "Memory",
            RunFault::Read => "Read",
            RunFault::Write => "Write",
        }
    }
}

impl fmt::Display for RunFault {
    ghost use Rattle.std.specs.Prelude.{Some};
    ghost use Rattle.ipld_links_run.specs.Status.{sentence_of};

    ghost output = { λ error. Some (sentence_of error) };

    ghost styled_output = { λ error _. Some (sentence_of error) };

    fn fmt<W: fmt::Write>(&self, f: &mut fmt::Formatter<W>) -> fmt::Result {
        f.write_str(match self {
            RunFault::Memory => "out of memory",
            RunFault::Read => "the reader failed",
            RunFault::Write => "the writer failed",
        })
    }
}

impl error::Error for RunFault {}

impl From<AllocError> for RunFault {
    ghost use Rattle.ipld_links_run.specs.declared.status.RunFault.TheVariants.{Memory};

    ghost from_gives = { λ _ error. error ≡ Memory };

    fn from(_error: AllocError) -> RunFault {
        RunFault::Memory
    }
}

impl<T: Drop> From<AllocFailed<T>> for RunFault {
    ghost use Rattle.ipld_links_run.specs.declared.status.RunFault.TheVariants.{Memory};

    ghost from_gives = { λ _ error. error ≡ Memory };

    fn from(_error: AllocFailed<T>) -> RunFault {
        RunFault::Memory
    }
}
