//! How a command ends.

ghost use Rattle.std.specs.Prelude.{◌≡◌, ◌≤◌, ◌<◌};
ghost use Rattle.ipld_cli.specs.Status.{outcome_of, status_of};

use ipld_show::ShowError;
use std::io::ErrorKind;

/// How a command ends.
#[derive(Clone, Copy, Debug, PartialEq, Eq)]
pub enum Outcome {
    /// The command was done, and every check passed.
    Done,
    /// A check failed.
    NotSo,
    /// The command couldn't be done.
    Failed,
    /// Nobody reads the output any more, so nothing is left to do.
    NotRead,
}

impl Outcome {
    /// Returns the exit status of the program.
    pub fn status(self) -> u8
        ensures { result ≡ status_of self }
    {
        match self {
            Outcome::Done | Outcome::NotRead => 0,
            Outcome::NotSo => 1,
            Outcome::Failed => 2,
        }
    }

    /// Returns the outcome of a command that ends with this error.
    pub fn of(error: &ShowError) -> Outcome
        ensures { result ≡ outcome_of error.now }
    {
        match error {
            ShowError::Write(ErrorKind::BrokenPipe) => Outcome::NotRead,
            ShowError::Write(_) | ShowError::Memory => Outcome::Failed,
            _ => Outcome::NotSo,
        }
    }

    /// Returns the outcome of two actions, one after the other. It is the one with the greater
    /// status, or the first if their statuses are equal.
    pub fn worse(self, other: Outcome) -> Outcome
        ensures first { status_of other ≤ status_of self → result ≡ self }
        ensures second { status_of self < status_of other → result ≡ other }
    {
        if other.status() > self.status() {
            other
        } else {
            self
        }
    }
}
