//! The report of a failed allocation in a test.

use car_files::CarFileError;
use dag_cbor::tape::TapeError;
use dag_cbor::{BlockError, BlockErrorKind, CborError};
use dag_cbor_serde::{DecodeError, EncodeError};
use dag_cbor_tape::EncodeErrorKind;
use dag_json::{DagJsonError, ReadErrorKind};
use ipld_car::{CarError, CarErrorKind};
use ipld_cid::CidError;
use ipld_cid_text::ToStringError;
use ipld_core::codec::RawError;
use ipld_core::serde::{ReadError, Stopped, TokenError};
use ipld_links_run::RunFault;
use ipld_ser::SerdeError;
use std::alloc::{AllocError, AllocFailed};
use std::io::{self, ErrorKind};

/// The reason why a test ended before its last line.
#[derive(Clone, Copy, Debug, PartialEq, Eq)]
pub enum Ended {
    /// An allocation failed for the input of a call, or for the value that its result is compared
    /// with.
    Around,
    /// The call of this name returned a failed allocation.
    NoMemory(&'static str),
    /// The call of this name was rejected for another reason.
    Refused(&'static str),
}

impl From<AllocError> for Ended {
    fn from(_error: AllocError) -> Ended {
        Ended::Around
    }
}

impl<T: Drop> From<AllocFailed<T>> for Ended {
    fn from(_error: AllocFailed<T>) -> Ended {
        Ended::Around
    }
}

/// The errors of the calls that create and read CIDs, which do not allocate.
impl From<CidError> for Ended {
    fn from(_error: CidError) -> Ended {
        Ended::Refused("a CID")
    }
}

/// An error of a call, which may be a failed allocation.
pub trait Rejection: Drop {
    /// Returns whether the error is a failed allocation.
    fn is_out_of_memory(&self) -> bool;

    /// Returns whether the error is that of a vector that was written to and didn't grow.
    fn is_failed_write(&self) -> bool {
        false
    }
}

impl Rejection for AllocError {
    fn is_out_of_memory(&self) -> bool {
        true
    }
}

impl Rejection for dag_cbor_tape::EncodeError {
    fn is_out_of_memory(&self) -> bool {
        self.kind == EncodeErrorKind::Memory
    }
}

impl Rejection for DagJsonError {
    fn is_out_of_memory(&self) -> bool {
        *self == DagJsonError::Memory
    }
}

impl Rejection for dag_json::ReadError {
    fn is_out_of_memory(&self) -> bool {
        self.kind == ReadErrorKind::Memory
    }
}

impl Rejection for dag_json::JsonTapeError {
    fn is_out_of_memory(&self) -> bool {
        match self {
            dag_json::JsonTapeError::Text(error) => error.is_out_of_memory(),
            dag_json::JsonTapeError::TooLong => false,
        }
    }
}

impl Rejection for CidError {
    fn is_out_of_memory(&self) -> bool {
        *self == CidError::Memory
    }
}

impl Rejection for ToStringError {
    fn is_out_of_memory(&self) -> bool {
        *self == ToStringError::Memory
    }
}

impl Rejection for SerdeError {
    fn is_out_of_memory(&self) -> bool {
        *self == SerdeError::Memory
    }
}

impl Rejection for TokenError<Stopped> {
    fn is_out_of_memory(&self) -> bool {
        *self == TokenError::Memory
    }
}

impl Rejection for ReadError<Stopped> {
    fn is_out_of_memory(&self) -> bool {
        *self == ReadError::Token(TokenError::Memory)
    }
}

/// A source whose allocation failed reports it by its own error.
impl Rejection for TokenError<AllocError> {
    fn is_out_of_memory(&self) -> bool {
        matches!(self, TokenError::Memory | TokenError::Source(_))
    }
}

impl Rejection for RawError {
    fn is_out_of_memory(&self) -> bool {
        *self == RawError::Memory
    }

    fn is_failed_write(&self) -> bool {
        *self == RawError::Write
    }
}

impl Rejection for CborError {
    fn is_out_of_memory(&self) -> bool {
        *self == CborError::Memory
    }
}

impl Rejection for BlockError {
    fn is_out_of_memory(&self) -> bool {
        self.kind == BlockErrorKind::Cbor(CborError::Memory)
    }
}

impl Rejection for TapeError {
    fn is_out_of_memory(&self) -> bool {
        match self {
            TapeError::Block(error) => error.is_out_of_memory(),
            TapeError::TooLong => false,
        }
    }
}

impl Rejection for EncodeError {
    fn is_out_of_memory(&self) -> bool {
        *self == EncodeError::Memory
    }
}

impl Rejection for DecodeError {
    fn is_out_of_memory(&self) -> bool {
        *self == DecodeError::Memory
    }
}

impl Rejection for RunFault {
    fn is_out_of_memory(&self) -> bool {
        *self == RunFault::Memory
    }

    fn is_failed_write(&self) -> bool {
        *self == RunFault::Write
    }
}

impl Rejection for CarError {
    fn is_out_of_memory(&self) -> bool {
        matches!(self.kind, CarErrorKind::Memory)
    }
}

impl Rejection for io::Error {
    fn is_out_of_memory(&self) -> bool {
        self.kind() == ErrorKind::OutOfMemory
    }
}

/// A vector reports a failed allocation during a write as a writer that failed.
impl Rejection for CarFileError {
    fn is_out_of_memory(&self) -> bool {
        matches!(
            self,
            CarFileError::Memory | CarFileError::Write(ErrorKind::OutOfMemory)
        )
    }
}

/// Returns the error that ends a test in which the call of this name was rejected.
pub fn ended_by<E: Rejection>(call: &'static str, error: E) -> Ended {
    if error.is_out_of_memory() {
        Ended::NoMemory(call)
    } else {
        Ended::Refused(call)
    }
}

/// Returns the result of the call of this name, with an error as the one that ends the test.
pub fn reported<T, E: Rejection>(call: &'static str, outcome: Result<T, E>) -> Result<T, Ended> {
    match outcome {
        Ok(value) => Ok(value),
        Err(error) => Err(ended_by(call, error)),
    }
}

/// Does the same for a call that writes to a vector, which may report a failed allocation as a
/// writer that failed.
pub fn reported_by_vector<T, E: Rejection>(
    call: &'static str,
    outcome: Result<T, E>,
) -> Result<T, Ended> {
    match outcome {
        Err(error) if error.is_failed_write() => Err(Ended::NoMemory(call)),
        outcome => reported(call, outcome),
    }
}
