//! The errors of commands on a CAR.

use ipld_car::{CarError, CarErrorKind};
use std::alloc::{AllocError, AllocFailed};
use std::{error, fmt, io};

/// An error of a command on a CAR. Its `Display` is a sentence, with the offset in the file if
/// there is one.
#[derive(Debug, Drop)]
pub enum CarFileError {
    /// An allocation failed.
    Memory,
    /// The writer failed with this kind of error.
    Write(io::ErrorKind),
    /// The file is not a CAR, or its reader failed.
    Car(CarError),
}

impl fmt::Display for CarFileError {
    ghost use Rattle.car_files.specs.ErrorTexts.{sentence_of};

    ghost output = { sentence_of };

    ghost styled_output = { λ error _. sentence_of error };

    fn fmt<W: fmt::Write>(&self, f: &mut fmt::Formatter<W>) -> fmt::Result {
        match self {
            CarFileError::Memory => f.write_str("out of memory"),
            CarFileError::Write(kind) => write!(f, "cannot write: {kind}"),
            CarFileError::Car(error) => error.fmt(f),
        }
    }
}

impl error::Error for CarFileError {}

impl From<AllocError> for CarFileError {
    ghost use Rattle.std.specs.Prelude.{◌≡◌};
    ghost use Rattle.car_files.specs.declared.error.CarFileError.TheVariants.{Memory};

    ghost from_gives = { λ _ error. error ≡ Memory };

    fn from(_error: AllocError) -> Self {
        CarFileError::Memory
    }
}

impl<T: Drop> From<AllocFailed<T>> for CarFileError {
    ghost use Rattle.std.specs.Prelude.{◌≡◌};
    ghost use Rattle.car_files.specs.declared.error.CarFileError.TheVariants.{Memory};

    ghost from_gives = { λ _ error. error ≡ Memory };

    fn from(_error: AllocFailed<T>) -> Self {
        CarFileError::Memory
    }
}

impl From<io::Error> for CarFileError {
    ghost use Rattle.std.specs.IoError.{error_kind};
    ghost use Rattle.car_files.specs.Reading.{IsErrorOfWriter, IsWritingError};

    ghost from_gives = { λ error made. IsErrorOfWriter (error_kind error) made × IsWritingError made };

    fn from(error: io::Error) -> Self {
        match error.kind() {
            io::ErrorKind::OutOfMemory => CarFileError::Memory,
            kind => CarFileError::Write(kind),
        }
    }
}

impl From<CarError> for CarFileError {
    ghost use Rattle.car_files.specs.Reading.{IsErrorOf};

    ghost from_gives = { λ error made. IsErrorOf error made };

    fn from(error: CarError) -> Self {
        match error.kind {
            CarErrorKind::Memory => CarFileError::Memory,
            _ => CarFileError::Car(error),
        }
    }
}
