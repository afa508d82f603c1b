//! The errors of writing a message of UnixFS.

ghost use Rattle.std.specs.Prelude.{◌≡◌};
ghost use Rattle.unixfs.specs.ErrorNames.{encode_name_of};

use ipld_cid::write_number;
use std::alloc::AllocError;
use std::{error, fmt};

/// The reason why a message isn't encoded.
///
/// Its `Display` is a sentence that describes the error.
#[derive(Clone, Copy, Debug, PartialEq, Eq)]
pub enum UnixFsEncodeError {
    /// An allocation failed.
    Memory,
    /// The time has this number of nanoseconds, which is more than 999,999,999.
    Nanoseconds(u32),
}

impl UnixFsEncodeError {
    /// Returns the name of the variant.
    pub fn name(&self) -> &'static str
        ensures { result.now ≡ encode_name_of self.now }
    {
        match self {
            UnixFsEncodeError::Memory => "Memory",
            UnixFsEncodeError::Nanoseconds(_) => "Nanoseconds",
        }
    }
}

impl fmt::Display for UnixFsEncodeError {
    ghost use Rattle.std.specs.Prelude.{Some};
    ghost use Rattle.unixfs.specs.ErrorNames.{encode_sentence};

    ghost output = { λ error. Some (encode_sentence error) };

    ghost styled_output = { λ error _. Some (encode_sentence error) };

    fn fmt<W: fmt::Write>(&self, f: &mut fmt::Formatter<W>) -> fmt::Result {
        match self {
            UnixFsEncodeError::Memory => f.write_str("out of memory"),
            UnixFsEncodeError::Nanoseconds(count) => write_number(
                f,
                "the nanoseconds of a time are more than 999999999: ",
                u64::from(*count),
            ),
        }
    }
}

impl error::Error for UnixFsEncodeError {}

impl From<AllocError> for UnixFsEncodeError {
    ghost use Rattle.std.specs.Prelude.{◌≡◌};
    ghost use Rattle.unixfs.specs.declared.encode_error.UnixFsEncodeError.TheVariants.{Memory};

    ghost from_gives = { λ _ error. error ≡ Memory };

    fn from(_error: AllocError) -> Self {
        UnixFsEncodeError::Memory
    }
}
