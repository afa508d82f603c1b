//! The errors of reading an index.

use ipld_cid::write_number;
use std::alloc::{AllocError, AllocFailed};
use std::{error, fmt, io};

/// An error of reading the index of a CAR. If the bytes are not an index with sorted entries, it is
/// the first error in the order of the bytes. Its `Display` is a sentence.
#[derive(Debug, Drop)]
pub enum IndexError {
    /// An allocation failed.
    Memory,
    /// The reader failed.
    Read(io::Error),
    /// The file ends before the index does: within the code of its format, a number or a row.
    UnexpectedEnd,
    /// The varint of its format is not in its shortest form.
    FormatNotShortest,
    /// The varint of its format encodes a number of 2^64 or more.
    FormatTooLarge,
    /// The index has the format with this code. It is not IndexSorted, which is 0x400, or
    /// MultihashIndexSorted, which is 0x401.
    Format(u64),
    /// Its rows have this number of bytes. That is fewer than an offset has (8), or more than an
    /// offset and a digest of 64 bytes have (72).
    Width(u32),
    /// The rows of the digests of one length have this number of bytes in all, which is not a
    /// multiple of the length of a row.
    Length(u64),
    /// Its entries are not sorted: an entry is less than the one before it.
    NotSorted,
}

impl fmt::Display for IndexError {
    ghost use Rattle.ipld_car.specs.IndexErrorTexts.{sentence_of, styled_sentence};

    ghost output = { sentence_of };

    ghost styled_output = { λ error _. styled_sentence error };

    fn fmt<W: fmt::Write>(&self, f: &mut fmt::Formatter<W>) -> fmt::Result {
        f.write_str(match self {
            IndexError::Memory => "out of memory",
            IndexError::Read(error) => return write!(f, "cannot read: {error}"),
            IndexError::UnexpectedEnd => "the file ends within the index",
            IndexError::FormatNotShortest => "the index's format is not in its shortest form",
            IndexError::FormatTooLarge => "the index's format is 2^64 or more",
            IndexError::Format(code) => {
                return write!(
                    f,
                    "unsupported format of the index: expected 0x400 or 0x401, found 0x{code:x}"
                );
            }
            IndexError::Width(width) => {
                return write_number(
                    f,
                    "the rows of the index should have 8 to 72 bytes, but have ",
                    u64::from(*width),
                );
            }
            IndexError::Length(length) => {
                return write_number(
                    f,
                    "the index is not a whole number of rows: its length is ",
                    *length,
                );
            }
            IndexError::NotSorted => "the index is not sorted",
        })
    }
}

impl error::Error for IndexError {}

impl From<AllocError> for IndexError {
    ghost use Rattle.std.specs.Prelude.{◌≡◌};
    ghost use Rattle.ipld_car.specs.declared.index.error.IndexError.TheVariants.{Memory};

    ghost from_gives = { λ _ error. error ≡ Memory };

    fn from(_error: AllocError) -> Self {
        IndexError::Memory
    }
}

impl<T: Drop> From<AllocFailed<T>> for IndexError {
    ghost use Rattle.std.specs.Prelude.{◌≡◌};
    ghost use Rattle.ipld_car.specs.declared.index.error.IndexError.TheVariants.{Memory};

    ghost from_gives = { λ _ error. error ≡ Memory };

    fn from(_error: AllocFailed<T>) -> Self {
        IndexError::Memory
    }
}

impl From<io::Error> for IndexError {
    ghost use Rattle.std.specs.IoError.{error_kind};
    ghost use Rattle.ipld_car.specs.IndexReading.{IsErrorOfReader};

    ghost from_gives = { λ error made. IsErrorOfReader (error_kind error) made };

    fn from(error: io::Error) -> Self {
        match error.kind() {
            io::ErrorKind::OutOfMemory => IndexError::Memory,
            io::ErrorKind::UnexpectedEof => IndexError::UnexpectedEnd,
            _ => IndexError::Read(error),
        }
    }
}
