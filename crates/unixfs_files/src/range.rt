//! Ranges of the bytes of a file.

ghost use Rattle.std.specs.Prelude.{◌≡◌, ◌-◌};
ghost use Rattle.std.specs.Bool.{Decides};
ghost use Rattle.unixfs.specs.Files.{slice, past, IsOutside};
ghost use Rattle.unixfs_files.specs.Walking.{range_of, count_in};

use crate::state::FileRange;

impl FileRange {
    // Returns those of the bytes that are in the range.
    pub(crate) fn slice<'a>(&self, bytes: &'a [u8]) -> &'a [u8]
        ensures { result.now ≡ slice (range_of self.now) bytes.now }
    {
        let start = self.start.min(bytes.len() as u64);
        let rest = &bytes[start as usize..];
        match self.length {
            Some(length) => {
                let length = length.min(rest.len() as u64);
                &rest[..length as usize]
            }
            None => rest,
        }
    }

    // Returns the number of bytes in the range, of this many.
    pub(crate) fn count_in(&self, size: u64) -> u64
        ensures { result ≡ count_in (range_of self.now) size }
    {
        let count = size.saturating_sub(self.start);
        match self.length {
            Some(length) => count.min(length),
            None => count,
        }
    }

    // Returns the range in what follows this many bytes.
    pub(crate) fn past(&self, size: u64) -> FileRange
        ensures { range_of result ≡ past size (range_of self.now) }
    {
        let start = self.start.saturating_sub(size);
        let taken = size.saturating_sub(self.start);
        match self.length {
            Some(length) => FileRange {
                start,
                length: Some(length.saturating_sub(taken)),
            },
            None => FileRange {
                start,
                length: None,
            },
        }
    }

    // Returns true if none of this many bytes is in the range.
    pub(crate) fn is_outside(&self, size: u64) -> bool
        ensures { Decides result (IsOutside size (range_of self.now)) }
    {
        match self.length {
            Some(0) => return true,
            _ => {}
        }
        if self.start == 0 {
            return false;
        }
        size <= self.start
    }
}
