//! A reader that fails, for tests.

ghost use Rattle.std.specs.Prelude.{◌≡◌, ◌≢◌, [], length, take, drop, None, Some, IfOk, IfErr, MatchResult};
ghost use Rattle.std.specs.Borrow.{sem};
ghost use Rattle.std.specs.IoError.{error_kind};
ghost use Rattle.std.specs.Io.{ReadsAtMost, StartsWith};
ghost use Rattle.std.specs.Io.BufRead.{Rests, FillKeeps, DropsConsumable};
ghost use Rattle.std.specs.Io.KnownBytes.{ReadConsumes};
ghost use Rattle.ipld_codec.specs.contracts.fault_reader.FaultReader.{the_row};
ghost use Rattle.ipld_codec.specs.FailingEnds.{bytes_left, ReadsFront};
ghost use mir.Syntax.{named};

use std::io::{self, BufRead, Error, ErrorKind, Read};

/// A reader that yields some bytes and then fails for good. It never ends.
///
/// It is for tests of code that reads. It does not allocate.
#[derive(Debug, Drop)]
pub struct FaultReader<'a> {
    bytes: &'a [u8],
}

impl<'a> FaultReader<'a> {
    /// Creates a reader that yields the first `count` of the bytes, or all bytes if there are
    /// fewer, and then fails.
    pub fn new(bytes: &'a [u8], count: usize) -> FaultReader<'a>
        ensures { bytes_left result ≡ take count bytes.entry.now }
    {
        FaultReader {
            bytes: &bytes[..count.min(bytes.len())],
        }
    }
}

impl<'a> Read for FaultReader<'a> {
    ghost remaining = { λ reader. Some (bytes_left reader) };

    /// Reads as many bytes as are left and fit into the buffer, or fails if no byte is left.
    ///
    /// # Errors
    ///
    /// `ErrorKind::Other` if no byte is left, even if the buffer is empty.
    fn read(&mut self, buf: &mut [u8]) -> io::Result<usize>
        ensures bound { ReadsAtMost result buf.new }
        ensures bytes { ReadConsumes (Some (bytes_left self.old))
            (Some (bytes_left self.new)) result buf.new }
        ensures front { ReadsFront (bytes_left self.old) (bytes_left self.new) buf.new result }
        ensures kind { IfErr result (λ error. error_kind error ≡ ErrorKind.Other) }
    {
        if self.bytes.is_empty() {
            return Err(Error::from(ErrorKind::Other));
        }
        self.bytes.read(buf)
    }
}

impl<'a> BufRead for FaultReader<'a> {
    /// Returns all the bytes that are left, or fails if no byte is left. The bytes are not taken:
    /// [`BufRead::consume`] takes them.
    ///
    /// # Errors
    ///
    /// `ErrorKind::Other` if no byte is left.
    fn fill_buf(&mut self) -> io::Result<&[u8]>
        ensures front { IfOk result (λ s. StartsWith (bytes_left self.old) s.now) }
        ensures end { IfOk result (λ s. length s.now ≡ 0 → bytes_left self.old ≡ []) }
        ensures* after_borrow { sem 𝓛 (Rests (the_row (record { mir = named 1; lft = [] }))
            self.entry (λ new.
            FillKeeps (Some (bytes_left self.old)) (Some (bytes_left new)) None result)) }
        ensures value { MatchResult result (λ s. (s.now ≡ bytes_left self.old) × (s.now ≢ [])) (λ _.
            bytes_left self.old ≡ []) }
        ensures kind { IfErr result (λ error. error_kind error ≡ ErrorKind.Other) }
    {
        if self.bytes.is_empty() {
            return Err(Error::from(ErrorKind::Other));
        }
        Ok(self.bytes)
    }

    /// Takes `amount` bytes off the front, or all bytes if fewer are left.
    fn consume(&mut self, amount: usize)
        ensures bytes { DropsConsumable (Some (bytes_left self.old))
            (Some (bytes_left self.new)) None amount }
        ensures rest { bytes_left self.new ≡ drop amount (bytes_left self.old) }
    {
        self.bytes.consume(amount);
    }
}
