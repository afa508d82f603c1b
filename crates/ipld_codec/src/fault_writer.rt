//! A writer that fails, for tests.

ghost use Rattle.std.specs.Prelude.{◌≡◌, ◌≢◌, IfErr, MatchResult};
ghost use Rattle.std.specs.IoError.{error_kind};
ghost use Rattle.std.specs.Io.{WritesAtMost};
ghost use Rattle.std.specs.Io.KnownBytes.{WriteAppends, Keeps};
ghost use Rattle.ipld_codec.specs.FailingEnds.{writes_left, unreported, TakesAll};

use std::io::{self, Error, ErrorKind, Write};

/// A writer whose first writes succeed and take the whole buffer. After them it fails for good.
///
/// It is for tests of code that writes. It keeps nothing and does not allocate, and no contract
/// specifies the bytes that it was given.
#[derive(Debug, Drop)]
pub struct FaultWriter {
    writes: usize,
}

impl FaultWriter {
    /// Creates a writer whose first `count` writes succeed, of any length, and which then fails.
    pub fn new(count: usize) -> FaultWriter
        ensures { writes_left result ≡ count }
    {
        FaultWriter { writes: count }
    }
}

impl Write for FaultWriter {
    /// Takes all of the buffer, or fails if no write is left. A write of an empty buffer counts as
    /// a write.
    ///
    /// # Errors
    ///
    /// `ErrorKind::Other` if no write is left.
    fn write(&mut self, buf: &[u8]) -> io::Result<usize>
        ensures bound { WritesAtMost result buf.now }
        ensures bytes { WriteAppends unreported unreported result buf.now }
        ensures takes { TakesAll (writes_left self.old) (writes_left self.new) buf.now result }
        ensures kind { IfErr result (λ error. error_kind error ≡ ErrorKind.Other) }
    {
        if self.writes == 0 {
            return Err(Error::from(ErrorKind::Other));
        }
        self.writes -= 1;
        Ok(buf.len())
    }

    /// Fails if no write is left. A flush does not count as a write.
    ///
    /// # Errors
    ///
    /// `ErrorKind::Other` if no write is left.
    fn flush(&mut self) -> io::Result<()>
        ensures bytes { Keeps unreported unreported }
        ensures outcome { MatchResult result (λ _. writes_left self.old ≢ 0) (λ _.
            writes_left self.old ≡ 0) }
        ensures stays { writes_left self.new ≡ writes_left self.old }
        ensures kind { IfErr result (λ error. error_kind error ≡ ErrorKind.Other) }
    {
        if self.writes == 0 {
            return Err(Error::from(ErrorKind::Other));
        }
        Ok(())
    }
}
