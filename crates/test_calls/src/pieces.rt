//! A reader in pieces, and a writer that takes nothing.

use std::io::{self, BufRead, Error, ErrorKind, Read, Write};

/// A reader that yields its bytes in pieces of a size, each after an interrupt, and then ends, or
/// fails for good.
#[derive(Drop)]
pub struct Pieces {
    /// The bytes that are left.
    pub bytes: &'static [u8],
    /// The number of bytes in a piece.
    pub size: usize,
    /// Whether the last call was interrupted.
    pub interrupted: bool,
    error: Option<ErrorKind>,
}

impl Pieces {
    /// Creates a reader of pieces with `size` bytes, which fails with `error` after the last, if
    /// there is one.
    pub fn new(bytes: &'static [u8], size: usize, error: Option<ErrorKind>) -> Pieces {
        Pieces {
            bytes,
            size,
            interrupted: false,
            error,
        }
    }
}

impl Read for Pieces {
    fn read(&mut self, _buf: &mut [u8]) -> io::Result<usize> {
        Err(Error::from(ErrorKind::Unsupported))
    }
}

impl BufRead for Pieces {
    fn fill_buf(&mut self) -> io::Result<&[u8]> {
        self.interrupted = !self.interrupted;
        if self.interrupted {
            return Err(Error::from(ErrorKind::Interrupted));
        }
        match self.error {
            Some(kind) if self.bytes.is_empty() => Err(Error::from(kind)),
            _ => Ok(&self.bytes[..self.size.min(self.bytes.len())]),
        }
    }

    fn consume(&mut self, amount: usize) {
        self.bytes = &self.bytes[amount.min(self.bytes.len())..];
    }
}

/// A writer that takes no byte of any write, and reports no error.
#[derive(Drop)]
pub struct Full;

impl Write for Full {
    fn write(&mut self, _buf: &[u8]) -> io::Result<usize> {
        Ok(0)
    }

    fn flush(&mut self) -> io::Result<()> {
        Ok(())
    }
}
