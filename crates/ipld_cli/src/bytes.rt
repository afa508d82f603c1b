//! Bytes that can be read from any offset.

ghost use Rattle.std.specs.Prelude.{◌≤◌, length};

use std::fs::File;
use std::io::{self, Read};
use std::os::unix::fs::FileExt;

/// Bytes that can be read from any offset: a file, or bytes in memory that came from standard input
/// or a pipe.
#[derive(Drop)]
pub enum Bytes {
    /// A file.
    File(File),
    /// Bytes in memory.
    Memory(Vec<u8>),
}

/// A reader of bytes from one offset to another, or to the end of the bytes if that comes first.
#[derive(Clone, Copy)]
pub struct BytesAt<'a> {
    bytes: &'a Bytes,
    offset: u64,
    end: u64,
}

impl<'a> BytesAt<'a> {
    /// Creates a reader of these bytes.
    pub fn new(bytes: &'a Bytes, offset: u64, end: u64) -> Self {
        BytesAt { bytes, offset, end }
    }
}

// Copies bytes from an offset on, up to their end or the end of the buffer.
fn copy_at(bytes: &[u8], offset: u64, buf: &mut [u8]) -> usize
    ensures { result ≤ length buf.new }
{
    let start = usize::try_from(offset)
        .unwrap_or(usize::MAX)
        .min(bytes.len());
    let rest = &bytes[start..];
    let count = rest.len().min(buf.len());
    buf[..count].copy_from_slice(&rest[..count]);
    count
}

impl<'a> Read for BytesAt<'a> {
    fn read(&mut self, buf: &mut [u8]) -> io::Result<usize> {
        // No file has a byte there, and the system rejects such an offset.
        if self.offset > i64::MAX as u64 {
            return Ok(0);
        }
        let left = self.end.saturating_sub(self.offset);
        let most = usize::try_from(left).unwrap_or(usize::MAX).min(buf.len());
        let count = match self.bytes {
            Bytes::File(file) => file.read_at(&mut buf[..most], self.offset)?,
            Bytes::Memory(bytes) => copy_at(bytes, self.offset, &mut buf[..most]),
        };
        self.offset = self.offset.saturating_add(count as u64);
        Ok(count)
    }
}
