//! Standard output through a buffer.

use std::io::{self, BufWriter, ErrorKind, Write};

/// A writer that also accepts output that nobody reads any more, so that a check runs to its end.
#[derive(Drop)]
pub struct UntilClosed<'a, W> {
    writer: &'a mut W,
}

impl<'a, W: Write> UntilClosed<'a, W> {
    /// Creates a writer to this writer.
    pub fn new(writer: &'a mut W) -> UntilClosed<'a, W> {
        UntilClosed { writer }
    }
}

impl<'a, W: Write> Write for UntilClosed<'a, W> {
    fn write(&mut self, buf: &[u8]) -> io::Result<usize> {
        match self.writer.write(buf) {
            Err(error) if error.kind() == ErrorKind::BrokenPipe => Ok(buf.len()),
            written => written,
        }
    }

    fn flush(&mut self) -> io::Result<()> {
        self.writer.flush()
    }
}

/// Ends output through a buffer. Flushes it, unless a write failed. Bytes that could not be written
/// are not tried again; dropping the buffer would retry them.
pub fn end_writer<W: Write + Drop>(writer: BufWriter<W>, has_failed: bool) -> io::Result<()> {
    let mut writer = writer;
    let ended = if has_failed { Ok(()) } else { writer.flush() };
    let _ = writer.into_parts();
    ended
}
