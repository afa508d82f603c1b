//! The progress of reading a file, on standard error.

use crate::complaints::complain;
use std::io::{self, Read};
use std::time::Instant;

// The number of seconds between two lines.
const SECONDS: u64 = 1;

/// The progress that is shown of a file while it is read.
#[derive(Clone, Copy)]
pub struct ProgressLine<'a> {
    rt: &'a HostRuntime,
    // The name of the file, and its size in bytes, if that is known.
    file: &'a str,
    total: Option<u64>,
    // The time when reading began, or `None` if nothing is to be shown.
    begun: Option<Instant>,
}

impl<'a> ProgressLine<'a> {
    /// Begins to show the progress of a file of `total` bytes, or of an unknown size, if `is_asked`
    /// is true. Without a clock, only the end is shown.
    pub fn new(rt: &'a HostRuntime, file: &'a str, total: Option<u64>, is_asked: bool) -> Self {
        let begun = if is_asked {
            Instant::now(rt).ok()
        } else {
            None
        };
        ProgressLine {
            rt,
            file,
            total,
            begun,
        }
    }

    // Returns how many seconds it took so far.
    fn seconds(&self) -> u64 {
        match self.begun {
            Some(begun) => match begun.elapsed(self.rt) {
                Ok(elapsed) => elapsed.as_secs(),
                Err(_) => 0,
            },
            None => 0,
        }
    }

    /// Writes a line with the number of bytes that were read, and the total if that is known.
    pub fn write_line(&self, read: u64) {
        let file = self.file;
        match self.total {
            Some(total) => complain(
                self.rt,
                &format_args!("{file}: {read} of {total} bytes read"),
            ),
            None => complain(self.rt, &format_args!("{file}: {read} bytes read")),
        }
    }

    // Writes the number of bytes that were read. If the size is known, also writes it and the time
    // that is left.
    fn write_time(&self, read: u64, seconds: u64) {
        match self.total {
            Some(total) if read > 0 && read <= total => {
                let file = self.file;
                let left = u128::from(seconds) * u128::from(total - read) / u128::from(read);
                complain(
                    self.rt,
                    &format_args!("{file}: {read} of {total} bytes read, {left} seconds left"),
                );
            }
            _ => self.write_line(read),
        }
    }
}

/// A reader that shows how much was read, once a second.
#[derive(Drop)]
pub struct Progress<'a, R> {
    reader: R,
    shown: ProgressLine<'a>,
    read: u64,
    // The number of seconds that had passed at the last line.
    seconds: u64,
}

impl<'a, R: Read> Progress<'a, R> {
    /// Creates a reader that has read nothing yet.
    pub fn new(reader: R, shown: ProgressLine<'a>) -> Self {
        Progress {
            reader,
            shown,
            read: 0,
            seconds: 0,
        }
    }
}

impl<'a, R: Read> Read for Progress<'a, R> {
    fn read(&mut self, buf: &mut [u8]) -> io::Result<usize> {
        let count = self.reader.read(buf)?;
        self.read = self.read.saturating_add(count as u64);
        let seconds = self.shown.seconds();
        if seconds >= self.seconds.saturating_add(SECONDS) {
            self.seconds = seconds;
            self.shown.write_time(self.read, seconds);
        }
        Ok(count)
    }
}
