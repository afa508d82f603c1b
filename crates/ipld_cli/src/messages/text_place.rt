//! The line and the column of a byte in a text.

use std::fmt;

/// A line, and in it a column of bytes, both from 1. Its `Display` is `line 1, column 2`.
#[derive(Clone, Copy, Debug, PartialEq, Eq)]
pub struct TextPlace {
    line: usize,
    column: usize,
}

impl fmt::Display for TextPlace {
    fn fmt<W: fmt::Write>(&self, f: &mut fmt::Formatter<W>) -> fmt::Result {
        write!(f, "line {}, column {}", self.line, self.column)
    }
}

impl TextPlace {
    /// Returns the line and the column of the byte at this offset.
    pub fn of_offset(text: &[u8], offset: usize) -> Self {
        let mut line = 1usize;
        let mut column = 1usize;
        for byte in text.iter().take(offset) {
            if *byte == b'\n' {
                line = line.saturating_add(1);
                column = 1;
            } else {
                column = column.saturating_add(1);
            }
        }
        TextPlace { line, column }
    }
}
