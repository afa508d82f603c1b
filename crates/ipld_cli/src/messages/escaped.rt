//! Text whose control characters are escaped.

use std::fmt::{self, Write};

/// A value whose `Display` has its control characters escaped, so that the name of a file can't
/// change a terminal: `\n`, `\t`, `\r`, or the number in hexadecimal, as in `\u{1b}`.
#[derive(Clone, Copy)]
pub struct Escaped<'a, D>(pub &'a D);

// A writer that escapes control characters.
#[derive(Drop)]
struct Escaping<'a, W> {
    writer: &'a mut fmt::Formatter<W>,
}

impl<'a, W: fmt::Write> fmt::Write for Escaping<'a, W> {
    fn write_str(&mut self, s: &str) -> fmt::Result {
        for c in s.chars() {
            if c.is_control() {
                write!(self.writer, "{}", c.escape_default())?;
            } else {
                self.writer.write_char(c)?;
            }
        }
        Ok(())
    }
}

impl<'a, D: fmt::Display> fmt::Display for Escaped<'a, D> {
    fn fmt<W: fmt::Write>(&self, f: &mut fmt::Formatter<W>) -> fmt::Result {
        write!(Escaping { writer: f }, "{}", self.0)
    }
}
