//! The reason why a block, or the value at a path in it, is not printed.

use ipld_show::ShowError;
use std::fmt;

/// The reason why a block, or the value at a path in it, is not printed. Its `Display` is a
/// sentence. If the path leads nowhere, it has the segment at fault and the path before it.
#[derive(Clone, Copy)]
pub struct ShowExplanation<'a> {
    path: &'a str,
    error: &'a ShowError,
}

impl<'a> ShowExplanation<'a> {
    /// Explains the error of printing the value at this path.
    pub fn new(path: &'a str, error: &'a ShowError) -> Self {
        ShowExplanation { path, error }
    }

    // Writes the segments from one number to another, counted from 1, in quotation marks. Empty
    // segments don't count.
    fn write_segments<W: fmt::Write>(
        &self,
        f: &mut fmt::Formatter<W>,
        from: usize,
        to: usize,
    ) -> fmt::Result {
        f.write_str("\"")?;
        let mut number = 0usize;
        for segment in self.path.split('/') {
            if segment.is_empty() {
                continue;
            }
            number = number.saturating_add(1);
            if number > to {
                break;
            }
            if number > from {
                f.write_str("/")?;
            }
            if number >= from {
                f.write_str(segment)?;
            }
        }
        f.write_str("\"")
    }

    // Writes the path before the segment with this number.
    fn write_before<W: fmt::Write>(&self, f: &mut fmt::Formatter<W>, number: usize) -> fmt::Result {
        self.write_segments(f, 1, number.saturating_sub(1))
    }
}

impl<'a> fmt::Display for ShowExplanation<'a> {
    fn fmt<W: fmt::Write>(&self, f: &mut fmt::Formatter<W>) -> fmt::Result {
        match *self.error {
            ShowError::NoSegment(number) => {
                f.write_str("no key or index ")?;
                self.write_segments(f, number, number)?;
                if number > 1 {
                    f.write_str(" in ")?;
                    self.write_before(f, number)?;
                }
                Ok(())
            }
            ShowError::NotAContainer(number) => {
                if number > 1 {
                    self.write_before(f, number)?;
                } else {
                    f.write_str("the value")?;
                }
                f.write_str(" is not a list or a map, so it has no ")?;
                self.write_segments(f, number, number)
            }
            ShowError::Reserved(offset) => write!(
                f,
                "DAG-JSON cannot contain the map at byte {offset}, because its first key is \"/\" (use show without --json)"
            ),
            error => write!(f, "{error}"),
        }
    }
}
