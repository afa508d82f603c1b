//! The reason why an output is not written.

use std::fmt;
use std::io::ErrorKind;

/// The reason why an output is not written. Its `Display` is a sentence.
#[derive(Clone, Copy)]
pub struct WriteFailure(pub ErrorKind);

impl fmt::Display for WriteFailure {
    fn fmt<W: fmt::Write>(&self, f: &mut fmt::Formatter<W>) -> fmt::Result {
        match self.0 {
            // The system reports a closed output, among other errors, by this kind.
            ErrorKind::Uncategorized => f.write_str("cannot write: the output may be closed"),
            kind => write!(f, "cannot write: {kind}"),
        }
    }
}
