//! The reason why a text is not a CID.

use ipld_cid_text::TextError;
use std::fmt;

/// The reason why a text is not a CID. Its `Display` is a sentence. If the text encodes bytes that
/// are not a CID, it has their error.
#[derive(Clone, Copy)]
pub struct NoCid<'a> {
    text: &'a str,
    error: TextError,
}

impl<'a> NoCid<'a> {
    /// Explains the error of parsing this text.
    pub fn new(text: &'a str, error: TextError) -> Self {
        NoCid { text, error }
    }

    // Writes why the beginning of the text, after `/ipfs/`, is not that of a CID.
    fn write_beginning<W: fmt::Write>(&self, f: &mut fmt::Formatter<W>) -> fmt::Result {
        let text = self.text.strip_prefix("/ipfs/").unwrap_or(self.text);
        if text.starts_with("Qm") {
            return f.write_str(if text.contains('/') {
                "a path follows it"
            } else {
                "a CID that begins with Qm has 46 characters"
            });
        }
        match text.chars().next() {
            Some(prefix) => write!(f, "unknown multibase prefix {prefix:?}"),
            None => f.write_str("the text is empty"),
        }
    }

    // Writes the character at this byte of the text.
    fn write_letter<W: fmt::Write>(&self, f: &mut fmt::Formatter<W>, place: usize) -> fmt::Result {
        match self.text.get(place..).and_then(|rest| rest.chars().next()) {
            Some('/') => f.write_str("a path follows it, from ")?,
            Some(letter) => write!(f, "invalid character {letter:?} at ")?,
            None => f.write_str("invalid character at ")?,
        }
        write!(f, "byte {place}")
    }
}

impl<'a> fmt::Display for NoCid<'a> {
    fn fmt<W: fmt::Write>(&self, f: &mut fmt::Formatter<W>) -> fmt::Result {
        f.write_str("not a CID: ")?;
        match self.error {
            TextError::UnknownBase => self.write_beginning(f),
            TextError::InvalidLetter(place) => self.write_letter(f, place),
            error => error.fmt(f),
        }
    }
}
