//! The error of a text that is not DAG-JSON.

use crate::messages::text_place::TextPlace;
use dag_json::{ReadError, ReadErrorKind, floats};
use std::{fmt, str};

// The most bytes of a key that is part of a sentence.
const SHORT_KEY: usize = 64;

/// The error of a text that is not DAG-JSON. Its `Display` is a sentence after the line, the column
/// and the byte.
#[derive(Clone, Copy, Debug)]
pub struct JsonExplanation<'a> {
    text: &'a [u8],
    error: ReadError,
    has_floats: bool,
}

impl<'a> JsonExplanation<'a> {
    /// Explains the error of a text that may have floats.
    pub fn new(text: &'a [u8], error: ReadError) -> Self {
        JsonExplanation {
            text,
            error,
            has_floats: true,
        }
    }

    /// Explains the error of a text for a codec that doesn't allow floats.
    pub fn without_floats(text: &'a [u8], error: ReadError) -> Self {
        JsonExplanation {
            text,
            error,
            has_floats: false,
        }
    }

    // Returns the sentence for an error without a key.
    fn sentence(&self) -> &'static str {
        match self.error.kind {
            ReadErrorKind::TooDeep => "arrays and objects nest deeper than 1024 levels",
            ReadErrorKind::NotCanonical => {
                "not canonical DAG-JSON (without --canonical, it is read)"
            }
            kind if self.has_floats => floats::sentence(kind),
            ReadErrorKind::Float => "a float (only --codec dag-cbor allows floats)",
            kind => kind.sentence(),
        }
    }
}

impl<'a> fmt::Display for JsonExplanation<'a> {
    fn fmt<W: fmt::Write>(&self, f: &mut fmt::Formatter<W>) -> fmt::Result {
        let offset = self.error.offset;
        let place = TextPlace::of_offset(self.text, offset);
        write!(f, "{place} (byte {offset}): {}", self.sentence())?;
        if self.error.kind != ReadErrorKind::DuplicateKey {
            return Ok(());
        }
        match key_at(self.text, offset) {
            Some(key) => write!(f, " \"{key}\""),
            None => Ok(()),
        }
    }
}

// Returns the key at this byte of a text as it is written, if it is short and has no escapes.
fn key_at(text: &[u8], offset: usize) -> Option<&str> {
    let (key, _) = str::from_utf8(text.get(offset..)?)
        .ok()?
        .strip_prefix('"')?
        .split_once('"')?;
    if key.len() <= SHORT_KEY && !key.contains('\\') {
        Some(key)
    } else {
        None
    }
}
