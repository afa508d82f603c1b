//! Trees as DAG-JSON.

use crate::parts::limited;
use crate::tree_words;
use dag_json::{
    JsonTapeError, ReadError, floats, from_canonical, from_slice, from_str, tape_from_slice,
    to_string, to_vec,
};
use ipld_tree::{Ipld, Limits};
use std::alloc::{AllocError, Global};
use std::str;

/// Returns the text of a tree, or the error.
pub fn tree(alloc: Global, words: &str) -> Result<String, AllocError> {
    let Some(tree) = tree_words::tree(alloc, words)? else {
        return String::from_str(alloc, "no tree");
    };
    let written = to_string(alloc, &tree);
    let bytes = to_vec(alloc, &tree);
    tree.discard();
    match (written, bytes) {
        (Ok(text), Ok(bytes)) => {
            if text.as_bytes() == bytes.as_slice() {
                Ok(text)
            } else {
                another(alloc)
            }
        }
        (Err(error), Err(other)) => {
            if error == other {
                format!(in alloc; "{}: {error}", error.name())
            } else {
                another(alloc)
            }
        }
        _ => another(alloc),
    }
}

fn another(alloc: Global) -> Result<String, AllocError> {
    String::from_str(alloc, "another text as bytes")
}

/// Reads a text within limits: levels, values and the text.
pub fn read(alloc: Global, row: &str) -> Result<String, AllocError> {
    match limited(alloc, row)? {
        Some((limits, text)) => read_within(alloc, text.as_slice(), &limits),
        None => String::from_str(alloc, "no limits and bytes"),
    }
}

// Returns the canonical text, after `=` if it is this one, or the reason why the text has no tree.
fn read_within(alloc: Global, text: &[u8], limits: &Limits) -> Result<String, AllocError> {
    let of_str = match str::from_utf8(text) {
        Ok(text) => is_read(from_str(alloc, text, limits)),
        Err(_) => false,
    };
    match from_slice(alloc, text, limits) {
        Ok(tree) => {
            let written = to_string(alloc, &tree);
            tree.discard();
            match written {
                Ok(written) if of_str => compared(alloc, text, limits, &written),
                Ok(_) => String::from_str(alloc, "another outcome as a string"),
                Err(error) => String::from_str(alloc, error.name()),
            }
        }
        Err(_) if of_str => String::from_str(alloc, "another outcome as a string"),
        Err(error) => text_of_error(alloc, &error),
    }
}

// Returns the name of an error, and the byte of the text at which it is.
fn text_of_error(alloc: Global, error: &ReadError) -> Result<String, AllocError> {
    format!(in alloc; "{} at byte {}", error.kind.name(), error.offset)
}

/// Returns whether a text that may have floats is read within limits, both into a tree and into a
/// tape: `ok`, or the error.
pub fn read_floats(alloc: Global, row: &str) -> Result<String, AllocError> {
    let Some((limits, text)) = limited(alloc, row)? else {
        return String::from_str(alloc, "no limits and bytes");
    };
    let tree = match floats::from_slice(alloc, text.as_slice(), &limits) {
        Ok(tree) => {
            tree.discard();
            Ok(())
        }
        Err(error) => Err(error),
    };
    let tape = match tape_from_slice(alloc, text.as_slice(), &limits) {
        Ok(_) => Ok(()),
        Err(JsonTapeError::Text(error)) => Err(error),
        Err(JsonTapeError::TooLong) => return String::from_str(alloc, "too long for a tape"),
    };
    if tree != tape {
        return String::from_str(alloc, "another outcome as a tape");
    }
    match tree {
        Ok(()) => String::from_str(alloc, "ok"),
        Err(error) => text_of_error(alloc, &error),
    }
}

// Returns whether a tree was read.
fn is_read<E: Drop>(read: Result<Ipld, E>) -> bool {
    match read {
        Ok(tree) => {
            tree.discard();
            true
        }
        Err(_) => false,
    }
}

// Returns the text that is written for a tree, and the verdict on the text that was read.
fn compared(
    alloc: Global,
    text: &[u8],
    limits: &Limits,
    written: &str,
) -> Result<String, AllocError> {
    match from_canonical(alloc, text, limits) {
        Ok(tree) => {
            tree.discard();
            format!(in alloc; "={written}")
        }
        Err(error) => {
            let error = text_of_error(alloc, &error)?;
            format!(in alloc; "{written} {error}")
        }
    }
}
