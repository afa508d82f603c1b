//! Looking into trees.

use crate::tree_words::tree;
use ipld_tree::{IndexError, IntoIndex, Ipld};
use std::alloc::{AllocError, Global};

/// Returns the value in a tree at an index, a text: `INDEX|TREE`.
pub fn by_text(alloc: Global, line: &str) -> Result<String, AllocError> {
    let (index, words) = line.split_once('|').unwrap_or((line, ""));
    look_up(alloc, words, index)
}

/// Returns the value in a tree at an index, a number: `INDEX|TREE`.
pub fn by_number(alloc: Global, line: &str) -> Result<String, AllocError> {
    let (index, words) = line.split_once('|').unwrap_or((line, ""));
    match index.parse::<usize>() {
        Ok(index) => look_up(alloc, words, index),
        Err(_) => String::from_str(alloc, "no number"),
    }
}

// Returns the value that is borrowed at the index, and the one that is taken.
fn look_up<'a, T: IntoIndex<'a> + Copy>(
    alloc: Global,
    words: &str,
    index: T,
) -> Result<String, AllocError> {
    let Some(tree) = tree(alloc, words)? else {
        return String::from_str(alloc, "no tree");
    };
    let lent = text_of_lent(alloc, tree.get(index))?;
    let taken = text_of_taken(alloc, tree.take(index))?;
    format!(in alloc; "{lent}; {taken}")
}

fn text_of_lent(
    alloc: Global,
    found: Result<Option<&Ipld>, IndexError<'_>>,
) -> Result<String, AllocError> {
    match found {
        Ok(found) => format!(in alloc; "{found:?}"),
        Err(error) => format!(in alloc; "{error}"),
    }
}

fn text_of_taken(
    alloc: Global,
    found: Result<Option<Ipld>, IndexError<'_>>,
) -> Result<String, AllocError> {
    match found {
        Ok(found) => format!(in alloc; "{found:?}"),
        Err(error) => format!(in alloc; "{error}"),
    }
}

/// Returns the value in a tree at a path: `PATH|TREE`.
pub fn by_path(alloc: Global, line: &str) -> Result<String, AllocError> {
    let (path, words) = line.split_once('|').unwrap_or((line, ""));
    match tree(alloc, words)? {
        Some(tree) => text_of_lent(alloc, tree.at_path(path)),
        None => String::from_str(alloc, "no tree"),
    }
}
