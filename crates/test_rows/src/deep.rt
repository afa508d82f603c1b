//! Trees of any depth, by the calls that do not recurse.

use crate::tree_words;
use ipld_tokens::IpldTokens;
use ipld_tree::Ipld;
use std::alloc::{AllocError, Global};

/// Returns the number of values of a tree, its depth and the number of its links.
pub fn walk_row(alloc: Global, words: &str) -> Result<String, AllocError> {
    match tree_words::tree(alloc, words)? {
        Some(tree) => describe_by_loop(alloc, tree),
        None => String::from_str(alloc, "no tree"),
    }
}

/// Returns the number of values of a tree, after a given number of walks to its end, each with a
/// source of its tokens. The allocations of one walk and one source are the difference between two
/// rows.
pub fn walks(alloc: Global, words: &str) -> Result<String, AllocError> {
    let Some((times, words)) = words.split_once(' ') else {
        return String::from_str(alloc, "no number");
    };
    let Some(tree) = tree_words::tree(alloc, words)? else {
        return String::from_str(alloc, "no tree");
    };
    let mut values = 0;
    for _ in 0..times.parse::<u8>().unwrap_or(0) {
        values = length(alloc, &tree)?;
        drop(IpldTokens::new(alloc, &tree)?);
    }
    tree.discard();
    format!(in alloc; "{values} values")
}

fn length(alloc: Global, tree: &Ipld) -> Result<usize, AllocError> {
    let mut walk = tree.iter(alloc)?;
    for length in 0..usize::MAX {
        if walk.next().is_none() {
            return Ok(length);
        }
    }
    Ok(usize::MAX)
}

fn describe_by_loop(alloc: Global, tree: Ipld) -> Result<String, AllocError> {
    let (values, levels) = (length(alloc, &tree)?, tree.try_nesting(alloc)?);
    let mut links = Vec::new(alloc);
    tree.references(alloc, &mut links)?;
    let copy = tree.try_clone(alloc)?;
    let is_same = copy.same_tree(alloc, &tree)?;
    // This call recurses.
    let recursed = levels > 1_000 || tree.nesting() == Some(levels);
    copy.discard();
    tree.discard();
    format!(in alloc;
        "{values} values, {levels} levels, {} links, {is_same}, {recursed}",
        links.len()
    )
}
