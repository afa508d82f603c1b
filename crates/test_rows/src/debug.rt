//! Debug strings of trees.

use crate::tree_words;
use std::alloc::{AllocError, Global};

/// Returns the two debug strings of a tree, the second as a debug string itself. Width, precision
/// and other flags change neither.
pub fn tree(alloc: Global, words: &str) -> Result<String, AllocError> {
    let Some(tree) = tree_words::tree(alloc, words)? else {
        return String::from_str(alloc, "no tree");
    };
    let plain = format!(in alloc; "{tree:?}")?;
    let named = format!(in alloc; "{tree:#?}")?;
    let flagged = format!(in alloc; "{tree:<+08.3?}{tree:>+#08.3?}")?;
    if flagged != format!(in alloc; "{plain}{named}")? {
        return String::from_str(alloc, "others with flags");
    }
    format!(in alloc; "{plain} {named:?}")
}
