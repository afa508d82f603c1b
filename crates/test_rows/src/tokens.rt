//! Values read from tokens, and the tokens of trees.

use crate::token_words::tokens;
use crate::tree_words;
use dag_cbor::CborTokens;
use ipld_tokens::{
    ExtractLinks, IpldTokens, SliceSource, Token, TokenSource, read_ipld, read_ipld_within,
};
use ipld_tree::{Ipld, Limits};
use std::alloc::{AllocError, Global};
use std::fmt::Debug;

// Returns how many tokens a source still has, counted up to `most`.
fn left<'a, T: TokenSource<'a>>(source: &mut T, most: usize) -> usize {
    for count in 0..most {
        match source.next_token() {
            Ok(Some(_)) => {}
            Ok(None) | Err(_) => return count,
        }
    }
    most
}

fn extracted<'a, const S: usize>(
    alloc: Global,
    tokens: &'a [Token<'a>],
) -> Result<String, AllocError> {
    let mut source = SliceSource::new(tokens);
    let found = ExtractLinks::<S>::deserialize(alloc, &mut source);
    let left = left(&mut source, tokens.len());
    format!(in alloc; "{found:?}, {left} left")
}

/// Returns the links of the tokens. The capacity for their digest comes before them.
pub fn links(alloc: Global, line: &str) -> Result<String, AllocError> {
    let (capacity, words) = line.split_once(' ').unwrap_or((line, ""));
    let Some(tokens) = tokens(alloc, words)? else {
        return String::from_str(alloc, "no tokens");
    };
    match capacity {
        "0" => extracted::<0>(alloc, tokens.as_slice()),
        "1" => extracted::<1>(alloc, tokens.as_slice()),
        "16" => extracted::<16>(alloc, tokens.as_slice()),
        "32" => extracted::<32>(alloc, tokens.as_slice()),
        "64" => extracted::<64>(alloc, tokens.as_slice()),
        _ => String::from_str(alloc, "no such capacity"),
    }
}

/// Returns the tree of the tokens.
pub fn tree(alloc: Global, words: &str) -> Result<String, AllocError> {
    let Some(tokens) = tokens(alloc, words)? else {
        return String::from_str(alloc, "no tokens");
    };
    let mut source = SliceSource::new(tokens.as_slice());
    let tree = read_ipld(alloc, &mut source);
    let left = left(&mut source, tokens.len());
    match tree {
        Ok(tree) => format!(in alloc; "{tree:?}, {left} left"),
        Err(error) => format!(in alloc; "{error:?}, {left} left"),
    }
}

/// Returns the tree of the tokens within limits: levels, values and the tokens.
pub fn tree_within(alloc: Global, row: &str) -> Result<String, AllocError> {
    let (levels, rest) = row.split_once(' ').unwrap_or(("", row));
    let (values, words) = rest.split_once(' ').unwrap_or(("", rest));
    let (Ok(levels), Ok(values)) = (levels.parse::<usize>(), values.parse::<usize>()) else {
        return String::from_str(alloc, "no limits");
    };
    let Some(tokens) = tokens(alloc, words)? else {
        return String::from_str(alloc, "no tokens");
    };
    let mut source = SliceSource::new(tokens.as_slice());
    let tree = read_ipld_within(alloc, &mut source, &Limits { levels, values });
    let left = left(&mut source, tokens.len());
    format!(in alloc; "{tree:?}, {left} left")
}

/// Returns the tokens of the tree.
pub fn of_tree(alloc: Global, words: &str) -> Result<String, AllocError> {
    let Some(tree) = tree_words::tree(alloc, words)? else {
        return String::from_str(alloc, "no tree");
    };
    match IpldTokens::new(alloc, &tree) {
        Ok(mut source) => listed(alloc, &mut source),
        Err(_) => String::from_str(alloc, "no tokens"),
    }
}

/// Returns the tokens of the block.
pub fn of_block(alloc: Global, digits: &str) -> Result<String, AllocError> {
    match hex::decode(alloc, digits) {
        Ok(block) => listed(alloc, &mut CborTokens::new(alloc, block.as_slice())),
        Err(_) => String::from_str(alloc, "no bytes"),
    }
}

// Returns the tokens of the source, each with a blank after it. An error follows them, with whether
// the source has failed.
fn listed<'a, T: TokenSource<'a>>(alloc: Global, source: &mut T) -> Result<String, AllocError>
where
    T::Fault: Debug,
{
    let mut text = String::new(alloc);
    for _ in 0..100u8 {
        match source.next_token() {
            Ok(Some(token)) => text.push_str(text_of_token(alloc, &token)?.as_str())?,
            Ok(None) => return Ok(text),
            Err(error) => return format!(in alloc; "{text}{error:?} {}", source.has_failed()),
        }
    }
    Ok(text)
}

// Returns the token, with a blank after it.
fn text_of_token(alloc: Global, token: &Token<'_>) -> Result<String, AllocError> {
    match token {
        Token::Bytes(bytes) => format!(in alloc; "Bytes({:?}) ", bytes.as_slice()),
        token => format!(in alloc; "{token:?} "),
    }
}

/// Returns the depth of the tokens' tree, or the error. Also returns whether they are read within
/// the default limits, or the error.
pub fn measured(alloc: Global, words: &str) -> Result<String, AllocError> {
    let Some(tokens) = tokens(alloc, words)? else {
        return String::from_str(alloc, "no tokens");
    };
    let whole = match read_ipld(alloc, &mut SliceSource::new(tokens.as_slice())) {
        Ok(tree) => nesting(alloc, tree)?,
        Err(error) => format!(in alloc; "{error:?}")?,
    };
    let limits = Limits::default();
    match read_ipld_within(alloc, &mut SliceSource::new(tokens.as_slice()), &limits) {
        Ok(tree) => tree.discard(),
        Err(error) => return format!(in alloc; "{whole}; {error:?}"),
    }
    format!(in alloc; "{whole}; within the limits")
}

fn nesting(alloc: Global, tree: Ipld) -> Result<String, AllocError> {
    let levels = tree.try_nesting(alloc);
    tree.discard();
    format!(in alloc; "{} levels", levels?)
}
