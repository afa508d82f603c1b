//! Trees written as words, such as `{ place: text:Brno degrees: -4 }`.

use ipld_cid::Cid;
use ipld_cid_text::parse_any;
use ipld_tree::Ipld;
use ipld_tree::macros::put;
use std::alloc::{AllocError, Global};
use std::collections::BTreeMap;
use std::mem;

/// The bytes of a CID of version 1, codec raw, identity hash, with an empty digest.
pub const A: [u8; 4] = [0x01, 0x55, 0x00, 0x00];

/// Returns the tree that the words between blanks describe. The words are:
///
/// - `null`, `true`, `false` and numbers
/// - `text:x` for a string, `empty` for the empty string, and `utf8:` before the hexadecimal digits
///   of a string
/// - `bytes:x` for the bytes of a string, `A` for those of a CID, and `link` for that CID as a link
/// - `link:x` for the CID of a text, and `cid:x` for one in any base
/// - `[` and `]` around the items of a list
/// - `{` and `}` around the members of a map, with keys such as `x:`
///
/// After a tree, `lists*9` puts it into 9 nested lists, `between*9` into lists between null and
/// true, and `maps*9` into maps under the key `k`. `mixed*9` puts it into 9 pairs of such a map in
/// such a list. Returns `None` for any other words.
pub fn tree(alloc: Global, words: &str) -> Result<Option<Ipld>, AllocError> {
    let mut outer = Vec::new(alloc);
    let mut items = Vec::new(alloc);
    for word in words.split_ascii_whitespace() {
        let tree = match word {
            "[" | "{" => {
                outer.push(mem::replace(&mut items, Vec::new(alloc)))?;
                continue;
            }
            "]" | "}" => match outer.pop() {
                Some(before) => closed(alloc, word, mem::replace(&mut items, before))?,
                None => None,
            },
            _ => match levels(word) {
                Some((level, times)) => match items.pop() {
                    Some(inner) => Some(nested(alloc, level, times, inner)?),
                    None => None,
                },
                None => single(alloc, word)?,
            },
        };
        match tree {
            Some(tree) => items.push(tree)?,
            None => return Ok(None),
        }
    }
    if items.len() > 1 || !outer.is_empty() {
        return Ok(None);
    }
    Ok(items.pop())
}

// Returns the list or the map of the items, by the word that closes it.
fn closed(alloc: Global, word: &str, items: Vec<Ipld>) -> Result<Option<Ipld>, AllocError> {
    match word {
        "]" => Ok(Some(Ipld::List(items))),
        _ if items.len() % 2 == 0 => members(alloc, items),
        _ => Ok(None),
    }
}

// Returns the map of keys, each before its value.
fn members(alloc: Global, items: Vec<Ipld>) -> Result<Option<Ipld>, AllocError> {
    let mut members = BTreeMap::new(alloc);
    let mut waiting = None;
    for item in items {
        match (waiting.take(), item) {
            (Some(key), value) => put(&mut members, key, value)?,
            (None, Ipld::String(key)) => waiting = Some(key),
            (None, _) => return Ok(None),
        }
    }
    Ok(Some(Ipld::Map(members)))
}

// Returns a tree of one word.
fn single(alloc: Global, word: &str) -> Result<Option<Ipld>, AllocError> {
    match word.split_once(':') {
        Some(("text", content)) => Ok(Some(text(alloc, content)?)),
        Some(("utf8", digits)) => of_digits(alloc, digits),
        Some(("bytes", content)) => Ok(Some(bytes(alloc, content.as_bytes())?)),
        Some(("link", content)) if !content.is_empty() => Ok(link(alloc, content)),
        Some(("cid", content)) if !content.is_empty() => Ok(
            parse_any(content).ok().map(Ipld::Link),
        ),
        Some((key, _)) => Ok(Some(text(alloc, key)?)),
        None => match word {
            "empty" => Ok(Some(text(alloc, "")?)),
            "A" => Ok(Some(bytes(alloc, &A)?)),
            _ => Ok(small(word)),
        },
    }
}

// Returns the string whose bytes in UTF-8 are written as the digits.
fn of_digits(alloc: Global, digits: &str) -> Result<Option<Ipld>, AllocError> {
    let Ok(bytes) = hex::decode(alloc, digits) else {
        return Ok(None);
    };
    match str::from_utf8(bytes.as_slice()) {
        Ok(content) => Ok(Some(text(alloc, content)?)),
        Err(_) => Ok(None),
    }
}

// The kind of a level that contains the next.
#[derive(Clone, Copy)]
enum Level {
    List,
    Between,
    Map,
    Mixed,
}

fn levels(word: &str) -> Option<(Level, u32)> {
    let (name, times) = word.split_once('*')?;
    let times = times.parse().ok()?;
    match name {
        "lists" => Some((Level::List, times)),
        "between" => Some((Level::Between, times)),
        "maps" => Some((Level::Map, times)),
        "mixed" => Some((Level::Mixed, times)),
        _ => None,
    }
}

fn nested(alloc: Global, level: Level, times: u32, inner: Ipld) -> Result<Ipld, AllocError> {
    let mut tree = inner;
    for _ in 0..times {
        tree = around(alloc, level, tree)?;
    }
    Ok(tree)
}

fn around(alloc: Global, level: Level, inner: Ipld) -> Result<Ipld, AllocError> {
    match level {
        Level::List => list_of(alloc, inner),
        Level::Between => between(alloc, inner),
        Level::Map => map_of(alloc, inner),
        Level::Mixed => between(alloc, map_of(alloc, inner)?),
    }
}

fn list_of(alloc: Global, inner: Ipld) -> Result<Ipld, AllocError> {
    Ok(Ipld::List(Vec::from_array(alloc, [inner])?))
}

fn between(alloc: Global, inner: Ipld) -> Result<Ipld, AllocError> {
    let items = [Ipld::Null, inner, Ipld::Bool(true)];
    Ok(Ipld::List(Vec::from_array(alloc, items)?))
}

fn map_of(alloc: Global, inner: Ipld) -> Result<Ipld, AllocError> {
    let mut members = BTreeMap::new(alloc);
    put(&mut members, String::from_str(alloc, "k")?, inner)?;
    Ok(Ipld::Map(members))
}

fn text(alloc: Global, text: &str) -> Result<Ipld, AllocError> {
    Ok(Ipld::String(String::from_str(alloc, text)?))
}

fn bytes(alloc: Global, bytes: &[u8]) -> Result<Ipld, AllocError> {
    Ok(Ipld::Bytes(Vec::from_slice(alloc, bytes)?))
}

fn link(alloc: Global, text: &str) -> Option<Ipld> {
    Some(Ipld::Link(Cid::from_text(alloc, text).ok()?))
}

fn small(word: &str) -> Option<Ipld> {
    match word {
        "null" => Some(Ipld::Null),
        "true" => Some(Ipld::Bool(true)),
        "false" => Some(Ipld::Bool(false)),
        "link" => Some(Ipld::Link(Cid::try_from(A.as_slice()).ok()?)),
        _ => Some(Ipld::Integer(word.parse().ok()?)),
    }
}
