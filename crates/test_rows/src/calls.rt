//! The calls with which a type reads a tree, through their bound.

use crate::tree_words;
use ipld_cid::CID_SERDE_PRIVATE_IDENTIFIER;
use ipld_de::{Deserializer, MapDeserializer, SeqDeserializer};
use ipld_ser::SerdeError;
use ipld_tree::Ipld;
use std::alloc::{AllocError, Global};
use std::fmt::Debug;

/// Returns the result of a call: `CALL|TREE`. The calls for numbers are made by the types' own
/// `deserialize`.
pub fn call(alloc: Global, row: &str) -> Result<String, AllocError> {
    let (call, words) = row.split_once('|').unwrap_or((row, ""));
    match tree_words::tree(alloc, words)? {
        Some(tree) => content(alloc, call, tree),
        None => String::from_str(alloc, "no tree"),
    }
}

fn text_of_outcome<T: Debug + Drop>(
    alloc: Global,
    outcome: Result<T, SerdeError>,
) -> Result<String, AllocError> {
    format!(in alloc; "{outcome:?}")
}

fn content<D: Deserializer + Drop>(
    alloc: Global,
    call: &str,
    tree: D,
) -> Result<String, AllocError> {
    match call {
        "str" => text_of_outcome(alloc, tree.deserialize_str()),
        "string" => text_of_outcome(alloc, tree.deserialize_string()),
        "identifier" => text_of_outcome(alloc, tree.deserialize_identifier()),
        "bytes" => text_of_outcome(alloc, tree.deserialize_bytes()),
        "byte_buf" => text_of_outcome(alloc, tree.deserialize_byte_buf()),
        "option" => text_of_outcome(alloc, tree.deserialize_option()),
        _ => structure(alloc, call, tree),
    }
}

fn structure<D: Deserializer + Drop>(
    alloc: Global,
    call: &str,
    tree: D,
) -> Result<String, AllocError> {
    match call {
        "unit" => text_of_outcome(alloc, tree.deserialize_unit()),
        "unit_struct" => text_of_outcome(alloc, tree.deserialize_unit_struct("Unit")),
        "any" => text_of_outcome(alloc, tree.deserialize_any()),
        "ignored_any" => text_of_outcome(alloc, tree.deserialize_ignored_any()),
        "is_human_readable" => format!(in alloc; "{}", tree.is_human_readable()),
        "newtype of CIDs" => {
            text_of_outcome(
                alloc,
                tree.deserialize_newtype_struct(CID_SERDE_PRIVATE_IDENTIFIER),
            )
        }
        "newtype" => text_of_outcome(alloc, tree.deserialize_newtype_struct("Wrapped")),
        _ => cursor(alloc, call, tree),
    }
}

fn cursor<D: Deserializer + Drop>(
    alloc: Global,
    call: &str,
    tree: D,
) -> Result<String, AllocError> {
    match call {
        "seq" => items(alloc, tree.deserialize_seq()),
        "tuple" => items(alloc, tree.deserialize_tuple(9)),
        "tuple_struct" => items(alloc, tree.deserialize_tuple_struct("T", 0)),
        "map" => members(alloc, tree.deserialize_map()),
        "struct" => members(alloc, tree.deserialize_struct("S", &["b", "c"])),
        _ => String::from_str(alloc, "no such call"),
    }
}

// Returns how many items are left, or the error.
fn items(
    alloc: Global,
    outcome: Result<SeqDeserializer, SerdeError>,
) -> Result<String, AllocError> {
    match outcome {
        Ok(items) => format!(in alloc; "{} left", items.remaining()),
        Err(error) => format!(in alloc; "{error:?}"),
    }
}

fn members(
    alloc: Global,
    outcome: Result<MapDeserializer, SerdeError>,
) -> Result<String, AllocError> {
    match outcome {
        Ok(members) => format!(in alloc; "{} left", members.remaining()),
        Err(error) => format!(in alloc; "{error:?}"),
    }
}
