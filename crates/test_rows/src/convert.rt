//! Conversions of trees.

use crate::tree_words;
use ipld_cid::Cid;
use ipld_tree::Ipld;
use ipld_tree::convert::ConversionError;
use std::alloc::{AllocError, Global};
use std::collections::BTreeMap;
use std::fmt::Debug;

/// Returns the tree as a type, and as an `Option` of it: `TYPE|TREE`.
pub fn tree(alloc: Global, line: &str) -> Result<String, AllocError> {
    let (name, words) = line.split_once('|').unwrap_or((line, ""));
    let (Some(tree), Some(same)) = (
        tree_words::tree(alloc, words)?,
        tree_words::tree(alloc, words)?,
    ) else {
        return String::from_str(alloc, "no tree");
    };
    content(alloc, name, tree, same)
}

fn convert_both<T, O>(alloc: Global, tree: Ipld, same: Ipld) -> Result<String, AllocError>
where
    T: TryFrom<Ipld, Error = ConversionError> + Debug + Drop,
    O: TryFrom<Ipld, Error = ConversionError> + Debug + Drop,
{
    let plain = convert_one::<T>(alloc, tree)?;
    let optional = convert_one::<O>(alloc, same)?;
    format!(in alloc; "{plain}; {optional}")
}

fn convert_one<T: TryFrom<Ipld, Error = ConversionError> + Debug + Drop>(
    alloc: Global,
    tree: Ipld,
) -> Result<String, AllocError> {
    match T::try_from(tree) {
        Ok(value) => format!(in alloc; "{value:?}"),
        Err(error) => format!(in alloc; "{error}"),
    }
}

fn signed(alloc: Global, name: &str, tree: Ipld, same: Ipld) -> Result<String, AllocError> {
    match name {
        "i8" => convert_both::<i8, Option<i8>>(alloc, tree, same),
        "i16" => convert_both::<i16, Option<i16>>(alloc, tree, same),
        "i32" => convert_both::<i32, Option<i32>>(alloc, tree, same),
        "i64" => convert_both::<i64, Option<i64>>(alloc, tree, same),
        "i128" => convert_both::<i128, Option<i128>>(alloc, tree, same),
        "isize" => convert_both::<isize, Option<isize>>(alloc, tree, same),
        _ => unsigned(alloc, name, tree, same),
    }
}

fn unsigned(alloc: Global, name: &str, tree: Ipld, same: Ipld) -> Result<String, AllocError> {
    match name {
        "u8" => convert_both::<u8, Option<u8>>(alloc, tree, same),
        "u16" => convert_both::<u16, Option<u16>>(alloc, tree, same),
        "u32" => convert_both::<u32, Option<u32>>(alloc, tree, same),
        "u64" => convert_both::<u64, Option<u64>>(alloc, tree, same),
        "u128" => convert_both::<u128, Option<u128>>(alloc, tree, same),
        "usize" => convert_both::<usize, Option<usize>>(alloc, tree, same),
        _ => String::from_str(alloc, "no such type"),
    }
}

fn content(alloc: Global, name: &str, tree: Ipld, same: Ipld) -> Result<String, AllocError> {
    match name {
        "()" => convert_one::<()>(alloc, tree),
        "bool" => convert_both::<bool, Option<bool>>(alloc, tree, same),
        "String" => convert_both::<String, Option<String>>(alloc, tree, same),
        "Vec<u8>" => convert_both::<Vec<u8>, Option<Vec<u8>>>(alloc, tree, same),
        "Vec<Ipld>" => convert_both::<Vec<Ipld>, Option<Vec<Ipld>>>(alloc, tree, same),
        "BTreeMap" => map(alloc, tree, same),
        "Cid" => convert_both::<Cid, Option<Cid>>(alloc, tree, same),
        _ => signed(alloc, name, tree, same),
    }
}

fn map(alloc: Global, tree: Ipld, same: Ipld) -> Result<String, AllocError> {
    convert_both::<BTreeMap<String, Ipld>, Option<BTreeMap<String, Ipld>>>(alloc, tree, same)
}
