//! Typed values, read from trees and from blocks, and written again.

use crate::bytes::bytes;
use crate::own::described::{Shape, Trip};
use crate::own::described_forms::{Event, Mark, Metres, Photo, Place, Signal};
use crate::own::keys::{Colour, Town};
use crate::own::linked::{Attachment, Change, Edge, Post, Root, Version};
use crate::own::measurement::Measurement;
use crate::tree_words;
use dag_cbor_serde::{from_slice, to_vec};
use ipld_cid::Cid;
use ipld_core::serde::samples::{
    MyEnum, MyPair, MyStrict, MyStruct, Person, Tagged, TupleStruct, UnitStruct, Wrapped,
};
use ipld_de::{Deserialize, IgnoredAny, Lawful, from_ipld, write_and_read};
use ipld_ser::{ByteBuf, to_ipld};
use ipld_tree::Ipld;
use std::alloc::{AllocError, Global};
use std::collections::BTreeMap;
use std::fmt::Debug;

/// Returns the value that a type reads from a tree, and the tree that it is written as:
/// `TYPE|TREE`.
pub fn value(alloc: Global, row: &str) -> Result<String, AllocError> {
    let (name, words) = row.split_once('|').unwrap_or((row, ""));
    let Some(tree) = tree_words::tree(alloc, words)? else {
        return String::from_str(alloc, "no tree");
    };
    match name.split_once('.') {
        Some(("number", name)) => number(alloc, name, tree),
        Some(("list", name)) => list(alloc, name, tree),
        Some(("map", name)) => map(alloc, name, tree),
        Some(("tuple", name)) => tuple(alloc, name, tree),
        Some(("sample", name)) => sample(alloc, name, tree),
        Some(("own", name)) => own(alloc, name, tree),
        Some(("part", name)) => part(alloc, name, tree),
        Some(_) => no_such_type(alloc),
        None => scalar(alloc, name, tree),
    }
}

// Returns the outcome of a row with a misspelt type.
fn no_such_type(alloc: Global) -> Result<String, AllocError> {
    String::from_str(alloc, "no such type")
}

fn read<T: Lawful + PartialEq + Debug>(alloc: Global, tree: Ipld) -> Result<String, AllocError> {
    match from_ipld::<T>(alloc, tree) {
        Ok(value) => write_and_compare(alloc, &value),
        Err(error) => format!(in alloc; "{error:?}"),
    }
}

fn write_and_compare<T: Lawful + PartialEq + Debug>(
    alloc: Global,
    value: &T,
) -> Result<String, AllocError> {
    match to_ipld(alloc, value) {
        Ok(tree) if keeps(alloc, value) => format!(in alloc; "{value:?}; {tree:?}"),
        Ok(_) => format!(in alloc; "{value:?} is read as something else"),
        Err(error) => format!(in alloc; "{value:?}; {error:?}"),
    }
}

fn keeps<T: Lawful + PartialEq>(alloc: Global, value: &T) -> bool {
    matches!(write_and_read(alloc, value), Ok(back) if back == *value)
}

fn scalar(alloc: Global, name: &str, tree: Ipld) -> Result<String, AllocError> {
    match name {
        "()" => read::<()>(alloc, tree),
        "bool" => read::<bool>(alloc, tree),
        "char" => read::<char>(alloc, tree),
        "String" => read::<String>(alloc, tree),
        "ByteBuf" => read::<ByteBuf>(alloc, tree),
        "Cid" => read::<Cid>(alloc, tree),
        "Option" => read::<Option<u8>>(alloc, tree),
        "[u8; 2]" => read::<[u8; 2]>(alloc, tree),
        _ => no_such_type(alloc),
    }
}

fn number(alloc: Global, name: &str, tree: Ipld) -> Result<String, AllocError> {
    match name {
        "i8" => read::<i8>(alloc, tree),
        "i16" => read::<i16>(alloc, tree),
        "i32" => read::<i32>(alloc, tree),
        "i64" => read::<i64>(alloc, tree),
        "i128" => read::<i128>(alloc, tree),
        "isize" => read::<isize>(alloc, tree),
        _ => natural(alloc, name, tree),
    }
}

fn natural(alloc: Global, name: &str, tree: Ipld) -> Result<String, AllocError> {
    match name {
        "u8" => read::<u8>(alloc, tree),
        "u16" => read::<u16>(alloc, tree),
        "u32" => read::<u32>(alloc, tree),
        "u64" => read::<u64>(alloc, tree),
        "u128" => read::<u128>(alloc, tree),
        "usize" => read::<usize>(alloc, tree),
        _ => no_such_type(alloc),
    }
}

fn list(alloc: Global, name: &str, tree: Ipld) -> Result<String, AllocError> {
    match name {
        "()" => read::<Vec<()>>(alloc, tree),
        "bool" => read::<Vec<bool>>(alloc, tree),
        "String" => read::<Vec<String>>(alloc, tree),
        "Option" => read::<Vec<Option<u8>>>(alloc, tree),
        _ => no_such_type(alloc),
    }
}

// Reads a map, by the type of its keys.
fn map(alloc: Global, name: &str, tree: Ipld) -> Result<String, AllocError> {
    match name {
        "String" => read::<BTreeMap<String, u8>>(alloc, tree),
        "char" => read::<BTreeMap<char, u8>>(alloc, tree),
        "Colour" => read::<BTreeMap<Colour, u8>>(alloc, tree),
        "Town" => read::<BTreeMap<Town, u8>>(alloc, tree),
        _ => no_such_type(alloc),
    }
}

type Ten = (u8, u8, u8, u8, u8, u8, u8, u8, u8, bool);

// Reads a tuple, by the number of its parts.
fn tuple(alloc: Global, name: &str, tree: Ipld) -> Result<String, AllocError> {
    match name {
        "1" => read::<(i64,)>(alloc, tree),
        "2" => read::<(bool, String)>(alloc, tree),
        "3" => read::<(u8, Option<bool>, String)>(alloc, tree),
        "4" => read::<(u64, char, bool, Option<u8>)>(alloc, tree),
        "5" => read::<(u8, u8, u8, Option<u8>, bool)>(alloc, tree),
        "6" => read::<(u8, u8, u8, u8, u8, bool)>(alloc, tree),
        "7" => read::<(u8, u8, u8, u8, u8, u8, bool)>(alloc, tree),
        "8" => read::<(u8, u8, u8, u8, u8, u8, u8, bool)>(alloc, tree),
        "9" => read::<(u8, u8, u8, u8, u8, u8, u8, u8, bool)>(alloc, tree),
        "10" => read::<Ten>(alloc, tree),
        _ => no_such_type(alloc),
    }
}

fn sample(alloc: Global, name: &str, tree: Ipld) -> Result<String, AllocError> {
    match name {
        "Person" => read::<Person>(alloc, tree),
        "MyStruct" => read::<MyStruct>(alloc, tree),
        "MyStrict" => read::<MyStrict>(alloc, tree),
        "MyEnum" => read::<MyEnum>(alloc, tree),
        "MyPair" => read::<MyPair>(alloc, tree),
        "TupleStruct" => read::<TupleStruct>(alloc, tree),
        "UnitStruct" => read::<UnitStruct>(alloc, tree),
        "Tagged" => read::<Tagged<bool>>(alloc, tree),
        "Wrapped" => read::<Wrapped<Wrapped<ByteBuf>>>(alloc, tree),
        _ => no_such_type(alloc),
    }
}

fn own(alloc: Global, name: &str, tree: Ipld) -> Result<String, AllocError> {
    match name {
        "Trip" => read::<Trip>(alloc, tree),
        "Shape" => read::<Shape>(alloc, tree),
        "Event" => read::<Event>(alloc, tree),
        "Metres" => read::<Metres>(alloc, tree),
        "Place" => read::<Place>(alloc, tree),
        "Photo" => read::<Photo>(alloc, tree),
        "Mark" => read::<Mark>(alloc, tree),
        "Signal" => read::<Signal>(alloc, tree),
        "Measurement" => read::<Measurement>(alloc, tree),
        _ => no_such_type(alloc),
    }
}

// Reads a type whose values may contain deep trees, which aren't printed.
fn part(alloc: Global, name: &str, tree: Ipld) -> Result<String, AllocError> {
    match name {
        "ignored" => read_any::<IgnoredAny>(alloc, tree),
        "after ignored" => read_any::<(IgnoredAny, bool)>(alloc, tree),
        "last of two" => read_any::<((), Ipld)>(alloc, tree),
        "list of pairs" => read_any::<Vec<(Ipld, bool)>>(alloc, tree),
        "map of pairs" => read_any::<BTreeMap<String, (Ipld, bool)>>(alloc, tree),
        "first of three" => read_any::<(Ipld, Ipld, bool)>(alloc, tree),
        "first of four" => read_any::<(Ipld, (), Ipld, bool)>(alloc, tree),
        "Tagged" => read_any::<Tagged<Ipld>>(alloc, tree),
        _ => before_bool(alloc, name, tree),
    }
}

// Reads the first of a pair with a bool.
fn before_bool(alloc: Global, name: &str, tree: Ipld) -> Result<String, AllocError> {
    match name {
        "tree" => read_any::<(Ipld, bool)>(alloc, tree),
        "option" => read_any::<(Option<Ipld>, bool)>(alloc, tree),
        "list" => read_any::<(Vec<Ipld>, bool)>(alloc, tree),
        "map" => read_any::<(BTreeMap<String, Ipld>, bool)>(alloc, tree),
        "pair" => read_any::<(((), Ipld), bool)>(alloc, tree),
        "three" => read_any::<((Ipld, (), Ipld), bool)>(alloc, tree),
        "four" => read_any::<(((), Ipld, Ipld, ()), bool)>(alloc, tree),
        "newtype" => read_any::<(Wrapped<Ipld>, bool)>(alloc, tree),
        "struct" => read_any::<(Tagged<Ipld>, bool)>(alloc, tree),
        "deeper" => read_any::<(Inner, bool)>(alloc, tree),
        _ => no_such_type(alloc),
    }
}

type Inner = Vec<Option<BTreeMap<String, ((), Wrapped<Ipld>)>>>;

fn read_any<T: Deserialize>(alloc: Global, tree: Ipld) -> Result<String, AllocError> {
    match from_ipld::<T>(alloc, tree) {
        Ok(value) => {
            value.discard();
            String::from_str(alloc, "taken")
        }
        Err(error) => format!(in alloc; "{error:?}"),
    }
}

/// Returns the value that a type reads from a block of DAG-CBOR, and the block that it is written
/// as: `TYPE|BLOCK`.
pub fn in_block(alloc: Global, row: &str) -> Result<String, AllocError> {
    let (name, groups) = row.split_once('|').unwrap_or((row, ""));
    let Some(block) = bytes(alloc, groups)? else {
        return String::from_str(alloc, "no bytes");
    };
    match name {
        "u8" => of_block::<u8>(alloc, block.as_slice()),
        "u64" => of_block::<u64>(alloc, block.as_slice()),
        "()" => of_block::<()>(alloc, block.as_slice()),
        "list" => of_block::<Vec<u8>>(alloc, block.as_slice()),
        "tuple.10" => of_block::<Ten>(alloc, block.as_slice()),
        "Ipld" => of_block::<Ipld>(alloc, block.as_slice()),
        "Person" => of_block::<Person>(alloc, block.as_slice()),
        _ => linked(alloc, name, block.as_slice()),
    }
}

fn linked(alloc: Global, name: &str, block: &[u8]) -> Result<String, AllocError> {
    match name {
        "Root" => of_block::<Root>(alloc, block),
        "Post" => of_block::<Post>(alloc, block),
        "Attachment" => of_block::<Attachment>(alloc, block),
        "Edge" => of_block::<Edge>(alloc, block),
        "Version" => of_block::<Version>(alloc, block),
        "Change" => of_block::<Change>(alloc, block),
        _ => no_such_type(alloc),
    }
}

fn of_block<T: Lawful + Debug>(alloc: Global, block: &[u8]) -> Result<String, AllocError> {
    let value = match from_slice::<T>(alloc, block) {
        Ok(value) => value,
        Err(error) => return format!(in alloc; "{error:?}"),
    };
    match to_vec(alloc, &value) {
        Ok(block) => {
            let digits = hex::encode(alloc, block.as_slice())?;
            format!(in alloc; "{value:?}; {digits}")
        }
        Err(error) => format!(in alloc; "{value:?}; {error:?}"),
    }
}
