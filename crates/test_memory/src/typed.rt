//! Typed values, written as trees and read back.

use crate::ended::{Ended, reported};
use crate::samples::{A, cid, is_text};
use ipld_core::serde::samples::{
    MyEnum, MyPair, MyStrict, MyStruct, Person, Tagged, TupleStruct, Wrapped,
};
use ipld_de::{Lawful, from_ipld, read_written, write_and_read};
use ipld_ser::{ByteBuf, to_ipld};
use ipld_tree::{Ipld, IpldKind};
use std::alloc::{AllocError, Global};
use std::collections::BTreeMap;
use std::process::Abort;

// Checks that the value is written, and read back as the same value.
fn round_trip<T: Lawful + PartialEq>(
    rt: &impl Abort,
    alloc: Global,
    value: &T,
) -> Result<(), Ended> {
    let tree = reported("to_ipld", to_ipld(alloc, value))?;
    let back: T = reported("from_ipld", from_ipld(alloc, tree))?;
    assert!(rt; back == *value);
    Ok(())
}

fn string(alloc: Global) -> Result<String, AllocError> {
    String::from_str(alloc, "s")
}

fn person(alloc: Global) -> Result<Person, Ended> {
    Ok(Person {
        name: String::from_str(alloc, "Hello World!")?,
        age: 52,
        hobbies: vec![in alloc;
            String::from_str(alloc, "geography")?,
            String::from_str(alloc, "programming")?,
        ]?,
        is_cool: true,
        link: cid(&A)?,
    })
}

fn members(alloc: Global) -> Result<BTreeMap<String, char>, AllocError> {
    let mut members = BTreeMap::new(alloc);
    drop(members.insert(string(alloc)?, 'c')?);
    Ok(members)
}

fn tree_of_null(alloc: Global) -> Result<Ipld, AllocError> {
    Ok(Ipld::List(vec![in alloc; Ipld::Null]?))
}

#[test]
fn texts_bytes_and_lists(rt: HostRuntime) -> Result<(), Ended> {
    let alloc = rt.alloc();
    let bytes = ByteBuf::from(Vec::from_slice(alloc, &A)?);
    let list = Vec::from_slice(alloc, &[1u8, 2])?;
    round_trip(&rt, alloc, &('c', string(alloc)?, bytes, Some(list)))
}

#[test]
fn maps_and_trees(rt: HostRuntime) -> Result<(), Ended> {
    let alloc = rt.alloc();
    let tree = tree_of_null(alloc)?;
    round_trip(&rt, alloc, &(members(alloc)?, tree, cid(&A)?, None::<char>))
}

#[test]
fn structs(rt: HostRuntime) -> Result<(), Ended> {
    let alloc = rt.alloc();
    let (hello, world) = (91, true);
    round_trip(&rt, alloc, &person(alloc)?)?;
    round_trip(&rt, alloc, &MyStruct { hello, world })?;
    round_trip(&rt, alloc, &MyStrict { hello, world })?;
    round_trip(&rt, alloc, &TupleStruct(hello, world))?;
    let label = string(alloc)?;
    let item = Wrapped('c');
    round_trip(&rt, alloc, &Tagged { label, item })
}

#[test]
fn enums(rt: HostRuntime) -> Result<(), Ended> {
    let alloc = rt.alloc();
    round_trip(&rt, alloc, &MyEnum::One)?;
    round_trip(&rt, alloc, &MyEnum::Two(4))?;
    round_trip(&rt, alloc, &MyEnum::Three { value: true })?;
    round_trip(&rt, alloc, &MyPair::Two(4, true))
}

#[test]
fn borrowed(rt: HostRuntime) -> Result<(), Ended> {
    let text = reported("to_ipld of a text", to_ipld(rt.alloc(), "x"))?;
    assert!(rt; is_text(&text, "x"));
    let list = to_ipld(rt.alloc(), [1u8, 2].as_slice());
    let list = reported("to_ipld of a slice", list)?;
    assert!(rt; list.kind() == IpldKind::List);
    Ok(())
}

#[test]
fn by_the_law(rt: HostRuntime) -> Result<(), Ended> {
    let value = vec![in rt.alloc(); 'c']?;
    let back = reported("write_and_read", write_and_read(rt.alloc(), &value))?;
    let tree = reported("to_ipld", to_ipld(rt.alloc(), &value))?;
    let read: Vec<char> = reported("read_written", read_written(rt.alloc(), tree))?;
    assert!(rt; back == value && read == value);
    Ok(())
}
