//! The trees that `ipld!` builds, the order in which it converts its expressions, and the point at
//! which it stops.

ghost use Rattle.std.specs.Prelude.{⊤, true};

use ipld_core::cid::{Cid, CidError};
use ipld_core::convert::{ConversionError, IntoIpld};
use ipld_core::ipld;
use ipld_core::ipld::Ipld;
use std::alloc::{AllocError, Global};
use std::process::Abort;
use std::test::Fail;

fn some_of_each(alloc: Global) -> Result<Ipld, AllocError> {
    ipld!(alloc, [null, true, [], {}, "x",])
}

fn computed(alloc: Global) -> Result<Ipld, AllocError> {
    ipld!(alloc, [2 + 3, [0u8, 255].as_slice()])
}

fn keyed(alloc: Global) -> Result<Ipld, AllocError> {
    let f = ["serde", "json"];
    ipld!(alloc, {"p": {f[0]: f[1]}, ("q"): 2u8})
}

fn repeated(alloc: Global) -> Result<Ipld, AllocError> {
    ipld!(alloc, {"a": 1u8, "a": 2u8})
}

fn overwritten(alloc: Global, key: String) -> Result<Ipld, AllocError> {
    ipld!(alloc, {"b": [1i64, -2i8], key: null, "b": {"c": {}},})
}

fn nested(alloc: Global) -> Result<Ipld, AllocError> {
    ipld!(alloc, [[[]], [null, null,], {"a": null,}, ipld!(alloc, [null])?])
}

fn linked(alloc: Global) -> Result<Ipld, Fail> {
    let cid = cid()?;
    Ok(ipld!(alloc, {"or": [cid, &cid]})?)
}

fn cid() -> Result<Cid, CidError> {
    Cid::try_from(b"\x01\x55\0\0".as_slice())
}

// In a function that returns no `Result`.
fn capacity(alloc: Global) -> usize {
    match ipld!(alloc, [1u8, true, null]) {
        Ok(Ipld::List(items)) => items.capacity(),
        _ => 0,
    }
}

// In a function with another error.
fn number(alloc: Global) -> Result<u8, ConversionError> {
    match ipld!(alloc, 7u8) {
        Ok(tree) => Ok(u8::try_from(tree)?),
        Err(_) => Ok(0),
    }
}

/// Checks that the tree has this debug string, which is the one of the Rust crate.
pub fn assert_tree_is(
    rt: &impl Abort,
    alloc: Global,
    tree: Ipld,
    expected: &str,
) -> Result<(), Fail> {
    assert_eq!(rt; format!(in alloc; "{tree:?}")?.as_str(), expected);
    Ok(())
}

#[test]
fn builds_what_is_written(rt: HostRuntime) -> Result<(), Fail> {
    let alloc = rt.alloc();
    assert_tree_is(
        &rt,
        alloc,
        some_of_each(alloc)?,
        "[null, true, [], {}, \"x\"]",
    )?;
    assert_tree_is(&rt, alloc, computed(alloc)?, "[5, [0, 255]]")?;
    let expected = "{\"p\": {\"serde\": \"json\"}, \"q\": 2}";
    assert_tree_is(&rt, alloc, keyed(alloc)?, expected)?;
    assert_tree_is(&rt, alloc, repeated(alloc)?, "{\"a\": 2}")?;
    let tree = overwritten(alloc, String::from_str(alloc, "a")?)?;
    assert_tree_is(&rt, alloc, tree, "{\"a\": null, \"b\": {\"c\": {}}}")?;
    let expected = "[[[]], [null, null], {\"a\": null}, [null]]";
    assert_tree_is(&rt, alloc, nested(alloc)?, expected)?;
    assert_tree_is(&rt, alloc, linked(alloc)?, "{\"or\": [bafkqaaa, bafkqaaa]}")
}

#[test]
fn stands_in_any_function(rt: HostRuntime) {
    assert_eq!(rt; capacity(rt.alloc()), 3);
    assert_eq!(rt; number(rt.alloc()), Ok(7));
}

// A value whose conversion is always rejected.
#[derive(Drop)]
struct Rejected;

impl IntoIpld for Rejected {
    ghost becomes = { λ _ _. ⊤ };

    ghost allocates = { true };

    fn into_ipld(self, _alloc: Global) -> Result<Ipld, AllocError> {
        Err(AllocError)
    }
}

fn noted<T>(log: &mut [bool; 4], number: usize, value: T) -> T {
    if number < 4 {
        log[number] = number == 0 || log[number - 1];
    }
    value
}

fn noted_by_each(alloc: Global, log: &mut [bool; 4]) -> Result<Ipld, AllocError> {
    ipld!(alloc, [
        noted(log, 0, "x"),
        {noted(log, 1, "a"): noted(log, 2, 1u8)},
        noted(log, 3, true),
    ])
}

fn noted_until_rejected(alloc: Global, log: &mut [bool; 4]) -> Result<Ipld, AllocError> {
    ipld!(alloc, [
        noted(log, 0, 1u8),
        {noted(log, 1, "a"): Rejected},
        noted(log, 2, 2u8),
    ])
}

#[test]
fn evaluates_in_order_until_one_is_rejected(rt: HostRuntime) -> Result<(), Fail> {
    let mut log = [false; 4];
    let built = noted_by_each(rt.alloc(), &mut log)?;
    assert_eq!(rt; log, [true; 4]);
    assert_tree_is(&rt, rt.alloc(), built, "[\"x\", {\"a\": 1}, true]")?;
    let mut log = [false; 4];
    assert!(rt; noted_until_rejected(rt.alloc(), &mut log).is_err());
    assert_eq!(rt; log, [true, true, false, false]);
    Ok(())
}
