//! The parts of the tests' inputs.

use crate::ended::Ended;
use ipld_cid::{Cid, CidError};
use ipld_ser::SerdeError;
use ipld_tree::{Ipld, IpldKind, ipld};
use std::alloc::{AllocError, Global};
use std::collections::BTreeMap;
use std::process::Abort;

/// The bytes of a CID, whose text is `bafkqaaa`.
pub const A: [u8; 4] = [0x01, 0x55, 0x00, 0x00];

/// The bytes of another CID, whose text is `bafkqaaih`.
pub const B: [u8; 5] = [0x01, 0x55, 0x00, 0x01, 0x07];

/// Returns the CID of these bytes. Does not allocate.
pub fn cid(bytes: &[u8]) -> Result<Cid, CidError> {
    Cid::try_from(bytes)
}

/// Every kind of tree.
pub const KINDS: [IpldKind; 8] = [
    IpldKind::Null,
    IpldKind::Bool,
    IpldKind::Integer,
    IpldKind::String,
    IpldKind::Bytes,
    IpldKind::List,
    IpldKind::Map,
    IpldKind::Link,
];

/// Returns a tree of the kind: `true`, 7, the link of A, or an empty string, byte string, list or
/// map. Does not allocate.
pub fn of_kind(alloc: Global, kind: IpldKind) -> Result<Ipld, CidError> {
    Ok(match kind {
        IpldKind::Null => Ipld::Null,
        IpldKind::Bool => Ipld::Bool(true),
        IpldKind::Integer => Ipld::Integer(7),
        IpldKind::String => Ipld::String(String::new(alloc)),
        IpldKind::Bytes => Ipld::Bytes(Vec::new(alloc)),
        IpldKind::List => Ipld::List(Vec::new(alloc)),
        IpldKind::Map => Ipld::Map(BTreeMap::new(alloc)),
        IpldKind::Link => Ipld::Link(cid(&A)?),
    })
}

/// Returns a map with three links, two of them in a list and one in a map, and a bool.
pub fn nested(alloc: Global, cid: Cid) -> Result<Ipld, AllocError> {
    ipld!(alloc, {"some": {"nested": cid}, "or": [cid, cid], "more": true})
}

/// Returns the list of 1 and, if `more` is true, of `x`.
pub fn list(alloc: Global, more: bool) -> Result<Ipld, AllocError> {
    let mut items = Vec::new(alloc);
    items.push(Ipld::Integer(1))?;
    if more {
        items.push(Ipld::from_text(alloc, "x")?)?;
    }
    Ok(Ipld::List(items))
}

/// Returns the list of this number.
pub fn list_of(alloc: Global, number: i128) -> Result<Ipld, AllocError> {
    let mut items = Vec::new(alloc);
    items.push(Ipld::Integer(number))?;
    Ok(Ipld::List(items))
}

fn put(
    alloc: Global,
    members: &mut BTreeMap<String, Ipld>,
    key: &str,
    value: Ipld,
) -> Result<(), AllocError> {
    let key = String::from_str(alloc, key)?;
    drop(members.insert(key, value)?);
    Ok(())
}

/// Returns the map of `a`: 1 and, if `more` is true, of this key: `x`.
pub fn map(alloc: Global, key: &str, more: bool) -> Result<Ipld, AllocError> {
    let mut members = BTreeMap::new(alloc);
    put(alloc, &mut members, "a", Ipld::Integer(1))?;
    if more {
        let text = Ipld::from_text(alloc, "x")?;
        put(alloc, &mut members, key, text)?;
    }
    Ok(Ipld::Map(members))
}

/// Returns the map of this key to the value.
pub fn entry(alloc: Global, key: &str, value: Ipld) -> Result<Ipld, AllocError> {
    let mut members = BTreeMap::new(alloc);
    put(alloc, &mut members, key, value)?;
    Ok(Ipld::Map(members))
}

/// Returns the map of `V` to this content, which is the image of a variant of that name.
pub fn variant(alloc: Global, content: Ipld) -> Result<Ipld, AllocError> {
    entry(alloc, "V", content)
}

/// Returns the map of `a` to the link of B and `b` to the link of A.
pub fn two_links(alloc: Global) -> Result<Ipld, Ended> {
    let mut members = BTreeMap::new(alloc);
    put(alloc, &mut members, "a", Ipld::Link(cid(&B)?))?;
    put(alloc, &mut members, "b", Ipld::Link(cid(&A)?))?;
    Ok(Ipld::Map(members))
}

/// Returns whether the trees are equal.
pub fn is_same(tree: &Ipld, expected: &Ipld) -> bool {
    *tree == *expected
}

/// Returns whether the tree is this string.
pub fn is_text(tree: &Ipld, text: &str) -> bool {
    matches!(tree, Ipld::String(found) if found.as_str() == text)
}

/// Returns whether the tree is these bytes.
pub fn is_bytes(tree: &Ipld, bytes: &[u8]) -> bool {
    matches!(tree, Ipld::Bytes(found) if found.as_slice() == bytes)
}

/// Checks that the call returned this value.
pub fn returns<T: PartialEq + Drop>(rt: &impl Abort, outcome: Result<T, SerdeError>, expected: T) {
    assert!(rt; outcome == Ok(expected));
}

/// Checks that the call was rejected with this error.
pub fn rejects<T: PartialEq + Drop>(
    rt: &impl Abort,
    outcome: Result<T, SerdeError>,
    expected: SerdeError,
) {
    assert!(rt; outcome == Err(expected));
}

/// Checks that the call read this tree if it is of the kind that it reads, and otherwise rejected
/// it by its kind.
pub fn reads_kind<T: Drop>(
    rt: &impl Abort,
    found: IpldKind,
    expected: IpldKind,
    outcome: Result<T, SerdeError>,
) {
    match outcome {
        Ok(_) => assert!(rt; found == expected),
        Err(error) => {
            assert!(rt; found != expected && error == SerdeError::WrongKind(found));
        }
    }
}
