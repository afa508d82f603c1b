//! Trees: built, walked, copied, and the links in them.

use crate::ended::{Ended, reported};
use crate::samples::{A, B, cid, is_bytes, is_same, is_text, nested};
use dag_cbor_tape::encode_tape;
use dag_json::floats::{self, Number};
use dag_json::{
    DagJsonError, from_canonical, from_slice, from_str, tape_from_slice, to_string, to_vec,
};
use ipld_cid::Cid;
use ipld_tree::convert::{IntoIpld, IntoKey};
use ipld_tree::{IndexError, Ipld, IpldIndex, IpldIter, Limits, ipld};
use std::alloc::{AllocError, Global};
use std::collections::BTreeSet;
use std::process::Abort;

fn tree(alloc: Global) -> Result<Ipld, Ended> {
    Ok(nested(alloc, cid(&A)?)?)
}

// Checks the length of a walk. It allocates nothing after its creation.
fn has_length(rt: &impl Abort, mut walk: IpldIter<'_>, expected: usize) {
    let mut length = 0usize;
    for _ in 0..9u8 {
        if walk.next().is_some() {
            length = length.saturating_add(1);
        }
    }
    assert_eq!(rt; length, expected);
}

#[test]
fn walked(rt: HostRuntime) -> Result<(), Ended> {
    let tree = tree(rt.alloc())?;
    has_length(&rt, reported("iter", tree.iter(rt.alloc()))?, 7);
    has_length(&rt, reported("whole_walk", tree.whole_walk(rt.alloc()))?, 0);
    Ok(())
}

#[test]
fn written_as_json(rt: HostRuntime) -> Result<(), Ended> {
    let tree = tree(rt.alloc())?;
    let text = reported("to_vec of dag_json", to_vec(rt.alloc(), &tree))?;
    let expected =
        br#"{"more":true,"or":[{"/":"bafkqaaa"},{"/":"bafkqaaa"}],"some":{"nested":{"/":"bafkqaaa"}}}"#;
    assert_eq!(rt; text.as_slice(), expected.as_slice());
    let text = reported("to_string of dag_json", to_string(rt.alloc(), &tree))?;
    assert_eq!(rt; text.as_bytes(), expected.as_slice());
    let reserved = ipld!(rt.alloc(), [{"/": "bafkqaaa"}])?;
    match to_vec(rt.alloc(), &reserved) {
        Err(DagJsonError::Reserved(place)) => assert_eq!(rt; place, 1),
        written => drop(reported("to_vec of a reserved map", written)?),
    }
    Ok(())
}

#[test]
fn read_from_json(rt: HostRuntime) -> Result<(), Ended> {
    let tree = tree(rt.alloc())?;
    let text =
        r#"{"more":true,"or":[{"/":"bafkqaaa"},{"/":"bafkqaaa"}],"some":{"nested":{"/":"bafkqaaa"}}}"#;
    let limits = Limits::default();
    let read = reported("from_str of dag_json", from_str(rt.alloc(), text, &limits))?;
    assert!(rt; is_same(&read, &tree));
    let outcome = from_slice(rt.alloc(), text.as_bytes(), &limits);
    let read = reported("from_slice of dag_json", outcome)?;
    assert!(rt; is_same(&read, &tree));
    let outcome = from_canonical(rt.alloc(), text.as_bytes(), &limits);
    let read = reported("from_canonical of dag_json", outcome)?;
    assert!(rt; is_same(&read, &tree));
    Ok(())
}

#[test]
fn read_with_floats(rt: HostRuntime) -> Result<(), Ended> {
    let text = br#"{"c":{"/":{"bytes":"aGk"}},"a":[1.5,-2,"t"],"b":{"/":"bafkqaaa"}}"#;
    let limits = Limits::default();
    let outcome = floats::from_slice(rt.alloc(), text.as_slice(), &limits);
    let read = reported("floats::from_slice", outcome)?;
    assert!(rt; matches!(&read, Ipld::Map(members) if members.len() == 3));
    let outcome = floats::from_slice(rt.alloc(), b"-2.5", &limits);
    match reported("floats::from_slice", outcome)? {
        Ipld::Integer(number) => assert_eq!(rt;
            Number::from_integer(number),
            Some(Number::Float(0xc004_0000_0000_0000))
        ),
        _ => return Err(Ended::Refused("floats::from_slice")),
    }
    let links = floats::links_of_block(rt.alloc(), text.as_slice());
    let links = reported("floats::links_of_block", links)?;
    assert_eq!(rt; links.as_slice(), [cid(&A)?].as_slice());
    let outcome = tape_from_slice(rt.alloc(), text.as_slice(), &limits);
    let tape = reported("tape_from_slice", outcome)?;
    let block = encode_tape(rt.alloc(), &tape.entries, &tape.contents);
    let block = reported("encode_tape of a text", block)?;
    let expected = b"\xa3aa\x83\xfb\x3f\xf8\0\0\0\0\0\0\x21atab\xd8\x2aE\0\x01\x55\0\0acBhi";
    assert_eq!(rt; block.as_slice(), expected.as_slice());
    Ok(())
}

// Returns the link of B, without capacity for more.
fn one_link(alloc: Global) -> Result<Vec<Cid>, Ended> {
    let mut links = Vec::with_capacity(alloc, 1)?;
    links.push(cid(&B)?)?;
    Ok(links)
}

// Returns whether these are the link of B and a beginning of the links of the tree.
fn is_beginning(links: &[Cid]) -> Result<bool, Ended> {
    let (a, b) = (cid(&A)?, cid(&B)?);
    Ok(!links.is_empty() && [b, a, a, a].starts_with(links))
}

#[test]
fn links(rt: HostRuntime) -> Result<(), Ended> {
    let tree = tree(rt.alloc())?;
    let mut links = one_link(rt.alloc())?;
    let outcome = tree.references(rt.alloc(), &mut links);
    assert!(rt; is_beginning(links.as_slice())?);
    reported("references", outcome)?;
    assert_eq!(rt; links.len(), 4);
    Ok(())
}

#[test]
fn links_in_a_set(rt: HostRuntime) -> Result<(), Ended> {
    let tree = tree(rt.alloc())?;
    let mut set = BTreeSet::new(rt.alloc());
    set.insert(cid(&B)?)?;
    let outcome = tree.references_into_set(rt.alloc(), &mut set);
    assert!(rt; set.contains(&cid(&B)?));
    reported("references_into_set", outcome)?;
    assert!(rt; set.contains(&cid(&A)?) && set.len() == 2);
    Ok(())
}

#[test]
fn copied(rt: HostRuntime) -> Result<(), Ended> {
    let tree = tree(rt.alloc())?;
    assert!(rt; is_same(&reported("try_clone", tree.try_clone(rt.alloc()))?, &tree));
    assert!(rt; is_same(&reported("clone", tree.clone())?, &tree));
    Ok(())
}

// Returns nested lists, so deep that they are measured by a loop.
fn deep(alloc: Global) -> Result<Ipld, AllocError> {
    let mut tree = Ipld::Null;
    for _ in 0..1_025u16 {
        let mut items = Vec::with_capacity(alloc, 1)?;
        items.push(tree)?;
        tree = Ipld::List(items);
    }
    Ok(tree)
}

#[test]
fn measured_and_compared(rt: HostRuntime) -> Result<(), Ended> {
    let tree = deep(rt.alloc())?;
    let levels = reported("try_nesting", tree.try_nesting(rt.alloc()))?;
    assert_eq!(rt; Some(levels), tree.nesting());
    assert!(rt; reported("same_tree", tree.same_tree(rt.alloc(), &tree))?);
    Ok(())
}

#[test]
fn made_by_the_macro(rt: HostRuntime) -> Result<(), Ended> {
    let cid = cid(&A)?;
    let tree = reported("ipld!", nested(rt.alloc(), cid))?;
    let some = tree.get("some");
    assert!(rt;
        matches!(some, Ok(Some(inner)) if inner.get("nested") == Ok(Some(&Ipld::Link(cid))))
    );
    Ok(())
}

const BYTES: [u8; 4] = [0, 1, 2, 3];

fn yields_text(
    rt: &impl Abort,
    call: &'static str,
    outcome: Result<Ipld, AllocError>,
) -> Result<(), Ended> {
    assert!(rt; is_text(&reported(call, outcome)?, "a string"));
    Ok(())
}

fn yields_bytes(
    rt: &impl Abort,
    call: &'static str,
    outcome: Result<Ipld, AllocError>,
) -> Result<(), Ended> {
    assert!(rt; is_bytes(&reported(call, outcome)?, &BYTES));
    Ok(())
}

#[test]
fn made_of_texts_and_bytes(rt: HostRuntime) -> Result<(), Ended> {
    let alloc = rt.alloc();
    yields_text(&rt, "from_text", Ipld::from_text(alloc, "a string"))?;
    yields_bytes(&rt, "from_byte_slice", Ipld::from_byte_slice(alloc, &BYTES))?;
    yields_text(&rt, "into_ipld of a text", "a string".into_ipld(alloc))?;
    yields_bytes(&rt, "into_ipld of bytes", BYTES.as_slice().into_ipld(alloc))?;
    let text = Ipld::from(String::from_str(alloc, "a string")?);
    assert!(rt; is_text(&text, "a string"));
    assert!(rt; is_bytes(&Ipld::from(Vec::from_slice(alloc, &BYTES)?), &BYTES));
    Ok(())
}

#[test]
fn keys_and_indexes(rt: HostRuntime) -> Result<(), Ended> {
    let alloc = rt.alloc();
    let key = reported("into_key", "7".into_key(alloc))?;
    let number = reported("into_text of a number", IpldIndex::List(7).into_text(alloc))?;
    let text = IpldIndex::MapRef("7").into_text(alloc);
    let text = reported("into_text of a text", text)?;
    assert!(rt; number == text && key.as_str() == "7" && text.as_str() == "7");
    Ok(())
}

// Checks that the error returns the index unchanged.
fn is_no_number(rt: &impl Abort, list: &Ipld, text: &str) {
    let expected = IndexError::ParseInteger(IpldIndex::MapRef(text));
    assert!(rt; list.get(text) == Err(expected), "{text}");
}

// Only the trees are allocated here.
#[test]
fn lists_looked_into(rt: HostRuntime) -> Result<(), Ended> {
    let alloc = rt.alloc();
    let list = ipld!(alloc, [0u8, 1u8, 2u8])?;
    for text in ["+1", "001", "1"] {
        assert!(rt; list.get(text) == Ok(Some(&Ipld::Integer(1))), "{text}");
    }
    for text in ["", "-0", "-1", "+", "99999999999999999999999"] {
        is_no_number(&rt, &list, text);
    }
    assert!(rt; list.get(3) == Ok(None) && list.get("3") == Ok(None));
    assert!(rt; list.get(String::from_str(alloc, "1")?) == Ok(Some(&Ipld::Integer(1))));
    assert!(rt; list.get(IpldIndex::List(0)) == Ok(Some(&Ipld::Integer(0))));
    assert!(rt; list.get(String::from_str(alloc, "-1")?).is_err());
    assert!(rt; list.take(1) == Ok(Some(Ipld::Integer(1))));
    assert!(rt; ipld!(alloc, [true, null])?.take("1") == Ok(Some(Ipld::Null)));
    assert!(rt; ipld!(alloc, [true, null])?.take(2) == Ok(None));
    Ok(())
}

#[test]
fn maps_looked_into(rt: HostRuntime) -> Result<(), Ended> {
    let alloc = rt.alloc();
    let map = ipld!(alloc, {"7": true, "+7": null})?;
    assert!(rt; map.get(7) == Ok(Some(&Ipld::Bool(true))));
    assert!(rt; map.get("+7") == Ok(Some(&Ipld::Null)) && map.get("07") == Ok(None));
    assert!(rt; map.get(IpldIndex::List(7)) == Ok(Some(&Ipld::Bool(true))));
    assert!(rt; map.get(String::from_str(alloc, "7")?) == Ok(Some(&Ipld::Bool(true))));
    assert!(rt; map.take(7) == Ok(Some(Ipld::Bool(true))));
    assert!(rt; ipld!(alloc, {"7": true})?.take("7") == Ok(Some(Ipld::Bool(true))));
    Ok(())
}
