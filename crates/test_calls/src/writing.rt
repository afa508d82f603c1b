//! The results of `Serializer` and its builders, and the content of a builder after a rejection.

use crate::macros::assert_tree_is;
use ipld_core::cid::CidError;
use ipld_core::cid::serde::CID_SERDE_PRIVATE_IDENTIFIER;
use ipld_core::ipld::Ipld;
use ipld_core::serde::{ByteBuf, SerdeError, Serializer, to_ipld};
use std::test::Fail;

// Bytes become the link that they encode, and anything else stays as it is.
#[test]
fn content_of_a_newtype_of_cids(rt: HostRuntime) -> Result<(), Fail> {
    let alloc = rt.alloc();
    let name = CID_SERDE_PRIVATE_IDENTIFIER;
    let bytes = ByteBuf::from(b"\x01\x55\0\0".to_vec(alloc)?);
    let link = Serializer.serialize_newtype_struct(alloc, name, &bytes)?;
    assert_tree_is(&rt, alloc, link, "bafkqaaa")?;
    let cut = ByteBuf::from(b"\x01\x55".to_vec(alloc)?);
    let outcome = Serializer.serialize_newtype_struct(alloc, name, &cut);
    assert!(rt; outcome == Err(SerdeError::InvalidCid(CidError::End)));
    let text = Serializer.serialize_newtype_struct(alloc, name, &"x")?;
    assert_tree_is(&rt, alloc, text, "\"x\"")
}

#[test]
fn an_entry_whose_value_is_rejected(rt: HostRuntime) -> Result<(), Fail> {
    let mut map = Serializer.serialize_map(rt.alloc(), None)?;
    map.serialize_key(&"a")?;
    assert!(rt; map.has_key());
    assert!(rt; map.serialize_value(&()) == Err(SerdeError::Unit));
    assert!(rt; !map.has_key());
    assert_tree_is(&rt, rt.alloc(), map.end()?, "{}")
}

#[test]
fn keys_in_place_of_a_pending_one(rt: HostRuntime) -> Result<(), Fail> {
    let mut map = Serializer.serialize_map(rt.alloc(), None)?;
    map.serialize_key(&"a")?;
    map.serialize_key(&"b")?;
    assert!(rt; map.serialize_key(&5u8) == Err(SerdeError::KeyNotText));
    assert!(rt; map.has_key());
    map.serialize_value(&1u8)?;
    assert_tree_is(&rt, rt.alloc(), map.end()?, "{\"b\": 1}")?;
    let mut map = Serializer.serialize_map(rt.alloc(), None)?;
    map.serialize_entry(&"a", &1u8)?;
    map.serialize_entry(&"a", &2u8)?;
    assert_tree_is(&rt, rt.alloc(), map.end()?, "{\"a\": 2}")
}

// Checks that a wrong hint allocates little.
#[test]
fn elements_around_a_rejected_one(rt: HostRuntime) -> Result<(), Fail> {
    let mut list = Serializer.serialize_seq(rt.alloc(), Some(usize::MAX))?;
    list.serialize_element(&1u8)?;
    assert!(rt; list.serialize_element(&()) == Err(SerdeError::Unit));
    list.serialize_element(&2u8)?;
    let tree = list.end()?;
    assert!(rt; matches!(&tree, Ipld::List(items) if items.capacity() <= 4_096));
    assert_tree_is(&rt, rt.alloc(), tree, "[1, 2]")?;
    let tree = to_ipld(rt.alloc(), [1u8, 2].as_slice())?;
    assert_tree_is(&rt, rt.alloc(), tree, "[1, 2]")
}

#[test]
fn numbers_above_the_greatest_i128(rt: HostRuntime) -> Result<(), Fail> {
    let number = 1u128 << 127;
    assert!(rt; Serializer.serialize_u128(number) == Err(SerdeError::U128));
    assert!(rt; to_ipld(rt.alloc(), &number) == Err(SerdeError::U128));
    let numbers = vec![in rt.alloc(); 7, number]?;
    assert!(rt; to_ipld(rt.alloc(), &numbers) == Err(SerdeError::U128));
    Ok(())
}
