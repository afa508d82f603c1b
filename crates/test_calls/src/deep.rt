//! Cursors, fields and builders that are dropped half way over trees of 100,000 levels. No drop
//! recurses, so every call returns. The readings of such trees by types are rows of `test_rows`.

use ipld_core::ipld;
use ipld_core::serde::{
    Deserializer, EnumDeserializer, Field, Fields, Serializer, read_fields, read_only_fields,
};
use ipld_tree::Ipld;
use std::alloc::{AllocError, Global};
use std::test::Fail;

const LEVELS: u32 = 100_000;

fn deep(alloc: Global) -> Result<Ipld, AllocError> {
    let mut tree = Ipld::Null;
    for _ in 0..LEVELS {
        tree = Ipld::List(Vec::from_array(alloc, [tree])?);
    }
    Ok(tree)
}

// A map of a deep tree under one key and null under the other.
fn members(alloc: Global, deep_key: &str, other: &str) -> Result<Ipld, AllocError> {
    ipld!(alloc, {deep_key: deep(alloc)?, other: null})
}

fn variant(alloc: Global) -> Result<EnumDeserializer, Fail> {
    let tree = ipld!(alloc, {"a": deep(alloc)?})?;
    Ok(tree.deserialize_enum("Enum", &["a"])?)
}

#[test]
fn cursors_over_items(rt: HostRuntime) -> Result<(), Fail> {
    let alloc = rt.alloc();
    let tree = ipld!(alloc, [null, deep(alloc)?])?;
    let mut items = tree.deserialize_seq()?;
    assert!(rt; items.next_element::<()>(alloc)?.is_some());
    assert!(rt; items.end().is_err());
    Ok(())
}

#[test]
fn cursors_over_members(rt: HostRuntime) -> Result<(), Fail> {
    let alloc = rt.alloc();
    let mut waits = members(alloc, "a", "b")?.deserialize_map()?;
    drop(waits.next_key::<String>(alloc)?);
    let mut waited = members(alloc, "a", "b")?.deserialize_map()?;
    drop(waited.next_key::<String>(alloc)?);
    drop(waited.next_key::<String>(alloc)?);
    assert!(rt; members(alloc, "a", "b")?.deserialize_map()?.end().is_err());
    assert!(rt;
        members(alloc, "b", "a")?
            .deserialize_enum("Enum", &["a", "b"])
            .is_err()
    );
    Ok(())
}

#[test]
fn variants(rt: HostRuntime) -> Result<(), Fail> {
    let alloc = rt.alloc();
    drop(variant(alloc)?);
    drop(variant(alloc)?.variant());
    assert!(rt; variant(alloc)?.variant().1.unit_variant().is_err());
    assert!(rt;
        variant(alloc)?
            .variant()
            .1
            .newtype_variant::<u8>(alloc)
            .is_err()
    );
    assert!(rt; variant(alloc)?.variant().1.tuple_variant(3).is_err());
    assert!(rt; variant(alloc)?.variant().1.struct_variant(&["b"]).is_err());
    Ok(())
}

#[test]
fn fields(rt: HostRuntime) -> Result<(), Fail> {
    let alloc = rt.alloc();
    let skipped = members(alloc, "b", "a")?.deserialize_map()?;
    assert!(rt; read_fields::<Field<()>>(alloc, skipped, &["a"]).is_ok());
    let unknown = members(alloc, "b", "a")?.deserialize_map()?;
    assert!(rt; read_only_fields::<Field<()>>(alloc, unknown, &["a"]).is_err());
    let rejected = members(alloc, "a", "b")?.deserialize_map()?;
    let outcome = read_fields::<(Field<Ipld>, Field<bool>)>(alloc, rejected, &["a", "b"]);
    assert!(rt; outcome.is_err());
    let mut twice: Field<()> = Fields::new();
    twice.offer(alloc, 0, Ipld::Null)?;
    twice.offer(alloc, 0, deep(alloc)?)?;
    Ok(())
}

#[test]
fn lists_and_maps_that_are_built(rt: HostRuntime) -> Result<(), Fail> {
    let alloc = rt.alloc();
    let tree = deep(alloc)?;
    let mut list = Serializer.serialize_seq(alloc, None)?;
    list.serialize_element(&tree)?;
    let mut map = Serializer.serialize_map(alloc, None)?;
    map.serialize_field("a", &tree)?;
    map.serialize_field("a", &tree)?;
    let mut keyed = Serializer.serialize_map(alloc, None)?;
    assert!(rt; keyed.serialize_key(&tree).is_err());
    tree.discard();
    Ok(())
}

#[test]
fn variants_that_are_built(rt: HostRuntime) -> Result<(), Fail> {
    let alloc = rt.alloc();
    let tree = deep(alloc)?;
    let mut tuple = Serializer.serialize_tuple_variant(alloc, "Enum", 0, "Two", 2)?;
    tuple.serialize_field(&tree)?;
    let mut fields = Serializer.serialize_struct_variant(alloc, "Enum", 0, "Two", 2)?;
    fields.serialize_field("a", &tree)?;
    tree.discard();
    Ok(())
}
