//! The cursors that read a tree, and the rest of them after a rejection.

use crate::ended::{Ended, reported};
use crate::samples::{KINDS, entry, list_of, map, of_kind, reads_kind, rejects, returns, variant};
use ipld_de::{Deserializer, VariantDeserializer};
use ipld_ser::SerdeError;
use ipld_tree::{Ipld, IpldKind};
use std::alloc::Global;

#[test]
fn elements(rt: HostRuntime) -> Result<(), Ended> {
    let alloc = rt.alloc();
    let lists = vec![in alloc; list_of(alloc, 1)?, Ipld::Integer(2)]?;
    let mut items = reported("deserialize_seq", Ipld::List(lists).deserialize_seq())?;
    let outcome = items.next_element::<Vec<u8>>(alloc);
    // The element is gone.
    assert!(rt; items.remaining() == 1 && items.size_hint() == Some(1));
    assert!(rt; items.next_element::<u8>(alloc) == Ok(Some(2)));
    assert!(rt; items.next_element::<u8>(alloc) == Ok(None) && items.end() == Ok(()));
    assert!(rt; reported("next_element", outcome)?.is_some_and(|list| list.len() == 1));
    Ok(())
}

#[test]
fn values(rt: HostRuntime) -> Result<(), Ended> {
    let alloc = rt.alloc();
    let tree = entry(alloc, "a", list_of(alloc, 1)?)?;
    let mut members = reported("deserialize_map", tree.deserialize_map())?;
    assert!(rt; members.remaining() == 1 && members.size_hint() == Some(1));
    assert!(rt; members.next_key::<char>(alloc) == Ok(Some('a')));
    let outcome = members.next_value::<Vec<u8>>(alloc);
    // No value is pending.
    assert!(rt; members.next_value::<u8>(alloc) == Err(SerdeError::MissingValue));
    assert!(rt; members.remaining() == 0 && members.end() == Ok(()));
    assert!(rt; reported("next_value", outcome)?.len() == 1);
    Ok(())
}

#[test]
fn variants(rt: HostRuntime) -> Result<(), Ended> {
    let tree = variant(rt.alloc(), list_of(rt.alloc(), 1)?)?;
    let read = reported("deserialize_enum", tree.deserialize_enum("Enum", &["V"]))?;
    let outcome = read.variant().1.newtype_variant::<Vec<u8>>(rt.alloc());
    assert!(rt; reported("newtype_variant", outcome)?.len() == 1);
    Ok(())
}

// Below this line, only the trees are allocated.

#[test]
fn left_over(rt: HostRuntime) -> Result<(), Ended> {
    let alloc = rt.alloc();
    let mut items = reported("deserialize_seq", list_of(alloc, 1)?.deserialize_seq())?;
    assert!(rt; items.remaining() == 1 && items.size_hint() == Some(1));
    rejects(&rt, items.end(), SerdeError::Leftover(1));
    let tree = entry(alloc, "a", Ipld::Integer(1))?;
    let mut members = reported("deserialize_map", tree.deserialize_map())?;
    rejects(&rt, members.end(), SerdeError::Leftover(1));
    // A value whose key was read isn't counted.
    let tree = entry(alloc, "a", Ipld::Integer(1))?;
    let mut members = reported("deserialize_map", tree.deserialize_map())?;
    assert!(rt; members.next_key::<char>(alloc) == Ok(Some('a')));
    assert!(rt; members.remaining() == 0 && members.size_hint() == Some(0));
    assert!(rt; members.next_key::<char>(alloc) == Ok(None));
    returns(&rt, members.end(), ());
    Ok(())
}

// Returns the content of a variant, of this kind.
fn content(alloc: Global, kind: IpldKind) -> Result<VariantDeserializer, Ended> {
    let tree = variant(alloc, of_kind(alloc, kind)?)?;
    let read = reported("deserialize_enum", tree.deserialize_enum("E", &["V"]))?;
    Ok(read.variant().1)
}

#[test]
fn contents_by_kind(rt: HostRuntime) -> Result<(), Ended> {
    let alloc = rt.alloc();
    for found in KINDS {
        let outcome = content(alloc, found)?.unit_variant();
        reads_kind(&rt, found, IpldKind::Null, outcome);
        let outcome = content(alloc, found)?.tuple_variant(0);
        reads_kind(&rt, found, IpldKind::List, outcome);
        let outcome = content(alloc, found)?.struct_variant(&["f"]);
        reads_kind(&rt, found, IpldKind::Map, outcome);
    }
    Ok(())
}

#[test]
fn contents_of_another_length(rt: HostRuntime) -> Result<(), Ended> {
    let alloc = rt.alloc();
    assert!(rt;
        content(alloc, IpldKind::List)?.tuple_variant(1).err() == Some(SerdeError::WrongLength)
    );
    let tree = variant(alloc, list_of(alloc, 1)?)?;
    let read = reported("deserialize_enum", tree.deserialize_enum("E", &["V"]))?;
    assert!(rt; read.variant().1.tuple_variant(2).err() == Some(SerdeError::WrongLength));
    let tree = variant(alloc, list_of(alloc, 1)?)?;
    let read = reported("deserialize_enum", tree.deserialize_enum("E", &["V"]))?;
    let items = reported("tuple_variant", read.variant().1.tuple_variant(1))?;
    assert!(rt; items.remaining() == 1);
    Ok(())
}

#[test]
fn texts_of_one_character_and_of_two(rt: HostRuntime) -> Result<(), Ended> {
    let alloc = rt.alloc();
    returns(
        &rt,
        Ipld::from_text(alloc, "\u{e9}")?.deserialize_char(),
        '\u{e9}',
    );
    let outcome = Ipld::from_text(alloc, "xy")?.deserialize_char();
    rejects(&rt, outcome, SerdeError::NotOneChar);
    let tree = map(alloc, "b", true)?;
    assert!(rt; tree.deserialize_enum("E", &["a"]).err() == Some(SerdeError::MoreKeys));
    Ok(())
}
