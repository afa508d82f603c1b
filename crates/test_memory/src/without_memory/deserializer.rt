//! The calls that read a tree, and the cursors over no items.

use crate::ended::{Ended, reported};
use crate::samples::{A, KINDS, cid, of_kind, reads_kind, rejects, returns};
use ipld_cid::CID_SERDE_PRIVATE_IDENTIFIER;
use ipld_de::{Deserialize, Deserializer, IgnoredAny, VariantDeserializer, from_ipld};
use ipld_ser::SerdeError;
use ipld_tree::{Ipld, IpldKind};
use std::alloc::Global;
use std::collections::BTreeMap;
use std::process::Abort;

// Checks that the tree is read as the value.
fn reads<T: Deserialize + PartialEq>(rt: &impl Abort, alloc: Global, tree: Ipld, value: T) {
    assert!(rt; from_ipld(alloc, tree) == Ok(value));
}

#[test]
fn values_and_links(rt: HostRuntime) -> Result<(), Ended> {
    let alloc = rt.alloc();
    reads(&rt, alloc, Ipld::Bool(true), true);
    reads(&rt, alloc, Ipld::Integer(7), 7u8);
    reads(&rt, alloc, Ipld::Null, None::<u8>);
    reads(&rt, alloc, Ipld::Null, ());
    reads(
        &rt,
        alloc,
        Ipld::String(String::new(alloc)),
        String::new(alloc),
    );
    reads(
        &rt,
        alloc,
        Ipld::List(Vec::new(alloc)),
        Vec::<u8>::new(alloc),
    );
    reads(&rt, rt.alloc(), Ipld::Link(cid(&A)?), cid(&A)?);
    Ok(())
}

#[test]
fn scalars_and_numbers(rt: HostRuntime) {
    returns(&rt, Ipld::Integer(7).deserialize_u8(), 7);
    returns(&rt, Ipld::Integer(7).deserialize_u128(), 7);
    let outcome = Ipld::Integer(256).deserialize_u8();
    rejects(&rt, outcome, SerdeError::OutOfRange);
    returns(&rt, Ipld::Bool(true).deserialize_bool(), true);
    returns(&rt, Ipld::Null.deserialize_unit(), ());
    let outcome = Ipld::Null.deserialize_unit_struct("Unit");
    rejects(&rt, outcome, SerdeError::UnitStruct);
    returns(&rt, Ipld::Null.deserialize_option(), None);
    let some = Some(Ipld::Bool(true));
    returns(&rt, Ipld::Bool(true).deserialize_option(), some);
    returns(&rt, Ipld::Null.deserialize_any(), Ipld::Null);
    assert!(rt; Ipld::Null.deserialize_ignored_any() == Ok(IgnoredAny));
    assert!(rt; !Ipld::Null.is_human_readable());
}

fn text(alloc: Global) -> Ipld {
    Ipld::String(String::new(alloc))
}

fn bytes(alloc: Global) -> Ipld {
    Ipld::Bytes(Vec::new(alloc))
}

#[test]
fn texts_bytes_and_newtypes(rt: HostRuntime) -> Result<(), Ended> {
    let link = Ipld::Link(cid(&A)?);
    let read = link.deserialize_newtype_struct(CID_SERDE_PRIVATE_IDENTIFIER);
    assert!(rt; read.is_ok());
    let refused = Ipld::Null.deserialize_newtype_struct(CID_SERDE_PRIVATE_IDENTIFIER);
    assert!(rt; refused == Err(SerdeError::WrongKind(IpldKind::Null)));
    let alloc = rt.alloc();
    returns(&rt, text(alloc).deserialize_str(), String::new(alloc));
    let outcome = text(alloc).deserialize_identifier();
    returns(&rt, outcome, String::new(alloc));
    let outcome = text(alloc).deserialize_char();
    rejects(&rt, outcome, SerdeError::NotOneChar);
    assert!(rt; bytes(alloc).deserialize_bytes().is_ok());
    Ok(())
}

fn list(alloc: Global) -> Ipld {
    Ipld::List(Vec::new(alloc))
}

fn map(alloc: Global) -> Ipld {
    Ipld::Map(BTreeMap::new(alloc))
}

#[test]
fn lists_and_tuples(rt: HostRuntime) -> Result<(), Ended> {
    let alloc = rt.alloc();
    let mut items = reported("deserialize_seq", list(alloc).deserialize_seq())?;
    assert!(rt; items.next_element::<Ipld>(alloc) == Ok(None));
    assert!(rt; items.remaining() == 0 && items.size_hint() == Some(0));
    returns(&rt, items.end(), ());
    let tuple = list(rt.alloc()).deserialize_tuple(2);
    returns(&rt, reported("deserialize_tuple", tuple)?.end(), ());
    Ok(())
}

#[test]
fn maps(rt: HostRuntime) -> Result<(), Ended> {
    let alloc = rt.alloc();
    let mut members = reported("deserialize_map", map(alloc).deserialize_map())?;
    assert!(rt; members.next_key::<String>(alloc) == Ok(None));
    assert!(rt; members.next_value::<u8>(alloc) == Err(SerdeError::MissingValue));
    assert!(rt; members.remaining() == 0 && members.size_hint() == Some(0));
    returns(&rt, members.end(), ());
    Ok(())
}

// Returns a variant without content, with an empty name.
fn empty_variant(alloc: Global) -> Result<VariantDeserializer, Ended> {
    let read = reported(
        "deserialize_enum",
        text(alloc).deserialize_enum("Enum", &[]),
    )?;
    let (_name, content) = read.variant();
    Ok(content)
}

#[test]
fn variants(rt: HostRuntime) -> Result<(), Ended> {
    let alloc = rt.alloc();
    returns(&rt, empty_variant(alloc)?.unit_variant(), ());
    let outcome = empty_variant(alloc)?.newtype_variant::<u8>(alloc);
    rejects(&rt, outcome, SerdeError::VariantContent);
    assert!(rt; empty_variant(alloc)?.tuple_variant(2).is_err());
    assert!(rt; empty_variant(alloc)?.struct_variant(&[]).is_err());
    assert!(rt; map(alloc).deserialize_enum("Enum", &[]).is_err());
    Ok(())
}

fn reads_numbers(rt: &impl Abort, alloc: Global, found: IpldKind) -> Result<(), Ended> {
    let integer = IpldKind::Integer;
    let tree = of_kind(alloc, found)?;
    reads_kind(rt, found, integer, tree.deserialize_i8());
    let tree = of_kind(alloc, found)?;
    reads_kind(rt, found, integer, tree.deserialize_i16());
    let tree = of_kind(alloc, found)?;
    reads_kind(rt, found, integer, tree.deserialize_i32());
    let tree = of_kind(alloc, found)?;
    reads_kind(rt, found, integer, tree.deserialize_i64());
    let tree = of_kind(alloc, found)?;
    reads_kind(rt, found, integer, tree.deserialize_i128());
    let tree = of_kind(alloc, found)?;
    reads_kind(rt, found, integer, tree.deserialize_u8());
    let tree = of_kind(alloc, found)?;
    reads_kind(rt, found, integer, tree.deserialize_u16());
    let tree = of_kind(alloc, found)?;
    reads_kind(rt, found, integer, tree.deserialize_u32());
    let tree = of_kind(alloc, found)?;
    reads_kind(rt, found, integer, tree.deserialize_u64());
    let tree = of_kind(alloc, found)?;
    reads_kind(rt, found, integer, tree.deserialize_u128());
    Ok(())
}

fn reads_texts_and_bytes(rt: &impl Abort, alloc: Global, found: IpldKind) -> Result<(), Ended> {
    let tree = of_kind(alloc, found)?;
    reads_kind(rt, found, IpldKind::String, tree.deserialize_str());
    let tree = of_kind(alloc, found)?;
    reads_kind(rt, found, IpldKind::String, tree.deserialize_string());
    let tree = of_kind(alloc, found)?;
    reads_kind(rt, found, IpldKind::String, tree.deserialize_identifier());
    let tree = of_kind(alloc, found)?;
    reads_kind(rt, found, IpldKind::Bytes, tree.deserialize_bytes());
    let tree = of_kind(alloc, found)?;
    reads_kind(rt, found, IpldKind::Bytes, tree.deserialize_byte_buf());
    let outcome = of_kind(alloc, found)?.deserialize_char();
    let is_text = found == IpldKind::String;
    // The string has no character.
    assert!(rt;
        outcome
            == Err(if is_text {
                SerdeError::NotOneChar
            } else {
                SerdeError::WrongKind(found)
            })
    );
    Ok(())
}

fn reads_lists_and_maps(rt: &impl Abort, alloc: Global, found: IpldKind) -> Result<(), Ended> {
    let tree = of_kind(alloc, found)?;
    reads_kind(rt, found, IpldKind::List, tree.deserialize_seq());
    let tree = of_kind(alloc, found)?;
    reads_kind(rt, found, IpldKind::List, tree.deserialize_tuple(2));
    let tree = of_kind(alloc, found)?;
    reads_kind(
        rt,
        found,
        IpldKind::List,
        tree.deserialize_tuple_struct("T", 2),
    );
    let tree = of_kind(alloc, found)?;
    reads_kind(rt, found, IpldKind::Map, tree.deserialize_map());
    let tree = of_kind(alloc, found)?;
    reads_kind(
        rt,
        found,
        IpldKind::Map,
        tree.deserialize_struct("S", &["f"]),
    );
    match of_kind(alloc, found)?.deserialize_enum("E", &["V"]) {
        Ok(_) => assert!(rt; found == IpldKind::String),
        Err(SerdeError::NoKey) => assert!(rt; found == IpldKind::Map),
        Err(error) => assert!(rt; error == SerdeError::WrongKind(found)),
    }
    Ok(())
}

fn reads_others(rt: &impl Abort, alloc: Global, found: IpldKind) -> Result<(), Ended> {
    let tree = of_kind(alloc, found)?;
    reads_kind(rt, found, IpldKind::Null, tree.deserialize_unit());
    let tree = of_kind(alloc, found)?;
    reads_kind(rt, found, IpldKind::Bool, tree.deserialize_bool());
    let tree = of_kind(alloc, found)?;
    let link = tree.deserialize_newtype_struct(CID_SERDE_PRIVATE_IDENTIFIER);
    reads_kind(rt, found, IpldKind::Link, link);
    let tree = of_kind(alloc, found)?;
    rejects(
        rt,
        tree.deserialize_unit_struct("U"),
        SerdeError::UnitStruct,
    );
    let tree = of_kind(alloc, found)?;
    returns(
        rt,
        tree.deserialize_newtype_struct("N"),
        of_kind(alloc, found)?,
    );
    let tree = of_kind(alloc, found)?;
    returns(rt, tree.deserialize_any(), of_kind(alloc, found)?);
    let tree = of_kind(alloc, found)?;
    assert!(rt; tree.deserialize_ignored_any() == Ok(IgnoredAny));
    let tree = of_kind(alloc, found)?;
    let is_null = found == IpldKind::Null;
    let expected = if is_null {
        None
    } else {
        Some(of_kind(alloc, found)?)
    };
    returns(rt, tree.deserialize_option(), expected);
    Ok(())
}

#[test]
fn each_kind(rt: HostRuntime) -> Result<(), Ended> {
    let alloc = rt.alloc();
    for kind in KINDS {
        reads_numbers(&rt, alloc, kind)?;
        reads_texts_and_bytes(&rt, alloc, kind)?;
        reads_lists_and_maps(&rt, alloc, kind)?;
        reads_others(&rt, alloc, kind)?;
    }
    Ok(())
}

#[test]
fn signed_numbers_at_their_bounds(rt: HostRuntime) {
    let outcome = Ipld::Integer(-0x81).deserialize_i8();
    rejects(&rt, outcome, SerdeError::OutOfRange);
    returns(&rt, Ipld::Integer(-0x80).deserialize_i8(), i8::MIN);
    returns(&rt, Ipld::Integer(0x7f).deserialize_i8(), i8::MAX);
    let outcome = Ipld::Integer(0x80).deserialize_i8();
    rejects(&rt, outcome, SerdeError::OutOfRange);
    let outcome = Ipld::Integer(-0x8001).deserialize_i16();
    rejects(&rt, outcome, SerdeError::OutOfRange);
    returns(&rt, Ipld::Integer(-0x8000).deserialize_i16(), i16::MIN);
    returns(&rt, Ipld::Integer(0x7fff).deserialize_i16(), i16::MAX);
    let outcome = Ipld::Integer(0x8000).deserialize_i16();
    rejects(&rt, outcome, SerdeError::OutOfRange);
    let outcome = Ipld::Integer(-0x8000_0001).deserialize_i32();
    rejects(&rt, outcome, SerdeError::OutOfRange);
    returns(&rt, Ipld::Integer(-0x8000_0000).deserialize_i32(), i32::MIN);
    returns(&rt, Ipld::Integer(0x7fff_ffff).deserialize_i32(), i32::MAX);
    let outcome = Ipld::Integer(0x8000_0000).deserialize_i32();
    rejects(&rt, outcome, SerdeError::OutOfRange);
    let outcome = Ipld::Integer(-0x8000_0000_0000_0001).deserialize_i64();
    rejects(&rt, outcome, SerdeError::OutOfRange);
    returns(
        &rt,
        Ipld::Integer(-0x8000_0000_0000_0000).deserialize_i64(),
        i64::MIN,
    );
    returns(
        &rt,
        Ipld::Integer(0x7fff_ffff_ffff_ffff).deserialize_i64(),
        i64::MAX,
    );
    let outcome = Ipld::Integer(0x8000_0000_0000_0000).deserialize_i64();
    rejects(&rt, outcome, SerdeError::OutOfRange);
    returns(&rt, Ipld::Integer(i128::MIN).deserialize_i128(), i128::MIN);
    returns(&rt, Ipld::Integer(i128::MAX).deserialize_i128(), i128::MAX);
}

#[test]
fn unsigned_numbers_at_their_bounds(rt: HostRuntime) {
    let outcome = Ipld::Integer(-1).deserialize_u8();
    rejects(&rt, outcome, SerdeError::OutOfRange);
    returns(&rt, Ipld::Integer(0).deserialize_u8(), u8::MIN);
    returns(&rt, Ipld::Integer(0xff).deserialize_u8(), u8::MAX);
    let outcome = Ipld::Integer(0x100).deserialize_u8();
    rejects(&rt, outcome, SerdeError::OutOfRange);
    let outcome = Ipld::Integer(-1).deserialize_u16();
    rejects(&rt, outcome, SerdeError::OutOfRange);
    returns(&rt, Ipld::Integer(0).deserialize_u16(), u16::MIN);
    returns(&rt, Ipld::Integer(0xffff).deserialize_u16(), u16::MAX);
    let outcome = Ipld::Integer(0x1_0000).deserialize_u16();
    rejects(&rt, outcome, SerdeError::OutOfRange);
    let outcome = Ipld::Integer(-1).deserialize_u32();
    rejects(&rt, outcome, SerdeError::OutOfRange);
    returns(&rt, Ipld::Integer(0).deserialize_u32(), u32::MIN);
    returns(&rt, Ipld::Integer(0xffff_ffff).deserialize_u32(), u32::MAX);
    let outcome = Ipld::Integer(0x1_0000_0000).deserialize_u32();
    rejects(&rt, outcome, SerdeError::OutOfRange);
    let outcome = Ipld::Integer(-1).deserialize_u64();
    rejects(&rt, outcome, SerdeError::OutOfRange);
    returns(&rt, Ipld::Integer(0).deserialize_u64(), u64::MIN);
    returns(
        &rt,
        Ipld::Integer(0xffff_ffff_ffff_ffff).deserialize_u64(),
        u64::MAX,
    );
    let outcome = Ipld::Integer(0x1_0000_0000_0000_0000).deserialize_u64();
    rejects(&rt, outcome, SerdeError::OutOfRange);
    let outcome = Ipld::Integer(-1).deserialize_u128();
    rejects(&rt, outcome, SerdeError::OutOfRange);
    returns(&rt, Ipld::Integer(0).deserialize_u128(), 0);
    let greatest = Ipld::Integer(i128::MAX).deserialize_u128();
    returns(&rt, greatest, (1 << 127) - 1);
}
