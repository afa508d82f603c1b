//! The results and the rest of cursors, and values that are written as null.

use ipld_core::ipld;
use ipld_core::ipld::{Ipld, IpldKind};
use ipld_core::serde::samples::Tagged;
use ipld_core::serde::{Deserializer, Lawful, MapDeserializer, SerdeError, from_ipld, to_ipld};
use std::alloc::Global;
use std::process::Abort;
use std::test::Fail;

#[test]
fn elements_after_a_rejected_one(rt: HostRuntime) -> Result<(), Fail> {
    let alloc = rt.alloc();
    let mut items = ipld!(alloc, [1u8, true, 2u8])?.deserialize_seq()?;
    assert!(rt; items.next_element::<u8>(alloc) == Ok(Some(1)));
    assert!(rt; items.next_element::<u8>(alloc) == Err(SerdeError::WrongKind(IpldKind::Bool)));
    assert!(rt; items.end() == Err(SerdeError::Leftover(1)));
    Ok(())
}

// Checks that the next key is this one.
fn has_key(
    rt: &impl Abort,
    alloc: Global,
    members: &mut MapDeserializer,
    expected: &str,
) -> Result<(), Fail> {
    let key = members.next_key::<String>(alloc)?;
    assert!(rt; key.is_some_and(|key| key.as_str() == expected));
    Ok(())
}

#[test]
fn values_after_two_keys(rt: HostRuntime) -> Result<(), Fail> {
    let alloc = rt.alloc();
    let mut members = ipld!(alloc, {"a": 1u8, "b": true})?.deserialize_map()?;
    has_key(&rt, alloc, &mut members, "a")?;
    has_key(&rt, alloc, &mut members, "b")?;
    let rejected = members.next_value::<u8>(alloc);
    assert!(rt; rejected == Err(SerdeError::WrongKind(IpldKind::Bool)));
    assert!(rt; members.next_value::<u8>(alloc) == Err(SerdeError::MissingValue));
    assert!(rt; members.end() == Ok(()));
    Ok(())
}

#[test]
fn values_after_one_key(rt: HostRuntime) -> Result<(), Fail> {
    let alloc = rt.alloc();
    let mut members = ipld!(alloc, {"a": 1u8})?.deserialize_map()?;
    let rejected = members.next_key::<u8>(alloc);
    assert!(rt; rejected == Err(SerdeError::WrongKind(IpldKind::String)));
    assert!(rt; members.remaining() == 0);
    assert!(rt; members.next_value::<u8>(alloc) == Ok(1));
    // A value that wasn't requested isn't counted.
    let mut members = ipld!(alloc, {"a": 1u8})?.deserialize_map()?;
    has_key(&rt, alloc, &mut members, "a")?;
    assert!(rt; members.end() == Ok(()));
    Ok(())
}

// Checks that the value has this image, which is read as another value of the same image.
fn is_read_as<T: Lawful + PartialEq>(
    rt: &impl Abort,
    alloc: Global,
    value: &T,
    image: &Ipld,
    other: &T,
) -> Result<(), Fail> {
    let written = to_ipld(alloc, value)?;
    assert!(rt; written == *image);
    assert!(rt; from_ipld::<T>(alloc, written)? == *other);
    assert!(rt; to_ipld(alloc, other)? == *image);
    Ok(())
}

#[test]
fn nothing_in_something(rt: HostRuntime) -> Result<(), Fail> {
    let alloc = rt.alloc();
    is_read_as(&rt, alloc, &Some(None::<u8>), &Ipld::Null, &None)?;
    is_read_as(&rt, alloc, &Some(Ipld::Null), &Ipld::Null, &None)?;
    let tagged = |item| -> Result<Tagged<Option<Option<u8>>>, Fail> {
        let label = String::from_str(alloc, "t")?;
        Ok(Tagged { label, item })
    };
    let image = ipld!(alloc, {"item": null, "label": "t"})?;
    is_read_as(&rt, alloc, &tagged(Some(None))?, &image, &tagged(None)?)
}
