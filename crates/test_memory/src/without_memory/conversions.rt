//! Conversions between trees and the types of Rust.

use crate::ended::Ended;
use crate::samples::{A, KINDS, cid, of_kind};
use ipld_cid::Cid;
use ipld_tree::convert::{ConversionError, TargetType};
use ipld_tree::{Ipld, IpldKind};
use std::alloc::Global;
use std::collections::BTreeMap;
use std::process::Abort;

// Checks that the type takes the value from the tree.
fn takes<T>(rt: &impl Abort, tree: Ipld, value: T)
where
    T: TryFrom<Ipld, Error = ConversionError> + PartialEq + Drop,
{
    assert!(rt; T::try_from(tree) == Ok(value));
}

// Checks that the number makes a round trip through a tree.
fn keeps<T>(rt: &impl Abort, number: T)
where
    T: Into<Ipld> + TryFrom<Ipld, Error = ConversionError> + PartialEq + Copy,
{
    takes::<T>(rt, number.into(), number);
}

#[test]
fn of_numbers(rt: HostRuntime) {
    keeps(&rt, i8::MIN);
    keeps(&rt, i16::MIN);
    keeps(&rt, i32::MIN);
    keeps(&rt, i64::MIN);
    keeps(&rt, i128::MIN);
    keeps(&rt, isize::MIN);
    keeps(&rt, u8::MAX);
    keeps(&rt, u16::MAX);
    keeps(&rt, u32::MAX);
    keeps(&rt, u64::MAX);
    keeps(&rt, usize::MAX);
    takes(&rt, Ipld::from(7u64), 7u128);
    takes(&rt, Ipld::from(7u64), Some(7u64));
}

#[test]
fn of_one(rt: HostRuntime) {
    let one = Ipld::Integer(1);
    assert!(rt; Ipld::from(1i8) == one && Ipld::from(1i16) == one && Ipld::from(1i32) == one);
    assert!(rt; Ipld::from(1i64) == one && Ipld::from(1i128) == one);
    assert!(rt; Ipld::from(1isize) == one && Ipld::from(1usize) == one);
    assert!(rt; Ipld::from(1u8) == one && Ipld::from(1u16) == one && Ipld::from(1u32) == one);
    assert!(rt; Ipld::from(1u64) == one);
    assert!(rt; Ipld::from(false) == Ipld::Bool(false) && Ipld::from(true) == Ipld::Bool(true));
}

#[test]
fn of_other_kinds(rt: HostRuntime) -> Result<(), Ended> {
    let cid = cid(&A)?;
    takes(&rt, Ipld::Null, ());
    takes(&rt, Ipld::from(true), true);
    takes(&rt, Ipld::from(true), Some(true));
    takes(&rt, Ipld::from(cid), cid);
    takes(&rt, Ipld::from(&cid), Some(cid));
    takes(&rt, Ipld::Null, None::<Cid>);
    let alloc = rt.alloc();
    takes(&rt, Ipld::from(String::new(alloc)), String::new(alloc));
    takes(
        &rt,
        Ipld::from(String::new(alloc)),
        Some(String::new(alloc)),
    );
    takes(
        &rt,
        Ipld::from(Vec::<u8>::new(alloc)),
        Vec::<u8>::new(alloc),
    );
    takes(
        &rt,
        Ipld::from(Vec::<Ipld>::new(alloc)),
        Vec::<Ipld>::new(alloc),
    );
    takes(
        &rt,
        Ipld::from(Vec::<Ipld>::new(alloc)),
        Some(Vec::<Ipld>::new(alloc)),
    );
    let (map, same) = (BTreeMap::<String, Ipld>::new(alloc), BTreeMap::new(alloc));
    takes(&rt, Ipld::from(map), same);
    let (map, same) = (BTreeMap::<String, Ipld>::new(alloc), BTreeMap::new(alloc));
    takes(&rt, Ipld::from(map), Some(same));
    Ok(())
}

// Checks that the type takes the tree of only one kind. An `Option` also takes Null, as `None`.
fn takes_kind<T>(
    rt: &impl Abort,
    alloc: Global,
    expected: IpldKind,
    is_option: bool,
) -> Result<(), Ended>
where
    T: TryFrom<Ipld, Error = ConversionError> + Drop,
{
    for found in KINDS {
        match T::try_from(of_kind(alloc, found)?) {
            Ok(_) => assert!(rt; found == expected || (is_option && found == IpldKind::Null)),
            Err(error) => {
                assert!(rt; error == ConversionError::WrongIpldKind { expected, found });
                assert!(rt; found != expected && !(is_option && found == IpldKind::Null));
            }
        }
    }
    Ok(())
}

// Checks the type and its `Option`.
fn both_take_kind<T>(rt: &impl Abort, alloc: Global, expected: IpldKind) -> Result<(), Ended>
where
    T: TryFrom<Ipld, Error = ConversionError> + Drop,
    Option<T>: TryFrom<Ipld, Error = ConversionError>,
{
    takes_kind::<T>(rt, alloc, expected, false)?;
    takes_kind::<Option<T>>(rt, alloc, expected, true)
}

#[test]
fn of_each_kind_to_numbers(rt: HostRuntime) -> Result<(), Ended> {
    let alloc = rt.alloc();
    both_take_kind::<i8>(&rt, alloc, IpldKind::Integer)?;
    both_take_kind::<i16>(&rt, alloc, IpldKind::Integer)?;
    both_take_kind::<i32>(&rt, alloc, IpldKind::Integer)?;
    both_take_kind::<i64>(&rt, alloc, IpldKind::Integer)?;
    both_take_kind::<i128>(&rt, alloc, IpldKind::Integer)?;
    both_take_kind::<isize>(&rt, alloc, IpldKind::Integer)?;
    both_take_kind::<u8>(&rt, alloc, IpldKind::Integer)?;
    both_take_kind::<u16>(&rt, alloc, IpldKind::Integer)?;
    both_take_kind::<u32>(&rt, alloc, IpldKind::Integer)?;
    both_take_kind::<u64>(&rt, alloc, IpldKind::Integer)?;
    both_take_kind::<u128>(&rt, alloc, IpldKind::Integer)?;
    both_take_kind::<usize>(&rt, alloc, IpldKind::Integer)
}

#[test]
fn of_each_kind_to_others(rt: HostRuntime) -> Result<(), Ended> {
    let alloc = rt.alloc();
    takes_kind::<()>(&rt, alloc, IpldKind::Null, false)?;
    both_take_kind::<bool>(&rt, alloc, IpldKind::Bool)?;
    both_take_kind::<String>(&rt, alloc, IpldKind::String)?;
    both_take_kind::<Vec<u8>>(&rt, alloc, IpldKind::Bytes)?;
    both_take_kind::<Vec<Ipld>>(&rt, alloc, IpldKind::List)?;
    both_take_kind::<BTreeMap<String, Ipld>>(&rt, alloc, IpldKind::Map)?;
    both_take_kind::<Cid>(&rt, alloc, IpldKind::Link)
}

// Checks that neither the type nor its `Option` has the number.
fn lacks<T>(rt: &impl Abort, number: i128, into: TargetType)
where
    T: TryFrom<Ipld, Error = ConversionError> + Drop,
    Option<T>: TryFrom<Ipld, Error = ConversionError>,
{
    let expected = ConversionError::FromIpld {
        from: IpldKind::Integer,
        into,
    };
    assert!(rt; T::try_from(Ipld::Integer(number)).err() == Some(expected));
    assert!(rt; Option::<T>::try_from(Ipld::Integer(number)).err() == Some(expected));
}

#[test]
fn of_numbers_below_the_least(rt: HostRuntime) {
    lacks::<i8>(&rt, -0x81, TargetType::I8);
    lacks::<i16>(&rt, -0x8001, TargetType::I16);
    lacks::<i32>(&rt, -0x8000_0001, TargetType::I32);
    lacks::<i64>(&rt, -0x8000_0000_0000_0001, TargetType::I64);
    lacks::<isize>(&rt, -0x8000_0000_0000_0001, TargetType::Isize);
    lacks::<u8>(&rt, -1, TargetType::U8);
    lacks::<u16>(&rt, -1, TargetType::U16);
    lacks::<u32>(&rt, -1, TargetType::U32);
    lacks::<u64>(&rt, -1, TargetType::U64);
    lacks::<u128>(&rt, -1, TargetType::U128);
    lacks::<usize>(&rt, -1, TargetType::Usize);
}

#[test]
fn of_numbers_above_the_greatest(rt: HostRuntime) {
    lacks::<i8>(&rt, 0x80, TargetType::I8);
    lacks::<i16>(&rt, 0x8000, TargetType::I16);
    lacks::<i32>(&rt, 0x8000_0000, TargetType::I32);
    lacks::<i64>(&rt, 0x8000_0000_0000_0000, TargetType::I64);
    lacks::<isize>(&rt, 0x8000_0000_0000_0000, TargetType::Isize);
    lacks::<u8>(&rt, 0x100, TargetType::U8);
    lacks::<u16>(&rt, 0x1_0000, TargetType::U16);
    lacks::<u32>(&rt, 0x1_0000_0000, TargetType::U32);
    lacks::<u64>(&rt, 0x1_0000_0000_0000_0000, TargetType::U64);
    lacks::<usize>(&rt, 0x1_0000_0000_0000_0000, TargetType::Usize);
}
