//! Values that are written without an allocation.

use crate::ended::{Ended, reported};
use crate::samples::{A, cid, rejects, returns};
use ipld_core::serde::samples::UnitStruct;
use ipld_ser::{ByteBuf, SerdeError, Serialize, Serializer, to_ipld};
use ipld_tree::Ipld;
use std::alloc::Global;
use std::collections::BTreeMap;
use std::process::Abort;

// Checks that the value is written as the tree.
fn writes<T: Serialize>(rt: &impl Abort, alloc: Global, value: T, tree: Ipld)
where
    T: Drop,
{
    assert!(rt; to_ipld(alloc, &value) == Ok(tree));
}

#[test]
fn values_and_links(rt: HostRuntime) -> Result<(), Ended> {
    let alloc = rt.alloc();
    writes(&rt, alloc, true, Ipld::Bool(true));
    writes(&rt, alloc, -7i8, Ipld::Integer(-7));
    writes(&rt, alloc, None::<u8>, Ipld::Null);
    writes(&rt, alloc, Some(7u8), Ipld::Integer(7));
    writes(&rt, alloc, Ipld::Null, Ipld::Null);
    // `Some` of nothing is written as nothing is.
    writes(&rt, alloc, Some(None::<u8>), Ipld::Null);
    writes(&rt, alloc, Some(Ipld::Null), Ipld::Null);
    assert!(rt; to_ipld(alloc, &UnitStruct) == Err(SerdeError::UnitStruct));
    assert!(rt; to_ipld(alloc, &()) == Err(SerdeError::Unit));
    let cid = cid(&A)?;
    assert!(rt; to_ipld(rt.alloc(), &cid) == Ok(Ipld::Link(cid)));
    Ok(())
}

#[test]
fn scalars(rt: HostRuntime) {
    returns(&rt, Serializer.serialize_u64(7), Ipld::Integer(7));
    returns(&rt, Serializer.serialize_u128(7), Ipld::Integer(7));
    returns(&rt, Serializer.serialize_bool(true), Ipld::Bool(true));
    returns(&rt, Serializer.serialize_none(), Ipld::Null);
    rejects(&rt, Serializer.serialize_unit(), SerdeError::Unit);
    let outcome = Serializer.serialize_unit_struct("Unit");
    rejects(&rt, outcome, SerdeError::UnitStruct);
    assert!(rt; !Serializer.is_human_readable());
    let bytes = ByteBuf::from(Vec::new(rt.alloc()));
    assert!(rt; bytes.as_slice().is_empty() && bytes.into_vec().is_empty());
}

#[test]
fn lists_and_maps(rt: HostRuntime) -> Result<(), Ended> {
    let list = reported("serialize_seq", Serializer.serialize_seq(rt.alloc(), None))?;
    returns(&rt, list.end(), Ipld::List(Vec::new(rt.alloc())));
    let built = Serializer.serialize_map(rt.alloc(), Some(9));
    let map = reported("serialize_map", built)?;
    assert!(rt; !map.has_key());
    returns(&rt, map.end(), Ipld::Map(BTreeMap::new(rt.alloc())));
    Ok(())
}

#[test]
fn numbers(rt: HostRuntime) {
    returns(&rt, Serializer.serialize_i8(-1), Ipld::Integer(-1));
    returns(&rt, Serializer.serialize_i16(-2), Ipld::Integer(-2));
    returns(&rt, Serializer.serialize_i32(-3), Ipld::Integer(-3));
    returns(&rt, Serializer.serialize_i64(-4), Ipld::Integer(-4));
    let number = i128::MIN;
    returns(
        &rt,
        Serializer.serialize_i128(number),
        Ipld::Integer(number),
    );
    returns(&rt, Serializer.serialize_u8(1), Ipld::Integer(1));
    returns(&rt, Serializer.serialize_u16(2), Ipld::Integer(2));
    returns(&rt, Serializer.serialize_u32(3), Ipld::Integer(3));
    let greatest = (1 << 127) - 1;
    let outcome = Serializer.serialize_u128(greatest);
    returns(&rt, outcome, Ipld::Integer(i128::MAX));
    let outcome = Serializer.serialize_u128(greatest + 1);
    rejects(&rt, outcome, SerdeError::U128);
}
