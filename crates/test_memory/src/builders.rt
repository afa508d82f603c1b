//! The builders of lists, maps and variants, and their content after a rejection.

use crate::ended::{Ended, reported};
use crate::samples::{list, map, variant};
use ipld_ser::{
    SerdeError, SerializeMap, SerializeStructVariant, SerializeTupleVariant, SerializeVec,
    Serializer,
};
use ipld_tree::Ipld;
use std::alloc::Global;
use std::process::Abort;

// Returns the list of 1, without capacity for more.
fn one(alloc: Global) -> Result<SerializeVec, Ended> {
    let mut list = reported("serialize_seq", Serializer.serialize_seq(alloc, Some(1)))?;
    reported(
        "serialize_element of a number",
        list.serialize_element(&1u8),
    )?;
    Ok(list)
}

// Returns the map of `a`: 1.
fn entry(alloc: Global) -> Result<SerializeMap, Ended> {
    let mut map = reported("serialize_map", Serializer.serialize_map(alloc, None))?;
    reported("serialize_entry", map.serialize_entry(&"a", &1u8))?;
    Ok(map)
}

// Returns the map of `a`: 1, with the pending key `b`.
fn pending(alloc: Global) -> Result<SerializeMap, Ended> {
    let mut map = entry(alloc)?;
    reported("serialize_key", map.serialize_key(&'b'))?;
    Ok(map)
}

// Returns the variant `V` of the list of 1, without capacity for more.
fn tuple(alloc: Global) -> Result<SerializeTupleVariant, Ended> {
    let built = Serializer.serialize_tuple_variant(alloc, "Enum", 0, "V", 1);
    let mut tuple = reported("serialize_tuple_variant", built)?;
    reported("serialize_field of a number", tuple.serialize_field(&1u8))?;
    Ok(tuple)
}

// Returns the variant `V` of the map of `a`: 1.
fn fields(alloc: Global) -> Result<SerializeStructVariant, Ended> {
    let built = Serializer.serialize_struct_variant(alloc, "Enum", 0, "V", 1);
    let mut fields = reported("serialize_struct_variant", built)?;
    reported("serialize_field", fields.serialize_field("a", &1u8))?;
    Ok(fields)
}

// Checks that a builder ends as this tree. The call is reported after that.
fn holds(
    rt: &impl Abort,
    call: &'static str,
    outcome: Result<(), SerdeError>,
    built: Result<Ipld, SerdeError>,
    expected: Ipld,
) -> Result<(), Ended> {
    assert!(rt; reported("end", built)? == expected);
    reported(call, outcome)
}

#[test]
fn elements(rt: HostRuntime) -> Result<(), Ended> {
    let mut built = one(rt.alloc())?;
    let outcome = built.serialize_element(&'x');
    let expected = list(rt.alloc(), outcome.is_ok())?;
    holds(&rt, "serialize_element", outcome, built.end(), expected)
}

#[test]
fn fields_of_tuple_structs(rt: HostRuntime) -> Result<(), Ended> {
    let mut built = one(rt.alloc())?;
    let outcome = built.serialize_field(&'x');
    let expected = list(rt.alloc(), outcome.is_ok())?;
    holds(&rt, "serialize_field", outcome, built.end(), expected)
}

#[test]
fn capacities(rt: HostRuntime) -> Result<(), Ended> {
    let tuple = Serializer.serialize_tuple(rt.alloc(), 1);
    drop(reported("serialize_tuple", tuple)?);
    let fields = Serializer.serialize_tuple_struct(rt.alloc(), "Struct", 1);
    drop(reported("serialize_tuple_struct", fields)?);
    Ok(())
}

#[test]
fn fields_of_tuple_variants(rt: HostRuntime) -> Result<(), Ended> {
    let mut built = tuple(rt.alloc())?;
    let outcome = built.serialize_field(&'x');
    let expected = variant(rt.alloc(), list(rt.alloc(), outcome.is_ok())?)?;
    holds(&rt, "serialize_field", outcome, built.end(), expected)
}

#[test]
fn fields_of_struct_variants(rt: HostRuntime) -> Result<(), Ended> {
    let mut built = fields(rt.alloc())?;
    let outcome = built.serialize_field("b", &'x');
    let expected = variant(rt.alloc(), map(rt.alloc(), "b", outcome.is_ok())?)?;
    holds(&rt, "serialize_field", outcome, built.end(), expected)
}

#[test]
fn keys(rt: HostRuntime) -> Result<(), Ended> {
    let mut built = entry(rt.alloc())?;
    let outcome = built.serialize_key(&'b');
    // No key was pending before.
    assert_eq!(rt; built.has_key(), outcome.is_ok());
    let expected = map(rt.alloc(), "b", false)?;
    holds(&rt, "serialize_key", outcome, built.end(), expected)
}

#[test]
fn values(rt: HostRuntime) -> Result<(), Ended> {
    let mut built = entry(rt.alloc())?;
    reported("serialize_key", built.serialize_key(&'b'))?;
    assert!(rt; built.has_key());
    let outcome = built.serialize_value(&'x');
    assert!(rt; !built.has_key());
    let expected = map(rt.alloc(), "b", outcome.is_ok())?;
    holds(&rt, "serialize_value", outcome, built.end(), expected)
}

#[test]
fn entries(rt: HostRuntime) -> Result<(), Ended> {
    let mut built = entry(rt.alloc())?;
    let outcome = built.serialize_entry(&'b', &'x');
    let expected = map(rt.alloc(), "b", outcome.is_ok())?;
    holds(&rt, "serialize_entry", outcome, built.end(), expected)
}

#[test]
fn fields_of_structs(rt: HostRuntime) -> Result<(), Ended> {
    let mut built = entry(rt.alloc())?;
    let outcome = built.serialize_field("b", &'x');
    let expected = map(rt.alloc(), "b", outcome.is_ok())?;
    holds(&rt, "serialize_field", outcome, built.end(), expected)
}

// Checks a call that put 1 at `a` again while `b` was pending. It allocates only the name, so `b`
// is still pending if that failed.
fn ran_out_for_the_name(
    rt: &impl Abort,
    call: &'static str,
    outcome: Result<(), SerdeError>,
    built: SerializeMap,
    expected: Ipld,
) -> Result<(), Ended> {
    assert_eq!(rt; built.has_key(), outcome.is_err());
    holds(rt, call, outcome, built.end(), expected)
}

#[test]
fn keys_beside_a_pending_one(rt: HostRuntime) -> Result<(), Ended> {
    let mut built = pending(rt.alloc())?;
    let outcome = built.serialize_entry(&'a', &1u8);
    let expected = map(rt.alloc(), "b", false)?;
    ran_out_for_the_name(&rt, "serialize_entry", outcome, built, expected)
}

#[test]
fn names_beside_a_pending_key(rt: HostRuntime) -> Result<(), Ended> {
    let mut built = pending(rt.alloc())?;
    let outcome = built.serialize_field("a", &1u8);
    let expected = map(rt.alloc(), "b", false)?;
    ran_out_for_the_name(&rt, "serialize_field", outcome, built, expected)
}

// An empty key allocates nothing, so the allocation of the value fails, and then no key is pending.
#[test]
fn values_beside_a_pending_key(rt: HostRuntime) -> Result<(), Ended> {
    let mut built = pending(rt.alloc())?;
    let outcome = built.serialize_entry(&"", &'x');
    assert!(rt; !built.has_key());
    let expected = map(rt.alloc(), "", outcome.is_ok())?;
    holds(&rt, "serialize_entry", outcome, built.end(), expected)
}

// Checks the same for an empty name.
#[test]
fn values_of_fields_beside_a_pending_key(rt: HostRuntime) -> Result<(), Ended> {
    let mut built = pending(rt.alloc())?;
    let outcome = built.serialize_field("", &'x');
    assert!(rt; !built.has_key());
    let expected = map(rt.alloc(), "", outcome.is_ok())?;
    holds(&rt, "serialize_field", outcome, built.end(), expected)
}
