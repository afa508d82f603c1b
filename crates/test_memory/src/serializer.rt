//! The calls that write a value in one step.

use crate::ended::{Ended, reported};
use crate::samples::{A, cid, is_bytes, is_same, is_text};
use ipld_cid::CID_SERDE_PRIVATE_IDENTIFIER;
use ipld_ser::{ByteBuf, SerdeError, Serializer};
use ipld_tree::Ipld;
use std::alloc::Global;
use std::process::Abort;

fn yields_text(
    rt: &impl Abort,
    call: &'static str,
    outcome: Result<Ipld, SerdeError>,
    text: &str,
) -> Result<(), Ended> {
    assert!(rt; is_text(&reported(call, outcome)?, text));
    Ok(())
}

fn yields_bytes(rt: &impl Abort, alloc: Global) -> Result<(), Ended> {
    let tree = reported("serialize_bytes", Serializer.serialize_bytes(alloc, &A))?;
    assert!(rt; is_bytes(&tree, &A));
    Ok(())
}

#[test]
fn scalars(rt: HostRuntime) -> Result<(), Ended> {
    let alloc = rt.alloc();
    let outcome = Serializer.serialize_char(alloc, 'c');
    yields_text(&rt, "serialize_char", outcome, "c")?;
    let outcome = Serializer.serialize_str(alloc, "x");
    yields_text(&rt, "serialize_str", outcome, "x")?;
    yields_bytes(&rt, alloc)?;
    let outcome = Serializer.serialize_some(alloc, &"x");
    yields_text(&rt, "serialize_some", outcome, "x")?;
    let outcome = Serializer.serialize_unit_variant(alloc, "Enum", 0, "V");
    yields_text(&rt, "serialize_unit_variant", outcome, "V")
}

fn newtype_struct(alloc: Global) -> Result<Ipld, Ended> {
    let bytes = ByteBuf::from(Vec::from_slice(alloc, &A)?);
    let tree = Serializer.serialize_newtype_struct(alloc, CID_SERDE_PRIVATE_IDENTIFIER, &bytes);
    reported("serialize_newtype_struct", tree)
}

fn newtype_variant(alloc: Global) -> Result<Ipld, Ended> {
    let tree = Serializer.serialize_newtype_variant(alloc, "Enum", 0, "V", &'c');
    reported("serialize_newtype_variant", tree)
}

#[test]
fn newtypes(rt: HostRuntime) -> Result<(), Ended> {
    let link = newtype_struct(rt.alloc())?;
    assert!(rt; is_same(&link, &Ipld::Link(cid(&A)?)));
    let variant = newtype_variant(rt.alloc())?;
    assert!(rt; matches!(variant.get("V"), Ok(Some(content)) if is_text(content, "c")));
    Ok(())
}
