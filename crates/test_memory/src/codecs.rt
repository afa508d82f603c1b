//! The codecs of plain bytes and of DAG-CBOR.

use crate::ended::{Ended, Rejection, reported, reported_by_vector};
use crate::samples::{A, B, cid, is_same, two_links};
use dag_cbor::DagCborCodec;
use ipld_core::codec::{Codec, LinkIter, Links, RawCodec};
use ipld_tree::{Ipld, Limits};
use std::alloc::Global;
use std::process::Abort;

/// The block of the map of `a` to the link of B and `b` to the link of A.
pub const BLOCK: [u8; 22] = [
    0xa2, 0x61, 0x61, 0xd8, 0x2a, 0x46, 0x00, 0x01, 0x55, 0x00, 0x01, 0x07, 0x61, 0x62, 0xd8, 0x2a,
    0x45, 0x00, 0x01, 0x55, 0x00, 0x00,
];

// Checks that the value is written as the block.
fn writes<C: Codec<Ipld>>(
    rt: &impl Abort,
    alloc: Global,
    value: &Ipld,
    block: &[u8],
) -> Result<(), Ended>
where
    C::Error: Rejection,
{
    let written = reported_by_vector("encode_to_vec", C::encode_to_vec(alloc, value))?;
    assert!(rt; written.as_slice() == block);
    let mut writer = Vec::new(alloc);
    reported_by_vector("encode", C::encode(alloc, &mut writer, value))?;
    assert!(rt; writer.as_slice() == block);
    Ok(())
}

// Checks that the value is read from the block.
fn reads<C: Codec<Ipld>>(
    rt: &impl Abort,
    alloc: Global,
    value: &Ipld,
    block: &[u8],
) -> Result<(), Ended>
where
    C::Error: Rejection,
{
    let read = reported("decode_from_slice", C::decode_from_slice(alloc, block))?;
    assert!(rt; is_same(&read, value));
    let mut reader = block;
    let read = reported("decode", C::decode(alloc, &mut reader))?;
    assert!(rt; is_same(&read, value));
    Ok(())
}

#[test]
fn plain_bytes(rt: HostRuntime) -> Result<(), Ended> {
    let value = Ipld::from_byte_slice(rt.alloc(), &A)?;
    writes::<RawCodec>(&rt, rt.alloc(), &value, &A)?;
    reads::<RawCodec>(&rt, rt.alloc(), &value, &A)
}

#[test]
fn dag_cbor(rt: HostRuntime) -> Result<(), Ended> {
    let value = two_links(rt.alloc())?;
    writes::<DagCborCodec>(&rt, rt.alloc(), &value, &BLOCK)?;
    reads::<DagCborCodec>(&rt, rt.alloc(), &value, &BLOCK)
}

/// The block of the same map with its keys in another order.
const UNSORTED: [u8; 22] = [
    0xa2, 0x61, 0x62, 0xd8, 0x2a, 0x45, 0x00, 0x01, 0x55, 0x00, 0x00, 0x61, 0x61, 0xd8, 0x2a, 0x46,
    0x00, 0x01, 0x55, 0x00, 0x01, 0x07,
];

#[test]
fn keys_in_another_order(rt: HostRuntime) -> Result<(), Ended> {
    let value = two_links(rt.alloc())?;
    reads::<DagCborCodec>(&rt, rt.alloc(), &value, &UNSORTED)?;
    let (a, b) = (cid(&A)?, cid(&B)?);
    let links = DagCborCodec::links(rt.alloc(), &UNSORTED);
    let mut links = reported("DagCborCodec::links", links)?;
    assert!(rt; links.next() == Some(a) && links.next() == Some(b) && links.next().is_none());
    let mut found = Vec::new(rt.alloc());
    reported("references", value.references(rt.alloc(), &mut found))?;
    assert!(rt; found.as_slice() == [b, a].as_slice());
    Ok(())
}

#[test]
fn decoded_within_limits(rt: HostRuntime) -> Result<(), Ended> {
    let mut reader = BLOCK.as_slice();
    let outcome = DagCborCodec::decode_within(rt.alloc(), &mut reader, &Limits::default());
    let tree = reported("decode_within", outcome)?;
    assert!(rt; is_same(&tree, &two_links(rt.alloc())?));
    Ok(())
}

// Only the vector is allocated here.
#[test]
fn links_in_order(rt: HostRuntime) -> Result<(), Ended> {
    let (a, b) = (cid(&A)?, cid(&B)?);
    let mut links = LinkIter::new(vec![in rt.alloc(); b, a]?);
    assert!(rt; links.next() == Some(b) && links.next() == Some(a) && links.next().is_none());
    Ok(())
}
