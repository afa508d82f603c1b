//! More than 2^16 keys, which are in descending order, values and rows of an index.

use dag_cbor::tape::read_tape;
use dag_cbor::{CborError, DagCborCodec, ReadOptions, count_links, decode_slice};
use dag_cbor_serde::{from_slice, to_vec};
use dag_cbor_tape::encode_tape;
use ipld_car::{CarIndex, IndexEntry, IndexFormat, entries_of, read_index};
use ipld_cid::Multihash;
use ipld_core::codec::Codec;
use ipld_tree::{Ipld, Limits};
use std::alloc::Global;
use std::test::Fail;

const KEYS: u32 = 100_000;

// The number of values and rows.
const MANY: u32 = 70_000;

// A map whose header has this number of pairs. The keys are the numbers below `KEYS`, in descending
// order, with five digits each.
fn many_keys(alloc: Global, pairs: u32) -> Result<Vec<u8>, Fail> {
    let mut block = Vec::new(alloc);
    block.push(0xba)?;
    block.extend_from_slice(&pairs.to_be_bytes())?;
    for key in (0..KEYS).rev() {
        block.push(0x65)?;
        block.extend_from_slice(format!(in alloc; "{key:05}")?.as_bytes())?;
        block.push(0)?;
    }
    Ok(block)
}

// Checks that keys are written in ascending order.
#[test]
fn many_keys_that_differ(rt: HostRuntime) -> Result<(), Fail> {
    let block = many_keys(rt.alloc(), KEYS)?;
    let count = count_links(rt.alloc(), &block, &ReadOptions::default())?;
    assert_eq!(rt; count, 0);
    let tree = decode_slice(rt.alloc(), &block)?;
    let written = DagCborCodec::encode_to_vec(rt.alloc(), &tree)?;
    assert_eq!(rt; written.len(), block.len());
    let first = b"\xba\x00\x01\x86\xa0\x6500000\x00\x6500001\x00";
    assert!(rt; written.as_slice().starts_with(first));
    Ok(())
}

#[test]
fn one_key_of_many_twice(rt: HostRuntime) -> Result<(), Fail> {
    let mut block = many_keys(rt.alloc(), KEYS + 1)?;
    block.extend_from_slice(b"\x6599999\x00")?;
    assert!(rt; decode_slice(rt.alloc(), &block) == Err(CborError::DuplicateKey));
    Ok(())
}

// The numbers below `MANY`. In a block, those below 24 take one byte, those below 2^8 two, those
// below 2^16 three and the others five.
#[test]
fn many_typed_values(rt: HostRuntime) -> Result<(), Fail> {
    let mut numbers = Vec::new(rt.alloc());
    for number in 0..MANY {
        numbers.push(number)?;
    }
    let block = to_vec(rt.alloc(), &numbers)?;
    assert_eq!(rt; block.len(), 5 + 24 + 2 * 232 + 3 * 65_280 + 5 * 4_464);
    let read = from_slice::<Vec<u32>>(rt.alloc(), &block)?;
    assert!(rt; read.as_slice() == numbers.as_slice());
    Ok(())
}

// The same number of values in a tape, with one entry for each and one for the list.
#[test]
fn many_values_in_a_tape(rt: HostRuntime) -> Result<(), Fail> {
    let mut block = Vec::new(rt.alloc());
    block.push(0x9a)?;
    block.extend_from_slice(&MANY.to_be_bytes())?;
    for _ in 0..MANY {
        block.extend_from_slice(b"\x61a")?;
    }
    let entries = read_tape(rt.alloc(), &block, &Limits::default())?;
    assert_eq!(rt; entries.len(), 70_001);
    let again = encode_tape(rt.alloc(), &entries, &block)?;
    assert!(rt; again.as_slice() == block.as_slice());
    Ok(())
}

// The text of the same numbers has 338,890 digits, a comma before each number except the first, and
// two brackets.
#[test]
fn many_values_as_json(rt: HostRuntime) -> Result<(), Fail> {
    let mut items = Vec::new(rt.alloc());
    for number in 0..MANY {
        items.push(Ipld::from(number))?;
    }
    let tree = Ipld::List(items);
    let text = dag_json::to_vec(rt.alloc(), &tree)?;
    assert_eq!(rt; text.len(), 338_890 + 69_999 + 2);
    assert!(rt; dag_json::from_slice(rt.alloc(), &text, &Limits::default())? == tree);
    Ok(())
}

// The index has 30 bytes before its rows (CARv2, "Index format", code 0x0401). A row has four bytes
// of a digest and eight of an offset.
#[test]
fn many_rows_of_an_index(rt: HostRuntime) -> Result<(), Fail> {
    let mut entries = Vec::new(rt.alloc());
    for number in 0..MANY {
        entries.push(IndexEntry {
            hash: Multihash::wrap(0x12, &number.to_be_bytes())?,
            offset: u64::from(number),
        })?;
    }
    let mut bytes = Vec::new(rt.alloc());
    CarIndex::new(rt.alloc(), entries)?.write_to(&mut bytes)?;
    assert_eq!(rt; bytes.len(), 30 + 12 * 70_000);
    let read = read_index(rt.alloc(), &mut bytes.as_slice())?;
    assert!(rt; read.format == IndexFormat::MultihashIndexSorted);
    assert_eq!(rt; read.entries.len(), 70_000);
    let hash = Multihash::wrap(0x12, &65_537u32.to_be_bytes())?;
    let found = entries_of(&read.entries, &hash);
    assert_eq!(rt; found.len(), 1);
    assert!(rt; found.iter().all(|entry| entry.offset == 65_537));
    Ok(())
}
