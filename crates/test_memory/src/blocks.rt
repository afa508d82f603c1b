//! Blocks of DAG-CBOR.

use crate::codecs::BLOCK;
use crate::ended::{Ended, Rejection, reported};
use crate::samples::{A, B, cid, is_same, two_links};
use dag_cbor::tape::{self, TapeEntry, read_tape};
use dag_cbor::{
    BlockSize, CborTokens, DagCborCodec, LinkPosition, ReadOptions, check_block, count_links,
    decode_slice, decode_slice_within, is_canonical, link_positions, links_of_block, measure_block,
};
use dag_cbor_serde::{
    from_reader, from_reader_within, from_slice, from_slice_within, to_vec, to_writer,
};
use dag_cbor_tape::{canonicalize, encode_tape};
use ipld_cid::Cid;
use ipld_core::codec::Links;
use ipld_core::serde::TokenSource;
use ipld_core::serde::samples::Person;
use ipld_tree::{Ipld, Limits};
use std::alloc::{AllocError, Global};
use std::process::Abort;

// Checks that the call returned the map of the two links.
fn is_two_links<E: Rejection>(
    rt: &impl Abort,
    alloc: Global,
    call: &'static str,
    outcome: Result<Ipld, E>,
) -> Result<(), Ended> {
    let tree = reported(call, outcome)?;
    assert!(rt; is_same(&tree, &two_links(alloc)?));
    Ok(())
}

#[test]
fn decoded(rt: HostRuntime) -> Result<(), Ended> {
    let alloc = rt.alloc();
    let outcome = decode_slice(alloc, &BLOCK);
    is_two_links(&rt, alloc, "decode_slice", outcome)?;
    let outcome = decode_slice_within(alloc, &BLOCK, &Limits::default());
    is_two_links(&rt, alloc, "decode_slice_within", outcome)
}

/// The list of the numbers from 1 to 9.
const NINE: [u8; 10] = [0x89, 1, 2, 3, 4, 5, 6, 7, 8, 9];

// Checks that the items are allocated once, because their number comes before them.
#[test]
fn list_decoded(rt: HostRuntime) -> Result<(), Ended> {
    let list = reported("decode_slice", decode_slice(rt.alloc(), &NINE))?;
    assert!(rt; list.get(8usize) == Ok(Some(&Ipld::Integer(9))));
    Ok(())
}

// Returns whether these are the links of B and of A.
fn is_b_and_a(links: &[Cid]) -> Result<bool, Ended> {
    let (a, b) = (cid(&A)?, cid(&B)?);
    Ok(links == [b, a].as_slice())
}

#[test]
fn links(rt: HostRuntime) -> Result<(), Ended> {
    let outcome = links_of_block(rt.alloc(), &BLOCK, &ReadOptions::default());
    let links = reported("links_of_block", outcome)?;
    assert!(rt; is_b_and_a(links.as_slice())?);
    let links = DagCborCodec::links(rt.alloc(), &BLOCK);
    let mut links = reported("DagCborCodec::links", links)?;
    assert!(rt; links.next() == Some(cid(&B)?) && links.next() == Some(cid(&A)?));
    Ok(())
}

/// The map of `a` to the list of 1.5 and the link of A.
pub(crate) const FLOAT: [u8; 21] = [
    0xa1, 0x61, 0x61, 0x82, 0xfb, 0x3f, 0xf8, 0x00, 0x00, 0x00, 0x00, 0x00, 0x00, 0xd8, 0x2a, 0x45,
    0x00, 0x01, 0x55, 0x00, 0x00,
];

/// The map of `b` to the same list, and of `a` to 2. Its keys are out of order, so a loop reads it
/// and allocates.
const UNORDERED: [u8; 24] = [
    0xa2, 0x61, 0x62, 0x82, 0xfb, 0x3f, 0xf8, 0x00, 0x00, 0x00, 0x00, 0x00, 0x00, 0xd8, 0x2a, 0x45,
    0x00, 0x01, 0x55, 0x00, 0x00, 0x61, 0x61, 0x02,
];

pub(crate) fn with_floats() -> ReadOptions {
    ReadOptions {
        floats: true,
        ..ReadOptions::default()
    }
}

#[test]
fn measured(rt: HostRuntime) -> Result<(), Ended> {
    let options = with_floats();
    let checked = check_block(rt.alloc(), &UNORDERED, &options);
    reported("check_block", checked)?;
    let count = count_links(rt.alloc(), &UNORDERED, &options);
    assert_eq!(rt; reported("count_links", count)?, 1);
    let canonical = is_canonical(rt.alloc(), &FLOAT, &options);
    assert!(rt; reported("is_canonical", canonical)?);
    let size = measure_block(rt.alloc(), &UNORDERED, &options);
    let expected = BlockSize {
        levels: 2,
        values: 5,
        links: 1,
    };
    assert_eq!(rt; reported("measure_block", size)?, expected);
    Ok(())
}

#[test]
fn links_placed(rt: HostRuntime) -> Result<(), Ended> {
    let positions = link_positions(rt.alloc(), &FLOAT, &with_floats());
    let positions = reported("link_positions", positions)?;
    let expected = [LinkPosition {
        offset: 17,
        length: 4,
    }];
    assert!(rt; positions.as_slice() == expected.as_slice());
    Ok(())
}

#[test]
fn values_listed(rt: HostRuntime) -> Result<(), Ended> {
    let entries = reported(
        "read_tape",
        read_tape(rt.alloc(), &FLOAT, &Limits::default()),
    )?;
    let entry = |kind, len, value| TapeEntry { kind, len, value };
    let expected = [
        entry(tape::MAP, 5, 1),
        entry(tape::KEY, 1, 2),
        entry(tape::LIST, 3, 2),
        entry(tape::FLOAT, 8, 5),
        entry(tape::LINK, 4, 17),
    ];
    assert!(rt; entries.as_slice() == expected.as_slice());
    let block = reported(
        "encode_tape",
        encode_tape(rt.alloc(), entries.as_slice(), &FLOAT),
    )?;
    assert!(rt; block.as_slice() == FLOAT.as_slice());
    Ok(())
}

// Checks pairs in another order than that of a canonical block.
#[test]
fn pairs_ordered(rt: HostRuntime) -> Result<(), Ended> {
    let ordered = [0xa2, 0x61, b'a', 2, 0x61, b'b', 1];
    let entry = |kind, len, value| TapeEntry { kind, len, value };
    let entries = [
        entry(tape::MAP, 5, 2),
        entry(tape::KEY, 1, 0),
        entry(tape::UNSIGNED, 0, 1),
        entry(tape::KEY, 1, 1),
        entry(tape::UNSIGNED, 0, 2),
    ];
    let block = reported("encode_tape", encode_tape(rt.alloc(), &entries, b"ba"))?;
    assert!(rt; block.as_slice() == ordered.as_slice());
    let block = [0xa2, 0x61, b'b', 1, 0x61, b'a', 2];
    let block = reported(
        "canonicalize",
        canonicalize(rt.alloc(), &block, &Limits::default()),
    )?;
    assert!(rt; block.as_slice() == ordered.as_slice());
    Ok(())
}

fn yields_a_token(rt: &impl Abort, source: &mut CborTokens<'_>) -> Result<(), Ended> {
    let token = source.next_token();
    // After a rejection, it has failed for good.
    assert_eq!(rt; source.has_failed(), token.is_err());
    if token.is_err() {
        assert!(rt; source.next_token().is_err());
    }
    assert!(rt; reported("next_token", token)?.is_some());
    Ok(())
}

#[test]
fn tokens(rt: HostRuntime) -> Result<(), Ended> {
    let mut source = CborTokens::new(rt.alloc(), &BLOCK);
    for _ in 0..8 {
        yields_a_token(&rt, &mut source)?;
    }
    assert!(rt; reported("next_token at the end", source.next_token())?.is_none());
    Ok(())
}

/// The block of a pair: the list of the numbers 1 and 2, and `s`.
const PAIR: [u8; 6] = [0x82, 0x82, 0x01, 0x02, 0x61, 0x73];

type Pair = (Vec<u8>, String);

fn pair(alloc: Global) -> Result<Pair, AllocError> {
    Ok((
        Vec::from_slice(alloc, &[1, 2])?,
        String::from_str(alloc, "s")?,
    ))
}

#[test]
fn values_written(rt: HostRuntime) -> Result<(), Ended> {
    let pair = pair(rt.alloc())?;
    let block = reported("to_vec", to_vec(rt.alloc(), &pair))?;
    assert!(rt; block.as_slice() == PAIR.as_slice());
    let mut writer = Vec::new(rt.alloc());
    reported("to_writer", to_writer(rt.alloc(), &mut writer, &pair))?;
    assert!(rt; writer.as_slice() == PAIR.as_slice());
    Ok(())
}

// Checks that the call returned the pair.
fn is_pair<E: Rejection>(
    rt: &impl Abort,
    alloc: Global,
    call: &'static str,
    outcome: Result<Pair, E>,
) -> Result<(), Ended> {
    let read = reported(call, outcome)?;
    assert!(rt; read == pair(alloc)?);
    Ok(())
}

#[test]
fn values_read(rt: HostRuntime) -> Result<(), Ended> {
    let alloc = rt.alloc();
    let limits = Limits::default();
    let outcome = from_slice(alloc, &PAIR);
    is_pair(&rt, alloc, "from_slice", outcome)?;
    let outcome = from_slice_within(alloc, &PAIR, &limits);
    is_pair(&rt, alloc, "from_slice_within", outcome)?;
    let outcome = from_reader(alloc, &mut PAIR.as_slice());
    is_pair(&rt, alloc, "from_reader", outcome)?;
    let outcome = from_reader_within(alloc, &mut PAIR.as_slice(), &limits);
    is_pair(&rt, alloc, "from_reader_within", outcome)
}

/// A person: the keys age, link, name, hobbies, is_cool.
const PERSON: [u8; 58] = [
    0xa5, 0x63, 0x61, 0x67, 0x65, 0x18, 0x34, 0x64, 0x6c, 0x69, 0x6e, 0x6b, 0xd8, 0x2a, 0x45, 0x00,
    0x01, 0x55, 0x00, 0x00, 0x64, 0x6e, 0x61, 0x6d, 0x65, 0x63, 0x42, 0x65, 0x61, 0x67, 0x68, 0x6f,
    0x62, 0x62, 0x69, 0x65, 0x73, 0x82, 0x63, 0x73, 0x6b, 0x69, 0x66, 0x6d, 0x61, 0x72, 0x62, 0x6c,
    0x65, 0x67, 0x69, 0x73, 0x5f, 0x63, 0x6f, 0x6f, 0x6c, 0xf5,
];

#[test]
fn struct_read(rt: HostRuntime) -> Result<(), Ended> {
    let person: Person = reported("from_slice", from_slice(rt.alloc(), &PERSON))?;
    assert!(rt; person.name.as_str() == "Bea" && person.hobbies.len() == 2);
    Ok(())
}
