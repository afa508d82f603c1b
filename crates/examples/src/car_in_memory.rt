//! The blocks of a CAR whose bytes are all in memory.

// [begin: car_in_memory]
use ipld_car::{CarReader, DEFAULT_LIMIT, section_at};
use ipld_cid::Cid;
use std::alloc::Global;

/// Prints the beginning of each block's section, its CID and the size of the block in bytes. No
/// block is copied.
pub fn list_blocks(rt: &impl Print, alloc: Global, car: &[u8]) -> anyhow::Result<()> {
    let reader = CarReader::new(alloc, car, DEFAULT_LIMIT)?;
    let start = reader.start() as usize;
    // The sections of version 1 end where the bytes do.
    let end = reader.end().unwrap_or(car.len() as u64) as usize;
    let mut at = reader.offset() as usize;
    while let Some(section) = section_at(car, start, at, end)? {
        let cid = Cid::try_from(&car[section.cid..section.block])?;
        println!(rt; "{at} {cid} {}", section.end - section.block)?;
        at = section.end;
    }
    Ok(())
}
// [end: car_in_memory]

// Version 1: a header without roots, and two sections. Each section is its length, a CID with the
// identity hash, and the block.
const VERSION_1: &[u8] =
    b"\x11\xa2eroots\x80gversion\x01\x0a\x01\x55\x00\x03oneone\x0e\x01\x55\x00\x05threethree";

// The bytes before it if it is the payload of version 2. They are the pragma, 16 bytes of
// characteristics, the beginning and the size of the payload, and the beginning of the index.
const BEFORE_PAYLOAD: &[u8] =
    b"\x0a\xa1gversion\x02\0\0\0\0\0\0\0\0\0\0\0\0\0\0\0\0\x33\0\0\0\0\0\0\0\x2c\0\0\0\0\0\0\0\x5f\0\0\0\0\0\0\0";

// An index without entries, which follows the payload and is not a section.
const INDEX: &[u8] = b"\x81\x08\0\0\0\0";

/// Lists the blocks of a CAR of version 1, of one of version 2, and of the latter without its last
/// bytes.
pub fn show(rt: &impl Print, alloc: Global) -> anyhow::Result<()> {
    list_blocks(rt, alloc, VERSION_1)?;
    let mut version_2 = Vec::new(alloc);
    for part in [BEFORE_PAYLOAD, VERSION_1, INDEX] {
        version_2.extend_from_slice(part)?;
    }
    list_blocks(rt, alloc, &version_2)?;
    version_2.truncate(90);
    if let Err(error) = list_blocks(rt, alloc, &version_2) {
        println!(rt; "{error}")?;
    }
    Ok(())
}
