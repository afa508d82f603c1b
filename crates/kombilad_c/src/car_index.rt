//! What a CAR of version 2 has around its payload, written.

ghost use Rattle.std.specs.Prelude.{◌≡◌, ◌⊎◌, ◌+◌, ◌<◌, ◌^◌, MatchOption, IfOk, IfErr, OnOk};
ghost use Rattle.std.specs.List.{list_all};
ghost use Rattle.ipld_car.specs.IndexGrouping.{has_digest};
ghost use Rattle.kombilad_c.specs.CarWriting.{IsEntry, IsNoEntry, IsAround, IsTooLong, header_around, WritesAround, WritesAroundOf};
ghost use Rattle.kombilad_c.specs.Rows.{AreEach, FirstFault};

use crate::cid_record::CidBytes;
use crate::fill::fill;
use crate::status::{CAR_LENGTH, MEMORY, cid_status};
use ipld_car::{CarHeader, CarIndex, HEADER_END, IndexEntry, write_header};
use ipld_cid::Cid;
use std::alloc::Global;
use std::io;

/// The CID of a block in the payload of a CAR, and the position of its section.
#[repr(C)]
#[derive(Clone, Copy)]
pub struct CarRow {
    /// The CID of the block.
    pub cid: CidBytes,
    /// The number of bytes of the payload before the section.
    pub offset: u64,
}

// Returns the entries of rows. Or it returns the status of what is wrong with one of them, and
// writes the number of that.
fn entries_of(alloc: Global, rows: &[CarRow], place: &mut usize) -> Result<Vec<IndexEntry>, u32>
    ensures read { IfOk result (λ entries. AreEach IsEntry rows.now entries.items) }
    ensures same_place { OnOk result (place.new ≡ place.old) }
    ensures fault { IfErr result (λ status. ((status ≡ 1) × (place.new ≡ place.old))
        ⊎ FirstFault IsEntry IsNoEntry rows.now place.new status) }
{
    let mut entries = Vec::new(alloc);
    for (index, row) in rows.iter().enumerate() {
        match Cid::try_from(row.cid.as_slice()) {
            Ok(cid) => {
                let entry = IndexEntry {
                    hash: *cid.hash(),
                    offset: row.offset,
                };
                match entries.push(entry) {
                    Ok(()) => {}
                    Err(_) => return Err(MEMORY),
                }
            }
            Err(error) => {
                *place = index;
                return Err(cid_status(error));
            }
        }
    }
    Ok(entries)
}

// Returns whether an index has all of these entries.
fn are_indexed(entries: &[IndexEntry]) -> bool
    ensures { result ≡ list_all has_digest entries.now }
{
    entries.iter().all(|entry| entry.hash.size() > 0)
}

// Returns the header of a CAR with a payload of this length right behind it, and behind that the
// index with these entries.
fn header_of(payload: u64, entries: &[IndexEntry]) -> Option<CarHeader>
    ensures { MatchOption result (IsTooLong payload)
        (λ header. (payload + 51 < 2 ^ 64) × (header ≡ header_around payload entries.now)) }
{
    let index = payload.checked_add(HEADER_END as u64)?;
    Some(CarHeader {
        is_fully_indexed: are_indexed(entries),
        payload: HEADER_END as u64,
        size: payload,
        index,
    })
}

// Returns the bytes of the header, and those of the index with these entries.
fn around(alloc: Global, header: &CarHeader, entries: Vec<IndexEntry>) -> io::Result<Vec<u8>>
    ensures { IfOk result (λ bytes. IsAround header.now entries.items bytes.items) }
{
    let index = CarIndex::new(alloc, entries)?;
    let mut bytes = Vec::new(alloc);
    write_header(header, &mut bytes)?;
    index.write_to(&mut bytes)?;
    Ok(bytes)
}

// Writes what is around a payload of this length with these entries to the beginning of the buffer.
fn write_around(
    alloc: Global,
    entries: Vec<IndexEntry>,
    payload: u64,
    bytes: &mut [u8],
    needed: &mut usize,
) -> u32
    ensures { WritesAround entries.items payload result
        (record { before = bytes.old; after = bytes.new })
        (record { before = needed.old; after = needed.new }) }
{
    let Some(header) = header_of(payload, &entries) else {
        return CAR_LENGTH;
    };
    match around(alloc, &header, entries) {
        Ok(content) => fill(&content, bytes, needed),
        Err(_) => MEMORY,
    }
}

/// Writes what a CAR of version 2 has around a payload of this length: its first 51 bytes, and the
/// index that has the blocks in these rows.
#[unsafe(no_mangle)]
pub extern "C" fn kombilad_car_index(
    alloc: Global,
    rows: &[CarRow],
    payload: u64,
    bytes: &mut [u8],
    needed: &mut usize,
    place: &mut usize,
) -> u32
    ensures { WritesAroundOf rows.now payload result
        (record { before = bytes.old; after = bytes.new })
        (record { before = needed.old; after = needed.new })
        (record { before = place.old; after = place.new }) }
{
    match entries_of(alloc, rows, place) {
        Ok(entries) => write_around(alloc, entries, payload, bytes, needed),
        Err(status) => status,
    }
}
