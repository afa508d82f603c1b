//! The header of a CAR, written.

ghost use Rattle.std.specs.Prelude.{◌≡◌, ◌⊎◌, map, IfOk, IfErr, OnOk};
ghost use Rattle.ipld_cid.specs.LinkOf.{link_of};
ghost use Rattle.kombilad_c.specs.CarWriting.{IsHeaderOf, IsRoot, IsNoRoot, WritesHeader, WritesHeaderOf};
ghost use Rattle.kombilad_c.specs.Rows.{AreEach, FirstFault};

use crate::cid_record::CidBytes;
use crate::fill::fill;
use crate::status::{MEMORY, cid_status};
use ipld_car::CarWriter;
use ipld_cid::Cid;
use std::alloc::Global;
use std::io;

// Returns the CIDs of rows. Or it returns the status of what is wrong with one of them, and writes
// the number of that.
fn roots_of(alloc: Global, rows: &[CidBytes], place: &mut usize) -> Result<Vec<Cid>, u32>
    ensures read { IfOk result (λ roots. AreEach IsRoot rows.now (map link_of roots.items)) }
    ensures same_place { OnOk result (place.new ≡ place.old) }
    ensures fault { IfErr result (λ status. ((status ≡ 1) × (place.new ≡ place.old))
        ⊎ FirstFault IsRoot IsNoRoot rows.now place.new status) }
{
    let mut roots = Vec::new(alloc);
    for (index, row) in rows.iter().enumerate() {
        match Cid::try_from(row.as_slice()) {
            Ok(root) => match roots.push(root) {
                Ok(()) => {}
                Err(_) => return Err(MEMORY),
            },
            Err(error) => {
                *place = index;
                return Err(cid_status(error));
            }
        }
    }
    Ok(roots)
}

// Returns the bytes of the header with these roots.
fn header_of(alloc: Global, roots: &[Cid]) -> io::Result<Vec<u8>>
    ensures { IfOk result (λ header. IsHeaderOf (map link_of roots.now) header.items) }
{
    CarWriter::new(alloc, Vec::new(alloc), roots)?.finish()
}

// Writes the header with these roots to the beginning of the buffer.
fn write_header(alloc: Global, roots: &[Cid], bytes: &mut [u8], needed: &mut usize) -> u32
    ensures { WritesHeader (map link_of roots.now) result
        (record { before = bytes.old; after = bytes.new })
        (record { before = needed.old; after = needed.new }) }
{
    match header_of(alloc, roots) {
        Ok(header) => fill(&header, bytes, needed),
        Err(_) => MEMORY,
    }
}

/// Writes the header of a CAR with these roots to the beginning of the buffer.
#[unsafe(no_mangle)]
pub extern "C" fn kombilad_car_header(
    alloc: Global,
    roots: &[CidBytes],
    bytes: &mut [u8],
    needed: &mut usize,
    place: &mut usize,
) -> u32
    ensures { WritesHeaderOf roots.now result
        (record { before = bytes.old; after = bytes.new })
        (record { before = needed.old; after = needed.new })
        (record { before = place.old; after = place.new }) }
{
    match roots_of(alloc, roots, place) {
        Ok(roots) => write_header(alloc, &roots, bytes, needed),
        Err(status) => status,
    }
}
