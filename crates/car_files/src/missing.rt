//! The blocks that CARs link to and don't have.

ghost use Rattle.std.specs.Prelude.{◌≡◌, map, IfOk, IfErr, OnOk};
ghost use Rattle.ipld_cid.specs.LinkOf.{link_of};
ghost use Rattle.ipld_car.specs.SectionOf.{block_of};
ghost use Rattle.car_files.specs.Complaints.{SaysOfLinks, SaysOfBlock};
ghost use Rattle.car_files.specs.Missing.{AddsBlock, AddsCar, AddingFault, Finds, FindingFault};
ghost use Rattle.car_files.specs.Names.{Names};
ghost use Rattle.car_files.specs.Reading.{IsWritingError};
ghost use Rattle.car_files.specs.Streams.{progress, complaints};

use crate::adding::add_links;
use crate::complaint::{write_carried, write_complaint};
use crate::error::CarFileError;
use crate::index::MissingBlocks;
use crate::reading::{links_in_section, read_next};
use ipld_block::CheckError;
use ipld_car::{CarReader, Section};
use ipld_cid::Cid;
use std::alloc::Global;
use std::hash::RandomState;
use std::io::{BufRead, Write};

/// The result of a search for missing blocks.
#[derive(Debug, Drop)]
pub struct Missing {
    /// The counts of the blocks of the file.
    pub seen: Seen,
    /// The CIDs of the missing blocks, without repeats, in the order in which they first occur in
    /// the file. CIDs in a block that another CID carries (by the identity hash) come from the last
    /// to the first.
    pub missing: Vec<Cid>,
}

/// The counts of the blocks of a CAR.
#[derive(Clone, Copy, Debug, PartialEq, Eq)]
pub struct Seen {
    /// The number of blocks in the file.
    pub blocks: u64,
    /// The number of blocks with a codec whose links aren't known.
    pub unknown: u64,
    /// The number of blocks with an error: the block is invalid for its codec, or a CID that is
    /// reached from its links carries bytes that are invalid for the CID's codec. If such a CID is
    /// reached from the roots, these count as one more.
    pub invalid: u64,
}

// The findings about a block.
#[derive(Clone, Copy)]
struct SeenBlock {
    is_unknown: bool,
    is_invalid: bool,
}

// Adds the links of the roots or of the block at this byte of the file, in their order. Writes a
// line about every CID that is reached from them and carries an invalid block. Returns whether
// there was one.
fn add_in_order<E: Write>(
    alloc: Global,
    index: &mut MissingBlocks,
    links: Vec<Cid>,
    offset: u64,
    label: &str,
    errors: &mut E,
) -> Result<bool, CarFileError>
    ensures added { OnOk result (Names (map link_of links.items) index.old index.new) }
    ensures complained { IfOk result (SaysOfLinks
        (complaints label.now E.contents errors.old errors.new)
        offset (map link_of links.items)) }
    ensures fault { IfErr result IsWritingError }
{
    let mut links = links;
    // They are taken from the last to the first.
    links.reverse();
    let faults = match add_links(alloc, index, links) {
        Ok(faults) => faults,
        Err(_) => return Err(CarFileError::Memory),
    };
    match write_carried(alloc, label, &faults, offset, errors) {
        Ok(()) => Ok(!faults.is_empty()),
        Err(error) => Err(error),
    }
}

// Adds a block that begins at this byte of the file, and its links, and writes a line about every
// error in it.
fn add_section<E: Write>(
    alloc: Global,
    index: &mut MissingBlocks,
    section: &Section,
    offset: u64,
    label: &str,
    errors: &mut E,
) -> Result<SeenBlock, CarFileError>
    ensures added { IfOk result (λ seen.
        AddsBlock (block_of section.now) index.old index.new seen.is_unknown) }
    ensures complained { IfOk result (λ seen. SaysOfBlock
        (complaints label.now E.contents errors.old errors.new)
        offset (block_of section.now) seen.is_invalid) }
    ensures fault { IfErr result IsWritingError }
{
    match index.add_block(section.cid()) {
        Ok(()) => {}
        Err(_) => return Err(CarFileError::Memory),
    }
    match links_in_section(alloc, section) {
        Ok(Some(links)) => match add_in_order(alloc, index, links, offset, label, errors) {
            Ok(is_invalid) => Ok(SeenBlock {
                is_unknown: false,
                is_invalid,
            }),
            Err(error) => Err(error),
        },
        Ok(None) => Ok(SeenBlock {
            is_unknown: true,
            is_invalid: false,
        }),
        Err(CheckError::Memory) => Err(CarFileError::Memory),
        Err(CheckError::Invalid(why)) => {
            match write_complaint(alloc, label, section.cid(), offset, &why, errors) {
                Ok(()) => Ok(SeenBlock {
                    is_unknown: false,
                    is_invalid: true,
                }),
                Err(error) => Err(error),
            }
        }
    }
}

// Adds the roots, and writes a line about every error in them. Returns whether there was one.
fn add_roots<E: Write>(
    alloc: Global,
    index: &mut MissingBlocks,
    roots: &[Cid],
    label: &str,
    errors: &mut E,
) -> Result<bool, CarFileError>
    ensures added { OnOk result (Names (map link_of roots.now) index.old index.new) }
    ensures complained { IfOk result (SaysOfLinks
        (complaints label.now E.contents errors.old errors.new)
        0 (map link_of roots.now)) }
    ensures fault { IfErr result IsWritingError }
{
    match Vec::from_slice(alloc, roots) {
        Ok(links) => add_in_order(alloc, index, links, 0, label, errors),
        Err(_) => Err(CarFileError::Memory),
    }
}

/// Reads a CAR to its end, and adds its blocks, their links and its roots to `index`, by
/// [`MissingBlocks::add_block`] and [`add_links`]. If you add several CARs to one index, it finds
/// the links whose block isn't in any of them.
///
/// A block that is invalid for its codec doesn't stop it. Its CID counts as added, and its links
/// aren't known. A CID with the identity hash that carries invalid bytes doesn't stop it either.
/// For every such block or CID it writes a line to `errors`: `label`, the CID, the byte at which
/// its section begins (0 for the roots), and a sentence.
///
/// It reads one section at a time. The index keeps a CID for every block, and one for every
/// distinct link whose block was not added.
///
/// # Errors
///
/// - `Car` if the file is not a CAR or its reader fails, with the offset. Everything before that
///   was then added, and the lines about it were written.
/// - `Write` if `errors` fails. Only a part was then added.
/// - `Memory` if an allocation fails. Only a part was then added.
#[tactic(auto, using(crate::proofs::Finding::adds_roots, crate::proofs::Finding::adds_all, crate::proofs::Finding::fault_of_writing, crate::proofs::Finding::fault_of_car))]
pub fn add_car<R: BufRead + Drop, E: Write>(
    alloc: Global,
    index: &mut MissingBlocks,
    car: &mut CarReader<R>,
    label: &str,
    errors: &mut E,
) -> Result<Seen, CarFileError>
    ensures added { IfOk result (AddsCar
        (progress R.remaining car.old car.new)
        (complaints label.now E.contents errors.old errors.new)
        index.old index.new) }
    ensures fault { IfErr result (AddingFault
        (progress R.remaining car.old car.new)
        (complaints label.now E.contents errors.old errors.new)
        index.old index.new) }
{
    let mut invalid = match add_roots(alloc, index, car.roots(), label, errors) {
        Ok(is_invalid) => u64::from(is_invalid),
        Err(error) => return Err(error),
    };
    let mut section = Section::new(alloc);
    let mut unknown = 0u64;
    for blocks in 0..u64::MAX - 1 {
        let offset = car.offset();
        match read_next(car, &mut section) {
            Ok(true) => {}
            Ok(false) => {
                return Ok(Seen {
                    blocks,
                    unknown,
                    invalid,
                });
            }
            Err(error) => return Err(error),
        }
        match add_section(alloc, index, &section, offset, label, errors) {
            Ok(seen) => {
                unknown += u64::from(seen.is_unknown);
                invalid += u64::from(seen.is_invalid);
            }
            Err(error) => return Err(error),
        }
    }
    // No file has that many sections: the bytes of a file are counted in 64 bits.
    Err(CarFileError::Memory)
}

/// Reads a CAR to its end, and finds every root, and every link of a block, whose block isn't in
/// the file. A CID with the identity hash carries its block: it is never missing, and the links of
/// that block count. Blocks are distinguished by their CIDs.
///
/// A block that is invalid for its codec doesn't end the search, and its links aren't known. For
/// every such block, and every CID that carries bytes which are invalid for its codec, it writes
/// the line of [`add_car`] to `errors`.
///
/// It reads one section at a time. It keeps a CID for every block, and one for every distinct link
/// whose block wasn't in the file so far, in [`MissingBlocks`] with this hasher.
///
/// # Errors
///
/// - `Car` if the file is not a CAR or its reader fails, with the offset. The lines about
///   everything before that were then written.
/// - `Write` if `errors` fails.
/// - `Memory` if an allocation fails.
///
/// The bytes that were read until then stay read, and the lines stay written.
pub fn find_missing<R: BufRead + Drop, E: Write>(
    alloc: Global,
    hasher: RandomState,
    car: &mut CarReader<R>,
    label: &str,
    errors: &mut E,
) -> Result<Missing, CarFileError>
    ensures found { IfOk result (Finds
        (progress R.remaining car.old car.new)
        (complaints label.now E.contents errors.old errors.new)) }
    ensures fault { IfErr result (FindingFault
        (progress R.remaining car.old car.new)
        (complaints label.now E.contents errors.old errors.new)) }
{
    let mut index = MissingBlocks::new(alloc, hasher);
    let seen = match add_car(alloc, &mut index, car, label, errors) {
        Ok(seen) => seen,
        Err(error) => return Err(error),
    };
    match index.missing(alloc) {
        Ok(missing) => Ok(Missing { seen, missing }),
        Err(_) => Err(CarFileError::Memory),
    }
}
