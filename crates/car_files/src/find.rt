//! The search for a block of a CAR by its CID.

ghost use Rattle.ipld_cid.specs.LinkOf.{link_of};
ghost use Rattle.ipld_car.specs.SectionOf.{block_of};
ghost use Rattle.car_files.specs.Finding.{LooksFor};
ghost use Rattle.car_files.specs.Streams.{progress};

use crate::error::CarFileError;
use crate::reading::read_next;
use ipld_car::{CarReader, Section};
use ipld_cid::Cid;
use std::io::BufRead;

/// Reads up to the next block with this CID, into `section`, and returns whether there was one. If
/// there was none, the file was read to its end.
///
/// It reads one section at a time. It allocates only if a section is longer than every section that
/// was read into `section` before.
///
/// # Errors
///
/// - `Car` if the file is not a CAR up to the block, or its reader fails, with the offset.
/// - `Memory` if an allocation fails.
///
/// The bytes that were read until then stay read.
#[tactic(auto, using(crate::proofs::Looking::looked_none, crate::proofs::Looking::looked_more, crate::proofs::Looking::looked_found, crate::proofs::Looking::looked_all, crate::proofs::Looking::looked_until))]
pub fn find_block<R: BufRead + Drop>(
    car: &mut CarReader<R>,
    cid: &Cid,
    section: &mut Section,
) -> Result<bool, CarFileError>
    ensures { LooksFor (progress R.remaining car.old car.new)
        (link_of cid.now) (block_of section.new) result }
{
    for _ in 0..u64::MAX {
        match read_next(car, section) {
            Ok(true) => {}
            Ok(false) => return Ok(false),
            Err(error) => return Err(error),
        }
        if section.cid() == cid {
            return Ok(true);
        }
    }
    // No file has that many sections: the bytes of a file are counted in 64 bits.
    Err(CarFileError::Memory)
}
