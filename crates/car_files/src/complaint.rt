//! The lines about errors in a CAR.

ghost use Rattle.std.specs.Prelude.{IfErr, OnOk, map};
ghost use Rattle.ipld_cid.specs.LinkOf.{link_of};
ghost use Rattle.car_files.specs.Carried.{carrier};
ghost use Rattle.car_files.specs.Complaints.{Complains, ComplainsOfEach};
ghost use Rattle.car_files.specs.Reading.{IsWritingError};
ghost use Rattle.car_files.specs.Streams.{complaints};

use crate::adding::CarriedFault;
use crate::error::CarFileError;
use ipld_block::{InvalidBlock, write_cid};
use ipld_cid::Cid;
use std::alloc::Global;
use std::io::Write;

// Writes a line about an invalid block that begins at this byte of the file, after a label.
pub(crate) fn write_complaint<E: Write>(
    alloc: Global,
    label: &str,
    cid: &Cid,
    offset: u64,
    why: &InvalidBlock,
    errors: &mut E,
) -> Result<(), CarFileError>
    ensures written { OnOk result (Complains
        (complaints label.now E.contents errors.old errors.new)
        offset (link_of cid.now)) }
    ensures fault { IfErr result IsWritingError }
{
    let sentence = match format!(in alloc; "{why}") {
        Ok(sentence) => sentence,
        Err(_) => return Err(CarFileError::Memory),
    };
    errors.write_all(label.as_bytes())?;
    write_cid(alloc, errors, cid)?;
    write!(errors, " at byte {offset}: ")?;
    errors.write_all(sentence.as_bytes())?;
    errors.write_all(b"\n")?;
    Ok(())
}

// Writes a line about each of these CIDs, which are reached from the block at this byte of the
// file: that its bytes are invalid, and why.
#[tactic(auto, using(crate::proofs::Complaining::none_complained))]
pub(crate) fn write_carried<E: Write>(
    alloc: Global,
    label: &str,
    faults: &[CarriedFault],
    offset: u64,
    errors: &mut E,
) -> Result<(), CarFileError>
    ensures written { OnOk result (ComplainsOfEach
        (complaints label.now E.contents errors.old errors.new)
        offset (map carrier faults.now)) }
    ensures fault { IfErr result IsWritingError }
{
    for fault in faults {
        match write_complaint(alloc, label, &fault.cid, offset, &fault.why, errors) {
            Ok(()) => {}
            Err(error) => return Err(error),
        }
    }
    Ok(())
}
