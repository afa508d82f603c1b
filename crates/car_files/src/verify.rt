//! The check that the blocks of a CAR are those that their CIDs name.

ghost use Rattle.std.specs.Prelude.{◌≡◌, IfOk, IfErr, OnOk};
ghost use Rattle.std.specs.Io.KnownBytes.{Appends};
ghost use Rattle.ipld_cid.specs.LinkOf.{link_of};
ghost use Rattle.car_files.specs.Reading.{IsWritingError};
ghost use Rattle.car_files.specs.Streams.{progress, output};
ghost use Rattle.car_files.specs.Verifying.{Verifies, VerifyingFault};
ghost use Rattle.car_files.specs.Written.{complaint, complaint_members, is_truncated, verdict_line, verdict_object, verdict_text};

use crate::error::CarFileError;
use crate::places::SectionPlaces;
use crate::reading::read_next;
use ipld_block::{BLAKE2B_256, SHA2_512, VerifyError, verify, write_cid};
use ipld_car::{CarReader, Section};
use ipld_cid::{Cid, SHA2_256};
use std::alloc::Global;
use std::io::{BufRead, Write};

/// The counts of the blocks of a CAR by their digests.
#[derive(Clone, Copy, Debug, PartialEq, Eq)]
pub struct Verified {
    /// The number of blocks with the digest of their CID.
    pub right: u64,
    /// The number of blocks with another digest.
    pub wrong: u64,
    /// The number of blocks whose CID has a hash function that isn't computed here.
    pub unknown: u64,
}

/// The form in which an error of a block is written.
#[derive(Clone, Copy, Debug, PartialEq, Eq)]
pub enum VerdictForm {
    /// A line: the CID, the byte at which the section begins, and a sentence.
    Line,
    /// A JSON object on a line: `cid`, the `offset` of the section, and `error`, which is
    /// `WrongDigest` or `UnknownHash`. With `UnknownHash` it has `hash`, the code of the hash
    /// function in hexadecimal.
    Object,
}

// Writes the error of a block as the last members of a JSON object.
fn write_reason_members<W: Write>(error: VerifyError, writer: &mut W) -> Result<(), CarFileError>
    ensures written { OnOk result
        (Appends (W.contents writer.old) (W.contents writer.new) (complaint_members error)) }
    ensures fault { IfErr result IsWritingError }
{
    match error {
        VerifyError::UnknownHash(code) => {
            writeln!(
                writer,
                ",\"error\":\"UnknownHash\",\"hash\":\"0x{code:x}\"}}"
            )?;
            Ok(())
        }
        VerifyError::WrongDigest => {
            writer.write_all(b",\"error\":\"WrongDigest\"}\n")?;
            Ok(())
        }
    }
}

/// Returns whether the CID has only the first bytes of a digest of SHA2-256, SHA2-512 or
/// BLAKE2b-256. Such a digest is not that of the block. Does not allocate.
pub fn is_truncated(cid: &Cid) -> bool
    ensures { result ≡ is_truncated (link_of cid.now) }
{
    let hash = cid.hash();
    let len = match hash.code() {
        SHA2_256 | BLAKE2B_256 => 32,
        SHA2_512 => 64,
        _ => 0,
    };
    hash.size() < len
}

// Writes the error of the block of a CID.
fn write_reason<W: Write>(cid: &Cid, error: VerifyError, writer: &mut W) -> Result<(), CarFileError>
    ensures written { OnOk result
        (Appends (W.contents writer.old) (W.contents writer.new)
        (complaint (link_of cid.now) error)) }
    ensures fault { IfErr result IsWritingError }
{
    match error {
        VerifyError::UnknownHash(code) => {
            writeln!(
                writer,
                ": the hash function 0x{code:x} is not computed here"
            )?;
            Ok(())
        }
        VerifyError::WrongDigest if is_truncated(cid) => {
            let len = cid.hash().size();
            writeln!(
                writer,
                ": the digest is truncated to {len} bytes, which is not supported"
            )?;
            Ok(())
        }
        VerifyError::WrongDigest => {
            writer.write_all(b": the block has another digest\n")?;
            Ok(())
        }
    }
}

// Writes a line about a block whose section begins at this byte of the file.
fn write_verdict_line<W: Write>(
    alloc: Global,
    cid: &Cid,
    offset: u64,
    error: VerifyError,
    writer: &mut W,
) -> Result<(), CarFileError>
    ensures written { OnOk result
        (Appends (W.contents writer.old) (W.contents writer.new)
        (verdict_line offset (link_of cid.now) error)) }
    ensures fault { IfErr result IsWritingError }
{
    write_cid(alloc, writer, cid)?;
    write!(writer, " at byte {offset}")?;
    write_reason(cid, error, writer)?;
    Ok(())
}

// Writes the same as a JSON object.
fn write_verdict_object<W: Write>(
    alloc: Global,
    cid: &Cid,
    offset: u64,
    error: VerifyError,
    writer: &mut W,
) -> Result<(), CarFileError>
    ensures written { OnOk result
        (Appends (W.contents writer.old) (W.contents writer.new)
        (verdict_object offset (link_of cid.now) error)) }
    ensures fault { IfErr result IsWritingError }
{
    writer.write_all(b"{\"cid\":\"")?;
    write_cid(alloc, writer, cid)?;
    write!(writer, "\",\"offset\":{offset}")?;
    write_reason_members(error, writer)?;
    Ok(())
}

// Writes the same in this form.
fn write_verdict<W: Write>(
    alloc: Global,
    form: VerdictForm,
    cid: &Cid,
    offset: u64,
    error: VerifyError,
    writer: &mut W,
) -> Result<(), CarFileError>
    ensures written { OnOk result
        (Appends (W.contents writer.old) (W.contents writer.new)
        (verdict_text form offset (link_of cid.now) error)) }
    ensures fault { IfErr result IsWritingError }
{
    match form {
        VerdictForm::Line => write_verdict_line(alloc, cid, offset, error, writer),
        VerdictForm::Object => write_verdict_object(alloc, cid, offset, error, writer),
    }
}

/// Writes a line in this form for every block whose digest isn't that of its CID, or isn't computed
/// here. The line has the error and the offset of the section. Returns the number of blocks of each
/// kind. Adds the place of each section to `places`.
///
/// It reads one section at a time, and keeps nothing else of earlier ones. It allocates for the text
/// of every CID that it writes, and for `places` if they are kept.
///
/// # Errors
///
/// - `Car` if the file is not a CAR or its reader fails, with the offset.
/// - `Write` if the writer fails.
/// - `Memory` if an allocation fails.
///
/// The lines that were written until then stay written.
#[tactic(auto, using(crate::proofs::Tallying::tallies_none, crate::proofs::Tallying::tallies_right, crate::proofs::Tallying::tallies_wrong, crate::proofs::Tallying::tallies_unknown, crate::proofs::Tallying::tallies_all, crate::proofs::Tallying::unverified_car, crate::proofs::Tallying::unverified))]
pub fn write_verified<R: BufRead + Drop, W: Write>(
    alloc: Global,
    car: &mut CarReader<R>,
    form: VerdictForm,
    places: &mut SectionPlaces,
    writer: &mut W,
) -> Result<Verified, CarFileError>
    ensures verified { IfOk result (Verifies form
        (progress R.remaining car.old car.new) places.old places.new
        (output W.contents writer.old writer.new)) }
    ensures fault { IfErr result (VerifyingFault form
        (progress R.remaining car.old car.new)
        (output W.contents writer.old writer.new)) }
{
    let mut section = Section::new(alloc);
    let mut wrong = 0u64;
    let mut unknown = 0u64;
    for count in 0..u64::MAX {
        let offset = car.offset();
        match read_next(car, &mut section) {
            Ok(true) => {}
            Ok(false) => {
                return Ok(Verified {
                    right: count - wrong - unknown,
                    wrong,
                    unknown,
                });
            }
            Err(error) => return Err(error),
        }
        let cid = section.cid();
        match places.add(cid, offset) {
            Ok(()) => {}
            Err(_) => return Err(CarFileError::Memory),
        }
        let error = match verify(cid, section.data()) {
            Ok(()) => continue,
            Err(error) => error,
        };
        match error {
            VerifyError::UnknownHash(_) => unknown += 1,
            VerifyError::WrongDigest => wrong += 1,
        }
        match write_verdict(alloc, form, cid, offset, error, writer) {
            Ok(()) => {}
            Err(error) => return Err(error),
        }
    }
    // No file has that many sections: the bytes of a file are counted in 64 bits.
    Err(CarFileError::Memory)
}
