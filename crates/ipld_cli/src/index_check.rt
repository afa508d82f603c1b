//! The check of a CAR's index: whether it has the place of every block.

use crate::blocks::{header_of, index_at};
use crate::bytes::Bytes;
use crate::complaints::{report, report_unreadable};
use crate::files::is_file;
use crate::messages::Outcome;
use car_files::{CarFileError, SectionPlace, VerdictForm};
use ipld_block::write_cid;
use ipld_car::{CarHeader, IndexEntry, IndexError, IndexFormat, StoredIndex};
use ipld_cid::{Cid, IDENTITY};
use std::fs;
use std::io::Write;

// An error in an index.
#[derive(Clone, Copy)]
enum Fault {
    // The index has no entry for this block, whose section begins at this byte of the file.
    Lacks(Cid, u64),
    // The index has an entry that leads to this byte, but no section with its digest begins there.
    LeadsNowhere(u64),
    // The index has the entry that leads to this byte more than once.
    Repeats(u64),
}

// Writes an error in an index.
fn write_fault<W: Write>(
    rt: &HostRuntime,
    form: VerdictForm,
    fault: &Fault,
    writer: &mut W,
) -> Result<(), CarFileError> {
    match (form, fault) {
        (VerdictForm::Line, Fault::Lacks(cid, offset)) => {
            write_cid(rt.alloc(), writer, cid)?;
            writeln!(
                writer,
                " at byte {offset}: the index has no entry for this block"
            )?;
        }
        (VerdictForm::Line, Fault::LeadsNowhere(offset)) => {
            writeln!(
                writer,
                "the index points to byte {offset}, where no block with that digest begins"
            )?;
        }
        (VerdictForm::Line, Fault::Repeats(offset)) => {
            writeln!(writer, "the index points to byte {offset} more than once")?;
        }
        (VerdictForm::Object, Fault::Lacks(cid, offset)) => {
            writer.write_all(b"{\"cid\":\"")?;
            write_cid(rt.alloc(), writer, cid)?;
            write!(writer, "\",\"offset\":{offset}")?;
            writer.write_all(b",\"error\":\"NotIndexed\"}\n")?;
        }
        (VerdictForm::Object, Fault::LeadsNowhere(offset)) => {
            write!(writer, "{{\"offset\":{offset}")?;
            writer.write_all(b",\"error\":\"WrongEntry\"}\n")?;
        }
        (VerdictForm::Object, Fault::Repeats(offset)) => {
            write!(writer, "{{\"offset\":{offset}")?;
            writer.write_all(b",\"error\":\"RepeatedEntry\"}\n")?;
        }
    }
    Ok(())
}

// Returns the entry of a section in an index of this format, if the payload begins at `start`.
fn entry_of(place: &SectionPlace, format: IndexFormat, start: u64) -> IndexEntry {
    IndexEntry {
        hash: format.stored_hash(place.cid.hash()),
        offset: place.offset.saturating_sub(start),
    }
}

// Compares an index with the sections of the payload, and writes the errors. The places are in the
// order of the index.
fn compare<W: Write>(
    rt: &HostRuntime,
    form: VerdictForm,
    header: &CarHeader,
    index: &StoredIndex,
    places: &[SectionPlace],
    writer: &mut W,
) -> Result<Outcome, CarFileError> {
    let (format, start) = (index.format, header.payload);
    let mut outcome = Outcome::Done;
    for place in places {
        // CIDs that carry their block, or have an empty digest, may have no entry.
        let hash = place.cid.hash();
        let carries = hash.code() == IDENTITY || hash.size() == 0;
        let may_lack = carries && !header.is_fully_indexed;
        let own = entry_of(place, format, start);
        let is_there = index
            .entries
            .binary_search_by(|entry| entry.cmp(&own))
            .is_ok();
        if !is_there && !may_lack {
            write_fault(rt, form, &Fault::Lacks(place.cid, place.offset), writer)?;
            outcome = Outcome::NotSo;
        }
    }
    let mut previous = None;
    for entry in index.entries.iter() {
        let at = start.saturating_add(entry.offset);
        if previous == Some(*entry) {
            write_fault(rt, form, &Fault::Repeats(at), writer)?;
            outcome = Outcome::NotSo;
            continue;
        }
        previous = Some(*entry);
        let is_there = places
            .binary_search_by(|place| entry_of(place, format, start).cmp(entry))
            .is_ok();
        if !is_there {
            write_fault(rt, form, &Fault::LeadsNowhere(at), writer)?;
            outcome = Outcome::NotSo;
        }
    }
    Ok(outcome)
}

// Reports that an index can't be read.
fn report_index_error(rt: &HostRuntime, file: &str, at: u64, error: &IndexError) -> Outcome {
    let outcome = match error {
        IndexError::Memory | IndexError::Read(_) => Outcome::Failed,
        _ => Outcome::NotSo,
    };
    let why = format_args!("cannot read the index at byte {at}: {error}");
    report(rt, file, &why, outcome)
}

/// The index of a CAR of version 2, which is not read yet.
#[derive(Drop)]
pub struct UncheckedIndex<'a> {
    file: &'a str,
    bytes: Bytes,
    header: CarHeader,
}

impl<'a> UncheckedIndex<'a> {
    /// Finds the index of a file, or returns `None` if the file has none. The index of standard
    /// input or of a pipe is not found. Reports the error if the file can't be read.
    pub fn of_file(rt: &HostRuntime, file: &'a str) -> Result<Option<UncheckedIndex<'a>>, Outcome> {
        if file == "-" || !is_file(rt, file) {
            return Ok(None);
        }
        let bytes = match fs::open(rt, file) {
            Ok(opened) => Bytes::File(opened),
            Err(error) => return Err(report_unreadable(rt, file, &error)),
        };
        match header_of(&bytes) {
            Ok(Some(header)) if header.index > 0 => Ok(Some(UncheckedIndex {
                file,
                bytes,
                header,
            })),
            Ok(_) => Ok(None),
            Err(error) => Err(report_unreadable(rt, file, &error)),
        }
    }

    /// Reads the index, and writes the errors in it: each block without an entry, each entry that
    /// leads to no block with its digest, and each entry that the index has already. `places` has
    /// the places of all sections. Reports the error if the index can't be read.
    ///
    /// It holds the entries of the index, and sorts the places where they are.
    pub fn check<W: Write>(
        &self,
        rt: &HostRuntime,
        form: VerdictForm,
        places: Vec<SectionPlace>,
        writer: &mut W,
    ) -> Result<Outcome, CarFileError> {
        let (mut places, header) = (places, &self.header);
        let index = match index_at(rt, &self.bytes, header) {
            Ok(index) => index,
            Err(error) => return Ok(report_index_error(rt, self.file, header.index, &error)),
        };
        let (format, start) = (index.format, header.payload);
        places.sort_unstable_by_key(|place| entry_of(place, format, start));
        compare(rt, form, header, &index, &places, writer)
    }
}
