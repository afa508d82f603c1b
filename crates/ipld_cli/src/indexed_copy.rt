//! A CAR of version 2 that has the payload of another CAR.

ghost use Rattle.std.specs.Prelude.{IfOk};
ghost use Rattle.ipld_cli.specs.IndexedCopy.{WritesCopy};

use crate::blocks::bytes_of;
use crate::bytes::{Bytes, BytesAt};
use crate::car_options::CarOptions;
use crate::complaints::{report_car_error, report_out_of_memory, report_unreadable};
use crate::input::open_car_bytes;
use crate::limits::MOST_SECTIONS;
use crate::messages::Outcome;
use crate::output::{Content, OutputError};
use car_files::CarFileError;
use ipld_car::{CarHeader, CarIndex, CarReader, HEADER_END, IndexEntry, Section, write_header};
use std::alloc::Global;
use std::io::{self, BufRead, Write};

/// A CAR of version 2 with the payload of another CAR, byte for byte, and an index of its sections.
#[derive(Drop)]
pub struct IndexedCopy {
    // The bytes of the other CAR, and the beginning of its payload there.
    bytes: Bytes,
    start: u64,
    header: CarHeader,
    index: CarIndex,
}

// The beginning and the end of a payload, and the index of its sections.
#[derive(Drop)]
struct Payload {
    start: u64,
    end: u64,
    is_fully_indexed: bool,
    index: CarIndex,
}

impl IndexedCopy {
    /// Reads a CAR, to find its sections. Reports the error if the file can't be read or is not a
    /// CAR.
    ///
    /// It keeps an entry for each section. It holds all bytes only of standard input and pipes,
    /// since these can be read only once.
    pub fn of_file(
        rt: &HostRuntime,
        file: &str,
        options: CarOptions,
    ) -> Result<IndexedCopy, Outcome> {
        let bytes = match bytes_of(rt, file) {
            Ok(bytes) => bytes,
            Err(error) => return Err(report_unreadable(rt, file, &error)),
        };
        let payload = payload_of(rt, file, options, &bytes)?;
        let size = payload.end.saturating_sub(payload.start);
        let Some(index) = size.checked_add(HEADER_END as u64) else {
            return Err(report_out_of_memory(rt, file));
        };
        Ok(IndexedCopy {
            bytes,
            start: payload.start,
            header: CarHeader {
                is_fully_indexed: payload.is_fully_indexed,
                payload: HEADER_END as u64,
                size,
                index,
            },
            index: payload.index,
        })
    }
}

// Finds the payload of a CAR and its sections.
fn payload_of(
    rt: &HostRuntime,
    file: &str,
    options: CarOptions,
    bytes: &Bytes,
) -> Result<Payload, Outcome> {
    let mut car = open_car_bytes(rt, file, bytes, options)?;
    let sections = match entries_of_payload(rt.alloc(), &mut car) {
        Ok(sections) => sections,
        Err(error) => return Err(report_car_error(rt, file, &error)),
    };
    let (start, end) = (car.start(), car.offset());
    match options.check_padding(rt, file, car) {
        Outcome::Done => {}
        outcome => return Err(outcome),
    }
    let is_fully_indexed = sections.iter().all(|entry| entry.hash.size() > 0);
    match CarIndex::new(rt.alloc(), sections) {
        Ok(index) => Ok(Payload {
            start,
            end,
            is_fully_indexed,
            index,
        }),
        Err(_) => Err(report_out_of_memory(rt, file)),
    }
}

// Reads the sections of a CAR, and returns their entries in an index, in their order.
fn entries_of_payload<R: BufRead + Drop>(
    alloc: Global,
    car: &mut CarReader<R>,
) -> Result<Vec<IndexEntry>, CarFileError> {
    let start = car.start();
    let mut section = Section::new(alloc);
    let mut entries = Vec::new(alloc);
    for _ in 0..MOST_SECTIONS {
        let offset = car.offset().saturating_sub(start);
        match car.read_section(&mut section) {
            Ok(true) => {}
            Ok(false) => return Ok(entries),
            Err(error) => return Err(CarFileError::from(error)),
        }
        let hash = *section.cid().hash();
        entries.push(IndexEntry { hash, offset })?;
    }
    Err(CarFileError::Memory)
}

impl IndexedCopy {
    // Writes the header, the payload and the index.
    fn write_copy<W: Write + Drop>(&self, writer: W) -> Result<W, OutputError>
        ensures { IfOk result (λ to.
            WritesCopy self.now (W.contents writer) (W.contents to)) }
    {
        let mut writer = writer;
        write_header(&self.header, &mut writer)?;
        let end = self.start.saturating_add(self.header.size);
        let mut payload = BytesAt::new(&self.bytes, self.start, end);
        if io::copy(&mut payload, &mut writer)? != self.header.size {
            return Err(OutputError::Changed);
        }
        self.index.write_to(&mut writer)?;
        writer.flush()?;
        Ok(writer)
    }
}

impl Content for IndexedCopy {
    fn write_to<W: Write + Drop>(&self, writer: W) -> Result<W, OutputError> {
        self.write_copy(writer)
    }
}
