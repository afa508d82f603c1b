//! The summary of a CAR.

use crate::complaints::report;
use crate::json_lines::write_line;
use crate::limits::MOST_SECTIONS;
use crate::messages::{NamedCid, Outcome};
use car_files::{CarFileError, CarriedFault, MissingBlocks, add_links};
use indexmap::IndexMap;
use ipld_block::{BlockCodec, CheckError, InvalidBlock, codec_name, hash_name, links_of};
use ipld_car::{CarReader, CarVersion, Section};
use ipld_cid::Cid;
use ipld_cid_text::usual_text;
use json::Writer;
use std::alloc::Global;
use std::hash::RandomState;
use std::io::{self, BufRead, Write};

// Numbers of blocks, by a code.
type Counts = IndexMap<u64, u64, RandomState>;

// The table of names that a code is in.
#[derive(Clone, Copy)]
enum Table {
    Codecs,
    Hashes,
}

impl Table {
    // Returns the name of a code, or `None` if it has none here.
    fn name_of(self, code: u64) -> Option<&'static str> {
        match self {
            Table::Codecs => codec_name(code),
            Table::Hashes => hash_name(code),
        }
    }
}

/// The numbers of a CAR: its blocks, their sizes, codecs and hash functions, and the blocks that it
/// lacks.
#[derive(Drop)]
pub struct Summary {
    version: u64,
    roots: Vec<Cid>,
    blocks: u64,
    // The number of bytes of all blocks, of the smallest, and of the largest.
    bytes: u64,
    smallest: u64,
    largest: u64,
    // The numbers of blocks, by the code of their codec and by that of their hash function.
    codecs: Counts,
    hashes: Counts,
    // The number of roots and links whose block is missing, whatever its codec.
    missing: u64,
    // The numbers of blocks that are invalid for their codec, and of those whose codec is not read.
    invalid: u64,
    unknown: u64,
}

impl Summary {
    /// Reads a CAR to its end. Reports each block that is invalid for its codec.
    ///
    /// It keeps a CID for each block, and one for each link whose block is missing.
    ///
    /// # Errors
    ///
    /// `Car` if a section can't be read, and `Memory` if an allocation fails.
    pub fn of_car<R: BufRead + Drop>(
        rt: &HostRuntime,
        hasher: RandomState,
        file: &str,
        car: &mut CarReader<R>,
    ) -> Result<Summary, CarFileError> {
        let mut index = MissingBlocks::new(rt.alloc(), hasher);
        let mut summary = Summary::new(rt, hasher, car)?;
        let roots = Vec::from_slice(rt.alloc(), car.roots())?;
        let faults = add_links(rt.alloc(), &mut index, roots)?;
        summary.report_faults(rt, file, 0, &faults);
        let mut section = Section::new(rt.alloc());
        for _ in 0..MOST_SECTIONS {
            let offset = car.offset();
            match car.read_section(&mut section) {
                Ok(true) => summary.add(rt, &mut index, file, offset, &section)?,
                Ok(false) => {
                    let missing = index.missing_by_hash(rt.alloc(), hasher)?;
                    summary.missing = missing.len() as u64;
                    return Ok(summary);
                }
                Err(error) => return Err(CarFileError::from(error)),
            }
        }
        Err(CarFileError::Memory)
    }

    // Creates the summary of a CAR whose sections are not read yet.
    fn new<R: BufRead>(
        rt: &HostRuntime,
        hasher: RandomState,
        car: &CarReader<R>,
    ) -> Result<Summary, CarFileError> {
        Ok(Summary {
            version: match car.version() {
                CarVersion::V1 => 1,
                CarVersion::V2 => 2,
            },
            roots: Vec::from_slice(rt.alloc(), car.roots())?,
            blocks: 0,
            bytes: 0,
            smallest: 0,
            largest: 0,
            codecs: IndexMap::with_hasher(rt.alloc(), hasher),
            hashes: IndexMap::with_hasher(rt.alloc(), hasher),
            missing: 0,
            invalid: 0,
            unknown: 0,
        })
    }

    // Adds the block of a section that begins at this byte of the file.
    fn add(
        &mut self,
        rt: &HostRuntime,
        index: &mut MissingBlocks,
        file: &str,
        offset: u64,
        section: &Section,
    ) -> Result<(), CarFileError> {
        let cid = section.cid();
        let size = section.data().len() as u64;
        self.smallest = if self.blocks == 0 {
            size
        } else {
            self.smallest.min(size)
        };
        self.largest = self.largest.max(size);
        self.bytes = self.bytes.saturating_add(size);
        self.blocks = self.blocks.saturating_add(1);
        count(&mut self.codecs, cid.codec())?;
        count(&mut self.hashes, cid.hash().code())?;
        index.add_block(cid)?;
        let Some(codec) = BlockCodec::from_code(cid.codec()) else {
            self.unknown = self.unknown.saturating_add(1);
            return Ok(());
        };
        match links_of(rt.alloc(), codec, section.data()) {
            Ok(links) => {
                let faults = add_links(rt.alloc(), index, links)?;
                self.report_faults(rt, file, offset, &faults);
            }
            Err(CheckError::Memory) => return Err(CarFileError::Memory),
            Err(CheckError::Invalid(why)) => self.report_fault(rt, file, offset, cid, &why),
        }
        Ok(())
    }

    // Counts and reports an invalid block.
    fn report_fault(
        &mut self,
        rt: &HostRuntime,
        file: &str,
        offset: u64,
        cid: &Cid,
        why: &InvalidBlock,
    ) {
        self.invalid = self.invalid.saturating_add(1);
        let cid = NamedCid::new(rt.alloc(), cid);
        let why = format_args!("{cid} at byte {offset}: {why}");
        report(rt, file, &why, Outcome::NotSo);
    }

    // Counts and reports the invalid blocks that CIDs carry.
    fn report_faults(
        &mut self,
        rt: &HostRuntime,
        file: &str,
        offset: u64,
        faults: &[CarriedFault],
    ) {
        for fault in faults {
            self.report_fault(rt, file, offset, &fault.cid, &fault.why);
        }
    }

    /// Returns `NotSo` if a block is invalid for its codec, and otherwise `Done`.
    pub fn outcome(&self) -> Outcome {
        if self.invalid > 0 {
            Outcome::NotSo
        } else {
            Outcome::Done
        }
    }

    /// Writes the summary as lines of a name and a value.
    pub fn write_lines<W: Write>(&self, alloc: Global, writer: &mut W) -> io::Result<()> {
        writeln!(writer, "version  {}", self.version)?;
        for root in self.roots.iter() {
            writeln!(writer, "root     {}", NamedCid::new(alloc, root))?;
        }
        writeln!(writer, "blocks   {}", self.blocks)?;
        writeln!(
            writer,
            "bytes    {} (each block {} to {})",
            self.bytes, self.smallest, self.largest
        )?;
        write_counts(writer, "codec    ", &self.codecs, Table::Codecs)?;
        write_counts(writer, "hash     ", &self.hashes, Table::Hashes)?;
        writeln!(writer, "unknown  {}", self.unknown)?;
        writeln!(writer, "invalid  {}", self.invalid)?;
        writeln!(writer, "missing  {}", self.missing)
    }

    /// Writes the summary as an object of JSON on a line.
    pub fn write_object<W: Write>(&self, alloc: Global, writer: &mut W) -> io::Result<()> {
        let mut object = Writer::new(Vec::new(alloc));
        object.begin_object()?;
        add_number(&mut object, "version", self.version)?;
        object.key("roots")?;
        object.begin_array()?;
        for root in self.roots.iter() {
            object.string(&usual_text(alloc, root)?)?;
        }
        object.end_array()?;
        add_number(&mut object, "blocks", self.blocks)?;
        add_number(&mut object, "bytes", self.bytes)?;
        add_number(&mut object, "smallest", self.smallest)?;
        add_number(&mut object, "largest", self.largest)?;
        add_counts(alloc, &mut object, "codecs", &self.codecs, Table::Codecs)?;
        add_counts(alloc, &mut object, "hashes", &self.hashes, Table::Hashes)?;
        add_number(&mut object, "unknown", self.unknown)?;
        add_number(&mut object, "invalid", self.invalid)?;
        add_number(&mut object, "missing", self.missing)?;
        write_line(object, writer)?;
        Ok(())
    }
}

// Adds one to the number of a code.
fn count(counts: &mut Counts, code: u64) -> Result<(), CarFileError> {
    let count = counts.get(&code).copied().unwrap_or(0);
    match counts.insert(code, count.saturating_add(1)) {
        Ok(_) => Ok(()),
        Err(_) => Err(CarFileError::Memory),
    }
}

// Writes a line for each code: its name, or the code, and a number of blocks.
fn write_counts<W: Write>(
    writer: &mut W,
    label: &str,
    counts: &Counts,
    table: Table,
) -> io::Result<()> {
    for (code, count) in counts.iter() {
        match table.name_of(*code) {
            Some(name) => writeln!(writer, "{label}{name} {count}")?,
            None => writeln!(writer, "{label}{code:#x} {count}")?,
        }
    }
    Ok(())
}

/// Adds a member whose value is a number.
pub(crate) fn add_number(object: &mut Writer, key: &str, number: u64) -> io::Result<()> {
    object.key(key)?;
    object.u64(number)?;
    Ok(())
}

// Adds a member whose value is an object: the number for each name, or for the code if it has none.
fn add_counts(
    alloc: Global,
    object: &mut Writer,
    key: &str,
    counts: &Counts,
    table: Table,
) -> io::Result<()> {
    object.key(key)?;
    object.begin_object()?;
    for (code, count) in counts.iter() {
        match table.name_of(*code) {
            Some(name) => add_number(object, name, *count)?,
            None => add_number(object, &format!(in alloc; "{code:#x}")?, *count)?,
        }
    }
    object.end_object()?;
    Ok(())
}
