//! The blocks of a CAR by their CIDs, wherever they are in the file.

use crate::bytes::{Bytes, BytesAt};
use crate::car_options::CarOptions;
use crate::complaints::{complain, report_car_error, report_unreadable};
use crate::files::{is_file, read_file};
use crate::input::{BUFFER, open_car_bytes};
use crate::limits::MOST_SECTIONS;
use crate::messages::{NamedCid, Outcome};
use car_files::CarFileError;
use indexmap::IndexMap;
use ipld_car::{
    CarErrorKind, CarHeader, CarReader, HEADER_END, IndexError, Section, StoredIndex, entries_of,
    read_index,
};
use ipld_cid::Cid;
use std::alloc::Global;
use std::fs;
use std::hash::RandomState;
use std::io::{self, BufReader, Error, ErrorKind, Read};

/// A reader of sections, which begins at any of them.
pub type Sections<'a> = CarReader<BufReader<BytesAt<'a>>>;

/// The place of a CAR's payload in its file.
#[derive(Clone, Copy)]
pub struct PayloadPlace {
    /// The offset of its first byte.
    pub start: u64,
    /// The offset of its end, if the header has it.
    pub end: Option<u64>,
}

/// The blocks of a CAR. They are found by the index of the file, if it has one. Otherwise the file
/// is read on from the last block that was found.
#[derive(Drop)]
pub struct Blocks<'a> {
    rt: &'a HostRuntime,
    file: &'a str,
    bytes: Bytes,
    options: CarOptions,
    roots: Vec<Cid>,
    payload: PayloadPlace,
    // The index, until one of its entries turns out to be wrong.
    index: Option<StoredIndex>,
    passed: PassedSections,
}

// The offsets of the blocks that were passed, and the end of the last.
#[derive(Drop)]
struct PassedSections {
    offsets: IndexMap<Cid, u64, RandomState>,
    end: u64,
}

// The result of a lookup in the index, by the entries that have a CID's hash.
#[derive(Drop)]
enum Indexed {
    // Its block.
    Block(Section),
    // No block of the CID.
    Nothing,
    // Something other than its block, at this byte of the file.
    Wrong(u64),
}

impl PassedSections {
    // Reads sections from the end of those that were passed, to the block of this CID.
    fn read_on(
        &mut self,
        alloc: Global,
        sections: Sections<'_>,
        cid: &Cid,
    ) -> Result<Option<Section>, CarFileError> {
        let mut sections = sections;
        let mut section = Section::new(alloc);
        for _ in 0..MOST_SECTIONS {
            match sections.read_section(&mut section) {
                Ok(true) => {}
                Ok(false) => return Ok(None),
                Err(error) => return Err(CarFileError::from(error)),
            }
            if !self.offsets.contains_key(section.cid()) {
                match self.offsets.insert(*section.cid(), self.end) {
                    Ok(_) => {}
                    Err(_) => return Err(CarFileError::Memory),
                }
            }
            self.end = sections.offset();
            if section.cid() == cid {
                return Ok(Some(section));
            }
        }
        Ok(None)
    }
}

/// The content of a file.
#[derive(Drop)]
pub enum Opened<'a> {
    /// The bytes of a block.
    Block(Vec<u8>),
    /// A CAR, after its header.
    Car(Blocks<'a>),
}

/// Opens a file, or standard input. It is a CAR if it begins as one and `may_be_car` is true, and
/// otherwise a block.
///
/// # Errors
///
/// The system's error if the file can't be read or the system returns no random bytes.
/// `OutOfMemory` if an allocation fails.
pub fn open_blocks<'a>(
    rt: &'a HostRuntime,
    file: &'a str,
    options: CarOptions,
    may_be_car: bool,
) -> io::Result<Opened<'a>> {
    if !may_be_car {
        return open_as_block(rt, file);
    }
    let bytes = match bytes_of(rt, file) {
        Ok(bytes) => bytes,
        Err(error) => return Err(error),
    };
    match blocks_of(rt, file, bytes, options) {
        Ok(blocks) => Ok(Opened::Car(blocks)),
        Err(NoBlocks::NoCar(Bytes::Memory(bytes))) => Ok(Opened::Block(bytes)),
        Err(NoBlocks::NoCar(Bytes::File(_))) => open_as_block(rt, file),
        Err(NoBlocks::Failed(error)) => Err(error),
    }
}

/// Opens a regular file as a CAR. Reports the error if it can't be read or doesn't begin with a CAR
/// header.
pub fn open_car_blocks<'a>(
    rt: &'a HostRuntime,
    file: &'a str,
    options: CarOptions,
) -> Result<Blocks<'a>, Outcome> {
    let bytes = match bytes_of(rt, file) {
        Ok(bytes) => bytes,
        Err(error) => return Err(report_unreadable(rt, file, &error)),
    };
    match blocks_of(rt, file, bytes, options) {
        Ok(blocks) => Ok(blocks),
        Err(NoBlocks::NoCar(bytes)) => match open_car_bytes(rt, file, &bytes, options) {
            Ok(_) => Err(Outcome::Failed),
            Err(outcome) => Err(outcome),
        },
        Err(NoBlocks::Failed(error)) => Err(report_unreadable(rt, file, &error)),
    }
}

// Opens a file as a block.
fn open_as_block<'a>(rt: &HostRuntime, file: &str) -> io::Result<Opened<'a>> {
    match read_file(rt, file) {
        Ok(bytes) => Ok(Opened::Block(bytes)),
        Err(error) => Err(error),
    }
}

/// Opens a file's bytes. Anything other than a regular file is read into memory, because it can be
/// read only once.
pub fn bytes_of(rt: &HostRuntime, file: &str) -> io::Result<Bytes> {
    if file == "-" || !is_file(rt, file) {
        return Ok(Bytes::Memory(read_file(rt, file)?));
    }
    Ok(Bytes::File(fs::open(rt, file)?))
}

/// Returns the blocks of a file if it is a CAR with an index that can be read. Returns `None` for
/// any other file, and if the file can't be read.
pub fn open_indexed<'a>(
    rt: &'a HostRuntime,
    file: &'a str,
    options: CarOptions,
) -> Option<Blocks<'a>> {
    if file == "-" || !is_file(rt, file) {
        return None;
    }
    let bytes = Bytes::File(fs::open(rt, file).ok()?);
    let blocks = blocks_of(rt, file, bytes, options).ok()?;
    if blocks.index.is_some() {
        Some(blocks)
    } else {
        None
    }
}

// The header of a CAR.
#[derive(Drop)]
struct Front {
    roots: Vec<Cid>,
    payload: PayloadPlace,
    // The offset of the first section.
    first: u64,
}

// Reads the header of a CAR, or returns `None` if the bytes don't begin as one.
fn read_front(rt: &HostRuntime, bytes: &Bytes, limit: u64) -> io::Result<Option<Front>> {
    let reader = BytesAt::new(bytes, 0, u64::MAX);
    let reader = BufReader::with_capacity(rt.alloc(), BUFFER, reader)?;
    let car = match CarReader::new(rt.alloc(), reader, limit) {
        Ok(car) => car,
        Err(error) => {
            return match error.kind {
                CarErrorKind::Memory => Err(Error::from(ErrorKind::OutOfMemory)),
                CarErrorKind::Read(error) => Err(error),
                _ => Ok(None),
            };
        }
    };
    Ok(Some(Front {
        roots: Vec::from_slice(rt.alloc(), car.roots())?,
        payload: PayloadPlace {
            start: car.start(),
            end: car.end(),
        },
        first: car.offset(),
    }))
}

/// Reads the header of version 2, or returns `None` if the bytes don't begin with one.
///
/// # Errors
///
/// The system's error if the file can't be read.
pub fn header_of(bytes: &Bytes) -> io::Result<Option<CarHeader>> {
    let mut header = [0; HEADER_END];
    match BytesAt::new(bytes, 0, u64::MAX).read_exact(&mut header) {
        Ok(()) => Ok(CarHeader::from_bytes(&header)),
        Err(error) if error.kind() == ErrorKind::UnexpectedEof => Ok(None),
        Err(error) => Err(error),
    }
}

/// Reads the index that the header of a CAR of version 2 places in the file.
///
/// # Errors
///
/// Those of [`read_index`].
pub fn index_at(
    rt: &HostRuntime,
    bytes: &Bytes,
    header: &CarHeader,
) -> Result<StoredIndex, IndexError> {
    let reader = BytesAt::new(bytes, header.index, u64::MAX);
    let mut reader = BufReader::with_capacity(rt.alloc(), BUFFER, reader)?;
    read_index(rt.alloc(), &mut reader)
}

// The reason why a file's blocks are not available.
#[derive(Drop)]
enum NoBlocks {
    // These bytes don't begin as a CAR.
    NoCar(Bytes),
    // An error of the system, or a failed allocation.
    Failed(Error),
}

// Opens the blocks of these bytes.
fn blocks_of<'a>(
    rt: &'a HostRuntime,
    file: &'a str,
    bytes: Bytes,
    options: CarOptions,
) -> Result<Blocks<'a>, NoBlocks> {
    let front = match read_front(rt, &bytes, options.limit) {
        Ok(Some(front)) => front,
        Ok(None) => return Err(NoBlocks::NoCar(bytes)),
        Err(error) => return Err(NoBlocks::Failed(error)),
    };
    let header = match header_of(&bytes) {
        Ok(header) => header,
        Err(error) => return Err(NoBlocks::Failed(error)),
    };
    let hasher = match RandomState::new(rt) {
        Ok(hasher) => hasher,
        Err(error) => return Err(NoBlocks::Failed(error)),
    };
    let mut blocks = Blocks {
        rt,
        file,
        bytes,
        options,
        roots: front.roots,
        payload: front.payload,
        index: None,
        passed: PassedSections {
            offsets: IndexMap::with_hasher(rt.alloc(), hasher),
            end: front.first,
        },
    };
    if let Some(header) = header {
        blocks.use_index(&header);
    }
    Ok(blocks)
}

/// Creates a reader of the sections that begin at this byte of the file.
///
/// # Errors
///
/// `OutOfMemory` if the allocation of a buffer fails.
pub fn sections_at<'a>(
    rt: &HostRuntime,
    bytes: &'a Bytes,
    payload: PayloadPlace,
    offset: u64,
    options: CarOptions,
) -> io::Result<Sections<'a>> {
    let reader = BytesAt::new(bytes, offset, u64::MAX);
    let reader = BufReader::with_capacity(rt.alloc(), BUFFER, reader)?;
    let PayloadPlace { start, end } = payload;
    let car = CarReader::at_section(rt.alloc(), reader, options.limit, start, end, offset);
    Ok(options.apply(car))
}

impl<'a> Blocks<'a> {
    /// Returns the name of the file.
    pub fn file(&self) -> &'a str {
        self.file
    }

    /// Returns the roots.
    pub fn roots(&self) -> &[Cid] {
        &self.roots
    }

    // Reads the index, if there is one, and reports it if it can't be used.
    fn use_index(&mut self, header: &CarHeader) {
        if header.index == 0 {
            return;
        }
        match index_at(self.rt, &self.bytes, header) {
            Ok(index) => self.index = Some(index),
            Err(error) => {
                let (file, at) = (self.file, header.index);
                complain(
                    self.rt,
                    &format_args!("{file}: ignoring the index at byte {at}: {error}"),
                );
            }
        }
    }

    /// Finds the block of this CID, or returns `None` if the file doesn't have it. Reports errors
    /// of the file.
    pub fn find(&mut self, cid: &Cid) -> Result<Option<Section>, Outcome> {
        if let Some(section) = self.find_indexed(cid) {
            return Ok(Some(section));
        }
        let found = match self.passed.offsets.get(cid) {
            Some(offset) => self.section_at(*offset),
            None => self.read_on(cid),
        };
        match found {
            Ok(found) => {
                if found.is_some() && self.index.is_some() {
                    let (file, cid) = (self.file, NamedCid::new(self.rt.alloc(), cid));
                    complain(
                        self.rt,
                        &format_args!("{file}: {cid}: the index has no entry for this block"),
                    );
                }
                Ok(found)
            }
            Err(error) => Err(report_car_error(self.rt, self.file, &error)),
        }
    }

    /// Finds the block of this CID through the index, or returns `None` if the index leads to no
    /// such block. If an entry doesn't lead to a block with the CID's hash, reports that and stops
    /// using the index.
    pub fn find_indexed(&mut self, cid: &Cid) -> Option<Section> {
        let index = self.index.take()?;
        match self.find_among(&index, cid) {
            Indexed::Block(section) => {
                self.index = Some(index);
                Some(section)
            }
            Indexed::Nothing => {
                self.index = Some(index);
                None
            }
            Indexed::Wrong(offset) => {
                let (file, cid) = (self.file, NamedCid::new(self.rt.alloc(), cid));
                complain(
                    self.rt,
                    &format_args!(
                        "{file}: ignoring the index: its entry for {cid} points to byte {offset}, where that block does not begin"
                    ),
                );
                None
            }
        }
    }

    // Follows the entries of an index that have the hash of a CID to its block.
    fn find_among(&self, index: &StoredIndex, cid: &Cid) -> Indexed {
        let hash = index.format.stored_hash(cid.hash());
        for entry in entries_of(&index.entries, &hash) {
            let offset = self.payload.start.saturating_add(entry.offset);
            match self.section_at(offset) {
                Ok(Some(section)) if section.cid() == cid => return Indexed::Block(section),
                // A block of the same digest, and of another codec or hash function.
                Ok(Some(section)) if index.format.stored_hash(section.cid().hash()) == hash => {}
                _ => return Indexed::Wrong(offset),
            }
        }
        Indexed::Nothing
    }

    // Reads the block whose section begins at this byte of the file.
    fn section_at(&self, offset: u64) -> Result<Option<Section>, CarFileError> {
        let (rt, bytes) = (self.rt, &self.bytes);
        let mut sections = sections_at(rt, bytes, self.payload, offset, self.options)?;
        let mut section = Section::new(rt.alloc());
        match sections.read_section(&mut section) {
            Ok(true) => Ok(Some(section)),
            Ok(false) => Ok(None),
            Err(error) => Err(CarFileError::from(error)),
        }
    }

    // Reads on to the block of this CID.
    fn read_on(&mut self, cid: &Cid) -> Result<Option<Section>, CarFileError> {
        let (rt, bytes) = (self.rt, &self.bytes);
        let sections = sections_at(rt, bytes, self.payload, self.passed.end, self.options)?;
        self.passed.read_on(rt.alloc(), sections, cid)
    }
}
