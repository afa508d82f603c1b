//! A CAR whose first blocks are known last.

use crate::sink::{BlockSink, Room};
use indexmap::IndexSet;
use ipld_car::CarWriter;
use ipld_cid::{ByteBuffer, Cid};
use std::alloc::{AllocError, Global};
use std::hash::RandomState;
use std::io::{self, ErrorKind, Seek, SeekFrom, Write};
use std::mem;

// How many bytes are written at a time.
const BUFFER: usize = 1 << 17;

/// A CAR of version 1 (CARv1) with one root, in a file. It has each block once, except a part of a
/// sharded folder that another sharded folder has too: it may have that twice.
#[derive(Drop)]
pub struct CarInPlace<W> {
    alloc: Global,
    writer: W,
    // The bytes that aren't written yet, and the offset at which they begin.
    buffer: Vec<u8>,
    start: u64,
    // The CIDs of the blocks.
    cids: IndexSet<Cid, RandomState>,
    header: Room,
    // The section that is made, or the part of it before its block.
    section: Vec<u8>,
}

// Returns the bytes of the header with this root.
fn header_of(alloc: Global, root: &Cid) -> io::Result<Vec<u8>> {
    CarWriter::new(alloc, Vec::new(alloc), &[*root])?.finish()
}

// Returns the number of bytes of a section that has this many bytes after its length.
fn section_len(content_len: u64) -> u64 {
    let mut varint = ByteBuffer::<10>::new();
    varint.push_varint(content_len);
    content_len.saturating_add(varint.len() as u64)
}

// Puts the length and the CID before a block of this length into `section`.
fn begin_section(section: &mut Vec<u8>, cid: &Cid, len: usize) -> Result<(), AllocError> {
    let mut varint = ByteBuffer::<10>::new();
    varint.push_varint((cid.encoded_len() as u64).saturating_add(len as u64));
    section.clear();
    section.extend_from_slice(varint.as_slice())?;
    cid.write_bytes(section)
}

impl<W: Write + Seek + Drop> CarInPlace<W> {
    /// Creates a CAR in a file that is empty. Its root will have the form of this CID: the same
    /// version and codec.
    ///
    /// # Errors
    ///
    /// One of the kind `OutOfMemory` if an allocation fails, and the system's error if it has no
    /// random bytes for the hashes of a table.
    pub fn new(rt: &HostRuntime, writer: W, planned_root: &Cid) -> io::Result<CarInPlace<W>> {
        let alloc = rt.alloc();
        let hasher = RandomState::new(rt)?;
        let buffer = header_of(alloc, planned_root)?;
        let header = Room {
            offset: 0,
            len: buffer.len() as u64,
        };
        Ok(CarInPlace {
            alloc,
            writer,
            buffer,
            start: 0,
            cids: IndexSet::with_hasher(alloc, hasher),
            header,
            section: Vec::new(alloc),
        })
    }

    // Returns the offset of the end.
    fn end(&self) -> u64 {
        self.start.saturating_add(self.buffer.len() as u64)
    }

    // Writes bytes at an offset of the file.
    fn write_at(&mut self, offset: u64, bytes: &[u8]) -> io::Result<()> {
        self.writer.seek(SeekFrom::Start(offset))?;
        self.writer.write_all(bytes)
    }

    // Writes the bytes that aren't written yet.
    fn flush_buffer(&mut self) -> io::Result<()> {
        let end = self.end();
        self.writer.seek(SeekFrom::Start(self.start))?;
        self.writer.write_all(&self.buffer)?;
        self.buffer.clear();
        self.start = end;
        Ok(())
    }

    // Writes the bytes that aren't written yet, if the buffer has no room for so many more.
    fn make_way(&mut self, len: u64) -> io::Result<()> {
        if (self.buffer.len() as u64).saturating_add(len) <= BUFFER as u64 {
            return Ok(());
        }
        self.flush_buffer()
    }

    // Appends bytes to the end.
    fn append(&mut self, bytes: &[u8]) -> io::Result<()> {
        self.make_way(bytes.len() as u64)?;
        if bytes.len() < BUFFER {
            self.buffer.extend_from_slice(bytes)?;
            return Ok(());
        }
        self.write_at(self.start, bytes)?;
        self.start = self.start.saturating_add(bytes.len() as u64);
        Ok(())
    }

    // Writes bytes over others. All of them, or none, are still to be written.
    fn replace(&mut self, offset: u64, bytes: &[u8]) -> io::Result<()> {
        let Some(at) = offset.checked_sub(self.start) else {
            return self.write_at(offset, bytes);
        };
        let (begin, len) = (at as usize, self.buffer.len());
        let end = begin.saturating_add(bytes.len());
        if begin > end || end > len {
            return self.write_at(offset, bytes);
        }
        self.buffer[begin..end].copy_from_slice(bytes);
        Ok(())
    }

    // Takes back everything from an offset on.
    fn cut(&mut self, offset: u64) {
        match offset.checked_sub(self.start) {
            Some(len) => self.buffer.truncate(len as usize),
            None => {
                self.buffer.clear();
                self.start = offset;
            }
        }
    }

    // Adds the CID of a block, and returns whether it wasn't there.
    fn is_new(&mut self, cid: &Cid) -> io::Result<bool> {
        match self.cids.insert(*cid) {
            Ok(is_new) => Ok(is_new),
            Err(_) => Err(io::Error::from(ErrorKind::OutOfMemory)),
        }
    }

    /// Writes the header with the root, and the bytes that are left. Returns the writer, and the
    /// number of bytes of the CAR. The file may be longer: cut it to this length.
    ///
    /// # Errors
    ///
    /// The error of the writer, one of the kind `OutOfMemory` if an allocation fails, and one of
    /// the kind `InvalidData` if the root has another form than was planned.
    pub fn finish(self, root: &Cid) -> io::Result<(W, u64)> {
        let mut car = self;
        let header = header_of(car.alloc, root)?;
        if header.len() as u64 != car.header.len {
            return Err(io::Error::from(ErrorKind::InvalidData));
        }
        car.replace(0, &header)?;
        car.flush_buffer()?;
        car.writer.flush()?;
        Ok((car.writer, car.start))
    }
}

impl<W: Write + Seek + Drop> BlockSink for CarInPlace<W> {
    fn leave_room(&mut self, cid_len: u64, block_len: u64) -> io::Result<Room> {
        let room = Room {
            offset: self.end(),
            len: section_len(cid_len.saturating_add(block_len)),
        };
        self.make_way(room.len)?;
        if room.len < BUFFER as u64 {
            let len = self.buffer.len().saturating_add(room.len as usize);
            self.buffer.resize(len, 0)?;
        } else {
            self.start = self.start.saturating_add(room.len);
        }
        Ok(room)
    }

    fn fill_room(&mut self, room: &Room, cid: &Cid, block: &[u8]) -> io::Result<()> {
        let mut section = mem::replace(&mut self.section, Vec::new(self.alloc));
        begin_section(&mut section, cid, block.len())?;
        section.extend_from_slice(block)?;
        if section.len() as u64 != room.len {
            return Err(io::Error::from(ErrorKind::InvalidData));
        }
        let behind = room.offset.saturating_add(room.len);
        if !self.is_new(cid)? && behind == self.end() {
            self.cut(room.offset);
        } else {
            self.replace(room.offset, &section)?;
        }
        self.section = section;
        Ok(())
    }

    fn put(&mut self, cid: &Cid, block: &[u8]) -> io::Result<()> {
        if !self.is_new(cid)? {
            return Ok(());
        }
        let mut section = mem::replace(&mut self.section, Vec::new(self.alloc));
        begin_section(&mut section, cid, block.len())?;
        self.append(&section)?;
        self.section = section;
        self.append(block)
    }
}
