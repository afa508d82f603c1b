//! A CAR that is to be written.

ghost use Rattle.std.specs.Prelude.{◌≡◌, ◌+◌, ◌<◌, ◌^◌, Bool, List, length, map, IfOk, OnOk};
ghost use Rattle.ipld_cid.specs.LinkOf.{link_of};
ghost use Rattle.ipld_cid.specs.Cid.{Link};
ghost use Rattle.ipld_cli.specs.NewCar.{IsHeaderLen, content_len, new_blocks, state_of, Puts, WritesNew, WritesNewIndexed, WritesPayload};
ghost use Rattle.ipld_cid.specs.Varint.{varint_of};

use crate::car_sink::CarSink;
use crate::output::{Content, OutputError};
use ipld_car::{CarHeader, CarIndex, CarWriter, HEADER_END, write_header};
use ipld_cid::{ByteBuffer, Cid};
use std::alloc::Global;
use std::io::{self, ErrorKind, Write};

/// A block that is to be written, without its bytes.
#[derive(Clone, Copy)]
pub struct NewBlock {
    /// The CID.
    pub cid: Cid,
    /// The number of bytes.
    pub len: u64,
}

/// Returns the size of `len` bytes with their length before them, which is the form of a header and
/// a section. Returns 2^64 - 1 if the size is more than that.
pub fn framed_len(len: u64) -> u64
    ensures exact { length (varint_of len) + len < 2 ^ 64 → result ≡ length (varint_of len) + len }
    ensures small { len + 10 < 2 ^ 64 → result ≡ length (varint_of len) + len }
{
    let mut varint = ByteBuffer::<10>::new();
    varint.push_varint(len);
    (varint.len() as u64).saturating_add(len)
}

impl NewBlock {
    /// Returns the number of bytes after the length in the block's section. Returns 2^64 - 1 if
    /// that is more.
    pub fn content_len(&self) -> u64
        ensures { content_len self.now < 2 ^ 64 → result ≡ content_len self.now }
    {
        (self.cid.encoded_len() as u64).saturating_add(self.len)
    }

    /// Returns the number of bytes of the block's section. Returns 2^64 - 1 if that is more.
    pub fn section_len(&self) -> u64
        ensures { content_len self.now + 10 < 2 ^ 64
            → result ≡ length (varint_of (content_len self.now)) + content_len self.now }
    {
        framed_len(self.content_len())
    }
}

/// Returns the number of bytes of the header of a CAR with these roots, including its length.
///
/// # Errors
///
/// `Memory` if an allocation fails.
pub fn header_len(alloc: Global, roots: &[Cid]) -> Result<u64, OutputError>
    ensures { IfOk result (IsHeaderLen (map link_of roots.now)) }
{
    let header = CarWriter::new(alloc, Vec::new(alloc), roots)?.finish()?;
    Ok(header.len() as u64)
}

/// Returns the error of a CAR of 2^64 bytes or more.
pub fn too_large() -> OutputError {
    OutputError::System(io::Error::from(ErrorKind::FileTooLarge))
}

/// The blocks of a new CAR.
pub trait BlockSource {
    // Whether blocks are written as they are, even if their digest is not that of the CID.
    ghost unchecked: { Self → Bool };

    // The CIDs of the blocks, in their order.
    ghost cids: { Self → List Link };

    /// Writes the blocks in their order, each once.
    fn write_blocks<W: Write>(&self, sink: &mut CarSink<W>) -> Result<(), OutputError>
        ensures put { OnOk result
            (Puts sink.old.has_index (unchecked self.now) (cids self.now)
            (state_of W.contents sink.old) (state_of W.contents sink.new)) };
}

/// A CAR that is to be written.
#[derive(Clone, Copy)]
pub struct NewCar<'a, B> {
    /// The allocator.
    pub alloc: Global,
    /// The roots.
    pub roots: &'a [Cid],
    /// The blocks.
    pub blocks: B,
    /// The number of bytes of their sections.
    pub size: u64,
    /// Whether the CAR is of version 2, with an index.
    pub has_index: bool,
    /// Whether each block has a digest.
    pub is_fully_indexed: bool,
}

impl<'a, B: BlockSource> NewCar<'a, B> {
    // Writes a CAR of version 1, up to the end of its last section. The offsets of the entries
    // count the header as `begin` bytes.
    #[tactic(auto, using(crate::proofs::NewCars::payload_written))]
    fn write_payload<W: Write + Drop>(
        &self,
        writer: W,
        begin: u64,
        has_index: bool,
    ) -> Result<CarSink<W>, OutputError>
        ensures { IfOk result (λ sink.
            WritesPayload has_index
            (new_blocks B.cids B.unchecked self.now) begin
            (W.contents writer) (map link_of self.now.roots.now)
            (state_of W.contents sink)) }
    {
        let car = CarWriter::new(self.alloc, writer, self.roots)?;
        let mut sink = CarSink::new(self.alloc, car, begin, has_index);
        self.blocks.write_blocks(&mut sink)?;
        if begin.checked_add(self.size) != Some(sink.end()) {
            return Err(OutputError::Changed);
        }
        Ok(sink)
    }

    // Writes a CAR of version 1.
    #[tactic(auto, using(crate::proofs::NewCars::car_written))]
    fn write_plain<W: Write + Drop>(&self, writer: W) -> Result<W, OutputError>
        ensures { IfOk result (λ to. WritesNew (new_blocks B.cids B.unchecked self.now)
            (W.contents writer) (W.contents to) (map link_of self.now.roots.now)) }
    {
        let (writer, _) = self.write_payload(writer, 0, false)?.finish()?;
        Ok(writer)
    }

    // Writes a CAR of version 2: the header, the payload, and an index of its sections. An empty
    // digest has no row in an index.
    #[tactic(auto, using(crate::proofs::NewCars::indexed_written))]
    fn write_indexed<W: Write + Drop>(&self, writer: W) -> Result<W, OutputError>
        ensures { IfOk result (λ to. WritesNewIndexed (new_blocks B.cids B.unchecked self.now)
            (W.contents writer) (W.contents to) (map link_of self.now.roots.now)) }
    {
        let begin = header_len(self.alloc, self.roots)?;
        let Some(size) = begin.checked_add(self.size) else {
            return Err(too_large());
        };
        let Some(index) = size.checked_add(HEADER_END as u64) else {
            return Err(too_large());
        };
        let header = CarHeader {
            is_fully_indexed: self.is_fully_indexed,
            payload: HEADER_END as u64,
            size,
            index,
        };
        let mut writer = writer;
        write_header(&header, &mut writer)?;
        let (mut written, rows) = self.write_payload(writer, begin, true)?.finish()?;
        let index = CarIndex::new(self.alloc, rows)?;
        index.write_to(&mut written)?;
        written.flush()?;
        Ok(written)
    }
}

impl<'a, B: BlockSource> Content for NewCar<'a, B> {
    fn write_to<W: Write + Drop>(&self, writer: W) -> Result<W, OutputError> {
        if self.has_index {
            self.write_indexed(writer)
        } else {
            self.write_plain(writer)
        }
    }
}
