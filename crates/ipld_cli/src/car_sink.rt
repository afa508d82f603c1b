//! A CAR that is being written, block by block.

ghost use Rattle.std.specs.Prelude.{◌≡◌, ◌+◌, ◌<◌, ◌^◌, [], ◌∷◌, ◌++◌, if◌then◌else◌, length, IfOk, OnOk};
ghost use Rattle.std.specs.Io.KnownBytes.{Keeps};
ghost use Rattle.ipld_cid.specs.LinkOf.{link_of};
ghost use Rattle.ipld_car.specs.Section.{content_of};
ghost use Rattle.car_files.specs.Written.{section_len};
ghost use Rattle.ipld_cli.specs.NewCar.{block_of, state_of, Puts};

use crate::checked_block::CheckedBlock;
use crate::new_car::{framed_len, too_large};
use crate::output::OutputError;
use ipld_car::{CarWriter, IndexEntry};
use std::alloc::{AllocError, Global};
use std::io::Write;

/// A CAR of version 1 that is being written, with the entries of its sections in an index.
#[derive(Drop)]
pub struct CarSink<W> {
    car: CarWriter<W>,
    // The offset at which the next section begins.
    end: u64,
    // The entries of the sections so far, if they are kept.
    has_index: bool,
    rows: Vec<IndexEntry>,
}

// Returns the number of bytes after the length in the block's section.
fn content_len(block: &CheckedBlock<'_>) -> u64
    ensures exact { result ≡ length (content_of (block_of block.now)) }
    ensures short { result + 10 < 2 ^ 64 }
{
    block.cid().encoded_len() as u64 + block.bytes().len() as u64
}

// Returns the number of bytes of the block's section.
fn section_len(block: &CheckedBlock<'_>) -> u64
    ensures { result ≡ section_len (block_of block.now) }
{
    framed_len(content_len(block))
}

// Appends the entry of a section, if entries are kept.
fn keep_entry(
    rows: &mut Vec<IndexEntry>,
    has_index: bool,
    entry: IndexEntry,
) -> Result<(), AllocError>
    ensures { OnOk result (rows.new.items
        ≡ (if has_index then rows.old.items ++ entry ∷ [] else rows.old.items)) }
{
    if !has_index {
        return Ok(());
    }
    match rows.push(entry) {
        Ok(()) => Ok(()),
        Err(_) => Err(AllocError),
    }
}

impl<W: Write> CarSink<W> {
    /// Creates the sink of a CAR whose header, of `begin` bytes, was written. It keeps the entries
    /// of sections if `has_index` is true.
    pub fn new(alloc: Global, car: CarWriter<W>, begin: u64, has_index: bool) -> CarSink<W>
        ensures begins { state_of W.contents result
            ≡ record { contents = W.contents car.writer; rows = []; end = begin } }
        ensures index { result.has_index ≡ has_index }
    {
        CarSink {
            car,
            end: begin,
            has_index,
            rows: Vec::new(alloc),
        }
    }

    /// Writes a block.
    ///
    /// # Errors
    ///
    /// `Memory` if an allocation fails, and `System` if the writer fails or the CAR would have 2^64
    /// bytes.
    #[tactic(auto, using(crate::proofs::NewCars::puts_block))]
    pub fn put(&mut self, block: &CheckedBlock<'_>) -> Result<(), OutputError>
        ensures put { OnOk result
            (Puts self.old.has_index block.now.is_unchecked (link_of block.now.cid.now ∷ [])
            (state_of W.contents self.old) (state_of W.contents self.new)) }
        ensures index { self.new.has_index ≡ self.old.has_index }
    {
        let (cid, bytes) = (block.cid(), block.bytes());
        let entry = IndexEntry {
            hash: *cid.hash(),
            offset: self.end,
        };
        keep_entry(&mut self.rows, self.has_index, entry)?;
        self.car.write_section(cid, bytes)?;
        match self.end.checked_add(section_len(block)) {
            Some(end) => self.end = end,
            None => return Err(too_large()),
        }
        Ok(())
    }

    /// Returns the offset of the end of the last section.
    pub fn end(&self) -> u64
        ensures { result ≡ self.now.end }
    {
        self.end
    }

    /// Flushes the writer. Returns it, and the entries of the sections.
    ///
    /// # Errors
    ///
    /// `System` if the writer fails.
    pub fn finish(self) -> Result<(W, Vec<IndexEntry>), OutputError>
    where
        W: Drop,
        ensures { IfOk result (λ made. Keeps (W.contents self.car.writer) (W.contents made.0)
            × (made.1.items ≡ self.rows.items)) }
    {
        let writer = self.car.finish()?;
        Ok((writer, self.rows))
    }
}
