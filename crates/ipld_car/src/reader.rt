//! Reading a CAR.

ghost use Rattle.std.specs.Prelude.{◌≡◌, ◌≤◌};

use crate::error::CarError;
use crate::opening::read_opening;
use crate::padding::is_next_zero;
use crate::payload::within_payload;
use crate::read_section::{read_section_at, section_error};
use crate::section::Section;
use crate::version::CarVersion;
use ipld_cid::Cid;
use std::alloc::Global;
use std::io::BufRead;

/// A limit for [`CarReader::new`] that is enough for usual CARs: 8 MiB. Blocks rarely have more
/// than 2 MiB.
pub const DEFAULT_LIMIT: u64 = 8 << 20;

/// A reader of a CAR of version 1 or 2 (CARv1, CARv2), section by section.
#[derive(Drop)]
pub struct CarReader<R> {
    reader: R,
    roots: Vec<Cid>,
    version: CarVersion,
    limit: u64,
    // The offset of the payload. In version 1 the file is the payload.
    start: u64,
    offset: u64,
    end: u64,
    // Whether zeros may follow the last section.
    zero_padding: bool,
    ghost behind_start: { start ≤ offset },
    ghost in_range: { offset ≤ end },
}

impl<R: BufRead> CarReader<R> {
    ghost use Rattle.std.specs.Prelude.{◌+◌, ◌-◌, ◌<◌, ◌^◌, ◌++◌, [], ◌∷◌, List, ℕ, Some, true, false, length, map, min, IfOk, MatchResult};
    ghost use Rattle.std.specs.Io.KnownBytes.{Consumes};
    ghost use Rattle.ipld_cid.specs.Cid.{Link};
    ghost use Rattle.ipld_cid.specs.LinkOf.{link_of};
    ghost use Rattle.ipld_car.specs.Opening.{IsFront};
    ghost use Rattle.ipld_car.specs.Padding.{IsPadded};
    ghost use Rattle.ipld_car.specs.Reading.{ReadsSection, EndsOf, Leaves, UnlessReaderFails};
    ghost use Rattle.ipld_car.specs.Section.{Block, IsSection, content_of};
    ghost use Rattle.ipld_car.specs.SectionOf.{taken_of, block_of};
    ghost use Rattle.ipld_car.specs.Position.{Moves, IsOpened, FaultOf, HasOpened, end_from, stated_end, version_ending};

    /// Reads the part before the sections, and nothing more. In version 1 that is the header. In
    /// version 2 it is the pragma, the header and the header of the payload. A header or a section
    /// may have at most `limit` bytes after its length.
    ///
    /// It allocates for the header as its bytes arrive, and for its roots.
    ///
    /// # Errors
    ///
    /// The first error in the order of the bytes. [`CarErrorKind`](crate::CarErrorKind) lists when
    /// every kind occurs. Here the kind is never `Cid`, and it is `UnexpectedEnd` also if the file
    /// is empty. The reader is dropped.
    pub fn new(alloc: Global, reader: R, limit: u64) -> Result<CarReader<R>, CarError>
    where
        R: Drop,
        ensures opens { MatchResult result
            (λ car. IsOpened limit (R.remaining reader) (R.remaining car.reader) car)
            (FaultOf limit (R.remaining reader)) }
        ensures only { (version : CarVersion) (bytes rest : List ℕ)
            (roots : List Link) (start end : ℕ)
            → R.remaining reader ≡ Some (bytes ++ rest)
            → IsFront limit version bytes roots start end
            → length bytes ≤ end → end < 2 ^ 64
            → UnlessReaderFails result (λ car.
            HasOpened car version roots start (length bytes) end) }
        ensures strict { IfOk result (λ car. car.zero_padding ≡ false) }
    {
        let mut reader = reader;
        match read_opening(alloc, &mut reader, limit) {
            Ok(opening) => Ok(CarReader {
                reader,
                roots: opening.roots,
                version: opening.version,
                limit,
                start: opening.start,
                offset: opening.offset,
                end: opening.end,
                zero_padding: false,
            }),
            Err(error) => Err(error),
        }
    }

    /// Creates a reader that begins at a section, without the part before the sections. `reader`
    /// has the bytes of the file from `offset` on, where a section begins or the sections end. The
    /// payload begins at `start`, and its header places its end at `end`. Without `end`, the
    /// sections end with the file, as in version 1. A section may have at most `limit` bytes after
    /// its length.
    ///
    /// The reader has no roots. If `start` is after `offset`, or `end` before it, the payload begins
    /// or ends at `offset`. Does not allocate.
    pub fn at_section(
        alloc: Global,
        reader: R,
        limit: u64,
        start: u64,
        end: Option<u64>,
        offset: u64,
    ) -> CarReader<R>
        ensures opens { HasOpened result
            (version_ending end) [] (min start offset) offset (end_from offset end) }
        ensures reads { (result.reader ≡ reader) × (result.limit ≡ limit) }
        ensures strict { result.zero_padding ≡ false }
    {
        let (version, end) = match end {
            None => (CarVersion::V1, u64::MAX),
            Some(end) => (CarVersion::V2, end.max(offset)),
        };
        CarReader {
            reader,
            roots: Vec::new(alloc),
            version,
            limit,
            start: start.min(offset),
            offset,
            end,
            zero_padding: false,
        }
    }

    /// Returns the version.
    pub fn version(&self) -> CarVersion
        ensures { result ≡ self.now.version }
    {
        self.version
    }

    /// Returns the roots, in the order of the header.
    pub fn roots(&self) -> &[Cid]
        ensures { result.now ≡ self.now.roots.items }
    {
        &self.roots
    }

    /// Returns the offset in the file at which the payload begins. In version 1 it is 0, since the
    /// file is the payload.
    ///
    /// The first section begins after the payload's header, at the [`offset`](CarReader::offset) of
    /// a new reader.
    pub fn start(&self) -> u64
        ensures { result ≡ self.now.start }
    {
        self.start
    }

    /// Returns the offset in the file at which the sections end, or `None` for version 1, whose
    /// sections end with the file. In version 2 it is the end of the payload by the header, even if
    /// the file ends before that.
    pub fn end(&self) -> Option<u64>
        ensures { result ≡ stated_end self.now.version self.now.end }
    {
        match self.version {
            CarVersion::V1 => None,
            CarVersion::V2 => Some(self.end),
        }
    }

    /// Returns the offset in the file at which the next section begins, which is the number of
    /// bytes that were read.
    pub fn offset(&self) -> u64
        ensures { result ≡ self.now.offset }
    {
        self.offset
    }

    /// Allows zeros after the last section, as in files that are padded to a certain size. The
    /// sections then end before a section whose length is 0, which is an error otherwise. The zeros
    /// are left in the reader, and bytes after them are not looked at.
    pub fn allow_zero_padding(&mut self)
        ensures allowed { self.new.zero_padding ≡ true }
        ensures kept { HasOpened self.new self.old.version (map link_of self.old.roots.items)
            self.old.start self.old.offset self.old.end }
        ensures reads { (self.new.reader ≡ self.old.reader) × (self.new.limit ≡ self.old.limit) }
    {
        self.zero_padding = true;
    }

    /// Returns the reader of the file, which has the bytes from [`offset`](CarReader::offset) on.
    pub fn into_inner(self) -> R
        ensures { result ≡ self.reader }
    {
        self.reader
    }

    // Reads the next section, in which zeros are not allowed.
    fn read_unpadded(&mut self, section: &mut Section) -> Result<bool, CarError>
        ensures consumed { Consumes (R.remaining self.old.reader) (R.remaining self.new.reader)
            (taken_of section.new) }
        ensures moves { Moves self.old self.new (length (taken_of section.new)) }
        ensures read { ReadsSection false
            (record {
              limit = self.old.limit;
              begin = self.old.offset;
              end = self.old.end;
              before = R.remaining self.old.reader;
              after = R.remaining self.new.reader;
              taken = taken_of section.new;
            })
            (block_of section.new) result }
        ensures ends { EndsOf self.old.version (self.old.end - self.old.start)
            (self.new.offset - self.old.start)
            (IsPadded false (R.remaining self.old.reader) (R.remaining self.new.reader)) result }
        ensures left { Leaves (block_of section.old) (block_of section.new) result }
        ensures only { (block : Block) (bytes rest : List ℕ)
            → R.remaining self.old.reader ≡ Some (bytes ++ rest)
            → IsSection bytes block
            → length (content_of block) ≤ self.old.limit
            → length bytes ≤ self.old.end - self.old.offset
            → UnlessReaderFails result (λ has. (has ≡ true) × (block_of section.new ≡ block)) }
    {
        let begin = self.offset;
        let read = read_section_at(&mut self.reader, section, self.limit, begin, self.end);
        self.offset += section.taken() as u64;
        match self.version {
            CarVersion::V1 => read,
            CarVersion::V2 => within_payload(
                read,
                self.end - self.start,
                self.offset - self.start,
                self.offset,
            ),
        }
    }

    /// Reads the next section into `section`, whose old contents it replaces. Returns whether there
    /// was one.
    ///
    /// In version 1 the sections end with the file. In version 2 they end with the payload, whose
    /// end its header states. They also end before zeros, if
    /// [`allow_zero_padding`](CarReader::allow_zero_padding) was called. After the last section,
    /// `section` has an empty block, and keeps its CID.
    ///
    /// It takes the bytes of the section and no more. It allocates only if the section is longer
    /// than every section that was read into `section` before, and then while the bytes arrive.
    ///
    /// # Errors
    ///
    /// Those of a section in [`CarErrorKind`](crate::CarErrorKind), with the offset of the section
    /// and the offset of the error. The bytes up to and including the invalid part were then taken,
    /// and none after it. If the CID is invalid, the whole section was taken. `section` then has an
    /// empty block, and keeps its CID.
    pub fn read_section(&mut self, section: &mut Section) -> Result<bool, CarError>
        ensures consumed { Consumes (R.remaining self.old.reader) (R.remaining self.new.reader)
            (taken_of section.new) }
        ensures moves { Moves self.old self.new (length (taken_of section.new)) }
        ensures read { ReadsSection self.old.zero_padding
            (record {
              limit = self.old.limit;
              begin = self.old.offset;
              end = self.old.end;
              before = R.remaining self.old.reader;
              after = R.remaining self.new.reader;
              taken = taken_of section.new;
            })
            (block_of section.new) result }
        ensures ends { EndsOf self.old.version (self.old.end - self.old.start)
            (self.new.offset - self.old.start)
            (IsPadded self.old.zero_padding (R.remaining self.old.reader)
            (R.remaining self.new.reader)) result }
        ensures left { Leaves (block_of section.old) (block_of section.new) result }
        ensures only { (block : Block) (bytes rest : List ℕ)
            → R.remaining self.old.reader ≡ Some (bytes ++ rest)
            → IsSection bytes block
            → length (content_of block) ≤ self.old.limit
            → length bytes ≤ self.old.end - self.old.offset
            → UnlessReaderFails result (λ has. (has ≡ true) × (block_of section.new ≡ block)) }
        ensures padded { (rest : List ℕ)
            → R.remaining self.old.reader ≡ Some (0 ∷ rest)
            → self.old.zero_padding ≡ true
            → self.old.offset < self.old.end
            → UnlessReaderFails result (λ has. has ≡ false) }
    {
        if self.zero_padding && self.offset < self.end {
            match is_next_zero(&mut self.reader) {
                Ok(false) => {}
                Ok(true) => {
                    section.clear();
                    return Ok(false);
                }
                Err(kind) => {
                    section.clear();
                    return Err(section_error(kind, self.offset, 0));
                }
            }
        }
        self.read_unpadded(section)
    }
}
