//! The whole sections of a damaged CAR, and the ranges of bytes between them.

ghost use Rattle.std.specs.Prelude.{◌≡◌, ◌+◌, ◌-◌, ◌^◌, min, [], ◌∷◌, Some, None, IfOk, OnOk};
ghost use Rattle.ipld_cid.specs.LinkOf.{link_of};
ghost use Rattle.ipld_cli.specs.NewCar.{state_of, Puts};
ghost use Rattle.ipld_cli.specs.Salvage.{digested_in, found_cids, is_telling, offset_of, rest_of, BeginsAt, BeginsSection, IsBounded, IsLook, IsVerdict, KeepsPlace};
ghost use Rattle.ipld_cli.specs.declared.salvage.Run.{Run};

use crate::blocks::{PayloadPlace, bytes_of};
use crate::bytes::{Bytes, BytesAt};
use crate::car_sink::CarSink;
use crate::checked_block::CheckedBlock;
use crate::complaints::{report_car_error, report_unreadable};
use crate::input::BUFFER;
use crate::json_lines::write_line;
use crate::limits::MOST_SECTIONS;
use crate::messages::{NamedCid, OpeningExplanation, Outcome, SectionExplanation, beginning_of};
use crate::new_car::{BlockSource, NewCar};
use crate::output::OutputError;
use crate::summary::add_number;
use car_files::{CarFileError, is_truncated};
use indexmap::IndexMap;
use ipld_block::{BLAKE2B_256, SHA2_512, VerifyError, verify};
use ipld_car::{CarError, CarErrorKind, CarReader, section_at};
use ipld_cid::{Cid, SHA2_256};
use json::Writer;
use std::alloc::{AllocError, Global};
use std::fmt;
use std::hash::RandomState;
use std::io::{self, BufReader, Error, ErrorKind, Read, Write};

// The bytes that may be digested in vain up to an offset, for each byte up to there. A file can
// have what seems to be a long section at nearly each of its bytes.
const IN_VAIN: u64 = 4;

// The most bytes of the length of a section.
const LENGTH: u64 = 10;

// A part of a file, which moves forward.
#[derive(Drop)]
struct Window {
    // The bytes of the file from the offset `begin` on, and the place of the current one.
    bytes: Vec<u8>,
    begin: u64,
    at: usize,
    // Whether the file ends where these bytes do.
    is_end: bool,
}

impl Window {
    fn new(alloc: Global, offset: u64) -> Window
        ensures { offset_of result ≡ offset }
    {
        Window {
            bytes: Vec::new(alloc),
            begin: offset,
            at: 0,
            is_end: false,
        }
    }

    fn offset(&self) -> u64
        ensures { result ≡ offset_of self.now }
    {
        self.begin.saturating_add(self.at as u64)
    }

    // Returns the bytes from the current one on.
    fn rest(&self) -> &[u8]
        ensures { result.now ≡ rest_of self.now }
    {
        self.bytes.get(self.at..).unwrap_or(&[])
    }

    // Goes to an offset.
    fn seek(&mut self, offset: u64)
        ensures { offset_of self.new ≡ offset }
    {
        match offset.checked_sub(self.begin) {
            Some(at) if at <= self.bytes.len() as u64 => self.at = at as usize,
            _ => {
                self.bytes.clear();
                self.begin = offset;
                self.at = 0;
                self.is_end = false;
            }
        }
    }

    // Reads on if there are fewer than `need` bytes, and reads twice as many then.
    fn reach(&mut self, file: &Bytes, need: u64) -> io::Result<()>
        ensures { offset_of self.new ≡ offset_of self.old }
    {
        if self.is_end || self.rest().len() as u64 >= need {
            return Ok(());
        }
        self.begin = self.offset();
        self.at = 0;
        self.bytes.clear();
        let end = self.begin.saturating_add(need.saturating_mul(2));
        let mut reader = BytesAt::new(file, self.begin, end);
        let count = reader.read_to_end(&mut self.bytes)?;
        self.is_end = self.begin.saturating_add(count as u64) < end;
        Ok(())
    }
}

// The section that bytes begin with: its CID, its block and its size.
#[derive(Clone, Copy)]
struct Found<'a> {
    cid: Cid,
    block: &'a [u8],
    size: usize,
}

// The reason why bytes don't begin with a whole section.
#[derive(Drop)]
enum Fault {
    // They don't begin with a section, for this reason.
    Section(CarError),
    // The section is over the limit, or its end is not read yet.
    TooLong,
    // The block of this CID doesn't count, or has another digest.
    Block(Cid),
    // The block of this CID is not checked, since too many bytes were digested in vain.
    NotChecked(Cid),
}

// Finds the section that bytes begin with, which has at most `limit` bytes after its length.
#[tactic(auto, using(crate::proofs::Salvaged::section_found))]
fn find_section(bytes: &[u8], limit: u64) -> Result<Found<'_>, Fault>
    ensures { IfOk result (λ found. BeginsSection limit bytes.now
        (record { cid = link_of found.cid; bytes = found.block.now }) found.size) }
{
    let most = usize::try_from(limit.saturating_add(LENGTH)).unwrap_or(usize::MAX);
    let end = bytes.len().min(most);
    let span = match section_at(bytes, 0, 0, end) {
        Ok(Some(span)) => span,
        Ok(None) => return Err(Fault::TooLong),
        Err(error) if matches!(&error.kind, CarErrorKind::UnexpectedEnd) && end == most => {
            return Err(Fault::TooLong);
        }
        Err(error) => return Err(Fault::Section(error)),
    };
    if (span.end - span.cid) as u64 > limit {
        return Err(Fault::TooLong);
    }
    match Cid::split_front(&bytes[span.cid..span.end]) {
        Ok((cid, block)) => Ok(Found {
            cid,
            block,
            size: span.end,
        }),
        Err(_) => Err(Fault::TooLong),
    }
}

// Returns whether a block tells where a section is: its hash function is computed, and is not the
// identity, by which any bytes could have a section.
fn is_telling(cid: &Cid) -> bool
    ensures { result ≡ is_telling (link_of cid.now).code }
{
    let code = cid.hash().code();
    code == SHA2_256 || code == SHA2_512 || code == BLAKE2B_256
}

// What is known of a block.
#[derive(Clone, Copy)]
enum Verdict {
    // It has the digest of its CID.
    Right,
    // The hash function of its CID is not computed here.
    Unknown,
    // It has another digest, or it does not tell where its section is and was not in step.
    Wrong,
}

// Compares a block with its CID. Out of step, a block counts only if it tells where its section is.
fn judge(cid: &Cid, block: &[u8], is_in_step: bool) -> Verdict
    ensures { IsVerdict is_in_step (link_of cid.now) block.now result }
{
    let counts = is_in_step || is_telling(cid);
    if !counts {
        return Verdict::Wrong;
    }
    match verify(cid, block) {
        Ok(()) => Verdict::Right,
        Err(VerifyError::UnknownHash(_)) => Verdict::Unknown,
        Err(VerifyError::WrongDigest) => Verdict::Wrong,
    }
}

// A run of bytes that are not whole sections.
#[derive(Drop)]
struct Run {
    offset: u64,
    reason: String,
    // The offset of the first block in it that was not checked.
    not_checked: Option<u64>,
}

// What is at the current place of a search.
#[derive(Drop)]
enum Look {
    // A whole section: its CID, its size, and whether its digest was compared.
    Whole(Cid, usize, bool),
    // No whole section, for this reason. So many bytes were digested in vain.
    Fault(Fault, u64),
    // More bytes are needed to say.
    More,
}

/// A damaged CAR, and what is whole in it.
#[derive(Drop)]
pub struct Salvage {
    alloc: Global,
    bytes: Bytes,
    limit: u64,
    roots: Vec<Cid>,
    payload: PayloadPlace,
    // The number of bytes that are looked at for a section, and the bytes at the current place.
    need: u64,
    window: Window,
    // The run of bytes at the current place. If there is none, the sections are in step.
    run: Option<Run>,
    // The number of bytes that were digested in vain.
    in_vain: u64,
    // Whether something is damaged, and the number of bytes that are not whole sections.
    is_damaged: bool,
    left: u64,
    // The offset of the section of each block, in their order, and the size of these sections.
    offsets: IndexMap<Cid, u64, RandomState>,
    size: u64,
    // The number of these blocks whose hash function is not computed here.
    unknown: u64,
}

impl Salvage {
    /// Opens a damaged CAR, and reads its header if it can be read. Blocks are found by this
    /// hasher. Reports the error if the file can't be read.
    ///
    /// It holds all bytes only of standard input and pipes.
    pub fn open(
        rt: &HostRuntime,
        hasher: RandomState,
        file: &str,
        limit: u64,
    ) -> Result<Salvage, Outcome>
        ensures { IfOk result (IsBounded 0) }
    {
        let alloc = rt.alloc();
        let bytes = match bytes_of(rt, file) {
            Ok(bytes) => bytes,
            Err(error) => return Err(report_unreadable(rt, file, &error)),
        };
        let mut salvage = Salvage {
            alloc,
            bytes,
            limit,
            roots: Vec::new(alloc),
            payload: PayloadPlace {
                start: 0,
                end: None,
            },
            need: (BUFFER as u64).min(limit.saturating_add(LENGTH)),
            window: Window::new(alloc, 0),
            run: None,
            in_vain: 0,
            is_damaged: false,
            left: 0,
            offsets: IndexMap::with_hasher(alloc, hasher),
            size: 0,
            unknown: 0,
        };
        match salvage.read_header() {
            Ok(()) => Ok(salvage),
            Err(error) => Err(report_car_error(rt, file, &error)),
        }
    }

    // Reads the header, and goes to the first section. If it can't be read, begins a run there.
    fn read_header(&mut self) -> Result<(), CarFileError>
        ensures { self.new.in_vain ≡ self.old.in_vain }
    {
        let reader = BytesAt::new(&self.bytes, 0, u64::MAX);
        let mut reader = BufReader::with_capacity(self.alloc, BUFFER, reader)?;
        let beginning = beginning_of(self.alloc, &mut reader);
        let error = match CarReader::new(self.alloc, reader, self.limit) {
            Ok(car) => {
                self.roots = Vec::from_slice(self.alloc, car.roots())?;
                self.payload.start = car.start();
                self.payload.end = car.end();
                self.window.seek(car.offset());
                return Ok(());
            }
            Err(error) => error,
        };
        if matches!(&error.kind, CarErrorKind::Memory | CarErrorKind::Read(_)) {
            return Err(CarFileError::from(error));
        }
        let why = OpeningExplanation::new(self.alloc, &beginning, &error);
        self.run = Some(Run {
            offset: 0,
            reason: format!(in self.alloc; "{why}")?,
            not_checked: None,
        });
        Ok(())
    }

    /// Searches the file for whole sections. Writes each run of bytes that are not whole sections
    /// as a line or, if `is_json` is true, as an object of JSON on a line.
    ///
    /// A section is whole if it has at most `limit` bytes after its length, and its block has the
    /// digest of its CID. Right after the header or a whole section, one whose hash function is not
    /// computed here counts too. Anywhere else, its hash function must be computed, and not be the
    /// identity.
    ///
    /// It keeps the CID and the offset of each block, and reads at most two sections ahead. It
    /// digests each block that is whole, and at most 4 bytes more for each byte of the file and of
    /// the limit.
    ///
    /// # Errors
    ///
    /// - `Car` if the file can't be read.
    /// - `Write` if the writer fails.
    /// - `Memory` if an allocation fails.
    pub fn search<W: Write>(&mut self, is_json: bool, writer: &mut W) -> Result<(), CarFileError>
        ensures { IsBounded 0 self.old → IsBounded 0 self.new }
    {
        for _ in 0..MOST_SECTIONS {
            if !self.step(is_json, writer)? {
                // Writing the CAR takes as much memory again.
                self.window = Window::new(self.alloc, self.window.offset());
                return Ok(());
            }
        }
        Err(CarFileError::Memory)
    }

    // Looks at the current place, and goes on to the next. Returns whether there may be one.
    fn step<W: Write>(&mut self, is_json: bool, writer: &mut W) -> Result<bool, CarFileError>
        ensures bounded { IsBounded 0 self.old → IsBounded 0 self.new }
        ensures begins { self.old.run ≡ None → OnOk result (BeginsAt (offset_of self.old.window)
            self.new.run) }
        ensures goes_on { (run : Run) → self.old.run ≡ Some run
            → OnOk result (BeginsAt run.offset self.new.run) }
    {
        let at = self.window.offset();
        if let Err(error) = self.window.reach(&self.bytes, self.need) {
            return Err(read_error(error, at));
        }
        let is_in_step = self.run.is_none();
        if self.window.rest().is_empty() {
            self.check_payload(at)?;
            self.end_run(is_json, writer)?;
            return Ok(false);
        }
        // The index comes after the payload, unless the header has another size of that.
        let is_behind = is_in_step && self.payload.end == Some(at);
        match self.look(is_in_step && !is_behind) {
            Look::More => {
                let most = self.limit.saturating_add(LENGTH);
                self.need = self.need.saturating_mul(2).min(most);
            }
            Look::Whole(cid, size, is_known) => {
                self.end_run(is_json, writer)?;
                self.keep(cid, at, size as u64, is_known)?;
                self.window.seek(at.saturating_add(size as u64));
            }
            Look::Fault(_, _) if is_behind => return Ok(false),
            Look::Fault(fault, digested) => {
                self.pass(at, fault)?;
                self.in_vain = self.in_vain.saturating_add(digested);
                self.window.seek(at.saturating_add(1));
            }
        }
        Ok(true)
    }

    // Returns how many more bytes may be digested in vain at the current place.
    fn allowed(&self) -> u64
        ensures { IsBounded 0 self.now → IsBounded result self.now }
    {
        let passed = self.window.offset().saturating_add(self.limit);
        IN_VAIN.saturating_mul(passed).saturating_sub(self.in_vain)
    }

    // Looks at the current place. Out of step, only a block that tells where its section is counts.
    fn look(&self, is_in_step: bool) -> Look
        ensures bounded { IsBounded 0 self.now → IsBounded (digested_in result) self.now }
        ensures whole { IsLook is_in_step self.now.limit (rest_of self.now.window) result }
    {
        let Found { cid, block, size } = match find_section(self.window.rest(), self.limit) {
            Ok(found) => found,
            Err(Fault::Section(error)) => {
                let is_cut = matches!(&error.kind, CarErrorKind::UnexpectedEnd);
                return if is_cut && !self.window.is_end {
                    Look::More
                } else {
                    Look::Fault(Fault::Section(error), 0)
                };
            }
            Err(fault) => return Look::Fault(fault, 0),
        };
        let digested = if is_telling(&cid) {
            block.len() as u64
        } else {
            0
        };
        if digested > self.allowed() {
            return Look::Fault(Fault::NotChecked(cid), 0);
        }
        match judge(&cid, block, is_in_step) {
            Verdict::Right => Look::Whole(cid, size, true),
            Verdict::Unknown => Look::Whole(cid, size, false),
            Verdict::Wrong => Look::Fault(Fault::Block(cid), digested),
        }
    }

    // Begins a run at this byte if the file ends there, before the payload does.
    fn check_payload(&mut self, at: u64) -> Result<(), CarFileError>
        ensures { KeepsPlace self.old self.new }
    {
        let PayloadPlace { start, end } = self.payload;
        match end {
            Some(end) if end > at => {
                let kind = CarErrorKind::ShortPayload {
                    expected: end.saturating_sub(start),
                    found: at.saturating_sub(start),
                };
                let error = CarError {
                    kind,
                    section: 0,
                    offset: 0,
                };
                self.pass(at, Fault::Section(error))
            }
            _ => Ok(()),
        }
    }

    // Adds the byte at this offset, which is the current one, to a run.
    fn pass(&mut self, at: u64, fault: Fault) -> Result<(), CarFileError>
        ensures place { KeepsPlace self.old self.new }
        ensures begins { self.old.run ≡ None → OnOk result (BeginsAt at self.new.run) }
        ensures goes_on { (run : Run) → self.old.run ≡ Some run
            → OnOk result (BeginsAt run.offset self.new.run) }
    {
        let not_checked = if matches!(&fault, Fault::NotChecked(_)) {
            Some(at)
        } else {
            None
        };
        match &mut self.run {
            Some(run) => run.not_checked = run.not_checked.or(not_checked),
            None => {
                self.run = Some(Run {
                    offset: at,
                    reason: reason_of(self.alloc, at, fault)?,
                    not_checked,
                });
            }
        }
        Ok(())
    }

    // Writes the run that ends at the current place, if there is one.
    fn end_run<W: Write>(&mut self, is_json: bool, writer: &mut W) -> Result<(), CarFileError>
        ensures place { KeepsPlace self.old self.new }
        ensures ends { self.new.run ≡ None }
        ensures none { self.old.run ≡ None → self.new.left ≡ self.old.left }
        ensures counts { (run : Run) → self.old.run ≡ Some run → self.new.left
            ≡ min (2 ^ 64 - 1) (self.old.left + (offset_of self.old.window - run.offset)) }
    {
        let Some(run) = self.run.take() else {
            return Ok(());
        };
        let size = self.window.offset().saturating_sub(run.offset);
        self.is_damaged = true;
        self.left = self.left.saturating_add(size);
        if is_json {
            write_object(self.alloc, &run, size, writer)?;
        } else {
            write_text(&run, size, writer)?;
        }
        Ok(())
    }

    // Keeps a section if no earlier one has its CID.
    fn keep(&mut self, cid: Cid, offset: u64, size: u64, is_known: bool) -> Result<(), AllocError>
        ensures place { KeepsPlace self.old self.new }
        ensures run { self.new.run ≡ self.old.run }
    {
        if self.offsets.contains_key(&cid) {
            return Ok(());
        }
        if self.offsets.insert(cid, offset).is_err() {
            return Err(AllocError);
        }
        self.size = self.size.saturating_add(size);
        if !is_known {
            self.unknown = self.unknown.saturating_add(1);
        }
        Ok(())
    }

    /// Returns whether each byte is in the header or a whole section, and each digest was compared.
    pub fn is_whole(&self) -> bool {
        !self.is_damaged && self.unknown == 0
    }

    /// Replaces the roots, which are those in the header, or none if it can't be read.
    pub fn set_roots(&mut self, roots: Vec<Cid>) {
        self.roots = roots;
    }

    /// Returns the CAR of the blocks, each once, with the roots.
    pub fn car<'b>(&'b self) -> NewCar<'b, SalvagedBlocks<'b>> {
        NewCar {
            alloc: self.alloc,
            roots: &self.roots,
            blocks: SalvagedBlocks {
                salvage: self,
                has_unknown: self.unknown > 0,
            },
            size: self.size,
            has_index: false,
            is_fully_indexed: false,
        }
    }

    /// Writes the number of blocks, that of those whose digest was not compared, and the number of
    /// bytes that no whole section has. This is a line or an object of JSON.
    pub fn write_counts<W: Write>(&self, is_json: bool, writer: &mut W) -> io::Result<()> {
        let (blocks, unknown, left) = (self.offsets.len() as u64, self.unknown, self.left);
        if !is_json {
            return writeln!(
                writer,
                "blocks written: {blocks} (unverified: {unknown}), bytes left: {left}"
            );
        }
        let mut object = Writer::new(Vec::new(self.alloc));
        object.begin_object()?;
        add_number(&mut object, "blocks", blocks)?;
        add_number(&mut object, "unverified", unknown)?;
        add_number(&mut object, "left", left)?;
        write_line(object, writer)?;
        Ok(())
    }
}

// Returns the error of a file that can't be read at this byte.
fn read_error(error: Error, offset: u64) -> CarFileError {
    match error.kind() {
        ErrorKind::OutOfMemory => CarFileError::Memory,
        _ => CarFileError::Car(CarError {
            kind: CarErrorKind::Read(error),
            section: offset,
            offset,
        }),
    }
}

// Returns the sentence about a fault at this byte.
fn reason_of(alloc: Global, at: u64, fault: Fault) -> Result<String, AllocError> {
    match fault {
        Fault::Section(error) => {
            let error = CarError {
                kind: error.kind,
                section: at.saturating_add(error.section),
                offset: at.saturating_add(error.offset),
            };
            format!(in alloc; "{}", SectionExplanation(&error))
        }
        Fault::TooLong => {
            format!(in alloc; "the section is over the limit (raise it with --limit)")
        }
        Fault::Block(cid) => {
            let named = NamedCid::new(alloc, &cid);
            if is_truncated(&cid) {
                format!(in alloc; "the digest in {named} is truncated, which is not supported")
            } else {
                format!(in alloc; "the block of {named} has another digest")
            }
        }
        Fault::NotChecked(cid) => {
            let named = NamedCid::new(alloc, &cid);
            format!(in alloc; "the block of {named} was not checked")
        }
    }
}

// Writes a line about a run of so many bytes.
fn write_text<W: Write>(run: &Run, size: u64, writer: &mut W) -> io::Result<()> {
    let (at, reason) = (run.offset, &run.reason);
    if size == 0 {
        write!(writer, "byte {at}: {reason}")?;
    } else {
        let last = at.saturating_add(size).saturating_sub(1);
        write!(writer, "bytes {at} to {last}: {reason}")?;
    }
    match run.not_checked {
        Some(offset) => writeln!(
            writer,
            "; the search gave up some blocks from byte {offset} on"
        ),
        None => writeln!(writer, ""),
    }
}

// Writes the same as an object of JSON on a line.
fn write_object<W: Write>(alloc: Global, run: &Run, size: u64, writer: &mut W) -> io::Result<()> {
    let mut object = Writer::new(Vec::new(alloc));
    object.begin_object()?;
    add_number(&mut object, "offset", run.offset)?;
    add_number(&mut object, "size", size)?;
    object.key("message")?;
    object.string(&run.reason)?;
    if let Some(offset) = run.not_checked {
        add_number(&mut object, "gave_up", offset)?;
    }
    write_line(object, writer)?;
    Ok(())
}

/// The blocks of the whole sections of a damaged CAR, in their order.
#[derive(Clone, Copy)]
pub struct SalvagedBlocks<'a> {
    salvage: &'a Salvage,
    // Whether there may be blocks whose hash function is not computed here.
    has_unknown: bool,
}

impl<'a> BlockSource for SalvagedBlocks<'a> {
    ghost unchecked = { λ blocks. blocks.has_unknown };

    ghost cids = { λ blocks. found_cids blocks.salvage.now };

    #[tactic(auto, using(crate::proofs::Salvaged::puts_first, crate::proofs::Salvaged::puts_next, crate::proofs::Salvaged::puts_last))]
    fn write_blocks<W: Write>(&self, sink: &mut CarSink<W>) -> Result<(), OutputError> {
        let salvage = self.salvage;
        let mut window = Window::new(salvage.alloc, 0);
        for (cid, offset) in salvage.offsets.iter() {
            window.seek(*offset);
            window.reach(&salvage.bytes, salvage.need)?;
            self.write_section(cid, window.rest(), sink)?;
        }
        Ok(())
    }
}

impl<'a> SalvagedBlocks<'a> {
    // Writes the block of this CID, with whose section the bytes begin.
    #[tactic(auto, using(crate::proofs::NewCars::puts_anyway))]
    fn write_section<W: Write>(
        &self,
        cid: &Cid,
        bytes: &[u8],
        sink: &mut CarSink<W>,
    ) -> Result<(), OutputError>
        ensures put { OnOk result
            (Puts sink.old.has_index self.now.has_unknown (link_of cid.now ∷ [])
            (state_of W.contents sink.old) (state_of W.contents sink.new)) }
        ensures index { sink.new.has_index ≡ sink.old.has_index }
    {
        let found = match find_section(bytes, self.salvage.limit) {
            Ok(found) if found.cid == *cid => found,
            _ => return Err(OutputError::Changed),
        };
        let is_unknown = matches!(verify(cid, found.block), Err(VerifyError::UnknownHash(_)));
        if is_unknown && self.has_unknown {
            put_block(cid, found.block, true, sink)
        } else {
            put_block(cid, found.block, false, sink)
        }
    }
}

// Writes a block, if it has the digest of its CID or `is_unchecked` is true.
fn put_block<W: Write>(
    cid: &Cid,
    block: &[u8],
    is_unchecked: bool,
    sink: &mut CarSink<W>,
) -> Result<(), OutputError>
    ensures put { OnOk result
        (Puts sink.old.has_index is_unchecked (link_of cid.now ∷ [])
        (state_of W.contents sink.old) (state_of W.contents sink.new)) }
    ensures index { sink.new.has_index ≡ sink.old.has_index }
{
    match CheckedBlock::new(cid, block, is_unchecked) {
        Ok(block) => sink.put(&block),
        Err(_) => Err(OutputError::Changed),
    }
}
