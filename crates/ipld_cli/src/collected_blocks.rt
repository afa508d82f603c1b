//! The blocks of files and of CARs, gathered for a CAR. They are read twice: to check them and to
//! find their links, and to write them.

ghost use Rattle.std.specs.Prelude.{◌≡◌, ◌≤◌, OnOk, option_map, option_to_list};
ghost use Rattle.ipld_cid.specs.LinkOf.{link_of};
ghost use Rattle.ipld_cli.specs.NewCar.{kept_cid, kept_cids, state_of, Puts};

use crate::blocks::{PayloadPlace, bytes_of, sections_at};
use crate::bytes::Bytes;
use crate::car_options::CarOptions;
use crate::car_sink::CarSink;
use crate::checked_block::CheckedBlock;
use crate::complaints::{
    report, report_car_error, report_invalid_block, report_out_of_memory, report_unreadable,
};
use crate::files::{is_file, read_file};
use crate::input::{open_car, open_car_bytes, shows_progress};
use crate::limits::MOST_SECTIONS;
use crate::messages::{DigestExplanation, NamedCid, Outcome};
use crate::new_car::{BlockSource, NewBlock};
use crate::output::OutputError;
use crate::spool::spooled;
use car_files::CarFileError;
use indexmap::IndexMap;
use ipld_block::{BlockCodec, CheckError, InvalidBlock, VerifyError, cid_of, links_of};
use ipld_car::{CarError, CarErrorKind, CarReader, Section};
use ipld_cid::{Cid, IDENTITY};
use std::alloc::{AllocError, Global};
use std::fmt;
use std::hash::RandomState;
use std::io::{BufRead, Write};

/// An input of a new CAR.
#[derive(Clone, Copy)]
pub enum Source<'a> {
    /// A file that is a block of the codec that its argument names.
    Block(BlockCodec, &'a str),
    /// A file that is a block of this codec, which its argument doesn't name.
    Unnamed(BlockCodec, &'a str),
    /// A file that is a CAR.
    Car(&'a str),
}

impl<'a> Source<'a> {
    /// Returns the input that an argument names: `CODEC:FILE`, `car:FILE`, or a file without a
    /// prefix, which is a block of `codec`.
    pub fn named(name: &'a str, codec: BlockCodec) -> Source<'a> {
        match name.split_once(":") {
            Some(("car", file)) => Source::Car(file),
            Some((front, file)) => match BlockCodec::from_name(front) {
                Some(codec) => Source::Block(codec, file),
                None => Source::Unnamed(codec, name),
            },
            None => Source::Unnamed(codec, name),
        }
    }

    /// Returns the name of the file.
    pub fn file(&self) -> &'a str {
        match *self {
            Source::Block(_, file) | Source::Unnamed(_, file) => file,
            Source::Car(file) => file,
        }
    }

    /// Returns the codec of the file's block, or `None` if it is a CAR.
    pub fn codec(&self) -> Option<BlockCodec> {
        match *self {
            Source::Block(codec, _) | Source::Unnamed(codec, _) => Some(codec),
            Source::Car(_) => None,
        }
    }

    /// Returns whether the argument names neither a codec nor a CAR.
    pub fn is_unnamed(&self) -> bool {
        matches!(self, Source::Unnamed(_, _))
    }
}

/// The options for blocks that are collected.
#[derive(Clone, Copy, Debug, PartialEq, Eq)]
pub struct CollectOptions {
    /// The options for reading CARs. Their limit on sections is also one on the blocks of files.
    pub car: CarOptions,
    /// Whether the blocks of CARs are taken as they are.
    pub is_unchecked: bool,
    /// Whether the CIDs of files of DAG-PB are of version 0.
    pub is_v0: bool,
}

// An input that was read.
#[derive(Drop)]
struct Input<'a> {
    source: Source<'a>,
    // The bytes of an input that can be read only once.
    bytes: Option<Bytes>,
    // The place of the payload of a CAR.
    payload: Option<PayloadPlace>,
    // The numbers of its blocks.
    begin: usize,
    end: usize,
}

// The place of a block.
#[derive(Clone, Copy)]
struct Place {
    // The place of its CID among those that are known.
    known: usize,
    // The offset of its section in a CAR.
    offset: u64,
    // The number of its bytes.
    len: u64,
    // The end of its links among all links, if links are kept.
    links_end: usize,
}

// What is known of a CID.
#[derive(Clone, Copy)]
struct Known {
    // The number of its block, if there is one.
    block: Option<usize>,
    // Whether another block links to it.
    is_linked: bool,
    // Whether it is reached from the blocks that are kept.
    is_reached: bool,
}

/// The blocks of a new CAR, each once, in the order of their arrival.
///
/// It has the CID and the place of each block, and the CID of each link without a block. It has the
/// bytes only of blocks from standard input and pipes.
#[derive(Drop)]
pub struct CollectedBlocks<'a> {
    rt: &'a HostRuntime,
    options: CollectOptions,
    inputs: Vec<Input<'a>>,
    known: IndexMap<Cid, Known, RandomState>,
    blocks: Vec<Place>,
    // The links of the blocks, by their places in `known`, if only some blocks are to be kept.
    links: Option<Vec<usize>>,
    // Whether only the blocks that are reached are kept.
    is_reduced: bool,
    // The roots of CARs and the blocks of files, in the order of their arrival, and for each
    // whether it is a root of a CAR.
    starts: IndexMap<Cid, bool, RandomState>,
}

// The reason why a block is not taken.
enum RejectedBlock {
    Memory,
    // A block is invalid for its codec: this one, or one in a CID that it leads to.
    Block(Cid, InvalidBlock),
    Digest(VerifyError),
}

impl From<AllocError> for RejectedBlock {
    fn from(_error: AllocError) -> Self {
        RejectedBlock::Memory
    }
}

impl<'a> CollectedBlocks<'a> {
    /// Creates an empty collection, which finds blocks by this hasher. If `keeps_links` is true,
    /// the blocks can be reduced to those that are reached from some.
    pub fn new(
        rt: &'a HostRuntime,
        hasher: RandomState,
        options: CollectOptions,
        keeps_links: bool,
    ) -> CollectedBlocks<'a> {
        CollectedBlocks {
            rt,
            options,
            inputs: Vec::new(rt.alloc()),
            known: IndexMap::with_hasher(rt.alloc(), hasher),
            blocks: Vec::new(rt.alloc()),
            links: if keeps_links {
                Some(Vec::new(rt.alloc()))
            } else {
                None
            },
            is_reduced: false,
            starts: IndexMap::with_hasher(rt.alloc(), hasher),
        }
    }

    /// Adds the block or the blocks of an input. Reports the error if it can't.
    pub fn add(&mut self, source: Source<'a>) -> Result<(), Outcome> {
        let begin = self.blocks.len();
        let (bytes, payload) = match source {
            Source::Block(codec, file) | Source::Unnamed(codec, file) => {
                (self.add_file(codec, file)?, None)
            }
            Source::Car(file) => {
                let (bytes, payload) = self.add_car_file(file)?;
                (bytes, Some(payload))
            }
        };
        let input = Input {
            source,
            bytes,
            payload,
            begin,
            end: self.blocks.len(),
        };
        match self.inputs.push(input) {
            Ok(()) => Ok(()),
            Err(_) => Err(report_out_of_memory(self.rt, source.file())),
        }
    }

    /// Returns the roots of the CARs, and the blocks of files that no other block links to, in the
    /// order of the inputs. If there are no such roots, returns all blocks that no other block
    /// links to.
    pub fn roots(&self) -> Result<Vec<Cid>, AllocError> {
        let mut roots = Vec::new(self.rt.alloc());
        for (cid, is_root) in self.starts.iter() {
            if *is_root || !self.is_linked(cid) {
                roots.push(*cid)?;
            }
        }
        if roots.is_empty() {
            self.unlinked()
        } else {
            Ok(roots)
        }
    }

    fn is_linked(&self, cid: &Cid) -> bool {
        match self.known.get(cid) {
            Some(known) => known.is_linked,
            None => false,
        }
    }

    // Returns the CIDs of the blocks that no other block links to.
    fn unlinked(&self) -> Result<Vec<Cid>, AllocError> {
        let mut roots = Vec::new(self.rt.alloc());
        for place in self.blocks.iter() {
            if let Some((cid, known)) = self.known.get_index(place.known) {
                if !known.is_linked {
                    roots.push(*cid)?;
                }
            }
        }
        Ok(roots)
    }

    /// Returns whether there is a block of this CID that is kept.
    pub fn has(&self, cid: &Cid) -> bool {
        match self.known.get(cid) {
            Some(known) => known.block.is_some() && (known.is_reached || !self.is_reduced),
            None => false,
        }
    }

    /// Returns the number of blocks, including those that are not kept.
    pub fn len(&self) -> usize {
        self.blocks.len()
    }

    /// Returns the block of this number, if there is one and it is kept.
    pub fn block(&self, number: usize) -> Option<NewBlock>
        ensures { option_map (λ block. link_of block.cid) result ≡ kept_cid self.now number }
    {
        let place = self.blocks.get(number)?;
        let (cid, known) = self.known.get_index(place.known)?;
        if self.is_reduced && !known.is_reached {
            return None;
        }
        Some(NewBlock {
            cid: *cid,
            len: place.len,
        })
    }

    /// Keeps only the blocks that can be reached from these.
    pub fn reduce(&mut self, from: &[Cid]) -> Result<(), AllocError> {
        let mut pending = Vec::new(self.rt.alloc());
        for cid in from {
            if let Some(place) = self.known.get_index_of(cid) {
                pending.push(place)?;
            }
        }
        for _ in 0..MOST_SECTIONS {
            let Some(place) = pending.pop() else {
                self.is_reduced = true;
                return Ok(());
            };
            let Some(number) = self.reach(place) else {
                continue;
            };
            pending.extend_from_slice(self.links_of(number))?;
        }
        Err(AllocError)
    }

    // Marks a CID as reached, and returns the number of its block if it has one and was not reached
    // before.
    fn reach(&mut self, place: usize) -> Option<usize> {
        let known = self.known.get_index_mut(place)?;
        if known.is_reached {
            return None;
        }
        known.is_reached = true;
        known.block
    }

    // Returns the links of the block of this number.
    fn links_of(&self, number: usize) -> &[usize] {
        let Some(links) = &self.links else {
            return &[];
        };
        let end_of = |number: usize| match self.blocks.get(number) {
            Some(place) => place.links_end,
            None => 0,
        };
        let begin = match number.checked_sub(1) {
            Some(previous) => end_of(previous),
            None => 0,
        };
        links.get(begin..end_of(number)).unwrap_or(&[])
    }

    // Returns the CID of a file's block.
    fn cid_of(&self, codec: BlockCodec, bytes: &[u8]) -> Cid {
        let cid = cid_of(codec.code(), bytes);
        if self.options.is_v0 && codec == BlockCodec::DagPb {
            Cid::new_v0(*cid.hash()).unwrap_or(cid)
        } else {
            cid
        }
    }

    // Adds the block of a file. Returns its bytes if the file can be read only once.
    fn add_file(&mut self, codec: BlockCodec, file: &str) -> Result<Option<Bytes>, Outcome> {
        let rt = self.rt;
        let bytes = match read_file(rt, file) {
            Ok(bytes) => bytes,
            Err(error) => return Err(report_unreadable(rt, file, &error)),
        };
        let cid = self.cid_of(codec, &bytes);
        let block = NewBlock {
            cid,
            len: bytes.len() as u64,
        };
        if block.content_len() > self.options.car.limit {
            return Err(report_too_long(rt, file, block.content_len()));
        }
        match self.add_block(&cid, &bytes, 0, false) {
            Ok(()) => {}
            Err(RejectedBlock::Block(at_fault, why)) if at_fault == cid => {
                return Err(report_invalid_block(rt, file, codec, &bytes, why));
            }
            Err(refused) => return Err(report_rejected(rt, file, &cid, None, refused)),
        }
        if !self.starts.contains_key(&cid) && self.starts.insert(cid, false).is_err() {
            return Err(report_out_of_memory(rt, file));
        }
        if file == "-" || !is_file(rt, file) {
            Ok(Some(Bytes::Memory(bytes)))
        } else {
            Ok(None)
        }
    }

    // Adds the blocks of a CAR. Returns its bytes if the file can be read only once, and the place
    // of its payload.
    fn add_car_file(&mut self, file: &'a str) -> Result<(Option<Bytes>, PayloadPlace), Outcome> {
        let rt = self.rt;
        if file != "-" && is_file(rt, file) {
            let opened = match open_car(rt, file, self.options.car, shows_progress(rt)) {
                Ok(opened) => opened,
                Err(outcome) => return Err(outcome),
            };
            return Ok((None, self.add_car(file, opened.car)?));
        }
        let bytes = match spooled(rt, file) {
            Ok(spool) => Bytes::File(spool),
            Err(error) => return Err(report_unreadable(rt, file, &error)),
        };
        let payload = match open_car_bytes(rt, file, &bytes, self.options.car) {
            Ok(car) => self.add_car(file, car)?,
            Err(outcome) => return Err(outcome),
        };
        Ok((Some(bytes), payload))
    }

    // Adds the blocks of an open CAR, and returns the place of its payload.
    fn add_car<R: BufRead + Drop>(
        &mut self,
        file: &str,
        car: CarReader<R>,
    ) -> Result<PayloadPlace, Outcome> {
        let (rt, mut car) = (self.rt, car);
        let payload = PayloadPlace {
            start: car.start(),
            end: car.end(),
        };
        for root in car.roots() {
            if self.starts.insert(*root, true).is_err() {
                return Err(report_out_of_memory(rt, file));
            }
        }
        let mut section = Section::new(rt.alloc());
        for _ in 0..MOST_SECTIONS {
            let offset = car.offset();
            match car.read_section(&mut section) {
                Ok(true) => {}
                Ok(false) => {
                    return match self.options.car.check_padding(rt, file, car) {
                        Outcome::Done => Ok(payload),
                        outcome => Err(outcome),
                    };
                }
                Err(error) => return Err(report_car_error(rt, file, &CarFileError::from(error))),
            }
            match self.add_section(&section, offset) {
                Ok(()) => {}
                Err(refused) => {
                    return Err(report_rejected(rt, file, section.cid(), Some(offset), refused));
                }
            }
        }
        Err(Outcome::Failed)
    }

    // Adds a block of a CAR, whose section begins at this byte, if it is new.
    fn add_section(&mut self, section: &Section, offset: u64) -> Result<(), RejectedBlock> {
        let (cid, is_unchecked) = (section.cid(), self.options.is_unchecked);
        if self.has(cid) {
            return Ok(());
        }
        match CheckedBlock::new(cid, section.data(), is_unchecked) {
            Ok(block) => self.add_block(cid, block.bytes(), offset, is_unchecked),
            Err(error) => Err(RejectedBlock::Digest(error)),
        }
    }

    // Appends a block, if it is new, with its links, and those of the blocks in its links. A block
    // that is invalid for its codec is an error. Unchecked, it has no links.
    fn add_block(
        &mut self,
        cid: &Cid,
        block: &[u8],
        offset: u64,
        is_unchecked: bool,
    ) -> Result<(), RejectedBlock> {
        let alloc = self.rt.alloc();
        let mut pending = checked_links(alloc, cid, block, is_unchecked)?;
        let place = self.place_of(cid)?;
        if self.has(cid) {
            return Ok(());
        }
        for _ in 0..MOST_SECTIONS {
            let Some(link) = pending.pop() else {
                return self.put(place, offset, block.len() as u64);
            };
            if link.hash().code() == IDENTITY {
                let carried = checked_links(alloc, &link, link.hash().digest(), is_unchecked)?;
                pending.extend_from_slice(&carried)?;
            }
            if link != *cid {
                self.add_link(&link)?;
            }
        }
        Err(RejectedBlock::Memory)
    }

    // Returns the place of a CID among those that are known, to which it is added if it is new.
    fn place_of(&mut self, cid: &Cid) -> Result<usize, AllocError> {
        if let Some(place) = self.known.get_index_of(cid) {
            return Ok(place);
        }
        let place = self.known.len();
        let known = Known {
            block: None,
            is_linked: false,
            is_reached: false,
        };
        match self.known.insert(*cid, known) {
            Ok(_) => Ok(place),
            Err(_) => Err(AllocError),
        }
    }

    // Adds a link of the block that comes next.
    fn add_link(&mut self, link: &Cid) -> Result<(), AllocError> {
        let place = self.place_of(link)?;
        if let Some(known) = self.known.get_index_mut(place) {
            known.is_linked = true;
        }
        match &mut self.links {
            Some(links) => match links.push(place) {
                Ok(()) => Ok(()),
                Err(_) => Err(AllocError),
            },
            None => Ok(()),
        }
    }

    // Appends the block of the CID at this place.
    fn put(&mut self, known: usize, offset: u64, len: u64) -> Result<(), RejectedBlock> {
        let number = self.blocks.len();
        let links_end = match &self.links {
            Some(links) => links.len(),
            None => 0,
        };
        let place = Place {
            known,
            offset,
            len,
            links_end,
        };
        if self.blocks.push(place).is_err() {
            return Err(RejectedBlock::Memory);
        }
        if let Some(known) = self.known.get_index_mut(known) {
            known.block = Some(number);
        }
        Ok(())
    }
}

/// Some of the blocks that were collected, in their order.
#[derive(Clone, Copy)]
pub struct BlockRange<'a, 'b> {
    /// The blocks.
    pub collected: &'b CollectedBlocks<'a>,
    /// The number of the first.
    pub begin: usize,
    /// The number of the block after the last.
    pub end: usize,
}

impl<'a, 'b> BlockSource for BlockRange<'a, 'b> {
    ghost unchecked = { λ range. range.collected.now.options.is_unchecked };

    ghost cids = { λ range. kept_cids range.collected.now range.begin range.end };

    #[tactic(auto, using(crate::proofs::NewCars::puts_empty, crate::proofs::NewCars::puts_range))]
    fn write_blocks<W: Write>(&self, sink: &mut CarSink<W>) -> Result<(), OutputError> {
        let mut next = self.begin;
        for input in self.collected.inputs.iter() {
            let (begin, end) = (input.begin.max(self.begin), input.end.min(self.end));
            if begin < end {
                if begin != next {
                    return Err(OutputError::Changed);
                }
                self.write_input(input, begin, end, sink)?;
                next = end;
            }
        }
        if next == self.end {
            Ok(())
        } else {
            Err(OutputError::Changed)
        }
    }
}

impl<'a, 'b> BlockRange<'a, 'b> {
    // Writes the blocks of an input from one number to another.
    fn write_input<W: Write>(
        &self,
        input: &Input<'a>,
        begin: usize,
        end: usize,
        sink: &mut CarSink<W>,
    ) -> Result<(), OutputError>
        requires { begin ≤ end }
        ensures put { OnOk result
            (Puts sink.old.has_index self.now.collected.now.options.is_unchecked
            (kept_cids self.now.collected.now begin end)
            (state_of W.contents sink.old) (state_of W.contents sink.new)) }
        ensures index { sink.new.has_index ≡ sink.old.has_index }
    {
        let rt = self.collected.rt;
        match (&input.bytes, input.source.codec()) {
            (Some(Bytes::Memory(bytes)), Some(_)) => self.write_file(bytes, begin, end, sink),
            (_, Some(_)) => {
                let bytes = read_file(rt, input.source.file())?;
                self.write_file(&bytes, begin, end, sink)
            }
            (Some(bytes), None) => self.write_sections(input, bytes, begin, end, sink),
            (None, None) => {
                let bytes = bytes_of(rt, input.source.file())?;
                self.write_sections(input, &bytes, begin, end, sink)
            }
        }
    }

    // Writes the block of a file, which is the only one from one number to another.
    #[tactic(auto, using(crate::proofs::NewCars::puts_file, crate::proofs::NewCars::puts_no_file))]
    fn write_file<W: Write>(
        &self,
        bytes: &[u8],
        begin: usize,
        end: usize,
        sink: &mut CarSink<W>,
    ) -> Result<(), OutputError>
        ensures put { OnOk result
            (Puts sink.old.has_index self.now.collected.now.options.is_unchecked
            (kept_cids self.now.collected.now begin end)
            (state_of W.contents sink.old) (state_of W.contents sink.new)) }
        ensures index { sink.new.has_index ≡ sink.old.has_index }
    {
        if begin.checked_add(1) != Some(end) {
            return Err(OutputError::Changed);
        }
        let Some(block) = self.collected.block(begin) else {
            return Ok(());
        };
        match CheckedBlock::new(&block.cid, bytes, false) {
            Ok(block) => sink.put(&block),
            Err(_) => Err(OutputError::Changed),
        }
    }

    // Writes the blocks of a CAR from one number to another.
    #[tactic(auto, using(crate::proofs::NewCars::puts_empty, crate::proofs::NewCars::puts_next))]
    fn write_sections<W: Write>(
        &self,
        input: &Input<'a>,
        bytes: &Bytes,
        begin: usize,
        end: usize,
        sink: &mut CarSink<W>,
    ) -> Result<(), OutputError>
        requires { begin ≤ end }
        ensures put { OnOk result
            (Puts sink.old.has_index self.now.collected.now.options.is_unchecked
            (kept_cids self.now.collected.now begin end)
            (state_of W.contents sink.old) (state_of W.contents sink.new)) }
        ensures index { sink.new.has_index ≡ sink.old.has_index }
    {
        let (rt, options) = (self.collected.rt, self.collected.options.car);
        let (Some(first), Some(payload)) = (self.collected.blocks.get(begin), input.payload) else {
            return Err(OutputError::Changed);
        };
        let mut sections = sections_at(rt, bytes, payload, first.offset, options)?;
        let mut section = Section::new(rt.alloc());
        let mut number = begin;
        for _ in 0..MOST_SECTIONS {
            if number == end {
                return Ok(());
            }
            let Some(place) = self.collected.blocks.get(number) else {
                return Err(OutputError::Changed);
            };
            let offset = sections.offset();
            match sections.read_section(&mut section) {
                Ok(true) => {}
                Ok(false) => return Err(OutputError::Changed),
                Err(error) => return Err(changed(error)),
            }
            if offset == place.offset {
                self.write_section(number, &section, sink)?;
                number += 1;
            }
        }
        Err(OutputError::Changed)
    }

    // Writes the block of this number, which is the one of this section, if it is kept.
    #[tactic(auto, using(crate::proofs::NewCars::puts_kept, crate::proofs::NewCars::puts_left_out,))]
    fn write_section<W: Write>(
        &self,
        number: usize,
        section: &Section,
        sink: &mut CarSink<W>,
    ) -> Result<(), OutputError>
        ensures put { OnOk result
            (Puts sink.old.has_index self.now.collected.now.options.is_unchecked
            (option_to_list (kept_cid self.now.collected.now number))
            (state_of W.contents sink.old) (state_of W.contents sink.new)) }
        ensures index { sink.new.has_index ≡ sink.old.has_index }
    {
        let Some(block) = self.collected.block(number) else {
            return Ok(());
        };
        if block.cid != *section.cid() {
            return Err(OutputError::Changed);
        }
        let is_unchecked = self.collected.options.is_unchecked;
        match CheckedBlock::new(&block.cid, section.data(), is_unchecked) {
            Ok(block) => sink.put(&block),
            Err(_) => Err(OutputError::Changed),
        }
    }
}

// Returns the error of a CAR that could be read before.
fn changed(error: CarError) -> OutputError {
    match error.kind {
        CarErrorKind::Memory => OutputError::Memory,
        CarErrorKind::Read(error) => OutputError::System(error),
        _ => OutputError::Changed,
    }
}

// Returns the links of the block of a CID. A block that is invalid for its codec is an error or,
// unchecked, has no links.
fn checked_links(
    alloc: Global,
    cid: &Cid,
    block: &[u8],
    is_unchecked: bool,
) -> Result<Vec<Cid>, RejectedBlock> {
    // Blocks of other codecs have no links.
    let Some(codec) = BlockCodec::from_code(cid.codec()) else {
        return Ok(Vec::new(alloc));
    };
    match links_of(alloc, codec, block) {
        Ok(links) => Ok(links),
        Err(CheckError::Memory) => Err(RejectedBlock::Memory),
        Err(CheckError::Invalid(_)) if is_unchecked => Ok(Vec::new(alloc)),
        Err(CheckError::Invalid(why)) => Err(RejectedBlock::Block(*cid, why)),
    }
}

// Reports that a section of `len` bytes would be longer than the limit.
fn report_too_long(rt: &HostRuntime, file: &str, len: u64) -> Outcome {
    let why = format_args!(
        "its section would be {len} bytes, over the limit (raise it with --limit)"
    );
    report(rt, file, &why, Outcome::Failed)
}

// The error of a block that is not taken.
#[derive(Clone, Copy)]
enum Why<'a> {
    Block(InvalidBlock),
    Digest(DigestExplanation<'a>),
}

impl<'a> fmt::Display for Why<'a> {
    fn fmt<W: fmt::Write>(&self, f: &mut fmt::Formatter<W>) -> fmt::Result {
        match self {
            Why::Block(why) => why.fmt(f),
            Why::Digest(why) => why.fmt(f),
        }
    }
}

// Reports why a block is not taken. In a CAR, its section begins at this byte.
fn report_rejected(
    rt: &HostRuntime,
    file: &str,
    cid: &Cid,
    offset: Option<u64>,
    refused: RejectedBlock,
) -> Outcome {
    let (at_fault, why) = match refused {
        RejectedBlock::Memory => return report_out_of_memory(rt, file),
        RejectedBlock::Block(at_fault, why) => (at_fault, Why::Block(why)),
        RejectedBlock::Digest(error) => (*cid, Why::Digest(DigestExplanation { cid, error })),
    };
    let at_fault = NamedCid::new(rt.alloc(), &at_fault);
    match offset {
        Some(offset) => report(
            rt,
            file,
            &format_args!("{at_fault} at byte {offset}: {why}"),
            Outcome::NotSo,
        ),
        None => report(rt, file, &format_args!("{at_fault}: {why}"), Outcome::NotSo),
    }
}
