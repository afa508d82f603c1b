//! The distribution of a CAR's blocks over several CARs.

use indexmap::{IndexMap, IndexSet};
use ipld_car::HEADER_END;
use ipld_cid::Cid;
use ipld_cli::{
    CollectedBlocks, NewBlock, Outcome, Output, OutputError, TemporaryName, header_len, is_file,
    output_of, report, report_out_of_memory, report_unwritable,
};
use std::alloc::{AllocError, Global};
use std::hash::RandomState;

// The number of bytes of an index before its rows: the code of its format, and the number of hash
// functions.
const INDEX_FRONT: u64 = 6;

// The most bytes that a hash function and a length of its digests take in an index, without their
// rows.
const INDEX_BUCKET: u64 = 24;

// The number of bytes of an offset in an index.
const OFFSET_LEN: u64 = 8;

// A header with several roots has at most this many bytes more than the sum over its roots. Its
// length and the length of the list of roots have at most 9 bytes each, of which one root counts 2.
const ROOM: u64 = 16;

/// One of several CARs.
#[derive(Drop)]
pub struct Part {
    /// The roots whose blocks it has.
    pub roots: Vec<Cid>,
    /// The number of blocks before its end.
    pub end: usize,
}

/// The form of several CARs.
#[derive(Clone, Copy)]
pub struct Form {
    /// Whether they are of version 2, with an index.
    pub has_index: bool,
    /// The most bytes of a CAR.
    pub most: u64,
    /// The most bytes of a header, with its length.
    pub most_header: u64,
}

impl Form {
    // Returns the number of bytes of a CAR without its header of version 1 and its sections.
    fn fixed_len(self) -> u64 {
        if self.has_index {
            HEADER_END as u64 + INDEX_FRONT
        } else {
            0
        }
    }
}

// What the choice of blocks depends on.
#[derive(Drop)]
struct Splitter {
    form: Form,
    // The roots, with the length of the header of each alone.
    roots: IndexMap<Cid, u64, RandomState>,
    // The length of a header without roots.
    empty_header: u64,
}

// A CAR whose blocks are being chosen.
#[derive(Drop)]
struct OpenPart {
    // The places of its roots among all roots.
    roots: Vec<usize>,
    // The number of bytes of its sections, and of the rows of its index.
    size: u64,
    // The most bytes of its header.
    header: u64,
    // The hash functions and lengths of its digests.
    hashes: IndexSet<(u64, usize), RandomState>,
}

impl Splitter {
    fn new(
        alloc: Global,
        hasher: RandomState,
        roots: &[Cid],
        form: Form,
    ) -> Result<Splitter, OutputError> {
        let mut lens = IndexMap::with_hasher(alloc, hasher);
        for root in roots {
            lens.insert(*root, header_len(alloc, &[*root])?)?;
        }
        Ok(Splitter {
            form,
            roots: lens,
            empty_header: header_len(alloc, &[])?,
        })
    }

    // Returns a CAR without blocks.
    fn open(&self, alloc: Global, hasher: RandomState) -> OpenPart {
        OpenPart {
            roots: Vec::new(alloc),
            size: self.form.fixed_len(),
            header: self.empty_header.saturating_add(ROOM),
            hashes: IndexSet::with_hasher(alloc, hasher),
        }
    }

    // Returns the number of bytes that the CID of this block adds to a header.
    fn added_to_header(&self, block: &NewBlock) -> u64 {
        match self.roots.get(&block.cid) {
            Some(len) => len.saturating_sub(self.empty_header),
            None => 0,
        }
    }

    // Returns the most bytes before the first section of a CAR of any one of these blocks.
    fn least(&self, blocks: &CollectedBlocks<'_>) -> u64 {
        let mut most = 0;
        for number in 0..blocks.len() {
            if let Some(block) = blocks.block(number) {
                most = self.added_to_header(&block).max(most);
            }
        }
        let header = self.empty_header.saturating_add(most);
        header.saturating_add(self.form.fixed_len())
    }

    // Returns whether the block fits into the CAR.
    fn fits(&self, alloc: Global, part: &OpenPart, block: &NewBlock) -> Result<bool, OutputError> {
        let added = added_by(block, self.form.has_index, &part.hashes);
        let size = part.size.saturating_add(added);
        let longest = part.header.saturating_add(self.added_to_header(block));
        if self.takes(size, longest) {
            return Ok(true);
        }
        // Only near the limit is the header measured.
        let mut roots = Vec::from_slice(alloc, &part.roots)?;
        if let Some(place) = self.roots.get_index_of(&block.cid) {
            roots.push(place)?;
        }
        let roots = self.cids_at(alloc, roots)?;
        Ok(self.takes(size, header_len(alloc, &roots)?))
    }

    // Returns whether a CAR may have a header of `header` bytes, and `size` bytes besides.
    fn takes(&self, size: u64, header: u64) -> bool {
        header <= self.form.most_header && size.saturating_add(header) <= self.form.most
    }

    // Adds a block to the CAR.
    fn add(&self, part: &mut OpenPart, block: &NewBlock) -> Result<(), OutputError> {
        let added = added_by(block, self.form.has_index, &part.hashes);
        part.size = part.size.saturating_add(added);
        part.header = part.header.saturating_add(self.added_to_header(block));
        part.hashes.insert(kind_of(block))?;
        if let Some(place) = self.roots.get_index_of(&block.cid) {
            part.roots.push(place)?;
        }
        Ok(())
    }

    // Returns the CAR with its end.
    fn close(&self, alloc: Global, part: OpenPart, end: usize) -> Result<Part, OutputError> {
        Ok(Part {
            roots: self.cids_at(alloc, part.roots)?,
            end,
        })
    }

    // Returns the roots at these places, in the order of all roots.
    fn cids_at(&self, alloc: Global, places: Vec<usize>) -> Result<Vec<Cid>, OutputError> {
        let mut places = places;
        places.sort_unstable();
        let mut cids = Vec::new(alloc);
        for place in places.iter() {
            if let Some((cid, _)) = self.roots.get_index(*place) {
                cids.push(*cid)?;
            }
        }
        Ok(cids)
    }

    // Returns the CARs of these blocks.
    fn split(
        &self,
        alloc: Global,
        hasher: RandomState,
        blocks: &CollectedBlocks<'_>,
    ) -> Result<Vec<Part>, OutputError> {
        let mut parts = Vec::new(alloc);
        let mut begin = 0;
        let mut part = self.open(alloc, hasher);
        for number in 0..blocks.len() {
            let Some(block) = blocks.block(number) else {
                continue;
            };
            if number > begin && !self.fits(alloc, &part, &block)? {
                parts.push(self.close(alloc, part, number)?)?;
                part = self.open(alloc, hasher);
                begin = number;
            }
            self.add(&mut part, &block)?;
        }
        parts.push(self.close(alloc, part, blocks.len())?)?;
        Ok(parts)
    }
}

/// Several CARs, or the least number of bytes that each has to be allowed.
#[derive(Drop)]
pub enum Split {
    /// The CARs.
    Parts(Vec<Part>),
    /// What comes before the first section of a CAR has this number of bytes.
    TooSmall(u64),
}

/// Returns several CARs of these blocks, each of at most `form.most` bytes. A block that needs more
/// bytes has a CAR to itself. There is at least one CAR.
///
/// # Errors
///
/// `Memory` if an allocation fails.
pub fn split_blocks(
    alloc: Global,
    hasher: RandomState,
    roots: &[Cid],
    blocks: &CollectedBlocks<'_>,
    form: Form,
) -> Result<Split, OutputError> {
    let splitter = Splitter::new(alloc, hasher, roots, form)?;
    let least = splitter.least(blocks);
    if form.most < least {
        return Ok(Split::TooSmall(least));
    }
    Ok(Split::Parts(splitter.split(alloc, hasher, blocks)?))
}

// Returns the hash function of a block's CID, and the length of its digest.
fn kind_of(block: &NewBlock) -> (u64, usize) {
    (block.cid.hash().code(), block.cid.hash().size())
}

// Returns the most bytes that this block adds to a CAR.
fn added_by(
    block: &NewBlock,
    has_index: bool,
    hashes: &IndexSet<(u64, usize), RandomState>,
) -> u64 {
    let section = block.section_len();
    if !has_index {
        return section;
    }
    let kind = kind_of(block);
    let row = (kind.1 as u64).saturating_add(OFFSET_LEN);
    let bucket = if hashes.contains(&kind) {
        0
    } else {
        INDEX_BUCKET
    };
    section.saturating_add(row).saturating_add(bucket)
}

// Returns the name of the CAR of this number. For `NAME.car`, it is `NAME-0.car` and so on. For
// `FOLDER/`, it is `FOLDER/0.car` and so on.
fn name_of(alloc: Global, name: &str, number: usize) -> Result<String, AllocError> {
    let stem = name.strip_suffix(".car").unwrap_or(name);
    if stem.is_empty() || stem.ends_with('/') {
        format!(in alloc; "{stem}{number}.car")
    } else {
        format!(in alloc; "{stem}-{number}.car")
    }
}

// Returns the name of the CAR of this number, and its destination.
fn output_numbered(
    rt: &HostRuntime,
    name: &str,
    force: bool,
    files: &[&str],
    number: usize,
) -> Result<(String, Output), Outcome> {
    let Ok(numbered) = name_of(rt.alloc(), name, number) else {
        return Err(report_out_of_memory(rt, name));
    };
    match output_of(rt, &numbered, force, files) {
        Ok(output) => Ok((numbered, output)),
        Err(error) => Err(report_unwritable(rt, &numbered, &error)),
    }
}

// Reports a file that has the name of the CAR of this number, if there is one. That CAR is not
// created.
fn report_if_there(rt: &HostRuntime, name: &str, number: usize) -> Result<(), Outcome> {
    let Ok(next) = name_of(rt.alloc(), name, number) else {
        return Err(report_out_of_memory(rt, name));
    };
    if is_file(rt, &next) {
        let why = "warning: this file is not part of the new CARs";
        report(rt, &next, &why, Outcome::Done);
    }
    Ok(())
}

/// Returns the names of `count` CARs with their destinations, and the name of their temporary files.
/// Reports why one can't be written, and a file with the next number, which is not one of these
/// CARs.
pub fn outputs_of(
    rt: &HostRuntime,
    name: &str,
    force: bool,
    files: &[&str],
    count: usize,
) -> Result<(Vec<(String, Output)>, TemporaryName), Outcome> {
    let mut outputs: Vec<(String, Output)> = Vec::new(rt.alloc());
    for number in 0..count {
        if outputs
            .push(output_numbered(rt, name, force, files, number)?)
            .is_err()
        {
            return Err(report_out_of_memory(rt, "the CARs"));
        }
    }
    report_if_there(rt, name, count)?;
    let temporary = match outputs.first() {
        Some((first, output)) => TemporaryName::of(rt, first, output),
        None => TemporaryName::of(rt, name, &Output::New),
    };
    match temporary {
        Ok(temporary) => Ok((outputs, temporary)),
        Err(error) => Err(report_unwritable(rt, name, &error)),
    }
}
