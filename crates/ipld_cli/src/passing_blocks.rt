//! The blocks of a CAR that can be read only once.

use crate::complaints::{report_car_error, report_out_of_memory};
use crate::hasher::hasher_of;
use crate::input::OpenCar;
use crate::limits::MOST_SECTIONS;
use crate::messages::Outcome;
use car_files::CarFileError;
use indexmap::IndexMap;
use ipld_car::Section;
use ipld_cid::Cid;
use std::alloc::AllocError;
use std::hash::RandomState;
use std::mem;

// What a block that is held takes beside its bytes, in bytes: its CID and its places in a table.
const OVERHEAD: u64 = 200;

// Blocks that are held.
#[derive(Drop)]
struct HeldBlocks {
    blocks: IndexMap<Cid, Vec<u8>, RandomState>,
    // The number of bytes that they take.
    size: u64,
}

/// The blocks of a CAR that is read once, from standard input or a pipe. Blocks that have passed are
/// held, since one may come before it is wanted, and may be wanted again. If they take more than a
/// number of bytes, the older ones are dropped.
#[derive(Drop)]
pub struct PassingBlocks<'a> {
    rt: &'a HostRuntime,
    file: &'a str,
    opened: OpenCar<'a>,
    section: Section,
    hasher: RandomState,
    // Each of them takes at most half of the bytes, or is one block.
    newer: HeldBlocks,
    older: HeldBlocks,
    limit: u64,
    has_dropped: bool,
}

impl<'a> PassingBlocks<'a> {
    /// Creates a reader of the blocks of this CAR, which holds up to this number of bytes.
    pub fn new(
        rt: &'a HostRuntime,
        file: &'a str,
        opened: OpenCar<'a>,
        limit: u64,
    ) -> Result<PassingBlocks<'a>, Outcome> {
        let hasher = hasher_of(rt)?;
        let newer = HeldBlocks {
            blocks: IndexMap::with_hasher(rt.alloc(), hasher),
            size: 0,
        };
        let older = HeldBlocks {
            blocks: IndexMap::with_hasher(rt.alloc(), hasher),
            size: 0,
        };
        Ok(PassingBlocks {
            rt,
            file,
            opened,
            section: Section::new(rt.alloc()),
            hasher,
            newer,
            older,
            limit,
            has_dropped: false,
        })
    }

    /// Returns the roots.
    pub fn roots(&self) -> &[Cid] {
        self.opened.car.roots()
    }

    /// Returns whether blocks that had passed were dropped.
    pub fn has_dropped(&self) -> bool {
        self.has_dropped
    }

    /// Returns the block of this CID, if it is held or comes, or `None` if the CAR is read to its
    /// end. Reports errors of the file.
    pub fn find(&mut self, cid: &Cid) -> Result<Option<&[u8]>, Outcome> {
        if !self.newer.blocks.contains_key(cid) && !self.older.blocks.contains_key(cid) {
            self.read_on(cid)?;
        }
        match self.newer.blocks.get(cid) {
            Some(block) => Ok(Some(block)),
            None => match self.older.blocks.get(cid) {
                Some(block) => Ok(Some(block)),
                None => Ok(None),
            },
        }
    }

    // Reads on to the block of this CID, and holds each block that comes.
    fn read_on(&mut self, cid: &Cid) -> Result<(), Outcome> {
        for _ in 0..MOST_SECTIONS {
            match self.opened.car.read_section(&mut self.section) {
                Ok(true) => {}
                Ok(false) => return Ok(()),
                Err(error) => {
                    let error = CarFileError::from(error);
                    return Err(report_car_error(self.rt, self.file, &error));
                }
            }
            match self.hold() {
                Ok(()) => {}
                Err(_) => return Err(report_out_of_memory(self.rt, self.file)),
            }
            if self.section.cid() == cid {
                return Ok(());
            }
        }
        Ok(())
    }

    // Holds the block that was read last.
    fn hold(&mut self) -> Result<(), AllocError> {
        let alloc = self.rt.alloc();
        let size = (self.section.data().len() as u64).saturating_add(OVERHEAD);
        if self.newer.size.saturating_add(size) > self.limit / 2 {
            let emptied = HeldBlocks {
                blocks: IndexMap::with_hasher(alloc, self.hasher),
                size: 0,
            };
            self.has_dropped = self.has_dropped || !self.older.blocks.is_empty();
            self.older = mem::replace(&mut self.newer, emptied);
        }
        let block = Vec::from_slice(alloc, self.section.data())?;
        match self.newer.blocks.insert(*self.section.cid(), block) {
            Ok(_) => {}
            Err(_) => return Err(AllocError),
        }
        self.newer.size = self.newer.size.saturating_add(size);
        Ok(())
    }
}
