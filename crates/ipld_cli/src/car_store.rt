//! The blocks of a CAR by their CIDs, for walks over files and folders.

use crate::blocks::{Blocks, open_car_blocks};
use crate::car_options::CarOptions;
use crate::complaints::{report, report_out_of_memory};
use crate::files::is_file;
use crate::input::{open_car, shows_progress};
use crate::messages::{NamedCid, Outcome};
use crate::passing_blocks::PassingBlocks;
use ipld_car::Section;
use ipld_cid::{Cid, IDENTITY};
use unixfs_files::BlockStore;

// The source of the blocks.
#[derive(Drop)]
enum Origin<'a> {
    // A file, in which blocks are found wherever they are.
    File(Blocks<'a>),
    // Standard input or a pipe, which is read once.
    Stream(PassingBlocks<'a>),
}

/// The blocks of a CAR. Those of a file are found by its index if it has one, and those of standard
/// input as they pass.
#[derive(Drop)]
pub struct CarStore<'a> {
    rt: &'a HostRuntime,
    file: &'a str,
    origin: Origin<'a>,
    // The block that was found last.
    found: Option<Section>,
    // The block that the CID itself has.
    carried: Vec<u8>,
}

impl<'a> CarStore<'a> {
    /// Opens a CAR. Of standard input and pipes, blocks that have passed are held, up to this number
    /// of bytes. Reports the error if the file can't be read or doesn't begin with a CAR header.
    pub fn open(
        rt: &'a HostRuntime,
        file: &'a str,
        options: CarOptions,
        held: u64,
    ) -> Result<CarStore<'a>, Outcome> {
        let origin = if file != "-" && is_file(rt, file) {
            Origin::File(open_car_blocks(rt, file, options)?)
        } else {
            let opened = open_car(rt, file, options, shows_progress(rt))?;
            Origin::Stream(PassingBlocks::new(rt, file, opened, held)?)
        };
        Ok(CarStore {
            rt,
            file,
            origin,
            found: None,
            carried: Vec::new(rt.alloc()),
        })
    }

    /// Returns the name of the file.
    pub fn file(&self) -> &'a str {
        self.file
    }

    /// Returns the first root, if there is one.
    pub fn first_root(&self) -> Option<Cid> {
        let roots = match &self.origin {
            Origin::File(blocks) => blocks.roots(),
            Origin::Stream(blocks) => blocks.roots(),
        };
        roots.first().copied()
    }

    /// Reports that the CAR has no block of this CID.
    pub fn report_missing(&self, cid: &Cid) -> Outcome {
        let named = NamedCid::new(self.rt.alloc(), cid);
        let has_dropped = match &self.origin {
            Origin::File(_) => false,
            Origin::Stream(blocks) => blocks.has_dropped(),
        };
        if has_dropped {
            let why = format_args!(
                "{named}: the block is missing, or has passed and is no longer held: hold more (--hold), or save the CAR to a file"
            );
            return report(self.rt, self.file, &why, Outcome::NotSo);
        }
        let why = format_args!("{named}: the CAR has no block with this CID");
        report(self.rt, self.file, &why, Outcome::NotSo)
    }
}

impl<'a> BlockStore for CarStore<'a> {
    type Fault = Outcome;

    fn block(&mut self, cid: &Cid) -> Result<Option<&[u8]>, Outcome> {
        let hash = cid.hash();
        if hash.code() == IDENTITY {
            self.carried.clear();
            return match self.carried.extend_from_slice(hash.digest()) {
                Ok(()) => Ok(Some(&self.carried)),
                Err(_) => Err(report_out_of_memory(self.rt, self.file)),
            };
        }
        match &mut self.origin {
            Origin::File(blocks) => {
                self.found = blocks.find(cid)?;
                match &self.found {
                    Some(section) => Ok(Some(section.data())),
                    None => Ok(None),
                }
            }
            Origin::Stream(blocks) => blocks.find(cid),
        }
    }
}
