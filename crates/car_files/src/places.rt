//! The places of the sections of a CAR.

ghost use Rattle.std.specs.Prelude.{◌≡◌, [], ◌∷◌, OnOk};
ghost use Rattle.ipld_cid.specs.LinkOf.{link_of};
ghost use Rattle.car_files.specs.Places.{Adds, places_in};

use ipld_cid::Cid;
use std::alloc::{AllocError, Global};

/// The place of a section in a CAR.
#[derive(Clone, Copy, Debug, PartialEq, Eq)]
pub struct SectionPlace {
    /// The CID of the block.
    pub cid: Cid,
    /// The offset in the file at which the section begins.
    pub offset: u64,
}

/// The places of the sections that were read, in their order, if they are kept.
#[derive(Debug, Drop)]
pub struct SectionPlaces {
    /// Whether they are kept.
    pub is_kept: bool,
    /// The places.
    pub places: Vec<SectionPlace>,
}

impl SectionPlaces {
    /// Creates an empty list, which keeps the places that are added or doesn't. Does not allocate.
    pub fn new(alloc: Global, is_kept: bool) -> SectionPlaces
        ensures empty { places_in result ≡ [] }
        ensures kept { result.is_kept ≡ is_kept }
    {
        SectionPlaces {
            is_kept,
            places: Vec::new(alloc),
        }
    }

    /// Adds the place of a section if places are kept. It then may allocate. Returns `AllocError`
    /// if that fails.
    pub fn add(&mut self, cid: &Cid, offset: u64) -> Result<(), AllocError>
        ensures { OnOk result (Adds self.old self.new ((link_of cid.now, offset) ∷ [])) }
    {
        if !self.is_kept {
            return Ok(());
        }
        match self.places.push(SectionPlace { cid: *cid, offset }) {
            Ok(()) => Ok(()),
            Err(_) => Err(AllocError),
        }
    }
}
