//! The adding of links to a search, with those of the blocks that they carry.

ghost use Rattle.std.specs.Prelude.{◌≡◌, map, IfOk, OnOk, OnErr};
ghost use Rattle.ipld_cid.specs.LinkOf.{link_of};
ghost use Rattle.car_files.specs.Carried.{CarriesFaults};
ghost use Rattle.car_files.specs.Names.{Names, NamesSome};
ghost use Rattle.car_files.specs.Reached.{is_identity};
ghost use Rattle.car_files.specs.Taking.{TakesLink};

use crate::index::MissingBlocks;
use crate::reading::links_in;
use ipld_block::{CheckError, InvalidBlock};
use ipld_cid::{Cid, IDENTITY};
use std::alloc::{AllocError, Global};

/// A CID with the identity hash that carries bytes which are invalid for its codec.
#[derive(Clone, Copy, Debug, PartialEq, Eq)]
pub struct CarriedFault {
    /// The CID.
    pub cid: Cid,
    /// The error in the bytes that it carries, with its offset in them.
    pub why: InvalidBlock,
}

// Returns whether the CID carries its own block.
fn carries_block(link: &Cid) -> bool
    ensures { result ≡ is_identity (link_of link.now) }
{
    link.hash().code() == IDENTITY
}

// Adds a link to the search. If it carries its block, appends the links of that block to `pending`
// instead, or the link to `faults` if the block is invalid.
#[tactic(auto, using(crate::proofs::Taking::takes_links, crate::proofs::Taking::takes_none, crate::proofs::Taking::takes_fault))]
fn take_link(
    alloc: Global,
    index: &mut MissingBlocks,
    pending: &mut Vec<Cid>,
    faults: &mut Vec<CarriedFault>,
    link: &Cid,
) -> Result<(), AllocError>
    ensures taken { OnOk result (TakesLink (link_of link.now)
        (record {
          pending = map link_of pending.old.items;
          search = index.old;
          faults = faults.old.items;
        })
        (record {
          pending = map link_of pending.new.items;
          search = index.new;
          faults = faults.new.items;
        })) }
    ensures kept { OnErr result (index.new ≡ index.old) }
{
    if !carries_block(link) {
        return index.add_link(link);
    }
    match links_in(alloc, link.codec(), link.hash().digest()) {
        Ok(Some(links)) => match pending.extend_from_slice(&links) {
            Ok(()) => Ok(()),
            Err(_) => Err(AllocError),
        },
        Ok(None) => Ok(()),
        Err(CheckError::Memory) => Err(AllocError),
        Err(CheckError::Invalid(why)) => match faults.push(CarriedFault { cid: *link, why }) {
            Ok(()) => Ok(()),
            Err(_) => Err(AllocError),
        },
    }
}

/// Adds the links of a block, or roots, to the search. If such a CID has the identity hash, it adds
/// the links of the block that the CID carries instead, however these nest. If blocks of the codec
/// of such a CID aren't read, it has no links.
///
/// Returns those of all these CIDs that carry bytes which are invalid for their codec, as often as
/// they occur. If there are none, every block that was met is valid. The other links are added in
/// any case.
///
/// It allocates for every link that is new, for the links of the blocks that CIDs carry, and for
/// its result. It doesn't recurse.
///
/// # Errors
///
/// `AllocError` if an allocation fails. Some of the links were then added, or none, and nothing
/// else was.
#[tactic(auto, using(crate::proofs::Taking::names_none))]
pub fn add_links(
    alloc: Global,
    index: &mut MissingBlocks,
    links: Vec<Cid>,
) -> Result<Vec<CarriedFault>, AllocError>
    ensures added { OnOk result (Names (map link_of links.items) index.old index.new) }
    ensures faults { IfOk result (λ faults. CarriesFaults (map link_of links.items) faults.items) }
    ensures some { OnErr result (NamesSome (map link_of links.items) index.old index.new) }
{
    let mut pending = links;
    let mut faults = Vec::new(alloc);
    // Blocks in digests of 64 bytes nest only a few times, so there are fewer links than this.
    for _ in 0..u64::MAX {
        let Some(link) = pending.pop() else {
            return Ok(faults);
        };
        match take_link(alloc, index, &mut pending, &mut faults, &link) {
            Ok(()) => {}
            Err(error) => return Err(error),
        }
    }
    Err(AllocError)
}
