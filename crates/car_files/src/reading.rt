//! The next block of a CAR, and the links of a block by the code of its codec.

ghost use Rattle.std.specs.Prelude.{◌≡◌, None, map, IfOk, IfErr, MatchOption};
ghost use Rattle.ipld_cid.specs.LinkOf.{link_of};
ghost use Rattle.ipld_block.specs.Blocks.{IfInvalid};
ghost use Rattle.ipld_block.specs.Codes.{codec_of_code};
ghost use Rattle.ipld_car.specs.SectionOf.{block_of};
ghost use Rattle.car_files.specs.Blocks.{BlockHas, BlockFault};
ghost use Rattle.car_files.specs.Reading.{ReadsNext};
ghost use Rattle.car_files.specs.Streams.{progress};

use crate::error::CarFileError;
use ipld_block::{BlockCodec, CheckError, links_of};
use ipld_car::{CarReader, Section};
use ipld_cid::Cid;
use std::alloc::Global;
use std::io::BufRead;

// Reads the next block, and returns whether there was one.
#[tactic(auto, using(crate::proofs::Sections::next_found, crate::proofs::Sections::next_none, crate::proofs::Sections::next_fails))]
pub(crate) fn read_next<R: BufRead>(
    car: &mut CarReader<R>,
    section: &mut Section,
) -> Result<bool, CarFileError>
    ensures { ReadsNext (progress R.remaining car.old car.new) (block_of section.new) result }
{
    match car.read_section(section) {
        Ok(true) => Ok(true),
        Ok(false) => Ok(false),
        Err(error) => Err(CarFileError::from(error)),
    }
}

// Returns the links of a block of the codec with this code, repeats included. Returns `None` if
// blocks of the codec aren't read.
pub(crate) fn links_in(
    alloc: Global,
    codec: u64,
    block: &[u8],
) -> Result<Option<Vec<Cid>>, CheckError>
    ensures found { IfOk result (λ found.
        MatchOption found (codec_of_code codec ≡ None) (λ links.
        BlockHas codec block.now (map link_of links.items))) }
    ensures fault { IfErr result (λ error. IfInvalid error (BlockFault codec block.now)) }
{
    let Some(codec) = BlockCodec::from_code(codec) else {
        return Ok(None);
    };
    match links_of(alloc, codec, block) {
        Ok(links) => Ok(Some(links)),
        Err(error) => Err(error),
    }
}

// The links of a section's block.
pub(crate) fn links_in_section(
    alloc: Global,
    section: &Section,
) -> Result<Option<Vec<Cid>>, CheckError>
    ensures found { IfOk result (λ found.
        MatchOption found (codec_of_code (block_of section.now).cid.codec ≡ None)
        (λ links.
        BlockHas (block_of section.now).cid.codec (block_of section.now).bytes
        (map link_of links.items))) }
    ensures fault { IfErr result (λ error.
        IfInvalid error
        (BlockFault (block_of section.now).cid.codec (block_of section.now).bytes)) }
{
    match links_in(alloc, section.cid().codec(), section.data()) {
        Ok(links) => Ok(links),
        Err(error) => Err(error),
    }
}
