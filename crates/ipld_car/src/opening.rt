//! The reading of the part before the sections.

ghost use Rattle.std.specs.Prelude.{◌≡◌, ◌≤◌, ◌<◌, ◌-◌, ◌+◌, ◌^◌, length, drop, MatchResult};
ghost use Rattle.std.specs.Io.KnownBytes.{Consumes};
ghost use Rattle.ipld_car.specs.Opening.{OpenFault, ReadsHeaderBlock, ReadsRootsAt};
ghost use Rattle.ipld_car.specs.OpeningOf.{OpensFront, OpensVersion2};

use crate::error::{CarError, CarErrorKind};
use crate::framed::{fault_place, read_framed};
use crate::header::roots_of;
use crate::payload::short_payload;
use crate::read_section::section_error;
use crate::version::CarVersion;
use crate::version2::{is_pragma, read_payload};
use ipld_cid::Cid;
use std::alloc::Global;
use std::io::BufRead;

// The part before the sections.
#[derive(Drop)]
pub(crate) struct Opening {
    pub(crate) roots: Vec<Cid>,
    pub(crate) version: CarVersion,
    pub(crate) start: u64,
    pub(crate) offset: u64,
    pub(crate) end: u64,
}

// Takes the block of the header that begins at the offset `begin`, before the offset `end`. Returns
// its place in the bytes that were taken.
#[tactic(auto, using(crate::proofs::Openings::block_taken, crate::proofs::Openings::block_fails))]
fn read_block<R: BufRead>(
    reader: &mut R,
    taken: &mut Vec<u8>,
    limit: u64,
    begin: u64,
    end: u64,
) -> Result<usize, CarError>
    requires { begin ≤ end }
    ensures consumed { Consumes (R.remaining reader.old) (R.remaining reader.new) taken.new.items }
    ensures within { length taken.new.items ≤ end - begin }
    ensures read { ReadsHeaderBlock
        (record {
          limit = limit;
          begin = begin;
          end = end;
          before = R.remaining reader.old;
          after = R.remaining reader.new;
          taken = taken.new.items;
        })
        result }
{
    match read_framed(reader, taken, limit, end - begin) {
        Ok(Some(start)) => Ok(start),
        Ok(None) => Err(section_error(CarErrorKind::UnexpectedEnd, begin, 0)),
        Err(kind) => {
            let place = fault_place(&kind, taken.len());
            Err(section_error(kind, begin, place))
        }
    }
}

// Decodes the roots in the block of the header that begins at an offset.
fn roots_at(alloc: Global, taken: &[u8], start: usize, begin: u64) -> Result<Vec<Cid>, CarError>
    requires within { start ≤ length taken.now }
    requires fits { begin + start < 2 ^ 64 }
    ensures { ReadsRootsAt (drop start taken.now) begin start result }
{
    match roots_of(alloc, &taken[start..]) {
        Ok(roots) => Ok(roots),
        Err(kind) => Err(section_error(kind, begin, start as u64)),
    }
}

// Reads the part before the sections of version 2, after its pragma was taken.
fn open_version2<R: BufRead>(
    alloc: Global,
    reader: &mut R,
    taken: &mut Vec<u8>,
    limit: u64,
) -> Result<Opening, CarError>
    ensures { OpensVersion2 limit (R.remaining reader.old) (R.remaining reader.new) result }
{
    let payload = match read_payload(reader, taken) {
        Ok(payload) => payload,
        Err(error) => return Err(error),
    };
    let start = match read_block(reader, taken, limit, payload.start, payload.end) {
        Ok(start) => start,
        Err(error) => {
            let size = payload.end - payload.start;
            return Err(short_payload(error, size, taken.len() as u64));
        }
    };
    match roots_at(alloc, taken, start, payload.start) {
        Ok(roots) => Ok(Opening {
            roots,
            version: CarVersion::V2,
            start: payload.start,
            offset: payload.start + taken.len() as u64,
            end: payload.end,
        }),
        Err(error) => Err(error),
    }
}

// Reads the part before the sections.
#[tactic(auto, using(crate::proofs::Openings::version1_opens))]
pub(crate) fn read_opening<R: BufRead>(
    alloc: Global,
    reader: &mut R,
    limit: u64,
) -> Result<Opening, CarError>
    ensures { MatchResult result
        (OpensFront limit (R.remaining reader.old) (R.remaining reader.new))
        (OpenFault limit (R.remaining reader.old) (R.remaining reader.new)) }
{
    let mut taken = Vec::new(alloc);
    let start = match read_block(reader, &mut taken, limit, 0, u64::MAX) {
        Ok(start) => start,
        Err(error) => return Err(error),
    };
    if is_pragma(&taken, start) {
        return open_version2(alloc, reader, &mut taken, limit);
    }
    match roots_at(alloc, &taken, start, 0) {
        Ok(roots) => Ok(Opening {
            roots,
            version: CarVersion::V1,
            start: 0,
            offset: taken.len() as u64,
            end: u64::MAX,
        }),
        Err(error) => Err(error),
    }
}
