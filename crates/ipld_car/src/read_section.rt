//! Reading a section.

ghost use Rattle.std.specs.Prelude.{◌≡◌, ◌≤◌, ◌-◌, ◌+◌, ◌<◌, ◌^◌, length, true, drop, MatchResult, OnErr};
ghost use Rattle.std.specs.Io.KnownBytes.{Consumes};
ghost use Rattle.ipld_cid.specs.Front.{BeginsWith};
ghost use Rattle.ipld_car.specs.Framing.{ReadsFramed};
ghost use Rattle.ipld_car.specs.Reading.{TakesSection, NamesNone, Leaves, emptied};
ghost use Rattle.ipld_car.specs.SectionOf.{taken_of, block_of};

use crate::error::{CarError, CarErrorKind};
use crate::framed::{fault_place, read_framed};
use crate::section::Section;
use ipld_cid::Cid;
use std::io::BufRead;

// The error of the header or the section that begins at the offset.
#[inline(always)]
pub(crate) fn section_error(kind: CarErrorKind, section: u64, place: u64) -> CarError
    requires { section + place < 2 ^ 64 }
    ensures { result ≡ record { kind = kind; section = section; offset = section + place } }
{
    CarError {
        kind,
        section,
        offset: section + place,
    }
}

// Reads the CID of the block from the bytes after the length, which has `start` bytes.
#[inline(always)]
fn name_block(section: &mut Section, begin: u64, start: usize) -> Result<bool, CarError>
    requires within { start ≤ length (taken_of section.old) }
    requires fits { begin + start < 2 ^ 64 }
    ensures kept { taken_of section.new ≡ taken_of section.old }
    ensures held { OnErr result (block_of section.new ≡ block_of section.old) }
    ensures named { MatchResult result
        (λ has. (has ≡ true)
        × BeginsWith 64 (drop start (taken_of section.old))
        (block_of section.new).cid (block_of section.new).bytes)
        (λ error. NamesNone (drop start (taken_of section.old)) begin start error) }
{
    match Cid::split_front(&section.bytes[start..]) {
        Ok((cid, block)) => {
            let data_start = section.bytes.len() - block.len();
            section.data_start = data_start;
            section.cid = cid;
            Ok(true)
        }
        Err(error) => Err(section_error(CarErrorKind::Cid(error), begin, start as u64)),
    }
}

// Takes a length and the bytes that it counts, which replace the contents of the section.
#[inline(always)]
fn take_framed<R: BufRead>(
    reader: &mut R,
    section: &mut Section,
    limit: u64,
    room: u64,
) -> Result<Option<usize>, CarErrorKind>
    ensures consumed { Consumes
        (R.remaining reader.old) (R.remaining reader.new) (taken_of section.new) }
    ensures within { length (taken_of section.new) ≤ room }
    ensures left { block_of section.new ≡ emptied (block_of section.old) }
    ensures read { ReadsFramed limit room
        (R.remaining reader.old) (R.remaining reader.new) (taken_of section.new) result }
{
    section.data_start = 0;
    let framed = read_framed(reader, &mut section.bytes, limit, room);
    section.data_start = section.bytes.len();
    framed
}

// Reads a section that begins at the offset `begin`. Sections end by the offset `end`.
#[tactic(auto, using(crate::proofs::SectionReading::section_none, crate::proofs::SectionReading::section_fails))]
pub(crate) fn read_section_at<R: BufRead>(
    reader: &mut R,
    section: &mut Section,
    limit: u64,
    begin: u64,
    end: u64,
) -> Result<bool, CarError>
    requires { begin ≤ end }
    ensures consumed { Consumes
        (R.remaining reader.old) (R.remaining reader.new) (taken_of section.new) }
    ensures within { length (taken_of section.new) ≤ end - begin }
    ensures read { TakesSection
        (record {
          limit = limit;
          begin = begin;
          end = end;
          before = R.remaining reader.old;
          after = R.remaining reader.new;
          taken = taken_of section.new;
        })
        (block_of section.new) result }
    ensures left { Leaves (block_of section.old) (block_of section.new) result }
{
    match take_framed(reader, section, limit, end - begin) {
        Ok(Some(start)) => name_block(section, begin, start),
        Ok(None) => Ok(false),
        Err(kind) => {
            let place = fault_place(&kind, section.taken());
            Err(section_error(kind, begin, place))
        }
    }
}
