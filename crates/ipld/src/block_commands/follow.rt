//! Paths that lead through the blocks of a CAR.

use crate::block_commands::show::ShowRequest;
use crate::paths::{split_cid, split_segment};
use indexmap::IndexSet;
use ipld_block::{BlockCodec, codec_name};
use ipld_cid::{Cid, IDENTITY};
use ipld_cli::{
    Blocks, CheckedBlock, DigestExplanation, Explanation, MOST_SECTIONS, NamedCid, Outcome,
    ShowExplanation, hasher_of, report,
};
use ipld_show::{LinkOnPath, ShowError, link_on_path, show};
use std::io::Write;

// The block that a path leads to, and the rest of the path there.
#[derive(Clone, Copy)]
struct Place<'a> {
    cid: Cid,
    rest: &'a str,
    // The number of segments that lead to the block, without the CID that the path may begin with.
    segments: usize,
}

// The result of a step on a path.
enum Step {
    // The path ended in this block.
    Ended(Outcome),
    // The path continues in the block of a link.
    Link(LinkOnPath),
}

// Returns the rest of a path after `segments` segments.
fn rest_of_path(path: &str, segments: usize) -> &str {
    let mut rest = path;
    for _ in 0..segments {
        rest = split_segment(rest).1;
    }
    rest
}

// Returns the beginning of a path: the CID that it begins with, or otherwise the first root.
fn first_place<'a>(blocks: &Blocks<'_>, path: &'a str) -> Option<Place<'a>> {
    if let Some((cid, rest)) = split_cid(path) {
        return Some(Place {
            cid,
            rest,
            segments: 0,
        });
    }
    let cid = *blocks.roots().first()?;
    Some(Place {
        cid,
        rest: path,
        segments: 0,
    })
}

// Reports that a path leads to nothing in a block.
fn report_step_error(
    rt: &HostRuntime,
    file: &str,
    place: &Place<'_>,
    bytes: &[u8],
    error: &ShowError,
) -> Outcome {
    let cid = NamedCid::new(rt.alloc(), &place.cid);
    match error {
        ShowError::Invalid(why) => {
            let why = Explanation::new(rt.alloc(), bytes, *why);
            report(rt, file, &format_args!("{cid}: {why}"), Outcome::of(error))
        }
        error => {
            let why = ShowExplanation::new(place.rest, error);
            report(rt, file, &format_args!("{cid}: {why}"), Outcome::of(error))
        }
    }
}

// Reports that blocks of this codec are not read.
fn report_unknown_codec(rt: &HostRuntime, file: &str, cid: &Cid) -> Outcome {
    let (named, code) = (NamedCid::new(rt.alloc(), cid), cid.codec());
    match codec_name(code) {
        Some(name) => {
            let why = format_args!(
                "{named}: the codec {name} is not supported (ipld car extract writes the block)"
            );
            report(rt, file, &why, Outcome::NotSo)
        }
        None => {
            let why = format_args!(
                "{named}: the codec {code:#x} is not supported (ipld car extract writes the block)"
            );
            report(rt, file, &why, Outcome::NotSo)
        }
    }
}

// Shows the value at the end of the path, or finds the link in this block that the path leads
// through.
fn take_step<W: Write>(
    rt: &HostRuntime,
    file: &str,
    request: &ShowRequest<'_>,
    place: &Place<'_>,
    bytes: &[u8],
    writer: &mut W,
) -> Result<Step, ShowError> {
    let cid = &place.cid;
    let bytes = match CheckedBlock::new(cid, bytes, request.is_unchecked) {
        Ok(block) => block.bytes(),
        Err(error) => {
            let why = DigestExplanation { cid, error };
            let cid = NamedCid::new(rt.alloc(), cid);
            let why = format_args!("{cid}: {why}");
            return Ok(Step::Ended(report(rt, file, &why, Outcome::NotSo)));
        }
    };
    let Some(codec) = BlockCodec::from_code(cid.codec()) else {
        return Ok(Step::Ended(report_unknown_codec(rt, file, cid)));
    };
    let shown = match link_on_path(rt.alloc(), codec, bytes, place.rest) {
        Ok(Some(link)) => return Ok(Step::Link(link)),
        Ok(None) => show(rt.alloc(), codec, bytes, place.rest, request.json, writer),
        Err(error) => Err(error),
    };
    match shown {
        Ok(()) => Ok(Step::Ended(Outcome::Done)),
        Err(ShowError::Write(kind)) => Err(ShowError::Write(kind)),
        Err(error) => Ok(Step::Ended(report_step_error(rt, file, place, bytes, &error))),
    }
}

// Reports that a block is missing.
fn report_lacking_block(rt: &HostRuntime, file: &str, place: &Place<'_>) -> Outcome {
    let (cid, segments) = (NamedCid::new(rt.alloc(), &place.cid), place.segments);
    if segments > 0 {
        let why = format_args!(
            "segment {segments} of the path is a link to {cid}, which is not in the CAR"
        );
        report(rt, file, &why, Outcome::NotSo)
    } else {
        let why = format_args!("{cid}: the CAR has no block with this CID");
        report(rt, file, &why, Outcome::NotSo)
    }
}

// Reports that blocks which are links lead back to one of them. This can't happen if digests are
// verified.
fn report_circle(rt: &HostRuntime, file: &str, cid: &Cid) -> Outcome {
    let cid = NamedCid::new(rt.alloc(), cid);
    let why = format_args!("{cid}: the links form a cycle through this block");
    report(rt, file, &why, Outcome::NotSo)
}

// Takes a step in the block of a place, which is in the file or in its CID.
fn step_in<W: Write>(
    rt: &HostRuntime,
    blocks: &mut Blocks<'_>,
    request: &ShowRequest<'_>,
    place: &Place<'_>,
    writer: &mut W,
) -> Result<Step, ShowError> {
    let file = blocks.file();
    let hash = place.cid.hash();
    if hash.code() == IDENTITY {
        return take_step(rt, file, request, place, hash.digest(), writer);
    }
    match blocks.find(&place.cid) {
        Ok(Some(section)) => take_step(rt, file, request, place, section.data(), writer),
        Ok(None) => Ok(Step::Ended(report_lacking_block(rt, file, place))),
        Err(outcome) => Ok(Step::Ended(outcome)),
    }
}

/// Shows the value at a path in a CAR. The path leads through links by the blocks of the file.
pub fn show_in_car<W: Write>(
    rt: &HostRuntime,
    blocks: Blocks<'_>,
    request: &ShowRequest<'_>,
    writer: &mut W,
) -> Result<Outcome, ShowError> {
    let mut blocks = blocks;
    let Some(mut place) = first_place(&blocks, request.path) else {
        let file = blocks.file();
        let why = "the CAR has no root; begin the path with the CID of a block";
        return Ok(report(rt, file, &why, Outcome::NotSo));
    };
    let hasher = match hasher_of(rt) {
        Ok(hasher) => hasher,
        Err(outcome) => return Ok(outcome),
    };
    // The blocks that are links themselves, after the last segment.
    let mut links = IndexSet::with_hasher(rt.alloc(), hasher);
    for _ in 0..MOST_SECTIONS {
        match step_in(rt, &mut blocks, request, &place, writer)? {
            Step::Ended(outcome) => return Ok(outcome),
            Step::Link(link) => {
                if link.segments > 0 {
                    links = IndexSet::with_hasher(rt.alloc(), hasher);
                } else if !links.insert(place.cid)? {
                    return Ok(report_circle(rt, blocks.file(), &place.cid));
                }
                place = Place {
                    cid: link.cid,
                    rest: rest_of_path(place.rest, link.segments),
                    segments: place.segments.saturating_add(link.segments),
                };
            }
        }
    }
    Ok(Outcome::Failed)
}
