//! The search for an entry of a folder by its name.

ghost use Rattle.std.specs.Prelude.{◌≡◌, map, MatchResult};
ghost use Rattle.ipld_cid.specs.Bytes.{read_cid};
ghost use Rattle.ipld_cid.specs.LinkOf.{link_of};
ghost use Rattle.kombilad_c.specs.Lookup.{LooksUp, LooksFor, content_at};
ghost use Rattle.kombilad_c.specs.Status as numbers;

use crate::cid_record::CidBytes;
use crate::positions::Span;
use crate::status::{FOLDER_MISSING, FOLDER_MORE, OK, TEXT_UTF8, cid_status, stop_folder};
use ipld_cid::Cid;
use std::alloc::Global;
use std::str;
use unixfs_folders::{Lookup, LookupStep};

// Returns the bytes at a place, as far as there are bytes.
pub(crate) fn bytes_at<'a>(bytes: &'a [u8], place: &Span) -> &'a [u8]
    ensures { result.now ≡ content_at bytes.now place.now }
{
    let rest = &bytes[place.offset.min(bytes.len())..];
    &rest[..place.len.min(rest.len())]
}

// Looks for the name in the blocks at these places of the bytes, in their order.
fn look_up(
    alloc: Global,
    folder: &Cid,
    name: &str,
    bytes: &[u8],
    blocks: &[Span],
    cid: &mut CidBytes,
    place: &mut usize,
) -> u32
    ensures { LooksUp (link_of folder.now) name.now (map (content_at bytes.now) blocks.now) result
        (record { before = cid.old; after = cid.new })
        (record { before = place.old; after = place.new }) }
{
    let mut lookup = Lookup::new(folder, name);
    for block in blocks {
        match lookup.take(alloc, bytes_at(bytes, block)) {
            Ok(LookupStep::Found(found)) => {
                *cid = CidBytes::of(&found);
                return OK;
            }
            Ok(LookupStep::Missing) => return FOLDER_MISSING,
            Ok(LookupStep::Below) => {}
            Err(error) => return stop_folder(error, place),
        }
    }
    match lookup.wanted() {
        Some(next) => {
            *cid = CidBytes::of(&next);
            FOLDER_MORE
        }
        None => unreachable!(),
    }
}

// Looks for the name if it is UTF-8. No entry has another one.
fn look_for(
    alloc: Global,
    folder: &Cid,
    name: &[u8],
    bytes: &[u8],
    blocks: &[Span],
    cid: &mut CidBytes,
    place: &mut usize,
) -> u32
    ensures { LooksFor (link_of folder.now) name.now (map (content_at bytes.now) blocks.now) result
        (record { before = cid.old; after = cid.new })
        (record { before = place.old; after = place.new }) }
{
    match str::from_utf8(name) {
        Ok(name) => look_up(alloc, folder, name, bytes, blocks, cid, place),
        Err(_) => TEXT_UTF8,
    }
}

/// Looks for the entry with this name in the folder of the CID that the bytes encode. The blocks are
/// those that the calls before asked for, in this order. They are at these places of the bytes.
#[unsafe(no_mangle)]
pub extern "C" fn kombilad_folder_lookup(
    alloc: Global,
    folder: &[u8],
    name: &[u8],
    bytes: &[u8],
    blocks: &[Span],
    cid: &mut CidBytes,
    place: &mut usize,
) -> u32
    ensures { MatchResult (read_cid 64 folder.now)
        (λ link. LooksFor link name.now (map (content_at bytes.now) blocks.now) result
        (record { before = cid.old; after = cid.new })
        (record { before = place.old; after = place.new }))
        (λ error. (result ≡ numbers.cid_status error) × (cid.new ≡ cid.old)
        × (place.new ≡ place.old)) }
{
    match Cid::try_from(folder) {
        Ok(folder) => look_for(alloc, &folder, name, bytes, blocks, cid, place),
        Err(error) => cid_status(error),
    }
}
