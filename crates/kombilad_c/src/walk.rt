//! Walks over files and folders, for C.

ghost use Rattle.std.specs.Prelude.{◌≡◌, None, Some};
ghost use Rattle.kombilad_c.specs.Walk.{WantsBlock};

use crate::cid_record::CidBytes;
use crate::handle::Handle;
use crate::held::Held;
use crate::status::{OK, WALK_CLOSED, WALK_DONE};
use std::alloc::Global;

// Writes the CID of the block that a walk wants next.
fn write_wanted(held: &Held, cid: &mut CidBytes) -> u32
    ensures { WantsBlock (Some held.now) result cid.old cid.new }
{
    let wanted = match held {
        Held::File(walk) => walk.wanted(),
        Held::Folder(walk) => walk.wanted(),
        Held::Packing(_) => return WALK_CLOSED,
    };
    match wanted {
        Some(link) => {
            *cid = CidBytes::of(&link);
            OK
        }
        None => WALK_DONE,
    }
}

/// Writes the CID of the block that the walk wants next.
#[unsafe(no_mangle)]
pub extern "C" fn kombilad_walk_wanted(alloc: Global, walk: &mut Handle, cid: &mut CidBytes) -> u32
    ensures wants { WantsBlock walk.old.place.held result cid.old cid.new }
    ensures stays { walk.new.place.held ≡ walk.old.place.held }
{
    match walk.take(alloc) {
        Some(held) => {
            let status = write_wanted(&held, cid);
            walk.put(held);
            status
        }
        None => WALK_CLOSED,
    }
}

/// Frees what the handle holds.
#[unsafe(no_mangle)]
pub extern "C" fn kombilad_walk_free(alloc: Global, walk: &mut Handle)
    ensures { walk.new.place.held ≡ None }
{
    drop(walk.take(alloc));
}
