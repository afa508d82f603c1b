//! Files of UnixFS, read block by block.

ghost use Rattle.std.specs.Prelude.{◌≡◌, ◌⊎◌, ◌≤◌, ◌<◌, ◌∷◌, ◌^◌, List, None, Some, MatchResult, length};
ghost use Rattle.ipld_block.specs.Digest.{digest_by};
ghost use Rattle.ipld_cid.specs.Bytes.{read_cid};
ghost use Rattle.ipld_cid.specs.LinkOf.{link_of};
ghost use Rattle.unixfs.specs.Files.{slice, IsBlockOf};
ghost use Rattle.unixfs_files.specs.declared.state.FileWalk as walks;
ghost use Rattle.unixfs_files.specs.declared.state.WaitingPart.{WaitingPart};
ghost use Rattle.unixfs_files.specs.Parts.{Part, IsPartIn};
ghost use Rattle.unixfs_files.specs.Walking.{range_of, parts_left, excess};
ghost use Rattle.kombilad_c.specs.declared.held.Held.TheVariants as holding;
ghost use Rattle.kombilad_c.specs.Status as numbers;
ghost use Rattle.kombilad_c.specs.File.{BeginsFile, TakesBlock, TakesFrom, IsTaken};

use crate::fill::fill;
use crate::handle::Handle;
use crate::held::Held;
use crate::status::{TOO_SHORT, WALK_CLOSED, cid_status, stop_file};
use ipld_cid::Cid;
use std::alloc::Global;
use unixfs_files::{FileLimits, FileRange, FileWalk};

/// Begins a walk over at most `count` bytes, from the byte `start` on, of the file of the CID that
/// the bytes encode. Frees what the handle held.
#[unsafe(no_mangle)]
pub extern "C" fn kombilad_file_new(
    alloc: Global,
    root: &[u8],
    start: u64,
    count: u64,
    bytes: u64,
    blocks: u64,
    waiting: usize,
    levels: usize,
    walk: &mut Handle,
) -> u32
    ensures { MatchResult (read_cid 64 root.now)
        (λ link. BeginsFile link
        (record { start = start; length = Some count })
        (record { bytes = bytes; blocks = blocks; waiting = waiting; levels = levels })
        result walk.old.place.held walk.new.place.held)
        (λ error. (result ≡ numbers.cid_status error)
        × (walk.new.place.held ≡ walk.old.place.held)) }
{
    let range = FileRange {
        start,
        length: Some(count),
    };
    let limits = FileLimits {
        bytes,
        blocks,
        waiting,
        levels,
    };
    match Cid::try_from(root) {
        Ok(root) => walk.hold(
            alloc,
            Held::File(FileWalk::new(alloc, &root, range, &limits)),
        ),
        Err(error) => cid_status(error),
    }
}

// Gives a block to the walk, and copies the bytes of the file in it to the beginning of the buffer.
fn take_block(
    alloc: Global,
    walk: &mut FileWalk,
    block: &[u8],
    bytes: &mut [u8],
    needed: &mut usize,
    offset: &mut usize,
) -> u32
    ensures exact { TakesBlock walk.old walk.new block.now result
        (record { before = bytes.old; after = bytes.new })
        (record { before = needed.old; after = needed.new })
        (record { before = offset.old; after = offset.new }) }
    ensures only { (next : WaitingPart) (others : List WaitingPart) (part : Part)
        → parts_left walk.old ≡ next ∷ others → IsBlockOf digest_by (link_of next.cid) block.now
        → IsPartIn (link_of next.cid).codec block.now part → part.size < 2 ^ 64
        → excess walk.old next part.size (length part.children) ≡ None
        → length block.now ≤ length bytes.old
        → IsTaken (slice (range_of walk.old.range) part.head) result bytes.old bytes.new needed.new }
{
    if bytes.len() < block.len() {
        *needed = block.len();
        return TOO_SHORT;
    }
    match walk.take(alloc, block) {
        Ok(head) => fill(head, bytes, needed),
        Err(error) => stop_file(error, offset),
    }
}

// Gives a block to the walk over a file that a handle holds.
fn take_held(
    alloc: Global,
    held: &mut Held,
    block: &[u8],
    bytes: &mut [u8],
    needed: &mut usize,
    offset: &mut usize,
) -> u32
    ensures exact { TakesFrom (Some held.old) (Some held.new) block.now result
        (record { before = bytes.old; after = bytes.new })
        (record { before = needed.old; after = needed.new })
        (record { before = offset.old; after = offset.new }) }
    ensures only { (w : walks.FileWalk) (next : WaitingPart) (others : List WaitingPart)
        (part : Part) → held.old ≡ holding.File w → parts_left w ≡ next ∷ others
        → IsBlockOf digest_by (link_of next.cid) block.now
        → IsPartIn (link_of next.cid).codec block.now part → part.size < 2 ^ 64
        → excess w next part.size (length part.children) ≡ None
        → length block.now ≤ length bytes.old
        → IsTaken (slice (range_of w.range) part.head) result bytes.old bytes.new needed.new }
{
    match held {
        Held::File(walk) => take_block(alloc, walk, block, bytes, needed, offset),
        Held::Folder(_) | Held::Packing(_) => WALK_CLOSED,
    }
}

/// Gives the block that it wants to the walk, and copies the bytes of the file in it to the
/// beginning of the buffer, which is at least as long as the block.
#[unsafe(no_mangle)]
pub extern "C" fn kombilad_file_take(
    alloc: Global,
    walk: &mut Handle,
    block: &[u8],
    bytes: &mut [u8],
    needed: &mut usize,
    offset: &mut usize,
) -> u32
    ensures exact { TakesFrom walk.old.place.held walk.new.place.held block.now result
        (record { before = bytes.old; after = bytes.new })
        (record { before = needed.old; after = needed.new })
        (record { before = offset.old; after = offset.new }) }
    ensures only { (w : walks.FileWalk) (next : WaitingPart) (others : List WaitingPart)
        (part : Part) → walk.old.place.held ≡ Some (holding.File w)
        → parts_left w ≡ next ∷ others
        → IsBlockOf digest_by (link_of next.cid) block.now
        → IsPartIn (link_of next.cid).codec block.now part → part.size < 2 ^ 64
        → excess w next part.size (length part.children) ≡ None
        → length block.now ≤ length bytes.old
        → IsTaken (slice (range_of w.range) part.head) result bytes.old bytes.new needed.new }
{
    match walk.take(alloc) {
        Some(mut held) => {
            let status = take_held(alloc, &mut held, block, bytes, needed, offset);
            walk.put(held);
            status
        }
        None => WALK_CLOSED,
    }
}
