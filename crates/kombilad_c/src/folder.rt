//! Folders of UnixFS, listed block by block.

ghost use Rattle.std.specs.Prelude.{◌≡◌, ◌⊎◌, ◌+◌, ◌/◌, ◌≤◌, ◌∷◌, ◌++◌, List, Some, MatchResult, length, map, take, drop};
ghost use Rattle.ipld_block.specs.Digest.{digest_by};
ghost use Rattle.ipld_cid.specs.Bytes.{read_cid};
ghost use Rattle.unixfs_folders.specs.declared.walk.FolderWalk as walks;
ghost use Rattle.unixfs_folders.specs.Folders.{EntryParts};
ghost use Rattle.unixfs_folders.specs.Listing.{Waiting, Visits};
ghost use Rattle.unixfs_folders.specs.Views.{entry_parts};
ghost use Rattle.unixfs_folders.specs.Walks.{remain_of};
ghost use Rattle.kombilad_c.specs.declared.held.Held.TheVariants as holding;
ghost use Rattle.kombilad_c.specs.Fill.{IsFilled};
ghost use Rattle.kombilad_c.specs.Status as numbers;
ghost use Rattle.kombilad_c.specs.Folder.{row_at, rows_from, names_of, BeginsFolder, ListsBlock, ListsFrom};

use crate::cid_record::CidBytes;
use crate::handle::Handle;
use crate::held::Held;
use crate::positions::Span;
use crate::status::{OK, TOO_SHORT, WALK_CLOSED, cid_status, stop_folder};
use ipld_cid::Cid;
use std::alloc::Global;
use unixfs_folders::{FolderEntry, FolderWalk};

// The fewest bytes of a block that an entry takes, without its name.
const BYTES_OF_ENTRY: usize = 6;

/// An entry of a folder, for C.
#[repr(C)]
#[derive(Clone, Copy)]
pub struct EntryRow {
    /// The CID of the entry.
    pub cid: CidBytes,
    /// The place of the name in the bytes of the names.
    pub name: Span,
    /// The size that the link states, or 0 if it states none.
    pub tsize: u64,
    /// 1 if the link states a size, and otherwise 0.
    pub has_tsize: u64,
}

impl EntryRow {
    // Returns the row of an entry whose name begins at this byte of the names.
    fn of(entry: &FolderEntry<'_>, at: usize) -> Self
        ensures { result ≡ row_at at (entry_parts entry.now) }
    {
        EntryRow {
            cid: CidBytes::of(&entry.cid),
            name: Span {
                offset: at,
                len: entry.name.len(),
            },
            tsize: entry.tsize.unwrap_or(0),
            has_tsize: if entry.tsize.is_some() { 1 } else { 0 },
        }
    }
}

// Copies a name to the byte `at` of the buffer. Returns the byte behind it.
fn put_name(name: &str, at: usize, names: &mut [u8]) -> usize
    requires { at + length name.now ≤ length names.old }
    ensures end { result ≡ at + length name.now }
    ensures names { names.new
        ≡ take at names.old ++ (name.now ++ drop (at + length name.now) names.old) }
{
    let end = at + name.len();
    names[at..end].copy_from_slice(name.as_bytes());
    end
}

// Writes the rows of the entries, and their names one after the other, to the beginnings of the
// buffers.
fn write_entries(entries: &[FolderEntry<'_>], rows: &mut [EntryRow], names: &mut [u8])
    requires rows { length entries.now ≤ length rows.old }
    requires names { length (names_of (map entry_parts entries.now)) ≤ length names.old }
    ensures rows { IsFilled (rows_from 0 (map entry_parts entries.now)) rows.old rows.new }
    ensures names { IsFilled (names_of (map entry_parts entries.now)) names.old names.new }
{
    let mut at = 0;
    for (index, entry) in entries.iter().enumerate() {
        rows[index] = EntryRow::of(entry, at);
        at = put_name(entry.name, at, names);
    }
}

// Gives a block to the walk, and writes the entries in it to the beginnings of the buffers.
fn take_block(
    alloc: Global,
    walk: &mut FolderWalk,
    block: &[u8],
    rows: &mut [EntryRow],
    names: &mut [u8],
    needed: &mut usize,
    place: &mut usize,
) -> u32
    ensures exact { ListsBlock walk.old walk.new block.now result
        (record { before = rows.old; after = rows.new })
        (record { before = names.old; after = names.new })
        (record { before = needed.old; after = needed.new })
        (record { before = place.old; after = place.new }) }
    ensures only { (next : Waiting) (others : List Waiting) (entries : List EntryParts)
        (below : List Waiting) → remain_of walk.old ≡ next ∷ others
        → Visits digest_by next block.now entries below
        → length block.now / 6 ≤ length rows.old → length block.now ≤ length names.old
        → (result ≡ 0) ⊎ (result ≡ 1) }
{
    if rows.len() < block.len() / BYTES_OF_ENTRY {
        *needed = block.len() / BYTES_OF_ENTRY;
        return TOO_SHORT;
    }
    if names.len() < block.len() {
        *needed = block.len() / BYTES_OF_ENTRY;
        return TOO_SHORT;
    }
    match walk.take(alloc, block) {
        Ok(entries) => {
            write_entries(&entries, rows, names);
            *needed = entries.len();
            OK
        }
        Err(error) => stop_folder(error, place),
    }
}

// Gives a block to the walk over a folder that a handle holds.
fn take_held(
    alloc: Global,
    held: &mut Held,
    block: &[u8],
    rows: &mut [EntryRow],
    names: &mut [u8],
    needed: &mut usize,
    place: &mut usize,
) -> u32
    ensures exact { ListsFrom (Some held.old) (Some held.new) block.now result
        (record { before = rows.old; after = rows.new })
        (record { before = names.old; after = names.new })
        (record { before = needed.old; after = needed.new })
        (record { before = place.old; after = place.new }) }
    ensures only { (w : walks.FolderWalk) (next : Waiting) (others : List Waiting)
        (entries : List EntryParts) (below : List Waiting)
        → held.old ≡ holding.Folder w → remain_of w ≡ next ∷ others
        → Visits digest_by next block.now entries below
        → length block.now / 6 ≤ length rows.old → length block.now ≤ length names.old
        → (result ≡ 0) ⊎ (result ≡ 1) }
{
    match held {
        Held::Folder(walk) => take_block(alloc, walk, block, rows, names, needed, place),
        Held::File(_) | Held::Packing(_) => WALK_CLOSED,
    }
}

/// Begins a walk over the folder of the CID that the bytes encode. Frees what the handle held.
#[unsafe(no_mangle)]
pub extern "C" fn kombilad_folder_new(alloc: Global, root: &[u8], walk: &mut Handle) -> u32
    ensures { MatchResult (read_cid 64 root.now)
        (λ link. BeginsFolder link result walk.old.place.held walk.new.place.held)
        (λ error. (result ≡ numbers.cid_status error)
        × (walk.new.place.held ≡ walk.old.place.held)) }
{
    match Cid::try_from(root) {
        Ok(root) => walk.hold(alloc, Held::Folder(FolderWalk::new(alloc, &root))),
        Err(error) => cid_status(error),
    }
}

/// Gives the block that it wants to the walk, and writes the entries in it to the beginnings of the
/// buffers. One has room for a sixth as many rows as the block has bytes, and the other for as many
/// bytes as the block.
#[unsafe(no_mangle)]
pub extern "C" fn kombilad_folder_take(
    alloc: Global,
    walk: &mut Handle,
    block: &[u8],
    rows: &mut [EntryRow],
    names: &mut [u8],
    needed: &mut usize,
    place: &mut usize,
) -> u32
    ensures exact { ListsFrom walk.old.place.held walk.new.place.held block.now result
        (record { before = rows.old; after = rows.new })
        (record { before = names.old; after = names.new })
        (record { before = needed.old; after = needed.new })
        (record { before = place.old; after = place.new }) }
    ensures only { (w : walks.FolderWalk) (next : Waiting) (others : List Waiting)
        (entries : List EntryParts) (below : List Waiting)
        → walk.old.place.held ≡ Some (holding.Folder w) → remain_of w ≡ next ∷ others
        → Visits digest_by next block.now entries below
        → length block.now / 6 ≤ length rows.old → length block.now ≤ length names.old
        → (result ≡ 0) ⊎ (result ≡ 1) }
{
    match walk.take(alloc) {
        Some(mut held) => {
            let status = take_held(alloc, &mut held, block, rows, names, needed, place);
            walk.put(held);
            status
        }
        None => WALK_CLOSED,
    }
}
