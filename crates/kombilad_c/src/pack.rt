//! Files and symbolic links, packed block by block.

ghost use Rattle.std.specs.Prelude.{◌≡◌, ◌⊎◌, ◌∷◌, [], None, Some, IfOk, IfErr, MatchOption};
ghost use Rattle.std.specs.Str.{IsUtf8};
ghost use Rattle.unixfs_build.specs.Nodes.{symlink_node};
ghost use Rattle.unixfs_build.specs.Packing.{IsNodeFault};
ghost use Rattle.kombilad_c.specs.Pack.{HasNodes, asked_version, layout_of, attributes_in, BeginsFile, AddsChunk, AddsFrom, EndsFile, EndsFrom, PacksSymlink, TakesFrom};

use crate::attributes::{attributes_of, version_of};
use crate::handle::Handle;
use crate::held::Held;
use crate::node::NodeRow;
use crate::packing::{BlockRow, Packing};
use crate::status::{CID_VERSION, OK, PACK_WAITING, TEXT_UTF8, WALK_CLOSED, pack_status};
use ipld_cid::Version;
use std::alloc::Global;
use std::str;
use unixfs_build::{Attributes, BuildError, FileBuilder, Layout, build_symlink};

// Begins a file with this layout.
fn begin_file(alloc: Global, layout: &Layout, packing: &mut Handle) -> u32
    ensures { BeginsFile layout.now result packing.old.place.held packing.new.place.held }
{
    match FileBuilder::new(alloc, layout) {
        Ok(file) => packing.hold(
            alloc,
            Held::Packing(Packing {
                file: Some(file),
                blocks: Vec::new(alloc),
                taken: 0,
            }),
        ),
        Err(error) => pack_status(error),
    }
}

/// Begins a file. Frees what the handle held.
#[unsafe(no_mangle)]
pub extern "C" fn kombilad_pack_file(
    alloc: Global,
    version: u32,
    raw_leaves: u32,
    width: usize,
    packing: &mut Handle,
) -> u32
    ensures { MatchOption (asked_version version)
        ((result ≡ 20) × (packing.new.place.held ≡ packing.old.place.held))
        (λ known. BeginsFile (layout_of known raw_leaves width) result
        packing.old.place.held packing.new.place.held) }
{
    match version_of(version) {
        Some(version) => {
            let layout = Layout {
                version,
                raw_leaves: raw_leaves != 0,
                width,
            };
            begin_file(alloc, &layout, packing)
        }
        None => CID_VERSION,
    }
}

// Adds a chunk to what is packed.
fn add_chunk(alloc: Global, packing: &mut Packing, chunk: &[u8]) -> u32
    ensures { AddsChunk packing.old packing.new chunk.now result }
{
    if packing.has_waiting() {
        return PACK_WAITING;
    }
    match &mut packing.file {
        Some(file) => {
            packing.blocks.clear();
            packing.taken = 0;
            match file.push(alloc, chunk) {
                Ok(blocks) => {
                    packing.blocks = blocks;
                    OK
                }
                Err(error) => pack_status(error),
            }
        }
        None => WALK_CLOSED,
    }
}

// Adds a chunk to what a handle holds.
fn add_held(alloc: Global, held: &mut Held, chunk: &[u8]) -> u32
    ensures { AddsFrom (Some held.old) (Some held.new) chunk.now result }
{
    match held {
        Held::Packing(packing) => add_chunk(alloc, packing, chunk),
        Held::File(_) | Held::Folder(_) => WALK_CLOSED,
    }
}

/// Adds a chunk that isn't the last to the file.
#[unsafe(no_mangle)]
pub extern "C" fn kombilad_pack_chunk(alloc: Global, packing: &mut Handle, chunk: &[u8]) -> u32
    ensures { AddsFrom packing.old.place.held packing.new.place.held chunk.now result }
{
    match packing.take(alloc) {
        Some(mut held) => {
            let status = add_held(alloc, &mut held, chunk);
            packing.put(held);
            status
        }
        None => WALK_CLOSED,
    }
}

// Adds the last chunk to what is packed.
fn end_file(alloc: Global, packing: &mut Packing, chunk: &[u8], attributes: &Attributes) -> u32
    ensures { EndsFile packing.old packing.new attributes.now chunk.now result }
{
    if packing.has_waiting() {
        return PACK_WAITING;
    }
    match packing.file.take() {
        Some(file) => {
            packing.blocks.clear();
            packing.taken = 0;
            match file.finish(alloc, chunk, attributes) {
                Ok(blocks) => {
                    packing.blocks = blocks;
                    OK
                }
                Err(error) => pack_status(error),
            }
        }
        None => WALK_CLOSED,
    }
}

// Adds the last chunk to what a handle holds.
fn end_held(alloc: Global, held: &mut Held, chunk: &[u8], attributes: &Attributes) -> u32
    ensures { EndsFrom (Some held.old) (Some held.new) attributes.now chunk.now result }
{
    match held {
        Held::Packing(packing) => end_file(alloc, packing, chunk, attributes),
        Held::File(_) | Held::Folder(_) => WALK_CLOSED,
    }
}

/// Adds the last chunk to the file. Its root has these permissions and this time.
#[unsafe(no_mangle)]
pub extern "C" fn kombilad_pack_last_chunk(
    alloc: Global,
    packing: &mut Handle,
    chunk: &[u8],
    attributes: &NodeRow,
) -> u32
    ensures { EndsFrom packing.old.place.held packing.new.place.held
        (attributes_in attributes.now) chunk.now result }
{
    match packing.take(alloc) {
        Some(mut held) => {
            let status = end_held(alloc, &mut held, chunk, &attributes_of(attributes));
            packing.put(held);
            status
        }
        None => WALK_CLOSED,
    }
}

// Returns what is packed of a symbolic link.
fn symlink_of(
    alloc: Global,
    version: Version,
    attributes: &Attributes,
    target: &str,
) -> Result<Packing, BuildError>
    ensures packed { IfOk result
        (HasNodes (symlink_node version attributes.now target.now ∷ [])) }
    ensures fault { IfErr result (IsNodeFault attributes.now
        (symlink_node version attributes.now target.now)) }
{
    let node = match build_symlink(alloc, version, attributes, target) {
        Ok(node) => node,
        Err(error) => return Err(error),
    };
    let mut nodes = Vec::new(alloc);
    match nodes.push(node) {
        Ok(()) => Packing::of_nodes(alloc, nodes),
        Err(_) => Err(BuildError::Memory),
    }
}

// Packs a symbolic link.
fn pack_symlink(
    alloc: Global,
    version: Version,
    attributes: &Attributes,
    target: &str,
    packing: &mut Handle,
) -> u32
    ensures { PacksSymlink version attributes.now target.now result
        packing.old.place.held packing.new.place.held }
{
    match symlink_of(alloc, version, attributes, target) {
        Ok(symlink) => packing.hold(alloc, Held::Packing(symlink)),
        Err(error) => pack_status(error),
    }
}

/// Packs a symbolic link. Frees what the handle held.
#[unsafe(no_mangle)]
pub extern "C" fn kombilad_pack_symlink(
    alloc: Global,
    version: u32,
    attributes: &NodeRow,
    target: &[u8],
    packing: &mut Handle,
) -> u32
    ensures { MatchOption (asked_version version)
        ((result ≡ 20) × (packing.new.place.held ≡ packing.old.place.held))
        (λ known. (IsUtf8 target.now × PacksSymlink known (attributes_in attributes.now) target.now
        result packing.old.place.held packing.new.place.held)
        ⊎ ((IsUtf8 target.now → ⊥) × (result ≡ 37)
        × (packing.new.place.held ≡ packing.old.place.held))) }
{
    match (version_of(version), str::from_utf8(target)) {
        (Some(version), Ok(target)) => {
            pack_symlink(alloc, version, &attributes_of(attributes), target, packing)
        }
        (Some(_), Err(_)) => TEXT_UTF8,
        (None, _) => CID_VERSION,
    }
}

// Takes the next block from what a handle holds.
fn take_held(held: &mut Held, row: &mut BlockRow, bytes: &mut [u8], needed: &mut usize) -> u32
    ensures { TakesFrom (Some held.old) (Some held.new) result
        (record { before = row.old; after = row.new })
        (record { before = bytes.old; after = bytes.new })
        (record { before = needed.old; after = needed.new }) }
{
    match held {
        Held::Packing(packing) => packing.take(row, bytes, needed),
        Held::File(_) | Held::Folder(_) => WALK_CLOSED,
    }
}

/// Takes the next block that was packed, and copies it to the beginning of the buffer.
#[unsafe(no_mangle)]
pub extern "C" fn kombilad_pack_take(
    alloc: Global,
    packing: &mut Handle,
    row: &mut BlockRow,
    bytes: &mut [u8],
    needed: &mut usize,
) -> u32
    ensures { TakesFrom packing.old.place.held packing.new.place.held result
        (record { before = row.old; after = row.new })
        (record { before = bytes.old; after = bytes.new })
        (record { before = needed.old; after = needed.new }) }
{
    match packing.take(alloc) {
        Some(mut held) => {
            let status = take_held(&mut held, row, bytes, needed);
            packing.put(held);
            status
        }
        None => WALK_CLOSED,
    }
}

/// Frees what is packed, if the handle holds something.
#[unsafe(no_mangle)]
pub extern "C" fn kombilad_pack_free(alloc: Global, packing: &mut Handle)
    ensures { packing.new.place.held ≡ None }
{
    drop(packing.take(alloc));
}
