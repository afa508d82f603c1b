//! Folders, packed.

ghost use Rattle.std.specs.Prelude.{◌≡◌, ◌⊎◌, None, map, MatchOption, IfOk, IfErr, OnOk};
ghost use Rattle.unixfs_build.specs.Packing.{folder_nodes, IsFolderFault};
ghost use Rattle.unixfs_build.specs.Views.{entry_of};
ghost use Rattle.unixfs_folders.specs.Folders.{AreEntries};
ghost use Rattle.kombilad_c.specs.Pack.{asked_version, attributes_in, HasNodes, IsEntry, IsNoEntry, ReadsFolder, PacksFolder};
ghost use Rattle.kombilad_c.specs.Rows.{AreEach, FirstFault};

use crate::attributes::{attributes_of, version_of};
use crate::folder::EntryRow;
use crate::handle::Handle;
use crate::held::Held;
use crate::lookup::bytes_at;
use crate::node::NodeRow;
use crate::packing::Packing;
use crate::status::{CID_VERSION, MEMORY, TEXT_UTF8, cid_status, stop_pack};
use ipld_cid::{Cid, Version};
use std::alloc::Global;
use std::str;
use unixfs_build::{Attributes, BuildError, NewEntry, build_folder};

// Returns the entry of a row, or the status of what is wrong with it.
fn entry_of<'a>(row: &EntryRow, names: &'a [u8]) -> Result<NewEntry<'a>, u32>
    ensures read { IfOk result (λ entry. IsEntry names.now row.now (entry_of entry)) }
    ensures fault { IfErr result (IsNoEntry names.now row.now) }
{
    match Cid::try_from(row.cid.as_slice()) {
        Ok(cid) => match str::from_utf8(bytes_at(names, &row.name)) {
            Ok(name) => Ok(NewEntry {
                name,
                cid,
                total: row.tsize,
            }),
            Err(_) => Err(TEXT_UTF8),
        },
        Err(error) => Err(cid_status(error)),
    }
}

// Returns the entries of rows. Or it returns the status of what is wrong with one of them, and
// writes the number of that.
fn entries_of<'a>(
    alloc: Global,
    rows: &[EntryRow],
    names: &'a [u8],
    place: &mut usize,
) -> Result<Vec<NewEntry<'a>>, u32>
    ensures read { IfOk result (λ entries. AreEach (IsEntry names.now) rows.now
        (map entry_of entries.items)) }
    ensures same_place { OnOk result (place.new ≡ place.old) }
    ensures fault { IfErr result (λ status. ((status ≡ 1) × (place.new ≡ place.old))
        ⊎ FirstFault (IsEntry names.now) (IsNoEntry names.now) rows.now place.new status) }
{
    let mut entries = Vec::new(alloc);
    for (index, row) in rows.iter().enumerate() {
        match entry_of(row, names) {
            Ok(entry) => match entries.push(entry) {
                Ok(()) => {}
                Err(_) => return Err(MEMORY),
            },
            Err(status) => {
                *place = index;
                return Err(status);
            }
        }
    }
    Ok(entries)
}

// Returns what is packed of a folder with these entries.
fn folder_of(
    alloc: Global,
    version: Version,
    attributes: &Attributes,
    sharded_above: u64,
    entries: &[NewEntry<'_>],
) -> Result<Packing, BuildError>
    ensures packed { IfOk result (HasNodes (folder_nodes version attributes.now sharded_above
        (map entry_of entries.now))) }
    ensures names { OnOk result (AreEntries None (map entry_of entries.now)) }
    ensures fault { IfErr result
        (IsFolderFault version attributes.now sharded_above (map entry_of entries.now)) }
{
    match build_folder(alloc, version, attributes, sharded_above, entries) {
        Ok(nodes) => Packing::of_nodes(alloc, nodes),
        Err(error) => Err(error),
    }
}

// Packs a folder of these entries.
fn pack_entries(
    alloc: Global,
    version: Version,
    attributes: &Attributes,
    sharded_above: u64,
    entries: &[NewEntry<'_>],
    packing: &mut Handle,
    place: &mut usize,
) -> u32
    ensures { PacksFolder version attributes.now sharded_above (map entry_of entries.now) result
        packing.old.place.held packing.new.place.held
        (record { before = place.old; after = place.new }) }
{
    match folder_of(alloc, version, attributes, sharded_above, entries) {
        Ok(folder) => packing.hold(alloc, Held::Packing(folder)),
        Err(error) => stop_pack(error, place),
    }
}

/// Packs a folder of the entries in these rows, whose names are in the bytes. Frees what the handle
/// held.
#[unsafe(no_mangle)]
pub extern "C" fn kombilad_pack_folder(
    alloc: Global,
    version: u32,
    attributes: &NodeRow,
    sharded_above: u64,
    rows: &[EntryRow],
    names: &[u8],
    packing: &mut Handle,
    place: &mut usize,
) -> u32
    ensures { MatchOption (asked_version version)
        ((result ≡ 20) × (packing.new.place.held ≡ packing.old.place.held)
        × (place.new ≡ place.old))
        (λ known. ReadsFolder known (attributes_in attributes.now) sharded_above
        names.now rows.now result packing.old.place.held packing.new.place.held
        (record { before = place.old; after = place.new })) }
{
    match version_of(version) {
        Some(version) => match entries_of(alloc, rows, names, place) {
            Ok(entries) => pack_entries(
                alloc,
                version,
                &attributes_of(attributes),
                sharded_above,
                &entries,
                packing,
                place,
            ),
            Err(status) => status,
        },
        None => CID_VERSION,
    }
}
