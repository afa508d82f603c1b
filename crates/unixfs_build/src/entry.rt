//! The entries of a folder that is to be packed.

ghost use Rattle.std.specs.Prelude.{◌≡◌, ◌+◌, ◌<◌, nat_lt, map, None, IfErr, OnOk, MatchOption};
ghost use Rattle.unixfs_folders.specs.Folders.{AreEntries};
ghost use Rattle.unixfs_build.specs.Packing.{listed_size, listed_sizes, IsNameFault};
ghost use Rattle.unixfs_build.specs.Views.{entry_of};

use crate::error::BuildError;
use ipld_cid::Cid;
use unixfs_folders::{comes_after, is_entry_name};

/// An entry of a folder that is to be packed.
#[derive(Clone, Copy)]
pub struct NewEntry<'a> {
    /// The name, which is not empty, `.` or `..`, and has no `/` and no NUL.
    pub name: &'a str,
    /// The CID of the file, the folder or the symbolic link.
    pub cid: Cid,
    /// How many bytes its block has, with all blocks below it: `total` of the block.
    pub total: u64,
}

// Checks that the names are valid and ascend.
pub(crate) fn check_names(entries: &[NewEntry<'_>]) -> Result<(), BuildError>
    ensures valid { OnOk result (AreEntries None (map entry_of entries.now)) }
    ensures fault { IfErr result (IsNameFault 0 None (map entry_of entries.now)) }
{
    let mut before = None;
    for (index, entry) in entries.iter().enumerate() {
        if !is_entry_name(entry.name) {
            return Err(BuildError::InvalidName(index));
        }
        if !comes_after(before, entry.name) {
            return Err(BuildError::NameOrder(index));
        }
        before = Some(entry.name);
    }
    Ok(())
}

// Returns the number without the bytes of the name and of the CID of an entry, or `None` if there
// are more of these.
fn without(number: u64, entry: &NewEntry<'_>) -> Option<u64>
    ensures { MatchOption result (number < listed_size (entry_of entry.now))
        (λ rest. rest + listed_size (entry_of entry.now) ≡ number) }
{
    let rest = number.checked_sub(entry.name.len() as u64)?;
    rest.checked_sub(entry.cid.encoded_len() as u64)
}

// Returns whether the names and the CIDs of the entries have more bytes than this altogether.
pub(crate) fn are_longer(above: u64, entries: &[NewEntry<'_>]) -> bool
    ensures { result ≡ nat_lt above (listed_sizes (map entry_of entries.now)) }
{
    let mut rest = above;
    for entry in entries {
        match without(rest, entry) {
            Some(left) => rest = left,
            None => return true,
        }
    }
    false
}
