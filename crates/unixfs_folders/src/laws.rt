//! The laws of every folder.

ghost use Rattle.std.specs.Prelude.{◌≡◌, ◌⊎◌, ℕ, List, []};
ghost use Rattle.ipld_cid.specs.Cid.{Link};
ghost use Rattle.unixfs.specs.Files.{Hashing, Collision};
ghost use Rattle.unixfs_folders.specs.FileTrees.{FileTree, folder, Members, AreSame, NamesTree, AreOf};
ghost use Rattle.unixfs_folders.specs.Folders.{EntryParts, SlotParts, AreSlots, Has, Lacks, HasEntry, HasNoEntry, bit_field};
ghost use Rattle.unixfs_folders.specs.Laws.{AllDiffer, number_of, bits_of, HasNoZeros};
ghost use Rattle.unixfs_folders.specs.Listing.{Waiting, Lists};

use unixfs::laws::{content_law, parsed_law};

/// States the laws of entries. A call does nothing.
///
/// - A folder has at most one entry of a name.
/// - It has one or none, and not both.
///
/// Otherwise two blocks that differ have one digest.
pub fn entry_law()
    ensures one_entry { (hashing : Hashing) (folder : Link) (name : List ℕ) (target other : Link)
        → HasEntry hashing folder name target → HasEntry hashing folder name other
        → (target ≡ other) ⊎ Collision hashing }
    ensures one_or_none { (hashing : Hashing) (folder : Link) (name : List ℕ) (target : Link)
        → HasEntry hashing folder name target → HasNoEntry hashing folder name
        → Collision hashing }
{
    parsed_law();
}

/// States the laws of listings. A call does nothing.
///
/// - What was listed is in the folder, also if the listing is not at its end.
/// - When nothing remains, each entry of the folder was listed, unless two blocks that differ have
///   one digest.
/// - No two entries that were listed have the same name.
pub fn listing_law()
    ensures listed_is_found { (hashing : Hashing) (root : Link) (listed : List EntryParts)
        (remain : List Waiting) (name : List ℕ) (target : Link)
        → Lists hashing root listed remain → Has listed name target
        → HasEntry hashing root name target }
    ensures found_is_listed { (hashing : Hashing) (root : Link) (listed : List EntryParts)
        (name : List ℕ) (target : Link)
        → Lists hashing root listed [] → HasEntry hashing root name target
        → Has listed name target ⊎ Collision hashing }
    ensures all_differ { (hashing : Hashing) (root : Link) (listed : List EntryParts)
        (remain : List Waiting) → Lists hashing root listed remain → AllDiffer listed }
{
    parsed_law();
}

/// States the laws of trees of files, folders and symbolic links. A call does nothing.
///
/// - A CID names at most one tree: the same bytes, targets and names, unless two blocks that differ
///   have one digest.
/// - A folder that is made names the tree of its entries: it has each of them, and no other.
/// - A listing that is at its end gives the tree that the folder names.
///
/// So what is unpacked is what was packed. Each is a tree that the root names: files by
/// [`content_law`], symbolic links by their nodes, and folders by the last two of these laws.
pub fn tree_law()
    ensures one_tree { (hashing : Hashing) (root : Link) (tree other : FileTree)
        → NamesTree hashing tree root → NamesTree hashing other root
        → AreSame tree other ⊎ Collision hashing }
    ensures made { (hashing : Hashing) (root : Link) (entries : List EntryParts)
        (members : Members) → AreOf hashing entries members
        → ((name : List ℕ) (target : Link) → Has entries name target
        → HasEntry hashing root name target)
        → ((name : List ℕ) → Lacks entries name → HasNoEntry hashing root name)
        → NamesTree hashing (folder members) root }
    ensures listed { (hashing : Hashing) (root : Link) (listed : List EntryParts)
        (members : Members) → Lists hashing root listed [] → AreOf hashing listed members
        → NamesTree hashing (folder members) root }
{
    parsed_law();
    content_law();
}

/// States the laws of bit fields. A call does nothing.
///
/// - The bit field of a shard is the number with the bits of its slots, high byte first.
/// - It has no zero bytes at its front.
pub fn bit_field_law()
    ensures number { (slots : List SlotParts) → AreSlots 0 slots
        → number_of (bit_field slots) ≡ bits_of slots }
    ensures tight { (slots : List SlotParts) → HasNoZeros (bit_field slots) }
{}
