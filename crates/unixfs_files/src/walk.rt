//! The steps of a walk over the blocks of a file.

ghost use Rattle.std.specs.Prelude.{◌≡◌, ◌+◌, ◌<◌, ◌≤◌, ◌^◌, ◌∷◌, ℕ, List, Option, [], length, map, reverse, None, IfOk, IfErr, OnErr, MatchResult, option_map, option_to_list, ◌++◌};
ghost use Rattle.std.specs.Option.{ForNone};
ghost use Rattle.ipld_cid.specs.LinkOf.{link_of};
ghost use Rattle.ipld_block.specs.Digest.{digest_by};
ghost use Rattle.dag_pb.specs.Views.{parts_of_link};
ghost use Rattle.unixfs.specs.Files.{children_of, slice, IsBlockOf};
ghost use Rattle.unixfs_files.specs.Parts.{Part, part_of, IsPartIn};
ghost use Rattle.unixfs_files.specs.Walking as walking;
ghost use Rattle.unixfs_files.specs.Walking.{child_of, range_of, parts_left, remain_of, wanted_of, HaveLevel, Skips, Takes, Counts, Stays, WalkFault};

use crate::error::PartError;
use crate::part::{FilePart, verified_part};
use crate::state::{FileLimits, FileRange, FileWalk, WaitingPart};
use dag_pb::PbLink;
use ipld_cid::Cid;
use std::alloc::{AllocError, Global};

// Returns the children of a part, in reverse order. They have this level.
fn reversed_children(
    alloc: Global,
    mut links: Vec<PbLink<'_>>,
    mut sizes: Vec<u64>,
    level: usize,
) -> Result<Vec<WaitingPart>, AllocError>
    requires { length links.items ≡ length sizes.items }
    ensures children { IfOk result (λ parts. map child_of (reverse parts.items)
        ≡ children_of (map parts_of_link links.entry.items) sizes.items) }
    ensures levels { IfOk result (λ parts. HaveLevel level (reverse parts.items)) }
{
    let mut parts = Vec::with_capacity(alloc, links.len())?;
    while let Some(link) = links.pop() {
        let part = WaitingPart {
            cid: link.hash,
            size: sizes.pop(),
            level,
        };
        parts.push(part)?;
    }
    Ok(parts)
}

// Removes the parts in front that are outside of the range, and then returns and removes the next.
fn next_part(waiting: &mut Vec<WaitingPart>, range: &mut FileRange) -> Option<WaitingPart>
    ensures skips { Skips (reverse waiting.old.items) (range_of range.old)
        (option_to_list result ++ reverse waiting.new.items) (range_of range.new) }
    ensures ended { ForNone result (waiting.new.items ≡ []) }
{
    while let Some(part) = waiting.pop() {
        match part.size {
            Some(size) => {
                if !range.is_outside(size) {
                    return Some(part);
                }
                *range = range.past(size);
            }
            None => return Some(part),
        }
    }
    None
}

impl FileWalk {
    /// Creates a walk over a range of the file of this CID.
    ///
    /// The walk wants the root, and skips each block that is before the range or after it. It relies
    /// on the size that the block above states, so the bytes are those of the range in each file that
    /// the root can name.
    pub fn new(alloc: Global, root: &Cid, range: FileRange, limits: &FileLimits) -> FileWalk
        ensures begins { (parts_left result
            ≡ record { cid = root.now; size = None; level = 0 } ∷ []) × (result.range ≡ range) }
        ensures limits { (result.limits ≡ limits.now) × (result.bytes_left ≡ limits.now.bytes)
            × (result.blocks_left ≡ limits.now.blocks) }
    {
        FileWalk {
            next: Some(WaitingPart {
                cid: *root,
                size: None,
                level: 0,
            }),
            waiting: Vec::new(alloc),
            range,
            limits: *limits,
            bytes_left: limits.bytes,
            blocks_left: limits.blocks,
        }
    }

    /// Returns the CID of the block that the walk wants next, or `None` if it has taken the whole
    /// range.
    pub fn wanted(&self) -> Option<Cid>
        ensures { option_map link_of result ≡ wanted_of (remain_of self.now) }
    {
        match self.next {
            Some(next) => Some(next.cid),
            None => None,
        }
    }

    // Returns the first size or limit that a part of this size with this many children breaks, if it
    // breaks one.
    #[tactic(auto, unfolding(crate::specs::Walking::excess))]
    fn excess(&self, next: &WaitingPart, size: u64, count: usize) -> Option<PartError>
        ensures exact { result ≡ walking.excess self.now next.now size count }
        ensures level { result ≡ None → 0 < count → next.now.level + 1 < 2 ^ 64 }
    {
        match next.size {
            Some(stated) if stated != size => return Some(PartError::PartSize),
            _ => {}
        }
        if self.blocks_left == 0 {
            return Some(PartError::TooManyBlocks);
        }
        if self.bytes_left < self.range.count_in(size) {
            return Some(PartError::TooLarge);
        }
        if count == 0 {
            return None;
        }
        if next.level >= self.limits.levels {
            return Some(PartError::TooDeep);
        }
        if self.limits.waiting.saturating_sub(self.waiting.len()) < count {
            return Some(PartError::TooManyParts);
        }
        None
    }

    /// Takes the block of the CID that is wanted, and returns the bytes of the range in it.
    ///
    /// The block is verified, and each size in it is compared with the number of bytes, before any
    /// bytes are returned. It allocates for the children of the block.
    ///
    /// # Errors
    ///
    /// The first [`PartError`] in the order of its variants, except that `Memory` may be any. The
    /// walk is then as it was, and still wants this block.
    pub fn take<'a>(&mut self, alloc: Global, block: &'a [u8]) -> Result<&'a [u8], PartError>
        ensures takes { IfOk result (λ bytes. Takes self.old self.new bytes.now) }
        ensures counts { IfOk result (λ bytes. Counts self.old self.new bytes.now) }
        ensures within { IfOk result (λ bytes. length bytes.now ≤ length block.entry.now) }
        ensures only { (next : WaitingPart) (others : List WaitingPart) (part : Part)
            → parts_left self.old ≡ next ∷ others
            → IsBlockOf digest_by (link_of next.cid) block.entry.now
            → IsPartIn (link_of next.cid).codec block.entry.now part → part.size < 2 ^ 64
            → walking.excess self.old next part.size (length part.children) ≡ None
            → MatchResult result (λ bytes. bytes.now ≡ slice (range_of self.old.range) part.head)
            (λ error. error ≡ PartError.Memory) }
        ensures fault { IfErr result (WalkFault self.old block.entry.now) }
        ensures stays { OnErr result (Stays self.old self.new) }
    {
        let Some(next) = self.next else {
            return Err(PartError::Finished);
        };
        let part = match verified_part(alloc, &next.cid, block) {
            Ok(part) => part,
            Err(error) => return Err(error),
        };
        if let Some(error) = self.excess(&next, part.size, part.links.len()) {
            return Err(error);
        }
        let level = next.level.saturating_add(1);
        let children = match reversed_children(alloc, part.links, part.sizes, level) {
            Ok(children) => children,
            Err(_) => return Err(PartError::Memory),
        };
        match self.waiting.extend_from_slice(&children) {
            Ok(()) => {}
            Err(_) => return Err(PartError::Memory),
        }
        let bytes = self.range.slice(part.head);
        self.range = self.range.past(part.head.len() as u64);
        self.next = next_part(&mut self.waiting, &mut self.range);
        self.bytes_left -= bytes.len() as u64;
        self.blocks_left -= 1;
        Ok(bytes)
    }
}
