//! The slots that lead to a shard.

ghost use Rattle.std.specs.Prelude.{◌≤◌};

use murmur3::murmur3_x64_64;

// The slots that lead from the root to a shard, or to an entry: the front of a hash.
#[derive(Clone, Copy)]
pub(crate) struct SlotPath {
    slots: [u8; 8],
    len: usize,
    ghost in_range: { len ≤ 8 },
}

impl SlotPath {
    ghost use Rattle.std.specs.Prelude.{◌≡◌, ◌<◌, ◌++◌, [], ◌∷◌, length, take, bytes_eq};
    ghost use Rattle.unixfs_folders.specs.Folders.{hash_of};
    ghost use Rattle.unixfs_folders.specs.Paths.{path_of};

    // Returns the path to the root, which has no slots.
    pub(crate) fn root() -> SlotPath
        ensures { path_of result ≡ [] }
    {
        SlotPath {
            slots: [0; 8],
            len: 0,
        }
    }

    // Returns the number of slots.
    pub(crate) fn len(&self) -> usize
        ensures value { result ≡ length (path_of self.now) }
    {
        self.len
    }

    // Returns the path with one more slot.
    pub(crate) fn child(&self, slot: u8) -> SlotPath
        requires { length (path_of self.now) < 8 }
        ensures { path_of result ≡ path_of self.now ++ slot ∷ [] }
    {
        let mut slots = self.slots;
        slots[self.len] = slot;
        SlotPath {
            slots,
            len: self.len + 1,
        }
    }

    // Returns whether the hash of the name begins with these slots.
    pub(crate) fn leads_to(&self, name: &str) -> bool
        ensures { result ≡ bytes_eq (take (length (path_of self.now)) (hash_of name.now))
            (path_of self.now) }
    {
        murmur3_x64_64(name.as_bytes())[..self.len] == self.slots[..self.len]
    }
}
