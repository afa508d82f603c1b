//! The keys of an open map.

ghost use Rattle.std.specs.Prelude.{◌≡◌, ◌≤◌, [], IfOk};
ghost use Rattle.dag_cbor_format.specs.Canonical.{goes_first, is_before};
ghost use Rattle.dag_cbor_blocks.specs.KeyList.{keys_now, Adds, IsGreatest};

use std::alloc::{AllocError, Global};
use std::cmp::Ordering;
use std::collections::BTreeSet;

// Capacity is reserved for at most this many keys in advance, because a head may announce more keys
// than follow.
const RESERVED: u64 = 16;

// Keys in length-first order (RFC 8949, section 4.2.3). Every key comes after the one before it,
// and so differs from all before it.
#[derive(Drop)]
pub(crate) struct AscendingKeys<'a> {
    keys: Vec<&'a str>,
    greatest: &'a str,
    ghost ascending: { IsGreatest greatest.now (keys_now keys.items) },
}

// The keys that a map has so far.
#[derive(Drop)]
pub(crate) enum Keys<'a> {
    // In the order in which they came, while that is length-first order.
    Ascending(AscendingKeys<'a>),
    // In byte order, once it isn't.
    Any(BTreeSet<&'a str>),
}

// Returns whether `bytes` come before `others` in byte order. Compares byte by byte.
#[inline(always)]
fn precedes_by_bytes(bytes: &[u8], others: &[u8]) -> bool
    ensures { result ≡ is_before bytes.now others.now }
{
    let mut left = bytes;
    let mut right = others;
    while let [byte, rest @ ..] = left {
        let [other, others @ ..] = right else {
            return false;
        };
        if *byte != *other {
            return *byte < *other;
        }
        left = rest;
        right = others;
    }
    !right.is_empty()
}

// Returns whether `bytes` come before `others` in byte order. Skips equal bytes eight at a time.
#[inline(always)]
fn precedes(bytes: &[u8], others: &[u8]) -> bool
    ensures { result ≡ is_before bytes.now others.now }
{
    let mut left = bytes;
    let mut right = others;
    while let Some((front, rest)) = left.split_first_chunk::<8>() {
        let Some((other, others)) = right.split_first_chunk::<8>() else {
            break;
        };
        if u64::from_be_bytes(*front) != u64::from_be_bytes(*other) {
            break;
        }
        left = rest;
        right = others;
    }
    precedes_by_bytes(left, right)
}

// Returns whether a key comes after another in length-first order.
#[inline(always)]
pub(crate) fn comes_after(key: &str, other: &str) -> bool
    ensures { result ≡ goes_first other.now key.now }
{
    match other.len().cmp(&key.len()) {
        Ordering::Less => true,
        Ordering::Equal => precedes(other.as_bytes(), key.as_bytes()),
        Ordering::Greater => false,
    }
}

// Reserves memory for the first `count` keys of a map. The bound keeps a head without keys from
// reserving memory.
#[inline(always)]
fn reserve_keys(keys: &mut Vec<&str>, count: usize) -> Result<(), AllocError>
    requires { count ≤ 16 }
    ensures { keys.new.items ≡ keys.old.items }
{
    if keys.capacity() < count {
        keys.reserve(count)?;
    }
    Ok(())
}

impl<'a> AscendingKeys<'a> {
    ghost use Rattle.dag_cbor_blocks.specs.Ascending.{keys_in, AddsGreatest};

    // Creates an empty collection in the memory of another map's keys. `count` keys are to come.
    #[inline(always)]
    fn with_memory(mut spare: Vec<&'a str>, count: u64) -> Result<Self, AllocError>
        ensures { IfOk result (λ keys. keys_in keys ≡ []) }
    {
        spare.clear();
        reserve_keys(&mut spare, count.min(RESERVED) as usize)?;
        Ok(AscendingKeys {
            keys: spare,
            greatest: "",
        })
    }

    // Adds a key if it comes after all others, and returns whether it does.
    #[inline(always)]
    fn add_greatest(&mut self, key: &'a str) -> Result<bool, AllocError>
        ensures { AddsGreatest key.entry.now (keys_in self.old) result (keys_in self.new) }
    {
        if self.keys.is_empty() || comes_after(key, self.greatest) {
            self.keys.push(key)?;
            self.greatest = key;
            Ok(true)
        } else {
            Ok(false)
        }
    }

    // Returns these keys as a set.
    fn to_set(&self, alloc: Global) -> Result<BTreeSet<&'a str>, AllocError>
        ensures { IfOk result (λ set. keys_now set.keys ≡ keys_in self.now) }
    {
        let mut set = BTreeSet::new(alloc);
        for key in &self.keys {
            set.insert(*key)?;
        }
        Ok(set)
    }
}

// Adds a key unless the set has it, and returns whether it was new.
fn insert_into<'a>(set: &mut BTreeSet<&'a str>, key: &'a str) -> Result<bool, AllocError>
    ensures { Adds key.entry.now (keys_now set.old.keys) result (keys_now set.new.keys) }
{
    Ok(set.insert(key)?)
}

impl<'a> Keys<'a> {
    ghost use Rattle.dag_cbor_blocks.specs.Keys.{seen_in};

    // Creates an empty collection in the memory of another map's keys. `count` keys are to come.
    #[inline(always)]
    pub(crate) fn with_memory(spare: Vec<&'a str>, count: u64) -> Result<Self, AllocError>
        ensures { IfOk result (λ keys. seen_in keys ≡ []) }
    {
        Ok(Keys::Ascending(AscendingKeys::with_memory(spare, count)?))
    }

    // Adds a key unless it is there already, and returns whether it was new. If it does not come
    // after all others, the keys become a set.
    #[inline(always)]
    pub(crate) fn insert(&mut self, alloc: Global, key: &'a str) -> Result<bool, AllocError>
        ensures { Adds key.entry.now (seen_in self.old) result (seen_in self.new) }
    {
        if let Keys::Ascending(keys) = self {
            if keys.add_greatest(key)? {
                return Ok(true);
            }
        }
        self.insert_any(alloc, key)
    }

    // Adds a key that does not come after all others, or adds a key to a set.
    #[inline(never)]
    fn insert_any(&mut self, alloc: Global, key: &'a str) -> Result<bool, AllocError>
        ensures { Adds key.entry.now (seen_in self.old) result (seen_in self.new) }
    {
        let mut set = match self {
            Keys::Ascending(keys) => keys.to_set(alloc)?,
            Keys::Any(set) => return insert_into(set, key),
        };
        let is_new = insert_into(&mut set, key)?;
        *self = Keys::Any(set);
        Ok(is_new)
    }

    // Returns the memory of the keys if other keys can use it.
    #[inline(always)]
    pub(crate) fn into_memory(self) -> Option<Vec<&'a str>> {
        match self {
            Keys::Ascending(keys) => Some(keys.keys),
            Keys::Any(_) => None,
        }
    }
}
