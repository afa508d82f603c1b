//! A position in a block: the lists and maps that are open there, and the bytes that follow.

ghost use Rattle.std.specs.Prelude.{◌≡◌, ◌+◌, ◌-◌, ◌<◌, ◌≤◌, ◌++◌, ◌∷◌, [], length, IfErr, OnOk};
ghost use Rattle.dag_cbor_format.specs.Reading.{many, pairs as pairs_frame};
ghost use Rattle.dag_cbor_blocks.specs.Hints.{HintIs};
ghost use Rattle.dag_cbor_blocks.specs.Position.{framed, inside, frames_of, is_open, TakesKey, NextIn};

use crate::keys::Keys;
use dag_cbor_format::CborError;
use dag_cbor_format::item_header::read_key_text;
use std::alloc::{AllocError, AllocFailed, Global};
use std::mem;

// A map with `pairs` more pairs to come, and the keys that it has so far.
#[derive(Drop)]
pub(crate) struct UnreadMap<'a> {
    pairs: u64,
    keys: Keys<'a>,
}

// An open level: nothing, a list with this number of items to come, or a map.
#[derive(Drop)]
pub(crate) enum Level<'a> {
    Whole,
    List(u64),
    Map(UnreadMap<'a>),
}

// The next part of the innermost level.
#[derive(Clone, Copy)]
pub(crate) enum Next<'a> {
    // An item of a list.
    Item,
    // The value of a pair of a map, after this key.
    Value(&'a str),
    EndOfList,
    EndOfMap,
    // The innermost level was `Whole`, and the level around it is now the innermost.
    Outside,
}

#[derive(Drop)]
pub(crate) struct Position<'a> {
    alloc: Global,
    pub(crate) rest: &'a [u8],
    // The number of bytes that were left at the start of the item, the key or the byte string of a
    // link that was read last.
    pub(crate) begun: usize,
    innermost: Level<'a>,
    outer: Vec<Level<'a>>,
    // The memory of keys of a map that has ended.
    spare: Vec<&'a str>,
    // The number of the block's bytes that no hint counts on.
    uncounted: usize,
}

impl<'a> UnreadMap<'a> {
    // Reads the key of the next pair, which the map must not have yet, and returns it with the
    // bytes after it.
    #[inline(always)]
    fn read_key(&mut self, alloc: Global, bytes: &'a [u8]) -> Result<(&'a str, &'a [u8]), CborError>
        requires { 0 < self.old.pairs }
        ensures { TakesKey self.old bytes.entry.now result self.new }
    {
        let (key, rest) = read_key_text(bytes)?;
        if !self.keys.insert(alloc, key)? {
            return Err(CborError::DuplicateKey);
        }
        self.pairs -= 1;
        Ok((key, rest))
    }
}

impl<'a> Position<'a> {
    // Creates a position at the start of a block.
    pub(crate) fn new(alloc: Global, bytes: &'a [u8]) -> Self
        ensures frames { frames_of result ≡ [] }
        ensures rest { result.rest.now ≡ bytes.entry.now }
        ensures uncounted { result.uncounted ≡ length bytes.entry.now }
    {
        Position {
            alloc,
            rest: bytes,
            begun: bytes.len(),
            innermost: Level::Whole,
            outer: Vec::new(alloc),
            spare: Vec::new(alloc),
            uncounted: bytes.len(),
        }
    }

    // Returns the length of a list as a hint if it can be right. Every item takes at least one byte
    // that no other hint counts on.
    #[inline(always)]
    pub(crate) fn capacity_hint(&mut self, items: u64) -> Option<usize>
        ensures hint { HintIs items self.old.uncounted self.new.uncounted result }
        ensures frames { frames_of self.new ≡ frames_of self.old }
        ensures rest { self.new.rest.now ≡ self.old.rest.now }
        ensures outer { length self.new.outer.items ≡ length self.old.outer.items }
        ensures begun { self.new.begun ≡ self.old.begun }
    {
        let items = items as usize;
        self.uncounted = self.uncounted.checked_sub(items)?;
        Some(items)
    }

    #[inline(always)]
    fn open(&mut self, level: Level<'a>) -> Result<(), AllocError>
        ensures frames { OnOk result (frames_of self.new ≡ framed level.entry
            (frames_of self.old)) }
        ensures rest { OnOk result (self.new.rest.now ≡ self.old.rest.now) }
        ensures outer { OnOk result (length self.new.outer.items ≤ length self.old.outer.items
            + 1) }
        ensures begun { OnOk result (self.new.begun ≡ self.old.begun) }
        ensures uncounted { OnOk result (self.new.uncounted ≡ self.old.uncounted) }
        ensures unchanged { IfErr result (λ _. (frames_of self.new ≡ frames_of self.old)
            × (self.new.rest.now ≡ self.old.rest.now)) }
    {
        match mem::replace(&mut self.innermost, level) {
            Level::Whole => Ok(()),
            innermost => {
                if self.outer.len() < self.outer.capacity() {
                    self.outer.push_reserved(innermost);
                    return Ok(());
                }
                self.grow(innermost)
            }
        }
    }

    // Pushes the level that was innermost, for which there may be no capacity. If that fails, it is
    // the innermost again.
    #[inline(never)]
    fn grow(&mut self, innermost: Level<'a>) -> Result<(), AllocError>
        ensures outer { OnOk result (self.new.outer.items ≡ self.old.outer.items ++ innermost.entry
            ∷ []) }
        ensures innermost { OnOk result (self.new.innermost ≡ self.old.innermost) }
        ensures restored { IfErr result (λ _. (self.new.innermost ≡ innermost.entry)
            × (self.new.outer.items ≡ self.old.outer.items)) }
        ensures rest { self.new.rest.now ≡ self.old.rest.now }
        ensures begun { self.new.begun ≡ self.old.begun }
        ensures uncounted { self.new.uncounted ≡ self.old.uncounted }
    {
        match self.outer.push(innermost) {
            Ok(()) => Ok(()),
            Err(AllocFailed { value }) => {
                self.innermost = value;
                Err(AllocError)
            }
        }
    }

    // Opens a list of `items` items.
    #[inline(always)]
    pub(crate) fn open_list(&mut self, items: u64) -> Result<(), AllocError>
        ensures frames { OnOk result (frames_of self.new ≡ many items ∷ frames_of self.old) }
        ensures rest { OnOk result (self.new.rest.now ≡ self.old.rest.now) }
        ensures outer { OnOk result (length self.new.outer.items ≤ length self.old.outer.items
            + 1) }
        ensures begun { OnOk result (self.new.begun ≡ self.old.begun) }
        ensures uncounted { OnOk result (self.new.uncounted ≡ self.old.uncounted) }
        ensures unchanged { IfErr result (λ _. (frames_of self.new ≡ frames_of self.old)
            × (self.new.rest.now ≡ self.old.rest.now)) }
    {
        self.open(Level::List(items))
    }

    // Opens a map of `pairs` pairs.
    #[inline(always)]
    pub(crate) fn open_map(&mut self, pairs: u64) -> Result<(), AllocError>
        ensures frames { OnOk result (frames_of self.new ≡ pairs_frame pairs []
            ∷ frames_of self.old) }
        ensures rest { OnOk result (self.new.rest.now ≡ self.old.rest.now) }
        ensures outer { OnOk result (length self.new.outer.items ≤ length self.old.outer.items
            + 1) }
        ensures begun { OnOk result (self.new.begun ≡ self.old.begun) }
        ensures uncounted { OnOk result (self.new.uncounted ≡ self.old.uncounted) }
        ensures unchanged { IfErr result (λ _. (frames_of self.new ≡ frames_of self.old)
            × (self.new.rest.now ≡ self.old.rest.now)) }
    {
        let memory = mem::replace(&mut self.spare, Vec::new(self.alloc));
        let keys = Keys::with_memory(memory, pairs)?;
        self.open(Level::Map(UnreadMap { pairs, keys }))
    }

    // Leaves the innermost level, which has ended.
    #[inline(always)]
    fn leave(&mut self)
        ensures frames { frames_of self.new ≡ inside self.old.outer.items [] }
        ensures rest { self.new.rest.now ≡ self.old.rest.now }
        ensures outer { length self.new.outer.items ≡ length self.old.outer.items - 1 }
        ensures uncounted { self.new.uncounted ≡ self.old.uncounted }
    {
        let outer = self.outer.pop().unwrap_or(Level::Whole);
        if let Level::Map(map) = mem::replace(&mut self.innermost, outer) {
            if let Some(memory) = map.keys.into_memory() {
                self.spare = memory;
            }
        }
    }

    // Returns the next part of the innermost level, which then has one less to come, or leaves the
    // level at its end.
    #[inline(always)]
    pub(crate) fn advance(&mut self) -> Result<Next<'a>, CborError>
        ensures next { NextIn self.old result self.new }
        ensures uncounted { OnOk result (self.new.uncounted ≡ self.old.uncounted) }
    {
        let end = match &mut self.innermost {
            Level::List(items) => {
                if *items > 0 {
                    *items -= 1;
                    return Ok(Next::Item);
                }
                Next::EndOfList
            }
            Level::Map(map) => {
                if map.pairs > 0 {
                    self.begun = self.rest.len();
                    let (key, rest) = map.read_key(self.alloc, self.rest)?;
                    self.rest = rest;
                    return Ok(Next::Value(key));
                }
                Next::EndOfMap
            }
            Level::Whole => Next::Outside,
        };
        self.leave();
        Ok(end)
    }

    // Returns whether a level is open.
    #[inline(always)]
    pub(crate) fn is_open(&self) -> bool
        ensures { result ≡ is_open self.now }
    {
        match self.innermost {
            Level::Whole => !self.outer.is_empty(),
            _ => true,
        }
    }
}
