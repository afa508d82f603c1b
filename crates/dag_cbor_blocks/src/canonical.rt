//! A check that the keys of a block come in the order in which they are written.

ghost use Rattle.std.specs.Prelude.{◌≡◌, ◌&&◌, ◌++◌, ◌∷◌, [], true, Bool, Some, OnOk};
ghost use Rattle.dag_cbor_blocks.specs.OrderChecker.{last_of};
ghost use Rattle.dag_cbor_format.specs.KeysAscend.{follows};

use crate::keys::comes_after;
use crate::visit::{BorrowingVisitor, Event};
use std::alloc::{AllocError, Global};

// Whether the keys of a block are in order so far.
#[derive(Drop)]
pub(crate) struct OrderChecker<'a> {
    // The last key of every open map, the innermost map last.
    lasts: Vec<Option<&'a str>>,
    pub(crate) is_sorted: bool,
}

// Returns whether a key comes after the one before it in its map, in length-first order.
#[inline(always)]
fn comes_next(last: Option<&str>, key: &str) -> bool
    ensures { result ≡ follows (last_of last.entry) key.now }
{
    match last {
        None => true,
        Some(last) => comes_after(key, last),
    }
}

#[inline(always)]
fn both(first: bool, second: bool) -> bool
    ensures { result ≡ (first && second) }
{
    if first { second } else { false }
}

impl<'a> OrderChecker<'a> {
    pub(crate) fn new(alloc: Global) -> Self
        ensures lasts { result.lasts.items ≡ [] }
        ensures is_sorted { result.is_sorted ≡ true }
    {
        OrderChecker {
            lasts: Vec::new(alloc),
            is_sorted: true,
        }
    }

    // Adds a key after `last`, which was taken from the innermost map.
    #[inline(always)]
    fn follow(&mut self, last: Option<&'a str>, key: &'a str) -> Result<(), AllocError>
        ensures lasts { OnOk result (self.new.lasts.items ≡ self.old.lasts.items ++ Some key.entry
            ∷ []) }
        ensures is_sorted { OnOk result (self.new.is_sorted ≡ (self.old.is_sorted && follows
            (last_of last.entry) key.entry.now)) }
    {
        self.is_sorted = both(self.is_sorted, comes_next(last, key));
        self.lasts.push(Some(key))?;
        Ok(())
    }
}

impl<'a> BorrowingVisitor<'a> for OrderChecker<'a> {
    ghost use Rattle.dag_cbor_blocks.specs.OrderChecker.{sorted_with};

    ghost Answer = { Bool };

    ghost answer = { sorted_with };

    #[inline(always)]
    fn visit(&mut self, event: &Event<'a>, _left: usize) -> Result<(), AllocError> {
        match event {
            Event::Map => {
                self.lasts.push(None)?;
                Ok(())
            }
            Event::Key(key) => match self.lasts.pop() {
                None => Ok(()),
                Some(last) => self.follow(last, *key),
            },
            Event::EndOfMap => {
                let _last = self.lasts.pop();
                Ok(())
            }
            _ => Ok(()),
        }
    }
}
