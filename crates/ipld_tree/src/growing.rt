//! A walk whose stack grows as lists and maps open.

ghost use Rattle.std.specs.Prelude.{◌≡◌, ◌<◌, ◌+◌, [], ◌∷◌, ◌++◌, length, IfOk, OnOk, OnErr};
ghost use Rattle.ipld_tree.specs.Cursors.{levels_of, cursors_in};
ghost use Rattle.ipld_tree.specs.Growing.{levels_in, NextOf};
ghost use Rattle.ipld_tree.specs.IsWhole.{IsWhole};
ghost use Rattle.ipld_tree.specs.TreeOf.{tree_of};
ghost use Rattle.ipld_tree.specs.Walk.{nest};

use crate::ipld::Ipld;
use crate::iter::{Cursor, advance, cursor_into};
use crate::nesting::nesting_within;
use std::alloc::{AllocError, Global};
use std::mem;

// The number of levels for which copying, dropping and gathering links recurse, before they
// continue by a loop.
pub(crate) const SHALLOW: usize = 32;

// The number of levels that are measured by recursion, before a walk with a growing stack: as many
// as `Limits::default()` allows. A list uses 48 bytes of the call stack, and a map 160.
const MEASURED: usize = 1024;

// A walk in the order of `IpldIter` that allocates as it descends. It has the innermost cursor, and
// the cursors of the containers around it.
#[derive(Drop)]
pub(crate) struct GrowingWalk<'a> {
    outer: Vec<Cursor<'a>>,
    innermost: Cursor<'a>,
}

impl<'a> GrowingWalk<'a> {
    // Begins a walk of a tree. Does not allocate yet.
    pub(crate) fn new(alloc: Global, value: &'a Ipld) -> GrowingWalk<'a>
        ensures { levels_in result ≡ (value.now ∷ []) ∷ [] }
    {
        GrowingWalk {
            outer: Vec::new(alloc),
            innermost: Cursor::Itself(Some(value)),
        }
    }

    // The next value, or `None` at the end.
    #[inline(always)]
    pub(crate) fn next(&mut self) -> Result<Option<&'a Ipld>, AllocError>
        ensures { IfOk result (λ v. NextOf (levels_in self.old) v (levels_in self.new)) }
    {
        loop {
            if let Some(value) = advance(&mut self.innermost) {
                self.enter(cursor_into(value))?;
                return Ok(Some(value));
            }
            match self.outer.pop() {
                Some(around) => self.innermost = around,
                None => return Ok(None),
            }
        }
    }

    // Enters a container, if the value is one.
    #[inline(always)]
    fn enter(&mut self, opened: Option<Cursor<'a>>) -> Result<(), AllocError>
        ensures { OnOk result (levels_in self.new ≡ levels_in self.old ++ levels_of
            (cursors_in opened.entry)) }
    {
        if let Some(inner) = opened {
            self.outer.reserve(1)?;
            let around = mem::replace(&mut self.innermost, inner);
            self.outer.push_reserved(around);
        }
        Ok(())
    }

    // The number of cursors in the walk.
    #[inline(always)]
    fn cursor_count(&self) -> usize
        ensures { result ≡ length (levels_in self.now) }
    {
        self.outer.len() + 1
    }
}

impl Ipld {
    /// Returns the nesting of lists and maps, as [`Ipld::nesting`] does, for a tree of any depth.
    ///
    /// It recurses for at most 1,024 levels, which takes at most 256 KiB of the call stack, and
    /// measures a deeper tree by a loop.
    ///
    /// # Errors
    ///
    /// `AllocError` if an allocation fails. It allocates only if lists or maps nest more than 1,024
    /// levels deep, for a stack that grows with their nesting.
    pub fn try_nesting(&self, alloc: Global) -> Result<usize, AllocError>
        ensures nested { IfOk result (λ n. n ≡ nest (tree_of self.now)) }
        ensures whole { OnOk result (IsWhole (tree_of self.now)) }
        ensures deep { OnErr result (1024 < nest (tree_of self.now)) }
    {
        Ok(slots_needed(alloc, self)? - 1)
    }
}

// The maximum number of cursors in a walk of the value. It is measured by recursion for up to
// `MEASURED` levels, and for a deeper tree by a walk with a growing stack.
pub(crate) fn slots_needed(alloc: Global, value: &Ipld) -> Result<usize, AllocError>
    ensures slots { IfOk result (λ n. n ≡ 1 + nest (tree_of value.now)) }
    ensures whole { OnOk result (IsWhole (tree_of value.now)) }
    ensures deep { OnErr result (1024 < nest (tree_of value.now)) }
{
    if let Some(levels) = nesting_within(value, MEASURED) {
        return Ok(levels + 1);
    }
    let mut walk = GrowingWalk::new(alloc, value);
    let mut most = 1;
    while let Some(_) = walk.next()? {
        most = most.max(walk.cursor_count());
    }
    Ok(most)
}
