//! The walk of a tree.

ghost use Rattle.std.specs.Prelude.{◌≡◌, ◌≤◌, ◌+◌, ⊤, [], ◌∷◌, ◌++◌, length, IfOk, OnOk, OnSome, MatchOption, vec_capacity, ◌^◌};
ghost use Rattle.std.specs.Iterator.{YieldsFirstBy, MakesProgress, item_count};
ghost use Rattle.ipld_cid.specs.Multihash.{IsBytes};
ghost use Rattle.ipld_tree.specs.IsWhole.{IsWhole};
ghost use Rattle.ipld_tree.specs.TreeOf.{tree_of};
ghost use Rattle.ipld_tree.specs.Levels.{slots, held, rest, NextCall};
ghost use Rattle.ipld_tree.specs.Walk.{preorder, nest, container, containers};
ghost use Rattle.ipld_tree.specs.Cursors.{left_of, levels_of, cursors_in, values_in, AllWhole, Opens, Holds, TakesNext, IterationOf};

use crate::growing::slots_needed;
use crate::ipld::Ipld;
use crate::iterations::Iterations;
use crate::nesting::nesting_within;
use std::alloc::{AllocError, Global};
use std::collections::btree_map;
use std::marker::Model;
use std::slice;

// The rest of a list or a map, or the value that the walk begins with.
#[derive(Drop)]
pub(crate) enum Cursor<'a> {
    Itself(Option<&'a Ipld>),
    Items(slice::Iter<'a, Ipld>),
    Members(btree_map::Values<'a, String, Ipld>),
}

// The result of one iteration of the walk.
enum Iteration<'a> {
    Yielded(&'a Ipld),
    Dropped,
    Ended,
}

/// A walk of a tree, which [`Ipld::iter`] begins. A list or a map comes before its contents, the
/// items of a list in order, and the values of a map in byte order of their keys. Keys are not
/// visited. After its end it always returns `None`.
///
/// It borrows the tree. It allocated all that it needs when it began.
#[derive(Drop)]
pub struct IpldIter<'a> {
    stack: Vec<Cursor<'a>>,
    iterations: Iterations,
}

impl<'a> Model for IpldIter<'a> {
    ghost use Rattle.std.specs.Prelude.{◌≤◌, vec_capacity};
    ghost use Rattle.std.specs.Coded.{codes};
    ghost use Rattle.ipld_tree.specs.contracts.ipld.Ipld as e;
    ghost use Rattle.ipld_tree.specs.Levels.{Walk, slots};

    ghost Value = { Walk };

    ghost coded = { Prim.hlevel (codes, e.the_row.coded) };

    ghost use Rattle.ipld_tree.specs.Cursors.{levels_of};

    ghost view = { λ w. record { levels = levels_of w.stack.items; iterations = w.iterations; capacity = vec_capacity w.stack } };

    ghost invariant = { λ w. slots (levels_of w.stack.items) ≤ vec_capacity w.stack };
}

impl<'a> Iterator for IpldIter<'a> {
    type Item = &'a Ipld;

    ghost next_gives = { YieldsFirstBy (λ x. tree_of x.now) rest };

    ghost remaining = { item_count rest };

    // An iteration yields a value, drops a cursor that has ended, or finds that none is held.
    #[inline(always)]
    fn next(&mut self) -> Option<&'a Ipld>
        ensures steps { YieldsFirstBy (λ x. tree_of x.now) rest self.old result self.new }
        ensures goes { MakesProgress (λ _. ⊤) (item_count rest) self.old result self.new }
        ensures walks { NextCall self.old result self.new }
        ensures held { held self.new ≤ self.old.capacity }
    {
        loop {
            self.iterations.tick();
            match iterate(&mut self.stack) {
                Iteration::Yielded(value) => return Some(value),
                Iteration::Dropped => {}
                Iteration::Ended => return None,
            }
        }
    }
}

impl Ipld {
    /// Begins a walk of the tree. A list or a map comes before its contents, items come in order,
    /// and values in byte order of their keys. Keys are not visited.
    ///
    /// It measures the nesting first, as [`Ipld::try_nesting`] does. Then it allocates a slot for
    /// the value itself and one for every level of nesting, all at once. So it allocates once if
    /// lists and maps nest at most 1,024 levels deep. For a deeper tree, measuring allocates too.
    /// The walk itself does not allocate.
    ///
    /// # Errors
    ///
    /// `AllocError` if an allocation fails.
    pub fn iter(&self, alloc: Global) -> Result<IpldIter<'_>, AllocError>
        ensures walk { IfOk result (λ w. rest w ≡ preorder (tree_of self.now)) }
        ensures slots { IfOk result (λ w. slots w.levels ≡ 1 + nest (tree_of self.now)) }
        ensures capacity { IfOk result (λ w. w.capacity ≡ 1 + nest (tree_of self.now)) }
        ensures held { IfOk result (λ w. held w ≡ 1) }
        ensures iterations { IfOk result (λ w. w.iterations ≡ 0) }
        ensures whole { OnOk result (IsWhole (tree_of self.now)) }
    {
        let slots = slots_needed(alloc, self)?;
        let mut stack = Vec::with_capacity(alloc, slots)?;
        stack.push_reserved(Cursor::Itself(Some(self)));
        Ok(IpldIter {
            stack,
            iterations: Iterations::new(),
        })
    }

    /// Returns the nesting of lists and maps: 0 for any other kind, 1 for a list of such values,
    /// and so on. Returns `None` if the nesting does not fit in a `usize`, which no tree in memory
    /// reaches. Does not allocate.
    ///
    /// It recurses once for every level, so a tree that nests too deep for the call stack ends the
    /// process. [`Ipld::try_nesting`] measures such a tree by a loop, which allocates.
    pub fn nesting(&self) -> Option<usize>
        ensures nested { MatchOption result (2 ^ 64 ≤ nest (tree_of self.now)) (λ n.
            n ≡ nest (tree_of self.now)) }
        ensures whole { OnSome result (IsWhole (tree_of self.now)) }
    {
        nesting_within(self, usize::MAX)
    }

    /// Walks the whole tree, and returns the walk at its end, after which it always returns `None`.
    /// The walk takes one iteration for every value, one for every list or map, and two more.
    ///
    /// It allocates as [`Ipld::iter`] does.
    ///
    /// # Errors
    ///
    /// `AllocError` if an allocation fails.
    pub fn whole_walk(&self, alloc: Global) -> Result<IpldIter<'_>, AllocError>
        ensures ended { IfOk result (λ w. w.levels ≡ []) }
        ensures iterations { IfOk result (λ w. w.iterations ≡ length (preorder (tree_of self.now))
            + containers (preorder (tree_of self.now)) + 2) }
        ensures capacity { IfOk result (λ w. w.capacity ≡ 1 + nest (tree_of self.now)) }
    {
        let mut walk = self.iter(alloc)?;
        while let Some(_) = walk.next() {}
        Ok(walk)
    }
}

// Borrows bytes, so that the proof has the bounds of their type.
#[inline(always)]
pub(crate) fn know_bytes(bytes: &[u8])
    ensures { IsBytes bytes.now }
{
    let _bytes = bytes;
}

// A cursor over the contents of a list or a map.
#[inline(always)]
pub(crate) fn cursor_into(value: &Ipld) -> Option<Cursor<'_>>
    ensures opens { Opens (tree_of value.now) (levels_of (cursors_in result)) }
    ensures whole { AllWhole (values_in result) → IsWhole (tree_of value.now) }
{
    match value {
        Ipld::List(items) => Some(Cursor::Items(items.iter())),
        Ipld::Map(members) => Some(Cursor::Members(members.values())),
        // The number is read so that the proof has the bounds of its type.
        Ipld::Integer(number) => {
            let _number = *number;
            None
        }
        Ipld::Bytes(bytes) => {
            know_bytes(bytes);
            None
        }
        _ => None,
    }
}

// The next value of a cursor.
#[inline(always)]
pub(crate) fn advance<'a>(cursor: &mut Cursor<'a>) -> Option<&'a Ipld>
    ensures { YieldsFirstBy (λ x. x.now) left_of cursor.old result cursor.new }
{
    match cursor {
        Cursor::Itself(value) => value.take(),
        Cursor::Items(items) => items.next(),
        Cursor::Members(members) => members.next(),
    }
}

// Takes the next value of the innermost cursor, or drops the cursor at its end.
#[inline(always)]
fn take_next<'a>(stack: &mut Vec<Cursor<'a>>) -> Iteration<'a>
    ensures takes { TakesNext (levels_of stack.old.items) result (levels_of stack.new.items) }
    ensures capacity { vec_capacity stack.new ≡ vec_capacity stack.old }
{
    let Some(innermost) = stack.last_mut() else {
        return Iteration::Ended;
    };
    if let Some(value) = advance(innermost) {
        return Iteration::Yielded(value);
    }
    drop(stack.pop());
    Iteration::Dropped
}

// Pushes a cursor over the contents of a value, if it is a list or a map.
#[inline(always)]
fn push_cursor_into<'a>(stack: &mut Vec<Cursor<'a>>, value: &'a Ipld)
    requires { length stack.old.items + container (tree_of value.now) ≤ vec_capacity stack.old }
    ensures holds { Holds (levels_of stack.old.items) (tree_of value.now)
        (levels_of stack.new.items) }
    ensures capacity { vec_capacity stack.new ≡ vec_capacity stack.old }
{
    match value {
        Ipld::List(_) => push_container_cursor(stack, value),
        Ipld::Map(_) => push_container_cursor(stack, value),
        _ => {}
    }
}

// Pushes a cursor over the contents of a list or a map. It is a separate function, so that
// `push_cursor_into` is small and a value without contents is fast.
#[inline(never)]
fn push_container_cursor<'a>(stack: &mut Vec<Cursor<'a>>, value: &'a Ipld)
    requires { length stack.old.items + container (tree_of value.now) ≤ vec_capacity stack.old }
    ensures holds { Holds (levels_of stack.old.items) (tree_of value.now)
        (levels_of stack.new.items) }
    ensures capacity { vec_capacity stack.new ≡ vec_capacity stack.old }
{
    if let Some(inner) = cursor_into(value) {
        stack.push_reserved(inner);
    }
}

// Yields the next value of the innermost cursor, and pushes a cursor over its contents. Drops the
// innermost cursor at its end.
#[inline(always)]
fn iterate<'a>(stack: &mut Vec<Cursor<'a>>) -> Iteration<'a>
    requires { slots (levels_of stack.old.items) ≤ vec_capacity stack.old }
    ensures iterates { IterationOf (levels_of stack.old.items) result (levels_of stack.new.items) }
    ensures capacity { vec_capacity stack.new ≡ vec_capacity stack.old }
{
    match take_next(stack) {
        Iteration::Yielded(value) => {
            push_cursor_into(stack, value);
            Iteration::Yielded(value)
        }
        Iteration::Dropped => Iteration::Dropped,
        Iteration::Ended => Iteration::Ended,
    }
}
