//! Copies of a tree by a loop.

ghost use Rattle.std.specs.Prelude.{◌≡◌, ◌*◌, ◌<◌, [], ◌∷◌, ◌++◌, IfOk, OnOk};
ghost use Rattle.ipld_tree.specs.Copying.{IsDone, TakesNext, around as put_around, around_all, tree_begun, whole, work, work_begun};
ghost use Rattle.ipld_tree.specs.Put.{put as with_member};
ghost use Rattle.ipld_tree.specs.Size.{size};
ghost use Rattle.ipld_tree.specs.TreeOf.{tree_of, members_of};

use crate::ipld::Ipld;
use crate::macros::{push, put};
use std::alloc::{AllocError, Global};
use std::collections::{BTreeMap, btree_map};
use std::{mem, slice};

// A copy of a value by a loop. It doesn't recurse, and allocates for a stack that grows with the
// nesting.
pub(super) fn copy_by_loop(alloc: Global, value: &Ipld) -> Result<Ipld, AllocError>
    ensures { IfOk result (λ v. tree_of v ≡ tree_of value.now) }
{
    match Begun::new(alloc, value)? {
        Begun::Whole(copy) => Ok(copy),
        Begun::Open(container) => {
            let mut copying = Copying {
                alloc,
                innermost: container,
                outer: Vec::new(alloc),
            };
            match copying.complete() {
                Ok(()) => Ok(copying.innermost.into_copy()),
                Err(error) => {
                    copying.discard();
                    Err(error)
                }
            }
        }
    }
}

// A list whose copy isn't complete.
#[derive(Drop)]
struct ListCopy<'a> {
    left: slice::Iter<'a, Ipld>,
    copies: Vec<Ipld>,
}

// A map whose copy isn't complete.
#[derive(Drop)]
struct MapCopy<'a> {
    left: btree_map::Iter<'a, String, Ipld>,
    copies: BTreeMap<String, Ipld>,
    // The key of the value that was taken last.
    key: &'a str,
}

#[derive(Drop)]
enum OpenCopy<'a> {
    List(ListCopy<'a>),
    Map(MapCopy<'a>),
}

// The copy of a value that contains no others, or the copy of a list or a map before its first
// value.
enum Begun<'a> {
    Whole(Ipld),
    Open(OpenCopy<'a>),
}

// An incomplete copy of a list or a map: the innermost container, and the containers around it, the
// outermost first.
#[derive(Drop)]
struct Copying<'a> {
    alloc: Global,
    innermost: OpenCopy<'a>,
    outer: Vec<OpenCopy<'a>>,
}

impl<'a> Begun<'a> {
    #[inline(always)]
    fn new(alloc: Global, value: &'a Ipld) -> Result<Begun<'a>, AllocError>
        ensures copy { IfOk result (λ b. tree_begun b ≡ tree_of value.now) }
        ensures work { IfOk result (λ b. work_begun b < 2 * size value.now) }
    {
        match value {
            Ipld::Null => Ok(Begun::Whole(Ipld::Null)),
            Ipld::Bool(truth) => Ok(Begun::Whole(Ipld::Bool(*truth))),
            Ipld::Integer(number) => Ok(Begun::Whole(Ipld::Integer(*number))),
            Ipld::String(text) => Ok(Begun::Whole(Ipld::String(String::from_str(alloc, text)?))),
            Ipld::Bytes(bytes) => Ok(Begun::Whole(Ipld::Bytes(Vec::from_slice(alloc, bytes)?))),
            Ipld::List(items) => Ok(Begun::Open(OpenCopy::List(ListCopy {
                left: items.iter(),
                copies: Vec::with_capacity(alloc, items.len())?,
            }))),
            Ipld::Map(members) => Ok(Begun::Open(OpenCopy::Map(MapCopy {
                left: members.iter(),
                copies: BTreeMap::new(alloc),
                key: "",
            }))),
            Ipld::Link(cid) => Ok(Begun::Whole(Ipld::Link(*cid))),
        }
    }
}

impl<'a> OpenCopy<'a> {
    // The next value. Its copy has to be added before the next call.
    #[inline(always)]
    fn next(&mut self) -> Option<&'a Ipld>
        ensures { TakesNext self.old result self.new }
    {
        match self {
            OpenCopy::List(list) => list.left.next(),
            OpenCopy::Map(map) => match map.left.next() {
                Some((key, value)) => {
                    map.key = key;
                    Some(value)
                }
                None => None,
            },
        }
    }

    // Adds the copy of the value that was taken last.
    #[inline(always)]
    fn add(&mut self, alloc: Global, copy: Ipld) -> Result<(), AllocError>
        ensures copy { OnOk result (whole self.new ≡ put_around self.old (tree_of copy)) }
        ensures work { OnOk result (work self.new ≡ work self.old) }
    {
        match self {
            OpenCopy::List(list) => push(&mut list.copies, copy),
            OpenCopy::Map(map) => add_member(alloc, &mut map.copies, map.key, copy),
        }
    }

    // The copy, if nothing is left.
    #[inline(always)]
    fn into_copy(self) -> Ipld
        ensures { IsDone self.entry → tree_of result ≡ whole self.entry }
    {
        match self {
            OpenCopy::List(list) => Ipld::List(list.copies),
            OpenCopy::Map(map) => Ipld::Map(map.copies),
        }
    }
}

// Puts a value under a copy of its key.
#[inline(always)]
fn add_member(
    alloc: Global,
    members: &mut BTreeMap<String, Ipld>,
    key: &str,
    value: Ipld,
) -> Result<(), AllocError>
    ensures { OnOk result (members_of members.new.entries ≡ with_member key.now (tree_of value)
        (members_of members.old.entries)) }
{
    match String::from_str(alloc, key) {
        Ok(key) => put(members, key, value),
        Err(error) => {
            value.discard();
            Err(error)
        }
    }
}

impl<'a> Copying<'a> {
    // Copies all values that are left, until the innermost container is the outermost one, and
    // complete.
    fn complete(&mut self) -> Result<(), AllocError>
        ensures copy { OnOk result (whole self.new.innermost ≡ around_all self.old.outer.items
            (whole self.old.innermost)) }
        ensures done { OnOk result (IsDone self.new.innermost) }
    {
        loop {
            match self.innermost.next() {
                Some(value) => match Begun::new(self.alloc, value)? {
                    Begun::Whole(copy) => self.innermost.add(self.alloc, copy)?,
                    Begun::Open(container) => self.enter(container)?,
                },
                None => match self.outer.pop() {
                    Some(around) => self.leave(around)?,
                    None => return Ok(()),
                },
            }
        }
    }

    // Continues inside a container in which nothing is copied yet.
    fn enter(&mut self, container: OpenCopy<'a>) -> Result<(), AllocError>
        ensures innermost { OnOk result (self.new.innermost ≡ container.entry) }
        ensures outer { OnOk result (self.new.outer.items ≡ self.old.outer.items
            ++ self.old.innermost ∷ []) }
    {
        self.outer.reserve(1)?;
        let around = mem::replace(&mut self.innermost, container);
        self.outer.push_reserved(around);
        Ok(())
    }

    // Continues in the container around the innermost one, which is complete.
    fn leave(&mut self, around: OpenCopy<'a>) -> Result<(), AllocError>
        ensures copy { OnOk result (IsDone self.old.innermost
            → whole self.new.innermost ≡ put_around around.entry (whole self.old.innermost)) }
        ensures work { OnOk result (work self.new.innermost ≡ work around.entry) }
        ensures outer { self.new.outer.items ≡ self.old.outer.items }
    {
        let copy = mem::replace(&mut self.innermost, around).into_copy();
        self.innermost.add(self.alloc, copy)
    }

    // Drops the copied part by loops.
    fn discard(self) {
        self.innermost.into_copy().discard();
        for container in self.outer {
            container.into_copy().discard();
        }
    }
}
