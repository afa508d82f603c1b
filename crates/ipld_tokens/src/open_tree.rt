//! A tree of the IPLD data model, built part by part.
//!
//! An [`OpenTree`] holds the open lists and maps, and the tree once it is complete. A reader of any
//! format puts values and keys into it, and begins and ends lists and maps. Trees of any depth are
//! built and dropped without recursion.
//!
//! ```
//! use ipld_tokens::open_tree::OpenTree;
//! use ipld_tree::Ipld;
//!
//! let mut tree = OpenTree::new(alloc);
//! tree.begin_list(Some(1))?;
//! tree.put(Ipld::Bool(true))?;
//! let items = tree.end_list()?;
//! tree.put(Ipld::List(items))?;
//! let list = tree.finish(); // the list of `true`
//! ```

ghost use Rattle.std.specs.Prelude.{◌≡◌, ◌≤◌, ◌+◌, [], ◌∷◌, true, false, not, min, length, option_map, string_bytes, sum_by, vec_capacity, IfOk, MatchResult};
ghost use Rattle.std.specs.List.{list_all};
ghost use Rattle.ipld_tree.specs.Capacity.{capacity_for};
ghost use Rattle.ipld_tree.specs.Tree.{Tree, integer, no_items, no_members};
ghost use Rattle.ipld_tree.specs.TreeOf.{tree_of, items_of, members_of};
ghost use Rattle.ipld_tokens.specs.ReadMachine as reading;
ghost use Rattle.ipld_tokens.specs.ReadMachine.{ReadState, open_at, done, rejected, never, in_list, in_key, completed, is_at_key, PutsInto, PutsValue};
ghost use Rattle.ipld_tokens.specs.Containers.{reserved_for, can_surround, root_is_alone, IsOpen, Pushes};
ghost use Rattle.ipld_tokens.specs.declared.open_tree.BuildError.TheVariants as error;
ghost use Rattle.ipld_tokens.specs.declared.open_tree.Container.TheVariants as container;

use ipld_tree::{Ipld, list_capacity};
use std::alloc::{AllocError, AllocFailed, Global};
use std::collections::BTreeMap;
use std::mem;

/// The reason why a part isn't put into an [`OpenTree`].
#[derive(Clone, Copy, Debug, PartialEq, Eq)]
pub enum BuildError {
    /// An allocation failed.
    Memory,
    /// The part is not possible at this place.
    Misplaced,
    /// The map has the key already.
    DuplicateKey,
}

impl From<AllocError> for BuildError {
    ghost from_gives = { λ _ build_error. build_error ≡ error.Memory };

    #[inline(always)]
    fn from(_error: AllocError) -> Self {
        BuildError::Memory
    }
}

// The most values that length hints reserve, for all open lists together.
const MOST_RESERVED: usize = 8192;

// An open list: its values so far, and the capacity that its length hint reserved.
#[derive(Drop)]
struct OpenList {
    items: Vec<Ipld>,
    reserved: usize,
}

// An open map: its members so far, and the key that waits for its value.
#[derive(Drop)]
struct OpenMap {
    members: BTreeMap<String, Ipld>,
    key: Option<String>,
}

// The container that the next value is put into.
#[derive(Drop)]
enum Container {
    // The root, while it has no value.
    Root,
    List(OpenList),
    Map(OpenMap),
    // No container: the root has its value, or there is no tree.
    Closed,
}

impl Container {
    // Drops its content by a loop, at any depth of nesting.
    fn discard(self) {
        match self {
            Container::List(list) => Ipld::List(list.items).discard(),
            Container::Map(map) => Ipld::Map(map.members).discard(),
            Container::Root => {}
            Container::Closed => {}
        }
    }
}

// Puts a value at the end of a list.
#[inline(always)]
fn push_value(items: &mut Vec<Ipld>, value: Ipld) -> Result<(), BuildError>
    ensures { Pushes items.old.items value result items.new.items }
{
    if items.len() < items.capacity() {
        items.push_reserved(value);
        return Ok(());
    }
    grow_and_push(items, value)
}

// Puts a value at the end of a list that may be full.
#[inline(never)]
fn grow_and_push(items: &mut Vec<Ipld>, value: Ipld) -> Result<(), BuildError>
    ensures { Pushes items.old.items value result items.new.items }
{
    if let Err(error) = items.reserve(1) {
        value.discard();
        return Err(BuildError::from(error));
    }
    items.push_reserved(value);
    Ok(())
}

// Releases the capacity that a list doesn't use.
#[inline(never)]
fn shrink(items: &mut Vec<Ipld>)
    ensures same { items.new.items ≡ items.old.items }
    ensures capacity { vec_capacity items.new ≤ vec_capacity items.old }
{
    items.shrink_to_fit();
}

impl OpenList {
    // Creates an empty list. Reserves the capacity of its length hint, within the limit on a hint
    // and the spare capacity.
    #[inline(always)]
    fn new(alloc: Global, hint: Option<usize>, spare: usize) -> Result<OpenList, AllocError>
        ensures empty { IfOk result (λ list. list.items.items ≡ []) }
        ensures reserved { IfOk result (λ list. list.reserved ≡ min (capacity_for hint) spare) }
        ensures capacity { IfOk result (λ list. vec_capacity list.items ≡ list.reserved) }
    {
        let reserved = list_capacity(hint).min(spare);
        Ok(OpenList {
            items: Vec::with_capacity(alloc, reserved)?,
            reserved,
        })
    }

    // Returns its values. If they fill less than half of the reserved capacity, the rest is
    // released.
    #[inline(always)]
    fn into_items(self) -> Vec<Ipld>
        ensures same { result.items ≡ self.items.items }
        ensures capacity { vec_capacity result ≤ vec_capacity self.items }
    {
        let mut items = self.items;
        if items.len() < self.reserved / 2 {
            shrink(&mut items);
        }
        items
    }
}

impl OpenMap {
    ghost use Rattle.ipld_tokens.specs.OpenTree.{level_of, Grows};

    // Puts a value under the key that waits for it.
    #[inline(always)]
    fn insert(&mut self, value: Ipld) -> Result<(), BuildError>
        ensures { Grows (level_of self.old) (tree_of value) (level_of self.new) result }
    {
        let Some(key) = self.key.take() else {
            value.discard();
            return Err(BuildError::Misplaced);
        };
        match self.members.insert(key, value) {
            Ok(None) => Ok(()),
            Ok(Some(earlier)) => {
                earlier.discard();
                Err(BuildError::DuplicateKey)
            }
            Err(AllocFailed { value: (_, value) }) => {
                value.discard();
                Err(BuildError::Memory)
            }
        }
    }

    // Returns its members if no key waits for its value.
    #[inline(always)]
    fn end(self) -> Result<BTreeMap<String, Ipld>, BuildError>
        ensures { MatchResult result
            (λ members. level_of self ≡ in_key (members_of members.entries))
            (λ build_error. (build_error ≡ error.Misplaced)
            × (is_at_key (level_of self ∷ []) ≡ false)) }
    {
        match self.key {
            None => Ok(self.members),
            Some(_) => {
                Ipld::Map(self.members).discard();
                Err(BuildError::Misplaced)
            }
        }
    }
}

/// A tree that is being built: the open lists and maps, and the tree once it is complete.
///
/// It is built without recursion, and its content is dropped by a loop, at any depth of nesting.
///
/// It allocates the tree, and a slot for each list and map that is open within another. Length
/// hints reserve at most 8,192 values for all open lists together.
///
/// After an error of any call, its content is of no use. The content is dropped with the
/// `OpenTree`.
pub struct OpenTree {
    alloc: Global,
    innermost: Container,
    // The containers around the innermost, the outermost first.
    outer: Vec<Container>,
    // The number of values that length hints may still reserve.
    spare: usize,
    // The value of the root, once it is complete.
    tree: Option<Ipld>,
    ghost nested: { list_all can_surround outer.items ≡ true },
    ghost alone: { root_is_alone innermost outer.items ≡ true },
    ghost budget: { reserved_for innermost + sum_by reserved_for outer.items + spare ≤ 8192 },
}

impl OpenTree {
    ghost use Rattle.ipld_tokens.specs.OpenTree.{levels_of, state_of, around, inside, is_open, at_key, in_a_list, key_at, tree_found, has_open_key, Builds};

    /// Creates an `OpenTree` without a value. A value comes next, which is the tree.
    pub fn new(alloc: Global) -> Self
        ensures { state_of result ≡ open_at [] }
    {
        OpenTree {
            alloc,
            innermost: Container::Root,
            outer: Vec::new(alloc),
            spare: MOST_RESERVED,
            tree: None,
        }
    }

    /// Returns whether a value can come next. A value can come if nothing is complete yet, in a
    /// list, and in a map after a key.
    #[inline(always)]
    pub fn takes_value(&self) -> bool
        ensures { result ≡ not (is_at_key (levels_of self.now)) }
    {
        match &self.innermost {
            Container::Root => true,
            Container::List(_) => true,
            Container::Map(map) => map.key.is_some(),
            Container::Closed => false,
        }
    }

    /// Returns whether a key can come next, or the end of a map.
    #[inline(always)]
    pub fn is_at_key(&self) -> bool
        ensures { result ≡ at_key (state_of self.now) }
    {
        match &self.innermost {
            Container::Map(map) => map.key.is_none(),
            _ => false,
        }
    }

    /// Returns whether more parts have to come: the tree is not complete and was not rejected.
    #[inline(always)]
    pub fn is_open(&self) -> bool
        ensures { result ≡ is_open (state_of self.now) }
    {
        !matches!(&self.innermost, Container::Closed)
    }

    /// Returns whether the innermost map has the key, with a value that has been put.
    #[inline(always)]
    pub fn has_key(&self, key: &str) -> bool
        ensures { result ≡ has_open_key key.now (state_of self.now) }
    {
        match &self.innermost {
            Container::Map(map) => map.members.contains_key(key),
            _ => false,
        }
    }

    // Returns the number of open lists and maps.
    #[inline(always)]
    pub(crate) fn depth(&self) -> usize
        ensures { result ≡ length (levels_of self.now) }
    {
        match &self.innermost {
            Container::Root => 0,
            _ => self.outer.len() + 1,
        }
    }

    /// Puts a value into the innermost list or map. If no list or map is open, the value is the
    /// tree, which is then complete.
    ///
    /// # Errors
    ///
    /// - `Misplaced` in a map if no key waits for a value, or if the tree is complete or rejected.
    /// - `DuplicateKey` if the map has the key already.
    /// - `Memory` if the list or the map can't grow.
    ///
    /// If the call fails, the value is dropped. After `DuplicateKey`, the earlier value of the key
    /// is dropped instead.
    #[inline(always)]
    pub fn put(&mut self, value: Ipld) -> Result<(), BuildError>
        ensures { Builds (PutsValue (levels_of self.old)) (completed (tree_of value)
            (levels_of self.old)) (state_of self.new) result }
    {
        match &mut self.innermost {
            Container::List(list) => push_value(&mut list.items, value),
            _ => self.put_any(value),
        }
    }

    // Puts a value into any container. It is not inlined, so that a value of a list is moved once.
    #[inline(never)]
    fn put_any(&mut self, value: Ipld) -> Result<(), BuildError>
        ensures { Builds (PutsValue (levels_of self.old)) (completed (tree_of value)
            (levels_of self.old)) (state_of self.new) result }
    {
        match &mut self.innermost {
            Container::List(list) => push_value(&mut list.items, value),
            Container::Map(map) => map.insert(value),
            Container::Root => {
                self.complete(value);
                Ok(())
            }
            Container::Closed => {
                value.discard();
                Err(BuildError::Misplaced)
            }
        }
    }

    // Completes the tree with this value. No list or map is open.
    #[inline(always)]
    fn complete(&mut self, value: Ipld)
        requires { self.old.innermost ≡ container.Root }
        ensures { state_of self.new ≡ done (tree_of value) }
    {
        if self.tree.is_some() {
            self.drop_tree();
        }
        self.tree = Some(value);
        self.innermost = Container::Closed;
    }

    // Drops a tree that was built earlier, by a loop.
    #[inline(never)]
    fn drop_tree(&mut self)
        ensures { self.new ≡ record self.old { tree = None } }
    {
        if let Some(earlier) = self.tree.take() {
            earlier.discard();
        }
    }

    /// Puts an integer, as [`OpenTree::put`] does. An integer does not have to be dropped.
    ///
    /// # Errors
    ///
    /// The errors of [`OpenTree::put`].
    #[inline(always)]
    pub fn put_integer(&mut self, number: i128) -> Result<(), BuildError>
        ensures { Builds (PutsValue (levels_of self.old)) (completed (integer number)
            (levels_of self.old)) (state_of self.new) result }
    {
        match &mut self.innermost {
            Container::List(list) if list.items.len() < list.items.capacity() => {
                list.items.push_reserved(Ipld::Integer(number));
                Ok(())
            }
            _ => self.put_any_integer(number),
        }
    }

    // Puts an integer into any container, including a full list.
    #[inline(never)]
    fn put_any_integer(&mut self, number: i128) -> Result<(), BuildError>
        ensures { Builds (PutsValue (levels_of self.old)) (completed (integer number)
            (levels_of self.old)) (state_of self.new) result }
    {
        self.put_any(Ipld::Integer(number))
    }

    /// Puts a key, whose value comes next.
    ///
    /// If the map has the key already, only the call that puts the value returns `DuplicateKey`.
    /// [`OpenTree::has_key`] checks it earlier.
    ///
    /// # Errors
    ///
    /// `Misplaced` if the innermost container is not a map, or if another key waits for its value.
    #[inline(always)]
    pub fn put_key(&mut self, key: String) -> Result<(), BuildError>
        ensures { Builds ⊥ (key_at (string_bytes key) (state_of self.old))
            (state_of self.new) result }
    {
        if let Container::Map(map) = &mut self.innermost {
            if map.key.is_none() {
                map.key = Some(key);
                return Ok(());
            }
        }
        Err(BuildError::Misplaced)
    }

    /// Begins a list as the next value.
    ///
    /// Reserves the capacity that [`list_capacity`] returns for the length hint, but no more than
    /// the open lists leave of 8,192 values. If no value can come here, the list can be built, but
    /// putting it after its end fails.
    ///
    /// # Errors
    ///
    /// `Memory` if an allocation fails.
    #[inline(always)]
    pub fn begin_list(&mut self, hint: Option<usize>) -> Result<(), BuildError>
        ensures { Builds (Unit {0}) (open_at (in_list no_items ∷ levels_of self.old))
            (state_of self.new) result }
    {
        let list = OpenList::new(self.alloc, hint, self.spare)?;
        self.spare -= list.reserved;
        self.enter(Container::List(list))
    }

    /// Begins a map as the next value. If no value can come here, the map can be built, but putting
    /// it after its end fails.
    ///
    /// # Errors
    ///
    /// `Memory` if an allocation fails.
    #[inline(always)]
    pub fn begin_map(&mut self) -> Result<(), BuildError>
        ensures { Builds (Unit {0}) (open_at (in_key no_members ∷ levels_of self.old))
            (state_of self.new) result }
    {
        self.enter(Container::Map(OpenMap {
            members: BTreeMap::new(self.alloc),
            key: None,
        }))
    }

    // Makes the container the innermost one. The capacity that it reserves is no longer spare.
    fn enter(&mut self, container: Container) -> Result<(), BuildError>
        requires opens { IsOpen container }
        requires within { reserved_for container + reserved_for self.old.innermost
            + sum_by reserved_for self.old.outer.items + self.old.spare ≤ 8192 }
        ensures { Builds (Unit {0}) (open_at (around container (levels_of self.old)))
            (state_of self.new) result }
    {
        let around = mem::replace(&mut self.innermost, container);
        match around {
            // The outermost container is not inside another.
            Container::Root => Ok(()),
            _ => match self.outer.push(around) {
                Ok(()) => Ok(()),
                Err(AllocFailed { value }) => {
                    self.innermost = value;
                    Err(BuildError::Memory)
                }
            },
        }
    }

    // Takes out the innermost container. The one around it becomes the innermost.
    #[inline(always)]
    fn leave(&mut self) -> Container
        ensures taken { result ≡ self.old.innermost }
        ensures around { levels_of self.new ≡ inside self.old.outer.items [] }
        ensures reserved { reserved_for result + reserved_for self.new.innermost
            + sum_by reserved_for self.new.outer.items + self.new.spare ≤ 8192 }
    {
        match self.outer.pop() {
            Some(around) => mem::replace(&mut self.innermost, around),
            None => mem::replace(&mut self.innermost, Container::Root),
        }
    }

    /// Ends the innermost list and returns its items. The next value is put into the container
    /// around it: the list, or another value that the list represents.
    ///
    /// The capacity that its length hint reserved can be reserved again. If the items fill less
    /// than half (rounded down) of it, the unused capacity is released.
    ///
    /// # Errors
    ///
    /// `Misplaced` if the innermost container is not a list.
    #[inline(always)]
    pub fn end_list(&mut self) -> Result<Vec<Ipld>, BuildError>
        ensures { MatchResult result
            (λ items. state_of self.old ≡ open_at
            (in_list (items_of items.items) ∷ levels_of self.new))
            (λ build_error. (build_error ≡ error.Misplaced)
            × (in_a_list (state_of self.old) ≡ false)) }
    {
        match self.leave() {
            Container::List(list) => {
                self.spare += list.reserved;
                Ok(list.into_items())
            }
            other => {
                other.discard();
                Err(BuildError::Misplaced)
            }
        }
    }

    /// Ends the innermost map and returns its entries. The next value is put into the container
    /// around it: the map, or another value that the map represents.
    ///
    /// # Errors
    ///
    /// `Misplaced` if the innermost container is not a map, or if a key waits for its value.
    #[inline(always)]
    pub fn end_map(&mut self) -> Result<BTreeMap<String, Ipld>, BuildError>
        ensures { MatchResult result
            (λ members. state_of self.old ≡ open_at
            (in_key (members_of members.entries) ∷ levels_of self.new))
            (λ build_error. (build_error ≡ error.Misplaced)
            × (at_key (state_of self.old) ≡ false)) }
    {
        match self.leave() {
            Container::Map(map) => map.end(),
            other => {
                other.discard();
                Err(BuildError::Misplaced)
            }
        }
    }

    /// Rejects the tree: [`OpenTree::finish`] then returns `None`, and no value or key can be put.
    /// Drops the innermost list or map, and the tree if it is complete.
    #[inline(never)]
    pub fn reject(&mut self)
        ensures { state_of self.new ≡ rejected never }
    {
        mem::replace(&mut self.innermost, Container::Closed).discard();
        self.drop_tree();
    }

    /// Returns the tree if it is complete.
    pub fn finish(mut self) -> Option<Ipld>
        ensures { option_map tree_of result ≡ tree_found (state_of self) }
    {
        match self.innermost {
            Container::Closed => self.tree.take(),
            _ => None,
        }
    }
}

impl Drop for OpenTree {
    fn drop(self) {
        let OpenTree {
            alloc: _,
            innermost,
            outer,
            spare: _,
            tree,
        } = self;
        innermost.discard();
        for container in outer {
            container.discard();
        }
        if let Some(tree) = tree {
            tree.discard();
        }
    }
}
