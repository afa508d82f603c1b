//! `ipld!`, and the items that it expands to.

ghost use Rattle.std.specs.Prelude.{◌≡◌, ◌∷◌, ◌++◌, [], None, IfOk, OnOk, OnErr, string_bytes, vec_capacity, vec_len, ◌≤◌};
ghost use Rattle.ipld_tree.specs.Builders.{items_so_far, items_len, items_capacity, members_so_far};
ghost use Rattle.ipld_tree.specs.Index.{value_at};
ghost use Rattle.ipld_tree.specs.Put.{put as with_member};
ghost use Rattle.ipld_tree.specs.Tree.{no_members};
ghost use Rattle.ipld_tree.specs.TreeOf.{tree_of, members_of};

use crate::ipld::Ipld;
use std::alloc::{AllocError, AllocFailed, Global};
use std::collections::BTreeMap;

/// Appends an item to a list, for `ipld!`. It allocates only if the list has no capacity left.
///
/// # Errors
///
/// `AllocError` if the allocation fails. The list is then as before, and the item is dropped as
/// [`Ipld::discard`] does.
pub fn push(list: &mut Vec<Ipld>, item: Ipld) -> Result<(), AllocError>
    ensures ok { OnOk result (list.new.items ≡ list.old.items ++ item ∷ []) }
    ensures err { OnErr result (list.new.items ≡ list.old.items) }
    ensures full { OnErr result (vec_capacity list.old ≤ vec_len list.old) }
{
    match list.reserve(1) {
        Ok(()) => {
            list.push_reserved(item);
            Ok(())
        }
        Err(error) => {
            item.discard();
            Err(error)
        }
    }
}

/// Sets the value at a key of a map, for `ipld!`. It replaces an earlier value at the key, and
/// drops that as [`Ipld::discard`] does.
///
/// # Errors
///
/// `AllocError` if the allocation for a new entry fails. The map is then as before. The key is
/// dropped, and the value is dropped as [`Ipld::discard`] does.
pub fn put(map: &mut BTreeMap<String, Ipld>, key: String, value: Ipld) -> Result<(), AllocError>
    ensures ok { OnOk result (members_of map.new.entries ≡ with_member (string_bytes key)
        (tree_of value) (members_of map.old.entries)) }
    ensures err { OnErr result (members_of map.new.entries ≡ members_of map.old.entries) }
    ensures absent { OnErr result (value_at (string_bytes key) (members_of map.old.entries)
        ≡ None) }
{
    match map.insert(key, value) {
        Ok(None) => Ok(()),
        Ok(Some(earlier)) => {
            earlier.discard();
            Ok(())
        }
        Err(AllocFailed { value: (_, value) }) => {
            value.discard();
            Err(AllocError)
        }
    }
}

/// The items of a list that `ipld!` builds. Its drop is a loop, however deep the items nest.
pub struct ListBuilder {
    pub(crate) items: Vec<Ipld>,
}

impl ListBuilder {
    /// Creates a builder without items, with this capacity. It allocates once, and does not
    /// allocate for a capacity of 0.
    ///
    /// # Errors
    ///
    /// `AllocError` if the allocation fails.
    #[inline(always)]
    pub fn with_capacity(alloc: Global, capacity: usize) -> Result<ListBuilder, AllocError>
        ensures empty { IfOk result (λ b. items_so_far b ≡ []) }
        ensures capacity { IfOk result (λ b. items_capacity b ≡ capacity) }
    {
        let items = Vec::with_capacity(alloc, capacity)?;
        Ok(ListBuilder { items })
    }

    /// Appends an item, as [`push`] does.
    #[inline(always)]
    pub fn push(&mut self, item: Ipld) -> Result<(), AllocError>
        ensures ok { OnOk result (items_so_far self.new ≡ items_so_far self.old ++ item ∷ []) }
        ensures err { OnErr result (items_so_far self.new ≡ items_so_far self.old) }
        ensures full { OnErr result (items_capacity self.old ≤ items_len self.old) }
    {
        push(&mut self.items, item)
    }

    /// Returns the items. Does not allocate.
    #[inline(always)]
    pub fn finish(self) -> Vec<Ipld>
        ensures { result.items ≡ items_so_far self }
    {
        let ListBuilder { items } = self;
        items
    }
}

impl Drop for ListBuilder {
    fn drop(self) {
        let ListBuilder { items } = self;
        Ipld::List(items).discard();
    }
}

/// The entries of a map that `ipld!` builds. Its drop is a loop, however deep the values nest.
pub struct MapBuilder {
    members: BTreeMap<String, Ipld>,
}

impl MapBuilder {
    /// Creates a builder without entries. Does not allocate.
    #[inline(always)]
    pub fn new(alloc: Global) -> MapBuilder
        ensures { members_so_far result ≡ no_members }
    {
        MapBuilder {
            members: BTreeMap::new(alloc),
        }
    }

    /// Sets the value at a key, and replaces an earlier one, as [`put`] does.
    #[inline(always)]
    pub fn put(&mut self, key: String, value: Ipld) -> Result<(), AllocError>
        ensures ok { OnOk result (members_so_far self.new ≡ with_member (string_bytes key)
            (tree_of value) (members_so_far self.old)) }
        ensures err { OnErr result (members_so_far self.new ≡ members_so_far self.old) }
        ensures absent { OnErr result (value_at (string_bytes key) (members_so_far self.old)
            ≡ None) }
    {
        put(&mut self.members, key, value)
    }

    /// Returns the entries. Does not allocate.
    #[inline(always)]
    pub fn finish(self) -> BTreeMap<String, Ipld>
        ensures { members_of result.entries ≡ members_so_far self }
    {
        let MapBuilder { members } = self;
        members
    }
}

impl Drop for MapBuilder {
    fn drop(self) {
        let MapBuilder { members } = self;
        Ipld::Map(members).discard();
    }
}

/// Creates an [`Ipld`](crate::Ipld) from `null`, a list `[..]`, a map `{key: value, ..}`, or an
/// expression.
///
/// An expression is of a type that is [`IntoIpld`](crate::convert::IntoIpld), such as `true` or
/// `"text"`. A key is an expression of a type that is [`IntoKey`](crate::convert::IntoKey), with or
/// without parentheses. A comma may follow the last item and the last entry.
///
/// It evaluates to a `Result<Ipld, AllocError>`, whatever the function around the call returns.
///
/// ```
/// let tree = ipld!(alloc, {
///     "code": 200u8,
///     "payload": [cid, null, {"some": true}],
/// })?;
/// ```
///
/// Expressions are evaluated in the order in which they are written. The first error is returned,
/// and it is always a failed allocation. The expressions after it are not evaluated, and the part
/// that was built is dropped by a loop.
///
/// If two keys are equal, the later value wins. The macro allocates for the contents of the value
/// and no more: a list reserves its length. A list or a map of more than about a hundred items is
/// too long for one call.
#[macro_export]
macro_rules! ipld {
    ($alloc:expr, $($ipld:tt)+) => {{
        let alloc = $alloc;
        let built: std::result::Result<$crate::Ipld, std::alloc::AllocError> = 'ipld: {
            std::result::Result::Ok($crate::ipld_internal!(alloc 'ipld; $($ipld)+))
        };
        built
    }};
}

#[doc(hidden)]
#[macro_export]
macro_rules! ipld_internal {
    // `?`, which leaves the block `$out` and not the caller's function.
    (@try $out:lifetime $step:expr) => {
        match $step {
            std::result::Result::Ok(done) => done,
            std::result::Result::Err(rejected) => break $out std::result::Result::Err(rejected),
        }
    };

    // An item of a list counts as one.
    (@one $($item:tt)+) => {
        1
    };

    // A list: its items are put in parentheses one after another, and then built.
    (@list $alloc:ident $out:lifetime [$(($($item:tt)+))*]) => {{
        let mut list = $crate::ipld_internal!(@try $out $crate::macros::ListBuilder::with_capacity($alloc, 0usize $(+ $crate::ipld_internal!(@one $($item)+))*));
        $(
            let item = $crate::ipld_internal!($alloc $out; $($item)+);
            $crate::ipld_internal!(@try $out list.push(item));
        )*
        $crate::Ipld::List(list.finish())
    }};
    (@list $alloc:ident $out:lifetime [$($done:tt)*] null $(, $($rest:tt)*)?) => {
        $crate::ipld_internal!(@list $alloc $out [$($done)* (null)] $($($rest)*)?)
    };
    (@list $alloc:ident $out:lifetime [$($done:tt)*] [$($inner:tt)*] $(, $($rest:tt)*)?) => {
        $crate::ipld_internal!(@list $alloc $out [$($done)* ([$($inner)*])] $($($rest)*)?)
    };
    (@list $alloc:ident $out:lifetime [$($done:tt)*] {$($inner:tt)*} $(, $($rest:tt)*)?) => {
        $crate::ipld_internal!(@list $alloc $out [$($done)* ({$($inner)*})] $($($rest)*)?)
    };
    (@list $alloc:ident $out:lifetime [$($done:tt)*] $next:expr, $($rest:tt)*) => {
        $crate::ipld_internal!(@list $alloc $out [$($done)* ($next)] $($rest)*)
    };
    (@list $alloc:ident $out:lifetime [$($done:tt)*] $last:expr) => {
        $crate::ipld_internal!(@list $alloc $out [$($done)* ($last)])
    };

    // A map: the tokens before a `:` are the key.
    (@map $alloc:ident $out:lifetime $map:ident ()) => {};
    (@map $alloc:ident $out:lifetime $map:ident ($($key:tt)+) : null $(, $($rest:tt)*)?) => {
        $crate::ipld_internal!(@member $alloc $out $map ($($key)+) (null));
        $crate::ipld_internal!(@map $alloc $out $map () $($($rest)*)?);
    };
    (@map $alloc:ident $out:lifetime $map:ident ($($key:tt)+) : [$($inner:tt)*] $(, $($rest:tt)*)?) => {
        $crate::ipld_internal!(@member $alloc $out $map ($($key)+) ([$($inner)*]));
        $crate::ipld_internal!(@map $alloc $out $map () $($($rest)*)?);
    };
    (@map $alloc:ident $out:lifetime $map:ident ($($key:tt)+) : {$($inner:tt)*} $(, $($rest:tt)*)?) => {
        $crate::ipld_internal!(@member $alloc $out $map ($($key)+) ({$($inner)*}));
        $crate::ipld_internal!(@map $alloc $out $map () $($($rest)*)?);
    };
    (@map $alloc:ident $out:lifetime $map:ident ($($key:tt)+) : $value:expr, $($rest:tt)*) => {
        $crate::ipld_internal!(@member $alloc $out $map ($($key)+) ($value));
        $crate::ipld_internal!(@map $alloc $out $map () $($rest)*);
    };
    (@map $alloc:ident $out:lifetime $map:ident ($($key:tt)+) : $value:expr) => {
        $crate::ipld_internal!(@member $alloc $out $map ($($key)+) ($value));
    };
    (@map $alloc:ident $out:lifetime $map:ident ($($key:tt)*) : $($rest:tt)*) => {
        $crate::ipld_unexpected!(:)
    };
    (@map $alloc:ident $out:lifetime $map:ident ($($key:tt)*) , $($rest:tt)*) => {
        $crate::ipld_unexpected!(,)
    };
    (@map $alloc:ident $out:lifetime $map:ident ($($key:tt)*) $next:tt $($rest:tt)*) => {
        $crate::ipld_internal!(@map $alloc $out $map ($($key)* $next) $($rest)*);
    };

    (@member $alloc:ident $out:lifetime $map:ident ($($key:tt)+) ($($value:tt)+)) => {
        let key = $crate::ipld_internal!(@try $out $crate::convert::IntoKey::into_key($($key)+, $alloc));
        let member = $crate::ipld_internal!($alloc $out; $($value)+);
        $crate::ipld_internal!(@try $out $map.put(key, member));
    };

    ($alloc:ident $out:lifetime; null) => {
        $crate::Ipld::Null
    };
    ($alloc:ident $out:lifetime; []) => {
        $crate::Ipld::List(std::vec::Vec::new($alloc))
    };
    ($alloc:ident $out:lifetime; [$($items:tt)+]) => {
        $crate::ipld_internal!(@list $alloc $out [] $($items)+)
    };
    ($alloc:ident $out:lifetime; {$($members:tt)*}) => {{
        let mut map = $crate::macros::MapBuilder::new($alloc);
        $crate::ipld_internal!(@map $alloc $out map () $($members)*);
        $crate::Ipld::Map(map.finish())
    }};
    ($alloc:ident $out:lifetime; $other:expr) => {
        $crate::ipld_internal!(@try $out $crate::convert::IntoIpld::into_ipld($other, $alloc))
    };
}

#[doc(hidden)]
#[macro_export]
macro_rules! ipld_unexpected {
    () => {};
}
