//! Values of the IPLD data model: trees of nulls, bools, integers, strings, bytes, lists, maps and
//! links.
//!
//! An [`Ipld`] owns its tree. [`Ipld::get`] borrows the value at a number or a string,
//! [`Ipld::iter`] walks the whole tree, and [`Ipld::references`] gathers its links.
//!
//! ```
//! let mut items = Vec::new(alloc);
//! items.push(Ipld::Integer(7))?;
//! items.push(Ipld::Link(cid))?;
//! let tree = Ipld::List(items);
//! let seven = tree.get(0usize);
//! let mut links = Vec::new(alloc);
//! tree.references(alloc, &mut links)?;
//! ```
//!
//! A call that allocates takes an allocator, or uses that of its value. It returns `AllocError` if
//! an allocation fails.
//!
//! # Deep trees
//!
//! [`Ipld::iter`], [`Ipld::references`], [`Ipld::try_clone`], [`Ipld::try_nesting`],
//! [`Ipld::same_tree`], [`Ipld::discard`] and `clone` take trees of any depth, because they are
//! loops. Before their loops, [`Ipld::references`], [`Ipld::try_clone`] and [`Ipld::discard`]
//! recurse for at most 32 levels, and [`Ipld::iter`] and [`Ipld::try_nesting`] for at most 1,024.
//!
//! These are dropped by a loop too:
//!
//! - the values that [`Ipld::take`] does not return, and a value that a conversion rejects,
//! - the copied part of a tree, if the copy fails,
//! - the part that [`ipld!`] has built, if an allocation fails.
//!
//! `==`, printing, the ordinary drop and [`Ipld::nesting`] are recursive, with a call for every
//! level of nesting. So the call stack limits the depth of a tree. For a tree from untrusted input,
//! call:
//!
//! - [`Ipld::discard`] instead of dropping it,
//! - [`Ipld::same_tree`] instead of `==`,
//! - [`Ipld::try_nesting`] instead of [`Ipld::nesting`].
//!
//! These depths were measured in a program for x86-64 with a stack of 8 MiB. Lists nested 52,000
//! levels deep can be dropped, and lists nested 37,000 levels deep can be compared by `==`. Maps
//! nested 17,000 levels deep can be dropped, and compared to the same depth as lists.
//! [`Ipld::nesting`] uses 48 bytes of the stack for a list, and 160 bytes for a map.
#![tactic(auto)]

mod capacity;
mod clone;
pub mod convert;
mod discard;
mod equality;
mod fmt;
mod growing;
mod index;
mod ipld;
mod iter;
mod iterations;
pub mod laws;
mod limits;
pub mod macros;
mod nesting;
mod references;
mod same_tree;

pub use capacity::list_capacity;
pub use index::{IndexError, IntoIndex, IpldIndex};
pub use ipld::{Ipld, IpldKind};
pub use iter::IpldIter;
pub use limits::Limits;
