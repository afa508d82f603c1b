//! Values of the IPLD data model, how they are indexed and how they are walked.
//!
//! ```
//! use ipld_core::ipld::Ipld;
//!
//! let first = list.get(0usize)?; // an item of a list, lent, or `None` past its end
//! let age = map.take("age")?; // the value at a key, taken out
//! let mut links = Vec::new(alloc);
//! tree.references(alloc, &mut links)?; // the links of the whole tree
//! ```

pub use ipld_tree::{IndexError, IntoIndex, Ipld, IpldIndex, IpldIter, IpldKind, Limits};
