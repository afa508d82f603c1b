//! The tree and its kinds.

ghost use Rattle.std.specs.Prelude.{◌≡◌};
ghost use Rattle.ipld_tree.specs.Kind.{kind_of};
ghost use Rattle.ipld_tree.specs.TreeOf.{tree_of};

use ipld_cid::Cid;
use std::collections::BTreeMap;

/// A value of the IPLD data model. It owns its contents.
///
/// The ordinary drop recurses once for every level of nesting, so a tree that nests too deep for
/// the call stack ends the process. The head of the crate lists the depths. [`Ipld::discard`] drops
/// a tree of any depth by a loop.
#[derive(Drop)]
pub enum Ipld {
    /// Null.
    Null,
    /// A bool.
    Bool(bool),
    /// A signed integer of 128 bits.
    Integer(i128),
    /// A string.
    String(String),
    /// Bytes.
    Bytes(Vec<u8>),
    /// A list of values.
    List(Vec<Ipld>),
    /// A map from strings to values, in byte order of the strings.
    Map(BTreeMap<String, Ipld>),
    /// A link to other content.
    Link(Cid),
}

/// The kinds of the IPLD data model, one for every variant of [`Ipld`].
#[derive(Clone, Copy, Debug, PartialEq, Eq)]
pub enum IpldKind {
    /// Null.
    Null,
    /// A bool.
    Bool,
    /// An integer.
    Integer,
    /// A string.
    String,
    /// Bytes.
    Bytes,
    /// A list of values.
    List,
    /// A map from strings to values.
    Map,
    /// A link to other content.
    Link,
}

impl Ipld {
    /// Returns the kind of the value. Does not allocate.
    pub fn kind(&self) -> IpldKind
        ensures { result ≡ kind_of (tree_of self.now) }
    {
        match self {
            Ipld::Null => IpldKind::Null,
            Ipld::Bool(_) => IpldKind::Bool,
            Ipld::Integer(_) => IpldKind::Integer,
            Ipld::String(_) => IpldKind::String,
            Ipld::Bytes(_) => IpldKind::Bytes,
            Ipld::List(_) => IpldKind::List,
            Ipld::Map(_) => IpldKind::Map,
            Ipld::Link(_) => IpldKind::Link,
        }
    }
}
