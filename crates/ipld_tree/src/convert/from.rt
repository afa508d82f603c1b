//! Conversions of Rust values to values of the data model. They do not allocate, and they do not
//! fail.

ghost use Rattle.std.specs.Prelude.{◌≡◌, pos, string_bytes};
ghost use Rattle.ipld_cid.specs.LinkOf.{link_of};
ghost use Rattle.ipld_tree.specs.Tree as tree;
ghost use Rattle.ipld_tree.specs.TreeOf.{tree_of, items_of, members_of};

use crate::ipld::Ipld;
use ipld_cid::Cid;
use std::collections::BTreeMap;

impl From<bool> for Ipld {
    ghost from_gives = { λ truth v. tree_of v ≡ tree.boolean truth };

    /// Returns the bool as an [`Ipld::Bool`].
    fn from(truth: bool) -> Ipld {
        Ipld::Bool(truth)
    }
}

impl From<i8> for Ipld {
    ghost from_gives = { λ number v. tree_of v ≡ tree.integer number };

    /// Returns the number as an [`Ipld::Integer`].
    fn from(number: i8) -> Ipld {
        Ipld::Integer(number as i128)
    }
}

impl From<i16> for Ipld {
    ghost from_gives = { λ number v. tree_of v ≡ tree.integer number };

    /// Returns the number as an [`Ipld::Integer`].
    fn from(number: i16) -> Ipld {
        Ipld::Integer(number as i128)
    }
}

impl From<i32> for Ipld {
    ghost from_gives = { λ number v. tree_of v ≡ tree.integer number };

    /// Returns the number as an [`Ipld::Integer`].
    fn from(number: i32) -> Ipld {
        Ipld::Integer(number as i128)
    }
}

impl From<i64> for Ipld {
    ghost from_gives = { λ number v. tree_of v ≡ tree.integer number };

    /// Returns the number as an [`Ipld::Integer`].
    fn from(number: i64) -> Ipld {
        Ipld::Integer(number as i128)
    }
}

impl From<i128> for Ipld {
    ghost from_gives = { λ number v. tree_of v ≡ tree.integer number };

    /// Returns the number as an [`Ipld::Integer`].
    fn from(number: i128) -> Ipld {
        Ipld::Integer(number)
    }
}

impl From<isize> for Ipld {
    ghost from_gives = { λ number v. tree_of v ≡ tree.integer number };

    /// Returns the number as an [`Ipld::Integer`].
    fn from(number: isize) -> Ipld {
        Ipld::Integer(number as i128)
    }
}

impl From<u8> for Ipld {
    ghost from_gives = { λ number v. tree_of v ≡ tree.integer (pos number) };

    /// Returns the number as an [`Ipld::Integer`].
    fn from(number: u8) -> Ipld {
        Ipld::Integer(number as i128)
    }
}

impl From<u16> for Ipld {
    ghost from_gives = { λ number v. tree_of v ≡ tree.integer (pos number) };

    /// Returns the number as an [`Ipld::Integer`].
    fn from(number: u16) -> Ipld {
        Ipld::Integer(number as i128)
    }
}

impl From<u32> for Ipld {
    ghost from_gives = { λ number v. tree_of v ≡ tree.integer (pos number) };

    /// Returns the number as an [`Ipld::Integer`].
    fn from(number: u32) -> Ipld {
        Ipld::Integer(number as i128)
    }
}

impl From<u64> for Ipld {
    ghost from_gives = { λ number v. tree_of v ≡ tree.integer (pos number) };

    /// Returns the number as an [`Ipld::Integer`].
    fn from(number: u64) -> Ipld {
        Ipld::Integer(number as i128)
    }
}

impl From<usize> for Ipld {
    ghost from_gives = { λ number v. tree_of v ≡ tree.integer (pos number) };

    /// Returns the number as an [`Ipld::Integer`].
    fn from(number: usize) -> Ipld {
        Ipld::Integer(number as i128)
    }
}

impl From<String> for Ipld {
    ghost from_gives = { λ text v. tree_of v ≡ tree.text (string_bytes text) };

    /// Returns the string itself as an [`Ipld::String`].
    fn from(text: String) -> Ipld {
        Ipld::String(text)
    }
}

impl From<Vec<u8>> for Ipld {
    ghost from_gives = { λ bytes v. tree_of v ≡ tree.bytes bytes.items };

    /// Returns the bytes themselves as an [`Ipld::Bytes`].
    fn from(bytes: Vec<u8>) -> Ipld {
        Ipld::Bytes(bytes)
    }
}

impl From<Vec<Ipld>> for Ipld {
    ghost from_gives = { λ items v. tree_of v ≡ tree.list (items_of items.items) };

    /// Returns the items as an [`Ipld::List`].
    fn from(items: Vec<Ipld>) -> Ipld {
        Ipld::List(items)
    }
}

impl From<BTreeMap<String, Ipld>> for Ipld {
    ghost from_gives = { λ members v. tree_of v ≡ tree.entries (members_of members.entries) };

    /// Returns the members as an [`Ipld::Map`].
    fn from(members: BTreeMap<String, Ipld>) -> Ipld {
        Ipld::Map(members)
    }
}

impl From<Cid> for Ipld {
    ghost from_gives = { λ cid v. tree_of v ≡ tree.link (link_of cid) };

    /// Returns the CID as an [`Ipld::Link`].
    fn from(cid: Cid) -> Ipld {
        Ipld::Link(cid)
    }
}

impl From<&Cid> for Ipld {
    ghost from_gives = { λ cid v. tree_of v ≡ tree.link (link_of cid.now) };

    /// Returns the CID as an [`Ipld::Link`].
    fn from(cid: &Cid) -> Ipld {
        Ipld::Link(*cid)
    }
}
