//! The types that `ipld!` takes as expressions and as keys.

ghost use Rattle.std.specs.Prelude.{◌≡◌, List, ℕ, Bool, true, false, string_bytes, IfOk, OnErr};
ghost use Rattle.ipld_tree.specs.Tree as tree;
ghost use Rattle.ipld_tree.specs.TreeOf.{tree_of};

use crate::ipld::Ipld;
use std::alloc::{AllocError, Global};

/// A type that can be converted to a value of the data model. It is implemented for every type that
/// [`Ipld`] is `From`, for [`Ipld`] itself, for `&str` and for `&[u8]`.
pub trait IntoIpld: Sized {
    ghost use Rattle.ipld_tree.specs.declared.ipld.Ipld.{Ipld};

    /// Holds for a value and every [`Ipld`] that it may become.
    ghost becomes: { Self → Ipld → Type 0 };

    /// True if the type allocates, and so can fail.
    ghost allocates: { Bool };

    /// Converts `self` to a value of the data model. `&str` and `&[u8]` are copied. No other type
    /// allocates, and no other type fails.
    ///
    /// # Errors
    ///
    /// `AllocError` if the allocation for the copy fails.
    fn into_ipld(self, alloc: Global) -> Result<Ipld, AllocError>
        ensures ok { IfOk result (λ v. becomes self v) }
        ensures err { OnErr result (allocates ≡ true) };
}

impl<T: Into<Ipld>> IntoIpld for T {
    ghost becomes = { λ x v. T.converts x v };

    ghost allocates = { false };

    fn into_ipld(self, _alloc: Global) -> Result<Ipld, AllocError> {
        Ok(self.into())
    }
}

impl IntoIpld for &str {
    ghost becomes = { λ s v. tree_of v ≡ tree.text s.now };

    ghost allocates = { true };

    fn into_ipld(self, alloc: Global) -> Result<Ipld, AllocError> {
        Ipld::from_text(alloc, self)
    }
}

impl IntoIpld for &[u8] {
    ghost becomes = { λ b v. tree_of v ≡ tree.bytes b.now };

    ghost allocates = { true };

    fn into_ipld(self, alloc: Global) -> Result<Ipld, AllocError> {
        Ipld::from_byte_slice(alloc, self)
    }
}

/// A type that can be converted to a key of a map.
pub trait IntoKey: Sized {
    /// The bytes of the string that the value becomes.
    ghost key: { Self → List ℕ };

    /// True if the type allocates, and so can fail.
    ghost allocates: { Bool };

    /// Converts `self` to a string. `&str` is copied. `String` does not allocate, and does not
    /// fail.
    ///
    /// # Errors
    ///
    /// `AllocError` if the allocation for the copy fails.
    fn into_key(self, alloc: Global) -> Result<String, AllocError>
        ensures ok { IfOk result (λ s. string_bytes s ≡ key self) }
        ensures err { OnErr result (allocates ≡ true) };
}

impl IntoKey for &str {
    ghost key = { λ s. s.now };

    ghost allocates = { true };

    fn into_key(self, alloc: Global) -> Result<String, AllocError> {
        String::from_str(alloc, self)
    }
}

impl IntoKey for String {
    ghost key = { string_bytes };

    ghost allocates = { false };

    fn into_key(self, _alloc: Global) -> Result<String, AllocError> {
        Ok(self)
    }
}
