//! Conversions between [`Ipld`] and the types of Rust.
//!
//! `From` makes a value of the data model, and `TryFrom<Ipld>` takes its content out again. Neither
//! allocates. A type takes one kind of value:
//!
//! - `()` takes Null,
//! - `bool` takes Bool,
//! - the integer types take Integer,
//! - `String` takes String,
//! - `Vec<u8>` takes Bytes,
//! - `Vec<Ipld>` takes List,
//! - `BTreeMap<String, Ipld>` takes Map,
//! - `Cid` takes Link.
//!
//! An `Option` of one of these types, except `()`, also takes Null and returns `None` for it.

ghost use Rattle.std.specs.Prelude.{◌≡◌, IfOk};
ghost use Rattle.ipld_tree.specs.Tree as tree;
ghost use Rattle.ipld_tree.specs.TreeOf.{tree_of};

mod from;
mod into;
mod try_from;
mod try_from_option;

use crate::ipld::{Ipld, IpldKind};
pub use into::{IntoIpld, IntoKey};
use std::alloc::{AllocError, Global};
use std::{error, fmt};

/// The error of converting an [`Ipld`] to another type. The value is dropped as [`Ipld::discard`]
/// does.
#[derive(Clone, Copy, Debug, PartialEq, Eq)]
pub enum ConversionError {
    /// The value is not of the kind that the type takes. For an `Option`, the expected kind is that
    /// of its content.
    WrongIpldKind {
        /// The kind that the type takes.
        expected: IpldKind,
        /// The kind of the value.
        found: IpldKind,
    },
    /// The value is of the kind that the type takes, but it is an integer out of the type's range.
    FromIpld {
        /// The kind of the value, which is always [`IpldKind::Integer`].
        from: IpldKind,
        /// The type that is too narrow. For an `Option`, it is the type of its content.
        into: TargetType,
    },
}

/// An integer type. A number can be out of its range. No other conversion has a range.
#[derive(Clone, Copy, Debug, PartialEq, Eq)]
pub enum TargetType {
    /// The type `i8`.
    I8,
    /// The type `i16`.
    I16,
    /// The type `i32`.
    I32,
    /// The type `i64`.
    I64,
    /// The type `i128`. It holds every number of an [`Ipld`], so no error names it.
    I128,
    /// The type `isize`.
    Isize,
    /// The type `u8`.
    U8,
    /// The type `u16`.
    U16,
    /// The type `u32`.
    U32,
    /// The type `u64`.
    U64,
    /// The type `u128`.
    U128,
    /// The type `usize`.
    Usize,
}

impl fmt::Display for ConversionError {
    fn fmt<W: fmt::Write>(&self, f: &mut fmt::Formatter<W>) -> fmt::Result {
        match self {
            ConversionError::WrongIpldKind { expected, found } => {
                write!(f, "kind error: expected {expected:?} but found {found:?}")
            }
            ConversionError::FromIpld { from, into } => {
                write!(f, "conversion error: cannot convert {from:?} into {into:?}")
            }
        }
    }
}

impl error::Error for ConversionError {}

impl Ipld {
    /// Creates an [`Ipld::String`] with a copy of the string. Unlike `Cid::from_text`, it does not
    /// parse the string.
    ///
    /// # Errors
    ///
    /// `AllocError` if the allocation of the string's bytes fails.
    pub fn from_text(alloc: Global, text: &str) -> Result<Ipld, AllocError>
        ensures { IfOk result (λ v. tree_of v ≡ tree.text text.now) }
    {
        Ok(Ipld::String(String::from_str(alloc, text)?))
    }

    /// Creates an [`Ipld::Bytes`] with a copy of the bytes.
    ///
    /// # Errors
    ///
    /// `AllocError` if the allocation of the bytes fails.
    pub fn from_byte_slice(alloc: Global, bytes: &[u8]) -> Result<Ipld, AllocError>
        ensures { IfOk result (λ v. tree_of v ≡ tree.bytes bytes.now) }
    {
        Ok(Ipld::Bytes(Vec::from_slice(alloc, bytes)?))
    }
}
