//! Conversions of a value of the data model to its content. They do not allocate: the content is
//! moved, not copied.

ghost use Rattle.std.specs.Prelude.{◌≡◌, string_bytes};
ghost use Rattle.ipld_cid.specs.LinkOf.{link_of};
ghost use Rattle.ipld_tree.specs.Kind.{kind_of};
ghost use Rattle.ipld_tree.specs.TreeOf.{tree_of, items_of, members_of};
ghost use Rattle.ipld_tree.specs.Convert.{Converts, of_kind, nothing_in, boolean_in, integer_in, text_in, bytes_in, list_in, entries_in, link_in, integer_within, signed_at, unsigned_at, not_negative};
ghost use Rattle.ipld_tree.specs.Tried.{Tried};
ghost use Rattle.ipld_tree.specs.declared.ipld.IpldKind.TheVariants as kind;
ghost use Rattle.ipld_tree.specs.declared.convert.ConversionError.TheVariants as error;
ghost use Rattle.ipld_tree.specs.declared.convert.TargetType.TheVariants as target_type;

use crate::convert::{ConversionError, TargetType};
use crate::ipld::{Ipld, IpldKind};
use ipld_cid::Cid;
use std::collections::BTreeMap;
use std::num::TryFromIntError;

// Rejects a value of another kind than the one that a type takes, and drops it by a loop.
fn wrong_kind(expected: IpldKind, found: Ipld) -> ConversionError
    ensures { result ≡ error.WrongIpldKind expected (kind_of (tree_of found)) }
{
    let kind = found.kind();
    found.discard();
    ConversionError::WrongIpldKind {
        expected,
        found: kind,
    }
}

// Converts a value to the integer type `N`. Fails if the value is of another kind, or out of range.
#[inline(always)]
fn number_of<N: TryFrom<i128, Error = TryFromIntError>>(
    ipld: Ipld,
    target: TargetType,
) -> Result<N, ConversionError>
    ensures { Tried N.try_from_gives target (tree_of ipld) result }
{
    match ipld {
        Ipld::Integer(number) => match N::try_from(number) {
            Ok(number) => Ok(number),
            Err(_) => Err(ConversionError::FromIpld {
                from: IpldKind::Integer,
                into: target,
            }),
        },
        other => Err(wrong_kind(IpldKind::Integer, other)),
    }
}

impl TryFrom<Ipld> for () {
    type Error = ConversionError;

    ghost try_from_gives = { Converts (λ u. u) (of_kind kind.Null nothing_in) };

    /// Returns `()` for a Null. Fails with [`ConversionError::WrongIpldKind`] if the value is of
    /// another kind.
    #[inline(always)]
    fn try_from(ipld: Ipld) -> Result<(), ConversionError> {
        match ipld {
            Ipld::Null => Ok(()),
            other => Err(wrong_kind(IpldKind::Null, other)),
        }
    }
}

impl TryFrom<Ipld> for bool {
    type Error = ConversionError;

    ghost try_from_gives = { Converts (λ b. b) (of_kind kind.Bool boolean_in) };

    /// Returns the `bool` of a Bool. Fails with [`ConversionError::WrongIpldKind`] if the value is
    /// of another kind.
    #[inline(always)]
    fn try_from(ipld: Ipld) -> Result<bool, ConversionError> {
        match ipld {
            Ipld::Bool(truth) => Ok(truth),
            other => Err(wrong_kind(IpldKind::Bool, other)),
        }
    }
}

impl TryFrom<Ipld> for i8 {
    type Error = ConversionError;

    ghost try_from_gives = { Converts (λ n. n) (integer_within (signed_at 8) target_type.I8) };

    /// Returns the number of an Integer. Fails with [`ConversionError::FromIpld`] if it is out of
    /// range, and with [`ConversionError::WrongIpldKind`] if the value is of another kind.
    #[inline(always)]
    #[tactic(auto, using(crate::proofs::Converting::signed_tried))]
    fn try_from(ipld: Ipld) -> Result<i8, ConversionError> {
        number_of(ipld, TargetType::I8)
    }
}

impl TryFrom<Ipld> for i16 {
    type Error = ConversionError;

    ghost try_from_gives = { Converts (λ n. n) (integer_within (signed_at 16) target_type.I16) };

    /// Returns the number of an Integer. Fails with [`ConversionError::FromIpld`] if it is out of
    /// range, and with [`ConversionError::WrongIpldKind`] if the value is of another kind.
    #[inline(always)]
    #[tactic(auto, using(crate::proofs::Converting::signed_tried))]
    fn try_from(ipld: Ipld) -> Result<i16, ConversionError> {
        number_of(ipld, TargetType::I16)
    }
}

impl TryFrom<Ipld> for i32 {
    type Error = ConversionError;

    ghost try_from_gives = { Converts (λ n. n) (integer_within (signed_at 32) target_type.I32) };

    /// Returns the number of an Integer. Fails with [`ConversionError::FromIpld`] if it is out of
    /// range, and with [`ConversionError::WrongIpldKind`] if the value is of another kind.
    #[inline(always)]
    #[tactic(auto, using(crate::proofs::Converting::signed_tried))]
    fn try_from(ipld: Ipld) -> Result<i32, ConversionError> {
        number_of(ipld, TargetType::I32)
    }
}

impl TryFrom<Ipld> for i64 {
    type Error = ConversionError;

    ghost try_from_gives = { Converts (λ n. n) (integer_within (signed_at 64) target_type.I64) };

    /// Returns the number of an Integer. Fails with [`ConversionError::FromIpld`] if it is out of
    /// range, and with [`ConversionError::WrongIpldKind`] if the value is of another kind.
    #[inline(always)]
    #[tactic(auto, using(crate::proofs::Converting::signed_tried))]
    fn try_from(ipld: Ipld) -> Result<i64, ConversionError> {
        number_of(ipld, TargetType::I64)
    }
}

impl TryFrom<Ipld> for i128 {
    type Error = ConversionError;

    ghost try_from_gives = { Converts (λ n. n) (of_kind kind.Integer integer_in) };

    /// Returns the number of an Integer. `i128` holds every number. Fails with
    /// [`ConversionError::WrongIpldKind`] if the value is of another kind.
    #[inline(always)]
    fn try_from(ipld: Ipld) -> Result<i128, ConversionError> {
        match ipld {
            Ipld::Integer(number) => Ok(number),
            other => Err(wrong_kind(IpldKind::Integer, other)),
        }
    }
}

impl TryFrom<Ipld> for isize {
    type Error = ConversionError;

    ghost try_from_gives = { Converts (λ n. n) (integer_within (signed_at 64) target_type.Isize) };

    /// Returns the number of an Integer. Fails with [`ConversionError::FromIpld`] if it is out of
    /// range, and with [`ConversionError::WrongIpldKind`] if the value is of another kind.
    #[inline(always)]
    #[tactic(auto, using(crate::proofs::Converting::signed_tried))]
    fn try_from(ipld: Ipld) -> Result<isize, ConversionError> {
        number_of(ipld, TargetType::Isize)
    }
}

impl TryFrom<Ipld> for u8 {
    type Error = ConversionError;

    ghost try_from_gives = { Converts (λ n. n) (integer_within (unsigned_at 8) target_type.U8) };

    /// Returns the number of an Integer. Fails with [`ConversionError::FromIpld`] if it is out of
    /// range, and with [`ConversionError::WrongIpldKind`] if the value is of another kind.
    #[inline(always)]
    #[tactic(auto, using(crate::proofs::Converting::unsigned_tried))]
    fn try_from(ipld: Ipld) -> Result<u8, ConversionError> {
        number_of(ipld, TargetType::U8)
    }
}

impl TryFrom<Ipld> for u16 {
    type Error = ConversionError;

    ghost try_from_gives = { Converts (λ n. n) (integer_within (unsigned_at 16) target_type.U16) };

    /// Returns the number of an Integer. Fails with [`ConversionError::FromIpld`] if it is out of
    /// range, and with [`ConversionError::WrongIpldKind`] if the value is of another kind.
    #[inline(always)]
    #[tactic(auto, using(crate::proofs::Converting::unsigned_tried))]
    fn try_from(ipld: Ipld) -> Result<u16, ConversionError> {
        number_of(ipld, TargetType::U16)
    }
}

impl TryFrom<Ipld> for u32 {
    type Error = ConversionError;

    ghost try_from_gives = { Converts (λ n. n) (integer_within (unsigned_at 32) target_type.U32) };

    /// Returns the number of an Integer. Fails with [`ConversionError::FromIpld`] if it is out of
    /// range, and with [`ConversionError::WrongIpldKind`] if the value is of another kind.
    #[inline(always)]
    #[tactic(auto, using(crate::proofs::Converting::unsigned_tried))]
    fn try_from(ipld: Ipld) -> Result<u32, ConversionError> {
        number_of(ipld, TargetType::U32)
    }
}

impl TryFrom<Ipld> for u64 {
    type Error = ConversionError;

    ghost try_from_gives = { Converts (λ n. n) (integer_within (unsigned_at 64) target_type.U64) };

    /// Returns the number of an Integer. Fails with [`ConversionError::FromIpld`] if it is out of
    /// range, and with [`ConversionError::WrongIpldKind`] if the value is of another kind.
    #[inline(always)]
    #[tactic(auto, using(crate::proofs::Converting::unsigned_tried))]
    fn try_from(ipld: Ipld) -> Result<u64, ConversionError> {
        number_of(ipld, TargetType::U64)
    }
}

impl TryFrom<Ipld> for u128 {
    type Error = ConversionError;

    ghost try_from_gives = { Converts (λ n. n) (integer_within not_negative target_type.U128) };

    /// Returns the number of an Integer. Fails with [`ConversionError::FromIpld`] if it is out of
    /// range, and with [`ConversionError::WrongIpldKind`] if the value is of another kind.
    #[inline(always)]
    #[tactic(auto, using(crate::proofs::Converting::u128_tried))]
    fn try_from(ipld: Ipld) -> Result<u128, ConversionError> {
        number_of(ipld, TargetType::U128)
    }
}

impl TryFrom<Ipld> for usize {
    type Error = ConversionError;

    ghost try_from_gives = { Converts (λ n. n) (integer_within (unsigned_at 64) target_type.Usize) };

    /// Returns the number of an Integer. Fails with [`ConversionError::FromIpld`] if it is out of
    /// range, and with [`ConversionError::WrongIpldKind`] if the value is of another kind.
    #[inline(always)]
    #[tactic(auto, using(crate::proofs::Converting::unsigned_tried))]
    fn try_from(ipld: Ipld) -> Result<usize, ConversionError> {
        number_of(ipld, TargetType::Usize)
    }
}

impl TryFrom<Ipld> for String {
    type Error = ConversionError;

    ghost try_from_gives = { Converts string_bytes (of_kind kind.String text_in) };

    /// Returns the content of a String. Fails with [`ConversionError::WrongIpldKind`] if the value
    /// is of another kind.
    #[inline(always)]
    fn try_from(ipld: Ipld) -> Result<String, ConversionError> {
        match ipld {
            Ipld::String(text) => Ok(text),
            other => Err(wrong_kind(IpldKind::String, other)),
        }
    }
}

impl TryFrom<Ipld> for Vec<u8> {
    type Error = ConversionError;

    ghost try_from_gives = { Converts (λ v. v.items) (of_kind kind.Bytes bytes_in) };

    /// Returns the bytes of a Bytes. Fails with [`ConversionError::WrongIpldKind`] if the value is
    /// of another kind.
    #[inline(always)]
    fn try_from(ipld: Ipld) -> Result<Vec<u8>, ConversionError> {
        match ipld {
            Ipld::Bytes(bytes) => Ok(bytes),
            other => Err(wrong_kind(IpldKind::Bytes, other)),
        }
    }
}

impl TryFrom<Ipld> for Vec<Ipld> {
    type Error = ConversionError;

    ghost try_from_gives = { Converts (λ v. items_of v.items) (of_kind kind.List list_in) };

    /// Returns the items of a List. Fails with [`ConversionError::WrongIpldKind`] if the value is
    /// of another kind.
    #[inline(always)]
    fn try_from(ipld: Ipld) -> Result<Vec<Ipld>, ConversionError> {
        match ipld {
            Ipld::List(items) => Ok(items),
            other => Err(wrong_kind(IpldKind::List, other)),
        }
    }
}

impl TryFrom<Ipld> for BTreeMap<String, Ipld> {
    type Error = ConversionError;

    ghost try_from_gives = { Converts (λ m. members_of m.entries) (of_kind kind.Map entries_in) };

    /// Returns the members of a Map. Fails with [`ConversionError::WrongIpldKind`] if the value is
    /// of another kind.
    #[inline(always)]
    fn try_from(ipld: Ipld) -> Result<BTreeMap<String, Ipld>, ConversionError> {
        match ipld {
            Ipld::Map(members) => Ok(members),
            other => Err(wrong_kind(IpldKind::Map, other)),
        }
    }
}

impl TryFrom<Ipld> for Cid {
    type Error = ConversionError;

    ghost try_from_gives = { Converts link_of (of_kind kind.Link link_in) };

    /// Returns the CID of a Link. Fails with [`ConversionError::WrongIpldKind`] if the value is of
    /// another kind.
    #[inline(always)]
    fn try_from(ipld: Ipld) -> Result<Cid, ConversionError> {
        match ipld {
            Ipld::Link(cid) => Ok(cid),
            other => Err(wrong_kind(IpldKind::Link, other)),
        }
    }
}
