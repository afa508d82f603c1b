//! Conversions of a value of the data model to its content, or to `None` for a Null. They do not
//! allocate.

ghost use Rattle.std.specs.Prelude.{◌≡◌, option_map, string_bytes};
ghost use Rattle.ipld_cid.specs.LinkOf.{link_of};
ghost use Rattle.ipld_tree.specs.TreeOf.{items_of, members_of};
ghost use Rattle.ipld_tree.specs.Convert.{Converts, of_kind, optional, boolean_in, integer_in, text_in, bytes_in, list_in, entries_in, link_in, integer_within, signed_at, unsigned_at, not_negative};
ghost use Rattle.ipld_tree.specs.Tried.{Optional};
ghost use Rattle.ipld_tree.specs.declared.ipld.IpldKind.TheVariants as kind;
ghost use Rattle.ipld_tree.specs.declared.convert.TargetType.TheVariants as target_type;

use crate::convert::ConversionError;
use crate::ipld::Ipld;
use ipld_cid::Cid;
use std::collections::BTreeMap;

// Returns `None` for a Null, and otherwise converts to the type.
fn convert_unless_null<T: TryFrom<Ipld, Error = ConversionError>>(
    ipld: Ipld,
) -> Result<Option<T>, ConversionError>
    ensures { Optional T.try_from_gives ipld result }
{
    match ipld {
        Ipld::Null => Ok(None),
        other => Ok(Some(T::try_from(other)?)),
    }
}

impl TryFrom<Ipld> for Option<bool> {
    type Error = ConversionError;

    ghost try_from_gives = { Converts (option_map (λ b. b)) (optional (of_kind kind.Bool boolean_in)) };

    /// Returns `None` for a Null, and otherwise converts to `bool`, with the same errors.
    #[tactic(auto, using(crate::proofs::Converting::optional_converts))]
    fn try_from(ipld: Ipld) -> Result<Option<bool>, ConversionError> {
        convert_unless_null(ipld)
    }
}

impl TryFrom<Ipld> for Option<i8> {
    type Error = ConversionError;

    ghost try_from_gives = { Converts (option_map (λ n. n)) (optional (integer_within (signed_at 8) target_type.I8)) };

    /// Returns `None` for a Null, and otherwise converts to `i8`, with the same errors.
    #[tactic(auto, using(crate::proofs::Converting::optional_converts))]
    fn try_from(ipld: Ipld) -> Result<Option<i8>, ConversionError> {
        convert_unless_null(ipld)
    }
}

impl TryFrom<Ipld> for Option<i16> {
    type Error = ConversionError;

    ghost try_from_gives = { Converts (option_map (λ n. n)) (optional (integer_within (signed_at 16) target_type.I16)) };

    /// Returns `None` for a Null, and otherwise converts to `i16`, with the same errors.
    #[tactic(auto, using(crate::proofs::Converting::optional_converts))]
    fn try_from(ipld: Ipld) -> Result<Option<i16>, ConversionError> {
        convert_unless_null(ipld)
    }
}

impl TryFrom<Ipld> for Option<i32> {
    type Error = ConversionError;

    ghost try_from_gives = { Converts (option_map (λ n. n)) (optional (integer_within (signed_at 32) target_type.I32)) };

    /// Returns `None` for a Null, and otherwise converts to `i32`, with the same errors.
    #[tactic(auto, using(crate::proofs::Converting::optional_converts))]
    fn try_from(ipld: Ipld) -> Result<Option<i32>, ConversionError> {
        convert_unless_null(ipld)
    }
}

impl TryFrom<Ipld> for Option<i64> {
    type Error = ConversionError;

    ghost try_from_gives = { Converts (option_map (λ n. n)) (optional (integer_within (signed_at 64) target_type.I64)) };

    /// Returns `None` for a Null, and otherwise converts to `i64`, with the same errors.
    #[tactic(auto, using(crate::proofs::Converting::optional_converts))]
    fn try_from(ipld: Ipld) -> Result<Option<i64>, ConversionError> {
        convert_unless_null(ipld)
    }
}

impl TryFrom<Ipld> for Option<i128> {
    type Error = ConversionError;

    ghost try_from_gives = { Converts (option_map (λ n. n)) (optional (of_kind kind.Integer integer_in)) };

    /// Returns `None` for a Null, and otherwise converts to `i128`, with the same errors.
    #[tactic(auto, using(crate::proofs::Converting::optional_converts))]
    fn try_from(ipld: Ipld) -> Result<Option<i128>, ConversionError> {
        convert_unless_null(ipld)
    }
}

impl TryFrom<Ipld> for Option<isize> {
    type Error = ConversionError;

    ghost try_from_gives = { Converts (option_map (λ n. n)) (optional (integer_within (signed_at 64) target_type.Isize)) };

    /// Returns `None` for a Null, and otherwise converts to `isize`, with the same errors.
    #[tactic(auto, using(crate::proofs::Converting::optional_converts))]
    fn try_from(ipld: Ipld) -> Result<Option<isize>, ConversionError> {
        convert_unless_null(ipld)
    }
}

impl TryFrom<Ipld> for Option<u8> {
    type Error = ConversionError;

    ghost try_from_gives = { Converts (option_map (λ n. n)) (optional (integer_within (unsigned_at 8) target_type.U8)) };

    /// Returns `None` for a Null, and otherwise converts to `u8`, with the same errors.
    #[tactic(auto, using(crate::proofs::Converting::optional_converts))]
    fn try_from(ipld: Ipld) -> Result<Option<u8>, ConversionError> {
        convert_unless_null(ipld)
    }
}

impl TryFrom<Ipld> for Option<u16> {
    type Error = ConversionError;

    ghost try_from_gives = { Converts (option_map (λ n. n)) (optional (integer_within (unsigned_at 16) target_type.U16)) };

    /// Returns `None` for a Null, and otherwise converts to `u16`, with the same errors.
    #[tactic(auto, using(crate::proofs::Converting::optional_converts))]
    fn try_from(ipld: Ipld) -> Result<Option<u16>, ConversionError> {
        convert_unless_null(ipld)
    }
}

impl TryFrom<Ipld> for Option<u32> {
    type Error = ConversionError;

    ghost try_from_gives = { Converts (option_map (λ n. n)) (optional (integer_within (unsigned_at 32) target_type.U32)) };

    /// Returns `None` for a Null, and otherwise converts to `u32`, with the same errors.
    #[tactic(auto, using(crate::proofs::Converting::optional_converts))]
    fn try_from(ipld: Ipld) -> Result<Option<u32>, ConversionError> {
        convert_unless_null(ipld)
    }
}

impl TryFrom<Ipld> for Option<u64> {
    type Error = ConversionError;

    ghost try_from_gives = { Converts (option_map (λ n. n)) (optional (integer_within (unsigned_at 64) target_type.U64)) };

    /// Returns `None` for a Null, and otherwise converts to `u64`, with the same errors.
    #[tactic(auto, using(crate::proofs::Converting::optional_converts))]
    fn try_from(ipld: Ipld) -> Result<Option<u64>, ConversionError> {
        convert_unless_null(ipld)
    }
}

impl TryFrom<Ipld> for Option<u128> {
    type Error = ConversionError;

    ghost try_from_gives = { Converts (option_map (λ n. n)) (optional (integer_within not_negative target_type.U128)) };

    /// Returns `None` for a Null, and otherwise converts to `u128`, with the same errors.
    #[tactic(auto, using(crate::proofs::Converting::optional_converts))]
    fn try_from(ipld: Ipld) -> Result<Option<u128>, ConversionError> {
        convert_unless_null(ipld)
    }
}

impl TryFrom<Ipld> for Option<usize> {
    type Error = ConversionError;

    ghost try_from_gives = { Converts (option_map (λ n. n)) (optional (integer_within (unsigned_at 64) target_type.Usize)) };

    /// Returns `None` for a Null, and otherwise converts to `usize`, with the same errors.
    #[tactic(auto, using(crate::proofs::Converting::optional_converts))]
    fn try_from(ipld: Ipld) -> Result<Option<usize>, ConversionError> {
        convert_unless_null(ipld)
    }
}

impl TryFrom<Ipld> for Option<String> {
    type Error = ConversionError;

    ghost try_from_gives = { Converts (option_map string_bytes) (optional (of_kind kind.String text_in)) };

    /// Returns `None` for a Null, and otherwise converts to `String`, with the same errors.
    #[tactic(auto, using(crate::proofs::Converting::optional_converts))]
    fn try_from(ipld: Ipld) -> Result<Option<String>, ConversionError> {
        convert_unless_null(ipld)
    }
}

impl TryFrom<Ipld> for Option<Vec<u8>> {
    type Error = ConversionError;

    ghost try_from_gives = { Converts (option_map (λ v. v.items)) (optional (of_kind kind.Bytes bytes_in)) };

    /// Returns `None` for a Null, and otherwise converts to `Vec<u8>`, with the same errors.
    #[tactic(auto, using(crate::proofs::Converting::optional_converts))]
    fn try_from(ipld: Ipld) -> Result<Option<Vec<u8>>, ConversionError> {
        convert_unless_null(ipld)
    }
}

impl TryFrom<Ipld> for Option<Vec<Ipld>> {
    type Error = ConversionError;

    ghost try_from_gives = { Converts (option_map (λ v. items_of v.items)) (optional (of_kind kind.List list_in)) };

    /// Returns `None` for a Null, and otherwise converts to `Vec<Ipld>`, with the same errors.
    #[tactic(auto, using(crate::proofs::Converting::optional_converts))]
    fn try_from(ipld: Ipld) -> Result<Option<Vec<Ipld>>, ConversionError> {
        convert_unless_null(ipld)
    }
}

impl TryFrom<Ipld> for Option<BTreeMap<String, Ipld>> {
    type Error = ConversionError;

    ghost try_from_gives = { Converts (option_map (λ m. members_of m.entries)) (optional (of_kind kind.Map entries_in)) };

    /// Returns `None` for a Null, and otherwise converts to `BTreeMap<String, Ipld>`, with the same
    /// errors.
    #[tactic(auto, using(crate::proofs::Converting::optional_converts))]
    fn try_from(ipld: Ipld) -> Result<Option<BTreeMap<String, Ipld>>, ConversionError> {
        convert_unless_null(ipld)
    }
}

impl TryFrom<Ipld> for Option<Cid> {
    type Error = ConversionError;

    ghost try_from_gives = { Converts (option_map link_of) (optional (of_kind kind.Link link_in)) };

    /// Returns `None` for a Null, and otherwise converts to `Cid`, with the same errors.
    #[tactic(auto, using(crate::proofs::Converting::optional_converts))]
    fn try_from(ipld: Ipld) -> Result<Option<Cid>, ConversionError> {
        convert_unless_null(ipld)
    }
}
