//! Texts with floats, and their trees, which have an integer instead of each float.
//!
//! A tree of the data model has no floats here. [`from_slice`] reads a text that may have floats,
//! and represents each by an integer of the tree. That integer is not one of DAG-CBOR, whose
//! integers are from -2^64 to 2^64 - 1. [`Number::from_integer`] returns the number of the text
//! that an integer of the tree represents:
//!
//! ```rust
//! use dag_json::ReadError;
//! use dag_json::floats::{Number, from_slice};
//! use ipld_tree::{Ipld, Limits};
//! use std::alloc::Global;
//!
//! // The float that is the text, if it is one.
//! fn float_of(alloc: Global, text: &[u8]) -> Result<Option<u64>, ReadError> {
//!     match from_slice(alloc, text, &Limits::default())? {
//!         Ipld::Integer(number) => match Number::from_integer(number) {
//!             Some(Number::Float(bits)) => Ok(Some(bits)),
//!             _ => Ok(None),
//!         },
//!         other => {
//!             other.discard();
//!             Ok(None)
//!         }
//!     }
//! }
//! ```

ghost use Rattle.std.specs.Prelude.{◌≡◌, ◌⊎◌, true, Some, map, IfOk, IfErr};
ghost use Rattle.std.specs.Float.{binary64};
ghost use Rattle.std.specs.Float.Parse.{parse_float};
ghost use Rattle.ipld_cid.specs.LinkOf.{link_of};
ghost use Rattle.ipld_tree.specs.Tree.{Tree};
ghost use Rattle.ipld_tree.specs.TreeOf.{tree_of};
ghost use Rattle.dag_json.specs.Codec.{links_in, IsBlockError};
ghost use Rattle.dag_json.specs.Encodes.{EncodesWithinIn};
ghost use Rattle.dag_json.specs.Errors.{float_sentence};
ghost use Rattle.dag_json.specs.Floats.{finite_number, float_read, number_as, number_in};
ghost use Rattle.dag_json.specs.Offset.{SaysWhere};
ghost use Rattle.dag_json.specs.ReadContract.{ReadsBytes, UnlessMemory};

use crate::block::find_links;
use crate::decode::read_text;
use crate::read_error::{ReadError, ReadErrorKind};
use crate::scalar::read_number;
use ipld_cid::Cid;
use ipld_tree::{Ipld, Limits};
use std::alloc::Global;
use std::str;

// One more than the greatest integer of DAG-CBOR. It represents the float whose bits are all 0.
const FIRST_FLOAT: i128 = 1 << 64;

/// A number of a text. An integer of a tree that [`from_slice`] returns represents it.
#[derive(Clone, Copy, Debug, PartialEq, Eq)]
pub enum Number {
    /// The integer n, from 0 to 2^64 - 1.
    Unsigned(u64),
    /// The integer -1 - n, from -2^64 to -1.
    Negative(u64),
    /// The float of these 64 bits (IEEE 754, binary64).
    Float(u64),
}

impl Number {
    /// Returns the number that an integer of a tree represents, or `None` if it represents no
    /// number.
    ///
    /// An integer from -2^64 to 2^64 - 1 represents itself. An integer from 2^64 to 2^65 - 1
    /// represents the float whose bits are the integer minus 2^64.
    pub fn from_integer(number: i128) -> Option<Self>
        ensures { result ≡ number_as number }
    {
        if number < 0 {
            return match u64::try_from(-1 - number) {
                Ok(n) => Some(Number::Negative(n)),
                Err(_) => None,
            };
        }
        if number < FIRST_FLOAT {
            return match u64::try_from(number) {
                Ok(n) => Some(Number::Unsigned(n)),
                Err(_) => None,
            };
        }
        match u64::try_from(number - FIRST_FLOAT) {
            Ok(bits) => Some(Number::Float(bits)),
            Err(_) => None,
        }
    }
}

// Returns the integer that represents the float of a text.
fn read_float(text: &str) -> Result<i128, ReadErrorKind>
    ensures { result ≡ finite_number (parse_float binary64 text.now) }
{
    match text.parse::<f64>() {
        Ok(float) if float.is_finite() => Ok(FIRST_FLOAT + i128::from(float.to_bits())),
        _ => Err(ReadErrorKind::Float),
    }
}

// Returns the integer that represents the number of a text.
#[tactic(auto, unfolding(crate::specs::Floats::float_read))]
fn read_any_number(text: &str) -> Result<i128, ReadErrorKind>
    ensures { result ≡ float_read text.now }
{
    match read_number(text) {
        Ok(number) if number < FIRST_FLOAT && number >= -FIRST_FLOAT => Ok(number),
        Ok(_) => Err(ReadErrorKind::IntegerRange),
        Err(ReadErrorKind::Float) => read_float(text),
        Err(error) => Err(error),
    }
}

// Reads a number, with or without floats.
#[inline(always)]
pub(crate) fn read_number_in(text: &str, floats: bool) -> Result<i128, ReadErrorKind>
    ensures { result ≡ number_in floats text.now }
{
    if floats {
        read_any_number(text)
    } else {
        read_number(text)
    }
}

/// Decodes a text in DAG-JSON that may have floats. The tree has an integer instead of each float.
///
/// A number with a fraction or an exponent is the float nearest to it (IEEE 754, binary64). If two
/// floats are equally near, it is the one with an even significand. `-0.0` is the negative zero. A
/// number without a fraction or an exponent is an integer, from -2^64 to 2^64 - 1. Everything else
/// is read as in [`from_slice`](crate::from_slice), within the same limits and with the same
/// allocations.
///
/// # Errors
///
/// Those of [`from_slice`](crate::from_slice), except for two:
///
/// - `Float` if a number with a fraction or an exponent is beyond the greatest float, so that an
///   infinity would be nearest.
/// - `IntegerRange` if an integer is below -2^64 or above 2^64 - 1.
///
/// With a limit of 0 values, `1e999` is `Float`, and `1e2` is `TooMany`.
pub fn from_slice(alloc: Global, bytes: &[u8], limits: &Limits) -> Result<Ipld, ReadError>
    ensures found { IfOk result (λ tree. EncodesWithinIn true limits.now (tree_of tree) bytes.now) }
    ensures only { (t : Tree) → EncodesWithinIn true limits.now t bytes.now
        → UnlessMemory result (λ tree. tree_of tree ≡ t) }
    ensures exact { ReadsBytes true limits.now bytes.now result }
    ensures stopped { IfErr result (SaysWhere true limits.now bytes.now) }
{
    match str::from_utf8(bytes) {
        Ok(text) => read_text(alloc, text, limits, true),
        Err(error) => Err(ReadError {
            kind: ReadErrorKind::Utf8,
            offset: error.valid_up_to(),
        }),
    }
}

/// Returns the sentence that describes an error of a text that may have floats. It is that of the
/// kind, except for `Float` and `IntegerRange`.
pub fn sentence(kind: ReadErrorKind) -> &'static str
    ensures { result.now ≡ float_sentence kind }
{
    match kind {
        ReadErrorKind::Float => "the number is too large for a 64-bit float",
        ReadErrorKind::IntegerRange => "the integer is below -2^64 or above 2^64 - 1",
        kind => kind.sentence(),
    }
}

/// Returns the links of a block of DAG-JSON that may have floats, in the order of a walk of its
/// tree.
///
/// The block is read as in [`from_slice`], without limits other than its length. The call allocates
/// the tree of the block, and recurses over it for at most 32 levels.
///
/// # Errors
///
/// Those of [`from_slice`], but never `TooDeep` or `TooMany`.
pub fn links_of_block(alloc: Global, bytes: &[u8]) -> Result<Vec<Cid>, ReadError>
    ensures found { IfOk result (λ links. links_in true bytes.now ≡ Some
        (map link_of links.items)) }
    ensures rejected { IfErr result (λ error. (error.kind ≡ ReadErrorKind.Memory)
        ⊎ IsBlockError true bytes.now error) }
{
    find_links(alloc, bytes, true)
}
