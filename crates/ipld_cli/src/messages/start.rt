//! The first bytes of an item of CBOR, whether DAG-CBOR allows it or not.

use std::fmt;

/// The kind of an item of CBOR by its first bytes (RFC 8949, section 3), whether DAG-CBOR allows it
/// or not.
///
/// Its `Display` names it, for example `a list` or `tag 2`.
#[derive(Clone, Copy, Debug)]
pub enum ItemStart {
    /// No byte, or a head that is cut.
    Cut,
    /// An unsigned integer, by its argument.
    Unsigned(u64),
    /// A negative integer, by its argument: -1 minus the argument.
    Negative(u64),
    /// A byte string, by its number of bytes.
    Bytes(u64),
    /// A text string, by its number of bytes.
    Text(u64),
    /// A list, by its number of items.
    List(u64),
    /// A map, by its number of entries.
    Map(u64),
    /// A tag, by its number.
    Tag(u64),
    /// False or true.
    Bool,
    /// Null.
    Null,
    /// Undefined.
    Undefined,
    /// Another simple value, by its number.
    Simple(u8),
    /// A float, by its number of bits.
    Float(u8),
    /// A break, which ends an item of indefinite length.
    Break,
    /// A byte string of indefinite length.
    IndefiniteBytes,
    /// A text string of indefinite length.
    IndefiniteText,
    /// A list of indefinite length.
    IndefiniteList,
    /// A map of indefinite length.
    IndefiniteMap,
    /// Additional information that has no meaning: 28 to 30, and 31 for integers and tags.
    Reserved(u8),
}

impl ItemStart {
    /// Returns the argument of the head, if it has one.
    pub fn argument(self) -> Option<u64> {
        match self {
            ItemStart::Unsigned(argument)
            | ItemStart::Negative(argument)
            | ItemStart::Bytes(argument)
            | ItemStart::Text(argument)
            | ItemStart::List(argument)
            | ItemStart::Map(argument)
            | ItemStart::Tag(argument) => Some(argument),
            _ => None,
        }
    }
}

// Returns the argument by the additional information, even if it is not in its shortest form.
fn argument(additional: u8, rest: &[u8]) -> Option<u64> {
    match additional {
        0..24 => Some(u64::from(additional)),
        24 => Some(u64::from(*rest.first()?)),
        25 => Some(u64::from(u16::from_be_bytes(*rest.first_chunk::<2>()?))),
        26 => Some(u64::from(u32::from_be_bytes(*rest.first_chunk::<4>()?))),
        27 => Some(u64::from_be_bytes(*rest.first_chunk::<8>()?)),
        _ => None,
    }
}

// Returns a simple value or a float.
fn simple_start(additional: u8, rest: &[u8]) -> ItemStart {
    match additional {
        20 | 21 => ItemStart::Bool,
        22 => ItemStart::Null,
        23 => ItemStart::Undefined,
        24 => match rest {
            [number, ..] => ItemStart::Simple(*number),
            [] => ItemStart::Cut,
        },
        25 => ItemStart::Float(16),
        26 => ItemStart::Float(32),
        27 => ItemStart::Float(64),
        28..31 => ItemStart::Reserved(additional),
        31 => ItemStart::Break,
        _ => ItemStart::Simple(additional),
    }
}

// Returns an item of a major type below 7 whose additional information is 31.
fn indefinite_start(major: u8) -> ItemStart {
    match major {
        2 => ItemStart::IndefiniteBytes,
        3 => ItemStart::IndefiniteText,
        4 => ItemStart::IndefiniteList,
        5 => ItemStart::IndefiniteMap,
        _ => ItemStart::Reserved(31),
    }
}

// Returns an item of a major type below 7, with its argument.
fn start_with_argument(major: u8, argument: u64) -> ItemStart {
    match major {
        0 => ItemStart::Unsigned(argument),
        1 => ItemStart::Negative(argument),
        2 => ItemStart::Bytes(argument),
        3 => ItemStart::Text(argument),
        4 => ItemStart::List(argument),
        5 => ItemStart::Map(argument),
        _ => ItemStart::Tag(argument),
    }
}

/// Returns the kind of the item that the bytes begin with.
pub fn item_start(bytes: &[u8]) -> ItemStart {
    let [first, rest @ ..] = bytes else {
        return ItemStart::Cut;
    };
    match (*first / 32, *first % 32) {
        (7, additional) => simple_start(additional, rest),
        (_, additional @ 28..31) => ItemStart::Reserved(additional),
        (major, 31) => indefinite_start(major),
        (major, additional) => match argument(additional, rest) {
            Some(argument) => start_with_argument(major, argument),
            None => ItemStart::Cut,
        },
    }
}

impl fmt::Display for ItemStart {
    fn fmt<W: fmt::Write>(&self, f: &mut fmt::Formatter<W>) -> fmt::Result {
        f.write_str(match self {
            ItemStart::Cut => "a truncated item",
            ItemStart::Unsigned(_) | ItemStart::Negative(_) => "an integer",
            ItemStart::Bytes(_) => "a byte string",
            ItemStart::Text(_) => "a text string",
            ItemStart::List(_) => "a list",
            ItemStart::Map(_) => "a map",
            ItemStart::Tag(number) => return write!(f, "tag {number}"),
            ItemStart::Bool => "a Boolean",
            ItemStart::Null => "null",
            ItemStart::Undefined => "undefined",
            ItemStart::Simple(number) => return write!(f, "the simple value {number}"),
            ItemStart::Float(_) => "a float",
            ItemStart::Break => "a break",
            ItemStart::IndefiniteBytes => "a byte string of indefinite length",
            ItemStart::IndefiniteText => "a text string of indefinite length",
            ItemStart::IndefiniteList => "a list of indefinite length",
            ItemStart::IndefiniteMap => "a map of indefinite length",
            ItemStart::Reserved(information) => {
                return write!(f, "the reserved additional information {information}");
            }
        })
    }
}
