//! The place and the reason of a failure to read a tree.

ghost use Rattle.std.specs.Prelude.{◌≡◌, [], IfOk, codes, string_bytes};
ghost use Rattle.ipld_explain.specs.Failures.{failure_of, step_of, under, value, missing_field, unknown_field, unknown_variant, length};
ghost use Rattle.ipld_de.specs.Reading.{IsCustom};

use ipld_ser::SerdeError;
use ipld_tree::IpldKind;
use std::alloc::{AllocError, Global};
use std::{error, fmt};

/// A step on a path: from a map to the value of a key, or from a list to an item.
#[derive(Debug, PartialEq, Eq, Drop)]
pub enum Segment {
    /// The value of this key.
    Key(String),
    /// The item of this index, counted from 0.
    Index(usize),
}

/// The value that a type expects.
#[derive(Clone, Copy, Debug, PartialEq, Eq)]
pub enum Expected {
    /// A value of a custom type, or of a type that is read as a whole.
    Value,
    /// Null.
    Null,
    /// A Bool.
    Bool,
    /// An Integer that is a signed number of this many bits.
    Signed(u32),
    /// An Integer that is an unsigned number of this many bits.
    Unsigned(u32),
    /// A String of exactly one character.
    Char,
    /// A String.
    String,
    /// Bytes.
    Bytes,
    /// A Link.
    Link,
    /// A List.
    List,
    /// A Map.
    Map,
    /// A variant of an enum: a String that is its name, or a Map with only one entry, from its name
    /// to its content.
    Variant,
    /// No value, since no field has the name.
    Nothing,
}

/// The reason why a value is at fault.
#[derive(Debug, PartialEq, Eq, Drop)]
pub enum Reason {
    /// It differs from the expected value. The error has the details.
    Value,
    /// It is a Map that lacks this name.
    MissingField(String),
    /// Its key is a name that no field has. The key is the last one of the path.
    UnknownField,
    /// It names a variant that the enum doesn't have.
    UnknownVariant(String),
    /// It is a List of another length.
    Length {
        /// The number of expected items.
        expected: usize,
        /// The number of items in the List.
        found: usize,
    },
}

/// The place and the reason of a failure to read a tree: the path to the value at fault, the
/// expected value, the kind that was found, and the error.
///
/// Its `Display` prints a sentence, for example `posts/3/author: expected a String, found Integer`.
/// The path is left out if the tree itself is at fault.
#[derive(Debug, PartialEq, Eq, Drop)]
pub struct Explanation {
    /// The path to the value at fault, from the innermost segment to the outermost. For
    /// `posts/3/author` it begins with `author`.
    pub segments: Vec<Segment>,
    /// The kind of the value at fault.
    pub found: IpldKind,
    /// The value that the type expects there.
    pub expected: Expected,
    /// The error of the type that doesn't read the value at fault.
    pub error: SerdeError,
    /// The reason why it is at fault.
    pub reason: Reason,
}

impl Explanation {
    // Creates an explanation: the value itself is at fault.
    pub(crate) fn at_value(
        alloc: Global,
        found: IpldKind,
        expected: Expected,
        error: SerdeError,
    ) -> Explanation
        ensures path { (failure_of result).path ≡ [] }
        ensures found { result.found ≡ found }
        ensures expected { result.expected ≡ expected }
        ensures error { result.error ≡ error }
        ensures wrong { (failure_of result).wrong ≡ value }
    {
        Explanation {
            segments: Vec::new(alloc),
            found,
            expected,
            error,
            reason: Reason::Value,
        }
    }

    // Creates an explanation: a map lacks the name.
    pub(crate) fn missing_field(alloc: Global, name: &str) -> Result<Explanation, AllocError>
        ensures path { IfOk result (λ x. (failure_of x).path ≡ []) }
        ensures found { IfOk result (λ x. x.found ≡ IpldKind.Map) }
        ensures expected { IfOk result (λ x. x.expected ≡ Expected.Map) }
        ensures error { IfOk result (λ x. IsCustom (codes "missing field") x.error) }
        ensures wrong { IfOk result (λ x. (failure_of x).wrong ≡ missing_field name.now) }
    {
        Ok(Explanation {
            segments: Vec::new(alloc),
            found: IpldKind::Map,
            expected: Expected::Map,
            error: SerdeError::Custom("missing field"),
            reason: Reason::MissingField(String::from_str(alloc, name)?),
        })
    }

    // Creates an explanation: no field has the name of the value.
    pub(crate) fn unknown_field(alloc: Global, found: IpldKind) -> Explanation
        ensures path { (failure_of result).path ≡ [] }
        ensures found { result.found ≡ found }
        ensures expected { result.expected ≡ Expected.Nothing }
        ensures error { IsCustom (codes "unknown field") result.error }
        ensures wrong { (failure_of result).wrong ≡ unknown_field }
    {
        Explanation {
            segments: Vec::new(alloc),
            found,
            expected: Expected::Nothing,
            error: SerdeError::Custom("unknown field"),
            reason: Reason::UnknownField,
        }
    }

    // Creates an explanation: no variant has the name.
    pub(crate) fn unknown_variant(alloc: Global, found: IpldKind, name: String) -> Explanation
        ensures path { (failure_of result).path ≡ [] }
        ensures found { result.found ≡ found }
        ensures expected { result.expected ≡ Expected.Variant }
        ensures error { IsCustom (codes "unknown variant") result.error }
        ensures wrong { (failure_of result).wrong ≡ unknown_variant (string_bytes name) }
    {
        Explanation {
            segments: Vec::new(alloc),
            found,
            expected: Expected::Variant,
            error: SerdeError::Custom("unknown variant"),
            reason: Reason::UnknownVariant(name),
        }
    }

    // Creates an explanation: a list has `found` items instead of `expected`.
    pub(crate) fn wrong_length(
        alloc: Global,
        expected: usize,
        found: usize,
        error: SerdeError,
    ) -> Explanation
        ensures path { (failure_of result).path ≡ [] }
        ensures found { result.found ≡ IpldKind.List }
        ensures expected { result.expected ≡ Expected.List }
        ensures error { result.error ≡ error }
        ensures wrong { (failure_of result).wrong ≡ length expected found }
    {
        Explanation {
            segments: Vec::new(alloc),
            found: IpldKind::List,
            expected: Expected::List,
            error,
            reason: Reason::Length { expected, found },
        }
    }

    // Returns this explanation with its path extended by the segment, which leads from a list or a
    // map to its value.
    pub(crate) fn within_segment(self, segment: Segment) -> Result<Explanation, AllocError>
        ensures { IfOk result (λ x. failure_of x ≡ under (step_of segment) (failure_of self)) }
    {
        let Explanation {
            mut segments,
            found,
            expected,
            error,
            reason,
        } = self;
        segments.push(segment)?;
        Ok(Explanation {
            segments,
            found,
            expected,
            error,
            reason,
        })
    }
}

impl Expected {
    // Writes the expected value in words.
    fn describe<W: fmt::Write>(&self, f: &mut fmt::Formatter<W>) -> fmt::Result {
        match self {
            Expected::Value => f.write_str("another value"),
            Expected::Null => f.write_str("Null"),
            Expected::Bool => f.write_str("a Bool"),
            Expected::Signed(bits) => write!(f, "an Integer of i{bits}"),
            Expected::Unsigned(bits) => write!(f, "an Integer of u{bits}"),
            Expected::Char => f.write_str("a String of one character"),
            Expected::String => f.write_str("a String"),
            Expected::Bytes => f.write_str("Bytes"),
            Expected::Link => f.write_str("a Link"),
            Expected::List => f.write_str("a List"),
            Expected::Map => f.write_str("a Map"),
            Expected::Variant => f.write_str("a variant"),
            Expected::Nothing => f.write_str("nothing"),
        }
    }
}

impl fmt::Display for Expected {
    fn fmt<W: fmt::Write>(&self, f: &mut fmt::Formatter<W>) -> fmt::Result {
        self.describe(f)
    }
}

impl fmt::Display for Segment {
    fn fmt<W: fmt::Write>(&self, f: &mut fmt::Formatter<W>) -> fmt::Result {
        match self {
            Segment::Key(key) => write!(f, "{key}"),
            Segment::Index(index) => write!(f, "{index}"),
        }
    }
}

impl Explanation {
    // Writes the path, with its segments separated by `/`, and a separator before the words after
    // it.
    fn write_path<W: fmt::Write>(&self, f: &mut fmt::Formatter<W>) -> fmt::Result {
        let mut is_first = true;
        for segment in self.segments.iter().rev() {
            if !is_first {
                f.write_str("/")?;
            }
            is_first = false;
            write!(f, "{segment}")?;
        }
        if is_first { Ok(()) } else { f.write_str(": ") }
    }
}

impl fmt::Display for Explanation {
    fn fmt<W: fmt::Write>(&self, f: &mut fmt::Formatter<W>) -> fmt::Result {
        self.write_path(f)?;
        match (&self.reason, self.error) {
            (Reason::MissingField(name), _) => write!(f, "the field {name} is missing"),
            (Reason::UnknownField, _) => f.write_str("no field has this name"),
            (Reason::UnknownVariant(name), _) => write!(f, "no variant is named {name}"),
            (Reason::Length { expected, found }, _) => write!(
                f,
                "expected a List of length {expected}, found length {found}"
            ),
            (Reason::Value, SerdeError::WrongKind(_)) => {
                write!(f, "expected {}, found {:?}", self.expected, self.found)
            }
            (Reason::Value, error) => write!(f, "expected {}: {error:#}", self.expected),
        }
    }
}

impl error::Error for Explanation {}
