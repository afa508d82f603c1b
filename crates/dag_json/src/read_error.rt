//! The errors of reading a text as a tree, with their offsets.

ghost use Rattle.std.specs.Prelude.{◌≡◌};
ghost use Rattle.dag_json.specs.Errors.{kind_name, kind_sentence};

use ipld_cid::write_number;
use std::{error, fmt};

/// The kind of a [`ReadError`]: the reason why a text isn't read as DAG-JSON.
///
/// The error is that of the first token that has one. If a token has several errors, the first of
/// these is returned:
///
/// 1. `Syntax`: the token isn't a token of JSON, or can't come there.
/// 2. For a number, `Float` or `IntegerRange`. For a key, `DuplicateKey`. For the brace that closes
///    an object, `Reserved`, and then `Link` or `Bytes`.
/// 3. `TooDeep`.
/// 4. `TooMany`.
///
/// For example, with a limit of 0 values, `1e2` is `Float` in [`from_slice`](crate::from_slice). It
/// is `TooMany` in [`floats::from_slice`](crate::floats::from_slice), which reads floats. With
/// limits of 0 levels and 0 values, `[]` is `TooDeep`. Bytes that aren't UTF-8 are `Utf8`, even if
/// a token before them has an error. Any call may return `Memory`.
///
/// A number or a word, such as `true`, ends before the next blank, before one of `{`, `}`, `[`,
/// `]`, `:` and `,`, or at the end of the text. A blank is a space, a tab, a line feed or a
/// carriage return. So `1"a"` is one word, and `Syntax` at byte 0. A string ends with its quote, so
/// in `"a"1` the error is the `1`, at byte 3.
///
/// Its `Display` is a sentence that describes the error.
#[derive(Clone, Copy, Debug, PartialEq, Eq)]
pub enum ReadErrorKind {
    /// An allocation failed.
    Memory,
    /// The bytes aren't UTF-8.
    Utf8,
    /// The text isn't JSON (RFC 8259), or continues after its value. This includes a text that ends
    /// within a token or after a comma.
    Syntax,
    /// The text ends before its value does.
    End,
    /// A number has a fraction or an exponent: trees have no floats. If [`floats`](crate::floats)
    /// are read, such a number is an error only if it is beyond the greatest float.
    Float,
    /// An integer is below -2^127 or above 2^127 - 1. If [`floats`](crate::floats) are read, it is
    /// below -2^64 or above 2^64 - 1.
    IntegerRange,
    /// A key repeats an earlier key of its object.
    DuplicateKey,
    /// The text of a link isn't that of a CID in DAG-JSON: base58btc for version 0, and `b`
    /// followed by base32 for version 1.
    Link,
    /// The text of bytes isn't base64 without padding (RFC 4648, section 4).
    Bytes,
    /// An object is reserved for links and bytes, and is neither. Its first key in byte order is
    /// `/`. The value of that key is a string, or an object whose first key is `bytes`, with a
    /// string as its value. One of these objects has other keys too.
    Reserved,
    /// An array or an object nests deeper than the limit allows.
    TooDeep,
    /// The text has more values than the limit allows.
    TooMany,
    /// The text differs from the one that is written of its tree.
    NotCanonical,
}

impl ReadErrorKind {
    /// Returns the name of the variant.
    pub fn name(&self) -> &'static str
        ensures { result.now ≡ kind_name self.now }
    {
        match self {
            ReadErrorKind::Memory => "Memory",
            ReadErrorKind::Utf8 => "Utf8",
            ReadErrorKind::Syntax => "Syntax",
            ReadErrorKind::End => "End",
            ReadErrorKind::Float => "Float",
            ReadErrorKind::IntegerRange => "IntegerRange",
            ReadErrorKind::DuplicateKey => "DuplicateKey",
            ReadErrorKind::Link => "Link",
            ReadErrorKind::Bytes => "Bytes",
            ReadErrorKind::Reserved => "Reserved",
            ReadErrorKind::TooDeep => "TooDeep",
            ReadErrorKind::TooMany => "TooMany",
            ReadErrorKind::NotCanonical => "NotCanonical",
        }
    }

    /// Returns the sentence that describes the error. `{kind}` prints the same.
    pub fn sentence(&self) -> &'static str
        ensures { result.now ≡ kind_sentence self.now }
    {
        match self {
            ReadErrorKind::Memory => "out of memory",
            ReadErrorKind::Utf8 => "the text is not valid UTF-8",
            ReadErrorKind::Syntax => "not valid JSON",
            ReadErrorKind::End => "unexpected end of the text",
            ReadErrorKind::Float => "a float, which trees cannot hold",
            ReadErrorKind::IntegerRange => "the integer is below -2^127 or above 2^127 - 1",
            ReadErrorKind::DuplicateKey => "duplicate key",
            ReadErrorKind::Link =>
                "invalid link: not a CID in base32 (version 1) or base58btc (version 0)",
            ReadErrorKind::Bytes => "invalid bytes: not base64 without padding",
            ReadErrorKind::Reserved => {
                "DAG-JSON reserves this object: it must be {\"/\":\"CID\"} or {\"/\":{\"bytes\":\"..\"}}"
            }
            ReadErrorKind::TooDeep => "arrays and objects nest deeper than the limit",
            ReadErrorKind::TooMany => "more values than the limit",
            ReadErrorKind::NotCanonical => "not canonical DAG-JSON",
        }
    }
}

impl fmt::Display for ReadErrorKind {
    ghost use Rattle.std.specs.Prelude.{Some};

    ghost output = { λ kind. Some (kind_sentence kind) };

    ghost styled_output = { λ kind _. Some (kind_sentence kind) };

    fn fmt<W: fmt::Write>(&self, f: &mut fmt::Formatter<W>) -> fmt::Result {
        f.write_str(self.sentence())
    }
}

/// An error of reading a text as DAG-JSON, with its offset.
///
/// Its `Display` is the sentence of the kind, then ` at byte ` and the offset.
#[derive(Clone, Copy, Debug, PartialEq, Eq)]
pub struct ReadError {
    /// The kind of the error.
    pub kind: ReadErrorKind,
    /// The byte of the text at which reading stopped, from 0. It is the start of the first token
    /// that can't be there, or the length of the text if more has to follow.
    ///
    /// A string and the colon after it are one token, a key. So if a string lacks its colon, the
    /// offset is that of the string. An invalid number, word or string begins at its first byte,
    /// and [`ReadErrorKind`] describes where it ends. For an object that has to be a link or bytes,
    /// the token is the brace that closes it.
    ///
    /// For bytes that aren't UTF-8, the offset is the first byte that isn't part of a character.
    /// For a text that isn't canonical, it is the first byte that differs. If an allocation failed,
    /// it is any offset, at most the length.
    pub offset: usize,
}

impl fmt::Display for ReadError {
    ghost use Rattle.std.specs.Prelude.{Some};
    ghost use Rattle.dag_json.specs.Errors.{sentence_of};

    ghost output = { λ error. Some (sentence_of error) };

    ghost styled_output = { λ error _. Some (sentence_of error) };

    fn fmt<W: fmt::Write>(&self, f: &mut fmt::Formatter<W>) -> fmt::Result {
        f.write_str(self.kind.sentence())?;
        write_number(f, " at byte ", self.offset as u64)
    }
}

impl error::Error for ReadError {}
