//! The reasons why bytes, a text or a hash are not a CID.

ghost use Rattle.std.specs.Prelude.{◌≡◌, ◌++◌};
ghost use Rattle.std.specs.Fmt.{WritesOnOk, WritesStyledOnOk, decimal};
ghost use Rattle.ipld_cid.specs.Error.{name_of, sentence_of};

use itoa::Buffer;
use std::{error, fmt};

/// The reason why bytes, a text or a hash are not a content identifier.
///
/// Reading bytes returns the first error from the left. `Display` prints the variant's
/// [`name`](CidError::name). With `#` (`{error:#}`), it prints the [`sentence`](CidError::sentence).
#[derive(Clone, Copy, Debug, PartialEq, Eq)]
pub enum CidError {
    /// The bytes end before the CID does.
    End,
    /// A varint has a byte too many: its last byte is zero and is not its first byte.
    NotShortest,
    /// A varint encodes a number of 2^64 or more.
    VarintTooLarge,
    /// The bytes begin with version 0. No CID begins in this way: the bytes of a version 0 CID
    /// begin with `12 20`.
    ExplicitVersion0,
    /// The bytes begin with this version, which is neither 0 nor 1.
    UnknownVersion(u64),
    /// The digest, or the length that the bytes declare for it, exceeds the capacity of the type.
    DigestTooLong,
    /// More bytes follow the bytes of a CID.
    TrailingBytes,
    /// A version 0 CID was requested with a hash other than SHA2-256, or with a digest that does
    /// not have 32 bytes.
    InvalidV0Multihash,
    /// The text is not `b` followed by base32 letters in lower case, without padding and with no
    /// unused bit set. Or it encodes the bytes of a version 0 CID, which has no such text.
    InvalidText,
    /// An allocation failed. Reading bytes never returns this.
    Memory,
}

impl CidError {
    /// Returns the name of the variant, for example `TrailingBytes`. `{error}` prints the same.
    pub fn name(&self) -> &'static str
        ensures { result.now ≡ name_of self.now }
    {
        match self {
            CidError::End => "End",
            CidError::NotShortest => "NotShortest",
            CidError::VarintTooLarge => "VarintTooLarge",
            CidError::ExplicitVersion0 => "ExplicitVersion0",
            CidError::UnknownVersion(_) => "UnknownVersion",
            CidError::DigestTooLong => "DigestTooLong",
            CidError::TrailingBytes => "TrailingBytes",
            CidError::InvalidV0Multihash => "InvalidV0Multihash",
            CidError::InvalidText => "InvalidText",
            CidError::Memory => "Memory",
        }
    }

    /// Returns the sentence that describes the error, to be printed. `{error:#}` prints the same.
    ///
    /// ```rust
    /// if let Err(error) = Cid::from_text(alloc, text) {
    ///     println!(rt; "{}", error.sentence())?;
    /// }
    /// ```
    pub fn sentence(&self) -> CidSentence
        ensures { result.error ≡ self.now }
    {
        CidSentence { error: *self }
    }
}

impl fmt::Display for CidError {
    ghost use Rattle.std.specs.Prelude.{Some};
    ghost use Rattle.std.specs.Fmt.{spec_alternate};
    ghost use Rattle.ipld_cid.specs.Error.{printed};

    ghost output = { λ e. Some (name_of e) };

    ghost styled_output = { λ e spec. Some (printed (spec_alternate spec) e) };

    fn fmt<W: fmt::Write>(&self, f: &mut fmt::Formatter<W>) -> fmt::Result {
        if f.alternate() {
            return self.sentence().fmt(f);
        }
        f.write_str(self.name())
    }
}

impl error::Error for CidError {}

/// The sentence that describes a [`CidError`]. Its `Display` prints it, with any options.
#[derive(Clone, Copy, Debug)]
pub struct CidSentence {
    error: CidError,
}

impl fmt::Display for CidSentence {
    ghost use Rattle.std.specs.Prelude.{Some};

    ghost output = { λ s. Some (sentence_of s.error) };

    ghost styled_output = { λ s _. Some (sentence_of s.error) };

    fn fmt<W: fmt::Write>(&self, f: &mut fmt::Formatter<W>) -> fmt::Result {
        f.write_str(match self.error {
            CidError::End => "the bytes end before the CID does",
            CidError::NotShortest => "a varint is not in its shortest form",
            CidError::VarintTooLarge => "a varint encodes a number of 2^64 or more",
            CidError::ExplicitVersion0 => "CIDv0 cannot be specified in CIDv1 format",
            CidError::UnknownVersion(version) => {
                return write_number(f, "unknown CID version ", version);
            }
            CidError::DigestTooLong => "the digest is longer than the type can hold",
            CidError::TrailingBytes => "trailing bytes after the CID",
            CidError::InvalidV0Multihash => {
                "CIDv0 requires a SHA2-256 multihash with a digest of 32 bytes"
            }
            CidError::InvalidText => {
                "not a CIDv1 in base32: expected b, then lower-case letters and digits from 2 to 7"
            }
            CidError::Memory => "out of memory",
        })
    }
}

/// Writes `before`, and after it the number in decimal digits, whatever the options of `f` are.
///
/// The errors of the crates above write their sentences with it.
pub fn write_number<W: fmt::Write>(
    f: &mut fmt::Formatter<W>,
    before: &str,
    number: u64,
) -> fmt::Result
    ensures writes { WritesOnOk W.write_str_gives f.old result (before.now ++ decimal number) f.new }
    ensures styled { WritesStyledOnOk W.write_str_gives f.old result (before.now ++ decimal number)
        f.new }
{
    f.write_str(before)?;
    f.write_str(Buffer::new().format(number))
}
