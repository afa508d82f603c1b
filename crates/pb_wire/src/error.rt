//! The errors of reading the wire format.

ghost use Rattle.std.specs.Prelude.{◌≡◌};
ghost use Rattle.pb_wire.specs.ErrorNames.{name_of, sentence_of};

use std::{error, fmt};

/// The reason why bytes do not begin with a value of the wire format.
///
/// Its `Display` is a sentence that describes the error. It has no offset, since a call doesn't
/// know what comes before its bytes.
#[derive(Clone, Copy, Debug, PartialEq, Eq)]
pub enum WireError {
    /// The bytes end before the value does.
    End,
    /// A varint encodes a number of 2^64 or more, or has more than ten bytes.
    VarintTooLarge,
}

impl WireError {
    /// Returns the name of the variant.
    pub fn name(&self) -> &'static str
        ensures { result.now ≡ name_of self.now }
    {
        match self {
            WireError::End => "End",
            WireError::VarintTooLarge => "VarintTooLarge",
        }
    }

    /// Returns the sentence that describes the error. Its `Display` prints the same.
    pub fn sentence(&self) -> &'static str
        ensures { result.now ≡ sentence_of self.now }
    {
        match self {
            WireError::End => "the bytes end within a field",
            WireError::VarintTooLarge => {
                "a varint has more than ten bytes, or encodes a number of 2^64 or more"
            }
        }
    }
}

impl fmt::Display for WireError {
    ghost use Rattle.std.specs.Prelude.{Some};

    ghost output = { λ error. Some (sentence_of error) };

    ghost styled_output = { λ error _. Some (sentence_of error) };

    fn fmt<W: fmt::Write>(&self, f: &mut fmt::Formatter<W>) -> fmt::Result {
        f.write_str(self.sentence())
    }
}

impl error::Error for WireError {}
