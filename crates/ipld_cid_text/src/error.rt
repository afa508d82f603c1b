//! The errors of reading and writing texts.

use ipld_cid::{CidError, write_number};
use std::{error, fmt};

/// The error for a text that is not the text of a content identifier.
#[derive(Clone, Copy, Debug, PartialEq, Eq)]
pub enum TextError {
    /// The text is empty, or begins with a character that is not the prefix of a
    /// [`Base`](crate::Base).
    UnknownBase,
    /// No CID has a text of this length in this base.
    InvalidLength,
    /// The character at this byte of the text is not a letter of its base.
    InvalidLetter(usize),
    /// The bits that are left over after the last byte are not all zero.
    UnusedBits,
    /// A `Qm..` text encodes a CID of another version than 0, or a multibase text encodes one of
    /// version 0.
    WrongVersion,
    /// The letters encode bytes that are not a CID.
    Cid(CidError),
}

/// The error of writing a content identifier in a base.
#[derive(Clone, Copy, Debug, PartialEq, Eq)]
pub enum ToStringError {
    /// The CID is of version 0, which has a text only in base58btc.
    InvalidCidV0Base,
    /// The allocation of the text failed.
    Memory,
}

impl fmt::Display for TextError {
    ghost use Rattle.std.specs.Prelude.{Some};
    ghost use Rattle.ipld_cid_text.specs.Error.{sentence_of};

    ghost output = { λ e. Some (sentence_of e) };

    ghost styled_output = { λ e _. Some (sentence_of e) };

    fn fmt<W: fmt::Write>(&self, f: &mut fmt::Formatter<W>) -> fmt::Result {
        f.write_str(match self {
            TextError::UnknownBase => "the text is empty, or has an unknown multibase prefix",
            TextError::InvalidLength => "no CID has a text of this length",
            TextError::InvalidLetter(place) => {
                return write_number(f, "invalid character at byte ", *place as u64);
            }
            TextError::UnusedBits => "the last character has unused bits that are set",
            TextError::WrongVersion => {
                "wrong form for its version (Qm.. is version 0, and a multibase text version 1)"
            }
            TextError::Cid(error) => {
                f.write_str("the decoded bytes are invalid: ")?;
                return error.sentence().fmt(f);
            }
        })
    }
}

impl error::Error for TextError {}

impl fmt::Display for ToStringError {
    ghost use Rattle.std.specs.Prelude.{Some};
    ghost use Rattle.ipld_cid_text.specs.Error.{message_of};

    ghost output = { λ e. Some (message_of e) };

    ghost styled_output = { λ e _. Some (message_of e) };

    fn fmt<W: fmt::Write>(&self, f: &mut fmt::Formatter<W>) -> fmt::Result {
        f.write_str(match self {
            ToStringError::InvalidCidV0Base => "a CID of version 0 has a text only in base58btc",
            ToStringError::Memory => "out of memory",
        })
    }
}

impl error::Error for ToStringError {}
