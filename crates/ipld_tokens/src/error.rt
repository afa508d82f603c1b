//! The reasons why no value can be read.

ghost use Rattle.std.specs.Prelude.{◌≡◌};
ghost use Rattle.ipld_tokens.specs.declared.error.TokenError.TheVariants.{Memory};
ghost use Rattle.ipld_tokens.specs.ErrorNames.{name_of, limit_name_of};

use ipld_cid::CidError;
use std::alloc::{AllocError, AllocFailed};
use std::{error, fmt};

/// The reason why tokens were not read.
///
/// Its `Display` prints a sentence that describes the error.
#[derive(Debug, PartialEq, Eq, Drop)]
pub enum TokenError<F> {
    /// An allocation failed.
    Memory,
    /// The source failed.
    Source(F),
    /// This token is not possible here. It was taken, and no token after it.
    Token,
    /// The bytes after a link mark are not a CID. They were taken, and no token after them.
    Cid(CidError),
    /// No token remains, and the item is incomplete.
    End,
    /// A key appears in a map for the second time. The second value was taken, and no token after
    /// it.
    DuplicateKey,
}

impl<F> TokenError<F> {
    /// Returns the name of the variant.
    pub fn name(&self) -> &'static str
        ensures { result.now ≡ name_of self.now }
    {
        match self {
            TokenError::Memory => "Memory",
            TokenError::Source(_) => "Source",
            TokenError::Token => "Token",
            TokenError::Cid(_) => "Cid",
            TokenError::End => "End",
            TokenError::DuplicateKey => "DuplicateKey",
        }
    }
}

impl<F> fmt::Display for TokenError<F> {
    ghost use Rattle.std.specs.Prelude.{Some};
    ghost use Rattle.ipld_tokens.specs.ErrorNames.{sentence_of};

    ghost output = { λ error. Some (sentence_of error) };

    ghost styled_output = { λ error _. Some (sentence_of error) };

    fn fmt<W: fmt::Write>(&self, f: &mut fmt::Formatter<W>) -> fmt::Result {
        f.write_str(match self {
            TokenError::Memory => "out of memory",
            TokenError::Source(_) => "the source of tokens failed",
            TokenError::Token => "unexpected token",
            TokenError::Cid(error) => {
                f.write_str("invalid link: not a CID: ")?;
                return error.sentence().fmt(f);
            }
            TokenError::End => "the tokens end before the item does",
            TokenError::DuplicateKey => "duplicate map key",
        })
    }
}

impl<F: fmt::Debug + Drop> error::Error for TokenError<F> {}

impl<F> From<AllocError> for TokenError<F> {
    ghost use Rattle.std.specs.Prelude.{◌≡◌};

    ghost from_gives = { λ _ error. error ≡ Memory };

    fn from(_error: AllocError) -> Self {
        TokenError::Memory
    }
}

impl<F, T: Drop> From<AllocFailed<T>> for TokenError<F> {
    ghost use Rattle.std.specs.Prelude.{◌≡◌};

    ghost from_gives = { λ _ error. error ≡ Memory };

    fn from(_error: AllocFailed<T>) -> Self {
        TokenError::Memory
    }
}

/// The reason why tokens were not read within limits.
///
/// Its `Display` prints a sentence that describes the error.
#[derive(Debug, PartialEq, Eq, Drop)]
pub enum ReadError<F> {
    /// This token opens a list or a map deeper than the limit on levels. It was taken, and no token
    /// after it.
    TooDeep,
    /// This token begins one value more than the limit on values. It was taken, and no token after
    /// it.
    TooMany,
    /// The tokens were not read, for a reason other than the limits.
    Token(TokenError<F>),
}

impl<F> ReadError<F> {
    /// Returns the name of the variant, or for `Token` that of the [`TokenError`].
    pub fn name(&self) -> &'static str
        ensures { result.now ≡ limit_name_of self.now }
    {
        match self {
            ReadError::TooDeep => "TooDeep",
            ReadError::TooMany => "TooMany",
            ReadError::Token(error) => error.name(),
        }
    }
}

impl<F> fmt::Display for ReadError<F> {
    ghost use Rattle.std.specs.Prelude.{Some};
    ghost use Rattle.ipld_tokens.specs.ErrorNames.{limit_sentence_of};

    ghost output = { λ error. Some (limit_sentence_of error) };

    ghost styled_output = { λ error _. Some (limit_sentence_of error) };

    fn fmt<W: fmt::Write>(&self, f: &mut fmt::Formatter<W>) -> fmt::Result {
        match self {
            ReadError::TooDeep => f.write_str("lists and maps nest deeper than the limit"),
            ReadError::TooMany => f.write_str("more values than the limit"),
            ReadError::Token(error) => error.fmt(f),
        }
    }
}

impl<F: fmt::Debug + Drop> error::Error for ReadError<F> {}
