//! Tokens that own their strings and bytes.

ghost use Rattle.std.specs.Prelude.{◌≡◌, IfOk, map};
ghost use Rattle.ipld_tokens.specs.Token.{erase};
ghost use Rattle.ipld_links_run.specs.OwnedToken.{token_of};

use ipld_tokens::{Token, TokenBytes};
use std::alloc::{AllocError, Global};

/// A [`Token`] that owns its string or its bytes.
#[derive(Drop)]
pub(crate) enum OwnedToken {
    None,
    Unit,
    UnitStruct,
    Bool(bool),
    Int(i128),
    U128(u128),
    Char(char),
    Str(String),
    Bytes(Vec<u8>),
    UnitVariant(String),
    Some,
    Variant(String),
    Link,
    Seq(Option<usize>),
    SeqEnd,
    Map(Option<usize>),
    MapEnd,
}

impl OwnedToken {
    /// Returns a token that borrows its content from this one.
    pub(crate) fn lend(&self) -> Token<'_>
        ensures { erase result ≡ token_of self.now }
    {
        match self {
            OwnedToken::None => Token::None,
            OwnedToken::Unit => Token::Unit,
            OwnedToken::UnitStruct => Token::UnitStruct,
            OwnedToken::Bool(value) => Token::Bool(*value),
            OwnedToken::Int(value) => Token::Int(*value),
            OwnedToken::U128(value) => Token::U128(*value),
            OwnedToken::Char(value) => Token::Char(*value),
            OwnedToken::Str(text) => Token::Str(text.as_str()),
            OwnedToken::Bytes(bytes) => Token::Bytes(TokenBytes::Lent(bytes.as_slice())),
            OwnedToken::UnitVariant(name) => Token::UnitVariant(name.as_str()),
            OwnedToken::Some => Token::Some,
            OwnedToken::Variant(name) => Token::Variant(name.as_str()),
            OwnedToken::Link => Token::Link,
            OwnedToken::Seq(hint) => Token::Seq(*hint),
            OwnedToken::SeqEnd => Token::SeqEnd,
            OwnedToken::Map(hint) => Token::Map(*hint),
            OwnedToken::MapEnd => Token::MapEnd,
        }
    }
}

/// Returns tokens that borrow their contents from these.
pub(crate) fn lend_all<'a>(
    alloc: Global,
    tokens: &'a [OwnedToken],
) -> Result<Vec<Token<'a>>, AllocError>
    ensures { IfOk result (λ lent. map erase lent.items ≡ map token_of tokens.entry.now) }
{
    let mut lent = Vec::with_capacity(alloc, tokens.len())?;
    for token in tokens {
        lent.push(token.lend())?;
    }
    Ok(lent)
}
