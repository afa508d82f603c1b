//! Tokens written as words, such as `seq link A seqend`.

use ipld_tokens::{Token, TokenBytes};
use std::alloc::{AllocError, Global};

/// The bytes of a CID without content.
const A: [u8; 4] = [0x01, 0x55, 0x00, 0x00];

/// The bytes of a CID whose content is the byte 7.
const B: [u8; 5] = [0x01, 0x55, 0x00, 0x01, 0x07];

/// Returns the tokens of the words between blanks. The words are:
///
/// - the tokens' names, some of them with their content after a colon, such as `str:a`, `int:1` and
///   `seq:0`
/// - `bytes:` before hexadecimal digits
/// - `A` and `B` for the bytes of the two CIDs, `cut` for the first two of A, and `nothing` for no
///   bytes
///
/// `*9` after a word, or after words that are joined by `&`, repeats them 9 times. Returns `None`
/// for any other words.
pub fn tokens<'a>(alloc: Global, words: &'a str) -> Result<Option<Vec<Token<'a>>>, AllocError> {
    let mut tokens = Vec::new(alloc);
    for word in words.split_ascii_whitespace() {
        let (some, times) = repeated(word);
        for _ in 0..times {
            if !push_each(alloc, &mut tokens, some)? {
                return Ok(None);
            }
        }
    }
    Ok(Some(tokens))
}

fn repeated(word: &str) -> (&str, u32) {
    match word.split_once('*') {
        Some((some, times)) => (some, times.parse().unwrap_or(0)),
        None => (word, 1),
    }
}

// Adds the tokens of the words. Returns whether each word is a token's.
fn push_each<'a>(
    alloc: Global,
    tokens: &mut Vec<Token<'a>>,
    words: &'a str,
) -> Result<bool, AllocError> {
    for word in words.split('&') {
        match token(alloc, word) {
            Some(token) => tokens.push(token)?,
            None => return Ok(false),
        }
    }
    Ok(true)
}

fn token<'a>(alloc: Global, word: &'a str) -> Option<Token<'a>> {
    match word.split_once(':') {
        Some((name, content)) => holding(alloc, name, content),
        None => named(word),
    }
}

fn bytes<'a>(bytes: &'a [u8]) -> Token<'a> {
    Token::Bytes(TokenBytes::Lent(bytes))
}

fn named(name: &str) -> Option<Token<'static>> {
    match name {
        "none" => Some(Token::None),
        "unit" => Some(Token::Unit),
        "unitstruct" => Some(Token::UnitStruct),
        "true" => Some(Token::Bool(true)),
        "false" => Some(Token::Bool(false)),
        "some" => Some(Token::Some),
        "link" => Some(Token::Link),
        "seq" => Some(Token::Seq(None)),
        "seqend" => Some(Token::SeqEnd),
        "map" => Some(Token::Map(None)),
        "mapend" => Some(Token::MapEnd),
        "A" => Some(bytes(&A)),
        "B" => Some(bytes(&B)),
        "cut" => Some(bytes(&[0x01, 0x55])),
        "nothing" => Some(bytes(&[])),
        _ => None,
    }
}

fn holding<'a>(alloc: Global, name: &str, content: &'a str) -> Option<Token<'a>> {
    match name {
        "bytes" => {
            let bytes = hex::decode(alloc, content).ok()?;
            Some(Token::Bytes(TokenBytes::Owned(bytes)))
        }
        "str" => Some(Token::Str(content)),
        "char" => Some(Token::Char(content.chars().next()?)),
        "int" => Some(Token::Int(content.parse().ok()?)),
        "u128" => Some(Token::U128(content.parse().ok()?)),
        "variant" => Some(Token::Variant(content)),
        "unitvariant" => Some(Token::UnitVariant(content)),
        "seq" => Some(Token::Seq(Some(content.parse().ok()?))),
        "map" => Some(Token::Map(Some(content.parse().ok()?))),
        _ => None,
    }
}
