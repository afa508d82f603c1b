//! Lines that are tokens: a name, or a name, one blank and a field.

ghost use Rattle.std.specs.Prelude.{◌^◌, string_bytes, option_map};
ghost use Rattle.std.specs.Result.{result_ok};
ghost use Rattle.hex.specs.Hex.{decode_of};
ghost use Rattle.ipld_links_run.specs.OwnedToken.{token_of};
ghost use Rattle.ipld_links_run.specs.TokenLine.{token_of_line, plain_token, field_token, bool_field, int_field, number_below, bytes_field, text_field, char_field};
ghost use Rattle.ipld_links_run.specs.Said.{Parses};

use crate::owned_token::OwnedToken;
use hex::FromHexError;
use std::alloc::Global;
use std::str;

/// The reason why a line is not read as a token.
#[derive(Clone, Copy)]
pub(crate) enum ParseError {
    /// An allocation failed.
    Memory,
    /// The line is not a token.
    NotUnderstood,
}

/// Reads the token that is on a line.
pub(crate) fn parse_token(alloc: Global, line: &[u8]) -> Result<OwnedToken, ParseError>
    ensures { Parses token_of (token_of_line line.now) result }
{
    let Ok(line) = str::from_utf8(line) else {
        return Err(ParseError::NotUnderstood);
    };
    match line.split_once(' ') {
        None => plain_token(line),
        Some((name, field)) => field_token(alloc, name, field),
    }
}

fn plain_token(name: &str) -> Result<OwnedToken, ParseError>
    ensures { Parses token_of (plain_token name.now) result }
{
    match name {
        "none" => Ok(OwnedToken::None),
        "unit" => Ok(OwnedToken::Unit),
        "unitstruct" => Ok(OwnedToken::UnitStruct),
        "some" => Ok(OwnedToken::Some),
        "link" => Ok(OwnedToken::Link),
        "seq" => Ok(OwnedToken::Seq(None)),
        "seqend" => Ok(OwnedToken::SeqEnd),
        "map" => Ok(OwnedToken::Map(None)),
        "mapend" => Ok(OwnedToken::MapEnd),
        _ => Err(ParseError::NotUnderstood),
    }
}

fn field_token(alloc: Global, name: &str, field: &str) -> Result<OwnedToken, ParseError>
    ensures { Parses token_of (field_token name.now field.now) result }
{
    match name {
        "bool" => parse_bool(field).map(OwnedToken::Bool),
        "int" => parse_int(field).map(OwnedToken::Int),
        "u128" => parse_unsigned(field).map(OwnedToken::U128),
        "char" => parse_char(alloc, field).map(OwnedToken::Char),
        "str" => parse_text(alloc, field).map(OwnedToken::Str),
        "bytes" => parse_bytes(alloc, field).map(OwnedToken::Bytes),
        "unitvariant" => parse_text(alloc, field).map(OwnedToken::UnitVariant),
        "variant" => parse_text(alloc, field).map(OwnedToken::Variant),
        "seq" => parse_hint(field).map(OwnedToken::Seq),
        "map" => parse_hint(field).map(OwnedToken::Map),
        _ => Err(ParseError::NotUnderstood),
    }
}

fn parse_bool(field: &str) -> Result<bool, ParseError>
    ensures { Parses (λ b. b) (bool_field field.now) result }
{
    match field {
        "true" => Ok(true),
        "false" => Ok(false),
        _ => Err(ParseError::NotUnderstood),
    }
}

fn parse_int(field: &str) -> Result<i128, ParseError>
    ensures { Parses (λ n. n) (int_field field.now) result }
{
    match field.parse::<i128>() {
        Ok(number) => Ok(number),
        Err(_) => Err(ParseError::NotUnderstood),
    }
}

fn parse_unsigned(field: &str) -> Result<u128, ParseError>
    ensures { Parses (λ n. n) (number_below (2 ^ 128) field.now) result }
{
    match field.parse::<u128>() {
        Ok(number) => Ok(number),
        Err(_) => Err(ParseError::NotUnderstood),
    }
}

/// Reads a hint of a length.
fn parse_hint(field: &str) -> Result<Option<usize>, ParseError>
    ensures { Parses (λ hint. hint) (option_map Some (number_below (2 ^ 64) field.now)) result }
{
    match field.parse::<usize>() {
        Ok(number) => Ok(Some(number)),
        Err(_) => Err(ParseError::NotUnderstood),
    }
}

fn parse_bytes(alloc: Global, field: &str) -> Result<Vec<u8>, ParseError>
    ensures { Parses (λ bytes. bytes.items) (bytes_field field.now) result }
{
    match field {
        "" => Err(ParseError::NotUnderstood),
        "-" => Ok(Vec::new(alloc)),
        _ => decode_hex(alloc, field),
    }
}

fn decode_hex(alloc: Global, digits: &str) -> Result<Vec<u8>, ParseError>
    ensures { Parses (λ bytes. bytes.items) (result_ok (decode_of digits.now)) result }
{
    match hex::decode(alloc, digits) {
        Ok(bytes) => Ok(bytes),
        Err(FromHexError::OutOfMemory) => Err(ParseError::Memory),
        Err(_) => Err(ParseError::NotUnderstood),
    }
}

fn parse_text(alloc: Global, field: &str) -> Result<String, ParseError>
    ensures { Parses string_bytes (text_field field.now) result }
{
    match String::from_utf8(parse_bytes(alloc, field)?) {
        Ok(text) => Ok(text),
        Err(_) => Err(ParseError::NotUnderstood),
    }
}

fn parse_char(alloc: Global, field: &str) -> Result<char, ParseError>
    ensures { Parses (λ c. c) (char_field field.now) result }
{
    let text = parse_text(alloc, field)?;
    match text.as_str().parse::<char>() {
        Ok(character) => Ok(character),
        Err(_) => Err(ParseError::NotUnderstood),
    }
}
