//! Tokens.

ghost use Rattle.std.specs.Prelude.{◌≡◌};
ghost use Rattle.ipld_tokens.specs.Token.{erase, bytes_in};
ghost use Rattle.ipld_tokens.specs.Hints.{hint_of};

/// The bytes of a token, borrowed or owned.
#[derive(Debug, PartialEq, Eq, Drop)]
pub enum TokenBytes<'a> {
    /// Bytes that are borrowed from the source.
    Lent(&'a [u8]),
    /// Bytes that the source made.
    Owned(Vec<u8>),
}

impl<'a> TokenBytes<'a> {
    /// Returns the bytes. Does not allocate.
    #[inline(always)]
    pub fn as_slice(&self) -> &[u8]
        ensures { result.now ≡ bytes_in self.now }
    {
        match self {
            TokenBytes::Lent(bytes) => bytes,
            TokenBytes::Owned(bytes) => bytes.as_slice(),
        }
    }
}

/// A step of a serialized value, in the kinds of serde's data model.
///
/// A value is one or more tokens:
///
/// - A scalar is one of `None`, `Unit`, `UnitStruct`, `Bool`, `Int`, `U128`, `Char`, `Str`, `Bytes`
///   and `UnitVariant`.
/// - `Some` and `Variant` come before one value.
/// - A list is `Seq`, its values, and `SeqEnd`.
/// - A map is `Map`, its pairs of a key and a value, and `MapEnd`. Keys and values can be any
///   values.
/// - A link is `Link`, and `Bytes` that are a CID.
#[derive(Debug, PartialEq, Eq, Drop)]
pub enum Token<'a> {
    /// Nothing.
    None,
    /// The value of `()`.
    Unit,
    /// The value of a struct without fields.
    UnitStruct,
    /// A bool.
    Bool(bool),
    /// An integer.
    Int(i128),
    /// An integer of type `u128`.
    U128(u128),
    /// A character.
    Char(char),
    /// A string.
    Str(&'a str),
    /// Bytes.
    Bytes(TokenBytes<'a>),
    /// The name of a variant without content.
    UnitVariant(&'a str),
    /// The content of an option comes next.
    Some,
    /// The name of a variant whose content comes next.
    Variant(&'a str),
    /// The bytes of a CID come next.
    Link,
    /// The beginning of a list. The number is a hint of its length, and may be wrong.
    Seq(Option<usize>),
    /// The end of a list.
    SeqEnd,
    /// The beginning of a map. The number is a hint of the number of its pairs, and may be wrong.
    Map(Option<usize>),
    /// The end of a map.
    MapEnd,
}

impl<'a> Token<'a> {
    // Returns a token with this content, which it borrows.
    pub(crate) fn lend(&'a self) -> Token<'a>
        ensures same { erase result ≡ erase self.now }
        ensures hint { hint_of result ≡ hint_of self.now }
    {
        match self {
            Token::None => Token::None,
            Token::Unit => Token::Unit,
            Token::UnitStruct => Token::UnitStruct,
            Token::Bool(value) => Token::Bool(*value),
            Token::Int(value) => Token::Int(*value),
            Token::U128(value) => Token::U128(*value),
            Token::Char(value) => Token::Char(*value),
            Token::Str(text) => Token::Str(text),
            Token::Bytes(bytes) => Token::Bytes(TokenBytes::Lent(bytes.as_slice())),
            Token::UnitVariant(name) => Token::UnitVariant(name),
            Token::Some => Token::Some,
            Token::Variant(name) => Token::Variant(name),
            Token::Link => Token::Link,
            Token::Seq(hint) => Token::Seq(*hint),
            Token::SeqEnd => Token::SeqEnd,
            Token::Map(hint) => Token::Map(*hint),
            Token::MapEnd => Token::MapEnd,
        }
    }
}
