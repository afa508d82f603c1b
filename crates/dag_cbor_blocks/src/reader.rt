//! A block read token by token.

ghost use Rattle.std.specs.Prelude.{◌≡◌, ◌∷◌, [], length};
ghost use Rattle.dag_cbor_format.specs.Reading.{one};
ghost use Rattle.dag_cbor_blocks.specs.Hints.{announced, Hinted};
ghost use Rattle.dag_cbor_blocks.specs.Reader.{frames_of, next_of, Steps};

use crate::link::read_link_cid;
use crate::position::{Next, Position};
use dag_cbor_format::CborError;
use dag_cbor_format::item_header::{ItemHeader, read_header};
use ipld_tokens::{Token, TokenBytes};
use std::alloc::Global;

// The part that comes next.
#[derive(Clone, Copy)]
pub(crate) enum TokenStage {
    // An item.
    Item,
    // The bytes of a link.
    LinkBytes,
    // The next part of the innermost list or map, or the end.
    Inside,
}

// A position in a block, before a token.
#[derive(Drop)]
pub(crate) struct Reader<'a> {
    stage: TokenStage,
    position: Position<'a>,
}

impl<'a> Reader<'a> {
    #[inline(always)]
    pub(crate) fn new(alloc: Global, bytes: &'a [u8]) -> Self
        ensures frames { frames_of result ≡ one ∷ [] }
        ensures rest { result.position.rest.now ≡ bytes.entry.now }
        ensures uncounted { result.position.uncounted ≡ length bytes.entry.now }
    {
        Reader {
            stage: TokenStage::Item,
            position: Position::new(alloc, bytes),
        }
    }

    // Reads the first token of an item.
    fn read_item(&mut self) -> Result<Option<Token<'a>>, CborError>
        requires { self.old.stage ≡ TokenStage.Item }
        ensures steps { Steps self.old self.new result }
        ensures hints { Hinted (announced (next_of self.old)) self.old.position.uncounted
            self.new.position.uncounted result }
    {
        let (item_header, rest) = read_header(self.position.rest)?;
        match item_header {
            ItemHeader::Scalar(token) => {
                self.stage = TokenStage::Inside;
                self.position.rest = rest;
                Ok(Some(token))
            }
            ItemHeader::List(items) => {
                let hint = self.position.capacity_hint(items);
                self.position.open_list(items)?;
                self.stage = TokenStage::Inside;
                self.position.rest = rest;
                Ok(Some(Token::Seq(hint)))
            }
            ItemHeader::Map(pairs) => {
                let hint = self.position.capacity_hint(pairs);
                self.position.open_map(pairs)?;
                self.stage = TokenStage::Inside;
                self.position.rest = rest;
                Ok(Some(Token::Map(hint)))
            }
            ItemHeader::Link => {
                self.stage = TokenStage::LinkBytes;
                self.position.rest = rest;
                Ok(Some(Token::Link))
            }
        }
    }

    // Reads the bytes of a link.
    fn read_link(&mut self) -> Result<Option<Token<'a>>, CborError>
        requires { self.old.stage ≡ TokenStage.LinkBytes }
        ensures steps { Steps self.old self.new result }
        ensures hints { Hinted (announced (next_of self.old)) self.old.position.uncounted
            self.new.position.uncounted result }
    {
        match read_link_cid(self.position.rest) {
            Ok((_cid, encoded, rest)) => {
                self.stage = TokenStage::Inside;
                self.position.rest = rest;
                Ok(Some(Token::Bytes(TokenBytes::Lent(encoded))))
            }
            Err(error) => Err(error),
        }
    }

    // Reads the next part of the innermost list or map, or the end.
    fn read_part(&mut self) -> Result<Option<Token<'a>>, CborError>
        requires { self.old.stage ≡ TokenStage.Inside }
        ensures steps { Steps self.old self.new result }
        ensures hints { Hinted (announced (next_of self.old)) self.old.position.uncounted
            self.new.position.uncounted result }
    {
        while self.position.is_open() {
            match self.position.advance()? {
                Next::Item => {
                    self.stage = TokenStage::Item;
                    return self.read_item();
                }
                Next::Value(key) => {
                    self.stage = TokenStage::Item;
                    return Ok(Some(Token::Str(key)));
                }
                Next::EndOfList => return Ok(Some(Token::SeqEnd)),
                Next::EndOfMap => return Ok(Some(Token::MapEnd)),
                Next::Outside => {}
            }
        }
        if self.position.rest.is_empty() {
            Ok(None)
        } else {
            Err(CborError::TrailingBytes)
        }
    }

    /// Returns the next token, or `None` once a whole item was returned and no byte follows it. If
    /// an allocation fails, the reader does not advance.
    pub(crate) fn advance(&mut self) -> Result<Option<Token<'a>>, CborError>
        ensures steps { Steps self.old self.new result }
        ensures hints { Hinted (announced (next_of self.old)) self.old.position.uncounted
            self.new.position.uncounted result }
    {
        match self.stage {
            TokenStage::Item => self.read_item(),
            TokenStage::LinkBytes => self.read_link(),
            TokenStage::Inside => self.read_part(),
        }
    }
}
