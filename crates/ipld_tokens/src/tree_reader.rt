//! A tree, token by token.

ghost use Rattle.std.specs.Prelude.{◌≡◌, ◌^◌, ◌∷◌, true, Some, None, nat_lt, if◌then◌else◌, length, pos, encode_utf8, string_bytes, IfOk};
ghost use Rattle.ipld_tree.specs.Tree as tree;
ghost use Rattle.ipld_tree.specs.Tree.{no_items, no_members};
ghost use Rattle.ipld_tree.specs.TreeOf.{tree_of};
ghost use Rattle.ipld_tokens.specs.Token.{TokenModel, seq_end, erase, bytes_in};
ghost use Rattle.ipld_tokens.specs.ReadMachine.{ReadState, in_list, in_key, completed, completed_if, open_at, value_step, open_step, link_step, closed, key_kept, key_taken, ends_list, is_done, takes_value, step, start, IsGoing, PutsValue, PutsReceived, PutsClosed, AllocatesValue, AllocatesKeyToken, AllocatesOpen, AllocatesLink};
ghost use Rattle.ipld_tokens.specs.OpenTree as building;
ghost use Rattle.ipld_tokens.specs.ReaderSteps.{Follows, Rejects, HasTree, MakesLink, rejection_of};

use crate::consumer::{Rejection, TokenConsumer};
use crate::open_tree::{BuildError, OpenTree};
use crate::token::{Token, TokenBytes};
use ipld_cid::Cid;
use ipld_cid::laws::cid_bytes_law;
use ipld_tree::Ipld;
use std::alloc::{AllocError, Global};

impl From<BuildError> for Rejection {
    ghost from_gives = { λ build_error rejection. rejection ≡ rejection_of build_error };

    #[inline(always)]
    fn from(build_error: BuildError) -> Self {
        match build_error {
            BuildError::Memory => Rejection::Memory,
            BuildError::Misplaced => Rejection::Token,
            BuildError::DuplicateKey => Rejection::DuplicateKey,
        }
    }
}

// The part that has to come next.
#[derive(Clone, Copy)]
enum Expected {
    // Any part that the tree takes, or its end.
    Any,
    // A value.
    Value,
    // The bytes of a link.
    LinkBytes,
}

// A tree that is being read.
#[derive(Drop)]
pub(crate) struct TreeReader {
    alloc: Global,
    tree: OpenTree,
    expected: Expected,
}

// Returns the number as an integer of the data model, if it fits.
fn integer_of(number: u128) -> Option<i128>
    ensures { result ≡ (if nat_lt number (2 ^ 127) then Some (pos number) else None) }
{
    if number < 1 << 127 {
        Some(number as i128)
    } else {
        None
    }
}

fn text_of(alloc: Global, character: char) -> Result<String, AllocError>
    ensures { IfOk result (λ text. string_bytes text ≡ encode_utf8 character) }
{
    let mut text = String::new(alloc);
    text.push(character)?;
    Ok(text)
}

// Returns the link that the bytes encode.
fn link_of_bytes(bytes: &[u8]) -> Result<Ipld, Rejection>
    ensures { MakesLink bytes.now result }
{
    // A law, a no-op at run time: bytes are read as a CID if and only if they encode one.
    cid_bytes_law::<64>();
    match Cid::try_from(bytes) {
        Ok(cid) => Ok(Ipld::Link(cid)),
        Err(cid_error) => Err(Rejection::Cid(cid_error)),
    }
}

// Returns whether the token ends a list.
#[inline(always)]
fn ends_list(token: &Token<'_>) -> bool
    ensures { result ≡ ends_list (erase token.now) }
{
    matches!(token, Token::SeqEnd)
}

impl TreeReader {
    ghost use Rattle.ipld_tokens.specs.ReaderState.{levels_of, state_of};

    pub(crate) fn new(alloc: Global) -> Self
        ensures { state_of result ≡ start }
    {
        TreeReader {
            alloc,
            tree: OpenTree::new(alloc),
            expected: Expected::Value,
        }
    }

    // Begins a list.
    fn open_list(&mut self, hint: Option<usize>) -> Result<(), Rejection>
        ensures { Follows (Unit {0}) (open_at (in_list no_items ∷ levels_of self.old))
            (state_of self.new) result }
    {
        self.expected = Expected::Any;
        self.tree.begin_list(hint)?;
        Ok(())
    }

    // Begins a map.
    fn open_map(&mut self) -> Result<(), Rejection>
        ensures { Follows (Unit {0}) (open_at (in_key no_members ∷ levels_of self.old))
            (state_of self.new) result }
    {
        self.expected = Expected::Any;
        self.tree.begin_map()?;
        Ok(())
    }

    // Puts a complete value.
    fn complete(&mut self, value: Ipld) -> Result<(), Rejection>
        ensures { Follows (PutsValue (levels_of self.old)) (completed (tree_of value)
            (levels_of self.old)) (state_of self.new) result }
    {
        self.expected = Expected::Any;
        self.tree.put(value)?;
        Ok(())
    }

    // Ends the innermost list.
    fn end_list(&mut self) -> Result<(), Rejection>
        ensures { Follows (AllocatesOpen (levels_of self.old) seq_end)
            (open_step (levels_of self.old) seq_end) (state_of self.new) result }
    {
        let items = self.tree.end_list()?;
        self.complete(Ipld::List(items))
    }

    // Ends the innermost map.
    fn end_map(&mut self) -> Result<(), Rejection>
        requires { building.at_key (building.state_of self.old.tree) ≡ true }
        ensures { Follows (PutsClosed (levels_of self.old)) (closed (levels_of self.old))
            (state_of self.new) result }
    {
        let members = self.tree.end_map()?;
        self.complete(Ipld::Map(members))
    }

    fn take_null(&mut self) -> Result<(), Rejection>
        ensures { Follows (PutsValue (levels_of self.old))
            (completed tree.null (levels_of self.old)) (state_of self.new) result }
    {
        self.complete(Ipld::Null)
    }

    fn take_bool(&mut self, value: bool) -> Result<(), Rejection>
        ensures { Follows (PutsValue (levels_of self.old)) (completed (tree.boolean value)
            (levels_of self.old)) (state_of self.new) result }
    {
        self.complete(Ipld::Bool(value))
    }

    fn take_integer(&mut self, number: i128) -> Result<(), Rejection>
        ensures { Follows (PutsValue (levels_of self.old)) (completed (tree.integer number)
            (levels_of self.old)) (state_of self.new) result }
    {
        self.complete(Ipld::Integer(number))
    }

    fn take_unsigned(&mut self, number: u128) -> Result<(), Rejection>
        ensures { Follows (PutsReceived (if nat_lt number (2 ^ 127)
            then Some (tree.integer (pos number)) else None) (levels_of self.old))
            (completed_if (if nat_lt number (2 ^ 127) then Some (tree.integer (pos number))
            else None) (levels_of self.old)) (state_of self.new) result }
    {
        match integer_of(number) {
            Some(number) => self.take_integer(number),
            None => Err(Rejection::Token),
        }
    }

    fn take_text(&mut self, text: &str) -> Result<(), Rejection>
        ensures { Follows (Unit {0}) (completed (tree.text text.now) (levels_of self.old))
            (state_of self.new) result }
    {
        let text = String::from_str(self.alloc, text)?;
        self.complete(Ipld::String(text))
    }

    fn take_character(&mut self, character: char) -> Result<(), Rejection>
        ensures { Follows (Unit {0}) (completed (tree.text (encode_utf8 character))
            (levels_of self.old)) (state_of self.new) result }
    {
        let text = text_of(self.alloc, character)?;
        self.complete(Ipld::String(text))
    }

    fn take_bytes(&mut self, bytes: &TokenBytes<'_>) -> Result<(), Rejection>
        ensures { Follows (Unit {0}) (completed (tree.bytes (bytes_in bytes.now))
            (levels_of self.old)) (state_of self.new) result }
    {
        let bytes = Vec::from_slice(self.alloc, bytes.as_slice())?;
        self.complete(Ipld::Bytes(bytes))
    }

    #[inline(always)]
    fn expect(&mut self, expected: Expected) -> Result<(), Rejection>
        ensures { Follows ⊥ (state_of (record self.old { expected = expected }))
            (state_of self.new) result }
    {
        self.expected = expected;
        Ok(())
    }

    // Takes a token where a value has to come.
    fn take_value(&mut self, token: &Token<'_>) -> Result<(), Rejection>
        ensures { Follows (AllocatesValue (levels_of self.old) (erase token.now))
            (value_step (levels_of self.old) (erase token.now)) (state_of self.new) result }
    {
        match token {
            Token::None | Token::Unit | Token::UnitStruct => self.take_null(),
            Token::Bool(value) => self.take_bool(*value),
            Token::Int(number) => self.take_integer(*number),
            Token::U128(number) => self.take_unsigned(*number),
            Token::Char(character) => self.take_character(*character),
            Token::Str(text) => self.take_text(text),
            Token::Bytes(bytes) => self.take_bytes(bytes),
            Token::Some => self.expect(Expected::Value),
            Token::Link => self.expect(Expected::LinkBytes),
            Token::Seq(hint) => self.open_list(*hint),
            Token::Map(_) => self.open_map(),
            Token::UnitVariant(_) | Token::Variant(_) | Token::SeqEnd | Token::MapEnd => {
                Err(Rejection::Token)
            }
        }
    }

    // Returns whether a value may come: neither a key nor the bytes of a link have to.
    pub(crate) fn takes_value(&self) -> bool
        ensures { result ≡ takes_value (state_of self.now) }
    {
        match self.expected {
            Expected::Any => self.tree.takes_value(),
            Expected::Value => true,
            Expected::LinkBytes => false,
        }
    }

    // Returns the number of open lists and maps.
    pub(crate) fn depth(&self) -> usize
        ensures { result ≡ length (levels_of self.now) }
    {
        self.tree.depth()
    }

    // Puts a complete key.
    fn keep_key(&mut self, key: String) -> Result<(), Rejection>
        requires { building.at_key (building.state_of self.old.tree) ≡ true }
        ensures { Follows ⊥ (key_kept (string_bytes key) (levels_of self.old))
            (state_of self.new) result }
    {
        self.expected = Expected::Any;
        self.tree.put_key(key)?;
        Ok(())
    }

    // Takes a token where a key has to come, or the end of the map.
    fn take_key(&mut self, token: &Token<'_>) -> Result<(), Rejection>
        requires { building.at_key (building.state_of self.old.tree) ≡ true }
        ensures { Follows (AllocatesKeyToken (levels_of self.old) (erase token.now))
            (key_taken (levels_of self.old) (erase token.now)) (state_of self.new) result }
    {
        match token {
            Token::MapEnd => self.end_map(),
            Token::Str(text) => {
                let key = String::from_str(self.alloc, text)?;
                self.keep_key(key)
            }
            Token::Char(character) => {
                let key = text_of(self.alloc, *character)?;
                self.keep_key(key)
            }
            _ => Err(Rejection::Token),
        }
    }

    // Takes a token where a value may come, or a key, or an end.
    fn take_open(&mut self, token: &Token<'_>) -> Result<(), Rejection>
        requires { building.is_open (building.state_of self.old.tree) ≡ true }
        ensures { Follows (AllocatesOpen (levels_of self.old) (erase token.now))
            (open_step (levels_of self.old) (erase token.now)) (state_of self.new) result }
    {
        if self.tree.is_at_key() {
            self.take_key(token)
        } else if ends_list(token) {
            self.end_list()
        } else {
            self.take_value(token)
        }
    }

    // Takes a token where the bytes of a link have to come.
    fn take_link(&mut self, token: &Token<'_>) -> Result<(), Rejection>
        ensures { Follows (AllocatesLink (levels_of self.old) (erase token.now))
            (link_step (levels_of self.old) (erase token.now)) (state_of self.new) result }
    {
        match token {
            Token::Bytes(bytes) => {
                let link = link_of_bytes(bytes.as_slice())?;
                self.complete(link)
            }
            _ => Err(Rejection::Token),
        }
    }
}

impl TokenConsumer for TreeReader {
    type Output = Ipld;

    ghost use Rattle.ipld_tokens.specs.ReaderState.{state_of};

    ghost State = { ReadState };

    ghost state = { state_of };

    ghost next_state = { step };

    ghost goes_on = { IsGoing };

    ghost is_complete = { is_done };

    ghost rejects = { Rejects };

    ghost reads = { HasTree };

    fn take(&mut self, token: &Token<'_>) -> Result<(), Rejection> {
        match self.expected {
            Expected::Any => self.take_open(token),
            Expected::Value => self.take_value(token),
            Expected::LinkBytes => self.take_link(token),
        }
    }

    #[inline(always)]
    fn has_ended(&self) -> bool {
        matches!(self.expected, Expected::Any) && !self.tree.is_open()
    }

    fn into_output(self) -> Ipld {
        match self.tree.finish() {
            Some(tree) => tree,
            None => Ipld::Null,
        }
    }
}
