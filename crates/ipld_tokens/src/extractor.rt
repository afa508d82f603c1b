//! Links, token by token.

ghost use Rattle.std.specs.Prelude.{◌≡◌, ◌∷◌, true, false};
ghost use Rattle.ipld_cid.specs.LinkOf.{link_of};
ghost use Rattle.ipld_tokens.specs.Token.{erase};
ghost use Rattle.ipld_tokens.specs.ExtractMachine.{ExtractState, open_at, marked, key_frame, closed, ended, list_ended, map_ended, link_read, item_step, is_done, step, start, IsGoing, Opens};
ghost use Rattle.ipld_tokens.specs.ExtractResult.{HasLinks};
ghost use Rattle.ipld_tokens.specs.LinkBytes.{read_link};
ghost use Rattle.ipld_tokens.specs.ExtractorState.{outer_of, links_found, state_of, Keeps, Follows, Reads, Rejects, Takes};
ghost use Rattle.ipld_tokens.specs.declared.extractor.Frame.TheVariants as Frame;

use crate::consumer::{Rejection, TokenConsumer};
use crate::extract_links::{ExtractLinks, TOO_LARGE};
use crate::token::Token;
use ipld_cid::CidGeneric;
use ipld_cid::laws::cid_bytes_law;
use std::alloc::Global;
use std::mem::size_of;

// The container of an item.
#[derive(Clone, Copy)]
enum Frame {
    // Nothing.
    Whole,
    // A list.
    List,
    // A map, as a key. The map itself is not in a key.
    Key,
    // A map, as a key. The map itself is in a key.
    InnerKey,
    // A map, as a value.
    Value,
}

const _: () = prove!(size_of::<Frame>() == 1);

// The tokens that may come next.
#[derive(Clone, Copy)]
enum Phase {
    // An item.
    Item,
    // An item, or the end of the list or the map, if a value isn't due.
    ItemOrEnd,
    // The bytes of a link.
    LinkBytes,
    // Nothing.
    Ended,
}

// The links found so far, and the open containers.
#[derive(Drop)]
pub(crate) struct Extractor<const S: usize> {
    phase: Phase,
    // Whether links are kept here: no key is open.
    keeps: bool,
    frame: Frame,
    // The frames around it, innermost last.
    outer: Vec<Frame>,
    links: Vec<CidGeneric<S>>,
}

// Returns the frame of a key.
#[inline(always)]
fn frame_of_key(keeps: bool) -> Frame
    ensures { result ≡ key_frame keeps }
{
    if keeps { Frame::Key } else { Frame::InnerKey }
}

impl<const S: usize> Extractor<S> {
    pub(crate) fn new(alloc: Global) -> Self
        ensures { state_of result ≡ start }
    {
        Extractor {
            phase: Phase::Item,
            keeps: true,
            frame: Frame::Whole,
            outer: Vec::new(alloc),
            links: Vec::new(alloc),
        }
    }

    // Completes an item.
    #[inline(always)]
    fn close(&mut self)
        ensures { state_of self.new ≡ closed self.old.keeps self.old.frame (outer_of self.old)
            (links_found self.old) }
    {
        self.phase = Phase::ItemOrEnd;
        match self.frame {
            Frame::Whole => self.phase = Phase::Ended,
            Frame::List => {}
            Frame::Key => {
                self.frame = Frame::Value;
                self.keeps = true;
            }
            Frame::InnerKey => {
                self.frame = Frame::Value;
                self.keeps = false;
            }
            Frame::Value => {
                self.frame = frame_of_key(self.keeps);
                self.keeps = false;
            }
        }
    }

    // Expects an item.
    #[inline(always)]
    fn expect_item(&mut self)
        ensures { state_of self.new ≡ open_at true self.old.keeps self.old.frame (outer_of self.old)
            (links_found self.old) }
    {
        self.phase = Phase::Item;
    }

    // Expects the bytes of a link.
    #[inline(always)]
    fn expect_link_bytes(&mut self)
        ensures { state_of self.new ≡ marked self.old.keeps self.old.frame (outer_of self.old)
            (links_found self.old) }
    {
        self.phase = Phase::LinkBytes;
    }

    // Keeps the link if it is not in a key.
    #[inline(always)]
    fn keep_link(&mut self, cid: CidGeneric<S>) -> Result<(), Rejection>
        ensures { Keeps self.old (link_of cid.entry) self.new result }
    {
        if self.keeps {
            self.links.push(cid)?;
        }
        Ok(())
    }

    // Takes the bytes after a link mark.
    fn take_link_bytes(&mut self, bytes: &[u8]) -> Result<(), Rejection>
        ensures { Reads S self.old.keeps bytes.now
            (link_read (read_link S bytes.now) self.old.keeps self.old.frame (outer_of self.old)
            (links_found self.old)) (state_of self.new) result }
    {
        if S >= TOO_LARGE {
            return Err(Rejection::Memory);
        }
        // A law, a no-op at run time: bytes are read as a CID if and only if they encode one.
        cid_bytes_law::<S>();
        match CidGeneric::try_from(bytes) {
            Err(cid_error) => Err(Rejection::Cid(cid_error)),
            Ok(cid) => {
                self.keep_link(cid)?;
                self.close();
                Ok(())
            }
        }
    }

    #[inline(always)]
    fn open_list(&mut self) -> Result<(), Rejection>
        ensures { Follows (Unit {0}) (open_at false self.old.keeps Frame.List
            (self.old.frame ∷ outer_of self.old) (links_found self.old))
            (state_of self.new) result }
    {
        self.outer.push(self.frame)?;
        self.frame = Frame::List;
        self.phase = Phase::ItemOrEnd;
        Ok(())
    }

    #[inline(always)]
    fn open_map(&mut self) -> Result<(), Rejection>
        ensures { Follows (Unit {0}) (open_at false false (key_frame self.old.keeps)
            (self.old.frame ∷ outer_of self.old) (links_found self.old))
            (state_of self.new) result }
    {
        self.outer.push(self.frame)?;
        self.frame = frame_of_key(self.keeps);
        self.keeps = false;
        self.phase = Phase::ItemOrEnd;
        Ok(())
    }

    // Ends the list or the map that is open.
    #[inline(always)]
    fn end(&mut self, keeps: bool) -> Result<(), Rejection>
        ensures { Follows ⊥ (ended keeps (outer_of self.old) (links_found self.old))
            (state_of self.new) result }
    {
        match self.outer.pop() {
            None => Err(Rejection::Token),
            Some(frame) => {
                self.frame = frame;
                self.keeps = keeps;
                self.close();
                Ok(())
            }
        }
    }

    #[inline(always)]
    fn end_list(&mut self) -> Result<(), Rejection>
        ensures { Follows ⊥ (list_ended self.old.keeps self.old.frame (outer_of self.old)
            (links_found self.old)) (state_of self.new) result }
    {
        match self.frame {
            Frame::List => self.end(self.keeps),
            Frame::Whole | Frame::Key | Frame::InnerKey | Frame::Value => Err(Rejection::Token),
        }
    }

    #[inline(always)]
    fn end_map(&mut self) -> Result<(), Rejection>
        ensures { Follows ⊥ (map_ended self.old.keeps self.old.frame (outer_of self.old)
            (links_found self.old)) (state_of self.new) result }
    {
        match self.frame {
            Frame::Key => self.end(true),
            Frame::InnerKey => self.end(false),
            Frame::Whole | Frame::List | Frame::Value => Err(Rejection::Token),
        }
    }

    // Takes a token where an item may come, or must.
    #[inline(always)]
    fn take_item(&mut self, token: &Token<'_>, must: bool) -> Result<(), Rejection>
        ensures { Follows (Opens (erase token.now)) (item_step must self.old.keeps self.old.frame
            (outer_of self.old) (links_found self.old) (erase token.now))
            (state_of self.new) result }
    {
        match token {
            Token::Some | Token::Variant(_) => self.expect_item(),
            Token::Link => self.expect_link_bytes(),
            Token::Seq(_) => return self.open_list(),
            Token::Map(_) => return self.open_map(),
            Token::SeqEnd | Token::MapEnd if must => return Err(Rejection::Token),
            Token::SeqEnd => return self.end_list(),
            Token::MapEnd => return self.end_map(),
            _ => self.close(),
        }
        Ok(())
    }

    // Takes a token where the bytes of a link must come.
    #[inline(always)]
    fn take_link(&mut self, token: &Token<'_>) -> Result<(), Rejection>
        ensures { Takes S (marked self.old.keeps self.old.frame (outer_of self.old)
            (links_found self.old)) (erase token.now) (state_of self.new) result }
    {
        match token {
            Token::Bytes(bytes) => self.take_link_bytes(bytes.as_slice()),
            _ => Err(Rejection::Token),
        }
    }
}

impl<const S: usize> TokenConsumer for Extractor<S> {
    type Output = ExtractLinks<S>;

    ghost State = { ExtractState };

    ghost state = { state_of };

    ghost next_state = { step S };

    ghost goes_on = { IsGoing };

    ghost is_complete = { is_done };

    ghost rejects = { Rejects S };

    ghost reads = { HasLinks };

    #[inline(always)]
    fn take(&mut self, token: &Token<'_>) -> Result<(), Rejection> {
        match self.phase {
            Phase::Item => self.take_item(token, true),
            Phase::ItemOrEnd => self.take_item(token, false),
            Phase::LinkBytes => self.take_link(token),
            Phase::Ended => unreachable!(),
        }
    }

    #[inline(always)]
    fn has_ended(&self) -> bool {
        matches!(self.phase, Phase::Ended)
    }

    fn into_output(self) -> ExtractLinks<S> {
        ExtractLinks { links: self.links }
    }
}
