//! The building of a tree from the tokens of a text.

ghost use Rattle.std.specs.Prelude.{◌≡◌, false, nat_lt, Ok, Err, OnOk, IfErr, MatchResult};
ghost use Rattle.ipld_tree.specs.Tree.{no_items, no_members};
ghost use Rattle.ipld_tree.specs.Tree as tree;
ghost use Rattle.ipld_tree.specs.TreeOf.{tree_of, members_of};
ghost use Rattle.json.specs.Reads.{token_of};
ghost use Rattle.dag_json.specs.Objects.{object_tree};
ghost use Rattle.dag_json.specs.Floats.{number_in};
ghost use Rattle.dag_json.specs.Offset.{is_going};
ghost use Rattle.dag_json.specs.ReadMachine.{in_list, in_key, start, step, outcome, completed, completed_if, as_integer};
ghost use Rattle.dag_json.specs.Building.{as_read, levels_of, state_of, added, begun, list_ended, object_ended, key_at, Reaches, Counted, MayBegin};

use crate::floats::read_number_in;
use crate::read_error::ReadErrorKind;
use crate::scalar::read_object;
use ipld_tokens::open_tree::{BuildError, OpenTree};
use ipld_tree::{Ipld, Limits};
use json::Token;
use std::alloc::{AllocError, Global};
use std::collections::BTreeMap;

// The tree of the tokens that have come so far.
#[derive(Drop)]
pub(crate) struct TreeBuilder {
    alloc: Global,
    tree: OpenTree,
    // The number of open lists and maps.
    depth: usize,
    // The number of values that have begun.
    values: usize,
}

// Converts the result of adding a part to an error of reading.
#[inline(always)]
fn read_error_of(built: Result<(), BuildError>) -> Result<(), ReadErrorKind>
    ensures { result ≡ as_read built }
{
    match built {
        Ok(()) => Ok(()),
        Err(BuildError::Memory) => Err(ReadErrorKind::Memory),
        Err(BuildError::Misplaced) => Err(ReadErrorKind::Syntax),
        Err(BuildError::DuplicateKey) => Err(ReadErrorKind::DuplicateKey),
    }
}

impl TreeBuilder {
    pub(crate) fn new(alloc: Global) -> Self
        ensures { state_of result ≡ start }
    {
        TreeBuilder {
            alloc,
            tree: OpenTree::new(alloc),
            depth: 0,
            values: 0,
        }
    }

    // Returns whether more tokens have to come.
    #[inline(always)]
    pub(crate) fn is_unfinished(&self) -> bool
        ensures { result ≡ is_going (state_of self.now) }
    {
        self.tree.is_open()
    }

    // Returns the tree, if the tokens were those of one.
    pub(crate) fn finish(self) -> Result<Ipld, ReadErrorKind>
        ensures { MatchResult result
            (λ value. outcome (state_of self) ≡ Ok (tree_of value))
            (λ error. outcome (state_of self) ≡ Err error) }
    {
        if self.tree.is_open() {
            return Err(ReadErrorKind::End);
        }
        match self.tree.finish() {
            Some(tree) => Ok(tree),
            None => Err(ReadErrorKind::Syntax),
        }
    }

    // Counts a value that begins.
    #[inline(always)]
    fn count(&mut self, limits: &Limits) -> Result<(), ReadErrorKind>
        ensures ok { OnOk result (Counted limits.now self.old self.new) }
        ensures err { IfErr result (λ error. (error ≡ ReadErrorKind.TooMany)
            × (nat_lt self.old.values limits.now.values ≡ false)) }
    {
        if self.values < limits.values {
            self.values += 1;
            Ok(())
        } else {
            Err(ReadErrorKind::TooMany)
        }
    }

    // Puts a value into the innermost container.
    #[inline(always)]
    fn put(&mut self, value: Ipld) -> Result<(), ReadErrorKind>
        ensures { Reaches (completed (tree_of value) self.old.depth self.old.values
            (levels_of self.old)) result (state_of self.new) }
    {
        read_error_of(self.tree.put(value))
    }

    // Adds a value that is not a list or a map.
    #[inline(always)]
    fn add(&mut self, value: Ipld, limits: &Limits) -> Result<(), ReadErrorKind>
        ensures { Reaches (added limits.now (state_of self.old) (Ok (tree_of value))) result
            (state_of self.new) }
    {
        if !self.tree.takes_value() {
            return Err(ReadErrorKind::Syntax);
        }
        self.count(limits)?;
        self.put(value)
    }

    // Adds a string.
    fn add_text(&mut self, text: &str, limits: &Limits) -> Result<(), ReadErrorKind>
        ensures { Reaches (added limits.now (state_of self.old) (Ok (tree.text text.now))) result
            (state_of self.new) }
    {
        match String::from_str(self.alloc, text) {
            Ok(text) => self.add(Ipld::String(text), limits),
            Err(AllocError) => Err(ReadErrorKind::Memory),
        }
    }

    // Adds a number, with or without floats.
    fn add_number(&mut self, text: &str, limits: &Limits, floats: bool) -> Result<(), ReadErrorKind>
        ensures { Reaches (added limits.now (state_of self.old)
            (as_integer (number_in floats text.now))) result (state_of self.new) }
    {
        if !self.tree.takes_value() {
            return Err(ReadErrorKind::Syntax);
        }
        match read_number_in(text, floats) {
            Ok(number) => self.add(Ipld::Integer(number), limits),
            Err(error) => Err(error),
        }
    }

    // Takes a key, whose value comes next.
    fn add_key(&mut self, key: &str) -> Result<(), ReadErrorKind>
        ensures { Reaches (key_at (state_of self.old) key.now) result (state_of self.new) }
    {
        if !self.tree.is_at_key() {
            return Err(ReadErrorKind::Syntax);
        }
        if self.tree.has_key(key) {
            return Err(ReadErrorKind::DuplicateKey);
        }
        match String::from_str(self.alloc, key) {
            Ok(key) => read_error_of(self.tree.put_key(key)),
            Err(AllocError) => Err(ReadErrorKind::Memory),
        }
    }

    // Counts a list or a map that begins.
    #[inline(always)]
    fn begin(&mut self, limits: &Limits) -> Result<(), ReadErrorKind>
        ensures { MayBegin limits.now self.old result self.new }
    {
        if !self.tree.takes_value() {
            return Err(ReadErrorKind::Syntax);
        }
        if self.depth >= limits.levels {
            return Err(ReadErrorKind::TooDeep);
        }
        self.count(limits)?;
        self.depth += 1;
        Ok(())
    }

    fn begin_list(&mut self, limits: &Limits) -> Result<(), ReadErrorKind>
        ensures { Reaches (begun limits.now (state_of self.old) (in_list no_items)) result
            (state_of self.new) }
    {
        self.begin(limits)?;
        read_error_of(self.tree.begin_list(None))
    }

    fn end_list(&mut self) -> Result<(), ReadErrorKind>
        ensures { Reaches (list_ended (state_of self.old)) result (state_of self.new) }
    {
        self.depth = self.depth.saturating_sub(1);
        match self.tree.end_list() {
            Ok(items) => self.put(Ipld::List(items)),
            Err(_) => Err(ReadErrorKind::Syntax),
        }
    }

    fn begin_map(&mut self, limits: &Limits) -> Result<(), ReadErrorKind>
        ensures { Reaches (begun limits.now (state_of self.old) (in_key no_members)) result
            (state_of self.new) }
    {
        self.begin(limits)?;
        read_error_of(self.tree.begin_map())
    }

    // Puts the value of a map: a link, bytes, or the map itself.
    fn put_object(&mut self, members: BTreeMap<String, Ipld>) -> Result<(), ReadErrorKind>
        ensures { Reaches (completed_if (object_tree (members_of members.entries)) self.old.depth
            self.old.values (levels_of self.old)) result (state_of self.new) }
    {
        match read_object(self.alloc, members) {
            Ok(value) => self.put(value),
            Err(error) => Err(error),
        }
    }

    fn end_map(&mut self) -> Result<(), ReadErrorKind>
        ensures { Reaches (object_ended (state_of self.old)) result (state_of self.new) }
    {
        self.depth = self.depth.saturating_sub(1);
        match self.tree.end_map() {
            Ok(members) => self.put_object(members),
            Err(_) => Err(ReadErrorKind::Syntax),
        }
    }

    // Takes the next token, with or without floats.
    pub(crate) fn take_token(
        &mut self,
        token: &Token<'_>,
        limits: &Limits,
        floats: bool,
    ) -> Result<(), ReadErrorKind>
        ensures { Reaches (step floats limits.now (state_of self.old) (token_of token.now)) result
            (state_of self.new) }
    {
        match token {
            Token::BeginObject => self.begin_map(limits),
            Token::EndObject => self.end_map(),
            Token::BeginArray => self.begin_list(limits),
            Token::EndArray => self.end_list(),
            Token::Key(key) => self.add_key(key),
            Token::String(text) => self.add_text(text, limits),
            Token::Number(text) => self.add_number(text, limits, floats),
            Token::Bool(truth) => self.add(Ipld::Bool(*truth), limits),
            Token::Null => self.add(Ipld::Null, limits),
            Token::Bad => Err(ReadErrorKind::Syntax),
        }
    }
}
