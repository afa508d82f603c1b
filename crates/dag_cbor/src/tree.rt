//! The tree of a block, built from its parts.

ghost use Rattle.std.specs.Prelude.{◌≡◌, ◌∷◌, [], ℕ, List, Option, Some, option_map};
ghost use Rattle.ipld_cid.specs.LinkOf.{link_of};
ghost use Rattle.ipld_tree.specs.Tree.{Tree, integer, text as text_tree};
ghost use Rattle.ipld_tree.specs.TreeOf.{tree_of};
ghost use Rattle.ipld_tokens.specs.LinkBytes.{read_link};
ghost use Rattle.ipld_tokens.specs.Token.{TokenModel, atom, none, boolean, text, bytes, link, seq, seq_end, map, map_end};
ghost use Rattle.ipld_tokens.specs.ReadMachine.{completed, step, start};
ghost use Rattle.dag_cbor.specs.Building.{levels_of, state_of, tree_after, tree_answer, Reaches, Settles};
ghost use Rattle.dag_cbor_blocks.specs.Visit.{Takes};

use dag_cbor_blocks::visit::{Event, Visitor};
use ipld_cid::Cid;
use ipld_tokens::open_tree::{BuildError, OpenTree};
use ipld_tree::Ipld;
use std::alloc::{AllocError, Global};

// The tree of a block, as far as its parts were read. It is rejected if a part is not allowed at
// its place.
#[derive(Drop)]
pub(crate) struct TreeBuilder {
    alloc: Global,
    tree: OpenTree,
}

impl TreeBuilder {
    pub(crate) fn new(alloc: Global) -> Self
        ensures { (ts : List TokenModel) → tree_answer result ts ≡ tree_after start ts }
    {
        TreeBuilder {
            alloc,
            tree: OpenTree::new(alloc),
        }
    }

    // Returns the tree, if the parts were those of one.
    pub(crate) fn finish(self) -> Option<Ipld>
        ensures { option_map tree_of result ≡ tree_answer self [] }
    {
        self.tree.finish()
    }

    // Rejects the tree if a part was not allowed at its place.
    #[inline(always)]
    fn settle(&mut self, built: Result<(), BuildError>) -> Result<(), AllocError>
        ensures { Settles (state_of self.old) built result (state_of self.new) }
    {
        match built {
            Ok(()) => Ok(()),
            Err(BuildError::Memory) => Err(AllocError),
            Err(BuildError::Misplaced) | Err(BuildError::DuplicateKey) => {
                self.tree.reject();
                Ok(())
            }
        }
    }

    // Puts a value into the innermost container.
    fn add(&mut self, value: Ipld) -> Result<(), AllocError>
        ensures { Reaches (completed (tree_of value) (levels_of self.old)) result
            (state_of self.new) }
    {
        let built = self.tree.put(value);
        self.settle(built)
    }

    // Puts an integer into the innermost container.
    #[inline(always)]
    fn add_integer(&mut self, number: i128) -> Result<(), AllocError>
        ensures { Reaches (completed (integer number) (levels_of self.old)) result
            (state_of self.new) }
    {
        let built = self.tree.put_integer(number);
        self.settle(built)
    }

    // Puts a string into the innermost container.
    #[inline(never)]
    fn add_text(&mut self, string: &str) -> Result<(), AllocError>
        ensures { Reaches (completed (text_tree string.now) (levels_of self.old)) result
            (state_of self.new) }
    {
        let string = String::from_str(self.alloc, string)?;
        self.add(Ipld::String(string))
    }

    // Adds a string. It is a key if the innermost map waits for one.
    fn add_key(&mut self, string: &str) -> Result<(), AllocError>
        ensures { Reaches (step (state_of self.old) (atom (text string.now))) result
            (state_of self.new) }
    {
        if self.tree.is_at_key() {
            let key = String::from_str(self.alloc, string)?;
            let built = self.tree.put_key(key);
            return self.settle(built);
        }
        self.add_text(string)
    }

    // Adds a string as a value if one is allowed there, and otherwise as a key.
    #[inline(always)]
    fn add_string(&mut self, string: &str) -> Result<(), AllocError>
        ensures { Reaches (step (state_of self.old) (atom (text string.now))) result
            (state_of self.new) }
    {
        if self.tree.takes_value() {
            self.add_text(string)
        } else {
            self.add_key(string)
        }
    }

    // Functions that are rarely called, or make a value, are out of line, so that the loop over a
    // block's bytes stays small enough to be one function.

    #[inline(never)]
    fn add_null(&mut self) -> Result<(), AllocError>
        ensures { Takes tree_answer self.old (atom none ∷ []) result self.new }
    {
        self.add(Ipld::Null)
    }

    #[inline(never)]
    fn add_bool(&mut self, truth: bool) -> Result<(), AllocError>
        ensures { Takes tree_answer self.old (atom (boolean truth) ∷ []) result self.new }
    {
        self.add(Ipld::Bool(truth))
    }

    #[inline(never)]
    fn add_bytes(&mut self, content: &[u8]) -> Result<(), AllocError>
        ensures { Takes tree_answer self.old (bytes content.now ∷ []) result self.new }
    {
        let bytes = Vec::from_slice(self.alloc, content)?;
        self.add(Ipld::Bytes(bytes))
    }

    #[inline(never)]
    fn add_link(&mut self, cid: Cid) -> Result<(), AllocError>
        ensures { (encoded : List ℕ) → read_link 64 encoded ≡ Some (link_of cid)
            → Takes tree_answer self.old (link ∷ bytes encoded ∷ []) result self.new }
    {
        self.add(Ipld::Link(cid))
    }

    #[inline(never)]
    fn begin_list(&mut self, hint: Option<usize>) -> Result<(), AllocError>
        ensures { Takes tree_answer self.old (seq ∷ []) result self.new }
    {
        if !self.tree.takes_value() {
            self.tree.reject();
            return Ok(());
        }
        let built = self.tree.begin_list(hint);
        self.settle(built)
    }

    #[inline(never)]
    fn end_list(&mut self) -> Result<(), AllocError>
        ensures { Takes tree_answer self.old (seq_end ∷ []) result self.new }
    {
        match self.tree.end_list() {
            Ok(items) => self.add(Ipld::List(items)),
            Err(_) => {
                self.tree.reject();
                Ok(())
            }
        }
    }

    #[inline(never)]
    fn begin_map(&mut self) -> Result<(), AllocError>
        ensures { Takes tree_answer self.old (map ∷ []) result self.new }
    {
        if !self.tree.takes_value() {
            self.tree.reject();
            return Ok(());
        }
        let built = self.tree.begin_map();
        self.settle(built)
    }

    #[inline(never)]
    fn end_map(&mut self) -> Result<(), AllocError>
        ensures { Takes tree_answer self.old (map_end ∷ []) result self.new }
    {
        match self.tree.end_map() {
            Ok(members) => self.add(Ipld::Map(members)),
            Err(_) => {
                self.tree.reject();
                Ok(())
            }
        }
    }
}

impl Visitor for TreeBuilder {
    ghost use Rattle.dag_cbor_format.specs.Trace.{tokens_in};

    ghost Answer = { Option Tree };

    ghost answer = { λ builder events. tree_answer builder (tokens_in events) };

    #[inline(always)]
    fn visit(&mut self, event: &Event<'_>, _left: usize) -> Result<(), AllocError> {
        match event {
            Event::Null => self.add_null(),
            Event::Bool(truth) => self.add_bool(*truth),
            Event::Integer(number) => self.add_integer(*number),
            Event::Str(string) => self.add_string(*string),
            Event::Bytes(content) => self.add_bytes(*content),
            Event::Link { cid, .. } => self.add_link(*cid),
            Event::List(hint) => self.begin_list(*hint),
            Event::EndOfList => self.end_list(),
            Event::Map => self.begin_map(),
            Event::Key(key) => self.add_key(*key),
            Event::EndOfMap => self.end_map(),
        }
    }
}
