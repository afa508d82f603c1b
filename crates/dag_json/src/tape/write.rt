//! The writing of trees as tapes, from their ends. The entry of a list or a map comes before its
//! content, and has the number of entries that it spans.

ghost use Rattle.std.specs.Prelude.{◌≡◌, ◌<◌, ◌+◌, ◌*◌, [], OnOk, string_bytes, option_map};
ghost use Rattle.ipld_tree.specs.Size.{size};
ghost use Rattle.ipld_tree.specs.TreeOf.{tree_of};
ghost use Rattle.dag_cbor_blocks.specs.Tape.{entry};
ghost use Rattle.dag_json.specs.Floats.{number_as};
ghost use Rattle.dag_json.specs.TapeWriting.{nothing, front, with_content, keyed, number_written, written, tape_view, Writes, WritesTape};
ghost use Rattle.dag_json.specs.TapeOpen.{view, left_of, closed_container, finish, load, Enters, Steps};
ghost use Rattle.dag_json.specs.declared.tape.write.WriteError.TheVariants.{Memory};

use crate::floats::Number;
use crate::tape::Tape;
use crate::tape::open::{OpenContainer, Rest};
use dag_cbor_blocks::tape::{self, TapeEntry};
use ipld_tree::Ipld;
use std::alloc::{AllocError, AllocFailed, Global};

// The reason why a tree isn't written as a tape.
#[derive(Clone, Copy)]
pub(crate) enum WriteError {
    // An allocation failed.
    Memory,
    // The length of an entry doesn't fit in 32 bits.
    TooLong,
}

impl From<AllocError> for WriteError {
    ghost from_gives = { λ _ error. error ≡ Memory };

    fn from(_error: AllocError) -> Self {
        WriteError::Memory
    }
}

// The part of a tape that is written, with its entries in reverse order.
#[derive(Drop)]
struct TapeWriter {
    alloc: Global,
    entries: Vec<TapeEntry>,
    contents: Vec<u8>,
}

impl TapeWriter {
    fn new(alloc: Global) -> Self
        ensures { view result ≡ nothing }
    {
        TapeWriter {
            alloc,
            entries: Vec::new(alloc),
            contents: Vec::new(alloc),
        }
    }

    // Returns the tape.
    fn finish(mut self) -> Tape
        ensures { tape_view result ≡ view self }
    {
        self.entries.reverse();
        Tape {
            entries: self.entries,
            contents: self.contents,
        }
    }

    // Puts an entry before the others.
    fn push(&mut self, kind: u32, len: usize, value: u64) -> Result<(), WriteError>
        ensures { Writes (front (entry kind len value) (view self.old)) result (view self.new) }
    {
        let Ok(len) = u32::try_from(len) else {
            return Err(WriteError::TooLong);
        };
        match self.entries.push(TapeEntry { kind, len, value }) {
            Ok(()) => Ok(()),
            Err(_) => Err(WriteError::Memory),
        }
    }

    // Puts an entry with content before the others.
    fn push_content(&mut self, kind: u32, content: &[u8]) -> Result<(), WriteError>
        ensures { Writes (with_content kind content.now (view self.old)) result (view self.new) }
    {
        let offset = self.contents.len() as u64;
        self.contents.extend_from_slice(content)?;
        self.push(kind, content.len(), offset)
    }

    // Puts the key before its value, if there is one.
    fn push_key(&mut self, key: Option<String>) -> Result<(), WriteError>
        ensures { Writes (keyed (option_map string_bytes key) (view self.old)) result
            (view self.new) }
    {
        match key {
            Some(key) => self.push_content(tape::KEY, key.as_bytes()),
            None => Ok(()),
        }
    }

    // Puts an entry before the others, with its key.
    fn put(
        &mut self,
        key: Option<String>,
        kind: u32,
        len: usize,
        value: u64,
    ) -> Result<(), WriteError>
        ensures { Writes (keyed (option_map string_bytes key) (front (entry kind len value)
            (view self.old))) result (view self.new) }
    {
        self.push(kind, len, value)?;
        self.push_key(key)
    }

    // Puts an entry with content before the others, with its key.
    fn put_content(
        &mut self,
        key: Option<String>,
        kind: u32,
        content: &[u8],
    ) -> Result<(), WriteError>
        ensures { Writes (keyed (option_map string_bytes key) (with_content kind content.now
            (view self.old))) result (view self.new) }
    {
        self.push_content(kind, content)?;
        self.push_key(key)
    }

    // Puts the number that an integer represents before the others, with its key.
    fn put_number(&mut self, key: Option<String>, number: i128) -> Result<(), WriteError>
        ensures { Writes (keyed (option_map string_bytes key) (number_written (number_as number)
            (view self.old))) result (view self.new) }
    {
        match Number::from_integer(number) {
            Some(Number::Unsigned(n)) => self.put(key, tape::UNSIGNED, 0, n),
            Some(Number::Negative(n)) => self.put(key, tape::NEGATIVE, 0, n),
            Some(Number::Float(bits)) => self.put_content(key, tape::FLOAT, &bits.to_be_bytes()),
            // The tree of a text has no such integer.
            None => self.push_key(key),
        }
    }

    // Continues in a list or a map, at its end.
    fn enter(
        &mut self,
        key: Option<String>,
        rest: Rest,
        count: usize,
        containers: &mut Vec<OpenContainer>,
    ) -> Result<(), AllocError>
        ensures { OnOk result (Enters (option_map string_bytes key) rest count (view self.old)
            (view self.new) containers.old.items containers.new.items) }
    {
        let container = OpenContainer {
            key,
            rest,
            count,
            behind: self.entries.len(),
        };
        match containers.push(container) {
            Ok(()) => Ok(()),
            Err(AllocFailed { value }) => {
                value.rest.discard();
                Err(AllocError)
            }
        }
    }

    // Puts a value before the others, with its key, or continues in it.
    fn write(
        &mut self,
        key: Option<String>,
        value: Ipld,
        containers: &mut Vec<OpenContainer>,
    ) -> Result<(), WriteError>
        ensures same { Writes (finish containers.old.items (keyed (option_map string_bytes key)
            (written (tree_of value) (view self.old)))) result
            (finish containers.new.items (view self.new)) }
        ensures load { OnOk result (load containers.new.items < load containers.old.items
            + 2 * size value) }
    {
        match value {
            Ipld::List(items) => {
                let count = items.len();
                self.enter(key, Rest::Items(items), count, containers)?;
                Ok(())
            }
            Ipld::Map(members) => {
                let count = members.len();
                self.enter(key, Rest::Members(members), count, containers)?;
                Ok(())
            }
            Ipld::Null => self.put(key, tape::NULL, 0, 0),
            Ipld::Bool(false) => self.put(key, tape::FALSE, 0, 0),
            Ipld::Bool(true) => self.put(key, tape::TRUE, 0, 0),
            Ipld::Integer(number) => self.put_number(key, number),
            Ipld::String(text) => self.put_content(key, tape::STRING, text.as_bytes()),
            Ipld::Bytes(bytes) => self.put_content(key, tape::BYTES, &bytes),
            Ipld::Link(cid) => {
                let bytes = cid.to_bytes(self.alloc)?;
                self.put_content(key, tape::LINK, &bytes)
            }
        }
    }

    // Puts the entry of a list or a map before its content, with its key.
    fn close(&mut self, container: OpenContainer) -> Result<(), WriteError>
        requires { left_of container.rest ≡ [] }
        ensures { Writes (closed_container container (view self.old)) result (view self.new) }
    {
        let kind = match container.rest {
            Rest::Items(_) => tape::LIST,
            Rest::Members(_) => tape::MAP,
        };
        let inner = self.entries.len().saturating_sub(container.behind);
        let span = inner.saturating_add(1);
        self.put(container.key, kind, span, container.count as u64)
    }

    // Writes the last value that is left in the innermost list or map, or closes it. Returns false
    // if nothing is open.
    fn step(&mut self, containers: &mut Vec<OpenContainer>) -> Result<bool, WriteError>
        ensures { Steps result containers.old.items (view self.old) containers.new.items
            (view self.new) }
    {
        let Some(mut container) = containers.pop() else {
            return Ok(false);
        };
        match container.rest.take_last() {
            Some((key, value)) => {
                containers.push_reserved(container);
                match self.write(key, value, containers) {
                    Ok(()) => Ok(true),
                    Err(error) => Err(error),
                }
            }
            None => match self.close(container) {
                Ok(()) => Ok(true),
                Err(error) => Err(error),
            },
        }
    }

    // Writes a tree.
    fn write_tree(
        &mut self,
        tree: Ipld,
        containers: &mut Vec<OpenContainer>,
    ) -> Result<(), WriteError>
        requires { containers.old.items ≡ [] }
        ensures { Writes (written (tree_of tree) (view self.old)) result (view self.new) }
    {
        self.write(None, tree, containers)?;
        while self.step(containers)? {}
        Ok(())
    }
}

// Returns the tape of a tree in which integers represent floats.
pub(crate) fn tape_of(alloc: Global, tree: Ipld) -> Result<Tape, WriteError>
    ensures { WritesTape (tree_of tree) result }
{
    let mut writer = TapeWriter::new(alloc);
    let mut containers = Vec::new(alloc);
    match writer.write_tree(tree, &mut containers) {
        Ok(()) => Ok(writer.finish()),
        Err(error) => {
            while let Some(container) = containers.pop() {
                container.rest.discard();
            }
            Err(error)
        }
    }
}
