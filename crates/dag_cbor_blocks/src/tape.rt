//! The values of a block in an array of entries, a tape, without a tree.
//!
//! A tape has an entry for every value of a block and for every key of its maps, in the order of
//! the block's bytes. Content is not copied: it is in the block, at the offset that the entry has.
//! Floats of 64 bits are read.
//!
//! | kind | `len` | `value` |
//! |---|---|---|
//! | [`NULL`], [`FALSE`], [`TRUE`] | 0 | 0 |
//! | [`UNSIGNED`], the integer n | 0 | n |
//! | [`NEGATIVE`], the integer -1 - n | 0 | n |
//! | [`FLOAT`] | 8 | the offset of its eight bytes, the highest first |
//! | [`STRING`], [`BYTES`], [`KEY`] | the number of bytes | their offset |
//! | [`LINK`] | the number of bytes of its CID | their offset |
//! | [`LIST`], [`MAP`] | how many entries it spans, with its own | how many items or pairs it has |
//!
//! The entries of a list's items follow the entry of the list. After the entry of a map, the key
//! and the value of every pair follow one another. No entry marks an end. After a list or a map at
//! an index, the tape continues at that index plus `len`. After any other entry, it continues at
//! the next index.

ghost use Rattle.std.specs.Prelude.{◌≡◌, ◌<◌, ◌++◌, ◌∷◌, [], true, List, OnOk, vec_len, vec_capacity};
ghost use Rattle.ipld_tree.specs.Limits.{Within};
ghost use Rattle.ipld_tree.specs.Tree.{Tree};
ghost use Rattle.dag_cbor_format.specs.WithFloats.{EncodesTreeIn};
ghost use Rattle.dag_cbor_blocks.specs.Tape.{entry, IsTapeOf, GivesTape, ReturnsTape, OnlyMemory};
ghost use Rattle.dag_cbor_blocks.specs.TapeErrors.{tape_name};
ghost use Rattle.dag_cbor_blocks.specs.TapeWriter.{Reading, reading, stopped, empty_tape, written, counted, null_after, bool_after, integer_after, content_after, begun, ended, kept, outside, reading_of, tape_with, Writes};

use crate::block_error::{BlockError, BlockErrorKind};
use crate::drive::visit_block;
use crate::options::ReadOptions;
use crate::visit::{Event, Visitor};
use dag_cbor_format::CborError;
use ipld_tree::Limits;
use std::alloc::{AllocError, Global};
use std::{error, fmt};

/// The kind of null.
pub const NULL: u32 = 0;
/// The kind of false.
pub const FALSE: u32 = 1;
/// The kind of true.
pub const TRUE: u32 = 2;
/// The kind of an integer from 0 to 2^64 - 1.
pub const UNSIGNED: u32 = 3;
/// The kind of an integer from -2^64 to -1.
pub const NEGATIVE: u32 = 4;
/// The kind of a float of 64 bits, neither NaN nor an infinity (IEEE 754, binary64).
pub const FLOAT: u32 = 5;
/// The kind of a text string, which is UTF-8.
pub const STRING: u32 = 6;
/// The kind of a byte string.
pub const BYTES: u32 = 7;
/// The kind of a link.
pub const LINK: u32 = 8;
/// The kind of a list.
pub const LIST: u32 = 9;
/// The kind of a map.
pub const MAP: u32 = 10;
/// The kind of a key of a map, a text string.
pub const KEY: u32 = 11;

// How many bytes a float takes.
const FLOAT_SIZE: usize = 9;

// Most blocks have about this many bytes per entry.
const BYTES_PER_ENTRY: usize = 8;

// Capacity is reserved for at most this many entries before any was read.
const RESERVED: usize = 1024;

// When there is no capacity left, it is reserved for at least this many entries.
const SPARE_ENTRIES: usize = 32;

/// A value of a block, or a key of a map. The [module](self) describes its fields.
#[repr(C)]
#[derive(Clone, Copy, Debug, PartialEq, Eq)]
pub struct TapeEntry {
    /// The kind of the value or key, one of the constants of this module.
    pub kind: u32,
    /// The number of bytes of the content, or the number of entries that a list or a map spans,
    /// including its own. Otherwise 0.
    pub len: u32,
    /// The offset of the content in the block, the number of an integer, or the number of items or
    /// pairs. Otherwise 0.
    pub value: u64,
}

/// The reason why the values of a block are not listed.
///
/// `Display` prints a sentence that describes the error.
#[derive(Clone, Copy, Debug, PartialEq, Eq)]
pub enum TapeError {
    /// The bytes are not a block within the limits, or an allocation failed.
    Block(BlockError),
    /// A string, a byte string or a key has 2^32 bytes or more, or a list or a map spans 2^32
    /// entries or more.
    TooLong,
}

impl From<BlockError> for TapeError {
    ghost use Rattle.dag_cbor_blocks.specs.declared.tape.TapeError.TheVariants.{Block};

    ghost from_gives = { λ error tape. tape ≡ Block error };

    fn from(error: BlockError) -> Self {
        TapeError::Block(error)
    }
}

impl TapeError {
    /// Returns the name of the variant, or for `Block` that of the [`BlockError`]'s kind.
    pub fn name(&self) -> &'static str
        ensures { result.now ≡ tape_name self.now }
    {
        match self {
            TapeError::Block(error) => error.kind.name(),
            TapeError::TooLong => "TooLong",
        }
    }
}

impl fmt::Display for TapeError {
    ghost use Rattle.std.specs.Prelude.{Some};
    ghost use Rattle.dag_cbor_blocks.specs.TapeErrors.{tape_sentence};

    ghost output = { λ error. Some (tape_sentence error) };

    ghost styled_output = { λ error _. Some (tape_sentence error) };

    fn fmt<W: fmt::Write>(&self, f: &mut fmt::Formatter<W>) -> fmt::Result {
        match self {
            TapeError::Block(error) => error.fmt(f),
            TapeError::TooLong => f.write_str(
                "too long for a tape: a string of 2^32 bytes, or a list or a map of 2^32 entries",
            ),
        }
    }
}

impl error::Error for TapeError {}

// Reserves capacity for another entry.
#[inline(never)]
fn grow(entries: &mut Vec<TapeEntry>) -> Result<(), AllocError>
    ensures same { OnOk result (entries.new.items ≡ entries.old.items) }
    ensures capacity { OnOk result (vec_len entries.new < vec_capacity entries.new) }
{
    entries.reserve(SPARE_ENTRIES)?;
    Ok(())
}

// Appends an entry.
#[inline(always)]
fn push_entry(
    entries: &mut Vec<TapeEntry>,
    kind: u32,
    len: u32,
    value: u64,
) -> Result<(), AllocError>
    ensures { OnOk result (entries.new.items ≡ entries.old.items ++ entry kind len value ∷ []) }
{
    if entries.len() >= entries.capacity() {
        grow(entries)?;
    }
    entries.push_reserved(TapeEntry { kind, len, value });
    Ok(())
}

// An open list or map, or the outside of all of them.
#[derive(Clone, Copy)]
struct OpenEntry {
    // The index of its entry.
    entry: usize,
    // How many items or pairs it has so far.
    count: usize,
}

// A 32-bit half of a 64-bit number has this many values.
const HALF: usize = 0x1_0000_0000;

impl OpenEntry {
    // Returns the entry that stores this, until the list or map that begins in it ends. The index
    // is its value, and the halves of the count are its kind and length.
    #[inline(always)]
    fn kept(self) -> TapeEntry
        ensures { result ≡ kept self }
    {
        TapeEntry {
            kind: (self.count / HALF) as u32,
            len: (self.count % HALF) as u32,
            value: self.entry as u64,
        }
    }
}

impl TapeEntry {
    // Returns the state that the entry of an open list or map stores.
    #[inline(always)]
    fn outside(self) -> OpenEntry
        ensures { result ≡ outside self }
    {
        OpenEntry {
            entry: self.value as usize,
            count: self.kind as usize * HALF + self.len as usize,
        }
    }
}

// The tape of a block so far.
#[derive(Drop)]
struct TapeWriter {
    // How many bytes the block has.
    size: usize,
    // The number of those that follow the part that was read last.
    left: usize,
    innermost: OpenEntry,
    // Whether every entry could be written.
    fits: bool,
    // The entries of open lists and maps store the state outside of them.
    entries: Vec<TapeEntry>,
}

impl TapeWriter {
    fn new(entries: Vec<TapeEntry>, size: usize) -> Self
        requires { entries.items ≡ [] }
        ensures { reading_of result ≡ reading (empty_tape size) }
    {
        TapeWriter {
            size,
            left: size,
            innermost: OpenEntry { entry: 0, count: 0 },
            fits: true,
            entries,
        }
    }

    // Stops, because an entry could not be written.
    #[inline(always)]
    fn stop(&mut self) -> Result<(), AllocError>
        ensures { OnOk result (reading_of self.new ≡ stopped) }
    {
        self.fits = false;
        Ok(())
    }

    // Counts another value in the innermost list or map.
    #[inline(always)]
    fn count(&mut self) -> Result<(), AllocError>
        ensures { Writes (λ t. reading (counted t)) self.old result self.new }
    {
        let Some(count) = self.innermost.count.checked_add(1) else {
            return Err(AllocError);
        };
        self.innermost.count = count;
        Ok(())
    }

    // Appends an entry, after which `left` bytes are left.
    #[inline(always)]
    fn push(&mut self, kind: u32, len: u32, value: u64, left: usize) -> Result<(), AllocError>
        ensures { Writes (λ t. reading (written (entry kind len value) left t)) self.old result
            self.new }
    {
        push_entry(&mut self.entries, kind, len, value)?;
        self.left = left;
        Ok(())
    }

    // Appends a value without content.
    #[inline(always)]
    fn push_value(&mut self, kind: u32, value: u64, left: usize) -> Result<(), AllocError>
        ensures { Writes (λ t. reading (written (entry kind 0 value) left (counted t))) self.old
            result self.new }
    {
        self.count()?;
        self.push(kind, 0, value, left)
    }

    #[inline(always)]
    fn push_null_or_float(&mut self, left: usize) -> Result<(), AllocError>
        ensures { Writes (null_after left) self.old result self.new }
    {
        self.count()?;
        if self.left.saturating_sub(left) == FLOAT_SIZE {
            let offset = self.size.saturating_sub(left).saturating_sub(8);
            return self.push(FLOAT, 8, offset as u64, left);
        }
        self.push(NULL, 0, 0, left)
    }

    #[inline(never)]
    fn push_bool(&mut self, truth: bool, left: usize) -> Result<(), AllocError>
        ensures { Writes (bool_after truth left) self.old result self.new }
    {
        if truth {
            self.push_value(TRUE, 0, left)
        } else {
            self.push_value(FALSE, 0, left)
        }
    }

    #[inline(always)]
    fn push_integer(&mut self, number: i128, left: usize) -> Result<(), AllocError>
        ensures { Writes (integer_after number left) self.old result self.new }
    {
        if number < 0 {
            match u64::try_from(-1 - number) {
                Ok(n) => self.push_value(NEGATIVE, n, left),
                Err(_) => self.stop(),
            }
        } else {
            match u64::try_from(number) {
                Ok(n) => self.push_value(UNSIGNED, n, left),
                Err(_) => self.stop(),
            }
        }
    }

    // Appends an entry with content of `length` bytes, after which `left` bytes are left.
    #[inline(always)]
    fn push_content(&mut self, kind: u32, length: usize, left: usize) -> Result<(), AllocError>
        ensures { Writes (content_after kind length left) self.old result self.new }
    {
        match u32::try_from(length) {
            Ok(len) => {
                let offset = self.size.saturating_sub(left).saturating_sub(length);
                self.push(kind, len, offset as u64, left)
            }
            Err(_) => self.stop(),
        }
    }

    // Appends a value with content of `length` bytes, which counts as one of the innermost list or
    // map.
    #[inline(always)]
    fn push_counted(&mut self, kind: u32, length: usize, left: usize) -> Result<(), AllocError>
        ensures { Writes (λ t. content_after kind length left (counted t)) self.old result
            self.new }
    {
        self.count()?;
        self.push_content(kind, length, left)
    }

    // Begins a list or a map. Its entry stores the state outside of it, until it ends.
    #[inline(always)]
    fn begin(&mut self, left: usize) -> Result<(), AllocError>
        ensures { Writes (λ t. reading (begun left t)) self.old result self.new }
    {
        self.count()?;
        let TapeEntry { kind, len, value } = self.innermost.kept();
        self.innermost = OpenEntry {
            entry: self.entries.len(),
            count: 0,
        };
        self.push(kind, len, value, left)
    }

    // Ends the innermost list or map.
    #[inline(always)]
    fn end(&mut self, kind: u32, left: usize) -> Result<(), AllocError>
        ensures { Writes (ended kind left) self.old result self.new }
    {
        let OpenEntry { entry, count } = self.innermost;
        let Ok(len) = u32::try_from(self.entries.len().saturating_sub(entry)) else {
            return self.stop();
        };
        self.left = left;
        if let Some(open) = self.entries.get(entry) {
            self.innermost = open.outside();
            self.entries[entry] = TapeEntry {
                kind,
                len,
                value: count as u64,
            };
        }
        Ok(())
    }
}

impl Visitor for TapeWriter {
    ghost Answer = { Reading };

    ghost answer = { tape_with };

    #[inline(always)]
    fn visit(&mut self, event: &Event<'_>, left: usize) -> Result<(), AllocError> {
        match event {
            Event::Null => self.push_null_or_float(left),
            Event::Bool(truth) => self.push_bool(*truth, left),
            Event::Integer(number) => self.push_integer(*number, left),
            Event::Str(string) => self.push_counted(STRING, string.len(), left),
            Event::Bytes(content) => self.push_counted(BYTES, content.len(), left),
            Event::Link {
                encoded,
                left: behind,
                ..
            } => self.push_counted(LINK, encoded.len(), *behind),
            Event::List(_) => self.begin(left),
            Event::EndOfList => self.end(LIST, left),
            Event::Map => self.begin(left),
            Event::Key(key) => self.push_content(KEY, key.len(), left),
            Event::EndOfMap => self.end(MAP, left),
        }
    }
}

/// Returns the values and keys of a block, including floats, in the order of its bytes. For
/// untrusted input.
///
/// It does not build a tree. A tape has at most one entry per byte of the block. Only the entries
/// are allocated, with capacity for at least 32, if the block meets all of these conditions:
///
/// - It nests at most 32 levels deep.
/// - The keys of every map come in length-first order (RFC 8949, section 4.2.3), and no key is
///   empty.
/// - The block has no more bytes than it may have values.
///
/// Any other input is read in a loop, from its start. The loop allocates about 80 bytes per open
/// list or map, and keeps the keys of open maps.
///
/// ```rust
/// use dag_cbor::tape::{self, TapeError, read_tape};
/// use ipld_tree::Limits;
/// use std::alloc::Global;
///
/// fn string_count(alloc: Global, block: &[u8]) -> Result<usize, TapeError> {
///     let limits = Limits { levels: 64, values: 100_000 };
///     let entries = read_tape(alloc, block, &limits)?;
///     Ok(entries.iter().filter(|entry| entry.kind == tape::STRING).count())
/// }
/// ```
///
/// # Errors
///
/// - `Block` if the bytes are not a block within the limits, or if an allocation fails. It has the
///   error of [`check_block`](crate::check_block) with floats.
/// - `TooLong` if a length of an entry would have more than 32 bits, in a block that has no other
///   error.
pub fn read_tape(alloc: Global, bytes: &[u8], limits: &Limits) -> Result<Vec<TapeEntry>, TapeError>
    ensures exact { GivesTape limits.now bytes.now (λ entries. entries.items) result }
    ensures once { (es : List TapeEntry) → IsTapeOf es bytes.now
        → ReturnsTape es (λ entries. entries.items) result }
    ensures only { (t : Tree) → EncodesTreeIn true t bytes.now → Within limits.now t
        → OnlyMemory result }
{
    let options = ReadOptions {
        limits: *limits,
        floats: true,
    };
    let expected = (bytes.len() / BYTES_PER_ENTRY).min(RESERVED);
    let Ok(entries) = Vec::with_capacity(alloc, expected) else {
        return Err(TapeError::Block(BlockError {
            kind: BlockErrorKind::Cbor(CborError::Memory),
            offset: 0,
        }));
    };
    let writer = TapeWriter::new(entries, bytes.len());
    let spare = TapeWriter::new(Vec::new(alloc), bytes.len());
    let writer = visit_block(alloc, bytes, &options, writer, spare)?;
    if writer.fits {
        Ok(writer.entries)
    } else {
        Err(TapeError::TooLong)
    }
}
