//! The tree of a block as text for people.

ghost use Rattle.std.specs.Prelude.{◌≡◌, ℕ, suc, ◌<◌, ◌≤◌, ◌++◌, true, List, length, reverse, option_map, codes, IfOk, MatchResult};
ghost use Rattle.std.specs.Io.KnownBytes.{Appends};
ghost use Rattle.ipld_show.specs.DataItem.{DataItem, BeginsWithItem};
ghost use Rattle.ipld_show.specs.Scalars.{hex_text, IsOutputError};
ghost use Rattle.ipld_show.specs.TreeLevels.{HasCid, IsHeadText, opens, with_level, Holds, Open, Leaves, ComesTo};
ghost use Rattle.ipld_show.specs.TreeText.{Line, spaces, indent, key_text, end_text, IsTreeText};

use crate::error::{ShowError, unchecked_error};
use crate::scalars::{write_cid_bytes, write_float, write_hex, write_string};
use dag_cbor_format::item::{ItemHead, read_item, read_key};
use std::alloc::Global;
use std::io::Write;

// The number of levels that are indented. Deeper lines have the number of their level, so that the
// text stays in proportion to the block.
const INDENTED: usize = 40;

// An open list or map, and the number of items or entries to come.
#[derive(Clone, Copy)]
struct Level {
    is_map: bool,
    left: u64,
}

// Writes two spaces `count` times.
fn write_spaces<W: Write>(writer: &mut W, count: usize) -> Result<(), ShowError>
    ensures { MatchResult result (λ _. Appends (W.contents writer.old) (W.contents writer.new)
        (spaces count)) IsOutputError }
{
    let mut done = 0usize;
    while done < count {
        writer.write_all(b"  ")?;
        done += 1;
    }
    Ok(())
}

// Writes the beginning of a line.
fn write_indent<W: Write>(writer: &mut W, level: usize) -> Result<(), ShowError>
    ensures { MatchResult result (λ _. Appends (W.contents writer.old) (W.contents writer.new)
        (indent level)) IsOutputError }
{
    write_spaces(writer, level.min(INDENTED))?;
    if level > INDENTED {
        write!(writer, "({level}) ")?;
    }
    Ok(())
}

// Writes the key of a value, if it has one.
fn write_key_label<W: Write>(writer: &mut W, key: Option<&str>) -> Result<(), ShowError>
    ensures { MatchResult result (λ _. Appends (W.contents writer.old) (W.contents writer.new)
        (key_text (option_map (λ k. k.now) key.entry))) IsOutputError }
{
    match key {
        Some(key) => {
            write_string(writer, key)?;
            writer.write_all(b": ")?;
            Ok(())
        }
        None => Ok(()),
    }
}

fn write_bytes_text<W: Write>(writer: &mut W, bytes: &[u8]) -> Result<(), ShowError>
    ensures { MatchResult result (λ _. Appends (W.contents writer.old) (W.contents writer.new)
        (codes "h'" ++ (hex_text bytes.now ++ codes "'"))) IsOutputError }
{
    writer.write_all(b"h'")?;
    write_hex(writer, bytes)?;
    writer.write_all(b"'")?;
    Ok(())
}

// Writes a value that is neither a list nor a map, or the beginning of one.
fn write_head<W: Write>(alloc: Global, writer: &mut W, head: &ItemHead<'_>) -> Result<(), ShowError>
    ensures { HasCid head.now → MatchResult result (λ _. (t : List ℕ) × IsHeadText head.now t
        × Appends (W.contents writer.old) (W.contents writer.new) t) IsOutputError }
{
    match head {
        ItemHead::Null => writer.write_all(b"null")?,
        ItemHead::Bool(true) => writer.write_all(b"true")?,
        ItemHead::Bool(false) => writer.write_all(b"false")?,
        ItemHead::Integer(number) => write!(writer, "{number}")?,
        ItemHead::Float(bits) => return write_float(writer, *bits),
        ItemHead::Str(text) => return write_string(writer, text),
        ItemHead::Bytes(bytes) => return write_bytes_text(writer, bytes),
        ItemHead::Link(cid) => return write_cid_bytes(alloc, writer, cid),
        ItemHead::List(0) => writer.write_all(b"[]")?,
        ItemHead::List(_) => writer.write_all(b"[")?,
        ItemHead::Map(0) => writer.write_all(b"{}")?,
        ItemHead::Map(_) => writer.write_all(b"{")?,
    }
    Ok(())
}

// Writes the line on which a value begins, at a level.
fn write_line<W: Write>(
    alloc: Global,
    writer: &mut W,
    level: usize,
    key: Option<&str>,
    head: &ItemHead<'_>,
) -> Result<(), ShowError>
    ensures { HasCid head.now → MatchResult result (λ _. (t : List ℕ) × IsHeadText head.now t
        × Appends (W.contents writer.old) (W.contents writer.new)
        (indent level ++ (key_text (option_map (λ k. k.now) key.entry) ++ (t ++ codes "\n"))))
        IsOutputError }
{
    write_indent(writer, level)?;
    write_key_label(writer, key)?;
    write_head(alloc, writer, head)?;
    writer.write_all(b"\n")?;
    Ok(())
}

// Writes the line on which a map or a list ends.
fn write_end<W: Write>(writer: &mut W, level: usize, is_map: bool) -> Result<(), ShowError>
    ensures { MatchResult result (λ _. Appends (W.contents writer.old) (W.contents writer.new)
        (indent level ++ end_text is_map)) IsOutputError }
{
    write_indent(writer, level)?;
    if is_map {
        writer.write_all(b"}\n")?;
    } else {
        writer.write_all(b"]\n")?;
    }
    Ok(())
}

// Returns the level that a list or a map opens, if it isn't empty.
#[inline(always)]
fn opened(head: &ItemHead<'_>) -> Option<Level>
    ensures { result ≡ opens head.now }
{
    match head {
        ItemHead::List(0) | ItemHead::Map(0) => None,
        ItemHead::List(left) => Some(Level {
            is_map: false,
            left: *left,
        }),
        ItemHead::Map(left) => Some(Level {
            is_map: true,
            left: *left,
        }),
        _ => None,
    }
}

// Enters a list or a map, if it isn't empty.
fn enter(levels: &mut Vec<Level>, head: &ItemHead<'_>) -> Result<(), ShowError>
    ensures { MatchResult result (λ _. reverse levels.new.items ≡ with_level (opens head.now)
        (reverse levels.old.items)) IsOutputError }
{
    match opened(head) {
        Some(level) => {
            levels.push(level)?;
            Ok(())
        }
        None => Ok(()),
    }
}

// Ends the lists and maps with nothing to come. Returns the one that has the next value, with one
// less to come.
fn leave<W: Write>(levels: &mut Vec<Level>, writer: &mut W) -> Result<Option<Level>, ShowError>
    ensures { (bytes : List ℕ) (lines : List Line) → Open (reverse levels.old.items) bytes lines
        → MatchResult result (λ next. Leaves bytes lines levels.new.items next
        (W.contents writer.old) (W.contents writer.new)) IsOutputError }
{
    while let Some(level) = levels.pop() {
        if level.left > 0 {
            let level = Level {
                is_map: level.is_map,
                left: level.left - 1,
            };
            levels.push(level)?;
            return Ok(Some(level));
        }
        write_end(writer, levels.len(), level.is_map)?;
    }
    Ok(None)
}

// Returns the key of the next value in a list or a map, if it has one, and the bytes from the value
// on.
fn next_line_place(level: Level, bytes: &[u8]) -> Result<(Option<&str>, &[u8]), ShowError>
    ensures within { IfOk result (λ place. length place.1.now ≤ length bytes.now) }
    ensures exact { (n : ℕ) (own : List Line) (mid : List ℕ)
        → Holds level.is_map n (suc level.left) bytes.now own mid
        → MatchResult result (ComesTo n level own mid) (λ _. ⊥) }
{
    if !level.is_map {
        return Ok((None, bytes));
    }
    match read_key(bytes) {
        Ok((key, value)) => Ok((Some(key), value)),
        Err(_) => Err(unchecked_error()),
    }
}

/// Writes the tree of a value of a block that is known to be valid. It has a line for every value,
/// and for every end of a list or a map that isn't empty. `value` begins with the value, and the
/// bytes after it are not read.
///
/// Lines are indented by the level of the value. A value of a map comes after its key. Strings and
/// keys are written as in JSON, with every control character escaped. Bytes are written as
/// hexadecimal digits between `h'` and `'`, and links as the text of the CID.
///
/// It doesn't recurse. It allocates for the lists and maps that are open, and for the text of a CID
/// of version 0.
///
/// # Errors
///
/// - `Write` if the writer fails.
/// - `Memory` if an allocation fails.
/// - Possibly `Invalid` or `Cid` if the bytes are not a valid block.
pub fn write_tree<W: Write>(alloc: Global, value: &[u8], writer: &mut W) -> Result<(), ShowError>
    ensures { (d : DataItem) (behind : List ℕ) → BeginsWithItem d value.now behind
        → MatchResult result (λ _. (t : List ℕ) × IsTreeText d t × Appends (W.contents writer.old)
        (W.contents writer.new) t) IsOutputError }
{
    let mut levels = Vec::new(alloc);
    let mut rest = value;
    let mut key = None;
    loop {
        let Ok((head, after)) = read_item(rest) else {
            return Err(unchecked_error());
        };
        match write_line(alloc, writer, levels.len(), key, &head) {
            Ok(()) => {}
            Err(error) => return Err(error),
        }
        enter(&mut levels, &head)?;
        match leave(&mut levels, writer) {
            Ok(Some(level)) => match next_line_place(level, after) {
                Ok((name, place)) => {
                    key = name;
                    rest = place;
                }
                Err(error) => return Err(error),
            },
            Ok(None) => return Ok(()),
            Err(error) => return Err(error),
        }
    }
}
