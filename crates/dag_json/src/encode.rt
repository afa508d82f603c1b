//! The encoding of a tree as DAG-JSON.

ghost use Rattle.std.specs.Prelude.{◌≡◌, ◌⊎◌, [], ◌∷◌, ◌++◌, true, false, Some, None, OnOk, IfOk, IfErr};
ghost use Rattle.std.specs.Str.{IsUtf8};
ghost use Rattle.std.specs.String.{string_bytes};
ghost use Rattle.ipld_tree.specs.Tree as tree;
ghost use Rattle.ipld_tree.specs.TreeOf.{tree_of, items_of, members_of};
ghost use Rattle.ipld_tree.specs.Walk.{preorder};
ghost use Rattle.json.specs.Tree.{json_tokens};
ghost use Rattle.dag_json.specs.Written.{written, IsReserved};
ghost use Rattle.dag_json.specs.Reserved.{has_reserved, any_reserved, first_reserved, Counts};
ghost use Rattle.dag_json.specs.Form.{json_of, text_of, Wrote};
ghost use Rattle.dag_json.specs.Cursors.{Advances, Opens, StepOf, trees_left};

use crate::error::DagJsonError;
use crate::parts::{write_bytes, write_integer, write_link};
use crate::reserved::{find_reserved, is_reserved};
use ipld_tree::Ipld;
use json::Writer;
use std::alloc::{AllocError, Global};
use std::collections::{BTreeMap, btree_map};
use std::{mem, slice};

// The initial capacity of the vector for a text, in bytes.
const RESERVED: usize = 128;

// Why a value is not written. The index of the reserved map is not known here.
#[derive(Clone, Copy, Debug, PartialEq, Eq)]
enum Stop {
    Memory,
    Reserved,
}

impl From<AllocError> for Stop {
    ghost use Rattle.std.specs.Prelude.{◌≡◌};
    ghost use Rattle.dag_json.specs.declared.encode.Stop.TheVariants.{Memory};

    ghost from_gives = { λ _ error. error ≡ Memory };

    fn from(_error: AllocError) -> Self {
        Stop::Memory
    }
}

// The rest of an open list or map that is to be written, or the tree itself.
#[derive(Drop)]
enum JsonCursor<'a> {
    Itself(Option<&'a Ipld>),
    Items(slice::Iter<'a, Ipld>),
    Entries(btree_map::Iter<'a, String, Ipld>),
}

// Returns the next value of a cursor, with its key written, or writes the end of the list or map.
#[inline(always)]
fn advance<'a>(
    cursor: &mut JsonCursor<'a>,
    writer: &mut Writer,
) -> Result<Option<&'a Ipld>, AllocError>
    ensures { IfOk result (λ next. Advances cursor.old writer.old next cursor.new writer.new) }
{
    match cursor {
        JsonCursor::Itself(value) => Ok(value.take()),
        JsonCursor::Items(items) => {
            let Some(value) = items.next() else {
                writer.end_array()?;
                return Ok(None);
            };
            Ok(Some(value))
        }
        JsonCursor::Entries(entries) => {
            let Some((key, value)) = entries.next() else {
                writer.end_object()?;
                return Ok(None);
            };
            writer.key(key)?;
            Ok(Some(value))
        }
    }
}

// Continues in a list or a map.
#[inline(always)]
fn enter<'a>(
    inner: JsonCursor<'a>,
    innermost: &mut JsonCursor<'a>,
    outer: &mut Vec<JsonCursor<'a>>,
) -> Result<(), AllocError>
    ensures { OnOk result ((innermost.new ≡ inner.entry)
        × (outer.new.items ≡ outer.old.items ++ innermost.old ∷ [])) }
{
    outer.push(mem::replace(innermost, inner))?;
    Ok(())
}

// Begins a list, and continues in it.
#[inline(never)]
fn enter_list<'a>(
    writer: &mut Writer,
    items: &'a [Ipld],
    innermost: &mut JsonCursor<'a>,
    outer: &mut Vec<JsonCursor<'a>>,
) -> Result<(), AllocError>
    ensures { OnOk result (Opens (tree.list (items_of items.now)) innermost.old outer.old.items
        writer.old innermost.new outer.new.items writer.new) }
{
    writer.begin_array()?;
    enter(JsonCursor::Items(items.iter()), innermost, outer)?;
    Ok(())
}

// Begins a map, and continues in it.
#[inline(never)]
fn enter_map<'a>(
    writer: &mut Writer,
    members: &'a BTreeMap<String, Ipld>,
    innermost: &mut JsonCursor<'a>,
    outer: &mut Vec<JsonCursor<'a>>,
) -> Result<(), Stop>
    ensures ok { OnOk result (Opens (tree.entries (members_of members.now.entries)) innermost.old
        outer.old.items writer.old innermost.new outer.new.items writer.new) }
    ensures err { IfErr result (λ stop. (stop ≡ Stop.Memory)
        ⊎ ((stop ≡ Stop.Reserved) × (has_reserved (tree.entries (members_of members.now.entries))
        ≡ true))) }
{
    if is_reserved(members) {
        return Err(Stop::Reserved);
    }
    writer.begin_object()?;
    enter(JsonCursor::Entries(members.iter()), innermost, outer)?;
    Ok(())
}

// Writes a value. For a list or a map, it writes the beginning and continues in it.
#[inline(always)]
fn write_value<'a>(
    alloc: Global,
    writer: &mut Writer,
    value: &'a Ipld,
    innermost: &mut JsonCursor<'a>,
    outer: &mut Vec<JsonCursor<'a>>,
) -> Result<(), Stop>
    ensures ok { OnOk result (Opens (tree_of value.now) innermost.old outer.old.items writer.old
        innermost.new outer.new.items writer.new) }
    ensures err { IfErr result (λ stop. (stop ≡ Stop.Memory)
        ⊎ ((stop ≡ Stop.Reserved) × (has_reserved (tree_of value.now) ≡ true))) }
{
    match value {
        Ipld::Null => writer.null()?,
        Ipld::Bool(value) => writer.boolean(*value)?,
        Ipld::Integer(number) => write_integer(writer, *number)?,
        Ipld::String(text) => writer.string(text)?,
        Ipld::Bytes(bytes) => write_bytes(alloc, writer, bytes)?,
        Ipld::Link(cid) => write_link(alloc, writer, cid)?,
        Ipld::List(items) => enter_list(writer, items, innermost, outer)?,
        Ipld::Map(members) => enter_map(writer, members, innermost, outer)?,
    }
    Ok(())
}

// Writes the next value, or leaves a list or a map at its end. Returns false if nothing is left.
#[inline(always)]
fn write_next<'a>(
    alloc: Global,
    writer: &mut Writer,
    innermost: &mut JsonCursor<'a>,
    outer: &mut Vec<JsonCursor<'a>>,
) -> Result<bool, Stop>
    ensures ok { IfOk result (λ more. StepOf more innermost.old outer.old.items writer.old
        innermost.new outer.new.items writer.new) }
    ensures err { IfErr result (λ stop. (stop ≡ Stop.Memory)
        ⊎ ((stop ≡ Stop.Reserved) × (any_reserved (trees_left innermost.old outer.old.items)
        ≡ true))) }
{
    let Some(value) = advance(innermost, writer)? else {
        let Some(cursor) = outer.pop() else {
            return Ok(false);
        };
        *innermost = cursor;
        return Ok(true);
    };
    write_value(alloc, writer, value, innermost, outer)?;
    Ok(true)
}

// Writes a tree.
fn write_tree(alloc: Global, writer: &mut Writer, value: &Ipld) -> Result<(), Stop>
    ensures ok { OnOk result (Wrote writer.old writer.new
        (json_tokens (json_of (tree_of value.now)))) }
    ensures allowed { OnOk result (has_reserved (tree_of value.now) ≡ false) }
    ensures err { IfErr result (λ stop. (stop ≡ Stop.Memory)
        ⊎ ((stop ≡ Stop.Reserved) × (has_reserved (tree_of value.now) ≡ true))) }
{
    let mut innermost = JsonCursor::Itself(Some(value));
    let mut outer = Vec::new(alloc);
    while write_next(alloc, writer, &mut innermost, &mut outer)? {}
    Ok(())
}

// Appends the text of a tree to a vector.
fn write_after(alloc: Global, out: Vec<u8>, value: &Ipld) -> Result<Vec<u8>, Stop>
    ensures ok { IfOk result (λ text. text.items ≡ out.items ++ text_of (tree_of value.now)) }
    ensures utf8 { OnOk result (IsUtf8 (text_of (tree_of value.now))) }
    ensures allowed { OnOk result (has_reserved (tree_of value.now) ≡ false) }
    ensures err { IfErr result (λ stop. (stop ≡ Stop.Memory)
        ⊎ ((stop ≡ Stop.Reserved) × (has_reserved (tree_of value.now) ≡ true))) }
{
    let mut writer = Writer::new(out);
    write_tree(alloc, &mut writer, value)?;
    Ok(writer.into_inner())
}

// Returns the error of a tree with a reserved map.
#[cold]
fn reserved_error(alloc: Global, value: &Ipld) -> DagJsonError
    requires { has_reserved (tree_of value.now) ≡ true }
    ensures { (result ≡ DagJsonError.Memory) ⊎ IsReserved (tree_of value.now) result }
{
    match find_reserved(alloc, value) {
        Ok(Some(place)) => DagJsonError::Reserved(place),
        Ok(None) => unreachable!(),
        Err(_) => DagJsonError::Memory,
    }
}

/// Encodes a tree in DAG-JSON, in the strict form.
///
/// It doesn't recurse. Besides the text, it allocates a slot for every open list or map, and the
/// text of a link or of bytes while that is written. Integers are written exactly, all 128 bits of
/// them.
///
/// # Errors
///
/// - `Reserved` if a map would be read as a link or as bytes. It has the index of the first such
///   map in the tree. To find it, the tree is walked once more, as [`Ipld::iter`] does.
/// - `Memory` if an allocation fails.
pub fn to_vec(alloc: Global, value: &Ipld) -> Result<Vec<u8>, DagJsonError>
    ensures ok { IfOk result (λ text. written (tree_of value.now) ≡ Some text.items) }
    ensures utf8 { IfOk result (λ text. IsUtf8 text.items) }
    ensures err { IfErr result (λ error. (error ≡ DagJsonError.Memory)
        ⊎ ((written (tree_of value.now) ≡ None) × IsReserved (tree_of value.now) error)) }
{
    let out = Vec::with_capacity(alloc, RESERVED)?;
    match write_after(alloc, out, value) {
        Ok(text) => Ok(text),
        Err(Stop::Memory) => Err(DagJsonError::Memory),
        Err(Stop::Reserved) => Err(reserved_error(alloc, value)),
    }
}

/// Encodes a tree in DAG-JSON, and returns a string of the bytes that [`to_vec`] returns.
///
/// # Errors
///
/// Those of [`to_vec`].
pub fn to_string(alloc: Global, value: &Ipld) -> Result<String, DagJsonError>
    ensures ok { IfOk result (λ text. written (tree_of value.now) ≡ Some (string_bytes text)) }
    ensures err { IfErr result (λ error. (error ≡ DagJsonError.Memory)
        ⊎ ((written (tree_of value.now) ≡ None) × IsReserved (tree_of value.now) error)) }
{
    let text = to_vec(alloc, value)?;
    let Ok(text) = String::from_utf8(text) else {
        unreachable!()
    };
    Ok(text)
}
