//! A block read once, in a loop, part by part.

ghost use Rattle.std.specs.Prelude.{◌≡◌, true, []};
ghost use Rattle.dag_cbor_blocks.specs.Position.{frames_of, is_open};
ghost use Rattle.dag_cbor_blocks.specs.Visit.{VisitsEvents};
ghost use Rattle.dag_cbor_blocks.specs.Within.{VisitsParts, EventsWithin};
ghost use Rattle.dag_cbor_blocks.specs.BlockReading.{ReadsContent, ReadsFloat, ReadsHeaded, ReadsItem, ReadsPart};

use crate::block_error::{BlockError, BlockErrorKind};
use crate::counter::{Counter, PartKind};
use crate::link::read_link_cid;
use crate::options::ReadOptions;
use crate::position::{Next, Position};
use crate::visit::{BorrowingVisitor, Event};
use dag_cbor_format::head::read_head;
use dag_cbor_format::item_header::{FLOAT, LINK_TAG, is_finite, read_bytes, read_text};
use dag_cbor_format::{CborError, Major};
use ipld_tree::Limits;
use std::alloc::Global;

// An integer, after its head.
#[inline(always)]
fn read_unsigned<'a, const FLOATS: bool, V: BorrowingVisitor<'a>>(
    position: &mut Position<'a>,
    visitor: &mut V,
    number: u64,
) -> Result<PartKind, CborError>
    ensures { ReadsContent FLOATS V.answer (Major.Unsigned, number)
        (record { visitor = visitor.old; position = position.old })
        result (record { visitor = visitor.new; position = position.new }) }
{
    visitor.visit(&Event::Integer(i128::from(number)), position.rest.len())?;
    Ok(PartKind::Scalar)
}

// A negative integer, after its head.
#[inline(always)]
fn read_negative<'a, const FLOATS: bool, V: BorrowingVisitor<'a>>(
    position: &mut Position<'a>,
    visitor: &mut V,
    argument: u64,
) -> Result<PartKind, CborError>
    ensures { ReadsContent FLOATS V.answer (Major.Negative, argument)
        (record { visitor = visitor.old; position = position.old })
        result (record { visitor = visitor.new; position = position.new }) }
{
    visitor.visit(
        &Event::Integer(-1 - i128::from(argument)),
        position.rest.len(),
    )?;
    Ok(PartKind::Scalar)
}

// The content of a byte string, after its head.
#[inline(always)]
fn read_byte_string<'a, const FLOATS: bool, V: BorrowingVisitor<'a>>(
    position: &mut Position<'a>,
    visitor: &mut V,
    length: u64,
) -> Result<PartKind, CborError>
    ensures { ReadsContent FLOATS V.answer (Major.Bytes, length)
        (record { visitor = visitor.old; position = position.old })
        result (record { visitor = visitor.new; position = position.new }) }
{
    let (content, rest) = read_bytes(length, position.rest)?;
    position.rest = rest;
    visitor.visit(&Event::Bytes(content), position.rest.len())?;
    Ok(PartKind::Scalar)
}

// The content of a text string, after its head.
#[inline(always)]
fn read_text_string<'a, const FLOATS: bool, V: BorrowingVisitor<'a>>(
    position: &mut Position<'a>,
    visitor: &mut V,
    length: u64,
) -> Result<PartKind, CborError>
    ensures { ReadsContent FLOATS V.answer (Major.Text, length)
        (record { visitor = visitor.old; position = position.old })
        result (record { visitor = visitor.new; position = position.new }) }
{
    let (string, rest) = read_text(length, position.rest)?;
    position.rest = rest;
    visitor.visit(&Event::Str(string), position.rest.len())?;
    Ok(PartKind::Scalar)
}

// A list is open, after its head.
#[inline(always)]
fn begin_list<'a, const FLOATS: bool, V: BorrowingVisitor<'a>>(
    position: &mut Position<'a>,
    visitor: &mut V,
    items: u64,
) -> Result<PartKind, CborError>
    ensures { ReadsContent FLOATS V.answer (Major.List, items)
        (record { visitor = visitor.old; position = position.old })
        result (record { visitor = visitor.new; position = position.new }) }
{
    let hint = position.capacity_hint(items);
    visitor.visit(&Event::List(hint), position.rest.len())?;
    position.open_list(items)?;
    Ok(PartKind::Beginning)
}

// A map is open, after its head.
#[inline(always)]
fn begin_map<'a, const FLOATS: bool, V: BorrowingVisitor<'a>>(
    position: &mut Position<'a>,
    visitor: &mut V,
    pairs: u64,
) -> Result<PartKind, CborError>
    ensures { ReadsContent FLOATS V.answer (Major.Map, pairs)
        (record { visitor = visitor.old; position = position.old })
        result (record { visitor = visitor.new; position = position.new }) }
{
    visitor.visit(&Event::Map, position.rest.len())?;
    position.open_map(pairs)?;
    Ok(PartKind::Beginning)
}

// A link, after the head of its tag.
fn read_link<'a, const FLOATS: bool, V: BorrowingVisitor<'a>>(
    position: &mut Position<'a>,
    visitor: &mut V,
    tag: u64,
) -> Result<PartKind, CborError>
    ensures { ReadsContent FLOATS V.answer (Major.Tag, tag)
        (record { visitor = visitor.old; position = position.old })
        result (record { visitor = visitor.new; position = position.new }) }
{
    if tag != LINK_TAG {
        return Err(CborError::Unsupported);
    }
    position.begun = position.rest.len();
    match read_link_cid(position.rest) {
        Ok((cid, encoded, rest)) => {
            position.rest = rest;
            visitor.visit(
                &Event::Link {
                    cid,
                    encoded,
                    left: rest.len(),
                },
                position.begun,
            )?;
            Ok(PartKind::Scalar)
        }
        Err(error) => Err(error),
    }
}

// A simple value, after its head.
#[inline(always)]
fn read_simple<'a, const FLOATS: bool, V: BorrowingVisitor<'a>>(
    position: &mut Position<'a>,
    visitor: &mut V,
    value: u64,
) -> Result<PartKind, CborError>
    ensures { ReadsContent FLOATS V.answer (Major.Simple, value)
        (record { visitor = visitor.old; position = position.old })
        result (record { visitor = visitor.new; position = position.new }) }
{
    match value {
        20 => visitor.visit(&Event::Bool(false), position.rest.len())?,
        21 => visitor.visit(&Event::Bool(true), position.rest.len())?,
        22 => visitor.visit(&Event::Null, position.rest.len())?,
        _ => return Err(CborError::Unsupported),
    }
    Ok(PartKind::Scalar)
}

// Reads the content after the head of an item. A list or a map is only opened.
#[inline(always)]
fn read_content<'a, const FLOATS: bool, V: BorrowingVisitor<'a>>(
    position: &mut Position<'a>,
    visitor: &mut V,
    major: Major,
    argument: u64,
) -> Result<PartKind, CborError>
    ensures { ReadsContent FLOATS V.answer (major, argument)
        (record { visitor = visitor.old; position = position.old })
        result (record { visitor = visitor.new; position = position.new }) }
{
    match major {
        Major::Unsigned => read_unsigned::<FLOATS, V>(position, visitor, argument),
        Major::Negative => read_negative::<FLOATS, V>(position, visitor, argument),
        Major::Bytes => read_byte_string::<FLOATS, V>(position, visitor, argument),
        Major::Text => read_text_string::<FLOATS, V>(position, visitor, argument),
        Major::List => begin_list::<FLOATS, V>(position, visitor, argument),
        Major::Map => begin_map::<FLOATS, V>(position, visitor, argument),
        Major::Tag => read_link::<FLOATS, V>(position, visitor, argument),
        Major::Simple => read_simple::<FLOATS, V>(position, visitor, argument),
    }
}

// Reads a float as null, after the byte that is its head.
fn read_float<'a, const FLOATS: bool, V: BorrowingVisitor<'a>>(
    position: &mut Position<'a>,
    visitor: &mut V,
) -> Result<PartKind, CborError>
    ensures { ReadsFloat FLOATS V.answer (record { visitor = visitor.old; position = position.old })
        result (record { visitor = visitor.new; position = position.new }) }
{
    let (content, rest) = read_bytes(8, position.rest)?;
    if !is_finite(content) {
        return Err(CborError::Float);
    }
    position.rest = rest;
    visitor.visit(&Event::Null, position.rest.len())?;
    Ok(PartKind::Scalar)
}

// Reads an item that is not a float. A list or a map is only opened.
#[inline(always)]
fn read_item_without_floats<'a, const FLOATS: bool, V: BorrowingVisitor<'a>>(
    position: &mut Position<'a>,
    visitor: &mut V,
) -> Result<PartKind, CborError>
    ensures { ReadsHeaded FLOATS V.answer
        (record { visitor = visitor.old; position = position.old })
        result (record { visitor = visitor.new; position = position.new }) }
{
    position.begun = position.rest.len();
    let (major, argument, rest) = read_head(position.rest)?;
    position.rest = rest;
    read_content::<FLOATS, V>(position, visitor, major, argument)
}

// Reads an item. A list or a map is only opened.
#[inline(always)]
fn read_item<'a, const FLOATS: bool, V: BorrowingVisitor<'a>>(
    position: &mut Position<'a>,
    visitor: &mut V,
) -> Result<PartKind, CborError>
    ensures { ReadsItem FLOATS V.answer (record { visitor = visitor.old; position = position.old })
        result (record { visitor = visitor.new; position = position.new }) }
{
    if FLOATS {
        if let [FLOAT, rest @ ..] = position.rest {
            position.begun = position.rest.len();
            position.rest = rest;
            return read_float::<FLOATS, V>(position, visitor);
        }
    }
    read_item_without_floats::<FLOATS, V>(position, visitor)
}

// Reads the next part of the innermost list or map.
#[inline(always)]
fn read_part<'a, const FLOATS: bool, V: BorrowingVisitor<'a>>(
    position: &mut Position<'a>,
    visitor: &mut V,
) -> Result<PartKind, CborError>
    requires { is_open position.old ≡ true }
    ensures { ReadsPart FLOATS V.answer (record { visitor = visitor.old; position = position.old })
        result (record { visitor = visitor.new; position = position.new }) }
{
    match position.advance()? {
        Next::Item => read_item::<FLOATS, V>(position, visitor),
        Next::Value(key) => {
            visitor.visit(&Event::Key(key), position.rest.len())?;
            read_item::<FLOATS, V>(position, visitor)
        }
        Next::EndOfList => {
            visitor.visit(&Event::EndOfList, position.rest.len())?;
            Ok(PartKind::End)
        }
        Next::EndOfMap => {
            visitor.visit(&Event::EndOfMap, position.rest.len())?;
            Ok(PartKind::End)
        }
        Next::Outside => Ok(PartKind::Nothing),
    }
}

/// Reads a whole block, with floats or without, and passes every part of it to the visitor. For
/// untrusted input use [`read_events_within`].
///
/// It reads the bytes once, in a loop. It allocates for the lists and maps that are open and for
/// the keys of open maps.
///
/// # Errors
///
/// `Memory` if an allocation fails, including one of the visitor. Otherwise the first error of the
/// bytes. The visitor has then taken some parts.
pub fn read_events<'a, const FLOATS: bool, V: BorrowingVisitor<'a>>(
    alloc: Global,
    bytes: &'a [u8],
    visitor: &mut V,
) -> Result<(), CborError>
    ensures { VisitsEvents FLOATS V.answer visitor.old bytes.entry.now result visitor.new }
{
    let mut position = Position::new(alloc, bytes);
    read_item::<FLOATS, V>(&mut position, visitor)?;
    while position.is_open() {
        read_part::<FLOATS, V>(&mut position, visitor)?;
    }
    if !position.rest.is_empty() {
        return Err(CborError::TrailingBytes);
    }
    Ok(())
}

// Reads a whole block from its start, as long as its parts are within the limits.
fn read_parts<'a, const FLOATS: bool, V: BorrowingVisitor<'a>>(
    position: &mut Position<'a>,
    limits: Limits,
    visitor: &mut V,
) -> Result<(), BlockErrorKind>
    requires { frames_of position.old ≡ [] }
    ensures { VisitsParts (record { limits = limits; floats = FLOATS }) V.answer
        visitor.old position.old.rest.now result visitor.new position.new.begun }
{
    let mut counter = Counter::new(limits);
    let part = read_item::<FLOATS, V>(position, visitor)?;
    counter.count(part)?;
    while position.is_open() {
        let part = read_part::<FLOATS, V>(position, visitor)?;
        counter.count(part)?;
    }
    if position.rest.is_empty() {
        return Ok(());
    }
    position.begun = position.rest.len();
    Err(BlockErrorKind::Cbor(CborError::TrailingBytes))
}

/// Reads a whole block as [`read_events`] does, as long as it is within the limits.
///
/// # Errors
///
/// Those of [`check_block`](crate::check_block), also if an allocation of the visitor fails. The
/// visitor has then taken some parts.
#[inline(never)]
pub fn read_events_within<'a, const FLOATS: bool, V: BorrowingVisitor<'a>>(
    alloc: Global,
    bytes: &'a [u8],
    limits: Limits,
    visitor: &mut V,
) -> Result<(), BlockError>
    ensures { EventsWithin (record { limits = limits; floats = FLOATS }) V.answer
        visitor.old bytes.entry.now result visitor.new }
{
    let mut position = Position::new(alloc, bytes);
    match read_parts::<FLOATS, V>(&mut position, limits, visitor) {
        Ok(()) => Ok(()),
        Err(kind) => Err(BlockError {
            kind,
            offset: bytes.len().saturating_sub(position.begun),
        }),
    }
}

// Reads a whole block within the limits of the options, with floats if the options have them.
#[inline(always)]
pub(crate) fn read_events_as<'a, V: BorrowingVisitor<'a>>(
    alloc: Global,
    bytes: &'a [u8],
    options: &ReadOptions,
    visitor: &mut V,
) -> Result<(), BlockError>
    ensures { EventsWithin options.now V.answer visitor.old bytes.entry.now result visitor.new }
{
    if options.floats {
        read_events_within::<true, V>(alloc, bytes, options.limits, visitor)
    } else {
        read_events_within::<false, V>(alloc, bytes, options.limits, visitor)
    }
}
