//! A block that nests at most [`SHALLOW`] levels, passed to a visitor by recursion.
//!
//! This is the fast way, but it does not report the error of a block. If it does not reach the end
//! of a block, the loop of [`block`](crate::block) reads the block. It does not keep the keys of
//! maps. If every key of a map comes after the one before it, the keys differ. A map with other
//! keys is left to the loop.

ghost use Rattle.std.specs.Prelude.{◌≤◌, ℕ, None, IfOk};
ghost use Rattle.dag_cbor_format.specs.Trace.{halted, trace_of};
ghost use Rattle.dag_cbor_blocks.specs.ShallowVisit.{TakesUntil, VisitsItem, VisitsContent};
ghost use Rattle.dag_cbor_blocks.specs.Within.{TakesWhole};

use crate::keys::comes_after;
use crate::link::read_link_cid;
use crate::options::ReadOptions;
use crate::visit::{Event, Visitor};
use dag_cbor_format::head::read_head;
use dag_cbor_format::item_header::{
    FLOAT, LINK_TAG, is_finite, read_bytes, read_key_text, read_text,
};
use dag_cbor_format::{CborError, Major};
use std::alloc::{AllocError, AllocFailed};

/// The maximum number of levels of lists and maps in a block that is read by recursion.
pub const SHALLOW: usize = 32;

/// The reason why a block was not read by recursion.
#[derive(Clone, Copy)]
pub enum Stop {
    /// An allocation failed.
    Memory,
    /// The bytes have an error, nest too deep, or are left to another way of reading.
    Unread,
}

impl From<AllocError> for Stop {
    fn from(_error: AllocError) -> Self {
        Stop::Memory
    }
}

impl<T: Drop> From<AllocFailed<T>> for Stop {
    fn from(_error: AllocFailed<T>) -> Self {
        Stop::Memory
    }
}

impl From<CborError> for Stop {
    fn from(_error: CborError) -> Self {
        Stop::Unread
    }
}

// Each of these functions passes a value, with all values in it, to the visitor. It returns the
// bytes after the value.

// A float, if floats are read and the bytes begin with one.
#[inline(always)]
fn visit_float<'a, const FLOATS: bool, V: Visitor>(
    visitor: &mut V,
    bytes: &'a [u8],
) -> Result<&'a [u8], Stop>
    ensures { (levels : ℕ) → IfOk result (λ rest.
        VisitsItem FLOATS V.answer levels visitor.old visitor.new bytes.entry.now rest.now) }
{
    if FLOATS {
        if let [FLOAT, rest @ ..] = bytes {
            let (content, rest) = read_bytes(8, rest)?;
            if !is_finite(content) {
                return Err(Stop::Unread);
            }
            visitor.visit(&Event::Null, rest.len())?;
            return Ok(rest);
        }
    }
    Err(Stop::Unread)
}

// A link, after the head of its tag.
#[inline(never)]
fn visit_link<'a, const FLOATS: bool, V: Visitor>(
    visitor: &mut V,
    tag: u64,
    bytes: &'a [u8],
) -> Result<&'a [u8], Stop>
    ensures { (levels : ℕ) → IfOk result (λ rest.
        VisitsContent FLOATS V.answer levels Major.Tag tag visitor.old visitor.new bytes.entry.now
        rest.now) }
{
    if tag != LINK_TAG {
        return Err(Stop::Unread);
    }
    let Ok((cid, encoded, rest)) = read_link_cid(bytes) else {
        return Err(Stop::Unread);
    };
    visitor.visit(
        &Event::Link {
            cid,
            encoded,
            left: rest.len(),
        },
        bytes.len(),
    )?;
    Ok(rest)
}

// A simple value, after its head.
#[inline(always)]
fn visit_simple<'a, const FLOATS: bool, V: Visitor>(
    visitor: &mut V,
    value: u64,
    bytes: &'a [u8],
) -> Result<&'a [u8], Stop>
    ensures { (levels : ℕ) → IfOk result (λ rest.
        VisitsContent FLOATS V.answer levels Major.Simple value visitor.old visitor.new
        bytes.entry.now rest.now) }
{
    match value {
        20 => {
            visitor.visit(&Event::Bool(false), bytes.len())?;
            Ok(bytes)
        }
        21 => {
            visitor.visit(&Event::Bool(true), bytes.len())?;
            Ok(bytes)
        }
        22 => {
            visitor.visit(&Event::Null, bytes.len())?;
            Ok(bytes)
        }
        _ => Err(Stop::Unread),
    }
}

// A list of `count` items, after its head.
#[cycle(visiting)]
#[inline(never)]
fn visit_list<'a, const FLOATS: bool, V: Visitor>(
    visitor: &mut V,
    count: u64,
    bytes: &'a [u8],
    levels: usize,
) -> Result<&'a [u8], Stop>
    requires { levels ≤ 32 }
    ensures { IfOk result (λ rest. VisitsContent FLOATS V.answer levels Major.List count visitor.old
        visitor.new bytes.entry.now rest.now) }
{
    let Some(inner) = levels.checked_sub(1) else {
        return Err(Stop::Unread);
    };
    visitor.visit(&Event::List(None), bytes.len())?;
    let mut rest = bytes;
    let mut left = count;
    while left > 0 {
        left -= 1;
        let after = visit_item::<FLOATS, V>(visitor, rest, inner)?;
        rest = after;
    }
    visitor.visit(&Event::EndOfList, rest.len())?;
    Ok(rest)
}

// A map of `count` pairs, after its head.
#[cycle(visiting)]
#[inline(never)]
fn visit_map<'a, const FLOATS: bool, V: Visitor>(
    visitor: &mut V,
    count: u64,
    bytes: &'a [u8],
    levels: usize,
) -> Result<&'a [u8], Stop>
    requires { levels ≤ 32 }
    ensures { IfOk result (λ rest. VisitsContent FLOATS V.answer levels Major.Map count visitor.old
        visitor.new bytes.entry.now rest.now) }
{
    let Some(inner) = levels.checked_sub(1) else {
        return Err(Stop::Unread);
    };
    visitor.visit(&Event::Map, bytes.len())?;
    let mut last = "";
    let mut rest = bytes;
    let mut left = count;
    while left > 0 {
        left -= 1;
        let (key, behind) = read_key_text(rest)?;
        if !comes_after(key, last) {
            return Err(Stop::Unread);
        }
        visitor.visit(&Event::Key(key), behind.len())?;
        let after = visit_item::<FLOATS, V>(visitor, behind, inner)?;
        rest = after;
        last = key;
    }
    visitor.visit(&Event::EndOfMap, rest.len())?;
    Ok(rest)
}

// The value at the front of the bytes.
#[cycle(visiting)]
#[inline(always)]
fn visit_item<'a, const FLOATS: bool, V: Visitor>(
    visitor: &mut V,
    bytes: &'a [u8],
    levels: usize,
) -> Result<&'a [u8], Stop>
    requires { levels ≤ 32 }
    ensures { IfOk result (λ rest. VisitsItem FLOATS V.answer levels visitor.old visitor.new
        bytes.entry.now rest.now) }
{
    let Ok((major, argument, rest)) = read_head(bytes) else {
        return visit_float::<FLOATS, V>(visitor, bytes);
    };
    match major {
        Major::Unsigned => {
            visitor.visit(&Event::Integer(i128::from(argument)), rest.len())?;
            Ok(rest)
        }
        Major::Negative => {
            visitor.visit(&Event::Integer(-1 - i128::from(argument)), rest.len())?;
            Ok(rest)
        }
        Major::Bytes => {
            let (content, rest) = read_bytes(argument, rest)?;
            visitor.visit(&Event::Bytes(content), rest.len())?;
            Ok(rest)
        }
        Major::Text => {
            let (string, rest) = read_text(argument, rest)?;
            visitor.visit(&Event::Str(string), rest.len())?;
            Ok(rest)
        }
        Major::List => visit_list::<FLOATS, V>(visitor, argument, rest, levels),
        Major::Map => visit_map::<FLOATS, V>(visitor, argument, rest, levels),
        Major::Tag => visit_link::<FLOATS, V>(visitor, argument, rest),
        Major::Simple => visit_simple::<FLOATS, V>(visitor, argument, rest),
    }
}

// A whole block, at most `levels` levels deep.
#[inline(never)]
fn visit_levels<const FLOATS: bool, V: Visitor>(
    visitor: &mut V,
    bytes: &[u8],
    levels: usize,
) -> Result<(), Stop>
    requires { levels ≤ 32 }
    ensures { IfOk result (λ _. TakesUntil V.answer levels visitor.old visitor.new
        (trace_of FLOATS bytes.now) (halted None 0)) }
{
    let rest = visit_item::<FLOATS, V>(visitor, bytes, levels)?;
    if rest.is_empty() {
        Ok(())
    } else {
        Err(Stop::Unread)
    }
}

// A whole block within the limits. A block that has no more bytes than values are allowed cannot
// have too many values.
#[inline(always)]
pub(crate) fn visit_shallow<V: Visitor>(
    bytes: &[u8],
    options: &ReadOptions,
    visitor: &mut V,
) -> Result<(), Stop>
    ensures { IfOk result (λ _. TakesWhole options.now.floats V.answer visitor.old
        options.now.limits bytes.now visitor.new) }
{
    if bytes.len() > options.limits.values {
        return Err(Stop::Unread);
    }
    let levels = options.limits.levels.min(SHALLOW);
    if options.floats {
        visit_levels::<true, V>(visitor, bytes, levels)
    } else {
        visit_levels::<false, V>(visitor, bytes, levels)
    }
}
