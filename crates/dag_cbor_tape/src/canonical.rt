//! The rewriting of a block as the canonical one.

ghost use Rattle.std.specs.Prelude.{◌≡◌, ℕ, [], ◌⊎◌, ◌∷◌, ◌++◌, List, IfOk, IfErr, OnOk, map, MatchResult};
ghost use Rattle.std.specs.List.Sorted.{IsPermutation};
ghost use Rattle.dag_cbor_blocks.specs.Tape.{IsTapeOf};
ghost use Rattle.ipld_tokens.specs.Item.{Item};
ghost use Rattle.dag_cbor_tape.specs.Canonical.{AreInOrder, IsCanonicalOf, Orders};
ghost use Rattle.dag_cbor_tape.specs.Describes.{AreNarrow, Describes};
ghost use Rattle.dag_cbor_tape.specs.Canonicalizing.{Canonicalizes, Pair as PairModel, Splits, pairs_now, to_do, Enters, NoPairs, Steps, NoStep};
ghost use Rattle.dag_cbor_tape.specs.Memory.{IsMemory};

use crate::entry::{EntryKind, content_of, kind_of, write_entry};
use crate::error::EncodeErrorKind;
use crate::structure::{inner_count, skip_value};
use dag_cbor_blocks::tape::{TapeEntry, TapeError, read_tape};
use dag_cbor_blocks::{BlockError, BlockErrorKind};
use dag_cbor_format::CborError;
use ipld_tree::Limits;
use std::alloc::{AllocError, Global};

// The bytes of a key, and the entries of its pair.
type Pair<'a> = (&'a [u8], &'a [TapeEntry]);

// Returns the pairs of a map, from the entries after its own.
fn pairs_of<'a>(
    alloc: Global,
    block: &'a [u8],
    entries: &'a [TapeEntry],
) -> Result<Vec<Pair<'a>>, EncodeErrorKind>
    ensures ok { IfOk result (λ pairs. Splits block.entry.now entries.entry.now
        (pairs_now pairs.items)) }
    ensures err { IfErr result (λ error. IsMemory error ⊎ ((ps : List PairModel)
        → Splits block.entry.now entries.entry.now ps → ⊥)) }
{
    let mut pairs = Vec::new(alloc);
    let mut rest = entries;
    while let Some((first, values)) = rest.split_first() {
        let Some(key) = content_of(block, *first) else {
            return Err(EncodeErrorKind::Content);
        };
        match skip_value(values) {
            Ok(behind) => match pairs.push((key, &rest[..rest.len() - behind.len()])) {
                Ok(()) => rest = behind,
                Err(_) => return Err(EncodeErrorKind::Memory),
            },
            Err(fault) => return Err(fault.kind),
        }
    }
    Ok(pairs)
}

// Puts pairs before the entries that are still to be written, the first pair first.
fn push_pairs<'a>(
    mut pairs: Vec<Pair<'a>>,
    todo: &mut Vec<&'a [TapeEntry]>,
) -> Result<(), AllocError>
    ensures { OnOk result (to_do todo.new.items ≡ map (λ p. p.1) (pairs_now pairs.entry.items)
        ++ to_do todo.old.items) }
{
    while let Some((_, entries)) = pairs.pop() {
        todo.push(entries)?;
    }
    Ok(())
}

// Enters a map: its pairs are written in order, and then the entries after the map.
#[inline(never)]
fn enter_map<'a>(
    alloc: Global,
    block: &'a [u8],
    entry: TapeEntry,
    following: &'a [TapeEntry],
    todo: &mut Vec<&'a [TapeEntry]>,
) -> Result<(), EncodeErrorKind>
    ensures ok { OnOk result (Enters block.entry.now entry following.entry.now
        (to_do todo.old.items) (to_do todo.new.items)) }
    ensures err { IfErr result (λ error. IsMemory error
        ⊎ NoPairs block.entry.now entry following.entry.now) }
{
    let Some(count) = inner_count(entry, following.len()) else {
        return Err(EncodeErrorKind::Span);
    };
    let mut pairs = pairs_of(alloc, block, &following[..count])?;
    pairs.sort_unstable_by_key(|pair| (pair.0.len(), pair.0));
    match todo.push(&following[count..]) {
        Ok(()) => match push_pairs(pairs, todo) {
            Ok(()) => Ok(()),
            Err(_) => Err(EncodeErrorKind::Memory),
        },
        Err(_) => Err(EncodeErrorKind::Memory),
    }
}

// Writes an entry, and puts the entries that come next before those that are still to be written.
#[inline(always)]
fn write_next<'a>(
    alloc: Global,
    out: &mut Vec<u8>,
    block: &'a [u8],
    entry: TapeEntry,
    following: &'a [TapeEntry],
    todo: &mut Vec<&'a [TapeEntry]>,
) -> Result<(), EncodeErrorKind>
    ensures ok { OnOk result (Steps block.entry.now entry following.entry.now out.old.items
        out.new.items (to_do todo.old.items) (to_do todo.new.items)) }
    ensures err { IfErr result (λ error. NoStep block.entry.now entry following.entry.now error) }
{
    let Some(kind) = kind_of(entry.kind) else {
        return Err(EncodeErrorKind::Kind);
    };
    write_entry::<true>(out, block, kind, entry)?;
    match kind {
        EntryKind::Map => enter_map(alloc, block, entry, following, todo),
        _ => match todo.push(following) {
            Ok(()) => Ok(()),
            Err(_) => Err(EncodeErrorKind::Memory),
        },
    }
}

// Writes the canonical block of the item that these entries describe to an empty vector.
pub(crate) fn write_ordered(
    alloc: Global,
    mut out: Vec<u8>,
    block: &[u8],
    entries: &[TapeEntry],
) -> Result<Vec<u8>, EncodeErrorKind>
    requires { out.items ≡ [] }
    ensures of_block { IsTapeOf entries.now block.now
        → MatchResult result (λ out. IsCanonicalOf block.now out.items) IsMemory }
    ensures of_tape { (item : Item 64) (written : List ℕ) → AreNarrow entries.now
        → Describes block.now item entries.now written
        → MatchResult result (λ out. Orders item written out.items) IsMemory }
{
    let mut todo = Vec::new(alloc);
    if todo.push(entries).is_err() {
        return Err(EncodeErrorKind::Memory);
    }
    while let Some(rest) = todo.pop() {
        if let Some((entry, following)) = rest.split_first() {
            write_next(alloc, &mut out, block, *entry, following, &mut todo)?;
        }
    }
    Ok(out)
}

/// Rewrites a block, which may have floats, in its canonical form. The pairs of every map are in
/// length-first order of their keys, and everything else is unchanged. It is for untrusted input.
///
/// It reads the bytes as [`read_tape`] does, and makes no tree. It allocates the block's tape, the
/// canonical block, which is as long as the block, and about 32 bytes for every pair of a map.
///
/// # Errors
///
/// Those of [`read_tape`].
pub fn canonicalize(alloc: Global, bytes: &[u8], limits: &Limits) -> Result<Vec<u8>, TapeError>
    ensures { Canonicalizes limits.now bytes.now (λ block. block.items) result }
{
    let entries = read_tape(alloc, bytes, limits)?;
    if let Ok(out) = Vec::with_capacity(alloc, bytes.len()) {
        if let Ok(block) = write_ordered(alloc, out, bytes, &entries) {
            return Ok(block);
        }
    }
    Err(TapeError::Block(BlockError {
        kind: BlockErrorKind::Cbor(CborError::Memory),
        offset: 0,
    }))
}
