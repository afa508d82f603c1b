//! The encoding of a tape as a block.

ghost use Rattle.std.specs.Prelude.{◌≡◌, ◌⊎◌, ◌<◌, ◌^◌, ℕ, List, [], suc, length, IfOk, IfErr, Ok, Err, MatchResult};
ghost use Rattle.ipld_tokens.specs.Item.{Item};
ghost use Rattle.dag_cbor_tape.specs.Canonical.{Orders};
ghost use Rattle.dag_cbor_tape.specs.Describes.{Describes};
ghost use Rattle.dag_cbor_tape.specs.Encoding.{AddsEntry, block_of};
ghost use Rattle.dag_cbor_tape.specs.Memory.{IsOutOfMemory};

use crate::canonical::write_ordered;
use crate::entry::{kind_of, write_entry};
use crate::error::{EncodeError, EncodeErrorKind, Fault};
use crate::structure::{check_spans, check_values};
use dag_cbor_blocks::tape::TapeEntry;
use std::alloc::Global;

// The number of bytes of capacity that are reserved for the head of each entry. Most heads take one
// or two bytes, and those of numbers take up to nine.
const HEAD_SIZE: usize = 4;

// Writes the encoding of an entry, and returns whether its pairs are in length-first order. `left`
// is the number of entries from this one to the end, and `following` are the entries after it.
#[tactic(auto, unfolding(crate::specs::Encoding::encoded))]
fn write_next(
    alloc: Global,
    out: &mut Vec<u8>,
    contents: &[u8],
    left: usize,
    entry: TapeEntry,
    following: &[TapeEntry],
) -> Result<bool, Fault>
    requires { left ≡ suc (length following.now) }
    ensures added { AddsEntry contents.now entry following.now out.old.items result out.new.items }
    ensures narrow { (entry.len < 2 ^ 32) × (entry.value < 2 ^ 64) }
{
    let Some(kind) = kind_of(entry.kind) else {
        return Err(Fault {
            kind: EncodeErrorKind::Kind,
            left,
        });
    };
    let in_turn = check_spans(alloc, contents, kind, left, entry, following)?;
    match write_entry::<false>(out, contents, kind, entry) {
        Ok(()) => Ok(in_turn),
        Err(kind) => Err(Fault { kind, left }),
    }
}

// Returns an empty vector, with capacity for the block of `entries` entries over `contents` bytes
// of data.
fn with_capacity_for(alloc: Global, entries: usize, contents: usize) -> Result<Vec<u8>, EncodeError>
    ensures empty { IfOk result (λ out. out.items ≡ []) }
    ensures err { IfErr result (IsOutOfMemory entries) }
{
    match Vec::with_capacity(
        alloc,
        entries.saturating_mul(HEAD_SIZE).saturating_add(contents),
    ) {
        Ok(out) => Ok(out),
        Err(_) => Err(EncodeError {
            kind: EncodeErrorKind::Memory,
            entry: 0,
        }),
    }
}

// Writes the block of entries that are one value: in the order of the tape, and again if a map has
// another order in its block. The public function has more clauses.
fn write_block(
    alloc: Global,
    entries: &[TapeEntry],
    contents: &[u8],
) -> Result<Vec<u8>, EncodeError>
    ensures found { IfOk result (λ block. (written : List ℕ)
        × (block_of contents.now entries.now ≡ Ok written)) }
    ensures exact { IfErr result (λ error. IsOutOfMemory (length entries.now) error
        ⊎ (block_of contents.now entries.now ≡ Err error)) }
    ensures ordered { (item : Item 64) (written : List ℕ)
        → Describes contents.now item entries.now written
        → IfOk result (λ block. Orders item written block.items) }
{
    if let Err(fault) = check_values(1, entries) {
        return Err(fault.in_tape(entries.len()));
    }
    let mut out = with_capacity_for(alloc, entries.len(), contents.len())?;
    let mut rest = entries;
    let mut is_ordered = true;
    while let Some((entry, following)) = rest.split_first() {
        match write_next(alloc, &mut out, contents, rest.len(), *entry, following) {
            Ok(in_turn) => {
                rest = following;
                is_ordered &= in_turn;
            }
            Err(fault) => return Err(fault.in_tape(entries.len())),
        }
    }
    if is_ordered {
        return Ok(out);
    }
    out.clear();
    match write_ordered(alloc, out, contents, entries) {
        Ok(block) => Ok(block),
        Err(kind) => Err(EncodeError { kind, entry: 0 }),
    }
}

/// Encodes the value that the entries describe, over the data to which they refer, and returns its
/// canonical block. The pairs of a map may come in any order. It is for untrusted input.
///
/// It reads the entries once, in a loop, and those in a list or a map once more. It makes no tree.
/// It allocates only the block, at first as many bytes as the data have and four for every entry.
/// If the pairs of a map are not in length-first order of their keys, it reads the entries again,
/// and also allocates about 32 bytes for every pair of a map.
///
/// # Errors
///
/// The first error, with the index of its entry. First, the tape is checked to be one value. Then
/// the entries are checked in their order. For a list or a map, the values or pairs that it spans
/// are checked first. The keys of a map have to differ, and `DuplicateKey` is at the first key that
/// repeats an earlier one.
///
/// `Memory` if an allocation fails.
pub fn encode_tape(
    alloc: Global,
    entries: &[TapeEntry],
    contents: &[u8],
) -> Result<Vec<u8>, EncodeError>
    ensures found { IfOk result (λ block. (item : Item 64) × (written : List ℕ)
        × Describes contents.now item entries.now written × Orders item written block.items) }
    ensures only { (item : Item 64) (written : List ℕ)
        → Describes contents.now item entries.now written
        → MatchResult result (λ block. Orders item written block.items)
        (IsOutOfMemory (length entries.now)) }
    ensures exact { IfErr result (λ error. IsOutOfMemory (length entries.now) error
        ⊎ (block_of contents.now entries.now ≡ Err error)) }
{
    write_block(alloc, entries, contents)
}
