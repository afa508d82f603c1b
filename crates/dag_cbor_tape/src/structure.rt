//! The order of the entries of a tape.

ghost use Rattle.std.specs.Prelude.{◌≡◌, ◌⊎◌, ◌<◌, ◌≤◌, suc, length, option_map, true, [], IfOk, IfErr, None, Ok, Err, MatchResult};
ghost use Rattle.dag_cbor_format.specs.Canonical.{goes_first};
ghost use Rattle.dag_cbor_format.specs.KeysAscend.{follows};
ghost use Rattle.dag_cbor_format.specs.Reading.{and_key};
ghost use Rattle.dag_cbor_blocks.specs.KeyList.{keys_now};
ghost use Rattle.dag_cbor_tape.specs.declared.entry.EntryKind.TheVariants as kind;
ghost use Rattle.dag_cbor_tape.specs.Memory.{IsMemoryFault};
ghost use Rattle.dag_cbor_tape.specs.Entry as of_entry;
ghost use Rattle.dag_cbor_tape.specs.Structure as of_tape;

use crate::entry::{EntryKind, content_of, kind_of};
use crate::error::{EncodeErrorKind, Fault};
use dag_cbor_blocks::tape::TapeEntry;
use std::alloc::Global;
use std::cmp::Ordering;
use std::collections::BTreeSet;

// Returns how many entries a list or a map spans.
#[inline(always)]
fn spanned_entries(entry: TapeEntry) -> Result<usize, EncodeErrorKind>
    ensures { result ≡ of_tape.spanned entry }
{
    if entry.len == 0 {
        return Err(EncodeErrorKind::Span);
    }
    Ok(entry.len as usize)
}

// Returns how many entries a value spans.
#[inline(always)]
fn span_of(entry: TapeEntry) -> Result<usize, EncodeErrorKind>
    ensures exact { result ≡ of_tape.span_in (of_entry.kind_of entry.kind) entry }
    ensures some { IfOk result (λ n. 0 < n) }
{
    match kind_of(entry.kind) {
        None | Some(EntryKind::Key) => Err(EncodeErrorKind::Kind),
        Some(EntryKind::List) => spanned_entries(entry),
        Some(EntryKind::Map) => spanned_entries(entry),
        Some(_) => Ok(1),
    }
}

// Returns the entries after the value with which they begin.
#[tactic(auto, unfolding(crate::specs::Structure::after_value))]
#[inline(always)]
pub(crate) fn skip_value(entries: &[TapeEntry]) -> Result<&[TapeEntry], Fault>
    ensures exact { MatchResult result (λ rest. of_tape.after_value entries.now ≡ Ok rest.now)
        (λ fault. of_tape.after_value entries.now ≡ Err fault) }
    ensures shorter { IfOk result (λ rest. length rest.now < length entries.now) }
    ensures within { IfErr result (λ fault. fault.left ≤ length entries.now) }
{
    let [first, ..] = entries else {
        return Err(Fault {
            kind: EncodeErrorKind::Missing,
            left: 0,
        });
    };
    match span_of(*first) {
        Ok(span) => {
            if entries.len() < span {
                return Err(Fault {
                    kind: EncodeErrorKind::Span,
                    left: entries.len(),
                });
            }
            Ok(&entries[span..])
        }
        Err(kind) => Err(Fault {
            kind,
            left: entries.len(),
        }),
    }
}

// Checks that no entry is left.
#[inline(always)]
fn check_end(entries: &[TapeEntry]) -> Result<(), Fault>
    ensures exact { result ≡ of_tape.ends entries.now }
    ensures within { IfErr result (λ fault. fault.left ≤ length entries.now) }
{
    if entries.is_empty() {
        return Ok(());
    }
    Err(Fault {
        kind: EncodeErrorKind::LeftOver,
        left: entries.len(),
    })
}

// Checks that the entries are `count` values, one after another.
pub(crate) fn check_values(count: u64, entries: &[TapeEntry]) -> Result<(), Fault>
    ensures exact { result ≡ of_tape.values count entries.now }
    ensures within { IfErr result (λ fault. fault.left ≤ length entries.now) }
{
    let mut left = count;
    let mut rest = entries;
    while left > 0 {
        rest = skip_value(rest)?;
        left -= 1;
    }
    check_end(rest)
}

// Returns whether a key comes after another in length-first order.
#[inline(always)]
fn comes_after(key: &[u8], other: &[u8]) -> bool
    ensures { result ≡ goes_first other.now key.now }
{
    match other.len().cmp(&key.len()) {
        Ordering::Less => true,
        Ordering::Equal => other.cmp(key) == Ordering::Less,
        Ordering::Greater => false,
    }
}

// Returns whether a key comes after the one before it, if there is one.
#[inline(always)]
fn comes_next(last: Option<&[u8]>, key: &[u8]) -> bool
    ensures { result ≡ follows (option_map (λ last. last.now) last.entry) key.now }
{
    match last {
        None => true,
        Some(last) => comes_after(key, last),
    }
}

// Returns the bytes of an entry, which has to be a key.
#[inline(always)]
fn key_of<'a>(contents: &'a [u8], entry: TapeEntry) -> Result<&'a [u8], EncodeErrorKind>
    ensures { MatchResult result
        (λ key. of_tape.key_in contents.entry.now (of_entry.kind_of entry.kind) entry ≡ Ok key.now)
        (λ kind. of_tape.key_in contents.entry.now (of_entry.kind_of entry.kind) entry ≡ Err kind) }
{
    match kind_of(entry.kind) {
        Some(EntryKind::Key) => match content_of(contents, entry) {
            None => Err(EncodeErrorKind::Content),
            Some(key) => Ok(key),
        },
        _ => Err(EncodeErrorKind::Kind),
    }
}

// Returns the key with which the entries begin, and the entries after it.
#[tactic(auto, unfolding(crate::specs::Structure::after_key))]
#[inline(always)]
fn split_key<'a, 'b>(
    contents: &'a [u8],
    entries: &'b [TapeEntry],
) -> Result<(&'a [u8], &'b [TapeEntry]), Fault>
    ensures exact { MatchResult result
        (λ found. of_tape.after_key contents.entry.now entries.entry.now ≡ Ok
        (found.0.now, found.1.now))
        (λ fault. of_tape.after_key contents.entry.now entries.entry.now ≡ Err fault) }
    ensures shorter { IfOk result (λ found. length found.1.now < length entries.entry.now) }
    ensures within { IfErr result (λ fault. fault.left ≤ length entries.entry.now) }
{
    let [first, rest @ ..] = entries else {
        return Err(Fault {
            kind: EncodeErrorKind::Missing,
            left: 0,
        });
    };
    match key_of(contents, *first) {
        Ok(key) => Ok((key, rest)),
        Err(kind) => Err(Fault {
            kind,
            left: entries.len(),
        }),
    }
}

// Returns whether the keys of `count` pairs ascend, so that they differ. Otherwise it checks only
// the entries before the first key that does not come after the one before it.
fn pairs_ascend(contents: &[u8], count: u64, entries: &[TapeEntry]) -> Result<bool, Fault>
    ensures exact { result ≡ of_tape.ascending contents.now count None entries.now }
    ensures within { IfErr result (λ fault. fault.left ≤ length entries.now) }
{
    let mut left = count;
    let mut last: Option<&[u8]> = None;
    let mut rest = entries;
    while left > 0 {
        let (key, value) = split_key(contents, rest)?;
        if !comes_next(last, key) {
            return Ok(false);
        }
        rest = skip_value(value)?;
        last = Some(key);
        left -= 1;
    }
    check_end(rest)?;
    Ok(true)
}

// Checks that the entries are `count` pairs whose keys differ.
#[inline(never)]
fn check_any_pairs(
    alloc: Global,
    contents: &[u8],
    count: u64,
    entries: &[TapeEntry],
) -> Result<(), Fault>
    ensures exact { MatchResult result
        (λ done. of_tape.pairs contents.now count [] entries.now ≡ Ok done)
        (λ fault. IsMemoryFault fault ⊎ (of_tape.pairs contents.now count [] entries.now
        ≡ Err fault)) }
    ensures within { IfErr result (λ fault. fault.left ≤ length entries.now) }
{
    let mut seen = BTreeSet::new(alloc);
    let mut left = count;
    let mut rest = entries;
    while left > 0 {
        let (key, value) = split_key(contents, rest)?;
        add_key(&mut seen, key, rest.len())?;
        rest = skip_value(value)?;
        left -= 1;
    }
    check_end(rest)
}

// Adds a key to those before it, from which it has to differ. `left` is the number of entries from
// the key to the end.
fn add_key<'a>(seen: &mut BTreeSet<&'a [u8]>, key: &'a [u8], left: usize) -> Result<(), Fault>
    ensures added { IfOk result (λ done. (of_tape.is_new (keys_now seen.old.keys) key.entry.now left
        ≡ Ok done) × (keys_now seen.new.keys ≡ and_key key.entry.now (keys_now seen.old.keys))) }
    ensures repeated { IfErr result (λ fault. IsMemoryFault fault
        ⊎ (of_tape.is_new (keys_now seen.old.keys) key.entry.now left ≡ Err fault)) }
    ensures within { IfErr result (λ fault. fault.left ≡ left) }
{
    match seen.insert(key) {
        Ok(true) => Ok(()),
        Ok(false) => Err(Fault {
            kind: EncodeErrorKind::DuplicateKey,
            left,
        }),
        Err(_) => Err(Fault {
            kind: EncodeErrorKind::Memory,
            left,
        }),
    }
}

// Checks that the entries are `count` pairs whose keys differ, and returns whether the keys ascend.
fn check_pairs(
    alloc: Global,
    contents: &[u8],
    count: u64,
    entries: &[TapeEntry],
) -> Result<bool, Fault>
    ensures exact { MatchResult result
        (λ ascend. (of_tape.pairs contents.now count [] entries.now ≡ Ok tt) × (ascend ≡ true
        → of_tape.ascending contents.now count None entries.now ≡ Ok true))
        (λ fault. IsMemoryFault fault ⊎ (of_tape.pairs contents.now count [] entries.now
        ≡ Err fault)) }
    ensures within { IfErr result (λ fault. fault.left ≤ length entries.now) }
{
    if pairs_ascend(contents, count, entries)? {
        return Ok(true);
    }
    check_any_pairs(alloc, contents, count, entries)?;
    Ok(false)
}

// Returns how many of the `following` entries are within the list or map of this entry, if there
// are enough.
#[inline(always)]
pub(crate) fn inner_count(entry: TapeEntry, following: usize) -> Option<usize>
    ensures { result ≡ of_tape.inner_count entry following }
{
    if entry.len == 0 || following < entry.len as usize - 1 {
        return None;
    }
    Some(entry.len as usize - 1)
}

// Checks the entries that a list spans. `left` is the number of entries from its own to the end,
// and `following` are the entries after it.
fn check_list(left: usize, entry: TapeEntry, following: &[TapeEntry]) -> Result<(), Fault>
    requires { left ≡ suc (length following.now) }
    ensures { result ≡ of_tape.within entry following.now (of_tape.values entry.value)
        (of_tape.inner_count entry (length following.now)) }
{
    let Some(count) = inner_count(entry, following.len()) else {
        return Err(Fault {
            kind: EncodeErrorKind::Span,
            left,
        });
    };
    match check_values(entry.value, &following[..count]) {
        Ok(()) => Ok(()),
        Err(fault) => Err(Fault {
            kind: fault.kind,
            left: fault.left + (following.len() - count),
        }),
    }
}

// Checks the entries that a map spans, each key and its value, and returns whether the keys ascend.
// `left` is the number of entries from its own to the end, and `following` are the entries after
// it.
fn check_map(
    alloc: Global,
    contents: &[u8],
    left: usize,
    entry: TapeEntry,
    following: &[TapeEntry],
) -> Result<bool, Fault>
    requires { left ≡ suc (length following.now) }
    ensures { MatchResult result
        (λ in_turn. (of_tape.spans contents.now kind.Map entry following.now ≡ Ok tt)
        × (in_turn ≡ true → of_tape.IsInTurn contents.now kind.Map entry following.now))
        (λ fault. IsMemoryFault fault ⊎ (of_tape.spans contents.now kind.Map entry following.now
        ≡ Err fault)) }
{
    let Some(count) = inner_count(entry, following.len()) else {
        return Err(Fault {
            kind: EncodeErrorKind::Span,
            left,
        });
    };
    match check_pairs(alloc, contents, entry.value, &following[..count]) {
        Ok(in_turn) => Ok(in_turn),
        Err(fault) => Err(Fault {
            kind: fault.kind,
            left: fault.left + (following.len() - count),
        }),
    }
}

// Checks the entries that an entry of this kind spans, and returns whether its pairs are in
// length-first order.
#[tactic(auto, unfolding(crate::specs::Structure::spans))]
#[inline(always)]
pub(crate) fn check_spans(
    alloc: Global,
    contents: &[u8],
    kind: EntryKind,
    left: usize,
    entry: TapeEntry,
    following: &[TapeEntry],
) -> Result<bool, Fault>
    requires { left ≡ suc (length following.now) }
    ensures { MatchResult result
        (λ in_turn. (of_tape.spans contents.now kind entry following.now ≡ Ok tt) × (in_turn ≡ true
        → of_tape.IsInTurn contents.now kind entry following.now))
        (λ fault. IsMemoryFault fault ⊎ (of_tape.spans contents.now kind entry following.now
        ≡ Err fault)) }
{
    match kind {
        EntryKind::Map => check_map(alloc, contents, left, entry, following),
        EntryKind::List => match check_list(left, entry, following) {
            Ok(()) => Ok(true),
            Err(fault) => Err(fault),
        },
        _ => Ok(true),
    }
}
