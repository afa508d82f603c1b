//! The decoding of trees from their texts.

ghost use Rattle.std.specs.Prelude.{◌≡◌, ◌⊎◌, ◌≤◌, ◌<◌, ◌^◌, ℕ, Some, None, IfOk, IfErr, MatchResult, MatchOption, false, length, slice_index, ◌≢◌};
ghost use Rattle.std.specs.Str.{IsUtf8};
ghost use Rattle.ipld_tree.specs.IsTree.{IsTree};
ghost use Rattle.ipld_tree.specs.IsWhole.{IsWhole};
ghost use Rattle.ipld_tree.specs.Tree.{Tree};
ghost use Rattle.ipld_tree.specs.TreeOf.{tree_of};
ghost use Rattle.dag_json.specs.Canonical.{IsWrittenOtherwise, CanonicalError};
ghost use Rattle.dag_json.specs.Encodes.{EncodesWithin, JsonWithin};
ghost use Rattle.dag_json.specs.Form.{json_of};
ghost use Rattle.dag_json.specs.Written.{written};
ghost use Rattle.dag_json.specs.Offset.{ReadsTokens, SaysWhere};
ghost use Rattle.dag_json.specs.ReadContract.{ReadsText, ReadsBytes, UnlessMemory};

use crate::encode::to_vec;
use crate::error::DagJsonError;
use crate::offset::token_offset;
use crate::read_error::{ReadError, ReadErrorKind};
use crate::tree::TreeBuilder;
use ipld_tree::{Ipld, Limits};
use json::{Reader, Scratch};
use std::alloc::Global;
use std::str;

// Why tokens are not those of a tree, after how many tokens, and whether the value was still
// unfinished there.
#[derive(Clone, Copy, Drop)]
struct Stop {
    kind: ReadErrorKind,
    taken: usize,
    unfinished: bool,
}

// Reads the tree of the tokens that a reader has left, with or without floats.
fn read_tokens(
    alloc: Global,
    reader: &mut Reader<'_>,
    limits: &Limits,
    floats: bool,
) -> Result<Ipld, Stop>
    requires { length reader.old < 2 ^ 64 }
    ensures { ReadsTokens floats limits.now reader.old result }
{
    let mut builder = TreeBuilder::new(alloc);
    let mut taken = 0;
    let mut unfinished = builder.is_unfinished();
    while let Some(token) = reader.next() {
        if let Err(kind) = builder.take_token(&token, limits, floats) {
            return Err(Stop {
                kind,
                taken,
                unfinished,
            });
        }
        taken += 1;
        unfinished = builder.is_unfinished();
    }
    match builder.finish() {
        Ok(tree) => Ok(tree),
        Err(kind) => Err(Stop {
            kind,
            taken,
            unfinished,
        }),
    }
}

// Reads the tree of a text, with or without floats.
pub(crate) fn read_text(
    alloc: Global,
    text: &str,
    limits: &Limits,
    floats: bool,
) -> Result<Ipld, ReadError>
    ensures exact { ReadsText floats limits.now text.now result }
    ensures stopped { IfErr result (SaysWhere floats limits.now text.now) }
{
    let mut scratch = Scratch::new(alloc);
    match Reader::new(text, &mut scratch) {
        Ok(mut reader) => match read_tokens(alloc, &mut reader, limits, floats) {
            Ok(tree) => Ok(tree),
            Err(stop) => Err(ReadError {
                kind: stop.kind,
                offset: token_offset(text.as_bytes(), stop.taken, stop.unfinished),
            }),
        },
        Err(_) => Err(ReadError {
            kind: ReadErrorKind::Memory,
            offset: 0,
        }),
    }
}

/// Decodes a text in DAG-JSON, which may have blanks, escapes, and the keys of an object in any
/// order.
///
/// A link is an object whose only key is `/`, with the text of a CID as its value, in the form that
/// [`to_vec`] writes. Bytes are an object whose only key is `/`, with an object as its value. The
/// only key of that object is `bytes`, with base64 without padding as its value.
///
/// No other object may have `/` as its first key, in byte order, with one of these values: a
/// string, or an object whose first key is `bytes` with a string as its value. A number is an
/// integer of 128 bits: it has no fraction and no exponent.
///
/// The limits apply to the text. [`Limits::levels`] is how deep its arrays and objects nest, and
/// [`Limits::values`] is how many values it has. A link is two values and one level deep. Bytes are
/// three values and two levels deep.
///
/// It reads in a loop, and drops a part of the tree as [`Ipld::discard`](ipld_tree::Ipld::discard)
/// does, for example if an error is returned.
/// Besides the tree, it allocates as many bytes as the text has, and a slot for every open array or
/// object.
///
/// # Errors
///
/// The first error from the left, with its offset. [`ReadErrorKind`] lists the errors, and which
/// one is returned if a token has several. `Utf8` and `NotCanonical` are never returned.
pub fn from_str(alloc: Global, text: &str, limits: &Limits) -> Result<Ipld, ReadError>
    ensures found { IfOk result (λ tree. EncodesWithin limits.now (tree_of tree) text.now) }
    ensures only { (t : Tree) → EncodesWithin limits.now t text.now
        → UnlessMemory result (λ tree. tree_of tree ≡ t) }
    ensures exact { ReadsText false limits.now text.now result }
    ensures stopped { IfErr result (SaysWhere false limits.now text.now) }
{
    read_text(alloc, text, limits, false)
}

/// Decodes a text in DAG-JSON from bytes, which have to be UTF-8. Otherwise it is the same as
/// [`from_str`].
///
/// # Errors
///
/// `Utf8` if the bytes aren't UTF-8, at the first byte that isn't part of a character. Otherwise
/// those of [`from_str`].
pub fn from_slice(alloc: Global, bytes: &[u8], limits: &Limits) -> Result<Ipld, ReadError>
    ensures found { IfOk result (λ tree. EncodesWithin limits.now (tree_of tree) bytes.now) }
    ensures only { (t : Tree) → EncodesWithin limits.now t bytes.now
        → UnlessMemory result (λ tree. tree_of tree ≡ t) }
    ensures exact { ReadsBytes false limits.now bytes.now result }
    ensures stopped { IfErr result (SaysWhere false limits.now bytes.now) }
{
    match str::from_utf8(bytes) {
        Ok(text) => from_str(alloc, text, limits),
        Err(error) => Err(ReadError {
            kind: ReadErrorKind::Utf8,
            offset: error.valid_up_to(),
        }),
    }
}

// Returns how many bytes at the front of two slices are the same.
fn common_len(a: &[u8], b: &[u8]) -> usize
    ensures within { (result ≤ length a.now) × (result ≤ length b.now) }
    ensures same { (k : ℕ) → k < result → slice_index a.now k ≡ slice_index b.now k }
    ensures differ { result < length a.now → result < length b.now
        → slice_index a.now result ≢ slice_index b.now result }
{
    let len = a.len().min(b.len());
    for i in 0..len {
        if a[i] != b[i] {
            return i;
        }
    }
    len
}

// Returns the first byte at which a text differs from the one that is written of a tree, if any.
fn first_difference(
    alloc: Global,
    tree: &Ipld,
    bytes: &[u8],
) -> Result<Option<usize>, ReadErrorKind>
    ensures { MatchResult result
        (λ place. MatchOption place (written (tree_of tree.now) ≡ Some bytes.now)
        (IsWrittenOtherwise (tree_of tree.now) bytes.now))
        (λ kind. (kind ≡ ReadErrorKind.Memory) ⊎ (written (tree_of tree.now) ≡ None)) }
{
    match to_vec(alloc, tree) {
        Ok(text) if text.as_slice() == bytes => Ok(None),
        Ok(text) => Ok(Some(common_len(&text, bytes))),
        Err(DagJsonError::Memory) => Err(ReadErrorKind::Memory),
        // The only other error of `to_vec` is `Reserved`.
        Err(_) => Err(ReadErrorKind::Reserved),
    }
}

/// Decodes a text in DAG-JSON, which has to be the one that [`to_vec`] writes of its tree.
///
/// The text is read as in [`from_slice`], and compared with the one that is written of its tree.
/// For this one, as many bytes are allocated again.
///
/// # Errors
///
/// `NotCanonical` if the text encodes a tree, but differs from the one that is written. The offset
/// is the first byte that differs, or the end of the shorter of the two. Otherwise those of
/// [`from_slice`].
pub fn from_canonical(alloc: Global, bytes: &[u8], limits: &Limits) -> Result<Ipld, ReadError>
    ensures canonical { IfOk result (λ tree. written (tree_of tree) ≡ Some bytes.now) }
    ensures found { IfOk result (λ tree. EncodesWithin limits.now (tree_of tree) bytes.now) }
    ensures only { (t : Tree) → IsUtf8 bytes.now → IsTree t → IsWhole t → written t ≡ Some bytes.now
        → JsonWithin limits.now (json_of t)
        → UnlessMemory result (λ tree. tree_of tree ≡ t) }
    ensures err { IfErr result (CanonicalError limits.now bytes.now) }
{
    let tree = match from_slice(alloc, bytes, limits) {
        Ok(tree) => tree,
        Err(error) => return Err(error),
    };
    match first_difference(alloc, &tree, bytes) {
        Ok(None) => Ok(tree),
        Ok(Some(offset)) => {
            tree.discard();
            Err(ReadError {
                kind: ReadErrorKind::NotCanonical,
                offset,
            })
        }
        Err(kind) => {
            tree.discard();
            Err(ReadError { kind, offset: 0 })
        }
    }
}
