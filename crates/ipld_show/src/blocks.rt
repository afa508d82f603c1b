//! The printing of blocks of any codec.

ghost use Rattle.std.specs.Prelude.{◌≡◌, ◌++◌, ℕ, true, false, List, [], codes, IfOk, IfErr, MatchOption, MatchResult};
ghost use Rattle.std.specs.Io.KnownBytes.{Appends};
ghost use Rattle.ipld_show.specs.Blocks.{IsNoBlock, IsCborOf, OfBlock, IsTreeAt, IsJsonAt, IsLineError, IsUnwritten};
ghost use Rattle.ipld_show.specs.DataItem.{DataItem, BeginsWithItem};
ghost use Rattle.ipld_show.specs.JsonText.{IsJson};
ghost use Rattle.ipld_show.specs.OnPath.{IsLinkOnPath};

use crate::as_cbor::{bytes_as_cbor, json_as_cbor, node_as_cbor};
use crate::error::ShowError;
use crate::json_text::to_json;
use crate::path::{LinkOnPath, link_before_end, value_at};
use crate::tree_text::write_tree;
use ipld_block::{BlockCodec, check};
use std::alloc::Global;
use std::io::Write;

// Converts the tree of a block of this codec to a valid block of DAG-CBOR, unless it is one
// already.
fn as_cbor(alloc: Global, codec: BlockCodec, bytes: &[u8]) -> Result<Option<Vec<u8>>, ShowError>
    ensures made { IfOk result (λ made. MatchOption made (IsCborOf codec bytes.now bytes.now)
        (λ block. IsCborOf codec bytes.now block.items)) }
    ensures rejected { IfErr result (IsNoBlock codec bytes.now) }
{
    match codec {
        BlockCodec::DagCbor => match check(alloc, codec, bytes) {
            Ok(()) => Ok(None),
            Err(error) => Err(ShowError::from(error)),
        },
        BlockCodec::DagPb => match node_as_cbor(alloc, bytes) {
            Ok(block) => Ok(Some(block)),
            Err(error) => Err(error),
        },
        BlockCodec::DagJson => match json_as_cbor(alloc, bytes) {
            Ok(block) => Ok(Some(block)),
            Err(error) => Err(error),
        },
        BlockCodec::Raw => match bytes_as_cbor(alloc, bytes) {
            Ok(block) => Ok(Some(block)),
            Err(error) => Err(error),
        },
    }
}

// Returns the block that was made, or the bytes themselves.
fn cbor_or<'a>(made: &'a Option<Vec<u8>>, bytes: &'a [u8]) -> &'a [u8]
    ensures { MatchOption made.now (result.now ≡ bytes.now) (λ block. result.now ≡ block.items) }
{
    match made {
        Some(block) => block.as_slice(),
        None => bytes,
    }
}

// Writes a value as DAG-JSON and a line feed, in one call of the writer.
fn write_json_line<W: Write>(alloc: Global, value: &[u8], writer: &mut W) -> Result<(), ShowError>
    ensures { (d : DataItem) (behind : List ℕ) → BeginsWithItem d value.now behind
        → MatchResult result (λ _. (t : List ℕ) × IsJson d t × Appends (W.contents writer.old)
        (W.contents writer.new) (t ++ codes "\n")) (λ error. IsLineError d error
        (W.contents writer.old) (W.contents writer.new)) }
{
    let mut line = match to_json(alloc, value) {
        Ok(text) => text,
        Err(error) => return Err(error),
    };
    line.push(b'\n')?;
    writer.write_all(&line)?;
    Ok(())
}

// Writes the value at a path in a valid block of DAG-CBOR.
fn show_at<W: Write>(
    alloc: Global,
    block: &[u8],
    path: &str,
    json: bool,
    writer: &mut W,
) -> Result<(), ShowError>
    ensures shown { (d : DataItem) → BeginsWithItem d block.now [] → json ≡ false
        → IsTreeAt d path.now result (W.contents writer.old) (W.contents writer.new) }
    ensures shown_as_json { (d : DataItem) → BeginsWithItem d block.now [] → json ≡ true
        → IsJsonAt d path.now result (W.contents writer.old) (W.contents writer.new) }
    ensures unwritten { (d : DataItem) → BeginsWithItem d block.now []
        → IfErr result (λ error. IsUnwritten error (W.contents writer.old)
        (W.contents writer.new)) }
{
    let value = match value_at(block, path) {
        Ok(value) => value,
        Err(error) => return Err(error),
    };
    if json {
        return write_json_line(alloc, value, writer);
    }
    write_tree(alloc, value, writer)
}

/// Writes the value at a path in a block of this codec. The form is a tree for people, or DAG-JSON
/// and a line feed.
///
/// # Errors
///
/// - `Invalid` if the bytes are not a block of this codec. Nothing was written then.
/// - `NoSegment` or `NotAContainer` if the path leads to nothing. Nothing was written then.
/// - `TooLong` if the block is DAG-JSON, and a length in its tape has more than 32 bits. Nothing was
///   written then.
/// - `Reserved` if DAG-JSON has no form for the value. Nothing was written then.
/// - `Write` if the writer fails, and `Memory` if an allocation fails.
pub fn show<W: Write>(
    alloc: Global,
    codec: BlockCodec,
    bytes: &[u8],
    path: &str,
    json: bool,
    writer: &mut W,
) -> Result<(), ShowError>
    ensures shown { json ≡ false → OfBlock codec bytes.now result (λ d. IsTreeAt d path.now result
        (W.contents writer.old) (W.contents writer.new)) }
    ensures shown_as_json { json ≡ true → OfBlock codec bytes.now result (λ d.
        IsJsonAt d path.now result (W.contents writer.old) (W.contents writer.new)) }
    ensures unwritten { IfErr result (λ error. IsUnwritten error (W.contents writer.old)
        (W.contents writer.new)) }
{
    match as_cbor(alloc, codec, bytes) {
        Ok(made) => show_at(alloc, cbor_or(&made, bytes), path, json, writer),
        Err(error) => Err(error),
    }
}

/// Returns the first link that a path leads through in a block of this codec. Returns `None` if the
/// path leads through no link, or only to one at its end.
///
/// The value after the link is not in this block. It is in the block that the link names.
///
/// # Errors
///
/// - `Invalid` if the bytes are not a block of this codec.
/// - `NoSegment` or `NotAContainer` if the path leads to nothing in the block.
/// - `TooLong` if the block is DAG-JSON, and a length in its tape has more than 32 bits.
/// - `Memory` if an allocation fails. A block of DAG-PB, DAG-JSON or plain bytes is converted to
///   DAG-CBOR first.
pub fn link_on_path(
    alloc: Global,
    codec: BlockCodec,
    bytes: &[u8],
    path: &str,
) -> Result<Option<LinkOnPath>, ShowError>
    ensures { OfBlock codec bytes.now result (λ d. IsLinkOnPath d path.now result) }
{
    match as_cbor(alloc, codec, bytes) {
        Ok(made) => link_before_end(cbor_or(&made, bytes), path),
        Err(error) => Err(error),
    }
}
