//! The place of the value at a path in a block.

ghost use Rattle.std.specs.Prelude.{◌≡◌, ◌-◌, ℕ, List, length, MatchResult};
ghost use Rattle.ipld_show.specs.DataItem.{DataItem, encoding, BeginsWithItem};
ghost use Rattle.ipld_show.specs.OnPath.{link_in};
ghost use Rattle.ipld_show.specs.Reach.{IsReached, IsLinkPlaceOr};

use crate::error::ShowError;
use crate::path::{enter_segment, item_size, link_of_value};

/// The place of the value to which a path leads in a block. If the path continues after a link, the
/// value is the link.
#[derive(Clone, Copy, Debug, PartialEq, Eq)]
pub struct ValuePlace {
    /// The byte of the block at which the value begins.
    pub offset: usize,
    /// The number of bytes of the value.
    pub len: usize,
    /// The byte of the path at which the first segment after the link begins. It is the length of
    /// the path if the path was followed to its end.
    pub rest: usize,
}

// Returns the place of the item at the front of `value`, which is the end of the block.
fn place_of(block: &[u8], value: &[u8], rest: usize) -> Result<ValuePlace, ShowError>
    ensures { (d : DataItem) (behind : List ℕ) → BeginsWithItem d value.now behind
        → MatchResult result (λ place. place ≡ record {
          offset = length block.now - length value.now;
          len = length (encoding d);
          rest = rest;
        }) (λ _. ⊥) }
{
    match item_size(value) {
        Ok(len) => Ok(ValuePlace {
            offset: block.len().saturating_sub(value.len()),
            len,
            rest,
        }),
        Err(error) => Err(error),
    }
}

// Returns the place of the link at the front of `value`. If it isn't a link, returns the error.
fn link_place_or(
    block: &[u8],
    value: &[u8],
    rest: usize,
    error: ShowError,
) -> Result<ValuePlace, ShowError>
    ensures { (d : DataItem) (behind : List ℕ) → BeginsWithItem d value.now behind
        → IsLinkPlaceOr (link_in d) (record {
          offset = length block.now - length value.now;
          len = length (encoding d);
          rest = rest;
        }) error result }
{
    match link_of_value(value) {
        Ok(Some(_)) => place_of(block, value, rest),
        Ok(None) => Err(error),
        Err(error) => Err(error),
    }
}

/// Returns the place of the value at a path in a block that is known to be valid. If the path
/// continues after a link, returns the place of the link, and the rest of the path.
///
/// Segments are those of [`value_at`](crate::value_at). It reads the block once, in loops, and
/// doesn't allocate.
///
/// # Errors
///
/// - `NoSegment` or `NotAContainer` if the path leads to nothing, with the number of the first
///   segment that does.
/// - Possibly `Invalid` or `Cid` if the bytes are not a valid block.
pub fn reach(block: &[u8], path: &str) -> Result<ValuePlace, ShowError>
    ensures { (d : DataItem) (behind : List ℕ) → BeginsWithItem d block.now behind
        → IsReached d path.now block.now behind result }
{
    let mut value = block;
    let mut before = 0usize;
    let mut rest = path;
    while let Some((part, more)) = rest.split_once('/') {
        match enter_segment(value, part, before) {
            Ok((inner, passed)) => {
                value = inner;
                before = passed;
            }
            Err(error) => {
                return link_place_or(block, value, path.len() - rest.len(), error);
            }
        }
        rest = more;
    }
    match enter_segment(value, rest, before) {
        Ok((value, _)) => place_of(block, value, path.len()),
        Err(error) => link_place_or(block, value, path.len() - rest.len(), error),
    }
}
