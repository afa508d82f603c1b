//! The extents of the lists and maps of a block.

ghost use Rattle.std.specs.Prelude.{◌≡◌, ℕ, ◌+◌, ◌≤◌, List, ◌++◌, length, OnOk, MatchResult};
ghost use Rattle.ipld_show.specs.DataItem.{DataItem, encoding, IsDataItem, BeginsWithItem};
ghost use Rattle.ipld_show.specs.Extents.{extents};
ghost use Rattle.ipld_show.specs.ExtentsToCome.{ended, Pending, Following};
ghost use Rattle.ipld_show.specs.Heads.{IsHeadOf};
ghost use Rattle.ipld_show.specs.Scalars.{IsMemory};
ghost use Rattle.ipld_show.specs.Skipping.{items_within};

use crate::error::{ShowError, unchecked_error};
use crate::path::items_in;
use dag_cbor_format::item::{ItemHead, read_item};
use std::alloc::{AllocError, Global};

// The extent of a list or a map: the number of its bytes, and the number of lists and maps in it,
// including itself.
#[derive(Clone, Copy)]
pub(crate) struct Extent {
    pub(crate) size: usize,
    pub(crate) count: usize,
}

// An open list or map: its index, the number of bytes that were left at its beginning, and the
// number of items to come, including keys.
#[derive(Clone, Copy)]
struct Open {
    index: usize,
    start: usize,
    items: u64,
}

// Adds the item with this head to the open ones if it is a list or a map. `left` bytes are left
// from the head on.
fn begin_item(
    opened: &mut Vec<Open>,
    containers: &mut Vec<Extent>,
    head: &ItemHead<'_>,
    left: usize,
) -> Result<(), AllocError>
    ensures { (d : DataItem) (after more : List ℕ) (all : List Extent)
        → IsHeadOf head.now d after more → IsDataItem d → length after ≤ left
        → left ≡ length (encoding d) + length more
        → Pending opened.old.items more (containers.old.items ++ extents d) all
        → OnOk result (Pending opened.new.items after containers.new.items all) }
{
    match head {
        ItemHead::List(_) | ItemHead::Map(_) => {
            opened.push(Open {
                index: containers.len(),
                start: left,
                items: items_in(head),
            })?;
            containers.push(Extent { size: 0, count: 0 })?;
            Ok(())
        }
        _ => Ok(()),
    }
}

// Records that a list or a map ends before the last `left` bytes.
fn end_container(containers: &mut Vec<Extent>, innermost: Open, left: usize)
    ensures { containers.new.items ≡ ended innermost left containers.old.items }
{
    if innermost.index < containers.len() {
        containers[innermost.index] = Extent {
            size: innermost.start.saturating_sub(left),
            count: containers.len() - innermost.index,
        };
    }
}

// Ends the lists and maps that have no more items to come, before the last `left` bytes. Then takes
// the next item from the one that is still open.
fn end_finished(
    opened: &mut Vec<Open>,
    containers: &mut Vec<Extent>,
    left: usize,
) -> Result<(), AllocError>
    ensures { (all : List Extent) (rest : List ℕ) → left ≡ length rest
        → Pending opened.old.items rest containers.old.items all
        → OnOk result (Following opened.new.items rest containers.new.items all) }
{
    while let Some(innermost) = opened.pop() {
        if innermost.items > 0 {
            opened.push(Open {
                index: innermost.index,
                start: innermost.start,
                items: innermost.items - 1,
            })?;
            return Ok(());
        }
        end_container(containers, innermost, left);
    }
    Ok(())
}

// Returns the lists and maps of the value at the front, in the order in which they begin.
pub(crate) fn containers_of(alloc: Global, value: &[u8]) -> Result<Vec<Extent>, ShowError>
    ensures { (d : DataItem) (behind : List ℕ) → BeginsWithItem d value.now behind
        → MatchResult result (λ containers. containers.items ≡ extents d) IsMemory }
{
    let mut containers = Vec::new(alloc);
    let mut opened = Vec::new(alloc);
    let mut rest = value;
    loop {
        let Ok((head, after)) = read_item(rest) else {
            return Err(unchecked_error());
        };
        begin_item(&mut opened, &mut containers, &head, rest.len())?;
        end_finished(&mut opened, &mut containers, after.len())?;
        if opened.is_empty() {
            return Ok(containers);
        }
        rest = after;
    }
}
