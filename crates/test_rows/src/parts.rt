//! The parts of blocks of DAG-CBOR with and without floats: the links, their places, the order of
//! keys, and the place at which a block becomes invalid.

use crate::bytes::bytes;
use dag_cbor::{
    BlockError, LinkPosition, ReadOptions, check_block, count_links, decode_slice,
    decode_slice_within, is_canonical, link_positions, links_of_block, measure_block,
};
use ipld_tree::Limits;
use std::alloc::{AllocError, Global};

// No limits but the bytes.
pub const ALL: Limits = Limits {
    levels: usize::MAX,
    values: usize::MAX,
};

/// Returns the parts of a block read with floats and, if that differs, without.
pub fn parts(alloc: Global, digits: &str) -> Result<String, AllocError> {
    let Ok(bytes) = hex::decode(alloc, digits) else {
        return String::from_str(alloc, "no bytes");
    };
    check_both(alloc, bytes.as_slice())
}

/// Returns the parts of each shorter beginning of a block.
pub fn cuts(alloc: Global, digits: &str) -> Result<String, AllocError> {
    let Ok(bytes) = hex::decode(alloc, digits) else {
        return String::from_str(alloc, "no bytes");
    };
    let mut outcomes = String::new(alloc);
    for length in 0..bytes.len() {
        if length > 0 {
            outcomes.push_str("; ")?;
        }
        let Some(front) = bytes.as_slice().get(..length) else {
            continue;
        };
        let outcome = check_both(alloc, front)?;
        outcomes.push_str(outcome.as_str())?;
    }
    Ok(outcomes)
}

/// Returns the parts of a block with one byte changed, for each byte in turn: a mask, a blank and
/// the block.
pub fn changes(alloc: Global, row: &str) -> Result<String, AllocError> {
    let (mask, digits) = row.split_once(' ').unwrap_or(("", row));
    let (Ok(mask), Ok(mut bytes)) = (mask.parse::<u8>(), hex::decode(alloc, digits)) else {
        return String::from_str(alloc, "no mask and bytes");
    };
    let mut outcomes = String::new(alloc);
    for index in 0..bytes.len() {
        if index > 0 {
            outcomes.push_str("; ")?;
        }
        flip(bytes.as_mut_slice(), index, mask);
        let outcome = check_both(alloc, bytes.as_slice())?;
        outcomes.push_str(outcome.as_str())?;
        flip(bytes.as_mut_slice(), index, mask);
    }
    Ok(outcomes)
}

/// Returns the parts of a block with floats within limits: levels, values and the block.
pub fn within(alloc: Global, row: &str) -> Result<String, AllocError> {
    match limited(alloc, row)? {
        Some((limits, bytes)) => of_floats(alloc, bytes.as_slice(), limits),
        None => String::from_str(alloc, "no limits and bytes"),
    }
}

/// Returns whether a block without floats decodes within limits to the same tree as without limits,
/// or the error.
pub fn decoded_within(alloc: Global, row: &str) -> Result<String, AllocError> {
    let Some((limits, bytes)) = limited(alloc, row)? else {
        return String::from_str(alloc, "no limits and bytes");
    };
    match decode_slice_within(alloc, bytes.as_slice(), &limits) {
        Ok(tree) => {
            let is_same = decode_slice(alloc, bytes.as_slice()) == Ok(tree);
            String::from_str(alloc, if is_same { "its tree" } else { "another tree" })
        }
        Err(error) => { format!(in alloc; "{} at byte {}", error.kind.name(), error.offset) }
    }
}

/// Returns the depth of a block, and the numbers of its values and links.
pub fn size(alloc: Global, digits: &str) -> Result<String, AllocError> {
    let Some(bytes) = bytes(alloc, digits)? else {
        return String::from_str(alloc, "no bytes");
    };
    let options = ReadOptions {
        limits: ALL,
        floats: false,
    };
    match measure_block(alloc, bytes.as_slice(), &options) {
        Ok(size) => format!(in alloc; "{} {} {}", size.levels, size.values, size.links),
        Err(error) => String::from_str(alloc, error.kind.name()),
    }
}

// Returns the levels, the values and the block of a row.
pub fn limited(alloc: Global, row: &str) -> Result<Option<(Limits, Vec<u8>)>, AllocError> {
    let Some((limits, digits)) = limits(row) else {
        return Ok(None);
    };
    match bytes(alloc, digits)? {
        Some(bytes) => Ok(Some((limits, bytes))),
        None => Ok(None),
    }
}

fn limits(row: &str) -> Option<(Limits, &str)> {
    let (levels, rest) = row.split_once(' ')?;
    let (values, digits) = rest.split_once(' ')?;
    let (levels, values) = (levels.parse().ok()?, values.parse().ok()?);
    Some((Limits { levels, values }, digits))
}

fn flip(bytes: &mut [u8], index: usize, mask: u8) {
    if let Some(byte) = bytes.get_mut(index) {
        *byte ^= mask;
    }
}

fn check_both(alloc: Global, block: &[u8]) -> Result<String, AllocError> {
    let with = of_floats(alloc, block, ALL)?;
    let without = of_plain(alloc, block)?;
    if with == without {
        return Ok(with);
    }
    format!(in alloc; "{with} / {without}")
}

// Returns the positions of links, and whether the keys are sorted.
fn described(
    alloc: Global,
    count: usize,
    positions: &[LinkPosition],
    is_sorted: bool,
) -> Result<String, AllocError> {
    let mut text = format!(in alloc; "{count} ")?;
    for position in positions {
        let place = format!(in alloc; "{}+{},", position.offset, position.length)?;
        text.push_str(place.as_str())?;
    }
    text.push_str(if is_sorted { "sorted" } else { "unsorted" })?;
    Ok(text)
}

fn text_of_error(alloc: Global, error: BlockError) -> Result<String, AllocError> {
    format!(in alloc; "{}@{}", error.kind.name(), error.offset)
}

fn of_floats(alloc: Global, block: &[u8], limits: Limits) -> Result<String, AllocError> {
    let options = ReadOptions {
        limits,
        floats: true,
    };
    read(alloc, block, &options)
}

// Reads the parts with each of the calls, which have to agree.
fn read(alloc: Global, block: &[u8], options: &ReadOptions) -> Result<String, AllocError> {
    let checked = check_block(alloc, block, options);
    let links = links_of_block(alloc, block, options);
    let count = count_links(alloc, block, options);
    let positions = link_positions(alloc, block, options);
    let canonical = is_canonical(alloc, block, options);
    match (checked, links, count, positions, canonical) {
        (Ok(()), Ok(links), Ok(count), Ok(positions), Ok(is_sorted)) => {
            if links.len() != count {
                return String::from_str(alloc, "other links");
            }
            described(alloc, count, positions.as_slice(), is_sorted)
        }
        (Err(first), Err(second), Err(third), Err(fourth), Err(fifth)) => {
            if first != second || first != third || first != fourth || first != fifth {
                return String::from_str(alloc, "other errors");
            }
            text_of_error(alloc, first)
        }
        _ => String::from_str(alloc, "a block and none"),
    }
}

// Reads the parts without floats. Decoding has to return the same error.
fn of_plain(alloc: Global, block: &[u8]) -> Result<String, AllocError> {
    let decoded = match decode_slice_within(alloc, block, &ALL) {
        Ok(_) => Ok(()),
        Err(error) => Err(error),
    };
    let options = ReadOptions {
        limits: ALL,
        floats: false,
    };
    if decoded != check_block(alloc, block, &options) {
        return String::from_str(alloc, "another error of the tree");
    }
    read(alloc, block, &options)
}
