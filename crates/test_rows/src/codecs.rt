//! Blocks of any codec.

use dag_pb::DagPbCodec;
use ipld_block::{BlockCodec, check, links_of};
use ipld_codec::{Links, RawCodec};
use std::alloc::{AllocError, Global};

/// Returns the links of a block, each after a blank, or its error: the name of its codec, a blank
/// and the block.
pub fn links(alloc: Global, row: &str) -> Result<String, AllocError> {
    let (name, digits) = row.split_once(' ').unwrap_or((row, ""));
    let (Some(codec), Ok(block)) = (BlockCodec::from_name(name), hex::decode(alloc, digits)) else {
        return String::from_str(alloc, "no codec and block");
    };
    let checked = check(alloc, codec, &block);
    let links = match links_of(alloc, codec, &block) {
        Ok(links) => links,
        Err(error) => {
            return match checked {
                Err(other) if other == error => format!(in alloc; "{error}"),
                _ => String::from_str(alloc, "another outcome of check"),
            };
        }
    };
    if checked.is_err() {
        return String::from_str(alloc, "another outcome of check");
    }
    if !is_count(alloc, codec, &block, links.len()) {
        return String::from_str(alloc, "other links of the codec");
    }
    let mut text = String::from_str(alloc, "links")?;
    for link in &links {
        let link = format!(in alloc; " {link}")?;
        text.push_str(&link)?;
    }
    Ok(text)
}

// Returns whether the type of the codec finds `count` links.
fn is_count(alloc: Global, codec: BlockCodec, block: &[u8], count: usize) -> bool {
    match codec {
        BlockCodec::DagPb => count_links::<DagPbCodec>(alloc, block) == Some(count),
        BlockCodec::Raw => count_links::<RawCodec>(alloc, block) == Some(count),
        // Their types read no floats.
        BlockCodec::DagCbor | BlockCodec::DagJson => true,
    }
}

// Returns the number of links in a block.
fn count_links<C: Links>(alloc: Global, block: &[u8]) -> Option<usize> {
    match C::links(alloc, block) {
        Ok(links) => Some(links.count()),
        Err(_) => None,
    }
}
