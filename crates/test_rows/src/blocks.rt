//! Blocks of DAG-CBOR.

use crate::bytes::bytes;
use crate::parts::ALL;
use dag_cbor::{
    BlockErrorKind, CborError, DagCborCodec, ReadOptions, TokenCodec, decode_slice, links_of_block,
};
use ipld_cid::Cid;
use ipld_codec::{Codec, Links};
use std::alloc::{AllocError, Global};

/// Returns the tree that the block decodes to, its links, and the bytes that the tree is encoded
/// as, or the errors.
pub fn block(alloc: Global, digits: &str) -> Result<String, AllocError> {
    let Ok(bytes) = hex::decode(alloc, digits) else {
        return String::from_str(alloc, "no bytes");
    };
    let tree = decoded(alloc, bytes.as_slice())?;
    let links = links_of_row(alloc, bytes.as_slice())?;
    if decode_slice(alloc, bytes.as_slice())
        != TokenCodec::decode_from_slice(alloc, bytes.as_slice())
    {
        return format!(in alloc; "{tree}; {links}; its tokens are another tree");
    }
    if links_found(alloc, bytes.as_slice()) != links_of_tokens(alloc, bytes.as_slice()) {
        return format!(in alloc; "{tree}; {links}; its tokens have other links");
    }
    format!(in alloc; "{tree}; {links}")
}

// Returns the links by the block's tokens. The search for links has to return the same.
fn links_of_tokens(alloc: Global, block: &[u8]) -> Result<Vec<Cid>, CborError> {
    let mut links = Vec::new(alloc);
    for link in TokenCodec::links(alloc, block)? {
        links.push(link)?;
    }
    Ok(links)
}

fn decoded(alloc: Global, block: &[u8]) -> Result<String, AllocError> {
    let tree = match decode_slice(alloc, block) {
        Ok(tree) => tree,
        Err(error) => return format!(in alloc; "{error:?}"),
    };
    match DagCborCodec::encode_to_vec(alloc, &tree) {
        Ok(bytes) => {
            let digits = hex::encode(alloc, bytes.as_slice())?;
            format!(in alloc; "{tree:?}; {digits}")
        }
        Err(error) => format!(in alloc; "{tree:?}; {error:?}"),
    }
}

// Returns the links without floats, or the error without its place.
fn links_found(alloc: Global, block: &[u8]) -> Result<Vec<Cid>, CborError> {
    let options = ReadOptions {
        limits: ALL,
        floats: false,
    };
    match links_of_block(alloc, block, &options) {
        Ok(links) => Ok(links),
        Err(error) => match error.kind {
            BlockErrorKind::Cbor(error) => Err(error),
            _ => Err(CborError::Memory),
        },
    }
}

fn links_of_row(alloc: Global, block: &[u8]) -> Result<String, AllocError> {
    match links_found(alloc, block) {
        Ok(links) => format!(in alloc; "{links:?}"),
        Err(error) => format!(in alloc; "{error:?}"),
    }
}

/// Returns the number of a block's links, and whether its tree is encoded as the same block, or the
/// errors. The tree is not printed, so it may nest to any depth.
pub fn encode_again(alloc: Global, groups: &str) -> Result<String, AllocError> {
    let Some(bytes) = bytes(alloc, groups)? else {
        return String::from_str(alloc, "no bytes");
    };
    let count = match links_found(alloc, bytes.as_slice()) {
        Ok(links) => format!(in alloc; "{} links", links.len())?,
        Err(error) => format!(in alloc; "{error}")?,
    };
    match encoded_again(alloc, bytes.as_slice()) {
        Ok(true) => format!(in alloc; "{count}; the same block"),
        Ok(false) => format!(in alloc; "{count}; another block"),
        Err(error) => format!(in alloc; "{count}; {error}"),
    }
}

fn encoded_again(alloc: Global, block: &[u8]) -> Result<bool, CborError> {
    let tree = decode_slice(alloc, block)?;
    let again = DagCborCodec::encode_to_vec(alloc, &tree);
    tree.discard();
    Ok(again?.as_slice() == block)
}
