//! Blocks of DAG-CBOR read, searched for links, and written; and of DAG-PB, read.

use dag_cbor::{DagCborCodec, ReadOptions, decode_slice, decode_slice_within, links_of_block};
use dag_pb::read_node;
use ipld_core::codec::Codec;
use ipld_core::ipld::Limits;
use std::alloc::Global;

/// Decodes the block into a tree.
#[unsafe(no_mangle)]
pub extern "C" fn bench_decode(alloc: Global, block: &[u8], times: u64) -> u64 {
    let mut sum: u64 = 0;
    for _ in 0..times {
        let decoded = decode_slice(alloc, block);
        sum = sum.wrapping_add(u64::from(decoded.is_ok()));
    }
    sum
}

/// Decodes the block into a tree, within limits.
#[unsafe(no_mangle)]
pub extern "C" fn bench_decode_within(alloc: Global, block: &[u8], times: u64) -> u64 {
    let limits = Limits {
        levels: 64,
        values: 1_000_000,
    };
    let mut sum: u64 = 0;
    for _ in 0..times {
        let decoded = decode_slice_within(alloc, block, &limits);
        sum = sum.wrapping_add(u64::from(decoded.is_ok()));
    }
    sum
}

/// Finds the links of the block, without a tree.
#[unsafe(no_mangle)]
pub extern "C" fn bench_links(alloc: Global, block: &[u8], times: u64) -> u64 {
    let options = ReadOptions::default();
    let mut sum: u64 = 0;
    for _ in 0..times {
        if let Ok(links) = links_of_block(alloc, block, &options) {
            sum = sum.wrapping_add(links.len() as u64);
        }
    }
    sum
}

/// Encodes the tree of the block, which is decoded once.
#[unsafe(no_mangle)]
pub extern "C" fn bench_encode(alloc: Global, block: &[u8], times: u64) -> u64 {
    let mut sum: u64 = 0;
    if let Ok(tree) = decode_slice(alloc, block) {
        for _ in 0..times {
            if let Ok(encoded) = DagCborCodec::encode_to_vec(alloc, &tree) {
                sum = sum.wrapping_add(encoded.len() as u64);
            }
        }
    }
    sum
}

/// Reads the node of a block of DAG-PB.
#[unsafe(no_mangle)]
pub extern "C" fn bench_read_node(alloc: Global, block: &[u8], times: u64) -> u64 {
    let mut sum: u64 = 0;
    for _ in 0..times {
        if let Ok(node) = read_node(alloc, block) {
            sum = sum.wrapping_add(node.links.len() as u64);
        }
    }
    sum
}
