//! The tree of a block, which is decoded once: walked, searched for links, and cloned.

use dag_cbor::decode_slice;
use std::alloc::Global;

/// Walks the whole tree.
#[unsafe(no_mangle)]
pub extern "C" fn bench_iter(alloc: Global, block: &[u8], times: u64) -> u64 {
    let mut sum: u64 = 0;
    if let Ok(tree) = decode_slice(alloc, block) {
        for _ in 0..times {
            if let Ok(mut walk) = tree.iter(alloc) {
                for _ in 0..u64::MAX {
                    if walk.next().is_none() {
                        break;
                    }
                    sum = sum.wrapping_add(1);
                }
            }
        }
    }
    sum
}

/// Collects the links of the tree.
#[unsafe(no_mangle)]
pub extern "C" fn bench_references(alloc: Global, block: &[u8], times: u64) -> u64 {
    let mut sum: u64 = 0;
    if let Ok(tree) = decode_slice(alloc, block) {
        for _ in 0..times {
            let mut links = Vec::new(alloc);
            if tree.references(alloc, &mut links).is_ok() {
                sum = sum.wrapping_add(links.len() as u64);
            }
        }
    }
    sum
}

/// Clones the tree.
#[unsafe(no_mangle)]
pub extern "C" fn bench_clone(alloc: Global, block: &[u8], times: u64) -> u64 {
    let mut sum: u64 = 0;
    if let Ok(tree) = decode_slice(alloc, block) {
        for _ in 0..times {
            let cloned = tree.try_clone(alloc);
            sum = sum.wrapping_add(u64::from(cloned.is_ok()));
        }
    }
    sum
}
