//! CIDs read from bytes and texts, and written. The bytes are CIDs of 36 bytes one after another,
//! and the texts have 59 letters each.

use ipld_core::cid::Cid;
use std::alloc::{AllocError, Global};
use std::str;

const BYTES: usize = 36;

const LETTERS: usize = 59;

fn cids_of(alloc: Global, bytes: &[u8]) -> Result<Vec<Cid>, AllocError> {
    let mut cids = Vec::with_capacity(alloc, bytes.len() / BYTES)?;
    for one in bytes.chunks_exact(BYTES) {
        if let Ok(cid) = Cid::try_from(one) {
            cids.push(cid)?;
        }
    }
    Ok(cids)
}

fn cids_of_texts(alloc: Global, texts: &[u8]) -> Result<Vec<Cid>, AllocError> {
    let mut cids = Vec::with_capacity(alloc, texts.len() / LETTERS)?;
    for one in texts.chunks_exact(LETTERS) {
        if let Ok(text) = str::from_utf8(one) {
            if let Ok(cid) = Cid::from_text(alloc, text) {
                cids.push(cid)?;
            }
        }
    }
    Ok(cids)
}

/// Reads the CIDs from their bytes into a vector.
#[unsafe(no_mangle)]
pub extern "C" fn bench_cid_from_bytes(alloc: Global, bytes: &[u8], times: u64) -> u64 {
    let mut sum: u64 = 0;
    for _ in 0..times {
        if let Ok(cids) = cids_of(alloc, bytes) {
            sum = sum.wrapping_add(cids.len() as u64);
        }
    }
    sum
}

/// Reads the CIDs from their texts into a vector.
#[unsafe(no_mangle)]
pub extern "C" fn bench_cid_from_text(alloc: Global, texts: &[u8], times: u64) -> u64 {
    let mut sum: u64 = 0;
    for _ in 0..times {
        if let Ok(cids) = cids_of_texts(alloc, texts) {
            sum = sum.wrapping_add(cids.len() as u64);
        }
    }
    sum
}

/// Writes the bytes of the CIDs, which are read once.
#[unsafe(no_mangle)]
pub extern "C" fn bench_cid_to_bytes(alloc: Global, bytes: &[u8], times: u64) -> u64 {
    let mut sum: u64 = 0;
    if let Ok(cids) = cids_of(alloc, bytes) {
        for _ in 0..times {
            for cid in cids.iter() {
                if let Ok(written) = cid.to_bytes(alloc) {
                    sum = sum.wrapping_add(written.len() as u64);
                }
            }
        }
    }
    sum
}

/// Writes the texts of the CIDs, which are read once.
#[unsafe(no_mangle)]
pub extern "C" fn bench_cid_to_text(alloc: Global, bytes: &[u8], times: u64) -> u64 {
    let mut sum: u64 = 0;
    if let Ok(cids) = cids_of(alloc, bytes) {
        for _ in 0..times {
            for cid in cids.iter() {
                if let Ok(text) = cid.to_text(alloc) {
                    sum = sum.wrapping_add(text.len() as u64);
                }
            }
        }
    }
    sum
}
