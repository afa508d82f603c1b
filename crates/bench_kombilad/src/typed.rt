//! The block of a [`Person`] and its tree, read as that struct, and the struct written. The blocks
//! of a [`Post`] and a [`Message`], read.

use crate::message::Message;
use crate::post::Post;
use dag_cbor::decode_slice;
use dag_cbor_serde::{from_slice, to_vec};
use ipld_core::serde::samples::Person;
use ipld_core::serde::{from_ipld, to_ipld};
use std::alloc::Global;

fn person_of(alloc: Global, block: &[u8]) -> Option<Person> {
    from_slice(alloc, block).ok()
}

fn block_of(alloc: Global, person: &Person) -> Option<Vec<u8>> {
    to_vec(alloc, person).ok()
}

/// Reads the struct from the block.
#[unsafe(no_mangle)]
pub extern "C" fn bench_block_to_struct(alloc: Global, block: &[u8], times: u64) -> u64 {
    let mut sum: u64 = 0;
    for _ in 0..times {
        let person = person_of(alloc, block);
        sum = sum.wrapping_add(u64::from(person.is_some()));
    }
    sum
}

/// Writes the struct as a block. The struct is read once.
#[unsafe(no_mangle)]
pub extern "C" fn bench_struct_to_block(alloc: Global, block: &[u8], times: u64) -> u64 {
    let mut sum: u64 = 0;
    if let Some(person) = person_of(alloc, block) {
        for _ in 0..times {
            if let Some(written) = block_of(alloc, &person) {
                sum = sum.wrapping_add(written.len() as u64);
            }
        }
    }
    sum
}

/// Writes the struct as a tree. The struct is read once.
#[unsafe(no_mangle)]
pub extern "C" fn bench_to_ipld(alloc: Global, block: &[u8], times: u64) -> u64 {
    let mut sum: u64 = 0;
    if let Some(person) = person_of(alloc, block) {
        for _ in 0..times {
            let tree = to_ipld(alloc, &person);
            sum = sum.wrapping_add(u64::from(tree.is_ok()));
        }
    }
    sum
}

/// Clones the tree and reads the struct from the clone. The tree is decoded once.
#[unsafe(no_mangle)]
pub extern "C" fn bench_from_ipld(alloc: Global, block: &[u8], times: u64) -> u64 {
    let mut sum: u64 = 0;
    if let Ok(tree) = decode_slice(alloc, block) {
        for _ in 0..times {
            if let Ok(cloned) = tree.try_clone(alloc) {
                let person: Result<Person, _> = from_ipld(alloc, cloned);
                sum = sum.wrapping_add(u64::from(person.is_ok()));
            }
        }
    }
    sum
}

/// Reads the post from the block.
#[unsafe(no_mangle)]
pub extern "C" fn bench_block_to_post(alloc: Global, block: &[u8], times: u64) -> u64 {
    let mut sum: u64 = 0;
    for _ in 0..times {
        let post: Result<Post, _> = from_slice(alloc, block);
        sum = sum.wrapping_add(u64::from(post.is_ok()));
    }
    sum
}

/// Reads the message from the block.
#[unsafe(no_mangle)]
pub extern "C" fn bench_block_to_message(alloc: Global, block: &[u8], times: u64) -> u64 {
    let mut sum: u64 = 0;
    for _ in 0..times {
        let message: Result<Message, _> = from_slice(alloc, block);
        sum = sum.wrapping_add(u64::from(message.is_ok()));
    }
    sum
}
