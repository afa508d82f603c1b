//! A message that comes in pieces.

ghost use Rattle.std.specs.Prelude.{◌≡◌, ◌++◌, ⊤, ℕ, List, []};
ghost use Rattle.blake2b.specs.Blake2b.{bytes_of, final_state};
ghost use Rattle.blake2b.specs.State.{Holds};

use crate::buffer::Buffer;
use crate::chain::Chain;
use crate::compress::{BLOCK_LEN, compress, to_bytes};
use std::alloc::AllocError;

/// The blocks before the last, compressed, and the last block.
#[derive(Drop)]
pub(crate) struct State {
    chain: Chain,
    // A full block is compressed only when more bytes come, because the last block is compressed in
    // another way.
    last: Buffer,
}

impl State {
    /// Begins the empty message with these state words.
    pub(crate) fn new(initial: [u64; 8]) -> Self
        ensures { Holds initial result [] }
    {
        State {
            chain: Chain::new(initial),
            last: Buffer::new(),
        }
    }

    /// Appends bytes to the message.
    pub(crate) fn update(&mut self, bytes: &[u8])
        ensures { (initial message : List ℕ) → Holds initial self.old message
            → Holds initial self.new (message ++ bytes.now) }
    {
        let room = BLOCK_LEN - self.last.len();
        if bytes.len() <= room {
            self.last.push(bytes);
            return;
        }
        let (front, rest) = bytes.split_at(room);
        self.last.push(front);
        self.chain.compress_blocks(self.last.as_slice());
        let (blocks, last) = rest.split_at((rest.len() - 1) / BLOCK_LEN * BLOCK_LEN);
        self.chain.compress_blocks(blocks);
        self.last.clear();
        self.last.push(last);
    }

    /// Compresses the last block, padded with zeros, and returns the bytes of the state.
    pub(crate) fn finalize(self) -> [u8; 64]
        ensures { (initial message : List ℕ) → Holds initial self message
            → result ≡ bytes_of (final_state initial message) 8 }
    {
        let State { chain, last } = self;
        let Chain { mut state, count } = chain;
        let count = count.wrapping_add(last.len() as u128);
        compress(&mut state, &last.into_block(), count, true);
        to_bytes(&state)
    }
}

impl Clone for State {
    ghost is_clone = { λ x y. y ≡ x };

    ghost is_infallible = { λ _. ⊤ };

    fn clone(&self) -> Result<Self, AllocError> {
        Ok(State {
            chain: self.chain,
            last: self.last.clone()?,
        })
    }
}
