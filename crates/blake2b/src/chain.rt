//! The state words after whole blocks of a message.

ghost use Rattle.std.specs.Prelude.{◌≡◌, ◌%◌, ◌++◌, ℕ, List, [], length};

use crate::compress::{BLOCK_LEN, compress};

/// The state words, and the number of bytes that they have taken in.
#[derive(Clone, Copy)]
pub(crate) struct Chain {
    pub(crate) state: [u64; 8],
    // Modulo 2^128, as the counter of the compression function.
    pub(crate) count: u128,
}

impl Chain {
    ghost use Rattle.blake2b.specs.Chain.{IsAfter};

    /// Begins with these state words.
    pub(crate) fn new(state: [u64; 8]) -> Self
        ensures { IsAfter state result [] }
    {
        Chain { state, count: 0 }
    }

    /// Compresses whole blocks, none of which is the last.
    pub(crate) fn compress_blocks(&mut self, blocks: &[u8])
        requires { length blocks.now % 128 ≡ 0 }
        ensures { (initial bytes : List ℕ) → IsAfter initial self.old bytes
            → IsAfter initial self.new (bytes ++ blocks.now) }
    {
        let block_count = blocks.len() / BLOCK_LEN;
        'each: for i in 0..block_count {
            let at = BLOCK_LEN * i;
            self.count = self.count.wrapping_add(BLOCK_LEN as u128);
            compress(
                &mut self.state,
                &blocks[at..at + BLOCK_LEN],
                self.count,
                false,
            );
        }
    }
}
