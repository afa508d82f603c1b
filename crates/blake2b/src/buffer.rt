//! The last block of a message, as far as it has come.

ghost use Rattle.std.specs.Prelude.{◌≡◌, ◌+◌, ◌-◌, ◌≤◌, ◌++◌, ⊤, [], length, replicate};

use crate::compress::BLOCK_LEN;
use std::alloc::AllocError;
use std::marker::Model;

/// At most a block of bytes.
#[derive(Drop)]
pub(crate) struct Buffer {
    bytes: [u8; BLOCK_LEN],
    len: usize,
}

impl Model for Buffer {
    ghost use Rattle.std.specs.Prelude.{◌≤◌, List, ℕ, take};

    ghost Value = { List ℕ };

    ghost view = { λ b. take b.len b.bytes };

    ghost invariant = { λ b. b.len ≤ 128 };
}

impl Buffer {
    /// Creates an empty buffer.
    pub(crate) fn new() -> Self
        ensures { result ≡ [] }
    {
        Buffer {
            bytes: [0; BLOCK_LEN],
            len: 0,
        }
    }

    /// Returns the number of bytes.
    pub(crate) fn len(&self) -> usize
        ensures value { result ≡ length self.now }
        ensures fits { result ≤ 128 }
    {
        self.len
    }

    /// Returns the bytes.
    pub(crate) fn as_slice(&self) -> &[u8]
        ensures { result.now ≡ self.now }
    {
        &self.bytes[..self.len]
    }

    /// Appends bytes that fit.
    pub(crate) fn push(&mut self, bytes: &[u8])
        requires { length self.old + length bytes.now ≤ 128 }
        ensures { self.new ≡ self.old ++ bytes.now }
    {
        let len = self.len;
        self.bytes[len..len + bytes.len()].copy_from_slice(bytes);
        self.len = len + bytes.len();
    }

    /// Removes the bytes.
    pub(crate) fn clear(&mut self)
        ensures { self.new ≡ [] }
    {
        self.len = 0;
    }

    /// Returns the bytes as a block, padded with zeros.
    pub(crate) fn into_block(self) -> [u8; BLOCK_LEN]
        ensures { result ≡ self ++ replicate (128 - length self) 0 }
    {
        let Buffer { mut bytes, len } = self;
        bytes[len..].fill(0);
        bytes
    }
}

impl Clone for Buffer {
    ghost is_clone = { λ x y. y ≡ x };

    ghost is_infallible = { λ _. ⊤ };

    fn clone(&self) -> Result<Self, AllocError> {
        Ok(Buffer {
            bytes: self.bytes,
            len: self.len,
        })
    }
}
