//! Bytes on the stack.

ghost use Rattle.std.specs.Prelude.{◌≡◌, ◌≤◌, ◌<◌, ◌+◌, ◌++◌, [], ◌∷◌, length};

use std::marker::Model;

/// Up to `CAPACITY` bytes on the stack, such as a text or a header whose length has a bound.
///
/// It is like a vector that cannot grow. Its calls do not allocate, and a caller that adds bytes
/// has to know that the capacity suffices for them.
///
/// ```rust
/// let mut text = ByteBuffer::<160>::new();
/// text.extend(b"b");
/// text.push_base32(&bytes);
/// ```
#[derive(Drop)]
pub struct ByteBuffer<const CAPACITY: usize> {
    bytes: [u8; CAPACITY],
    len: usize,
}

impl<const CAPACITY: usize> Model for ByteBuffer<CAPACITY> {
    ghost use Rattle.std.specs.Prelude.{◌≤◌, List, ℕ, length, take};

    ghost Value = { List ℕ };

    ghost view = { λ b. take b.len b.bytes };

    ghost invariant = { λ b. b.len ≤ length b.bytes };
}

impl<const CAPACITY: usize> ByteBuffer<CAPACITY> {
    /// Creates a buffer without bytes.
    #[inline(always)]
    pub fn new() -> Self
        ensures { result ≡ [] }
    {
        ByteBuffer {
            bytes: [0; CAPACITY],
            len: 0,
        }
    }

    /// Returns the number of bytes in the buffer.
    #[inline(always)]
    pub fn len(&self) -> usize
        ensures { result ≡ length self.now }
    {
        self.len
    }

    /// Returns the bytes.
    #[inline(always)]
    pub fn as_slice(&self) -> &[u8]
        ensures { result.now ≡ self.now }
    {
        &self.bytes[..self.len]
    }

    /// Appends a byte.
    #[inline(always)]
    pub fn push(&mut self, byte: u8)
        requires { length self.old < CAPACITY }
        ensures { self.new ≡ self.old ++ byte ∷ [] }
    {
        self.bytes[self.len] = byte;
        self.len += 1;
    }

    /// Appends these bytes.
    #[inline(always)]
    pub fn extend(&mut self, bytes: &[u8])
        requires { length self.old + length bytes.now ≤ CAPACITY }
        ensures { self.new ≡ self.old ++ bytes.now }
    {
        let end = self.len + bytes.len();
        let all = &mut self.bytes[..];
        all[self.len..end].copy_from_slice(bytes);
        self.len = end;
    }
}
