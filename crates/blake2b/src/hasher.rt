//! The hasher and its digest.

ghost use Rattle.std.specs.Prelude.{◌≡◌, ◌≤◌, ◌++◌, ⊤, ℕ, List, []};
ghost use Rattle.blake2b.specs.Blake2b.{blake2b};

use crate::compress::IV;
use crate::state::State;
use std::alloc::AllocError;
use std::fmt;

/// BLAKE2b with digests of 32 bytes, which multihashes call `blake2b-256`.
pub type Blake2b256 = Blake2b<32>;

/// BLAKE2b with digests of 64 bytes.
pub type Blake2b512 = Blake2b<64>;

/// A hasher that takes a message in pieces, for a digest of `N` bytes. `N` is 1 to 64.
///
/// The digest doesn't depend on how the message is split. A message may have any length: the counter
/// has 128 bits, so it doesn't wrap at 2^64 bytes.
#[derive(Drop)]
pub struct Blake2b<const N: usize> {
    state: State,
    ghost in_range: { (1 ≤ N) × (N ≤ 64) },
}

impl<const N: usize> Blake2b<N> {
    ghost use Rattle.blake2b.specs.Hasher.{HasAbsorbed};

    /// Creates a hasher of the empty message.
    pub fn new() -> Self
        requires low { 1 ≤ N }
        requires high { N ≤ 64 }
        ensures { HasAbsorbed N result [] }
    {
        Blake2b {
            state: State::new([
                IV[0] ^ 0x0101_0000 ^ N as u64,
                IV[1],
                IV[2],
                IV[3],
                IV[4],
                IV[5],
                IV[6],
                IV[7],
            ]),
        }
    }

    /// Appends bytes to the message. Empty pieces are allowed.
    pub fn update(&mut self, bytes: &[u8])
        ensures { (message : List ℕ) → HasAbsorbed N self.old message
            → HasAbsorbed N self.new (message ++ bytes.now) }
    {
        self.state.update(bytes);
    }

    /// Returns the digest of the message.
    pub fn finalize(self) -> [u8; N]
        ensures { (message : List ℕ) → HasAbsorbed N self.entry message → result ≡ blake2b N message }
    {
        let bytes = self.state.finalize();
        let mut digest = [0; N];
        digest.copy_from_slice(&bytes[..N]);
        digest
    }

    /// Returns the digest of a message.
    pub fn digest(message: &[u8]) -> [u8; N]
        requires low { 1 ≤ N }
        requires high { N ≤ 64 }
        ensures { result ≡ blake2b N message.now }
    {
        let mut hasher = Self::new();
        hasher.update(message);
        hasher.finalize()
    }
}

impl<const N: usize> Clone for Blake2b<N> {
    ghost is_clone = { λ x y. y ≡ x };

    ghost is_infallible = { λ _. ⊤ };

    fn clone(&self) -> Result<Self, AllocError> {
        Ok(Blake2b {
            state: self.state.clone()?,
        })
    }
}

impl<const N: usize> fmt::Debug for Blake2b<N> {
    fn fmt<W: fmt::Write>(&self, f: &mut fmt::Formatter<W>) -> fmt::Result {
        f.write_str("Blake2b { .. }")
    }
}
