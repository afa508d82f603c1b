//! The hash function BLAKE2b (RFC 7693) without a key.
//!
//! ```rust
//! use blake2b::Blake2b256;
//!
//! let mut hasher = Blake2b256::new();
//! hasher.update(b"hello ");
//! hasher.update(b"world");
//! let digest: [u8; 32] = hasher.finalize();
//! assert_eq!(rt; digest, Blake2b256::digest(b"hello world"));
//! ```
//!
//! A hasher has the size of one block and the state, about 220 bytes. Nothing allocates.
#![tactic(auto)]

mod buffer;
mod chain;
mod compress;
mod hasher;
mod state;

pub use hasher::{Blake2b, Blake2b256, Blake2b512};
