//! The hash function MurmurHash3_x64_128 of Austin Appleby.
//!
//! ```rust
//! use murmur3::{murmur3_x64_64, murmur3_x64_128};
//!
//! assert_eq!(rt; murmur3_x64_128(b"hello", 0), 0x5b1e_906a_48ae_1d19_cbd8_a7b3_41bd_9b02);
//! assert_eq!(rt; murmur3_x64_64(b"hello"), 0xcbd8_a7b3_41bd_9b02_u64.to_be_bytes());
//! ```
//!
//! The hash is not cryptographic: anyone can make many messages with the same hash. Nothing
//! allocates.
#![tactic(auto)]

mod hash;

pub use hash::{murmur3_x64_64, murmur3_x64_128};
