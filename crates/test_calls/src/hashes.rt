//! Hashes of bytes, as other programs state them.

mod blake;
mod murmur;
