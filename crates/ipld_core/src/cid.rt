//! Content identifiers (CIDs) of the multiformats project.
//!
//! ```
//! use ipld_core::cid::{Cid, Multihash, RAW, SHA2_256};
//!
//! let cid = Cid::try_from(block_name)?; // bytes, all of them
//! let other = Cid::new_v1(RAW, Multihash::wrap(SHA2_256, &digest)?);
//! let text = other.to_text(alloc)?; // `b` and base32
//! ```

pub use ipld_cid::{
    Cid, CidError, CidGeneric, DAG_CBOR, DAG_PB, IDENTITY, Multihash, RAW, SHA2_256, Version, laws,
};

/// The name that marks a CID when typed values are written and read.
pub mod serde {
    pub use ipld_cid::CID_SERDE_PRIVATE_IDENTIFIER;
}
