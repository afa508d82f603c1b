//! Definitions of the DAG-CBOR format (RFC 8949 and the DAG-CBOR specification), and functions that
//! read and write single heads and items.
//!
//! `specs/` defines which bytes encode which tree of the IPLD data model, without floats, and which
//! bytes are written for a tree. It also defines which blocks with floats encode which item. Such
//! an item has null instead of every float. `proofs/` contains the laws that relate these
//! definitions. [`CborError`] is the reason why bytes do not encode a tree, and [`Major`] lists the
//! major types.
//!
//! [`item`] reads the item at the front of bytes, [`head`] and [`item_header`] read a part of it,
//! and [`write`] writes one item after another. `dag_cbor_blocks` reads whole blocks, and
//! `dag_cbor` reads their trees.
#![tactic(auto)]

mod error;
pub mod head;
pub mod item;
pub mod item_header;
mod major;
pub mod write;

pub use error::{CborError, CborSentence};
pub use major::Major;
