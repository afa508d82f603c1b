//! The printed forms of blocks and CIDs: the tree of a block of any codec, the value at a path in
//! it, its DAG-JSON, and the parts of a CID.
#![tactic(auto)]

mod as_cbor;
mod at_path;
mod blocks;
mod cid_parts;
mod containers;
mod error;
mod json_text;
mod laws;
mod path;
mod places;
mod scalars;
mod tree_text;

pub use at_path::{ValuePlace, reach};
pub use blocks::{link_on_path, show};
pub use cid_parts::{write_cid_of_block, write_cid_parts};
pub use error::ShowError;
pub use json_text::to_json;
pub use laws::item_law;
pub use path::{LinkOnPath, value_at};
pub use tree_text::write_tree;
