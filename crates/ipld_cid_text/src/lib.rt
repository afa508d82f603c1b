//! Texts of content identifiers (CIDs): `Qm..` for version 0, and multibase texts in six bases for
//! version 1.
//!
//! ```rust
//! use ipld_cid_text::{Base, parse_any, to_string_of_base};
//!
//! let cid = parse_any("/ipfs/QmdfTbBqBPQ7VNxZEYEj14VmRuZBkqFbiwReogJgS1zR1n")?;
//! let text = to_string_of_base(alloc, &cid, Base::Base58Btc)?;
//! ```
//!
//! [`parse_any`] reads every text that [`to_string_of_base`] writes, and returns the same CID. No
//! text belongs to two CIDs. Reading does not allocate.
#![tactic(auto)]

mod base;
mod convert;
mod digits;
mod encode;
mod error;
mod letters;
mod limbs;
mod parse;
mod regroup;
mod tail;
mod write;

pub use base::Base;
pub use error::{TextError, ToStringError};
pub use parse::parse_any;
pub use write::{to_string_of_base, usual_text};
