//! Explanations of why a tree isn't read as a typed value.
//!
//! [`from_ipld`](ipld_de::from_ipld) returns a [`SerdeError`](ipld_ser::SerdeError) that describes
//! the error. [`explain`](Explain::explain) reads the tree again and finds the place of the error.
//! It returns the path to the value at fault, the value that is expected there, and the kind that
//! was found.
//!
//! ```
//! use ipld_explain::Explain;
//!
//! if let Some(explanation) = <Vec<u8>>::explain(alloc, tree)? {
//!     println!(rt; "{explanation}")?; // 3: expected a u8, found String
//! }
//! ```
#![tactic(auto)]

mod containers;
mod cursors;
mod enums;
mod explain;
mod explanation;
mod structs;
mod tuples;
mod whole;

pub use enums::{ExplainContent, ExplainVariants, HasFields, Holds, NoContent, explain_enum};
pub use explain::{Explain, explain_whole};
pub use explanation::{Expected, Explanation, Reason, Segment};
pub use structs::{ExplainFields, explain_strict_struct, explain_struct};
