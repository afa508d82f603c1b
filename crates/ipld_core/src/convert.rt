//! Conversions between values of the IPLD data model and Rust types.
//!
//! ```
//! use ipld_core::convert::ConversionError;
//! use ipld_core::ipld::Ipld;
//!
//! let value = Ipld::from(52u8); // an Integer
//! let number = u8::try_from(value)?; // or `ConversionError`, where it is of another kind or out of range
//! ```

pub use ipld_tree::convert::{ConversionError, IntoIpld, IntoKey, TargetType};
