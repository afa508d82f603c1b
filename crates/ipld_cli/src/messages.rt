//! The messages of the program `ipld`.
//!
//! An [`Explanation`] describes the error of a block in a sentence, with the item at the invalid
//! byte, and similar types do so for a CAR and a digest. A [`Hint`] names the format that a file
//! seems to have if it is not the expected one. An [`Outcome`] is how a command ends.
//!
//! ```rust
//! use crate::messages::{Explanation, Hint};
//!
//! let hint = Hint::of_no_block(alloc, codec, &bytes);
//! let why = Explanation::new(alloc, &bytes, why);
//! report(rt, file, &format_args!("{why}{hint}"), Outcome::NotSo);
//! ```

mod car_error;
mod escaped;
mod explain;
mod hint;
mod json_error;
mod named_cid;
mod no_cid;
mod outcome;
mod show_error;
mod start;
mod text_place;
mod write_failure;

pub use car_error::{DigestExplanation, OpeningExplanation, SectionExplanation, beginning_of};
pub use escaped::Escaped;
pub use explain::Explanation;
pub use hint::Hint;
pub use json_error::JsonExplanation;
pub use named_cid::NamedCid;
pub use no_cid::NoCid;
pub use outcome::Outcome;
pub use show_error::ShowExplanation;
pub use write_failure::WriteFailure;
