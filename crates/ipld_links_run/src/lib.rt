//! The work of the program `ipld_links`, over any reader and any writer.
//!
//! [`run`] takes a word, reads lines and writes lines. Its word `cid` turns the bytes of CIDs,
//! written as hexadecimal digits, into their texts:
//!
//! ```text
//! 01711220354d455ff3a641b8cac25c38a77e64aa735dc8a48966a60f1a78caa172a4885e
//! ```
//!
//! is turned into
//!
//! ```text
//! bafyreibvjvcv745gig4mvqs4hctx4zfkono4rjejm2ta6gtyzkqxfjeily
//! ok 1
//! ```
//!
//! Its words `links` and `refs` find the links of a value. Each line is a token: a name, or a name,
//! one blank and a field.
//!
//! ```text
//! seq
//! link
//! bytes 01550000
//! seqend
//! ```
//!
//! is turned into
//!
//! ```text
//! bafkqaaa
//! ok 1
//! ```
//!
//! Its word `cbor` finds the links of blocks of DAG-CBOR, each written as hexadecimal digits on a
//! line.
//!
//! The contract of [`run`] states the output as a function of the input.
#![tactic(auto)]

mod arguments;
mod byte_lines;
mod digits;
mod items;
mod lines;
mod owned_token;
mod program;
mod status;
mod token_line;
mod token_lines;
mod verdict;

pub use arguments::word_of;
pub use program::run;
pub use status::{RunFault, Status};
