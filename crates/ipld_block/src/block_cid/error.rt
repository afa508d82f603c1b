//! The error of a block that is not known to be the one that a content identifier names.

use ipld_cid::write_number;
use std::{error, fmt};

/// The reason why a block is not known to be the one that a content identifier names. Its `Display`
/// is a sentence.
#[derive(Clone, Copy, Debug, PartialEq, Eq)]
pub enum VerifyError {
    /// The hash function has this code in the multicodec table. It is not SHA2-256, SHA2-512,
    /// BLAKE2b-256 or identity.
    UnknownHash(u64),
    /// The digest of the block differs from that of the identifier.
    WrongDigest,
}

impl fmt::Display for VerifyError {
    ghost use Rattle.std.specs.Prelude.{Some};
    ghost use Rattle.ipld_block.specs.VerifyError.{sentence_of};

    ghost output = { λ e. Some (sentence_of e) };

    ghost styled_output = { λ e _. Some (sentence_of e) };

    fn fmt<W: fmt::Write>(&self, f: &mut fmt::Formatter<W>) -> fmt::Result {
        match self {
            VerifyError::UnknownHash(code) => {
                write_number(f, "unsupported hash function with the code ", *code)
            }
            VerifyError::WrongDigest => f.write_str("the block's digest is not that of its CID"),
        }
    }
}

impl error::Error for VerifyError {}
