//! CIDs in messages.

use ipld_cid::Cid;
use ipld_cid_text::usual_text;
use std::alloc::Global;
use std::fmt;

/// A CID whose `Display` is its usual text, which is allocated: base32 for version 1, and base58
/// for version 0.
#[derive(Clone, Copy)]
pub struct NamedCid<'a> {
    alloc: Global,
    cid: &'a Cid,
}

impl<'a> NamedCid<'a> {
    /// Creates a wrapper of the CID.
    pub fn new(alloc: Global, cid: &'a Cid) -> Self {
        NamedCid { alloc, cid }
    }
}

impl<'a> fmt::Display for NamedCid<'a> {
    fn fmt<W: fmt::Write>(&self, f: &mut fmt::Formatter<W>) -> fmt::Result {
        match usual_text(self.alloc, self.cid) {
            Ok(text) => f.write_str(&text),
            // If an allocation fails, a CID of version 0 is printed in hexadecimal.
            Err(_) => write!(f, "{}", self.cid),
        }
    }
}
