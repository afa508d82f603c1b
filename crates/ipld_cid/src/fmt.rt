//! Debug strings.

use crate::cid::CidGeneric;
use crate::multihash::Multihash;
use std::fmt;

impl<const S: usize> fmt::Debug for Multihash<S> {
    fn fmt<W: fmt::Write>(&self, f: &mut fmt::Formatter<W>) -> fmt::Result {
        f.debug_struct("Multihash")
            .field("code", &self.code())
            .field("digest", &self.digest())
            .finish()
    }
}

impl<const S: usize> fmt::Debug for CidGeneric<S> {
    fn fmt<W: fmt::Write>(&self, f: &mut fmt::Formatter<W>) -> fmt::Result {
        write!(f, "Cid({self})")
    }
}
