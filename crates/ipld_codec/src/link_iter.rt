//! The links of a block, one after another.

ghost use Rattle.std.specs.Prelude.{◌≡◌};
ghost use Rattle.std.specs.Iterator.{YieldsFirst, item_count};
ghost use Rattle.ipld_codec.specs.LinkIter.{cids_left};

use ipld_cid::Cid;
use std::alloc::Global;
use std::vec;

/// An iterator over CIDs, in order. After the last CID it always returns `None`. It does not
/// allocate.
#[derive(Drop)]
pub struct LinkIter {
    rest: vec::IntoIter<Cid, Global>,
}

impl LinkIter {
    /// Creates an iterator over these CIDs, in their order and with repetitions.
    pub fn new(cids: Vec<Cid>) -> LinkIter
        ensures { cids_left result ≡ cids.items }
    {
        LinkIter {
            rest: cids.into_iter(),
        }
    }
}

impl Iterator for LinkIter {
    type Item = Cid;

    ghost next_gives = { YieldsFirst cids_left };

    ghost remaining = { item_count cids_left };

    fn next(&mut self) -> Option<Cid> {
        self.rest.next()
    }
}
