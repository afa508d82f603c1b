//! The links of a block, found in its parts.

ghost use Rattle.std.specs.Prelude.{◌≡◌, [], List};
ghost use Rattle.ipld_cid.specs.Cid.{Link};
ghost use Rattle.dag_cbor_format.specs.Trace.{tokens_in};

use crate::visit::{Event, Visitor};
use ipld_cid::Cid;
use std::alloc::{AllocError, Global};

/// A visitor that finds the links of a block.
#[derive(Drop)]
pub struct LinkFinder {
    /// The links so far, in the order of the block's bytes.
    pub links: Vec<Cid>,
}

impl LinkFinder {
    /// Creates a finder that has no links yet. Does not allocate.
    pub fn new(alloc: Global) -> Self
        ensures { result.links.items ≡ [] }
    {
        LinkFinder {
            links: Vec::new(alloc),
        }
    }
}

impl Visitor for LinkFinder {
    ghost use Rattle.dag_cbor_blocks.specs.LinkFinder.{links_with};

    ghost Answer = { List Link };

    ghost answer = { λ finder events. links_with finder (tokens_in events) };

    #[inline(always)]
    fn visit(&mut self, event: &Event<'_>, _left: usize) -> Result<(), AllocError> {
        match event {
            Event::Link { cid, .. } => {
                self.links.push(*cid)?;
                Ok(())
            }
            _ => Ok(()),
        }
    }
}
