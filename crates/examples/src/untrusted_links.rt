//! The links of an untrusted block, up to a limit.

// [begin: untrusted_links]
ghost use Rattle.std.specs.Prelude.{◌≡◌, ◌≤◌, true, Some, map, IfOk, vec_len};
ghost use Rattle.dag_cbor_format.specs.Trace.{links_read};
ghost use Rattle.ipld_cid.specs.LinkOf.{link_of};

use dag_cbor::{BlockError, ReadOptions, count_links, links_of_block};
use ipld_cid::Cid;
use std::alloc::Global;
use std::{error, fmt};

/// The reason why the links of a block aren't returned.
#[derive(Debug, PartialEq, Eq, Drop)]
pub enum LinksError {
    /// The block has more links than the limit.
    TooMany,
    /// The bytes are not a block or exceed a limit, or an allocation failed.
    Block(BlockError),
}

impl fmt::Display for LinksError {
    fn fmt<W: fmt::Write>(&self, f: &mut fmt::Formatter<W>) -> fmt::Result {
        match self {
            LinksError::TooMany => f.write_str("too many links"),
            LinksError::Block(error) => write!(f, "{error}"),
        }
    }
}

impl error::Error for LinksError {}

impl From<BlockError> for LinksError {
    fn from(error: BlockError) -> Self {
        LinksError::Block(error)
    }
}

/// Returns the links of a block, in the order of its bytes, if there are at most `limit`. The block
/// may have floats.
///
/// The links are counted before the first is stored. Neither pass builds a tree, and both stop if a
/// limit is exceeded.
pub fn links_within(alloc: Global, block: &[u8], limit: usize) -> Result<Vec<Cid>, LinksError>
    ensures few { IfOk result (λ links. vec_len links ≤ limit) }
    ensures found { IfOk result (λ links. links_read true block.now ≡ Some
        (map link_of links.items)) }
{
    let options = ReadOptions {
        floats: true,
        ..ReadOptions::default()
    };
    if count_links(alloc, block, &options)? > limit {
        return Err(LinksError::TooMany);
    }
    Ok(links_of_block(alloc, block, &options)?)
}
// [end: untrusted_links]

// A list of the same link twice, the CID of an empty block. Tag 42 is followed by a zero byte and
// the four bytes of the CID.
const BLOCK: &[u8] = b"\x82\xd8\x2a\x45\x00\x01\x55\x00\x00\xd8\x2a\x45\x00\x01\x55\x00\x00";

/// Prints the links of a block, with the limits 2 and 1, and the error of a cut block.
pub fn show(rt: &impl Print, alloc: Global) -> anyhow::Result<()> {
    for link in &links_within(alloc, BLOCK, 2)? {
        println!(rt; "{link}")?;
    }
    for (block, limit) in [(BLOCK, 1), (&BLOCK[..10], 2)] {
        match links_within(alloc, block, limit) {
            Ok(links) => println!(rt; "{} links", links.len())?,
            Err(error) => println!(rt; "{error}")?,
        }
    }
    Ok(())
}
