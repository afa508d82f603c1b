//! A tree that is built and encoded as a block, and the CID of the block.

ghost use Rattle.std.specs.Prelude.{◌≡◌, Some, IfOk};
ghost use Rattle.dag_cbor_format.specs.Canonical.{canonical};
ghost use Rattle.ipld_cid.specs.LinkOf.{link_of};
ghost use Rattle.ipld_tree.specs.TreeOf.{tree_of};
ghost use Rattle.sha2.specs.Sha256.{sha256};

// [begin: build]
use ipld_cid::Cid;
use ipld_tree::{Ipld, ipld};
use std::alloc::{AllocError, Global};

/// Returns an album with two pages, one of which is still missing.
pub fn album(alloc: Global, page: Cid) -> Result<Ipld, AllocError> {
    ipld!(alloc, {"title": "Summer", "year": 2024u16, "pages": [page, null]})
}
// [end: build]

// [begin: encode]
use dag_cbor::{CborError, DagCborCodec};
use ipld_codec::Codec;

/// Returns the block of a tree: the only one in which the keys of each map are sorted.
pub fn block_of(alloc: Global, tree: &Ipld) -> Result<Vec<u8>, CborError>
    ensures { IfOk result (λ block. canonical (tree_of tree.now) ≡ Some block.items) }
{
    DagCborCodec::encode_to_vec(alloc, tree)
}
// [end: encode]

// [begin: name]
use ipld_block::cid_of;
use ipld_cid::DAG_CBOR;

/// Returns the CID of a block of DAG-CBOR, by its SHA2-256 digest.
pub fn name_of(block: &[u8]) -> Cid
    ensures { (link_of result).digest ≡ sha256 block.now }
{
    cid_of(DAG_CBOR, block)
}
// [end: name]

/// Prints the block of an empty map, the block of an album with this map's CID on a page, their
/// CIDs, and the album's links.
pub fn show(rt: &impl Print, alloc: Global) -> anyhow::Result<()> {
    let empty = block_of(alloc, &ipld!(alloc, {})?)?;
    let page = name_of(&empty);
    println!(rt; "{} {page}", hex::encode(alloc, empty.as_slice())?)?;
    let album = album(alloc, page)?;
    let block = block_of(alloc, &album)?;
    println!(rt;
        "{} {}",
        hex::encode(alloc, block.as_slice())?,
        name_of(&block)
    )?;
    let mut links = Vec::new(alloc);
    album.references(alloc, &mut links)?;
    for link in &links {
        println!(rt; "page {link}")?;
    }
    Ok(())
}
