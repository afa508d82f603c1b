//! The reading of blocks without limits other than their length.

ghost use Rattle.std.specs.Prelude.{◌≡◌, ◌⊎◌, Some, IfOk, IfErr, map};
ghost use Rattle.ipld_cid.specs.LinkOf.{link_of};
ghost use Rattle.ipld_tree.specs.TreeOf.{tree_of};
ghost use Rattle.dag_json.specs.Codec.{decoded_in, links_in, limits_of, IsBlockError};

use crate::{ReadError, ReadErrorKind, floats, from_slice};
use ipld_cid::Cid;
use ipld_tree::{Ipld, Limits};
use std::alloc::Global;

/// Returns limits that no block of these bytes exceeds: as many levels and values as there are
/// bytes, and at least one value.
pub fn block_limits(bytes: &[u8]) -> Limits
    ensures { result ≡ limits_of bytes.now }
{
    Limits {
        levels: bytes.len(),
        values: bytes.len().max(1),
    }
}

// Decodes a block as a tree, with or without floats.
pub(crate) fn decode_block(alloc: Global, bytes: &[u8], floats: bool) -> Result<Ipld, ReadError>
    ensures ok { IfOk result (λ tree. decoded_in floats bytes.now ≡ Some (tree_of tree)) }
    ensures err { IfErr result (λ error. (error.kind ≡ ReadErrorKind.Memory)
        ⊎ IsBlockError floats bytes.now error) }
{
    let limits = block_limits(bytes);
    if floats {
        floats::from_slice(alloc, bytes, &limits)
    } else {
        from_slice(alloc, bytes, &limits)
    }
}

// Returns the links of a block, read with or without floats.
pub(crate) fn find_links(alloc: Global, bytes: &[u8], floats: bool) -> Result<Vec<Cid>, ReadError>
    ensures ok { IfOk result (λ links. links_in floats bytes.now ≡ Some (map link_of links.items)) }
    ensures err { IfErr result (λ error. (error.kind ≡ ReadErrorKind.Memory)
        ⊎ IsBlockError floats bytes.now error) }
{
    let tree = match decode_block(alloc, bytes, floats) {
        Ok(tree) => tree,
        Err(error) => return Err(error),
    };
    let mut links = Vec::new(alloc);
    let gathered = tree.references(alloc, &mut links);
    tree.discard();
    match gathered {
        Ok(()) => Ok(links),
        Err(_) => Err(ReadError {
            kind: ReadErrorKind::Memory,
            offset: 0,
        }),
    }
}
