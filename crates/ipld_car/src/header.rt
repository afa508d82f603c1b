//! The header of version 1.

ghost use Rattle.std.specs.Prelude.{◌≡◌, map, IfOk, IfSome, IfNone, List};
ghost use Rattle.ipld_cid.specs.Cid.{Link};
ghost use Rattle.ipld_cid.specs.LinkOf.{link_of};
ghost use Rattle.ipld_tree.specs.Tree as tree;
ghost use Rattle.ipld_tree.specs.TreeOf.{tree_of};
ghost use Rattle.ipld_car.specs.Header.{links, header_tree};
ghost use Rattle.ipld_car.specs.HeaderReading.{ReadsRoots};

use crate::error::CarErrorKind;
use dag_cbor::{BlockErrorKind, CborError, decode_slice_within};
use ipld_cid::Cid;
use ipld_tree::macros::ListBuilder;
use ipld_tree::{Ipld, Limits, ipld};
use std::alloc::{AllocError, Global};

// The nesting of a header: a map, and a list in it.
const LEVELS: usize = 2;

// The roots as a list of links.
fn root_links(alloc: Global, roots: &[Cid]) -> Result<Ipld, AllocError>
    ensures { IfOk result (λ value. tree_of value ≡ tree.list (links (map link_of roots.now))) }
{
    let mut items = ListBuilder::with_capacity(alloc, roots.len())?;
    for root in roots {
        items.push(Ipld::Link(*root))?;
    }
    Ok(Ipld::List(items.finish()))
}

// The tree of the header with these roots.
pub(crate) fn header_of(alloc: Global, roots: &[Cid]) -> Result<Ipld, AllocError>
    ensures { IfOk result (λ value. tree_of value ≡ header_tree (map link_of roots.now)) }
{
    let links = root_links(alloc, roots)?;
    ipld!(alloc, {"roots": links, "version": 1u8})
}

// Returns the roots if the tree is that of a header.
#[tactic(auto, using(crate::proofs::Headers::header_found, crate::proofs::Headers::header_none))]
fn roots_of_tree(alloc: Global, value: &Ipld) -> Result<Option<Vec<Cid>>, AllocError>
    ensures found { IfOk result (λ some.
        IfSome some (λ roots. tree_of value.now ≡ header_tree (map link_of roots.items))) }
    ensures none { IfOk result (λ some. IfNone some ((roots : List Link)
        → tree_of value.now ≡ header_tree roots → ⊥)) }
{
    let mut roots = Vec::new(alloc);
    value.references(alloc, &mut roots)?;
    let header = header_of(alloc, &roots)?;
    if *value == header {
        Ok(Some(roots))
    } else {
        Ok(None)
    }
}

// The roots in a header's block.

pub(crate) fn roots_of(alloc: Global, block: &[u8]) -> Result<Vec<Cid>, CarErrorKind>
    ensures { ReadsRoots block.now result }
{
    let limits = Limits {
        levels: LEVELS,
        values: usize::MAX,
    };
    let value = match decode_slice_within(alloc, block, &limits) {
        Ok(value) => value,
        Err(error) => {
            return match error.kind {
                BlockErrorKind::Cbor(CborError::Memory) => Err(CarErrorKind::Memory),
                kind => Err(CarErrorKind::HeaderBlock(kind)),
            };
        }
    };
    match roots_of_tree(alloc, &value) {
        Ok(Some(roots)) => Ok(roots),
        Ok(None) => Err(CarErrorKind::NotAHeader),
        Err(AllocError) => Err(CarErrorKind::Memory),
    }
}
