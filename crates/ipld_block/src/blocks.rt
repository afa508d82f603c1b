//! Blocks of any codec that is read.

ghost use Rattle.std.specs.Prelude.{◌≡◌, Some, true, map, IfOk, IfErr, IsOk, OnOk};
ghost use Rattle.ipld_cid.specs.LinkOf.{link_of};
ghost use Rattle.dag_cbor_format.specs.KeysAscend.{is_sorted};
ghost use Rattle.ipld_block.specs.Blocks.{HasLinks, IsBlock, IsInvalid, IsNotCanonical, IfInvalid, MadeOfCbor};

use crate::codec::BlockCodec;
use crate::error::{CheckError, InvalidBlock};
use dag_cbor_blocks::{
    BlockError, BlockErrorKind, ReadOptions, check_block, is_canonical, links_of_block,
};
use dag_cbor_format::CborError;
use dag_json::floats;
use ipld_cid::Cid;
use ipld_tree::Limits;
use std::alloc::Global;

// Floats are read, and the number of bytes is the only limit. No call here recurses for more than
// 32 levels.
const OPTIONS: ReadOptions = ReadOptions {
    limits: Limits {
        levels: usize::MAX,
        values: usize::MAX,
    },
    floats: true,
};

fn cbor_error(error: BlockError) -> CheckError
    ensures { MadeOfCbor error result }
{
    match error.kind {
        BlockErrorKind::Cbor(CborError::Memory) => CheckError::Memory,
        BlockErrorKind::Cbor(_) => CheckError::Invalid(InvalidBlock::Cbor(error)),
        // No block that fits in memory exceeds the limits of `OPTIONS`.
        BlockErrorKind::TooDeep | BlockErrorKind::TooMany => CheckError::Memory,
    }
}

#[tactic(auto, using(crate::proofs::Faults::no_cbor))]
fn check_cbor(alloc: Global, bytes: &[u8]) -> Result<(), CheckError>
    ensures valid { OnOk result (IsBlock BlockCodec.DagCbor bytes.now) }
    ensures rejected { IfErr result (λ error.
        IfInvalid error (IsInvalid BlockCodec.DagCbor bytes.now)) }
{
    match check_block(alloc, bytes, &OPTIONS) {
        Ok(()) => Ok(()),
        Err(error) => Err(cbor_error(error)),
    }
}

/// Returns the links of a block of this codec, in the order of its bytes. Plain bytes have no
/// links.
///
/// The links of a block of DAG-JSON come in the order of a walk of its tree, in which the keys of a
/// map come in the order of their bytes. The call allocates that tree, and doesn't recurse.
///
/// # Errors
///
/// - `Invalid` if the bytes are not a block of this codec, with the error and its offset.
/// - `Memory` if an allocation fails.
///
/// Plain bytes have neither error.
#[tactic(auto, using(crate::proofs::Faults::no_cbor_by, crate::proofs::Faults::no_pb_by, crate::proofs::Faults::no_json_by))]
pub fn links_of(alloc: Global, codec: BlockCodec, bytes: &[u8]) -> Result<Vec<Cid>, CheckError>
    ensures found { IfOk result (λ links. HasLinks codec bytes.now (map link_of links.items)) }
    ensures rejected { IfErr result (λ error. IfInvalid error (IsInvalid codec bytes.now)) }
    ensures raw { codec ≡ BlockCodec.Raw → IsOk result }
{
    match codec {
        BlockCodec::DagCbor => match links_of_block(alloc, bytes, &OPTIONS) {
            Ok(links) => Ok(links),
            Err(error) => Err(cbor_error(error)),
        },
        BlockCodec::DagPb => match dag_pb::links_of_block(alloc, bytes) {
            Ok(links) => Ok(links),
            Err(error) => Err(CheckError::from(error)),
        },
        BlockCodec::DagJson => match floats::links_of_block(alloc, bytes) {
            Ok(links) => Ok(links),
            Err(error) => Err(CheckError::from(error)),
        },
        BlockCodec::Raw => Ok(Vec::new(alloc)),
    }
}

/// Checks that all of the bytes are a block of this codec. Plain bytes always are.
///
/// # Errors
///
/// Those of [`links_of`].
#[tactic(auto, using(crate::proofs::Faults::is_block))]
pub fn check(alloc: Global, codec: BlockCodec, bytes: &[u8]) -> Result<(), CheckError>
    ensures valid { OnOk result (IsBlock codec bytes.now) }
    ensures rejected { IfErr result (λ error. IfInvalid error (IsInvalid codec bytes.now)) }
    ensures raw { codec ≡ BlockCodec.Raw → IsOk result }
{
    match codec {
        BlockCodec::DagCbor => check_cbor(alloc, bytes),
        BlockCodec::DagPb | BlockCodec::DagJson => match links_of(alloc, codec, bytes) {
            Ok(_) => Ok(()),
            Err(error) => Err(error),
        },
        BlockCodec::Raw => Ok(()),
    }
}

/// Checks that the bytes are a block of DAG-CBOR in canonical form: the keys of every map are
/// sorted length first. This is the only requirement that other blocks need not meet.
///
/// # Errors
///
/// `Invalid` with `NotCanonical` if they are a block in another form. Otherwise the errors of
/// [`links_of`].
#[tactic(auto, using(crate::proofs::Faults::not_canonical))]
pub fn check_canonical(alloc: Global, bytes: &[u8]) -> Result<(), CheckError>
    ensures valid { OnOk result (is_sorted true bytes.now ≡ Some true) }
    ensures rejected { IfErr result (λ error. IfInvalid error (IsNotCanonical bytes.now)) }
{
    match is_canonical(alloc, bytes, &OPTIONS) {
        Ok(true) => Ok(()),
        Ok(false) => Err(CheckError::Invalid(InvalidBlock::NotCanonical)),
        Err(error) => Err(cbor_error(error)),
    }
}
