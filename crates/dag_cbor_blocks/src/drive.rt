//! A block passed to a visitor in the fastest way that reads it.

ghost use Rattle.std.specs.Prelude.{◌≡◌, List};
ghost use Rattle.dag_cbor_format.specs.Trace.{Event};
ghost use Rattle.dag_cbor_blocks.specs.Within.{ReturnsVisitor};

use crate::block::read_events_as;
use crate::block_error::{BlockError, BlockErrorKind};
use crate::options::ReadOptions;
use crate::shallow::{Stop, visit_shallow};
use crate::visit::Visitor;
use dag_cbor_format::CborError;
use std::alloc::Global;

// Passes every part of a block to the visitor, and returns it. It reads by recursion. If that does
// not reach the end of the block, the loop reads it and passes the parts to `spare`, which has not
// taken a part yet either.
//
// It is inlined so that a caller with constant options has only one recursion and one loop.
#[inline(always)]
pub(crate) fn visit_block<V: Visitor>(
    alloc: Global,
    bytes: &[u8],
    options: &ReadOptions,
    visitor: V,
    spare: V,
) -> Result<V, BlockError>
    requires { (events : List Event) → V.answer spare events ≡ V.answer visitor events }
    ensures { ReturnsVisitor options.now.floats V.answer visitor options.now.limits bytes.now
        result }
{
    let mut visitor = visitor;
    match visit_shallow(bytes, options, &mut visitor) {
        Ok(()) => Ok(visitor),
        Err(Stop::Memory) => Err(BlockError {
            kind: BlockErrorKind::Cbor(CborError::Memory),
            offset: 0,
        }),
        Err(Stop::Unread) => {
            drop(visitor);
            let mut spare = spare;
            read_events_as(alloc, bytes, options, &mut spare)?;
            Ok(spare)
        }
    }
}
