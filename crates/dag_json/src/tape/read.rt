//! The decoding of texts to tapes.

ghost use Rattle.std.specs.Prelude.{true, IfOk, IfErr};
ghost use Rattle.ipld_tree.specs.Tree.{Tree};
ghost use Rattle.dag_json.specs.Encodes.{EncodesWithinIn};
ghost use Rattle.dag_json.specs.TapeReading.{IsTapeOf, IsTapeError, MakesTape};

use crate::floats::from_slice;
use crate::tape::write::{WriteError, tape_of};
use crate::tape::{JsonTapeError, Tape};
use crate::{ReadError, ReadErrorKind};
use ipld_tree::Limits;
use std::alloc::Global;

/// Decodes a text in DAG-JSON, which may have floats, to a tape. It is for untrusted input.
///
/// The text is read as in [`dag_json::floats::from_slice`], within the same limits. The tape has an
/// entry for every value and every key. A link is one entry, and so are bytes. A float is one
/// entry, with eight bytes of content. The pairs of a map are in the order of the bytes of their
/// keys.
///
/// It reads in a loop, and drops a part of the tree as [`Ipld::discard`](ipld_tree::Ipld::discard)
/// does, for example if an error is returned.
/// Besides the tape, it allocates the tree of the text. Every part of the tree is dropped as soon
/// as it is written.
///
/// # Errors
///
/// - `Text` with the error of [`dag_json::floats::from_slice`], or with `Memory` if an allocation of
///   the tape fails.
/// - `TooLong` if a length of an entry would have more than 32 bits, in a text that has no other
///   error.
pub fn tape_from_slice(alloc: Global, bytes: &[u8], limits: &Limits) -> Result<Tape, JsonTapeError>
    ensures found { IfOk result (λ tape. (t : Tree) × EncodesWithinIn true limits.now t bytes.now
        × IsTapeOf t tape) }
    ensures only { (t : Tree) → EncodesWithinIn true limits.now t bytes.now → MakesTape t result }
    ensures rejected { IfErr result (IsTapeError limits.now bytes.now) }
{
    let tree = match from_slice(alloc, bytes, limits) {
        Ok(tree) => tree,
        Err(error) => return Err(JsonTapeError::Text(error)),
    };
    match tape_of(alloc, tree) {
        Ok(tape) => Ok(tape),
        Err(WriteError::TooLong) => Err(JsonTapeError::TooLong),
        Err(WriteError::Memory) => Err(JsonTapeError::Text(ReadError {
            kind: ReadErrorKind::Memory,
            offset: 0,
        })),
    }
}
