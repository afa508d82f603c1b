//! The caller's buffers.

ghost use Rattle.kombilad_c.specs.Fill.{Fills};

use crate::status::{OK, TOO_SHORT};

/// Writes the bytes to the beginning of the buffer if they fit. Sets `needed` to their number in
/// either case.
#[inline(always)]
pub(crate) fn fill(content: &[u8], buffer: &mut [u8], needed: &mut usize) -> u32
    ensures { Fills content.now result buffer.old buffer.new needed.new }
{
    *needed = content.len();
    if buffer.len() < content.len() {
        return TOO_SHORT;
    }
    buffer[..content.len()].copy_from_slice(content);
    OK
}
