//! The text of a version 1 CID in base32, made from the CID's bytes.

ghost use Rattle.std.specs.Prelude.{◌∷◌, MatchOption};
ghost use Rattle.ipld_cid.specs.Base32.{base32};
ghost use Rattle.kombilad_c.specs.Fill.{Fills, IsUntouched};

use crate::fill::fill;
use ipld_cid::{ByteBuffer, MAX_CID_LEN};

/// Writes the letters of the bytes, with their prefix, to the beginning of the buffer if they fit.
/// Sets `needed` to their number in either case. Returns `None`, and writes nothing, if there are
/// more bytes than a CID can have.
#[inline(always)]
pub(crate) fn fill_base32(bytes: &[u8], text: &mut [u8], needed: &mut usize) -> Option<u32>
    ensures { MatchOption result
        (IsUntouched text.old text.new needed.old needed.new)
        (λ status. Fills (98 ∷ base32 bytes.now) status text.old text.new needed.new) }
{
    if bytes.len() > MAX_CID_LEN {
        return None;
    }
    // Capacity for the text of the longest CID, and more.
    let mut content = ByteBuffer::<160>::new();
    content.extend(b"b");
    content.push_base32(bytes);
    Some(fill(content.as_slice(), text, needed))
}
