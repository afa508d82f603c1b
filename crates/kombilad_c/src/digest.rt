//! The check of a block against a CID.

ghost use Rattle.std.specs.Prelude.{◌≡◌, MatchResult};
ghost use Rattle.ipld_cid.specs.Bytes.{read_cid};
ghost use Rattle.kombilad_c.specs.Digest.{Verifies};
ghost use Rattle.kombilad_c.specs.Status as numbers;

use crate::status::{OK, cid_status, verify_status};
use ipld_block::verify;
use ipld_cid::Cid;

/// Compares the digest of a block with that of the CID that the bytes encode.
#[unsafe(no_mangle)]
pub extern "C" fn kombilad_verify(cid: &[u8], block: &[u8]) -> u32
    ensures { MatchResult (read_cid 64 cid.now)
        (λ link. Verifies link block.now result)
        (λ error. result ≡ numbers.cid_status error) }
{
    match Cid::try_from(cid) {
        Ok(cid) => match verify(&cid, block) {
            Ok(()) => OK,
            Err(error) => verify_status(error),
        },
        Err(error) => cid_status(error),
    }
}
