//! The CID of a block.

ghost use Rattle.std.specs.Prelude.{◌≡◌};
ghost use Rattle.sha2.specs.Sha256.{sha256};
ghost use Rattle.ipld_cid.specs.Cid.{link_from_parts};
ghost use Rattle.kombilad_c.specs.CidRecord.{record_of};

use crate::cid_record::CidBytes;
use ipld_cid::{Cid, Multihash, SHA2_256, Version};
use sha2::{Digest, Sha256};

/// Creates the CID of a block: version 1, with the block's codec and its SHA2-256 digest.
#[unsafe(no_mangle)]
pub extern "C" fn kombilad_cid_of_block(codec: u64, block: &[u8], cid: &mut CidBytes)
    ensures { cid.new ≡ record_of (link_from_parts Version.V1 codec
        (record { code = 0x12; digest = sha256 block.now })) }
{
    let digest = Sha256::digest(block);
    match Multihash::wrap(SHA2_256, &digest) {
        Ok(hash) => *cid = CidBytes::of(&Cid::new_v1(codec, hash)),
        Err(_) => unreachable!(),
    }
}
