//! Multihashes, and the CIDs of blocks.

use crate::identifiers;
use ipld_block::{cid_of, verify};
use ipld_cid::{
    CID_SERDE_PRIVATE_IDENTIFIER, DAG_CBOR, DAG_PB, IDENTITY, MAX_CID_LEN, Multihash, RAW, SHA2_256,
};
use std::alloc::{AllocError, Global};

/// Returns the multihash that bytes encode, its number of bytes, and its bytes, or the error.
pub fn multihash(alloc: Global, digits: &str) -> Result<String, AllocError> {
    let Ok(bytes) = hex::decode(alloc, digits) else {
        return String::from_str(alloc, "no bytes");
    };
    match Multihash::<64>::from_bytes(bytes.as_slice()) {
        Ok(hash) => {
            let bytes = hex::encode(alloc, hash.to_bytes(alloc)?.as_slice())?;
            format!(in alloc; "{hash:?} {} {bytes}", hash.encoded_len())
        }
        Err(error) => format!(in alloc; "{error:?}"),
    }
}

/// Returns the CID of a block, and the result of verifying it: a codec, a blank and the block.
pub fn of_block(alloc: Global, row: &str) -> Result<String, AllocError> {
    let (codec, digits) = row.split_once(' ').unwrap_or((row, ""));
    let (Ok(codec), Ok(block)) = (codec.parse::<u64>(), hex::decode(alloc, digits)) else {
        return String::from_str(alloc, "no codec and block");
    };
    let cid = cid_of(codec, block.as_slice());
    let outcome = verify(&cid, block.as_slice());
    format!(in alloc; "{cid} {outcome:?}")
}

/// Returns whether a block matches a CID: the CID, a blank and the block.
pub fn verified(alloc: Global, row: &str) -> Result<String, AllocError> {
    let (cid, digits) = row.split_once(' ').unwrap_or((row, ""));
    let (Some(cid), Ok(block)) = (identifiers::cid(alloc, cid), hex::decode(alloc, digits)) else {
        return String::from_str(alloc, "no CID and block");
    };
    let outcome = verify(&cid, block.as_slice());
    format!(in alloc; "{outcome:?}")
}

/// Returns the codes of the table of multicodecs, and the name of the newtype of CIDs.
pub fn codes(alloc: Global) -> Result<String, AllocError> {
    let (codecs, hashes) = ((RAW, DAG_PB, DAG_CBOR), (IDENTITY, SHA2_256));
    format!(in alloc; "{codecs:?} {hashes:?} {MAX_CID_LEN} {CID_SERDE_PRIVATE_IDENTIFIER}")
}
