//! A CID's text in another base, from its text in any base.

// [begin: texts]
use ipld_cid_text::{Base, parse_any, to_string_of_base};
use std::alloc::Global;

/// Returns the text in base58 of the CID that a text or a path names.
pub fn text_in_base58(alloc: Global, text: &str) -> anyhow::Result<String> {
    let cid = parse_any(text)?;
    let text = to_string_of_base(alloc, &cid, Base::Base58Btc)?;
    Ok(text)
}
// [end: texts]

const PATH: &str = "/ipfs/bafybeigdyrzt5sfp7udm7hu76uh7y26nf3efuylqabf3oclgtqy55fbzdi";

/// Prints the text for a path, and why another text is invalid.
pub fn show(rt: &impl Print, alloc: Global) -> anyhow::Result<()> {
    println!(rt; "{}", text_in_base58(alloc, PATH)?)?;
    match text_in_base58(alloc, "zdj7W0") {
        Ok(text) => println!(rt; "{text}")?,
        Err(error) => println!(rt; "{error}")?,
    }
    Ok(())
}
