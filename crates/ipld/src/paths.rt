//! Paths that begin with a CID, or in the first root of a CAR.

use ipld_cid::Cid;
use ipld_cid_text::parse_any;

/// Splits a path after its first segment.
pub fn split_segment(path: &str) -> (&str, &str) {
    let path = path.trim_start_matches('/');
    path.split_once("/").unwrap_or((path, ""))
}

/// Splits a path after the CID that it begins with, with or without `/ipfs/` or `ipfs://` before it.
pub fn split_cid(path: &str) -> Option<(Cid, &str)> {
    let (first, rest) = split_segment(path);
    let (first, rest) = if first == "ipfs" || first == "ipfs:" {
        split_segment(rest)
    } else {
        (first, rest)
    };
    match parse_any(first) {
        Ok(cid) => Some((cid, rest)),
        Err(_) => None,
    }
}
