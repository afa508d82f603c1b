//! The bytes and texts of CIDs, and their order.

ghost use Rattle.std.specs.Prelude.{◌≤◌};

use ipld_cid::{Cid, CidError, CidGeneric};
use std::alloc::{AllocError, Global};
use std::hash::{DefaultHasher, Hash, Hasher};

/// Reads the CID of the bytes in the digits. The capacity for its digest comes before them.
pub fn from_bytes(alloc: Global, line: &str) -> Result<String, AllocError> {
    let (capacity, digits) = line.split_once(' ').unwrap_or((line, ""));
    let Ok(bytes) = hex::decode(alloc, digits) else {
        return String::from_str(alloc, "no bytes");
    };
    match capacity {
        "0" => text_of_reading(alloc, CidGeneric::<0>::try_from(bytes.as_slice())),
        "16" => text_of_reading(alloc, CidGeneric::<16>::try_from(bytes.as_slice())),
        "32" => text_of_reading(alloc, CidGeneric::<32>::try_from(bytes.as_slice())),
        "64" => text_of_reading(alloc, Cid::try_from(bytes.as_slice())),
        "128" => text_of_reading(alloc, CidGeneric::<128>::try_from(bytes.as_slice())),
        _ => String::from_str(alloc, "no such capacity"),
    }
}

/// Reads the CID of a text. Parsing has to return the same.
pub fn from_text(alloc: Global, text: &str) -> Result<String, AllocError> {
    let read = Cid::from_text(alloc, text);
    if text.parse::<Cid>() != read || Cid::try_from(text) != read {
        return String::from_str(alloc, "parsed as something else");
    }
    text_of_reading(alloc, read)
}

fn text_of_reading<const S: usize>(
    alloc: Global,
    read: Result<CidGeneric<S>, CidError>,
) -> Result<String, AllocError>
    requires { S ≤ 128 }
{
    match read {
        Ok(cid) => parts(alloc, &cid),
        Err(error) => format!(in alloc; "{error:?}"),
    }
}

fn parts<const S: usize>(alloc: Global, cid: &CidGeneric<S>) -> Result<String, AllocError>
    requires { S ≤ 128 }
{
    let hash = cid.hash();
    let digest = hex::encode(alloc, hash.digest())?;
    let bytes = hex::encode(alloc, cid.to_bytes(alloc)?.as_slice())?;
    let (version, codec, code) = (cid.version(), cid.codec(), hash.code());
    format!(in alloc; "{version:?} {codec} {code} [{digest}] {bytes} {cid}")
}

/// Returns the CID whose bytes are written as the digits.
pub fn cid(alloc: Global, digits: &str) -> Option<Cid> {
    let bytes = hex::decode(alloc, digits).ok()?;
    Cid::try_from(bytes.as_slice()).ok()
}

fn hash_of<T: Hash>(value: &T) -> u64 {
    let mut state = DefaultHasher::new();
    value.hash(&mut state);
    state.finish()
}

/// Returns the order of the CIDs of two groups of digits.
pub fn order(alloc: Global, line: &str) -> Result<String, AllocError> {
    let (one, other) = line.split_once(' ').unwrap_or((line, ""));
    let (Some(one), Some(other)) = (cid(alloc, one), cid(alloc, other)) else {
        return String::from_str(alloc, "no CID");
    };
    let (order, equal) = (one.cmp(&other), one == other);
    let same_hash = hash_of(&one) == hash_of(&other);
    format!(in alloc; "{order:?} {equal} {same_hash}")
}
