//! The CID of a raw block, found while its bytes are read.

ghost use Rattle.std.specs.Prelude.{◌≡◌, List, ℕ, IfOk};
ghost use Rattle.ipld_cid.specs.LinkOf.{link_of};
ghost use Rattle.sha2.specs.Sha256.{sha256};
ghost use Rattle.ipld_cli.specs.RawCid.{NamesAll, raw_link};

use crate::input::Input;
use ipld_cid::{Cid, Multihash, RAW, SHA2_256};
use sha2::{Digest, Sha256};
use std::io::{self, Error, ErrorKind, Read};

// The number of bytes that are read at a time.
const PIECE: usize = 8192;

/// Reads to the end, and returns the CID of a raw block with these bytes: version 1, with their
/// SHA2-256 digest. It keeps only a piece of the bytes at a time, and does not allocate.
///
/// # Errors
///
/// The error of the reader, unless a read was interrupted, which is tried again.
pub fn raw_cid<R: Read>(reader: &mut R) -> io::Result<Cid>
    ensures { IfOk result (NamesAll (R.remaining reader.old) (R.remaining reader.new)) }
{
    let mut hasher = Sha256::new();
    let mut buffer = [0; PIECE];
    for _ in 0..u64::MAX {
        match reader.read(&mut buffer) {
            Ok(0) => return Ok(raw_cid_of_digest(&hasher.finalize())),
            Ok(count) => hasher.update(&buffer[..count]),
            Err(error) if error.kind() == ErrorKind::Interrupted => {}
            Err(error) => return Err(error),
        }
    }
    Err(Error::from(ErrorKind::Other))
}

// Returns the CID of a raw block with this SHA2-256 digest.
fn raw_cid_of_digest(digest: &[u8; 32]) -> Cid
    ensures { link_of result ≡ raw_link digest.now }
{
    let Ok(hash) = Multihash::wrap(SHA2_256, digest) else {
        unreachable!()
    };
    Cid::new_v1(RAW, hash)
}

/// Returns the CID of the raw block in a file, or in standard input if the name is `-`.
///
/// # Errors
///
/// The system's error if the file can't be read.
pub fn raw_cid_of_file(rt: &HostRuntime, name: &str) -> io::Result<Cid>
    ensures { IfOk result (λ cid. (block : List ℕ)
        × (link_of cid ≡ raw_link (sha256 block))) }
{
    raw_cid(&mut Input::open(rt, name)?)
}
