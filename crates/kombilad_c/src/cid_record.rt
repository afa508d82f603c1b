//! CIDs as structs for C.

ghost use Rattle.std.specs.Prelude.{◌≡◌, ◌≤◌, length};
ghost use Rattle.ipld_cid.specs.LinkOf.{link_of};

use ipld_cid::{Cid, Version};

/// The bytes of a CID.
#[repr(C)]
#[derive(Clone, Copy)]
pub struct CidBytes {
    /// The number of bytes of the CID, at most 86.
    pub len: u8,
    /// The bytes, and zeros after them.
    pub bytes: [u8; 87],
}

/// The parts of a CID.
#[repr(C)]
#[derive(Clone, Copy)]
pub struct CidParts {
    /// The version, 0 or 1.
    pub version: u64,
    /// The codec of the content.
    pub codec: u64,
    /// The code of the hash function.
    pub hash: u64,
    /// The length of the digest, which is the end of the CID's bytes.
    pub digest_len: usize,
}

impl CidBytes {
    ghost use Rattle.kombilad_c.specs.CidRecord.{bytes_in, record_of, record_with};

    // Creates a record of these bytes, with their length.
    #[inline(always)]
    pub(crate) fn with(content: &[u8]) -> Self
        requires { length content.now ≤ 87 }
        ensures { result ≡ record_with content.now }
    {
        let mut bytes = [0; 87];
        bytes[..content.len()].copy_from_slice(content);
        CidBytes {
            len: content.len() as u8,
            bytes,
        }
    }

    /// Creates the record of a CID's bytes.
    #[inline(always)]
    pub(crate) fn of(cid: &Cid) -> Self
        ensures { result ≡ record_of (link_of cid.now) }
    {
        let mut bytes = [0; 87];
        match cid.write_to(&mut bytes) {
            Some(len) => CidBytes {
                len: len as u8,
                bytes,
            },
            None => unreachable!(),
        }
    }

    // Returns the bytes of the CID.
    pub(crate) fn as_slice(&self) -> &[u8]
        ensures { result.now ≡ bytes_in self.now }
    {
        &self.bytes[..usize::from(self.len).min(self.bytes.len())]
    }
}

impl CidParts {
    ghost use Rattle.kombilad_c.specs.CidRecord.{parts_of};

    /// Creates the record of a CID's parts.
    #[inline(always)]
    pub(crate) fn of(cid: &Cid) -> Self
        ensures { result ≡ parts_of (link_of cid.now) }
    {
        CidParts {
            version: match cid.version() {
                Version::V0 => 0,
                Version::V1 => 1,
            },
            codec: cid.codec(),
            hash: cid.hash().code(),
            digest_len: cid.hash().size(),
        }
    }
}
