//! A block whose digest was checked, or that is taken unchecked.

ghost use Rattle.std.specs.Prelude.{◌≡◌, false, Some, IfOk, IfErr};
ghost use Rattle.std.specs.Io.KnownBytes.{Appends};
ghost use Rattle.ipld_cid.specs.LinkOf.{link_of};
ghost use Rattle.ipld_block.specs.Digest.{digest_by, IsVerifyError};

use crate::output::{Content, OutputError};
use ipld_block::{VerifyError, verify};
use ipld_cid::Cid;
use std::io::Write;

/// A block whose digest is the one of its CID, or that was taken unchecked.
#[derive(Clone, Copy)]
pub struct CheckedBlock<'a> {
    cid: &'a Cid,
    bytes: &'a [u8],
    is_unchecked: bool,
    ghost checked: { is_unchecked ≡ false
        → digest_by (link_of cid.now).code bytes.now ≡ Some (link_of cid.now).digest },
}

impl<'a> CheckedBlock<'a> {
    /// Returns the block, if its digest is the one of the CID or `is_unchecked` is true.
    ///
    /// # Errors
    ///
    /// Those of [`verify`], if `is_unchecked` is false.
    pub fn new(cid: &'a Cid, bytes: &'a [u8], is_unchecked: bool) -> Result<Self, VerifyError>
        ensures ok { IfOk result (λ block. (block.cid.now ≡ cid.entry.now)
            × (block.bytes.now ≡ bytes.entry.now) × (block.is_unchecked ≡ is_unchecked)) }
        ensures err { IfErr result (λ error. (is_unchecked ≡ false)
            × IsVerifyError (link_of cid.entry.now) bytes.entry.now error) }
    {
        if is_unchecked {
            return Ok(CheckedBlock {
                cid,
                bytes,
                is_unchecked,
            });
        }
        match verify(cid, bytes) {
            Ok(()) => Ok(CheckedBlock {
                cid,
                bytes,
                is_unchecked,
            }),
            Err(error) => Err(error),
        }
    }

    /// Returns the CID.
    pub fn cid(&self) -> &'a Cid
        ensures { result.now ≡ self.now.cid.now }
    {
        self.cid
    }

    /// Returns the bytes of the block.
    pub fn bytes(&self) -> &'a [u8]
        ensures { result.now ≡ self.now.bytes.now }
    {
        self.bytes
    }
}

impl<'a> Content for CheckedBlock<'a> {
    fn write_to<W: Write + Drop>(&self, writer: W) -> Result<W, OutputError>
        ensures { IfOk result (λ to.
            Appends (W.contents writer) (W.contents to) self.now.bytes.now) }
    {
        let mut writer = writer;
        writer.write_all(self.bytes)?;
        writer.flush()?;
        Ok(writer)
    }
}
