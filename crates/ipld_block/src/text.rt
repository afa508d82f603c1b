//! The usual texts of CIDs.

ghost use Rattle.std.specs.Prelude.{◌≡◌, ◌<◌, map, OnOk};
ghost use Rattle.std.specs.Io.KnownBytes.{Appends};
ghost use Rattle.ipld_cid.specs.LinkOf.{link_of};
ghost use Rattle.ipld_block.specs.Texts.{lines_of};
ghost use Rattle.ipld_cid_text.specs.UsualText.{usual_text};

use ipld_cid::{Cid, Version};
use ipld_cid_text::usual_text;
use std::alloc::{AllocError, Global};
use std::io::{self, ErrorKind, Write};

/// Writes the usual text of a CID: base32 for version 1, and base58 for version 0. The text of
/// version 0 is allocated.
///
/// # Errors
///
/// The error of the writer, or `OutOfMemory` if the allocation fails.
#[tactic(auto, using(ipld_cid_text::proofs::UsualTexts::usual_v1))]
pub fn write_cid<W: Write>(alloc: Global, writer: &mut W, cid: &Cid) -> io::Result<()>
    ensures { OnOk result (Appends (W.contents writer.old) (W.contents writer.new)
        (usual_text (link_of cid.now))) }
{
    match cid.version() {
        Version::V0 => match usual_text(alloc, cid) {
            Ok(text) => {
                writer.write_all(text.as_bytes())?;
                Ok(())
            }
            Err(AllocError) => Err(io::Error::from(ErrorKind::OutOfMemory)),
        },
        Version::V1 => {
            write!(writer, "{cid}")?;
            Ok(())
        }
    }
}

/// Writes the text of every CID on a line: base32 for version 1, and base58 for version 0.
///
/// # Errors
///
/// Those of [`write_cid`].
pub fn write_links<W: Write>(alloc: Global, links: &[Cid], writer: &mut W) -> io::Result<()>
    ensures { OnOk result (Appends (W.contents writer.old) (W.contents writer.new)
        (lines_of (map link_of links.now))) }
{
    for link in links {
        write_cid(alloc, writer, link)?;
        writer.write_all(b"\n")?;
    }
    Ok(())
}
