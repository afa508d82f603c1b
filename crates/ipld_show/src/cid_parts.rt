//! The parts of a CID, and its texts.

ghost use Rattle.std.specs.Prelude.{◌≡◌, ℕ, ◌++◌, List, Option, codes, option_map, Some, OnOk, IfErr, MatchResult};
ghost use Rattle.std.specs.Io.KnownBytes.{Appends};
ghost use Rattle.ipld_block.specs.Blocks.{IsBlock};
ghost use Rattle.ipld_block.specs.Codes.{codec_of_code};
ghost use Rattle.ipld_block.specs.Texts.{usual_text};
ghost use Rattle.ipld_cid.specs.LinkOf.{link_of};
ghost use Rattle.ipld_show.specs.Blocks.{cid_of_block, IsCidError};
ghost use Rattle.ipld_show.specs.CidParts.{line, code_text, version_text, part_lines, IsBaseLine, AreBaseLines, AreCidParts};
ghost use Rattle.ipld_show.specs.Scalars.{hex_text, IsOutputError};

use crate::error::ShowError;
use crate::scalars::write_hex;
use ipld_block::{BlockCodec, check, cid_of, codec_name, hash_name, write_cid};
use ipld_cid::{Cid, Version};
use ipld_cid_text::{Base, ToStringError, to_string_of_base};
use std::alloc::Global;
use std::io::Write;

// Writes a line with the text of a CID in a base.
fn write_in_base<W: Write>(
    alloc: Global,
    cid: &Cid,
    label: &[u8],
    base: Base,
    writer: &mut W,
) -> Result<(), ShowError>
    ensures { MatchResult result (λ _. (t : List ℕ) × IsBaseLine base label.now (link_of cid.now) t
        × Appends (W.contents writer.old) (W.contents writer.new) t) IsOutputError }
{
    match to_string_of_base(alloc, cid, base) {
        Ok(text) => {
            writer.write_all(label)?;
            writer.write_all(text.as_bytes())?;
            writer.write_all(b"\n")?;
            Ok(())
        }
        Err(ToStringError::Memory) => Err(ShowError::Memory),
        // A CID of version 0 has only a text in base58.
        Err(ToStringError::InvalidCidV0Base) => Ok(()),
    }
}

// Writes a line with a code, and with its name if it is known here.
fn write_code<W: Write>(
    label: &[u8],
    name: Option<&'static str>,
    code: u64,
    writer: &mut W,
) -> Result<(), ShowError>
    ensures { MatchResult result (λ _. Appends (W.contents writer.old) (W.contents writer.new)
        (line label.now (code_text (option_map (λ s. s.now) name.entry) code))) IsOutputError }
{
    writer.write_all(label)?;
    match name {
        Some(name) => writeln!(writer, "{name} (0x{code:x})")?,
        None => writeln!(writer, "0x{code:x}")?,
    }
    Ok(())
}

// Writes a line with bytes in hexadecimal digits.
fn write_hex_line<W: Write>(label: &[u8], bytes: &[u8], writer: &mut W) -> Result<(), ShowError>
    ensures { MatchResult result (λ _. Appends (W.contents writer.old) (W.contents writer.new)
        (line label.now (hex_text bytes.now))) IsOutputError }
{
    writer.write_all(label)?;
    write_hex(writer, bytes)?;
    writer.write_all(b"\n")?;
    Ok(())
}

// Writes the line of a CID's text.
fn write_text<W: Write>(alloc: Global, cid: &Cid, writer: &mut W) -> Result<(), ShowError>
    ensures { MatchResult result (λ _. Appends (W.contents writer.old) (W.contents writer.new)
        (line (codes "cid         ") (usual_text (link_of cid.now)))) IsOutputError }
{
    writer.write_all(b"cid         ")?;
    write_cid(alloc, writer, cid)?;
    writer.write_all(b"\n")?;
    Ok(())
}

fn write_version<W: Write>(version: Version, writer: &mut W) -> Result<(), ShowError>
    ensures { MatchResult result (λ _. Appends (W.contents writer.old) (W.contents writer.new)
        (line (codes "version     ") (version_text version))) IsOutputError }
{
    match version {
        Version::V0 => writer.write_all(b"version     0\n")?,
        Version::V1 => writer.write_all(b"version     1\n")?,
    }
    Ok(())
}

// Writes the lines of a CID's parts.
fn write_parts<W: Write>(alloc: Global, cid: &Cid, writer: &mut W) -> Result<(), ShowError>
    ensures { MatchResult result (λ _. (hash : Option (List ℕ)) × Appends (W.contents writer.old)
        (W.contents writer.new) (part_lines hash (link_of cid.now))) IsOutputError }
{
    let bytes = cid.to_bytes(alloc)?;
    write_text(alloc, cid, writer)?;
    write_version(cid.version(), writer)?;
    let codec = cid.codec();
    write_code(b"codec       ", codec_name(codec), codec, writer)?;
    let code = cid.hash().code();
    write_code(b"hash        ", hash_name(code), code, writer)?;
    write_hex_line(b"digest      ", cid.hash().digest(), writer)?;
    write_hex_line(b"bytes       ", &bytes, writer)?;
    Ok(())
}

// Writes the lines of a CID's text in every base.
fn write_bases<W: Write>(alloc: Global, cid: &Cid, writer: &mut W) -> Result<(), ShowError>
    ensures { MatchResult result (λ _. (t : List ℕ) × AreBaseLines (link_of cid.now) t
        × Appends (W.contents writer.old) (W.contents writer.new) t) IsOutputError }
{
    write_in_base(alloc, cid, b"base16      ", Base::Base16Lower, writer)?;
    write_in_base(alloc, cid, b"base32      ", Base::Base32Lower, writer)?;
    write_in_base(alloc, cid, b"base32upper ", Base::Base32Upper, writer)?;
    write_in_base(alloc, cid, b"base36      ", Base::Base36Lower, writer)?;
    write_in_base(alloc, cid, b"base58btc   ", Base::Base58Btc, writer)?;
    write_in_base(alloc, cid, b"base64url   ", Base::Base64Url, writer)?;
    Ok(())
}

/// Writes the parts of a CID, one per line: its text, version, codec, hash function, digest and
/// bytes, and then its text in every base.
///
/// # Errors
///
/// - `Write` if the writer fails.
/// - `Memory` if an allocation fails.
pub fn write_cid_parts<W: Write>(alloc: Global, cid: &Cid, writer: &mut W) -> Result<(), ShowError>
    ensures { MatchResult result (λ _. (t : List ℕ) × AreCidParts (link_of cid.now) t
        × Appends (W.contents writer.old) (W.contents writer.new) t) IsOutputError }
{
    write_parts(alloc, cid, writer)?;
    write_bases(alloc, cid, writer)?;
    Ok(())
}

/// Writes the text of a block's CID on a line. The CID has version 1, the codec, and the SHA2-256
/// digest of the bytes.
///
/// # Errors
///
/// - `Invalid` if the bytes are not a block of this codec. Nothing was written then.
/// - `Write` if the writer fails.
/// - `Memory` if an allocation fails.
#[tactic(auto, using(crate::proofs::BlockItems::cid_failed))]
pub fn write_cid_of_block<W: Write>(
    alloc: Global,
    codec: BlockCodec,
    bytes: &[u8],
    writer: &mut W,
) -> Result<(), ShowError>
    ensures written { OnOk result (IsBlock codec bytes.now × (code : ℕ)
        × (codec_of_code code ≡ Some codec)
        × Appends (W.contents writer.old) (W.contents writer.new)
        (usual_text (cid_of_block code bytes.now) ++ codes "\n")) }
    ensures rejected { IfErr result (λ error. IsCidError codec bytes.now error
        (W.contents writer.old) (W.contents writer.new)) }
{
    match check(alloc, codec, bytes) {
        Ok(()) => {}
        Err(error) => return Err(ShowError::from(error)),
    }
    let cid = cid_of(codec.code(), bytes);
    write_cid(alloc, writer, &cid)?;
    writer.write_all(b"\n")?;
    Ok(())
}
