//! Results about a file or a CID for scripts: an object of JSON on a line.

use crate::messages::Explanation;
use ipld_block::{InvalidBlock, codec_name, hash_name};
use ipld_cid::{Cid, Version};
use ipld_cid_text::usual_text;
use json::Writer;
use std::alloc::{AllocError, Global};
use std::io::{self, Write};

// Begins an object whose first member is the file that it describes.
fn begin_object(alloc: Global, file: &str) -> Result<Writer, AllocError> {
    let mut object = Writer::new(Vec::new(alloc));
    object.begin_object()?;
    object.key("file")?;
    object.string(file)?;
    Ok(object)
}

/// Ends an object, and writes it and a line feed by one call of the writer. Returns the line's
/// buffer, empty.
pub(crate) fn write_line<W: Write>(mut object: Writer, writer: &mut W) -> io::Result<Vec<u8>> {
    object.end_object()?;
    let mut line = object.into_inner();
    line.push(b'\n')?;
    writer.write_all(&line)?;
    line.clear();
    Ok(line)
}

// Adds a member whose value is a string.
fn add_string(object: &mut Writer, key: &str, text: &str) -> Result<(), AllocError> {
    object.key(key)?;
    object.string(text)
}

// Adds a name, or the code if it has none.
fn add_name(
    alloc: Global,
    object: &mut Writer,
    key: &str,
    name: Option<&'static str>,
    code: u64,
) -> io::Result<()> {
    match name {
        Some(name) => add_string(object, key, name)?,
        None => add_string(object, key, &format!(in alloc; "{code:#x}")?)?,
    }
    Ok(())
}

/// Writes that a file is a valid block.
pub fn write_valid<W: Write>(alloc: Global, file: &str, writer: &mut W) -> io::Result<()> {
    let mut object = begin_object(alloc, file)?;
    object.key("valid")?;
    object.boolean(true)?;
    write_line(object, writer)?;
    Ok(())
}

/// Writes that a file is not a valid block: the name of the error, the byte if there is one, and a
/// sentence.
pub fn write_invalid<W: Write>(
    alloc: Global,
    file: &str,
    block: &[u8],
    why: InvalidBlock,
    writer: &mut W,
) -> io::Result<()> {
    let mut object = begin_object(alloc, file)?;
    object.key("valid")?;
    object.boolean(false)?;
    add_string(&mut object, "error", why.name())?;
    if let Some(offset) = why.offset() {
        object.key("at")?;
        object.u64(offset as u64)?;
    }
    let message = format!(in alloc; "{}", Explanation::new(alloc, block, why))?;
    add_string(&mut object, "message", &message)?;
    write_line(object, writer)?;
    Ok(())
}

/// Writes the links of a file's block.
pub fn write_links<W: Write>(
    alloc: Global,
    file: &str,
    links: &[Cid],
    writer: &mut W,
) -> io::Result<()> {
    let mut object = begin_object(alloc, file)?;
    object.key("links")?;
    object.begin_array()?;
    for link in links {
        object.string(&usual_text(alloc, link)?)?;
    }
    object.end_array()?;
    write_line(object, writer)?;
    Ok(())
}

/// Writes an object for each CID, with one member of this key.
pub fn write_cids<W: Write>(
    alloc: Global,
    key: &str,
    cids: &[Cid],
    writer: &mut W,
) -> io::Result<()> {
    let mut line = Vec::new(alloc);
    for cid in cids {
        let mut object = Writer::new(line);
        object.begin_object()?;
        add_string(&mut object, key, &usual_text(alloc, cid)?)?;
        line = write_line(object, writer)?;
    }
    Ok(())
}

/// Writes the parts of a CID, and the file if it is the CID of a file's block. `text` is the text
/// of the CID.
pub fn write_cid_object<W: Write>(
    alloc: Global,
    file: Option<&str>,
    cid: &Cid,
    text: &str,
    writer: &mut W,
) -> io::Result<()> {
    let mut object = match file {
        Some(file) => begin_object(alloc, file)?,
        None => {
            let mut object = Writer::new(Vec::new(alloc));
            object.begin_object()?;
            object
        }
    };
    let version = match cid.version() {
        Version::V0 => 0,
        Version::V1 => 1,
    };
    let hash = cid.hash();
    add_string(&mut object, "cid", text)?;
    object.key("version")?;
    object.u64(version)?;
    add_name(
        alloc,
        &mut object,
        "codec",
        codec_name(cid.codec()),
        cid.codec(),
    )?;
    add_name(
        alloc,
        &mut object,
        "hash",
        hash_name(hash.code()),
        hash.code(),
    )?;
    add_string(&mut object, "digest", &hex::encode(alloc, hash.digest())?)?;
    write_line(object, writer)?;
    Ok(())
}

/// Writes an entry of a folder: its path, its CID, its type, and the size of a file.
pub fn write_entry<W: Write>(
    alloc: Global,
    path: &str,
    cid: &Cid,
    kind: &str,
    size: Option<u64>,
    writer: &mut W,
) -> io::Result<()> {
    let mut object = Writer::new(Vec::new(alloc));
    object.begin_object()?;
    add_string(&mut object, "name", path)?;
    add_string(&mut object, "cid", &usual_text(alloc, cid)?)?;
    add_string(&mut object, "type", kind)?;
    if let Some(size) = size {
        object.key("size")?;
        object.u64(size)?;
    }
    write_line(object, writer)?;
    Ok(())
}
