//! The list of the blocks of a CAR, and of their links.

ghost use Rattle.std.specs.Prelude.{◌≡◌, ◌++◌, codes, decimal, [], map, IfOk, IfErr, OnOk};
ghost use Rattle.std.specs.Io.KnownBytes.{Appends};
ghost use Rattle.ipld_cid.specs.LinkOf.{link_of};
ghost use Rattle.ipld_block.specs.Texts.{usual_text};
ghost use Rattle.ipld_car.specs.SectionOf.{block_of};
ghost use Rattle.car_files.specs.Listing.{Lists, ListingFault, ListsBlock};
ghost use Rattle.car_files.specs.Reading.{IsWritingError};
ghost use Rattle.car_files.specs.Streams.{progress, output, complaints};
ghost use Rattle.car_files.specs.Views.{known_of};
ghost use Rattle.car_files.specs.Written.{IsKnownOf, links_known, array_text, text_between, texts_between, edge_text, edges_text, codec_text, count_text, error_text, member_text, version_number, front_text, linked_text, end_text};

use crate::complaint::write_complaint;
use crate::error::CarFileError;
use crate::reading::{links_in_section, read_next};
use ipld_block::{CheckError, InvalidBlock, codec_name, write_cid};
use ipld_car::{CarReader, CarVersion, Section};
use ipld_cid::Cid;
use std::alloc::Global;
use std::io::{BufRead, Write};

/// The form in which the blocks of a CAR are listed.
#[derive(Clone, Copy, Debug, PartialEq, Eq)]
pub enum Form {
    /// The version and the roots, and a line for every block: its CID, its codec, its size, and the
    /// number of its links. If they are not known, or the block is invalid for its codec, the line
    /// has a note instead of the number.
    Blocks,
    /// A line for every link: the CID of the block that has it, and the link.
    Links,
    /// The graph, for Graphviz.
    Dot,
    /// JSON, an object on every line. The first has the version and the roots. Every other object
    /// describes a block: `cid`, `codec`, `offset` of its section, `size`, and `links` if they are
    /// known. If the block is invalid for its codec, the object has `error`, the name of the error,
    /// and `at`, its byte in the block.
    Json,
}

/// The counts of the blocks that were listed.
#[derive(Clone, Copy, Debug, PartialEq, Eq)]
pub struct Listed {
    /// The number of blocks in the file.
    pub blocks: u64,
    /// The number of blocks that are invalid for their codec.
    pub invalid: u64,
}

// The links of a block, as far as they are known.
#[derive(Drop)]
enum KnownLinks {
    Links(Vec<Cid>),
    // Blocks of its codec aren't read.
    UnknownCodec,
    // The block is invalid for its codec.
    Invalid(InvalidBlock),
}

// Finds the links of a section's block.
fn find_links(alloc: Global, section: &Section) -> Result<KnownLinks, CarFileError>
    ensures found { IfOk result (λ links. IsKnownOf (block_of section.now) (known_of links)) }
    ensures fault { IfErr result IsWritingError }
{
    match links_in_section(alloc, section) {
        Ok(Some(links)) => Ok(KnownLinks::Links(links)),
        Ok(None) => Ok(KnownLinks::UnknownCodec),
        Err(CheckError::Invalid(why)) => Ok(KnownLinks::Invalid(why)),
        Err(CheckError::Memory) => Err(CarFileError::Memory),
    }
}

fn version_of(version: CarVersion) -> u8
    ensures { result ≡ version_number version }
{
    match version {
        CarVersion::V1 => 1,
        CarVersion::V2 => 2,
    }
}

// Writes a CID between two strings.
fn write_between<W: Write>(
    alloc: Global,
    before: &[u8],
    cid: &Cid,
    after: &[u8],
    writer: &mut W,
) -> Result<(), CarFileError>
    ensures written { OnOk result
        (Appends (W.contents writer.old) (W.contents writer.new)
        (text_between before.now after.now (link_of cid.now))) }
    ensures fault { IfErr result IsWritingError }
{
    writer.write_all(before)?;
    write_cid(alloc, writer, cid)?;
    writer.write_all(after)?;
    Ok(())
}

// Writes every CID between two strings.
fn write_each<W: Write>(
    alloc: Global,
    before: &[u8],
    cids: &[Cid],
    after: &[u8],
    writer: &mut W,
) -> Result<(), CarFileError>
    ensures written { OnOk result
        (Appends (W.contents writer.old) (W.contents writer.new)
        (texts_between before.now after.now (map link_of cids.now))) }
    ensures fault { IfErr result IsWritingError }
{
    for cid in cids {
        write_between(alloc, before, cid, after, writer)?;
    }
    Ok(())
}

// Writes CIDs as a JSON array.
fn write_array<W: Write>(alloc: Global, cids: &[Cid], writer: &mut W) -> Result<(), CarFileError>
    ensures written { OnOk result
        (Appends (W.contents writer.old) (W.contents writer.new)
        (array_text (map link_of cids.now))) }
    ensures fault { IfErr result IsWritingError }
{
    match cids {
        [] => {
            writer.write_all(b"[]")?;
            Ok(())
        }
        [first, rest @ ..] => {
            write_between(alloc, b"[\"", first, b"\"", writer)?;
            write_each(alloc, b",\"", rest, b"\"", writer)?;
            writer.write_all(b"]")?;
            Ok(())
        }
    }
}

// Writes the part before the blocks.
fn write_front<W: Write>(
    alloc: Global,
    form: Form,
    version: u8,
    roots: &[Cid],
    writer: &mut W,
) -> Result<(), CarFileError>
    ensures written { OnOk result
        (Appends (W.contents writer.old) (W.contents writer.new)
        (front_text form version (map link_of roots.now))) }
    ensures fault { IfErr result IsWritingError }
{
    match form {
        Form::Blocks => {
            writeln!(writer, "version {version}")?;
            write_each(alloc, b"root ", roots, b"\n", writer)?;
            Ok(())
        }
        Form::Links => Ok(()),
        Form::Dot => {
            writer.write_all(b"digraph car {\n")?;
            write_each(alloc, b"  \"", roots, b"\" [shape=box];\n", writer)?;
            Ok(())
        }
        Form::Json => {
            write!(writer, "{{\"version\":{version},\"roots\":")?;
            write_array(alloc, roots, writer)?;
            writer.write_all(b"}\n")?;
            Ok(())
        }
    }
}

// Writes the name of a codec, or its code.
#[tactic(auto, using(crate::proofs::Writing::named_written, crate::proofs::Writing::unnamed_written))]
fn write_codec<W: Write>(code: u64, writer: &mut W) -> Result<(), CarFileError>
    ensures written { OnOk result
        (Appends (W.contents writer.old) (W.contents writer.new) (codec_text code)) }
    ensures fault { IfErr result IsWritingError }
{
    match codec_name(code) {
        Some(name) => {
            writer.write_all(name.as_bytes())?;
            Ok(())
        }
        None => {
            write!(writer, "0x{code:x}")?;
            Ok(())
        }
    }
}

// Writes the number of links, if they are known.
fn write_count<W: Write>(links: &KnownLinks, writer: &mut W) -> Result<(), CarFileError>
    ensures written { OnOk result
        (Appends (W.contents writer.old) (W.contents writer.new)
        (count_text (known_of links.now))) }
    ensures fault { IfErr result IsWritingError }
{
    match links {
        KnownLinks::Links(links) => {
            let count = links.len();
            writeln!(writer, "{count} links")?;
            Ok(())
        }
        KnownLinks::UnknownCodec => {
            writer.write_all(b"links not known\n")?;
            Ok(())
        }
        KnownLinks::Invalid(_) => {
            writer.write_all(b"no block of its codec\n")?;
            Ok(())
        }
    }
}

// Writes a block and the number of its links, if they are known.
fn write_block<W: Write>(
    alloc: Global,
    section: &Section,
    links: &KnownLinks,
    writer: &mut W,
) -> Result<(), CarFileError>
    ensures written { OnOk result (Appends (W.contents writer.old) (W.contents writer.new)
        (linked_text Form.Blocks 0 (block_of section.now) (known_of links.now))) }
    ensures fault { IfErr result IsWritingError }
{
    write_cid(alloc, writer, section.cid())?;
    writer.write_all(b" ")?;
    write_codec(section.cid().codec(), writer)?;
    let size = section.data().len();
    write!(writer, " {size} bytes, ")?;
    write_count(links, writer)?;
    Ok(())
}

// Writes the error of a block as members of a JSON object.
fn write_error<W: Write>(why: &InvalidBlock, writer: &mut W) -> Result<(), CarFileError>
    ensures written { OnOk result
        (Appends (W.contents writer.old) (W.contents writer.new) (error_text why.now)) }
    ensures fault { IfErr result IsWritingError }
{
    write!(writer, ",\"error\":\"{}\"", why.name())?;
    if let Some(offset) = why.offset() {
        write!(writer, ",\"at\":{offset}")?;
    }
    Ok(())
}

// Writes the links of a block as a member of a JSON object if they are known, or the error of the
// block.
fn write_member<W: Write>(
    alloc: Global,
    links: &KnownLinks,
    writer: &mut W,
) -> Result<(), CarFileError>
    ensures written { OnOk result
        (Appends (W.contents writer.old) (W.contents writer.new)
        (member_text (known_of links.now))) }
    ensures fault { IfErr result IsWritingError }
{
    match links {
        KnownLinks::Links(links) => {
            writer.write_all(b",\"links\":")?;
            write_array(alloc, links, writer)?;
            Ok(())
        }
        KnownLinks::UnknownCodec => Ok(()),
        KnownLinks::Invalid(why) => write_error(why, writer),
    }
}

// Writes a block as a JSON object.
fn write_object<W: Write>(
    alloc: Global,
    section: &Section,
    offset: u64,
    links: &KnownLinks,
    writer: &mut W,
) -> Result<(), CarFileError>
    ensures written { OnOk result (Appends (W.contents writer.old) (W.contents writer.new)
        (linked_text Form.Json offset (block_of section.now) (known_of links.now))) }
    ensures fault { IfErr result IsWritingError }
{
    writer.write_all(b"{\"cid\":\"")?;
    write_cid(alloc, writer, section.cid())?;
    writer.write_all(b"\",\"codec\":\"")?;
    write_codec(section.cid().codec(), writer)?;
    let size = section.data().len();
    write!(writer, "\",\"offset\":{offset},\"size\":{size}")?;
    write_member(alloc, links, writer)?;
    writer.write_all(b"}\n")?;
    Ok(())
}

// Writes a link from a block, with strings before, between and after the two CIDs.
fn write_edge<W: Write>(
    alloc: Global,
    before: &[u8],
    block: &Cid,
    between: &[u8],
    link: &Cid,
    after: &[u8],
    writer: &mut W,
) -> Result<(), CarFileError>
    ensures written { OnOk result (Appends (W.contents writer.old) (W.contents writer.new)
        (edge_text before.now between.now after.now (link_of block.now) (link_of link.now))) }
    ensures fault { IfErr result IsWritingError }
{
    writer.write_all(before)?;
    write_cid(alloc, writer, block)?;
    writer.write_all(between)?;
    write_cid(alloc, writer, link)?;
    writer.write_all(after)?;
    Ok(())
}

// Writes all links from a block.
fn write_edges<W: Write>(
    alloc: Global,
    before: &[u8],
    block: &Cid,
    between: &[u8],
    links: &[Cid],
    after: &[u8],
    writer: &mut W,
) -> Result<(), CarFileError>
    ensures written { OnOk result (Appends (W.contents writer.old) (W.contents writer.new)
        (edges_text before.now between.now after.now (link_of block.now) (map link_of links.now))) }
    ensures fault { IfErr result IsWritingError }
{
    for link in links {
        write_edge(alloc, before, block, between, link, after, writer)?;
    }
    Ok(())
}

// Returns the links if they are known, and none otherwise.
fn known_links(links: &KnownLinks) -> &[Cid]
    ensures { map link_of result.now ≡ links_known (known_of links.now) }
{
    match links {
        KnownLinks::Links(links) => links,
        _ => &[],
    }
}

// Writes a block with these links, in this form.
fn write_linked<W: Write>(
    alloc: Global,
    form: Form,
    section: &Section,
    offset: u64,
    links: &KnownLinks,
    writer: &mut W,
) -> Result<(), CarFileError>
    ensures written { OnOk result (Appends (W.contents writer.old) (W.contents writer.new)
        (linked_text form offset (block_of section.now) (known_of links.now))) }
    ensures fault { IfErr result IsWritingError }
{
    match form {
        Form::Blocks => write_block(alloc, section, links, writer),
        Form::Links => write_edges(
            alloc,
            b"",
            section.cid(),
            b" ",
            known_links(links),
            b"\n",
            writer,
        ),
        Form::Dot => write_edges(
            alloc,
            b"  \"",
            section.cid(),
            b"\" -> \"",
            known_links(links),
            b"\";\n",
            writer,
        ),
        Form::Json => write_object(alloc, section, offset, links, writer),
    }
}

// Writes a block that begins at this byte of the file, and returns whether it is invalid for its
// codec.
#[tactic(auto, using(crate::proofs::Tallying::listed_quietly))]
fn write_section<W: Write, E: Write>(
    alloc: Global,
    form: Form,
    label: &str,
    section: &Section,
    offset: u64,
    writer: &mut W,
    errors: &mut E,
) -> Result<bool, CarFileError>
    ensures listed { IfOk result (ListsBlock form
        (output W.contents writer.old writer.new)
        (complaints label.now E.contents errors.old errors.new)
        offset (block_of section.now)) }
    ensures fault { IfErr result IsWritingError }
{
    let links = match find_links(alloc, section) {
        Ok(links) => links,
        Err(error) => return Err(error),
    };
    match write_linked(alloc, form, section, offset, &links, writer) {
        Ok(()) => {}
        Err(error) => return Err(error),
    }
    match &links {
        KnownLinks::Links(_) => Ok(false),
        KnownLinks::UnknownCodec => Ok(false),
        KnownLinks::Invalid(why) => {
            if form == Form::Json {
                return Ok(true);
            }
            match write_complaint(alloc, label, section.cid(), offset, why, errors) {
                Ok(()) => Ok(true),
                Err(error) => Err(error),
            }
        }
    }
}

// Writes the part after the blocks.
fn write_end<W: Write>(form: Form, writer: &mut W) -> Result<(), CarFileError>
    ensures written { OnOk result
        (Appends (W.contents writer.old) (W.contents writer.new) (end_text form)) }
    ensures fault { IfErr result IsWritingError }
{
    match form {
        Form::Blocks | Form::Links | Form::Json => Ok(()),
        Form::Dot => {
            writer.write_all(b"}\n")?;
            Ok(())
        }
    }
}

/// Writes the blocks of a CAR or their links, in the order of the file, and returns the number of
/// blocks.
///
/// A block that is invalid for its codec is listed too, but without links, and the list continues
/// after it. In JSON, the error is part of its object. In the other forms a line is written to
/// `errors`: `label`, the CID, the byte at which its section begins, and a sentence.
///
/// It reads one section at a time, and keeps nothing of earlier ones.
///
/// # Errors
///
/// - `Car` if the file is not a CAR or its reader fails, with the offset.
/// - `Write` if `writer` or `errors` fails.
/// - `Memory` if an allocation fails.
///
/// The output that was written until then stays written.
#[tactic(auto, using(crate::proofs::Tallying::lists_none, crate::proofs::Tallying::lists_more, crate::proofs::Tallying::lists_all, crate::proofs::Tallying::unwritten, crate::proofs::Tallying::unlisted_car))]
pub fn write_list<R: BufRead + Drop, W: Write, E: Write>(
    alloc: Global,
    car: &mut CarReader<R>,
    form: Form,
    label: &str,
    writer: &mut W,
    errors: &mut E,
) -> Result<Listed, CarFileError>
    ensures listed { IfOk result (Lists form
        (progress R.remaining car.old car.new)
        (output W.contents writer.old writer.new)
        (complaints label.now E.contents errors.old errors.new)) }
    ensures fault { IfErr result (ListingFault form
        (progress R.remaining car.old car.new)
        (output W.contents writer.old writer.new)
        (complaints label.now E.contents errors.old errors.new)) }
{
    match write_front(alloc, form, version_of(car.version()), car.roots(), writer) {
        Ok(()) => {}
        Err(error) => return Err(error),
    }
    let mut section = Section::new(alloc);
    let mut invalid = 0u64;
    for blocks in 0..u64::MAX {
        let offset = car.offset();
        match read_next(car, &mut section) {
            Ok(true) => {}
            Ok(false) => {
                return match write_end(form, writer) {
                    Ok(()) => Ok(Listed { blocks, invalid }),
                    Err(error) => Err(error),
                };
            }
            Err(error) => return Err(error),
        }
        match write_section(alloc, form, label, &section, offset, writer, errors) {
            Ok(is_invalid) => invalid += u64::from(is_invalid),
            Err(error) => return Err(error),
        }
    }
    // No file has that many sections: the bytes of a file are counted in 64 bits.
    Err(CarFileError::Memory)
}
