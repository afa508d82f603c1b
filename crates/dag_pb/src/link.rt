//! Links of a node: the message `PBLink`.

ghost use Rattle.std.specs.Prelude.{◌≡◌, ◌<◌, ◌≤◌, length, option_map, IfOk, IfErr, Ok, Err, MatchResult};
ghost use Rattle.ipld_cid.specs.LinkOf.{link_of};
ghost use Rattle.dag_pb.specs.LinkReading as reading;
ghost use Rattle.dag_pb.specs.Spans.{LinkEndsBefore};
ghost use Rattle.dag_pb.specs.Views.{parts_of_link};

use crate::error::{Fault, PbErrorKind};
use ipld_cid::Cid;
use pb_wire::{content_field, number_field, read_varint};
use simdutf8::basic::from_utf8;

// The keys of the fields of a link.
pub(crate) const HASH: u64 = 10;

pub(crate) const NAME: u64 = 18;

pub(crate) const TSIZE: u64 = 24;

/// A link of a node of DAG-PB. Its name is borrowed from the block.
#[derive(Clone, Copy)]
pub struct PbLink<'a> {
    /// The CID to which the link leads.
    pub hash: Cid,
    /// The name of the link, if it has one. An empty name is not the same as no name.
    pub name: Option<&'a str>,
    /// The size of the block to which the link leads, with all blocks below it, if the link has a
    /// size. It is the claim of the block's author. Nothing checks it.
    pub tsize: Option<u64>,
}

// A link, and the number of bytes after its hash and after its name.
#[derive(Clone, Copy)]
pub(crate) struct PlacedLink<'a> {
    pub(crate) link: PbLink<'a>,
    pub(crate) behind_hash: usize,
    pub(crate) behind_name: usize,
}

// Reads the hash with which a link begins, and returns it with the bytes after it.
#[tactic(auto, unfolding(crate::specs::LinkReading::read_hash))]
#[inline(always)]
fn read_hash(bytes: &[u8]) -> Result<(Cid, &[u8]), PbErrorKind>
    ensures exact { MatchResult result
        (λ found. reading.read_hash bytes.now ≡ Ok (link_of found.0, found.1.now))
        (λ error. reading.read_hash bytes.now ≡ Err error) }
    ensures shorter { IfOk result (λ found. length found.1.now ≤ length bytes.now) }
{
    let (found, rest) = content_field(HASH, bytes)?;
    let content = match found {
        Some(content) => content,
        None => return Err(PbErrorKind::NoHash),
    };
    match Cid::try_from(content) {
        Ok(cid) => Ok((cid, rest)),
        Err(error) => Err(PbErrorKind::Cid(error)),
    }
}

// Reads the string of a name.
#[inline(always)]
fn read_text(content: &[u8]) -> Result<&str, PbErrorKind>
    ensures { MatchResult result
        (λ text. reading.text_in content.now ≡ Ok text.now)
        (λ error. reading.text_in content.now ≡ Err error) }
{
    match from_utf8(content) {
        Ok(text) => Ok(text),
        Err(_) => Err(PbErrorKind::Utf8),
    }
}

// Reads the name, if one comes, and returns it with the bytes after it.
#[tactic(auto, unfolding(crate::specs::LinkReading::read_name))]
#[inline(always)]
fn read_name(bytes: &[u8]) -> Result<(Option<&str>, &[u8]), PbErrorKind>
    ensures exact { MatchResult result
        (λ found. reading.read_name bytes.now ≡ Ok
        (option_map (λ name. name.now) found.0, found.1.now))
        (λ error. reading.read_name bytes.now ≡ Err error) }
    ensures shorter { IfOk result (λ found. length found.1.now ≤ length bytes.now) }
{
    let (found, rest) = content_field(NAME, bytes)?;
    match found {
        None => Ok((None, rest)),
        Some(content) => {
            let name = read_text(content)?;
            Ok((Some(name), rest))
        }
    }
}

// Checks that a link ends here. Otherwise returns the error of the field that comes.
#[tactic(auto, unfolding(crate::specs::LinkReading::read_end))]
#[inline(always)]
fn read_end(bytes: &[u8]) -> Result<(), PbErrorKind>
    ensures { result ≡ reading.read_end bytes.now }
{
    if bytes.is_empty() {
        return Ok(());
    }
    let (key, _rest) = read_varint(bytes)?;
    match key {
        HASH | NAME | TSIZE => Err(PbErrorKind::FieldOrder),
        _ => Err(PbErrorKind::UnknownField(key)),
    }
}

// Reads a link, whose message is all of the bytes.
#[tactic(auto, unfolding(crate::specs::LinkReading::read_link))]
#[inline(always)]
pub(crate) fn read_link(bytes: &[u8]) -> Result<PlacedLink<'_>, Fault>
    ensures exact { MatchResult result
        (λ found. reading.read_link bytes.now ≡ Ok (parts_of_link found.link))
        (λ fault. reading.read_link bytes.now ≡ Err fault) }
    ensures places { IfOk result (λ found. LinkEndsBefore found.behind_hash found.behind_name 0
        (parts_of_link found.link) bytes.now) }
    ensures short { IfOk result (λ found. (found.behind_hash ≤ length bytes.now)
        × (found.behind_name ≤ length bytes.now)) }
    ensures within { IfErr result (λ fault. fault.left ≤ length bytes.now) }
{
    let (hash, at_name) = match read_hash(bytes) {
        Ok(found) => found,
        Err(kind) => return Err(Fault {
            kind,
            left: bytes.len(),
        }),
    };
    let (name, at_tsize) = match read_name(at_name) {
        Ok(found) => found,
        Err(kind) => return Err(Fault {
            kind,
            left: at_name.len(),
        }),
    };
    let (tsize, at_end) = match number_field(TSIZE, at_tsize) {
        Ok(found) => found,
        Err(error) => return Err(Fault::of_wire(error, at_tsize.len())),
    };
    match read_end(at_end) {
        Ok(()) => Ok(PlacedLink {
            link: PbLink { hash, name, tsize },
            behind_hash: at_name.len(),
            behind_name: at_tsize.len(),
        }),
        Err(kind) => Err(Fault {
            kind,
            left: at_end.len(),
        }),
    }
}
