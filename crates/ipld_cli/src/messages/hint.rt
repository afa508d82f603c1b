//! The format that a file seems to have if it is not the expected one.

use ipld_block::{BlockCodec, check};
use ipld_car::{CarReader, DEFAULT_LIMIT};
use ipld_cid_text::parse_any;
use std::alloc::Global;
use std::{fmt, str};

/// The format that bytes seem to have. Its `Display` follows a message, and is empty if nothing is
/// known.
#[derive(Clone, Copy, Debug, PartialEq, Eq)]
pub enum Hint {
    /// Nothing is known.
    Unknown,
    /// The bytes are empty.
    Empty,
    /// A CAR file.
    Car,
    /// A block of this codec, which is not the expected one.
    Block(BlockCodec),
    /// A block of DAG-CBOR that is not a CAR file.
    NoCar,
    /// The text of a CID.
    CidText,
    /// Other text.
    Text,
}

impl fmt::Display for Hint {
    fn fmt<W: fmt::Write>(&self, f: &mut fmt::Formatter<W>) -> fmt::Result {
        f.write_str(match self {
            Hint::Unknown => "",
            Hint::Empty => " (the file is empty)",
            Hint::Car => " (it is a CAR file: ipld car reads it)",
            Hint::Block(BlockCodec::DagCbor) =>
                " (it is a block of DAG-CBOR: use --codec dag-cbor)",
            Hint::Block(BlockCodec::DagPb) => " (it is a block of DAG-PB: use --codec dag-pb)",
            Hint::Block(BlockCodec::DagJson) =>
                " (it is a block of DAG-JSON: use --codec dag-json)",
            Hint::Block(BlockCodec::Raw) => "",
            Hint::NoCar => " (it is a block of DAG-CBOR: ipld show reads it)",
            Hint::CidText => " (it is the text of a CID: ipld cid --text reads it)",
            Hint::Text => " (it looks like text)",
        })
    }
}

// Returns whether text has no control characters except tabs and those that end lines.
fn is_plain(text: &str) -> bool {
    text.chars()
        .all(|c| !c.is_control() || c == '\n' || c == '\r' || c == '\t')
}

// Returns the hint for bytes that are text or empty.
fn hint_of_text(bytes: &[u8]) -> Option<Hint> {
    if bytes.is_empty() {
        return Some(Hint::Empty);
    }
    let text = str::from_utf8(bytes).ok()?;
    if parse_any(text.trim_end()).is_ok() {
        Some(Hint::CidText)
    } else if is_plain(text) {
        Some(Hint::Text)
    } else {
        None
    }
}

// Returns the hint for bytes that are a block of another codec than this one.
fn hint_of_block(alloc: Global, codec: BlockCodec, bytes: &[u8]) -> Hint {
    let other = match codec {
        BlockCodec::DagCbor => BlockCodec::DagPb,
        _ => BlockCodec::DagCbor,
    };
    match check(alloc, other, bytes) {
        Ok(()) => Hint::Block(other),
        Err(_) => Hint::Unknown,
    }
}

impl Hint {
    /// Returns the format of bytes that are not a block of this codec. It allocates to read them as
    /// a CAR and as a block of another codec. If an allocation fails, the hint may be less precise.
    pub fn of_no_block(alloc: Global, codec: BlockCodec, bytes: &[u8]) -> Hint {
        match hint_of_text(bytes) {
            // The message has the error of the text already.
            Some(Hint::Text) if codec == BlockCodec::DagJson => Hint::Unknown,
            Some(Hint::Text) if check(alloc, BlockCodec::DagJson, bytes).is_ok() => {
                Hint::Block(BlockCodec::DagJson)
            }
            Some(hint) => hint,
            None if CarReader::new(alloc, bytes, DEFAULT_LIMIT).is_ok() => Hint::Car,
            None => hint_of_block(alloc, codec, bytes),
        }
    }

    /// Returns the format of bytes that are not a CAR. It allocates to read them as a block. If an
    /// allocation fails, the hint may be less precise.
    pub fn of_no_car(alloc: Global, bytes: &[u8]) -> Hint {
        match hint_of_text(bytes) {
            Some(hint) => hint,
            None if check(alloc, BlockCodec::DagCbor, bytes).is_ok() => Hint::NoCar,
            None => Hint::Unknown,
        }
    }
}
