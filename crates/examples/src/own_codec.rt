//! A custom codec: a block is the byte 1, for the version of the format, and then the content.

// [begin: codec]
ghost use Rattle.std.specs.Prelude.{◌≡◌, ℕ, List, Some, None, MatchOption};
ghost use Rattle.examples.specs.Versioned.{versioned_content};

use ipld_codec::{Codec, LinkIter, Links};
use std::alloc::Global;
use std::io::{BufRead, ErrorKind, Write};
use std::{error, fmt};

/// The codec of bytes after a byte for the version, which is 1.
pub struct VersionedCodec;

/// The reason why a content can't be read or written.
#[derive(Debug, PartialEq, Eq, Drop)]
pub enum VersionedError {
    /// An allocation failed.
    Memory,
    /// The reader failed.
    Read,
    /// The writer failed.
    Write,
    /// The block does not begin with the byte 1.
    Version,
}

impl fmt::Display for VersionedError {
    fn fmt<W: fmt::Write>(&self, f: &mut fmt::Formatter<W>) -> fmt::Result {
        f.write_str(match self {
            VersionedError::Memory => "out of memory",
            VersionedError::Read => "the reader failed",
            VersionedError::Write => "the writer failed",
            VersionedError::Version => "not version 1",
        })
    }
}

impl error::Error for VersionedError {}

/// Returns the content of a block, or `None` if it does not begin with the byte 1.
fn content(block: &[u8]) -> Option<&[u8]>
    ensures { MatchOption result
        (versioned_content block.now ≡ None)
        (λ content. versioned_content block.now ≡ Some content.now) }
{
    match block {
        [1, content @ ..] => Some(content),
        _ => None,
    }
}

impl Links for VersionedCodec {
    type LinksError = VersionedError;

    ghost use Rattle.examples.specs.Versioned.{versioned_links, versioned_failure};

    ghost found = { versioned_links };

    ghost links_failure_of = { versioned_failure };

    /// Returns no links, because the content is not searched.
    fn links(alloc: Global, bytes: &[u8]) -> Result<LinkIter, VersionedError> {
        match content(bytes) {
            Some(_) => Ok(LinkIter::new(Vec::new(alloc))),
            None => Err(VersionedError::Version),
        }
    }
}

impl Codec<Vec<u8>> for VersionedCodec {
    // In the multicodec table's range for private use.
    const CODE: u64 = 0x300001;

    type Error = VersionedError;

    ghost use Rattle.examples.specs.Versioned.{EncodesVersioned, versioned_block, versioned_failure};
    ghost use Rattle.examples.specs.VersionedLaws.{versioned_encoded_once, versioned_decodes_encoded, versioned_writes_encoded};

    ghost CODE = { 0x300001 };

    ghost Contents = { List ℕ };

    ghost contents = { λ value. value.items };

    ghost Encodes = { EncodesVersioned };

    ghost decoded = { versioned_content };

    ghost writes = { versioned_block };

    ghost failure_of = { versioned_failure };

    fn decode<R: BufRead>(alloc: Global, reader: &mut R) -> Result<Vec<u8>, VersionedError> {
        let mut block = Vec::new(alloc);
        match reader.read_to_end(&mut block) {
            Ok(_) => {}
            Err(error) if error.kind() == ErrorKind::OutOfMemory => {
                return Err(VersionedError::Memory);
            }
            Err(_) => return Err(VersionedError::Read),
        }
        match content(&block) {
            Some(content) => match content.to_vec(alloc) {
                Ok(content) => Ok(content),
                Err(_) => Err(VersionedError::Memory),
            },
            None => Err(VersionedError::Version),
        }
    }

    fn encode<W: Write>(
        alloc: Global,
        writer: &mut W,
        value: &Vec<u8>,
    ) -> Result<(), VersionedError> {
        let mut block = Vec::new(alloc);
        if block.push(1).is_err() || block.extend_from_slice(value).is_err() {
            return Err(VersionedError::Memory);
        }
        match writer.write_all(&block) {
            Ok(()) => Ok(()),
            Err(_) => Err(VersionedError::Write),
        }
    }

    ghost encoded_once = { versioned_encoded_once };

    ghost decodes_encoded = { versioned_decodes_encoded };

    ghost writes_encoded = { versioned_writes_encoded };
}
// [end: codec]

// [begin: generic]
/// Encodes a value as a block of any codec, and decodes the block.
pub fn through_block<C, T>(alloc: Global, value: &T) -> Result<T, C::Error>
where
    C: Codec<T>,
{
    let block = C::encode_to_vec(alloc, value)?;
    C::decode_from_slice(alloc, &block)
}
// [end: generic]

/// Prints a block, the content that it decodes to, and the error of a block of another version.
pub fn show(rt: &impl Print, alloc: Global) -> anyhow::Result<()> {
    let content = Vec::from_slice(alloc, b"\xca\xfe")?;
    let block = VersionedCodec::encode_to_vec(alloc, &content)?;
    println!(rt; "{}", hex::encode(alloc, block.as_slice())?)?;
    let same = through_block::<VersionedCodec, Vec<u8>>(alloc, &content)?;
    println!(rt; "{}", hex::encode(alloc, same.as_slice())?)?;
    match VersionedCodec::decode_from_slice(alloc, b"\x02\xca\xfe") {
        Ok(_) => println!(rt; "a block of version 2")?,
        Err(error) => println!(rt; "{error}")?,
    }
    Ok(())
}
