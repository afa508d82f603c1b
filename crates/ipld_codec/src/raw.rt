//! The codec of plain bytes.

ghost use Rattle.std.specs.Prelude.{◌≡◌, ◌⊎◌, [], None, Some, Err, IfOk, IfErr, OnOk, OnErr, IfSome, IsOk, IsOkAnd, MatchOption};
ghost use Rattle.ipld_codec.specs.Codec.{memory, reading, writing, MemoryOr, Writes, IsReadOut};
ghost use Rattle.ipld_codec.specs.LinkIter.{cids_left, links_left};
ghost use Rattle.ipld_codec.specs.ReadOut.{LosesFront};
ghost use Rattle.ipld_codec.specs.RawCodec.{raw_found, raw_decoded, raw_written, raw_failure, name_of, sentence_of};
ghost use Rattle.ipld_codec.specs.WriteOut.{WritesPart};
ghost use Rattle.ipld_tree.specs.Kind.{kind_of};
ghost use Rattle.ipld_tree.specs.Tree.{Tree};
ghost use Rattle.ipld_tree.specs.TreeOf.{tree_of};

use crate::link_iter::LinkIter;
use crate::read_out::read_to_end;
use crate::traits::{Codec, Links};
use crate::tree_codec::TreeCodec;
use crate::write_out::write_block;
use ipld_cid::RAW;
use ipld_tree::{Ipld, IpldKind};
use std::alloc::{AllocError, Global};
use std::io::{BufRead, Write};
use std::{error, fmt};

/// The codec of plain bytes. The block of a Bytes is the bytes themselves, and no other value can
/// be written. Every block decodes, and blocks never have links, even if their bytes look like
/// links.
///
/// Its number, 0x55, is that of `raw` in the table of multicodecs.
#[derive(Clone, Copy, Debug, PartialEq, Eq)]
pub struct RawCodec;

/// The reason why a call of [`RawCodec`] failed.
///
/// Its `Display` prints the variant's [`name`](RawError::name). With `#` (`{error:#}`), it prints
/// the [`sentence`](RawError::sentence).
#[derive(Debug, PartialEq, Eq, Drop)]
pub enum RawError {
    /// An allocation failed here, or the reader or the writer reported that one failed in it.
    Memory,
    /// The reader failed for another reason, or did not end within 2^64 - 1 buffers.
    Read,
    /// The writer failed for another reason. Not all bytes were written.
    Write,
    /// The value is not a Bytes, but has this kind. Nothing was written.
    NotBytes(IpldKind),
}

impl RawError {
    /// Returns the name of the variant, for example `NotBytes`. `{error}` prints the same.
    pub fn name(&self) -> &'static str
        ensures { result.now ≡ name_of self.now }
    {
        match self {
            RawError::Memory => "Memory",
            RawError::Read => "Read",
            RawError::Write => "Write",
            RawError::NotBytes(_) => "NotBytes",
        }
    }

    /// Returns the sentence that describes the error, to be printed. `{error:#}` prints the same.
    pub fn sentence(&self) -> RawSentence<'_>
        ensures { result.error.now ≡ self.now }
    {
        RawSentence { error: self }
    }
}

impl fmt::Display for RawError {
    ghost use Rattle.std.specs.Fmt.{spec_alternate};
    ghost use Rattle.ipld_codec.specs.RawCodec.{printed};

    ghost output = { λ error. Some (name_of error) };

    ghost styled_output = { λ error spec. printed (spec_alternate spec) error };

    fn fmt<W: fmt::Write>(&self, f: &mut fmt::Formatter<W>) -> fmt::Result {
        if f.alternate() {
            return self.sentence().fmt(f);
        }
        f.write_str(self.name())
    }
}

/// The sentence that describes a [`RawError`]. Its `Display` prints it, with any options.
#[derive(Clone, Copy, Debug)]
pub struct RawSentence<'a> {
    error: &'a RawError,
}

impl<'a> fmt::Display for RawSentence<'a> {
    ghost output = { λ s. sentence_of s.error.now };

    ghost styled_output = { λ s _. sentence_of s.error.now };

    fn fmt<W: fmt::Write>(&self, f: &mut fmt::Formatter<W>) -> fmt::Result {
        match self.error {
            RawError::Memory => f.write_str("out of memory"),
            RawError::Read => f.write_str("the reader failed"),
            RawError::Write => f.write_str("the writer failed"),
            RawError::NotBytes(kind) => {
                write!(
                    f,
                    "a raw block can be written only of Bytes, not of {kind:?}"
                )
            }
        }
    }
}

impl error::Error for RawError {}

impl From<AllocError> for RawError {
    ghost use Rattle.ipld_codec.specs.declared.raw.RawError.TheVariants.{Memory};

    ghost from_gives = { λ _ error. error ≡ Memory };

    fn from(_error: AllocError) -> RawError {
        RawError::Memory
    }
}

impl Links for RawCodec {
    type LinksError = RawError;

    ghost found = { raw_found };

    ghost links_failure_of = { raw_failure };

    /// Returns no links, whatever the bytes are. Does not allocate and never fails.
    fn links(alloc: Global, _bytes: &[u8]) -> Result<LinkIter, RawError>
        ensures ok { IfOk result (λ links. raw_found _bytes.now ≡ Some (links_left links)) }
        ensures err { IfErr result (λ error. MatchOption (raw_failure error)
            (raw_found _bytes.now ≡ None) (λ failure. failure ≡ memory)) }
        ensures none { IsOkAnd result (λ links. cids_left links ≡ []) }
    {
        Ok(LinkIter::new(Vec::new(alloc)))
    }
}

impl Codec<Ipld> for RawCodec {
    const CODE: u64 = RAW;

    type Error = RawError;

    ghost use Rattle.ipld_codec.specs.RawCodec.{EncodesRaw};
    ghost use Rattle.ipld_codec.specs.Lemmas.RawLaws.{raw_encoded_once, raw_decodes_encoded, raw_writes_encoded};

    ghost CODE = { 0x55 };

    ghost Contents = { Tree };

    ghost contents = { tree_of };

    ghost Encodes = { EncodesRaw };

    ghost decoded = { raw_decoded };

    ghost writes = { raw_written };

    ghost failure_of = { raw_failure };

    /// Reads the reader to its end, and returns its bytes as a Bytes. An interrupted read is tried
    /// again.
    ///
    /// # Errors
    ///
    /// - `Memory` if an allocation fails here, or if the reader reports that one failed in it.
    /// - `Read` if the reader fails for another reason, or does not end within 2^64 - 1 buffers.
    ///
    /// After an error, some of the reader's bytes may have been read, from the first on.
    fn decode<R: BufRead>(alloc: Global, reader: &mut R) -> Result<Ipld, RawError>
        ensures ok { IfOk result (λ value. IfSome (R.remaining reader.old) (λ block.
            raw_decoded block ≡ Some (tree_of value))) }
        ensures read_out { OnOk result (IsReadOut (R.remaining reader.old)
            (R.remaining reader.new)) }
        ensures err { IfErr result (λ error. MatchOption (raw_failure error)
            (IfSome (R.remaining reader.old) (λ block. raw_decoded block ≡ None))
            (MemoryOr reading)) }
        ensures errors { IfErr result (λ error. (error ≡ RawError.Memory)
            ⊎ (error ≡ RawError.Read)) }
        ensures left { OnErr result (LosesFront (R.remaining reader.old) (R.remaining reader.new)) }
    {
        Ok(Ipld::Bytes(read_to_end(alloc, reader)?))
    }

    /// Writes the bytes of a Bytes. Does not flush the writer and does not allocate. An interrupted
    /// write is tried again.
    ///
    /// # Errors
    ///
    /// - `NotBytes` for a value of another kind, and only for such a value. The writer is then
    ///   unchanged.
    /// - `Memory` if the writer reports that an allocation failed. A vector reports this.
    /// - `Write` if the writer fails for another reason or takes no byte, or if 2^64 - 1 writes are
    ///   not enough.
    ///
    /// After `Memory` and `Write`, some of the bytes may have been written, from the first on, but
    /// never all of them.
    fn encode<W: Write>(_alloc: Global, writer: &mut W, value: &Ipld) -> Result<(), RawError>
        ensures ok { OnOk result (Writes (raw_written (tree_of value.now)) (W.contents writer.old)
            (W.contents writer.new)) }
        ensures err { IfErr result (λ error. MatchOption (raw_failure error)
            (raw_written (tree_of value.now) ≡ None) (MemoryOr writing)) }
        ensures not_bytes { raw_written (tree_of value.now) ≡ None
            → (result ≡ Err (RawError.NotBytes (kind_of (tree_of value.now))))
            × (writer.new ≡ writer.old) }
        ensures part { OnErr result (IfSome (raw_written (tree_of value.now))
            (WritesPart (W.contents writer.old) (W.contents writer.new))) }
    {
        let Ipld::Bytes(bytes) = value else {
            return Err(RawError::NotBytes(value.kind()));
        };
        write_block(writer, bytes)
    }

    /// Returns the bytes as a Bytes. Allocates once, or not at all for empty bytes.
    ///
    /// # Errors
    ///
    /// Only `Memory`, if the allocation fails.
    fn decode_from_slice(alloc: Global, bytes: &[u8]) -> Result<Ipld, RawError>
        ensures ok { IfOk result (λ value. raw_decoded bytes.now ≡ Some (tree_of value)) }
        ensures err { IfErr result (λ error. MatchOption (raw_failure error)
            (raw_decoded bytes.now ≡ None) (MemoryOr reading)) }
        ensures errors { IfErr result (λ error. error ≡ RawError.Memory) }
        ensures empty { bytes.now ≡ [] → IsOk result }
    {
        Ok(Ipld::Bytes(copy_of(alloc, bytes)?))
    }

    /// Returns the bytes of a Bytes. Allocates once, or not at all for empty bytes.
    ///
    /// # Errors
    ///
    /// - `NotBytes` for a value of another kind, and only for such a value.
    /// - `Memory` if the allocation fails.
    fn encode_to_vec(alloc: Global, value: &Ipld) -> Result<Vec<u8>, RawError>
        ensures ok { IfOk result (λ bytes. raw_written (tree_of value.now) ≡ Some bytes.items) }
        ensures err { IfErr result (λ error. MatchOption (raw_failure error)
            (raw_written (tree_of value.now) ≡ None) (MemoryOr writing)) }
        ensures not_bytes { raw_written (tree_of value.now) ≡ None
            → result ≡ Err (RawError.NotBytes (kind_of (tree_of value.now))) }
        ensures errors { IfErr result (λ error. (error ≡ RawError.Memory)
            ⊎ (raw_written (tree_of value.now) ≡ None)) }
        ensures empty { raw_written (tree_of value.now) ≡ Some [] → IsOk result }
    {
        match value {
            Ipld::Bytes(bytes) => copy_of(alloc, bytes),
            _ => Err(RawError::NotBytes(value.kind())),
        }
    }

    ghost encoded_once = { raw_encoded_once };

    ghost decodes_encoded = { raw_decodes_encoded };

    ghost writes_encoded = { raw_writes_encoded };
}

impl TreeCodec for RawCodec {
    ghost use Rattle.ipld_codec.specs.Lemmas.RawLaws.{raw_same_trees, raw_links_where_decoded, raw_links_of_tree};

    ghost same_trees = { raw_same_trees };

    ghost links_where_decoded = { raw_links_where_decoded };

    ghost links_of_tree = { raw_links_of_tree };
}

// Returns a copy of the bytes. Does not allocate for empty bytes.
fn copy_of(alloc: Global, bytes: &[u8]) -> Result<Vec<u8>, RawError>
    ensures ok { IfOk result (λ copy. copy.items ≡ bytes.now) }
    ensures err { IfErr result (λ error. error ≡ RawError.Memory) }
    ensures empty { bytes.now ≡ [] → IsOk result }
{
    let mut copy = Vec::with_capacity(alloc, bytes.len())?;
    copy.extend_from_slice(bytes)?;
    Ok(copy)
}
