//! The traits of codecs.

ghost use Rattle.std.specs.Prelude.{◌≡◌, ℕ, List, Option, Some, None, IfOk, OnOk, IfErr, IfSome, MatchOption};
ghost use Rattle.ipld_cid.specs.Cid.{Link};
ghost use Rattle.ipld_codec.specs.Codec.{Failure, memory, reading, writing, MemoryOr, Writes, IsReadOut};
ghost use Rattle.ipld_codec.specs.CodecLaws.{EncodedOnce, DecodesEncoded, WritesEncoded};
ghost use Rattle.ipld_codec.specs.LinkIter.{links_left};

use crate::link_iter::LinkIter;
use std::alloc::Global;
use std::io::{BufRead, Write};

/// A format whose blocks have links.
pub trait Links {
    /// The reason why the links of a block can't be found.
    type LinksError: Drop;

    // The links of a block, or nothing if the bytes are not a block of the format.
    ghost found: { List ℕ → Option (List Link) };

    // the failure that an error reports, or nothing if it reports that the bytes are not a block
    ghost links_failure_of: { Self.LinksError → Option Failure };

    /// Returns the links of a block, in the order that the format defines and with repetitions.
    ///
    /// # Errors
    ///
    /// An error if an allocation fails, or if the bytes are not a block of the format. The format
    /// defines which error reports which.
    fn links(alloc: Global, bytes: &[u8]) -> Result<LinkIter, Self::LinksError>
        ensures ok { IfOk result (λ links. found bytes.now ≡ Some (links_left links)) }
        ensures err { IfErr result (λ error. MatchOption (links_failure_of error)
            (found bytes.now ≡ None) (λ failure. failure ≡ memory)) };
}

/// A format that turns values of a type into blocks of bytes and blocks back into values.
///
/// A block encodes at most one value. The block that [`Codec::encode`] writes for a value encodes
/// that value, so it decodes to the same value, whatever its capacities.
///
/// The format defines which values can be written and which bytes are a block. Its errors
/// distinguish an invalid value or block from a failure: of an allocation, of the reader or of the
/// writer.
///
/// No function is called on a value of the codec. A codec is named by its type.
///
/// # Examples
///
/// An encoder for any codec of any type:
///
/// ```
/// use ipld_codec::Codec;
/// use std::alloc::Global;
///
/// fn encode_generic<C, T>(alloc: Global, value: &T) -> Result<Vec<u8>, C::Error>
/// where
///     C: Codec<T>,
/// {
///     C::encode_to_vec(alloc, value)
/// }
/// ```
pub trait Codec<T>: Links {
    /// The number of the format in the table of multicodecs. It is part of the CIDs of its blocks.
    const CODE: u64;

    /// The reason why a block or a value is rejected.
    type Error: Drop;

    // the code of the format among the multicodecs
    ghost CODE: { ℕ };

    // the models of values, without capacities
    ghost Contents: { Type 0 };

    // the model of a value
    ghost contents: { T → Contents };

    // True if the bytes are a block of this value (IPLD, Codecs).
    ghost Encodes: { Contents → List ℕ → Type 0 };

    // The value that a block decodes to, or nothing if the bytes are not a block (IPLD, Codecs).
    ghost decoded: { List ℕ → Option Contents };

    // The block written for a value, or nothing if it can't be written (IPLD, Codecs).
    ghost writes: { Contents → Option (List ℕ) };

    // the failure that an error reports, or nothing if it reports that the value can't be written
    // or that the bytes are not a block
    ghost failure_of: { Self.Error → Option Failure };

    /// Reads the reader to its end, and decodes the block that it yields.
    ///
    /// A reader that never ends is abandoned eventually. This counts as a failure of the reader.
    ///
    /// # Errors
    ///
    /// An error if an allocation fails, if the reader fails, or if its bytes are not a block of the
    /// format. The position of the reader is then unspecified.
    fn decode<R: BufRead>(alloc: Global, reader: &mut R) -> Result<T, Self::Error>
        ensures ok { IfOk result (λ value. IfSome (R.remaining reader.old) (λ block.
            decoded block ≡ Some (contents value))) }
        ensures read_out { OnOk result (IsReadOut (R.remaining reader.old)
            (R.remaining reader.new)) }
        ensures err { IfErr result (λ error. MatchOption (failure_of error)
            (IfSome (R.remaining reader.old) (λ block. decoded block ≡ None)) (MemoryOr reading)) };

    /// Writes the block of a value, and no other bytes. Does not flush the writer.
    ///
    /// # Errors
    ///
    /// An error if an allocation fails, if the writer fails, or if the value can't be written in
    /// the format. It is then unspecified how many bytes were written, unless the codec specifies
    /// it.
    fn encode<W: Write>(alloc: Global, writer: &mut W, value: &T) -> Result<(), Self::Error>
        ensures ok { OnOk result (Writes (writes (contents value.now)) (W.contents writer.old)
            (W.contents writer.new)) }
        ensures err { IfErr result (λ error. MatchOption (failure_of error)
            (writes (contents value.now) ≡ None) (MemoryOr writing)) };

    /// Decodes a block that consists of all the bytes. Returns the same as [`Codec::decode`] for a
    /// reader over them.
    ///
    /// # Errors
    ///
    /// An error if an allocation fails, or if the bytes are not a block of the format.
    fn decode_from_slice(alloc: Global, bytes: &[u8]) -> Result<T, Self::Error>
        ensures ok { IfOk result (λ value. decoded bytes.now ≡ Some (contents value)) }
        ensures err { IfErr result (λ error. MatchOption (failure_of error)
            (decoded bytes.now ≡ None) (MemoryOr reading)) }
    {
        let mut reader = bytes;
        Self::decode(alloc, &mut reader)
    }

    /// Returns the block of a value, which is the bytes that [`Codec::encode`] writes.
    ///
    /// # Errors
    ///
    /// An error if an allocation fails, or if the value can't be written in the format. If the
    /// vector is out of memory, the codec may report a failed allocation or a failure of the
    /// writer.
    fn encode_to_vec(alloc: Global, value: &T) -> Result<Vec<u8>, Self::Error>
        ensures ok { IfOk result (λ bytes. writes (contents value.now) ≡ Some bytes.items) }
        ensures err { IfErr result (λ error. MatchOption (failure_of error)
            (writes (contents value.now) ≡ None) (MemoryOr writing)) }
    {
        let mut bytes = Vec::new(alloc);
        Self::encode(alloc, &mut bytes, value)?;
        Ok(bytes)
    }

    // the law that no block encodes two values
    ghost encoded_once: { EncodedOnce Encodes };

    // the law that a block decodes to the value that it encodes
    ghost decodes_encoded: { DecodesEncoded Encodes decoded };

    // the law that the block that is written encodes the value
    ghost writes_encoded: { WritesEncoded Encodes writes };
}
