//! The decoding of values from blocks.

ghost use Rattle.std.specs.Prelude.{◌≡◌, ◌≢◌, ◌⊎◌, ◌≤◌, length, Some, OnOk, IfOk, IfErr, IfSome};
ghost use Rattle.ipld_codec.specs.Codec.{IsReadOut};
ghost use Rattle.dag_cbor_serde.specs.Errors.{trailing_at};
ghost use Rattle.dag_cbor_serde.specs.Read.{reads_block, BlockWithin, NotRead, default_limits};

use crate::block_reader::BlockReader;
use crate::error::DecodeError;
use dag_cbor::{BlockError, BlockErrorKind, CborError, decode_slice_within};
use dag_cbor_blocks::shallow::SHALLOW;
use ipld_codec::{Codec, RawCodec, RawError};
use ipld_de::{Deserialize, Unread, from_ipld};
use ipld_ser::SerdeError;
use ipld_tree::{Ipld, Limits};
use std::alloc::Global;
use std::io::BufRead;

/// Decodes a value from a block, which is all of the bytes. It reads at most [`Limits::default`]
/// levels of lists and maps. It is for untrusted input.
///
/// If the type and those of its parts read the block part by part ([`Deserialize::read_image`]), it
/// allocates only the content of the value and the trees of some ignored values. An ignored value
/// has a name that is not that of a field. Its tree is not made if it is an integer, a string or
/// bytes.
///
/// In these cases it also allocates the block's tree, and reads the block again:
///
/// - The type or a type of its parts doesn't read the block part by part.
/// - The block nests more than 32 levels deep.
/// - Its keys are not in length-first order.
/// - It is rejected. Two errors are found without a second reading: bytes after the value, and a
///   missing field of the value's own struct.
///
/// # Errors
///
/// - `Memory` if an allocation fails.
/// - `Block` if the bytes are not a block, or lists and maps nest deeper than 1,024 levels.
/// - `Value` if the type rejects the block's tree, with the error of [`from_ipld`].
///
/// `Read` is never returned.
pub fn from_slice<T: Deserialize>(alloc: Global, bytes: &[u8]) -> Result<T, DecodeError>
    ensures ok { IfOk result (λ v. reads_block T.reads bytes.now ≡ Some (T.contents v)) }
    ensures within { IfOk result (λ v. BlockWithin default_limits bytes.now) }
    ensures err { IfErr result (λ error. NotRead T.reads T.read_error default_limits bytes.now
        error) }
    ensures no_reader { IfErr result (λ error. error ≢ DecodeError.Read) }
{
    from_slice_within(alloc, bytes, &Limits::default())
}

/// Decodes a value from a block, which is all of the bytes, and whose tree is within the limits:
/// see [`from_slice`]. The limits are checked while the bytes are read.
///
/// # Errors
///
/// - `Memory` if an allocation fails.
/// - `Block` if the bytes are not a block or exceed a limit, with the error of
///   [`decode_slice_within`].
/// - `Value` if the type rejects the block's tree, with the error of [`from_ipld`].
///
/// `Read` is never returned.
pub fn from_slice_within<T: Deserialize>(
    alloc: Global,
    bytes: &[u8],
    limits: &Limits,
) -> Result<T, DecodeError>
    ensures ok { IfOk result (λ v. reads_block T.reads bytes.now ≡ Some (T.contents v)) }
    ensures within { IfOk result (λ v. BlockWithin limits.now bytes.now) }
    ensures err { IfErr result (λ error. NotRead T.reads T.read_error limits.now bytes.now error) }
    ensures no_reader { IfErr result (λ error. error ≢ DecodeError.Read) }
{
    match read_parts(alloc, bytes, limits) {
        Ok(value) => return Ok(value),
        Err(Some(error)) => return Err(error),
        Err(None) => {}
    }
    let tree = decode_slice_within(alloc, bytes, limits)?;
    Ok(from_ipld(alloc, tree)?)
}

// Reads a value part by part from a block that has no more bytes than values are allowed, so that
// it can't have more values. Returns the error if it is known without the block's tree.
fn read_parts<T: Deserialize>(
    alloc: Global,
    bytes: &[u8],
    limits: &Limits,
) -> Result<T, Option<DecodeError>>
    ensures ok { IfOk result (λ v. reads_block T.reads bytes.now ≡ Some (T.contents v)) }
    ensures within { IfOk result (λ v. BlockWithin limits.now bytes.now) }
    ensures err { IfErr result (λ known. IfSome known
        (NotRead T.reads T.read_error limits.now bytes.now)) }
    ensures no_reader { IfErr result (λ known. IfSome known (λ error. error ≢ DecodeError.Read)) }
{
    if bytes.len() > limits.values {
        return Err(None);
    }
    let mut reader = BlockReader { bytes };
    match T::read_image(alloc, &mut reader, limits.levels.min(SHALLOW)) {
        Ok(value) => {
            if reader.bytes.is_empty() {
                Ok(value)
            } else {
                value.discard();
                Err(Some(trailing_error(bytes.len() - reader.bytes.len())))
            }
        }
        Err(Unread::Memory) => Err(Some(DecodeError::Memory)),
        Err(Unread::Rejected) => Err(None),
        Err(Unread::MissingField) if reader.bytes.is_empty() => {
            Err(Some(DecodeError::Value(SerdeError::Custom("missing field"))))
        }
        Err(Unread::MissingField) => Err(Some(trailing_error(bytes.len() - reader.bytes.len()))),
    }
}

// Returns the error of a block that has bytes after its tree, which ends at this offset.
fn trailing_error(offset: usize) -> DecodeError
    ensures { result ≡ trailing_at offset }
{
    DecodeError::Block(BlockError {
        kind: BlockErrorKind::Cbor(CborError::TrailingBytes),
        offset,
    })
}

/// Reads the reader to its end, and decodes a value from its bytes in the same way as
/// [`from_slice`]. The reader's bytes are held in memory, so limit these too, for example with
/// `take`.
///
/// # Errors
///
/// `Read` if the reader fails or does not end. Otherwise those of [`from_slice`]. After an error,
/// the position of the reader is unspecified.
pub fn from_reader<T: Deserialize, R: BufRead>(
    alloc: Global,
    reader: &mut R,
) -> Result<T, DecodeError>
    ensures ok { IfOk result (λ v. IfSome (R.remaining reader.old) (λ block.
        reads_block T.reads block ≡ Some (T.contents v))) }
    ensures within { IfOk result (λ v. IfSome (R.remaining reader.old)
        (BlockWithin default_limits)) }
    ensures read_out { OnOk result (IsReadOut (R.remaining reader.old) (R.remaining reader.new)) }
    ensures err { IfErr result (λ error. (error ≡ DecodeError.Read)
        ⊎ IfSome (R.remaining reader.old) (λ block.
        NotRead T.reads T.read_error default_limits block error)) }
{
    from_reader_within(alloc, reader, &Limits::default())
}

/// Reads the reader to its end, and decodes a value from its bytes, whose tree is within the
/// limits, in the same way as [`from_slice_within`]. The reader's bytes are held in memory, so
/// limit these too, for example with `take`.
///
/// # Errors
///
/// `Read` if the reader fails or does not end. Otherwise those of [`from_slice_within`]. After an
/// error, the position of the reader is unspecified.
pub fn from_reader_within<T: Deserialize, R: BufRead>(
    alloc: Global,
    reader: &mut R,
    limits: &Limits,
) -> Result<T, DecodeError>
    ensures ok { IfOk result (λ v. IfSome (R.remaining reader.old) (λ block.
        reads_block T.reads block ≡ Some (T.contents v))) }
    ensures within { IfOk result (λ v. IfSome (R.remaining reader.old) (BlockWithin limits.now)) }
    ensures read_out { OnOk result (IsReadOut (R.remaining reader.old) (R.remaining reader.new)) }
    ensures err { IfErr result (λ error. (error ≡ DecodeError.Read)
        ⊎ IfSome (R.remaining reader.old) (λ block.
        NotRead T.reads T.read_error limits.now block error)) }
{
    let block = read_block(alloc, reader)?;
    from_slice_within(alloc, &block, limits)
}

// Reads the reader to its end.
fn read_block<R: BufRead>(alloc: Global, reader: &mut R) -> Result<Vec<u8>, DecodeError>
    ensures ok { IfOk result (λ bytes. IfSome (R.remaining reader.old) (λ block.
        block ≡ bytes.items)) }
    ensures read_out { OnOk result (IsReadOut (R.remaining reader.old) (R.remaining reader.new)) }
    ensures err { IfErr result (λ error. (error ≡ DecodeError.Memory)
        ⊎ (error ≡ DecodeError.Read)) }
{
    match RawCodec::decode(alloc, reader) {
        Ok(Ipld::Bytes(bytes)) => Ok(bytes),
        Err(RawError::Memory) => Err(DecodeError::Memory),
        _ => Err(DecodeError::Read),
    }
}
