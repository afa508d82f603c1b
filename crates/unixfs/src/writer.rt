//! Writing the message `Data`.

ghost use Rattle.std.specs.Prelude.{◌≡◌, ◌⊎◌, ◌<◌, ◌^◌, ◌++◌, ℕ, List, length, option_map, slice_index_or, FitsSigned, IfOk, IfSome, OnOk, Ok, Err, MatchResult};
ghost use Rattle.std.specs.Int.{w64, cast_unsigned};
ghost use Rattle.dag_pb.specs.Writing.{content_of, number_of};
ghost use Rattle.unixfs.specs.Data.{IsData};
ghost use Rattle.unixfs.specs.Reading as reading;
ghost use Rattle.unixfs.specs.Views.{parts_of, parts_of_time};
ghost use Rattle.unixfs.specs.Writing as writing;

use crate::data::{Data, UnixTime};
use crate::encode_error::UnixFsEncodeError;
use crate::reader::{BLOCKSIZES, DATA, FANOUT, FILESIZE, HASH_TYPE, MODE, MTIME, TYPE};
use crate::time::{MAX_NANOSECONDS, NANOSECONDS, SECONDS};
use ipld_cid::ByteBuffer;
use pb_wire::{content_len, number_len, push_content, push_number};
use std::alloc::{AllocError, Global};

// Returns the number whose varint encodes these seconds: their two's complement.
fn seconds_number(seconds: i64) -> u64
    ensures value { result ≡ cast_unsigned w64 seconds }
    ensures fits { FitsSigned w64 seconds }
{
    seconds.cast_unsigned()
}

// Returns the number of a mode.
fn mode_number(mode: u32) -> u64
    ensures value { result ≡ mode }
    ensures fits { mode < 2 ^ 32 }
{
    u64::from(mode)
}

// Returns the number of bytes of the field of a number, or 0 without a number. Like the numbers of
// the functions below, it is only for a capacity.
fn number_of_len(key: u64, number: Option<u64>) -> usize
    ensures fits { IfSome number (λ n. n < 2 ^ 64) }
{
    match number {
        Some(number) => number_len(key, number),
        None => 0,
    }
}

// Returns the number of bytes of the field of the data, or 0 without data.
fn data_len(content: Option<&[u8]>) -> usize
    ensures fits { IfSome content.entry (λ c. length c.now < 2 ^ 64) }
{
    match content {
        Some(content) => content_len(DATA, content),
        None => 0,
    }
}

// Returns the number of bytes of the sizes. A number that doesn't fit is the greatest one.
fn sizes_len(sizes: &[u64]) -> usize
    ensures fits { (i : ℕ) → slice_index_or sizes.now i 0 < 2 ^ 64 }
{
    let mut total: usize = 0;
    for size in sizes {
        total = total.saturating_add(number_len(BLOCKSIZES, *size));
    }
    total
}

// Returns the number of bytes of the mode, or 0 without a mode.
fn mode_len(mode: Option<u32>) -> usize
    ensures fits { IfSome mode (λ m. m < 2 ^ 32) }
{
    match mode {
        Some(mode) => number_len(MODE, mode_number(mode)),
        None => 0,
    }
}

// Returns the greatest number of bytes of the field of a time with these seconds, or 0 without a
// time.
fn mtime_len(mtime: Option<UnixTime>) -> usize
    ensures fits { IfSome mtime (λ t. FitsSigned w64 t.seconds) }
{
    match mtime {
        Some(time) => number_len(SECONDS, seconds_number(time.seconds)).saturating_add(7),
        None => 0,
    }
}

// Returns the number of bytes of a message, or a few more.
fn message_len(message: &Data<'_>) -> usize
    ensures { writing.IsWritable (parts_of message.now) }
{
    number_len(TYPE, message.data_type.code())
        .saturating_add(data_len(message.data))
        .saturating_add(number_of_len(FILESIZE, message.filesize))
        .saturating_add(sizes_len(&message.blocksizes))
        .saturating_add(number_of_len(HASH_TYPE, message.hash_type))
        .saturating_add(number_of_len(FANOUT, message.fanout))
        .saturating_add(mode_len(message.mode))
        .saturating_add(mtime_len(message.mtime))
}

// Appends the field of a number, if there is one.
fn push_number_of(bytes: &mut Vec<u8>, key: u64, number: Option<u64>) -> Result<(), AllocError>
    ensures { OnOk result (bytes.new.items ≡ bytes.old.items ++ number_of key number) }
{
    match number {
        Some(number) => push_number(bytes, key, number),
        None => Ok(()),
    }
}

// Appends the field of the data, if there are data.
fn push_data(bytes: &mut Vec<u8>, content: Option<&[u8]>) -> Result<(), AllocError>
    ensures { OnOk result (bytes.new.items ≡ bytes.old.items
        ++ content_of 18 (option_map (λ c. c.now) content.entry)) }
{
    match content {
        Some(content) => push_content(bytes, DATA, content),
        None => Ok(()),
    }
}

// Appends the fields of these sizes.
fn push_sizes(bytes: &mut Vec<u8>, sizes: &[u64]) -> Result<(), AllocError>
    ensures { OnOk result (bytes.new.items
        ≡ bytes.old.items ++ writing.numbers_bytes 32 sizes.now) }
{
    for size in sizes {
        push_number(bytes, BLOCKSIZES, *size)?;
    }
    Ok(())
}

// Appends the field of the mode, if there is one.
fn push_mode(bytes: &mut Vec<u8>, mode: Option<u32>) -> Result<(), AllocError>
    ensures { OnOk result (bytes.new.items ≡ bytes.old.items ++ number_of 56 mode) }
{
    match mode {
        Some(mode) => push_number(bytes, MODE, mode_number(mode)),
        None => Ok(()),
    }
}

// Returns the message of a time.
#[tactic(auto, unfolding(crate::specs::Writing::time_bytes, pb_wire::specs::Writing::number_bytes, pb_wire::specs::Writing::fixed32_bytes))]
fn time_message(time: UnixTime) -> ByteBuffer<40>
    ensures { result ≡ writing.time_bytes (parts_of_time time) }
{
    let mut message = ByteBuffer::<40>::new();
    message.push_varint(SECONDS);
    message.push_varint(seconds_number(time.seconds));
    if time.nanoseconds != 0 {
        message.push_varint(NANOSECONDS);
        message.extend(&time.nanoseconds.to_le_bytes());
    }
    message
}

// Appends the field of the time, if there is one.
fn push_mtime(bytes: &mut Vec<u8>, mtime: Option<UnixTime>) -> Result<(), AllocError>
    ensures { OnOk result (bytes.new.items
        ≡ bytes.old.items ++ writing.time_of (option_map parts_of_time mtime)) }
{
    match mtime {
        Some(time) => push_content(bytes, MTIME, time_message(time).as_slice()),
        None => Ok(()),
    }
}

// Appends the fields of a message.
fn push_fields(bytes: &mut Vec<u8>, message: &Data<'_>) -> Result<(), AllocError>
    ensures { OnOk result (bytes.new.items
        ≡ bytes.old.items ++ writing.data_bytes (parts_of message.now)) }
{
    push_number(bytes, TYPE, message.data_type.code())?;
    push_data(bytes, message.data)?;
    push_number_of(bytes, FILESIZE, message.filesize)?;
    push_sizes(bytes, &message.blocksizes)?;
    push_number_of(bytes, HASH_TYPE, message.hash_type)?;
    push_number_of(bytes, FANOUT, message.fanout)?;
    push_mode(bytes, message.mode)?;
    push_mtime(bytes, message.mtime)
}

// Checks that a time has at most 999,999,999 nanoseconds.
fn check_time(mtime: Option<UnixTime>) -> Result<(), UnixFsEncodeError>
    ensures valid { OnOk result (IfSome mtime (λ t. t.nanoseconds < 1000000000)) }
    ensures exact { (bytes : List ℕ) → MatchResult result
        (λ _. writing.if_valid_time (option_map parts_of_time mtime) bytes ≡ Ok bytes)
        (λ error. writing.if_valid_time (option_map parts_of_time mtime) bytes ≡ Err error) }
{
    match mtime {
        Some(time) => {
            if time.nanoseconds > MAX_NANOSECONDS {
                return Err(UnixFsEncodeError::Nanoseconds(time.nanoseconds));
            }
            Ok(())
        }
        None => Ok(()),
    }
}

/// Encodes the message `Data`: the data of a DAG-PB node of UnixFS. The fields are in the order of
/// their numbers, and varints are the shortest.
///
/// Reading the bytes returns the same message. It allocates once.
///
/// # Errors
///
/// - `Nanoseconds` if the time has more than 999,999,999 nanoseconds. Nothing is then allocated.
/// - `Memory` if the allocation fails.
pub fn encode_data(alloc: Global, message: &Data<'_>) -> Result<Vec<u8>, UnixFsEncodeError>
    ensures exact { MatchResult result
        (λ bytes. writing.written (parts_of message.now) ≡ Ok bytes.items)
        (λ error. (error ≡ UnixFsEncodeError.Memory)
        ⊎ (writing.written (parts_of message.now) ≡ Err error)) }
    ensures encoded { IfOk result (λ bytes. IsData (parts_of message.now) bytes.items) }
    ensures read_back { IfOk result (λ bytes.
        reading.read_data bytes.items ≡ Ok (parts_of message.now)) }
{
    match check_time(message.mtime) {
        Ok(()) => {
            let mut bytes = Vec::with_capacity(alloc, message_len(message))?;
            push_fields(&mut bytes, message)?;
            Ok(bytes)
        }
        Err(error) => Err(error),
    }
}
