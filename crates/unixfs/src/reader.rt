//! Reading the message `Data`.

ghost use Rattle.std.specs.Prelude.{◌≡◌, ◌⊎◌, ◌≤◌, ◌++◌, [], ◌∷◌, length, map, option_map, IfOk, IfErr, IsOk, OnOk, OnErr, Ok, Err, MatchResult, ℕ, List};
ghost use Rattle.unixfs.specs.Data.{DataParts, IsData};
ghost use Rattle.unixfs.specs.Errors.{no_memory};
ghost use Rattle.unixfs.specs.Reading as reading;
ghost use Rattle.unixfs.specs.Reading.{HeadParts};
ghost use Rattle.unixfs.specs.Views.{parts_of, parts_of_head, parts_of_details, parts_of_time, IsOutOfMemory};

use crate::data::{Data, DataType, UnixTime};
use crate::error::{Fault, UnixFsError, UnixFsErrorKind};
use crate::time::read_mtime;
use pb_wire::{content_field, number_field, read_varint};
use std::alloc::{AllocError, Global};

// The keys of the fields of a message.
pub(crate) const TYPE: u64 = 8;

pub(crate) const DATA: u64 = 18;

pub(crate) const FILESIZE: u64 = 24;

pub(crate) const BLOCKSIZES: u64 = 32;

pub(crate) const HASH_TYPE: u64 = 40;

pub(crate) const FANOUT: u64 = 48;

pub(crate) const MODE: u64 = 56;

pub(crate) const MTIME: u64 = 66;

// Reads a number that may be left out, and returns it with the bytes after it.
#[tactic(auto, unfolding(crate::specs::Reading::read_number))]
pub(crate) fn read_number(key: u64, bytes: &[u8]) -> Result<(Option<u64>, &[u8]), Fault>
    ensures exact { MatchResult result
        (λ found. reading.read_number key bytes.now ≡ Ok (found.0, found.1.now))
        (λ fault. reading.read_number key bytes.now ≡ Err fault) }
    ensures shorter { IfOk result (λ found. length found.1.now ≤ length bytes.now) }
    ensures within { IfErr result (λ fault. fault.left ≤ length bytes.now) }
{
    match number_field(key, bytes) {
        Ok(found) => Ok(found),
        Err(error) => Err(Fault::of_wire(error, bytes.len())),
    }
}

// Reads a content that may be left out, and returns it with the bytes after it.
#[tactic(auto, unfolding(crate::specs::Reading::read_bytes))]
pub(crate) fn read_bytes(key: u64, bytes: &[u8]) -> Result<(Option<&[u8]>, &[u8]), Fault>
    ensures exact { MatchResult result
        (λ found. reading.read_bytes key bytes.now ≡ Ok
        (option_map (λ content. content.now) found.0, found.1.now))
        (λ fault. reading.read_bytes key bytes.now ≡ Err fault) }
    ensures shorter { IfOk result (λ found. length found.1.now ≤ length bytes.now) }
{
    match content_field(key, bytes) {
        Ok(found) => Ok(found),
        Err(error) => Err(Fault::of_wire(error, bytes.len())),
    }
}

// Returns the type of a field Type.
#[tactic(auto, unfolding(crate::specs::Reading::type_in))]
fn type_in(found: Option<u64>) -> Result<DataType, UnixFsErrorKind>
    ensures { result ≡ reading.type_in found }
{
    match found {
        None => Err(UnixFsErrorKind::NoType),
        Some(code) => match DataType::from_code(code) {
            Some(data_type) => Ok(data_type),
            None => Err(UnixFsErrorKind::UnknownType(code)),
        },
    }
}

// Reads the type with which a message begins, and returns it with the bytes after it.
#[tactic(auto, unfolding(crate::specs::Reading::read_type))]
fn read_type(bytes: &[u8]) -> Result<(DataType, &[u8]), Fault>
    ensures { MatchResult result
        (λ found. reading.read_type bytes.now ≡ Ok (found.0, found.1.now))
        (λ fault. reading.read_type bytes.now ≡ Err fault) }
{
    let (found, rest) = read_number(TYPE, bytes)?;
    match type_in(found) {
        Ok(data_type) => Ok((data_type, rest)),
        Err(kind) => Err(Fault {
            kind,
            left: bytes.len(),
        }),
    }
}

// Returns the mode of a field, if it has 32 bits.
#[tactic(auto, unfolding(crate::specs::Reading::mode_in))]
fn mode_in(found: Option<u64>) -> Result<Option<u32>, UnixFsErrorKind>
    ensures { MatchResult result
        (λ mode. reading.mode_in found ≡ Ok mode)
        (λ kind. reading.mode_in found ≡ Err kind) }
{
    match found {
        None => Ok(None),
        Some(mode) => {
            if mode >= 1 << 32 {
                return Err(UnixFsErrorKind::ModeTooLarge(mode));
            }
            Ok(Some(mode as u32))
        }
    }
}

// Reads the mode, if one comes, and returns it with the bytes after it.
#[tactic(auto, unfolding(crate::specs::Reading::read_mode))]
fn read_mode(bytes: &[u8]) -> Result<(Option<u32>, &[u8]), Fault>
    ensures { MatchResult result
        (λ found. reading.read_mode bytes.now ≡ Ok (found.0, found.1.now))
        (λ fault. reading.read_mode bytes.now ≡ Err fault) }
{
    let (found, rest) = read_number(MODE, bytes)?;
    match mode_in(found) {
        Ok(mode) => Ok((mode, rest)),
        Err(kind) => Err(Fault {
            kind,
            left: bytes.len(),
        }),
    }
}

// Returns whether a message has a field with this key.
fn is_data_key(key: u64) -> bool
    ensures { result ≡ reading.is_data_key key }
{
    matches!(
        key,
        TYPE | DATA | FILESIZE | BLOCKSIZES | HASH_TYPE | FANOUT | MODE | MTIME
    )
}

// Checks that a message ends here. Otherwise returns the fault of the field that comes.
#[tactic(auto, unfolding(crate::specs::Reading::read_end))]
fn read_end(bytes: &[u8]) -> Result<(), Fault>
    ensures { result ≡ reading.read_end reading.is_data_key bytes.now }
{
    if bytes.is_empty() {
        return Ok(());
    }
    let key = match read_varint(bytes) {
        Ok((key, _)) => key,
        Err(error) => return Err(Fault::of_wire(error, bytes.len())),
    };
    let kind = if is_data_key(key) {
        UnixFsErrorKind::FieldOrder
    } else {
        UnixFsErrorKind::UnknownField(key)
    };
    Err(Fault {
        kind,
        left: bytes.len(),
    })
}

// Appends a number.
fn push_number(numbers: &mut Vec<u64>, number: u64) -> Result<(), AllocError>
    ensures { OnOk result (numbers.new.items ≡ numbers.old.items ++ number ∷ []) }
{
    numbers.push(number)?;
    Ok(())
}

// Reads the numbers of all fields with this key at the front, and returns them with the bytes after
// them. The vector has a number for every two bytes at most.
fn read_numbers<'a>(alloc: Global, key: u64, bytes: &'a [u8]) -> Result<(Vec<u64>, &'a [u8]), Fault>
    ensures exact { MatchResult result
        (λ found. reading.read_numbers key bytes.entry.now ≡ Ok (found.0.items, found.1.now))
        (λ fault. (fault ≡ no_memory) ⊎ (reading.read_numbers key bytes.entry.now ≡ Err fault)) }
    ensures no_sizes { (rest : List ℕ) → reading.read_numbers key bytes.entry.now ≡ Ok ([], rest)
        → IsOk result }
{
    let mut numbers = Vec::new(alloc);
    let mut rest = bytes;
    while !rest.is_empty() {
        match read_number(key, rest) {
            Ok((found, after)) => match found {
                Some(number) => {
                    push_number(&mut numbers, number)?;
                    rest = after;
                }
                None => return Ok((numbers, after)),
            },
            Err(fault) => return Err(fault),
        }
    }
    Ok((numbers, rest))
}

// The first four fields of a message.
#[derive(Drop)]
pub(crate) struct Head<'a> {
    data_type: DataType,
    content: Option<&'a [u8]>,
    filesize: Option<u64>,
    blocksizes: Vec<u64>,
}

// The last four fields of a message.
#[derive(Clone, Copy)]
pub(crate) struct Details {
    hash_type: Option<u64>,
    fanout: Option<u64>,
    mode: Option<u32>,
    mtime: Option<UnixTime>,
}

// Reads the first four fields, and returns them with the bytes after them.
#[tactic(auto, unfolding(crate::specs::Reading::read_head))]
fn read_head<'a>(alloc: Global, bytes: &'a [u8]) -> Result<(Head<'a>, &'a [u8]), Fault>
    ensures exact { MatchResult result
        (λ found. reading.read_head bytes.entry.now ≡ Ok (parts_of_head found.0, found.1.now))
        (λ fault. (fault ≡ no_memory) ⊎ (reading.read_head bytes.entry.now ≡ Err fault)) }
    ensures no_sizes { (head : HeadParts) (rest : List ℕ)
        → reading.read_head bytes.entry.now ≡ Ok (head, rest) → head.blocksizes ≡ []
        → IsOk result }
{
    let (data_type, rest) = read_type(bytes)?;
    let (content, rest) = read_bytes(DATA, rest)?;
    let (filesize, rest) = read_number(FILESIZE, rest)?;
    let (blocksizes, rest) = read_numbers(alloc, BLOCKSIZES, rest)?;
    let head = Head {
        data_type,
        content,
        filesize,
        blocksizes,
    };
    Ok((head, rest))
}

// Reads the last four fields, which all of the bytes are.
#[tactic(auto, unfolding(crate::specs::Reading::read_details))]
fn read_details(bytes: &[u8]) -> Result<Details, Fault>
    ensures { MatchResult result
        (λ found. reading.read_details bytes.now ≡ Ok (parts_of_details found))
        (λ fault. reading.read_details bytes.now ≡ Err fault) }
{
    let (hash_type, rest) = read_number(HASH_TYPE, bytes)?;
    let (fanout, rest) = read_number(FANOUT, rest)?;
    let (mode, rest) = read_mode(rest)?;
    let (mtime, rest) = read_mtime(rest)?;
    read_end(rest)?;
    Ok(Details {
        hash_type,
        fanout,
        mode,
        mtime,
    })
}

// Reads a message, with the fault of its first invalid field.
#[tactic(auto, unfolding(crate::specs::Reading::read_fields))]
fn read_fields<'a>(alloc: Global, bytes: &'a [u8]) -> Result<Data<'a>, Fault>
    ensures exact { MatchResult result
        (λ found. reading.read_fields bytes.entry.now ≡ Ok (parts_of found))
        (λ fault. (fault ≡ no_memory) ⊎ (reading.read_fields bytes.entry.now ≡ Err fault)) }
    ensures no_sizes { (d : DataParts) → reading.read_fields bytes.entry.now ≡ Ok d
        → d.blocksizes ≡ [] → IsOk result }
{
    let (head, rest) = read_head(alloc, bytes)?;
    let details = read_details(rest)?;
    Ok(Data {
        data_type: head.data_type,
        data: head.content,
        filesize: head.filesize,
        blocksizes: head.blocksizes,
        hash_type: details.hash_type,
        fanout: details.fanout,
        mode: details.mode,
        mtime: details.mtime,
    })
}

/// Decodes the message `Data`, which is all of the bytes: the data of a DAG-PB node of UnixFS.
///
/// It reads the bytes once. It allocates only the vector of the sizes, which grows with the sizes
/// that it has read, and never has room for more than the message has bytes.
///
/// # Errors
///
/// `Memory` if an allocation fails. It is never returned for a message without sizes. Otherwise the
/// first error from the left, with the offset of its field.
pub fn read_data<'a>(alloc: Global, bytes: &'a [u8]) -> Result<Data<'a>, UnixFsError>
    ensures found { IfOk result (λ found. IsData (parts_of found) bytes.entry.now) }
    ensures only { (d : DataParts) → IsData d bytes.entry.now
        → MatchResult result (λ found. parts_of found ≡ d) IsOutOfMemory }
    ensures exact { MatchResult result
        (λ found. reading.read_data bytes.entry.now ≡ Ok (parts_of found))
        (λ error. IsOutOfMemory error ⊎ (reading.read_data bytes.entry.now ≡ Err error)) }
    ensures no_sizes { (d : DataParts) → IsData d bytes.entry.now → d.blocksizes ≡ []
        → IsOk result }
    ensures offset { IfErr result (λ error. error.offset ≤ length bytes.entry.now) }
{
    match read_fields(alloc, bytes) {
        Ok(found) => Ok(found),
        Err(fault) => Err(fault.in_message(bytes.len())),
    }
}
