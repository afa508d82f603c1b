//! The reading of an index.

ghost use Rattle.std.specs.Prelude.{◌≡◌, ◌≤◌, ◌∷◌, ◌++◌, [], ℕ, List, Some, length, IfErr, IfOk, MatchResult, OnOk};
ghost use Rattle.std.specs.Io.KnownBytes.{Consumes};
ghost use Rattle.ipld_car.specs.Index.{format_code};
ghost use Rattle.ipld_car.specs.IndexLayout.{IsBucket, Parts, IsHash, IsIndex, IsPart};
ghost use Rattle.ipld_car.specs.IndexNumbers.{le32, le64};
ghost use Rattle.ipld_car.specs.IndexOrder.{AreSorted};
ghost use Rattle.ipld_car.specs.IndexReading.{state, TakesRow, TakesRows, TakesPart, TakesIndex, IsOfReader, AreInOrder, IsRow, AreRows, ReadsPart, ReadsFormat, TakesCode};
ghost use Rattle.ipld_car.specs.IndexErrors.{Blames, EndsWithin, IsUnsorted, FirstWrong, WrongRow, WrongBucket, WrongHash, WrongPart, WrongFormat, WrongIndex};

use crate::error::CarErrorKind;
use crate::index::entry::IndexEntry;
use crate::index::error::IndexError;
use crate::index::format::{IndexFormat, NO_HASH_FUNCTION};
use crate::length::error_at;
use ipld_cid::Multihash;
use std::alloc::Global;
use std::io::{Error, ErrorKind, Read};

// The bytes of an offset, and the most that a digest has.
const OFFSET_LEN: u32 = 8;

const LONGEST_DIGEST: u32 = 64;

// The codes of IndexSorted and of MultihashIndexSorted.
const INDEX_SORTED: u64 = 0x0400;

const MULTIHASH_INDEX_SORTED: u64 = 0x0401;

/// An index that was read.
#[derive(Debug, Drop)]
pub struct StoredIndex {
    /// The format.
    pub format: IndexFormat,
    /// The entries, sorted. In [`IndexFormat::IndexSorted`] the code of each hash is 0.
    pub entries: Vec<IndexEntry>,
}

// The number of 32 bits that bytes encode, the lowest byte first.
fn u32_from_le(bytes: [u8; 4]) -> u32
    ensures { le32 result ≡ bytes }
{
    u32::from_le_bytes(bytes)
}

// The number of 64 bits that bytes encode, the lowest byte first.
fn u64_from_le(bytes: [u8; 8]) -> u64
    ensures { le64 result ≡ bytes }
{
    u64::from_le_bytes(bytes)
}

// Fills the buffer with bytes of the reader. A reader that is interrupted without end has failed.
fn read_exact<R: Read>(reader: &mut R, buffer: &mut [u8]) -> Result<(), IndexError>
    ensures takes { OnOk result
        (Consumes (R.remaining reader.old) (R.remaining reader.new) buffer.new) }
    ensures fails { IfErr result (EndsWithin (length buffer.old) (R.remaining reader.old)) }
{
    let mut filled = 0;
    for _ in 0..u64::MAX {
        if filled >= buffer.len() {
            return Ok(());
        }
        match reader.read(&mut buffer[filled..]) {
            Ok(0) => return Err(IndexError::UnexpectedEnd),
            Ok(count) => filled += count,
            Err(error) => match error.kind() {
                ErrorKind::Interrupted => {}
                ErrorKind::OutOfMemory => return Err(IndexError::Memory),
                _ => return Err(IndexError::Read(error)),
            },
        }
    }
    Err(IndexError::Read(Error::from(ErrorKind::Other)))
}

fn read_u32<R: Read>(reader: &mut R) -> Result<u32, IndexError>
    ensures takes { IfOk result (λ n.
        Consumes (R.remaining reader.old) (R.remaining reader.new) (le32 n)) }
    ensures fails { IfErr result (EndsWithin 4 (R.remaining reader.old)) }
{
    let mut bytes = [0; 4];
    read_exact(reader, &mut bytes)?;
    Ok(u32_from_le(bytes))
}

fn read_u64<R: Read>(reader: &mut R) -> Result<u64, IndexError>
    ensures takes { IfOk result (λ n.
        Consumes (R.remaining reader.old) (R.remaining reader.new) (le64 n)) }
    ensures fails { IfErr result (EndsWithin 8 (R.remaining reader.old)) }
{
    let mut bytes = [0; 8];
    read_exact(reader, &mut bytes)?;
    Ok(u64_from_le(bytes))
}

// Reads the next byte.
#[tactic(auto, using(crate::proofs::index::Formats::one_byte))]
fn read_u8<R: Read>(reader: &mut R) -> Result<u8, IndexError>
    ensures takes { IfOk result (λ byte.
        Consumes (R.remaining reader.old) (R.remaining reader.new) (byte ∷ [])) }
    ensures fails { IfErr result (EndsWithin 1 (R.remaining reader.old)) }
{
    let mut bytes = [0; 1];
    read_exact(reader, &mut bytes)?;
    let [byte] = bytes;
    Ok(byte)
}

// Reads the code of a format, a varint.
#[tactic(auto, using(crate::proofs::index::Formats::code_begins))]
fn read_code<R: Read>(reader: &mut R) -> Result<u64, IndexError>
    ensures takes { IfOk result (TakesCode (R.remaining reader.old) (R.remaining reader.new)) }
    ensures wrong { IfErr result (Blames WrongFormat (R.remaining reader.old)) }
{
    let mut code = 0;
    for place in 0..10 {
        let byte = read_u8(reader)?;
        if let Some(kind) = error_at(place, byte) {
            return match kind {
                CarErrorKind::LengthTooLarge => Err(IndexError::FormatTooLarge),
                _ => Err(IndexError::FormatNotShortest),
            };
        }
        code |= u64::from(byte & 0x7f) << (7 * place);
        if byte < 0x80 {
            return Ok(code);
        }
    }
    unreachable!()
}

// Reads the code of the format.
#[tactic(auto, using(crate::proofs::index::Formats::format_taken, crate::proofs::index::Formats::format_other, crate::proofs::index::Formats::format_only))]
fn read_format<R: Read>(reader: &mut R) -> Result<IndexFormat, IndexError>
    ensures takes { IfOk result (λ format.
        Consumes (R.remaining reader.old) (R.remaining reader.new) (format_code format)) }
    ensures only { ReadsFormat (R.remaining reader.old) result }
    ensures wrong { IfErr result (Blames WrongFormat (R.remaining reader.old)) }
{
    let code = read_code(reader)?;
    match code {
        INDEX_SORTED => Ok(IndexFormat::IndexSorted),
        MULTIHASH_INDEX_SORTED => Ok(IndexFormat::MultihashIndexSorted),
        _ => Err(IndexError::Format(code)),
    }
}

// Appends an entry if it comes in order.
fn add_entry(entries: &mut Vec<IndexEntry>, entry: IndexEntry) -> Result<(), IndexError>
    ensures behind { OnOk result (entries.new.items ≡ entries.old.items ++ entry ∷ []) }
    ensures sorted { OnOk result (AreSorted entries.old.items → AreSorted entries.new.items) }
    ensures fails { IfErr result (IsUnsorted (entries.old.items ++ entry ∷ [])) }
{
    if let Some(last) = entries.last() {
        if entry.cmp(last).is_lt() {
            return Err(IndexError::NotSorted);
        }
    }
    entries.push(entry)?;
    Ok(())
}

// Reads a row of this hash function, and appends its entry.
#[tactic(auto, unfolding(crate::specs::Index::row), using(crate::proofs::index::Only::row_no_digest, crate::proofs::index::Only::row_no_offset, crate::proofs::index::Blaming::row_cut, crate::proofs::index::Blaming::offset_cut))]
fn read_row<R: Read>(
    reader: &mut R,
    code: u64,
    digest: &mut [u8],
    entries: &mut Vec<IndexEntry>,
) -> Result<(), IndexError>
    requires { length digest.old ≤ 64 }
    ensures takes { OnOk result (TakesRow code (length digest.old)
        (state R.remaining reader.old entries.old.items)
        (state R.remaining reader.new entries.new.items)) }
    ensures only { ReadsPart (IsRow code (length digest.old))
        (state R.remaining reader.old entries.old.items)
        (state R.remaining reader.new entries.new.items) result }
    ensures wrong { IfErr result
        (Blames (WrongRow code (length digest.old) entries.old.items) (R.remaining reader.old)) }
{
    read_exact(reader, digest)?;
    let offset = read_u64(reader)?;
    let Ok(hash) = Multihash::wrap(code, digest) else {
        unreachable!()
    };
    add_entry(entries, IndexEntry { hash, offset })
}

// Reads `count` rows of digests of one length.
#[tactic(auto, using(crate::proofs::index::Taking::rows_none, crate::proofs::index::Taking::rows_more, crate::proofs::index::Taking::rows_all, crate::proofs::index::Only::ahead_of_rows, crate::proofs::index::Only::goes_begin, crate::proofs::index::Only::goes_end, crate::proofs::index::Only::rows_wrong, crate::proofs::index::Blaming::rows_blame))]
fn read_rows<R: Read>(
    reader: &mut R,
    code: u64,
    digest_len: usize,
    count: u64,
    entries: &mut Vec<IndexEntry>,
) -> Result<(), IndexError>
    requires { digest_len ≤ 64 }
    ensures takes { OnOk result (TakesRows code digest_len count
        (state R.remaining reader.old entries.old.items)
        (state R.remaining reader.new entries.new.items)) }
    ensures only { ReadsPart (AreRows code digest_len count)
        (state R.remaining reader.old entries.old.items)
        (state R.remaining reader.new entries.new.items) result }
    ensures wrong { IfErr result (λ error. AreInOrder entries.old.items
        → Blames
        (FirstWrong (AreRows code digest_len) (WrongRow code digest_len) count
        entries.old.items)
        (R.remaining reader.old) error) }
{
    let mut digest = [0; 64];
    let mut left = count;
    while left > 0 {
        read_row(reader, code, &mut digest[..digest_len], entries)?;
        left -= 1;
    }
    Ok(())
}

// Reads the rows of digests of one length, after the length of a row and the number of their bytes.
#[tactic(auto, using(crate::proofs::index::Taking::bucket_taken, crate::proofs::index::Only::bucket_read, crate::proofs::index::Only::bucket_not_narrow, crate::proofs::index::Only::bucket_not_wide, crate::proofs::index::Only::bucket_not_uneven, crate::proofs::index::Only::bucket_no_width, crate::proofs::index::Only::bucket_no_length, crate::proofs::index::Blaming::width_cut, crate::proofs::index::Blaming::width_narrow, crate::proofs::index::Blaming::width_wide, crate::proofs::index::Blaming::length_cut, crate::proofs::index::Blaming::length_uneven, crate::proofs::index::Blaming::bucket_blames))]
fn read_bucket<R: Read>(
    reader: &mut R,
    code: u64,
    entries: &mut Vec<IndexEntry>,
) -> Result<(), IndexError>
    ensures takes { OnOk result (TakesPart (IsBucket code)
        (state R.remaining reader.old entries.old.items)
        (state R.remaining reader.new entries.new.items)) }
    ensures only { ReadsPart (IsBucket code)
        (state R.remaining reader.old entries.old.items)
        (state R.remaining reader.new entries.new.items) result }
    ensures wrong { IfErr result (λ error. AreInOrder entries.old.items
        → Blames (WrongBucket code entries.old.items) (R.remaining reader.old) error) }
{
    let width = read_u32(reader)?;
    let Some(digest_len) = width.checked_sub(OFFSET_LEN) else {
        return Err(IndexError::Width(width));
    };
    if digest_len > LONGEST_DIGEST {
        return Err(IndexError::Width(width));
    }
    let length = read_u64(reader)?;
    let width = u64::from(width);
    if length % width != 0 {
        return Err(IndexError::Length(length));
    }
    read_rows(reader, code, digest_len as usize, length / width, entries)
}

// Reads the rows of `count` lengths of digests.
#[tactic(auto, using(crate::proofs::index::Taking::parts_none, crate::proofs::index::Taking::parts_more, crate::proofs::index::Taking::parts_all, crate::proofs::index::Only::ahead_of_parts, crate::proofs::index::Only::goes_begin, crate::proofs::index::Only::goes_more, crate::proofs::index::Only::goes_wrong, crate::proofs::index::Only::goes_end, crate::proofs::index::Blaming::parts_blame))]
fn read_buckets<R: Read>(
    reader: &mut R,
    code: u64,
    count: u32,
    entries: &mut Vec<IndexEntry>,
) -> Result<(), IndexError>
    ensures takes { OnOk result (TakesPart (Parts (IsBucket code) count)
        (state R.remaining reader.old entries.old.items)
        (state R.remaining reader.new entries.new.items)) }
    ensures only { ReadsPart (Parts (IsBucket code) count)
        (state R.remaining reader.old entries.old.items)
        (state R.remaining reader.new entries.new.items) result }
    ensures wrong { IfErr result (λ error. AreInOrder entries.old.items
        → Blames
        (FirstWrong (Parts (IsBucket code)) (WrongBucket code) count entries.old.items)
        (R.remaining reader.old) error) }
{
    let mut left = count;
    while left > 0 {
        read_bucket(reader, code, entries)?;
        left -= 1;
    }
    Ok(())
}

// Reads the rows of a hash function, after its code and the number of its lengths of digests.
#[tactic(auto, using(crate::proofs::index::Taking::hash_taken, crate::proofs::index::Only::hash_read, crate::proofs::index::Only::hash_no_code, crate::proofs::index::Only::hash_no_count, crate::proofs::index::Blaming::code_cut, crate::proofs::index::Blaming::count_cut, crate::proofs::index::Blaming::hash_blames))]
fn read_hash<R: Read>(reader: &mut R, entries: &mut Vec<IndexEntry>) -> Result<(), IndexError>
    ensures takes { OnOk result (TakesPart IsHash
        (state R.remaining reader.old entries.old.items)
        (state R.remaining reader.new entries.new.items)) }
    ensures only { ReadsPart IsHash
        (state R.remaining reader.old entries.old.items)
        (state R.remaining reader.new entries.new.items) result }
    ensures wrong { IfErr result (λ error. AreInOrder entries.old.items
        → Blames (WrongHash entries.old.items) (R.remaining reader.old) error) }
{
    let code = read_u64(reader)?;
    let count = read_u32(reader)?;
    read_buckets(reader, code, count, entries)
}

// Reads the rows of `count` hash functions.
#[tactic(auto, using(crate::proofs::index::Taking::parts_none, crate::proofs::index::Taking::parts_more, crate::proofs::index::Taking::parts_all, crate::proofs::index::Only::ahead_of_parts, crate::proofs::index::Only::goes_begin, crate::proofs::index::Only::goes_more, crate::proofs::index::Only::goes_wrong, crate::proofs::index::Only::goes_end, crate::proofs::index::Blaming::parts_blame))]
fn read_hashes<R: Read>(
    reader: &mut R,
    count: u32,
    entries: &mut Vec<IndexEntry>,
) -> Result<(), IndexError>
    ensures takes { OnOk result (TakesPart (Parts IsHash count)
        (state R.remaining reader.old entries.old.items)
        (state R.remaining reader.new entries.new.items)) }
    ensures only { ReadsPart (Parts IsHash count)
        (state R.remaining reader.old entries.old.items)
        (state R.remaining reader.new entries.new.items) result }
    ensures wrong { IfErr result (λ error. AreInOrder entries.old.items
        → Blames
        (FirstWrong (Parts IsHash) WrongHash count entries.old.items)
        (R.remaining reader.old) error) }
{
    let mut left = count;
    while left > 0 {
        read_hash(reader, entries)?;
        left -= 1;
    }
    Ok(())
}

// Reads the `count` parts of an index in this format: hash functions or, without them, lengths of
// digests.
fn read_parts<R: Read>(
    reader: &mut R,
    format: IndexFormat,
    count: u32,
    entries: &mut Vec<IndexEntry>,
) -> Result<(), IndexError>
    ensures takes { OnOk result (TakesPart (Parts (IsPart format) count)
        (state R.remaining reader.old entries.old.items)
        (state R.remaining reader.new entries.new.items)) }
    ensures only { ReadsPart (Parts (IsPart format) count)
        (state R.remaining reader.old entries.old.items)
        (state R.remaining reader.new entries.new.items) result }
    ensures wrong { IfErr result (λ error. AreInOrder entries.old.items
        → Blames
        (FirstWrong (Parts (IsPart format)) (WrongPart format) count entries.old.items)
        (R.remaining reader.old) error) }
{
    match format {
        IndexFormat::IndexSorted => read_buckets(reader, NO_HASH_FUNCTION, count, entries),
        IndexFormat::MultihashIndexSorted => read_hashes(reader, count, entries),
    }
}

/// Reads an index in the format IndexSorted or MultihashIndexSorted (CARv2, "Index format", codes
/// 0x0400 and 0x0401), and returns its entries in their order. It reads the index and nothing after
/// it. Its time and memory grow with the number of bytes that there are.
///
/// # Errors
///
/// If the bytes are not an index with sorted entries, the error is the first [`IndexError`] in the
/// order of the bytes. Entries that are not sorted are an error, since they cannot be searched.
///
/// If the entries are sorted, only an allocation or the reader can fail:
///
/// - `Memory` if an allocation fails, or if the reader fails with [`ErrorKind::OutOfMemory`].
/// - `Read` if the reader fails in another way. A read that was interrupted is tried again.
///
/// It is not specified how much of the reader was read after an error.
#[tactic(auto, using(crate::proofs::index::Taking::index_taken, crate::proofs::index::Only::index_no_format, crate::proofs::index::Only::index_no_count, crate::proofs::index::Blaming::index_format, crate::proofs::index::Blaming::count_cut_short, crate::proofs::index::Blaming::index_blames))]
pub fn read_index<R: Read>(alloc: Global, reader: &mut R) -> Result<StoredIndex, IndexError>
    ensures takes { IfOk result (λ index. TakesIndex index.format
        (R.remaining reader.old) (R.remaining reader.new) index.entries.items) }
    ensures only { (format : IndexFormat) (bytes rest : List ℕ) (entries : List IndexEntry)
        → R.remaining reader.old ≡ Some (bytes ++ rest)
        → IsIndex format bytes entries
        → AreInOrder entries
        → MatchResult result
        (λ index. (index.format ≡ format) × (index.entries.items ≡ entries)) IsOfReader }
    ensures wrong { IfErr result (Blames WrongIndex (R.remaining reader.old)) }
{
    let format = read_format(reader)?;
    let count = read_u32(reader)?;
    let mut entries = Vec::new(alloc);
    read_parts(reader, format, count, &mut entries)?;
    Ok(StoredIndex { format, entries })
}
