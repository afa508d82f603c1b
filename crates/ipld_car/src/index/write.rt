//! The writing of an index.

ghost use Rattle.std.specs.Prelude.{◌≡◌, OnOk};
ghost use Rattle.std.specs.Io.KnownBytes.{Appends};
ghost use Rattle.ipld_car.specs.Index.{row, rows, bucket_bytes, buckets_bytes, format_code, hash_bytes, hashes_bytes, index_bytes};
ghost use Rattle.ipld_car.specs.IndexNumbers.{le32};
ghost use Rattle.ipld_car.specs.declared.index.format.IndexFormat.TheVariants.{MultihashIndexSorted};

use crate::index::entry::IndexEntry;
use crate::index::numbers::{write_u32, write_u64};
use crate::index::{Bucket, CarIndex, HashBuckets};
use std::io::{self, Error, ErrorKind, Write};

// The varint of 0x0401, the code of MultihashIndexSorted.
const FORMAT: [u8; 2] = [0x81, 0x08];

#[tactic(auto, unfolding(crate::specs::Index::format_code))]
fn write_format<W: Write>(writer: &mut W) -> io::Result<()>
    ensures { OnOk result (Appends (W.contents writer.old) (W.contents writer.new)
        (format_code MultihashIndexSorted)) }
{
    writer.write_all(&FORMAT)?;
    Ok(())
}

// Writes a digest and an offset.
#[tactic(auto, unfolding(crate::specs::Index::row))]
fn write_row<W: Write>(entry: &IndexEntry, writer: &mut W) -> io::Result<()>
    ensures { OnOk result
        (Appends (W.contents writer.old) (W.contents writer.new) (row entry.now)) }
{
    writer.write_all(entry.hash.digest())?;
    write_u64(entry.offset, writer)?;
    Ok(())
}

fn write_rows<W: Write>(entries: &[IndexEntry], writer: &mut W) -> io::Result<()>
    ensures { OnOk result
        (Appends (W.contents writer.old) (W.contents writer.new) (rows entries.now)) }
{
    for entry in entries {
        write_row(entry, writer)?;
    }
    Ok(())
}

// Writes a count, in 32 bits. An index in memory never has 2^32 hash functions or lengths of
// digests.
fn write_count<W: Write>(count: usize, writer: &mut W) -> io::Result<()>
    ensures { OnOk result (Appends (W.contents writer.old) (W.contents writer.new) (le32 count)) }
{
    match u32::try_from(count) {
        Ok(count) => write_u32(count, writer),
        Err(_) => Err(Error::from(ErrorKind::InvalidInput)),
    }
}

// Writes the rows of one length, after that length and the number of their bytes.
#[tactic(auto, unfolding(crate::specs::Index::bucket_bytes))]
fn write_bucket<W: Write>(bucket: &Bucket, writer: &mut W) -> io::Result<()>
    ensures { OnOk result
        (Appends (W.contents writer.old) (W.contents writer.new) (bucket_bytes bucket.now)) }
{
    let width = u32::from(bucket.digest_len) + 8;
    // The rows in memory have fewer than 2^64 bytes.
    let Some(length) = u64::from(width).checked_mul(bucket.entries.len() as u64) else {
        return Err(Error::from(ErrorKind::InvalidInput));
    };
    write_u32(width, writer)?;
    write_u64(length, writer)?;
    write_rows(&bucket.entries, writer)?;
    Ok(())
}

fn write_buckets<W: Write>(buckets: &[Bucket], writer: &mut W) -> io::Result<()>
    ensures { OnOk result
        (Appends (W.contents writer.old) (W.contents writer.new) (buckets_bytes buckets.now)) }
{
    for bucket in buckets {
        write_bucket(bucket, writer)?;
    }
    Ok(())
}

// Writes the buckets of a hash function, after its code and the number of the buckets.
#[tactic(auto, unfolding(crate::specs::Index::hash_bytes))]
fn write_hash<W: Write>(hash: &HashBuckets, writer: &mut W) -> io::Result<()>
    ensures { OnOk result
        (Appends (W.contents writer.old) (W.contents writer.new) (hash_bytes hash.now)) }
{
    write_u64(hash.code, writer)?;
    write_count(hash.buckets.len(), writer)?;
    write_buckets(&hash.buckets, writer)?;
    Ok(())
}

fn write_hashes<W: Write>(hashes: &[HashBuckets], writer: &mut W) -> io::Result<()>
    ensures { OnOk result
        (Appends (W.contents writer.old) (W.contents writer.new) (hashes_bytes hashes.now)) }
{
    for hash in hashes {
        write_hash(hash, writer)?;
    }
    Ok(())
}

impl CarIndex {
    /// Writes the index in the format MultihashIndexSorted (CARv2, "Index format", code 0x0401).
    /// For every hash function it writes the code, and then the rows for every length of its
    /// digests. A row is a digest and an offset.
    ///
    /// # Errors
    ///
    /// The error of the writer. A prefix of the bytes may then have been written.
    pub fn write_to<W: Write>(&self, writer: &mut W) -> io::Result<()>
        ensures { OnOk result
            (Appends (W.contents writer.old) (W.contents writer.new) (index_bytes self.now)) }
    {
        write_format(writer)?;
        write_count(self.hashes.len(), writer)?;
        write_hashes(&self.hashes, writer)?;
        Ok(())
    }
}
