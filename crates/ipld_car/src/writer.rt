//! Writing a CAR.

ghost use Rattle.std.specs.Prelude.{◌≡◌, ◌≤◌, ◌<◌, ◌+◌, ◌^◌, ◌++◌, length, map, Some, IfOk, IfErr, OnOk, OnErr};
ghost use Rattle.ipld_cid.specs.Bytes.{bytes_of};
ghost use Rattle.ipld_cid.specs.LinkOf.{link_of};
ghost use Rattle.ipld_cid.specs.Varint.{varint_of};
ghost use Rattle.ipld_car.specs.Header.{IsHeader, canonical_header};
ghost use Rattle.ipld_car.specs.WriteErrors.{IsWriteError};
ghost use Rattle.ipld_car.specs.Writing.{WritesHeader, WritesSection, WritesSectionPart};

use crate::header::header_of;
use crate::write_all::write_all;
use dag_cbor::DagCborCodec;
use ipld_cid::{ByteBuffer, Cid};
use ipld_codec::Codec;
use std::alloc::{AllocError, Global};
use std::io::{self, Write};

/// A writer of a CAR of version 1 (CARv1), section by section.
#[derive(Drop)]
pub struct CarWriter<W> {
    writer: W,
    // The bytes before a block.
    front: Vec<u8>,
}

// Appends a varint.
fn push_varint(bytes: &mut Vec<u8>, number: u64) -> Result<(), AllocError>
    ensures { OnOk result (bytes.new.items ≡ bytes.old.items ++ varint_of number) }
{
    let mut varint = ByteBuffer::<10>::new();
    varint.push_varint(number);
    bytes.extend_from_slice(varint.as_slice())
}

// The bytes of the header with these roots.
#[tactic(auto, using(crate::proofs::Written::header_written, crate::proofs::Written::header_exact))]
fn header_bytes(alloc: Global, roots: &[Cid]) -> Result<Vec<u8>, AllocError>
    ensures made { IfOk result (λ bytes. IsHeader bytes.items (map link_of roots.now)) }
    ensures exact { IfOk result (λ bytes.
        canonical_header (map link_of roots.now) ≡ Some bytes.items) }
{
    let tree = header_of(alloc, roots)?;
    let block = match DagCborCodec::encode_to_vec(alloc, &tree) {
        Ok(block) => block,
        Err(_) => return Err(AllocError),
    };
    let mut bytes = Vec::new(alloc);
    push_varint(&mut bytes, block.len() as u64)?;
    bytes.extend_from_slice(&block)?;
    Ok(bytes)
}

// Puts the length and the CID before a block of `len` bytes into `front`, whose old contents they
// replace.
fn put_front(front: &mut Vec<u8>, cid: &Cid, len: usize) -> Result<(), AllocError>
    requires { len < 2 ^ 63 }
    ensures written { OnOk result (front.new.items
        ≡ varint_of (length (bytes_of (link_of cid.now)) + len) ++ bytes_of (link_of cid.now)) }
    ensures fits { length (bytes_of (link_of cid.now)) + len < 2 ^ 64 }
{
    front.clear();
    let total = cid.encoded_len() + len;
    push_varint(front, total as u64)?;
    cid.write_bytes(front)
}

impl<W: Write> CarWriter<W> {
    ghost use Rattle.std.specs.Io.KnownBytes.{Keeps};

    /// Writes the header with these roots to a writer, and returns the [`CarWriter`] of the
    /// sections after it.
    ///
    /// It allocates for the header, and keeps that memory for the length and the CID before each
    /// block.
    ///
    /// # Errors
    ///
    /// The error of the writer, or one of the kind `OutOfMemory` if an allocation fails. A write
    /// that was interrupted is tried again. A writer that takes no byte has failed with
    /// `WriteZero`, and one that is interrupted 2^64 - 1 times with `Other`.
    ///
    /// A prefix of the header may then have been written. The writer is dropped.
    #[tactic(auto, using(crate::proofs::Written::writes_header))]
    pub fn new(alloc: Global, writer: W, roots: &[Cid]) -> io::Result<CarWriter<W>>
    where
        W: Drop,
        ensures written { IfOk result (λ car.
            WritesHeader (W.contents writer) (W.contents car.writer) (map link_of roots.now)) }
        ensures fault { IfErr result IsWriteError }
    {
        let header = header_bytes(alloc, roots)?;
        let mut writer = writer;
        write_all(&mut writer, &header)?;
        Ok(CarWriter {
            writer,
            front: header,
        })
    }

    /// Writes a block with its CID before it, in two writes. It does not check that the CID is the
    /// block's.
    ///
    /// It allocates only if the length and the CID before the block are longer than those before
    /// every earlier block, and longer than the header.
    ///
    /// # Errors
    ///
    /// Those of [`new`](Self::new). A prefix of the section may then have been written, but never
    /// all of it. The output is then not a CAR, unless you remove that prefix.
    #[tactic(auto, using(crate::proofs::WrittenParts::writes_section, crate::proofs::WrittenParts::writes_none, crate::proofs::WrittenParts::writes_front_part, crate::proofs::WrittenParts::writes_block_part))]
    pub fn write_section(&mut self, cid: &Cid, data: &[u8]) -> io::Result<()>
        ensures written { OnOk result
            (WritesSection (W.contents self.old.writer) (W.contents self.new.writer)
            (record { cid = link_of cid.now; bytes = data.now })) }
        ensures part { OnErr result
            (WritesSectionPart (W.contents self.old.writer) (W.contents self.new.writer)
            (record { cid = link_of cid.now; bytes = data.now })) }
        ensures fault { IfErr result IsWriteError }
    {
        put_front(&mut self.front, cid, data.len())?;
        write_all(&mut self.writer, &self.front)?;
        write_all(&mut self.writer, data)
    }

    /// Flushes the writer, and returns it.
    ///
    /// # Errors
    ///
    /// The error of the flush, even if it was interrupted. The writer is dropped.
    pub fn finish(self) -> io::Result<W>
    where
        W: Drop,
        ensures kept { IfOk result (λ writer. Keeps (W.contents self.writer) (W.contents writer)) }
    {
        let mut writer = self.writer;
        writer.flush()?;
        Ok(writer)
    }
}
