//! Writing a file, over any store of blocks.

ghost use Rattle.std.specs.Prelude.{◌≡◌, IfErr, OnOk};
ghost use Rattle.ipld_cid.specs.LinkOf.{link_of};
ghost use Rattle.unixfs_files.specs.Storing.{WritesFile, StopsAt};
ghost use Rattle.unixfs_files.specs.Walking.{range_of};

use crate::error::PartError;
use crate::state::{FileLimits, FileRange, FileWalk};
use ipld_cid::Cid;
use std::alloc::Global;
use std::io::{self, Write};
use unixfs::laws::{range_law, walk_law};

/// A store of blocks by their CIDs. Nobody has to trust it: what it returns is verified.
pub trait BlockStore {
    /// The reason why the store fails.
    type Fault: Drop;

    /// Returns the bytes that the store has for a CID, or `None` if it has none.
    fn block(&mut self, cid: &Cid) -> Result<Option<&[u8]>, Self::Fault>;
}

/// The reason why a file isn't written to its end.
#[derive(Drop)]
pub enum FileErrorKind<E> {
    /// The store doesn't have the block.
    Missing,
    /// The block isn't the part of the file that is wanted.
    Part(PartError),
    /// The store failed.
    Store(E),
    /// The writer failed.
    Write(io::Error),
}

/// The reason why a file isn't written to its end, and the CID of the block where it stopped.
#[derive(Drop)]
pub struct FileError<E> {
    /// The CID of the block.
    pub cid: Cid,
    /// The reason.
    pub kind: FileErrorKind<E>,
}

impl<E> FileError<E> {
    // Returns the error of this block.
    fn new(cid: Cid, kind: FileErrorKind<E>) -> FileError<E>
        ensures { result ≡ record { cid = cid; kind = kind } }
    {
        FileError { cid, kind }
    }
}

/// Writes a range of the file of a CID, whose blocks the store has.
///
/// Blocks before the range or after it are neither read nor verified.
///
/// Each block is verified, and its bytes are written before the next is asked for. The writer is
/// not flushed. It allocates for each block's children.
///
/// # Errors
///
/// The CID of the first block that isn't taken, and the reason. What was written is a beginning of
/// the range, up to that block. If the writer failed, it may have taken a part of the block's bytes.
pub fn write_file<S: BlockStore, W: Write>(
    alloc: Global,
    root: &Cid,
    range: FileRange,
    limits: &FileLimits,
    store: &mut S,
    writer: &mut W,
) -> Result<(), FileError<S::Fault>>
    ensures done { OnOk result (WritesFile (link_of root.now) (range_of range) limits.now.bytes
        (W.contents writer.old) (W.contents writer.new)) }
    ensures failed { IfErr result (StopsAt (link_of root.now) (range_of range) limits.now.bytes
        (W.contents writer.old) (W.contents writer.new)) }
{
    walk_law();
    range_law();
    let mut walk = FileWalk::new(alloc, root, range, limits);
    while let Some(cid) = walk.wanted() {
        let block = match store.block(&cid) {
            Ok(Some(block)) => block,
            Ok(None) => return Err(FileError::new(cid, FileErrorKind::Missing)),
            Err(fault) => return Err(FileError::new(cid, FileErrorKind::Store(fault))),
        };
        let bytes = match walk.take(alloc, block) {
            Ok(bytes) => bytes,
            Err(error) => return Err(FileError::new(cid, FileErrorKind::Part(error))),
        };
        match writer.write_all(bytes) {
            Ok(()) => {}
            Err(error) => return Err(FileError::new(cid, FileErrorKind::Write(error))),
        }
    }
    Ok(())
}
