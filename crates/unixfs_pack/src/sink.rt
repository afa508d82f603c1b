//! Where blocks go.

use ipld_cid::Cid;
use std::io;

/// Room for a block whose bytes are known only after the blocks that follow it.
#[derive(Clone, Copy, Debug, PartialEq, Eq)]
pub struct Room {
    /// The offset of the block's section.
    pub offset: u64,
    /// The number of bytes of the section.
    pub len: u64,
}

/// Takes blocks in the order of a walk: a node before the blocks below it.
pub trait BlockSink {
    /// Leaves room for a block of `block_len` bytes whose CID has `cid_len` bytes.
    ///
    /// # Errors
    ///
    /// The error of the writer, or one of the kind `OutOfMemory` if an allocation fails.
    fn leave_room(&mut self, cid_len: u64, block_len: u64) -> io::Result<Room>;

    /// Fills room that was left. If the CAR has the block already, and nothing follows the room,
    /// gives the room back.
    ///
    /// # Errors
    ///
    /// Those of `leave_room`, and one of the kind `InvalidData` if the block has another length.
    fn fill_room(&mut self, room: &Room, cid: &Cid, block: &[u8]) -> io::Result<()>;

    /// Takes a block behind all others, unless it is there already.
    ///
    /// # Errors
    ///
    /// Those of `leave_room`.
    fn put(&mut self, cid: &Cid, block: &[u8]) -> io::Result<()>;
}

/// Takes blocks, and keeps nothing. It is for a root without a CAR.
#[derive(Clone, Copy, Debug, Default)]
pub struct Discard;

impl BlockSink for Discard {
    fn leave_room(&mut self, _cid_len: u64, _block_len: u64) -> io::Result<Room> {
        Ok(Room { offset: 0, len: 0 })
    }

    fn fill_room(&mut self, _room: &Room, _cid: &Cid, _block: &[u8]) -> io::Result<()> {
        Ok(())
    }

    fn put(&mut self, _cid: &Cid, _block: &[u8]) -> io::Result<()> {
        Ok(())
    }
}
