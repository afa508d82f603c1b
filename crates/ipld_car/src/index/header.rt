//! The header of a CAR of version 2.

ghost use Rattle.std.specs.Prelude.{◌≡◌, ◌+◌, ◌≤◌, length, slice_range, OnOk};
ghost use Rattle.std.specs.Int.{w64, from_le_bytes};
ghost use Rattle.std.specs.Io.KnownBytes.{Appends};
ghost use Rattle.ipld_car.specs.CarHeader.{header_bytes, characteristics, places, pragma_bytes};

use crate::index::numbers::write_u64;
use crate::version2::number_at;
use std::io::{self, Write};

/// The number of bytes up to the end of the header of version 2: the pragma has 11 bytes, and the
/// header 40.
pub const HEADER_END: usize = 51;

// The pragma: the block `{"version": 2}` in DAG-CBOR, after its length.
const PRAGMA: [u8; 11] = [
    0x0a, 0xa1, 0x67, 0x76, 0x65, 0x72, 0x73, 0x69, 0x6f, 0x6e, 0x02,
];

/// The header of a CAR of version 2 (CARv2, "Header").
#[derive(Clone, Copy, Debug, PartialEq, Eq)]
pub struct CarHeader {
    /// Whether every section of the payload has its entry in the index, including those of CIDs
    /// with the identity hash.
    pub is_fully_indexed: bool,
    /// The offset in the file at which the payload begins.
    pub payload: u64,
    /// The number of bytes that the payload has.
    pub size: u64,
    /// The offset in the file at which the index begins, or 0 if there is none.
    pub index: u64,
}

impl CarHeader {
    ghost use Rattle.std.specs.Prelude.{◌≢◌, take, MatchOption};
    ghost use Rattle.ipld_car.specs.CarHeader.{HasHeader};

    /// Reads the header from the first bytes of a file. Returns `None` if they do not begin with
    /// the pragma of version 2. It does not check that there is a payload at the offset in the
    /// header.
    #[tactic(auto, unfolding(crate::specs::CarHeader::pragma_bytes))]
    pub fn from_bytes(bytes: &[u8; HEADER_END]) -> Option<CarHeader>
        ensures { MatchOption result (take 11 bytes.now ≢ pragma_bytes) (HasHeader bytes.now) }
    {
        let bytes = bytes.as_slice();
        if !bytes.starts_with(&PRAGMA) {
            return None;
        }
        Some(CarHeader {
            is_fully_indexed: bytes[11] >= 0x80,
            payload: number_at(bytes, 27),
            size: number_at(bytes, 35),
            index: number_at(bytes, 43),
        })
    }
}

#[tactic(auto, unfolding(crate::specs::CarHeader::pragma_bytes))]
fn write_pragma<W: Write>(writer: &mut W) -> io::Result<()>
    ensures { OnOk result (Appends (W.contents writer.old) (W.contents writer.new) pragma_bytes) }
{
    writer.write_all(&PRAGMA)?;
    Ok(())
}

#[tactic(auto, unfolding(crate::specs::CarHeader::characteristics))]
fn write_characteristics<W: Write>(is_fully_indexed: bool, writer: &mut W) -> io::Result<()>
    ensures { OnOk result
        (Appends (W.contents writer.old) (W.contents writer.new)
        (characteristics is_fully_indexed)) }
{
    let mut bytes = [0; 16];
    if is_fully_indexed {
        bytes[0] = 0x80;
    }
    writer.write_all(&bytes)?;
    Ok(())
}

// Writes the positions of the payload and the index.
fn write_places<W: Write>(header: &CarHeader, writer: &mut W) -> io::Result<()>
    ensures { OnOk result
        (Appends (W.contents writer.old) (W.contents writer.new) (places header.now)) }
{
    write_u64(header.payload, writer)?;
    write_u64(header.size, writer)?;
    write_u64(header.index, writer)?;
    Ok(())
}

/// Writes the pragma and the header, which are the first 51 bytes of a CAR of version 2.
///
/// # Errors
///
/// The error of the writer. A prefix of the bytes may then have been written.
pub fn write_header<W: Write>(header: &CarHeader, writer: &mut W) -> io::Result<()>
    ensures { OnOk result
        (Appends (W.contents writer.old) (W.contents writer.new) (header_bytes header.now)) }
{
    write_pragma(writer)?;
    write_characteristics(header.is_fully_indexed, writer)?;
    write_places(header, writer)?;
    Ok(())
}
