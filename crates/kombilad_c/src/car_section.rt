//! The bytes of a CAR before a block, written.

ghost use Rattle.std.specs.Prelude.{◌≡◌, MatchResult};
ghost use Rattle.ipld_cid.specs.Bytes.{read_cid};
ghost use Rattle.ipld_cid.specs.LinkOf.{link_of};
ghost use Rattle.kombilad_c.specs.CarWriting.{WritesFront};
ghost use Rattle.kombilad_c.specs.Fill.{IsUntouched};
ghost use Rattle.kombilad_c.specs.Status as numbers;

use crate::cid_record::CidBytes;
use crate::fill::fill;
use crate::status::{CAR_LENGTH, cid_status};
use ipld_cid::{ByteBuffer, Cid};

// Writes the length and the CID before a block of this length to the beginning of the buffer.
fn write_front(cid: &Cid, len: u64, front: &mut [u8], needed: &mut usize) -> u32
    ensures { WritesFront (link_of cid.now) len result
        (record { before = front.old; after = front.new })
        (record { before = needed.old; after = needed.new }) }
{
    let Some(total) = len.checked_add(cid.encoded_len() as u64) else {
        return CAR_LENGTH;
    };
    let mut content = ByteBuffer::<97>::new();
    content.push_varint(total);
    content.extend(CidBytes::of(cid).as_slice());
    fill(content.as_slice(), front, needed)
}

/// Writes what a section of a CAR has before a block of this length: the length of the section and
/// the CID.
#[unsafe(no_mangle)]
pub extern "C" fn kombilad_car_section(
    cid: &[u8],
    len: u64,
    front: &mut [u8],
    needed: &mut usize,
) -> u32
    ensures { MatchResult (read_cid 64 cid.now)
        (λ link. WritesFront link len result
        (record { before = front.old; after = front.new })
        (record { before = needed.old; after = needed.new }))
        (λ error. (result ≡ numbers.cid_status error)
        × IsUntouched front.old front.new needed.old needed.new) }
{
    match Cid::try_from(cid) {
        Ok(cid) => write_front(&cid, len, front, needed),
        Err(error) => cid_status(error),
    }
}
