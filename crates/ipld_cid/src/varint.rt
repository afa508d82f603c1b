//! Unsigned varints: LEB128 in its shortest form, for numbers below 2^64.

ghost use Rattle.std.specs.Prelude.{◌≡◌, ◌≤◌, ◌<◌, ◌+◌, ◌++◌, length, Ok, Err, MatchResult};
ghost use Rattle.ipld_cid.specs.Varint as varint;

use crate::byte_buffer::ByteBuffer;
use crate::error::CidError;

// Returns the error of a byte that follows `place` bytes of a varint, if it is invalid.
#[inline(always)]
fn error_at(place: usize, byte: u8) -> Option<CidError>
    ensures { result ≡ varint.error_at place byte }
{
    if place == 9 && byte > 1 {
        Some(CidError::VarintTooLarge)
    } else if place > 0 && byte == 0 {
        Some(CidError::NotShortest)
    } else {
        None
    }
}

// Reads the varint at the front, and returns its number and the bytes after it.
#[inline(always)]
pub(crate) fn read_varint(bytes: &[u8]) -> Result<(u64, &[u8]), CidError>
    ensures { MatchResult result
        (λ found. varint.read_varint bytes.now ≡ Ok (found.0, found.1.now))
        (λ error. varint.read_varint bytes.now ≡ Err error) }
{
    let mut value = 0;
    for (place, byte) in bytes.iter().enumerate() {
        if let Some(error) = error_at(place, *byte) {
            return Err(error);
        }
        value |= u64::from(*byte & 0x7f) << (7 * place);
        if *byte < 0x80 {
            return Ok((value, &bytes[place + 1..]));
        }
    }
    Err(CidError::End)
}

impl<const CAPACITY: usize> ByteBuffer<CAPACITY> {
    /// Appends the unsigned varint of this number (multiformats unsigned-varint), which has at most
    /// ten bytes.
    #[inline(always)]
    pub fn push_varint(&mut self, number: u64)
        requires { length self.old + 10 ≤ CAPACITY }
        ensures written { self.new ≡ self.old ++ varint.varint_of number }
        ensures short { length self.new ≤ length self.old + 10 }
        ensures one { number < 128 → length self.new ≡ length self.old + 1 }
    {
        let mut rest = number;
        while rest >= 0x80 {
            self.push((rest & 0x7f) as u8 | 0x80);
            rest >>= 7;
        }
        self.push(rest as u8);
    }
}
