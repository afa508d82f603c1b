//! Base32 in lower case and without padding.

ghost use Rattle.std.specs.Prelude.{◌≡◌, ◌≤◌, ◌<◌, ◌+◌, ◌*◌, ◌/◌, ◌%◌, ◌++◌, length, take, IsAscii};
ghost use Rattle.std.specs.Fmt.{WritesOnOk};
ghost use Rattle.ipld_cid.specs.Base32 as encoded;

use crate::byte_buffer::ByteBuffer;
use std::{fmt, str};

const ALPHABET: &[u8; 32] = b"abcdefghijklmnopqrstuvwxyz234567";

/// The number from 0 to 31 for every character of base32 (RFC 4648, section 6) in lower case, and
/// 255 for every other character.
pub static BASE32_VALUES: [u8; 256] = [
    255, 255, 255, 255, 255, 255, 255, 255, 255, 255, 255, 255, 255, 255, 255, 255, 255, 255, 255,
    255, 255, 255, 255, 255, 255, 255, 255, 255, 255, 255, 255, 255, 255, 255, 255, 255, 255, 255,
    255, 255, 255, 255, 255, 255, 255, 255, 255, 255, 255, 255, 26, 27, 28, 29, 30, 31, 255, 255,
    255, 255, 255, 255, 255, 255, 255, 255, 255, 255, 255, 255, 255, 255, 255, 255, 255, 255, 255,
    255, 255, 255, 255, 255, 255, 255, 255, 255, 255, 255, 255, 255, 255, 255, 255, 255, 255, 255,
    255, 0, 1, 2, 3, 4, 5, 6, 7, 8, 9, 10, 11, 12, 13, 14, 15, 16, 17, 18, 19, 20, 21, 22, 23, 24,
    25, 255, 255, 255, 255, 255, 255, 255, 255, 255, 255, 255, 255, 255, 255, 255, 255, 255, 255,
    255, 255, 255, 255, 255, 255, 255, 255, 255, 255, 255, 255, 255, 255, 255, 255, 255, 255, 255,
    255, 255, 255, 255, 255, 255, 255, 255, 255, 255, 255, 255, 255, 255, 255, 255, 255, 255, 255,
    255, 255, 255, 255, 255, 255, 255, 255, 255, 255, 255, 255, 255, 255, 255, 255, 255, 255, 255,
    255, 255, 255, 255, 255, 255, 255, 255, 255, 255, 255, 255, 255, 255, 255, 255, 255, 255, 255,
    255, 255, 255, 255, 255, 255, 255, 255, 255, 255, 255, 255, 255, 255, 255, 255, 255, 255, 255,
    255, 255, 255, 255, 255, 255, 255, 255, 255, 255, 255, 255, 255, 255, 255, 255, 255, 255, 255,
    255,
];

// Returns the letter of the low five bits.
#[inline(always)]
fn letter(bits: u64) -> u8
    ensures { result ≡ encoded.letter (bits % 32) }
{
    ALPHABET[(bits & 31) as usize]
}

// Returns the letters of five bytes.
#[inline(always)]
fn letters_of(bytes: &[u8; 5]) -> [u8; 8]
    ensures { result ≡ encoded.base32 bytes.now }
{
    let bits = u64::from_be_bytes([0, 0, 0, bytes[0], bytes[1], bytes[2], bytes[3], bytes[4]]);
    [
        letter(bits >> 35),
        letter(bits >> 30),
        letter(bits >> 25),
        letter(bits >> 20),
        letter(bits >> 15),
        letter(bits >> 10),
        letter(bits >> 5),
        letter(bits),
    ]
}

// Returns the letters of the last bytes, and their number.
#[inline(always)]
fn last_letters(bytes: &[u8]) -> ([u8; 8], usize)
    requires { length bytes.now < 5 }
    ensures capacity { result.1 ≤ 8 }
    ensures count { result.1 ≡ (8 * length bytes.now + 4) / 5 }
    ensures letters { take result.1 result.0 ≡ encoded.base32 bytes.now }
{
    let mut block = [0; 5];
    block[..bytes.len()].copy_from_slice(bytes);
    (letters_of(&block), (8 * bytes.len()).div_ceil(5))
}

// Returns the letters as text.
#[inline(always)]
pub(crate) fn as_text(letters: &[u8]) -> &str
    requires { IsAscii letters.now }
    ensures { result.now ≡ letters.now }
{
    let Ok(text) = str::from_utf8(letters) else {
        unreachable!()
    };
    text
}

// Writes the letters of at most 60 bytes at once.
#[inline(always)]
fn write_piece<W: fmt::Write>(f: &mut fmt::Formatter<W>, bytes: &[u8]) -> fmt::Result
    requires { length bytes.now ≤ 60 }
    ensures { WritesOnOk W.write_str_gives f.old result (encoded.base32 bytes.now) f.new }
{
    let mut letters = ByteBuffer::<96>::new();
    letters.push_base32(bytes);
    f.write_str(as_text(letters.as_slice()))
}

// Writes the letters of the bytes.
pub(crate) fn write_base32<W: fmt::Write>(f: &mut fmt::Formatter<W>, bytes: &[u8]) -> fmt::Result
    ensures { WritesOnOk W.write_str_gives f.old result (encoded.base32 bytes.now) f.new }
{
    let (pieces, rest) = bytes.as_chunks::<60>();
    for piece in pieces {
        write_piece(f, piece)?;
    }
    write_piece(f, rest)
}

impl<const CAPACITY: usize> ByteBuffer<CAPACITY> {
    /// Appends the base32 of these bytes (RFC 4648, section 6), in lower case and without padding.
    /// Five bytes become eight letters.
    #[inline(always)]
    pub fn push_base32(&mut self, bytes: &[u8])
        requires { length self.old + (8 * length bytes.now + 4) / 5 ≤ CAPACITY }
        ensures written { self.new ≡ self.old ++ encoded.base32 bytes.now }
        ensures len { length self.new ≡ length self.old + (8 * length bytes.now + 4) / 5 }
    {
        let (blocks, rest) = bytes.as_chunks::<5>();
        for block in blocks {
            self.extend(&letters_of(block));
        }
        let (letters, count) = last_letters(rest);
        self.extend(&letters[..count]);
    }
}
