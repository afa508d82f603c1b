//! The writing of values that are neither lists nor maps.

ghost use Rattle.std.specs.Prelude.{◌≡◌, ℕ, ◌<◌, List, codes, from_bits, true, Some, None, MatchOption, MatchResult};
ghost use Rattle.std.specs.Char.{digit_char};
ghost use Rattle.std.specs.Float.{binary64};
ghost use Rattle.std.specs.Float.Ieee.{nan_bits};
ghost use Rattle.std.specs.Io.KnownBytes.{Appends};
ghost use Rattle.ipld_cid.specs.Cid.{Link};
ghost use Rattle.ipld_cid.specs.Bytes.{IsCid};
ghost use Rattle.ipld_block.specs.Texts.{usual_text};
ghost use Rattle.ipld_show.specs.Scalars.{hex_pair, hex_text, by_code, character, quoted, IsFloatText, IsOutputError};

use crate::error::ShowError;
use ipld_block::write_cid;
use ipld_cid::Cid;
use ryu::Buffer;
use std::alloc::Global;
use std::io::Write;

// The bit of the sign, and the bits of the exponent of infinities and NaN.
const SIGN: u64 = 1 << 63;

const EXPONENT: u64 = 0x7ff << 52;

// Returns the float of these bits, unless they are NaN.
pub(crate) fn float_of(bits: u64) -> Option<f64>
    ensures { MatchOption result (nan_bits binary64 bits ≡ true) (λ float.
        float ≡ from_bits binary64 bits) }
{
    if bits % SIGN > EXPONENT {
        None
    } else {
        Some(f64::from_bits(bits))
    }
}

// Writes a finite float as a number with a point or an exponent, which an integer doesn't have.
pub(crate) fn write_float<W: Write>(writer: &mut W, bits: u64) -> Result<(), ShowError>
    ensures { MatchResult result (λ _. (t : List ℕ) × IsFloatText bits t
        × Appends (W.contents writer.old) (W.contents writer.new) t) IsOutputError }
{
    let Some(float) = float_of(bits) else {
        writer.write_all(b"null")?;
        return Ok(());
    };
    if !float.is_finite() {
        writer.write_all(b"null")?;
        return Ok(());
    }
    let mut buffer = Buffer::new();
    writer.write_all(buffer.format_finite(float).as_bytes())?;
    Ok(())
}

// Returns a hexadecimal digit in lower case.
fn hex_digit(digit: u8) -> u8
    requires { digit < 16 }
    ensures { result ≡ digit_char digit }
{
    if digit < 10 {
        b'0' + digit
    } else {
        b'a' - 10 + digit
    }
}

// Writes two hexadecimal digits.
fn write_hex_pair<W: Write>(writer: &mut W, byte: u8) -> Result<(), ShowError>
    ensures { MatchResult result (λ _. Appends (W.contents writer.old) (W.contents writer.new)
        (hex_pair byte)) IsOutputError }
{
    let pair = [hex_digit(byte / 16), hex_digit(byte % 16)];
    writer.write_all(&pair)?;
    Ok(())
}

// Writes bytes as hexadecimal digits in lower case.
pub(crate) fn write_hex<W: Write>(writer: &mut W, bytes: &[u8]) -> Result<(), ShowError>
    ensures { MatchResult result (λ _. Appends (W.contents writer.old) (W.contents writer.new)
        (hex_text bytes.now)) IsOutputError }
{
    for byte in bytes {
        write_hex_pair(writer, *byte)?;
    }
    Ok(())
}

// Writes the escape of a character by its code.
fn write_escape<W: Write>(writer: &mut W, code: u8) -> Result<(), ShowError>
    ensures { MatchResult result (λ _. Appends (W.contents writer.old) (W.contents writer.new)
        (by_code code)) IsOutputError }
{
    writer.write_all(b"\\u00")?;
    write_hex_pair(writer, code)?;
    Ok(())
}

// Writes a character of a string. It is escaped if JSON does that or if it is a control character.
#[tactic(auto, unfolding(crate::specs::Scalars::character))]
fn write_char<W: Write>(writer: &mut W, c: char) -> Result<(), ShowError>
    ensures { MatchResult result (λ _. Appends (W.contents writer.old) (W.contents writer.new)
        (character c)) IsOutputError }
{
    match c {
        '"' => writer.write_all(b"\\\"")?,
        '\\' => writer.write_all(b"\\\\")?,
        '\n' => writer.write_all(b"\\n")?,
        '\r' => writer.write_all(b"\\r")?,
        '\t' => writer.write_all(b"\\t")?,
        '\u{8}' => writer.write_all(b"\\b")?,
        '\u{c}' => writer.write_all(b"\\f")?,
        '\0'..='\u{1f}' | '\u{7f}'..='\u{9f}' => write_escape(writer, c as u8)?,
        _ => write!(writer, "{c}")?,
    }
    Ok(())
}

// Writes a string between quotation marks, as JSON does. All control characters are escaped, since
// a terminal obeys them.
pub(crate) fn write_string<W: Write>(writer: &mut W, text: &str) -> Result<(), ShowError>
    ensures { MatchResult result (λ _. Appends (W.contents writer.old) (W.contents writer.new)
        (quoted text.now)) IsOutputError }
{
    writer.write_all(b"\"")?;
    for c in text.chars() {
        write_char(writer, c)?;
    }
    writer.write_all(b"\"")?;
    Ok(())
}

// Writes the text of the CID with these bytes.
pub(crate) fn write_cid_bytes<W: Write>(
    alloc: Global,
    writer: &mut W,
    bytes: &[u8],
) -> Result<(), ShowError>
    ensures { (cid : Link) → IsCid 64 bytes.now cid
        → MatchResult result (λ _. Appends (W.contents writer.old) (W.contents writer.new)
        (usual_text cid)) IsOutputError }
{
    match Cid::try_from(bytes) {
        Ok(cid) => {
            write_cid(alloc, writer, &cid)?;
            Ok(())
        }
        Err(error) => Err(ShowError::Cid(error)),
    }
}
