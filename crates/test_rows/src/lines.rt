//! Lines of the program `ipld_links`, cut and changed.

use ipld_links_run::{Status, run};
use std::alloc::{AllocError, Global};

/// The bytes that are put into a line: those of valid lines, and some that no valid line has.
const BYTES: [u8; 28] = [
    b' ', b'-', b'+', b'0', b'1', b'7', b'8', b'9', b'a', b'b', b'c', b'd', b'e', b'f', b'g', b's',
    b'A', b'F', b'N', b'_', b'.', b'\t', b'\r', 0, 0x7f, 0x80, 0xc3, 0xff,
];

// Returns a one if the word understands the line, a zero if it doesn't, and `e` if the run failed.
fn flag(alloc: Global, word: &str, line: &[u8]) -> Result<char, AllocError> {
    let mut input = line.to_vec(alloc)?;
    input.push(b'\n')?;
    let mut reader = input.as_slice();
    let mut written = Vec::new(alloc);
    match run(alloc, word, &mut reader, &mut written) {
        Ok(Status::NotUnderstood) => Ok('0'),
        Ok(_) => Ok('1'),
        Err(_) => Ok('e'),
    }
}

/// Returns whether a word understands the part of a line before each place, and the part after it:
/// `WORD|LINE`.
pub fn cut(alloc: Global, row: &str) -> Result<String, AllocError> {
    let (word, line) = row.split_once('|').unwrap_or((row, ""));
    let mut flags = String::new(alloc);
    for place in 0..=line.len() {
        let (front, rest) = line.as_bytes().split_at(place);
        flags.push(flag(alloc, word, front)?)?;
        flags.push(flag(alloc, word, rest)?)?;
    }
    Ok(flags)
}

/// Returns whether a word understands a line with one of 28 bytes inserted at each place or at its
/// end, or instead of each byte: `WORD|LINE`.
pub fn changed(alloc: Global, row: &str) -> Result<String, AllocError> {
    let (word, line) = row.split_once('|').unwrap_or((row, ""));
    let mut flags = String::new(alloc);
    for place in 0..=line.len() {
        let (front, rest) = line.as_bytes().split_at(place);
        push_flags(alloc, word, front, rest, &mut flags)?;
        push_flags(alloc, word, front, rest.get(1..).unwrap_or(&[]), &mut flags)?;
    }
    Ok(flags)
}

// Pushes the flags of the lines with each byte between the two parts.
fn push_flags(
    alloc: Global,
    word: &str,
    front: &[u8],
    rest: &[u8],
    flags: &mut String,
) -> Result<(), AllocError> {
    for byte in &BYTES {
        let mut line = front.to_vec(alloc)?;
        line.push(*byte)?;
        line.extend_from_slice(rest)?;
        flags.push(flag(alloc, word, line.as_slice())?)?;
    }
    Ok(())
}
