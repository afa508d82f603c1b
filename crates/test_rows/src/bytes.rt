//! Bytes written as hexadecimal digits.

use std::alloc::{AllocError, Global};

/// Returns the bytes of groups of hexadecimal digits between blanks. `*9` after a group repeats it
/// 9 times. Returns `None` for anything else.
pub fn bytes(alloc: Global, groups: &str) -> Result<Option<Vec<u8>>, AllocError> {
    let mut bytes = Vec::new(alloc);
    for group in groups.split_ascii_whitespace() {
        let (digits, times) = match group.split_once('*') {
            Some((digits, times)) => (digits, times.parse().unwrap_or(0)),
            None => (group, 1u32),
        };
        let Ok(part) = hex::decode(alloc, digits) else {
            return Ok(None);
        };
        for _ in 0..times {
            bytes.extend_from_slice(part.as_slice())?;
        }
    }
    Ok(Some(bytes))
}
