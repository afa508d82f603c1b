//! Files, and standard input, read whole.

use std::fs;
use std::io::{self, Read};

/// Reads the bytes of a file, or of standard input if the name is `-`.
pub fn read_file(rt: &HostRuntime, name: &str) -> io::Result<Vec<u8>> {
    if name != "-" {
        return fs::read(rt, name);
    }
    let mut bytes = Vec::new(rt.alloc());
    rt.reader().read_to_end(&mut bytes)?;
    Ok(bytes)
}

/// Returns whether there is a regular file of this name, not a folder or a device.
pub fn is_file(rt: &HostRuntime, name: &str) -> bool {
    match fs::metadata(rt, name) {
        Ok(metadata) => metadata.is_file(),
        Err(_) => false,
    }
}
