//! Copies of inputs that can be read only once.

use crate::input::Input;
use std::fs::{self, File, OpenOptions};
use std::io::{self, Error, ErrorKind};
use std::os::unix::fs::OpenOptionsExt;
use std::{env, process};

// The number of names that are tried for a copy.
const NAMES: u32 = 1000;

/// Copies standard input or a pipe to a file in the system's folder for temporary files, and
/// returns that file. It has no name, so nothing is left of it if the program ends.
///
/// # Errors
///
/// The system's error if the input can't be read or the file can't be written.
pub fn spooled(rt: &HostRuntime, file: &str) -> io::Result<File> {
    let mut input = Input::open(rt, file)?;
    let mut copy = nameless_file(rt)?;
    io::copy(&mut input, &mut copy)?;
    Ok(copy)
}

// Creates a file, and removes its name.
pub(crate) fn nameless_file(rt: &HostRuntime) -> io::Result<File> {
    let folder = env::temp_dir(rt)?;
    let process = process::id(rt.process());
    let mut options = OpenOptions::new();
    options.read(true).write(true).create_new(true).mode(0o600);
    for number in 0..NAMES {
        let name = format!(in rt.alloc(); "ipld-{process}-{number}")?;
        let path = folder.as_path().join(rt.alloc(), name.as_str())?;
        match options.open(rt, &path) {
            Ok(file) => {
                fs::remove_file(rt, &path)?;
                return Ok(file);
            }
            Err(error) if error.kind() == ErrorKind::AlreadyExists => {}
            Err(error) => return Err(error),
        }
    }
    Err(Error::from(ErrorKind::AlreadyExists))
}
