//! An output that is written at several places.

use crate::new_file::NewFile;
use crate::output::{Output, OutputError, Syncing, TemporaryName, open_stream};
use crate::spool::nameless_file;
use std::fs::File;
use std::io::{self, Seek, SeekFrom, Write};
use std::path::Path;

/// An output that is written at several places. What is written to standard output, a device or a
/// pipe is put together in a file in the system's folder for temporary files.
#[derive(Drop)]
pub enum PlacedOutput {
    /// A file.
    File(NewFile),
    /// A file without a name, whose content goes to standard output.
    Standard(File),
    /// A file without a name, whose content goes to a device or a pipe.
    Stream(File),
}

impl PlacedOutput {
    /// Creates the file for an output of this name.
    ///
    /// # Errors
    ///
    /// Those of [`TemporaryName::of`] and [`NewFile::create`], and `System` if there is no temporary
    /// file.
    pub fn create(
        rt: &HostRuntime,
        name: &str,
        output: Output,
    ) -> Result<PlacedOutput, OutputError> {
        let temporary = match &output {
            Output::Standard => return Ok(PlacedOutput::Standard(nameless_file(rt)?)),
            Output::Stream => return Ok(PlacedOutput::Stream(nameless_file(rt)?)),
            Output::New | Output::Replaced(_, _) => TemporaryName::of(rt, name, &output)?,
        };
        let file = match output {
            Output::Replaced(path, permissions) => {
                NewFile::create(rt, &temporary, path.as_path(), Some(permissions))?
            }
            _ => NewFile::create(rt, &temporary, Path::new(name), None)?,
        };
        Ok(PlacedOutput::File(file))
    }

    /// Returns the file.
    pub fn file(&self) -> &File {
        match self {
            PlacedOutput::File(file) => file.file(),
            PlacedOutput::Standard(file) | PlacedOutput::Stream(file) => file,
        }
    }

    /// Has the file have this length, and gives it its name or copies it to where it goes.
    ///
    /// # Errors
    ///
    /// Those of [`NewFile::finish`], and `System` if the copy fails. Nothing is left of a file.
    pub fn finish(self, rt: &HostRuntime, name: &str, len: u64) -> Result<(), OutputError> {
        if let Err(error) = self.file().set_len(len) {
            self.remove(rt);
            return Err(OutputError::from(error));
        }
        match self {
            PlacedOutput::File(file) => file.finish(rt, Syncing::Each),
            PlacedOutput::Standard(file) => copy_to(file, io::writer(rt)),
            PlacedOutput::Stream(file) => copy_to(file, open_stream(rt, name)?),
        }
    }

    /// Removes the file. If that fails, the next run removes it.
    pub fn remove(self, rt: &HostRuntime) {
        match self {
            PlacedOutput::File(file) => file.remove(rt),
            PlacedOutput::Standard(_) | PlacedOutput::Stream(_) => {}
        }
    }
}

// Copies a file from its start.
fn copy_to<W: Write + Drop>(file: File, writer: W) -> Result<(), OutputError> {
    let (mut file, mut writer) = (file, writer);
    file.seek(SeekFrom::Start(0))?;
    io::copy(&mut file, &mut writer)?;
    writer.flush()?;
    Ok(())
}
