//! The destination of a CAR or a block. A file is written under another name in the same folder,
//! and gets its own name when it is complete.

use crate::complaints::report;
use crate::input::BUFFER;
use crate::messages::Outcome;
use crate::new_file::NewFile;
use std::alloc::{AllocError, AllocFailed, Global};
use std::fs::{self, DirEntry, File, Metadata, OpenOptions, Permissions, TryLockError};
use std::io::{self, BufWriter, ErrorKind, Write};
use std::os::unix::fs::{FileTypeExt, MetadataExt};
use std::path::{Path, PathBuf};
use std::{error, fmt, process};

// The number of names that are tried for a temporary file or folder.
pub(crate) const NAMES: u32 = 1000;

// The most bytes of an output's name that are in the name of its temporary file.
const NAME_LEN: usize = 200;

/// The destination of an output.
#[derive(Drop)]
pub enum Output {
    /// Standard output.
    Standard,
    /// A device or a pipe, which keeps nothing that could be lost.
    Stream,
    /// A file that doesn't exist yet.
    New,
    /// An existing file to replace, by its path without links, with its permissions.
    Replaced(PathBuf, Permissions),
}

/// The reason why an output is not written. Its `Display` is a sentence.
#[derive(Debug, Drop)]
pub enum OutputError {
    /// A file of this name exists, and is not to be replaced.
    Exists,
    /// A folder, or something else that can't be replaced, has this name.
    NotAFile,
    /// A file, or something else that isn't a folder, has this name.
    NotAFolder,
    /// There is something in the folder of this name.
    NotEmpty,
    /// The folder has no name of its own.
    Unnamed,
    /// Other users can write to this folder, which the new one is in.
    Shared(PathBuf),
    /// The output is one of the files that are read.
    Input,
    /// No name for a temporary file is free in the output's folder.
    NoName,
    /// An input is shorter than when it was read first.
    Changed,
    /// An allocation failed.
    Memory,
    /// An error of the system.
    System(io::Error),
}

impl fmt::Display for OutputError {
    fn fmt<W: fmt::Write>(&self, f: &mut fmt::Formatter<W>) -> fmt::Result {
        match self {
            OutputError::Exists => f.write_str("the file exists; --force replaces it"),
            OutputError::NotAFile => f.write_str("not a regular file"),
            OutputError::NotAFolder => f.write_str("not a folder; choose another name"),
            OutputError::NotEmpty => f.write_str("the folder is not empty; choose another name"),
            OutputError::Unnamed => f.write_str("give the folder by its name, not as . or .."),
            OutputError::Shared(path) => {
                let path = path.as_path().as_str();
                write!(
                    f,
                    "others can write to {path}; choose another place, or run chmod go-w on it"
                )
            }
            OutputError::Input => f.write_str("the output is also an input; choose another name"),
            OutputError::NoName => f.write_str(
                "cannot create a temporary file next to it: delete what is named .NAME.ipld-NUMBER there",
            ),
            OutputError::Changed => f.write_str("an input changed while it was read; try again"),
            OutputError::Memory => f.write_str("out of memory"),
            OutputError::System(error) => write!(f, "{error}"),
        }
    }
}

impl error::Error for OutputError {}

impl From<io::Error> for OutputError {
    fn from(error: io::Error) -> Self {
        match error.kind() {
            ErrorKind::OutOfMemory => OutputError::Memory,
            _ => OutputError::System(error),
        }
    }
}

impl From<AllocError> for OutputError {
    fn from(_error: AllocError) -> Self {
        OutputError::Memory
    }
}

impl<T: Drop> From<AllocFailed<T>> for OutputError {
    fn from(_error: AllocFailed<T>) -> Self {
        OutputError::Memory
    }
}

impl Output {
    /// Returns the destination of an output of this name. `-` is standard output. An existing file
    /// is replaced only if `force` is true.
    ///
    /// # Errors
    ///
    /// `Exists` if the file exists and `force` is false, `NotAFile` if the name is that of a folder
    /// or the like, and `System` if the name can't be looked up.
    pub fn named(rt: &HostRuntime, name: &str, force: bool) -> Result<Output, OutputError> {
        if name == "-" {
            return Ok(Output::Standard);
        }
        match fs::metadata(rt, name) {
            Ok(metadata) => Output::over(rt, name, &metadata, force),
            // A link that leads to nothing exists all the same.
            Err(error) if error.kind() == ErrorKind::NotFound => {
                match fs::symlink_metadata(rt, name) {
                    Ok(_) => Err(OutputError::System(error)),
                    Err(_) => Ok(Output::New),
                }
            }
            Err(error) => Err(OutputError::System(error)),
        }
    }

    // Returns the destination of an output whose name is in use.
    fn over(
        rt: &HostRuntime,
        name: &str,
        metadata: &Metadata,
        force: bool,
    ) -> Result<Output, OutputError> {
        let file_type = metadata.file_type();
        if file_type.is_char_device() || file_type.is_fifo() {
            Ok(Output::Stream)
        } else if !metadata.is_file() {
            Err(OutputError::NotAFile)
        } else if force {
            let path = fs::canonicalize(rt, name)?;
            Ok(Output::Replaced(path, metadata.permissions()))
        } else {
            Err(OutputError::Exists)
        }
    }
}

// The device of a file and its number there, which identify it.
fn identity(rt: &HostRuntime, name: &str) -> Option<(u64, u64)> {
    match fs::metadata(rt, name) {
        Ok(metadata) if metadata.is_file() => Some((metadata.dev(), metadata.ino())),
        _ => None,
    }
}

// Returns whether the output is one of these inputs: under the same name, or the same file under
// another. `-` is the file that standard input comes from or standard output goes to, if it is one.
fn is_read(rt: &HostRuntime, output: &str, inputs: &[&str]) -> bool {
    if output != "-" && inputs.contains(&output) {
        return true;
    }
    let Some(output) = identity(rt, if output == "-" { "/dev/stdout" } else { output }) else {
        return false;
    };
    for input in inputs {
        let input = if *input == "-" { "/dev/stdin" } else { *input };
        if identity(rt, input) == Some(output) {
            return true;
        }
    }
    false
}

/// Returns the destination of an output of this name, which must not be one of the files that are
/// read.
///
/// # Errors
///
/// `Input` if it is one of them, and otherwise those of [`Output::named`].
pub fn output_of(
    rt: &HostRuntime,
    name: &str,
    force: bool,
    files: &[&str],
) -> Result<Output, OutputError> {
    if is_read(rt, name, files) {
        Err(OutputError::Input)
    } else {
        Output::named(rt, name, force)
    }
}

/// Returns whether standard output is one of these files, as after `>> FILE`. If it is, reports
/// that: the file would grow while it is read.
pub fn writes_to_input(rt: &HostRuntime, files: &[&str]) -> bool {
    let is_input = is_read(rt, "-", files);
    if is_input {
        report_unwritable(rt, "-", &OutputError::Input);
    }
    is_input
}

/// What has a temporary name.
#[derive(Clone, Copy)]
pub enum OutputKind {
    /// A file.
    File,
    /// A folder, with all that is in it.
    Folder,
}

/// The name of a temporary file or folder, `.NAME.ipld-PID`. It shows the output and the process
/// that it is of.
#[derive(Drop)]
pub struct TemporaryName {
    // `.NAME.ipld-`.
    prefix: String,
    process: u32,
}

impl TemporaryName {
    /// Returns the name for outputs of this kind in this folder. First removes those of this kind
    /// there that have this name with the number of another process, and that no process has locked:
    /// a run that was killed left them. If one can't be removed, it stays.
    ///
    /// # Errors
    ///
    /// `Memory` if an allocation fails.
    pub fn new(
        rt: &HostRuntime,
        folder: Path<'_>,
        name: &str,
        kind: OutputKind,
    ) -> Result<TemporaryName, OutputError> {
        let short = shortened(name);
        let prefix = format!(in rt.alloc(); ".{short}.ipld-")?;
        remove_left(rt, folder, &prefix, kind);
        Ok(TemporaryName {
            prefix,
            process: process::id(rt.process()),
        })
    }

    /// Returns the name for the output of this name.
    ///
    /// # Errors
    ///
    /// Those of [`TemporaryName::new`].
    pub fn of(rt: &HostRuntime, name: &str, output: &Output) -> Result<TemporaryName, OutputError> {
        let path = match output {
            Output::Replaced(path, _) => path.as_path(),
            _ => Path::new(name),
        };
        let last = path.file_name().unwrap_or("");
        TemporaryName::new(rt, folder_of(path), last, OutputKind::File)
    }

    // Returns the name, or another if `number` is not 0.
    pub(crate) fn numbered(&self, alloc: Global, number: u32) -> Result<String, AllocError> {
        let (prefix, process) = (&self.prefix, self.process);
        if number == 0 {
            format!(in alloc; "{prefix}{process}")
        } else {
            format!(in alloc; "{prefix}{process}-{number}")
        }
    }
}

// Returns the part of an output's name that is in the name of its temporary file.
fn shortened(name: &str) -> &str {
    for len in (0..=name.len().min(NAME_LEN)).rev() {
        if let Some(short) = name.get(..len) {
            return short;
        }
    }
    name
}

// Returns the folder of a file.
pub(crate) fn folder_of(path: Path<'_>) -> Path<'_> {
    match path.parent() {
        Some(folder) if !folder.as_str().is_empty() => folder,
        _ => Path::new("."),
    }
}

// Removes what is of this kind in a folder, has a name with this prefix and a number, and is locked
// by no process.
fn remove_left(rt: &HostRuntime, folder: Path<'_>, prefix: &str, kind: OutputKind) {
    let Ok(entries) = fs::read_dir(rt, folder) else {
        return;
    };
    for entry in entries {
        if let Ok(entry) = entry {
            let number = entry.file_name().strip_prefix(prefix).unwrap_or("");
            if is_process(number) {
                remove_unlocked(rt, &entry, kind);
            }
        }
    }
}

// Returns whether a text is the number of a process, or two numbers with `-` between them.
fn is_process(text: &str) -> bool {
    match text.split_once("-") {
        Some((process, number)) => is_number(process) && is_number(number),
        None => is_number(text),
    }
}

// Returns whether a text has digits and nothing else.
fn is_number(text: &str) -> bool {
    !text.is_empty() && text.as_bytes().iter().all(|byte| byte.is_ascii_digit())
}

// Removes an entry that is of this kind and that no process has locked. To open a pipe would block,
// so another entry stays.
fn remove_unlocked(rt: &HostRuntime, entry: &DirEntry, kind: OutputKind) {
    let Ok(file_type) = entry.file_type() else {
        return;
    };
    let path = entry.path();
    match kind {
        OutputKind::File => {
            if file_type.is_file() && is_unlocked(OpenOptions::new().write(true).open(rt, path)) {
                let _ = fs::remove_file(rt, path);
            }
        }
        OutputKind::Folder => {
            if file_type.is_dir() && is_unlocked(fs::open(rt, path)) {
                let _ = fs::remove_dir_all(rt, path);
            }
        }
    }
}

// Returns whether a file or a folder was opened, and no process has locked it.
fn is_unlocked(opened: io::Result<File>) -> bool {
    match opened {
        Ok(file) => file.try_lock().is_ok(),
        Err(_) => false,
    }
}

/// The content of an output.
pub trait Content {
    /// Writes the content, and returns the writer.
    fn write_to<W: Write + Drop>(&self, writer: W) -> Result<W, OutputError>;
}

/// When the system syncs an output to the device.
#[derive(Clone, Copy, Debug, PartialEq, Eq)]
pub enum Syncing {
    /// Before the output has its name.
    Each,
    /// With the others of its folder, by [`sync_folder`].
    Together,
}

/// Has the system sync a folder, with the files that were written there, to the device.
///
/// # Errors
///
/// `System` if the folder can't be opened or synced.
pub fn sync_folder(rt: &HostRuntime, folder: &str) -> Result<(), OutputError> {
    fs::open(rt, folder)?.sync_all()?;
    Ok(())
}

/// Writes the content to the output of this name. A file is written under the temporary name, and
/// nothing is left of it if it can't be written whole.
///
/// # Errors
///
/// `Exists` if a file of this name was created meanwhile, `NoName`, `Memory`, and `System`.
pub fn write<C: Content>(
    rt: &HostRuntime,
    name: &str,
    output: Output,
    temporary: &TemporaryName,
    syncing: Syncing,
    content: &C,
) -> Result<(), OutputError> {
    match output {
        Output::Standard => {
            write_buffered(rt, io::writer(rt), content)?;
            Ok(())
        }
        Output::Stream => {
            write_buffered(rt, open_stream(rt, name)?, content)?;
            Ok(())
        }
        Output::New => {
            let file = NewFile::create(rt, temporary, Path::new(name), None)?;
            write_to_file(rt, file, syncing, content)
        }
        Output::Replaced(path, permissions) => {
            let file = NewFile::create(rt, temporary, path.as_path(), Some(permissions))?;
            write_to_file(rt, file, syncing, content)
        }
    }
}

// Writes the content through a buffer, to its end, and returns the writer.
fn write_buffered<C: Content, W: Write + Drop>(
    rt: &HostRuntime,
    writer: W,
    content: &C,
) -> Result<W, OutputError> {
    let writer = BufWriter::with_capacity(rt.alloc(), BUFFER, writer)?;
    let mut writer = content.write_to(writer)?;
    writer.flush()?;
    let (writer, _) = writer.into_parts();
    Ok(writer)
}

// Opens a device or a pipe for writing.
pub(crate) fn open_stream(rt: &HostRuntime, name: &str) -> Result<File, OutputError> {
    let stream = OpenOptions::new().write(true).open(rt, name)?;
    Ok(stream)
}

// Writes a new file, or replaces one. If it fails, nothing is left of the file.
fn write_to_file<C: Content>(
    rt: &HostRuntime,
    file: NewFile,
    syncing: Syncing,
    content: &C,
) -> Result<(), OutputError> {
    match write_buffered(rt, file.file(), content) {
        Ok(_) => file.finish(rt, syncing),
        Err(error) => {
            file.remove(rt);
            Err(error)
        }
    }
}

// Locks a new file or folder, and returns whether it still has its name. On a file system without
// locks, nobody removes it.
pub(crate) fn holds(rt: &HostRuntime, file: &File, path: Path<'_>) -> bool {
    if let Err(TryLockError::WouldBlock) = file.try_lock() {
        return false;
    }
    match (file.metadata(), fs::symlink_metadata(rt, path)) {
        (Ok(file), Ok(named)) => file.dev() == named.dev() && file.ino() == named.ino(),
        _ => false,
    }
}

/// Writes the content to the output of this name, and returns how that ended. Reports the error if
/// it can't be written, and nothing is then left of a file.
pub fn write_output<C: Content>(
    rt: &HostRuntime,
    name: &str,
    output: Output,
    content: &C,
) -> Outcome {
    let written = match TemporaryName::of(rt, name, &output) {
        Ok(temporary) => write(rt, name, output, &temporary, Syncing::Each, content),
        Err(error) => Err(error),
    };
    match written {
        Ok(()) => Outcome::Done,
        Err(error) => report_unwritable(rt, name, &error),
    }
}

/// Reports why an output is not written.
pub fn report_unwritable(rt: &HostRuntime, name: &str, error: &OutputError) -> Outcome {
    let name = if name == "-" { "standard output" } else { name };
    report(rt, name, error, Outcome::Failed)
}
