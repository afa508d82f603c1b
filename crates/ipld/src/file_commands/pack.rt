//! The command that packs files and folders into a CAR.

use crate::arguments::size_of;
use clap::ArgMatches;
use ipld_cid::{Cid, Version};
use ipld_cid_text::usual_text;
use ipld_cli::{
    Outcome, Output, OutputError, PlacedOutput, output_of, reads_twice, report,
    report_out_of_memory, report_unreadable, report_unwritable, report_wrong_arguments, spooled,
};
use std::alloc::{AllocError, Global};
use std::fs::{self, File};
use std::io::{self, Write};
use std::os::unix::fs::{FileTypeExt, MetadataExt};
use std::path::Path;
use unixfs_build::Layout;
use unixfs_pack::{
    CarInPlace, Discard, PackError, PackErrorKind, PackOptions, Pattern, Symlinks, Top, Tree,
};

// The most bytes of a chunk, and the most links of a node. Other programs take blocks of up to
// 1 MiB.
const MAX_CHUNK: u64 = 1 << 20;

const MAX_WIDTH: u64 = 1 << 13;

// Returns the number of bytes of a chunk that is asked for, if there is one.
fn chunk_of(rt: &HostRuntime, matches: &ArgMatches<'_>) -> Result<Option<u64>, Outcome> {
    match size_of(rt, matches, "chunk")? {
        Some(size) if size > MAX_CHUNK => {
            let why = "--chunk <SIZE> is at most 1M, since other programs take no longer blocks";
            Err(report_wrong_arguments(rt, &why))
        }
        size => Ok(size),
    }
}

// Returns the number of links of a node that is asked for, if there is one.
fn width_of(rt: &HostRuntime, matches: &ArgMatches<'_>) -> Result<Option<u64>, Outcome> {
    let Some(text) = matches.get_str("width") else {
        return Ok(None);
    };
    match text.parse::<u64>() {
        Ok(width) if width >= 2 && width <= MAX_WIDTH => Ok(Some(width)),
        _ => {
            let why = "--width <N> is a number from 2 to 8192";
            Err(report_wrong_arguments(rt, &why))
        }
    }
}

/// Returns the patterns of entries that are left out.
pub fn patterns_of<'a>(
    alloc: Global,
    matches: &'a ArgMatches<'_>,
) -> Result<Vec<Pattern<'a>>, AllocError> {
    let mut patterns = Vec::new(alloc);
    if let Some(texts) = matches.get_strs("ignore") {
        for text in texts {
            patterns.push(Pattern::new(text))?;
        }
    }
    Ok(patterns)
}

/// Returns how files and folders are packed, without entries that these patterns match. The default
/// is that of `ipfs add`, also with `--cid-version 1`, which includes `--raw-leaves` unless
/// attributes are preserved. Reports wrong arguments.
pub fn pack_options_of<'a>(
    rt: &HostRuntime,
    matches: &ArgMatches<'_>,
    ignored: &'a [Pattern<'a>],
) -> Result<PackOptions<'a>, Outcome> {
    let default = PackOptions::default();
    let is_v1 = matches.get_str("cid-version") == Some("1");
    let preserve = matches.get_flag("preserve");
    let raw_leaves = matches.get_flag("raw-leaves") || (is_v1 && !preserve);
    let chunk = chunk_of(rt, matches)?;
    let width = width_of(rt, matches)?;
    Ok(PackOptions {
        layout: Layout {
            version: if is_v1 { Version::V1 } else { Version::V0 },
            raw_leaves: raw_leaves && !matches.get_flag("no-raw-leaves"),
            width: width.map_or(default.layout.width, |width| width as usize),
        },
        chunk: chunk.map_or(default.chunk, |chunk| chunk as usize),
        preserve,
        hidden: matches.get_flag("hidden"),
        symlinks: match matches.get_str("symlinks") {
            Some("follow") => Symlinks::Followed,
            _ => Symlinks::Kept,
        },
        ignored,
    })
}

// Reports why something isn't packed, in `name` if that is the output that can't be written.
fn report_pack_error(rt: &HostRuntime, name: &str, error: PackError) -> Outcome {
    let PackError { path, kind } = error;
    match kind {
        PackErrorKind::Write(error) => report_unwritable(rt, name, &OutputError::from(error)),
        PackErrorKind::Memory if path.is_empty() => report_out_of_memory(rt, name),
        kind => report(rt, &path, &kind, Outcome::Failed),
    }
}

// Returns a copy of an input whose length isn't known: standard input, or a pipe. Reports the error
// if it can't be copied.
fn spooled_input(rt: &HostRuntime, path: &str) -> Result<Option<File>, Outcome> {
    if path != "-" {
        match fs::metadata(rt, path) {
            Ok(metadata) => {
                let file_type = metadata.file_type();
                if !file_type.is_fifo() && !file_type.is_char_device() {
                    return Ok(None);
                }
            }
            // The scan says what is wrong.
            Err(_) => return Ok(None),
        }
    }
    match spooled(rt, path) {
        Ok(file) => Ok(Some(file)),
        Err(error) => Err(report_unreadable(rt, path, &error)),
    }
}

// Returns the copies of inputs whose length isn't known, each at the index of its path.
fn copies_of(rt: &HostRuntime, paths: &[&str]) -> Result<Vec<Option<File>>, Outcome> {
    let mut copies = Vec::new(rt.alloc());
    for path in paths {
        let copy = spooled_input(rt, path)?;
        if copies.push(copy).is_err() {
            return Err(report_out_of_memory(rt, path));
        }
    }
    Ok(copies)
}

// Returns what is packed. In a folder around them, each has the last name of its path.
fn tops_of<'a>(
    alloc: Global,
    paths: &'a [&'a str],
    copies: &'a [Option<File>],
) -> Result<Vec<Top<'a>>, AllocError> {
    let mut tops = Vec::new(alloc);
    for (path, copy) in paths.iter().zip(copies.iter()) {
        let top = Top {
            name: Path::new(path).file_name().unwrap_or(""),
            path,
            file: copy.as_ref(),
        };
        if tops.push(top).is_err() {
            return Err(AllocError);
        }
    }
    Ok(tops)
}

/// Returns the root of the file or folder at a path, without writing it. Reports the error if there
/// is none.
pub fn unixfs_root(
    rt: &HostRuntime,
    path: &str,
    options: &PackOptions<'_>,
) -> Result<Cid, Outcome> {
    let paths = [path];
    let copies = copies_of(rt, &paths)?;
    let Ok(tops) = tops_of(rt.alloc(), &paths, &copies) else {
        return Err(report_out_of_memory(rt, path));
    };
    let mut tree = match Tree::scan(rt, &tops, options, false) {
        Ok(tree) => tree,
        Err(error) => return Err(report_pack_error(rt, path, error)),
    };
    match tree.pack(rt, &mut Discard) {
        Ok(root) => Ok(root),
        Err(error) => Err(report_pack_error(rt, path, error)),
    }
}

// Returns whether a path leads to a folder that is packed as it is.
fn is_folder(rt: &HostRuntime, top: &Top<'_>, symlinks: Symlinks) -> bool {
    let metadata = match symlinks {
        Symlinks::Kept => fs::symlink_metadata(rt, top.path),
        Symlinks::Followed => fs::metadata(rt, top.path),
    };
    match metadata {
        Ok(metadata) => metadata.is_dir() && top.file.is_none(),
        Err(_) => false,
    }
}

// Returns whether these paths are packed as the entries of a folder: several, or one that isn't a
// folder. Reports wrong arguments if one has no name there.
fn wraps(
    rt: &HostRuntime,
    matches: &ArgMatches<'_>,
    tops: &[Top<'_>],
    symlinks: Symlinks,
) -> Result<bool, Outcome> {
    let [only] = tops else {
        if matches.get_flag("no-wrap") {
            let why =
                "--no-wrap is for one path: several have no root without a folder around them";
            return Err(report_wrong_arguments(rt, &why));
        }
        check_names(rt, tops)?;
        return Ok(true);
    };
    if matches.get_flag("no-wrap") {
        return Ok(false);
    }
    if is_folder(rt, only, symlinks) {
        return Ok(false);
    }
    check_names(rt, tops)?;
    Ok(true)
}

// Reports wrong arguments if a path has no name for an entry of a folder.
fn check_names(rt: &HostRuntime, tops: &[Top<'_>]) -> Result<(), Outcome> {
    for top in tops {
        if top.path == "-" {
            let why = "standard input has no name: use --no-wrap";
            return Err(report_wrong_arguments(rt, &why));
        }
        if top.name.is_empty() {
            let path = top.path;
            let why = format_args!("'{path}' ends in no name: give the path by its name");
            return Err(report_wrong_arguments(rt, &why));
        }
    }
    Ok(())
}

// Returns whether the output is one of the files that are packed.
fn is_packed(rt: &HostRuntime, tree: &Tree<'_>, output: &Output) -> bool {
    let Output::Replaced(path, _) = output else {
        return false;
    };
    match fs::metadata(rt, path.as_path()) {
        Ok(metadata) => tree.contains(metadata.dev(), metadata.ino()),
        Err(_) => false,
    }
}

// Writes the CAR of a tree into a file. Returns the root, and the length of the CAR. Reports the
// error.
fn write_car(
    rt: &HostRuntime,
    name: &str,
    tree: &mut Tree<'_>,
    file: &File,
) -> Result<(Cid, u64), Outcome> {
    let mut car = match CarInPlace::new(rt, file, &tree.planned_root()) {
        Ok(car) => car,
        Err(error) => return Err(report_unwritable(rt, name, &OutputError::from(error))),
    };
    let root = match tree.pack(rt, &mut car) {
        Ok(root) => root,
        Err(error) => return Err(report_pack_error(rt, name, error)),
    };
    match car.finish(&root) {
        Ok((_, len)) => Ok((root, len)),
        Err(error) => Err(report_unwritable(rt, name, &OutputError::from(error))),
    }
}

// Packs a tree into the output of this name, and returns the root. Reports the error, and then
// leaves no CAR.
fn pack_into(
    rt: &HostRuntime,
    name: &str,
    tree: &mut Tree<'_>,
    output: Output,
) -> Result<Cid, Outcome> {
    let placed = match PlacedOutput::create(rt, name, output) {
        Ok(placed) => placed,
        Err(error) => return Err(report_unwritable(rt, name, &error)),
    };
    let (root, len) = match write_car(rt, name, tree, placed.file()) {
        Ok(written) => written,
        Err(outcome) => {
            placed.remove(rt);
            return Err(outcome);
        }
    };
    match placed.finish(rt, name, len) {
        Ok(()) => Ok(root),
        Err(error) => Err(report_unwritable(rt, name, &error)),
    }
}

// Packs what is at these paths.
fn pack(
    rt: &HostRuntime,
    matches: &ArgMatches<'_>,
    name: &str,
    paths: &[&str],
) -> Result<Cid, Outcome> {
    let Ok(patterns) = patterns_of(rt.alloc(), matches) else {
        return Err(report_out_of_memory(rt, name));
    };
    let options = pack_options_of(rt, matches, &patterns)?;
    if reads_twice(rt, paths) {
        return Err(Outcome::Failed);
    }
    let output = match output_of(rt, name, matches.get_flag("force"), paths) {
        Ok(output) => output,
        Err(error) => return Err(report_unwritable(rt, name, &error)),
    };
    let copies = copies_of(rt, paths)?;
    let Ok(tops) = tops_of(rt.alloc(), paths, &copies) else {
        return Err(report_out_of_memory(rt, name));
    };
    let wrap = wraps(rt, matches, &tops, options.symlinks)?;
    let mut tree = match Tree::scan(rt, &tops, &options, wrap) {
        Ok(tree) => tree,
        Err(error) => return Err(report_pack_error(rt, name, error)),
    };
    if is_packed(rt, &tree, &output) {
        return Err(report_unwritable(rt, name, &OutputError::Input));
    }
    pack_into(rt, name, &mut tree, output)
}

// Prints the root: on standard output, or on standard error if the CAR is there.
fn print_root(rt: &HostRuntime, name: &str, root: &Cid) -> Outcome {
    let Ok(text) = usual_text(rt.alloc(), root) else {
        return report_out_of_memory(rt, name);
    };
    if name == "-" {
        // If it can't be written, the CAR is complete all the same.
        let _ = eprint!(rt; "{text}\n");
        return Outcome::Done;
    }
    let mut writer = io::writer(rt);
    match writeln!(writer, "{text}") {
        Ok(()) => Outcome::Done,
        Err(error) => report_unwritable(rt, "-", &OutputError::from(error)),
    }
}

/// Runs `ipld pack`.
pub fn run_pack(rt: &HostRuntime, matches: &ArgMatches<'_>) -> Outcome {
    let Some(paths) = matches.get_strs("paths") else {
        return Outcome::Failed;
    };
    let name = matches.get_str("output").unwrap_or("-");
    match pack(rt, matches, name, paths) {
        Ok(root) => print_root(rt, name, &root),
        Err(outcome) => outcome,
    }
}
