//! The command that shows blocks.

use crate::arguments::{car_options_of, codec_of, names_codec};
use crate::block_commands::follow::show_in_car;
use clap::ArgMatches;
use ipld_block::BlockCodec;
use ipld_cli::{
    CarOptions, NamedCid, Opened, Outcome, PerWord, ShowExplanation, is_file, open_blocks, report,
    report_invalid_block, report_out_of_memory, report_show_error, report_unreadable,
    report_wrong_arguments, run_over,
};
use ipld_show::{ShowError, link_on_path, show};
use std::io::Write;

/// The request for the output of each file.
#[derive(Clone, Copy)]
pub struct ShowRequest<'a> {
    /// The codec of the block.
    pub codec: BlockCodec,
    /// Whether the codec was named. A file is then a block of it, even if it begins as a CAR does.
    pub names_codec: bool,
    /// The path, which is empty if everything is shown.
    pub path: &'a str,
    /// Whether DAG-JSON is written.
    pub json: bool,
    /// The options for reading CARs.
    pub car: CarOptions,
    /// Whether a block of a CAR is shown even if it is not known to match its CID.
    pub is_unchecked: bool,
}

// Reports that a path leads to nothing, and why.
fn report_path_error(
    rt: &HostRuntime,
    file: &str,
    request: &ShowRequest<'_>,
    bytes: &[u8],
    error: &ShowError,
) -> Outcome {
    if let Ok(Some(link)) = link_on_path(rt.alloc(), request.codec, bytes, request.path) {
        let (segments, cid) = (link.segments, NamedCid::new(rt.alloc(), &link.cid));
        let why = format_args!(
            "segment {segments} of the path is a link to {cid}, and only a CAR has linked blocks"
        );
        return report(rt, file, &why, Outcome::NotSo);
    }
    let path = request.path;
    let why = ShowExplanation::new(path, error);
    if !is_file(rt, path) {
        return report(rt, file, &why, Outcome::NotSo);
    }
    let why = format_args!("{why} ({path} is a file: for several files, use --path /)");
    report(rt, file, &why, Outcome::NotSo)
}

// Shows the requested part of a block.
fn show_block<W: Write>(
    rt: &HostRuntime,
    file: &str,
    request: &ShowRequest<'_>,
    bytes: &[u8],
    writer: &mut W,
) -> Result<Outcome, ShowError> {
    match show(
        rt.alloc(),
        request.codec,
        bytes,
        request.path,
        request.json,
        writer,
    ) {
        Ok(()) => Ok(Outcome::Done),
        Err(ShowError::Write(kind)) => Err(ShowError::Write(kind)),
        Err(error @ (ShowError::NoSegment(_) | ShowError::NotAContainer(_))) => {
            Ok(report_path_error(rt, file, request, bytes, &error))
        }
        Err(ShowError::Invalid(why)) => {
            Ok(report_invalid_block(rt, file, request.codec, bytes, why))
        }
        Err(error) => Ok(report_show_error(rt, file, &error)),
    }
}

impl<'a> PerWord for ShowRequest<'a> {
    fn run<W: Write>(
        &self,
        rt: &HostRuntime,
        word: &str,
        writer: &mut W,
    ) -> Result<Outcome, ShowError> {
        match open_blocks(rt, word, self.car, !self.names_codec) {
            Ok(Opened::Block(bytes)) => show_block(rt, word, self, &bytes, writer),
            Ok(Opened::Car(blocks)) => show_in_car(rt, blocks, self, writer),
            Err(error) => Ok(report_unreadable(rt, word, &error)),
        }
    }
}

// Reports that there is one argument too many.
fn report_second_path(rt: &HostRuntime, word: &str) -> Outcome {
    match format!(in rt.alloc();
        "unexpected argument '{word}' found: for several files, use --path <PATH>"
    ) {
        Ok(why) => report_wrong_arguments(rt, &why),
        Err(_) => report_out_of_memory(rt, word),
    }
}

/// Runs `ipld show`.
pub fn run_show(rt: &HostRuntime, matches: &ArgMatches<'_>) -> Outcome {
    let Some(words) = matches.get_strs("words") else {
        return Outcome::Failed;
    };
    // Without --path, the second word is the path.
    let (files, path) = match (matches.get_str("path"), words) {
        (Some(path), files) => (files, path),
        (None, [_, path]) => (words.get(..1).unwrap_or(words), *path),
        (None, [_, _, word, ..]) => return report_second_path(rt, word),
        (None, files) => (files, ""),
    };
    let car = match car_options_of(rt, matches) {
        Ok(options) => options,
        Err(outcome) => return outcome,
    };
    let request = ShowRequest {
        codec: codec_of(matches),
        names_codec: names_codec(matches),
        path,
        json: matches.get_flag("json"),
        car,
        is_unchecked: matches.get_flag("unchecked"),
    };
    run_over(rt, files, &request)
}
