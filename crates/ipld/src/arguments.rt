//! The arguments that several commands share.

use clap::ArgMatches;
use clap::parser::ValueSource;
use ipld_block::BlockCodec;
use ipld_car::DEFAULT_LIMIT;
use ipld_cli::{
    CarOptions, Outcome, read_file, reads_twice, report, report_out_of_memory, report_unreadable,
    report_wrong_arguments,
};
use std::alloc::{AllocError, Global};
use std::str;

/// Returns the codec that `--codec` names. DAG-CBOR is the default.
pub fn codec_of(matches: &ArgMatches<'_>) -> BlockCodec {
    matches
        .get_str("codec")
        .and_then(BlockCodec::from_name)
        .unwrap_or(BlockCodec::DagCbor)
}

/// Returns whether `--version` asks for a CAR of version 2, which has an index. Version 1 is the
/// default.
pub fn writes_index(matches: &ArgMatches<'_>) -> bool {
    matches.get_str("version") == Some("2")
}

/// Returns whether `--codec` is given.
pub fn names_codec(matches: &ArgMatches<'_>) -> bool {
    matches.value_source("codec") == Some(ValueSource::CommandLine)
}

/// Parses a number of bytes: digits, and after them nothing, or K, M or G for units of 2^10, 2^20
/// or 2^30 bytes. Returns `None` for any other text, for 0, and for numbers of more than 64 bits.
pub fn parse_size(text: &str) -> Option<u64> {
    let (digits, unit) = if let Some(digits) = text.strip_suffix('K') {
        (digits, 1 << 10)
    } else if let Some(digits) = text.strip_suffix('M') {
        (digits, 1 << 20)
    } else if let Some(digits) = text.strip_suffix('G') {
        (digits, 1 << 30)
    } else {
        (text, 1)
    };
    if !digits.bytes().all(|byte| byte.is_ascii_digit()) {
        return None;
    }
    let size = digits.parse::<u64>().ok()?.checked_mul(unit)?;
    if size == 0 { None } else { Some(size) }
}

/// Returns the size that an option has, or `None` if it is not given. Reports wrong arguments if
/// its value is not a size.
pub fn size_of(
    rt: &HostRuntime,
    matches: &ArgMatches<'_>,
    option: &str,
) -> Result<Option<u64>, Outcome> {
    let Some(text) = matches.get_str(option) else {
        return Ok(None);
    };
    match parse_size(text) {
        Some(size) => Ok(Some(size)),
        None => Err(report_wrong_size(rt, option, text)),
    }
}

/// Returns the size that an option has, which may be 0, or `None` if it is not given. Reports wrong
/// arguments if its value is not a size.
pub fn count_of(
    rt: &HostRuntime,
    matches: &ArgMatches<'_>,
    option: &str,
) -> Result<Option<u64>, Outcome> {
    match matches.get_str(option) {
        Some("0") => Ok(Some(0)),
        _ => size_of(rt, matches, option),
    }
}

fn report_wrong_size(rt: &HostRuntime, option: &str, text: &str) -> Outcome {
    match format!(in rt.alloc();
        "invalid value '{text}' for '--{option} <SIZE>': must be a number of bytes above 0, such as 1000, 512K, 8M or 1G"
    ) {
        Ok(why) => report_wrong_arguments(rt, &why),
        Err(_) => report_out_of_memory(rt, text),
    }
}

/// Reads a file as text. Reports the error if it can't be read or is not valid UTF-8.
pub fn read_text(rt: &HostRuntime, file: &str) -> Result<String, Outcome> {
    let bytes = match read_file(rt, file) {
        Ok(bytes) => bytes,
        Err(error) => return Err(report_unreadable(rt, file, &error)),
    };
    match String::from_utf8(bytes) {
        Ok(text) => Ok(text),
        Err(_) => Err(report(rt, file, &"the input is not valid UTF-8", Outcome::Failed)),
    }
}

// Reads standard input as text, if `-` is one of these words. Otherwise returns an empty text.
fn standard_input_among(rt: &HostRuntime, words: &[&str]) -> Result<String, Outcome> {
    if words.contains(&"-") {
        read_text(rt, "-")
    } else {
        Ok(String::new(rt.alloc()))
    }
}

/// Appends the lines of a text. Empty lines are left out.
pub fn push_lines(alloc: Global, text: &str, lines: &mut Vec<String>) -> Result<(), AllocError> {
    for line in text.lines() {
        if !line.is_empty() {
            lines.push(String::from_str(alloc, line)?)?;
        }
    }
    Ok(())
}

// Returns the words, with the lines of `input` in the place of `-`. Empty lines are left out.
fn with_lines(alloc: Global, words: &[&str], input: &str) -> Result<Vec<String>, AllocError> {
    let mut all = Vec::new(alloc);
    for word in words {
        if *word == "-" {
            push_lines(alloc, input, &mut all)?;
        } else {
            all.push(String::from_str(alloc, word)?)?;
        }
    }
    Ok(all)
}

/// Returns the texts of CIDs that the arguments name, and those on standard input for `-`. `file` is
/// the CAR. Reports the error if standard input would be read twice or can't be read.
pub fn cid_texts(
    rt: &HostRuntime,
    matches: &ArgMatches<'_>,
    file: &str,
) -> Result<Vec<String>, Outcome> {
    let Some(words) = matches.get_strs("cids") else {
        return Ok(Vec::new(rt.alloc()));
    };
    if file == "-" && words.contains(&"-") {
        // Standard input is the CAR already.
        reads_twice(rt, &["-", "-"]);
        return Err(Outcome::Failed);
    }
    let input = match standard_input_among(rt, words) {
        Ok(input) => input,
        Err(outcome) => return Err(outcome),
    };
    match with_lines(rt.alloc(), words, &input) {
        Ok(texts) => Ok(texts),
        Err(_) => Err(report_out_of_memory(rt, "the CIDs")),
    }
}

/// Returns the size of the longest section that is read: the value of `--limit`, or 8 MiB by
/// default.
pub fn limit_of(rt: &HostRuntime, matches: &ArgMatches<'_>) -> Result<u64, Outcome> {
    Ok(size_of(rt, matches, "limit")?.unwrap_or(DEFAULT_LIMIT))
}

/// Returns the options for reading CARs: those of `--limit` and `--zero-padding`.
pub fn car_options_of(rt: &HostRuntime, matches: &ArgMatches<'_>) -> Result<CarOptions, Outcome> {
    Ok(CarOptions {
        limit: limit_of(rt, matches)?,
        zero_padding: matches.get_flag("zero-padding"),
    })
}
