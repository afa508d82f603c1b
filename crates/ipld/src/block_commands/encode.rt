//! The command that encodes DAG-JSON as a block.

use clap::ArgMatches;
use dag_cbor_tape::{EncodeErrorKind, encode_tape};
use dag_json::{
    JsonTapeError, ReadError, ReadErrorKind, from_canonical, from_slice, tape_from_slice, to_vec,
};
use ipld_cli::{
    Content, JsonExplanation, Outcome, Output, OutputError, output_of, read_file, report,
    report_out_of_memory, report_unreadable, report_unwritable, write_output,
};
use ipld_codec::{Codec, RawCodec, RawError};
use ipld_show::to_json;
use ipld_tree::{Ipld, Limits};
use std::alloc::Global;
use std::io::Write;

/// Runs `ipld encode`.
pub fn run_encode(rt: &HostRuntime, matches: &ArgMatches<'_>) -> Outcome {
    let Some(file) = matches.get_str("file") else {
        return Outcome::Failed;
    };
    let name = matches.get_str("output").unwrap_or("-");
    match output_of(rt, name, matches.get_flag("force"), &[file]) {
        Ok(output) => encode_file(rt, matches, file, name, output),
        Err(error) => report_unwritable(rt, name, &error),
    }
}

// Encodes a file's text as a block, and writes it.
fn encode_file(
    rt: &HostRuntime,
    matches: &ArgMatches<'_>,
    file: &str,
    name: &str,
    output: Output,
) -> Outcome {
    let text = match read_file(rt, file) {
        Ok(text) => text,
        Err(error) => return report_unreadable(rt, file, &error),
    };
    let format = format_of(matches);
    let canonical = matches.get_flag("canonical");
    let value = if canonical {
        without_line_feed(&text)
    } else {
        &text
    };
    match block_of(rt.alloc(), value, format, canonical) {
        Ok(bytes) => write_output(rt, name, output, &Block { bytes }),
        Err(error) => report_error(rt, file, value, format, &error),
    }
}

// Returns a text without the line feed at its end, which is not part of its value.
fn without_line_feed(text: &[u8]) -> &[u8] {
    match text {
        [line @ .., b'\n'] => line,
        _ => text,
    }
}

// The format of the block.
#[derive(Clone, Copy)]
enum Format {
    DagCbor,
    DagJson,
    Raw,
}

// Returns the format that `--codec` names. DAG-CBOR is the default.
fn format_of(matches: &ArgMatches<'_>) -> Format {
    match matches.get_str("codec") {
        Some("dag-json") => Format::DagJson,
        Some("raw") => Format::Raw,
        _ => Format::DagCbor,
    }
}

// A block that is to be written.
#[derive(Drop)]
struct Block {
    bytes: Vec<u8>,
}

impl Content for Block {
    fn write_to<W: Write + Drop>(&self, writer: W) -> Result<W, OutputError> {
        let mut writer = writer;
        writer.write_all(&self.bytes)?;
        writer.flush()?;
        Ok(writer)
    }
}

// The reason why a block can't be encoded.
#[derive(Clone, Copy, Drop)]
enum EncodeError {
    Text(ReadError),
    Tape(dag_cbor_tape::EncodeError),
    TooLong,
    NotBytes,
    Memory,
}

// Encodes a text as a block.
fn block_of(
    alloc: Global,
    text: &[u8],
    format: Format,
    canonical: bool,
) -> Result<Vec<u8>, EncodeError> {
    match format {
        Format::DagCbor => cbor_of(alloc, text, canonical),
        Format::DagJson => {
            let tree = tree_of(alloc, text, canonical)?;
            let block = json_of(alloc, &tree);
            tree.discard();
            block
        }
        Format::Raw => {
            let tree = tree_of(alloc, text, canonical)?;
            let block = bytes_of(alloc, &tree);
            tree.discard();
            block
        }
    }
}

// Encodes a text, which may have floats, as a block of DAG-CBOR.
fn cbor_of(alloc: Global, text: &[u8], canonical: bool) -> Result<Vec<u8>, EncodeError> {
    let tape = match tape_from_slice(alloc, text, &Limits::default()) {
        Ok(tape) => tape,
        Err(JsonTapeError::Text(error)) => return Err(EncodeError::Text(error)),
        Err(JsonTapeError::TooLong) => return Err(EncodeError::TooLong),
    };
    let block = match encode_tape(alloc, &tape.entries, &tape.contents) {
        Ok(block) => block,
        Err(error) => return Err(EncodeError::Tape(error)),
    };
    if canonical {
        check_canonical(alloc, text, &block)?;
    }
    Ok(block)
}

// Returns the number of leading bytes that two texts have in common.
fn common_len(a: &[u8], b: &[u8]) -> usize {
    for (i, (x, y)) in a.iter().zip(b.iter()).enumerate() {
        if x != y {
            return i;
        }
    }
    a.len().min(b.len())
}

// Checks that a text is the one that is written for its own block.
fn check_canonical(alloc: Global, text: &[u8], block: &[u8]) -> Result<(), EncodeError> {
    let Ok(written) = to_json(alloc, block) else {
        return Err(EncodeError::Memory);
    };
    if written.as_slice() == text {
        return Ok(());
    }
    Err(EncodeError::Text(ReadError {
        kind: ReadErrorKind::NotCanonical,
        offset: common_len(&written, text),
    }))
}

// Reads the tree of a text.
fn tree_of(alloc: Global, text: &[u8], canonical: bool) -> Result<Ipld, EncodeError> {
    let limits = Limits::default();
    let read = if canonical {
        from_canonical(alloc, text, &limits)
    } else {
        from_slice(alloc, text, &limits)
    };
    match read {
        Ok(tree) => Ok(tree),
        Err(error) => Err(EncodeError::Text(error)),
    }
}

// Encodes a tree as a block of DAG-JSON.
fn json_of(alloc: Global, tree: &Ipld) -> Result<Vec<u8>, EncodeError> {
    match to_vec(alloc, tree) {
        Ok(text) => Ok(text),
        Err(_) => Err(EncodeError::Memory),
    }
}

// Encodes a tree as a block of plain bytes.
fn bytes_of(alloc: Global, tree: &Ipld) -> Result<Vec<u8>, EncodeError> {
    match RawCodec::encode_to_vec(alloc, tree) {
        Ok(bytes) => Ok(bytes),
        Err(RawError::NotBytes(_)) => Err(EncodeError::NotBytes),
        Err(_) => Err(EncodeError::Memory),
    }
}

// Explains the error of a text by the format that was asked for.
fn explanation_of(text: &[u8], format: Format, error: ReadError) -> JsonExplanation<'_> {
    match format {
        Format::DagCbor => JsonExplanation::new(text, error),
        Format::DagJson | Format::Raw => JsonExplanation::without_floats(text, error),
    }
}

// Reports why a block can't be encoded.
fn report_error(
    rt: &HostRuntime,
    file: &str,
    text: &[u8],
    format: Format,
    error: &EncodeError,
) -> Outcome {
    match error {
        EncodeError::Memory => report_out_of_memory(rt, file),
        EncodeError::Text(error) if error.kind == ReadErrorKind::Memory => report_out_of_memory(
            rt, file,
        ),
        EncodeError::Tape(error) if error.kind == EncodeErrorKind::Memory => report_out_of_memory(
            rt, file,
        ),
        EncodeError::Text(error) => {
            report(
                rt,
                file,
                &explanation_of(text, format, *error),
                Outcome::NotSo,
            )
        }
        EncodeError::Tape(error) => { report(rt, file, error, Outcome::NotSo) }
        EncodeError::TooLong => report(rt, file, &JsonTapeError::TooLong, Outcome::NotSo),
        EncodeError::NotBytes => {
            let why = "--codec raw requires a value that is bytes: {\"/\":{\"bytes\":\"..\"}}";
            report(rt, file, &why, Outcome::NotSo)
        }
    }
}
