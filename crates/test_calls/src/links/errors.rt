//! Readers that return pieces, are interrupted or fail, and writers that fail.

use crate::links::runs::{outcome_of, runs};
use crate::pieces::{Full, Pieces};
use ipld_core::codec::{FaultReader, FaultWriter};
use ipld_links_run::{RunFault, Status};
use std::alloc::Global;
use std::io::{self, Error, ErrorKind, Write};
use std::process::Abort;

// The output for an unknown word.
const USAGE: &str = "usage: ipld_links [cid|links|refs|cbor]\n";

/// A writer that takes `left` bytes, and then fails.
#[derive(Drop)]
struct Capacity {
    left: usize,
    bytes: Vec<u8>,
}

impl Capacity {
    fn new(alloc: Global, left: usize) -> Capacity {
        Capacity {
            left,
            bytes: Vec::new(alloc),
        }
    }
}

impl Write for Capacity {
    fn write(&mut self, buf: &[u8]) -> io::Result<usize> {
        let count = self.left.min(buf.len());
        if count == 0 {
            return Err(Error::from(ErrorKind::StorageFull));
        }
        self.bytes.extend_from_slice(&buf[..count])?;
        self.left -= count;
        Ok(count)
    }

    fn flush(&mut self) -> io::Result<()> {
        Ok(())
    }
}

// Checks the result and the output of the word on the pieces, and that all of them were read.
fn reads_pieces(
    rt: &impl Abort,
    alloc: Global,
    word: &str,
    mut reader: Pieces,
    outcome: Result<Status, RunFault>,
    output: &str,
) {
    let size = reader.size;
    runs(rt, alloc, word, &mut reader, outcome, output, size);
    assert!(rt; reader.bytes.is_empty(), "{word}: {size}");
}

// Checks that the word on the input fails with an error of the writer, which took this beginning of
// the output. Returns how many bytes of the input are not read.
fn fills_capacity(rt: &impl Abort, alloc: Global, word: &str, input: &str, output: &[u8]) -> usize {
    let mut reader = input.as_bytes();
    let mut writer = Capacity::new(alloc, output.len());
    let outcome = outcome_of(alloc, word, &mut reader, &mut writer);
    assert_eq!(rt; outcome, Err(RunFault::Write), "{word}: {input}");
    assert_eq!(rt; writer.bytes.as_slice(), output, "{word}: {input}");
    reader.len()
}

const LINES: &str = "01550000\n0155000107\n8100550000\nthe rest is not looked at\n";

const OUTPUT: &str = "bafkqaaa\nbafkqaaih\nrefused NotShortest\n";

#[test]
fn reads_pieces_of_any_size(rt: HostRuntime) {
    for size in 1..LINES.len() {
        let reader = Pieces::new(LINES.as_bytes(), size, None);
        let outcome = Ok(Status::Refused);
        reads_pieces(&rt, rt.alloc(), "cid", reader, outcome, OUTPUT);
    }
}

/// Inputs of `cid`, with the reader's error after them, the expected result, and the expected
/// output.
const BROKEN_OFF: [(&str, ErrorKind, RunFault, &str); 6] = [
    ("", ErrorKind::Other, RunFault::Read, ""),
    (
        "01550000\n0155",
        ErrorKind::Other,
        RunFault::Read,
        "bafkqaaa\n",
    ),
    (
        "01550000\n01\n01",
        ErrorKind::Other,
        RunFault::Read,
        "bafkqaaa\nrefused End\n",
    ),
    (
        "01550000\n\n01",
        ErrorKind::Other,
        RunFault::Read,
        "bafkqaaa\nbad line 2\n",
    ),
    (
        "01550000\n0155",
        ErrorKind::OutOfMemory,
        RunFault::Memory,
        "bafkqaaa\n",
    ),
    (
        "\n",
        ErrorKind::OutOfMemory,
        RunFault::Memory,
        "bad line 1\n",
    ),
];

#[test]
fn reports_an_error_of_the_reader(rt: HostRuntime) {
    for (input, kind, error, output) in BROKEN_OFF {
        let reader = Pieces::new(input.as_bytes(), 3, Some(kind));
        reads_pieces(&rt, rt.alloc(), "cid", reader, Err(error), output);
    }
}

#[test]
fn asks_no_reader_for_an_unknown_word(rt: HostRuntime) {
    let mut reader = Pieces::new(b"", 1, Some(ErrorKind::Other));
    let mut written = Vec::new(rt.alloc());
    let outcome = outcome_of(rt.alloc(), "list", &mut reader, &mut written);
    assert_eq!(rt; outcome, Ok(Status::NotUnderstood));
    assert!(rt; !reader.interrupted);
}

const TOKENS: &str = "seq\nlink\nbytes 01550000\nlink\nbytes 0155000107\nseqend\nnone\n";

const TEXTS: &str = "bafkqaaa\nbafkqaaih\nok 2\n";

#[test]
fn reads_pieces_of_tokens_of_any_size(rt: HostRuntime) {
    for size in 1..TOKENS.len() {
        for word in ["links", "refs"] {
            let reader = Pieces::new(TOKENS.as_bytes(), size, None);
            reads_pieces(&rt, rt.alloc(), word, reader, Ok(Status::Done), TEXTS);
        }
    }
}

// Checks that both words return this error, and write nothing.
fn write_nothing(
    rt: &impl Abort,
    alloc: Global,
    input: &'static str,
    kind: ErrorKind,
    error: RunFault,
) {
    for word in ["links", "refs"] {
        let reader = Pieces::new(input.as_bytes(), 3, Some(kind));
        reads_pieces(rt, alloc, word, reader, Err(error), "");
    }
}

#[test]
fn writes_nothing_before_all_lines_are_read(rt: HostRuntime) {
    for input in ["", "none\n", "link\nbytes 01550000\n", "Seq\n", "Seq\nseq"] {
        write_nothing(&rt, rt.alloc(), input, ErrorKind::Other, RunFault::Read);
    }
    for input in ["none\nse", "Seq\n"] {
        write_nothing(
            &rt,
            rt.alloc(),
            input,
            ErrorKind::OutOfMemory,
            RunFault::Memory,
        );
    }
}

/// Words and inputs, the expected output, and the number of bytes of the input that are not read,
/// if it is known.
const WRITTEN: [(&str, &str, &str, Option<usize>); 8] = [
    ("cid", LINES, OUTPUT, None),
    ("", LINES, USAGE, Some(LINES.len())),
    ("links", TOKENS, TEXTS, Some(0)),
    ("refs", TOKENS, TEXTS, Some(0)),
    ("links", "link\nbytes 0155\n", "refused Cid\n", Some(0)),
    ("refs", "link\nbytes 0155\n", "refused Cid\n", Some(0)),
    ("links", "none\nNone\n", "bad line 2\n", Some(0)),
    ("refs", "none\nNone\n", "bad line 2\n", Some(0)),
];

#[test]
fn reports_an_error_of_the_writer(rt: HostRuntime) {
    for (word, input, output, expected) in WRITTEN {
        let output = output.as_bytes();
        for capacity in 0..output.len() {
            let left = fills_capacity(&rt, rt.alloc(), word, input, &output[..capacity]);
            assert!(rt; expected.is_none() || expected == Some(left), "{capacity}");
        }
    }
}

#[test]
fn reports_a_writer_that_takes_no_byte(rt: HostRuntime) {
    for (word, input, _, _) in WRITTEN {
        let outcome = outcome_of(rt.alloc(), word, &mut input.as_bytes(), &mut Full);
        assert_eq!(rt; outcome, Err(RunFault::Write), "{word}: {input}");
    }
}

// The reader fails after the first of two lines, and the writer at its first write.
#[test]
fn reports_ends_that_fail_at_once(rt: HostRuntime) {
    let lines = b"01550000\n01550000\n";
    let mut written = Vec::new(rt.alloc());
    let mut reader = FaultReader::new(lines, 9);
    let outcome = outcome_of(rt.alloc(), "cid", &mut reader, &mut written);
    assert_eq!(rt; outcome, Err(RunFault::Read));
    let mut writer = FaultWriter::new(0);
    let outcome = outcome_of(rt.alloc(), "cid", &mut lines.as_slice(), &mut writer);
    assert_eq!(rt; outcome, Err(RunFault::Write));
}
