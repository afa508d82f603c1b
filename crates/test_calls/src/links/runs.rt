//! Runs of the program, with the expected results and outputs.

use ipld_links_run::{RunFault, Status, run};
use std::alloc::Global;
use std::fmt::Display;
use std::io::{BufRead, Write};
use std::process::Abort;

/// Returns the result of the program.
pub fn outcome_of<R: BufRead, W: Write>(
    alloc: Global,
    word: &str,
    reader: &mut R,
    writer: &mut W,
) -> Result<Status, RunFault> {
    run(alloc, word, reader, writer)
}

/// Checks the result and the output of the program, run with the word on the reader's input. The
/// message of a failure has the name.
pub fn runs<R: BufRead, N: Display + Copy>(
    rt: &impl Abort,
    alloc: Global,
    word: &str,
    reader: &mut R,
    outcome: Result<Status, RunFault>,
    output: &str,
    name: N,
) {
    let mut written = Vec::new(alloc);
    let found = outcome_of(alloc, word, reader, &mut written);
    assert_eq!(rt; found, outcome, "{word}: {name}");
    assert_eq!(rt; written.as_slice(), output.as_bytes(), "{word}: {name}");
}
