//! The program's words.

use crate::ended::{Ended, reported_by_vector};
use ipld_links_run::{Status, run};
use std::alloc::Global;
use std::process::Abort;

fn writes(rt: &impl Abort, alloc: Global, word: &'static str, input: &str) -> Result<(), Ended> {
    let mut reader = input.as_bytes();
    let mut written = Vec::new(alloc);
    let outcome = run(alloc, word, &mut reader, &mut written);
    // The output is complete, or a beginning of the expected one.
    assert!(rt; b"bafkqaaa\nok 1\n".starts_with(written.as_slice()));
    assert!(rt; reported_by_vector(word, outcome)? == Status::Done);
    assert_eq!(rt; written.len(), 14);
    Ok(())
}

#[test]
fn words(rt: HostRuntime) -> Result<(), Ended> {
    writes(&rt, rt.alloc(), "cid", "01550000\n")?;
    writes(&rt, rt.alloc(), "links", "link\nbytes 01550000\n")?;
    writes(&rt, rt.alloc(), "refs", "link\nbytes 01550000\n")?;
    writes(&rt, rt.alloc(), "cbor", "d82a450001550000\n")
}
