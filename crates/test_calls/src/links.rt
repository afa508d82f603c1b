//! The program `ipld_links` over readers and writers that fail. `.ci/program-runs` has rows of
//! inputs and outputs, and `test_rows` has changed lines.

mod errors;
mod runs;
