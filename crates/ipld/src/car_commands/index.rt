//! The command that gives a CAR an index.

use crate::arguments::car_options_of;
use clap::ArgMatches;
use ipld_cli::{IndexedCopy, Outcome, output_of, report_unwritable, write_output};

/// Runs `ipld car index`.
pub fn run_index(rt: &HostRuntime, matches: &ArgMatches<'_>) -> Outcome {
    let file = matches.get_str("file").unwrap_or("-");
    let name = matches.get_str("output").unwrap_or("-");
    let options = match car_options_of(rt, matches) {
        Ok(options) => options,
        Err(outcome) => return outcome,
    };
    let output = match output_of(rt, name, matches.get_flag("force"), &[file]) {
        Ok(output) => output,
        Err(error) => return report_unwritable(rt, name, &error),
    };
    match IndexedCopy::of_file(rt, file, options) {
        Ok(copy) => write_output(rt, name, output, &copy),
        Err(outcome) => outcome,
    }
}
