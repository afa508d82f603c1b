//! The command that checks blocks.

use crate::arguments::codec_of;
use crate::block_commands::links::report_not_valid;
use clap::ArgMatches;
use ipld_block::{BlockCodec, check, check_canonical};
use ipld_cli::{
    Escaped, Outcome, PerWord, json_lines, read_file, report_unreadable, report_wrong_arguments,
    run_to_end,
};
use ipld_show::ShowError;
use std::io::Write;

// The check of files, which prints the valid ones on standard output.
#[derive(Clone, Copy)]
struct Check {
    codec: BlockCodec,
    canonical: bool,
    json: bool,
}

impl PerWord for Check {
    fn run<W: Write>(
        &self,
        rt: &HostRuntime,
        file: &str,
        writer: &mut W,
    ) -> Result<Outcome, ShowError> {
        let bytes = match read_file(rt, file) {
            Ok(bytes) => bytes,
            Err(error) => return Ok(report_unreadable(rt, file, &error)),
        };
        let checked = if self.canonical {
            check_canonical(rt.alloc(), &bytes)
        } else {
            check(rt.alloc(), self.codec, &bytes)
        };
        match checked {
            Ok(()) if self.json => json_lines::write_valid(rt.alloc(), file, writer)?,
            Ok(()) => writeln!(writer, "{}: valid", Escaped(&file))?,
            Err(error) => {
                return report_not_valid(rt, file, self.codec, self.json, &bytes, error, writer);
            }
        }
        Ok(Outcome::Done)
    }
}

/// Runs `ipld check`. It checks every file, even if nobody reads the output any more.
pub fn run_check(rt: &HostRuntime, matches: &ArgMatches<'_>) -> Outcome {
    let check = Check {
        codec: codec_of(matches),
        canonical: matches.get_flag("canonical"),
        json: matches.get_flag("json"),
    };
    if check.canonical && check.codec != BlockCodec::DagCbor {
        return report_wrong_arguments(rt, &"--canonical works only with --codec dag-cbor");
    }
    match matches.get_strs("files") {
        Some(files) => run_to_end(rt, files, &check),
        None => Outcome::Failed,
    }
}
