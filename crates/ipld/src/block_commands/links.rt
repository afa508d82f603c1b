//! The command that lists the links of blocks.

use crate::arguments::codec_of;
use clap::ArgMatches;
use ipld_block::{BlockCodec, CheckError, links_of, write_links};
use ipld_cli::{
    Outcome, PerWord, json_lines, read_file, report_invalid_block, report_show_error,
    report_unreadable, run_over,
};
use ipld_show::ShowError;
use std::io::Write;

/// Reports that a file is not a valid block of this codec. With `--json`, the report is on standard
/// output.
pub(crate) fn report_not_valid<W: Write>(
    rt: &HostRuntime,
    file: &str,
    codec: BlockCodec,
    json: bool,
    bytes: &[u8],
    error: CheckError,
    writer: &mut W,
) -> Result<Outcome, ShowError> {
    match error {
        CheckError::Invalid(why) if json => {
            json_lines::write_invalid(rt.alloc(), file, bytes, why, writer)?;
            Ok(Outcome::NotSo)
        }
        CheckError::Invalid(why) => Ok(report_invalid_block(rt, file, codec, bytes, why)),
        CheckError::Memory => Ok(report_show_error(rt, file, &ShowError::Memory)),
    }
}

// The listing of the links in each file's block.
#[derive(Clone, Copy)]
struct Links {
    codec: BlockCodec,
    json: bool,
}

impl PerWord for Links {
    fn run<W: Write>(
        &self,
        rt: &HostRuntime,
        file: &str,
        writer: &mut W,
    ) -> Result<Outcome, ShowError> {
        let bytes = match read_file(rt, file) {
            Ok(bytes) => bytes,
            Err(error) => return Ok(report_unreadable(rt, file, &error)),
        };
        match links_of(rt.alloc(), self.codec, &bytes) {
            Ok(links) if self.json => json_lines::write_links(rt.alloc(), file, &links, writer)?,
            Ok(links) => write_links(rt.alloc(), &links, writer)?,
            Err(error) => {
                return report_not_valid(rt, file, self.codec, self.json, &bytes, error, writer);
            }
        }
        Ok(Outcome::Done)
    }
}

/// Runs `ipld links`.
pub fn run_links(rt: &HostRuntime, matches: &ArgMatches<'_>) -> Outcome {
    let links = Links {
        codec: codec_of(matches),
        json: matches.get_flag("json"),
    };
    match matches.get_strs("files") {
        Some(files) => run_over(rt, files, &links),
        None => Outcome::Failed,
    }
}
