//! The command that copies what is whole in a damaged CAR to a new one.

use crate::arguments::limit_of;
use crate::car_commands::create::roots_in;
use crate::car_commands::report::finish;
use car_files::CarFileError;
use clap::ArgMatches;
use ipld_cli::{
    BUFFER, Outcome, Output, Salvage, UntilClosed, end_writer, hasher_of, output_of,
    report_out_of_memory, report_unwritable, write_output, writes_to_input,
};
use std::io::{self, BufWriter, Write};

/// Runs `ipld car salvage`.
pub fn run_salvage(rt: &HostRuntime, matches: &ArgMatches<'_>) -> Outcome {
    match run(rt, matches) {
        Ok(outcome) | Err(outcome) => outcome,
    }
}

// Runs the command. If the CAR goes to standard output, the ranges go to standard error.
fn run(rt: &HostRuntime, matches: &ArgMatches<'_>) -> Result<Outcome, Outcome> {
    let file = matches.get_str("file").unwrap_or("-");
    let name = matches.get_str("output").unwrap_or("-");
    let (limit, roots) = (limit_of(rt, matches)?, roots_in(rt, matches)?);
    let output = match output_of(rt, name, matches.get_flag("force"), &[file]) {
        Ok(output) => output,
        Err(error) => return Err(report_unwritable(rt, name, &error)),
    };
    if name != "-" && writes_to_input(rt, &[file]) {
        return Err(Outcome::Failed);
    }
    let mut salvage = Salvage::open(rt, hasher_of(rt)?, file, limit)?;
    if !roots.is_empty() {
        salvage.set_roots(roots);
    }
    let target = Target {
        file,
        name,
        output,
        is_json: matches.get_flag("json"),
    };
    if name == "-" {
        let stderr = rt.stderr();
        Ok(salvage_to(rt, salvage, target, io::writer(&stderr)))
    } else {
        Ok(salvage_to(rt, salvage, target, io::writer(rt)))
    }
}

// What is written.
#[derive(Drop)]
struct Target<'a> {
    file: &'a str,
    name: &'a str,
    output: Output,
    is_json: bool,
}

// Writes the CAR, and the ranges to this writer.
fn salvage_to<W: Write + Drop>(
    rt: &HostRuntime,
    salvage: Salvage,
    target: Target<'_>,
    writer: W,
) -> Outcome {
    let file = target.file;
    let Ok(mut writer) = BufWriter::with_capacity(rt.alloc(), BUFFER, writer) else {
        return report_out_of_memory(rt, file);
    };
    let written = write_salvaged(rt, salvage, target, &mut UntilClosed::new(&mut writer));
    let flushed = end_writer(writer, matches!(&written, Err(CarFileError::Write(_))));
    finish(rt, file, written, flushed)
}

// Writes the ranges, then the CAR, and then the counts.
fn write_salvaged<W: Write>(
    rt: &HostRuntime,
    salvage: Salvage,
    target: Target<'_>,
    writer: &mut W,
) -> Result<Outcome, CarFileError> {
    let (mut salvage, is_json) = (salvage, target.is_json);
    salvage.search(is_json, writer)?;
    let written = write_output(rt, target.name, target.output, &salvage.car());
    if written != Outcome::Done {
        return Ok(written);
    }
    salvage.write_counts(is_json, writer)?;
    Ok(if salvage.is_whole() {
        Outcome::Done
    } else {
        Outcome::NotSo
    })
}
