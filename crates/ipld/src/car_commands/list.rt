//! The commands that list what a CAR has: its blocks, its roots, its links, or a summary.

use crate::car_commands::report::{CarReport, run_report};
use car_files::{CarFileError, Form, write_list};
use clap::ArgMatches;
use ipld_block::write_links;
use ipld_cid::Cid;
use ipld_cli::{Car, Complaints, Outcome, Summary, hasher_of, json_lines, report};
use std::io::{ErrorKind, Write};

// The blocks of a CAR or their links, in one of the forms of a list.
#[derive(Clone, Copy)]
struct List {
    form: Form,
}

// Warns that a CAR has no roots. Its specification requires one or more.
fn warn_of_roots(rt: &HostRuntime, file: &str, roots: &[Cid]) {
    if roots.is_empty() {
        let why = "warning: the CAR has no roots, and CARv1 requires at least one";
        report(rt, file, &why, Outcome::Done);
    }
}

impl CarReport for List {
    fn write<W: Write>(
        &self,
        rt: &HostRuntime,
        file: &str,
        car: &mut Car<'_>,
        writer: &mut W,
    ) -> Result<Outcome, CarFileError> {
        warn_of_roots(rt, file, car.roots());
        let label = format!(in rt.alloc(); "{file}: ")?;
        let mut complaints = Complaints::new(rt);
        match write_list(rt.alloc(), car, self.form, &label, writer, &mut complaints) {
            Ok(listed) if listed.invalid == 0 => Ok(Outcome::Done),
            Ok(_) => Ok(Outcome::NotSo),
            // Nobody reads the rest, but an error was found all the same.
            Err(CarFileError::Write(ErrorKind::BrokenPipe)) if complaints.any() => {
                Ok(Outcome::NotSo)
            }
            Err(error) => Err(error),
        }
    }
}

// The roots of a CAR.
#[derive(Clone, Copy)]
struct Roots {
    json: bool,
}

impl CarReport for Roots {
    fn write<W: Write>(
        &self,
        rt: &HostRuntime,
        _file: &str,
        car: &mut Car<'_>,
        writer: &mut W,
    ) -> Result<Outcome, CarFileError> {
        if self.json {
            json_lines::write_cids(rt.alloc(), "root", car.roots(), writer)?;
        } else {
            write_links(rt.alloc(), car.roots(), writer)?;
        }
        Ok(Outcome::Done)
    }
}

// The summary of a CAR.
#[derive(Clone, Copy)]
struct Inspect {
    json: bool,
}

impl CarReport for Inspect {
    fn write<W: Write>(
        &self,
        rt: &HostRuntime,
        file: &str,
        car: &mut Car<'_>,
        writer: &mut W,
    ) -> Result<Outcome, CarFileError> {
        let hasher = match hasher_of(rt) {
            Ok(hasher) => hasher,
            Err(outcome) => return Ok(outcome),
        };
        let summary = Summary::of_car(rt, hasher, file, car)?;
        if self.json {
            summary.write_object(rt.alloc(), writer)?;
        } else {
            summary.write_lines(rt.alloc(), writer)?;
        }
        Ok(summary.outcome())
    }
}

/// Runs `ipld car list`.
pub fn run_list(rt: &HostRuntime, matches: &ArgMatches<'_>) -> Outcome {
    let form = if matches.get_flag("json") {
        Form::Json
    } else {
        Form::Blocks
    };
    run_report(rt, matches, &List { form })
}

/// Runs `ipld car links`.
pub fn run_links(rt: &HostRuntime, matches: &ArgMatches<'_>) -> Outcome {
    run_report(rt, matches, &List { form: Form::Links })
}

/// Runs `ipld car graph`.
pub fn run_graph(rt: &HostRuntime, matches: &ArgMatches<'_>) -> Outcome {
    run_report(rt, matches, &List { form: Form::Dot })
}

/// Runs `ipld car roots`.
pub fn run_roots(rt: &HostRuntime, matches: &ArgMatches<'_>) -> Outcome {
    let json = matches.get_flag("json");
    run_report(rt, matches, &Roots { json })
}

/// Runs `ipld car inspect`.
pub fn run_inspect(rt: &HostRuntime, matches: &ArgMatches<'_>) -> Outcome {
    let json = matches.get_flag("json");
    run_report(rt, matches, &Inspect { json })
}
