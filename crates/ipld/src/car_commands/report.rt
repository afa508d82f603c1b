//! Commands that read a CAR once, and write a result on standard output.

use crate::arguments::car_options_of;
use car_files::CarFileError;
use clap::ArgMatches;
use ipld_cli::{
    BUFFER, Car, OpenCar, Outcome, end_writer, open_car, report_car_error, report_out_of_memory,
    writes_to_input,
};
use std::io::{self, BufWriter, Write};

/// A result about a CAR.
pub trait CarReport {
    /// Reads the CAR, writes the result, and returns how that ended.
    fn write<W: Write>(
        &self,
        rt: &HostRuntime,
        file: &str,
        car: &mut Car<'_>,
        writer: &mut W,
    ) -> Result<Outcome, CarFileError>;
}

/// Returns the outcome of these results of writing and of flushing.
pub(super) fn finish(
    rt: &HostRuntime,
    file: &str,
    written: Result<Outcome, CarFileError>,
    flushed: io::Result<()>,
) -> Outcome {
    let outcome = match written {
        Ok(outcome) => outcome,
        Err(error) => report_car_error(rt, file, &error),
    };
    match flushed {
        Ok(()) => outcome,
        Err(error) => outcome.worse(report_car_error(rt, file, &CarFileError::from(error))),
    }
}

// Reads an open CAR, and writes the result.
fn report_opened<C: CarReport>(
    rt: &HostRuntime,
    file: &str,
    opened: OpenCar<'_>,
    report: &C,
) -> Outcome {
    let mut opened = opened;
    let Ok(mut writer) = BufWriter::with_capacity(rt.alloc(), BUFFER, io::writer(rt)) else {
        return report_out_of_memory(rt, file);
    };
    let written = report.write(rt, file, &mut opened.car, &mut writer);
    let flushed = end_writer(writer, matches!(&written, Err(CarFileError::Write(_))));
    opened.show_end();
    let is_read = written.is_ok();
    let outcome = finish(rt, file, written, flushed);
    if is_read {
        outcome.worse(opened.check_padding(rt))
    } else {
        outcome
    }
}

/// Writes the result about the CAR that the arguments name.
pub fn run_report<C: CarReport>(rt: &HostRuntime, matches: &ArgMatches<'_>, report: &C) -> Outcome {
    let file = matches.get_str("file").unwrap_or("-");
    let options = match car_options_of(rt, matches) {
        Ok(options) => options,
        Err(outcome) => return outcome,
    };
    if writes_to_input(rt, &[file]) {
        return Outcome::Failed;
    }
    match open_car(rt, file, options, matches.get_flag("progress")) {
        Ok(opened) => report_opened(rt, file, opened, report),
        Err(outcome) => outcome,
    }
}
