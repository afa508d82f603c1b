//! The command that verifies the digests and the index of a CAR.

use crate::car_commands::report::{CarReport, run_report};
use car_files::{CarFileError, SectionPlaces, VerdictForm, write_verified};
use clap::ArgMatches;
use ipld_cli::{Car, Outcome, UncheckedIndex, UntilClosed};
use std::io::Write;

// The blocks that are not known to match their CIDs, and the errors of the index.
#[derive(Clone, Copy)]
struct Verify {
    // Whether blocks with other hash functions don't count.
    only_known: bool,
    form: VerdictForm,
}

impl CarReport for Verify {
    fn write<W: Write>(
        &self,
        rt: &HostRuntime,
        file: &str,
        car: &mut Car<'_>,
        writer: &mut W,
    ) -> Result<Outcome, CarFileError> {
        let index = match UncheckedIndex::of_file(rt, file) {
            Ok(index) => index,
            Err(outcome) => return Ok(outcome),
        };
        let mut writer = UntilClosed::new(writer);
        // Only the places of the sections are compared with the index.
        let mut places = SectionPlaces::new(rt.alloc(), index.is_some());
        let verified = write_verified(rt.alloc(), car, self.form, &mut places, &mut writer)?;
        let is_open = verified.unknown > 0 && !self.only_known;
        let outcome = if verified.wrong > 0 || is_open {
            Outcome::NotSo
        } else {
            Outcome::Done
        };
        match index {
            Some(index) => {
                let indexed = index.check(rt, self.form, places.places, &mut writer)?;
                Ok(outcome.worse(indexed))
            }
            None => Ok(outcome),
        }
    }
}

/// Runs `ipld car verify`.
pub fn run_verify(rt: &HostRuntime, matches: &ArgMatches<'_>) -> Outcome {
    let form = if matches.get_flag("json") {
        VerdictForm::Object
    } else {
        VerdictForm::Line
    };
    let only_known = matches.get_flag("known");
    run_report(rt, matches, &Verify { only_known, form })
}
