//! The options for reading CARs, and the zeros after their sections.

use crate::complaints::{report, report_car_error, report_unreadable};
use crate::limits::MOST_SECTIONS;
use crate::messages::Outcome;
use car_files::CarFileError;
use ipld_car::{CarError, CarErrorKind, CarReader};
use std::io::{BufRead, ErrorKind, Read};

/// The options for reading a CAR.
#[derive(Clone, Copy, Debug, PartialEq, Eq)]
pub struct CarOptions {
    /// The most bytes that a section has after its length.
    pub limit: u64,
    /// Whether zeros may follow the last section.
    pub zero_padding: bool,
}

impl CarOptions {
    // Has a reader allow zeros after the last section if the options do.
    pub(crate) fn apply<R: BufRead>(self, car: CarReader<R>) -> CarReader<R> {
        let mut car = car;
        if self.zero_padding {
            car.allow_zero_padding();
        }
        car
    }

    /// Reads what follows the last section, up to the end of the payload, if zeros are allowed.
    /// Reports the first byte that is not 0, or that the file ends before the payload.
    pub fn check_padding<R: BufRead + Drop>(
        self,
        rt: &HostRuntime,
        file: &str,
        car: CarReader<R>,
    ) -> Outcome {
        if !self.zero_padding {
            return Outcome::Done;
        }
        let (start, begin, end) = (car.start(), car.offset(), car.end());
        let room = end.unwrap_or(u64::MAX).saturating_sub(begin);
        let mut reader = car.into_inner();
        let mut padding = reader.by_ref().take(room);
        let mut buffer = [0; PIECE];
        let mut at = begin;
        for _ in 0..MOST_SECTIONS {
            let count = match padding.read(&mut buffer) {
                Ok(0) => return report_short_payload(rt, file, start, at, end),
                Ok(count) => count,
                Err(error) if error.kind() == ErrorKind::Interrupted => continue,
                Err(error) => return report_unreadable(rt, file, &error),
            };
            let bytes = buffer.get(..count).unwrap_or(&[]);
            if let Some(place) = bytes.iter().position(|byte| *byte != 0) {
                let at = at.saturating_add(place as u64);
                let why = format_args!(
                    "byte {at} is not 0, but the zeros from byte {begin} on end the sections"
                );
                return report(rt, file, &why, Outcome::NotSo);
            }
            at = at.saturating_add(count as u64);
        }
        Outcome::Failed
    }
}

// Reports that a file ends at this byte if its payload, which begins at `start`, ends later.
fn report_short_payload(
    rt: &HostRuntime,
    file: &str,
    start: u64,
    at: u64,
    end: Option<u64>,
) -> Outcome {
    let Some(end) = end.filter(|end| *end > at) else {
        return Outcome::Done;
    };
    let kind = CarErrorKind::ShortPayload {
        expected: end.saturating_sub(start),
        found: at.saturating_sub(start),
    };
    let error = CarError {
        kind,
        section: at,
        offset: at,
    };
    report_car_error(rt, file, &CarFileError::Car(error))
}

// The number of bytes that are read at a time.
const PIECE: usize = 4096;
