//! CAR files, and standard input, opened and read as far as needed.

use crate::bytes::{Bytes, BytesAt};
use crate::car_options::CarOptions;
use crate::complaints::{report_opening_error, report_unreadable};
use crate::messages::{Outcome, beginning_of};
use crate::progress::{Progress, ProgressLine};
use ipld_car::CarReader;
use std::fs::{self, File};
use std::io::{self, BufReader, IsTerminal, Read, StdinLock};

/// The number of bytes of a file that are read or written at a time.
pub const BUFFER: usize = 1 << 16;

/// An open file, or standard input.
#[derive(Drop)]
pub enum Input {
    /// Standard input.
    Standard(StdinLock<'static>),
    /// A file.
    File(File),
}

impl Input {
    /// Opens a file, or standard input if the name is `-`.
    pub fn open(rt: &HostRuntime, name: &str) -> io::Result<Input> {
        if name == "-" {
            Ok(Input::Standard(rt.reader()))
        } else {
            Ok(Input::File(fs::open(rt, name)?))
        }
    }

    // Returns the size in bytes, if that is known. Standard input and pipes have none.
    fn size(&self) -> Option<u64> {
        let Input::File(file) = self else {
            return None;
        };
        match file.metadata() {
            Ok(metadata) if metadata.is_file() => Some(metadata.len()),
            _ => None,
        }
    }
}

impl Read for Input {
    fn read(&mut self, buf: &mut [u8]) -> io::Result<usize> {
        match self {
            Input::Standard(reader) => reader.read(buf),
            Input::File(file) => file.read(buf),
        }
    }
}

/// The reader of a CAR.
pub type Car<'a> = CarReader<BufReader<Progress<'a, Input>>>;

/// An open CAR.
#[derive(Drop)]
pub struct OpenCar<'a> {
    /// The reader, after the header.
    pub car: Car<'a>,
    file: &'a str,
    options: CarOptions,
    shown: ProgressLine<'a>,
    is_shown: bool,
}

impl<'a> OpenCar<'a> {
    /// Prints how many bytes were read, if progress is shown.
    pub fn show_end(&self) {
        if self.is_shown {
            self.shown.write_line(self.car.offset());
        }
    }

    /// Reads what follows the last section, if zeros are allowed there. Reports the first byte that
    /// is not 0.
    pub fn check_padding(self, rt: &HostRuntime) -> Outcome {
        self.options.check_padding(rt, self.file, self.car)
    }
}

/// Opens a CAR in these bytes of a file. Reports the error if they can't be read or don't begin with
/// a CAR header.
pub fn open_car_bytes<'a>(
    rt: &HostRuntime,
    file: &str,
    bytes: &'a Bytes,
    options: CarOptions,
) -> Result<CarReader<BufReader<BytesAt<'a>>>, Outcome> {
    let reader = BytesAt::new(bytes, 0, u64::MAX);
    let mut reader = match BufReader::with_capacity(rt.alloc(), BUFFER, reader) {
        Ok(reader) => reader,
        Err(error) => return Err(report_unreadable(rt, file, &error)),
    };
    let beginning = beginning_of(rt.alloc(), &mut reader);
    match CarReader::new(rt.alloc(), reader, options.limit) {
        Ok(car) => Ok(options.apply(car)),
        Err(error) => Err(report_opening_error(rt, file, &beginning, &error)),
    }
}

/// Returns whether progress is shown although nobody asked for it: if standard error is a terminal.
pub fn shows_progress(rt: &HostRuntime) -> bool {
    rt.stderr().is_terminal()
}

/// Opens a CAR, and shows the progress of reading if `is_shown` is true. Reports the error if the
/// file can't be read or doesn't begin with a CAR header.
pub fn open_car<'a>(
    rt: &'a HostRuntime,
    file: &'a str,
    options: CarOptions,
    is_shown: bool,
) -> Result<OpenCar<'a>, Outcome> {
    let input = match Input::open(rt, file) {
        Ok(input) => input,
        Err(error) => return Err(report_unreadable(rt, file, &error)),
    };
    let shown = ProgressLine::new(rt, file, input.size(), is_shown);
    let mut reader = match BufReader::with_capacity(
        rt.alloc(),
        BUFFER,
        Progress::new(input, shown),
    ) {
        Ok(reader) => reader,
        Err(error) => return Err(report_unreadable(rt, file, &error)),
    };
    let beginning = beginning_of(rt.alloc(), &mut reader);
    match CarReader::new(rt.alloc(), reader, options.limit) {
        Ok(car) => Ok(OpenCar {
            car: options.apply(car),
            file,
            options,
            shown,
            is_shown,
        }),
        Err(error) => Err(report_opening_error(rt, file, &beginning, &error)),
    }
}
