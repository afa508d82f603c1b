//! A CAR searched for the blocks that it lacks.

use car_files::find_missing;
use ipld_car::{CarReader, DEFAULT_LIMIT};
use std::alloc::Global;
use std::hash::RandomState;
use std::io;
use std::random::RandomSource;

/// The keys of the hash, the same in each run, so that each takes as many instructions.
struct SameKeys;

impl RandomSource for SameKeys {
    fn fill_bytes(&self, bytes: &mut [u8]) -> io::Result<()> {
        bytes.fill(42);
        Ok(())
    }
}

fn missing_in(alloc: Global, car: &[u8]) -> Option<usize> {
    let hasher = RandomState::new(&SameKeys).ok()?;
    let mut reader = CarReader::new(alloc, car, DEFAULT_LIMIT).ok()?;
    let mut errors = Vec::new(alloc);
    let found = find_missing(alloc, hasher, &mut reader, "", &mut errors).ok()?;
    Some(found.missing.len())
}

/// Finds the links of the blocks of the CAR whose block it lacks.
#[unsafe(no_mangle)]
pub extern "C" fn bench_missing_in_car(alloc: Global, car: &[u8], times: u64) -> u64 {
    let mut sum: u64 = 0;
    for _ in 0..times {
        if let Some(missing) = missing_in(alloc, car) {
            sum = sum.wrapping_add(missing as u64);
        }
    }
    sum
}
