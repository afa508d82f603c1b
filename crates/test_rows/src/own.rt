//! Custom types: how each is written, how it is read, and that it round-trips.

pub mod described;
pub mod described_forms;
pub mod keys;
pub mod linked;
pub mod measurement;
