//! Limits of loops over input.

/// The most sections that a file can have, and the most steps that lead through one: the bytes of a
/// file are counted in 64 bits. A loop over sections takes at most this many turns, so it ends even
/// if a reader never does. What follows its last turn is an error.
pub const MOST_SECTIONS: u64 = u64::MAX;
