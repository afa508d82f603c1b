//! The hasher of tables of CIDs.

use crate::complaints::complain;
use crate::messages::Outcome;
use std::hash::RandomState;

/// Creates a hasher with random bytes from the system, so that nobody can choose CIDs for a file
/// that all fall into one slot of a table. Reports an error if the system returns no random bytes.
pub fn hasher_of(rt: &HostRuntime) -> Result<RandomState, Outcome> {
    match RandomState::new(rt) {
        Ok(hasher) => Ok(hasher),
        Err(error) => {
            complain(rt, &format_args!("no random bytes: {error}"));
            Err(Outcome::Failed)
        }
    }
}
