//! The versions of a CAR.

/// The version of a CAR.
#[derive(Clone, Copy, Debug, PartialEq, Eq)]
pub enum CarVersion {
    /// A header, and the sections after it (CARv1).
    V1,
    /// A CAR of version 1 (the payload) between a header of its own and an index (CARv2).
    V2,
}
