//! The permissions and the time of what is packed, and the version of its CIDs.

ghost use Rattle.std.specs.Prelude.{◌≡◌, ◌<◌};
ghost use Rattle.kombilad_c.specs.Pack.{has_field, attributes_in, asked_version};

use crate::node::{HAS_MODE, HAS_TIME, NodeRow};
use ipld_cid::Version;
use unixfs::UnixTime;
use unixfs_build::Attributes;

// Returns the version with this number.
pub(crate) fn version_of(number: u32) -> Option<Version>
    ensures { result ≡ asked_version number }
{
    match number {
        0 => Some(Version::V0),
        1 => Some(Version::V1),
        _ => None,
    }
}

// Returns whether a sum of fields has this one.
fn has_field(fields: u32, field: u32) -> bool
    requires { 0 < field }
    ensures { result ≡ has_field fields field }
{
    fields / field % 2 == 1
}

// Returns the permissions and the time of a row.
pub(crate) fn attributes_of(row: &NodeRow) -> Attributes
    ensures { result ≡ attributes_in row.now }
{
    let mode = if has_field(row.fields, HAS_MODE) {
        Some(row.mode)
    } else {
        None
    };
    let mtime = if has_field(row.fields, HAS_TIME) {
        Some(UnixTime {
            seconds: row.seconds,
            nanoseconds: row.nanoseconds,
        })
    } else {
        None
    };
    Attributes { mode, mtime }
}
