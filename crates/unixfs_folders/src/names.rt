//! The names of entries, and the slots with which the names of links in a shard begin.

ghost use Rattle.std.specs.Prelude.{◌≡◌, ◌<◌, ◌==◌, ◌||◌, Some, None, IfSome, MatchOption};
ghost use Rattle.std.specs.List.{list_any};
ghost use Rattle.unixfs_folders.specs.Names.{is_reserved, is_entry_name, comes_before, digit_value, digits_value, slot_in, after_digits};

use std::cmp::Ordering;

// Returns whether a file system has a meaning of its own for the name.
#[tactic(auto, unfolding(crate::specs::Names::is_reserved))]
fn is_reserved(name: &str) -> bool
    ensures { result ≡ is_reserved name.now }
{
    name == "" || (name == "." || name == "..")
}

/// Returns whether this may be the name of an entry: it is not empty, `.` or `..`, and has no `/`
/// and no NUL. Does not allocate.
#[tactic(auto, unfolding(crate::specs::Names::is_entry_name))]
pub fn is_entry_name(name: &str) -> bool
    ensures { result ≡ is_entry_name name.now }
{
    !is_reserved(name) && !has_separator(name.as_bytes())
}

// Returns whether the name is less than the other, byte by byte.
#[tactic(auto, unfolding(crate::specs::Names::comes_before))]
pub(crate) fn comes_before(name: &str, other: &str) -> bool
    ensures { result ≡ comes_before name.now other.now }
{
    name.as_bytes().cmp(other.as_bytes()) == Ordering::Less
}

// Returns the number of an upper-case hexadecimal digit.
#[tactic(auto, unfolding(crate::specs::Names::digit_value))]
fn digit_value(byte: u8) -> Option<u8>
    ensures value { result ≡ digit_value byte }
    ensures small { IfSome result (λ n. n < 16) }
    ensures ascii { IfSome result (λ _. byte < 128) }
{
    match byte {
        b'0'..=b'9' => Some(byte - b'0'),
        b'A'..=b'F' => Some(byte - b'A' + 10),
        _ => None,
    }
}

// Returns whether the name has a byte that separates or ends names.
fn has_separator(name: &[u8]) -> bool
    ensures { result ≡ list_any (λ b. b == 47 || b == 0) name.now }
{
    name.iter().any(|byte| *byte == b'/' || *byte == 0)
}

// Returns the number of two upper-case hexadecimal digits.
#[tactic(auto, unfolding(crate::specs::Names::digits_value))]
fn digits_value(high: u8, low: u8) -> Option<u8>
    ensures value { result ≡ digits_value high low }
    ensures ascii { IfSome result (λ _. low < 128) }
{
    let high = digit_value(high)?;
    let low = digit_value(low)?;
    Some(16 * high + low)
}

// Returns the slot with which the name of a link begins, and the rest of the name.
#[tactic(auto, unfolding(crate::specs::Names::slot_in))]
pub(crate) fn split_slot(name: &str) -> Option<(u8, &str)>
    ensures { MatchOption result (slot_in name.now ≡ None)
        (λ found. (slot_in name.now ≡ Some found.0) × (found.1.now ≡ after_digits name.now)) }
{
    let [high, low, ..] = name.as_bytes() else {
        return None;
    };
    let slot = digits_value(*high, *low)?;
    let (_, rest) = name.split_at_checked(2)?;
    Some((slot, rest))
}
