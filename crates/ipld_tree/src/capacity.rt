//! The capacity that a list reserves.

ghost use Rattle.std.specs.Prelude.{◌≡◌};
ghost use Rattle.ipld_tree.specs.Capacity.{capacity_for};

// The most values that a length hint reserves.
const MAX_CAPACITY: usize = 4096;

/// Returns the capacity that a new list reserves: the length hint, at most 4,096 values, or 0
/// without a hint.
///
/// A hint is a claim of the source. The limit keeps an invalid hint from reserving more memory than
/// 4,096 values take.
pub fn list_capacity(hint: Option<usize>) -> usize
    ensures { result ≡ capacity_for hint }
{
    hint.unwrap_or(0).min(MAX_CAPACITY)
}
