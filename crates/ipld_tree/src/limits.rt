//! Limits on a tree that is read.

ghost use Rattle.std.specs.Prelude.{◌≡◌, ◌^◌, ◌-◌};

/// Limits on the nesting and on the number of values of a tree that is read from untrusted input.
///
/// A byte of a block can become more than a hundred bytes of a tree. Code that recurses over the
/// tree uses a part of the call stack for every level of nesting.
#[derive(Clone, Copy, Debug, PartialEq, Eq)]
pub struct Limits {
    /// The maximum nesting of lists and maps: 0 without lists and maps, 1 for a list or a map of
    /// other values, and so on.
    pub levels: usize,
    /// The maximum number of values in the tree: the tree itself, every item of a list, and every
    /// value of a map in it.
    pub values: usize,
}

impl Default for Limits {
    ghost is_default = { λ limits. limits ≡ record { levels = 1024; values = 2 ^ 64 - 1 } };

    /// Returns limits of 1,024 levels and `usize::MAX` values, so the number of values has no
    /// bound.
    fn default() -> Self {
        Limits {
            levels: 1024,
            values: usize::MAX,
        }
    }
}
