//! The options for reading a block.

use ipld_tree::Limits;

/// The options for reading a block: the limits, and whether floats are read.
///
/// The default is for untrusted input: the limits of [`Limits::default`], and no floats.
///
/// ```rust
/// use dag_cbor::ReadOptions;
/// use ipld_tree::Limits;
///
/// fn small_blocks() -> ReadOptions {
///     ReadOptions {
///         limits: Limits { levels: 64, values: 100_000 },
///         floats: true,
///     }
/// }
/// ```
#[derive(Clone, Copy, Debug, PartialEq, Eq)]
pub struct ReadOptions {
    /// How deep the block may nest, and how many values it may have.
    pub limits: Limits,
    /// Whether floats of 64 bits are read. If they are, a float is a value that contains no others.
    /// If they are not, the first float is an error. Floats of 16 and 32 bits, NaN and the
    /// infinities are always errors, because DAG-CBOR does not have them.
    pub floats: bool,
}

impl Default for ReadOptions {
    ghost use Rattle.std.specs.Prelude.{◌≡◌, ◌^◌, ◌-◌, false};

    ghost is_default = { λ options. options ≡ record { limits = record { levels = 1024; values = 2 ^ 64 - 1 }; floats = false } };

    /// Returns options with at most 1,024 levels, any number of values, and no floats.
    fn default() -> Self {
        ReadOptions {
            limits: Limits::default(),
            floats: false,
        }
    }
}
