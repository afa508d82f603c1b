//! The trait of the types that explain why a tree isn't read.

ghost use Rattle.std.specs.Prelude.{◌≡◌, option_map, IfOk, IfSome};
ghost use Rattle.ipld_tree.specs.Tree.{Tree};
ghost use Rattle.ipld_tree.specs.TreeOf.{tree_of};
ghost use Rattle.ipld_explain.specs.Failures.{Failure, failure_of, FailsHere, Explains};

use crate::explanation::{Expected, Explanation};
use ipld_de::Deserialize;
use ipld_ser::SerdeError;
use ipld_tree::Ipld;
use std::alloc::{AllocError, Global};

/// A type that explains where and why it doesn't read a tree.
pub trait Explain: Deserialize {
    // True if this failure is the place and the reason for which the type doesn't read a tree. For
    // a value that is read as a whole, it is the value itself. For a composite type, it is the
    // first part that is not read. Each type defines it.
    ghost fails: { Tree → Failure → Type 0 };

    /// Explains where and why the type doesn't read the tree. Returns `None` if and only if it
    /// reads the tree. The tree is consumed.
    ///
    /// The error is the one with which [`from_ipld`](ipld_de::from_ipld) rejects the tree, unless
    /// an allocation fails there.
    ///
    /// It reads the tree once more. It allocates for this reading and for the path.
    ///
    /// # Errors
    ///
    /// `AllocError` if an allocation fails.
    fn explain(alloc: Global, value: Ipld) -> Result<Option<Explanation>, AllocError>
        ensures why { IfOk result (λ found. Explains Self.reads fails (tree_of value)
            (option_map failure_of found)) }
        ensures error { IfOk result (λ found. IfSome found (λ explanation.
            Self.read_error (tree_of value) explanation.error)) };
}

/// Explains a value that is read as a whole. If the type doesn't read it, the value itself is at
/// fault.
///
/// Use it for the `explain` of a custom type if its parts are not to be distinguished.
///
/// # Errors
///
/// `AllocError` if an allocation fails.
pub fn explain_whole<T: Deserialize>(
    alloc: Global,
    value: Ipld,
    expected: Expected,
) -> Result<Option<Explanation>, AllocError>
    ensures why { IfOk result (λ found. Explains T.reads (λ t. FailsHere expected (T.read_error t))
        (tree_of value) (option_map failure_of found)) }
    ensures error { IfOk result (λ found. IfSome found (λ explanation.
        T.read_error (tree_of value) explanation.error)) }
{
    let found = value.kind();
    match T::deserialize(alloc, value) {
        Ok(value) => {
            value.discard();
            Ok(None)
        }
        Err(SerdeError::Memory) => Err(AllocError),
        Err(error) => Ok(Some(Explanation::at_value(alloc, found, expected, error))),
    }
}
