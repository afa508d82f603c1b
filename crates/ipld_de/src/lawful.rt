//! The image law: typed values round-trip.

mod composites;
mod scalars;

ghost use Rattle.std.specs.Prelude.{◌≡◌, Some, IsSome, IfOk, IfErr};
ghost use Rattle.ipld_de.specs.Law.{RoundTrip};
ghost use Rattle.ipld_ser.specs.Image.{RejectsAs};
ghost use Rattle.ipld_ser.specs.declared.error.SerdeError.TheVariants as error;
ghost use Rattle.ipld_tree.specs.TreeOf.{tree_of};

use crate::deserialize::{Deserialize, from_ipld};
use ipld_ser::{SerdeError, Serialize, to_ipld};
use ipld_tree::Ipld;
use std::alloc::Global;

/// A type whose values round-trip. If a value has an image:
///
/// - The type reads that image.
/// - Every value that is read from the image has the same image.
/// - If the value is plain, the value that is read is the value itself, up to its contents.
///
/// A value is `plain` if no `Some` in it holds a value whose image is Null. `Some(None)` is written
/// like `None`, so it reads back as `None`.
///
/// Every type of this crate that is both written and read is lawful. The law of a type over other
/// types needs only the laws of its parts. A custom type states which values are plain, mostly
/// those whose parts are plain, and cites the law of its form.
///
/// The law does not have a function: it holds for every value, of all types at once.
/// [`write_and_read`] and [`read_written`] make use of it.
pub trait Lawful: Serialize + Deserialize {
    // True if no `Some` in the value holds a value whose image is Null (serde's data model writes
    // `None` and such a `Some` alike).
    ghost plain: { Self → Type 0 };

    // the round trip of every value
    ghost round_trip: { RoundTrip Self.image Self.contents Self.reads plain };
}

/// Returns the value after a round trip: writes it as its image, and reads the image.
///
/// The value that is read has the image of `value`. If `value` is plain, the value that is read is
/// `value` itself, up to its contents.
///
/// # Errors
///
/// [`SerdeError::Memory`] if an allocation fails. Returns any other error only if the value does
/// not have an image.
#[inline(always)]
pub fn write_and_read<T: Lawful>(alloc: Global, value: &T) -> Result<T, SerdeError>
    ensures written { IfOk result (λ _. IsSome (T.image value.now)) }
    ensures same_image { IfOk result (λ w. T.image w ≡ T.image value.now) }
    ensures same { T.plain value.now → IfOk result (λ w. T.contents w ≡ T.contents value.now) }
    ensures err { IfErr result (λ e. RejectsAs (T.image value.now) (T.write_error value.now) e) }
{
    let image = to_ipld(alloc, value)?;
    from_ipld(alloc, image)
}

/// Reads a tree that a value of the type was written as. The tree is consumed.
///
/// If some value has the tree as its image, the value that is read has the same image. If that
/// value is plain, the value that is read is that value itself, up to its contents. For any other
/// tree, the result is the type's reading of it.
///
/// # Errors
///
/// [`SerdeError::Memory`] if an allocation fails. Returns any other error only if the type does not
/// read the tree, which is then not the image of any value.
#[inline(always)]
pub fn read_written<T: Lawful>(alloc: Global, tree: Ipld) -> Result<T, SerdeError>
    ensures ok { IfOk result (λ w. T.reads (tree_of tree) ≡ Some (T.contents w)) }
    ensures err { IfErr result (λ e. RejectsAs (T.reads (tree_of tree))
        (T.read_error (tree_of tree)) e) }
    ensures same_image { (v : T) → T.image v ≡ Some (tree_of tree)
        → IfOk result (λ w. T.image w ≡ Some (tree_of tree)) }
    ensures same { (v : T) → T.image v ≡ Some (tree_of tree) → T.plain v
        → IfOk result (λ w. T.contents w ≡ T.contents v) }
    ensures memory_alone { (v : T) → T.image v ≡ Some (tree_of tree)
        → IfErr result (λ e. e ≡ error.Memory) }
{
    from_ipld(alloc, tree)
}
