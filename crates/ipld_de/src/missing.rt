//! The value of a struct field whose name is missing.

ghost use Rattle.std.specs.Prelude.{◌≡◌, Option, Some, None, codes, IfOk, IfErr};
ghost use Rattle.ipld_de.specs.Reading.{IsCustom};

use crate::fields::sealed::Sealed;
use ipld_ser::SerdeError;

/// The result for a [`Field`](crate::Field) of a type `T` whose name is missing: an error for
/// [`Required`], and `None` for [`Optional`].
///
/// The trait is sealed: no other type can implement it.
pub trait IfMissing<T>: Sealed {
    // the value for a missing name, if there is one
    ghost missing: { Option T };

    /// Returns the value for a missing name. Does not allocate.
    ///
    /// # Errors
    ///
    /// `Custom("missing field")` if the name is required.
    fn if_missing() -> Result<T, SerdeError>
        ensures ok { IfOk result (λ v. missing ≡ Some v) }
        ensures err { IfErr result (λ _. missing ≡ None) }
        ensures why { IfErr result (IsCustom (codes "missing field")) };
}

/// The rule that a field's name is required.
pub enum Required {}

impl Sealed for Required {}

impl<T> IfMissing<T> for Required {
    ghost missing = { None };

    #[inline(always)]
    fn if_missing() -> Result<T, SerdeError> {
        Err(SerdeError::Custom("missing field"))
    }
}

/// The rule that a field's name may be missing. The field is then `None`.
pub enum Optional {}

impl Sealed for Optional {}

impl<T> IfMissing<Option<T>> for Optional {
    ghost missing = { Some None };

    #[inline(always)]
    fn if_missing() -> Result<Option<T>, SerdeError> {
        Ok(None)
    }
}
