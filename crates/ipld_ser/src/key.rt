//! The trait of the types whose values are written as the keys of a map.

ghost use Rattle.std.specs.Prelude.{◌≡◌, ℕ, List, Bool, true, Some, IfOk, IfErr, string_bytes, encode_utf8};
ghost use Rattle.std.specs.Cmp.Lexicographic.{slice_cmp};
ghost use Rattle.std.specs.Ordering.{nat_cmp};
ghost use Rattle.ipld_ser.specs.Keys.{key_in, any_text, one_char};
ghost use Rattle.ipld_ser.specs.Lemmas.KeyOrder.{same_order, char_order};

use crate::error::SerdeError;
use crate::serializer::string_of;
use std::alloc::Global;

/// A type whose values can be the keys of a map.
///
/// Its meaning is `text_of`: the string that a key is written as. `is_key` defines which strings
/// are keys. Keys are in the byte order of their strings, so an enum that derives its order lists
/// its variants in the order of their names.
pub trait SerializeKey: Ord {
    // the string that a key is written as
    ghost text_of: { Self → List ℕ };

    // whether a string is a key, which is true for the string of every key
    ghost is_key: { List ℕ → Bool };

    /// Returns the string that the key is written as.
    ///
    /// # Errors
    ///
    /// Only [`SerdeError::Memory`], if an allocation fails.
    fn to_text(&self, alloc: Global) -> Result<String, SerdeError>
        ensures ok { IfOk result (λ s. key_in is_key (text_of self.now) ≡ Some (string_bytes s)) }
        ensures own { is_key (text_of self.now) ≡ true }
        ensures err { IfErr result (λ e. e ≡ SerdeError.Memory) };

    // keys compare as their strings do
    ghost in_order: { (a b : Self) → Self.cmp a b ≡ slice_cmp nat_cmp (text_of a) (text_of b) };
}

/// The string of the key is a copy of the string itself.
impl SerializeKey for String {
    ghost text_of = { string_bytes };

    ghost is_key = { any_text };

    ghost in_order = { same_order string_bytes };

    #[inline(always)]
    fn to_text(&self, alloc: Global) -> Result<String, SerdeError> {
        string_of(alloc, self)
    }
}

/// The string of the key is a copy of the string itself.
impl<'a> SerializeKey for &'a str {
    ghost text_of = { λ s. s.now };

    ghost is_key = { any_text };

    ghost in_order = { same_order (λ (s : Self). s.now) };

    #[inline(always)]
    fn to_text(&self, alloc: Global) -> Result<String, SerdeError> {
        string_of(alloc, self)
    }
}

/// The string of the key is the one character.
impl SerializeKey for char {
    ghost text_of = { encode_utf8 };

    ghost is_key = { one_char };

    ghost in_order = { char_order };

    #[inline(always)]
    fn to_text(&self, alloc: Global) -> Result<String, SerdeError> {
        let mut text = String::new(alloc);
        text.push(*self)?;
        Ok(text)
    }
}
