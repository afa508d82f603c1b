//! The trait of the types whose values are read from the keys of a map.

ghost use Rattle.std.specs.Prelude.{◌≡◌, ⊤, ℕ, List, Some, Ok, IfOk, IfErr, encode_utf8, string_bytes};
ghost use Rattle.ipld_de.specs.Scalars.{NotOneCharacter};
ghost use Rattle.ipld_ser.specs.Image.{RejectsAs, NoError};
ghost use Rattle.ipld_ser.specs.Keys.{key_in, one_char};
ghost use Rattle.ipld_ser.specs.declared.error.SerdeError as error;

use crate::deserializer::single_char;
use ipld_ser::{SerdeError, SerializeKey};
use std::alloc::Global;

/// A type whose values are read from the keys of a map. A string that is a key is read as the value
/// that is written as that string.
pub trait DeserializeKey: SerializeKey + Sized + Drop {
    // the error for a string that is not a key; by default any
    ghost key_error: { List ℕ → error.SerdeError → Type 0 } = { λ _ _. ⊤ };

    /// Returns the key that is written as the string, which is consumed.
    ///
    /// # Errors
    ///
    /// [`SerdeError::Memory`] if an allocation fails. Returns any other error, the type's
    /// `key_error`, only if the string is not a key.
    fn from_text(alloc: Global, text: String) -> Result<Self, SerdeError>
        ensures ok { IfOk result (λ k. key_in Self.is_key (string_bytes text) ≡ Some
            (Self.text_of k)) }
        ensures err { IfErr result (λ e. RejectsAs (key_in Self.is_key (string_bytes text))
            (key_error (string_bytes text)) e) };
}

/// The string itself.
impl DeserializeKey for String {
    ghost key_error = { NoError };

    #[inline(always)]
    fn from_text(_alloc: Global, text: String) -> Result<String, SerdeError>
        ensures exact { result ≡ Ok text }
    {
        Ok(text)
    }
}

/// The only character, or [`SerdeError::NotOneChar`] if the string does not have exactly one.
impl DeserializeKey for char {
    ghost key_error = { NotOneCharacter };

    fn from_text(_alloc: Global, text: String) -> Result<char, SerdeError>
        ensures ok { IfOk result (λ k. key_in one_char (string_bytes text) ≡ Some (encode_utf8 k)) }
        ensures err { IfErr result (λ e. RejectsAs (key_in one_char (string_bytes text))
            (NotOneCharacter (string_bytes text)) e) }
        ensures no_memory { IfErr result (λ e. NotOneCharacter (string_bytes text) e) }
    {
        single_char(text.as_str())
    }
}
