//! Custom types that are the keys of maps.

// [begin: uses]
ghost use Rattle.std.specs.Prelude.{◌||◌, codes, refl, string_bytes};
ghost use Rattle.std.specs.Str.{bytes_eq};
ghost use Rattle.ipld_ser.specs.Keys.{any_text};
ghost use Rattle.ipld_ser.specs.Lemmas.KeyOrder.{same_order};

use ipld_de::DeserializeKey;
use ipld_ser::{SerdeError, SerializeKey};
use std::alloc::Global;
// [end: uses]

// [begin: colour]
/// A colour. The variants are in the order of their names.
#[derive(Clone, Copy, Debug, PartialEq, Eq, PartialOrd, Ord)]
pub enum Colour {
    /// Like the sky.
    Blue,
    /// Like grass.
    Green,
    /// Like blood.
    Red,
}

impl SerializeKey for Colour {
    ghost use Rattle.test_rows.specs.declared.own.keys.Colour.TheVariants.{Blue, Green, Red};

    ghost text_of = { elim [ Blue ↦ codes "Blue" | Green ↦ codes "Green" | Red ↦ codes "Red" ] };

    ghost is_key = { λ s. bytes_eq s (codes "Blue") || (bytes_eq s (codes "Green") || bytes_eq s (codes "Red")) };

    ghost in_order = { elim [
      | Blue ↦ elim [ Blue ↦ refl | Green ↦ refl | Red ↦ refl ]
      | Green ↦ elim [ Blue ↦ refl | Green ↦ refl | Red ↦ refl ]
      | Red ↦ elim [ Blue ↦ refl | Green ↦ refl | Red ↦ refl ]
    ] };

    fn to_text(&self, alloc: Global) -> Result<String, SerdeError> {
        let name = match self {
            Colour::Blue => "Blue",
            Colour::Green => "Green",
            Colour::Red => "Red",
        };
        Ok(String::from_str(alloc, name)?)
    }
}

impl DeserializeKey for Colour {
    fn from_text(_alloc: Global, text: String) -> Result<Colour, SerdeError> {
        match text.as_str() {
            "Blue" => Ok(Colour::Blue),
            "Green" => Ok(Colour::Green),
            "Red" => Ok(Colour::Red),
            _ => Err(SerdeError::custom("unknown variant")),
        }
    }
}
// [end: colour]

// [begin: town]
/// The name of a town.
#[derive(Debug, PartialEq, Eq, PartialOrd, Ord, Drop)]
pub struct Town(pub String);

impl SerializeKey for Town {
    ghost text_of = { λ t. string_bytes t.0 };

    ghost is_key = { any_text };

    ghost in_order = { same_order (λ (t : Self). string_bytes t.0) };

    fn to_text(&self, alloc: Global) -> Result<String, SerdeError> {
        self.0.to_text(alloc)
    }
}

impl DeserializeKey for Town {
    fn from_text(_alloc: Global, text: String) -> Result<Town, SerdeError> {
        Ok(Town(text))
    }
}
// [end: town]
