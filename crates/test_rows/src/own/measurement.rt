//! A custom type: how it is written, how it is read, and that it round-trips.

// [begin: uses]
ghost use Rattle.std.specs.Prelude.{⊤, ◌∷◌, [], ℕ, ℤ, List, Option, Some, option_map, refl, codes, string_bytes};
ghost use Rattle.ipld_de.specs.Composites.{option_reading};
ghost use Rattle.ipld_de.specs.Fields.{field_named, and_fields, struct_reading};
ghost use Rattle.ipld_de.specs.Law.{OptionPlain};
ghost use Rattle.ipld_de.specs.Lemmas.LawOf.{plainly, option_round_trip, signed_round_trip, text_round_trip};
ghost use Rattle.ipld_de.specs.Scalars.{signed_reading};
ghost use Rattle.ipld_de.specs.Lemmas.StructLaw.{one_field, more_fields, struct_round_trip};
ghost use Rattle.ipld_ser.specs.Composites.{struct_image, option_image};
ghost use Rattle.ipld_ser.specs.Scalars.{signed_image};
ghost use Rattle.ipld_tree.specs.Convert.{text_in};
ghost use Rattle.ipld_tree.specs.Tree.{text};

use ipld_de::{Deserialize, Field, Lawful, read_struct};
use ipld_ser::{SerdeError, Serialize, Serializer};
use ipld_tree::Ipld;
use std::alloc::Global;
// [end: uses]

// [begin: measurement]
/// A measurement at a place.
#[derive(Debug, PartialEq, Eq, Drop)]
pub struct Measurement {
    /// The place.
    pub place: String,
    /// The temperature, in whole degrees.
    pub degrees: i32,
    /// Other observations.
    pub note: Option<String>,
}
// [end: measurement]

// [begin: write]
/// A Map of the three fields.
impl Serialize for Measurement {
    ghost image = { λ m. struct_image (
        (codes "place", Some (text (string_bytes m.place)))
        ∷ (codes "degrees", signed_image 32 m.degrees)
        ∷ (codes "note", option_image (λ s. Some (text (string_bytes s))) m.note) ∷ []) };

    fn serialize(&self, alloc: Global, serializer: Serializer) -> Result<Ipld, SerdeError> {
        let mut map = serializer.serialize_struct(alloc, "Measurement", 3)?;
        map.serialize_field("place", &self.place)?;
        map.serialize_field("degrees", &self.degrees)?;
        map.serialize_field("note", &self.note)?;
        map.end()
    }
}
// [end: write]

// [begin: read]
type MeasurementFields = (Field<String>, (Field<i32>, Field<Option<String>>));

/// A Map of the three fields. Other names are ignored.
impl Deserialize for Measurement {
    ghost Contents = { List ℕ × (ℤ × Option (List ℕ)) };

    ghost contents = { λ m. (string_bytes m.place, (m.degrees, option_map string_bytes m.note)) };

    ghost reads = { struct_reading
        (and_fields (field_named (codes "place") text_in)
        (and_fields (field_named (codes "degrees") (signed_reading 32))
        (field_named (codes "note") (option_reading text_in)))) };

    fn deserialize(alloc: Global, value: Ipld) -> Result<Measurement, SerdeError> {
        let (place, (degrees, note)) = read_struct::<MeasurementFields>(
            alloc,
            value,
            "Measurement",
            &["place", "degrees", "note"],
        )?;
        Ok(Measurement {
            place,
            degrees,
            note,
        })
    }
}
// [end: read]

// [begin: law]
/// Plain if the note is.
impl Lawful for Measurement {
    ghost plain = { λ m. OptionPlain (λ s. Some (text (string_bytes s))) (λ _. ⊤) m.note };

    ghost round_trip = { plainly (λ (m : Self). OptionPlain (λ s. Some (text (string_bytes s))) (λ _. ⊤) m.note) (λ _ note. (tt, (tt, note))) (struct_round_trip
        (more_fields (codes "place") (λ (m : Self). m.place) (text_round_trip string_bytes)
        (more_fields (codes "degrees") (λ (m : Self). m.degrees) (signed_round_trip 32)
        (one_field (codes "note") (λ (m : Self). m.note) (option_round_trip (text_round_trip string_bytes)))))
        (λ _. refl)) };
}
// [end: law]
