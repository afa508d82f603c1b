//! Custom types that describe their fields and their variants once.

// [begin: uses]
ghost use Rattle.std.specs.Prelude.{[], ◌∷◌, codes};
ghost use Rattle.ipld_de.specs.Described.{inl, inr, refl, structure, field, optional, enumeration, holds, has_fields, named, string, u32, i64, vec, btree_map, cid, pair};

use ipld_cid::Cid;
use ipld_de::{
    Described, Deserialize, Deserializer, Lawful, deserialize_struct, deserialize_variant,
    serialize_struct, serialize_variant,
};
use ipld_ser::{SerdeError, Serialize, Serializer};
use ipld_tree::Ipld;
use std::alloc::Global;
use std::collections::BTreeMap;
// [end: uses]

// [begin: trip]
/// A trip.
#[derive(Debug, PartialEq, Eq, Drop)]
pub struct Trip {
    /// The name of the trip.
    pub title: String,
    /// The number of days that it takes.
    pub days: u32,
    /// The places on the way.
    pub stops: Vec<String>,
    /// The block of a photo.
    pub photo: Option<Cid>,
    /// The expenses, by purpose.
    pub costs: BTreeMap<String, i64>,
}
// [end: trip]

// [begin: struct]
impl Described for Trip {
    ghost known = { structure (field (codes "title") (λ t. t.title) string
        ∷ field (codes "days") (λ t. t.days) u32
        ∷ field (codes "stops") (λ t. t.stops) (vec string)
        ∷ optional (codes "photo") (λ t. t.photo) cid
        ∷ field (codes "costs") (λ t. t.costs) (btree_map i64) ∷ []) (λ _. refl) };
}

impl Serialize for Trip {
    ghost image = { ⟦<Trip as Described>⟧.known.image };

    ghost write_error = { ⟦<Trip as Described>⟧.known.write_error };

    fn serialize(&self, alloc: Global, serializer: Serializer) -> Result<Ipld, SerdeError> {
        serialize_struct!(alloc, serializer, self => Trip { title, days, stops, photo, costs })
    }
}

impl Deserialize for Trip {
    ghost Contents = { ⟦<Trip as Described>⟧.known.Contents };

    ghost contents = { ⟦<Trip as Described>⟧.known.contents };

    ghost reads = { ⟦<Trip as Described>⟧.known.reads };

    ghost read_error = { ⟦<Trip as Described>⟧.known.read_error };

    fn deserialize(alloc: Global, value: Ipld) -> Result<Trip, SerdeError> {
        deserialize_struct!(alloc, value => Trip { title, days, stops, photo: optional, costs })
    }
}

impl Lawful for Trip {
    ghost plain = { ⟦<Trip as Described>⟧.known.plain };

    ghost round_trip = { ⟦<Trip as Described>⟧.known.law };
}
// [end: struct]

// [begin: shape]
/// A shape.
#[derive(Debug, PartialEq, Eq, Drop)]
pub enum Shape {
    /// Two radii.
    Ellipse(i64, i64),
    /// Two sides.
    Rectangle {
        /// From left to right.
        width: i64,
        /// From bottom to top.
        height: i64,
    },
    /// Two ends.
    Segment {
        /// The beginning.
        from: i64,
        /// The end.
        to: i64,
    },
}
// [end: shape]

// [begin: enum]
impl Described for Shape {
    ghost use Rattle.test_rows.specs.declared.own.described.Shape.TheVariants.{Ellipse, Rectangle, Segment};

    ghost known = { enumeration (holds (codes "Ellipse") (pair i64 i64)
        ∷ has_fields (codes "Rectangle") (named (codes "width") i64 ∷ named (codes "height") i64 ∷ []) (λ _. refl)
        ∷ has_fields (codes "Segment") (named (codes "from") i64 ∷ named (codes "to") i64 ∷ []) (λ _. refl) ∷ [])
        (elim [ Ellipse a b ↦ inl (a, b) | Rectangle w h ↦ inr (inl (w, h)) | Segment f t ↦ inr (inr (inl (f, t))) ]) refl };
}

impl Serialize for Shape {
    ghost image = { ⟦<Shape as Described>⟧.known.image };

    ghost write_error = { ⟦<Shape as Described>⟧.known.write_error };

    fn serialize(&self, alloc: Global, serializer: Serializer) -> Result<Ipld, SerdeError> {
        match self {
            Shape::Ellipse(a, b) => {
                serializer.serialize_newtype_variant(alloc, "Shape", 0, "Ellipse", &(*a, *b))
            }
            Shape::Rectangle { width, height } => {
                serialize_variant!(alloc, serializer => Rectangle { width, height })
            }
            Shape::Segment { from, to } => {
                serialize_variant!(alloc, serializer => Segment { from, to })
            }
        }
    }
}

impl Deserialize for Shape {
    ghost Contents = { ⟦<Shape as Described>⟧.known.Contents };

    ghost contents = { ⟦<Shape as Described>⟧.known.contents };

    ghost reads = { ⟦<Shape as Described>⟧.known.reads };

    ghost read_error = { ⟦<Shape as Described>⟧.known.read_error };

    fn deserialize(alloc: Global, value: Ipld) -> Result<Shape, SerdeError> {
        let names = ["Ellipse", "Rectangle", "Segment"];
        let (index, content) = value
            .deserialize_enum("Shape", &names)?
            .variant_among(&names)?;
        match index {
            0 => {
                let (a, b) = content.newtype_variant(alloc)?;
                Ok(Shape::Ellipse(a, b))
            }
            1 => deserialize_variant!(alloc, content => Shape::Rectangle { width, height }),
            _ => deserialize_variant!(alloc, content => Shape::Segment { from, to }),
        }
    }
}

impl Lawful for Shape {
    ghost plain = { ⟦<Shape as Described>⟧.known.plain };

    ghost round_trip = { ⟦<Shape as Described>⟧.known.law };
}
// [end: enum]
