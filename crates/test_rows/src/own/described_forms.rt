//! Types of each form that describe once how they are written and read: an enum with variants of
//! each kind, a newtype and a tuple struct.

ghost use Rattle.std.specs.Prelude.{[], ◌∷◌, codes};
ghost use Rattle.ipld_de.specs.Described.{inl, inr, refl, structure, field, optional, around, enumeration, unit, holds, has_fields, named, named_optional, string, byte_buf, bool, u32, i64, pair, triple};

use ipld_de::{
    Described, Deserialize, Deserializer, Lawful, deserialize_struct, deserialize_variant,
    from_ipld, serialize_struct, serialize_variant,
};
use ipld_ser::{ByteBuf, SerdeError, Serialize, Serializer};
use ipld_tree::Ipld;
use std::alloc::Global;

// [begin: event]
/// An event on a trip.
#[derive(Debug, PartialEq, Eq, Drop)]
pub enum Event {
    /// It began.
    Started,
    /// A remark.
    Said(String),
    /// A number of people were met, or nobody was.
    Met(i64, bool),
    /// A way was taken.
    Moved {
        /// The place where it began.
        from: i64,
        /// The place where it ended.
        to: i64,
        /// The means of travel.
        by: String,
    },
}

impl Described for Event {
    ghost use Rattle.test_rows.specs.declared.own.described_forms.Event.TheVariants.{Started, Said, Met, Moved};

    ghost known = { enumeration (unit (codes "Started")
        ∷ holds (codes "Said") string
        ∷ holds (codes "Met") (pair i64 bool)
        ∷ has_fields (codes "Moved") (named (codes "from") i64 ∷ named (codes "to") i64 ∷ named (codes "by") string ∷ []) (λ _. refl) ∷ [])
        (elim [ Started ↦ inl tt | Said s ↦ inr (inl s) | Met n a ↦ inr (inr (inl (n, a))) | Moved f t b ↦ inr (inr (inr (inl (f, (t, b))))) ]) refl };
}

impl Serialize for Event {
    ghost image = { ⟦<Event as Described>⟧.known.image };

    ghost write_error = { ⟦<Event as Described>⟧.known.write_error };

    fn serialize(&self, alloc: Global, serializer: Serializer) -> Result<Ipld, SerdeError> {
        match self {
            Event::Started => serializer.serialize_unit_variant(alloc, "Event", 0, "Started"),
            Event::Said(text) => {
                serializer.serialize_newtype_variant(alloc, "Event", 1, "Said", text)
            }
            Event::Met(count, alone) => {
                serializer.serialize_newtype_variant(alloc, "Event", 2, "Met", &(*count, *alone))
            }
            Event::Moved { from, to, by } => {
                serialize_variant!(alloc, serializer => Moved { from, to, by })
            }
        }
    }
}

impl Deserialize for Event {
    ghost Contents = { ⟦<Event as Described>⟧.known.Contents };

    ghost contents = { ⟦<Event as Described>⟧.known.contents };

    ghost reads = { ⟦<Event as Described>⟧.known.reads };

    ghost read_error = { ⟦<Event as Described>⟧.known.read_error };

    fn deserialize(alloc: Global, value: Ipld) -> Result<Event, SerdeError> {
        let names = ["Started", "Said", "Met", "Moved"];
        let (index, content) = value
            .deserialize_enum("Event", &names)?
            .variant_among(&names)?;
        match index {
            0 => {
                content.unit_variant()?;
                Ok(Event::Started)
            }
            1 => Ok(Event::Said(content.newtype_variant(alloc)?)),
            2 => {
                let (count, alone) = content.newtype_variant(alloc)?;
                Ok(Event::Met(count, alone))
            }
            _ => deserialize_variant!(alloc, content => Event::Moved { from, to, by }),
        }
    }
}

impl Lawful for Event {
    ghost plain = { ⟦<Event as Described>⟧.known.plain };

    ghost round_trip = { ⟦<Event as Described>⟧.known.law };
}
// [end: event]

// [begin: newtype]
/// A length, in whole metres.
#[derive(Debug, PartialEq, Eq, Drop)]
pub struct Metres(pub u32);

impl Described for Metres {
    ghost known = { around (λ m. m.0) u32 };
}

impl Serialize for Metres {
    ghost image = { ⟦<Metres as Described>⟧.known.image };

    ghost write_error = { ⟦<Metres as Described>⟧.known.write_error };

    fn serialize(&self, alloc: Global, serializer: Serializer) -> Result<Ipld, SerdeError> {
        self.0.serialize(alloc, serializer)
    }
}

impl Deserialize for Metres {
    ghost Contents = { ⟦<Metres as Described>⟧.known.Contents };

    ghost contents = { ⟦<Metres as Described>⟧.known.contents };

    ghost reads = { ⟦<Metres as Described>⟧.known.reads };

    ghost read_error = { ⟦<Metres as Described>⟧.known.read_error };

    fn deserialize(alloc: Global, value: Ipld) -> Result<Metres, SerdeError> {
        Ok(Metres(from_ipld(alloc, value)?))
    }
}

impl Lawful for Metres {
    ghost plain = { ⟦<Metres as Described>⟧.known.plain };

    ghost round_trip = { ⟦<Metres as Described>⟧.known.law };
}
// [end: newtype]

// [begin: tuple]
/// A place on a map.
#[derive(Debug, PartialEq, Eq, Drop)]
pub struct Place(pub String, pub i64, pub i64);

impl Described for Place {
    ghost known = { around (λ p. (p.0, p.1, p.2)) (triple string i64 i64) };
}

impl Serialize for Place {
    ghost image = { ⟦<Place as Described>⟧.known.image };

    ghost write_error = { ⟦<Place as Described>⟧.known.write_error };

    fn serialize(&self, alloc: Global, serializer: Serializer) -> Result<Ipld, SerdeError> {
        (&self.0, &self.1, &self.2).serialize(alloc, serializer)
    }
}

impl Deserialize for Place {
    ghost Contents = { ⟦<Place as Described>⟧.known.Contents };

    ghost contents = { ⟦<Place as Described>⟧.known.contents };

    ghost reads = { ⟦<Place as Described>⟧.known.reads };

    ghost read_error = { ⟦<Place as Described>⟧.known.read_error };

    fn deserialize(alloc: Global, value: Ipld) -> Result<Place, SerdeError> {
        let (name, east, north) = from_ipld(alloc, value)?;
        Ok(Place(name, east, north))
    }
}

impl Lawful for Place {
    ghost plain = { ⟦<Place as Described>⟧.known.plain };

    ghost round_trip = { ⟦<Place as Described>⟧.known.law };
}
// [end: tuple]

// [begin: photo]
/// A photo that was taken.
#[derive(Debug, PartialEq, Eq, Drop)]
pub struct Photo {
    /// The subject, if it was given.
    pub title: Option<String>,
    /// The file.
    pub file: ByteBuf,
    /// The number of people who like it, if they were asked.
    pub likes: Option<i64>,
}

impl Described for Photo {
    ghost known = { structure (optional (codes "title") (λ p. p.title) string
        ∷ field (codes "file") (λ p. p.file) byte_buf
        ∷ optional (codes "likes") (λ p. p.likes) i64 ∷ []) (λ _. refl) };
}

impl Serialize for Photo {
    ghost image = { ⟦<Photo as Described>⟧.known.image };

    ghost write_error = { ⟦<Photo as Described>⟧.known.write_error };

    fn serialize(&self, alloc: Global, serializer: Serializer) -> Result<Ipld, SerdeError> {
        serialize_struct!(alloc, serializer, self => Photo { title, file, likes })
    }
}

impl Deserialize for Photo {
    ghost Contents = { ⟦<Photo as Described>⟧.known.Contents };

    ghost contents = { ⟦<Photo as Described>⟧.known.contents };

    ghost reads = { ⟦<Photo as Described>⟧.known.reads };

    ghost read_error = { ⟦<Photo as Described>⟧.known.read_error };

    fn deserialize(alloc: Global, value: Ipld) -> Result<Photo, SerdeError> {
        deserialize_struct!(alloc, value => Photo { title: optional, file, likes: optional })
    }
}

impl Lawful for Photo {
    ghost plain = { ⟦<Photo as Described>⟧.known.plain };

    ghost round_trip = { ⟦<Photo as Described>⟧.known.law };
}
// [end: photo]

// [begin: empty]
/// A mark without content.
#[derive(Debug, PartialEq, Eq, Drop)]
pub struct Mark {}

impl Described for Mark {
    ghost known = { structure [] (λ _. refl) };
}

impl Serialize for Mark {
    ghost image = { ⟦<Mark as Described>⟧.known.image };

    ghost write_error = { ⟦<Mark as Described>⟧.known.write_error };

    fn serialize(&self, alloc: Global, serializer: Serializer) -> Result<Ipld, SerdeError> {
        serialize_struct!(alloc, serializer, self => Mark {})
    }
}

impl Deserialize for Mark {
    ghost Contents = { ⟦<Mark as Described>⟧.known.Contents };

    ghost contents = { ⟦<Mark as Described>⟧.known.contents };

    ghost reads = { ⟦<Mark as Described>⟧.known.reads };

    ghost read_error = { ⟦<Mark as Described>⟧.known.read_error };

    fn deserialize(alloc: Global, value: Ipld) -> Result<Mark, SerdeError> {
        deserialize_struct!(alloc, value => Mark {})
    }
}

impl Lawful for Mark {
    ghost plain = { ⟦<Mark as Described>⟧.known.plain };

    ghost round_trip = { ⟦<Mark as Described>⟧.known.law };
}
// [end: empty]

// [begin: signal]
/// A signal on the way.
#[derive(Debug, PartialEq, Eq, Drop)]
pub enum Signal {
    /// To stop.
    Stop {},
    /// To go.
    Go {
        /// The speed.
        speed: i64,
        /// The destination, if it is known.
        to: Option<String>,
    },
}

impl Described for Signal {
    ghost use Rattle.test_rows.specs.declared.own.described_forms.Signal.TheVariants.{Stop, Go};

    ghost known = { enumeration (has_fields (codes "Stop") [] (λ _. refl)
        ∷ has_fields (codes "Go") (named (codes "speed") i64 ∷ named_optional (codes "to") string ∷ []) (λ _. refl) ∷ [])
        (elim [ Stop ↦ inl tt | Go s t ↦ inr (inl (s, t)) ]) refl };
}

impl Serialize for Signal {
    ghost image = { ⟦<Signal as Described>⟧.known.image };

    ghost write_error = { ⟦<Signal as Described>⟧.known.write_error };

    fn serialize(&self, alloc: Global, serializer: Serializer) -> Result<Ipld, SerdeError> {
        match self {
            Signal::Stop {} => serialize_variant!(alloc, serializer => Stop {}),
            Signal::Go { speed, to } => serialize_variant!(alloc, serializer => Go { speed, to }),
        }
    }
}

impl Deserialize for Signal {
    ghost Contents = { ⟦<Signal as Described>⟧.known.Contents };

    ghost contents = { ⟦<Signal as Described>⟧.known.contents };

    ghost reads = { ⟦<Signal as Described>⟧.known.reads };

    ghost read_error = { ⟦<Signal as Described>⟧.known.read_error };

    fn deserialize(alloc: Global, value: Ipld) -> Result<Signal, SerdeError> {
        let names = ["Stop", "Go"];
        let (index, content) = value
            .deserialize_enum("Signal", &names)?
            .variant_among(&names)?;
        match index {
            0 => deserialize_variant!(alloc, content => Signal::Stop {}),
            _ => deserialize_variant!(alloc, content => Signal::Go { speed, to: optional }),
        }
    }
}

impl Lawful for Signal {
    ghost plain = { ⟦<Signal as Described>⟧.known.plain };

    ghost round_trip = { ⟦<Signal as Described>⟧.known.law };
}
// [end: signal]
