//! A value of a custom type, written as a block and read from it.

ghost use Rattle.std.specs.Prelude.{[], ◌∷◌, false, codes};
ghost use Rattle.ipld_de.specs.Described.{refl, structure, field, string, u64, option, cid};
ghost use Rattle.ipld_explain.specs.Fields.{StructFails};

use dag_cbor_serde::{explain_slice, from_slice, to_vec};
use ipld_cid::Cid;
use ipld_de::{
    Described, Deserialize, Field, ImageReader, Lawful, Unread, deserialize_struct,
    read_struct_image, serialize_struct, write_struct,
};
use ipld_explain::{Explain, ExplainFields, Explanation, explain_struct};
use ipld_ser::{ImageWriter, SerdeError, Serialize, Serializer, Unwritten};
use ipld_tree::{Ipld, Limits};
use std::alloc::{AllocError, Global};

// [begin: photo]
/// A photo in an album.
#[derive(Debug, PartialEq, Eq, Drop)]
pub struct Photo {
    /// The subject of the photo.
    pub title: String,
    /// The time when it was taken, in seconds since 1970.
    pub taken: u64,
    /// The place where it was taken.
    pub place: Option<String>,
    /// The block of its pixels.
    pub pixels: Cid,
}
// [end: photo]

// [begin: describe]
/// A Map of the four fields. Other names are ignored.
impl Described for Photo {
    ghost known = { structure (field (codes "title") (λ p. p.title) string
        ∷ field (codes "taken") (λ p. p.taken) u64
        ∷ field (codes "place") (λ p. p.place) (option string)
        ∷ field (codes "pixels") (λ p. p.pixels) cid ∷ []) (λ _. refl) };
}
// [end: describe]

// [begin: write]
impl Serialize for Photo {
    ghost image = { ⟦<Photo as Described>⟧.known.image };

    ghost write_error = { ⟦<Photo as Described>⟧.known.write_error };

    fn serialize(&self, alloc: Global, serializer: Serializer) -> Result<Ipld, SerdeError> {
        serialize_struct!(alloc, serializer, self => Photo { title, taken, place, pixels })
    }

    // [begin: parts]
    fn write_image<W: ImageWriter>(&self, alloc: Global, writer: &mut W) -> Result<(), Unwritten> {
        write_struct!(alloc, writer, self => Photo { title, taken, place, pixels })
    }
    // [end: parts]
}
// [end: write]

// [begin: read]
impl Deserialize for Photo {
    ghost Contents = { ⟦<Photo as Described>⟧.known.Contents };

    ghost contents = { ⟦<Photo as Described>⟧.known.contents };

    ghost reads = { ⟦<Photo as Described>⟧.known.reads };

    ghost read_error = { ⟦<Photo as Described>⟧.known.read_error };

    fn deserialize(alloc: Global, value: Ipld) -> Result<Photo, SerdeError> {
        deserialize_struct!(alloc, value => Photo { title, taken, place, pixels })
    }

    // [begin: image]
    fn read_image<R: ImageReader>(
        alloc: Global,
        reader: &mut R,
        levels: usize,
    ) -> Result<Photo, Unread> {
        read_struct_image!(alloc, reader, levels => Photo { title, taken, place, pixels })
    }
    // [end: image]
}
// [end: read]

// [begin: law]
/// Plain if the place is.
impl Lawful for Photo {
    ghost plain = { ⟦<Photo as Described>⟧.known.plain };

    ghost round_trip = { ⟦<Photo as Described>⟧.known.law };
}
// [end: law]

// [begin: explain]
type PhotoFields = (
    Field<String>,
    (Field<u64>, (Field<Option<String>>, Field<Cid>)),
);

impl Explain for Photo {
    ghost fails = { StructFails false ⟦<PhotoFields as ExplainFields>⟧.fields
        (codes "title" ∷ codes "taken" ∷ codes "place" ∷ codes "pixels" ∷ []) };

    fn explain(alloc: Global, value: Ipld) -> Result<Option<Explanation>, AllocError> {
        explain_struct::<PhotoFields>(alloc, value, &["title", "taken", "place", "pixels"])
    }
}
// [end: explain]

// [begin: block]
/// Writes a photo as a block, and reads the photo from it.
pub fn through_block(alloc: Global, photo: &Photo) -> anyhow::Result<Photo> {
    let block = to_vec(alloc, photo)?;
    let same: Photo = from_slice(alloc, &block)?;
    Ok(same)
}
// [end: block]

fn ferry(alloc: Global) -> anyhow::Result<Photo> {
    Ok(Photo {
        title: String::from_str(alloc, "Ferry")?,
        taken: 1_720_000_000,
        place: None,
        pixels: Cid::from_text(alloc, "bafkqaaa")?,
    })
}

// [begin: why]
/// Prints why a block is not a photo, and the place of the error.
fn show_why(rt: &impl Print, alloc: Global, block: &[u8]) -> anyhow::Result<()> {
    match explain_slice::<Photo>(alloc, block, &Limits::default())? {
        Some(explanation) => println!(rt; "{explanation}")?,
        None => println!(rt; "a photo")?,
    }
    Ok(())
}
// [end: why]

/// Prints the block of a photo, whether the photo read from it is the same, and why another block
/// is not a photo.
pub fn show(rt: &impl Print, alloc: Global) -> anyhow::Result<()> {
    let photo = ferry(alloc)?;
    println!(rt; "{}", hex::encode(alloc, &to_vec(alloc, &photo)?)?)?;
    let same = through_block(alloc, &photo)?;
    println!(rt; "the same photo: {}", same == photo)?;
    match from_slice::<Photo>(alloc, b"\xa1\x65title\x65Ferry") {
        Ok(_) => println!(rt; "a photo of one field")?,
        Err(error) => println!(rt; "{error}")?,
    }
    show_why(rt, alloc, b"\xa1\x65title\x65Ferry")?;
    show_why(rt, alloc, b"\xa1\x65title\x01")
}
